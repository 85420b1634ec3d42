//! Random lists of events. What owners believe is worked out from the answers alone, and goes together after each event. Each value
//! block that is granted has one byte in all its places, as each that is written.

use dlm_core::{Dlm, Event, LockName, Mode, Owner, Told};
use std::test::Fail;

const LISTS: u32 = 200;

const EVENTS: u32 = 400;

const NODES: u8 = 4;

#[derive(Clone, Copy)]
struct Belief {
    owner: Owner,
    name: LockName,
    mode: Mode,
}

fn owner(node: u8, part: u8) -> Owner {
    Owner { node, part }
}

fn next(seed: u32) -> u32 {
    seed.wrapping_mul(1_103_515_245).wrapping_add(12_345) % 2_147_483_648
}

fn mode_of(n: u32) -> Mode {
    match n % 6 {
        0 => Mode::NL,
        1 => Mode::CR,
        2 => Mode::CW,
        3 => Mode::PR,
        4 => Mode::PW,
        _ => Mode::EX,
    }
}

fn name_of(n: u32) -> LockName {
    match n % 3 {
        0 => LockName::S(7),
        1 => LockName::A(2),
        _ => LockName::V,
    }
}

fn node_of(n: u32) -> u8 {
    (n % NODES as u32) as u8 + 1
}

// An event: mostly a delivery, seldom a death.
fn event_of(a: u32, b: u32, c: u32) -> Event {
    let who = owner(node_of(b), (b / 64 % 2) as u8);
    match a % 64 {
        0 => Event::Kill { node: node_of(b) },
        1..=20 => Event::Ask {
            owner: who,
            name: name_of(c),
            mode: mode_of(c / 8),
            fill: (c % 256) as u8,
        },
        21..=28 => Event::Drop {
            owner: who,
            name: name_of(c),
            fill: (c % 256) as u8,
        },
        _ => Event::Pass {
            from: node_of(b),
            to: node_of(c),
        },
    }
}

// The table of modes.
fn goes_with(a: Mode, b: Mode) -> bool {
    match a {
        Mode::NL => true,
        Mode::CR => b != Mode::EX,
        Mode::CW => matches!(b, Mode::NL | Mode::CR | Mode::CW),
        Mode::PR => matches!(b, Mode::NL | Mode::CR | Mode::PR),
        Mode::PW => matches!(b, Mode::NL | Mode::CR),
        Mode::EX => b == Mode::NL,
    }
}

fn go_together(beliefs: &[Belief]) -> bool {
    for a in beliefs {
        for b in beliefs {
            if a.owner != b.owner && a.name == b.name && !goes_with(a.mode, b.mode) {
                return false;
            }
        }
    }
    true
}

fn forget(beliefs: &mut Vec<Belief>, owner: Owner, name: LockName) {
    beliefs.retain(|k| !(k.owner == owner && k.name == name));
}

// Whether an owner that believes a mode lowers it by asking for another.
fn lowers(beliefs: &[Belief], owner: Owner, name: LockName, mode: Mode) -> bool {
    for k in beliefs {
        if k.owner == owner && k.name == name {
            let (old, new) = (k.mode as u8, mode as u8);
            return new < old || (new == old && matches!(mode, Mode::PW | Mode::EX));
        }
    }
    false
}

fn believe(
    beliefs: &mut Vec<Belief>,
    owner: Owner,
    name: LockName,
    mode: Mode,
) -> Result<(), Fail> {
    forget(beliefs, owner, name);
    beliefs.push(Belief { owner, name, mode })?;
    Ok(())
}

// What owners believe after an event that is done.
fn note_done(beliefs: &mut Vec<Belief>, event: Event) -> Result<(), Fail> {
    match event {
        Event::Ask {
            owner,
            name,
            mode,
            ..
        } => {
            if lowers(beliefs.as_slice(), owner, name, mode) {
                return believe(beliefs, owner, name, mode);
            }
            Ok(())
        }
        Event::Drop { owner, name, .. } => {
            forget(beliefs, owner, name);
            Ok(())
        }
        Event::Kill { node } => {
            beliefs.retain(|k| k.owner.node != node);
            Ok(())
        }
        Event::Pass { .. } => Ok(()),
    }
}

// What owners believe after an event with this answer.
fn note(beliefs: &mut Vec<Belief>, event: Event, told: Told) -> Result<(), Fail> {
    match told {
        Told::Granted {
            owner,
            name,
            mode,
            ..
        } => believe(beliefs, owner, name, mode),
        Told::Done => note_done(beliefs, event),
        Told::Dead | Told::Busy | Told::NotHeld | Told::BadConvert | Told::Nothing => Ok(()),
    }
}

// Whether the value block of a grant has one byte in all its places.
fn is_even(told: Told) -> bool {
    match told {
        Told::Granted { value, .. } => value == [value[0]; 16],
        _ => true,
    }
}

// Whether what owners believe goes together after each event of a list.
fn is_safe(rt: &HostRuntime, start: u32) -> Result<bool, Fail> {
    let mut dlm = Dlm::new(rt.alloc(), NODES)?;
    let mut beliefs = Vec::new(rt.alloc());
    let mut seed = start;
    for _ in 0..EVENTS {
        let a = next(seed);
        let b = next(a);
        seed = next(b);
        let event = event_of(a / 65536, b / 65536, seed / 65536);
        let told = dlm.step(rt.alloc(), &event)?;
        note(&mut beliefs, event, told)?;
        if !is_even(told) || !go_together(beliefs.as_slice()) {
            return Ok(false);
        }
    }
    Ok(true)
}

#[test]
fn random_lists_are_safe(rt: HostRuntime) -> Result<(), Fail> {
    for list in 0..LISTS {
        assert!(rt;
            is_safe(&rt, list)?,
            "list {list}: locks go together, and value blocks are whole"
        );
    }
    Ok(())
}

// A script names no node that is not there, so this is asked of the database itself.
#[test]
fn a_node_that_is_not_there_is_dead(rt: HostRuntime) -> Result<(), Fail> {
    let mut dlm = Dlm::new(rt.alloc(), 1)?;
    let told = dlm.step(rt.alloc(), &Event::Kill { node: 2 })?;
    assert_eq!(rt; told, Told::Dead);
    Ok(())
}
