//! What owners believe.

ghost use Rattle.std.specs.Prelude.{◌≡◌, OnOk, not, filter, find, position, unwrap_or, is_some};
ghost use Rattle.dlm_core.specs.Modes.{is_across, is_lowering, lowers, crosses, writes};
ghost use Rattle.dlm_core.specs.States.{is_at, hold_at, noted, asked_hold, put_before, is_lower, is_earlier_on, is_earlier};
ghost use Rattle.lock_db.specs.Names.{is_before, order_of};
ghost use Rattle.std.specs.declared.cmp.Ordering.{Ordering};
ghost use Rattle.lock_db.specs.Queues.{is_writing};

use crate::blocks::{Seen, unseen};
use crate::messages::Letter;
use lock_db::{LockName, Mode, NoMemory, Owner};
use std::cmp::Ordering;

/// What an owner believes of a name.
#[derive(Clone, Copy, Debug, PartialEq)]
pub struct Hold {
    /// The owner.
    pub owner: Owner,
    /// The resource.
    pub name: LockName,
    /// The mode of its lock, where it believes that it has one.
    pub belief: Option<Mode>,
    /// The mode that it has asked for and that is not granted yet.
    pub wait: Option<Mode>,
    /// What it has read or written last under its lock.
    pub seen: Seen,
}

fn is_across(old: Mode, new: Mode) -> bool
    ensures { result ≡ is_across old new }
{
    matches!((old, new), (Mode::CW, Mode::PR) | (Mode::PR, Mode::CW))
}

fn is_writing(mode: Mode) -> bool
    ensures { result ≡ is_writing mode }
{
    matches!(mode, Mode::PW | Mode::EX)
}

fn is_lowering(old: Mode, new: Mode) -> bool
    ensures { result ≡ is_lowering old new }
{
    let (from, to) = (old as u8, new as u8);
    !is_across(old, new) && (to < from || (to == from && is_writing(old)))
}

/// Whether an owner that believes this lowers its lock by asking for a mode.
pub(crate) fn lowers(belief: Option<Mode>, mode: Mode) -> bool
    ensures { result ≡ lowers belief mode }
{
    match belief {
        Some(old) => is_lowering(old, mode),
        None => false,
    }
}

/// Whether it asks for CW where it has PR, or for PR where it has CW.
pub(crate) fn crosses(belief: Option<Mode>, mode: Mode) -> bool
    ensures { result ≡ crosses belief mode }
{
    match belief {
        Some(old) => is_across(old, mode),
        None => false,
    }
}

/// Whether a call of an owner that has this lock writes the value block.
pub(crate) fn writes(lock: Option<Mode>, letter: Letter) -> bool
    ensures { result ≡ writes lock letter }
{
    match (lock, letter) {
        (Some(old), Letter::Ask(new)) => is_writing(old) && is_lowering(old, new),
        (Some(old), Letter::Drop) => is_writing(old),
        (Some(_), Letter::Grant(..) | Letter::Claim(_)) | (None, _) => false,
    }
}

/// The order of names: by kind, and names of one kind by number.
fn order(a: LockName, b: LockName) -> Ordering
    ensures { result ≡ order_of a b }
{
    a.cmp(&b)
}

/// Whether a name comes before another.
pub(crate) fn is_before(a: LockName, b: LockName) -> bool
    ensures { result ≡ is_before a b }
{
    matches!(order(a, b), Ordering::Less)
}

fn is_lower(a: Owner, b: Owner) -> bool
    ensures { result ≡ is_lower a b }
{
    a.node < b.node || (a.node == b.node && a.part < b.part)
}

fn is_earlier_on(a: bool, b: bool, first: Owner, second: Owner) -> bool
    ensures { result ≡ is_earlier_on a b first second }
{
    if a == b { is_lower(first, second) } else { a }
}

/// The order of what owners believe: by name, and on one name first who believes a lock, and then by owner.
fn is_earlier(a: Hold, b: Hold) -> bool
    ensures { result ≡ is_earlier a b }
{
    is_before(a.name, b.name)
        || (a.name == b.name
            && is_earlier_on(a.belief.is_some(), b.belief.is_some(), a.owner, b.owner))
}

/// What an owner believes once it has asked: a lowering at once, and of anything else that it waits for it.
pub(crate) fn asked_hold(hold: Hold, mode: Mode) -> Hold
    ensures { result ≡ asked_hold hold mode }
{
    if lowers(hold.belief, mode) {
        Hold {
            belief: Some(mode),
            ..hold
        }
    } else {
        Hold {
            wait: Some(mode),
            ..hold
        }
    }
}

fn find(holds: &[Hold], owner: Owner, name: LockName) -> Option<Hold>
    ensures { result ≡ find (is_at owner name) holds.now }
{
    holds
        .iter()
        .copied()
        .find(|h| h.owner == owner && h.name == name)
}

/// What an owner believes of a name.
pub(crate) fn hold_at(holds: &[Hold], owner: Owner, name: LockName) -> Hold
    ensures { result ≡ hold_at owner name holds.now }
{
    find(holds, owner, name).unwrap_or(Hold {
        owner,
        name,
        belief: None,
        wait: None,
        seen: unseen(),
    })
}

/// Takes out what an owner believes of a name.
fn forget(holds: &mut Vec<Hold>, owner: Owner, name: LockName)
    ensures { holds.new.items ≡ filter (λ k. not (is_at owner name k)) holds.old.items }
{
    holds.retain(|h| !(h.owner == owner && h.name == name));
}

fn place(holds: &[Hold], hold: Hold) -> Option<usize>
    ensures { result ≡ position (λ k. is_earlier hold k) holds.now }
{
    holds.iter().position(|k| is_earlier(hold, *k))
}

#[tactic(auto, using(crate::proofs::Placing::put_some, crate::proofs::Placing::put_none))]
fn put(holds: &mut Vec<Hold>, hold: Hold) -> Result<(), NoMemory>
    ensures { OnOk result (holds.new.items ≡ put_before (λ k. is_earlier hold k) hold holds.old.items) }
{
    match place(holds.as_slice(), hold) {
        Some(i) => holds.insert(i, hold)?,
        None => holds.push(hold)?,
    }
    Ok(())
}

/// Notes what an owner believes of a name, in place of what it believed.
pub(crate) fn note(holds: &mut Vec<Hold>, hold: Hold) -> Result<(), NoMemory>
    ensures { OnOk result (holds.new.items ≡ noted hold holds.old.items) }
{
    forget(holds, hold.owner, hold.name);
    put(holds, hold)
}
