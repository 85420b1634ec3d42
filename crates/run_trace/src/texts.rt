//! The words of the lines of a trace.

ghost use Rattle.std.specs.Prelude.{◌≡◌, ◌++◌, OnOk, flat_map};
ghost use Rattle.run_trace.specs.Texts.{name_text, lock_text, held_text, holder_text, holders_text, asked_text, kept_text, answer_text, death_text, block_text, purpose_text, head_text, line_text};

use core_state::Phase;
use lock_db::{LockDb, LockName, Owner};
use plain_cat::{Cmd, Entry, Mode, NoMemory, Reply};
use plain_texts::{
    push_bytes, push_command, push_count, push_mode, push_number, push_reply, push_stage,
};
use std::alloc::Global;

// Appends the name of a lock.
#[tactic(auto, unfolding(crate::specs::Texts::name_text))]
fn push_name(alloc: Global, out: &mut Vec<u8>, name: LockName) -> Result<(), NoMemory>
    ensures { OnOk result (out.new.items ≡ out.old.items ++ name_text name) }
{
    match name {
        LockName::S(n) => {
            push_bytes(out, b"S(")?;
            push_number(alloc, out, n)?;
            push_bytes(out, b")")
        }
        LockName::A(n) => {
            push_bytes(out, b"A(")?;
            push_number(alloc, out, n)?;
            push_bytes(out, b")")
        }
        LockName::Q => push_bytes(out, b"Q"),
        LockName::X => push_bytes(out, b"X"),
        LockName::V => push_bytes(out, b"V"),
    }
}

/// Appends a lock: its name, and the mode in which it is asked for or held.
#[tactic(auto, unfolding(crate::specs::Texts::lock_text))]
pub fn push_lock(alloc: Global, out: &mut Vec<u8>, lock: (LockName, Mode)) -> Result<(), NoMemory>
    ensures { OnOk result (out.new.items ≡ out.old.items ++ lock_text lock) }
{
    push_name(alloc, out, lock.0)?;
    push_bytes(out, b" ")?;
    push_mode(out, lock.1)
}

// Appends the mode in which a node holds a lock, if that is not NL.
#[tactic(auto, unfolding(crate::specs::Texts::held_text))]
fn push_held(alloc: Global, out: &mut Vec<u8>, node: u8, mode: Option<Mode>) -> Result<(), NoMemory>
    ensures { OnOk result (out.new.items ≡ out.old.items ++ held_text node mode) }
{
    match mode {
        None | Some(Mode::NL) => Ok(()),
        Some(mode) => {
            push_bytes(out, b", N")?;
            push_number(alloc, out, u32::from(node))?;
            push_bytes(out, b" has ")?;
            push_mode(out, mode)
        }
    }
}

// The same of the lock on a name that another node has.
#[tactic(auto, unfolding(crate::specs::Texts::holder_text))]
fn push_holder(
    alloc: Global,
    out: &mut Vec<u8>,
    locks: &LockDb,
    name: LockName,
    node: u8,
    other: u8,
) -> Result<(), NoMemory>
    ensures { OnOk result (out.new.items ≡ out.old.items ++ holder_text locks.now name node other) }
{
    if other == node {
        return Ok(());
    }
    let owner = Owner {
        node: other,
        part: 0,
    };
    push_held(alloc, out, other, locks.mode(name, owner))
}

// Appends who else, of so many nodes, holds a lock.
fn push_holders(
    alloc: Global,
    out: &mut Vec<u8>,
    locks: &LockDb,
    name: LockName,
    node: u8,
    count: u8,
) -> Result<(), NoMemory>
    ensures { OnOk result (out.new.items ≡ out.old.items ++ holders_text locks.now name node count) }
{
    for other in 0..count {
        push_holder(alloc, out, locks, name, node, other + 1)?;
    }
    Ok(())
}

/// Appends that a node, one of so many, has asked for a lock: it was granted, or it stands in a queue, and who holds it.
#[tactic(auto, unfolding(crate::specs::Texts::asked_text))]
pub fn push_asked(
    alloc: Global,
    out: &mut Vec<u8>,
    locks: &LockDb,
    count: u8,
    node: u8,
    lock: (LockName, Mode),
) -> Result<(), NoMemory>
    ensures { OnOk result (out.new.items ≡ out.old.items ++ asked_text locks.now count node lock) }
{
    push_bytes(out, b"lock ")?;
    push_lock(alloc, out, lock)?;
    if locks.queued(lock.0, Owner { node, part: 0 }) {
        push_bytes(out, b" queued")?;
        push_holders(alloc, out, locks, lock.0, node, count)
    } else {
        push_bytes(out, b" granted")
    }
}

// Appends the locks that a node keeps behind an answer.
fn push_kept(alloc: Global, out: &mut Vec<u8>, kept: &[(LockName, Mode)]) -> Result<(), NoMemory>
    ensures { OnOk result (out.new.items ≡ out.old.items ++ flat_map kept_text kept.now) }
{
    for lock in kept {
        push_one_kept(alloc, out, *lock)?;
    }
    Ok(())
}

#[tactic(auto, unfolding(crate::specs::Texts::kept_text))]
fn push_one_kept(alloc: Global, out: &mut Vec<u8>, lock: (LockName, Mode)) -> Result<(), NoMemory>
    ensures { OnOk result (out.new.items ≡ out.old.items ++ kept_text lock) }
{
    push_bytes(out, b"; keeps ")?;
    push_lock(alloc, out, lock)
}

/// Appends an answer, and the locks that the node keeps behind it.
#[tactic(auto, unfolding(crate::specs::Texts::answer_text))]
pub fn push_answer(
    alloc: Global,
    out: &mut Vec<u8>,
    cmd: &Cmd,
    reply: &Reply,
    kept: &[(LockName, Mode)],
) -> Result<(), NoMemory>
    ensures { OnOk result (out.new.items ≡ out.old.items ++ answer_text cmd.now reply.now kept.now) }
{
    push_bytes(out, b"answers ")?;
    push_command(alloc, out, cmd)?;
    push_bytes(out, b" = ")?;
    push_reply(alloc, out, reply)?;
    push_kept(alloc, out, kept)
}

/// Appends a death, by its entry.
#[tactic(auto, unfolding(crate::specs::Texts::death_text))]
pub fn push_death(alloc: Global, out: &mut Vec<u8>, entry: &Entry) -> Result<(), NoMemory>
    ensures { OnOk result (out.new.items ≡ out.old.items ++ death_text entry.now) }
{
    let Entry::Died {
        stage,
        clusters,
        numbers,
        ..
    } = entry
    else {
        return Ok(());
    };
    push_bytes(out, b"dies at ")?;
    push_stage(out, *stage)?;
    push_bytes(out, b", leaks ")?;
    push_number(alloc, out, *clusters)?;
    push_bytes(out, b" clusters, ")?;
    push_count(alloc, out, numbers.items().len())?;
    push_bytes(out, b" numbers")
}

/// Appends a word for what is done with a block, its number, and what it is for.
#[tactic(auto, unfolding(crate::specs::Texts::block_text))]
pub fn push_block(
    alloc: Global,
    out: &mut Vec<u8>,
    verb: &[u8],
    lbn: u32,
    why: &[u8],
) -> Result<(), NoMemory>
    ensures { OnOk result (out.new.items ≡ out.old.items ++ block_text verb.now lbn why.now) }
{
    push_bytes(out, verb)?;
    push_number(alloc, out, lbn)?;
    push_bytes(out, why)
}

/// What a write of the rules for space is for, by their phase.
#[tactic(auto, unfolding(crate::specs::Texts::purpose_text))]
pub fn purpose(phase: Phase) -> &'static [u8]
    ensures { result.now ≡ purpose_text phase }
{
    match phase {
        Phase::Off => b" for space",
        Phase::Fill => b" to fill the stock",
        Phase::Drain => b" to give the stock back",
        Phase::Last => b" for the command",
        Phase::Back => b" to give the stock back",
    }
}

// Appends what a line begins with.
#[tactic(auto, unfolding(crate::specs::Texts::head_text))]
fn push_head(
    alloc: Global,
    out: &mut Vec<u8>,
    step: usize,
    node: u8,
    turn: &[u8],
) -> Result<(), NoMemory>
    ensures { OnOk result (out.new.items ≡ out.old.items ++ head_text step node turn.now) }
{
    push_count(alloc, out, step)?;
    push_bytes(out, b" N")?;
    push_number(alloc, out, u32::from(node))?;
    push_bytes(out, b" ")?;
    push_bytes(out, turn)?;
    push_bytes(out, b" ")
}

/// Appends a line: the number of the step, the node, the number of its turn or `-`, and what happened. Where nothing did there is none.
#[tactic(auto, unfolding(crate::specs::Texts::line_text))]
pub fn push_line(
    alloc: Global,
    out: &mut Vec<u8>,
    step: usize,
    node: u8,
    turn: &[u8],
    what: &[u8],
) -> Result<(), NoMemory>
    ensures { OnOk result (out.new.items ≡ out.old.items ++ line_text step node turn.now what.now) }
{
    match what {
        [] => Ok(()),
        [_, ..] => {
            push_head(alloc, out, step, node, turn)?;
            push_bytes(out, what)?;
            push_bytes(out, b"\n")
        }
    }
}
