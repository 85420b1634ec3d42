//! The event of a turn, read off the world after it.

ghost use Rattle.std.specs.Prelude.{◌≡◌, ◌++◌, ◌-◌, OnOk, option_copied, slice_get};
ghost use Rattle.core_state.specs.Worlds.{state_of};
ghost use Rattle.run_trace.specs.Reads.{last_asked, locked_read, waiting_read, last_block, looked_read, plan_write, space_write, plan_writes, wrote_read, lowered_read, planned_read, ask_read, tried_read, answer_read, over_read, moved_read, turn_read};
ghost use Rattle.run_trace.specs.Steps.{last_entry};

use crate::marks::Mark;
use crate::texts::{purpose, push_answer, push_asked, push_block, push_lock};
use base_words::Block;
use core_state::{Node, Phase};
use core_step::{Kind, Turn};
use lock_db::{LockDb, LockName};
use node_locks::waits;
use op_law::{Ask, Operation, Plan, PlanWrite};
use plain_cat::{Entry, History, Mode, NoMemory};
use plain_texts::{push_bytes, push_count, push_number, push_stage};
use std::alloc::Global;

// Appends the last lock that was asked for.
fn push_last_asked(
    alloc: Global,
    out: &mut Vec<u8>,
    locks: &LockDb,
    count: u8,
    node: u8,
    row: &[(LockName, Mode)],
) -> Result<(), NoMemory>
    ensures { OnOk result (out.new.items ≡ out.old.items ++ last_asked locks.now count node row.now) }
{
    match row.last() {
        Some(lock) => push_asked(alloc, out, locks, count, node, *lock),
        None => Ok(()),
    }
}

// Appends the lock that a turn took.
#[tactic(auto, unfolding(crate::specs::Reads::locked_read))]
fn push_locked<O: Operation>(
    alloc: Global,
    out: &mut Vec<u8>,
    mark: Mark,
    locks: &LockDb,
    count: u8,
    node: u8,
    at: &Node<O>,
) -> Result<(), NoMemory>
    ensures { OnOk result (out.new.items ≡ out.old.items ++ locked_read mark locks.now count node (state_of O.cmd_is at.now)) }
{
    let row = at.asked.items();
    if mark.asked < row.len() {
        push_last_asked(alloc, out, locks, count, node, row)
    } else {
        push_last_asked(alloc, out, locks, count, node, at.claims.items())
    }
}

// Appends the lock for which a turn has begun to wait.
#[tactic(auto, unfolding(crate::specs::Reads::waiting_read))]
fn push_waiting<O: Operation>(
    alloc: Global,
    out: &mut Vec<u8>,
    mark: Mark,
    locks: &LockDb,
    count: u8,
    node: u8,
    at: &Node<O>,
) -> Result<(), NoMemory>
    ensures { OnOk result (out.new.items ≡ out.old.items ++ waiting_read mark locks.now count node (state_of O.cmd_is at.now)) }
{
    let row = at.asked.items();
    let claims = at.claims.items();
    if mark.asked < row.len() {
        push_last_asked(alloc, out, locks, count, node, row)
    } else if waits(locks, node, claims) && !mark.claimed {
        push_last_asked(alloc, out, locks, count, node, claims)
    } else {
        Ok(())
    }
}

// Appends the last block that was looked at.
fn push_last_block(
    alloc: Global,
    out: &mut Vec<u8>,
    verb: &[u8],
    why: &[u8],
    blocks: &[(u32, Block)],
) -> Result<(), NoMemory>
    ensures { OnOk result (out.new.items ≡ out.old.items ++ last_block verb.now why.now blocks.now) }
{
    match blocks.last() {
        Some(block) => push_block(alloc, out, verb, block.0, why),
        None => Ok(()),
    }
}

// Appends the block that a turn looked at.
#[tactic(auto, unfolding(crate::specs::Reads::looked_read))]
fn push_looked<O: Operation>(
    alloc: Global,
    out: &mut Vec<u8>,
    verb: &[u8],
    mark: Mark,
    at: &Node<O>,
) -> Result<(), NoMemory>
    ensures { OnOk result (out.new.items ≡ out.old.items ++ looked_read verb.now mark (state_of O.cmd_is at.now)) }
{
    let blocks = at.seen.blocks.items();
    if mark.looked < blocks.len() {
        push_last_block(alloc, out, verb, b"", blocks)
    } else {
        push_last_block(alloc, out, verb, b" for space", at.run.looked.items())
    }
}

// Appends a write of a plan.
#[tactic(auto, unfolding(crate::specs::Texts::block_text))]
fn push_plan_write(
    alloc: Global,
    out: &mut Vec<u8>,
    write: Option<&PlanWrite>,
) -> Result<(), NoMemory>
    ensures { OnOk result (out.new.items ≡ out.old.items ++ plan_write (option_copied write.entry)) }
{
    match write {
        Some(write) => {
            push_block(alloc, out, b"write ", write.lbn, b", stage ")?;
            push_stage(out, write.stage)
        }
        None => Ok(()),
    }
}

// Appends one of the rules for space.
fn push_space_write(
    alloc: Global,
    out: &mut Vec<u8>,
    phase: Phase,
    write: Option<&PlanWrite>,
) -> Result<(), NoMemory>
    ensures { OnOk result (out.new.items ≡ out.old.items ++ space_write phase (option_copied write.entry)) }
{
    match write {
        Some(write) => push_block(alloc, out, b"write ", write.lbn, purpose(phase)),
        None => Ok(()),
    }
}

// The last of the first writes, so many of them.
fn last_write(writes: &[PlanWrite], done: usize) -> Option<&PlanWrite>
    ensures { option_copied result ≡ slice_get writes.now (done - 1) }
{
    writes.get(done.saturating_sub(1))
}

// The writes of a plan.
fn plan_writes(plan: &Option<Plan>) -> &[PlanWrite]
    ensures { result.now ≡ plan_writes plan.now }
{
    match plan {
        Some(plan) => plan.writes.items(),
        None => &[],
    }
}

// Appends the write that a turn made.
#[tactic(auto, unfolding(crate::specs::Reads::wrote_read))]
fn push_wrote<O: Operation>(
    alloc: Global,
    out: &mut Vec<u8>,
    mark: Mark,
    at: &Node<O>,
) -> Result<(), NoMemory>
    ensures { OnOk result (out.new.items ≡ out.old.items ++ wrote_read mark (state_of O.cmd_is at.now)) }
{
    if mark.done < at.done {
        push_plan_write(alloc, out, last_write(plan_writes(&at.plan), at.done))
    } else {
        let write = last_write(at.run.writes.items(), at.run.made);
        push_space_write(alloc, out, at.run.phase, write)
    }
}

// What a turn lowered.
#[tactic(auto, unfolding(crate::specs::Reads::lowered_read))]
fn lowered(phase: Phase) -> &'static [u8]
    ensures { result.now ≡ lowered_read phase }
{
    match phase {
        Phase::Last => b"too little found, V and X to NL",
        _ => b"stock filled, V to NL",
    }
}

// Appends the plan that a turn made.
#[tactic(auto, unfolding(crate::specs::Reads::planned_read, crate::specs::Texts::block_text))]
fn push_planned(alloc: Global, out: &mut Vec<u8>, plan: &Option<Plan>) -> Result<(), NoMemory>
    ensures { OnOk result (out.new.items ≡ out.old.items ++ planned_read plan.now) }
{
    match plan {
        Some(plan) => {
            push_bytes(out, b"plan of ")?;
            push_count(alloc, out, plan.writes.items().len())?;
            push_bytes(out, b" writes")
        }
        None => Ok(()),
    }
}

// Appends the ask that was granted.
fn push_ask(alloc: Global, out: &mut Vec<u8>, ask: &Option<Ask>) -> Result<(), NoMemory>
    ensures { OnOk result (out.new.items ≡ out.old.items ++ ask_read ask.now) }
{
    match ask {
        Some(ask) => {
            push_bytes(out, b"ask ")?;
            push_lock(alloc, out, (LockName::A(ask.file), ask.mode))?;
            push_bytes(out, b" granted")
        }
        None => Ok(()),
    }
}

#[tactic(auto, unfolding(crate::specs::Reads::tried_read))]
fn push_tried(alloc: Global, out: &mut Vec<u8>, plan: &Option<Plan>) -> Result<(), NoMemory>
    ensures { OnOk result (out.new.items ≡ out.old.items ++ tried_read plan.now) }
{
    match plan {
        Some(plan) => push_ask(alloc, out, &plan.ask),
        None => Ok(()),
    }
}

// Appends the answer that is the last entry of a history.
#[tactic(auto, unfolding(crate::specs::Reads::answer_read))]
fn push_answered(
    alloc: Global,
    out: &mut Vec<u8>,
    last: Option<&Entry>,
    kept: &[(LockName, Mode)],
) -> Result<(), NoMemory>
    ensures { OnOk result (out.new.items ≡ out.old.items ++ answer_read (option_copied last.entry) kept.now) }
{
    match last {
        Some(Entry::Done { cmd, reply, .. }) => push_answer(alloc, out, cmd, reply, kept),
        _ => Ok(()),
    }
}

#[tactic(auto, unfolding(crate::specs::Reads::over_read))]
fn over(over: bool) -> &'static [u8]
    ensures { result.now ≡ over_read over }
{
    if over { b"leaves" } else { b"" }
}

// Appends what a turn of this kind made.
fn push_moved<O: Operation>(
    alloc: Global,
    out: &mut Vec<u8>,
    mark: Mark,
    kind: Kind,
    locks: &LockDb,
    count: u8,
    node: u8,
    at: &Node<O>,
) -> Result<(), NoMemory>
    ensures { OnOk result (out.new.items ≡ out.old.items ++ moved_read mark kind locks.now count node (state_of O.cmd_is at.now)) }
{
    match kind {
        Kind::Locked => push_locked(alloc, out, mark, locks, count, node, at),
        Kind::Used => push_looked(alloc, out, b"hit ", mark, at),
        Kind::Looked => push_looked(alloc, out, b"read ", mark, at),
        Kind::Wrote => push_wrote(alloc, out, mark, at),
        Kind::Lowered => push_bytes(out, lowered(at.run.phase)),
        Kind::Planned => push_planned(alloc, out, &at.plan),
        Kind::Tried => push_tried(alloc, out, &at.plan),
        Kind::Returned => push_bytes(out, b"stock given back, V to NL, X back"),
    }
}

/// Appends the event of the turn of a node, one of so many, of which this was told: it is read off the locks, the history and the node
/// after the turn, beside how the node stood before it.
#[tactic(auto, unfolding(crate::specs::Reads::turn_read))]
pub fn push_turn<O: Operation>(
    alloc: Global,
    out: &mut Vec<u8>,
    mark: Mark,
    turn: Turn,
    locks: &LockDb,
    count: u8,
    history: &History,
    node: u8,
    at: &Node<O>,
) -> Result<(), NoMemory>
    ensures { OnOk result (out.new.items ≡ out.old.items ++ turn_read mark turn locks.now count (last_entry history.now.items) node (state_of O.cmd_is at.now)) }
{
    match turn {
        Turn::Moved(kind) => push_moved(alloc, out, mark, kind, locks, count, node, at),
        Turn::Waiting => push_waiting(alloc, out, mark, locks, count, node, at),
        Turn::Answered => { push_answered(alloc, out, history.items().last(), at.kept.items()) }
        Turn::Over => push_bytes(out, over(at.over)),
    }
}
