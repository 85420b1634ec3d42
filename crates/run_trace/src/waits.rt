//! The waits that a step ends.

ghost use Rattle.std.specs.Prelude.{◌≡◌, ◌++◌, ◌≤◌, OnOk, IfOk, Some, All, flat_map, length};
ghost use Rattle.core_state.specs.Worlds.{IsOfWorld, state_of, node_at};
ghost use Rattle.run_trace.specs.Steps.{row_by, waits_now, waiting_to, grant_of, granted_row, granted_in, grant_text, grants_text};

use crate::texts::{push_line, push_lock};
use blk_drive::ImageDev;
use core_state::{Node, World};
use lock_db::LockName;
use node_locks::waits;
use op_law::Operation;
use plain_cat::{Mode, NoMemory};
use plain_texts::push_bytes;
use std::alloc::Global;

/// By what a node has asked for a lock.
#[derive(Clone, Copy)]
pub enum Wait {
    /// By its rules for space.
    Space,

    /// For its command.
    Command,
}

/// A node of a world. The nodes count from 1.
pub fn node_of<I: ImageDev, O: Operation>(w: &World<I, O>, node: u8) -> &Node<O>
    requires { IsOfWorld w.now.world node }
    ensures { node_at w.now.world.nodes node ≡ Some (state_of O.cmd_is result.now) }
{
    &w.core.nodes[node as usize - 1]
}

// The locks that a node has asked for in this way.
fn row_by<O: Operation>(at: &Node<O>, by: Wait) -> &[(LockName, Mode)]
    ensures { result.now ≡ row_by by (state_of O.cmd_is at.now) }
{
    match by {
        Wait::Space => at.claims.items(),
        Wait::Command => at.asked.items(),
    }
}

// Whether the last of them stands in a queue.
#[tactic(auto, unfolding(crate::specs::Steps::waits_now))]
fn waits_now<I: ImageDev, O: Operation>(w: &World<I, O>, by: Wait, node: u8) -> bool
    requires { IsOfWorld w.now.world node }
    ensures { result ≡ waits_now w.now.world by node }
{
    waits(&w.core.locks, node, row_by(node_of(w, node), by))
}

// The nodes that wait in this way, of so many.
#[tactic(auto, unfolding(crate::specs::Steps::waiting_to))]
fn waiting<I: ImageDev, O: Operation>(
    alloc: Global,
    w: &World<I, O>,
    by: Wait,
    count: u8,
) -> Result<Vec<u8>, NoMemory>
    requires { count ≤ length w.now.world.nodes }
    ensures nodes { IfOk result (λ ns. ns.items ≡ waiting_to w.now.world by count) }
    ensures inside { IfOk result (λ ns. All (IsOfWorld w.now.world) ns.items) }
{
    let mut nodes = Vec::new(alloc);
    for node in 0..count {
        if waits_now(w, by, node + 1) {
            nodes.push(node + 1)?;
        }
    }
    Ok(nodes)
}

/// The nodes that wait before a step.
#[derive(Drop)]
pub struct Waiters {
    pub space: Vec<u8>,
    pub command: Vec<u8>,
}

/// The nodes of a world, of so many, that wait.
pub fn waiting_of<I: ImageDev, O: Operation>(
    alloc: Global,
    w: &World<I, O>,
    count: u8,
) -> Result<Waiters, NoMemory>
    requires { count ≡ length w.now.world.nodes }
    ensures space { IfOk result (λ ws. ws.space.items ≡ waiting_to w.now.world Wait.Space (length w.now.world.nodes)) }
    ensures command { IfOk result (λ ws. ws.command.items ≡ waiting_to w.now.world Wait.Command (length w.now.world.nodes)) }
    ensures space_inside { IfOk result (λ ws. All (IsOfWorld w.now.world) ws.space.items) }
    ensures command_inside { IfOk result (λ ws. All (IsOfWorld w.now.world) ws.command.items) }
{
    let space = waiting(alloc, w, Wait::Space, count)?;
    let command = waiting(alloc, w, Wait::Command, count)?;
    Ok(Waiters { space, command })
}

// The text of a grant: of the last lock of a row.
fn grant_text(alloc: Global, row: &[(LockName, Mode)]) -> Result<Vec<u8>, NoMemory>
    ensures { IfOk result (λ text. text.items ≡ granted_row row.now) }
{
    let mut text = Vec::new(alloc);
    if let Some(lock) = row.last() {
        push_bytes(&mut text, b"granted ")?;
        push_lock(alloc, &mut text, *lock)?;
    }
    Ok(text)
}

// Appends the line of a node that has waited, if it does no more, and has not died.
#[tactic(auto, unfolding(crate::specs::Steps::grant_text))]
fn push_grant<I: ImageDev, O: Operation>(
    alloc: Global,
    out: &mut Vec<u8>,
    step: usize,
    w: &World<I, O>,
    by: Wait,
    node: u8,
) -> Result<(), NoMemory>
    requires { IsOfWorld w.now.world node }
    ensures { OnOk result (out.new.items ≡ out.old.items ++ grant_text step w.now.world by node) }
{
    if waits_now(w, by, node) || w.is_over(node) {
        return Ok(());
    }
    let text = grant_text(alloc, row_by(node_of(w, node), by))?;
    push_line(alloc, out, step, node, b"-", text.as_slice())
}

// Appends the lines of these nodes.
fn push_granted<I: ImageDev, O: Operation>(
    alloc: Global,
    out: &mut Vec<u8>,
    step: usize,
    w: &World<I, O>,
    by: Wait,
    nodes: &[u8],
) -> Result<(), NoMemory>
    requires { All (IsOfWorld w.now.world) nodes.now }
    ensures { OnOk result (out.new.items ≡ out.old.items ++ flat_map (grant_text step w.now.world by) nodes.now) }
{
    for node in nodes {
        push_grant(alloc, out, step, w, by, *node)?;
    }
    Ok(())
}

/// Appends a line for each of the nodes that have waited before a step and do no more.
pub fn push_grants<I: ImageDev, O: Operation>(
    alloc: Global,
    out: &mut Vec<u8>,
    step: usize,
    w: &World<I, O>,
    before: &Waiters,
) -> Result<(), NoMemory>
    requires space { All (IsOfWorld w.now.world) before.now.space.items }
    requires command { All (IsOfWorld w.now.world) before.now.command.items }
    ensures { OnOk result (out.new.items ≡ out.old.items ++ (flat_map (grant_text step w.now.world Wait.Space) before.now.space.items
        ++ flat_map (grant_text step w.now.world Wait.Command) before.now.command.items)) }
{
    push_granted(alloc, out, step, w, Wait::Space, before.space.as_slice())?;
    push_granted(
        alloc,
        out,
        step,
        w,
        Wait::Command,
        before.command.as_slice(),
    )
}
