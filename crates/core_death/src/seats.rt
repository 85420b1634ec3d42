//! The events of nodes: a turn, or the death in its place.

ghost use Rattle.std.specs.Prelude.{◌≡◌, ◌≤◌, ◌⊎◌, true, false, Err, IfOk, OnOk, OnErr, length};
ghost use Rattle.std.specs.List.{list_any};
ghost use Rattle.base_words.specs.Faults.{Rose};
ghost use Rattle.core_state.specs.Worlds.{IsOfWorld, state_of};
ghost use Rattle.core_state.specs.Images.{IsTorn};
ghost use Rattle.blk_drive.specs.Telling.{IsTold};
ghost use Rattle.blk_drive.specs.Telling.{told_as};
ghost use Rattle.core_state.specs.Asks.{writes_by};
ghost use Rattle.core_state.specs.Events.{is_write, next_event};
ghost use Rattle.core_state.specs.Deaths.{is_due, after_step};
ghost use Rattle.core_state.specs.Uses.{UsesTheDrives};
ghost use Rattle.core_step.specs.Memory.{takes_none};
ghost use Rattle.core_death.specs.Seats.{has_space_write, has_write, has_next, comes_by, is_of, kills_by, told_of_step};

use crate::killing::kill;
use blk_drive::ImageDev;
use core_state::{Node, World};
use core_step::{Turn, TurnFault, gives_back, stands, turn};
use op_law::{Operation, Plan};
use plain_cat::{Kill, KillAt};
use std::alloc::Global;

// How many writes a plan has now: those before its ask, or all of them where it has none or it was granted.
fn plan_writes(plan: &Plan, tried: bool) -> usize
    ensures { result ≡ length (writes_by plan.now.ask tried plan.now.writes) }
{
    let all = plan.writes.items().len();
    let Some(ask) = &plan.ask else { return all };
    let at = ask.at as usize;
    if tried || all <= at { all } else { at }
}

// Whether the rules for space of a node have a write to make.
fn has_space_write<O: Operation>(node: &Node<O>) -> bool
    ensures { result ≡ has_space_write (state_of O.cmd_is node.now) }
{
    node.run.made < node.run.writes.items().len()
}

// Whether a node makes a write next that is not over, does not wait, and gives no stock back.
fn has_write<O: Operation>(node: &Node<O>) -> bool
    ensures { result ≡ has_write (state_of O.cmd_is node.now) }
{
    match &node.plan {
        Some(plan) => node.done < plan_writes(plan, node.tried),
        None => has_space_write(node),
    }
}

// The same of one that gives stock back or not.
fn has_next<O: Operation>(node: &Node<O>, gives: bool) -> bool
    ensures { result ≡ has_next gives (state_of O.cmd_is node.now) }
{
    if gives {
        has_space_write(node)
    } else {
        has_write(node)
    }
}

/// Whether the next event of a node is a write, of its plan or by its rules for space. The nodes count from 1.
pub fn next_is_write<I: ImageDev, O: Operation>(w: &World<I, O>, node: u8) -> bool
    requires { IsOfWorld w.now.world node }
    ensures { result ≡ is_write (next_event w.now.world node) }
{
    w.keeps_the_rules();
    let at = &w.core.nodes[node as usize - 1];
    let gives = gives_back(&w.core, node);
    if w.is_over(node) || stands(&w.core, node, gives) {
        return false;
    }
    has_next(at, gives)
}

// Whether a kill comes in place of a turn of a node that has made so many turns and writes.
fn comes_at(at: KillAt, turns: u64, writes: u64, writing: bool) -> bool
    ensures { result ≡ comes_by at turns writes writing }
{
    match at {
        KillAt::Turn(t) => turns < t as u64 && t as u64 - turns == 1,
        KillAt::Write(k) => writing && writes < k as u64 && k as u64 - writes == 1,
    }
}

// Whether one of these kills does.
fn comes_now(kills: &[Kill], node: u8, turns: u64, writes: u64, writing: bool) -> bool
    ensures { result ≡ list_any (kills_by node turns writes writing) kills.now }
{
    kills.iter().any(|kill| kill.node == node && comes_at(kill.at, turns, writes, writing))
}

// Whether one of these kills is of the node.
fn is_named(kills: &[Kill], node: u8) -> bool
    ensures { result ≡ list_any (is_of node) kills.now }
{
    kills.iter().any(|kill| kill.node == node)
}

/// Whether the script kills a node in place of its next turn. The nodes count from 1.
pub fn is_due<I: ImageDev, O: Operation>(w: &World<I, O>, node: u8) -> bool
    requires { IsOfWorld w.now.world node }
    ensures { result ≡ is_due w.now.world node }
{
    let kills = w.script().kills.items();
    if !is_named(kills, node) {
        return false;
    }
    let writing = next_is_write(w, node);
    !w.is_over(node) && comes_now(kills, node, w.turns(node), w.writes(node), writing)
}

/// The next event of a node: its turn, with that turn's answer, or the death by which the script replaces it, which answers Over. A
/// death takes no memory and leaves the image as it is. A block that the turn uses from the node's cache is the drive's. The nodes count
/// from 1.
pub fn seat_event<I: ImageDev, O: Operation>(
    alloc: Global,
    w: &mut World<I, O>,
    node: u8,
) -> Result<Turn, TurnFault>
    requires { IsOfWorld w.old.world node }
    ensures moved { OnOk result (w.new.world ≡ after_step w.old.world node) }
    ensures answer { IfOk result (λ t. t ≡ told_of_step w.old.world w.new.world node) }
    ensures same { OnErr result (w.new.world ≡ w.old.world) }
    ensures turn { OnErr result (is_due w.old.world node ≡ false) }
    ensures memory { result ≡ Err TurnFault.NoMemory → takes_none w.old.world.locks node (next_event w.old.world node) ≡ false }
    ensures later { I.faults w.old.image ≤ I.faults w.new.image }
    ensures cause { result ≡ Err TurnFault.ImageFault → Rose (I.faults w.old.image) (I.faults w.new.image) }
    ensures before { result ≡ Err TurnFault.ImageFault → is_write (next_event w.old.world node) ≡ true }
    ensures torn { result ≡ Err TurnFault.ImageFault → IsTold (I.told w.old.image) w.old.world.blocks
        → IsTorn (I.told w.old.image) (I.told w.new.image) w.old.world.blocks (after_step w.old.world node).blocks }
    ensures drive { IsTold (I.told w.old.image) w.old.world.blocks
        → (I.told w.new.image ≡ told_as (I.told w.old.image) w.new.world.blocks) ⊎ (result ≡ Err TurnFault.ImageFault) }
    ensures used { OnOk result (is_due w.old.world node ≡ false → UsesTheDrives w.old.world node) }
{
    if is_due(w, node) {
        kill(w, node);
        return Ok(Turn::Over);
    }
    turn(alloc, w, node)
}
