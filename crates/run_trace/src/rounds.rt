//! Whose turn comes in rotation.

ghost use Rattle.std.specs.Prelude.{◌≡◌, ◌+◌, ◌-◌, ◌≤◌, Some, None, IfSome, length, false};
ghost use Rattle.core_state.specs.Worlds.{IsOfWorld};
ghost use Rattle.core_state.specs.Events.{is_over};
ghost use Rattle.core_state.specs.Ends.{AllOver};
ghost use Rattle.run_engine.specs.Walks.{first_from, next_from, budget_of};

use blk_drive::ImageDev;
use core_state::World;
use op_law::{FILE_MOST, Operation};

// More than all events of a command, as a run counts them.
const COMMAND_STEPS: usize = 16 * FILE_MOST as usize + 768;

/// The number of nodes.
pub fn nodes_of<I: ImageDev, O: Operation>(w: &World<I, O>) -> u8
    ensures count { result ≡ length w.now.world.nodes }
    ensures few { result ≤ 8 }
{
    w.keeps_the_rules();
    w.script().nodes
}

/// For how many turns in rotation a run goes on at most.
#[tactic(auto, unfolding(run_engine::specs::Walks::budget_of))]
pub fn budget_of<I: ImageDev, O: Operation>(w: &World<I, O>) -> u32
    ensures { result ≡ budget_of w.now.world }
{
    w.keeps_the_rules();
    let nodes = nodes_of(w) as usize;
    let commands = w.script().lines.items().len();
    (COMMAND_STEPS * nodes * (commands + nodes)) as u32
}

// The first node, from this one to the last, that is not over.
fn first_from<I: ImageDev, O: Operation>(w: &World<I, O>, from: u8, last: u8) -> Option<u8>
    requires last { last ≡ length w.now.world.nodes }
    requires few { last ≤ 8 }
    requires from { 1 ≤ from }
    requires to { from ≤ last + 1 }
    ensures { result ≡ first_from w.now.world from (last + 1 - from) }
{
    for node in from..last + 1 {
        if !w.is_over(node) {
            return Some(node);
        }
    }
    None
}

/// The node whose turn comes in rotation, sought from this number on, if one is not over.
pub fn next_node<I: ImageDev, O: Operation>(w: &World<I, O>, from: u8) -> Option<u8>
    requires from { 1 ≤ from }
    requires to { from ≤ length w.now.world.nodes + 1 }
    ensures next { result ≡ next_from w.now.world from }
    ensures alive { IfSome result (λ n. is_over w.now.world n ≡ false) }
    ensures of_world { IfSome result (λ n. IsOfWorld w.now.world n) }
    ensures few { IfSome result (λ n. n ≤ 8) }
    ensures over { result ≡ None → AllOver w.now.world }
{
    let last = nodes_of(w);
    match first_from(w, from, last) {
        Some(node) => Some(node),
        None => first_from(w, 1, last),
    }
}
