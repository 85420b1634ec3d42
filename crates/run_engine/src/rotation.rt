//! Turns in rotation, until every node is over.

ghost use Rattle.std.specs.Prelude.{◌≡◌, ◌⊎◌, ◌+◌, ◌-◌, ◌≤◌, Some, None, Ok, Err, IfSome, OnOk, length, false};
ghost use Rattle.base_words.specs.Faults.{Rose};
ghost use Rattle.core_state.specs.Worlds.{IsOfWorld};
ghost use Rattle.blk_drive.specs.Telling.{IsTold};
ghost use Rattle.blk_drive.specs.Telling.{told_as};
ghost use Rattle.core_state.specs.Events.{is_over};
ghost use Rattle.run_engine.specs.Walks.{first_from, next_from, IsRotatedIn, budget_of, IsNextTurn, IsBeforeWrite, IsBeforeTaking};
ghost use Rattle.core_state.specs.Ends.{AllOver};

use crate::fault::RunFault;
use blk_drive::ImageDev;
use core_death::seat_event;
use core_state::World;
use op_law::Operation;
use std::alloc::Global;

/// The number of nodes.
pub fn nodes_of<I: ImageDev, O: Operation>(w: &World<I, O>) -> u8
    ensures count { result ≡ length w.now.world.nodes }
    ensures few { result ≤ 8 }
{
    w.keeps_the_rules();
    w.script().nodes
}

// The first node, from this one to the last, that is not over.
fn first_from<I: ImageDev, O: Operation>(w: &World<I, O>, from: u8, last: u8) -> Option<u8>
    requires last { last ≡ length w.now.world.nodes }
    requires few { last ≤ 8 }
    requires from { 1 ≤ from }
    requires to { from ≤ last + 1 }
    ensures { result ≡ first_from w.now.world from (last + 1 - from) }
{
    for node in from..last + 1 {
        if !w.is_over(node) {
            return Some(node);
        }
    }
    None
}

// The node whose turn comes in rotation, sought from this number on, if one is not over.
fn next_node<I: ImageDev, O: Operation>(w: &World<I, O>, from: u8) -> Option<u8>
    requires from { 1 ≤ from }
    requires to { from ≤ length w.now.world.nodes + 1 }
    ensures next { result ≡ next_from w.now.world from }
    ensures alive { IfSome result (λ n. is_over w.now.world n ≡ false) }
    ensures of_world { IfSome result (λ n. IsOfWorld w.now.world n) }
    ensures few { IfSome result (λ n. n ≤ 8) }
    ensures over { result ≡ None → AllOver w.now.world }
{
    let last = nodes_of(w);
    match first_from(w, from, last) {
        Some(node) => Some(node),
        None => first_from(w, 1, last),
    }
}

/// Turns in rotation from node 1 until every node is over, which is so after as many as the budget at most.
pub fn rotate<I: ImageDev, O: Operation>(
    alloc: Global,
    w: &mut World<I, O>,
    budget: u32,
) -> Result<(), RunFault>
    requires { budget ≡ budget_of w.old.world }
    ensures turns { IsRotatedIn budget w.old.world w.new.world }
    ensures over { OnOk result (AllOver w.new.world) }
    ensures later { I.faults w.old.image ≤ I.faults w.new.image }
    ensures cause { result ≡ Err RunFault.ImageFault → Rose (I.faults w.old.image) (I.faults w.new.image) }
    ensures before { result ≡ Err RunFault.ImageFault → IsBeforeWrite (IsNextTurn w.old.world w.new.world) w.old.world.blocks (I.told w.old.image) (I.told w.new.image) w.new.world }
    ensures memory { result ≡ Err RunFault.NoMemory → IsBeforeTaking (IsNextTurn w.old.world w.new.world) w.new.world }
    ensures drive { IsTold (I.told w.old.image) w.old.world.blocks
        → (I.told w.new.image ≡ told_as (I.told w.old.image) w.new.world.blocks) ⊎ (result ≡ Err RunFault.ImageFault) }
{
    w.keeps_the_rules();
    let mut from = 1u8;
    for _turns in 0..budget {
        match next_node(w, from) {
            Some(node) => {
                seat_event(alloc, w, node)?;
                w.keeps_the_rules();
                from = node + 1;
            }
            None => return Ok(()),
        }
    }
    Ok(())
}
