//! A walk with its lines: the plays of the schedule, and then turns in rotation.

ghost use Rattle.std.specs.Prelude.{◌≡◌, ◌++◌, ◌+◌, ◌<◌, ◌^◌, OnOk, IfOk, All, length};
ghost use Rattle.blk_drive.specs.Telling.{IsTold};
ghost use Rattle.plain_rules.specs.Own.{Whole};
ghost use Rattle.core_state.specs.Worlds.{IsOfWorld};
ghost use Rattle.core_state.specs.Ends.{AllOver};
ghost use Rattle.run_engine.specs.Walks.{after_play, played, Rotation, rotated, budget_of, IsRotatedIn, Stays};
ghost use Rattle.run_trace.specs.Steps.{play_text, plays_text, turns_text, walk_text};
ghost use Rattle.run_trace.specs.Walks.{HasTurned, HasWalked};

use crate::rounds::{budget_of, next_node};
use crate::steps::step;
use blk_drive::ImageDev;
use core_state::World;
use core_step::TurnFault;
use op_law::Operation;
use plain_cat::Plays;
use std::alloc::Global;

// A play of a node: its step, if it is not over.
#[tactic(auto, unfolding(run_engine::specs::Walks::after_play, crate::specs::Steps::play_text))]
fn play<I: ImageDev, O: Operation>(
    alloc: Global,
    out: &mut Vec<u8>,
    w: &mut World<I, O>,
    number: usize,
    node: u8,
) -> Result<(), TurnFault>
    requires { IsOfWorld w.old.world node }
    ensures played { OnOk result (w.new.world ≡ after_play w.old.world node) }
    ensures text { OnOk result (out.new.items ≡ out.old.items ++ play_text number w.old.world node) }
    ensures drive { OnOk result (IsTold (I.told w.old.image) w.old.world.blocks → IsTold (I.told w.new.image) w.new.world.blocks) }
{
    if !w.is_over(node) {
        step(alloc, out, w, number, node)?;
    }
    Ok(())
}

// The plays, in order.
fn play_all<I: ImageDev, O: Operation>(
    alloc: Global,
    out: &mut Vec<u8>,
    w: &mut World<I, O>,
    plays: &[u8],
) -> Result<(), TurnFault>
    requires { All (IsOfWorld w.old.world) plays.now }
    ensures played { OnOk result (w.new.world ≡ played plays.now w.old.world) }
    ensures text { OnOk result (out.new.items ≡ out.old.items ++ plays_text 1 plays.now w.old.world) }
    ensures drive { OnOk result (IsTold (I.told w.old.image) w.old.world.blocks → IsTold (I.told w.new.image) w.new.world.blocks) }
{
    let mut number = 1usize;
    for node in plays {
        play(alloc, out, w, number, *node)?;
        number += 1;
    }
    Ok(())
}

// Turns in rotation from node 1 until every node is over. The first has the number behind this one.
fn rotate<I: ImageDev, O: Operation>(
    alloc: Global,
    out: &mut Vec<u8>,
    w: &mut World<I, O>,
    made: usize,
    budget: u32,
) -> Result<(), TurnFault>
    requires budget { budget ≡ budget_of w.old.world }
    requires made { made < 2 ^ 63 }
    ensures turned { OnOk result (HasTurned budget (made + 1) w.old.world w.new.world out.old.items out.new.items) }
    ensures over { OnOk result (AllOver w.new.world) }
    ensures drive { OnOk result (IsTold (I.told w.old.image) w.old.world.blocks → IsTold (I.told w.new.image) w.new.world.blocks) }
{
    w.keeps_the_rules();
    let mut from = 1u8;
    for turns in 0..budget {
        match next_node(w, from) {
            Some(node) => {
                step(alloc, out, w, made + 1 + turns as usize, node)?;
                w.keeps_the_rules();
                from = node + 1;
            }
            None => return Ok(()),
        }
    }
    Ok(())
}

/// Runs the script of a world to its end, as `run_engine::run` does, and appends the lines of this walk.
pub fn walk<I: ImageDev, O: Operation>(
    alloc: Global,
    out: &mut Vec<u8>,
    w: &mut World<I, O>,
    plays: &Plays,
) -> Result<(), TurnFault>
    requires { All (IsOfWorld w.old.world) plays.now }
    ensures walked { OnOk result (HasWalked plays.now w.old.world w.new.world out.old.items out.new.items) }
    ensures over { OnOk result (AllOver w.new.world) }
    ensures whole { OnOk result (Whole w.new.world.script w.new.world.history) }
    ensures stays { OnOk result (Stays w.old.world w.new.world) }
    ensures drive { OnOk result (IsTold (I.told w.old.image) w.old.world.blocks → IsTold (I.told w.new.image) w.new.world.blocks) }
{
    let budget = budget_of(w);
    let list = plays.items();
    play_all(alloc, out, w, list)?;
    rotate(alloc, out, w, list.len(), budget)?;
    w.keeps_the_rules();
    Ok(())
}
