//! A whole run: the plays of the schedule, and then turns in rotation.

ghost use Rattle.std.specs.Prelude.{◌≡◌, ◌≤◌, ◌⊎◌, true, false, Err, OnOk, OnErr, All};
ghost use Rattle.base_words.specs.Faults.{Rose};
ghost use Rattle.plain_rules.specs.Own.{Whole};
ghost use Rattle.core_state.specs.Worlds.{IsOfWorld};
ghost use Rattle.core_state.specs.Images.{IsTorn};
ghost use Rattle.blk_drive.specs.Telling.{IsTold};
ghost use Rattle.blk_drive.specs.Telling.{told_as};
ghost use Rattle.core_state.specs.Deaths.{is_due, after_step};
ghost use Rattle.core_state.specs.Events.{is_over, is_write, next_event};
ghost use Rattle.core_step.specs.Memory.{takes_none};
ghost use Rattle.run_engine.specs.Walks.{after_play, played, IsPartOfWalk, IsPlayed, IsRotatedIn, IsNextPlay, IsNextIn, IsBeforeWrite, IsBeforeTaking, Stays, budget_of};
ghost use Rattle.core_state.specs.Ends.{AllOver};

use crate::fault::RunFault;
use crate::rotation::{nodes_of, rotate};
use blk_drive::ImageDev;
use core_death::seat_event;
use core_state::World;
use core_step::TurnFault;
use op_law::{FILE_MOST, Operation};
use plain_cat::Plays;
use std::alloc::Global;

// More than all events of a command: a write has the most writes, up to one zero fewer than a file has blocks, the block, and the header.
const COMMAND_STEPS: usize = 16 * FILE_MOST as usize + 768;

// For how many turns in rotation a run goes on at most: no run needs more.
#[tactic(auto, unfolding(crate::specs::Walks::budget_of))]
fn budget_of<I: ImageDev, O: Operation>(w: &World<I, O>) -> u32
    ensures { result ≡ budget_of w.now.world }
{
    w.keeps_the_rules();
    let nodes = nodes_of(w) as usize;
    let commands = w.script().lines.items().len();
    (COMMAND_STEPS * nodes * (commands + nodes)) as u32
}

// A play of a node: its turn, or the death in its place, if it is not over.
#[tactic(auto, unfolding(crate::specs::Walks::after_play))]
fn play<I: ImageDev, O: Operation>(
    alloc: Global,
    w: &mut World<I, O>,
    node: u8,
) -> Result<(), TurnFault>
    requires { IsOfWorld w.old.world node }
    ensures played { OnOk result (w.new.world ≡ after_play w.old.world node) }
    ensures same { OnErr result (w.new.world ≡ w.old.world) }
    ensures later { I.faults w.old.image ≤ I.faults w.new.image }
    ensures cause { result ≡ Err TurnFault.ImageFault → Rose (I.faults w.old.image) (I.faults w.new.image) }
    ensures alive { OnErr result (is_over w.old.world node ≡ false) }
    ensures turn { OnErr result (is_due w.old.world node ≡ false) }
    ensures memory { result ≡ Err TurnFault.NoMemory → takes_none w.old.world.locks node (next_event w.old.world node) ≡ false }
    ensures before { result ≡ Err TurnFault.ImageFault → is_write (next_event w.old.world node) ≡ true }
    ensures torn { result ≡ Err TurnFault.ImageFault → IsTold (I.told w.old.image) w.old.world.blocks
        → IsTorn (I.told w.old.image) (I.told w.new.image) w.old.world.blocks (after_step w.old.world node).blocks }
    ensures drive { IsTold (I.told w.old.image) w.old.world.blocks
        → (I.told w.new.image ≡ told_as (I.told w.old.image) w.new.world.blocks) ⊎ (result ≡ Err TurnFault.ImageFault) }
{
    if !w.is_over(node) {
        seat_event(alloc, w, node)?;
    }
    Ok(())
}

// The plays, in order.
fn play_all<I: ImageDev, O: Operation>(
    alloc: Global,
    w: &mut World<I, O>,
    plays: &[u8],
) -> Result<(), TurnFault>
    requires { All (IsOfWorld w.old.world) plays.now }
    ensures played { OnOk result (w.new.world ≡ played plays.now w.old.world) }
    ensures part { OnErr result (IsPlayed w.old.world plays.now w.new.world) }
    ensures later { I.faults w.old.image ≤ I.faults w.new.image }
    ensures cause { result ≡ Err TurnFault.ImageFault → Rose (I.faults w.old.image) (I.faults w.new.image) }
    ensures before { result ≡ Err TurnFault.ImageFault → IsBeforeWrite (IsNextPlay w.old.world plays.now w.new.world) w.old.world.blocks (I.told w.old.image) (I.told w.new.image) w.new.world }
    ensures memory { result ≡ Err TurnFault.NoMemory → IsBeforeTaking (IsNextPlay w.old.world plays.now w.new.world) w.new.world }
    ensures drive { IsTold (I.told w.old.image) w.old.world.blocks
        → (I.told w.new.image ≡ told_as (I.told w.old.image) w.new.world.blocks) ⊎ (result ≡ Err TurnFault.ImageFault) }
{
    for node in plays {
        play(alloc, w, *node)?;
    }
    Ok(())
}

/// Runs the script of a world to its end: first one turn for each play of the schedule, then turns in rotation from node 1. A
/// node that is over makes no turn: its play has no effect, and the rotation passes over it. A run ends once every node is over.
///
/// The plays are nodes from 1 to the last. The rotation makes at most `COMMAND_STEPS` × nodes × (commands + nodes) turns, after which every
/// node is over. After a fault the world is as it was before the turn that failed.
/// `ImageFault` comes only in place of a write of the node whose turn it is, and where the image has counted a fault: an image that
/// told the blocks of the drive has then those from before that turn, or those that it would have left. `NoMemory` comes only where
/// the event of the node whose turn it is takes memory: no write of a plan and no answer does.
pub fn run<I: ImageDev, O: Operation>(
    alloc: Global,
    w: &mut World<I, O>,
    plays: &Plays,
) -> Result<(), RunFault>
    requires { All (IsOfWorld w.old.world) plays.now }
    ensures ok { OnOk result (IsRotatedIn (budget_of w.old.world) (played plays.now w.old.world) w.new.world × AllOver w.new.world) }
    ensures whole { OnOk result (Whole w.new.world.script w.new.world.history) }
    ensures err { OnErr result (IsPartOfWalk w.old.world plays.now w.new.world) }
    ensures stays { Stays w.old.world w.new.world }
    ensures later { I.faults w.old.image ≤ I.faults w.new.image }
    ensures cause { result ≡ Err RunFault.ImageFault → Rose (I.faults w.old.image) (I.faults w.new.image) }
    ensures before { result ≡ Err RunFault.ImageFault → IsBeforeWrite (IsNextIn w.old.world plays.now w.new.world) w.old.world.blocks (I.told w.old.image) (I.told w.new.image) w.new.world }
    ensures memory { result ≡ Err RunFault.NoMemory → IsBeforeTaking (IsNextIn w.old.world plays.now w.new.world) w.new.world }
    ensures drive { IsTold (I.told w.old.image) w.old.world.blocks
        → (I.told w.new.image ≡ told_as (I.told w.old.image) w.new.world.blocks) ⊎ (result ≡ Err RunFault.ImageFault) }
{
    let budget = budget_of(w);
    play_all(alloc, w, plays.items())?;
    rotate(alloc, w, budget)?;
    w.keeps_the_rules();
    Ok(())
}
