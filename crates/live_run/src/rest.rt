//! What the threads have left.

ghost use Rattle.std.specs.Prelude.{◌≡◌, OnOk};
ghost use Rattle.plain_rules.specs.Own.{Whole};
ghost use Rattle.core_state.specs.Ends.{AllOver};
ghost use Rattle.node_seat.specs.declared.views.Start.{Start};
ghost use Rattle.node_seat.specs.Keeping.{IsKept};
ghost use Rattle.live_run.specs.Rests.{run_mark};

use blk_drive::ImageDev;
use core_step::TurnFault;
use node_seat::ClosedYard;
use op_law::Operation;
use plain_cat::Plays;
use run_engine::{RunFault, run};
use std::alloc::Global;

// Why a run stopped that a fault of its threads has stopped.
fn stopped_by(fault: TurnFault) -> RunFault
    ensures image { fault ≡ TurnFault.ImageFault → result ≡ RunFault.ImageFault }
    ensures memory { fault ≡ TurnFault.NoMemory → result ≡ RunFault.NoMemory }
{
    RunFault::from(fault)
}

/// Once the threads have ended: if no fault stopped them, the nodes that are not over, for which no thread could be started, make their
/// events in rotation. If all are over, that changes nothing.
pub fn finish<I: ImageDev, O: Operation>(
    alloc: Global,
    closed: &mut ClosedYard<I, O>,
) -> Result<(), RunFault>
    ensures kept { (start : Start) → IsKept start closed.old.world.world (I.faults closed.old.world.image) (I.told closed.old.world.image) closed.old.stopped
        → IsKept start closed.new.world.world (I.faults closed.new.world.image) (I.told closed.new.world.image) (run_mark result) }
    ensures over { OnOk result (AllOver closed.new.world.world) }
    ensures whole { OnOk result (Whole closed.new.world.world.script closed.new.world.world.history) }
{
    match closed.stopped {
        Some(fault) => Err(stopped_by(fault)),
        None => run(alloc, &mut closed.world, &Plays::new(alloc)),
    }
}
