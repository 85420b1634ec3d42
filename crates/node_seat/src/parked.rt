//! A world between two events, with the mark that stops all threads after a fault.

ghost use Rattle.std.specs.Prelude.{◌≡◌, ◌≤◌, ◌<◌, Some, None, Err, OnOk, IfSome};
ghost use Rattle.core_state.specs.Deaths.{after_step};
ghost use Rattle.node_seat.specs.declared.views.Start.{Start};
ghost use Rattle.node_seat.specs.Keeping.{mark_of};
ghost use Rattle.node_seat.specs.Yards.{IsKeptBy};

use crate::acts::Acts;
use core_step::{Turn, TurnFault};
use std::alloc::Global;

/// A world between two events, with its stop mark: the first fault that an event answered. Behind that nothing is done.
#[derive(Drop)]
pub struct Parked<W: Acts> {
    pub world: W,
    pub stopped: Option<TurnFault>,
}

/// The event of a node on a world in hand. If the mark stands, nothing is done, and it is the answer; a fault sets it.
pub(crate) fn event_of<W: Acts>(
    alloc: Global,
    parked: &mut Parked<W>,
    node: u8,
) -> Result<Turn, TurnFault>
    requires from { 1 ≤ node }
    requires to { node ≤ (W.world parked.old.world).script.nodes }
    ensures stopped { IfSome parked.old.stopped (λ fault. (result ≡ Err fault) × (parked.new ≡ parked.old)) }
    ensures mark { parked.old.stopped ≡ None → parked.new.stopped ≡ mark_of result }
    ensures moved { parked.old.stopped ≡ None → OnOk result (W.world parked.new.world ≡ after_step (W.world parked.old.world) node) }
    ensures kept { (start : Start) → IsKeptBy W.world W.faults W.told start parked.old → IsKeptBy W.world W.faults W.told start parked.new }
{
    if let Some(fault) = parked.stopped {
        return Err(fault);
    }
    let _nodes = parked.world.nodes();
    let told = parked.world.act(alloc, node);
    if let Err(fault) = told {
        parked.stopped = Some(fault);
    }
    told
}
