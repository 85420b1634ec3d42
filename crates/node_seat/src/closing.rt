//! Closing a yard.

ghost use Rattle.std.specs.Prelude.{◌≡◌, [], false};
ghost use Rattle.node_seat.specs.Yards.{IsKeptBy};

use crate::acts::Acts;
use crate::parked::Parked;
use crate::perch::{YardOf, get_up};
use crate::turns::{OwnSeat, TableOf, exchange_world, take_turn};
use std::sync::Wait;
use std::thread;

/// Takes the world out of a yard, for good: it takes the turn with the yard's own seat, and never gives it back. The world is one that is
/// kept since the yard was opened, with its stop mark. The nodes' seats are not wanted for it. It may wait.
pub fn close_yard<R: Wait, W: Acts>(rt: &R, yard: YardOf<W>) -> Parked<W>
    ensures { IsKeptBy W.world W.faults W.told yard.own.view.start result }
{
    let mut own = get_up(rt, &yard.own);
    taken_out(rt, &yard.table, &mut own)
}

// Takes the turn for the yard's own seat, and the world out of the slot.
fn taken_out<R: Wait, W: Acts>(rt: &R, table: &TableOf<W>, own: &mut OwnSeat<W>) -> Parked<W>
    requires table { (own.old.table_id ≡ table.now.shared.table_id) × (table.now.shared.table_id.words ≡ 2) }
    requires own { (own.old.me.0.number ≡ 9) × (own.old.me.0.turn ≡ false) × (own.old.me.1 ≡ []) }
    ensures { IsKeptBy W.world W.faults W.told own.old.me.0.start result }
{
    for _ in rt.forever() {
        if take_turn(table, own, 9) {
            let Some(parked) = exchange_world(table, own, None) else {
                unreachable!()
            };
            return parked;
        }
        thread::yield_now();
    }
    unreachable!()
}
