//! A yard: the table, and the perch on which its own seat rests while the others are with their threads.

ghost use Rattle.std.specs.Prelude.{◌≡◌, []};
ghost use Rattle.node_seat.specs.Yards.{resting};

use crate::acts::Acts;
use crate::parked::Parked;
use crate::turns::{OwnSeat, TableOf};
use crate::views::SeatView;
use atomic_table::{PerchPlay, PerchRule, RuledPerch};
use std::sync::Wait;

/// The rule of the perch on which the yard's own seat rests.
pub struct Fresh;

impl PerchRule<bool> for Fresh {
    ghost use Rattle.std.specs.Prelude.{true};
    ghost use Rattle.node_seat.specs.Yards.{IsFreshFirst};

    ghost holds = { IsFreshFirst };

    ghost first = { true };
}

// The seat is laid there: the perch was found as it was expected, so empty.
struct Lay;

impl PerchPlay<bool> for Lay {
    ghost use Rattle.std.specs.Prelude.{◌≡◌};

    ghost then = { λ old new v found w. found ≡ old };
}

// The seat is lifted. It tells nothing.
struct Lift;

impl PerchPlay<bool> for Lift {
    ghost then = { λ old new v found w. Unit {0} };
}

/// A world on which the seats of its nodes make their events, one at a time.
#[derive(Drop)]
pub struct YardOf<W: Acts> {
    pub table: TableOf<W>,

    /// The yard's own seat, which opened it and will close it.
    pub own: RuledPerch<Option<Parked<W>>, SeatView, bool, Fresh>,

    pub ghost words: { table.shared.table_id.words ≡ 2 },
    pub ghost own_seat: { own.table_id ≡ table.shared.table_id },
    pub ghost rests: { own.view ≡ resting 9 own.view.claims own.view.start },
}

/// Where a yard's own seat rests.
pub type OwnPerch<W> = RuledPerch<Option<Parked<W>>, SeatView, bool, Fresh>;

/// Lays the yard's own seat down.
pub fn rest_on<W: Acts>(seat: OwnSeat<W>) -> OwnPerch<W>
    requires { seat.me.1 ≡ [] }
    ensures { (result.table_id ≡ seat.table_id) × (result.view ≡ seat.me.0) }
{
    let (perch, mut mark) = RuledPerch::new(&seat, 0);
    let Ok(()) = perch.give::<Lay>(&mut mark, seat, 0, 2) else {
        unreachable!()
    };
    perch
}

/// Lifts the yard's own seat. It may wait.
pub fn get_up<R: Wait, W: Acts>(rt: &R, perch: &OwnPerch<W>) -> OwnSeat<W>
    ensures { (result.table_id ≡ perch.now.table_id) × (result.me ≡ (perch.now.view, [])) }
{
    for _ in rt.forever() {
        let (_, _, seat) = perch.swap_new_mark::<Lift>(0);
        if let Some(seat) = seat {
            return seat;
        }
    }
    unreachable!()
}
