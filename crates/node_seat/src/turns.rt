//! The turn word, and the kinds of steps on it.

ghost use Rattle.std.specs.Prelude.{◌≡◌, ◌<◌, ◌+◌, ◌∷◌, [], false, true, Option, None, IfOk, IsTrue};
ghost use Rattle.node_seat.specs.declared.parked.Parked.{Parked};
ghost use Rattle.node_seat.specs.Keeping.{start_of};
ghost use Rattle.node_seat.specs.Turns.{Takes, Gives, Opens, Claims, with_turn, without_turn, opened, stays, comes};
ghost use Rattle.node_seat.specs.Yards.{Kept, beginning};

use crate::acts::Acts;
use crate::parked::Parked;
use crate::views::SeatView;
use atomic_table::{Play, Seat, Split, Table, TableRule};
use std::alloc::{AllocError, Global};
use std::marker::PhantomData;
use std::snapshot::Snapshot;

/// The rule of the turn word, over worlds of this type. It holds between any two steps.
pub struct Turns<W: Acts> {
    of: PhantomData<W>,
}

impl<W: Acts> TableRule<Option<Parked<W>>, SeatView, Snapshot<W>> for Turns<W> {
    ghost use Rattle.node_seat.specs.Keeping.{start_of};
    ghost use Rattle.node_seat.specs.Turns.{Holds};
    ghost use Rattle.node_seat.specs.Yards.{Kept, beginning};

    ghost holds = { λ k s. Holds (Kept W.world W.faults W.told) s };

    ghost first = { λ k. beginning (start_of (W.world k.value) (W.faults k.value) (W.told k.value)) };
}

/// A table of two words and a slot. Word 0 is the number of the seat whose turn it is, or 0; word 1 counts the claimed nodes; the slot
/// has the world.
pub type TableOf<W> = Table<Option<Parked<W>>, SeatView, Snapshot<W>, Turns<W>, Global>;

/// A seat of such a table.
pub type OwnSeat<W> = Seat<Option<Parked<W>>, SeatView>;

// The seven kinds of steps. Two of them, to take the world out of the slot and to put one in, are exchanges of a slot in hand, which no
// rule sees.
struct Open;

impl<W: Acts> Play<Option<Parked<W>>, SeatView> for Open {
    ghost then = { Opens };
}

struct Claim;

impl<W: Acts> Play<Option<Parked<W>>, SeatView> for Claim {
    ghost then = { Claims };
}

struct Cut;

impl Split<SeatView> for Cut {
    ghost left = { stays };

    ghost right = { comes };
}

struct Take<W: Acts> {
    of: PhantomData<W>,
}

impl<W: Acts> Play<Option<Parked<W>>, SeatView> for Take<W> {
    ghost then = { Takes (Kept W.world W.faults W.told) };
}

struct Give;

impl<W: Acts> Play<Option<Parked<W>>, SeatView> for Give {
    ghost then = { Gives };
}

/// A table that is still to be opened, with the seat that opens it.
pub fn new_table<W: Acts>(alloc: Global, world: &W) -> Result<(TableOf<W>, OwnSeat<W>), AllocError>
    ensures table { IfOk result (λ y. (y.1.table_id ≡ y.0.shared.table_id) × (y.0.shared.table_id.words ≡ 2)) }
    ensures seat { IfOk result (λ y. (y.1.me.1 ≡ []) × (y.1.me.0 ≡ beginning (start_of (W.world world.now) (W.faults world.now) (W.told world.now)))) }
{
    let about = Snapshot::of(world);
    Table::vacant(alloc, &[9, 0], 1, &about)
}

/// Takes the empty slot out of a table that is still to be opened.
pub fn open_table<W: Acts>(table: &TableOf<W>, seat: &mut OwnSeat<W>)
    requires table { (seat.old.table_id ≡ table.now.shared.table_id) × (table.now.shared.table_id.words ≡ 2) }
    requires unopened { (seat.old.me.0.unopened ≡ true) × (seat.old.me.1 ≡ []) }
    ensures seat { (seat.new.table_id ≡ seat.old.table_id) × (seat.new.id ≡ seat.old.id) }
    ensures opened { (seat.new.me.0 ≡ opened seat.old.me.0) × (seat.new.me.1 ≡ (0, None) ∷ []) }
{
    table.shared.load::<Open>(seat, 0);
}

/// Claims the next node, of at most 8, with the yard's own seat, which has claimed so many.
pub fn claim_next<W: Acts>(table: &TableOf<W>, seat: &mut OwnSeat<W>, made: u64)
    requires table { (seat.old.table_id ≡ table.now.shared.table_id) × (table.now.shared.table_id.words ≡ 2) }
    requires own { (seat.old.me.0.number ≡ 9) × (seat.old.me.0.splitting ≡ false) × (seat.old.me.0.claims ≡ made) × (made < 8) }
    ensures seat { (seat.new.table_id ≡ seat.old.table_id) × (seat.new.id ≡ seat.old.id) }
    ensures claimed { (seat.new.me.0 ≡ record seat.old.me.0 { claims = made + 1; splitting = true }) × (seat.new.me.1 ≡ seat.old.me.1) }
{
    table
        .shared
        .compare_exchange::<Claim>(seat, 1, made, made + 1);
}

/// Splits off the seat of the node that was claimed last.
pub fn split_off<W: Acts>(table: &TableOf<W>, seat: &mut OwnSeat<W>) -> OwnSeat<W>
    requires table { (seat.old.table_id ≡ table.now.shared.table_id) × (table.now.shared.table_id.words ≡ 2) }
    requires claimed { seat.old.me.0.splitting ≡ true }
    ensures own { (seat.new.table_id ≡ seat.old.table_id) × (seat.new.id ≡ seat.old.id) × (seat.new.me ≡ (stays seat.old.me.0, seat.old.me.1)) }
    ensures new { (result.table_id ≡ seat.old.table_id) × (result.me ≡ (comes seat.old.me.0, [])) }
{
    table.shared.split_seat::<Cut>(seat)
}

/// Tries to take the turn, for a seat of this number. With it the seat has the slot in hand, in which a world is that is kept.
pub fn take_turn<W: Acts>(table: &TableOf<W>, seat: &mut OwnSeat<W>, number: u64) -> bool
    requires table { (seat.old.table_id ≡ table.now.shared.table_id) × (table.now.shared.table_id.words ≡ 2) }
    requires number { number ≡ seat.old.me.0.number }
    requires idle { (seat.old.me.0.turn ≡ false) × (seat.old.me.1 ≡ []) }
    ensures seat { (seat.new.table_id ≡ seat.old.table_id) × (seat.new.id ≡ seat.old.id) }
    ensures taken { IsTrue result → (seat.new.me.0 ≡ with_turn seat.old.me.0) × ((x : Option (Parked W)) × (seat.new.me.1 ≡ (0, x) ∷ []) × Kept W.world W.faults W.told seat.old.me.0.start x) }
    ensures missed { result ≡ false → seat.new.me ≡ seat.old.me }
{
    table.shared.compare_exchange::<Take<W>>(seat, 0, 0, number) == 0
}

/// Takes what is in the slot that the seat has in hand, and puts this in its place.
pub fn exchange_world<W: Acts>(
    table: &TableOf<W>,
    seat: &mut OwnSeat<W>,
    new: Option<Parked<W>>,
) -> Option<Parked<W>>
    requires table { seat.old.table_id ≡ table.now.shared.table_id }
    requires hand { (x : Option (Parked W)) × (seat.old.me.1 ≡ (0, x) ∷ []) }
    ensures same { (seat.new.table_id ≡ seat.old.table_id) × (seat.new.id ≡ seat.old.id) × (seat.new.me ≡ (seat.old.me.0, (0, new) ∷ [])) }
    ensures old { seat.old.me.1 ≡ (0, result) ∷ [] }
{
    table.shared.exchange(seat, 0, new)
}

/// Gives the turn back, with the slot, in which a world is that is kept.
pub fn give_turn<W: Acts>(table: &TableOf<W>, seat: &mut OwnSeat<W>)
    requires table { (seat.old.table_id ≡ table.now.shared.table_id) × (table.now.shared.table_id.words ≡ 2) }
    requires turn { (seat.old.me.0.turn ≡ true) × (seat.old.me.0.unopened ≡ false) }
    requires hand { (x : Option (Parked W)) × (seat.old.me.1 ≡ (0, x) ∷ []) × Kept W.world W.faults W.told seat.old.me.0.start x }
    ensures seat { (seat.new.table_id ≡ seat.old.table_id) × (seat.new.id ≡ seat.old.id) }
    ensures given { (seat.new.me.0 ≡ without_turn seat.old.me.0) × (seat.new.me.1 ≡ []) }
{
    table.shared.swap::<Give>(seat, 0, 0);
}
