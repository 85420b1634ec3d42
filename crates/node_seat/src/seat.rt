//! The seat of a node, and its steps.

ghost use Rattle.std.specs.Prelude.{◌≡◌, ◌≤◌, ◌∷◌, [], true, false, Option};
ghost use Rattle.node_seat.specs.declared.parked.Parked.{Parked};
ghost use Rattle.node_seat.specs.Turns.{without_turn};
ghost use Rattle.node_seat.specs.Yards.{Kept};

use crate::acts::Acts;
use crate::parked::event_of;
use crate::perch::YardOf;
use crate::turns::{OwnSeat, TableOf, exchange_world, give_turn, take_turn};
use core_step::{Turn, TurnFault};
use std::alloc::Global;
use std::sync::Wait;
use std::thread;

/// The seat of a node: who has it makes that node's events, and no other's.
#[derive(Drop)]
pub struct SeatOf<W: Acts> {
    /// The number of the node, from 1.
    pub number: u8,
    pub seat: OwnSeat<W>,
    pub ghost idle: { (seat.me.1 ≡ []) × (seat.me.0.turn ≡ false) × (seat.me.0.unopened ≡ false) },
    pub ghost node: { (seat.me.0.number ≡ number) × (1 ≤ number) × (number ≤ seat.me.0.start.world.script.nodes) },
}

impl<W: Acts> SeatOf<W> {
    /// The number of the node.
    pub fn number(&self) -> u8
        ensures { result ≡ self.now.number }
    {
        self.number
    }

    /// Takes the turn, makes the node's event on the world, and gives the turn back. If the yard is stopped by a fault, it makes no event
    /// and answers that fault. It may wait.
    pub fn step<R: Wait>(
        &mut self,
        rt: &R,
        alloc: Global,
        yard: &YardOf<W>,
    ) -> Result<Turn, TurnFault>
        requires { self.old.seat.table_id ≡ yard.now.table.shared.table_id }
        ensures number { self.new.number ≡ self.old.number }
        ensures yard { self.new.seat.table_id ≡ self.old.seat.table_id }
    {
        step_as(rt, alloc, &yard.table, &mut self.seat, self.number)
    }
}

// Takes the turn for a node, makes its event, and gives the turn back.
fn step_as<R: Wait, W: Acts>(
    rt: &R,
    alloc: Global,
    table: &TableOf<W>,
    seat: &mut OwnSeat<W>,
    node: u8,
) -> Result<Turn, TurnFault>
    requires table { (seat.old.table_id ≡ table.now.shared.table_id) × (table.now.shared.table_id.words ≡ 2) }
    requires node { (seat.old.me.0.number ≡ node) × (1 ≤ node) × (node ≤ seat.old.me.0.start.world.script.nodes) }
    requires idle { (seat.old.me.1 ≡ []) × (seat.old.me.0.turn ≡ false) × (seat.old.me.0.unopened ≡ false) }
    ensures table { (seat.new.table_id ≡ seat.old.table_id) × (seat.new.id ≡ seat.old.id) }
    ensures same { (seat.new.me.0 ≡ seat.old.me.0) × (seat.new.me.1 ≡ []) }
{
    for _ in rt.forever() {
        if take_turn(table, seat, u64::from(node)) {
            return one_event(alloc, table, seat, node);
        }
        thread::yield_now();
    }
    unreachable!()
}

// The event between taking the turn and giving it back.
fn one_event<W: Acts>(
    alloc: Global,
    table: &TableOf<W>,
    seat: &mut OwnSeat<W>,
    node: u8,
) -> Result<Turn, TurnFault>
    requires table { (seat.old.table_id ≡ table.now.shared.table_id) × (table.now.shared.table_id.words ≡ 2) }
    requires node { (1 ≤ node) × (node ≤ seat.old.me.0.start.world.script.nodes) }
    requires turn { (seat.old.me.0.turn ≡ true) × (seat.old.me.0.unopened ≡ false) }
    requires hand { (x : Option (Parked W)) × (seat.old.me.1 ≡ (0, x) ∷ []) × Kept W.world W.faults W.told seat.old.me.0.start x }
    ensures table { (seat.new.table_id ≡ seat.old.table_id) × (seat.new.id ≡ seat.old.id) }
    ensures given { (seat.new.me.0 ≡ without_turn seat.old.me.0) × (seat.new.me.1 ≡ []) }
{
    let Some(mut parked) = exchange_world(table, seat, None) else {
        unreachable!()
    };
    let told = event_of(alloc, &mut parked, node);
    exchange_world(table, seat, Some(parked));
    give_turn(table, seat);
    told
}
