//! Opening a yard.

ghost use Rattle.std.specs.Prelude.{◌≡◌, ◌≤◌, ◌<◌, ◌+◌, ℕ, [], true, false, IfOk, IfErr, All, map};
ghost use Rattle.std.specs.List.{range_with_len};
ghost use Rattle.blk_drive.specs.Telling.{IsTold};
ghost use Rattle.node_seat.specs.Keeping.{start_of};

use crate::acts::Acts;
use crate::parked::Parked;
use crate::perch::{YardOf, rest_on};
use crate::seat::SeatOf;
use crate::turns::{
    OwnSeat, TableOf, claim_next, exchange_world, give_turn, new_table, open_table, split_off,
};
use std::alloc::{AllocError, Global};

/// There was no memory for a yard. The world comes back.
#[derive(Drop)]
pub struct YardRefusedOf<W: Acts> {
    pub world: W,
}

// The seat of the next node, where so many have theirs.
fn next_seat<W: Acts>(table: &TableOf<W>, own: &mut OwnSeat<W>, made: u8) -> SeatOf<W>
    requires table { (own.old.table_id ≡ table.now.shared.table_id) × (table.now.shared.table_id.words ≡ 2) }
    requires own { (own.old.me.0.number ≡ 9) × (own.old.me.0.splitting ≡ false) × (own.old.me.0.claims ≡ made) × (made < 8) }
    requires more { made < own.old.me.0.start.world.script.nodes }
    ensures table { (own.new.table_id ≡ own.old.table_id) × (own.new.id ≡ own.old.id) }
    ensures own { (own.new.me.0 ≡ record own.old.me.0 { claims = made + 1 }) × (own.new.me.1 ≡ own.old.me.1) }
    ensures seat { (result.seat.table_id ≡ own.old.table_id) × (result.number ≡ made + 1) }
{
    claim_next(table, own, u64::from(made));
    let seat = split_off(table, own);
    SeatOf {
        number: made + 1,
        seat,
    }
}

// The seats of all nodes, in their order.
fn all_seats<W: Acts>(
    alloc: Global,
    table: &TableOf<W>,
    own: &mut OwnSeat<W>,
    nodes: u8,
) -> Result<Vec<SeatOf<W>>, AllocError>
    requires table { (own.old.table_id ≡ table.now.shared.table_id) × (table.now.shared.table_id.words ≡ 2) }
    requires own { (own.old.me.0.number ≡ 9) × (own.old.me.0.splitting ≡ false) × (own.old.me.0.claims ≡ 0) }
    requires nodes { (nodes ≤ 8) × (nodes ≤ own.old.me.0.start.world.script.nodes) }
    ensures table { (own.new.table_id ≡ own.old.table_id) × (own.new.id ≡ own.old.id) }
    ensures own { (claims : ℕ) × (own.new.me.0 ≡ record own.old.me.0 { claims = claims }) × (own.new.me.1 ≡ own.old.me.1) }
    ensures seats { IfOk result (λ seats. All (λ s. s.seat.table_id ≡ own.old.table_id) seats.items) }
    ensures numbers { IfOk result (λ seats. map (λ s. s.number) seats.items ≡ range_with_len 1 nodes) }
{
    let mut seats = Vec::new(alloc);
    for made in 0..nodes {
        seats.push(next_seat(table, own, made))?;
    }
    Ok(seats)
}

// The world is put in, and the turn given: from now on the nodes' seats can take it.
fn put_in<W: Acts>(table: &TableOf<W>, own: &mut OwnSeat<W>, world: W)
    requires table { (own.old.table_id ≡ table.now.shared.table_id) × (table.now.shared.table_id.words ≡ 2) }
    requires own { (own.old.me.0.turn ≡ true) × (own.old.me.0.unopened ≡ true) × (own.old.me.1 ≡ []) }
    requires start { own.old.me.0.start ≡ start_of (W.world world) (W.faults world) (W.told world) }
    requires told { IsTold (W.told world) (W.world world).blocks }
    ensures table { (own.new.table_id ≡ own.old.table_id) × (own.new.id ≡ own.old.id) }
    ensures own { (own.new.me.0 ≡ record own.old.me.0 { turn = false; unopened = false }) × (own.new.me.1 ≡ []) }
{
    open_table(table, own);
    exchange_world(
        table,
        own,
        Some(Parked {
            world,
            stopped: None,
        }),
    );
    give_turn(table, own);
}

// The yard with this world, once all seats are split off.
fn filled<W: Acts>(table: TableOf<W>, mut own: OwnSeat<W>, world: W) -> YardOf<W>
    requires table { (own.table_id ≡ table.shared.table_id) × (table.shared.table_id.words ≡ 2) }
    requires own { (own.me.0.number ≡ 9) × (own.me.0.splitting ≡ false) × (own.me.0.turn ≡ true) × (own.me.0.unopened ≡ true) × (own.me.1 ≡ []) }
    requires start { own.me.0.start ≡ start_of (W.world world) (W.faults world) (W.told world) }
    requires told { IsTold (W.told world) (W.world world).blocks }
    ensures table { result.table.shared.table_id ≡ table.shared.table_id }
    ensures start { result.own.view.start ≡ own.me.0.start }
{
    put_in(&table, &mut own, world);
    let own = rest_on(own);
    YardOf { table, own }
}

/// Opens a yard with a world whose image has the drive's blocks, if it tells any: so it is as a world is mounted. The seats of its nodes come
/// in order from node 1. If there is no memory for them, the world comes back.
pub fn open_yard<W: Acts>(
    alloc: Global,
    world: W,
) -> Result<(YardOf<W>, Vec<SeatOf<W>>), YardRefusedOf<W>>
    requires { IsTold (W.told world) (W.world world).blocks }
    ensures start { IfOk result (λ y. y.0.own.view.start ≡ start_of (W.world world) (W.faults world) (W.told world)) }
    ensures seats { IfOk result (λ y. All (λ s. s.seat.table_id ≡ y.0.table.shared.table_id) y.1.items) }
    ensures numbers { IfOk result (λ y. map (λ s. s.number) y.1.items ≡ range_with_len 1 (W.world world).script.nodes) }
    ensures back { IfErr result (λ r. r.world ≡ world) }
{
    let Ok((table, mut own)) = new_table(alloc, &world) else {
        return Err(YardRefusedOf { world });
    };
    let nodes = world.nodes();
    let Ok(seats) = all_seats(alloc, &table, &mut own, nodes) else {
        return Err(YardRefusedOf { world });
    };
    Ok((filled(table, own, world), seats))
}
