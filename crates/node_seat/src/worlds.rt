//! The world of a cluster makes the events of its nodes' seats.

use crate::acts::Acts;
use crate::opening::YardRefusedOf;
use crate::parked::Parked;
use crate::perch::YardOf;
use crate::seat::SeatOf;
use blk_drive::ImageDev;
use core_death::seat_event;
use core_state::World;
use core_step::{Turn, TurnFault};
use op_law::Operation;
use std::alloc::Global;

/// A yard with the world of a cluster.
pub type Yard<I, O> = YardOf<World<I, O>>;

/// The seat of one of its nodes.
pub type NodeSeat<I, O> = SeatOf<World<I, O>>;

/// The seats of its nodes, in order from node 1.
pub type Seats<I, O> = Vec<NodeSeat<I, O>>;

/// A yard with it that was not opened: there was no memory, and the world comes back.
pub type YardRefused<I, O> = YardRefusedOf<World<I, O>>;

/// The world that was taken out of it, with its stop mark.
pub type ClosedYard<I, O> = Parked<World<I, O>>;

impl<I: ImageDev, O: Operation> Acts for World<I, O> {
    ghost world = { λ w. w.world };

    ghost faults = { λ w. I.faults w.image };

    ghost told = { λ w. I.told w.image };

    fn nodes(&self) -> u8 {
        self.keeps_the_rules();
        self.script().nodes
    }

    fn act(&mut self, alloc: Global, node: u8) -> Result<Turn, TurnFault> {
        seat_event(alloc, self, node)
    }
}
