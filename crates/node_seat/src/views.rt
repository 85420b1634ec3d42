//! What seats know, as plain data that stands in proofs alone.

use std::convert::Infallible;
use std::marker::Model;

/// A world as plain data. No value of it is made.
#[derive(Drop)]
pub struct PlainWorld {
    never: Infallible,
}

impl Model for PlainWorld {
    ghost use Rattle.core_state.specs.Worlds.{Plain};

    ghost Value = { Plain };

    ghost view = { λ w. elim w.never [ ] };
}

/// What a yard was opened with: the world, how many faults its image had counted, and whether the image tells its blocks. No value of it
/// is made.
#[derive(Drop)]
pub struct Start {
    pub world: PlainWorld,
    pub count: u64,
    pub tells: bool,
}

/// What a seat knows. No value of it is made.
#[derive(Drop)]
pub struct SeatView {
    /// The number of its node, or 9 for the yard's own seat.
    pub number: u64,

    /// It has the turn.
    pub turn: bool,

    /// The yard is still to be opened.
    pub unopened: bool,

    /// Of the yard's own seat: how many nodes are claimed.
    pub claims: u64,

    /// Of the yard's own seat: that of the last claim is still to be split off.
    pub splitting: bool,

    /// What the yard was opened with.
    pub start: Start,
}
