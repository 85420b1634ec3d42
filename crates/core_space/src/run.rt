//! How far a node has come by its rules for free space, and the locks that it holds for them.

ghost use Rattle.std.specs.Prelude.{◌≡◌};
ghost use Rattle.core_space.specs.Rule.{no_run};

use op_law::{SeenBlocks, Writes};
use plain_cat::{Clusters, Mode};
use std::alloc::Global;

/// How far a node has come by its rules for space.
#[derive(Clone, Copy, Debug, PartialEq)]
pub enum Phase {
    /// No rule is begun.
    Off,

    /// The stock is not enough, and it is filled from the bitmaps.
    Fill,

    /// Too little was free there: the stock goes back, so that the others give theirs back too.
    Drain,

    /// With nothing in any stock all free space is searched.
    Last,

    /// The stock goes back, as another node wants it to, or as there is no command left.
    Back,
}

/// What a node has done by its rules for space.
#[derive(Drop)]
pub struct SpaceRun {
    pub phase: Phase,

    /// The blocks of the bitmaps that were looked at since the lock of the bitmaps was taken, each with its LBN, in order.
    pub looked: SeenBlocks,

    /// The writes that were decided on, and how many of them are made.
    pub writes: Writes,
    pub made: usize,

    /// The clusters that the last of these gives to the command, in the search of all free space: they are listed before, so that
    /// the write takes no memory.
    pub ready: Clusters,
}

impl SpaceRun {
    /// No rule is begun, and nothing is done.
    pub fn new(alloc: Global) -> Self
        ensures { result ≡ no_run }
    {
        SpaceRun {
            phase: Phase::Off,
            looked: SeenBlocks::new(alloc),
            writes: Writes::new(alloc),
            made: 0,
            ready: Clusters::new(alloc),
        }
    }
}

/// The modes in which a node holds the two locks of free space, or None.
#[derive(Clone, Copy, Debug, PartialEq)]
pub struct SpaceLocks {
    /// Of X, the lock of the nodes' stocks.
    pub x: Option<Mode>,

    /// Of V, the lock of the bitmaps.
    pub v: Option<Mode>,
}

/// What a command needs: so many clusters, 0 to 65,536, and a file number or none.
#[derive(Clone, Copy, Debug, PartialEq)]
pub struct SpaceNeed {
    pub clusters: u32,
    pub number: bool,
}
