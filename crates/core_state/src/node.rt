//! A node of the cluster: its command, its locks, its cache, its stock and its answers.

use core_space::{LastingLocks, SpaceRun};
use extent_cache::Extents;
use node_cache::NodeCache;
use op_law::{Chan, Operation, Plan, Seen, SeenLocks};
use plain_past::Past;

/// A node of the cluster.
#[derive(Drop)]
pub struct Node<O: Operation> {
    /// What it has of its answers so far.
    pub past: Past,

    /// Its command under way.
    pub op: Option<O>,

    /// What it has seen for the command.
    pub seen: Seen,

    /// What it has decided on.
    pub plan: Option<Plan>,

    /// How many writes of the plan are done, and whether its ask was granted.
    pub done: usize,
    pub tried: bool,

    /// The locks that its file system has asked for, in order: those of the command, and that of the ask of its plan, where that is by
    /// the file system. The last may still stand in a queue.
    pub asked: SeenLocks,

    /// The lock of the nodes' stocks, X, once it is held, and locks in NL.
    pub kept: LastingLocks,

    /// The lock that its rules for space have asked for last, X or V. It may still stand in a queue.
    pub claims: LastingLocks,

    /// What its eight channels have open.
    pub opens: [Option<Chan>; 8],

    /// What it has done by its rules for space.
    pub run: SpaceRun,

    /// The free clusters and file numbers that it keeps for its commands.
    pub stock: Extents,

    /// The blocks that it keeps, each under the lock by which it was looked at.
    pub cache: NodeCache,

    /// Its script is done, and it has left the volume.
    pub over: bool,

    /// How many turns it has made since mounting, and how many blocks it has written. Each count stays at the last value of 64
    /// bits, as the next two do.
    pub turns: u64,
    pub writes: u64,

    /// How many blocks it has read from the drive, and how many it has found cached.
    pub reads: u64,
    pub hits: u64,
}
