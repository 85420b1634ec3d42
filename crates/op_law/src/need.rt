//! What a command needs next, and the plan that it ends with.

use crate::lists::Writes;
use crate::numbers::Numbers;
use base_words::Block;
use lock_db::LockName;
use plain_cat::{Clusters, Mode, Reply, Stage};

/// What a command needs next.
#[derive(Drop)]
pub enum Need {
    /// A lock, in a mode.
    Lock(LockName, Mode),

    /// A look at the block of an LBN, which the lock of this name guards. It may be cached.
    Block(LockName, u32),

    /// A look at a file's own block, by its LBN. It is read from the drive each time.
    Bare(u32),

    /// So many free clusters, no more than one header has, and a free file number or none.
    Space { clusters: u32, number: bool },

    /// Nothing more: the plan is made.
    Ready(Plan),
}

/// What a command does: its writes in order, with an ask among them or none, and its reply.
#[derive(Drop)]
pub struct Plan {
    pub writes: Writes,
    pub ask: Option<Ask>,
    pub reply: Reply,
}

/// A write of a plan.
#[derive(Drop)]
pub struct PlanWrite {
    /// The lock that guards the block.
    pub lock: LockName,

    /// The block's LBN.
    pub lbn: u32,

    /// What is written to it.
    pub block: Block,

    /// The stage of the command after the write.
    pub stage: Stage,

    /// The clusters that the command has after it outside files and bitmaps, and the file numbers, each from 1: these, and behind
    /// them one more or none.
    pub clusters: Clusters,
    pub numbers: Numbers,
    pub number: Option<u32>,
}

/// An ask for the lock of who has a file open. Where it is not granted the command ends there, with another reply.
#[derive(Drop)]
pub struct Ask {
    /// How many writes come before it.
    pub at: u32,

    /// The number of the file.
    pub file: u32,

    /// The channel that asks, 1 to 8, or 0 for the node's file system.
    pub chan: u8,

    /// The mode, CR to EX.
    pub mode: Mode,

    /// The reply where it is not granted.
    pub refused: Reply,
}
