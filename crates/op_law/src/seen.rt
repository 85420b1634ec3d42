//! What a command has seen so far, and what a channel has open.

ghost use Rattle.std.specs.Prelude.{◌≡◌};

use crate::lists::{SeenBlocks, SeenLocks};
use crate::seeing::Rest;
use plain_cat::{Clusters, Fid, Mode, Refusal};
use vol_parts::Geometry;

/// What a command has seen so far.
#[derive(Drop)]
pub struct Seen {
    /// Where the parts of the volume lie.
    pub geometry: Geometry,

    /// What the channel that the command names has open, if it has.
    pub channel: Option<Chan>,

    /// The locks that were granted for the command, in order.
    pub locks: SeenLocks,

    /// The blocks that it has looked at, in order.
    pub blocks: SeenBlocks,

    /// The clusters that it was given.
    pub clusters: Clusters,

    /// The file number that it was given, from 1.
    pub number: Option<u32>,

    /// Why it was given none, IndexFull or DeviceFull, where that was refused.
    pub short: Option<Refusal>,
}

impl Seen {
    /// All that was seen: the locks and the blocks.
    pub fn all(&self) -> Rest<'_>
        ensures locks { result.locks.now ≡ self.now.locks }
        ensures blocks { result.blocks.now ≡ self.now.blocks }
    {
        Rest {
            locks: self.locks.items(),
            blocks: self.blocks.items(),
        }
    }
}

/// What a channel has open.
#[derive(Clone, Copy, Debug, PartialEq)]
pub struct Chan {
    pub file: Fid,

    /// CR to EX.
    pub mode: Mode,
}
