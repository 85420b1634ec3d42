//! The catalogue of a volume and what it consists of: files, slots, quota rows and open channels.

ghost use Rattle.std.specs.Prelude.{◌≡◌, IfOk};

use crate::NoMemory;
use crate::entries::DirEnts;
use crate::ids::Uic;
use crate::mode::Mode;
use crate::tables::{Blocks, Channels, Files, Flags, QuotaRows};
use std::alloc::Global;

/// A file.
#[derive(Drop)]
pub struct File {
    /// The sequence of its identifier.
    pub seq: u16,

    /// Whose quota it is charged to.
    pub owner: Uic,

    /// Whether it is a directory.
    pub dir: bool,

    /// How many clusters it has. Times the cluster factor, these are its allocated blocks.
    pub clusters: u32,

    /// The high-water mark: blocks from this virtual block on count as not written, and read as zeros. 0 is no mark, and then
    /// all blocks count as written.
    pub mark: u32,

    /// The virtual block of the end of file, which may be 0.
    pub end: u32,

    /// The byte of the end of file within that block.
    pub byte: u16,

    /// Whether it is marked for delete.
    pub marked: bool,

    /// The blocks that can be seen: those below the mark, or all where there is none. A directory has none here, nor have
    /// files 1, 2 and 10, whose blocks are the volume's own structures.
    pub written: Blocks,

    /// The entries, where it is a directory.
    pub entries: DirEnts,
}

impl File {
    /// The same file again.
    pub fn copy(&self, alloc: Global) -> Result<Self, NoMemory>
        ensures { IfOk result (λ f. f ≡ self.now) }
    {
        Ok(File {
            seq: self.seq,
            owner: self.owner,
            dir: self.dir,
            clusters: self.clusters,
            mark: self.mark,
            end: self.end,
            byte: self.byte,
            marked: self.marked,
            written: self.written.copy(alloc)?,
            entries: self.entries.copy(alloc)?,
        })
    }
}

/// What a file number has.
#[derive(Drop)]
pub enum Slot {
    /// A file.
    Used(File),

    /// None; the last sequence that the number had.
    Free(u16),
}

impl Slot {
    /// The same slot again.
    pub fn copy(&self, alloc: Global) -> Result<Self, NoMemory>
        ensures { IfOk result (λ s. s ≡ self.now) }
    {
        Ok(match self {
            Slot::Used(file) => Slot::Used(file.copy(alloc)?),
            Slot::Free(seq) => Slot::Free(*seq),
        })
    }
}

/// A row of the quota file, in blocks. The usage is the allocated blocks of the owner's files, and one for each file.
#[derive(Clone, Copy, Debug, PartialEq)]
pub struct QuotaRow {
    pub owner: Uic,
    pub usage: u32,
    pub quota: u32,
    pub over: u32,
}

/// What a channel has open: a file, by its number, and the mode.
#[derive(Clone, Copy, Debug, PartialEq)]
pub struct Open {
    pub file: u32,
    pub mode: Mode,
}

/// The catalogue of a volume: what its files, its quotas and its channels are. Where a block lies, which bits are set, who
/// holds a lock or what a node has cached is no part of it.
#[derive(Drop)]
pub struct Cat {
    /// The cluster factor: blocks per cluster.
    pub factor: u32,

    /// All clusters of the volume.
    pub total: u32,

    /// The clusters of the files 1 to 11.
    pub reserved: u32,

    /// How many quota rows there are, in use or not.
    pub rows: u32,

    /// The file numbers.
    pub files: Files,

    /// The quota rows in use.
    pub quota: QuotaRows,

    /// The channels of all nodes.
    pub opens: Channels,

    /// How many clusters are leaked: in no file, and not free.
    pub leaked: u32,

    /// Which numbers are leaked: of no file, and not free.
    pub leaked_numbers: Flags,
}

impl Cat {
    /// The same catalogue again.
    pub fn copy(&self, alloc: Global) -> Result<Self, NoMemory>
        ensures { IfOk result (λ c. c ≡ self.now) }
    {
        Ok(Cat {
            factor: self.factor,
            total: self.total,
            reserved: self.reserved,
            rows: self.rows,
            files: self.files.copy(alloc)?,
            quota: self.quota.copy(alloc)?,
            opens: self.opens.copy(alloc)?,
            leaked: self.leaked,
            leaked_numbers: self.leaked_numbers.copy(alloc)?,
        })
    }
}
