//! Replies, and why a command is refused.

ghost use Rattle.std.specs.Prelude.{◌≡◌, IfOk};

use crate::NoMemory;
use crate::byte_block::ByteBlock;
use crate::entries::DirEnts;
use crate::ids::{Fid, Uic};
use crate::name::Name;
use std::alloc::Global;

/// Why a command was refused. A refused command changes nothing.
#[derive(Clone, Copy, Debug, PartialEq)]
pub enum Refusal {
    /// No file has this identifier, or it is marked for delete; or the directory has no such entry.
    NoSuchFile,

    /// The file is no directory.
    NotDir,

    /// A system file or a directory is not to be changed so; or the channel's mode does not write.
    NoPriv,

    /// The name has this version already.
    DupFile,

    /// The highest version is 32,767, and there is no next one.
    BadVersion,

    /// The entries would not pack into the directory's blocks.
    DirFull,

    /// The directory has entries.
    DirNotEmpty,

    /// The file would get more than 77 clusters at once, or have more than 1,232.
    FileLimit,

    /// The owner has no quota row.
    NoQuota,

    /// The usage would pass the quota; of an extension, the quota and its overdraft.
    ExQuota,

    /// No quota row is free.
    QuotaFull,

    /// No file number is free for a new file, or for a new header of the file.
    IndexFull,

    /// Too few clusters are free.
    DeviceFull,

    /// The mode does not go together with another open of the file.
    AccConflict,

    /// The channel is open.
    ChanBusy,

    /// The channel is not open.
    NotOpen,

    /// The virtual block is 0, or past the allocated blocks.
    EndOfFile,
}

/// What a command is answered.
#[derive(Drop)]
pub enum Reply {
    /// The entry that was looked up or made.
    Found {
        fid: Fid,
        name: Name,
        ver: u16,
    },

    /// The entries of a directory, in order.
    Listed(DirEnts),

    /// The attributes of a file: allocated blocks, high-water mark, and end of file as block and byte.
    Facts {
        dir: bool,
        owner: Uic,
        blocks: u32,
        mark: u32,
        end: u32,
        byte: u16,
    },

    /// The allocated blocks after a change of size.
    Size(u32),

    /// The entry is gone, and its file with it.
    Deleted,

    /// The entry is gone; the file is marked for delete, since a channel has it open.
    Marked,

    /// The entry is gone; it named no file.
    EntryRemoved,

    /// The new name and version of an entry.
    Renamed {
        name: Name,
        ver: u16,
    },

    /// The channel is open.
    Opened,

    /// The channel is closed, and a file marked for delete is gone with its last open.
    Closed {
        gone: bool,
    },

    /// The bytes of a virtual block.
    Bytes(ByteBlock),

    /// The virtual block is written.
    Written,

    /// Quota and overdraft are set.
    QuotaKept,

    /// An owner's usage, quota and overdraft, in blocks.
    Usage {
        usage: u32,
        quota: u32,
        over: u32,
    },

    /// The command was refused, and changed nothing.
    Refused(Refusal),
}

impl Reply {
    /// The same reply again.
    pub fn copy(&self, alloc: Global) -> Result<Self, NoMemory>
        ensures { IfOk result (λ r. r ≡ self.now) }
    {
        Ok(match self {
            Reply::Found { fid, name, ver } => Reply::Found {
                fid: *fid,
                name: name.copy(alloc)?,
                ver: *ver,
            },
            Reply::Listed(entries) => Reply::Listed(entries.copy(alloc)?),
            Reply::Facts {
                dir,
                owner,
                blocks,
                mark,
                end,
                byte,
            } => Reply::Facts {
                dir: *dir,
                owner: *owner,
                blocks: *blocks,
                mark: *mark,
                end: *end,
                byte: *byte,
            },
            Reply::Size(blocks) => Reply::Size(*blocks),
            Reply::Deleted => Reply::Deleted,
            Reply::Marked => Reply::Marked,
            Reply::EntryRemoved => Reply::EntryRemoved,
            Reply::Renamed { name, ver } => Reply::Renamed {
                name: name.copy(alloc)?,
                ver: *ver,
            },
            Reply::Opened => Reply::Opened,
            Reply::Closed { gone } => Reply::Closed { gone: *gone },
            Reply::Bytes(bytes) => Reply::Bytes(bytes.copy(alloc)?),
            Reply::Written => Reply::Written,
            Reply::QuotaKept => Reply::QuotaKept,
            Reply::Usage { usage, quota, over } => Reply::Usage {
                usage: *usage,
                quota: *quota,
                over: *over,
            },
            Reply::Refused(refusal) => Reply::Refused(*refusal),
        })
    }
}
