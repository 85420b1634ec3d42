//! Where records stand, and why a stream has none.

use blk_drive::ImageFault as WriteFault;
use std::alloc::{AllocError, AllocFailed};

/// No memory was to be had.
pub type NoMemory = AllocError;

/// Where the data of a record stand in a stream.
#[derive(Clone, Copy, Debug, PartialEq)]
pub struct Rec {
    /// The byte at which they begin, from 0 on. Their count is in the two bytes before it.
    pub from: usize,
    /// How many bytes they are, 0 to 32,767.
    pub len: usize,
}

/// Why no records are given: the first fault in the order of the stream's bytes, of one record a bad count first; or want of memory.
#[derive(Clone, Copy, Debug, PartialEq)]
pub enum RecFault {
    /// The count that begins at this byte is above 32,767.
    BadCount(usize),
    /// The stream ends within the count, the data or the padding of the record that begins at this byte.
    Truncated(usize),
    /// Memory ran out.
    NoMemory,
}

/// Why no lines are given.
#[derive(Clone, Copy, Debug, PartialEq)]
pub enum LineFault {
    /// This line, counted from 1, is the first that has more than 32,767 bytes.
    LineLong(usize),
    /// Memory ran out.
    NoMemory,
}

/// Why lines are not stored in a file. The first that holds is told.
#[derive(Clone, Copy, Debug, PartialEq)]
pub enum StoreFault {
    /// No file of this number is in use with this sequence.
    NoSuchFile,
    /// It is a system file, one of the numbers 1 to 11, or a directory.
    NoPriv,
    /// Something was written in it: its mark is not 1.
    NotEmpty,
    /// The records of the lines take more bytes than the blocks of the file have.
    NoRoom,
    /// Memory ran out. Nothing was written.
    NoMemory,
    /// A write of the image failed, and the image has counted it. The volume is accepted still, as it was or with the lines stored.
    ImageFault,
}

impl From<AllocError> for LineFault {
    ghost use Rattle.std.specs.Prelude.{◌≡◌};
    ghost use Rattle.vol_records.specs.declared.types.LineFault.TheVariants.{NoMemory};

    ghost from_gives = { λ _ fault. fault ≡ NoMemory };

    fn from(_error: AllocError) -> LineFault {
        LineFault::NoMemory
    }
}

impl From<AllocError> for RecFault {
    ghost use Rattle.std.specs.Prelude.{◌≡◌};
    ghost use Rattle.vol_records.specs.declared.types.RecFault.TheVariants.{NoMemory};

    ghost from_gives = { λ _ fault. fault ≡ NoMemory };

    fn from(_error: AllocError) -> RecFault {
        RecFault::NoMemory
    }
}

impl From<AllocFailed<Rec>> for RecFault {
    ghost use Rattle.std.specs.Prelude.{◌≡◌};
    ghost use Rattle.vol_records.specs.declared.types.RecFault.TheVariants.{NoMemory};

    ghost from_gives = { λ _ fault. fault ≡ NoMemory };

    fn from(_failed: AllocFailed<Rec>) -> RecFault {
        RecFault::NoMemory
    }
}

impl From<AllocError> for StoreFault {
    ghost use Rattle.std.specs.Prelude.{◌≡◌};
    ghost use Rattle.vol_records.specs.declared.types.StoreFault.TheVariants.{NoMemory};

    ghost from_gives = { λ _ fault. fault ≡ NoMemory };

    fn from(_error: AllocError) -> StoreFault {
        StoreFault::NoMemory
    }
}

impl From<WriteFault> for StoreFault {
    ghost use Rattle.std.specs.Prelude.{◌≡◌};
    ghost use Rattle.vol_records.specs.declared.types.StoreFault.TheVariants.{ImageFault};

    ghost from_gives = { λ _ fault. fault ≡ ImageFault };

    fn from(_fault: WriteFault) -> StoreFault {
        StoreFault::ImageFault
    }
}
