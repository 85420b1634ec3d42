//! What a repair did, why a volume is not repaired, and why a step of a repair stops.

ghost use Rattle.std.specs.Prelude.{◌≡◌};

use blk_drive::ImageFault as WriteFault;
use plain_cat::Mended;
use std::alloc::{AllocError, AllocFailed};
use vol_parts::Finding;

/// What a repair did.
#[derive(Clone, Copy, Debug, PartialEq)]
pub struct Repaired {
    /// The header slots that became free.
    pub slots: u32,

    /// What mending did behind that.
    pub mended: Mended,
}

/// Why a volume was not repaired.
#[derive(Drop)]
pub enum RepairFault {
    /// Something of the volume is beyond repair, and this is the first such finding. Nothing was written.
    NotRepairable(Finding),

    /// All is repaired, but `[SYSLOST]` has no room for a lost file that is not empty. What was written stays.
    NoRoom(Finding),

    /// A write of the image failed, and the image has counted it. Sound files are kept as `repair` says, and it can be called again.
    ImageFault,

    /// Memory ran out, before the first write or between two. Sound files are kept as `repair` says, and it can be called again.
    NoMemory,
}

/// Why a step of a repair stopped.
#[derive(Clone, Copy, Debug, PartialEq)]
pub(crate) enum StepFault {
    ImageFault,
    NoMemory,
}

impl From<WriteFault> for StepFault {
    ghost use Rattle.vol_repair.specs.declared.fault.StepFault.TheVariants.{ImageFault};

    ghost from_gives = { λ _ fault. fault ≡ ImageFault };

    fn from(_fault: WriteFault) -> StepFault {
        StepFault::ImageFault
    }
}

impl From<AllocError> for StepFault {
    ghost use Rattle.vol_repair.specs.declared.fault.StepFault.TheVariants.{NoMemory};

    ghost from_gives = { λ _ fault. fault ≡ NoMemory };

    fn from(_error: AllocError) -> StepFault {
        StepFault::NoMemory
    }
}

impl<T: Drop> From<AllocFailed<T>> for StepFault {
    ghost use Rattle.vol_repair.specs.declared.fault.StepFault.TheVariants.{NoMemory};

    ghost from_gives = { λ _ fault. fault ≡ NoMemory };

    fn from(_failed: AllocFailed<T>) -> StepFault {
        StepFault::NoMemory
    }
}

impl From<AllocError> for RepairFault {
    ghost use Rattle.vol_repair.specs.declared.fault.RepairFault.TheVariants.{NoMemory};

    ghost from_gives = { λ _ fault. fault ≡ NoMemory };

    fn from(_error: AllocError) -> RepairFault {
        RepairFault::NoMemory
    }
}

impl From<StepFault> for RepairFault {
    ghost use Rattle.vol_repair.specs.Faults.{as_fault};

    ghost from_gives = { λ s fault. fault ≡ as_fault s };

    fn from(fault: StepFault) -> RepairFault {
        match fault {
            StepFault::ImageFault => RepairFault::ImageFault,
            StepFault::NoMemory => RepairFault::NoMemory,
        }
    }
}
