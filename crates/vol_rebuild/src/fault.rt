//! Why a volume is not mended, and why a step of mending stops.

ghost use Rattle.std.specs.Prelude.{◌≡◌};

use blk_drive::ImageFault as WriteFault;
use std::alloc::{AllocError, AllocFailed};
use vol_parts::Finding;

/// Why a volume was not mended.
#[derive(Drop)]
pub enum RebuildFault {
    /// The volume has a fatal finding, and this is the first one. Nothing was written.
    NotMendable(Finding),

    /// A write of the image failed, and the image has counted it. What is left mends to the same.
    ImageFault,

    /// Memory ran out, before the first write or between two. What is left mends to the same.
    NoMemory,
}

/// Why a step of mending stopped.
#[derive(Clone, Copy, Debug, PartialEq)]
pub(crate) enum StepFault {
    ImageFault,
    NoMemory,
}

impl From<WriteFault> for StepFault {
    ghost use Rattle.vol_rebuild.specs.declared.fault.StepFault.TheVariants.{ImageFault};

    ghost from_gives = { λ _ fault. fault ≡ ImageFault };

    fn from(_fault: WriteFault) -> StepFault {
        StepFault::ImageFault
    }
}

impl From<AllocError> for StepFault {
    ghost use Rattle.vol_rebuild.specs.declared.fault.StepFault.TheVariants.{NoMemory};

    ghost from_gives = { λ _ fault. fault ≡ NoMemory };

    fn from(_error: AllocError) -> StepFault {
        StepFault::NoMemory
    }
}

impl<T: Drop> From<AllocFailed<T>> for StepFault {
    ghost use Rattle.vol_rebuild.specs.declared.fault.StepFault.TheVariants.{NoMemory};

    ghost from_gives = { λ _ fault. fault ≡ NoMemory };

    fn from(_failed: AllocFailed<T>) -> StepFault {
        StepFault::NoMemory
    }
}

impl From<AllocError> for RebuildFault {
    ghost use Rattle.vol_rebuild.specs.declared.fault.RebuildFault.TheVariants.{NoMemory};

    ghost from_gives = { λ _ fault. fault ≡ NoMemory };

    fn from(_error: AllocError) -> RebuildFault {
        RebuildFault::NoMemory
    }
}

impl From<StepFault> for RebuildFault {
    ghost use Rattle.vol_rebuild.specs.Faults.{as_fault};

    ghost from_gives = { λ s fault. fault ≡ as_fault s };

    fn from(fault: StepFault) -> RebuildFault {
        match fault {
            StepFault::ImageFault => RebuildFault::ImageFault,
            StepFault::NoMemory => RebuildFault::NoMemory,
        }
    }
}
