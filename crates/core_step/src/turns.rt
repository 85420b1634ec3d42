//! What a turn made, the kinds of events, and why a turn made nothing.

ghost use Rattle.std.specs.Prelude.{◌≡◌};

use blk_drive::ImageFault;
use std::alloc::AllocError;

/// What a turn made.
#[derive(Clone, Copy, Debug, PartialEq)]
pub enum Turn {
    /// An event of this kind.
    Moved(Kind),

    /// A request of the node stands in a queue.
    Waiting,

    /// An answer: the last entry of the history is the node's.
    Answered,

    /// The node is dead, or its script is done and it has left the volume.
    Over,
}

/// The kinds of events.
#[derive(Clone, Copy, Debug, PartialEq)]
pub enum Kind {
    /// A lock was granted.
    Locked,

    /// A cached block was used.
    Used,

    /// A block was read from the drive.
    Looked,

    /// A block was written.
    Wrote,

    /// Locks were lowered by the rule for space.
    Lowered,

    /// A plan was made.
    Planned,

    /// An ask was granted.
    Tried,

    /// A give-back ended.
    Returned,
}

/// Why a turn made nothing.
#[derive(Clone, Copy, Debug, PartialEq)]
pub enum TurnFault {
    /// A write of the image failed. The node stands before that write.
    ImageFault,

    /// Memory ran out.
    NoMemory,
}

impl From<AllocError> for TurnFault {
    ghost use Rattle.core_step.specs.declared.turns.TurnFault.TheVariants.{NoMemory};

    ghost from_gives = { λ _ fault. fault ≡ NoMemory };

    fn from(_error: AllocError) -> TurnFault {
        TurnFault::NoMemory
    }
}

impl From<ImageFault> for TurnFault {
    ghost use Rattle.core_step.specs.declared.turns.TurnFault.TheVariants.{ImageFault};

    ghost from_gives = { λ _ fault. fault ≡ ImageFault };

    fn from(_fault: ImageFault) -> TurnFault {
        TurnFault::ImageFault
    }
}
