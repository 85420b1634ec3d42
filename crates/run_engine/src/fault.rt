//! Why a run stopped before its end.

use core_step::TurnFault;

/// Why a run stopped before every node was over.
#[derive(Clone, Copy, Debug, PartialEq)]
pub enum RunFault {
    /// A write of the image failed, and the image has counted it. The world stands before that turn.
    ImageFault,

    /// Memory ran out. The world stands before that turn.
    NoMemory,
}

impl From<TurnFault> for RunFault {
    ghost use Rattle.std.specs.Prelude.{◌≡◌};
    ghost use Rattle.run_engine.specs.Faults.{run_fault};

    ghost from_gives = { λ fault run. run ≡ run_fault fault };

    fn from(fault: TurnFault) -> RunFault {
        match fault {
            TurnFault::ImageFault => RunFault::ImageFault,
            TurnFault::NoMemory => RunFault::NoMemory,
        }
    }
}
