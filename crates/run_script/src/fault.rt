//! Why a script or a line of it is refused.

use std::alloc::AllocError;
use thiserror::Error;

/// Why a script is not read.
#[derive(Clone, Copy, Debug, PartialEq, Error)]
pub enum ScriptFault {
    /// The first bad line, counted from 1, with empty lines and comments. Where no line tells the nodes, it is the one
    /// behind the last.
    #[error("bad line {0}")]
    BadLine(u32),

    /// A line makes more than 4,096 commands or more than 65,536 plays, and all lines in front of it are good.
    #[error("too many commands or plays")]
    TooMany,

    /// Memory ran out, or there are more lines than 32 bits count.
    #[error("no memory")]
    NoMemory,
}

impl From<AllocError> for ScriptFault {
    ghost use Rattle.std.specs.Prelude.{◌≡◌};
    ghost use Rattle.run_script.specs.declared.fault.ScriptFault.TheVariants.{NoMemory};

    ghost from_gives = { λ _ fault. fault ≡ NoMemory };

    fn from(_error: AllocError) -> ScriptFault {
        ScriptFault::NoMemory
    }
}

/// Why a line is not taken.
#[derive(Clone, Copy, Debug, PartialEq)]
pub enum LineFault {
    /// It says nothing that may stand there.
    Bad,

    /// It makes too many commands or plays.
    TooMany,

    /// Memory ran out.
    NoMemory,
}

impl From<AllocError> for LineFault {
    ghost use Rattle.std.specs.Prelude.{◌≡◌};
    ghost use Rattle.run_script.specs.declared.fault.LineFault.TheVariants.{NoMemory};

    ghost from_gives = { λ _ fault. fault ≡ NoMemory };

    fn from(_error: AllocError) -> LineFault {
        LineFault::NoMemory
    }
}
