//! How a run ends.

ghost use Rattle.std.specs.Prelude.{◌≡◌};
ghost use Rattle.dlm_run.specs.Statuses.{status_code};

/// How a run ended.
#[derive(Clone, Copy, Debug, PartialEq)]
pub enum DlmStatus {
    /// All events were played, and their lines written.
    Ok,

    /// A read of the script failed, and the source has counted it.
    ScriptFault,

    /// The script has more than 1,048,576 bytes.
    ScriptTooLong,

    /// This line, counted from 1 with those that are skipped, is the first bad one.
    BadScript(u32),

    /// There is a 4,097th event, and no bad line in front of it.
    TooMany,

    /// A write of the lines failed, and the sink has counted it.
    OutFault,

    /// Memory ran out.
    NoMemory,
}

impl DlmStatus {
    /// The number with which the program ends: 0, 2, 3, 6 or 7.
    pub fn code(&self) -> u8
        ensures { result ≡ status_code self.now }
    {
        match self {
            DlmStatus::Ok => 0,
            DlmStatus::ScriptFault | DlmStatus::ScriptTooLong => 2,
            DlmStatus::BadScript(_) | DlmStatus::TooMany => 3,
            DlmStatus::OutFault => 6,
            DlmStatus::NoMemory => 7,
        }
    }
}
