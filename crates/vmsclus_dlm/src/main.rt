//! The program: `vmsclus_dlm`. It reads a script of events from standard input, plays them on a distributed lock database, and prints
//! what each did.
//!
//! Its script is a `StdIn` over standard input, its sink a `StdOut` over standard output, and `DlmStatus` says how it ended.
//!
//! ```text
//! vmsclus_dlm < events.script
//! ```
//!
//! It ends with the number of the status of `dlm_run` (`exit_code`). What it takes from the system no contract says.
#![tactic(auto)]

ghost use Rattle.std.specs.Prelude.{◌≡◌};
ghost use Rattle.std.specs.Process.{exit_status};
ghost use Rattle.dlm_run.specs.Statuses.{status_code};

use dlm_run::{DlmStatus, dlm_run};
use fx_text::{StdIn, StdOut};
use std::io;
use std::process::ExitCode;

// The number of a status.
fn exit_code(status: DlmStatus) -> ExitCode
    ensures { exit_status result ≡ status_code status }
{
    ExitCode::from(status.code())
}

// Makes the call with standard input as its script and standard output as its sink.
fn called<R: Input + Print + AllocGlobal>(rt: &R) -> ExitCode {
    let mut script = StdIn::new(rt.reader());
    let mut out = StdOut::new(io::writer(rt));
    exit_code(dlm_run(rt.alloc(), &mut script, &mut out))
}

fn main(rt: HostRuntime) -> ExitCode {
    called(&rt)
}
