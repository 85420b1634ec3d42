//! Plays a script of events on the distributed lock database, and prints what each did.
//!
//! `Script` has the nodes and the events, `Fault` says why a text is none, and `DlmStatus` how a run ended.
//!
//! ```text
//! let status = dlm_run(alloc, &mut script, &mut out);
//! ```
//!
//! What the status says of the script is true, and the laws of `dlm_core` hold of the events of a script that is played (`due`).
//! With status 0 the lines of all events were written, each with its number and its answer; with a fault of the sink some first
//! bytes of them (`written`). A fault comes only if the count of its object rose (`script_fault`, `out_fault`).
//!
//! A script is lines that end with a line feed, which the last may lack. Empty lines and lines that begin with `#` are
//! skipped. The first other line is `NODES n`, and each later one an event: `ASK node part name mode fill`,
//! `DROP node part name fill`, `PASS from to` or `KILL node`.
//!
//! The program `vmsclus_dlm` calls it.
#![tactic(auto)]

mod events;
mod names;
mod playing;
mod printing;
mod reading;
mod script;
mod status;
mod top;
mod words;

pub use script::{Fault, Script};
pub use status::DlmStatus;
pub use top::dlm_run;
