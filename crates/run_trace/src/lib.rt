//! The trace of a run: a script is run on a copy of a volume in memory, and each event of the run is told by a line, and behind the lines the
//! report.
//!
//! `vmstrace` is the call, over any image, script source and text sink. `exit_trace` makes it with the words of a command line, and
//! answers the number of the status.
//!
//! ```text
//! let finished = vmstrace(alloc, words, image, &mut script, &mut out);
//! ```
//!
//! The contract is one clause (`IsTraceCall`). With status 0 the text is the lines of a walk of plays and turns and the report of this very
//! walk (`IsTraced`), which is all that is said of a run of `vmsclus`. The image keeps its blocks. Each status is due exactly as that of a run,
//! and its text is the same.
//!
//! With the word `--rebuild` the copy is mended once the last node is over, and the report is that of `vmsclus run --rebuild`, of this very
//! walk and its mending (`IsTracedMended`). If the copy cannot be mended, the lines come before the text that says so (`IsTracedUnmended`).
//!
//! A line has the number of the step, the node, the number of its turn or `-`, and what happened (`event_text`). The steps are the plays of the
//! schedule, numbered from 1, and then the turns in rotation. The event is read off the world after the turn, beside how the node stood
//! before it (`turn_read`); that this is the event of that turn is proved of all nineteen kinds of events.
//!
//! The program `vmstrace` makes the call.
#![tactic(auto)]

mod copied;
mod endings;
mod marks;
mod reads;
mod rounds;
mod steps;
mod texts;
mod top;
mod tracing;
mod waits;
mod walking;

pub use run_engine::{Finished, Status};
pub use top::{exit_trace, vmstrace};
