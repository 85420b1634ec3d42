//! The live top call: one thread for each node, over seats of a shared volume.
//!
//! `vmsclus_live` is the call, `Gate` what each thread calls before a step. `Finished` has the `Status` of the call, and the image.
//!
//! ```text
//! let finished = vmsclus_live(rt, alloc, words, image, &mut script, &mut out, &OpenGate);
//! ```
//!
//! Of what is written and left it promises what `vmsclus` does (`written`, `left` of `IsCall`), if it returns, and of what a script, the
//! words and a volume say what `run` does, and with a mending when it cannot be made (`due`): with status 0 the report is that of a history
//! that replays from the catalogue of the volume, whole. A good script on an accepted volume is answered, but for faults, want of memory and
//! `NotMendable` (`good_live_runs_are_answered`); and if a status is due that is none of these, no other such one is
//! (`no_other_live_status_is_due`). That several threads ran, and that they made the events, tests show.
//!
//! `exit_call` makes the call with all of the words that it is given, in order, and answers the number of its status and the image, for which
//! what the call says holds (`IsEnd`).
//!
//! The program `vmsclus_live` calls it. The parts of the call that tests look at apart are its mount (`mounted`), the seats that go to
//! the threads (`tasks_of`, `Task`), and what is done when all have ended (`finish`).
#![tactic(auto)]

mod calling;
mod gate;
mod laws;
mod live;
mod rest;
mod threads;
mod top;
mod words;

pub use calling::exit_call;
pub use gate::{Gate, OpenGate};
pub use laws::{good_live_runs_are_answered, no_other_live_status_is_due, one_live_status_is_due};
pub use live::mounted;
pub use rest::finish;
pub use run_engine::{Called, Finished, Status, no_memory};
pub use threads::{Task, tasks_of};
pub use top::vmsclus_live;
