//! The top call: the program `vmsclus` over any image, script source and text sink; and the program around it, which opens these.
//!
//! The words ask for a job: `run` runs a script on a volume, `run --rebuild` mends the volume then too, `soak` runs a script that is
//! drawn from a number, `analyze` reports what is wrong with a volume, `rebuild` mends it, `records` prints the records of a file,
//! `store` stores the lines of a text there, `init` makes a volume. `Finished` has the `Status` of the call, and the image.
//!
//! ```text
//! let finished = vmsclus(alloc, words, image, &mut script, &mut out);
//! exit_call(rt.alloc(), job, image, &mut script, &mut out)
//! ```
//!
//! The contract is one clause, on bytes of a script, blocks of the image and blocks that are left (`IsCall`). Its fields say: each status
//! comes only under its condition (`due`), and of all inputs one is due, and no other one, but for faults and want of memory
//! (`one_status_is_due`, `no_other_status_is_due`); of a good script and an accepted volume it is `Ok`, or, of `run --rebuild` whose end
//! cannot be mended, `NotMendable` (`good_runs_are_answered`). With status 0 the report of a run is the answers of one uncached volume, taken one after the other,
//! with the stages and leaks of deaths (`written`), and the image has the blocks to which they lead (`left`), mended by the
//! report's last entry if the job is `run --rebuild`. With other statuses these two say what was written, and what the image has. A
//! fault is reported only if its object's count of faults rose.
//!
//! `run` is the whole program. `exit_call` makes the top call with all of the words that it is given, in order, and answers the number
//! of its status and the image, for which what the top call says holds (`IsEnd`). If there is no memory for the words, the number is that of
//! `NoMemory`. What `run` takes from the system, words and files, no contract says: stored runs show it, and tests over real files. How the
//! image's file is opened, locked and synced is in `edge_files`: `analyze` and `records` open it to be read, and every other job to be
//! read and written.
//!
//! `vmsclus` and `vmsclus_init` call `run`; `vmsclus_live` takes the rest from it.
#![tactic(auto)]

mod analysis;
mod calling;
mod files;
mod format;
mod laws;
mod rebuild;
mod records;
mod repair;
mod run_job;
mod run_rebuild;
mod store;
mod top;
mod words;

pub use calling::exit_call;
pub use files::run;
pub use laws::{good_runs_are_answered, no_other_status_is_due, one_status_is_due};
pub use run_engine::{Called, Finished, Status, exit_code, no_memory, words_of};
pub use top::vmsclus;
