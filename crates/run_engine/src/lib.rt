//! A run of a script on a world, and all that the programs share that make one: how a script is read, one turn for each play and then
//! turns in rotation until every node is over, the mending of the drive, the report, and the texts and numbers of the statuses.
//!
//! `RunFault` is why a run stopped, `Stop` why it came to no end, `Halt` why it has no report, its mending included. `MendEnd` is what
//! a mending left. `Status` is how a call ended, and `Finished` that with the image; `Called` has the number of the status in its place. Nothing here knows the
//! words of one program.
//!
//! ```text
//! let script = script_of(alloc, &mut source)?;
//! run(alloc, &mut world, plays)?;
//! let text = report(alloc, world.history(), free_at_end(&world))?;
//! let status = tell_halt(alloc, out, halt);
//! ```
//!
//! `run`: Ok comes once every node is over, with a history that has each command of each node (`ok`, `whole`). After a fault the world
//! is as before the turn that failed (`err`), and the image too, but for the one write (`before`). No run goes on for more turns than
//! its bound. `free_at_end` counts the free clusters of the catalogue to which the history leads and which the drive spells then.
//! `report`, `summary` and the texts are exactly those of their definitions.
//!
//! `script_of` reads a script, and says of which bytes that holds (`OfScript`); `OfImage` says the same of the blocks of an image, and
//! `blocks_are_counted` that those that it tells are as many as it has.
//!
//! `mend` mends the drive of a world that is over, as its catalogue is mended, and adds that to the history (`end`). After each
//! answer the drive mends to what the catalogue mends to (`still`). `free_on_drive` counts the free clusters of a mended drive.
//!
//! Laws of worlds that stop, each the contract of a function that does nothing. `world_laws`: if a world stops at any moment, its drive
//! mends as the catalogue that is left (`stopped_worlds_mend`); so it does once every node is over (`over_worlds_mend`); a mending that
//! was stopped and is made again ends with the same catalogue (`rebuilt_is_mended`). `stop_laws`: a run can stop wherever it is
//! (`runs_can_stop`), also where a write of it failed, whether its block is on the image or not (`torn_runs_can_stop`,
//! `torn_worlds_can_stop`); what is left has each answered command.
//!
//! The top calls (`clus_top`, `live_run`) use it.
#![tactic(auto)]

mod calls;
mod counts;
mod fault;
mod free;
mod images;
mod laws;
mod mending;
mod over_mending;
mod reports;
mod rotation;
mod running;
mod script;
mod status;
mod stop;
mod stop_laws;
mod summaries;
mod telling;
mod world_laws;

pub use calls::{Called, exit_code, no_memory, words_of};
pub use fault::RunFault;
pub use free::free_at_end;
pub use images::blocks_are_counted;
pub use laws::{over_is_spelt, over_is_whole, turns_are_two_phase, turns_leave_the_rest};
pub use mending::{MendEnd, free_on_drive, mend};
pub use over_mending::{Halt, MendedRun, halt_of, mend_over, tell_halt};
pub use reports::{report, report_lines};
pub use running::run;
pub use script::script_of;
pub use status::{Finished, Status};
pub use stop::{Stop, load_status, mount_status, report_of, stop_of};
pub use stop_laws::{runs_can_stop, torn_runs_can_stop, torn_worlds_can_stop};
pub use summaries::summary;
pub use telling::{tell, tell_findings, tell_text};
pub use world_laws::{
    halted_is_one, over_worlds_mend, rebuilt_is_mended, steps_keep_the_rules, stopped_worlds_mend,
};
