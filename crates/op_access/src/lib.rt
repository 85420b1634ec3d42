//! OPEN and CLOSE: the commands by which a channel of a node opens a file and closes it. A file that is marked for delete goes
//! with the last of its opens.
//!
//! `OpAccess` is either of them under way.
//!
//! ```text
//! let op = OpAccess::of(cmd);
//! let need = op.next(alloc, &seen)?;
//! ```
//!
//! `next` gives exactly the next need: the file's lock in PW and its header, for the CLOSE of a marked file its other headers, each
//! under its lock, the quota file and the bitmaps, and the plan. The plan of OPEN asks for the lock of who has the file open, in its mode: the reply is `Opened`, or
//! AccConflict if the ask is refused. Each OPEN, and each CLOSE of a channel in form, obeys the law of a command
//! (`open_obeys_the_law`, `close_obeys_the_law`).
//!
//! `xqp_set` joins it to the other commands.
#![tactic(auto)]

mod closing;
pub mod laws;
mod opening;
mod operation;

pub use operation::OpAccess;
