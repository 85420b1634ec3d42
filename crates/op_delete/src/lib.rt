//! DELETE: the command that removes an entry of a directory, and its file once nobody has it open.
//!
//! `OpDelete` is a DELETE under way.
//!
//! ```text
//! let op = OpDelete::of(cmd);
//! let need = op.next(alloc, &seen)?;
//! ```
//!
//! `next` gives exactly the next need: the directory, the headers of the file, each under its lock in PW, Q and the quota blocks, V
//! and the bitmaps, and the plan. The plan asks who has the file open: if nobody has, the file goes; if not, it stays, marked for delete.
//! Each DELETE obeys the law of a command (`delete_obeys_the_law`).
//!
//! `xqp_set` joins it to the other commands.
#![tactic(auto)]

mod deleting;
pub mod laws;
mod looking;
mod naming;
mod operation;
mod seeing;
mod writing;

pub use operation::OpDelete;
