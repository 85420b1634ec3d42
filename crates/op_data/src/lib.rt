//! READ and WRITE: the commands that move a virtual block of a file that a channel has open.
//!
//! `OpData` is either of them under way.
//!
//! ```text
//! let op = OpData::of(cmd);
//! let need = op.next(alloc, &seen)?;
//! ```
//!
//! `next` gives exactly the next need: the file's lock, in PR or PW, its header, those of its further headers up to that which
//! lists the block, each behind its own lock, for a READ below the mark the block, and the plan. A WRITE past the mark writes zeros
//! up to the block, then the block, then the header. Each READ with its block in form, and each WRITE with its block and text in
//! form, obeys the law of a command (`read_obeys_the_law`, `write_obeys_the_law`).
//!
//! `xqp_set` joins it to the other commands.
#![tactic(auto)]

pub mod laws;
mod operation;
mod reading;
mod seeing;
mod sizing;
mod writing;

pub use operation::OpData;
