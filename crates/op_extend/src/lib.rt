//! EXTEND and TRUNC: the commands that give a file more clusters, or fewer.
//!
//! `OpExtend` is either of them under way.
//!
//! ```text
//! let op = OpExtend::of(cmd);
//! let need = op.next(alloc, &seen)?;
//! ```
//!
//! `next` gives exactly the next need: the lock and the block of each header of the file in PW, Q in PW and the quota blocks; then
//! for EXTEND clusters, and if a new header is needed a number, its lock and its slot, for TRUNC V in PW, the block of the index-file
//! bitmap if a header goes, and the storage blocks of the clusters that go; and the plan. Each EXTEND and TRUNC whose number of
//! blocks is in form obeys the law of a command, with whatever file (`extend_obeys_the_law`, `trunc_obeys_the_law`).
//!
//! `xqp_set` joins it to the other commands.
#![tactic(auto)]

mod cutting;
mod extending;
mod given;
mod headers;
pub mod laws;
mod operation;
mod runs;
mod truncating;
mod writing;

pub use operation::OpExtend;
