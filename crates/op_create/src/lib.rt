//! CREATE and MKDIR: the commands that make a file and enter it in a directory.
//!
//! `OpCreate` is either of them under way.
//!
//! ```text
//! let op = OpCreate::of(cmd);
//! let need = op.next(alloc, &seen)?;
//! ```
//!
//! `next` gives exactly the next need: the directory's lock in PW, its header and blocks, Q in PW and the quota blocks, clusters
//! and a file number, the lock of that number and its slot, and the plan. Each CREATE and MKDIR in form obeys the law of a
//! command, with whatever directory (`create_obeys_the_law`).
//!
//! `xqp_set` joins it to the other commands.
#![tactic(auto)]

mod entering;
mod files;
mod judging;
pub mod laws;
mod numbers;
mod operation;
mod places;
mod writing;

pub use numbers::{Given, number_given};
pub use operation::OpCreate;
