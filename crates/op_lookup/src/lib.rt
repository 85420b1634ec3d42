//! LOOKUP, LIST and STAT: the commands that only look.
//!
//! `OpLookup` is one of them under way.
//!
//! ```text
//! let op = OpLookup::of(cmd);
//! let need = op.next(alloc, &seen)?;
//! ```
//!
//! `next` gives exactly the next need: the lock of the file or directory in PR, its header, the blocks of a directory, and a plan
//! without a write. Each of these commands obeys the law of a command (`Operation::of`: `lawful`).
//!
//! `xqp_set` joins it to the other commands.
#![tactic(auto)]

mod looks;
mod operation;

pub use operation::OpLookup;
