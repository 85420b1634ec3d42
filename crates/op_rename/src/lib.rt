//! RENAME: the command that gives an entry of a directory another name and version.
//!
//! `OpRename` is a RENAME under way.
//!
//! ```text
//! let op = OpRename::of(cmd);
//! let need = op.next(alloc, &seen)?;
//! ```
//!
//! `next` gives exactly the next need: the directory's lock in PW, its header and blocks, and the plan, in which the new entry
//! comes before the old one goes. Each RENAME whose new name and version are in form obeys the law of a command
//! (`rename_obeys_the_law`).
//!
//! `xqp_set` joins it to the other commands.
#![tactic(auto)]

pub mod laws;
mod moving;
mod operation;
mod renaming;

pub use operation::OpRename;
