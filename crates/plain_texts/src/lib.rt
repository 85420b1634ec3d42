//! How all that a script or a report names is written: names, file identifiers, owners, modes, commands, replies, and the lines
//! of a report.
//!
//! There is a `push_` call for each, which appends its text to a vector of bytes. It has no types of its own.
//!
//! ```text
//! add_command(alloc, &mut out, &cmd)?;
//! add_reply(alloc, &mut out, &reply)?;
//! ```
//!
//! Each call appends exactly the text of its definition in `specs/`, after the bytes that were there. The one error says that
//! memory ran out, and then the vector is as it was.
//!
//! `run_engine`, `log_check` and `dlm_run` print by it.
#![tactic(auto)]

mod commands;
mod names;
mod pieces;
mod replies;
mod reports;
mod tail;
mod whole;

pub use names::{push_fid, push_mode};
pub use pieces::{NoMemory, push_bytes, push_count, push_number};
pub use replies::push_refusal;
pub use reports::push_stage;
pub use whole::{
    push_command, push_entry, push_line, push_lines, push_mended, push_reply, push_uic,
};
