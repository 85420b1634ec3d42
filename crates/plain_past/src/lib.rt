//! What a node has of its answers so far, and the command that it gives next under the script.
//!
//! `Past` is what the registers hold, which channels are open, how many commands were answered, and whether the node is dead.
//!
//! ```text
//! let Some(cmd) = past.next(alloc, &script, node)? else { .. };
//! past.answer(&cmd, &reply);
//! ```
//!
//! `next` gives exactly the next command of the definition: the next line with its registers filled in, after the last line the
//! close of the first open channel, or none. `answer` and `die` are exact, and take no memory. Laws say how a history grows by
//! one entry: `past_grows`, `own_grows`, `replays_grow`, `killed_grows`; `core_state` uses them.
#![tactic(auto)]

mod channels;
mod filling;
mod laws;
mod past;
mod registers;

pub use laws::{
    killed_grows, own_grows, own_whole, past_grows, past_of_others, replays_grow,
    strangers_have_nothing,
};
pub use past::Past;
