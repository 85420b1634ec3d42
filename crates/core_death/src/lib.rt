//! The death of a node, and the events of nodes: a turn, or the death by which the script replaces it.
//!
//! It works on a `World` of `core_state`, and has no types of its own.
//!
//! ```text
//! let told = seat_event(alloc, &mut world, node)?;
//! ```
//!
//! `kill` makes exactly the world after a death (`world`): one entry more in the history, with the stage of the command and what
//! is leaked; the node's locks and opens gone; drive and image as they were. It takes no memory and cannot fail. `seat_event`
//! makes exactly the turn, or the death if one is due (`moved`), with the answer (`answer`); after a fault the world is as it was,
//! and no death was due.
//!
//! `node_seat` and `run_engine` take steps by it.
#![tactic(auto)]

mod killing;
mod seats;
mod things;

pub use killing::kill;
pub use seats::{is_due, next_is_write, seat_event};
