//! The turns of the nodes: each makes one event, that of the first rule that applies to the node.
//!
//! A `Turn` says what it made: a step of a `Kind`, an answer, or nothing, while a request waits or once the node is over.
//!
//! ```text
//! match turn(alloc, &mut world, node)? {
//!     Turn::Answered => ..,  // the last entry of the history
//!     _ => ..,
//! }
//! ```
//!
//! The world is then exactly the one of the definition (`moved`), and after a fault as it was (`same`). `ImageFault` comes only
//! in place of a write and if the image's count of faults rose (`before`, `cause`); the image has the blocks from before, or
//! those that the turn would have left (`torn`). `NoMemory` never comes in place of a write of a plan or of an answer (`memory`).
//! A block that the turn uses from the node's cache is the drive's (`used`).
//!
//! `core_death` and `node_seat` use it.
#![tactic(auto)]

mod answers;
mod asks;
mod caches;
mod channels;
mod claims;
mod events;
mod giving;
mod needs;
mod raises;
mod searches;
mod serving;
mod spaces;
mod step;
mod turns;

pub use spaces::{gives_back, stands};
pub use step::turn;
pub use turns::{Kind, Turn, TurnFault};
