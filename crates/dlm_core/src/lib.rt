//! A lock database that is distributed over nodes.
//!
//! A [`Dlm`] is the database of all nodes, an [`Event`] what happens to it, and [`Told`] what it answers.
//!
//! ```text
//! let told = dlm.step(alloc, &Event::Pass { from: 1, to: 2 })?;
//! ```
//!
//! Each step makes exactly the state of the definition (`after`), and after want of memory nothing has changed (`err`). At any
//! time the modes that two owners of living nodes believe on one name are compatible (`safe`); it holds after every list of
//! events (`laws::beliefs_go_together`). A grant that is delivered was sent by the event that gave the lock
//! (`laws::grants_are_true`). Who gets a lock above CR reads the last write of the name, or a value block that is not valid
//! (`laws::holders_have_the_last_write`). An ask or a drop that is told `Done` sends one message to the master, and each other
//! answer says why nothing was done (`laws::answers_are_true`). The file system does not use this crate.
//!
//! Each resource has a master: the node that keeps its locks, its queues and its value block. An owner on any node calls it
//! by messages, and acts on a new lock or a greater mode only when the message with the grant has come. The core is a plain
//! value over events: no clock, no thread, no network. An event asks, drops, delivers the first message from one node to
//! another, or is the death of a node, so a list of events is an order of deliveries and deaths. When a master dies, the
//! lowest living node takes over its names and recovers them from what the others claim.
//!
//! A master has a notice for each owner whose lock is in the way of an ask that waits (`Dlm::notices`); nothing rests on it.
//!
//! `dlm_run` uses it.
#![tactic(auto)]

mod blocks;
mod calls;
mod cluster;
mod deaths;
mod dlm;
mod events;
mod holds;
mod homes;
pub mod laws;
mod masters;
mod messages;
mod notices;
mod queue;
mod recoveries;
mod rules;
mod tables;

pub use dlm::Dlm;
pub use events::{Event, Told};
pub use lock_db::{LockName, Mode, NoMemory, Owner};
pub use notices::Notice;
pub use rules::BlockRule;
