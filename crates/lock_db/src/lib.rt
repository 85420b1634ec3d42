//! A lock manager after OpenVMS's $ENQ: six modes, conversions before new requests, and value blocks.
//!
//! The table, a [`LockDb`], is a plain value. Each call is one step of it, which is told whole by its contract, and the same
//! calls in the same order give the same table. Nothing blocks: a request that cannot be granted stands in a queue, and a later
//! call of its owner finds it granted. A [`LockName`] is a resource, an [`Owner`] a part of a node.
//!
//! ```text
//! let asked = db.request(alloc, LockName::V, owner, Mode::PW)?;
//! if asked == Asked::Queued && db.queued(LockName::V, owner) { .. }
//! ```
//!
//! At any time granted locks of one name are compatible, an owner has at most one lock or request there, and nothing waits that
//! could be granted (`keeps_the_rules`). Laws say it of every such table: `laws::granted_locks_go_together`,
//! `laws::a_head_is_held_up`, and `laws::conversions_go_first`.
//!
//! `node_locks` and the core use it, and `dlm_core` takes its rules.
#![tactic(auto)]

mod askers;
mod db;
pub mod laws;
mod name;
mod queues;
mod resource;
mod table;

pub use askers::{Asker, Askers, Standing};
pub use db::LockDb;
pub use name::{LockName, Owner};
pub use plain_cat::{Mode, NoMemory, compatible};
pub use resource::{Asked, Resource, Tried};
