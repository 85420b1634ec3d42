//! All operations of the file system, as one: each of the fifteen commands under way.
//!
//! `XqpOp` is an enum over the eight operations, and an `Operation` itself.
//!
//! ```text
//! let op = XqpOp::of(cmd);
//! let need = op.next(alloc, &seen)?;
//! ```
//!
//! It takes each command whose numbers, names and texts are in form (`IsBuilt`). `next` gives exactly the next need of that
//! command, and `of` promises the law of a command (`lawful`): each of the fifteen obeys it (`laws::commands_obey_the_law`). The
//! top call runs the core with it.
//!
//! The top calls (`clus_top`, `live_run`) run worlds of it.
#![tactic(auto)]

pub mod laws;
mod set;

pub use set::XqpOp;
