//! The world of a cluster: a drive, a lock table, the nodes with their commands under way, and the history of their answers.
//!
//! A `World` is all of it, mounted for a script. A `Core` is what it is made of, a `Node` one node. Contracts see it as plain
//! data.
//!
//! ```text
//! let mounted = World::<I, XqpOp>::mount(alloc, mirror, script);  // or the drive back, with the cause
//! ```
//!
//! `mount` gives exactly the world of an accepted volume with all nodes at rest, or the drive back, with the first finding or
//! want of memory (`world`, `end`). At any time the history replays, in each node's own order, and the drive has the blocks to
//! which it leads, with the writes done of each plan (`keeps_the_rules`). Laws: a turn and a death keep this
//! (`turns_keep_the_rules`, `deaths_keep_the_rules`), and a cached block that a turn uses is the drive's
//! (`used_blocks_are_the_drives`).
//!
//! `core_step`, `core_death`, `core_ends` and the runs use it.
//!
//! What guards the blocks that may be cached, while the committed blocks change. There is no code: each law is the contract of a
//! function that does nothing.
//!
//! A cached block is used only under the lock that guards it. `guarded_or_freed`: an event leaves a block under its guard, or makes it
//! free. `heads_left`, `deaths_stay`: what an answer, a look, a bitmap write and a death leave of these guards.
//!
//! The core (`core_state`) uses them.
#![tactic(auto)]

pub mod cached_laws;
mod cluster;
mod laws;
mod mounting;
mod node;
mod spare;
mod world;

pub use cluster::Core;
pub use core_space::{Phase, SpaceRun};
pub use laws::{
    cached_blocks_are_under_locks, current_blocks_are_the_drives, deaths_keep_the_rules,
    numbers_outside_are_few, shortage_is_of_all, stocks_are_locked, turns_keep_the_rules,
    used_blocks_are_the_drives,
};
pub use mounting::{MountFault, MountRefused};
pub use node::Node;
pub use op_law::NoMemory;
pub use spare::SpareLists;
pub use world::World;
