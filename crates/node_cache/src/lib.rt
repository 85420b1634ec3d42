//! A node's own cache of blocks that it has looked at under a lock.
//!
//! An entry of a [`NodeCache`] is good for as long as the sequence in its lock's value block is the entry's. Who looks compares
//! them: the cache keeps what it is given, finds it again, and lets the entry go that was not used for longest.
//!
//! ```text
//! cache.keep(alloc, 5, LockName::V, 7, &block)?;  // LBN, lock, sequence, bytes
//! let seen = cache.current(5, LockName::V, 7);
//! ```
//!
//! `current` gives the bytes if and only if there is an entry for that block, lock and sequence (`block`). After each call there
//! are at most 64 entries, and no block twice (`laws::caches_stay`). What was just kept is found (`laws::kept_is_found`). Whether
//! a cached block is what the drive has is not said here. Who asks whether entries are under many locks, by the order in which these
//! were used, asks a [`LockWalk`], which finds each beside the one before.
//!
//! The core (`core_state`, `core_step`) uses it.
#![tactic(auto)]

mod cache;
mod held;
pub mod laws;
mod locks;
mod walk;

pub use base_words::Block;
pub use cache::NodeCache;
pub use lock_db::{LockName, NoMemory};
pub use walk::LockWalk;
