//! Worked rows of locks, of the caches under them, and of the distributed lock database. The crate has tests alone.
//!
//! Over `lock_db`, `node_locks`, `node_cache`, `extent_cache`, `dlm_core` and `dlm_run`.
//!
//! It promises nothing: its tests compare answers, modes and value blocks.
#![tactic(auto)]

#[cfg(test)]
mod caches;
#[cfg(test)]
mod databases;
#[cfg(test)]
mod extents;
#[cfg(test)]
mod holding;
#[cfg(test)]
mod notices;
#[cfg(test)]
mod random;
#[cfg(test)]
mod scripts;
#[cfg(test)]
mod steps;
