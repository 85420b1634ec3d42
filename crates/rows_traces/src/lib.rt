//! Worked rows of `vmstrace`: which lines it prints of runs on volumes in memory, with and without `--rebuild`, and what it refuses. The
//! crate has tests alone.
//!
//! The rows are data, and `tracing` goes through them: each trace is this text, the report of `vmsclus` on a copy of the volume is its end,
//! and the volume stays.
//!
//! ```text
//! check(rt.alloc(), FRESH, trace_of(WAITS))?;
//! ```
//!
//! It promises nothing: its tests compare texts, statuses and blocks.
#![tactic(auto)]

#[cfg(test)]
mod mended;
#[cfg(test)]
mod refused;
#[cfg(test)]
mod runs;
#[cfg(test)]
mod tracing;
