//! Tests of live calls, with threads (`live_run`). The crate has tests alone.
//!
//! `gates` shows that several threads run, and that they make the events; `reports` are judged line by line against the volume before and
//! the volume after (`log_check`); `sends` is that a world may be handed to a thread; `yards` steps seats in turn, without threads.
//!
//! ```text
//! let called = live(&rt, alloc, "live", volume(alloc)?, script)?;
//! ```
//!
//! It promises nothing: its tests compare numbers, texts and blocks.
#![tactic(auto)]

#[cfg(test)]
mod gates;
#[cfg(test)]
mod reports;
#[cfg(test)]
mod sends;
#[cfg(test)]
mod yards;
