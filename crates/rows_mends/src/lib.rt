//! Worked rows of the top call: runs in which nodes die, and what `rebuild`, `repair` and `run --rebuild` make of a volume. The crate has
//! tests alone.
//!
//! The rows are data, and `rows_calls` goes through them. `volumes` has what happens on volumes first.
//!
//! ```text
//! Row { on: On::Fresh, first: A_FILE, each: &[&[Step::Run(script, report), Step::Finds(found)]] }
//! ```
//!
//! It promises nothing: its tests compare numbers, texts and blocks.
#![tactic(auto)]

#[cfg(test)]
mod deaths;
#[cfg(test)]
mod rebuilding;
#[cfg(test)]
mod repairing;
#[cfg(test)]
mod run_rebuilding;
#[cfg(test)]
mod volumes;
