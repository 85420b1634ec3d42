//! Worked rows of the top call: a node dies in each turn of a command, or each write of a run fails, and mending makes an accepted volume
//! of what is left. The crate has tests alone.
//!
//! The rows are data, and `rows_calls` goes through them. `scenes` has the commands and what a death at each place may leave.
//!
//! ```text
//! each_scene(alloc, Row { on: On::Fresh, first: &[], each: &[] }, &[Scene { .. }])
//! ```
//!
//! It promises nothing: its tests compare numbers, texts and blocks.
#![tactic(auto)]

#[cfg(test)]
mod each_death;
#[cfg(test)]
mod each_write;
#[cfg(test)]
mod headers;
#[cfg(test)]
mod scenes;
