//! Calls of the top call over images in memory, for the crates of tests alone: one harness for all of them.
//!
//! A `Row` is a volume and what happens on it, one `Step` after another: calls with the answers that they must have, bytes that are changed,
//! and blocks that are compared. `play` goes through rows, and `Wrong` says what was found and what is wanted. `Exchange` is the words and
//! the script of a call with its wanted answer, `Called` what a call left, `Lines` lines of a script that differ in a number alone, and
//! `Written` a script of such lines with its report.
//!
//! ```text
//! play(alloc, &[Row { on: On::Fresh, first: &[], each: &[&[Step::Made(script, report)]] }])?;
//! ```
//!
//! It promises nothing: no contract says what these values are, and no program uses them. The tests that use them compare.
//!
//! The crates of tests of whole calls (`rows_runs`, `rows_stops`, `rows_mends`, `rows_hostile`, `rows_reports`, `rows_live`) use it.
#![tactic(auto)]

mod calls;
mod checks;
mod images;
mod long;
mod mending;
mod rows;
mod steps;
mod stops;
mod texts;

pub use calls::{Called, Exchange, Failures, call, call_bytes, call_with};
pub use checks::{Wrong, answered, check_about, check_answer, check_same, expect};
pub use images::{On, blocks_of, image_of, volume, zeros};
pub use long::{BEFORE, ELEVEN};
pub use mending::each_stops;
pub use rows::{Row, play};
pub use steps::{NOTHING, REBUILD, Step, after, made, mended, stays};
pub use stops::{Stop, failing, is_cut};
pub use texts::{Lines, Written, lines_with, text_of};
