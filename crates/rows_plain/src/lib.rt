//! Worked rows of the plain crates: examples of commands, deaths and mendings on the catalogue of a fresh volume of 1,024 blocks. The
//! crate has tests alone.
//!
//! Over `plain_rules`, `plain_vol` and `plain_past`; the catalogue is that of `rows_sample`.
//!
//! It promises nothing: in the tests each stated entry is judged legal by `check_reply`, and neighbours of it illegal.
#![tactic(auto)]

#[cfg(test)]
mod pasts;
#[cfg(test)]
mod rules;
