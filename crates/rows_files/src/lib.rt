//! Worked rows of files by name: which file a specification means on a fresh volume, its listing, and the lines of streams. The crate has
//! tests alone.
//!
//! Over `vol_show`; the catalogue is that of `rows_sample`.
//!
//! It promises nothing: its tests compare identifiers and texts.
#![tactic(auto)]

#[cfg(test)]
mod listing;
#[cfg(test)]
mod specifying;
#[cfg(test)]
mod streams;
