//! Worked rows of the formats: words, blocks, headers, bitmaps, directories, records and texts, byte for byte. The crate has
//! tests alone.
//!
//! Over `base_words`, `blk_drive`, `blk_files` and the crates of `fx_`. A module is named after what its crate reads and writes.
//!
//! It promises nothing: its tests compare bytes, fields and faults.
#![tactic(auto)]

#[cfg(test)]
mod bitmaps;
#[cfg(test)]
mod directories;
#[cfg(test)]
mod drives;
#[cfg(test)]
mod files;
#[cfg(test)]
mod headers;
#[cfg(test)]
mod homes;
#[cfg(test)]
mod quotas;
#[cfg(test)]
mod records;
#[cfg(test)]
mod texts;
#[cfg(test)]
mod words;
