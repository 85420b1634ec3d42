//! Worked rows of the top call over images, scripts and sinks that fail, over volumes that are spoilt, and of the program around the call
//! over real files. The crate has tests alone.
//!
//! The calls and the images are those of `rows_calls`. `spoilt` is data; `cuts`, `formats`, `noise` and `reads` go through each write, each
//! read or each byte.
//!
//! `locks`, `paths`, `session` and `syncs` are over real files: locks, images that are only read, what is no image, and syncs that
//! fail. Each makes a file or a folder of its own in the folder for temporary files, calls the program's call with it, and compares the
//! number, the text, and what the file has then. Two openings of one file in one process exclude one another as those of two processes do;
//! what two processes do, and that the sync comes before the first byte of the report, `./try_edge` shows.
//!
//! ```text
//! let called = call_with(alloc, &["rebuild"], image, "", Failures { script: 0, out: 1 })?;
//! ```
//!
//! It promises nothing: its tests compare numbers, texts and blocks.
#![tactic(auto)]

#[cfg(test)]
mod cuts;
#[cfg(test)]
mod edge_calls;
#[cfg(test)]
mod formats;
#[cfg(test)]
mod locks;
#[cfg(test)]
mod noise;
#[cfg(test)]
mod paths;
#[cfg(test)]
mod reads;
#[cfg(test)]
mod session;
#[cfg(test)]
mod spoilt;
#[cfg(test)]
mod syncs;
