//! Mending a volume on a drive, block by block: what deaths and stops have left is put right.
//!
//! `rebuild` does it, and gives the counts of what was done (`Mended`). `RebuildFault` says why a volume was not mended.
//!
//! ```text
//! let counts = rebuild(alloc, &mut mirror)?;
//! ```
//!
//! Ok comes with an accepted volume, whose catalogue is that to which `mended` of `plain_rules` takes the old one, by just these
//! counts (`mended`). After each of its writes the blocks have no fatal finding and mend to the same (`way`), so a mending that
//! is stopped anywhere can be made again. If there is a fatal finding nothing is written (`fatal`), and `NotMendable` reports the
//! first (`refused`). `ImageFault` comes only if the image's count of faults rose (`cause`).
//!
//! `run_engine` and the job `rebuild` of `clus_top` use it.
#![tactic(auto)]

mod bits;
mod doubles;
mod entries;
mod fault;
mod flags;
mod lost;
mod making;
mod mending;
mod names;
mod places;
mod rows;
mod slots;
mod surplus;
mod tails;

pub use fault::RebuildFault;
pub use mending::rebuild;
pub use plain_cat::Mended;
