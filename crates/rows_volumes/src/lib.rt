//! Worked rows of what is found on volumes: parts, fatal findings and warnings, on blocks and on catalogues, and what repair asks of blocks. The crate has tests alone.
//!
//! Over `vol_parts`, `vol_faults`, `vol_analyze`, `vol_records` and `vol_sound`. Lines are stored too, on an image of which each write fails once.
//!
//! It promises nothing: its tests compare findings and their texts.
//!
//! Worked rows of making and mending volumes, and a law: the worked catalogue of `rows_sample` is that of a fresh volume.
//!
//! Over `vol_init` and `vol_rebuild`.
//!
//! It promises nothing else: its tests compare bytes, findings and counts.
#![tactic(auto)]

mod laws;

pub use laws::the_worked_volume_is_fresh;

#[cfg(test)]
mod analyses;
#[cfg(test)]
mod catalogues;
#[cfg(test)]
mod chains;
#[cfg(test)]
mod faults;
#[cfg(test)]
mod findings;
#[cfg(test)]
mod firsts;
#[cfg(test)]
mod layouts;
#[cfg(test)]
mod making;
#[cfg(test)]
mod mending;
#[cfg(test)]
mod parts;
#[cfg(test)]
mod places;
#[cfg(test)]
mod repairs;
#[cfg(test)]
mod storing;
#[cfg(test)]
mod streams;
