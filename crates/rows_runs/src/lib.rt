//! Worked rows of the top call: what runs of scripts print and leave. The crate has tests alone.
//!
//! The rows are data, and `rows_calls` goes through them. What a row cannot say stands in `caches`, `endings`, `soaks` and `stocks`.
//!
//! ```text
//! Row { on: On::Fresh, first: &[], each: &[&[Step::Made(script, report)]] }
//! ```
//!
//! It promises nothing: its tests compare numbers, texts and blocks.
#![tactic(auto)]

#[cfg(test)]
mod answers;
#[cfg(test)]
mod caches;
#[cfg(test)]
mod changing;
#[cfg(test)]
mod channels;
#[cfg(test)]
mod endings;
#[cfg(test)]
mod faults;
#[cfg(test)]
mod headers;
#[cfg(test)]
mod making;
#[cfg(test)]
mod queues;
#[cfg(test)]
mod quotas;
#[cfg(test)]
mod records;
#[cfg(test)]
mod soaks;
#[cfg(test)]
mod stocks;
#[cfg(test)]
mod stores;
#[cfg(test)]
mod tree;
