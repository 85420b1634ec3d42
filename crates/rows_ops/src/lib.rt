//! Worked rows of the commands, each alone on a small volume: the locks that it takes, the blocks at which it looks, its writes in order,
//! its ask and its reply. The crate has tests alone. They stand over `xqp_set`, and so over the crate of each command, and over
//! `op_steps`; and, over `core_space`, of the search for free space on bitmaps and the rules by which a node fills its stock, gives it back,
//! and searches all free space.
//!
//! `alone` runs a command that no channel serves, `on_channel` one of a channel that has a file open, and `plans` compares what they come
//! to with a text. `searching` and `stocks` are of space.
//!
//! ```text
//! check(&rt, alloc, &volume(), None, ("1 STAT (16,1,0)", "S(16) PR at 24", "refused NoSuchFile"))?;
//! ```
//!
//! It promises nothing: its tests compare texts, events, numbers and blocks.
#![tactic(auto)]

#[cfg(test)]
mod accesses;
#[cfg(test)]
mod alone;
#[cfg(test)]
mod creating;
#[cfg(test)]
mod deleting;
#[cfg(test)]
mod freeing;
#[cfg(test)]
mod looking;
#[cfg(test)]
mod on_channel;
#[cfg(test)]
mod plans;
#[cfg(test)]
mod quotas;
#[cfg(test)]
mod renaming;
#[cfg(test)]
mod searching;
#[cfg(test)]
mod sizing;
#[cfg(test)]
mod stocks;
#[cfg(test)]
mod transfers;
#[cfg(test)]
mod volumes;
