//! What a command needs next, by what it has seen, and the law that every command obeys.
//!
//! A `Need` is a lock, a block, clusters and a file number, or nothing more, and then a `Plan`: its writes, an ask or none, and
//! the reply. `Seen` is what the command has seen so far. `Operation` is the trait of a command under way.
//!
//! ```text
//! let Need::Ready(plan) = op.next(alloc, &seen)? else { .. };
//! ```
//!
//! `next` gives exactly the next need of the definition (`IsNext`). `of` promises the law (`Lawful`): the command asks for locks
//! in order; each write of its plan is to a block that a lock of it guards, or that it has outside files, and leads from stage to
//! stage; the reply goes with the last; a refusal writes nothing. `seen_goes_on` is a law for the core.
//!
//! The operations and the core stand on it.
#![tactic(auto)]

mod events;
mod laws;
mod limits;
mod lists;
mod need;
mod numbers;
mod operation;
mod seeing;
mod seen;

pub use events::{
    answered, blocks_of, entries_read, entries_seen, entry_seen, is_number, live_in, place_in,
    refused, version_seen,
};
pub use laws::{looks_reply, seen_goes_on};
pub use limits::{FILE_MOST, HEADER_MOST};
pub use lists::{SeenBlocks, SeenLocks, Writes};
pub use need::{Ask, Need, Plan, PlanWrite};
pub use numbers::Numbers;
pub use operation::Operation;
pub use plain_cat::NoMemory;
pub use seeing::{
    Granted, Listed, Listing, Looked, Rest, block_seen, blocks_seen, directory_seen,
    entries_looked, header_lbn, header_seen, lock_seen,
};
pub use seen::{Chan, Seen};
