//! The rules by which a node fills its stock of free clusters and file numbers, gives it back, and searches all free space if no
//! stock is left; and the search in the bitmaps itself.
//!
//! `SpaceRun` is how far a node has come by the rules (`Phase`), `SpaceEvent` what it does next, `Decision` what the blocks
//! looked at come to. A `Search` says what comes next in the bitmaps: one more block to look at, why there is too little, or the writes
//! that take what is wanted, the lowest first.
//!
//! ```text
//! let event = space_next(alloc, &geometry, locks, &run, &stock, need)?;
//! let next = search(alloc, &geometry, 3, true, looked)?;  // three clusters and a file number
//! ```
//!
//! `space_next`, `space_writes` and `search` give exactly the event, the writes and the answer of the definition. `laws`: a filling
//! leaves what is needed and at most 16 clusters and 8 numbers more (`fills_enough`), the lowest (`takes_lowest`); a need is refused
//! only in the search of all free space, under X in EX and V in PW (`refused_last`). `search_laws`: each write takes what is free in a
//! block that was looked at (`writes_take`), as much as is wanted (`takes_all`), and no block twice (`writes_apart`); with nothing
//! outside at any node, a shortage is reported only if there is one (`shortage_is_exact`).
//!
//! The core (`core_state`, `core_step`) uses it.
#![tactic(auto)]

mod bits;
mod event;
mod filling;
mod finding;
mod giving;
mod lasting;
mod laws;
mod outcome;
mod rule;
mod run;
mod search_laws;
mod taking;

pub use event::{Decision, SpaceEvent};
pub use finding::search;
pub use lasting::{LastingLocks, stays_behind};
pub use laws::{
    clusters_go_back, decided_last, fillings_refill, fills_enough, full_is_whole, looks_at_bitmaps,
    numbers_go_back, refused_last, stocks_take_all, takes_lowest, writes_fill,
};
pub use outcome::Search;
pub use plain_cat::{Mode, NoMemory, Refusal};
pub use rule::{back_next, is_due, space_next, space_writes};
pub use run::{Phase, SpaceLocks, SpaceNeed, SpaceRun};
pub use search_laws::{
    command_is_short, looked_grows, looks_in_order, number_is_free, number_is_new, places_lie,
    search_ends, shortage_is_exact, takes_all, takings_refill, writes_apart, writes_take,
};
