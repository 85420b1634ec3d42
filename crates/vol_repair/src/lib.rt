//! Repair of a damaged volume on a drive, block by block: an accepted volume where mending is not possible.
//!
//! `repair` does it, and says what it did (`Repaired`): how many header slots became free, and the counts of mending. `RepairFault` says
//! why a volume was not repaired.
//!
//! ```text
//! let done = repair(alloc, &mut mirror)?;
//! ```
//!
//! `patch_all` does what comes before mending, and gives the patched catalogue: for who only looks at a damaged volume, on a copy.
//!
//! Ok comes with an accepted volume, whose catalogue is that to which mending takes the patched one (`repaired`). After each of its
//! writes nothing is beyond repair, and every file that was sound is so still, except one that is marked for delete and an empty lost
//! one that has no room (`step`): so a repair that is stopped anywhere can be made again. If something is beyond repair nothing is
//! written (`beyond`), and `NotRepairable` tells the first such finding (`refused`).
//!
//! `clus_top` uses it for the job `repair`.
#![tactic(auto)]

mod bits;
mod bodies;
mod directories;
mod fault;
mod finishing;
mod freeing;
mod laws;
mod loops;
mod making;
mod own;
mod owners;
mod patching;
mod phases;
mod reaching;
mod removing;
mod repairing;
mod rows;

pub use fault::{RepairFault, Repaired};
pub use laws::{
    alike_keeps, beside_is_sound, first_beyond_is_there, mending_keeps, phases_lead, touched_keeps,
    touching_is_easy,
};
pub use plain_cat::Mended;
pub use repairing::{patch_all, repair};
