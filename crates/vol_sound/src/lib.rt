//! What a repair keeps of a damaged volume: what is beyond repair, which files are sound, which header slots stay, and the catalogues
//! that a repair comes to.
//!
//! `first_beyond` gives the first finding that repair cannot mend, a [`Finding`] of the home block, of the storage control block or
//! of the system files, numbers 1 to 11, and none if and only if there is none (`IsFoundBeyond`). `sound_files` says of each number
//! whether its file is sound (`is_sound`): above number 11, its chain of headers is whole, its runs are whole clusters of the volume
//! that it shares with no other file, and, if it is a directory, it can be read. `kept_slots` says which header slots stay
//! (`is_kept`): those of the system files, and each of a sound file. `freed_slots` counts the others that are not free.
//!
//! ```text
//! if let Some(found) = first_beyond(alloc, blocks)? { .. }  // not repairable
//! let sound = sound_files(alloc, &home, blocks)?;           // number n at n - 1
//! let kept = kept_slots(alloc, &home, blocks, &sound)?;
//! let freed = freed_slots(&home, blocks, &kept);
//! ```
//!
//! Each call gives exactly what the definition says of the blocks. Runs of damaged headers may lie anywhere in 32 bits: they are
//! looked at as far as the volume goes, and no list of their blocks is made.
//!
//! Each law is the contract of a function that does nothing. `first_beyond_is_one`: what is beyond repair is a fatal finding, and one
//! alone is the first. `fixed_parts_are_right`: where there is none, the system files are right. `slots_are_freed`: what is told of
//! the files that are kept stays with each slot that becomes free, and so do their blocks. `freed_is_settled`: once all are free,
//! nothing is wrong with a header, a chain or a run, and no cluster is in two runs. `kept_is_right`: when directories, rows and bits
//! are put right too, the blocks tell the catalogue that the repair begins with (`begun`), and no finding holds on which the spelling
//! of a catalogue rests. Of the catalogue that mending then gets (`patched`): `loops_are_found` and `no_loop_is_left`, no chain of
//! entries returns in it; `owners_have_rows`, each owner has a quota row.
//!
//! No program calls them yet: they are what the repair of a volume is to rest on.
#![tactic(auto)]

mod beyond;
mod clusters;
mod kept;
mod laws;
mod shared;
mod sound;

pub use beyond::{first_beyond, first_beyond_is_one};
pub use kept::{freed_slots, kept_slots};
pub use laws::{
    fixed_parts_are_right, freed_is_settled, kept_is_right, loops_are_found, no_loop_is_left,
    owners_have_rows, slots_are_freed,
};
pub use sound::sound_files;
pub use vol_parts::Finding;
