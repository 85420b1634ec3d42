//! Laws of blocks and mending: what mending may begin with, that it goes on after each of its writes, and when it is done. There is
//! no code: each law is the contract of a function that does nothing.
//!
//! `weak_can_mend`: the catalogue of blocks with no fatal finding can be mended. `spelt_is_weak` and `spelt_mends`: the other way
//! round, blocks that spell a catalogue that can be mended, with nothing outside at any node, have no fatal finding and mend to
//! what it mends to. `write_mends`: each write of mending leads to blocks that mend to the same. `accepted_is_sound`: the
//! catalogue of an accepted volume is in order. `accepted_is_clean`: so are its headers.
//!
//! From blocks with no fatal finding each write leads to such blocks, whose catalogue is the one before it, or that after one
//! small change of mending. `entry_goes`: the writes of a removal take out an entry that does not stay. `lost_is_entered`: those of an
//! insertion enter a lost file in `[SYSLOST]`, if there is room. `slot_is_freed`, `stray_is_freed`, `surplus_is_cut`: a header slot of
//! a file, one that is no file's, the last header of a file. `clusters_are_set`, `rows_are_summed`: a bitmap block, a quota block.
//! `done_is_accepted`: if nothing is left to mend, the headers are clean, and no entry is in two blocks, the volume is accepted.
//!
//! `vol_rebuild` and the laws of runs (`run_engine`) use them.
#![tactic(auto)]

mod accepted;
mod done;
mod entries;
mod going;
mod space;
mod weak;

pub use accepted::{accepted_is_clean, accepted_is_sound, weak_can_mend};
pub use done::done_is_accepted;
pub use entries::{
    dir_is_packed, dir_is_read, entry_goes, lost_is_entered, moves_mend, volume_is_seen,
};
pub use going::{change_mends, mending_goes_on, start_is_settled, write_mends};
pub use space::{
    clusters_are_set, last_is_cut, numbers_are_set, rows_are_summed, slot_is_freed, stray_is_freed,
    surplus_is_cut,
};
pub use weak::{sound_can_mend, sound_is_readable, spelt_is_weak, spelt_mends};
