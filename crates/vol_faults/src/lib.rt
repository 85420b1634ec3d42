//! The fatal findings of a volume, kind by kind, and the catalogue of a volume without one.
//!
//! There is a call for each kind, such as `first_bad_header`, `first_shared_cluster` and `first_loop`. `read_whole` joins them.
//! A `Spot` is an entry with the number of its directory. The other types are those of `vol_parts`.
//!
//! ```text
//! let read = read_whole(alloc, blocks)?;  // the catalogue, or the first fatal finding
//! ```
//!
//! Each `first_` call gives the finding of its kind with the lowest number, and none if and only if none of that kind holds
//! (`IsFirstOf`). `read_whole` gives the first of all but one, or the catalogue (`IsRead`). That one, a lost file without room in
//! [SYSLOST], is found on the catalogue: `spots` lists all entries with their places, `all_firsts` gives for each file the first that
//! names it, `stays`, `is_second` and `is_lost` answer by that table exactly the questions of mending, and `first_without_room` gives
//! the first such file (`IsFirstIn`). A law says that mending fails if and only if that room is lacking.
//!
//! Two lists are of what mending takes off: `surplus` of the files whose chains of headers go on behind their last block, `strays` of
//! the headers that are no first ones and in no file's chain.
//!
//! `vol_spell` reads volumes by it, `vol_analyze` lists findings, `vol_rebuild` mends.
#![tactic(auto)]

mod bounds;
mod chains;
mod clusters;
mod control;
mod counts;
mod entries;
mod first;
mod free;
mod headers;
mod keeping;
mod laws;
mod loops;
mod numbers;
mod places;
mod room;
mod sizes;
mod staying;
mod systems;
mod tails;

pub use bounds::{first_large_file, first_run_off};
pub use chains::first_bad_chain;
pub use clusters::{count_outside, first_free_cluster, first_shared_cluster};
pub use control::first_bad_control_block;
pub use counts::count_clusters;
pub use entries::{first_marked_dir, first_missing_entry};
pub use first::read_whole;
pub use free::{free_counts, geometry};
pub use headers::first_bad_header;
pub use keeping::{all_firsts, is_lost, is_second};
pub use laws::{catalogues_tell_volumes, room_is_lacking_where_mending_gives_up};
pub use loops::first_loop;
pub use numbers::first_free_number;
pub use places::{Spot, spots};
pub use room::first_without_room;
pub use staying::stays;
pub use systems::first_bad_system_file;
pub use tails::{strays, surplus};
