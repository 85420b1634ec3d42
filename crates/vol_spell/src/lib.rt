//! What it means that the blocks of a volume spell a catalogue, who has each cluster and file number then, and what each kind of
//! write changes: laws, and the reading of a volume.
//!
//! `Spells` says that blocks spell a catalogue, with an `Owner` for each cluster and each file number: free, in a file, outside at a
//! node (in its memory alone), or leaked.
//!
//! ```text
//! let Some(cat) = read_volume(alloc, blocks)? else { .. };
//! ```
//!
//! `read_volume` gives the catalogue, and none if and only if there is a fatal finding (`IsCatOrNone`). `read_fully` gives that
//! finding too. `file_lbns` gives the LBNs of a file's blocks, in order, as an `LbnList`.
//!
//! Each law is the contract of a function that does nothing. `laws`: `parts_lie_apart`, `clusters_add_up`, `numbers_add_up`, and one
//! for each kind of write to a header or a bitmap, such as `header_write` and `storage_write`, which takes spelt blocks to spelt
//! blocks. `owner_laws`: what stays true when owners change: `hands_over`, `outside_to_file`, `outside_to_leaked`, and
//! `handing_counts`, which counts them.
//! `write_laws`: the writes that commands and mending share: a quota row changes, or is one more (`row_spelt`, `new_row_spelt`); the
//! writes of a directory leave the catalogue as it is, up to the one that decides (`moves_spelt`); an insertion and a removal are such
//! writes (`entry_enters`, `entry_leaves`); a file gets another owner (`owner_spelt`).
//!
//! The drive under way (`vol_under`), mending (`vol_mends`) and the operations use them.
#![tactic(auto)]

pub mod laws;
mod lbns;
mod owner;
pub mod owner_laws;
mod reading;
pub mod write_laws;

pub use lbns::{LbnList, file_lbns};
pub use owner::Owner;
pub use reading::{read_fully, read_volume};
pub use vol_faults::{free_counts, geometry};
pub use vol_parts::{Finding, Geometry, Part, guard};
