//! What the blocks of a volume say: where its parts are, its files, and the catalogue. It also names what can be wrong with them.
//!
//! `Geometry` says where the fixed parts are, `Part` is one of them, and `Finding` is what is wrong with a volume. The
//! definitions are in `specs/`; the calls read single parts by them.
//!
//! ```text
//! let header = fields(&home, blocks, n);  // none if the slot has no first header of a file
//! ```
//!
//! Each call gives exactly what the definition says of the blocks: `guard` the part that a block is, `fields` a file's first
//! header, `file_runs` the runs of all its headers, `body` its blocks, `read_catalogue` the catalogue, `slot_flags` which numbers
//! are header slots of files, `chain_fault` what is wrong with a chain of headers. Some ask for what earlier findings exclude, such
//! as runs outside the volume (`requires`). Laws (`whole`): whatever the format crates write is a whole block, one of 512 bytes.
//!
//! All crates of volumes, commands and the core use it.
#![tactic(auto)]

mod bodies;
mod catalogue;
pub mod chains;
mod dirs;
mod finding;
mod flags;
mod geometry;
mod heads;
mod links;
mod one_slot;
mod rows;
mod walk;
pub mod whole;

pub use bodies::{body, file_runs, first_lbn, is_free_cluster, is_used_number};
pub use catalogue::{files, plain_entries, plain_entry, read_catalogue, read_entries, slot};
pub use chains::{chain_fault, cut, is_one_header, left_behind};
pub use dirs::{dir_fault, first_bad_directory};
pub use finding::Finding;
pub use flags::slot_flags;
pub use geometry::{Geometry, Part, guard};
pub use heads::{fields, first_head, head, used_slot};
pub use links::{MOST_HEADERS, next_header};
pub use one_slot::{SlotRuns, slot_runs};
pub use rows::{active_rows, first_double_row, first_rowless_file, push_rows, sorted_rows};
pub use walk::FileRuns;
pub use whole::blocks_are_whole;
