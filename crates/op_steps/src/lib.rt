//! What the plans of commands have in common: the code that looks at names, quota rows and file headers and adds writes to a plan,
//! and the laws by which these writes go from stage to stage.
//!
//! A `DirSeen` is a directory whose header and blocks were seen. `Names` is that, or what the command needs next. A `FileSeen` is a file
//! by its headers that were seen, and `file_runs` are its runs. `chain_seen` gives it by all of its headers, and `part_seen` by those up
//! to that which lists a virtual block, or what the command needs next (`Chained`).
//!
//! ```text
//! match names_seen(alloc, &seen.geometry, dir, seen.all()) {
//!     Names::Next(need) => Ok(need),
//!     Names::All(d, rest) => ..,
//! }
//! ```
//!
//! What was seen is given exactly, or else exactly the next need, whatever the command looks at afterwards (`need`). Each `push_`
//! call adds exactly the writes of its definition to the plan, as `push_insertion` those that enter an entry and `push_charge`
//! that of a quota row; where memory runs out, the plan holds what it held, and behind that at most a beginning of those.
//!
//! A plan is a chain of steps: each write takes blocks that spell one stage to blocks that spell the next. Each law is the contract of
//! a function that does nothing, and those that end in `_guards` say that each write is under the lock that guards its block.
//! `laws`: a quota row (`row_steps`, `new_row_steps`), a new file (`file_steps`), an entry in a directory (`entry_steps`,
//! `removal_steps`). `file_laws`: the first header of a file that is there (`head_steps`), marked for delete or with another mark and
//! end (`marked_steps`, `sized_steps`), a header slot that is no file's (`slot_steps`), and all headers of a file that gets clusters,
//! loses clusters, or goes (`grown_steps`, `cut_steps`, `freed_steps`). `block_laws`: one block of a file (`block_steps`), and the whole
//! of a write to a virtual block (`write_steps`).
//!
//! `op_steps` and the operations use it.
//!
//! What becomes free: clusters in the storage bitmap, numbers in the index-file bitmap, blocks in the quota row of their owner, and
//! a file that goes whole with all of these. These are the last writes of a plan that takes something from a file.
//!
//! `SpaceSeen` is the quota and bitmap blocks that are written then.
//!
//! ```text
//! match space_seen(alloc, &geometry, &clusters, rest)? {
//!     Space::All(space) => push_gone(alloc, &mut writes, &geometry, &file, &clusters, &space)?,
//!     Space::Next(need) => ..,
//! }
//! ```
//!
//! `push_freeing` adds exactly the writes of both bitmaps; `blocks_for` gives exactly the bitmap blocks that are to be looked at.
//! `push_gone` adds exactly the writes of a file that goes, `all_clusters` gives exactly its clusters. Where memory runs out, the plan
//! holds what it held, and behind that at most a beginning of what was to be added.
//!
//! Laws: the bitmap writes are steps of a plan (`freeing_steps`), with the quota row too (`tail_steps`), each under V or Q
//! (`tail_guards`); after them nothing is outside (`tail_ends`), and other files stay as they were seen (`other_files_stand`).
//! `gone_laws` say the same of the file that goes whole (`gone_steps`, `gone_guards`, `gone_ends`).
//!
//! EXTEND, TRUNC, DELETE and CLOSE use it (`op_extend`, `op_delete`, `op_access`).
#![tactic(auto)]

mod bitmaps;
pub mod block_laws;
mod chains;
mod clusters;
pub mod file_laws;
mod freeing_clusters;
pub mod freeing_laws;
pub mod gone_laws;
mod gone_looking;
mod headers;
pub mod laws;
mod looking;
mod moves;
mod names;
mod quotas;
mod runs;
mod seeing;
mod slots;
mod writing;

pub use bitmaps::{blocks_for, push_freeing, push_index, push_storage, rising};
pub use chains::{Chained, chain_seen, links_seen, part_seen, slot_seen};
pub use clusters::{clusters_for, cost_of, runs_for};
pub use freeing_clusters::all_clusters;
pub use gone_looking::{Space, SpaceSeen, space_seen};
pub use headers::push_header;
pub use looking::storage_seen;
pub use moves::{push_insertion, push_moves, push_removal, raw_entry};
pub use names::{
    DirSeen, Names, has_name, highest_seen, is_full, is_taken, names_seen, new_version,
};
pub use quotas::{
    owner_row, push_charge, push_discharge, push_row, quota_seen, row_there, rows_seen,
};
pub use runs::{HeaderRuns, ListedRuns, SeenRuns, file_lbn, file_runs};
pub use seeing::{FileSeen, fields_told, file_used};
pub use slots::{all_numbers, push_slots, slot_seq};
pub use writing::push_gone;
