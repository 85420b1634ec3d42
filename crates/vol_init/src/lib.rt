//! Making a volume: what a fresh volume is, and its system files written into the blocks of a drive.
//!
//! `Layout` has the cluster factor, the file numbers and the blocks of a volume, from which all places follow. `init` makes the
//! volume, and `InitFault` says why it was refused.
//!
//! ```text
//! init(alloc, &mut mirror, 4, 64, b"KVOL")?;  // cluster factor, file numbers, label
//! ```
//!
//! Ok comes with exactly a fresh volume (`ok`), which is accepted (`accepted`), in memory and on the image (`image`). A refusal
//! comes exactly if a number or the label is outside its limits or the image is too small, and changes nothing (`refused`,
//! `same`). After a failed write the image has the old blocks, or no home block that can be read, or the whole new volume
//! (`fault`). Laws: a fresh volume is accepted, with the catalogue of a fresh volume (`fresh_volumes_are_accepted`); all but its
//! system files is free (`fresh_volumes_have_room`).
//!
//! `main_entries` and `main_blocks` give what a master file directory says that names the eleven system files alone.
//!
//! The job `init` of the top calls uses it.
#![tactic(auto)]

mod blocks;
mod fault;
mod laws;
mod layout;
mod making;
mod naming;
mod part;
mod plan;
mod system_texts;

pub use fault::InitFault;
pub use laws::{
    fresh_volumes_are_accepted, fresh_volumes_have_room, ordered_blocks_have_no_doubles,
};
pub use layout::{Layout, SYSTEM_OWNER, USER_OWNER};
pub use making::init;
pub use naming::{main_blocks, main_entries};
pub use system_texts::text_of;
