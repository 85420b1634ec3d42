//! The types of the plain volume: the catalogue, commands, replies, scripts and histories. They are plain data, without blocks,
//! locks or caches.
//!
//! A `Cat` is the catalogue of a volume: its files, quota rows and open channels. A `Cmd` is a command, a `Reply` its answer, an
//! `Entry` of a `History` an answer, a death or a mending. `plain_rules` says what a command answers.
//!
//! ```text
//! let mut name = Name::new(alloc);
//! name.push(b'A')?;
//! ```
//!
//! Contracts see each list as the list of its items, and each call says exactly what is in it afterwards. After a `push` or an
//! `insert` that had no memory the list is as before; an `append` uses room that was made before, and takes no memory.
//! `compatible` is the table of lock modes.
//!
//! All crates above the formats use it.
#![tactic(auto)]

use std::alloc::AllocError;

mod byte_block;
mod cat;
mod command;
mod entries;
mod history;
mod ids;
mod lists;
mod mode;
mod name;
mod places;
mod reply;
mod script;
mod tables;

pub use byte_block::ByteBlock;
pub use cat::{Cat, File, Open, QuotaRow, Slot};
pub use command::Cmd;
pub use entries::{DirEnt, DirEnts};
pub use history::{Entry, History, Mended, Stage};
pub use ids::{Fid, Uic};
pub use lists::{Clusters, NumberList};
pub use mode::{Mode, compatible};
pub use name::Name;
pub use reply::{Refusal, Reply};
pub use script::{FileRef, Kill, KillAt, Kills, Line, LineCmd, Lines, Plays, Script};
pub use tables::{Blocks, Channels, Files, Flags, QuotaRows};

/// Memory was refused. No clause ties it to a cause.
pub type NoMemory = AllocError;
