//! The files of a program: its words, its image under a lock, and a report that comes after the image.
//!
//! `image_at` opens the image in a file, and locks that file: for the program alone if the image may be written, and shared if it
//! is only read. `SafeOut` is a sink that asks the system to sync the image's file before the first byte that it passes on.
//!
//! ```text
//! let Held { image, due } = image_at(rt, path, Access::Change)?;
//! let mut out = SafeOut::new(StdOut::new(io::writer(rt)), due);
//! ```
//!
//! An image that cannot be opened, is no regular file, or is locked by another is handed in without a file: each call of it fails.
//! `SafeOut` passes no byte on while a sync is due, and none after a sync that failed; a failed sync is a failed write, and counted.
//! That the lock keeps others out, and that a sync reaches the disk, no contract says: std's say nothing of it.
//!
//! `clus_top`, `vmsclus_live` and `vmscheck` call it.
#![tactic(auto)]

mod images;
mod locks;
mod safe;
mod words;

pub use images::{Access, Held, image_at};
pub use locks::LockFile;
pub use safe::SafeOut;
pub use words::line_of;
