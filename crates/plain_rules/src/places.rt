//! An entry with the directory that it stands in.

use plain_cat::DirEnt;

/// An entry of a directory, and the number of the directory.
#[derive(Drop)]
pub struct Place {
    pub dir: u32,
    pub entry: DirEnt,
}
