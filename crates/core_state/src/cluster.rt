//! The world of a cluster: what its invariant says of a mounted volume and of the nodes on it.

use crate::node::Node;
use blk_drive::{ImageDev, Mirror};
use lock_db::LockDb;
use op_law::Operation;
use plain_cat::{Cat, History, Script};
use vol_parts::Geometry;

/// What a world is made of. The events of turns are functions on it; that each keeps the rules is shown where a world makes it.
#[derive(Drop)]
pub struct Core<I: ImageDev, O: Operation> {
    /// The script that the nodes run.
    pub script: Script,

    /// The catalogue that the volume told as it was mounted.
    pub opening: Cat,

    /// Where the parts of the volume lie.
    pub geometry: Geometry,

    /// The drive.
    pub mirror: Mirror<I>,

    /// The lock table.
    pub locks: LockDb,

    /// The nodes, in order from node 1.
    pub nodes: Vec<Node<O>>,

    /// The answers so far, in order. It has room for the answer of each node that has decided on a plan, and for the death
    /// of each that lives.
    pub history: History,
}
