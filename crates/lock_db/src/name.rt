//! The names of resources, and the owners of locks.

ghost use Rattle.std.specs.Prelude.{◌≡◌};
ghost use Rattle.lock_db.specs.Names.{order_of};

use std::cmp::Ordering;

/// The name of a resource that is locked.
#[derive(Clone, Copy, Debug, PartialEq, Eq, PartialOrd, Ord)]
pub enum LockName {
    /// The serialization lock of the file with this number.
    S(u32),
    /// The arbitration lock of the file with this number: who has it open.
    A(u32),
    /// The quota file.
    Q,
    /// The nodes' stocks of clusters and file numbers.
    X,
    /// Both bitmaps of the volume.
    V,
}

/// Who asks: a part of a node.
#[derive(Clone, Copy, Debug, PartialEq, Eq)]
pub struct Owner {
    /// The number of the node.
    pub node: u8,
    /// 0 is the node's file system, and 1 to 8 are its channels.
    pub part: u8,
}

impl LockName {
    /// The order in which names stand in the table.
    pub(crate) fn order(self, other: LockName) -> Ordering
        ensures { result ≡ order_of self other }
    {
        self.cmp(&other)
    }
}
