//! Who has a cluster or a file number at a moment.

/// Who has a cluster or a file number at a moment.
#[derive(Clone, Copy, Debug, PartialEq)]
pub enum Owner {
    /// Nobody: it is free by its bit, and whoever needs one may take it.
    Free,

    /// The file of this number, from 1: of a cluster, the file whose header lists it; of a file number, the file whose
    /// header stands under it.
    InFile(u32),

    /// This node, from 1, in its memory alone: its bit says that it is taken, and no file has it.
    Outside(u8),

    /// Nobody, though its bit says that it is taken: the node that held it is dead.
    Leaked,
}
