//! What a header slot says: its fields, or why it is no sound header.

use thiserror::Error;

/// What a header slot says.
#[derive(Debug, Clone, Copy, PartialEq)]
pub enum Slot {
    /// No header is in use here. The sequence number is that of the last use, 0 where there was none.
    Free(u16),
    /// A header is in use here: a file's first one, or another one.
    Used(Hdr),
}

/// The fields of a file header that a file system works with.
#[derive(Debug, Clone, Copy, PartialEq)]
pub struct Hdr {
    /// The file number, 1 to 16,777,215.
    pub num: u32,
    /// The sequence number: which use of the file number this is.
    pub seq: u16,
    /// The owner's UIC: the group times 65,536, plus the member.
    pub owner: u32,
    /// The file is a directory.
    pub dir: bool,
    /// The file is marked for delete.
    pub marked: bool,
    /// The blocks that are allocated to the file (HIBLK). The first header says this, and where the end and the mark are, for
    /// the whole file: in another header these fields say nothing.
    pub blocks: u32,
    /// The virtual block from which on blocks count as not written (HIGHWATER), or 0 if no mark is kept.
    pub mark: u32,
    /// The virtual block that the end of file lies in (EFBLK): in a first header at most one more than `blocks`.
    pub end: u32,
    /// The first free byte of that block: in a first header at most 511.
    pub byte: u16,
    /// Which header of the file this is (SEG_NUM), 0 for the first one and at most 15.
    pub seg: u16,
    /// The file number of the next header of the file (EXT_FID), 0 where there is none.
    pub ext: u32,
    /// The sequence number that goes with it.
    pub ext_seq: u16,
}

/// Why a slot in use is no sound header: the first of these tests that fails.
#[derive(Debug, Clone, Copy, PartialEq, Error)]
pub enum HeaderFault {
    /// The last word is not the sum of the other 255.
    #[error("the checksum is wrong")]
    BadSum,
    /// The structure level is not 2.
    #[error("the structure level is not 2")]
    BadLevel,
    /// The areas do not follow one another in the block, or the map area has fewer than 154 words.
    #[error("the area offsets are wrong")]
    BadOffsets,
    /// The relative volume number is not 0.
    #[error("the relative volume number is not 0")]
    BadRvn,
    /// The header is said to be one behind the 16 that a file may have: SEG_NUM is above 15.
    #[error("the place in the chain of headers is above 15")]
    BadExtension,
    /// More words are in use than the map area has, or the last pointer does not end at the last of them.
    #[error("the retrieval pointers do not fit their words")]
    BadMap,
    /// In a first header the end or the mark lies more than one block behind the blocks, or the first free byte is above 511.
    #[error("the end of file does not fit the blocks")]
    BadEnd,
}
