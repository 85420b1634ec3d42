//! The identifiers of files and of owners.

/// The identifier of a file: its number, and the sequence that tells the files apart which have had this number
/// (Files-11 ODS-2; the relative volume number is always 0 here).
#[derive(Clone, Copy, Debug, PartialEq)]
pub struct Fid {
    /// The file number, from 1; at most 16,777,215.
    pub num: u32,

    /// The sequence, 1 to 65,535, after which 1 comes again.
    pub seq: u16,
}

/// An owner's user identification code: group x 65,536 + member.
#[derive(Clone, Copy, Debug, PartialEq)]
pub struct Uic(pub u32);
