//! What a row says.

/// An active row of the quota file.
#[derive(Debug, Clone, Copy, PartialEq)]
pub struct Row {
    /// The owner's user identification code: 65,536 times the group, and the member.
    pub uic: u32,
    /// What the owner uses: the allocated blocks of all its files, and one for each file.
    pub usage: u32,
    /// The permanent quota: how much the owner may use.
    pub quota: u32,
    /// The overdraft: by how much the quota may be exceeded.
    pub over: u32,
}
