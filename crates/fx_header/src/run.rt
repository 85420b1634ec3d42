//! A run of neighbouring blocks.

/// A run of neighbouring blocks: the first one's logical block number, and how many there are, at least one.
#[derive(Debug, Clone, Copy, PartialEq, Eq)]
pub struct Run {
    pub lbn: u32,
    pub count: u32,
}
