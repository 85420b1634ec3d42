//! How many clusters a file may have.

/// The most clusters of one header.
pub const HEADER_MOST: u32 = 77;

/// The most clusters of a file above number 11.
pub const FILE_MOST: u64 = 1232;
