//! What comes out of a stock.

use plain_cat::{Clusters, NumberList};

/// What a stock gives for a file.
#[derive(Drop)]
pub struct Taken {
    /// The clusters.
    pub clusters: Clusters,
    /// The file number, where one was wanted.
    pub number: Option<u32>,
}

/// All that a stock holds.
#[derive(Drop)]
pub struct Taken2 {
    /// The clusters.
    pub clusters: Clusters,
    /// The file numbers.
    pub numbers: NumberList,
}
