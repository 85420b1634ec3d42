//! Who keeps the tables, and which claims are on their way.

/// A home: the names that one node was the first master of.
#[derive(Clone, Copy, Debug, PartialEq)]
pub struct Home {
    /// The node that keeps the table of these names, 1 to n; 0 where no node lives.
    pub master: u8,
    /// The dead node that was their master before, while they are being recovered.
    pub recovers: Option<u8>,
}

/// A claim that is on its way.
#[derive(Clone, Copy, Debug, PartialEq)]
pub struct Awaited {
    /// The dead node whose names are being recovered.
    pub dead: u8,
    /// The node that claims, 1 to n.
    pub node: u8,
}
