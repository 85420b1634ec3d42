//! A gate that threads pass before each step. Tests close it to choose an order.

/// Called by a node's thread before each of its steps.
pub trait Gate: Drop {
    /// Nodes and steps count from 1; the count of steps stays at the last value of 64 bits.
    fn pass(&self, node: u8, step: u64);
}

/// A gate through which everyone passes at once.
#[derive(Drop)]
pub struct OpenGate;

impl Gate for OpenGate {
    fn pass(&self, _node: u8, _step: u64) {}
}
