//! The rule of recovery.

/// Which value block a name has once a new master has all claims of it.
#[derive(Clone, Copy, Debug, PartialEq)]
pub enum BlockRule {
    /// What a claimed lock above CR has read or written last, with its mark. Where no such lock is claimed, of what the other
    /// claimed locks have read or written that of the greatest version, not valid.
    OfHolders,
    /// Of what the living nodes read or wrote last, with a lock or without, that of the greatest version, not valid.
    OfAll,
}
