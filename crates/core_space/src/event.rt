//! The events of a node's rules for free space.

use crate::run::Phase;
use base_words::Block;
use lock_db::LockName;
use op_law::Writes;
use plain_cat::{Mode, Refusal};

/// The next event of a node's rules for space.
#[derive(Clone, Copy)]
pub enum SpaceEvent {
    /// There is none: the stock holds what is needed, or the search of all free space has taken it.
    Enough,

    /// This lock is asked for in this mode.
    Ask(LockName, Mode),

    /// V and X are lowered to NL: the stock is given back, and X is to be had in EX.
    LowerX,

    /// The bitmap block of this LBN is looked at.
    Look(u32),

    /// This block is written to this LBN.
    Put { lbn: u32, block: Block },

    /// V is lowered to NL: the stock is filled.
    LowerV,

    /// V is lowered to NL and X released: the stock is given back for good.
    Return,

    /// There is too little in all the volume.
    Short(Refusal),
}

/// What the blocks looked at come to.
#[derive(Drop)]
pub struct Decision {
    /// The phase in which the rule goes on.
    pub phase: Phase,

    /// The writes that are decided on: none where another block is to be looked at, or nothing is to be written.
    pub writes: Writes,

    /// Why the need is refused, where it is.
    pub short: Option<Refusal>,
}
