//! What a search for free space comes to.

use op_law::Writes;
use plain_cat::Refusal;

/// What a search for space comes to.
#[derive(Drop)]
pub enum Search {
    /// The block of this LBN is to be looked at next.
    Look(u32),

    /// There is too little.
    Short(Refusal),

    /// There is enough, and these writes take it.
    Take(Writes),
}
