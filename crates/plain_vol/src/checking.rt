//! What the judge of an entry says.

use plain_cat::Cat;

/// What the judge says of an entry.
#[derive(Drop)]
pub enum Checked {
    /// The entry is a case, and this is the catalogue after it.
    Legal(Cat),

    /// The entry is no case.
    Illegal,
}
