//! The reply to a command, with the catalogue after it.

use plain_cat::{Cat, Reply};

/// What a command is answered, and the catalogue after it.
#[derive(Drop)]
pub struct Outcome {
    pub reply: Reply,
    pub after: Cat,
}
