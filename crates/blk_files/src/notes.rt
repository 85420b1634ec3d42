//! Bytes that clauses alone read. They take no memory, and a call of them does nothing.
ghost use Rattle.std.specs.Prelude.{◌≡◌, ℕ, List, []};
ghost use Rattle.std.specs.Borrow.{ftrue};
ghost use Rattle.base_words.specs.Fields.{put};

use std::marker::{Model, PhantomData};

/// Bytes that were noted. A clause reads them as `bytes`.
#[derive(Drop)]
pub struct Notes {
    marker: PhantomData<u8>,
    pub ghost bytes: { List ℕ },
}

impl Model for Notes {
    ghost also_owns = { λ _. ftrue };
}

// They own nothing.
unsafe impl Send for Notes {}

impl Notes {
    /// No bytes.
    pub fn new() -> Notes
        ensures { result.bytes ≡ [] }
    {
        Notes {
            marker: PhantomData,
        }
    }

    /// Notes bytes at an offset, in the place of those that were noted there.
    pub fn note(&mut self, _at: u64, _bytes: &[u8])
        ensures { self.new.bytes ≡ put self.old.bytes _at _bytes.now }
    {}
}
