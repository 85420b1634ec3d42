//! Texts in bytes, as the names of entries.

ghost use Rattle.std.specs.Prelude.{◌≡◌, ◌↔◌, ◌++◌, [], ◌∷◌, OnOk, OnErr, IfOk, IsTrue};
ghost use Rattle.std.specs.Str.{bytes_eq};

use crate::NoMemory;
use smallvec::SmallVec;
use std::alloc::Global;
use std::marker::Model;

/// A text in bytes. As the name of a directory entry it is `NAME.TYP`, with 0 to 39 characters on each side out of A
/// to Z, 0 to 9, `$`, `_` and `-`. Up to 22 bytes take no memory of their own.
pub struct Name {
    bytes: SmallVec<u8, 22>,
}

impl Model for Name {
    ghost use Rattle.std.specs.Prelude.{List, ℕ};

    ghost Value = { List ℕ };

    ghost view = { λ n. n.bytes.items };
}

impl Drop for Name {
    fn drop(self) {
        let Name { bytes: _ } = self;
    }
}

impl Name {
    /// The empty text.
    pub fn new(alloc: Global) -> Self
        ensures { result ≡ [] }
    {
        Name {
            bytes: SmallVec::new(alloc),
        }
    }

    /// The text of these bytes.
    pub fn of(alloc: Global, bytes: &[u8]) -> Result<Self, NoMemory>
        ensures { IfOk result (λ n. n ≡ bytes.now) }
    {
        Ok(Name {
            bytes: SmallVec::from_slice(alloc, bytes)?,
        })
    }

    /// Adds a byte at the end. A refusal of memory leaves the text as it was.
    pub fn push(&mut self, item: u8) -> Result<(), NoMemory>
        ensures ok { OnOk result (self.new ≡ self.old ++ item ∷ []) }
        ensures err { OnErr result (self.new ≡ self.old) }
    {
        self.bytes.push(item)?;
        Ok(())
    }

    /// The bytes, in order.
    pub fn items(&self) -> &[u8]
        ensures { result.now ≡ self.now }
    {
        self.bytes.as_slice()
    }

    /// The same text again.
    pub fn copy(&self, alloc: Global) -> Result<Self, NoMemory>
        ensures { IfOk result (λ n. n ≡ self.now) }
    {
        Name::of(alloc, self.bytes.as_slice())
    }

    /// Whether the two texts have the same bytes.
    pub fn is_same(&self, other: &Name) -> bool
        ensures same { IsTrue result ↔ (self.now ≡ other.now) }
        ensures value { result ≡ bytes_eq self.now other.now }
    {
        self.bytes.as_slice() == other.bytes.as_slice()
    }
}
