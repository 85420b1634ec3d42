//! Short texts that are written from their last byte to their first.
ghost use Rattle.std.specs.Prelude.{◌≡◌, ◌<◌, ◌≤◌, ◌+◌, ◌++◌, [], ◌∷◌, decimal, length};

use itoa::write_digits;
use std::marker::Model;

/// A text of at most 40 bytes that grows at its front: the last bytes of an array.
#[derive(Drop)]
pub(crate) struct Tail {
    bytes: [u8; 40],
    start: usize,
}

impl Model for Tail {
    ghost use Rattle.std.specs.Prelude.{◌≤◌, List, ℕ, drop};

    ghost Value = { List ℕ };

    ghost view = { λ t. drop t.start t.bytes };

    ghost invariant = { λ t. t.start ≤ 40 };
}

impl Tail {
    /// The empty text.
    pub(crate) fn new() -> Tail
        ensures { result ≡ [] }
    {
        Tail {
            bytes: [0; 40],
            start: 40,
        }
    }

    /// Puts a byte in front.
    pub(crate) fn byte(&mut self, byte: u8)
        requires { length self.old < 40 }
        ensures { self.new ≡ byte ∷ self.old }
    {
        self.start -= 1;
        self.bytes[self.start] = byte;
    }

    /// Puts the decimal digits of a number in front.
    pub(crate) fn number(&mut self, n: u32)
        requires { length self.old ≤ 30 }
        ensures text { self.new ≡ decimal n ++ self.old }
        ensures short { length self.new ≤ length self.old + 10 }
    {
        self.start = write_digits(u64::from(n), &mut self.bytes, self.start);
    }

    /// The bytes, in order.
    pub(crate) fn text(&self) -> &[u8]
        ensures { result.now ≡ self.now }
    {
        &self.bytes[self.start..]
    }
}
