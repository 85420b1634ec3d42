//! The file characteristics of a header (FILECHAR).

ghost use Rattle.std.specs.Prelude.{⊤, [], ◌∷◌, codes};

use bitflags::{Flag, Flags, bitflag_items};

/// The file characteristics (FILECHAR).
#[derive(Clone, Copy, PartialEq, Eq, Debug)]
pub struct FileFlags(pub u32);

bitflag_items! {
    impl FileFlags: u32 {
        const CONTIG = 1 << 7;
        const DIRECTORY = 1 << 13;
        const MARKDEL = 1 << 15;
    }
}

impl Flags for FileFlags {
    type Bits = u32;

    ghost exact = { ⊤ };

    ghost table = { (codes "CONTIG", 128) ∷ (codes "DIRECTORY", 8192) ∷ (codes "MARKDEL", 32768) ∷ [] };

    ghost set_of = { λ p. p.0 };

    fn flags<'a>() -> &'a [Flag<FileFlags>] {
        FileFlags::FLAGS
    }

    fn bits(&self) -> u32 {
        self.0
    }

    fn from_bits_retain(bits: u32) -> FileFlags {
        FileFlags(bits)
    }
}
