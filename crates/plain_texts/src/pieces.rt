//! Pieces of text: bytes and numbers, appended.

ghost use Rattle.std.specs.Prelude.{◌≡◌, ◌++◌, OnOk, OnErr, decimal};
ghost use Rattle.plain_texts.specs.Names.{octal};

use itoa::Buffer;
use std::alloc::{AllocError, Global};

/// Memory was refused.
pub type NoMemory = AllocError;

/// Appends bytes as they are. An error says that memory ran out, and leaves the list as it was.
pub fn push_bytes(out: &mut Vec<u8>, piece: &[u8]) -> Result<(), NoMemory>
    ensures ok { OnOk result (out.new.items ≡ out.old.items ++ piece.now) }
    ensures err { OnErr result (out.new.items ≡ out.old.items) }
{
    out.extend_from_slice(piece)
}

/// Appends a number in decimal digits.
pub fn push_number(_alloc: Global, out: &mut Vec<u8>, n: u32) -> Result<(), NoMemory>
    ensures ok { OnOk result (out.new.items ≡ out.old.items ++ decimal n) }
    ensures err { OnErr result (out.new.items ≡ out.old.items) }
{
    push_bytes(out, Buffer::new().format(n).as_bytes())
}

/// Appends a count in decimal digits.
pub fn push_count(_alloc: Global, out: &mut Vec<u8>, n: usize) -> Result<(), NoMemory>
    ensures ok { OnOk result (out.new.items ≡ out.old.items ++ decimal n) }
    ensures err { OnErr result (out.new.items ≡ out.old.items) }
{
    push_bytes(out, Buffer::new().format(n).as_bytes())
}

/// Appends a number in octal digits.
pub fn push_octal(alloc: Global, out: &mut Vec<u8>, n: u32) -> Result<(), NoMemory>
    ensures ok { OnOk result (out.new.items ≡ out.old.items ++ octal n) }
    ensures err { OnErr result (out.new.items ≡ out.old.items) }
{
    let text = format!(in alloc; "{n:o}")?;
    push_bytes(out, text.as_bytes())
}
