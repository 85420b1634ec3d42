//! Blocks and their fields: 512 bytes, little-endian numbers at an offset, and checksums. All format crates read and write
//! through these calls.
//!
//! `Block` is the one type. `names` says which texts are a `NAME.TYP`.
//!
//! ```text
//! put_long(&mut b, 60, 0x0403_0201);
//! set_sum(&mut b);
//! ```
//!
//! A read gives exactly the bytes at its offset. A write puts exactly these bytes, and changes no other. `set_sum` makes the last
//! word the sum of the first 255. Three laws say so in general: `fields_read_back`, `fields_stay_apart`, `sums_are_right`. No
//! call takes memory.
//!
//! All crates use it.
#![tactic(auto)]

ghost use Rattle.std.specs.Prelude.{◌≡◌, ◌+◌, ◌≤◌, ◌<◌, ◌*◌, length};
ghost use Rattle.base_words.specs.Fields.{field, put, put_field, checksum, summed};
ghost use Rattle.base_words.specs.Tables.{zeros};

mod laws;
pub mod list_laws;
pub mod names;

use byteorder::{ByteOrder, LittleEndian};
pub use laws::{fields_read_back, fields_stay_apart, sums_are_right};

/// A block of a volume: 512 bytes.
pub type Block = [u8; 512];

/// A block of zeros.
#[tactic(auto, unfolding(crate::specs::Tables::zeros))]
pub fn zeros() -> Block
    ensures { result ≡ zeros }
{
    [0; 512]
}

/// The word of two bytes at the offset `o`, the lowest byte first.
pub fn word_at(b: &Block, o: usize) -> u16
    requires { o + 2 ≤ 512 }
    ensures { result ≡ field b.now o 2 }
{
    LittleEndian::read_u16(&b[o..])
}

/// The number of four bytes at the offset `o`, the lowest byte first.
pub fn long_at(b: &Block, o: usize) -> u32
    requires { o + 4 ≤ 512 }
    ensures { result ≡ field b.now o 4 }
{
    LittleEndian::read_u32(&b[o..])
}

/// Writes bytes at the offset `o`, and changes no other byte.
pub fn put_bytes(b: &mut Block, o: usize, bytes: &[u8])
    requires { o + length bytes.now ≤ 512 }
    ensures { b.new ≡ put b.old o bytes.now }
{
    b[o..o + bytes.len()].copy_from_slice(bytes);
}

/// Writes a word of two bytes at the offset `o`, the lowest byte first, and changes no other byte.
pub fn put_word(b: &mut Block, o: usize, n: u16)
    requires { o + 2 ≤ 512 }
    ensures { b.new ≡ put_field b.old o 2 n }
{
    put_bytes(b, o, &n.to_le_bytes());
}

/// Writes a number of four bytes at the offset `o`, the lowest byte first, and changes no other byte.
pub fn put_long(b: &mut Block, o: usize, n: u32)
    requires { o + 4 ≤ 512 }
    ensures { b.new ≡ put_field b.old o 4 n }
{
    put_bytes(b, o, &n.to_le_bytes());
}

/// The sum of the first `words` words, modulo 65,536.
#[tactic(auto, unfolding(crate::specs::Fields::checksum, crate::specs::Fields::word_sum))]
pub fn sum_of(b: &Block, words: usize) -> u16
    requires { words ≤ 256 }
    ensures { result ≡ checksum b.now words }
{
    let mut sum = 0u16;
    for k in 0..words {
        sum = sum.wrapping_add(word_at(b, 2 * k));
    }
    sum
}

/// Writes the sum of the first 255 words into the last word.
#[tactic(auto, unfolding(crate::specs::Fields::summed))]
pub fn set_sum(b: &mut Block)
    ensures { b.new ≡ summed b.old }
{
    let sum = sum_of(b, 255);
    put_word(b, 510, sum);
}
