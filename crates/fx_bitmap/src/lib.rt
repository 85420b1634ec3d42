//! Bitmaps of a Files-11 ODS-2 volume: the 4,096 bits of a block, the lowest of each byte first.
//!
//! It has no types of its own: a block is `Block`, a bit a number below 4,096.
//!
//! ```text
//! set_bits(&mut b, 25, 231);
//! assert_eq!(rt; first_set_from(&b, 0), Some(25));
//! ```
//!
//! `set_bits` and `clear_bits` put a run of bits, and leave each other bit as it was (`bits`). `first_set_from` gives the lowest
//! set bit from there on, and none if and only if all are clear; `first_clear_from` does so with set and clear in the place of
//! each other. `count_set` and `count_set_below` count set bits. These walks pass whole bytes. Two blocks with the same bits are equal (`bits_tell_the_block`).
//! No call takes memory.
//!
//! `vol_parts`, the writes of commands (`op_steps`, `core_space`) and mending use it.
#![tactic(auto)]

ghost use Rattle.std.specs.Prelude.{◌≡◌, ◌+◌, ◌≤◌, ◌<◌, ◌==◌, ◌*◌, ◌≢◌, ℕ, true, false, if◌then◌else◌};
ghost use Rattle.base_words.specs.Fields.{IsBytes};
ghost use Rattle.fx_bitmap.specs.Bits.{byte_bit, bit_at, bits_put, ArePut, IsFirstSet, IsFirstClear, BitsTellTheBlock, count_set, count_set_below};

use base_words::Block;

/// Whether bit `i` is set, 0 to 4,095.
#[tactic(auto, using(std::proofs::lemmas::Nat::Bits::shr_and_one), unfolding(crate::specs::Bits::bit_at))]
pub fn bit(b: &Block, i: u32) -> bool
    requires { i < 4096 }
    ensures { result ≡ bit_at b.now i }
{
    (b[(i / 8) as usize] >> (i % 8)) & 1 == 1
}

/// Sets the `n` bits from bit `from` on, all of them below 4,096, and changes no other bit.
pub fn set_bits(b: &mut Block, from: u32, n: u32)
    requires { from + n ≤ 4096 }
    ensures block { b.new ≡ bits_put b.old from n true }
    ensures bits { ArePut b.old b.new from n true }
{
    put_bits(b, from, n, true);
}

/// Clears the `n` bits from bit `from` on, all of them below 4,096, and changes no other bit.
pub fn clear_bits(b: &mut Block, from: u32, n: u32)
    requires { from + n ≤ 4096 }
    ensures block { b.new ≡ bits_put b.old from n false }
    ensures bits { ArePut b.old b.new from n false }
{
    put_bits(b, from, n, false);
}

/// The first set bit at `from` or behind it, if there is one. It passes whole bytes of clear bits.
#[tactic(auto, using(crate::proofs::Walks::clear_byte))]
pub fn first_set_from(b: &Block, from: u32) -> Option<u32>
    ensures { IsFirstSet b.now from result }
{
    let mut i = from;
    while i < 4096 {
        if i % 8 == 0 && b[(i / 8) as usize] == 0 {
            i += 8;
        } else if bit(b, i) {
            return Some(i);
        } else {
            i += 1;
        }
    }
    None
}

/// The first clear bit at `from` or behind it, if there is one. It passes whole bytes of set bits.
#[tactic(auto, using(crate::proofs::Walks::set_byte))]
pub fn first_clear_from(b: &Block, from: u32) -> Option<u32>
    ensures { IsFirstClear b.now from result }
{
    let mut i = from;
    while i < 4096 {
        if i % 8 == 0 && b[(i / 8) as usize] == 255 {
            i += 8;
        } else if bit(b, i) {
            i += 1;
        } else {
            return Some(i);
        }
    }
    None
}

/// How many of the 4,096 bits are set.
#[tactic(auto, unfolding(crate::specs::Bits::count_set, crate::specs::Bits::count_set_below))]
pub fn count_set(b: &Block) -> u32
    ensures { result ≡ count_set b.now }
{
    count_bytes(b, 512)
}

/// How many of the first n bits are set, 0 to 4,096 of them. It counts whole bytes at once.
#[tactic(auto, unfolding(crate::specs::Bits::count_below, crate::specs::Bits::count_set_below))]
pub fn count_set_below(b: &Block, n: u32) -> u32
    requires { n ≤ 4096 }
    ensures count { result ≡ count_set_below b.now n }
    ensures most { result ≤ n }
{
    let whole = n / 8;
    let mut count = count_bytes(b, whole as usize);
    for i in 8 * whole..n {
        if bit(b, i) {
            count += 1;
        }
    }
    count
}

// How many bits of the first n bytes are set.
fn count_bytes(b: &Block, n: usize) -> u32
    requires { n ≤ 512 }
    ensures count { result ≡ count_set_below b.now (8 * n) }
    ensures most { result ≤ 8 * n }
{
    let mut count = 0;
    for k in 0..n {
        count += b[k].count_ones();
    }
    count
}

/// A block is told by its bits: two blocks with the same bits are equal.
pub fn bits_tell_the_block()
    ensures { BitsTellTheBlock }
{}

fn put_bits(b: &mut Block, from: u32, n: u32, value: bool)
    requires { from + n ≤ 4096 }
    ensures block { b.new ≡ bits_put b.old from n value }
    ensures bits { ArePut b.old b.new from n value }
{
    for i in from..from + n {
        put_bit(b, i, value);
    }
}

fn put_bit(b: &mut Block, i: u32, value: bool)
    requires { i < 4096 }
    ensures bits { (j : ℕ) → bit_at b.new j ≡ (if j == i then value else bit_at b.old j) }
    ensures bytes { IsBytes b.new }
{
    let place = (i / 8) as usize;
    b[place] = with_bit(b[place], i % 8, value);
}

fn with_bit(byte: u8, k: u32, value: bool) -> u8
    requires { k < 8 }
    ensures put { byte_bit result k ≡ value }
    ensures others { (i : ℕ) → i < 8 → i ≢ k → byte_bit result i ≡ byte_bit byte i }
{
    if value {
        byte | (1 << k)
    } else {
        byte & !(1 << k)
    }
}
