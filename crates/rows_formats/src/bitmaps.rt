//! Bitmaps of 512 bytes: bit 0 is the lowest of the first byte.

use base_words::Block;
use fx_bitmap::{bit, clear_bits, count_set, first_set_from, set_bits};
use std::process::Abort;

/// What a bitmap has: some bytes by their places, how many bits are set, the first set bit from some numbers on, and some bits.
struct Seen {
    bytes: &'static [(usize, u8)],
    set: u32,
    firsts: &'static [(u32, Option<u32>)],
    bits: &'static [(u32, bool)],
}

fn check_bytes(rt: &impl Abort, b: &Block, bytes: &[(usize, u8)]) {
    for (place, byte) in bytes {
        assert_eq!(rt; b.get(*place), Some(byte), "byte {place}");
    }
}

fn check_firsts(rt: &impl Abort, b: &Block, firsts: &[(u32, Option<u32>)]) {
    for (from, first) in firsts {
        assert_eq!(rt; first_set_from(b, *from), *first, "from {from}");
    }
}

fn check_bits(rt: &impl Abort, b: &Block, bits: &[(u32, bool)]) {
    for (place, is_set) in bits {
        assert_eq!(rt; bit(b, (*place).min(4095)), *is_set, "bit {place}");
    }
}

fn check(rt: &impl Abort, b: &Block, seen: &Seen) {
    check_bytes(rt, b, seen.bytes);
    assert_eq!(rt; count_set(b), seen.set);
    check_firsts(rt, b, seen.firsts);
    check_bits(rt, b, seen.bits);
}

/// 256 clusters, of which all from number 25 on are free.
const FRESH: Seen = Seen {
    bytes: &[
        (0, 0),
        (2, 0),
        (3, 0xfe),
        (4, 0xff),
        (31, 0xff),
        (32, 0),
        (511, 0),
    ],
    set: 231,
    firsts: &[(0, Some(25)), (100, Some(100)), (256, None)],
    bits: &[(24, false), (25, true), (255, true)],
};

/// The same, of which three are taken from number 26 on.
const TAKEN: Seen = Seen {
    bytes: &[(3, 0xe2)],
    set: 228,
    firsts: &[(26, Some(29))],
    bits: &[(25, true), (26, false), (28, false), (29, true)],
};

#[test]
fn storage_bitmap_has_known_bytes(rt: HostRuntime) {
    let mut b = [0; 512];
    set_bits(&mut b, 25, 231);
    check(&rt, &b, &FRESH);
    clear_bits(&mut b, 26, 3);
    check(&rt, &b, &TAKEN);
}

const LAST: Seen = Seen {
    bytes: &[(511, 0x80)],
    set: 1,
    firsts: &[(0, Some(4095))],
    bits: &[(4094, false), (4095, true)],
};

const ALL: Seen = Seen {
    bytes: &[(0, 0xff), (511, 0xff)],
    set: 4096,
    firsts: &[(0, Some(0))],
    bits: &[],
};

const ALL_BUT_THE_LAST: Seen = Seen {
    bytes: &[(511, 0x7f)],
    set: 4095,
    firsts: &[(4095, None)],
    bits: &[(4095, false)],
};

#[test]
fn last_bit_is_the_highest_of_the_last_byte(rt: HostRuntime) {
    let mut b = [0; 512];
    set_bits(&mut b, 4095, 1);
    check(&rt, &b, &LAST);
    set_bits(&mut b, 0, 4096);
    check(&rt, &b, &ALL);
    clear_bits(&mut b, 4095, 1);
    check(&rt, &b, &ALL_BUT_THE_LAST);
}
