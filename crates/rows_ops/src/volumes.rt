//! Changes of the small volume.

use base_words::{Block, put_bytes, put_word};
use rows_sample::{block, volume};

// Versions of A.TXT from this one down, as many as a block has room for.
fn versions_block(highest: u16) -> Block {
    let mut b = block(b"\xf2\x01\xff\x7f\x00\x05A.TXT\x00");
    for i in 0..61u16 {
        let at = 12 + 8 * i as usize;
        put_word(&mut b, at, highest.wrapping_sub(i));
        put_word(&mut b, at + 2, 13);
        put_word(&mut b, at + 4, 1);
    }
    put_bytes(&mut b, 500, &[0xff, 0xff]);
    b
}

/// The volume, on which B.DAT has the highest version.
pub fn last_version() -> [Block; 64] {
    let mut last = volume();
    put_word(&mut last[51], 12, 32767);
    last
}

/// The volume, on which the directory has no room.
pub fn full_directory() -> [Block; 64] {
    let mut full = volume();
    full[50] = versions_block(122);
    full[51] = versions_block(61);
    full
}
