//! Samples for tests: a small volume block by block, the catalogue of a fresh volume, and examples of deaths on it, as laws.
//!
//! `volume` gives the blocks of a volume of 64 blocks in clusters of two, with the system files, a directory and four files; `name` a name
//! of bytes, and `FIRST` and `SECOND` are the two blocks of its directory. `fresh_catalogue` is exactly the definition `fresh`: a volume of
//! 1,024 blocks with eleven system files, two quota rows, all else free, nothing open.
//!
//! ```text
//! let mut blocks = volume();
//! let entry = name(alloc, b"A.TXT")?;
//! let cat = fresh_catalogue(alloc)?;
//! ```
//!
//! The laws are examples of deaths on that catalogue. Each is the contract of a function that does nothing. No contract says what is on the
//! small volume, and no program uses this crate: the tests of `rows_plain`, `rows_volumes`, `rows_ops` and `rows_reports` do.
#![tactic(auto)]

mod death_laws;
mod fresh;

use base_words::{Block, put_bytes, put_long, put_word, set_sum};
pub use death_laws::{
    a_create_stops, a_death_closes_and_leaks, a_rename_stops, nodes_die_where_killed,
    nodes_give_their_own_commands,
};
pub use fresh::fresh_catalogue;
use fx_home::{Home, Scb, home_block, scb_block};
use plain_cat::{Name, NoMemory};
use std::alloc::Global;

/// 64 blocks in clusters of two, with 32 files: the header of number n is LBN 8 + n.
const SMALL: Home = Home {
    cluster: 2,
    files: 32,
    label: *b"SMALL       ",
};

const DIRECTORY: u8 = 0x20;

const MARKED: u8 = 0x80;

/// The entries of the system files.
const MAIN: &[u8] = b"\x16\x00\xff\x7f\x00\x0a000000.DIR\x01\x00\x04\x00\x04\x00\x00\x00\
    \x16\x00\xff\x7f\x00\x0aBACKUP.SYS\x01\x00\x08\x00\x08\x00\x00\x00\
    \x16\x00\xff\x7f\x00\x0aBADBLK.SYS\x01\x00\x03\x00\x03\x00\x00\x00\
    \x16\x00\xff\x7f\x00\x0aBADLOG.SYS\x01\x00\x09\x00\x09\x00\x00\x00\
    \x16\x00\xff\x7f\x00\x0aBITMAP.SYS\x01\x00\x02\x00\x02\x00\x00\x00\
    \x16\x00\xff\x7f\x00\x0aCONTIN.SYS\x01\x00\x07\x00\x07\x00\x00\x00\
    \x16\x00\xff\x7f\x00\x0aCORIMG.SYS\x01\x00\x05\x00\x05\x00\x00\x00\
    \x16\x00\xff\x7f\x00\x0aINDEXF.SYS\x01\x00\x01\x00\x01\x00\x00\x00\
    \x16\x00\xff\x7f\x00\x09QUOTA.SYS\x00\x01\x00\x0a\x00\x01\x00\x00\x00\
    \x18\x00\xff\x7f\x00\x0bSYSLOST.DIR\x00\x01\x00\x0b\x00\x01\x00\x00\x00\
    \x16\x00\xff\x7f\x00\x0aVOLSET.SYS\x01\x00\x06\x00\x06\x00\x00\x00\xff\xff";

/// Behind them that of the directory of number 12.
const MORE: &[u8] = b"\x12\x00\xff\x7f\x00\x05Z.DIR\x00\x01\x00\x0c\x00\x01\x00\x00\x00\xff\xff";

/// The first block of the directory of number 12, as far as it is not zero: A.TXT;2 (13,1) and A.TXT;1 (14,1).
pub const FIRST: &[u8] =
    b"\x1a\x00\xff\x7f\x00\x05A.TXT\x00\x02\x00\x0d\x00\x01\x00\x00\x00\x01\x00\x0e\x00\x01\x00\x00\x00\xff\xff";

/// Its second block: B.DAT;1 (15,2).
pub const SECOND: &[u8] =
    b"\x12\x00\xff\x7f\x00\x05B.DAT\x00\x01\x00\x0f\x00\x02\x00\x00\x00\xff\xff";

/// A block that begins with these bytes and is zero behind them.
pub fn block(bytes: &[u8]) -> Block {
    let mut b = [0; 512];
    for (place, byte) in b.iter_mut().zip(bytes) {
        *place = *byte;
    }
    b
}

/// The header of a file of owner [0,0] with one run, or none where the count of blocks is 0.
fn header(num: u16, seq: u16, flags: u8, lbn: u16, count: u16) -> Block {
    let mut b = [0; 512];
    put_bytes(&mut b, 0, &[40, 100, 255, 255]);
    put_word(&mut b, 6, 513);
    put_word(&mut b, 8, num);
    put_word(&mut b, 10, seq);
    put_word(&mut b, 26, count);
    put_word(&mut b, 30, count.wrapping_add(1));
    b[53] = flags;
    if count != 0 {
        b[58] = 2;
        put_word(&mut b, 200, count.wrapping_add(0x3fff));
        put_word(&mut b, 202, lbn);
    }
    set_sum(&mut b);
    b
}

/// The headers of the system files.
fn put_system_headers(b: &mut [Block; 64]) {
    b[9] = header(1, 1, 0, 0, 42);
    b[10] = header(2, 2, 0, 42, 2);
    b[11] = header(3, 3, 0, 0, 0);
    b[12] = header(4, 4, DIRECTORY, 44, 2);
    b[13] = header(5, 5, 0, 0, 0);
    b[14] = header(6, 6, 0, 0, 0);
    b[15] = header(7, 7, 0, 0, 0);
    b[16] = header(8, 8, 0, 0, 0);
    b[17] = header(9, 9, 0, 0, 0);
    b[18] = header(10, 1, 0, 46, 2);
    b[19] = header(11, 1, DIRECTORY, 48, 2);
}

/// The headers of the directory of number 12 and of the files 13 to 16, of which the last is marked. File 14 is of [1,4], and
/// has two blocks, of which one was written and the end of file lies in it.
fn put_headers(b: &mut [Block; 64]) {
    b[20] = header(12, 1, DIRECTORY, 50, 2);
    b[21] = header(13, 1, 0, 0, 0);
    let mut other = header(14, 1, 0, 52, 2);
    put_long(&mut other, 60, 65540);
    put_word(&mut other, 30, 1);
    put_word(&mut other, 32, 7);
    put_long(&mut other, 76, 2);
    set_sum(&mut other);
    b[22] = other;
    b[23] = header(15, 2, 0, 0, 0);
    b[24] = header(16, 1, MARKED, 0, 0);
}

/// A volume with the system files, a directory and four files, and quota for [0,0] and [1,4]. It has 64 blocks in clusters of two,
/// and 32 files, so that the header of number n is LBN 8 + n.
pub fn volume() -> [Block; 64] {
    let mut b = [[0; 512]; 64];
    b[1] = home_block(&SMALL);
    put_bytes(&mut b[8], 0, &[0xff, 0xff]);
    put_system_headers(&mut b);
    put_headers(&mut b);
    b[42] = scb_block(&Scb {
        cluster: 2,
        blocks: 64,
    });
    b[43][3] = 0xf8;
    b[44] = block(MAIN);
    b[45] = block(MORE);
    put_bytes(&mut b[46], 0, &[1, 0, 0, 0, 0, 0, 0, 0, 67, 0, 0, 0, 200]);
    put_bytes(&mut b[46], 32, &[1, 0, 0, 0, 4, 0, 1, 0, 3, 0, 0, 0, 200]);
    b[48] = block(b"\xff\xff");
    b[49] = block(b"\xff\xff");
    b[50] = block(FIRST);
    b[51] = block(SECOND);
    b
}

/// The name of these bytes. An error says that memory ran out.
pub fn name(alloc: Global, text: &[u8]) -> Result<Name, NoMemory> {
    let mut name = Name::new(alloc);
    for c in text {
        name.push(*c)?;
    }
    Ok(name)
}
