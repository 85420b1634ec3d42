//! READ and WRITE on a channel that has file 14 open: two blocks, LBN 52 and 53, with its header at LBN 22.

use crate::plans::{Row, check, check_all, check_blocks};
use base_words::{Block, put_bytes, put_long, put_word, set_sum};
use plain_cat::Mode;
use rows_sample::volume;
use std::test::Fail;

/// The file has the mark 2. A block at the mark is zeros, and only one below it is looked at; blocks outside the file are refused, and so
/// is a WRITE by who has the file open to read.
const BY_A_READER: &[Row<'static>] = &[
    (
        "1 READ 1 2",
        "S(14) PR at 22",
        "00000000000000000000000000000000 sum 0",
    ),
    (
        "1 READ 1 1",
        "S(14) PR at 22 52",
        "01010101010101010101010101010101 sum 512",
    ),
    ("1 READ 1 0", "", "refused EndOfFile"),
    ("1 READ 1 3", "", "refused EndOfFile"),
    ("1 READ 1 65536", "", "refused EndOfFile"),
    ("1 WRITE 1 1 AB", "", "refused NoPriv"),
];

const BY_A_WRITER: &[Row<'static>] = &[
    ("1 WRITE 1 0 AB", "", "refused EndOfFile"),
    ("1 WRITE 1 3 AB", "", "refused EndOfFile"),
    ("1 WRITE 1 65536 AB", "", "refused EndOfFile"),
];

// The volume, on which both blocks of the file are full.
fn full() -> [Block; 64] {
    let mut there = volume();
    there[52] = [1; 512];
    there[53] = [2; 512];
    there
}

#[test]
fn blocks_outside_are_refused(rt: HostRuntime) -> Result<(), Fail> {
    let alloc = rt.alloc();
    check_all(&rt, alloc, &full(), Some(Mode::PR), BY_A_READER)?;
    check_all(&rt, alloc, &volume(), Some(Mode::EX), BY_A_WRITER)?;
    Ok(())
}

// The volume, on which the file has this mark, and its end is at this block and byte.
fn sized(mark: u32, end: u16, byte: u16) -> [Block; 64] {
    let mut there = full();
    put_long(&mut there[22], 76, mark);
    put_word(&mut there[22], 30, end);
    put_word(&mut there[22], 32, byte);
    set_sum(&mut there[22]);
    there
}

// The text AB in a block.
fn text() -> Block {
    let mut b = [0; 512];
    put_bytes(&mut b, 0, b"AB");
    b
}

/// Below the mark, where the end stays: the block alone.
const INSIDE: Row<'static> = ("1 WRITE 1 1 AB", "", "S(14) 52 Done\nwritten");

/// Below the mark, where the end comes behind the block: the header follows.
const LAST: Row<'static> = (
    "1 WRITE 1 1 AB",
    "",
    "S(14) 52 DataOnly\nS(14) 22 Done\nwritten",
);

/// The same of a file without a mark.
const UNMARKED: Row<'static> = (
    "1 WRITE 1 2 AB",
    "",
    "S(14) 53 DataOnly\nS(14) 22 Done\nwritten",
);

/// At the mark: the block and the header.
const AT: Row<'static> = (
    "1 WRITE 1 2 AB",
    "",
    "S(14) 53 Nothing\nS(14) 22 Done\nwritten",
);

/// Past the mark: zeros come first.
const PAST: Row<'static> = (
    "1 WRITE 1 2 AB",
    "",
    "S(14) 52 Nothing\nS(14) 53 Nothing\nS(14) 22 Done\nwritten",
);

#[test]
fn blocks_are_written(rt: HostRuntime) -> Result<(), Fail> {
    let alloc = rt.alloc();
    let inside = check(&rt, alloc, &sized(2, 3, 0), Some(Mode::CW), INSIDE)?;
    check_blocks(&rt, &inside, &[text()]);
    let last = check(&rt, alloc, &sized(2, 1, 7), Some(Mode::PW), LAST)?;
    check_blocks(&rt, &last, &[text(), sized(2, 2, 0)[22]]);
    let unmarked = check(&rt, alloc, &sized(0, 1, 7), Some(Mode::EX), UNMARKED)?;
    check_blocks(&rt, &unmarked, &[text(), sized(0, 3, 0)[22]]);
    let at = check(&rt, alloc, &sized(2, 1, 7), Some(Mode::PW), AT)?;
    check_blocks(&rt, &at, &[text(), sized(3, 3, 0)[22]]);
    let past = check(&rt, alloc, &sized(1, 3, 0), Some(Mode::PW), PAST)?;
    check_blocks(&rt, &past, &[[0; 512], text(), sized(3, 3, 0)[22]]);
    Ok(())
}
