//! OPEN and CLOSE: an OPEN asks for its own mode, and a marked file goes with the last of its opens.

use crate::plans::{Row, check, check_all};
use base_words::Block;
use fx_header::set_marked;
use plain_cat::Mode;
use rows_sample::volume;
use std::test::Fail;

/// A marked file, a directory and a system file are refused without an ask. A channel with nothing open is not closed.
const ON_THE_VOLUME: &[Row<'static>] = &[
    (
        "1 OPEN 3 (14,1,0) CW",
        "S(14) PW at 22",
        "ask for 14 by 3 in CW behind 0, or refused AccConflict\nopen",
    ),
    (
        "1 OPEN 3 (16,1,0) CW",
        "S(16) PW at 24",
        "refused NoSuchFile",
    ),
    ("1 OPEN 3 (12,1,0) CW", "S(12) PW at 20", "refused NoPriv"),
    ("1 OPEN 3 (5,5,0) CW", "", "refused NoPriv"),
    ("1 CLOSE 1", "", "refused NotOpen"),
];

/// The open of a file that is not marked goes alone.
const UNMARKED: Row<'static> = ("1 CLOSE 1", "", "closed");

/// File 14 is marked: the free slot, both bitmaps, and the row of the owner.
const MARKED: Row<'static> = (
    "1 CLOSE 1",
    "",
    "S(14) 22 Freed cluster 26 number 14\n\
     V 43 Freed number 14\n\
     V 8 Freed\n\
     Q 46 Done\n\
     ask for 14 by 1 in EX behind 0, or closed\n\
     closed and deleted",
);

/// Nothing goes with EX, so a channel that has it open so needs no ask.
const MARKED_IN_EX: Row<'static> = (
    "1 CLOSE 1",
    "",
    "S(14) 22 Freed cluster 26 number 14\n\
     V 43 Freed number 14\n\
     V 8 Freed\n\
     Q 46 Done\n\
     closed and deleted",
);

// The volume, on which file 14 is marked for delete.
fn marked() -> [Block; 64] {
    let mut blocks = volume();
    set_marked(&mut blocks[22]);
    blocks
}

#[test]
fn channels_open_and_close(rt: HostRuntime) -> Result<(), Fail> {
    let alloc = rt.alloc();
    check_all(&rt, alloc, &volume(), None, ON_THE_VOLUME)?;
    check(&rt, alloc, &volume(), Some(Mode::PW), UNMARKED)?;
    check(&rt, alloc, &marked(), Some(Mode::PW), MARKED)?;
    check(&rt, alloc, &marked(), Some(Mode::EX), MARKED_IN_EX)?;
    Ok(())
}
