//! Files of two headers, and what can be wrong with their chain.

use crate::analyses::{block, change, header, sound};
use crate::findings::written;
use base_words::{Block, put_bytes, put_long, set_sum};
use plain_cat::NoMemory;
use std::alloc::Global;
use std::test::Fail;
use vol_analyze::analyze;

/// The entries of file 12 and of directory 14.
const ENTRIES: &[u8] = b"\x12\x00\xff\x7f\x00\x05X.TXT\x00\x01\x00\x0c\x00\x01\x00\x00\x00\
    \x12\x00\xff\x7f\x00\x05Y.DIR\x00\x01\x00\x0e\x00\x01\x00\x00\x00\xff\xff";

const DIRECTORY: u8 = 0x20;

/// The sound volume with file 12 of two clusters, 25 and 26, whose header is in block 20, and directory 14 of cluster 29. The slot
/// of number 13, block 21, is free.
pub(crate) fn listed() -> [Block; 64] {
    let mut b = sound();
    put_bytes(&mut b[8], 1, &[0x2f]);
    b[20] = header(12, 1, 0, 50, 4);
    b[22] = header(14, 1, DIRECTORY, 58, 2);
    b[43][3] = 0xd8;
    b[45] = block(ENTRIES);
    put_long(&mut b[46], 8, 69);
    b[58] = block(b"\xff\xff");
    b[59] = block(b"\xff\xff");
    b
}

/// The same with a second header, number 13 and sequence number 1, which lists cluster 27.
pub(crate) fn with_second() -> [Block; 64] {
    let mut b = listed();
    put_bytes(&mut b[8], 1, &[0x3f]);
    b[21] = header(13, 1, 0, 54, 2);
    b[21][4] = 1;
    set_sum(&mut b[21]);
    b[43][3] = 0xd0;
    b
}

/// A byte of a block, and what it is changed to. A header gets its sum.
type Byte = (usize, usize, u8);

/// Volumes without a second header, and what is found in them.
const ALONE: [(&[Byte], &str); 11] = [
    (&[], ""),
    // more blocks than the runs have: without a link, with one above the last number, and with one to a free slot
    (&[(20, 26, 6)], "chain of 12: Broken\n"),
    (
        &[(20, 26, 6), (20, 14, 33), (20, 16, 1)],
        "chain of 12: Broken\n",
    ),
    (
        &[(20, 26, 6), (20, 14, 13), (20, 16, 1)],
        "chain of 12: Broken\n",
    ),
    // fewer blocks than the runs have: by a cluster, and none at all
    (
        &[(20, 26, 2), (20, 30, 3)],
        "surplus of 12\nleaked clusters 1\nusage of [0,0]: has 69, should be 67\n",
    ),
    (
        &[(20, 26, 0), (20, 30, 1)],
        "surplus of 12\nleaked clusters 2\nusage of [0,0]: has 69, should be 65\n",
    ),
    // a link where all blocks are listed
    (&[(20, 14, 13)], "surplus of 12\n"),
    (&[(20, 19, 1)], "surplus of 12\n"),
    (&[(11, 14, 13)], "system file 3\n"),
    (&[(17, 14, 13)], "system file 9\n"),
    (&[(22, 14, 13)], "directory 14: BadSize\n"),
];

/// Volumes with a second header, and what is found in them.
const BESIDE: [(&[Byte], &str); 8] = [
    (
        &[],
        "stray header 13\nleaked clusters 1\nleaked numbers 1\n",
    ),
    (&[(8, 1, 0x2f)], "free number 13 in use\n"),
    // a link to it, but no block is left for it
    (
        &[(20, 14, 13), (20, 16, 1)],
        "surplus of 12\nstray header 13\nleaked clusters 1\nleaked numbers 1\n",
    ),
    // the third cluster is in it, though the first header has room; then the link has another sequence number, and the header
    // another place
    (
        &[(20, 26, 6), (20, 14, 13), (20, 16, 1)],
        "chain of 12: BadSplit\n",
    ),
    (
        &[(20, 26, 6), (20, 14, 13), (20, 16, 2)],
        "chain of 12: Broken\n",
    ),
    (
        &[(20, 26, 6), (20, 14, 13), (20, 16, 1), (21, 4, 2)],
        "chain of 12: Broken\n",
    ),
    (
        &[(20, 26, 6), (20, 14, 13), (20, 16, 1), (21, 8, 0)],
        "chain of 12: Broken\n",
    ),
    (&[(21, 4, 16)], "header 13: BadExtension\n"),
];

/// Whether these lines are found in the volume with these changes.
fn is_told(
    alloc: Global,
    volume: &[Block; 64],
    bytes: &[Byte],
    text: &str,
) -> Result<bool, NoMemory> {
    let mut b = *volume;
    for (lbn, at, byte) in bytes {
        change(&mut b, *lbn, *at, *byte);
    }
    let found = analyze(alloc, &b)?;
    Ok(written(alloc, &found)?.as_slice() == text.as_bytes())
}

#[test]
fn chains_of_headers_are_told(rt: HostRuntime) -> Result<(), Fail> {
    for (bytes, text) in &ALONE {
        let is_told = is_told(rt.alloc(), &listed(), bytes, text)?;
        assert!(rt; is_told, "one header: {text}");
    }
    for (bytes, text) in &BESIDE {
        let is_told = is_told(rt.alloc(), &with_second(), bytes, text)?;
        assert!(rt; is_told, "two headers: {text}");
    }
    Ok(())
}
