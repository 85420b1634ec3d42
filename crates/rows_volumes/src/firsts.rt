//! A sound volume with one byte changed: what is found first.

use crate::faults::{Change, SMALL, put_change, small, text_of};
use base_words::Block;
use fx_home::home_block;
use fx_quota::{Row, set_row};
use plain_cat::{Cat, NoMemory};
use std::alloc::Global;
use std::test::Fail;
use vol_faults::{free_counts, geometry, read_whole};

/// The entries of the system files.
const MAIN: &[u8] = b"\x16\x00\xff\x7f\x00\x0a000000.DIR\x01\x00\x04\x00\x04\x00\x00\x00\
    \x16\x00\xff\x7f\x00\x0aBACKUP.SYS\x01\x00\x08\x00\x08\x00\x00\x00\
    \x16\x00\xff\x7f\x00\x0aBADBLK.SYS\x01\x00\x03\x00\x03\x00\x00\x00\
    \x16\x00\xff\x7f\x00\x0aBADLOG.SYS\x01\x00\x09\x00\x09\x00\x00\x00\
    \x16\x00\xff\x7f\x00\x0aBITMAP.SYS\x01\x00\x02\x00\x02\x00\x00\x00\
    \x16\x00\xff\x7f\x00\x0aCONTIN.SYS\x01\x00\x07\x00\x07\x00\x00\x00\
    \x16\x00\xff\x7f\x00\x0aCORIMG.SYS\x01\x00\x05\x00\x05\x00\x00\x00\
    \x16\x00\xff\x7f\x00\x0aINDEXF.SYS\x01\x00\x01\x00\x01\x00\x00\x00\
    \x16\x00\xff\x7f\x00\x09QUOTA.SYS\x00\x01\x00\x0a\x00\x01\x00\x00\x00\
    \x18\x00\xff\x7f\x00\x0bSYSLOST.DIR\x00\x01\x00\x0b\x00\x01\x00\x00\x00\
    \x16\x00\xff\x7f\x00\x0aVOLSET.SYS\x01\x00\x06\x00\x06\x00\x00\x00\xff\xff";

/// A block that begins with these bytes and is zero behind them.
fn block(bytes: &[u8]) -> Block {
    let mut b = [0; 512];
    for (place, byte) in b.iter_mut().zip(bytes) {
        *place = *byte;
    }
    b
}

/// The sound volume with its home block, its directories, and a quota row for owner 0.
fn whole() -> [Block; 64] {
    let mut b = small();
    b[1] = home_block(&SMALL);
    b[39] = block(MAIN);
    set_row(
        &mut b[40],
        0,
        &Row {
            uic: 0,
            usage: 53,
            quota: 1000,
            over: 0,
        },
    );
    b[41] = block(b"\xff\xff");
    b
}

/// Whether a catalogue has the sizes of the sound volume.
fn has_its_sizes(cat: &Cat) -> bool {
    (cat.factor, cat.total, cat.reserved) == (1, 64, 42)
        && (cat.rows, cat.leaked) == (16, 0)
        && cat.files.items().len() == 32
        && cat.quota.items().len() == 1
}

/// Whether the volume has no fatal finding, and is read with these sizes and places.
fn is_read(alloc: Global, blocks: &[Block; 64]) -> Result<bool, NoMemory> {
    let Ok(cat) = read_whole(alloc, blocks)? else {
        return Ok(false);
    };
    let at = geometry(blocks);
    Ok(
        has_its_sizes(&cat)
            && free_counts(blocks) == (22, 21)
            && (at.blocks, at.cluster, at.files) == (64, 1, 32)
            && (at.bitmap_lbn, at.quota_lbn) == (37, 40),
    )
}

#[test]
fn a_volume_is_read(rt: HostRuntime) -> Result<(), Fail> {
    assert!(rt;
        is_read(rt.alloc(), &whole())?,
        "the whole volume is read, with its sizes and places"
    );
    Ok(())
}

/// One byte after another is changed, and this is found then, which of these kinds is the first.
const BYTES: [(Change, &str); 6] = [
    (Change::Bytes(39, 35, b"Q"), "system entry 8"),
    (Change::Bytes(4, 0, &[0xfe]), "free number 1 in use"),
    (Change::Bytes(38, 5, &[0xfe]), "free cluster 41 in use"),
    (Change::Bytes(40, 4, &[1]), "no quota row for 1"),
    (Change::Bytes(39, 0, &[0x17]), "directory 4: BadRecord"),
    (Change::Bytes(1, 496, b"d"), "home: BadFormat"),
];

fn found(alloc: Global, b: &[Block; 64]) -> Result<Vec<u8>, NoMemory> {
    text_of(alloc, &read_whole(alloc, b)?.err(), 0)
}

#[test]
fn one_byte_makes_a_finding(rt: HostRuntime) -> Result<(), Fail> {
    let mut b = whole();
    for (byte, text) in &BYTES {
        put_change(&mut b, byte);
        let found = found(rt.alloc(), &b)?;
        assert!(rt; found.as_slice() == text.as_bytes(), "{text}");
    }
    Ok(())
}
