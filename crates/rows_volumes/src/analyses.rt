//! Volumes with findings of every kind, in their order.

use crate::findings::written;
use base_words::{Block, put_bytes, put_word, set_sum};
use fx_home::{Home, Scb, home_block, scb_block};
use plain_cat::NoMemory;
use std::alloc::Global;
use std::test::Fail;
use vol_analyze::{accepted, analyze};
use vol_parts::Finding;
use vol_spell::read_volume;

/// 64 blocks in clusters of two. The headers of 32 numbers follow the index-file bitmap in LBN 8; then come the storage
/// control block, the storage bitmap, and a cluster of each of the files 4, 10 and 11.
const SMALL: Home = Home {
    cluster: 2,
    files: 32,
    label: *b"SMALL       ",
};

const DIRECTORY: u8 = 0x20;

const MARKED: u8 = 0x80;

/// The entries of the system files.
const MAIN: &[u8] = b"\x16\x00\xff\x7f\x00\x0a000000.DIR\x01\x00\x04\x00\x04\x00\x00\x00\
    \x16\x00\xff\x7f\x00\x0aBACKUP.SYS\x01\x00\x08\x00\x08\x00\x00\x00\
    \x16\x00\xff\x7f\x00\x0aBADBLK.SYS\x01\x00\x03\x00\x03\x00\x00\x00\
    \x16\x00\xff\x7f\x00\x0aBADLOG.SYS\x01\x00\x09\x00\x09\x00\x00\x00\
    \x16\x00\xff\x7f\x00\x0aBITMAP.SYS\x01\x00\x02\x00\x02\x00\x00\x00\
    \x16\x00\xff\x7f\x00\x0aCONTIN.SYS\x01\x00\x07\x00\x07\x00\x00\x00\
    \x16\x00\xff\x7f\x00\x0aCORIMG.SYS\x01\x00\x05\x00\x05\x00\x00\x00\
    \x16\x00\xff\x7f\x00\x0aINDEXF.SYS\x01\x00\x01\x00\x01\x00\x00\x00\
    \x16\x00\xff\x7f\x00\x09QUOTA.SYS\x00\x01\x00\x0a\x00\x01\x00\x00\x00\
    \x18\x00\xff\x7f\x00\x0bSYSLOST.DIR\x00\x01\x00\x0b\x00\x01\x00\x00\x00\
    \x16\x00\xff\x7f\x00\x0aVOLSET.SYS\x01\x00\x06\x00\x06\x00\x00\x00\xff\xff";

/// Behind them that of file 6 once more, two of file 12, and one of no file.
const MORE: &[u8] = b"\x16\x00\xff\x7f\x00\x0aVOLSET.SYS\x01\x00\x06\x00\x06\x00\x00\x00\
    \x12\x00\xff\x7f\x00\x05X.TXT\x00\x01\x00\x0c\x00\x01\x00\x00\x00\
    \x12\x00\xff\x7f\x00\x05Y.TXT\x00\x01\x00\x0c\x00\x01\x00\x00\x00\
    \x12\x00\xff\x7f\x00\x05Z.TXT\x00\x01\x00\x14\x00\x01\x00\x00\x00\xff\xff";

/// An entry of file 16.
const SIXTEEN: &[u8] = b"\x12\x00\xff\x7f\x00\x05Q.TXT\x00\x01\x00\x10\x00\x01\x00\x00\x00\xff\xff";

/// An entry of file 14 with the last version of the name that [SYSLOST] gives to file 15.
const LAST: &[u8] = b"\x16\x00\xff\x7f\x00\x0aF00015.LST\xff\x7f\x0e\x00\x01\x00\x00\x00\xff\xff";

/// Pointers to the first 52 blocks, to these again, and to the first 50: 77 clusters.
const THRICE: &[u8] = b"\x33\x40\x00\x00\x33\x40\x00\x00\x31\x40\x00\x00";

/// A block that begins with these bytes and is zero behind them.
pub(crate) fn block(bytes: &[u8]) -> Block {
    let mut b = [0; 512];
    for (place, byte) in b.iter_mut().zip(bytes) {
        *place = *byte;
    }
    b
}

/// The header of a file of owner [0,0] with one run, or none where the count of blocks is 0.
pub(crate) fn header(num: u16, seq: u16, flags: u8, lbn: u16, count: u16) -> Block {
    let mut b = [0; 512];
    put_bytes(&mut b, 0, &[40, 100, 255, 255]);
    put_word(&mut b, 6, 513);
    put_word(&mut b, 8, num);
    put_word(&mut b, 10, seq);
    put_word(&mut b, 26, count);
    put_word(&mut b, 30, count.wrapping_add(1));
    b[53] = flags;
    if count != 0 {
        b[58] = 2;
        put_word(&mut b, 200, count.wrapping_add(0x3fff));
        put_word(&mut b, 202, lbn);
    }
    set_sum(&mut b);
    b
}

/// A sound volume: the files 1 to 11, which cost 61 blocks, and nothing else.
pub(crate) fn sound() -> [Block; 64] {
    let mut b = [[0; 512]; 64];
    b[1] = home_block(&SMALL);
    put_bytes(&mut b[8], 0, &[0xff, 7]);
    b[9] = header(1, 1, 0, 0, 42);
    b[10] = header(2, 2, 0, 42, 2);
    b[11] = header(3, 3, 0, 0, 0);
    b[12] = header(4, 4, DIRECTORY, 44, 2);
    b[13] = header(5, 5, 0, 0, 0);
    b[14] = header(6, 6, 0, 0, 0);
    b[15] = header(7, 7, 0, 0, 0);
    b[16] = header(8, 8, 0, 0, 0);
    b[17] = header(9, 9, 0, 0, 0);
    b[18] = header(10, 1, 0, 46, 2);
    b[19] = header(11, 1, DIRECTORY, 48, 2);
    b[42] = scb_block(&Scb {
        cluster: 2,
        blocks: 64,
    });
    b[43][3] = 0xfe;
    b[44] = block(MAIN);
    b[45] = block(b"\xff\xff");
    put_bytes(&mut b[46], 0, &[1, 0, 0, 0, 0, 0, 0, 0, 61, 0, 0, 0, 200]);
    b[48] = block(b"\xff\xff");
    b[49] = block(b"\xff\xff");
    b
}

/// The same with files 12 to 16, of which 13 is marked, and 14 and 15 are in no directory. The clusters 27 to 29 and the
/// numbers 21 and 22 are neither free nor in use.
pub(crate) fn faulty() -> [Block; 64] {
    let mut b = sound();
    put_bytes(&mut b[8], 1, &[0xff, 0x30]);
    b[20] = header(12, 1, 0, 50, 2);
    b[21] = header(13, 1, MARKED, 0, 0);
    b[22] = header(14, 1, 0, 0, 0);
    b[23] = header(15, 1, DIRECTORY, 52, 2);
    b[24] = header(16, 1, 0, 0, 0);
    b[43][3] = 0xc0;
    b[45] = block(MORE);
    b[52] = block(SIXTEEN);
    b[53] = block(b"\xff\xff");
    b
}

/// The findings, each on a line.
fn lines(alloc: Global, blocks: &[Block; 64]) -> Result<Vec<u8>, NoMemory> {
    let found = analyze(alloc, blocks)?;
    written(alloc, &found)
}

/// Whether the findings are these lines.
fn are_told(alloc: Global, blocks: &[Block; 64], text: &[u8]) -> Result<bool, NoMemory> {
    Ok(lines(alloc, blocks)?.as_slice() == text)
}

/// Whether nothing is found, and the catalogue has the sizes of the sound volume.
fn is_accepted(alloc: Global, blocks: &[Block; 64]) -> Result<bool, NoMemory> {
    Ok(match accepted(alloc, blocks)? {
        Ok(cat) => (cat.factor, cat.total, cat.reserved) == (2, 32, 25),
        Err(_) => false,
    })
}

/// Whether the volume has no fatal finding, and a catalogue of 32 files.
fn is_read(alloc: Global, blocks: &[Block; 64]) -> Result<bool, NoMemory> {
    Ok(match read_volume(alloc, blocks)? {
        Some(same) => same.files.items().len() == 32,
        None => false,
    })
}

#[test]
fn sound_volumes_are_accepted(rt: HostRuntime) -> Result<(), Fail> {
    let alloc = rt.alloc();
    let b = sound();
    assert!(rt;
        are_told(alloc, &b, b"")?,
        "nothing is found in a sound volume"
    );
    assert!(rt;
        is_accepted(alloc, &b)?,
        "a sound volume is accepted, and its catalogue has its sizes"
    );
    assert!(rt;
        is_read(alloc, &b)?,
        "a sound volume is read, with 32 files"
    );
    Ok(())
}

/// Whether the volume is refused since file 13 is marked.
fn is_refused(alloc: Global, blocks: &[Block; 64]) -> Result<bool, NoMemory> {
    Ok(matches!(accepted(alloc, blocks)?, Err(Finding::Marked(13))))
}

#[test]
fn all_that_is_mended_is_found_in_order(rt: HostRuntime) -> Result<(), Fail> {
    let alloc = rt.alloc();
    let b = faulty();
    let text =
        "marked 13\nentry Z.TXT;1 in 4 names no file\nsecond entry Y.TXT;1 in 4\ndoubles in 4\nlost 14\nlost 15\nleaked clusters 3\nleaked numbers 2\nusage of [0,0]: has 61, should be 70\n";
    assert!(rt;
        are_told(alloc, &b, text.as_bytes())?,
        "all that can be mended is told, in order"
    );
    assert!(rt;
        is_refused(alloc, &b)?,
        "the volume is refused since file 13 is marked"
    );
    Ok(())
}

/// Changes a byte, and of a header its sum as well.
pub(crate) fn change(b: &mut [Block; 64], lbn: usize, at: usize, byte: u8) {
    if let Some(block) = b.get_mut(lbn) {
        if let Some(place) = block.get_mut(at) {
            *place = byte;
        }
        if 9 <= lbn && lbn <= 40 {
            set_sum(block);
        }
    }
}

/// Changes, and what is told after each: the block, the place in it, the byte, and the line.
const BEFORE: [(usize, usize, u8, &str); 13] = [
    (52, 14, 15, "directory loop at 15\n"),
    (23, 53, 0xa0, "marked directory 15\n"),
    (44, 35, b'Q', "system entry 8\n"),
    (8, 0, 0xfe, "free number 1 in use\n"),
    (43, 0, 1, "free cluster 0 in use\n"),
    (46, 4, 1, "no quota row for 1\n"),
    (46, 36, 1, "no quota row for 1\n"),
    (46, 32, 1, "quota row [0,1]\n"),
    (45, 18, 7, "directory 4: Clash\n"),
    (45, 15, b'R', "directory 4: BadOrder\n"),
    (44, 0, 0x17, "directory 4: BadRecord\n"),
    (12, 30, 2, "directory 4: BadSize\n"),
    (20, 202, 48, "shared cluster 24\n"),
];

/// Those that go on behind file 12 with 78 clusters.
const BEHIND: [(usize, usize, u8, &str); 7] = [
    (20, 202, 51, "runs of 12\n"),
    (29, 4, 2, "chain of 12: Broken\n"),
    (42, 100, 1, "storage control block: BadSum\n"),
    (13, 10, 9, "system file 5\n"),
    (20, 8, 13, "header 12: WrongNumber\n"),
    (20, 7, 3, "header 12: BadLevel\n"),
    (1, 496, b'd', "home: BadFormat\n"),
];

/// File 12 with 78 clusters, most of which it has three times: 77 are in its first header, and one is in a second one, number 21.
fn put_thrice(b: &mut [Block; 64]) {
    put_word(&mut b[20], 14, 21);
    put_word(&mut b[20], 16, 1);
    put_word(&mut b[20], 26, 156);
    put_word(&mut b[20], 30, 157);
    b[20][58] = 6;
    put_bytes(&mut b[20], 200, THRICE);
    set_sum(&mut b[20]);
    b[29] = header(21, 1, 0, 0, 2);
    b[29][4] = 1;
    set_sum(&mut b[29]);
}

// Each finding of an earlier kind is told in place of those before it, which still hold.
#[test]
fn the_first_fatal_finding_is_told_alone(rt: HostRuntime) -> Result<(), Fail> {
    let alloc = rt.alloc();
    let mut b = faulty();
    b[48] = block(LAST);
    assert!(rt;
        are_told(alloc, &b, b"no room for 15\n")?,
        "file 15, which has no room in [SYSLOST], is told alone"
    );
    for (lbn, at, byte, text) in &BEFORE {
        change(&mut b, *lbn, *at, *byte);
        assert!(rt; are_told(alloc, &b, text.as_bytes())?, "{text}");
    }
    put_thrice(&mut b);
    assert!(rt;
        are_told(alloc, &b, b"shared cluster 0\n")?,
        "the first cluster of file 12, which it has three times, is told alone"
    );
    for (lbn, at, byte, text) in &BEHIND {
        change(&mut b, *lbn, *at, *byte);
        assert!(rt; are_told(alloc, &b, text.as_bytes())?, "{text}");
    }
    Ok(())
}

/// Blocks of bytes that follow one from another, from a first number on.
fn noise(seed: u32) -> [Block; 64] {
    let mut b = [[0; 512]; 64];
    let mut number = seed;
    for block in b.iter_mut() {
        for place in block.iter_mut() {
            number = number.wrapping_mul(1664525).wrapping_add(1013904223);
            *place = number.to_be_bytes()[0];
        }
    }
    b
}

/// Whether the header of file 1 is told.
fn is_header_told(alloc: Global, blocks: &[Block; 64]) -> Result<bool, NoMemory> {
    Ok(lines(alloc, blocks)?.starts_with(b"header 1: "))
}

/// Whether there is no volume to be read.
fn is_no_volume(alloc: Global, blocks: &[Block; 64]) -> Result<bool, NoMemory> {
    Ok(read_volume(alloc, blocks)?.is_none())
}

#[test]
fn any_bytes_are_told_apart_from_a_volume(rt: HostRuntime) -> Result<(), Fail> {
    let alloc = rt.alloc();
    for seed in 1..5u32 {
        let mut b = noise(seed);
        assert!(rt;
            are_told(alloc, &b, b"home: BadFormat\n")?,
            "noise {seed} has no home block"
        );
        b[1] = home_block(&SMALL);
        assert!(rt;
            is_header_told(alloc, &b)?,
            "noise {seed} with a home block: the header of file 1 is told"
        );
        assert!(rt;
            is_no_volume(alloc, &b)?,
            "noise {seed} with a home block: there is no volume to be read"
        );
    }
    Ok(())
}
