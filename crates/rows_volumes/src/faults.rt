//! Fatal findings: which one is told first.

ghost use Rattle.std.specs.Prelude.{length};
ghost use Rattle.fx_home.specs.Homes.{IsWithinLimits};
ghost use Rattle.vol_faults.specs.Conditions.{IsSize};

use base_words::{Block, put_bytes, put_long, put_word, set_sum};
use fx_bitmap::{clear_bits, set_bits};
use fx_home::{Home, Scb, scb_block};
use plain_cat::NoMemory;
use plain_texts::{push_bytes, push_number};
use std::alloc::Global;
use std::test::Fail;
use vol_analyze::push_finding;
use vol_faults::{
    count_clusters, count_outside, first_bad_chain, first_bad_control_block, first_bad_header,
    first_bad_system_file, first_free_cluster, first_free_number, first_large_file, first_run_off,
    first_shared_cluster,
};
use vol_parts::Finding;

/// 64 blocks in clusters of one. The headers of 32 numbers follow the index-file bitmap in LBN 4; then come the storage
/// control block, the storage bitmap, and a block of each of the files 4, 10 and 11.
pub(crate) const SMALL: Home = Home {
    cluster: 1,
    files: 32,
    label: *b"SMALL       ",
};

const NO_RUN: (u16, u16) = (0, 0);

const DIRECTORY: u32 = 0x2000;

const MARKED: u32 = 0x8000;

/// A header with up to two runs, each an LBN and a count of blocks, or a count of 0 for none.
fn header(num: u16, seq: u16, flags: u32, first: (u16, u16), second: (u16, u16)) -> Block {
    let blocks = first.1.wrapping_add(second.1);
    let pointers = u8::from(first.1 != 0) + u8::from(second.1 != 0);
    let mut b = [0; 512];
    put_bytes(&mut b, 0, &[40, 100, 255, 255]);
    put_word(&mut b, 6, 513);
    put_word(&mut b, 8, num);
    put_word(&mut b, 10, seq);
    put_word(&mut b, 26, blocks);
    put_word(&mut b, 30, blocks.wrapping_add(1));
    put_long(&mut b, 52, flags);
    put_bytes(&mut b, 58, &[2 * pointers]);
    put_word(&mut b, 200, first.1.wrapping_add(0x3fff));
    put_word(&mut b, 202, first.0);
    put_word(&mut b, 204, second.1.wrapping_add(0x3fff));
    put_word(&mut b, 206, second.0);
    set_sum(&mut b);
    b
}

/// A sound volume: the files 1 to 11, and nothing else.
pub(crate) fn small() -> [Block; 64] {
    let mut b = [[0; 512]; 64];
    set_bits(&mut b[4], 0, 11);
    b[5] = header(1, 1, 0, (0, 37), NO_RUN);
    b[6] = header(2, 2, 0, (37, 2), NO_RUN);
    b[7] = header(3, 3, 0, NO_RUN, NO_RUN);
    b[8] = header(4, 4, DIRECTORY, (39, 1), NO_RUN);
    b[9] = header(5, 5, 0, NO_RUN, NO_RUN);
    b[10] = header(6, 6, 0, NO_RUN, NO_RUN);
    b[11] = header(7, 7, 0, NO_RUN, NO_RUN);
    b[12] = header(8, 8, 0, NO_RUN, NO_RUN);
    b[13] = header(9, 9, 0, NO_RUN, NO_RUN);
    b[14] = header(10, 1, 0, (40, 1), NO_RUN);
    b[15] = header(11, 1, DIRECTORY, (41, 1), NO_RUN);
    b[37] = scb_block(&Scb {
        cluster: 1,
        blocks: 64,
    });
    set_bits(&mut b[38], 42, 22);
    b
}

/// The first finding of the kinds of this crate, and how many clusters are outside where there is none.
fn first(alloc: Global, home: &Home, blocks: &[Block]) -> Result<(Option<Finding>, u32), NoMemory>
    requires limits { IsWithinLimits home.now }
    requires size { IsSize (length blocks.now) }
{
    if let Some(f) = first_bad_header(home, blocks) {
        return Ok((Some(f), 0));
    }
    if let Some(f) = first_bad_system_file(home, blocks) {
        return Ok((Some(f), 0));
    }
    if let Some(f) = first_bad_control_block(home, blocks) {
        return Ok((Some(f), 0));
    }
    if let Some(f) = first_bad_chain(home, blocks) {
        return Ok((Some(f), 0));
    }
    if let Some(f) = first_run_off(home, blocks) {
        return Ok((Some(f), 0));
    }
    if let Some(f) = first_large_file(home, blocks) {
        return Ok((Some(f), 0));
    }
    let counts = count_clusters(alloc, home, blocks)?;
    if let Some(f) = first_shared_cluster(home, blocks, &counts) {
        return Ok((Some(f), 0));
    }
    if let Some(f) = first_free_cluster(home, blocks, &counts) {
        return Ok((Some(f), 0));
    }
    if let Some(f) = first_free_number(home, blocks) {
        return Ok((Some(f), 0));
    }
    Ok((None, count_outside(home, blocks, &counts)))
}

/// A change of a volume.
pub(crate) enum Change {
    /// A header in this block: number, sequence, flags, and two runs.
    Header(usize, u16, u16, u32, (u16, u16), (u16, u16)),
    /// A word of a header in this block, at this place, and the header's sum.
    Word(usize, usize, u16),
    /// A storage control block for so many blocks.
    Control(u32),
    /// Bytes of a block from a place on.
    Bytes(usize, usize, &'static [u8]),
    /// Bits of a block from a number on: set, or cleared.
    Set(usize, u32, u32),
    Clear(usize, u32, u32),
}

fn put(b: &mut [Block; 64], lbn: usize, block: &Block) {
    if let Some(place) = b.get_mut(lbn) {
        *place = *block;
    }
}

fn put_at(block: &mut Block, at: usize, bytes: &[u8]) {
    if bytes.len() <= 512 && at <= 512 - bytes.len() {
        put_bytes(block, at, bytes);
    }
}

// Sets bits, or clears them, as far as a block has them.
fn put_bits(block: &mut Block, from: u32, count: u32, is_set: bool) {
    let from = from.min(4095);
    let count = count.min(4096 - from);
    if is_set {
        set_bits(block, from, count);
    } else {
        clear_bits(block, from, count);
    }
}

pub(crate) fn put_change(b: &mut [Block; 64], change: &Change) {
    match change {
        Change::Header(lbn, num, seq, flags, first, second) => {
            put(b, *lbn, &header(*num, *seq, *flags, *first, *second));
        }
        Change::Word(lbn, at, word) => {
            if let Some(block) = b.get_mut(*lbn) {
                put_at(block, *at, &word.to_le_bytes());
                set_sum(block);
            }
        }
        Change::Control(blocks) => put(
            b,
            37,
            &scb_block(&Scb {
                cluster: 1,
                blocks: *blocks,
            }),
        ),
        Change::Bytes(lbn, at, bytes) => {
            if let Some(block) = b.get_mut(*lbn) {
                put_at(block, *at, bytes);
            }
        }
        Change::Set(lbn, from, count) => {
            if let Some(block) = b.get_mut(*lbn) {
                put_bits(block, *from, *count, true);
            }
        }
        Change::Clear(lbn, from, count) => {
            if let Some(block) = b.get_mut(*lbn) {
                put_bits(block, *from, *count, false);
            }
        }
    }
}

/// The text of a finding, or of so many clusters outside where there is none.
pub(crate) fn text_of(
    alloc: Global,
    found: &Option<Finding>,
    outside: u32,
) -> Result<Vec<u8>, NoMemory> {
    let mut out = Vec::new(alloc);
    match found {
        Some(f) => push_finding(alloc, &mut out, f)?,
        None => {
            push_bytes(&mut out, b"nothing, outside ")?;
            push_number(alloc, &mut out, outside)?;
        }
    }
    Ok(out)
}

// Whether this is found first in the sound volume with these changes.
fn is_first(alloc: Global, changes: &[Change], text: &str) -> Result<bool, NoMemory> {
    let mut b = small();
    for it in changes {
        put_change(&mut b, it);
    }
    let (found, outside) = first(alloc, &SMALL, &b)?;
    let told = text_of(alloc, &found, outside)?;
    Ok(told.as_slice() == text.as_bytes())
}

/// A file 12 in cluster 42 and in cluster 63, marked, whose bitmaps are put right one after another.
const TWELVE: Change = Change::Header(16, 12, 1, MARKED, (42, 1), (63, 1));

/// A file 12 of 78 clusters: its first header has 77 of them, and its second one, number 13, the last. It is well split, but lists clusters
/// twice.
const SPLIT: &[Change] = &[
    Change::Header(16, 12, 1, 0, (0, 39), (0, 38)),
    Change::Word(16, 14, 13),
    Change::Word(16, 16, 1),
    Change::Word(16, 26, 78),
    Change::Header(17, 13, 1, 0, (0, 1), NO_RUN),
    Change::Word(17, 4, 1),
];

/// Changes of the sound volume, and what is found first.
const ROWS: [(&[Change], &str); 16] = [
    (&[], "nothing, outside 0"),
    (
        &[
            Change::Header(24, 20, 1, 0, NO_RUN, NO_RUN),
            Change::Bytes(24, 12, &[1]),
        ],
        "header 20: BadSum",
    ),
    (
        &[Change::Header(24, 21, 1, 0, NO_RUN, NO_RUN)],
        "header 20: WrongNumber",
    ),
    (
        &[Change::Header(9, 5, 5, MARKED, NO_RUN, NO_RUN)],
        "system file 5",
    ),
    (
        &[Change::Header(5, 1, 1, 0, (0, 36), NO_RUN)],
        "system file 1",
    ),
    (&[Change::Control(65)], "storage control block: BadSize"),
    (
        &[Change::Header(16, 12, 1, 0, (60, 5), NO_RUN)],
        "runs of 12",
    ),
    (
        &[
            Change::Header(16, 12, 1, 0, (0, 39), NO_RUN),
            Change::Word(16, 26, 40),
        ],
        "chain of 12: Broken",
    ),
    (
        &[Change::Header(16, 12, 1, 0, (0, 39), (0, 39))],
        "chain of 12: BadSplit",
    ),
    (SPLIT, "shared cluster 0"),
    (
        &[Change::Header(16, 12, 1, MARKED, (41, 3), NO_RUN)],
        "shared cluster 41",
    ),
    (&[TWELVE], "free cluster 42 in use"),
    (
        &[TWELVE, Change::Clear(38, 42, 1)],
        "free cluster 63 in use",
    ),
    (
        &[TWELVE, Change::Clear(38, 42, 1), Change::Clear(38, 63, 1)],
        "free number 12 in use",
    ),
    (
        &[
            TWELVE,
            Change::Clear(38, 42, 1),
            Change::Clear(38, 63, 1),
            Change::Set(4, 11, 1),
        ],
        "nothing, outside 0",
    ),
    // three clusters are neither free nor in a file
    (
        &[
            TWELVE,
            Change::Clear(38, 42, 1),
            Change::Clear(38, 63, 1),
            Change::Set(4, 11, 1),
            Change::Clear(38, 50, 3),
        ],
        "nothing, outside 3",
    ),
];

#[test]
fn the_first_finding_is_told(rt: HostRuntime) -> Result<(), Fail> {
    for (changes, text) in ROWS {
        let is_first = is_first(rt.alloc(), changes, text)?;
        assert!(rt; is_first, "{text}");
    }
    Ok(())
}
