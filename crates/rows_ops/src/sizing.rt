//! EXTEND and TRUNC: the refusals, each where none in front of it holds, and the first of two; and a file that is cut.

use crate::plans::{Row, check, check_all, check_blocks};
use base_words::{Block, put_long, put_word, set_sum};
use rows_sample::volume;
use std::test::Fail;

/// File 14 has one cluster, and is of [1,4]; 16 is marked, 12 a directory, 4 and 5 are system files. A TRUNC of what is there writes
/// nothing.
const ON_THE_VOLUME: &[Row<'static>] = &[
    ("1 EXTEND (14,2,0) 1", "", "refused NoSuchFile"),
    ("1 EXTEND (16,1,0) 1", "", "refused NoSuchFile"),
    ("1 EXTEND (12,1,0) 155", "", "refused NoPriv"),
    ("1 EXTEND (5,5,0) 155", "", "refused NoPriv"),
    ("1 TRUNC (4,4,0) 1", "S(4) PW at 12", "refused NoPriv"),
    ("1 TRUNC (4,5,0) 1", "S(4) PW at 12", "refused NoSuchFile"),
    ("1 TRUNC (0,1,0) 1", "at", "refused NoSuchFile"),
    ("1 TRUNC (14,1,0) 1", "", "2 blocks"),
];

/// [1,4] has used 199 blocks of its 200.
const ON_THE_USED: &[Row<'static>] = &[
    ("1 EXTEND (14,1,0) 155", "", "refused FileLimit"),
    ("1 EXTEND (14,1,0) 1", "", "refused ExQuota"),
];

/// It has an overdraft of one. That counts, and so do whole clusters: one block is two.
const ON_THE_OVERDRAWN: &[Row<'static>] = &[
    ("1 EXTEND (14,1,0) 1", "", "no plan"),
    ("1 EXTEND (14,1,0) 3", "", "refused ExQuota"),
];

// The volume, on which [1,4] has used 199 blocks of its 200, and has this overdraft.
fn used_up(over: u16) -> [Block; 64] {
    let mut used = volume();
    put_word(&mut used[46], 40, 199);
    put_word(&mut used[46], 48, over);
    used
}

#[test]
fn sizes_are_refused_in_order(rt: HostRuntime) -> Result<(), Fail> {
    let alloc = rt.alloc();
    check_all(&rt, alloc, &volume(), None, ON_THE_VOLUME)?;
    check_all(&rt, alloc, &used_up(0), None, ON_THE_USED)?;
    check_all(&rt, alloc, &used_up(1), None, ON_THE_OVERDRAWN)?;
    Ok(())
}

// The header, the storage block and the quota block of file 14 with no cluster: its mark is the first block, its end stays where it is,
// and no pointer is in use.
fn emptied(volume: &[Block; 64]) -> [Block; 3] {
    let mut after = [volume[22], volume[43], volume[46]];
    put_word(&mut after[0], 26, 0);
    put_long(&mut after[0], 76, 1);
    after[0][58] = 0;
    set_sum(&mut after[0]);
    after[1][3] = 0xfc;
    put_word(&mut after[2], 40, 1);
    after
}

// The volume, on which file 14 has four blocks, all written, and its end in the last.
fn with_two_clusters() -> [Block; 64] {
    let mut there = volume();
    put_word(&mut there[22], 26, 4);
    put_word(&mut there[22], 30, 4);
    put_long(&mut there[22], 76, 5);
    put_word(&mut there[22], 200, 0x4003);
    set_sum(&mut there[22]);
    there[43][3] = 0xf0;
    put_word(&mut there[46], 40, 5);
    there
}

// These blocks with the first cluster alone: the mark and the end are the block behind it, and the end has no byte.
fn shortened(volume: &[Block; 64]) -> [Block; 3] {
    let mut after = [volume[22], volume[43], volume[46]];
    put_word(&mut after[0], 26, 2);
    put_word(&mut after[0], 30, 3);
    put_word(&mut after[0], 32, 0);
    put_long(&mut after[0], 76, 3);
    put_word(&mut after[0], 200, 0x4001);
    set_sum(&mut after[0]);
    after[1][3] = 0xf8;
    put_word(&mut after[2], 40, 3);
    after
}

#[test]
fn a_file_is_cut(rt: HostRuntime) -> Result<(), Fail> {
    let alloc = rt.alloc();
    let there = volume();
    let all = (
        "1 TRUNC (14,1,0) 0",
        "",
        "S(14) 22 Shortened cluster 26\nV 43 Shortened\nQ 46 Done\n0 blocks",
    );
    check_blocks(
        &rt,
        &check(&rt, alloc, &there, None, all)?,
        &emptied(&there),
    );
    let two = with_two_clusters();
    let last = (
        "1 TRUNC (14,1,0) 1",
        "",
        "S(14) 22 Shortened cluster 27\nV 43 Shortened\nQ 46 Done\n2 blocks",
    );
    check_blocks(&rt, &check(&rt, alloc, &two, None, last)?, &shortened(&two));
    Ok(())
}
