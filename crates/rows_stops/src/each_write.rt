//! Each write of a run fails in turn: what is told of it, and what the image has then.

use crate::headers::TWO;
use base_words::Block;
use blk_drive::MemImage;
use rows_calls::{
    BEFORE, Called, ELEVEN, On, Row, Stop, Wrong, blocks_of, call, check_same, expect, failing,
    image_of, is_cut, volume,
};
use std::alloc::Global;
use std::test::Fail;

// A run stopped with status 4, behind some of these lines.
fn check_cut(alloc: Global, called: &Called, report: &[u8], script: &str) -> Result<(), Wrong> {
    let is_stopped = called.code == 4 && is_cut(called.out.bytes(), report);
    expect(alloc, is_stopped, script)
}

// A run of which this write fails, and its block is not on the image: the image has these blocks. How long the text is.
fn lost(
    alloc: Global,
    image: &MemImage,
    script: &str,
    report: &[u8],
    write: u64,
    before: &[Block],
) -> Result<usize, Wrong> {
    let stop = Stop {
        write,
        lands: false,
    };
    let called = call(alloc, &["run"], failing(alloc, image, stop)?, script)?;
    check_cut(alloc, &called, report, script)?;
    check_same(alloc, &called.image, before, script)?;
    Ok(called.out.bytes().len())
}

// Whether at most one block differs.
fn is_one_ahead(before: &[Block], after: &[Block]) -> bool {
    let mut apart = 0usize;
    for (old, new) in before.iter().zip(after) {
        if old != new {
            apart = apart.saturating_add(1);
        }
    }
    before.len() == after.len() && apart <= 1
}

// The blocks behind a write that fails and is on the image: one more than these at most. The text is so long.
fn landed(
    alloc: Global,
    image: &MemImage,
    script: &str,
    report: &[u8],
    (write, length): (u64, usize),
    before: &[Block],
) -> Result<Vec<Block>, Wrong> {
    let stop = Stop { write, lands: true };
    let called = call(alloc, &["run"], failing(alloc, image, stop)?, script)?;
    check_cut(alloc, &called, report, script)?;
    let is_so = called.out.bytes().len() == length && is_one_ahead(before, called.image.all());
    expect(alloc, is_so, script)?;
    Ok(blocks_of(alloc, &called.image)?)
}

// The blocks behind so many writes of a script, of which each fails.
fn each_lands(
    alloc: Global,
    image: &MemImage,
    script: &str,
    report: &[u8],
    writes: u64,
) -> Result<Vec<Block>, Wrong> {
    let mut blocks = blocks_of(alloc, image)?;
    for write in 1..writes.saturating_add(1) {
        let length = lost(alloc, image, script, report, write, blocks.as_slice())?;
        blocks = landed(
            alloc,
            image,
            script,
            report,
            (write, length),
            blocks.as_slice(),
        )?;
    }
    Ok(blocks)
}

// Each of so many writes of a script fails. Behind the last one the image is as the whole run leaves it.
fn each_fails(alloc: Global, image: &MemImage, script: &str, writes: u64) -> Result<(), Wrong> {
    let whole = call(alloc, &["run"], image_of(alloc, image.all(), None)?, script)?;
    expect(alloc, whole.code == 0, script)?;
    let blocks = each_lands(alloc, image, script, whole.out.bytes(), writes)?;
    check_same(alloc, &whole.image, blocks.as_slice(), script)
}

/// Scripts on a fresh volume, and how many writes each makes: a file with blocks five, one without four, a directory nine; a write
/// less for each bitmap where the stock has what is wanted. A node that is over writes back its stock: the index block where it has
/// numbers, and the storage block where it has clusters.
const BY_ONE: &[(&str, u64)] = &[
    (
        "NODES 1\n1 LOOKUP R1 MFD A.TXT;0\n1 LIST MFD\n1 STAT R1\n",
        0,
    ),
    (
        "NODES 1\n1 CREATE R1 MFD A.TXT;0 10 [1,4]\n1 STAT R1\n1 CREATE R1 MFD A.TXT;0 0 [1,4]\n",
        10,
    ),
    (
        "NODES 1\n1 CREATE R1 MFD A.TXT;1 0 [1,4]\n1 CREATE R1 MFD A.TXT;1 0 [1,4]\n1 CREATE R1 MFD B.TXT;0 300 [1,4]\n",
        10,
    ),
    (
        "NODES 1\n1 CREATE R1 MFD A.TXT;0 300 [1,4]\n1 LIST MFD\n",
        7,
    ),
    (
        "NODES 1\n1 MKDIR R1 MFD A [1,4]\n1 CREATE R2 R1 A.TXT;0 10 [1,4]\n1 LIST R1\n",
        14,
    ),
    (
        "NODES 1\n1 MKDIR R1 LOST A [1,4]\n1 MKDIR R2 R1 B [1,4]\n1 CREATE R3 R2 A.TXT;0 4 [1,1]\n1 LIST R2\n",
        21,
    ),
];

/// The same by two nodes.
const BY_TWO: &[(&str, u64)] = &[
    (
        "NODES 2\n1 CREATE R1 MFD A.TXT;0 4 [1,4]\n2 CREATE R1 MFD A.TXT;0 4 [1,4]\n",
        14,
    ),
    (
        "NODES 2\nSCHED 2\n1 CREATE R1 MFD A.TXT;0 4 [1,4]\n2 CREATE R1 MFD A.TXT;0 4 [1,4]\n",
        14,
    ),
    (
        "NODES 2\nSCHED 1*3 2*7\n1 CREATE R1 MFD A.TXT;0 4 [1,4]\n2 CREATE R1 LOST A.TXT;0 4 [1,4]\n",
        14,
    ),
    (
        "NODES 2\nSCHED 1*18 2*4\n1 CREATE R1 MFD A.TXT;0 4 [1,4]\n2 STAT (12,1,0)\n",
        7,
    ),
    (
        "NODES 2\nSCHED 1*29\n1 MKDIR R1 MFD NOTES [1,4]\n1 CREATE R2 R1 PLAN.TXT;0 3 [1,4]\n1 CREATE R2 R1 PLAN.TXT;0 3 [1,4]\n1 LIST R1\n\
        2 LOOKUP R1 MFD NOTES.DIR;0\n2 CREATE R2 R1 TASK.TXT;0 10 [1,1]\n2 STAT R2\n2 LIST R1\n2 CREATE R3 R1 TASK.TXT;1 0 [1,4]\n",
        24,
    ),
];

/// The same by four and by eight.
const BY_SEVERAL: &[(&str, u64)] = &[
    (
        "NODES 8\nSCHED 8 1\n3 LIST LOST\n5 LOOKUP R1 MFD SYSLOST.DIR;1\n8 STAT MFD\n",
        0,
    ),
    (
        "NODES 4\nSCHED 4 1 3*9 2*9\n1 LIST LOST\n2 LIST LOST\n3 MKDIR R1 LOST A [1,4]\n4 LIST LOST\n",
        11,
    ),
    (
        "NODES 8\nSCHED 5*3 8 3 5\n\
        1 CREATE R1 MFD A.TXT;0 4 [1,4]\n2 MKDIR R1 MFD A [1,4]\n3 CREATE R1 LOST A.TXT;0 4 [1,4]\n4 LIST LOST\n\
        6 CREATE R1 MFD A.TXT;0 4 [1,1]\n7 LOOKUP R1 MFD A.DIR;0\n8 CREATE R1 MFD B.TXT;7 4 [1,4]\n",
        39,
    ),
];

/// Scripts in which a file changes and goes: TRUNC of a file with clusters has three writes, and so has EXTEND where its node has no
/// stock, two where it has; RENAME has two, DELETE six, and QUOTASET one.
const BY_CHANGES: &[(&str, u64)] = &[
    (
        "NODES 1\n1 CREATE R1 MFD A.TXT;0 4 [1,4]\n1 EXTEND R1 4\n1 TRUNC R1 1\n1 RENAME MFD A.TXT;0 B.TXT;0\n1 DELETE MFD B.TXT;0\n",
        20,
    ),
    (
        "NODES 2\n1 CREATE R1 MFD A.TXT;0 4 [1,4]\n2 CREATE R1 MFD B.TXT;0 4 [1,4]\n1 DELETE MFD B.TXT;0\n2 RENAME MFD A.TXT;0 C.TXT;0\n",
        22,
    ),
    (
        "NODES 4\nSCHED 1*30\n1 CREATE R1 MFD A.TXT;0 4 [1,4]\n2 EXTEND (12,1,0) 5\n3 TRUNC (12,1,0) 8\n4 DELETE MFD A.TXT;0\n",
        20,
    ),
    ("NODES 8\n8 QUOTASET [2,2] 100 0\n7 QUOTASHOW [2,2]\n", 1),
];

/// Scripts in which open files are written and go: a WRITE at the mark has two writes, one past it two more for the blocks between,
/// and one below it one; a DELETE of an open file has two, and the CLOSE by which the file goes four.
const BY_CHANNELS: &[(&str, u64)] = &[
    (
        "NODES 1\n1 CREATE R1 MFD A.TXT;0 8 [1,4]\n1 OPEN 1 R1 PW\n1 WRITE 1 1 A\n1 WRITE 1 4 B\n1 WRITE 1 2 C\n1 DELETE MFD A.TXT;0\n",
        20,
    ),
    (
        "NODES 2\nSCHED 1*30 2*100\n1 CREATE R1 MFD B.DAT;0 4 [1,4]\n1 OPEN 1 R1 CW\n1 WRITE 1 1 HELLO\n1 CLOSE 1\n2 OPEN 1 (12,1,0) PR\n2 DELETE MFD B.DAT;0\n",
        15,
    ),
];

// Each write of each of these scripts fails, on a fresh volume.
fn all_fail(alloc: Global, tables: &[&[(&str, u64)]]) -> Result<(), Wrong> {
    let image = volume(alloc)?;
    for rows in tables {
        for (script, writes) in *rows {
            each_fails(alloc, &image, script, *writes)?;
        }
    }
    Ok(())
}

#[test]
fn each_write_of_one_node_fails(rt: HostRuntime) -> Result<(), Fail> {
    all_fail(rt.alloc(), &[BY_ONE])?;
    Ok(())
}

#[test]
fn each_write_of_several_nodes_fails(rt: HostRuntime) -> Result<(), Fail> {
    all_fail(rt.alloc(), &[BY_TWO, BY_SEVERAL])?;
    Ok(())
}

#[test]
fn each_write_of_a_change_fails(rt: HostRuntime) -> Result<(), Fail> {
    all_fail(rt.alloc(), &[BY_CHANGES, BY_CHANNELS])?;
    Ok(())
}

/// On volumes with files: one made elsewhere, whose directory has two blocks; one with a directory of three; and one with a file of two
/// headers, which gets a third one in six writes, loses both in six, and goes in six.
const ON_FILES: &[(Row<'static>, &str, u64)] = &[
    (
        Row {
            on: On::Tree(104, 0xf8),
            first: &[],
            each: &[],
        },
        "NODES 2\n1 CREATE R1 (12,1,0) A.TXT;0 4 [1,1]\n2 CREATE R1 (12,1,0) B.DAT;0 0 [1,1]\n2 LIST (12,1,0)\n",
        14,
    ),
    (
        Row {
            on: On::Fresh,
            first: ELEVEN,
            each: &[],
        },
        BEFORE,
        7,
    ),
    (
        TWO,
        "NODES 1\n1 EXTEND (12,1,0) 308\n1 TRUNC (12,1,0) 4\n1 DELETE MFD A.TXT;0\n",
        20,
    ),
];

#[test]
fn each_write_fails_on_volumes_with_files(rt: HostRuntime) -> Result<(), Fail> {
    for (row, script, writes) in ON_FILES {
        each_fails(rt.alloc(), &row.begun(rt.alloc())?, script, *writes)?;
    }
    Ok(())
}
