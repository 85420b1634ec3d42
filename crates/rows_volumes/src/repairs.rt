//! What a repair keeps of damaged volumes, and what is beyond it.

ghost use Rattle.fx_home.specs.Homes.{IsWithinLimits};

use crate::analyses::change;
use crate::chains::with_second;
use base_words::Block;
use fx_home::{Home, read_home};
use plain_cat::NoMemory;
use plain_texts::{push_bytes, push_number};
use std::alloc::Global;
use std::test::Fail;
use vol_analyze::push_finding;
use vol_sound::{first_beyond, freed_slots, kept_slots, sound_files};

/// A byte of a block, and what it is changed to. A header gets its sum.
type Byte = (usize, usize, u8);

/// The volume with file 12 of two clusters, 25 and 26, directory 14 of cluster 29, and header 13, a second one without a first one;
/// changes of it, and what is told: what is beyond repair, the sound files, and how many slots are freed.
const ROWS: [(&[Byte], &str); 22] = [
    (&[], "12 14 freed 1"),
    // header 13 is free; it is the first one of a file with cluster 27
    (&[(21, 8, 0)], "12 14 freed 0"),
    (&[(21, 4, 0)], "12 13 14 freed 0"),
    // header 12 is that of number 15, then no header at all
    (&[(20, 8, 15)], "14 freed 2"),
    (&[(20, 7, 1)], "14 freed 2"),
    // more blocks than its runs have, and a chain of two headers, of which the first has room
    (&[(20, 26, 6)], "14 freed 2"),
    (&[(20, 26, 6), (20, 14, 13), (20, 16, 1)], "14 freed 2"),
    // its run does not begin at a cluster, and is not inside the volume
    (&[(20, 202, 51)], "14 freed 2"),
    (&[(20, 202, 62)], "14 freed 2"),
    // it has the cluster of file 11, that of directory 14, and that of header 13, which is of no file
    (&[(20, 202, 48)], "14 freed 2"),
    (&[(20, 202, 56)], "freed 3"),
    (&[(20, 202, 52)], "12 14 freed 1"),
    // directory 14 has a mark, and its first block is no list
    (&[(22, 76, 1)], "12 freed 2"),
    (&[(58, 0, 1)], "12 freed 2"),
    // the home block, a header, a system file and the control block
    (&[(1, 496, 0)], "home: BadFormat"),
    (&[(11, 7, 1), (20, 7, 1)], "header 3: BadLevel"),
    (&[(13, 53, 0x80), (20, 7, 1)], "system file 5"),
    (&[(42, 1, 0)], "storage control block: BadLevel"),
    // runs of file 3, of 250 blocks
    (
        &[
            (11, 26, 250),
            (11, 30, 251),
            (11, 58, 2),
            (11, 200, 249),
            (11, 201, 0x40),
            (11, 202, 60),
        ],
        "runs of 3",
    ),
    // file 11 has the cluster of file 10; before it comes that of file 4, which file 12 has
    (&[(19, 202, 46), (20, 202, 44)], "shared cluster 23"),
    // a directory's size, behind findings of file 12
    (&[(19, 76, 1)], "directory 11: BadSize"),
    (&[(12, 76, 1), (20, 202, 62)], "directory 4: BadSize"),
];

/// The sound files of a volume, and how many slots are freed.
fn push_sound(
    alloc: Global,
    out: &mut Vec<u8>,
    home: &Home,
    blocks: &[Block],
) -> Result<(), NoMemory>
    requires { IsWithinLimits home.now }
{
    let sound = sound_files(alloc, home, blocks)?;
    let mut n = 0u32;
    for is_sound in sound.iter() {
        n = n.wrapping_add(1);
        if *is_sound {
            push_number(alloc, out, n)?;
            out.push(b' ')?;
        }
    }
    let kept = kept_slots(alloc, home, blocks, sound.as_slice())?;
    push_bytes(out, b"freed ")?;
    push_number(alloc, out, freed_slots(home, blocks, kept.as_slice()))
}

/// What is beyond repair, or the sound files and how many slots are freed.
fn told(alloc: Global, blocks: &[Block; 64]) -> Result<Vec<u8>, NoMemory> {
    let mut out = Vec::new(alloc);
    match first_beyond(alloc, blocks)? {
        Some(found) => push_finding(alloc, &mut out, &found)?,
        None => {
            if let Ok(home) = read_home(&blocks[1]) {
                push_sound(alloc, &mut out, &home, blocks)?;
            }
        }
    }
    Ok(out)
}

/// Whether this is told of the volume with these changes.
fn is_told(alloc: Global, bytes: &[Byte], text: &str) -> Result<bool, NoMemory> {
    let mut b = with_second();
    for (lbn, at, byte) in bytes {
        change(&mut b, *lbn, *at, *byte);
    }
    let told = told(alloc, &b)?;
    Ok(told.as_slice() == text.as_bytes())
}

#[test]
fn repair_is_told_what_is_sound(rt: HostRuntime) -> Result<(), Fail> {
    for (bytes, text) in &ROWS {
        let is_told = is_told(rt.alloc(), bytes, text)?;
        assert!(rt; is_told, "{text}");
    }
    Ok(())
}
