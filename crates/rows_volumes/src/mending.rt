//! Mending of small volumes, with each write failing in turn.

use base_words::{Block, put_bytes, put_long, put_word, set_sum};
use blk_drive::{Fail, MemImage, Mirror};
use plain_cat::NoMemory;
use rows_sample::{SECOND, block, volume};
use std::alloc::{AllocError, Global};
use std::test::Fail as Failed;
use vol_analyze::analyze;
use vol_parts::Finding;
use vol_rebuild::{Mended, RebuildFault, rebuild};

/// The calls of an image of 64 blocks before the first write: it is asked for its size, and each block is read.
const READS: u64 = 65;

/// What a mending came to, and what is on the image then.
#[derive(Drop)]
struct End {
    answer: Result<Mended, RebuildFault>,
    blocks: Vec<Block>,
}

fn counts(entered: u32, removed: u32, gone: u32, clusters: u32, numbers: u32) -> Mended {
    Mended {
        entered,
        removed,
        gone,
        clusters,
        numbers,
    }
}

/// Mends the volume of these blocks, on an image that fails at this call.
fn outcome(alloc: Global, blocks: &[Block], fail: Fail) -> Result<End, NoMemory> {
    let mut failing = Vec::new(alloc);
    failing.push(fail)?;
    let copy = Vec::from_slice(alloc, blocks)?;
    if copy.len() > 64 {
        return Err(AllocError);
    }
    let Ok(mut mirror) = Mirror::load(alloc, MemImage::new(copy, failing)) else {
        return Err(AllocError);
    };
    let answer = rebuild(alloc, &mut mirror);
    let image = mirror.into_image();
    let blocks = Vec::from_slice(alloc, image.all())?;
    Ok(End { answer, blocks })
}

/// The same on an image that does not fail.
fn whole(alloc: Global, blocks: &[Block]) -> Result<End, NoMemory> {
    let fail = Fail {
        call: 0,
        lands: false,
    };
    outcome(alloc, blocks, fail)
}

/// Whether nothing is found in the blocks.
fn is_accepted(alloc: Global, blocks: &[Block]) -> Result<bool, NoMemory> {
    if blocks.len() != 64 {
        return Ok(false);
    }
    Ok(analyze(alloc, blocks)?.is_empty())
}

/// Whether mending does so much, and leaves a volume in which nothing is found.
fn is_mended(alloc: Global, blocks: &[Block], done: Mended) -> Result<bool, NoMemory> {
    let end = whole(alloc, blocks)?;
    let same = match &end.answer {
        Ok(found) => *found == done,
        Err(_) => false,
    };
    Ok(same && is_accepted(alloc, end.blocks.as_slice())?)
}

/// Whether a mending that fails at this call, if it comes so far, leaves the same when it is made again.
fn goes_on(alloc: Global, blocks: &[Block], fail: Fail, end: &[Block]) -> Result<bool, NoMemory> {
    let stopped = outcome(alloc, blocks, fail)?;
    match stopped.answer {
        Ok(_) => Ok(stopped.blocks.as_slice() == end),
        Err(RebuildFault::ImageFault) => {
            let again = whole(alloc, stopped.blocks.as_slice())?;
            Ok(again.answer.is_ok() && again.blocks.as_slice() == end)
        }
        Err(_) => Ok(false),
    }
}

/// Whether a mending that is stopped at any of its first eight writes leaves the same when it is made again.
fn always_goes_on(alloc: Global, blocks: &[Block]) -> Result<bool, NoMemory> {
    let end = whole(alloc, blocks)?;
    for k in 1..9 {
        let call = READS + k;
        for lands in [false, true] {
            let fail = Fail { call, lands };
            if !goes_on(alloc, blocks, fail, end.blocks.as_slice())? {
                return Ok(false);
            }
        }
    }
    Ok(true)
}

/// Whether mending does so much, leaves a volume in which nothing is found, and can be stopped anywhere.
fn is_put_right(alloc: Global, blocks: &[Block], done: Mended) -> Result<bool, NoMemory> {
    Ok(is_mended(alloc, blocks, done)? && always_goes_on(alloc, blocks)?)
}

#[test]
fn a_marked_file_goes(rt: HostRuntime) -> Result<(), Failed> {
    let alloc = rt.alloc();
    let mut b = volume();
    assert!(rt;
        is_put_right(alloc, &b, counts(0, 0, 1, 0, 0))?,
        "the marked file goes, and nothing else is done"
    );
    b[51] = block(b"\x12\x00\xff\x7f\x00\x05C.TXT\x00\x01\x00\x10\x00\x01\x00\x00\x00\xff\xff");
    b[23] = block(b"");
    assert!(rt;
        is_put_right(alloc, &b, counts(0, 1, 1, 0, 1))?,
        "the marked file goes with its entry, and a leaked number is free again"
    );
    Ok(())
}

#[test]
fn nothing_is_written_where_nothing_is_found(rt: HostRuntime) -> Result<(), Failed> {
    let alloc = rt.alloc();
    let sound = whole(alloc, &volume())?;
    let fail = Fail {
        call: READS + 1,
        lands: true,
    };
    let again = outcome(alloc, sound.blocks.as_slice(), fail)?;
    assert!(rt;
        again.answer.is_ok(),
        "a volume in order is mended without a write"
    );
    assert!(rt;
        again.blocks.as_slice() == sound.blocks.as_slice(),
        "a volume in order has the same blocks after a mending"
    );
    assert!(rt;
        is_mended(alloc, sound.blocks.as_slice(), counts(0, 0, 0, 0, 0))?,
        "the counts of a mending are 0 where nothing is found"
    );
    Ok(())
}

/// Whether a volume is not mended, for this reason, and nothing is written.
fn is_refused(alloc: Global, blocks: &[Block], n: u32) -> Result<bool, NoMemory> {
    let fail = Fail {
        call: READS + 1,
        lands: true,
    };
    let end = outcome(alloc, blocks, fail)?;
    let told = match end.answer {
        Err(RebuildFault::NotMendable(Finding::WrongNumber(found))) => found == n,
        Err(RebuildFault::NotMendable(Finding::NoRoom(found))) => found == n,
        _ => false,
    };
    Ok(told && end.blocks.as_slice() == blocks)
}

#[test]
fn a_fatal_finding_is_told(rt: HostRuntime) -> Result<(), Failed> {
    let alloc = rt.alloc();
    let mut b = volume();
    b[23] = b[21];
    assert!(rt;
        is_refused(alloc, &b, 15)?,
        "the wrong number in header 15 is told, and nothing is written"
    );
    Ok(())
}

/// [SYSLOST] has the last version of the name for file 13, which is in no directory.
fn last_version() -> [Block; 64] {
    let mut b = volume();
    b[48] = block(b"\x16\x00\xff\x7f\x00\x0aF00013.LST\xff\x7f\x0f\x00\x02\x00\x00\x00\xff\xff");
    b[50] = block(b"\x12\x00\xff\x7f\x00\x05A.TXT\x00\x01\x00\x0e\x00\x01\x00\x00\x00\xff\xff");
    b[51] = block(b"\xff\xff");
    b
}

/// Nothing was written to file 13.
fn put_empty(b: &mut [Block; 64]) {
    put_long(&mut b[21], 76, 1);
    set_sum(&mut b[21]);
}

#[test]
fn the_last_version_is_taken(rt: HostRuntime) -> Result<(), Failed> {
    let alloc = rt.alloc();
    let mut b = last_version();
    assert!(rt;
        is_refused(alloc, &b, 13)?,
        "file 13 has no room in [SYSLOST], and nothing is written"
    );
    put_empty(&mut b);
    assert!(rt;
        is_put_right(alloc, &b, counts(0, 0, 2, 0, 0))?,
        "file 13, which is empty, goes with the marked file"
    );
    Ok(())
}

/// Five entries of long names, of the files from this number on.
fn five(num: u8, letter: u8) -> Block {
    let mut b = block(b"");
    for i in 0..5u8 {
        let at = 94 * usize::from(i);
        put_bytes(&mut b, at, b"\x5c\x00\xff\x7f\x00\x4f");
        put_bytes(&mut b, at + 6, &[letter.wrapping_add(i); 79]);
        put_bytes(&mut b, at + 45, b".");
        put_bytes(&mut b, at + 86, &[1, 0, num.wrapping_add(i), 0, 1, 0]);
    }
    put_bytes(&mut b, 470, b"\xff\xff");
    b
}

/// The header of an empty file of number 17 to 26.
fn small_header(old: &Block, num: u16) -> Block {
    let mut b = *old;
    put_word(&mut b, 8, num);
    set_sum(&mut b);
    b
}

/// [SYSLOST] has room for one entry more, and the files 13 and 14 are in no directory. Nothing was written to the first.
fn full() -> [Block; 64] {
    let mut b = volume();
    put_empty(&mut b);
    let header = b[21];
    for n in 17..27u16 {
        b[usize::from(n) + 8] = small_header(&header, n);
    }
    put_bytes(&mut b[8], 2, &[0xff, 3]);
    b[48] = five(17, b'G');
    b[49] = five(22, b'L');
    b[50] = block(SECOND);
    b[51] = block(b"\xff\xff");
    b
}

#[test]
fn the_last_room_is_for_what_was_written(rt: HostRuntime) -> Result<(), Failed> {
    let alloc = rt.alloc();
    assert!(rt;
        is_put_right(alloc, &full(), counts(1, 0, 2, 0, 0))?,
        "file 14 takes the last room in [SYSLOST], and the empty file 13 goes"
    );
    Ok(())
}

/// The directory of number 12 is in no directory, and has a second entry of the master file directory.
fn loose() -> [Block; 64] {
    let mut b = volume();
    b[45] = block(b"\xff\xff");
    b[50] = block(SECOND);
    b[51] = block(b"\x12\x00\xff\x7f\x00\x05M.DIR\x00\x01\x00\x04\x00\x04\x00\x00\x00\xff\xff");
    b
}

#[test]
fn a_lost_directory_leads_nowhere(rt: HostRuntime) -> Result<(), Failed> {
    let alloc = rt.alloc();
    assert!(rt;
        is_put_right(alloc, &loose(), counts(3, 1, 1, 0, 0))?,
        "three lost files are entered, and a second entry goes"
    );
    Ok(())
}

/// File 13 has two entries in the master file directory, before that in the directory of number 12, and file 15 has two there.
fn thrice() -> [Block; 64] {
    let mut b = volume();
    b[45] = block(
        b"\x12\x00\xff\x7f\x00\x05X.TXT\x00\x01\x00\x0d\x00\x01\x00\x00\x00\
        \x12\x00\xff\x7f\x00\x05Y.TXT\x00\x01\x00\x0d\x00\x01\x00\x00\x00\
        \x12\x00\xff\x7f\x00\x05Z.DIR\x00\x01\x00\x0c\x00\x01\x00\x00\x00\xff\xff",
    );
    b[51] = block(
        b"\x12\x00\xff\x7f\x00\x05B.DAT\x00\x01\x00\x0f\x00\x02\x00\x00\x00\
        \x12\x00\xff\x7f\x00\x05C.DAT\x00\x01\x00\x0f\x00\x02\x00\x00\x00\xff\xff",
    );
    b
}

#[test]
fn second_entries_go(rt: HostRuntime) -> Result<(), Failed> {
    let alloc = rt.alloc();
    assert!(rt;
        is_put_right(alloc, &thrice(), counts(0, 3, 1, 0, 0))?,
        "each file keeps one entry, and three others go"
    );
    Ok(())
}

#[test]
fn doubles_are_packed_away(rt: HostRuntime) -> Result<(), Failed> {
    let alloc = rt.alloc();
    let mut b = volume();
    b[51] = block(
        b"\x12\x00\xff\x7f\x00\x05A.TXT\x00\x01\x00\x0e\x00\x01\x00\x00\x00\
        \x12\x00\xff\x7f\x00\x05B.DAT\x00\x01\x00\x0f\x00\x02\x00\x00\x00\xff\xff",
    );
    assert!(rt;
        is_put_right(alloc, &b, counts(0, 0, 1, 0, 0))?,
        "an entry in two blocks is packed into one"
    );
    Ok(())
}

#[test]
fn leaks_and_usages_are_put_right(rt: HostRuntime) -> Result<(), Failed> {
    let alloc = rt.alloc();
    let mut b = volume();
    b[43][3] = 0xd0;
    b[8][2] = 0x14;
    put_long(&mut b[46], 40, 1000);
    assert!(rt;
        is_put_right(alloc, &b, counts(0, 0, 1, 2, 2))?,
        "two leaked clusters, two leaked numbers and a usage are put right"
    );
    Ok(())
}

/// File 14 has no block left, but its header lists two; file 15 has a link behind its last block; and the header in slot 17 is no first
/// one, and no file's.
fn tailed() -> [Block; 64] {
    let mut b = volume();
    put_word(&mut b[22], 26, 0);
    put_long(&mut b[22], 76, 1);
    set_sum(&mut b[22]);
    put_word(&mut b[23], 14, 13);
    put_word(&mut b[23], 16, 1);
    set_sum(&mut b[23]);
    let first = b[21];
    let mut further = small_header(&first, 17);
    put_word(&mut further, 4, 1);
    set_sum(&mut further);
    b[25] = further;
    b[8][2] = 1;
    b
}

#[test]
fn surplus_and_stray_headers_go(rt: HostRuntime) -> Result<(), Failed> {
    let alloc = rt.alloc();
    assert!(rt;
        is_put_right(alloc, &tailed(), counts(0, 0, 1, 1, 1))?,
        "two headers are cut, and a stray one goes"
    );
    Ok(())
}
