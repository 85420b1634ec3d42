//! Lines that are stored in a file, and what refuses them.

use crate::analyses::{block, header, sound};
use base_words::{Block, put_bytes, put_long, put_word, set_sum};
use blk_drive::{Fail, MemImage, Mirror};
use fx_header::{Slot, read_header, set_end, set_mark};
use plain_cat::NoMemory;
use std::alloc::{AllocError, Global};
use std::test::Fail as Failed;
use vol_analyze::accepted;
use vol_records::{Lines8, StoreFault, store, stream};
use vol_spell::{LbnList, file_lbns, read_fully};

/// The calls of an image of 64 blocks before the first write: it is asked for its size, and each block is read.
const READS: u64 = 65;

/// The entry of file 12, and that of file 13.
const ENTRIES: &[u8] = b"\x12\x00\xff\x7f\x00\x05X.TXT\x00\x01\x00\x0c\x00\x01\x00\x00\x00\
    \x12\x00\xff\x7f\x00\x05Y.TXT\x00\x01\x00\x0d\x00\x01\x00\x00\x00\xff\xff";

/// The header of a file with this mark, whose end is before its first byte.
fn empty(num: u16, lbn: u16, mark: u32) -> Block {
    let mut b = header(num, 1, 0, lbn, 2);
    set_mark(&mut b, mark);
    set_end(&mut b, 1, 0);
    b
}

/// The sound volume with file 12 of two blocks, LBN 50 and 51, in which nothing was written, and file 13 of two blocks with a mark of 2.
fn ready() -> [Block; 64] {
    let mut b = sound();
    put_bytes(&mut b[8], 1, &[0x1f]);
    b[20] = empty(12, 50, 1);
    b[21] = empty(13, 52, 2);
    b[43][3] = 0xf8;
    b[45] = block(ENTRIES);
    put_long(&mut b[46], 8, 67);
    b[50] = [b'A'; 512];
    b[51] = [b'B'; 512];
    b
}

/// The same, but that file 12 has two blocks more in front of the others, LBN 54 and 55.
fn parted() -> [Block; 64] {
    let mut b = ready();
    b[20][58] = 4;
    put_word(&mut b[20], 26, 4);
    put_word(&mut b[20], 202, 54);
    put_word(&mut b[20], 204, 0x4001);
    put_word(&mut b[20], 206, 50);
    set_sum(&mut b[20]);
    b[43][3] = 0xf0;
    put_long(&mut b[46], 8, 69);
    b
}

/// What a call came to, and what is on the image then.
#[derive(Drop)]
struct End {
    answer: Result<u32, StoreFault>,
    blocks: Vec<Block>,
}

/// Stores the lines of a text, on an image that fails at this call.
fn outcome(
    alloc: Global,
    blocks: &[Block],
    file: (u32, u16),
    text: &[u8],
    fail: Fail,
) -> Result<End, NoMemory> {
    let mut failing = Vec::new(alloc);
    failing.push(fail)?;
    let copy = Vec::from_slice(alloc, blocks)?;
    if copy.len() > 64 {
        return Err(AllocError);
    }
    let Ok(lines) = Lines8::of_text(alloc, text) else {
        return Err(AllocError);
    };
    let Ok(mut mirror) = Mirror::load(alloc, MemImage::new(copy, failing)) else {
        return Err(AllocError);
    };
    if mirror.size() != 64 {
        return Err(AllocError);
    }
    let Ok(_) = accepted(alloc, mirror.all())? else {
        return Err(AllocError);
    };
    let answer = store(alloc, &mut mirror, file.0, file.1, &lines);
    let image = mirror.into_image();
    let blocks = Vec::from_slice(alloc, image.all())?;
    Ok(End { answer, blocks })
}

/// The same on an image that does not fail.
fn whole(alloc: Global, blocks: &[Block], file: (u32, u16), text: &[u8]) -> Result<End, NoMemory> {
    let fail = Fail {
        call: 0,
        lands: false,
    };
    outcome(alloc, blocks, file, text, fail)
}

/// Whether it is refused so, and nothing is written.
fn is_refused(
    alloc: Global,
    file: (u32, u16),
    text: &[u8],
    fault: StoreFault,
) -> Result<bool, NoMemory> {
    let b = ready();
    let end = whole(alloc, &b, file, text)?;
    Ok(end.answer == Err(fault) && end.blocks.as_slice() == b.as_slice())
}

#[test]
fn the_first_refusal_is_told(rt: HostRuntime) -> Result<(), Failed> {
    let alloc = rt.alloc();
    let long = [b'x'; 1023];
    let cases: [((u32, u16), &[u8], StoreFault); 9] = [
        ((0, 1), b"", StoreFault::NoSuchFile),
        ((12, 2), b"", StoreFault::NoSuchFile),
        ((14, 1), b"", StoreFault::NoSuchFile),
        ((33, 1), b"", StoreFault::NoSuchFile),
        ((3, 3), long.as_slice(), StoreFault::NoPriv),
        ((4, 4), b"", StoreFault::NoPriv),
        ((11, 1), b"", StoreFault::NoPriv),
        ((13, 1), long.as_slice(), StoreFault::NotEmpty),
        ((12, 1), long.as_slice(), StoreFault::NoRoom),
    ];
    for (file, text, fault) in &cases {
        assert!(rt; is_refused(alloc, *file, text, *fault)?, "{file:?}");
    }
    Ok(())
}

/// The mark and the end of file 12.
fn sizes(blocks: &[Block]) -> Option<(u32, u32, u16)> {
    let head = blocks.get(20)?;
    match read_header(head) {
        Ok(Slot::Used(f)) => Some((f.mark, f.end, f.byte)),
        _ => None,
    }
}

/// Whether blocks are accepted, and file 12 has this stream.
fn has_stream(alloc: Global, blocks: &[Block], bytes: &[u8]) -> Result<bool, NoMemory> {
    if blocks.len() != 64 {
        return Ok(false);
    }
    let Ok(_) = accepted(alloc, blocks)? else {
        return Ok(false);
    };
    let Ok(_) = read_fully(alloc, blocks)? else {
        return Ok(false);
    };
    Ok(match stream(alloc, blocks, 12, 1)? {
        Some(found) => found.as_slice() == bytes,
        None => false,
    })
}

const TEXT: &[u8] = b"HELLO\nWORLD!\n";

/// The records of these lines.
const HELLO: &[u8] = b"\x05\x00HELLO\x00\x06\x00WORLD!";

#[test]
fn lines_are_stored(rt: HostRuntime) -> Result<(), Failed> {
    let alloc = rt.alloc();
    let mut want = ready();
    let end = whole(alloc, &want, (12, 1), TEXT)?;
    assert!(rt; end.answer == Ok(16), "they have 16 bytes");
    assert!(rt;
        has_stream(alloc, end.blocks.as_slice(), HELLO)?,
        "the stream is their records"
    );
    assert!(rt;
        sizes(end.blocks.as_slice()) == Some((2, 1, 16)),
        "one block is written, and the end is in it"
    );
    want[50] = block(HELLO);
    set_mark(&mut want[20], 2);
    set_end(&mut want[20], 1, 16);
    assert!(rt;
        end.blocks.as_slice() == want.as_slice(),
        "the block and the header are written, and no other"
    );
    let again = whole(alloc, end.blocks.as_slice(), (12, 1), TEXT)?;
    assert!(rt;
        again.answer == Err(StoreFault::NotEmpty),
        "nothing more is stored"
    );
    Ok(())
}

#[test]
fn no_lines_are_stored_by_the_header(rt: HostRuntime) -> Result<(), Failed> {
    let alloc = rt.alloc();
    let end = whole(alloc, &ready(), (12, 1), b"")?;
    assert!(rt; end.answer == Ok(0), "they have no bytes");
    assert!(rt;
        end.blocks.as_slice() == ready().as_slice(),
        "the mark is 1 as before, and so is the end"
    );
    Ok(())
}

#[test]
fn a_file_is_filled(rt: HostRuntime) -> Result<(), Failed> {
    let alloc = rt.alloc();
    let end = whole(alloc, &ready(), (12, 1), &[b'x'; 1022])?;
    assert!(rt; end.answer == Ok(1024), "all bytes of both blocks");
    assert!(rt;
        sizes(end.blocks.as_slice()) == Some((3, 3, 0)),
        "mark and end are behind the last block"
    );
    let half = whole(alloc, &ready(), (12, 1), &[b'x'; 510])?;
    assert!(rt; half.answer == Ok(512), "all bytes of the first block");
    assert!(rt;
        sizes(half.blocks.as_slice()) == Some((2, 2, 0)),
        "mark and end are behind the first block"
    );
    assert!(rt;
        half.blocks.as_slice().get(51) == Some(&[b'B'; 512]),
        "the second block is not written"
    );
    Ok(())
}

/// Whether a call that fails at a write leaves the old stream or the new one, and can be made again.
fn is_safe(alloc: Global, call: u64, lands: bool, stored: bool) -> Result<bool, NoMemory> {
    let text = [b'x'; 600];
    let fail = Fail { call, lands };
    let end = outcome(alloc, &ready(), (12, 1), &text, fail)?;
    let all = whole(alloc, &ready(), (12, 1), &text)?;
    if end.answer != Err(StoreFault::ImageFault) {
        return Ok(false);
    }
    if stored {
        return Ok(end.blocks.as_slice() == all.blocks.as_slice());
    }
    let again = whole(alloc, end.blocks.as_slice(), (12, 1), &text)?;
    Ok(
        has_stream(alloc, end.blocks.as_slice(), b"")?
            && again.blocks.as_slice() == all.blocks.as_slice(),
    )
}

#[test]
fn a_failed_write_leaves_an_accepted_volume(rt: HostRuntime) -> Result<(), Failed> {
    let alloc = rt.alloc();
    for k in 1..4 {
        assert!(rt;
            is_safe(alloc, READS + k, false, false)?,
            "write {k} does not land"
        );
        assert!(rt;
            is_safe(alloc, READS + k, true, k == 3)?,
            "write {k} fails and lands"
        );
    }
    Ok(())
}

/// The LBNs of the blocks of a file, or none where a fatal finding holds.
fn lbns_of(alloc: Global, b: &[Block; 64], n: u32) -> Result<Option<LbnList>, NoMemory> {
    match read_fully(alloc, b)? {
        Ok(_) => file_lbns(alloc, b, n),
        Err(_) => Ok(None),
    }
}

/// Whether the blocks of a file stand at these LBNs.
fn stands_at(alloc: Global, b: &[Block; 64], n: u32, lbns: &[u32]) -> Result<bool, NoMemory> {
    Ok(match lbns_of(alloc, b, n)? {
        Some(list) => list.items() == lbns,
        None => false,
    })
}

/// Files, and the LBNs of their blocks.
const PLACES: [(u32, &[u32]); 4] = [
    (12, &[54, 55, 50, 51]),
    (13, &[52, 53]),
    (3, &[]),
    (10, &[46, 47]),
];

#[test]
fn blocks_are_told_in_the_order_of_the_file(rt: HostRuntime) -> Result<(), Failed> {
    let alloc = rt.alloc();
    let b = parted();
    for (n, lbns) in &PLACES {
        assert!(rt; stands_at(alloc, &b, *n, lbns)?, "file {n}");
    }
    for n in [0, 14, 33] {
        assert!(rt; lbns_of(alloc, &b, n)?.is_none(), "no file {n}");
    }
    Ok(())
}

#[test]
fn blocks_are_written_in_the_order_of_the_file(rt: HostRuntime) -> Result<(), Failed> {
    let alloc = rt.alloc();
    let mut want = parted();
    let end = whole(alloc, &want, (12, 1), &[b'x'; 1100])?;
    assert!(rt; end.answer == Ok(1102), "two blocks and 78 bytes");
    want[54] = [b'x'; 512];
    want[54][0] = 0x4c;
    want[54][1] = 4;
    want[55] = [b'x'; 512];
    want[50] = block(&[b'x'; 78]);
    set_mark(&mut want[20], 4);
    set_end(&mut want[20], 3, 78);
    assert!(rt;
        end.blocks.as_slice() == want.as_slice(),
        "three blocks and the header are written, and no other"
    );
    Ok(())
}
