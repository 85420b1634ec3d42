//! Streams of files: their end, and zeros from the mark on.

use crate::analyses::{change, faulty};
use crate::chains::listed;
use base_words::Block;
use fx_header::{set_end, set_mark};
use plain_cat::NoMemory;
use std::alloc::Global;
use std::test::Fail;
use vol_records::stream;
use vol_spell::read_fully;

/// The stream of a file, or none where a fatal finding holds.
fn stream_of(
    alloc: Global,
    b: &[Block; 64],
    n: u32,
    seq: u16,
) -> Result<Option<Vec<u8>>, NoMemory> {
    match read_fully(alloc, b)? {
        Ok(_) => stream(alloc, b, n, seq),
        Err(_) => Ok(None),
    }
}

/// Whether the stream of a file is these bytes.
fn is_stream(
    alloc: Global,
    b: &[Block; 64],
    n: u32,
    seq: u16,
    bytes: &[u8],
) -> Result<bool, NoMemory> {
    Ok(match stream_of(alloc, b, n, seq)? {
        Some(found) => found.as_slice() == bytes,
        None => false,
    })
}

/// Whether there is no stream.
fn has_none(alloc: Global, b: &[Block; 64], n: u32, seq: u16) -> Result<bool, NoMemory> {
    Ok(stream_of(alloc, b, n, seq)?.is_none())
}

/// File 12 with a block of A and one of B, and with this mark and this end.
fn two_blocks(mark: u32, end: u32, byte: u16) -> [Block; 64] {
    let mut b = faulty();
    b[50] = [b'A'; 512];
    b[51] = [b'B'; 512];
    set_mark(&mut b[20], mark);
    set_end(&mut b[20], end, byte);
    b
}

/// Marks and ends of file 12, and of what its stream is made: so many of each byte, one behind the other.
const STREAMS: [(u32, u32, u16, &[(u8, usize)]); 8] = [
    (0, 3, 0, &[(b'A', 512), (b'B', 512)]),
    (3, 3, 0, &[(b'A', 512), (b'B', 512)]),
    (0, 2, 5, &[(b'A', 512), (b'B', 5)]),
    (2, 2, 5, &[(b'A', 512), (0, 5)]),
    (1, 1, 511, &[(0, 511)]),
    (0, 3, 9, &[(b'A', 512), (b'B', 512)]),
    (0, 1, 0, &[]),
    (0, 0, 9, &[]),
];

/// These bytes.
fn made_of(alloc: Global, parts: &[(u8, usize)]) -> Result<Vec<u8>, NoMemory> {
    let mut bytes = Vec::new(alloc);
    for (byte, count) in parts {
        for _ in 0..*count {
            bytes.push(*byte)?;
        }
    }
    Ok(bytes)
}

#[test]
fn streams_end_at_their_end_and_show_zeros_from_the_mark_on(rt: HostRuntime) -> Result<(), Fail> {
    let alloc = rt.alloc();
    for (mark, end, byte, parts) in &STREAMS {
        let b = two_blocks(*mark, *end, *byte);
        let want = made_of(alloc, parts)?;
        assert!(rt;
            is_stream(alloc, &b, 12, 1, &want)?,
            "mark {mark}, end {end} {byte}"
        );
    }
    Ok(())
}

/// Numbers and sequences under which no file is in use that has a stream: the second is a directory.
const NONE: [(u32, u16); 6] = [(12, 2), (4, 4), (0, 0), (17, 1), (33, 1), (0xffff_ffff, 1)];

#[test]
fn files_in_use_have_streams(rt: HostRuntime) -> Result<(), Fail> {
    let alloc = rt.alloc();
    let b = faulty();
    for (n, seq) in &NONE {
        assert!(rt; has_none(alloc, &b, *n, *seq)?, "{n} {seq}");
    }
    assert!(rt;
        is_stream(alloc, &b, 3, 3, b"")?,
        "a file without a block has an empty stream"
    );
    assert!(rt;
        is_stream(alloc, &b, 10, 1, b[46..48].as_flattened())?,
        "the stream of QUOTA.SYS is its rows"
    );
    Ok(())
}

/// A volume in which file 12 has two blocks, one of A and one of B. Its header lists two blocks more, each of C, and the end that it
/// says is in the third block.
fn with_surplus() -> [Block; 64] {
    let mut b = listed();
    b[50] = [b'A'; 512];
    b[51] = [b'B'; 512];
    b[52] = [b'C'; 512];
    b[53] = [b'C'; 512];
    set_end(&mut b[20], 3, 9);
    change(&mut b, 20, 26, 2);
    b
}

#[test]
fn what_is_listed_behind_the_blocks_is_in_no_stream(rt: HostRuntime) -> Result<(), Fail> {
    let alloc = rt.alloc();
    let want = made_of(alloc, &[(b'A', 512), (b'B', 512)])?;
    assert!(rt;
        is_stream(alloc, &with_surplus(), 12, 1, &want)?,
        "the stream ends with the last block of the file"
    );
    Ok(())
}
