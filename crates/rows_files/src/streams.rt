//! The good records of streams as lines.

use plain_cat::NoMemory;
use std::alloc::Global;
use std::test::Fail;
use vol_show::front;

/// Whether the lines of a stream are these, and the first bad record is there.
fn is_front(
    alloc: Global,
    stream: &[u8],
    text: &[u8],
    bad: Option<usize>,
) -> Result<bool, NoMemory> {
    let found = front(alloc, stream)?;
    Ok(found.text.as_slice() == text && found.bad == bad)
}

/// Streams, their lines, and the byte of the first bad record.
const STREAMS: [(&[u8], &[u8], Option<usize>); 9] = [
    (b"", b"", None),
    (b"\x05\x00HELLO\x00", b"HELLO\n", None),
    (b"\x05\x00HELLO\x00\xff\xff", b"HELLO\n", Some(8)),
    // bytes stay as they are, a line feed too
    (b"\x00\x00\x02\x00\xff\x0a", b"\n\xff\n\n", None),
    // the end comes within a count, data, or padding
    (b"\x01", b"", Some(0)),
    (b"\x02\x00AB\x02\x00C", b"AB\n", Some(4)),
    (b"\x01\x00A", b"", Some(0)),
    // a count that is too large, and nothing is looked at behind it
    (b"\x00\x80", b"", Some(0)),
    (b"\x01\x00A\xff\x00\x80\x01\x00B\x00", b"A\n", Some(4)),
];

#[test]
fn good_records_come_out(rt: HostRuntime) -> Result<(), Fail> {
    let alloc = rt.alloc();
    for (stream, text, bad) in &STREAMS {
        assert!(rt; is_front(alloc, stream, text, *bad)?, "{stream:?}");
    }
    Ok(())
}
