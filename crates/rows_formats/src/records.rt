//! Streams of variable-length records, byte for byte, and the texts whose lines they are.

use std::alloc::Global;
use std::test::Fail;
use vol_records::{LineFault, Lines8, NoMemory, Rec, RecFault, push_records, records, spell};

/// What a stream is read as: where the data of its records stand, or its fault.
type Seen = Result<&'static [Rec], RecFault>;

const STREAMS: [(&[u8], Seen); 17] = [
    (b"", Ok(&[])),
    (b"\0\0", Ok(&[Rec { from: 2, len: 0 }])),
    (b"\x02\0AB", Ok(&[Rec { from: 2, len: 2 }])),
    // The padding of an odd record is not looked at.
    (b"\x01\0A\0", Ok(&[Rec { from: 2, len: 1 }])),
    (b"\x01\0A\xff", Ok(&[Rec { from: 2, len: 1 }])),
    (
        b"\x05\0HELLO\0\x06\0WORLD!",
        Ok(&[Rec { from: 2, len: 5 }, Rec { from: 10, len: 6 }]),
    ),
    (
        b"\x03\0\x0d\0\xff\0\0\0",
        Ok(&[Rec { from: 2, len: 3 }, Rec { from: 8, len: 0 }]),
    ),
    // The end within a count, within data, and before the padding.
    (b"\x05", Err(RecFault::Truncated(0))),
    (b"\x02\0A", Err(RecFault::Truncated(0))),
    (b"\x01\0A", Err(RecFault::Truncated(0))),
    (b"\x01\0A\0\x01", Err(RecFault::Truncated(4))),
    (b"\x01\0A\0\x02\0B", Err(RecFault::Truncated(4))),
    // 32,767 is a count, 32,768 is none.
    (b"\xff\x7f", Err(RecFault::Truncated(0))),
    (b"\0\x80", Err(RecFault::BadCount(0))),
    (b"\x02\0AB\xff\xffA", Err(RecFault::BadCount(4))),
    // A text that is no stream has the count 17,736.
    (b"HELLO", Err(RecFault::Truncated(0))),
    // The first fault in the order of the bytes.
    (b"\0\0\0\x80\x05", Err(RecFault::BadCount(2))),
];

fn is_read(alloc: Global, stream: &[u8], want: Seen) -> bool {
    match records(alloc, stream) {
        Ok(places) => want == Ok(places.as_slice()),
        Err(fault) => want == Err(fault),
    }
}

#[test]
fn streams_are_read(rt: HostRuntime) {
    for (stream, want) in STREAMS {
        assert!(rt; is_read(rt.alloc(), stream, want), "{stream:?}");
    }
}

/// Texts, and the streams of their lines.
const TEXTS: [(&[u8], &[u8]); 7] = [
    (b"", b""),
    (b"\n", b"\0\0"),
    (b"HELLO\nWORLD!", b"\x05\0HELLO\0\x06\0WORLD!"),
    (b"HELLO\nWORLD!\n", b"\x05\0HELLO\0\x06\0WORLD!"),
    (b"A\n\nBC", b"\x01\0A\0\0\0\x02\0BC"),
    (b"\n\n", b"\0\0\0\0"),
    (b"\x0d\0\xff\n\x0d\n", b"\x03\0\x0d\0\xff\0\x01\0\x0d\0"),
];

// The data of the records of a stream, each with a line feed behind it, or nothing of a stream with a fault.
fn text_of(alloc: Global, stream: &[u8]) -> Result<Vec<u8>, NoMemory> {
    let mut text = Vec::new(alloc);
    for place in records(alloc, stream).unwrap_or(Vec::new(alloc)) {
        let data = stream
            .get(place.from..)
            .and_then(|rest| rest.get(..place.len));
        text.extend_from_slice(data.unwrap_or(b""))?;
        text.push(b'\n')?;
    }
    Ok(text)
}

#[test]
fn texts_are_spelt_and_read_back(rt: HostRuntime) -> Result<(), Fail> {
    for (text, want) in TEXTS {
        let lines = Lines8::of_text(rt.alloc(), text).map_err(|_| "no lines")?;
        assert_eq!(rt; lines.spelt_len(), want.len(), "{text:?}");
        let stream = spell(rt.alloc(), &lines)?;
        assert_eq!(rt; stream.as_slice(), want);
        let again = text_of(rt.alloc(), &stream)?;
        assert!(rt; again.starts_with(text), "{text:?}");
        assert!(rt; again.len() <= text.len() + 1, "{text:?}");
    }
    Ok(())
}

/// Streams, and the texts of their records.
const PRINTED: [(&[u8], &[u8]); 3] = [
    (b"", b"0 records\n"),
    (b"\x05\0HELLO\0\x06\0WORLD!", b"HELLO\nWORLD!\n2 records\n"),
    (
        b"\x05\0 ~\x1f\x7f\xff\0\0\0\x02\0\n\x0d",
        b" ~...\n\n..\n3 records\n",
    ),
];

#[test]
fn records_are_printed(rt: HostRuntime) -> Result<(), Fail> {
    for (stream, want) in PRINTED {
        let places = records(rt.alloc(), stream).map_err(|_| "no records")?;
        let mut text = Vec::new(rt.alloc());
        push_records(rt.alloc(), &mut text, stream, &places)?;
        assert_eq!(rt; text.as_slice(), want);
    }
    Ok(())
}

#[test]
fn largest_line_has_32767_bytes(rt: HostRuntime) -> Result<(), Fail> {
    let mut text = vec![in rt.alloc(); b'x'; 32_767]?;
    let lines = Lines8::of_text(rt.alloc(), &text).map_err(|_| "no lines")?;
    assert_eq!(rt; (lines.len(), lines.spelt_len()), (1, 32_770));
    let stream = spell(rt.alloc(), &lines)?;
    assert!(rt;
        stream.starts_with(b"\xff\x7fx") && stream.ends_with(b"x\0"),
        "its count and its padding"
    );
    let whole = Ok([Rec {
        from: 2,
        len: 32_767,
    }]
    .as_slice());
    assert!(rt; is_read(rt.alloc(), &stream, whole), "whole");
    let cut = stream.get(..32_769).unwrap_or(b"");
    assert!(rt;
        is_read(rt.alloc(), cut, Err(RecFault::Truncated(0))),
        "without its padding"
    );
    text.push(b'x')?;
    assert_eq!(rt;
        Lines8::of_text(rt.alloc(), &text).err(),
        Some(LineFault::LineLong(1))
    );
    let mut second = Vec::from_slice(rt.alloc(), b"A\n\n")?;
    second.extend_from_slice(&text)?;
    assert_eq!(rt;
        Lines8::of_text(rt.alloc(), &second).err(),
        Some(LineFault::LineLong(3))
    );
    Ok(())
}
