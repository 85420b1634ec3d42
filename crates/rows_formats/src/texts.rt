//! Sources and sinks of text, with calls that fail or take a part.

use fx_text::{
    MemIn, MemOut, NoMemory, StdIn, StdOut, TextFault, TextIn, Word, read_all, write_all,
};
use std::alloc::Global;
use std::fs::File;
use std::io::{ErrorKind, Read, Write};
use std::test::Fail;
use std::{env, fs, io, process};

// A text of so many bytes, each unlike its neighbours.
fn text_of(alloc: Global, len: usize) -> Result<Vec<u8>, NoMemory> {
    (0..len).map(|i| (i % 251) as u8).collect(alloc)
}

#[test]
fn reads_from_memory(rt: HostRuntime) -> Result<(), Fail> {
    // The bytes, the limit, the call that fails, and the answer: that the text came whole, or the fault.
    let rows = [
        (0, 0, 0, Ok(true)),
        (10_000, 10_000, 0, Ok(true)),
        (10_001, 10_000, 0, Err(TextFault::TooLong)),
        (1, 0, 0, Err(TextFault::TooLong)),
        (10_000, 10_000, 1, Err(TextFault::ReadFault)),
        (10_000, 10_000, 4, Err(TextFault::ReadFault)),
        (10_000, 10_000, 5, Ok(true)),
    ];
    for (len, limit, failing, want) in rows {
        let text = text_of(rt.alloc(), len)?;
        let mut source = MemIn::new(text.clone()?, vec![in rt.alloc(); failing]?);
        let answer = read_all(rt.alloc(), &mut source, limit);
        let whole = answer.map(|all| all.as_slice() == text.as_slice());
        assert_eq!(rt; whole, want, "{len} bytes, limit {limit}, call {failing}");
    }
    Ok(())
}

#[test]
fn writes_to_memory(rt: HostRuntime) -> Result<(), Fail> {
    // The room, the call that fails, whether all is written, and what is written.
    let rows = [
        (8, 0, true, b"eight it".as_slice()),
        (9, 0, true, b"eight it".as_slice()),
        (5, 0, false, b"eight".as_slice()),
        (0, 0, false, b"".as_slice()),
        (8, 1, false, b"".as_slice()),
    ];
    for (room, failing, is_whole, want) in rows {
        let mut sink = MemOut::new(rt.alloc(), room, vec![in rt.alloc(); failing]?)?;
        let answer = write_all(&mut sink, b"eight it");
        assert_eq!(rt; answer.is_ok(), is_whole, "room {room}, call {failing}");
        assert_eq!(rt; sink.bytes(), want);
    }
    Ok(())
}

// A reader that a signal breaks off, that gives two bytes, and then fails.
#[derive(Drop)]
struct Failing {
    reads: u8,
}

impl Read for Failing {
    fn read(&mut self, buf: &mut [u8]) -> io::Result<usize> {
        self.reads = self.reads.saturating_add(1);
        match self.reads {
            1 => Err(io::Error::from(ErrorKind::Interrupted)),
            2 if buf.len() > 1 => {
                buf[..2].copy_from_slice(b"ab");
                Ok(2)
            }
            _ => Err(io::Error::from(ErrorKind::Other)),
        }
    }
}

#[test]
fn reads_through_failures(rt: HostRuntime) -> Result<(), Fail> {
    let mut source = StdIn::new(Failing { reads: 0 });
    let mut buf = [0; 4];
    assert_eq!(rt; source.read(&mut buf).ok(), Some(2));
    assert_eq!(rt; buf, *b"ab\0\0");
    let answer = read_all(rt.alloc(), &mut source, 9).map(|all| all.len());
    assert_eq!(rt; answer, Err(TextFault::ReadFault));
    let mut absent = StdIn::<File>::absent();
    let answer = read_all(rt.alloc(), &mut absent, 9).map(|all| all.len());
    assert_eq!(rt; answer, Err(TextFault::ReadFault));
    Ok(())
}

// A writer whose first write fails in this way. It then takes five bytes of the eight, and the three that are left.
#[derive(Drop)]
struct FailsOnce {
    kind: ErrorKind,
    writes: u8,
}

impl Write for FailsOnce {
    fn write(&mut self, piece: &[u8]) -> io::Result<usize> {
        self.writes = self.writes.saturating_add(1);
        match self.writes {
            2 if piece.len() == 8 => Ok(5),
            3 if piece.len() == 3 => Ok(3),
            1 => Err(io::Error::from(self.kind)),
            _ => Err(io::Error::from(ErrorKind::Other)),
        }
    }

    fn flush(&mut self) -> io::Result<()> {
        Ok(())
    }
}

// Whether the text is written by a sink whose first write fails in this way.
fn is_written_past(kind: ErrorKind) -> bool {
    let mut sink = StdOut::new(FailsOnce { kind, writes: 0 });
    write_all(&mut sink, b"eight it").is_ok()
}

#[test]
fn writes_through_a_signal_alone(rt: HostRuntime) {
    // A signal has the same bytes written again. A full disk, a closed pipe and others end the text.
    assert!(rt;
        is_written_past(ErrorKind::Interrupted),
        "a write that a signal breaks off is made again"
    );
    for kind in [
        ErrorKind::StorageFull,
        ErrorKind::BrokenPipe,
        ErrorKind::WouldBlock,
        ErrorKind::WriteZero,
        ErrorKind::Other,
    ] {
        assert!(rt; !is_written_past(kind), "{kind:?}");
    }
}

#[test]
fn moves_a_file(rt: HostRuntime) -> Result<(), Fail> {
    let name = format!(in rt.alloc(); "fx_text-{}", process::id(rt.process()))?;
    let path = env::temp_dir(&rt)?.join(rt.alloc(), name.as_str())?;
    let text = text_of(rt.alloc(), 10_000)?;
    let written = write_all(&mut StdOut::new(File::create(&rt, path.as_path())?), &text);
    let mut source = StdIn::new(File::open(&rt, path.as_path())?);
    let read = read_all(rt.alloc(), &mut source, 10_000);
    fs::remove_file(&rt, path.as_path())?;
    assert!(rt; written.is_ok(), "the text is written to the file");
    let all = read.map_err(|_| "unread")?;
    assert_eq!(rt; all.as_slice(), text.as_slice());
    Ok(())
}

#[test]
fn keeps_a_word(rt: HostRuntime) -> Result<(), Fail> {
    let word = Word::new(rt.alloc(), b"R1")?;
    assert_eq!(rt; word.bytes(), b"R1".as_slice());
    Ok(())
}
