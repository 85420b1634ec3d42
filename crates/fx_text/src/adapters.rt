//! Sources and sinks over the readers and writers of std: files, standard input, standard output.
ghost use Rattle.std.specs.Prelude.{◌≡◌, ◌<◌, ◌≤◌, length, Some, None, IfOk, IsErr, IsNone};
ghost use Rattle.std.specs.Io.KnownBytes.{ReadConsumes, WriteAppends};
ghost use Rattle.base_words.specs.Faults.{HasCause};
ghost use Rattle.fx_text.specs.Streams.{told_by};

use crate::{OutFail, TextFail, TextIn, TextOut};
use std::io::{ErrorKind, Read, Write};
use std::marker::Model;

/// A source over a reader. It tells the bytes that the reader tells, so none for a file or standard input.
#[derive(Drop)]
pub struct StdIn<R: Read + Drop> {
    reader: Option<R>,
    faults: u64,
}

impl<R: Read + Drop> Model for StdIn<R> {
    ghost use Rattle.fx_text.specs.Streams.{Counted};
    ghost use Rattle.std.specs.Prelude.{Option};

    ghost Value = { Counted (Option R) };

    ghost view = { λ s. record { stream = s.reader; faults = s.faults } };
}

impl<R: Read + Drop> StdIn<R> {
    /// The source of what the reader gives.
    pub fn new(reader: R) -> StdIn<R>
        ensures { result ≡ record { stream = Some reader; faults = 0 } }
    {
        StdIn {
            reader: Some(reader),
            faults: 0,
        }
    }

    /// The source without a reader, as where a file could not be opened: each read of it fails.
    pub fn absent() -> StdIn<R>
        ensures { result ≡ record { stream = None; faults = 0 } }
    {
        StdIn {
            reader: None,
            faults: 0,
        }
    }
}

// One read, and again where a signal broke it off.
fn read_some<R: Read>(reader: &mut R, buf: &mut [u8]) -> Result<usize, TextFail>
    ensures count { IfOk result (λ n. n ≤ length buf.new) }
    ensures bytes { ReadConsumes (R.remaining reader.old) (R.remaining reader.new) result buf.new }
{
    for _ in 0..u64::MAX {
        match reader.read(buf) {
            Ok(n) => return Ok(n),
            Err(e) if e.kind() == ErrorKind::Interrupted => {}
            Err(_) => return Err(TextFail),
        }
    }
    Err(TextFail)
}

impl<R: Read + Drop> TextIn for StdIn<R> {
    ghost left = { λ s. told_by R.remaining s.stream };

    ghost faults = { λ s. s.faults };

    fn read(&mut self, buf: &mut [u8]) -> Result<usize, TextFail>
        ensures count { IfOk result (λ n. n ≤ length buf.new) }
        ensures bytes { ReadConsumes (told_by R.remaining self.old.stream) (told_by R.remaining self.new.stream) result buf.new }
        ensures cause { HasCause self.old.faults self.new.faults result }

        // Without a reader each read fails.
        ensures absent { IsNone self.old.stream → IsErr result × IsNone self.new.stream }
    {
        if let Some(reader) = &mut self.reader {
            if let Ok(n) = read_some(reader, buf) {
                return Ok(n);
            }
        }
        self.faults = self.faults.saturating_add(1);
        Err(TextFail)
    }
}

/// A sink over a writer. It tells the bytes that the writer tells, so none for standard output.
///
/// The writer has to pass its bytes on at once: what a buffer keeps back may fail later, and nobody would count it.
#[derive(Drop)]
pub struct StdOut<W: Write + Drop> {
    writer: W,
    faults: u64,
}

impl<W: Write + Drop> Model for StdOut<W> {
    ghost use Rattle.fx_text.specs.Streams.{Counted};

    ghost Value = { Counted W };

    ghost view = { λ s. record { stream = s.writer; faults = s.faults } };
}

impl<W: Write + Drop> StdOut<W> {
    /// The sink that hands what it takes to the writer.
    pub fn new(writer: W) -> StdOut<W>
        ensures { result ≡ record { stream = writer; faults = 0 } }
    {
        StdOut { writer, faults: 0 }
    }
}

// One write, and again where a signal broke it off.
fn write_some<W: Write>(writer: &mut W, piece: &[u8]) -> Result<usize, OutFail>
    ensures count { IfOk result (λ n. n ≤ length piece.now) }
    ensures bytes { WriteAppends (W.contents writer.old) (W.contents writer.new) result piece.now }
{
    for _ in 0..u64::MAX {
        match writer.write(piece) {
            Ok(n) => return Ok(n),
            Err(e) if e.kind() == ErrorKind::Interrupted => {}
            Err(_) => return Err(OutFail),
        }
    }
    Err(OutFail)
}

impl<W: Write + Drop> TextOut for StdOut<W> {
    ghost written = { λ s. W.contents s.stream };

    ghost faults = { λ s. s.faults };

    fn write(&mut self, piece: &[u8]) -> Result<usize, OutFail> {
        match write_some(&mut self.writer, piece) {
            Ok(n) if n > 0 || piece.is_empty() => Ok(n),
            _ => {
                self.faults = self.faults.saturating_add(1);
                Err(OutFail)
            }
        }
    }
}
