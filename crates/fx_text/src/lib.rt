//! Texts that come in and go out: the script, the report, and the words of the command line.
//!
//! `TextIn` gives bytes and `TextOut` takes them. `MemIn` and `MemOut` are in memory, `StdIn` and `StdOut` are over readers and
//! writers of std. A `Word` is a word of the command line.
//!
//! ```text
//! let text = read_all(alloc, &mut source, 10_000)?;
//! write_all(&mut sink, &text)?;
//! ```
//!
//! `read_all` gives all that was left, up to the end of input; `TooLong` comes only if more than the limit was left. `write_all`
//! has written all bytes after those that were there, or, after a fault, some first ones. A fault comes only if the count of
//! faults of the source or the sink rose in that call, or is at its last value.
//!
//! The top calls (`run_engine`, `clus_top`, `live_run`, `log_check`, `dlm_run`) read and write texts by it.
#![tactic(auto)]

ghost use Rattle.std.specs.Prelude.{◌<◌, ◌≤◌, ℕ, List, Option, length, IfOk};
ghost use Rattle.std.specs.Io.KnownBytes.{ReadConsumes, WriteAppends};
ghost use Rattle.base_words.specs.Faults.{HasCause};

mod adapters;
mod memory;
mod whole;
mod words;

pub use adapters::{StdIn, StdOut};
pub use memory::{MemIn, MemOut};
pub use whole::{OutFault, TextFault, read_all, write_all};
pub use words::{NoMemory, Word};

/// A read that failed: the source has counted it, and no byte is gone.
#[derive(Clone, Copy, Debug)]
pub struct TextFail;

/// A source of bytes.
///
/// Some sources tell which bytes are left; each counts its failed calls, in 64 bits and up to the last value.
pub trait TextIn: Drop {
    ghost left: { Self → Option (List ℕ) };

    ghost faults: { Self → ℕ };

    /// Moves the first bytes that are left to the front of the buffer, and answers how many. For a buffer that is not
    /// empty, 0 is the end of input.
    fn read(&mut self, buf: &mut [u8]) -> Result<usize, TextFail>
        ensures count { IfOk result (λ n. n ≤ length buf.new) }
        ensures bytes { ReadConsumes (left self.old) (left self.new) result buf.new }
        ensures cause { HasCause (faults self.old) (faults self.new) result };
}

/// A write that failed: the sink has counted it, and no byte was written.
#[derive(Clone, Copy, Debug)]
pub struct OutFail;

/// A sink of bytes.
///
/// Some sinks tell which bytes were written; each counts its failed calls, in 64 bits and up to the last value.
pub trait TextOut: Drop {
    ghost written: { Self → Option (List ℕ) };

    ghost faults: { Self → ℕ };

    /// Writes first bytes of the piece, at least one where the piece is not empty, and answers how many.
    fn write(&mut self, piece: &[u8]) -> Result<usize, OutFail>
        ensures count { IfOk result (λ n. n ≤ length piece.now) }
        ensures some { 0 < length piece.now → IfOk result (λ n. 0 < n) }
        ensures bytes { WriteAppends (written self.old) (written self.new) result piece.now }
        ensures cause { HasCause (faults self.old) (faults self.new) result };
}
