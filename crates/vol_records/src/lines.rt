//! Lines of bytes.
ghost use Rattle.std.specs.Prelude.{◌≡◌, ◌<◌, ◌≤◌, ◌++◌, ℕ, [], ◌∷◌, Some, None, Err, IfOk, OnOk, OnErr, length, slice_index_or};
ghost use Rattle.run_script.specs.Lines.{lines_of};
ghost use Rattle.vol_records.specs.Lines.{long_line};
ghost use Rattle.vol_records.specs.Records.{spelt};

use crate::LARGEST;
use crate::types::{LineFault, NoMemory, Rec};
use run_script::split_line;
use std::alloc::{AllocError, Global};
use std::marker::Model;

/// A list of lines of bytes, each of at most 32,767 bytes: as many as the count of a record can tell.
#[derive(Drop)]
pub struct Lines8 {
    // The lines, one behind the other, and where each stands in them; no count stands before it there.
    bytes: Vec<u8>,
    places: Vec<Rec>,
    // How many bytes their records take.
    spelt: usize,
}

impl Model for Lines8 {
    ghost use Rattle.std.specs.Prelude.{List, ℕ};

    ghost Value = { List (List ℕ) };

    ghost use Rattle.vol_records.specs.Records.{lines_at, AreLines};

    ghost view = { λ l. lines_at l.bytes.items l.places.items };

    ghost invariant = { λ l. AreLines l.bytes.items l.places.items l.spelt };
}

impl Lines8 {
    /// The lines of a text: each ends with a line feed, which the last may lack. A line has no line feed, and any other bytes.
    ///
    /// LineLong comes exactly where a line has more than 32,767 bytes, with the first such one, but for want of memory before.
    pub fn of_text(alloc: Global, text: &[u8]) -> Result<Lines8, LineFault>
        ensures ok { IfOk result (λ lines. lines ≡ lines_of text.now) }
        ensures short { OnOk result (long_line (lines_of text.now) ≡ None) }
        ensures long { (k : ℕ) → result ≡ Err (LineFault.LineLong k) → long_line (lines_of text.now) ≡ Some k }
    {
        let mut lines = Lines8::new(alloc);
        let mut rest = text;
        while let Some(split) = split_line(rest) {
            if split.line.len() > LARGEST {
                return Err(LineFault::LineLong(lines.len() + 1));
            }
            lines.push(split.line)?;
            rest = split.rest;
        }
        Ok(lines)
    }

    // No lines.
    fn new(alloc: Global) -> Self
        ensures { result ≡ [] }
    {
        Lines8 {
            bytes: Vec::new(alloc),
            places: Vec::new(alloc),
            spelt: 0,
        }
    }

    /// How many lines there are.
    pub fn len(&self) -> usize
        ensures { result ≡ length self.now }
    {
        self.places.len()
    }

    /// The line with this number, from 0 on.
    pub fn line(&self, i: usize) -> &[u8]
        requires { i < length self.now }
        ensures value { result.now ≡ slice_index_or self.now i [] }
        ensures short { length result.now ≤ 32767 }
    {
        let place = self.places[i];
        &self.bytes[place.from..place.from + place.len]
    }

    /// How many bytes the records of all lines take.
    pub fn spelt_len(&self) -> usize
        ensures { result ≡ length (spelt self.now) }
    {
        self.spelt
    }

    // Adds a line at the end. Want of memory leaves the lines as they were; it comes too where their records would take more
    // bytes than a `usize` can tell.
    fn push(&mut self, line: &[u8]) -> Result<(), NoMemory>
        requires { length line.now ≤ 32767 }
        ensures ok { OnOk result (self.new ≡ self.old ++ line.now ∷ []) }
        ensures err { OnErr result (self.new ≡ self.old) }
    {
        let room = 2 + line.len() + line.len() % 2;
        let Some(spelt) = self.spelt.checked_add(room) else {
            return Err(AllocError);
        };
        let place = Rec {
            from: self.bytes.len(),
            len: line.len(),
        };
        self.bytes.extend_from_slice(line)?;
        self.places.push(place)?;
        self.spelt = spelt;
        Ok(())
    }
}
