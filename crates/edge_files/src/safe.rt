//! A sink that passes nothing on before the image is safe.
ghost use Rattle.std.specs.Prelude.{◌≡◌, ◌<◌, ◌≤◌, true, false, length, IfOk, IsErr, IsNone, OnOk};
ghost use Rattle.std.specs.Io.KnownBytes.{WriteAppends};
ghost use Rattle.base_words.specs.Faults.{HasCause};

use fx_text::{OutFail, TextOut};
use std::fs::OpenFile;
use std::marker::Model;

/// A sink over another. Before the first byte it asks the system to sync the file that it was given, if any.
///
/// If that sync fails, no byte is passed on, then or later: the system may have dropped what it could not write, and a second sync
/// would not say so.
#[derive(Drop)]
pub struct SafeOut<O: TextOut, F: OpenFile + Drop> {
    out: O,
    due: Option<F>,
    is_lost: bool,
    faults: u64,
}

impl<O: TextOut, F: OpenFile + Drop> Model for SafeOut<O, F> {
    ghost use Rattle.edge_files.specs.Safe.{Guarded};

    ghost Value = { Guarded O F };

    ghost view = { λ s. record { out = s.out; due = s.due; is_lost = s.is_lost; faults = s.faults } };
}

impl<O: TextOut, F: OpenFile + Drop> SafeOut<O, F> {
    /// The sink over this one. With a file, a sync of it is due.
    pub fn new(out: O, due: Option<F>) -> SafeOut<O, F>
        ensures { result ≡ record { out = out; due = due; is_lost = false; faults = 0 } }
    {
        SafeOut {
            out,
            due,
            is_lost: false,
            faults: 0,
        }
    }

    /// The sink below.
    pub fn into_inner(self) -> O
        ensures { result ≡ self.out }
    {
        self.out
    }

    // Makes the sync that is due. Answers whether none is due any more, and none has failed.
    fn is_safe(&mut self) -> bool
        ensures safe { result ≡ true → IsNone self.new.due × (self.new.is_lost ≡ false) }
        ensures lost { result ≡ false → self.new.is_lost ≡ true }
        ensures stays { self.old.is_lost ≡ true → self.new.is_lost ≡ true }
        ensures out { self.new.out ≡ self.old.out }
        ensures faults { self.new.faults ≡ self.old.faults }
    {
        if self.is_lost {
            return false;
        }
        if let Some(file) = &self.due {
            if file.sync_all().is_err() {
                self.is_lost = true;
                return false;
            }
        }
        self.due = None;
        true
    }
}

impl<O: TextOut, F: OpenFile + Drop> TextOut for SafeOut<O, F> {
    ghost written = { λ s. O.written s.out };

    ghost faults = { λ s. s.faults };

    fn write(&mut self, piece: &[u8]) -> Result<usize, OutFail>
        ensures count { IfOk result (λ n. n ≤ length piece.now) }
        ensures some { 0 < length piece.now → IfOk result (λ n. 0 < n) }
        ensures bytes { WriteAppends (O.written self.old.out) (O.written self.new.out) result piece.now }
        ensures cause { HasCause self.old.faults self.new.faults result }

        // What is passed on is passed on once no sync is due and none has failed.
        ensures safe { OnOk result (IsNone self.new.due × (self.new.is_lost ≡ false)) }

        // After a sync that failed nothing is passed on.
        ensures lost { self.old.is_lost ≡ true → IsErr result × (self.new.is_lost ≡ true) × (self.new.out ≡ self.old.out) }
        ensures kept { self.new.is_lost ≡ true → self.new.out ≡ self.old.out }
    {
        if self.is_safe() {
            if let Ok(n) = self.out.write(piece) {
                return Ok(n);
            }
        }
        self.faults = self.faults.saturating_add(1);
        Err(OutFail)
    }
}
