//! Sources and sinks in memory, which fail at the calls that a list names.
ghost use Rattle.std.specs.Prelude.{◌≡◌, ◌-◌, ◌<◌, ◌≤◌, ◌⊎◌, ◌↔◌, [], min, length, Some, IfOk, IsErr, IsTrue, Contains};
ghost use Rattle.std.specs.Io.KnownBytes.{ReadConsumes, WriteAppends};
ghost use Rattle.base_words.specs.Faults.{HasCause};
ghost use Rattle.base_words.specs.Faults.{next};

use crate::{NoMemory, OutFail, TextFail, TextIn, TextOut};
use std::alloc::Global;
use std::io::Read;
use std::marker::Model;

// Counts a call, and says whether it is among those that fail.
fn count_call(calls: &mut u64, failing: &[u64]) -> bool
    ensures calls { calls.new ≡ next calls.old }
    ensures fails { IsTrue result ↔ Contains failing.now calls.new }
{
    *calls = calls.saturating_add(1);
    let call = *calls;
    failing.contains(&call)
}

/// A source in memory.
#[derive(Debug, Drop)]
pub struct MemIn {
    bytes: Vec<u8>,
    at: usize,
    failing: Vec<u64>,
    calls: u64,
    faults: u64,
}

impl Model for MemIn {
    ghost use Rattle.std.specs.Prelude.{◌≤◌, length, drop};
    ghost use Rattle.fx_text.specs.Memory.{Source};

    ghost Value = { Source };

    ghost view = { λ s. record { left = drop s.at s.bytes.items; failing = s.failing.items; calls = s.calls; faults = s.faults } };

    ghost invariant = { λ s. s.at ≤ length s.bytes.items };
}

impl MemIn {
    /// A source of these bytes. Its calls count from 1, and those that `failing` names fail.
    pub fn new(bytes: Vec<u8>, failing: Vec<u64>) -> MemIn
        ensures { result ≡ record { left = bytes.items; failing = failing.items; calls = 0; faults = 0 } }
    {
        MemIn {
            bytes,
            at: 0,
            failing,
            calls: 0,
            faults: 0,
        }
    }
}

impl TextIn for MemIn {
    ghost left = { λ s. Some s.left };

    ghost faults = { λ s. s.faults };

    fn read(&mut self, buf: &mut [u8]) -> Result<usize, TextFail>
        ensures count { IfOk result (λ n. n ≤ length buf.new) }
        ensures bytes { ReadConsumes (Some self.old.left) (Some self.new.left) result buf.new }
        ensures cause { HasCause self.old.faults self.new.faults result }

        // It fails at the calls that were named alone, and else gives all that the buffer takes.
        ensures fails { IsErr result ↔ Contains self.old.failing (next self.old.calls) }
        ensures all { IfOk result (λ n. n ≡ min (length buf.new) (length self.old.left)) }
        ensures calls { self.new.calls ≡ next self.old.calls }
        ensures failing { self.new.failing ≡ self.old.failing }
    {
        if count_call(&mut self.calls, &self.failing) {
            self.faults = self.faults.saturating_add(1);
            return Err(TextFail);
        }
        let mut left = &self.bytes[self.at..];
        let Ok(n) = left.read(buf) else {
            unreachable!()
        };
        self.at += n;
        Ok(n)
    }
}

/// A sink in memory, with room for so many bytes.
#[derive(Debug, Drop)]
pub struct MemOut {
    bytes: Vec<u8>,
    room: usize,
    failing: Vec<u64>,
    calls: u64,
    faults: u64,
}

impl Model for MemOut {
    ghost use Rattle.std.specs.Prelude.{◌≤◌, length, vec_capacity};
    ghost use Rattle.fx_text.specs.Memory.{Sink};

    ghost Value = { Sink };

    ghost view = { λ s. record { bytes = s.bytes.items; room = s.room; failing = s.failing.items; calls = s.calls; faults = s.faults } };

    ghost invariant = { λ s. (length s.bytes.items ≤ s.room) × (s.room ≤ vec_capacity s.bytes) };
}

impl MemOut {
    /// An empty sink whose room is reserved here. Its calls count from 1, and those that `failing` names fail.
    pub fn new(alloc: Global, room: usize, failing: Vec<u64>) -> Result<MemOut, NoMemory>
        ensures { IfOk result (λ sink. sink ≡ record { bytes = []; room = room; failing = failing.items; calls = 0; faults = 0 }) }
    {
        Ok(MemOut {
            bytes: Vec::with_capacity(alloc, room)?,
            room,
            failing,
            calls: 0,
            faults: 0,
        })
    }

    /// The bytes written so far.
    pub fn bytes(&self) -> &[u8]
        ensures { result.now ≡ self.now.bytes }
    {
        self.bytes.as_slice()
    }
}

impl TextOut for MemOut {
    ghost written = { λ s. Some s.bytes };

    ghost faults = { λ s. s.faults };

    fn write(&mut self, piece: &[u8]) -> Result<usize, OutFail>
        ensures count { IfOk result (λ n. n ≤ length piece.now) }
        ensures some { 0 < length piece.now → IfOk result (λ n. 0 < n) }
        ensures bytes { WriteAppends (Some self.old.bytes) (Some self.new.bytes) result piece.now }
        ensures cause { HasCause self.old.faults self.new.faults result }

        // It fails at the calls that were named and where there is no room, and else takes all for which there is room.
        ensures fails { IsErr result ↔ (Contains self.old.failing (next self.old.calls)
            ⊎ ((0 < length piece.now) × (self.old.room ≤ length self.old.bytes))) }
        ensures all { IfOk result (λ n. n ≡ min (length piece.now) (self.old.room - length self.old.bytes)) }
        ensures calls { self.new.calls ≡ next self.old.calls }
        ensures failing { self.new.failing ≡ self.old.failing }
        ensures room { self.new.room ≡ self.old.room }
    {
        let n = piece.len().min(self.room - self.bytes.len());
        if count_call(&mut self.calls, &self.failing) || (n == 0 && !piece.is_empty()) {
            self.faults = self.faults.saturating_add(1);
            return Err(OutFail);
        }
        let Ok(()) = self.bytes.extend_from_slice(&piece[..n]) else {
            unreachable!()
        };
        Ok(n)
    }
}
