//! An image in memory, which fails at the calls that a list names.
ghost use Rattle.std.specs.Prelude.{◌≡◌, ◌<◌, ◌≤◌, ◌^◌, ◌⊎◌, ◌↔◌, length, slice_get, Some, IfOk, OnOk, OnErr, OnSome, IsErr, IsSome, refl};
ghost use Rattle.base_words.specs.Faults.{HasCause, Rose};
ghost use Rattle.blk_drive.specs.Images.{told_set};
ghost use Rattle.blk_drive.specs.Memory.{failure_at, failure, called, written};

use crate::{DevFault, ImageDev};
use base_words::Block;
use std::marker::Model;

/// A call that fails: its number, counted from 1, and whether a write that fails there is on the image all the same.
#[derive(Clone, Copy, Debug)]
pub struct Fail {
    pub call: u64,
    pub lands: bool,
}

/// An image in memory, of fewer than 2^32 blocks.
#[derive(Debug, Drop)]
pub struct MemImage {
    blocks: Vec<Block>,
    failing: Vec<Fail>,
    calls: u64,
    faults: u64,
    lost: u64,
}

impl Model for MemImage {
    ghost use Rattle.std.specs.Prelude.{◌<◌, ◌≤◌, ◌^◌, length};
    ghost use Rattle.blk_drive.specs.Memory.{Memory};

    ghost Value = { Memory };

    ghost view = { λ m. record { blocks = m.blocks.items; failing = m.failing.items; calls = m.calls; faults = m.faults; lost = m.lost } };

    ghost invariant = { λ m. length m.blocks.items < 2 ^ 32 };
}

// How the call of this number fails, if it does.
fn find_failure(failing: &[Fail], call: u64) -> Option<Fail>
    ensures { result ≡ failure_at failing.now call }
{
    for fail in failing {
        if fail.call == call {
            return Some(*fail);
        }
    }
    None
}

impl MemImage {
    /// An image of these blocks, which fails at these calls.
    pub fn new(blocks: Vec<Block>, failing: Vec<Fail>) -> MemImage
        requires { length blocks.items < 2 ^ 32 }
        ensures { result ≡ record { blocks = blocks.items; failing = failing.items; calls = 0; faults = 0; lost = 0 } }
    {
        MemImage {
            blocks,
            failing,
            calls: 0,
            faults: 0,
            lost: 0,
        }
    }

    /// All blocks, in order of LBN.
    pub fn all(&self) -> &[Block]
        ensures { result.now ≡ self.now.blocks }
    {
        self.blocks.as_slice()
    }

    // Counts a call, and says how it fails, if it does.
    fn next_failure(&mut self) -> Option<Fail>
        ensures failure { result ≡ failure self.old }
        ensures called { self.new ≡ called self.old }
        ensures later { self.old.faults ≤ self.new.faults }
        ensures rose { OnSome result (Rose self.old.faults self.new.faults) }
    {
        self.calls = self.calls.saturating_add(1);
        let fail = find_failure(&self.failing, self.calls);
        if fail.is_some() {
            self.faults = self.faults.saturating_add(1);
        }
        fail
    }
}

impl ImageDev for MemImage {
    ghost told = { λ m. Some m.blocks };

    ghost size = { λ m. length m.blocks };

    ghost faults = { λ m. m.faults };

    ghost lost = { λ m. m.lost };

    ghost counted = { λ m. refl };

    fn blocks(&mut self) -> Result<u32, DevFault>
        ensures answer { IfOk result (λ n. n ≡ length self.old.blocks) }
        ensures told { Some self.new.blocks ≡ Some self.old.blocks }
        ensures size { length self.new.blocks ≡ length self.old.blocks }
        ensures lost { self.new.lost ≡ self.old.lost }
        ensures cause { HasCause self.old.faults self.new.faults result }
        ensures fails { IsErr result ↔ IsSome (failure self.old) }
        ensures called { self.new ≡ called self.old }
    {
        match self.next_failure() {
            None => Ok(self.blocks.len() as u32),
            Some(_) => Err(DevFault),
        }
    }

    fn read_block(&mut self, lbn: u32, b: &mut [u8; 512]) -> Result<(), DevFault>
        requires { lbn < length self.old.blocks }
        ensures block { OnOk result (slice_get self.old.blocks lbn ≡ Some b.new) }
        ensures told { Some self.new.blocks ≡ Some self.old.blocks }
        ensures size { length self.new.blocks ≡ length self.old.blocks }
        ensures lost { self.new.lost ≡ self.old.lost }
        ensures cause { HasCause self.old.faults self.new.faults result }
        ensures fails { IsErr result ↔ IsSome (failure self.old) }
        ensures called { self.new ≡ called self.old }
    {
        match self.next_failure() {
            None => {
                *b = self.blocks[lbn as usize];
                Ok(())
            }
            Some(_) => Err(DevFault),
        }
    }

    fn read_onto(&mut self, lbn: u32, count: u32, all: &mut Vec<Block>) -> Result<(), DevFault> {
        let from = lbn as usize;
        for at in from..from + count as usize {
            if self.next_failure().is_some() {
                return Err(DevFault);
            }
            all.push_reserved(self.blocks[at]);
        }
        Ok(())
    }

    fn write_block(&mut self, lbn: u32, b: &[u8; 512]) -> Result<(), DevFault>
        requires { lbn < length self.old.blocks }
        ensures ok { OnOk result (Some self.new.blocks ≡ told_set (Some self.old.blocks) lbn b.now) }
        ensures failed { OnErr result ((Some self.new.blocks ≡ Some self.old.blocks) ⊎ (Some self.new.blocks ≡ told_set (Some self.old.blocks) lbn b.now)) }
        ensures size { length self.new.blocks ≡ length self.old.blocks }
        ensures cause { HasCause self.old.faults self.new.faults result }
        ensures kept { OnOk result (self.new.lost ≡ self.old.lost) }
        ensures lost { HasCause self.old.lost self.new.lost result }
        ensures fails { IsErr result ↔ IsSome (failure self.old) }
        ensures written { self.new ≡ written self.old lbn b.now }
    {
        match self.next_failure() {
            None => {
                self.blocks[lbn as usize] = *b;
                Ok(())
            }
            Some(fail) => {
                self.lost = self.lost.saturating_add(1);
                if fail.lands {
                    self.blocks[lbn as usize] = *b;
                }
                Err(DevFault)
            }
        }
    }
}
