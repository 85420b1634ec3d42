//! A file that is open, how many blocks it has, and those of them that are in memory.
ghost use Rattle.std.specs.Prelude.{◌≡◌, ◌<◌, ◌≤◌, ◌+◌, ◌-◌, ◌*◌, ◌/◌, ◌^◌, ◌++◌, ◌⊎◌, Some, length, take, min, slice_get, slice_set, slice_range, vec_len, IfOk, IfSome};
ghost use Rattle.std.specs.Bool.{OnTrue, OnFalse};
ghost use Rattle.blk_drive.specs.Images.{told_set};
ghost use Rattle.blk_files.specs.Files.{bytes_of, blocks_of, put_in};
ghost use Rattle.blk_files.specs.Noted.{bytes_known};

use crate::whole::{Whole, read_whole};
use crate::{ByteFile, Notes};
use base_words::Block;
use blk_drive::NoMemory;
use std::alloc::Global;
use std::marker::Model;
use std::mem;

// The blocks of the largest volume. A file of more is not read.
const MOST: u32 = 65_536;

/// The file, its number of blocks, those that are in memory, and notes of all its bytes if all were read.
#[derive(Drop)]
pub struct Opened<F: ByteFile> {
    file: F,
    size: u32,
    loaded: Vec<Block>,
    notes: Option<Notes>,
}

impl<F: ByteFile> Model for Opened<F> {
    ghost use Rattle.std.specs.Option.{ForSome};
    ghost use Rattle.blk_files.specs.Files.{Known, IsOver};
    ghost use Rattle.blk_files.specs.Noted.{bytes_noted, bytes_known};

    ghost Value = { Known F };

    ghost view = { λ o. record { file = o.file; size = o.size; held = bytes_noted o.notes } };

    ghost invariant = { λ o. ForSome (bytes_known (F.bytes o.file) o.notes) (IsOver o.size o.loaded.items) };
}

// How many blocks a file of so many bytes has. What is left behind the last one is none.
fn blocks_in(bytes: u64) -> u32
    ensures { result ≡ min (bytes / 512) (2 ^ 32 - 1) }
{
    u32::try_from(bytes / 512).unwrap_or(u32::MAX)
}

// Writes a block at an offset, and notes it.
fn write_noted<F: ByteFile>(file: &mut F, notes: &mut Option<Notes>, at: u64, b: &Block) -> bool
    requires { IfSome (F.bytes file.old) (λ f. at + 512 ≤ length f) }
    ensures ok { OnTrue result (bytes_known (F.bytes file.new) notes.new ≡ put_in (bytes_known (F.bytes file.old) notes.old) at b.now) }
    ensures whole { (bytes_known (F.bytes file.new) notes.new ≡ bytes_known (F.bytes file.old) notes.old)
        ⊎ (bytes_known (F.bytes file.new) notes.new ≡ put_in (bytes_known (F.bytes file.old) notes.old) at b.now) }
{
    if file.write_at(at, b).is_err() {
        return false;
    }
    if let Some(notes) = notes {
        notes.note(at, b);
    }
    true
}

// Sets a block, if it is in memory.
fn set_block(blocks: &mut Vec<Block>, lbn: u32, b: &Block)
    ensures { blocks.new.items ≡ slice_set blocks.old.items lbn b.now }
{
    if let Some(block) = blocks.get_mut(lbn as usize) {
        *block = *b;
    }
}

impl<F: ByteFile> Opened<F> {
    /// Reads a file. A file that does not tell its length is none.
    pub fn new(alloc: Global, mut file: F) -> Result<Option<Opened<F>>, NoMemory>
        ensures size { IfOk result (λ made. IfSome made (λ image. IfSome (F.bytes file) (λ f. image.size ≡ min (length f / 512) (2 ^ 32 - 1)))) }
        ensures bytes { IfOk result (λ made. IfSome made (λ image. F.bytes image.file ≡ F.bytes file)) }
        ensures held { IfOk result (λ made. IfSome made (λ image. IfSome (F.bytes file) (λ f. IfSome image.held (λ h. h ≡ take (512 * image.size) f)))) }
    {
        let Ok(bytes) = file.len() else {
            return Ok(None);
        };
        let size = blocks_in(bytes);
        if size <= MOST {
            if let Some(Whole { all, notes }) = read_whole(alloc, &mut file, size)? {
                return Ok(Some(Opened {
                    file,
                    size,
                    loaded: all,
                    notes: Some(notes),
                }));
            }
        }
        Ok(Some(Opened {
            file,
            size,
            loaded: Vec::new(alloc),
            notes: None,
        }))
    }

    /// How many blocks there are.
    pub fn size(&self) -> u32
        ensures { result ≡ self.now.size }
    {
        self.size
    }

    /// Copies a block, if it is in memory.
    pub fn read(&self, lbn: u32, b: &mut Block) -> bool
        requires { lbn < self.now.size }
        ensures { OnTrue result (IfSome (blocks_of F.bytes self.now) (λ blocks. slice_get blocks lbn ≡ Some b.new)) }
    {
        match self.loaded.as_slice().get(lbn as usize) {
            Some(block) => {
                *b = *block;
                true
            }
            None => false,
        }
    }

    // Appends so many blocks from an LBN on, if they are in memory.
    fn copy_onto(&self, lbn: u32, count: u32, all: &mut Vec<Block>) -> bool
        ensures blocks { OnTrue result (IfSome (blocks_of F.bytes self.now) (λ blocks. all.new.items ≡ all.old.items ++ slice_range blocks lbn (lbn + count))) }
        ensures count { OnTrue result (vec_len all.new ≡ vec_len all.old + count) }
    {
        let start = lbn as usize;
        match self.loaded.as_slice().get(start..start + count as usize) {
            Some(part) => match all.extend_from_slice(part) {
                Ok(()) => true,
                Err(_) => false,
            },
            None => false,
        }
    }

    /// Appends so many blocks from an LBN on, if they are in memory. Where these are all and the list is empty, they are handed over: the list
    /// has their memory, and no block is read after that.
    pub fn read_onto(&mut self, lbn: u32, count: u32, all: &mut Vec<Block>) -> bool
        requires { lbn + count ≤ self.old.size }
        ensures blocks { OnTrue result (IfSome (blocks_of F.bytes self.old) (λ blocks. all.new.items ≡ all.old.items ++ slice_range blocks lbn (lbn + count))) }
        ensures count { OnTrue result (vec_len all.new ≡ vec_len all.old + count) }
        ensures stays { self.new ≡ self.old }
    {
        if lbn == 0 && all.is_empty() && self.loaded.len() == count as usize {
            mem::swap(&mut self.loaded, all);
            return true;
        }
        self.copy_onto(lbn, count, all)
    }

    /// Writes a block to the file. After a write that failed no block is in memory.
    pub fn write(&mut self, lbn: u32, b: &Block) -> bool
        requires { lbn < self.old.size }
        ensures bytes { OnTrue result (bytes_of F.bytes self.new ≡ put_in (bytes_of F.bytes self.old) (512 * lbn) b.now) }
        ensures ok { OnTrue result (blocks_of F.bytes self.new ≡ told_set (blocks_of F.bytes self.old) lbn b.now) }
        ensures failed { OnFalse result ((blocks_of F.bytes self.new ≡ blocks_of F.bytes self.old)
            ⊎ (blocks_of F.bytes self.new ≡ told_set (blocks_of F.bytes self.old) lbn b.now)) }
        ensures size { self.new.size ≡ self.old.size }
    {
        let at = u64::from(lbn) * 512;
        if !write_noted(&mut self.file, &mut self.notes, at, b) {
            self.loaded.clear();
            return false;
        }
        set_block(&mut self.loaded, lbn, b);
        true
    }
}
