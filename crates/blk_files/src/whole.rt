//! All blocks of a file, read piece by piece.
ghost use Rattle.std.specs.Prelude.{◌≡◌, ◌+◌, ◌*◌, ◌/◌, ◌++◌, length, IfOk, IfSome, OnOk};
ghost use Rattle.std.specs.Bool.{OnTrue};
ghost use Rattle.std.specs.Simd.{first_chunks};
ghost use Rattle.base_words.specs.Fields.{put};
ghost use Rattle.blk_files.specs.Reading.{IsRead};

use crate::{ByteFile, FileFail, Notes};
use base_words::Block;
use blk_drive::NoMemory;
use std::alloc::Global;

// The blocks of a piece.
const PIECE: u32 = 256;

// The bytes of a piece: 128 KiB.
const PIECE_BYTES: usize = 131_072;

// The blocks that are copied in one go.
const AT_ONCE: usize = 16;

/// The blocks of a file, and notes of their bytes.
#[derive(Drop)]
pub struct Whole {
    pub all: Vec<Block>,
    pub notes: Notes,
}

// Appends blocks.
fn append(blocks: &mut Vec<Block>, more: &[Block]) -> Result<(), NoMemory>
    ensures { OnOk result (blocks.new.items ≡ blocks.old.items ++ more.now) }
{
    let mut at = 0;
    while at < more.len() {
        let end = more.len().min(at + AT_ONCE);
        blocks.extend_from_slice(&more[at..end])?;
        at = end;
    }
    Ok(())
}

impl Whole {
    // Takes the blocks that were read at an offset.
    fn add(&mut self, at: u64, bytes: &[u8]) -> Result<(), NoMemory>
        ensures blocks { OnOk result (self.new.all.items ≡ self.old.all.items ++ first_chunks 512 (length bytes.now / 512) bytes.now) }
        ensures notes { OnOk result (self.new.notes.bytes ≡ put self.old.notes.bytes at bytes.now) }
    {
        self.notes.note(at, bytes);
        append(&mut self.all, bytes.as_chunks::<512>().0)
    }
}

// Reads as many blocks from an LBN on as the piece has bytes for. Answers whether the read was made.
fn read_piece<F: ByteFile>(
    file: &mut F,
    lbn: u32,
    piece: &mut [u8],
    whole: &mut Whole,
) -> Result<bool, NoMemory>
    requires blocks { length piece.old ≡ length piece.old / 512 * 512 }
    requires read { IsRead lbn (F.bytes file.old) whole.old.notes.bytes whole.old.all.items }
    ensures read { IfOk result (λ made. OnTrue made (IsRead (lbn + length piece.old / 512) (F.bytes file.old) whole.new.notes.bytes whole.new.all.items)) }
    ensures stays { F.bytes file.new ≡ F.bytes file.old }
{
    let at = u64::from(lbn) * 512;
    match file.read_at(at, piece) {
        Ok(()) => {
            whole.add(at, piece)?;
            Ok(true)
        }
        Err(FileFail) => Ok(false),
    }
}

/// Reads all blocks of a file. There are none where a read failed.
pub fn read_whole<F: ByteFile>(
    alloc: Global,
    file: &mut F,
    size: u32,
) -> Result<Option<Whole>, NoMemory>
    ensures whole { IfOk result (λ read. IfSome read (λ whole. IsRead size (F.bytes file.old) whole.notes.bytes whole.all.items)) }
    ensures stays { F.bytes file.new ≡ F.bytes file.old }
{
    let mut buffer = vec![in alloc; 0; PIECE_BYTES]?;
    let piece = buffer.as_mut_slice();
    let mut whole = Whole {
        all: Vec::with_capacity(alloc, size as usize)?,
        notes: Notes::new(),
    };
    let mut lbn = 0;
    while lbn < size {
        let count = PIECE.min(size - lbn);
        if !read_piece(file, lbn, &mut piece[..count as usize * 512], &mut whole)? {
            return Ok(None);
        }
        lbn += count;
    }
    Ok(Some(whole))
}
