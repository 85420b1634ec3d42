//! Storing lines in a file of a volume.
ghost use Rattle.std.specs.Prelude.{◌≡◌, ◌≤◌, ◌<◌, ◌++◌, [], ◌∷◌, All, Err, IfOk, IsErr, Some, length};
ghost use Rattle.base_words.specs.Fields.{IsBytes, AreWholeBlocks};
ghost use Rattle.vol_parts.specs.Findings.{Accepts};
ghost use Rattle.vol_faults.specs.Conditions.{IsSize};
ghost use Rattle.vol_records.specs.declared.types.StoreFault.{StoreFault};
ghost use Rattle.vol_records.specs.Records.{spelt};
ghost use Rattle.vol_records.specs.Making.{placed, IsMade};
ghost use Rattle.vol_records.specs.Storing.{refusal_at, Answers, chunks, blocks_for, IsStored, IsStoring};

use crate::lines::Lines8;
use crate::placing::{blocks_for, chunk, refusal, stored_header};
use crate::spelling::spell;
use crate::types::StoreFault;
use base_words::Block;
use blk_drive::{ImageDev, ImageFault, Mirror};
use fx_home::{read_home, slot_lbn};
use std::alloc::Global;
use vol_parts::blocks_are_whole;
use vol_spell::file_lbns;

// A drive has as many blocks as a volume may have, and they are whole. Its type says it, and this function tells it as clauses.
fn drive_is_whole<I: ImageDev>(m: &Mirror<I>)
    ensures size { IsSize (length m.now.blocks) }
    ensures whole { AreWholeBlocks m.now.blocks }
{
    let _size = m.size();
    blocks_are_whole(m.all());
}

// Bytes are below 256. Their type says it, and this function tells it as a clause: there is nothing to do at run time.
fn bytes_are_ranged(bytes: &[u8])
    ensures { IsBytes bytes.now }
{}

// Writes the blocks of bytes to these places, one by one.
fn write_blocks<I: ImageDev>(
    m: &mut Mirror<I>,
    places: &[u32],
    bytes: &[u8],
) -> Result<(), ImageFault>
    requires size { IsSize (length m.old.blocks) }
    requires inside { All (λ l. l < length m.old.blocks) places.now }
    requires room { blocks_for (length bytes.now) ≤ length places.now }
    requires few { length bytes.now ≤ 33554432 }
    ensures { IsMade (placed places.now (chunks (blocks_for (length bytes.now)) bytes.now)) m.old.blocks m.new.blocks (I.told m.old.image) (I.told m.new.image) (I.faults m.old.image) (I.faults m.new.image) (IsErr result) }
{
    for i in 0..blocks_for(bytes.len()) {
        let b = chunk(bytes, i);
        m.write(places[i], &b)?;
    }
    Ok(())
}

// Writes the blocks of bytes to these places, one by one, and then the header.
fn write_file<I: ImageDev>(
    m: &mut Mirror<I>,
    places: &[u32],
    bytes: &[u8],
    lbn: u32,
    head: &Block,
) -> Result<(), ImageFault>
    requires size { IsSize (length m.old.blocks) }
    requires inside { All (λ l. l < length m.old.blocks) places.now }
    requires room { blocks_for (length bytes.now) ≤ length places.now }
    requires few { length bytes.now ≤ 33554432 }
    requires header { lbn < length m.old.blocks }
    ensures { IsMade (placed places.now (chunks (blocks_for (length bytes.now)) bytes.now) ++ (lbn, head.now) ∷ []) m.old.blocks m.new.blocks (I.told m.old.image) (I.told m.new.image) (I.faults m.old.image) (I.faults m.new.image) (IsErr result) }
{
    write_blocks(m, places, bytes)?;
    m.write(lbn, head)
}

/// Stores lines as records in the file that is in use under a number and a sequence, in which nothing was written so far. Its stream
/// is that of the lines then, and its other blocks show zeros. The volume is accepted, and so is what is left. Ok tells how many
/// bytes the stream has.
///
/// The blocks of the stream are written in the file's order, and last its header: before it, nothing shows. No other block is written.
/// A refusal comes before all memory is taken, and all memory is taken before the first write.
pub fn store<I: ImageDev>(
    alloc: Global,
    m: &mut Mirror<I>,
    n: u32,
    seq: u16,
    lines: &Lines8,
) -> Result<u32, StoreFault>
    requires { Accepts m.old.blocks }

    // A refusal comes exactly where there is one, the first, and nothing is written then, nor where memory ran out.
    ensures answers { Answers (refusal_at m.old.blocks n seq (length (spelt lines.now))) result }
    ensures refused { (f : StoreFault) → refusal_at m.old.blocks n seq (length (spelt lines.now)) ≡ Some f → (result ≡ Err f) × (m.new ≡ m.old) }
    ensures memory { result ≡ Err StoreFault.NoMemory → m.new ≡ m.old }

    // Ok comes with the lines stored.
    ensures stored { IfOk result (λ t. (t ≡ length (spelt lines.now)) × IsStored m.old.blocks m.new.blocks n seq (spelt lines.now)) }

    // Whatever the answer, and wherever a stop comes, the first so many of those writes are made and no others, and an accepted volume
    // is left: as it was, or with the lines stored.
    ensures step { IsStoring m.old.blocks m.new.blocks n seq (spelt lines.now) (I.told m.old.image) (I.told m.new.image) (I.faults m.old.image) (I.faults m.new.image) (result ≡ Err StoreFault.ImageFault) }
{
    drive_is_whole(m);
    let len = lines.spelt_len();
    let Ok(home) = read_home(m.read(1)) else {
        return Err(StoreFault::NoSuchFile);
    };
    if let Some(fault) = refusal(&home, m.all(), n, seq, len) {
        return Err(fault);
    }
    let Some(places) = file_lbns(alloc, m.all(), n)? else {
        return Err(StoreFault::NoSuchFile);
    };
    let bytes = spell(alloc, lines)?;
    bytes_are_ranged(bytes.as_slice());
    let lbn = slot_lbn(&home, n);
    let head = stored_header(m.read(lbn), len);
    write_file(m, places.items(), bytes.as_slice(), lbn, &head)?;
    Ok(len as u32)
}
