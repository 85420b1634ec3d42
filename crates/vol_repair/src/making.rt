//! The writes: the only place that writes to the drive.

ghost use Rattle.std.specs.Prelude.{◌≡◌, ◌<◌, ◌-◌, ℕ, Err, All, length, take, slice_set, slice_index_or, OnOk};
ghost use Rattle.std.specs.Str.{bytes_eq};
ghost use Rattle.base_words.specs.Fields.{IsWholeBlock};
ghost use Rattle.vol_faults.specs.Conditions.{IsSize};
ghost use Rattle.vol_rebuild.specs.Places.{written_at};
ghost use Rattle.vol_repair.specs.Aims.{Aim, Holds};
ghost use Rattle.vol_repair.specs.Steps.{IsStep};

use crate::fault::StepFault;
use base_words::Block;
use blk_drive::{ImageDev, Mirror};
use fx_dir::Move;

// A block in memory is whole. Its type says it, and this function tells it as a clause: there is nothing to do at run time.
pub(crate) fn block_is_whole(block: Block)
    ensures { IsWholeBlock block }
{}

// Writes one block.
pub(crate) fn make<I: ImageDev>(m: &mut Mirror<I>, lbn: u32, b: &Block) -> Result<(), StepFault>
    requires inside { lbn < length m.old.blocks }
    ensures step { (a : Aim) → Holds a m.old.blocks → Holds a (slice_set m.old.blocks lbn b.now)
        → IsStep (Holds a) m.old.blocks m.new.blocks (I.told m.old.image) (I.told m.new.image) (I.faults m.old.image) (I.faults m.new.image) (result ≡ Err StepFault.ImageFault) }
    ensures ok { OnOk result (m.new.blocks ≡ slice_set m.old.blocks lbn b.now) }
{
    m.write(lbn, b)?;
    Ok(())
}

// Whether a block is this one.
fn is_same(a: &Block, b: &Block) -> bool
    ensures { result ≡ bytes_eq a.now b.now }
{
    a.as_slice() == b.as_slice()
}

// Writes one block, unless it is there already.
pub(crate) fn make_other<I: ImageDev>(
    m: &mut Mirror<I>,
    lbn: u32,
    b: &Block,
) -> Result<(), StepFault>
    requires inside { lbn < length m.old.blocks }
    ensures step { (a : Aim) → Holds a m.old.blocks → Holds a (slice_set m.old.blocks lbn b.now)
        → IsStep (Holds a) m.old.blocks m.new.blocks (I.told m.old.image) (I.told m.new.image) (I.faults m.old.image) (I.faults m.new.image) (result ≡ Err StepFault.ImageFault) }
    ensures ok { OnOk result (m.new.blocks ≡ slice_set m.old.blocks lbn b.now) }
{
    if is_same(m.read(lbn), b) {
        return Ok(());
    }
    make(m, lbn, b)
}

// The LBN of the block of a VBN, which counts from 1.
fn place_of(places: &[usize], vbn: u32) -> usize
    ensures { result ≡ slice_index_or places.now (vbn - 1) 0 }
{
    match places.get((vbn as usize).saturating_sub(1)) {
        Some(place) => *place,
        None => 0,
    }
}

// Makes moves at these LBNs, in their order.
pub(crate) fn make_moves<I: ImageDev>(
    m: &mut Mirror<I>,
    places: &[usize],
    moves: &[Move],
) -> Result<(), StepFault>
    requires size { IsSize (length m.old.blocks) }
    requires inside { All (λ l. l < length m.old.blocks) places.now }
    ensures step { (a : Aim) → ((k : ℕ) → Holds a (written_at places.now (take k moves.now) m.old.blocks))
        → IsStep (Holds a) m.old.blocks m.new.blocks (I.told m.old.image) (I.told m.new.image) (I.faults m.old.image) (I.faults m.new.image) (result ≡ Err StepFault.ImageFault) }
    ensures ok { OnOk result (m.new.blocks ≡ written_at places.now moves.now m.old.blocks) }
{
    for next in moves {
        let lbn = place_of(places, next.vbn);
        m.write(lbn as u32, &next.block)?;
    }
    Ok(())
}
