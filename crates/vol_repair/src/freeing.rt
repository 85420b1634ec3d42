//! Step 1: the header slots that are not kept become free.

ghost use Rattle.std.specs.Prelude.{◌≡◌, ◌≤◌, ◌<◌, ◌+◌, ◌*◌, ◌-◌, ◌&&◌, not, false, Err, length, map, slice_index_or, OnOk};
ghost use Rattle.base_words.specs.Fields.{AreWholeBlocks};
ghost use Rattle.fx_home.specs.Homes.{IsWithinLimits};
ghost use Rattle.vol_faults.specs.Conditions.{IsSize};
ghost use Rattle.vol_parts.specs.Volumes.{volume, numbers, IsNumber, header_lbn, head};
ghost use Rattle.vol_sound.specs.Sound.{is_kept, is_free_slot};
ghost use Rattle.vol_sound.specs.Freeing.{HasSystem, LeavesOthers, seq_at, with_freed};
ghost use Rattle.vol_repair.specs.Aims.{Aim, Holds};
ghost use Rattle.vol_repair.specs.Steps.{IsStep};
ghost use Rattle.vol_repair.specs.Touched.{IsTouched, IsGround};

use crate::fault::StepFault;
use crate::making::{block_is_whole, make};
use base_words::{Block, word_at};
use blk_drive::{ImageDev, Mirror};
use fx_header::{Slot, free_slot};
use fx_home::{Home, slot_lbn};
use vol_parts::head;

// Whether the slot of a number is free. One beyond the last block is not.
fn is_free_slot(home: &Home, blocks: &[Block], n: u32) -> bool
    requires limits { IsWithinLimits home.now }
    requires number { IsNumber (volume home.now blocks.now) n }
    ensures { result ≡ is_free_slot (head (volume home.now blocks.now) n) }
{
    match head(home, blocks, n) {
        Ok(Slot::Free(_)) => true,
        Ok(Slot::Used(_)) => false,
        Err(_) => false,
    }
}

// Whether the slot of a number is to become free: it is not kept, and is not free.
fn is_to_free(home: &Home, blocks: &[Block], kept: &[bool], n: u32) -> bool
    requires limits { IsWithinLimits home.now }
    requires number { IsNumber (volume home.now blocks.now) n }
    requires flags { length kept.now ≡ home.now.files }
    ensures { result ≡ (not (slice_index_or kept.now (n - 1) false) && not (is_free_slot (head (volume home.now blocks.now) n))) }
{
    !kept[n as usize - 1] && !is_free_slot(home, blocks, n)
}

// The sequence that stands in the slot of a number.
fn seq_in(home: &Home, blocks: &[Block], n: u32) -> u16
    requires limits { IsWithinLimits home.now }
    requires number { IsNumber (volume home.now blocks.now) n }
    requires inside { header_lbn (volume home.now blocks.now) n < length blocks.now }
    ensures { result ≡ seq_at (volume home.now blocks.now) n }
{
    word_at(&blocks[slot_lbn(home, n) as usize], 10)
}

// Frees the slot of a number, with the sequence that stands there.
fn free<I: ImageDev>(m: &mut Mirror<I>, home: &Home, n: u32) -> Result<(), StepFault>
    requires limits { IsWithinLimits home.now }
    requires number { IsNumber (volume home.now m.old.blocks) n }
    requires inside { header_lbn (volume home.now m.old.blocks) n < length m.old.blocks }
    ensures step { (a : Aim) → Holds a m.old.blocks → Holds a (with_freed home.now m.old.blocks n)
        → IsStep (Holds a) m.old.blocks m.new.blocks (I.told m.old.image) (I.told m.new.image) (I.faults m.old.image) (I.faults m.new.image) (result ≡ Err StepFault.ImageFault) }
    ensures ok { OnOk result (m.new.blocks ≡ with_freed home.now m.old.blocks n) }
    ensures whole { AreWholeBlocks m.old.blocks → AreWholeBlocks (with_freed home.now m.old.blocks n) }
{
    let b = free_slot(seq_in(home, m.all(), n));
    block_is_whole(b);
    make(m, slot_lbn(home, n), &b)
}

// Frees each header slot that is not kept and is used or has a fault, with the sequence that stands there.
pub(crate) fn free_slots<I: ImageDev>(
    m: &mut Mirror<I>,
    home: &Home,
    kept: &[bool],
) -> Result<(), StepFault>
    requires limits { IsWithinLimits home.now }
    requires size { IsSize (length m.old.blocks) }
    requires whole { AreWholeBlocks m.old.blocks }
    requires system { HasSystem (volume home.now m.old.blocks) }
    requires kept { let v = volume home.now m.old.blocks in kept.now ≡ map (is_kept v) (numbers v) }
    ensures step { IsStep (IsTouched home.now m.old.blocks) m.old.blocks m.new.blocks (I.told m.old.image) (I.told m.new.image) (I.faults m.old.image) (I.faults m.new.image) (result ≡ Err StepFault.ImageFault) }
    ensures ground { OnOk result (IsGround home.now m.old.blocks m.new.blocks) }
    ensures others { OnOk result (LeavesOthers home.now m.old.blocks m.new.blocks) }
{
    for n in 1..home.files + 1 {
        if is_to_free(home, m.all(), kept, n) {
            free(m, home, n)?;
        }
    }
    Ok(())
}
