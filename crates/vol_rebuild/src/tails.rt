//! Step 4: the surplus of files goes, and then header slots that are in use and no file's become free. A death while a file gets or
//! loses headers leaves them, and so does the slot of a first header that becomes free in step 3.

ghost use Rattle.std.specs.Prelude.{◌≡◌, ◌<◌, ℕ, Err, true, false, length, OnOk};
ghost use Rattle.plain_cat.specs.declared.cat.Cat.{Cat};
ghost use Rattle.vol_parts.specs.Parts.{IsGeometry};
ghost use Rattle.vol_spell.specs.Reading.{IsFileNumber};
ghost use Rattle.vol_mends.specs.Told.{IsTold};
ghost use Rattle.vol_mends.specs.Clean.{IsNoSlot};
ghost use Rattle.vol_rebuild.specs.Tails.{NoneHasSurplus, IsSlotClear, AreTailsClear};
ghost use Rattle.vol_rebuild.specs.Ways.{IsStep};

use crate::fault::StepFault;
use crate::flags::flagged;
use crate::making::{block_is_whole, make};
use crate::surplus::cut_files;
use blk_drive::{ImageDev, Mirror};
use fx_header::{Slot, free_slot, read_header};
use std::alloc::Global;
use vol_parts::Geometry;

// Frees the slot of a number, if it is in use and no file's. `filed` says whether it is a file's.
fn free_stray<I: ImageDev>(
    m: &mut Mirror<I>,
    g: &Geometry,
    n: u32,
    filed: bool,
) -> Result<(), StepFault>
    requires geometry { IsGeometry g.now }
    requires told { (c : Cat) × IsTold g.now m.old.blocks c }
    requires number { IsFileNumber g.now n }
    requires filed { filed ≡ true → IsNoSlot g.now m.old.blocks n → ⊥ }
    requires spare { filed ≡ false → IsNoSlot g.now m.old.blocks n }
    ensures step { IsStep m.old.blocks m.new.blocks (I.told m.old.image) (I.told m.new.image) (I.faults m.old.image) (I.faults m.new.image) (result ≡ Err StepFault.ImageFault) }
    ensures ok { (c : Cat) → IsTold g.now m.old.blocks c → OnOk result (IsSlotClear g.now c m.old.blocks m.new.blocks n) }
{
    if filed {
        return Ok(());
    }
    let lbn = 4 * g.cluster + n;
    match read_header(m.read(lbn)) {
        Ok(Slot::Used(f)) => {
            let b = free_slot(f.seq);
            block_is_whole(b);
            make(m, lbn, &b)
        }
        Ok(Slot::Free(_)) => Ok(()),
        Err(_) => Ok(()),
    }
}

// Frees all such slots, where no file has surplus.
fn free_strays<I: ImageDev>(alloc: Global, m: &mut Mirror<I>, g: &Geometry) -> Result<(), StepFault>
    requires geometry { IsGeometry g.now }
    requires told { (c : Cat) × IsTold g.now m.old.blocks c }
    requires cut { NoneHasSurplus g.now m.old.blocks }
    ensures step { IsStep m.old.blocks m.new.blocks (I.told m.old.image) (I.told m.new.image) (I.faults m.old.image) (I.faults m.new.image) (result ≡ Err StepFault.ImageFault) }
    ensures ok { (c : Cat) → IsTold g.now m.old.blocks c → OnOk result (AreTailsClear g.now c m.old.blocks m.new.blocks) }
{
    let flags = flagged(alloc, m.all())?;
    for (i, filed) in flags.items().iter().enumerate() {
        free_stray(m, g, i as u32 + 1, *filed)?;
    }
    Ok(())
}

// Cuts the surplus of files, and then frees the slots that are no file's.
pub(crate) fn clear_tails<I: ImageDev>(
    alloc: Global,
    m: &mut Mirror<I>,
    g: &Geometry,
) -> Result<(), StepFault>
    requires geometry { IsGeometry g.now }
    requires told { (c : Cat) × IsTold g.now m.old.blocks c }
    ensures step { IsStep m.old.blocks m.new.blocks (I.told m.old.image) (I.told m.new.image) (I.faults m.old.image) (I.faults m.new.image) (result ≡ Err StepFault.ImageFault) }
    ensures ok { (c : Cat) → IsTold g.now m.old.blocks c → OnOk result (AreTailsClear g.now c m.old.blocks m.new.blocks) }
{
    cut_files(alloc, m, g)?;
    free_strays(alloc, m, g)
}
