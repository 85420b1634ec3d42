//! The last part of a repair: the volume is mended.

ghost use Rattle.std.specs.Prelude.{◌≡◌, List, Err, IfOk};
ghost use Rattle.base_words.specs.Fields.{Block};
ghost use Rattle.fx_home.specs.declared.home.Home.{Home};
ghost use Rattle.vol_parts.specs.declared.finding.Finding.{Finding};
ghost use Rattle.vol_parts.specs.Volumes.{volume};
ghost use Rattle.vol_repair.specs.Faults.{answer_of};
ghost use Rattle.vol_repair.specs.Keeping.{KeepsSound};
ghost use Rattle.vol_repair.specs.Patching.{IsPatched, IsFinished, IsStuck};
ghost use Rattle.vol_repair.specs.Steps.{IsStep};

use crate::fault::RepairFault;
use crate::laws::{alike_keeps, mending_keeps};
use blk_drive::{ImageDev, Mirror};
use plain_cat::Mended;
use std::alloc::Global;
use vol_rebuild::{RebuildFault, rebuild};

// What a repair answers when mending has answered so. That there is no room for a lost file is all that mending can find.
fn answer(mended: Result<Mended, RebuildFault>) -> Result<Mended, RepairFault>
    ensures { result ≡ answer_of mended }
{
    match mended {
        Ok(done) => Ok(done),
        Err(RebuildFault::NotMendable(found)) => Err(RepairFault::NoRoom(found)),
        Err(RebuildFault::ImageFault) => Err(RepairFault::ImageFault),
        Err(RebuildFault::NoMemory) => Err(RepairFault::NoMemory),
    }
}

// Mends a volume whose blocks spell the patched catalogue.
pub(crate) fn finish<I: ImageDev>(alloc: Global, m: &mut Mirror<I>) -> Result<Mended, RepairFault>
    ensures finished { (home : Home) (first : List Block) → IsPatched home first m.old.blocks → IfOk result (IsFinished (volume home first) m.new.blocks) }
    ensures able { (f : Finding) → result ≡ Err (RepairFault.NotRepairable f) → ⊥ }
    ensures stuck { (home : Home) (first : List Block) (f : Finding) → IsPatched home first m.old.blocks → result ≡ Err (RepairFault.NoRoom f) → IsStuck (volume home first) m.old.blocks m.new.blocks f }
    ensures step { (home : Home) (first : List Block) → IsPatched home first m.old.blocks
        → IsStep (KeepsSound (volume home first)) m.old.blocks m.new.blocks (I.told m.old.image) (I.told m.new.image) (I.faults m.old.image) (I.faults m.new.image) (result ≡ Err RepairFault.ImageFault) }
{
    alike_keeps();
    mending_keeps();
    let mended = rebuild(alloc, m);
    answer(mended)
}
