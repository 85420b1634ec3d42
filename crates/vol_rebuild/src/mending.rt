//! Mending, step by step.

ghost use Rattle.std.specs.Prelude.{◌≡◌, ◌≤◌, ◌⊎◌, Err, Ok, length, IfOk};
ghost use Rattle.std.specs.List.{count_by};
ghost use Rattle.base_words.specs.Fields.{AreWholeBlocks};
ghost use Rattle.base_words.specs.Faults.{Rose};
ghost use Rattle.plain_cat.specs.declared.cat.Cat.{Cat};
ghost use Rattle.plain_rules.specs.Mending.{is_true};
ghost use Rattle.vol_parts.specs.declared.finding.Finding.{Finding};
ghost use Rattle.vol_parts.specs.Findings.{IsFatal, IsFirstFatal};
ghost use Rattle.vol_parts.specs.Parts.{IsGeometry};
ghost use Rattle.vol_faults.specs.Conditions.{IsSize};
ghost use Rattle.vol_mends.specs.Told.{IsTold};
ghost use Rattle.vol_rebuild.specs.Ways.{IsWay, IsStep, IsAhead};
ghost use Rattle.blk_drive.specs.Telling.{IsTold as Shows};
ghost use Rattle.blk_drive.specs.Telling.{told_as};
ghost use Rattle.vol_rebuild.specs.Rebuilt.{IsRebuilt, IsRefusal};

use crate::bits::set_all_bits;
use crate::doubles::pack_doubles;
use crate::entries::strip;
use crate::fault::{RebuildFault, StepFault};
use crate::lost::enter_lost;
use crate::rows::set_usages;
use crate::slots::free_slots;
use crate::tails::clear_tails;
use blk_drive::{ImageDev, Mirror};
use plain_cat::{Cat, Mended};
use std::alloc::Global;
use vol_parts::{Geometry, blocks_are_whole};
use vol_spell::{geometry, read_fully};

// A drive has as many blocks as a volume may have, and they are whole. Its type says it, and this function tells it as clauses.
fn drive_is_whole<I: ImageDev>(m: &Mirror<I>)
    ensures size { IsSize (length m.now.blocks) }
    ensures whole { AreWholeBlocks m.now.blocks }
{
    let _size = m.size();
    blocks_are_whole(m.all());
}

// How many file numbers are leaked.
fn leaked_numbers(cat: &Cat) -> u32
    requires { length cat.now.leaked_numbers ≤ 4096 }
    ensures { result ≡ count_by is_true cat.now.leaked_numbers }
{
    let mut count = 0;
    for leaked in cat.leaked_numbers.items() {
        if *leaked {
            count += 1;
        }
    }
    count
}

// All steps, in their order.
fn mend<I: ImageDev>(
    alloc: Global,
    m: &mut Mirror<I>,
    g: &Geometry,
    cat: &mut Cat,
) -> Result<Mended, StepFault>
    requires geometry { IsGeometry g.now }
    requires told { IsTold g.now m.old.blocks cat.old }
    ensures step { IsStep m.old.blocks m.new.blocks (I.told m.old.image) (I.told m.new.image) (I.faults m.old.image) (I.faults m.new.image) (result ≡ Err StepFault.ImageFault) }
    ensures mended { IfOk result (IsRebuilt m.old.blocks m.new.blocks) }
{
    let clusters = cat.leaked;
    let numbers = leaked_numbers(cat);
    let removed = strip(alloc, m, g, cat)?;
    pack_doubles(alloc, m, g, cat)?;
    let entered = enter_lost(alloc, m, g, cat)?;
    let gone = free_slots(alloc, m, g, cat)?;
    clear_tails(alloc, m, g)?;
    set_all_bits(alloc, m, g)?;
    set_usages(m, g, cat)?;
    Ok(Mended {
        entered,
        removed,
        gone,
        clusters,
        numbers,
    })
}

/// Mends a volume, which has 64 to 65,536 blocks. Entries that name no live file, or of which their file keeps another one, are
/// removed, and those that stand in two blocks are packed away; files in no directory are entered in `[SYSLOST]`, an empty one only if
/// there is room; files that are marked for delete or still in no directory are freed; the last header of a file that lists or links
/// more than the file has is cut to the file's blocks; header slots that no file has become free; and the bitmaps and the usages of
/// the quota rows are set to what the headers say. A block that would not change is not written. After each of the writes the blocks
/// have no fatal finding and mend to the same catalogue, so a mending that is stopped can be made again.
///
/// What was done is counted. `NotMendable` tells the first fatal finding, if there is one, and nothing is written then. `ImageFault`
/// comes where a write of the image failed, and `NoMemory` where memory ran out, before the first write or between two.
pub fn rebuild<I: ImageDev>(alloc: Global, m: &mut Mirror<I>) -> Result<Mended, RebuildFault>
    // Ok comes with the mended volume, and what was done.
    ensures mended { IfOk result (IsRebuilt m.old.blocks m.new.blocks) }

    // Whatever the answer, writes lead to what is left, and after each of them the blocks mend to the same.
    ensures way { IsWay m.old.blocks m.new.blocks }

    // A fatal finding is told, the first one, and nothing is written where there is one.
    ensures refused { (f : Finding) → result ≡ Err (RebuildFault.NotMendable f) → IsFirstFatal m.old.blocks f × (m.new ≡ m.old) }
    ensures fatal { (f : Finding) → IsFatal m.old.blocks f → IsRefusal result × (m.new ≡ m.old) }

    // ImageFault comes only where the image's count rose.
    ensures later { I.faults m.old.image ≤ I.faults m.new.image }
    ensures cause { result ≡ Err RebuildFault.ImageFault → Rose (I.faults m.old.image) (I.faults m.new.image) }

    // The image has what is left, or, after a failed write, may have one block more, and mends to the same then too.
    ensures image { Shows (I.told m.old.image) m.old.blocks → (I.told m.new.image ≡ told_as (I.told m.old.image) m.new.blocks)
        ⊎ ((result ≡ Err RebuildFault.ImageFault) × IsAhead (I.told m.old.image) (I.told m.new.image) m.old.blocks m.new.blocks) }
{
    drive_is_whole(m);
    let mut cat = match read_fully(alloc, m.all())? {
        Ok(cat) => cat,
        Err(found) => return Err(RebuildFault::NotMendable(found)),
    };
    let g = geometry(m.all());
    Ok(mend(alloc, m, &g, &mut cat)?)
}
