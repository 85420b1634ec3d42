//! A repair, step by step.

ghost use Rattle.std.specs.Prelude.{◌≡◌, List, Err, Ok, length, IfOk, OnOk};
ghost use Rattle.base_words.specs.Fields.{Block, AreWholeBlocks};
ghost use Rattle.fx_home.specs.declared.home.Home.{Home};
ghost use Rattle.fx_home.specs.Homes.{home_read, IsWithinLimits};
ghost use Rattle.vol_faults.specs.Conditions.{IsSize};
ghost use Rattle.vol_parts.specs.declared.finding.Finding.{Finding};
ghost use Rattle.vol_parts.specs.Findings.{home_at};
ghost use Rattle.vol_parts.specs.Volumes.{volume};
ghost use Rattle.vol_sound.specs.Begun.{patched};
ghost use Rattle.vol_sound.specs.Beyond.{IsBeyond, IsFirstBeyond};
ghost use Rattle.vol_sound.specs.Sound.{freed_slots};
ghost use Rattle.vol_repair.specs.Keeping.{NoneIsBeyond, KeepsSound, Keeps};
ghost use Rattle.vol_repair.specs.Laws.{IsMendable};
ghost use Rattle.vol_repair.specs.Patching.{IsPatched, IsPatchedCat};
ghost use Rattle.vol_repair.specs.Repaired.{IsRepaired, IsRoomless, IsRefusal};
ghost use Rattle.vol_repair.specs.Steps.{IsStep};

use crate::fault::{RepairFault, Repaired, StepFault};
use crate::finishing::finish;
use crate::laws::{alike_keeps, touched_keeps};
use crate::patching::patch;
use crate::phases::begin;
use base_words::Block;
use blk_drive::{ImageDev, Mirror};
use fx_home::{Home, read_home};
use plain_cat::{Cat, NoMemory};
use std::alloc::Global;
use vol_faults::read_whole;
use vol_parts::blocks_are_whole;
use vol_sound::first_beyond;

// A drive has as many blocks as a volume may have, and they are whole. Its type says it, and this function tells it as clauses.
fn drive_is_whole<I: ImageDev>(m: &Mirror<I>)
    ensures size { IsSize (length m.now.blocks) }
    ensures whole { AreWholeBlocks m.now.blocks }
{
    let _size = m.size();
    blocks_are_whole(m.all());
}

// The home block of blocks in which nothing is beyond repair.
fn home_of(blocks: &[Block]) -> Home
    requires size { IsSize (length blocks.now) }
    requires none { NoneIsBeyond blocks.now }
    ensures read { home_read (home_at blocks.now) ≡ Ok result }
    ensures limits { IsWithinLimits result }
{
    let Ok(home) = read_home(&blocks[1]) else {
        unreachable!()
    };
    home
}

// All that comes before mending, of a volume in which nothing is beyond repair: how many header slots became free.
fn prepare<I: ImageDev>(alloc: Global, m: &mut Mirror<I>, home: &Home) -> Result<u32, StepFault>
    requires mendable { IsMendable home.now m.old.blocks }
    requires whole { AreWholeBlocks m.old.blocks }
    ensures step { IsStep (KeepsSound (volume home.now m.old.blocks)) m.old.blocks m.new.blocks (I.told m.old.image) (I.told m.new.image) (I.faults m.old.image) (I.faults m.new.image) (result ≡ Err StepFault.ImageFault) }
    ensures ok { OnOk result (IsPatched home.now m.old.blocks m.new.blocks) }
    ensures slots { IfOk result (λ k. k ≡ freed_slots (volume home.now m.old.blocks)) }
{
    touched_keeps();
    alike_keeps();
    let slots = begin(alloc, m, home)?;
    patch(alloc, m, home)?;
    Ok(slots)
}

// All parts, of a volume in which nothing is beyond repair.
fn repair_mendable<I: ImageDev>(
    alloc: Global,
    m: &mut Mirror<I>,
    home: &Home,
) -> Result<Repaired, RepairFault>
    requires mendable { IsMendable home.now m.old.blocks }
    requires whole { AreWholeBlocks m.old.blocks }
    ensures repaired { IfOk result (IsRepaired m.old.blocks m.new.blocks) }
    ensures able { (f : Finding) → result ≡ Err (RepairFault.NotRepairable f) → ⊥ }
    ensures roomless { (f : Finding) → result ≡ Err (RepairFault.NoRoom f) → IsRoomless m.old.blocks m.new.blocks f }
    ensures step { IsStep (KeepsSound (volume home.now m.old.blocks)) m.old.blocks m.new.blocks (I.told m.old.image) (I.told m.new.image) (I.faults m.old.image) (I.faults m.new.image) (result ≡ Err RepairFault.ImageFault) }
{
    let slots = prepare(alloc, m, home)?;
    let mended = finish(alloc, m)?;
    Ok(Repaired { slots, mended })
}

/// Repairs a volume, which has 64 to 65,536 blocks: every sound file is kept, except one that is marked for delete, and an empty lost one for
/// which `[SYSLOST]` has no room; its owner, its entries and its name may change. What is broken or shared is freed. Header slots
/// above number 11 that are used or have a fault, and are not a sound file's, become free; a system directory that cannot be read
/// becomes empty, and the master file directory gets the entries of the system files where it lacks one; a directory that is marked for
/// delete becomes empty; the master file directory is named by its own entry alone, and directories on a loop lose their entries of
/// directories; an owner has one quota row, [1,1] has one, and files whose owner has none become those of [1,1]; the bits of what files
/// have are set. Then the volume is mended as by `rebuild`.
///
/// `NotRepairable` tells the first finding beyond repair, if there is one, and nothing is written then. `NoRoom` comes where mending
/// gives up for want of room in `[SYSLOST]`; what was written stays. `ImageFault` comes where a write of the image failed, and
/// `NoMemory` where memory ran out, before the first write or between two.
pub fn repair<I: ImageDev>(alloc: Global, m: &mut Mirror<I>) -> Result<Repaired, RepairFault>
    // Ok comes with the repaired volume, and what was done.
    ensures repaired { IfOk result (IsRepaired m.old.blocks m.new.blocks) }

    // What is beyond repair is told, the first such finding, and nothing is written where there is one.
    ensures refused { (f : Finding) → result ≡ Err (RepairFault.NotRepairable f) → IsFirstBeyond m.old.blocks f × (m.new ≡ m.old) }
    ensures beyond { (f : Finding) → IsBeyond m.old.blocks f → IsRefusal result × (m.new ≡ m.old) }

    // NoRoom comes only where mending gives up on the patched catalogue, which the blocks spell then.
    ensures roomless { (f : Finding) → result ≡ Err (RepairFault.NoRoom f) → IsRoomless m.old.blocks m.new.blocks f }

    // Whatever the answer, writes lead to what is left, and after each of them every sound file is kept, except a marked one and an empty
    // lost one that mending leaves out. ImageFault comes only where the
    // image's count rose. The image has what is left, or, after a failed write, may have one block more, and keeps them then too.
    ensures step { IsStep (Keeps m.old.blocks) m.old.blocks m.new.blocks (I.told m.old.image) (I.told m.new.image) (I.faults m.old.image) (I.faults m.new.image) (result ≡ Err RepairFault.ImageFault) }
{
    drive_is_whole(m);
    touched_keeps();
    if let Some(found) = first_beyond(alloc, m.all())? {
        return Err(RepairFault::NotRepairable(found));
    }
    let home = home_of(m.all());
    repair_mendable(alloc, m, &home)
}

// The catalogue of blocks that spell the patched one of others.
fn told_patched(alloc: Global, blocks: &[Block]) -> Result<Cat, NoMemory>
    requires size { IsSize (length blocks.now) }
    requires patched { (home : Home) × (first : List Block) × IsPatched home first blocks.now }
    ensures { (home : Home) (first : List Block) → IsPatched home first blocks.now → IfOk result (λ cat. cat ≡ patched (volume home first)) }
{
    let Ok(cat) = read_whole(alloc, blocks)? else {
        unreachable!()
    };
    Ok(cat)
}

/// Does all that a repair does before mending, and gives the catalogue that mending gets then: of the files that are kept, with their
/// owners and entries. What stands on the drive then is of no use but to `repair`.
///
/// `NotRepairable` tells the first finding beyond repair, if there is one, and nothing is written then. `ImageFault` comes where a write
/// of the image failed, and `NoMemory` where memory ran out.
pub fn patch_all<I: ImageDev>(alloc: Global, m: &mut Mirror<I>) -> Result<Cat, RepairFault>
    ensures patched { IfOk result (IsPatchedCat m.old.blocks) }
    ensures refused { (f : Finding) → result ≡ Err (RepairFault.NotRepairable f) → IsFirstBeyond m.old.blocks f }
    ensures roomless { (f : Finding) → result ≡ Err (RepairFault.NoRoom f) → ⊥ }
{
    drive_is_whole(m);
    if let Some(found) = first_beyond(alloc, m.all())? {
        return Err(RepairFault::NotRepairable(found));
    }
    let home = home_of(m.all());
    prepare(alloc, m, &home)?;
    drive_is_whole(m);
    Ok(told_patched(alloc, m.all())?)
}
