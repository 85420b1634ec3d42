//! Step 2: the files in no directory are entered in [SYSLOST].

ghost use Rattle.std.specs.Prelude.{◌≡◌, ◌≤◌, ◌-◌, ◌+◌, Err, Some, [], true, false, length, slice_get, IfOk};
ghost use Rattle.plain_cat.specs.declared.cat.Cat.{Cat};
ghost use Rattle.plain_cat.specs.declared.cat.File.{File};
ghost use Rattle.plain_rules.specs.Changes.{with_entries};
ghost use Rattle.plain_rules.specs.Lookups.{file_at};
ghost use Rattle.plain_rules.specs.Mending.{places, is_empty, is_lost_slot, lost, enter, with_lost_entry};
ghost use Rattle.plain_mends.specs.Waiting.{Settled, LostIsWritten};
ghost use Rattle.vol_faults.specs.Places.{AreFirsts};
ghost use Rattle.vol_mends.specs.Told.{IsTold};
ghost use Rattle.vol_rebuild.specs.Places.{DirLeads};
ghost use Rattle.vol_rebuild.specs.Steps.{IsEntered, AreEntered, AreEnteredFull, AreEnteredEmpty, CanEnterOne};
ghost use Rattle.vol_rebuild.specs.Ways.{IsStep};

use crate::entries::with_entries;
use crate::fault::StepFault;
use crate::making::make_moves;
use crate::names::lost_entry;
use crate::places::{Moves, body};
use base_words::Block;
use blk_drive::{ImageDev, Mirror};
use fx_dir::insert_moves;
use plain_cat::{Cat, DirEnts, File, NoMemory, Slot};
use plain_rules::{file_at, with_lost_entry};
use std::alloc::Global;
use vol_faults::{Spot, all_firsts, is_lost, spots};
use vol_parts::Geometry;

// The number of [SYSLOST].
const LOST: u32 = 11;

// The lost files: those that are not empty, and those that are, by rising number.
#[derive(Drop)]
struct LostFiles {
    full: Vec<u32>,
    empty: Vec<u32>,
}

// Whether nothing was written to a file, or it is a directory without entries.
fn is_empty(file: &File) -> bool
    ensures { result ≡ is_empty file.now }
{
    file.mark == 1 || (file.dir && file.entries.items().is_empty())
}

// Whether a slot's file is lost, and empty or not.
fn is_lost_slot(cat: &Cat, firsts: &[Option<Spot<'_>>], n: u32, slot: &Slot, empty: bool) -> bool
    requires firsts { AreFirsts cat.now (places cat.now) firsts.now }
    requires number { 1 ≤ n }
    requires here { slice_get cat.now.files (n - 1) ≡ Some slot.now }
    ensures { result ≡ is_lost_slot cat.now empty n slot.now }
{
    match slot {
        Slot::Used(file) => {
            is_lost(cat, firsts, n, slot)
                && (if empty {
                    is_empty(file)
                } else {
                    !is_empty(file)
                })
        }
        Slot::Free(_) => false,
    }
}

// The numbers of the lost files that are empty, or of those that are not.
fn lost(
    alloc: Global,
    cat: &Cat,
    firsts: &[Option<Spot<'_>>],
    empty: bool,
) -> Result<Vec<u32>, NoMemory>
    requires firsts { AreFirsts cat.now (places cat.now) firsts.now }
    requires numbers { length cat.now.files ≤ 4096 }
    ensures lost { IfOk result (λ v. v.items ≡ lost cat.now empty) }
    ensures few { IfOk result (λ v. length v.items ≤ 4096) }
{
    let mut found = Vec::new(alloc);
    for (i, slot) in cat.files.items().iter().enumerate() {
        let n = i as u32 + 1;
        if is_lost_slot(cat, firsts, n, slot, empty) {
            found.push(n)?;
        }
    }
    Ok(found)
}

// All lost files.
fn lost_files(alloc: Global, cat: &Cat) -> Result<LostFiles, NoMemory>
    requires { length cat.now.files ≤ 4096 }
    ensures full { IfOk result (λ l. l.full.items ≡ lost cat.now false) }
    ensures empty { IfOk result (λ l. l.empty.items ≡ lost cat.now true) }
    ensures few_full { IfOk result (λ l. length l.full.items ≤ 4096) }
    ensures few_empty { IfOk result (λ l. length l.empty.items ≤ 4096) }
{
    let spots = spots(alloc, cat)?;
    let firsts = all_firsts(alloc, cat, spots.as_slice())?;
    Ok(LostFiles {
        full: lost(alloc, cat, firsts.as_slice(), false)?,
        empty: lost(alloc, cat, firsts.as_slice(), true)?,
    })
}

// The moves by which a lost file is entered in [SYSLOST], which is `dir`, where there is room for it: it has the entries `more` then.
fn insertion(
    alloc: Global,
    g: &Geometry,
    blocks: &[Block],
    cat: &Cat,
    dir: &File,
    n: u32,
    seq: u16,
    more: &DirEnts,
) -> Result<Moves, NoMemory>
    requires told { IsTold g.now blocks.now cat.now }
    requires dir { file_at cat.now 11 ≡ Some dir.now }
    requires file { (f : File) × (file_at cat.now n ≡ Some f) × (f.seq ≡ seq) }
    requires room { with_lost_entry cat.now.factor dir.now.entries n seq ≡ Some more.now }
    requires change { CanEnterOne cat.now n }
    ensures { IfOk result (λ x. DirLeads g.now blocks.now (with_entries cat.now 11 dir.now more.now) 11 x.places.items x.moves.items) }
{
    let e = lost_entry(alloc, dir.entries.items(), n, seq)?;
    let body = body(alloc, g, blocks, LOST)?;
    let Some(moves) = insert_moves(alloc, body.blocks.as_slice(), &e)? else {
        unreachable!()
    };
    Ok(Moves {
        places: body.places,
        moves,
    })
}

// Enters a lost file, and says whether there was room.
fn enter<I: ImageDev>(
    alloc: Global,
    m: &mut Mirror<I>,
    g: &Geometry,
    cat: &mut Cat,
    n: u32,
) -> Result<bool, StepFault>
    requires told { IsTold g.now m.old.blocks cat.old }
    requires change { CanEnterOne cat.old n }
    ensures step { IsStep m.old.blocks m.new.blocks (I.told m.old.image) (I.told m.new.image) (I.faults m.old.image) (I.faults m.new.image) (result ≡ Err StepFault.ImageFault) }
    ensures ok { IfOk result (IsEntered g.now cat.old cat.new m.old.blocks m.new.blocks n) }
{
    let Some(dir) = file_at(cat, LOST) else {
        return Ok(false);
    };
    let Some(file) = file_at(cat, n) else {
        return Ok(false);
    };
    let seq = file.seq;
    let Some(more) = with_lost_entry(alloc, &dir.entries, n, seq, cat.factor)? else {
        return Ok(false);
    };
    let x = insertion(alloc, g, m.all(), cat, dir, n, seq, &more)?;
    let slot = with_entries(alloc, dir, more)?;
    make_moves(m, x.places.as_slice(), x.moves.as_slice())?;
    cat.files.set(LOST as usize - 1, slot);
    Ok(true)
}

// Enters the lost files that are not empty, and says how many they were.
fn enter_full<I: ImageDev>(
    alloc: Global,
    m: &mut Mirror<I>,
    g: &Geometry,
    cat: &mut Cat,
    numbers: &[u32],
) -> Result<u32, StepFault>
    requires told { IsTold g.now m.old.blocks cat.old }
    requires settled { Settled cat.old }
    requires written { LostIsWritten cat.old }
    requires numbers { numbers.now ≡ lost cat.old false }
    requires few { length numbers.now ≤ 4096 }
    ensures step { IsStep m.old.blocks m.new.blocks (I.told m.old.image) (I.told m.new.image) (I.faults m.old.image) (I.faults m.new.image) (result ≡ Err StepFault.ImageFault) }
    ensures ok { IfOk result (AreEnteredFull g.now cat.old cat.new m.old.blocks m.new.blocks) }
{
    let mut count = 0;
    for n in numbers {
        if enter(alloc, m, g, cat, *n)? {
            count += 1;
        }
    }
    Ok(count)
}

// Enters those of the lost files that are empty for which there is room, and says how many they were.
fn enter_empty<I: ImageDev>(
    alloc: Global,
    m: &mut Mirror<I>,
    g: &Geometry,
    cat: &mut Cat,
    numbers: &[u32],
) -> Result<u32, StepFault>
    requires told { IsTold g.now m.old.blocks cat.old }
    requires settled { Settled cat.old }
    requires written { LostIsWritten cat.old }
    requires none { lost cat.old false ≡ [] }
    requires numbers { numbers.now ≡ lost cat.old true }
    requires few { length numbers.now ≤ 4096 }
    ensures step { IsStep m.old.blocks m.new.blocks (I.told m.old.image) (I.told m.new.image) (I.faults m.old.image) (I.faults m.new.image) (result ≡ Err StepFault.ImageFault) }
    ensures ok { IfOk result (AreEnteredEmpty g.now cat.old cat.new m.old.blocks m.new.blocks) }
{
    let mut count = 0;
    for n in numbers {
        if enter(alloc, m, g, cat, *n)? {
            count += 1;
        }
    }
    Ok(count)
}

// Enters the lost files, and says how many were entered.
pub(crate) fn enter_lost<I: ImageDev>(
    alloc: Global,
    m: &mut Mirror<I>,
    g: &Geometry,
    cat: &mut Cat,
) -> Result<u32, StepFault>
    requires told { IsTold g.now m.old.blocks cat.old }
    requires settled { Settled cat.old }
    requires written { LostIsWritten cat.old }
    ensures step { IsStep m.old.blocks m.new.blocks (I.told m.old.image) (I.told m.new.image) (I.faults m.old.image) (I.faults m.new.image) (result ≡ Err StepFault.ImageFault) }
    ensures ok { IfOk result (AreEntered g.now cat.old cat.new m.old.blocks m.new.blocks) }
{
    let lost = lost_files(alloc, cat)?;
    let full = enter_full(alloc, m, g, cat, lost.full.as_slice())?;
    let empty = enter_empty(alloc, m, g, cat, lost.empty.as_slice())?;
    Ok(full + empty)
}
