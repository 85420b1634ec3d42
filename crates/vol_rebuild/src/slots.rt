//! Step 3: the slots of files that are marked for delete or still in no directory become free.

ghost use Rattle.std.specs.Prelude.{◌≡◌, ◌≤◌, ◌<◌, ◌+◌, ◌-◌, ◌^◌, Err, Some, [], true, false, length, slice_get, IfOk, OnOk};
ghost use Rattle.plain_cat.specs.declared.cat.File.{File};
ghost use Rattle.plain_rules.specs.Changes.{freed};
ghost use Rattle.plain_rules.specs.Lookups.{file_at};
ghost use Rattle.plain_rules.specs.Mending.{places, lost};
ghost use Rattle.plain_mends.specs.Waiting.{Settled, AreFull};
ghost use Rattle.vol_faults.specs.Places.{AreFirsts};
ghost use Rattle.vol_mends.specs.Told.{IsTold, KeepsSingles};
ghost use Rattle.vol_rebuild.specs.Leaving.{is_gone_slot, gone_numbers};
ghost use Rattle.vol_rebuild.specs.Steps.{TellsFiles, IsGone, AreFreed};
ghost use Rattle.vol_rebuild.specs.Ways.{IsStep};

use crate::fault::StepFault;
use crate::making::{block_is_whole, make};
use blk_drive::{ImageDev, Mirror};
use fx_header::free_slot;
use plain_cat::{Cat, NoMemory, Slot};
use plain_rules::file_at;
use std::alloc::Global;
use vol_faults::{Spot, all_firsts, is_lost, spots};
use vol_parts::Geometry;

// Whether a slot's file is marked for delete, or in no directory.
fn is_gone_slot(cat: &Cat, firsts: &[Option<Spot<'_>>], n: u32, slot: &Slot) -> bool
    requires firsts { AreFirsts cat.now (places cat.now) firsts.now }
    requires number { 1 ≤ n }
    requires here { slice_get cat.now.files (n - 1) ≡ Some slot.now }
    ensures { result ≡ is_gone_slot cat.now n slot.now }
{
    match slot {
        Slot::Used(file) => file.marked || is_lost(cat, firsts, n, slot),
        Slot::Free(_) => false,
    }
}

// The numbers of the files that are marked for delete, or in no directory, rising.
fn gone_of(alloc: Global, cat: &Cat, firsts: &[Option<Spot<'_>>]) -> Result<Vec<u32>, NoMemory>
    requires firsts { AreFirsts cat.now (places cat.now) firsts.now }
    requires numbers { length cat.now.files ≤ 4096 }
    ensures numbers { IfOk result (λ v. v.items ≡ gone_numbers cat.now) }
    ensures few { IfOk result (λ v. length v.items ≤ 4096) }
{
    let mut found = Vec::new(alloc);
    for (i, slot) in cat.files.items().iter().enumerate() {
        let n = i as u32 + 1;
        if is_gone_slot(cat, firsts, n, slot) {
            found.push(n)?;
        }
    }
    Ok(found)
}

fn gone_numbers(alloc: Global, cat: &Cat) -> Result<Vec<u32>, NoMemory>
    requires { length cat.now.files ≤ 4096 }
    ensures numbers { IfOk result (λ v. v.items ≡ gone_numbers cat.now) }
    ensures few { IfOk result (λ v. length v.items ≤ 4096) }
{
    let spots = spots(alloc, cat)?;
    let firsts = all_firsts(alloc, cat, spots.as_slice())?;
    gone_of(alloc, cat, firsts.as_slice())
}

// The catalogue with the slot of file n free. What is leaked then it does not say: the bitmaps are written by the headers.
fn leave(cat: &mut Cat, n: u32, seq: u16)
    requires file { (f : File) × (file_at cat.old n ≡ Some f) × (f.seq ≡ seq) }
    ensures { (f : File) → file_at cat.old n ≡ Some f → cat.new ≡ freed cat.old n f }
{
    cat.files.set(n as usize - 1, Slot::Free(seq));
}

// Frees the slot of the first header of a file. Its other headers are in no chain then.
fn free<I: ImageDev>(
    m: &mut Mirror<I>,
    g: &Geometry,
    cat: &mut Cat,
    n: u32,
) -> Result<(), StepFault>
    requires told { TellsFiles g.now m.old.blocks cat.old }
    requires gone { IsGone cat.old n }
    ensures step { IsStep m.old.blocks m.new.blocks (I.told m.old.image) (I.told m.new.image) (I.faults m.old.image) (I.faults m.new.image) (result ≡ Err StepFault.ImageFault) }
    ensures told { OnOk result (TellsFiles g.now m.new.blocks cat.new) }
    ensures left { (f : File) → file_at cat.old n ≡ Some f → OnOk result (cat.new ≡ freed cat.old n f) }
    ensures singles { OnOk result (KeepsSingles g.now m.old.blocks m.new.blocks) }
{
    let Some(file) = file_at(cat, n) else {
        return Ok(());
    };
    let seq = file.seq;
    let b = free_slot(seq);
    block_is_whole(b);
    make(m, 4 * g.cluster + n, &b)?;
    leave(cat, n, seq);
    Ok(())
}

// Frees the slots, and says how many they were.
pub(crate) fn free_slots<I: ImageDev>(
    alloc: Global,
    m: &mut Mirror<I>,
    g: &Geometry,
    cat: &mut Cat,
) -> Result<u32, StepFault>
    requires told { IsTold g.now m.old.blocks cat.old }
    requires settled { Settled cat.old }
    requires none { lost cat.old false ≡ [] }
    requires full { AreFull cat.old (lost cat.old true) }
    ensures step { IsStep m.old.blocks m.new.blocks (I.told m.old.image) (I.told m.new.image) (I.faults m.old.image) (I.faults m.new.image) (result ≡ Err StepFault.ImageFault) }
    ensures ok { IfOk result (AreFreed g.now cat.old cat.new m.old.blocks m.new.blocks) }
{
    let numbers = gone_numbers(alloc, cat)?;
    for n in &numbers {
        free(m, g, cat, *n)?;
    }
    Ok(numbers.len() as u32)
}
