//! Step 1: the entries that do not stay are removed.

ghost use Rattle.std.specs.Prelude.{◌≡◌, ◌≤◌, ◌<◌, ◌-◌, Err, Some, map, length, IfOk, OnOk};
ghost use Rattle.plain_cat.specs.declared.cat.File.{File};
ghost use Rattle.plain_cat.specs.declared.cat.Slot.TheVariants.{Used};
ghost use Rattle.plain_rules.specs.Directories.{without, is_entry};
ghost use Rattle.plain_rules.specs.Mending.{places};
ghost use Rattle.plain_mends.specs.Resuming.{Goes, less_one};
ghost use Rattle.vol_faults.specs.Places.{place_of, AreFirsts};
ghost use Rattle.vol_mends.specs.Told.{IsTold};
ghost use Rattle.vol_rebuild.specs.Leaving.{leavers_of, leavers, place_from};
ghost use Rattle.vol_rebuild.specs.Places.{DirLeads};
ghost use Rattle.vol_rebuild.specs.Steps.{IsStripped};
ghost use Rattle.vol_rebuild.specs.Ways.{IsStep};

use crate::fault::StepFault;
use crate::making::make_moves;
use crate::places::{Moves, body};
use base_words::Block;
use blk_drive::{ImageDev, Mirror};
use fx_dir::remove_moves;
use plain_cat::{Cat, DirEnt, DirEnts, File, Name, NoMemory, Slot};
use plain_rules::file_at;
use std::alloc::Global;
use vol_faults::{Spot, all_firsts, spots, stays};
use vol_parts::Geometry;

// An entry that goes, and the number of its directory.
#[derive(Drop)]
pub(crate) struct Leaver {
    pub(crate) dir: u32,
    pub(crate) entry: DirEnt,
}

// Of these entries, those that do not stay.
fn leavers_of(
    alloc: Global,
    cat: &Cat,
    firsts: &[Option<Spot<'_>>],
    spots: &[Spot<'_>],
) -> Result<Vec<Leaver>, NoMemory>
    requires { AreFirsts cat.now (places cat.now) firsts.now }
    ensures { IfOk result (λ v. map place_from v.items ≡ leavers_of cat.now (map place_of spots.now)) }
{
    let mut all = Vec::new(alloc);
    for spot in spots {
        if !stays(cat, firsts, spot) {
            all.push(Leaver {
                dir: spot.dir,
                entry: spot.entry.copy(alloc)?,
            })?;
        }
    }
    Ok(all)
}

// The entries that do not stay, by directory number, name and falling version.
fn leavers(alloc: Global, cat: &Cat) -> Result<Vec<Leaver>, NoMemory>
    requires { length cat.now.files ≤ 4096 }
    ensures { IfOk result (λ v. map place_from v.items ≡ leavers cat.now) }
{
    let spots = spots(alloc, cat)?;
    let firsts = all_firsts(alloc, cat, spots.as_slice())?;
    leavers_of(alloc, cat, firsts.as_slice(), spots.as_slice())
}

#[tactic(auto, unfolding(plain_rules::specs::Directories::is_entry))]
fn is_entry(e: &DirEnt, name: &Name, ver: u16) -> bool
    ensures { result ≡ is_entry name.now ver e.now }
{
    e.name.is_same(name) && e.ver == ver
}

// The entries of another name or version.
fn without(alloc: Global, entries: &DirEnts, name: &Name, ver: u16) -> Result<DirEnts, NoMemory>
    ensures { IfOk result (λ es. es ≡ without name.now ver entries.now) }
{
    let mut left = DirEnts::new(alloc);
    for e in entries.items() {
        if !is_entry(e, name, ver) {
            left.push(e.copy(alloc)?)?;
        }
    }
    Ok(left)
}

// The slot of a directory that has these entries in place of its own.
pub(crate) fn with_entries(alloc: Global, dir: &File, entries: DirEnts) -> Result<Slot, NoMemory>
    ensures { IfOk result (λ s. s ≡ Used (record dir.now { entries = entries })) }
{
    let mut file = dir.copy(alloc)?;
    file.entries = entries;
    Ok(Slot::Used(file))
}

// The slot of the directory without an entry of it.
fn less(alloc: Global, dir: &File, l: &Leaver) -> Result<Slot, NoMemory>
    ensures { IfOk result (λ s. s ≡ Used (record dir.now { entries = without l.now.entry.name l.now.entry.ver dir.now.entries })) }
{
    let left = without(alloc, &dir.entries, &l.entry.name, l.entry.ver)?;
    with_entries(alloc, dir, left)
}

// The moves by which an entry of the directory `dir` goes.
fn removal(
    alloc: Global,
    g: &Geometry,
    blocks: &[Block],
    cat: &Cat,
    dir: &File,
    l: &Leaver,
) -> Result<Moves, NoMemory>
    requires told { IsTold g.now blocks.now cat.now }
    requires goes { Goes cat.now (place_from l.now) dir.now }
    ensures { IfOk result (λ x. DirLeads g.now blocks.now (less_one cat.now (place_from l.now) dir.now) l.now.dir x.places.items x.moves.items) }
{
    let body = body(alloc, g, blocks, l.dir)?;
    let moves = remove_moves(
        alloc,
        body.blocks.as_slice(),
        l.entry.name.items(),
        l.entry.ver,
    )?;
    Ok(Moves {
        places: body.places,
        moves,
    })
}

// Removes an entry.
fn remove<I: ImageDev>(
    alloc: Global,
    m: &mut Mirror<I>,
    g: &Geometry,
    cat: &mut Cat,
    l: &Leaver,
) -> Result<(), StepFault>
    requires told { IsTold g.now m.old.blocks cat.old }
    requires goes { (dir : File) × Goes cat.old (place_from l.now) dir }
    ensures step { IsStep m.old.blocks m.new.blocks (I.told m.old.image) (I.told m.new.image) (I.faults m.old.image) (I.faults m.new.image) (result ≡ Err StepFault.ImageFault) }
    ensures told { OnOk result (IsTold g.now m.new.blocks cat.new) }
    ensures less { (dir : File) → Goes cat.old (place_from l.now) dir → OnOk result (cat.new ≡ less_one cat.old (place_from l.now) dir) }
{
    let Some(dir) = file_at(cat, l.dir) else {
        return Ok(());
    };
    let slot = less(alloc, dir, l)?;
    let x = removal(alloc, g, m.all(), cat, dir, l)?;
    make_moves(m, x.places.as_slice(), x.moves.as_slice())?;
    cat.files.set(l.dir as usize - 1, slot);
    Ok(())
}

// Removes the entries that do not stay, and says how many they were.
pub(crate) fn strip<I: ImageDev>(
    alloc: Global,
    m: &mut Mirror<I>,
    g: &Geometry,
    cat: &mut Cat,
) -> Result<u32, StepFault>
    requires { IsTold g.now m.old.blocks cat.old }
    ensures step { IsStep m.old.blocks m.new.blocks (I.told m.old.image) (I.told m.new.image) (I.faults m.old.image) (I.faults m.new.image) (result ≡ Err StepFault.ImageFault) }
    ensures ok { IfOk result (IsStripped g.now cat.old cat.new m.new.blocks) }
{
    let all = leavers(alloc, cat)?;
    let Ok(count) = u32::try_from(all.len()) else {
        return Err(StepFault::NoMemory);
    };
    for l in &all {
        remove(alloc, m, g, cat, l)?;
    }
    Ok(count)
}
