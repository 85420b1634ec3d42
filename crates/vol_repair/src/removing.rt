//! Entries that go out of their directories.

ghost use Rattle.std.specs.Prelude.{◌≡◌, ◌&&◌, ◌-◌, ◌∷◌, [], Err, map, length, IfOk, OnOk};
ghost use Rattle.plain_cat.specs.declared.cat.Cat.{Cat};
ghost use Rattle.plain_cat.specs.declared.cat.Slot.TheVariants.{Used};
ghost use Rattle.plain_rules.specs.Changes.{with_entries};
ghost use Rattle.plain_rules.specs.Directories.{without, is_entry};
ghost use Rattle.vol_sound.specs.Begun.{with_each};
ghost use Rattle.vol_repair.specs.Alike.{IsSpeltAs, IsSameBut, TellsAlike};
ghost use Rattle.vol_repair.specs.Removing.{place_from, lists, without_told, IsListed, MovesSpell};
ghost use Rattle.vol_repair.specs.Steps.{IsStep};

use crate::bodies::{Moves, body};
use crate::fault::StepFault;
use crate::making::make_moves;
use base_words::Block;
use blk_drive::{ImageDev, Mirror};
use fx_dir::remove_moves;
use plain_cat::{Cat, DirEnt, DirEnts, File, Name, NoMemory, Slot};
use plain_rules::file_at;
use std::alloc::Global;
use vol_parts::Geometry;

// An entry that goes, and the number of its directory.
#[derive(Drop)]
pub(crate) struct Leaver {
    pub(crate) dir: u32,
    pub(crate) entry: DirEnt,
}

// Whether an entry has this name and version.
#[tactic(auto, unfolding(plain_rules::specs::Directories::is_entry))]
fn is_entry(e: &DirEnt, name: &Name, ver: u16) -> bool
    ensures { result ≡ is_entry name.now ver e.now }
{
    e.name.is_same(name) && e.ver == ver
}

// Whether a directory's entries have the name and version of one that goes.
fn lists(entries: &DirEnts, l: &Leaver) -> bool
    ensures { result ≡ lists (place_from l.now) entries.now }
{
    entries
        .items()
        .iter()
        .any(|e| is_entry(e, &l.entry.name, l.entry.ver))
}

// The entries of another name or version.
fn without(alloc: Global, entries: &DirEnts, name: &Name, ver: u16) -> Result<DirEnts, NoMemory>
    ensures { IfOk result (λ es. es ≡ without name.now ver entries.now) }
{
    let mut left = DirEnts::new(alloc);
    for e in entries.items() {
        if !is_entry(e, name, ver) {
            left.push(e.copy(alloc)?)?;
        }
    }
    Ok(left)
}

// The slot of a directory that has these entries in place of its own.
fn with_entries(alloc: Global, dir: &File, entries: DirEnts) -> Result<Slot, NoMemory>
    ensures { IfOk result (λ s. s ≡ Used (record dir.now { entries = entries })) }
{
    let mut file = dir.copy(alloc)?;
    file.entries = entries;
    Ok(Slot::Used(file))
}

// The slot of a directory without an entry of it.
fn less(alloc: Global, dir: &File, l: &Leaver) -> Result<Slot, NoMemory>
    ensures { IfOk result (λ s. s ≡ Used (record dir.now { entries = without l.now.entry.name l.now.entry.ver dir.now.entries })) }
{
    let left = without(alloc, &dir.entries, &l.entry.name, l.entry.ver)?;
    with_entries(alloc, dir, left)
}

// The moves by which an entry of the directory `dir` goes.
fn removal(
    alloc: Global,
    g: &Geometry,
    blocks: &[Block],
    cat: &Cat,
    dir: &File,
    l: &Leaver,
) -> Result<Moves, NoMemory>
    requires told { IsSpeltAs g.now blocks.now cat.now }
    requires listed { IsListed cat.now (place_from l.now) dir.now }
    ensures { IfOk result (λ x. MovesSpell g.now blocks.now cat.now (with_entries cat.now l.now.dir dir.now (without l.now.entry.name l.now.entry.ver dir.now.entries)) x.places.items x.moves.items) }
{
    let body = body(alloc, g, blocks, l.dir)?;
    let moves = remove_moves(
        alloc,
        body.blocks.as_slice(),
        l.entry.name.items(),
        l.entry.ver,
    )?;
    Ok(Moves {
        places: body.places,
        moves,
    })
}

// Removes an entry, if its directory has it.
fn remove<I: ImageDev>(
    alloc: Global,
    m: &mut Mirror<I>,
    g: &Geometry,
    cat: &mut Cat,
    l: &Leaver,
) -> Result<(), StepFault>
    requires told { IsSpeltAs g.now m.old.blocks cat.old }
    ensures step { (c : Cat) → IsSameBut c cat.old
        → IsStep (TellsAlike g.now c) m.old.blocks m.new.blocks (I.told m.old.image) (I.told m.new.image) (I.faults m.old.image) (I.faults m.new.image) (result ≡ Err StepFault.ImageFault) }
    ensures told { OnOk result (IsSpeltAs g.now m.new.blocks cat.new) }
    ensures cat { OnOk result (cat.new ≡ with_each (without_told (place_from l.now ∷ [])) cat.old) }
{
    let Some(dir) = file_at(cat, l.dir) else {
        return Ok(());
    };
    if !dir.dir || !lists(&dir.entries, l) {
        return Ok(());
    }
    let slot = less(alloc, dir, l)?;
    let x = removal(alloc, g, m.all(), cat, dir, l)?;
    make_moves(m, x.places.as_slice(), x.moves.as_slice())?;
    cat.files.set(l.dir as usize - 1, slot);
    Ok(())
}

// Removes these entries, each from its directory, if that has it.
pub(crate) fn remove_entries<I: ImageDev>(
    alloc: Global,
    m: &mut Mirror<I>,
    g: &Geometry,
    cat: &mut Cat,
    leavers: &[Leaver],
) -> Result<(), StepFault>
    requires told { IsSpeltAs g.now m.old.blocks cat.old }
    ensures step { IsStep (TellsAlike g.now cat.old) m.old.blocks m.new.blocks (I.told m.old.image) (I.told m.new.image) (I.faults m.old.image) (I.faults m.new.image) (result ≡ Err StepFault.ImageFault) }
    ensures told { OnOk result (IsSpeltAs g.now m.new.blocks cat.new) }
    ensures cat { OnOk result (cat.new ≡ with_each (without_told (map place_from leavers.now)) cat.old) }
{
    for l in leavers {
        remove(alloc, m, g, cat, l)?;
    }
    Ok(())
}
