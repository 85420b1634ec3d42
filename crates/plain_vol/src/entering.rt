//! The entries of all directories, and lost files that are entered again.

ghost use Rattle.std.specs.Prelude.{◌≡◌, ◌≤◌, ◌+◌, ◌++◌, ◌<◌, map, length, IfOk, OnOk};
ghost use Rattle.std.specs.List.{list_any};
ghost use Rattle.plain_cat.specs.declared.entries.DirEnt.{DirEnt};
ghost use Rattle.plain_rules.specs.declared.places.Place.{Place};
ghost use Rattle.plain_rules.specs.Mending.{places, same_fid, same_place, is_first, is_empty, is_lost_slot, lost, enter, enter_all, enter_some};
ghost use Rattle.plain_vol.specs.Makings.{changed};
ghost use Rattle.plain_vol.specs.Mends.{entered_as, IsEntering};

use crate::changes::{set_slot, take_file};
use plain_cat::{Cat, DirEnt, DirEnts, Fid, File, NoMemory, Slot};
use plain_rules::{Place, entries_in, file_at, with_lost_entry};
use std::alloc::Global;

fn push_places(
    alloc: Global,
    all: &mut Vec<Place>,
    dir: u32,
    entries: &[DirEnt],
) -> Result<(), NoMemory>
    ensures { OnOk result (all.new.items ≡ all.old.items ++ map (λ (e : DirEnt). record { dir = dir; entry = e }) entries.now) }
{
    for e in entries {
        all.push(Place {
            dir,
            entry: e.copy(alloc)?,
        })?;
    }
    Ok(())
}

// The entries of all directories, by directory number, name and falling version.
pub(crate) fn places(alloc: Global, cat: &Cat) -> Result<Vec<Place>, NoMemory>
    requires { length cat.now.files ≤ 4096 }
    ensures { IfOk result (λ v. v.items ≡ places cat.now) }
{
    let mut all = Vec::new(alloc);
    for (i, slot) in cat.files.items().iter().enumerate() {
        push_places(alloc, &mut all, i as u32 + 1, entries_in(slot))?;
    }
    Ok(all)
}

#[tactic(auto, unfolding(plain_rules::specs::Mending::same_fid))]
fn is_same_fid(a: Fid, b: Fid) -> bool
    ensures { result ≡ same_fid a b }
{
    a.num == b.num && a.seq == b.seq
}

#[tactic(auto, unfolding(plain_rules::specs::Mending::same_place))]
fn is_at(p: &Place, dir: u32, e: &DirEnt) -> bool
    ensures { result ≡ same_place p.now (record { dir = dir; entry = e.now }) }
{
    p.dir == dir && p.entry.name.is_same(&e.name) && p.entry.ver == e.ver
}

// Whether an entry is the first one of its file.
pub(crate) fn is_first(dir: u32, e: &DirEnt, all: &[Place]) -> bool
    ensures { result ≡ is_first (record { dir = dir; entry = e.now }) all.now }
{
    for p in all {
        if is_same_fid(p.entry.fid, e.fid) {
            return is_at(p, dir, e);
        }
    }
    false
}

// Whether an entry names this file.
pub(crate) fn is_named(all: &[Place], fid: Fid) -> bool
    ensures { result ≡ list_any (λ (p : Place). same_fid p.entry.fid fid) all.now }
{
    all.iter().any(|p| is_same_fid(p.entry.fid, fid))
}

fn is_empty(file: &File) -> bool
    ensures { result ≡ is_empty file.now }
{
    file.mark == 1 || (file.dir && file.entries.items().is_empty())
}

fn is_lost(cat: &Cat, all: &[Place], n: u32, slot: &Slot, empty: bool) -> bool
    requires { all.now ≡ places cat.now }
    ensures { result ≡ is_lost_slot cat.now empty n slot.now }
{
    match slot {
        Slot::Used(file) => {
            let fid = Fid {
                num: n,
                seq: file.seq,
            };
            !file.marked
                && !is_named(all, fid)
                && (if empty {
                    is_empty(file)
                } else {
                    !is_empty(file)
                })
        }
        Slot::Free(_) => false,
    }
}

// The numbers of the lost files that are empty, or of those that are not.
pub(crate) fn lost(
    alloc: Global,
    cat: &Cat,
    all: &[Place],
    empty: bool,
) -> Result<Vec<u32>, NoMemory>
    requires places { all.now ≡ places cat.now }
    requires numbers { length cat.now.files ≤ 4096 }
    ensures { IfOk result (λ v. v.items ≡ lost cat.now empty) }
{
    let mut found = Vec::new(alloc);
    for (i, slot) in cat.files.items().iter().enumerate() {
        let n = i as u32 + 1;
        if is_lost(cat, all, n, slot, empty) {
            found.push(n)?;
        }
    }
    Ok(found)
}

// The entries of [SYSLOST] with that of a lost file, if there is room.
#[tactic(auto, unfolding(plain_rules::specs::Mending::enter))]
fn with_lost(alloc: Global, cat: &Cat, n: u32) -> Result<Option<DirEnts>, NoMemory>
    ensures { IfOk result (λ o. entered_as cat.now o ≡ enter cat.now n) }
{
    let Some(d) = file_at(cat, 11) else {
        return Ok(None);
    };
    let Some(file) = file_at(cat, n) else {
        return Ok(None);
    };
    with_lost_entry(alloc, &d.entries, n, file.seq, cat.factor)
}

// Gives a directory these entries in place of its own.
fn put_entries(cat: &mut Cat, n: u32, entries: DirEnts)
    ensures { cat.new ≡ changed cat.old n (λ d. record d { entries = entries }) }
{
    let Some(mut dir) = take_file(cat, n) else {
        return;
    };
    dir.entries = entries;
    set_slot(cat, n, Slot::Used(dir));
}

// Enters a lost file in [SYSLOST], if there is room: whether there was.
fn enter(alloc: Global, cat: &mut Cat, n: u32) -> Result<bool, NoMemory>
    ensures { IfOk result (IsEntering cat.old cat.new n) }
{
    let Some(entries) = with_lost(alloc, cat, n)? else {
        return Ok(false);
    };
    put_entries(cat, 11, entries);
    Ok(true)
}

// Enters these files, or none where one has no room.
pub(crate) fn enter_all(alloc: Global, cat: Cat, numbers: &[u32]) -> Result<Option<Cat>, NoMemory>
    ensures { IfOk result (λ o. o ≡ enter_all numbers.now cat) }
{
    let mut after = cat;
    for n in numbers {
        if !enter(alloc, &mut after, *n)? {
            return Ok(None);
        }
    }
    Ok(Some(after))
}

// Enters those of these files for which there is room.
pub(crate) fn enter_some(alloc: Global, cat: Cat, numbers: &[u32]) -> Result<Cat, NoMemory>
    ensures { IfOk result (λ d. d ≡ enter_some numbers.now cat) }
{
    let mut after = cat;
    for n in numbers {
        let _entered = enter(alloc, &mut after, *n)?;
    }
    Ok(after)
}
