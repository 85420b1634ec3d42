//! Which entry a file keeps: the first that names it.

ghost use Rattle.std.specs.Prelude.{◌≡◌, ◌≤◌, ◌++◌, ◌∷◌, [], ◌-◌, List, map, is_some, slice_get, IfOk};
ghost use Rattle.plain_rules.specs.declared.places.Place.{Place};
ghost use Rattle.plain_rules.specs.Lookups.{in_use, live};
ghost use Rattle.plain_rules.specs.Mending.{same_place, places};
ghost use Rattle.vol_parts.specs.Warnings.{is_second, is_lost_file};
ghost use Rattle.vol_faults.specs.Places.{place_of, place_in, first_at, AreFirsts, is_new, is_there, is_kept};

use crate::places::Spot;
use plain_cat::{Cat, Fid, NoMemory, Slot};
use plain_rules::{in_use, is_own, live};
use std::alloc::Global;

// Whether an identifier is that of a file in use.
fn is_in_use(cat: &Cat, fid: Fid) -> bool
    ensures { result ≡ is_some (in_use cat.now fid) }
{
    in_use(cat, fid).is_some()
}

// Whether an identifier is that of a live file.
pub(crate) fn is_live(cat: &Cat, fid: Fid) -> bool
    ensures { result ≡ is_some (live cat.now fid) }
{
    live(cat, fid).is_some()
}

// What a table has for a file number.
pub(crate) fn first_at<'a>(table: &[Option<Spot<'a>>], n: u32) -> Option<Spot<'a>>
    ensures { result ≡ first_at table.now n }
{
    match table.get((n as usize).saturating_sub(1)) {
        Some(first) => *first,
        None => None,
    }
}

// Whether an entry names a file in use of which the table has no entry yet.
fn is_new(cat: &Cat, table: &[Option<Spot<'_>>], spot: &Spot<'_>) -> bool
    ensures { result ≡ is_new cat.now table.now (place_of spot.now) }
{
    let n = spot.entry.fid.num;
    is_in_use(cat, spot.entry.fid)
        && (n as usize).saturating_sub(1) < table.len()
        && first_at(table, n).is_none()
}

// Looks at one entry more.
pub(crate) fn note<'a>(cat: &Cat, table: &mut Vec<Option<Spot<'a>>>, spot: &Spot<'a>)
    ensures { (ps : List Place) → AreFirsts cat.now ps table.old.items → AreFirsts cat.now (ps ++ place_of spot.now ∷ []) table.new.items }
{
    if is_new(cat, table.as_slice(), spot) {
        table[(spot.entry.fid.num as usize).saturating_sub(1)] = Some(*spot);
    }
}

// A table that has no entry.
#[tactic(auto, using(crate::proofs::Firsting::firsts_none))]
pub(crate) fn no_firsts<'a>(alloc: Global, cat: &Cat) -> Result<Vec<Option<Spot<'a>>>, NoMemory>
    ensures { IfOk result (λ v. AreFirsts cat.now [] v.items) }
{
    let mut table = Vec::new(alloc);
    for _slot in cat.files.items() {
        table.push(None)?;
    }
    Ok(table)
}

// For each file number, the first of these entries that names its file.
fn firsts<'a>(
    alloc: Global,
    cat: &Cat,
    spots: &[Spot<'a>],
) -> Result<Vec<Option<Spot<'a>>>, NoMemory>
    ensures { IfOk result (λ v. AreFirsts cat.now (map place_of spots.now) v.items) }
{
    let mut table = no_firsts(alloc, cat)?;
    for spot in spots {
        note(cat, &mut table, spot);
    }
    Ok(table)
}

/// For each file number, at the place one below it, the first of all entries that names its file. `spots` are all entries of
/// the catalogue, as `spots` gives them. An error says that memory ran out.
pub fn all_firsts<'a>(
    alloc: Global,
    cat: &Cat,
    spots: &[Spot<'a>],
) -> Result<Vec<Option<Spot<'a>>>, NoMemory>
    requires { map place_of spots.now ≡ places cat.now }
    ensures { IfOk result (λ v. AreFirsts cat.now (places cat.now) v.items) }
{
    firsts(alloc, cat, spots)
}

// Whether two entries stand in one directory under one name and version.
#[tactic(auto, unfolding(plain_rules::specs::Mending::same_place))]
fn is_same_place(a: &Spot<'_>, b: &Spot<'_>) -> bool
    ensures { result ≡ same_place (place_of a.now) (place_of b.now) }
{
    a.dir == b.dir && a.entry.name.is_same(&b.entry.name) && a.entry.ver == b.entry.ver
}

// Whether an entry is the first one of its file.
fn is_first(table: &[Option<Spot<'_>>], spot: &Spot<'_>) -> bool
    ensures { result ≡ is_there (place_of spot.now) (place_in (first_at table.now spot.now.entry.now.fid.num)) }
{
    match first_at(table, spot.entry.fid.num) {
        Some(first) => is_same_place(&first, spot),
        None => false,
    }
}

// Whether an entry is the one that its file keeps.
pub(crate) fn is_kept(table: &[Option<Spot<'_>>], spot: &Spot<'_>) -> bool
    ensures { result ≡ is_kept table.now (place_of spot.now) }
{
    if spot.entry.fid.num <= 11 {
        is_own(spot.dir, spot.entry)
    } else {
        is_first(table, spot)
    }
}

/// Whether an entry is one of a live file that keeps another one. `table` has the first entries of all files, as `all_firsts`
/// gives them.
pub fn is_second(cat: &Cat, table: &[Option<Spot<'_>>], spot: &Spot<'_>) -> bool
    requires { AreFirsts cat.now (places cat.now) table.now }
    ensures { result ≡ is_second cat.now (place_of spot.now) }
{
    is_live(cat, spot.entry.fid) && !is_kept(table, spot)
}

/// Whether a slot has a file that is not marked for delete and stands in no directory. `table` has the first entries of all
/// files, as `all_firsts` gives them, and `slot` is that of the number `n`, which counts from 1.
pub fn is_lost(cat: &Cat, table: &[Option<Spot<'_>>], n: u32, slot: &Slot) -> bool
    requires firsts { AreFirsts cat.now (places cat.now) table.now }
    requires number { 1 ≤ n }
    requires here { slice_get cat.now.files (n - 1) ≡ Some slot.now }
    ensures { result ≡ is_lost_file cat.now n slot.now }
{
    match slot {
        Slot::Used(file) => !file.marked && first_at(table, n).is_none(),
        Slot::Free(_) => false,
    }
}
