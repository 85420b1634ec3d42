//! The entries that stay once a volume is mended, and the files that are lost then.

ghost use Rattle.std.specs.Prelude.{◌≡◌, ◌≤◌, ◌-◌, ◌++◌, ◌∷◌, ◌&&◌, [], List, false, not, filter, is_none, length, map, slice_get, IfOk};
ghost use Rattle.plain_rules.specs.declared.places.Place.{Place};
ghost use Rattle.plain_rules.specs.Directories.{is_nil};
ghost use Rattle.plain_rules.specs.Mending.{is_empty, lost, places, stays, stripped};
ghost use Rattle.vol_faults.specs.Places.{place_of, first_at, AreFirsts};
ghost use Rattle.vol_faults.specs.Waiting.{staying, is_waiting};

use crate::keeping::{first_at, is_kept, is_live, no_firsts, note};
use crate::places::Spot;
use plain_cat::{Cat, DirEnt, DirEnts, File, NoMemory, Slot};
use std::alloc::Global;

/// Whether an entry stays once the volume is mended: it names a live file, which keeps it. `firsts` has the first entries of all
/// files, as `all_firsts` gives them.
pub fn stays(cat: &Cat, firsts: &[Option<Spot<'_>>], spot: &Spot<'_>) -> bool
    requires { AreFirsts cat.now (places cat.now) firsts.now }
    ensures { result ≡ stays cat.now (place_of spot.now) }
{
    is_live(cat, spot.entry.fid) && is_kept(firsts, spot)
}

// Looks at one entry more, and leaves it out where it does not stay.
fn note_staying<'a>(
    cat: &Cat,
    firsts: &[Option<Spot<'a>>],
    table: &mut Vec<Option<Spot<'a>>>,
    spot: &Spot<'a>,
)
    requires { AreFirsts cat.now (places cat.now) firsts.now }
    ensures { (ps : List Place) → AreFirsts cat.now (filter (stays cat.now) ps) table.old.items → AreFirsts cat.now (filter (stays cat.now) (ps ++ place_of spot.now ∷ [])) table.new.items }
{
    if stays(cat, firsts, spot) {
        note(cat, table, spot);
    }
}

// For each file number, the first of those of these entries that stay which names its file.
pub(crate) fn staying_firsts<'a>(
    alloc: Global,
    cat: &Cat,
    firsts: &[Option<Spot<'a>>],
    spots: &[Spot<'a>],
) -> Result<Vec<Option<Spot<'a>>>, NoMemory>
    requires { AreFirsts cat.now (places cat.now) firsts.now }
    ensures { IfOk result (λ v. AreFirsts cat.now (filter (stays cat.now) (map place_of spots.now)) v.items) }
{
    let mut table = no_firsts(alloc, cat)?;
    for spot in spots {
        note_staying(cat, firsts, &mut table, spot);
    }
    Ok(table)
}

// Those of these entries of the directory `dir` that stay.
pub(crate) fn staying_entries(
    alloc: Global,
    cat: &Cat,
    firsts: &[Option<Spot<'_>>],
    dir: u32,
    entries: &DirEnts,
) -> Result<DirEnts, NoMemory>
    requires { AreFirsts cat.now (places cat.now) firsts.now }
    ensures { IfOk result (λ es. es ≡ staying cat.now dir entries.now) }
{
    let mut kept = DirEnts::new(alloc);
    for entry in entries.items() {
        if stays(cat, firsts, &Spot { dir, entry }) {
            kept.push(entry.copy(alloc)?)?;
        }
    }
    Ok(kept)
}

// Whether none of these entries of the directory `dir` stays.
fn none_stays(cat: &Cat, firsts: &[Option<Spot<'_>>], dir: u32, entries: &[DirEnt]) -> bool
    requires { AreFirsts cat.now (places cat.now) firsts.now }
    ensures { result ≡ is_nil (staying cat.now dir entries.now) }
{
    for entry in entries {
        if stays(cat, firsts, &Spot { dir, entry }) {
            return false;
        }
    }
    true
}

// Whether nothing was written to a file, or it is a directory of which no entry stays.
fn is_emptied(cat: &Cat, firsts: &[Option<Spot<'_>>], n: u32, file: &File) -> bool
    requires { AreFirsts cat.now (places cat.now) firsts.now }
    ensures { result ≡ is_empty (record file.now { entries = staying cat.now n file.now.entries }) }
{
    file.mark == 1 || (file.dir && none_stays(cat, firsts, n, file.entries.items()))
}

// Whether a file is not marked for delete, and `named` has no entry of it.
fn is_unnamed(named: &[Option<Spot<'_>>], n: u32, file: &File) -> bool
    ensures { result ≡ (not file.now.marked && is_none (first_at named.now n)) }
{
    !file.marked && first_at(named, n).is_none()
}

// Whether a slot's file is lost and not empty, once the entries that go are gone. `named` has the first of those that stay.
fn is_waiting(
    cat: &Cat,
    firsts: &[Option<Spot<'_>>],
    named: &[Option<Spot<'_>>],
    n: u32,
    slot: &Slot,
) -> bool
    requires firsts { AreFirsts cat.now (places cat.now) firsts.now }
    requires named { AreFirsts cat.now (filter (stays cat.now) (places cat.now)) named.now }
    requires number { 1 ≤ n }
    requires here { slice_get cat.now.files (n - 1) ≡ Some slot.now }
    ensures { result ≡ is_waiting cat.now n slot.now }
{
    match slot {
        Slot::Used(file) => is_unnamed(named, n, file) && !is_emptied(cat, firsts, n, file),
        Slot::Free(_) => false,
    }
}

// The numbers of the files that are lost and not empty, once the entries that go are gone.
pub(crate) fn waiting(
    alloc: Global,
    cat: &Cat,
    firsts: &[Option<Spot<'_>>],
    named: &[Option<Spot<'_>>],
) -> Result<Vec<u32>, NoMemory>
    requires numbers { length cat.now.files ≤ 4096 }
    requires firsts { AreFirsts cat.now (places cat.now) firsts.now }
    requires named { AreFirsts cat.now (filter (stays cat.now) (places cat.now)) named.now }
    ensures { IfOk result (λ v. v.items ≡ lost (stripped cat.now) false) }
{
    let mut found = Vec::new(alloc);
    for (i, slot) in cat.files.items().iter().enumerate() {
        let n = i as u32 + 1;
        if is_waiting(cat, firsts, named, n, slot) {
            found.push(n)?;
        }
    }
    Ok(found)
}
