//! Step 3: directories to which a chain of entries leads back lose their entries of directories.

ghost use Rattle.std.specs.Prelude.{◌≡◌, ◌≤◌, Err, filter, length, map, IfOk, OnOk};
ghost use Rattle.std.specs.List.{range_with_len};
ghost use Rattle.plain_rules.specs.Mending.{places};
ghost use Rattle.vol_faults.specs.Conditions.{IsSize};
ghost use Rattle.vol_faults.specs.Places.{place_of};
ghost use Rattle.vol_sound.specs.Begun.{names_dir, without_loops};
ghost use Rattle.vol_repair.specs.Alike.{IsSpeltAs, TellsAlike};
ghost use Rattle.vol_repair.specs.Reached.{AreRows};
ghost use Rattle.vol_repair.specs.Removing.{place_from, is_on_loop};
ghost use Rattle.vol_repair.specs.Steps.{IsStep};

use crate::fault::StepFault;
use crate::reaching::{all_ways, leads_back};
use crate::removing::{Leaver, remove_entries};
use blk_drive::{ImageDev, Mirror};
use plain_cat::{Cat, DirEnt, Flags, NoMemory};
use plain_rules::in_use;
use std::alloc::Global;
use vol_faults::{Spot, first_loop, spots};
use vol_parts::Geometry;

// Whether an entry names a directory in use.
fn names_dir(cat: &Cat, e: &DirEnt) -> bool
    ensures { result ≡ names_dir cat.now e.now }
{
    match in_use(cat, e.fid) {
        Some(file) => file.dir,
        None => false,
    }
}

// Whether an entry names a directory, and is one of a directory that leads back to itself, but the master file directory.
#[tactic(auto, unfolding(vol_sound::specs::Leading::leads_back))]
fn is_on_loop(cat: &Cat, ways: &[Flags], spot: &Spot<'_>) -> bool
    requires { AreRows cat.now (range_with_len 1 (length cat.now.files)) ways.now }
    ensures { result ≡ is_on_loop cat.now (place_of spot.now) }
{
    spot.dir != 4 && leads_back(ways, spot.dir) && names_dir(cat, spot.entry)
}

// Those of these entries that name a directory, and are of a directory that leads back to itself.
fn leavers_of(
    alloc: Global,
    cat: &Cat,
    ways: &[Flags],
    spots: &[Spot<'_>],
) -> Result<Vec<Leaver>, NoMemory>
    requires { AreRows cat.now (range_with_len 1 (length cat.now.files)) ways.now }
    ensures { IfOk result (λ v. map place_from v.items ≡ filter (is_on_loop cat.now) (map place_of spots.now)) }
{
    let mut all = Vec::new(alloc);
    for spot in spots {
        if is_on_loop(cat, ways, spot) {
            all.push(Leaver {
                dir: spot.dir,
                entry: spot.entry.copy(alloc)?,
            })?;
        }
    }
    Ok(all)
}

// The entries of directories that directories on a loop have, but the master file directory.
fn entries_on_loops(alloc: Global, cat: &Cat) -> Result<Vec<Leaver>, NoMemory>
    requires { length cat.now.files ≤ 4096 }
    ensures { IfOk result (λ v. map place_from v.items ≡ filter (is_on_loop cat.now) (places cat.now)) }
{
    let ways = all_ways(alloc, cat)?;
    let spots = spots(alloc, cat)?;
    leavers_of(alloc, cat, ways.as_slice(), spots.as_slice())
}

// The same entries, which are not looked for where there is no loop.
fn leavers(alloc: Global, cat: &Cat) -> Result<Vec<Leaver>, NoMemory>
    requires { length cat.now.files ≤ 4096 }
    ensures { IfOk result (λ v. map place_from v.items ≡ filter (is_on_loop cat.now) (places cat.now)) }
{
    match first_loop(alloc, cat)? {
        Some(_) => entries_on_loops(alloc, cat),
        None => Ok(Vec::new(alloc)),
    }
}

// Removes the entries of directories from each directory that leads back to itself, but the master file directory.
pub(crate) fn remove_loops<I: ImageDev>(
    alloc: Global,
    m: &mut Mirror<I>,
    g: &Geometry,
    cat: &mut Cat,
) -> Result<(), StepFault>
    requires size { IsSize (length m.old.blocks) }
    requires told { IsSpeltAs g.now m.old.blocks cat.old }
    ensures step { IsStep (TellsAlike g.now cat.old) m.old.blocks m.new.blocks (I.told m.old.image) (I.told m.new.image) (I.faults m.old.image) (I.faults m.new.image) (result ≡ Err StepFault.ImageFault) }
    ensures told { OnOk result (IsSpeltAs g.now m.new.blocks cat.new) }
    ensures cat { OnOk result (cat.new ≡ without_loops cat.old) }
{
    let leavers = leavers(alloc, cat)?;
    remove_entries(alloc, m, g, cat, leavers.as_slice())
}
