//! Step 3: the master file directory loses each entry that names it, but its own.

ghost use Rattle.std.specs.Prelude.{◌≡◌, ◌≤◌, Err, filter, length, map, IfOk, OnOk};
ghost use Rattle.plain_rules.specs.Mending.{places};
ghost use Rattle.vol_faults.specs.Conditions.{IsSize};
ghost use Rattle.vol_faults.specs.Places.{place_of};
ghost use Rattle.vol_sound.specs.Begun.{names_main, without_own};
ghost use Rattle.vol_repair.specs.Alike.{IsSpeltAs, TellsAlike};
ghost use Rattle.vol_repair.specs.Removing.{place_from, is_double};
ghost use Rattle.vol_repair.specs.Steps.{IsStep};

use crate::fault::StepFault;
use crate::reaching::is_system_entry;
use crate::removing::{Leaver, remove_entries};
use blk_drive::{ImageDev, Mirror};
use plain_cat::{Cat, DirEnt, NoMemory};
use std::alloc::Global;
use vol_faults::{Spot, spots};
use vol_parts::Geometry;

// Whether an entry names the master file directory.
fn names_main(e: &DirEnt) -> bool
    ensures { result ≡ names_main e.now }
{
    e.fid.num == 4 && e.fid.seq == 4
}

// Whether an entry of the master file directory names it, and is not its own.
fn is_double(spot: &Spot<'_>) -> bool
    ensures { result ≡ is_double (place_of spot.now) }
{
    spot.dir == 4 && names_main(spot.entry) && !is_system_entry(4, spot.entry)
}

// Those of these entries that name the master file directory, and are entries of it, but not its own.
fn doubles_of(alloc: Global, spots: &[Spot<'_>]) -> Result<Vec<Leaver>, NoMemory>
    ensures { IfOk result (λ v. map place_from v.items ≡ filter is_double (map place_of spots.now)) }
{
    let mut all = Vec::new(alloc);
    for spot in spots {
        if is_double(spot) {
            all.push(Leaver {
                dir: spot.dir,
                entry: spot.entry.copy(alloc)?,
            })?;
        }
    }
    Ok(all)
}

// The entries of the master file directory that name it, but its own.
fn doubles(alloc: Global, cat: &Cat) -> Result<Vec<Leaver>, NoMemory>
    requires { length cat.now.files ≤ 4096 }
    ensures { IfOk result (λ v. map place_from v.items ≡ filter is_double (places cat.now)) }
{
    let spots = spots(alloc, cat)?;
    doubles_of(alloc, spots.as_slice())
}

// Removes the entries of the master file directory that name it, but its own.
pub(crate) fn remove_own<I: ImageDev>(
    alloc: Global,
    m: &mut Mirror<I>,
    g: &Geometry,
    cat: &mut Cat,
) -> Result<(), StepFault>
    requires size { IsSize (length m.old.blocks) }
    requires told { IsSpeltAs g.now m.old.blocks cat.old }
    ensures step { IsStep (TellsAlike g.now cat.old) m.old.blocks m.new.blocks (I.told m.old.image) (I.told m.new.image) (I.faults m.old.image) (I.faults m.new.image) (result ≡ Err StepFault.ImageFault) }
    ensures told { OnOk result (IsSpeltAs g.now m.new.blocks cat.new) }
    ensures cat { OnOk result (cat.new ≡ without_own cat.old) }
{
    let leavers = doubles(alloc, cat)?;
    remove_entries(alloc, m, g, cat, leavers.as_slice())
}
