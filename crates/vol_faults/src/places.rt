//! The entries of all directories, each with its place.

ghost use Rattle.std.specs.Prelude.{◌≡◌, ◌≤◌, ◌++◌, length, map, IfOk, OnOk};
ghost use Rattle.plain_cat.specs.declared.entries.DirEnt.{DirEnt};
ghost use Rattle.plain_rules.specs.Mending.{places};
ghost use Rattle.vol_faults.specs.Places.{place_of};

use plain_cat::{Cat, DirEnt, NoMemory};
use plain_rules::entries_in;
use std::alloc::Global;

/// An entry where it stands.
#[derive(Clone, Copy)]
pub struct Spot<'a> {
    /// The number of its directory, 1 to 4,096.
    pub dir: u32,

    /// The entry.
    pub entry: &'a DirEnt,
}

fn push_spots<'a>(all: &mut Vec<Spot<'a>>, dir: u32, entries: &'a [DirEnt]) -> Result<(), NoMemory>
    ensures { OnOk result (map place_of all.new.items ≡ map place_of all.old.items ++ map (λ (e : DirEnt). record { dir = dir; entry = e }) entries.now) }
{
    for entry in entries {
        all.push(Spot { dir, entry })?;
    }
    Ok(())
}

/// The entries of all directories of a catalogue of up to 4,096 files, by directory number, name and falling version. An error
/// says that memory ran out.
pub fn spots(alloc: Global, cat: &Cat) -> Result<Vec<Spot<'_>>, NoMemory>
    requires { length cat.now.files ≤ 4096 }
    ensures { IfOk result (λ v. map place_of v.items ≡ places cat.now) }
{
    let mut all = Vec::new(alloc);
    for (i, slot) in cat.files.items().iter().enumerate() {
        push_spots(&mut all, i as u32 + 1, entries_in(slot))?;
    }
    Ok(all)
}
