//! The lost file for which [SYSLOST] has no room.

ghost use Rattle.std.specs.Prelude.{◌≡◌, ◌≤◌, [], false, length, IfOk};
ghost use Rattle.plain_rules.specs.Mending.{lost, places, stripped};
ghost use Rattle.vol_faults.specs.CatFindings.{IsFirstIn};
ghost use Rattle.vol_faults.specs.Places.{AreFirsts};
ghost use Rattle.vol_faults.specs.Waiting.{AreEntered, IsRoomless};

use crate::keeping::all_firsts;
use crate::places::{Spot, spots};
use crate::staying::{staying_entries, staying_firsts, waiting};
use plain_cat::{Cat, DirEnts, NoMemory};
use plain_rules::{file_at, with_lost_entry};
use std::alloc::Global;
use vol_parts::Finding;

// The first of the lost files that finds no room, where [SYSLOST] begins with the entries `kept`.
fn first_full(
    alloc: Global,
    cat: &Cat,
    waiting: &[u32],
    kept: DirEnts,
) -> Result<Option<u32>, NoMemory>
    requires waiting { waiting.now ≡ lost (stripped cat.now) false }
    requires kept { AreEntered cat.now [] kept }
    ensures { IfOk result (IsRoomless cat.now) }
{
    let mut entries = kept;
    for n in waiting {
        let Some(file) = file_at(cat, *n) else {
            return Ok(Some(*n));
        };
        match with_lost_entry(alloc, &entries, *n, file.seq, cat.factor)? {
            Some(more) => entries = more,
            None => return Ok(Some(*n)),
        }
    }
    Ok(None)
}

// The first of the lost files that finds no room in file 11; where that is not in use, the first one.
fn roomless(
    alloc: Global,
    cat: &Cat,
    firsts: &[Option<Spot<'_>>],
    waiting: &[u32],
) -> Result<Option<u32>, NoMemory>
    requires firsts { AreFirsts cat.now (places cat.now) firsts.now }
    requires waiting { waiting.now ≡ lost (stripped cat.now) false }
    ensures { IfOk result (IsRoomless cat.now) }
{
    let Some(dir) = file_at(cat, 11) else {
        return Ok(waiting.first().copied());
    };
    let kept = staying_entries(alloc, cat, firsts, 11, &dir.entries)?;
    first_full(alloc, cat, waiting, kept)
}

/// The lost file, not empty, for which [SYSLOST] has no room behind those before it, by rising number, once the entries that
/// mending removes are gone; none where each has room. The catalogue has up to 4,096 files. An error says that memory ran out.
pub fn first_without_room(alloc: Global, cat: &Cat) -> Result<Option<Finding>, NoMemory>
    requires { length cat.now.files ≤ 4096 }
    ensures { IfOk result (IsFirstIn cat.now 16) }
{
    let spots = spots(alloc, cat)?;
    let firsts = all_firsts(alloc, cat, spots.as_slice())?;
    let named = staying_firsts(alloc, cat, firsts.as_slice(), spots.as_slice())?;
    let waiting = waiting(alloc, cat, firsts.as_slice(), named.as_slice())?;
    match roomless(alloc, cat, firsts.as_slice(), waiting.as_slice())? {
        Some(n) => Ok(Some(Finding::NoRoom(n))),
        None => Ok(None),
    }
}
