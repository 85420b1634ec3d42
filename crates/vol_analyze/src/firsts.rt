//! The first finding of those that are not fatal. None is looked for behind it.

ghost use Rattle.std.specs.Prelude.{◌≡◌, ◌≤◌, map, length, slice_get, IfOk};
ghost use Rattle.fx_home.specs.Homes.{IsWithinLimits};
ghost use Rattle.plain_rules.specs.Mending.{places};
ghost use Rattle.vol_parts.specs.declared.finding.Finding.{Finding};
ghost use Rattle.vol_parts.specs.Volumes.{volume};
ghost use Rattle.vol_parts.specs.Catalogues.{catalogue};
ghost use Rattle.vol_parts.specs.Conditions.{HasAllRunsInside};
ghost use Rattle.vol_parts.specs.Warnings.{warnings};
ghost use Rattle.vol_faults.specs.Places.{place_of, AreFirsts};
ghost use Rattle.vol_analyze.specs.Conditions.{HasFileSizes, HasSoundDirectories};
ghost use Rattle.vol_analyze.specs.Kinds.{marked_of, nameless_of, seconds_of, early_of, late_of};

use crate::doubles::doubles;
use crate::kinds::{nameless, names_none, push_marked, second};
use crate::warnings::push_late;
use base_words::Block;
use fx_home::Home;
use plain_cat::{Cat, NoMemory};
use std::alloc::Global;
use vol_faults::{Spot, all_firsts, is_second, spots, strays, surplus};
use vol_parts::Finding;

// The first of these.
fn first_of(mut found: Vec<Finding>) -> Option<Finding>
    ensures { result ≡ slice_get found.items 0 }
{
    if found.is_empty() {
        return None;
    }
    Some(found.remove(0))
}

// The first file that is marked for delete.
fn first_marked(alloc: Global, cat: &Cat) -> Result<Option<Finding>, NoMemory>
    requires { length cat.now.files ≤ 4096 }
    ensures { IfOk result (λ first. first ≡ slice_get (marked_of cat.now) 0) }
{
    let mut found = Vec::new(alloc);
    push_marked(&mut found, cat)?;
    Ok(first_of(found))
}

// The first of these entries that names no file.
fn first_nameless(alloc: Global, cat: &Cat, spots: &[Spot<'_>]) -> Result<Option<Finding>, NoMemory>
    ensures { IfOk result (λ first. first ≡ slice_get (nameless_of cat.now (map place_of spots.now)) 0) }
{
    for spot in spots {
        if names_none(cat, spot) {
            return Ok(Some(nameless(alloc, spot)?));
        }
    }
    Ok(None)
}

// The first of these entries that is of a live file which keeps another one.
fn first_second(
    alloc: Global,
    cat: &Cat,
    firsts: &[Option<Spot<'_>>],
    spots: &[Spot<'_>],
) -> Result<Option<Finding>, NoMemory>
    requires { AreFirsts cat.now (places cat.now) firsts.now }
    ensures { IfOk result (λ first. first ≡ slice_get (seconds_of cat.now (map place_of spots.now)) 0) }
{
    for spot in spots {
        if is_second(cat, firsts, spot) {
            return Ok(Some(second(alloc, spot)?));
        }
    }
    Ok(None)
}

// The first of files that are marked for delete, of entries that name no file, and of second entries.
#[tactic(auto, using(crate::proofs::Heads::first_left, crate::proofs::Heads::first_right))]
fn first_early(alloc: Global, cat: &Cat) -> Result<Option<Finding>, NoMemory>
    requires { length cat.now.files ≤ 4096 }
    ensures { IfOk result (λ first. first ≡ slice_get (early_of cat.now) 0) }
{
    if let Some(found) = first_marked(alloc, cat)? {
        return Ok(Some(found));
    }
    let spots = spots(alloc, cat)?;
    if let Some(found) = first_nameless(alloc, cat, spots.as_slice())? {
        return Ok(Some(found));
    }
    let firsts = all_firsts(alloc, cat, spots.as_slice())?;
    first_second(alloc, cat, firsts.as_slice(), spots.as_slice())
}

// The first of directories that have doubles, of lost files, of files that have surplus, of headers that are in no chain, of leaks,
// and of usages. The directories, these files and the headers are given.
fn first_late(
    alloc: Global,
    cat: &Cat,
    doubles: &[u32],
    files: &[u32],
    headers: &[u32],
) -> Result<Option<Finding>, NoMemory>
    requires numbers { length cat.now.files ≤ 4096 }
    requires flags { length cat.now.leaked_numbers ≤ 4096 }
    requires sizes { HasFileSizes cat.now }
    ensures { IfOk result (λ first. first ≡ slice_get (late_of cat.now doubles.now files.now headers.now) 0) }
{
    let spots = spots(alloc, cat)?;
    let firsts = all_firsts(alloc, cat, spots.as_slice())?;
    let mut found = Vec::new(alloc);
    push_late(&mut found, cat, firsts.as_slice(), doubles, files, headers)?;
    Ok(first_of(found))
}

/// The first finding of a volume that has no fatal one. `cat` is the catalogue that its blocks tell. The runs of all files lie
/// inside the whole clusters, no file has more than 65,536 blocks, and no directory has a fault. An error says that memory
/// ran out.
pub(crate) fn first_warning(
    alloc: Global,
    home: &Home,
    blocks: &[Block],
    cat: &Cat,
) -> Result<Option<Finding>, NoMemory>
    requires limits { IsWithinLimits home.now }
    requires told { cat.now ≡ catalogue (volume home.now blocks.now) }
    requires runs { HasAllRunsInside (volume home.now blocks.now) }
    requires sizes { HasFileSizes cat.now }
    requires sound { HasSoundDirectories (volume home.now blocks.now) }
    ensures { IfOk result (λ first. first ≡ slice_get (warnings (volume home.now blocks.now)) 0) }
{
    if let Some(found) = first_early(alloc, cat)? {
        return Ok(Some(found));
    }
    let doubled = doubles(alloc, home, blocks, cat)?;
    let files = surplus(alloc, home, blocks)?;
    let headers = strays(alloc, home, blocks)?;
    first_late(
        alloc,
        cat,
        doubled.as_slice(),
        files.as_slice(),
        headers.as_slice(),
    )
}
