//! All findings that are not fatal, in their order.

ghost use Rattle.std.specs.Prelude.{◌≡◌, ◌≤◌, ◌++◌, map, length, IfOk, OnOk};
ghost use Rattle.fx_home.specs.Homes.{IsWithinLimits};
ghost use Rattle.plain_rules.specs.Mending.{places};
ghost use Rattle.vol_parts.specs.Volumes.{volume};
ghost use Rattle.vol_parts.specs.Catalogues.{catalogue};
ghost use Rattle.vol_parts.specs.Conditions.{HasAllRunsInside};
ghost use Rattle.vol_parts.specs.Warnings.{warnings};
ghost use Rattle.vol_faults.specs.Places.{AreFirsts};
ghost use Rattle.vol_analyze.specs.Conditions.{HasFileSizes, HasSoundDirectories};
ghost use Rattle.vol_analyze.specs.Kinds.{findings_with, late_of};

use crate::doubles::doubles;
use crate::kinds::{push_leaks, push_lost, push_marked, push_nameless, push_seconds, push_usages};
use base_words::Block;
use fx_home::Home;
use plain_cat::{Cat, NoMemory};
use std::alloc::Global;
use vol_faults::{Spot, all_firsts, spots, strays, surplus};
use vol_parts::Finding;

// Adds directories that have doubles.
pub(crate) fn push_doubles(out: &mut Vec<Finding>, doubles: &[u32]) -> Result<(), NoMemory>
    ensures { OnOk result (out.new.items ≡ out.old.items ++ map Finding.Doubles doubles.now) }
{
    for n in doubles {
        out.push(Finding::Doubles(*n))?;
    }
    Ok(())
}

// Adds files that have surplus.
pub(crate) fn push_surplus(out: &mut Vec<Finding>, files: &[u32]) -> Result<(), NoMemory>
    ensures { OnOk result (out.new.items ≡ out.old.items ++ map Finding.Surplus files.now) }
{
    for n in files {
        out.push(Finding::Surplus(*n))?;
    }
    Ok(())
}

// Adds headers that are in no chain.
pub(crate) fn push_strays(out: &mut Vec<Finding>, headers: &[u32]) -> Result<(), NoMemory>
    ensures { OnOk result (out.new.items ≡ out.old.items ++ map Finding.Stray headers.now) }
{
    for n in headers {
        out.push(Finding::Stray(*n))?;
    }
    Ok(())
}

// Adds directories that have doubles, lost files, files that have surplus, headers that are in no chain, leaks, and usages.
pub(crate) fn push_late(
    out: &mut Vec<Finding>,
    cat: &Cat,
    firsts: &[Option<Spot<'_>>],
    doubles: &[u32],
    files: &[u32],
    headers: &[u32],
) -> Result<(), NoMemory>
    requires numbers { length cat.now.files ≤ 4096 }
    requires flags { length cat.now.leaked_numbers ≤ 4096 }
    requires sizes { HasFileSizes cat.now }
    requires firsts { AreFirsts cat.now (places cat.now) firsts.now }
    ensures { OnOk result (out.new.items ≡ out.old.items ++ late_of cat.now doubles.now files.now headers.now) }
{
    push_doubles(out, doubles)?;
    push_lost(out, cat, firsts)?;
    push_surplus(out, files)?;
    push_strays(out, headers)?;
    push_leaks(out, cat)?;
    push_usages(out, cat)
}

// All findings that are not fatal, kind by kind, where these are the directories that have doubles, the files that have surplus, and
// the headers that are in no chain.
pub(crate) fn findings_with(
    alloc: Global,
    cat: &Cat,
    doubles: &[u32],
    files: &[u32],
    headers: &[u32],
) -> Result<Vec<Finding>, NoMemory>
    requires numbers { length cat.now.files ≤ 4096 }
    requires flags { length cat.now.leaked_numbers ≤ 4096 }
    requires sizes { HasFileSizes cat.now }
    ensures { IfOk result (λ fs. fs.items ≡ findings_with cat.now doubles.now files.now headers.now) }
{
    let spots = spots(alloc, cat)?;
    let firsts = all_firsts(alloc, cat, spots.as_slice())?;
    let mut out = Vec::new(alloc);
    push_marked(&mut out, cat)?;
    push_nameless(alloc, &mut out, cat, spots.as_slice())?;
    push_seconds(alloc, &mut out, cat, firsts.as_slice(), spots.as_slice())?;
    push_late(&mut out, cat, firsts.as_slice(), doubles, files, headers)?;
    Ok(out)
}

/// All findings of a volume that has no fatal one, kind by kind, and in each kind by rising number or in the order of
/// entries. `cat` is the catalogue that its blocks tell. The runs of all files lie inside the whole clusters, no file has more
/// than 65,536 blocks, and no directory has a fault. An error says that memory ran out.
pub fn all_warnings(
    alloc: Global,
    home: &Home,
    blocks: &[Block],
    cat: &Cat,
) -> Result<Vec<Finding>, NoMemory>
    requires limits { IsWithinLimits home.now }
    requires told { cat.now ≡ catalogue (volume home.now blocks.now) }
    requires runs { HasAllRunsInside (volume home.now blocks.now) }
    requires sizes { HasFileSizes cat.now }
    requires sound { HasSoundDirectories (volume home.now blocks.now) }
    ensures { IfOk result (λ fs. fs.items ≡ warnings (volume home.now blocks.now)) }
{
    let doubled = doubles(alloc, home, blocks, cat)?;
    let files = surplus(alloc, home, blocks)?;
    let headers = strays(alloc, home, blocks)?;
    findings_with(
        alloc,
        cat,
        doubled.as_slice(),
        files.as_slice(),
        headers.as_slice(),
    )
}
