//! Findings that are not fatal, kind by kind.

ghost use Rattle.std.specs.Prelude.{◌≡◌, ◌≤◌, ◌++◌, ◌<◌, ℕ, map, length, IfOk, OnOk};
ghost use Rattle.std.specs.List.{count_by};
ghost use Rattle.plain_cat.specs.declared.cat.Slot.{Slot};
ghost use Rattle.plain_rules.specs.Accounts.{charge};
ghost use Rattle.plain_rules.specs.Mending.{places, is_true};
ghost use Rattle.vol_parts.specs.Warnings.{is_marked, names_none, names_none_found, second_found, usage_found};
ghost use Rattle.vol_faults.specs.Places.{place_of, AreFirsts};
ghost use Rattle.vol_analyze.specs.Conditions.{HasFileSizes};
ghost use Rattle.vol_analyze.specs.Kinds.{marked_of, nameless_of, seconds_of, lost_of, leaks_of, usages_of};

use plain_cat::{Cat, NoMemory, QuotaRow, Slot};
use plain_rules::{charge, in_use};
use std::alloc::Global;
use vol_faults::{Spot, is_lost, is_second};
use vol_parts::Finding;

fn is_marked(slot: &Slot) -> bool
    ensures { (n : ℕ) → result ≡ is_marked n slot.now }
{
    match slot {
        Slot::Used(file) => file.marked,
        Slot::Free(_) => false,
    }
}

// Adds the files that are marked for delete.
pub(crate) fn push_marked(out: &mut Vec<Finding>, cat: &Cat) -> Result<(), NoMemory>
    requires { length cat.now.files ≤ 4096 }
    ensures { OnOk result (out.new.items ≡ out.old.items ++ marked_of cat.now) }
{
    for (i, slot) in cat.files.items().iter().enumerate() {
        if is_marked(slot) {
            out.push(Finding::Marked(i as u32 + 1))?;
        }
    }
    Ok(())
}

// Whether an entry names no file in use.
#[tactic(auto, unfolding(vol_parts::specs::Warnings::names_none))]
pub(crate) fn names_none(cat: &Cat, spot: &Spot<'_>) -> bool
    ensures { result ≡ names_none cat.now (place_of spot.now) }
{
    in_use(cat, spot.entry.fid).is_none()
}

pub(crate) fn nameless(alloc: Global, spot: &Spot<'_>) -> Result<Finding, NoMemory>
    ensures { IfOk result (λ f. f ≡ names_none_found (place_of spot.now)) }
{
    Ok(Finding::NamesNone {
        name: spot.entry.name.copy(alloc)?,
        ver: spot.entry.ver,
        dir: spot.dir,
    })
}

// Adds those of these entries that name no file.
pub(crate) fn push_nameless(
    alloc: Global,
    out: &mut Vec<Finding>,
    cat: &Cat,
    spots: &[Spot<'_>],
) -> Result<(), NoMemory>
    ensures { OnOk result (out.new.items ≡ out.old.items ++ nameless_of cat.now (map place_of spots.now)) }
{
    for spot in spots {
        if names_none(cat, spot) {
            out.push(nameless(alloc, spot)?)?;
        }
    }
    Ok(())
}

pub(crate) fn second(alloc: Global, spot: &Spot<'_>) -> Result<Finding, NoMemory>
    ensures { IfOk result (λ f. f ≡ second_found (place_of spot.now)) }
{
    Ok(Finding::Second {
        name: spot.entry.name.copy(alloc)?,
        ver: spot.entry.ver,
        dir: spot.dir,
    })
}

// Adds those of these entries that are of a live file which keeps another one.
pub(crate) fn push_seconds(
    alloc: Global,
    out: &mut Vec<Finding>,
    cat: &Cat,
    firsts: &[Option<Spot<'_>>],
    spots: &[Spot<'_>],
) -> Result<(), NoMemory>
    requires { AreFirsts cat.now (places cat.now) firsts.now }
    ensures { OnOk result (out.new.items ≡ out.old.items ++ seconds_of cat.now (map place_of spots.now)) }
{
    for spot in spots {
        if is_second(cat, firsts, spot) {
            out.push(second(alloc, spot)?)?;
        }
    }
    Ok(())
}

// Adds the files that are in no directory.
pub(crate) fn push_lost(
    out: &mut Vec<Finding>,
    cat: &Cat,
    firsts: &[Option<Spot<'_>>],
) -> Result<(), NoMemory>
    requires numbers { length cat.now.files ≤ 4096 }
    requires firsts { AreFirsts cat.now (places cat.now) firsts.now }
    ensures { OnOk result (out.new.items ≡ out.old.items ++ lost_of cat.now) }
{
    for (i, slot) in cat.files.items().iter().enumerate() {
        let n = i as u32 + 1;
        if is_lost(cat, firsts, n, slot) {
            out.push(Finding::Lost(n))?;
        }
    }
    Ok(())
}

// How many file numbers are leaked.
fn leaked_numbers(cat: &Cat) -> u32
    requires { length cat.now.leaked_numbers ≤ 4096 }
    ensures { result ≡ count_by is_true cat.now.leaked_numbers }
{
    let mut count = 0;
    for leaked in cat.leaked_numbers.items() {
        if *leaked {
            count += 1;
        }
    }
    count
}

// Adds how many clusters and file numbers are leaked.
pub(crate) fn push_leaks(out: &mut Vec<Finding>, cat: &Cat) -> Result<(), NoMemory>
    requires { length cat.now.leaked_numbers ≤ 4096 }
    ensures { OnOk result (out.new.items ≡ out.old.items ++ leaks_of cat.now) }
{
    if cat.leaked != 0 {
        out.push(Finding::LeakedClusters(cat.leaked))?;
    }
    let numbers = leaked_numbers(cat);
    if numbers != 0 {
        out.push(Finding::LeakedNumbers(numbers))?;
    }
    Ok(())
}

fn usage(cat: &Cat, row: &QuotaRow, should: u32) -> Finding
    requires { should ≡ charge cat.now row.now.owner }
    ensures { result ≡ usage_found cat.now row.now }
{
    Finding::Usage {
        owner: row.owner,
        has: row.usage,
        should,
    }
}

// Adds the rows whose usage is not what the owner's files cost.
pub(crate) fn push_usages(out: &mut Vec<Finding>, cat: &Cat) -> Result<(), NoMemory>
    requires numbers { length cat.now.files ≤ 4096 }
    requires sizes { HasFileSizes cat.now }
    ensures { OnOk result (out.new.items ≡ out.old.items ++ usages_of cat.now) }
{
    for row in cat.quota.items() {
        let should = charge(cat, row.owner);
        if row.usage != should {
            out.push(usage(cat, row, should))?;
        }
    }
    Ok(())
}
