//! Mending: the catalogue after it, and what it did.

ghost use Rattle.std.specs.Prelude.{false, ◌≡◌, ◌≤◌, ◌+◌, ◌*◌, ◌<◌, map, filter, length, All, Option, None, Some, IfOk, IfSome};
ghost use Rattle.std.specs.List.{count_by};
ghost use Rattle.plain_cat.specs.declared.entries.DirEnt.{DirEnt};
ghost use Rattle.plain_cat.specs.declared.cat.Slot.{Slot};
ghost use Rattle.plain_cat.specs.declared.cat.Open.{Open};
ghost use Rattle.plain_rules.specs.declared.places.Place.{Place};
ghost use Rattle.plain_rules.specs.Lookups.{clusters_in};
ghost use Rattle.plain_rules.specs.Accounts.{Accounted};
ghost use Rattle.plain_rules.specs.Mending.{places, stays, less_entries, each_from, without_opens, without_entries, with_lost, is_gone, gone_slot, summed_row, put_right, is_used, is_true, mended};
ghost use Rattle.plain_vol.specs.Mends.{MendsTo};

use crate::entering::{enter_all, enter_some, is_first, is_named, lost, places};
use plain_cat::{
    Cat, Channels, DirEnt, DirEnts, Fid, File, Files, Flags, NoMemory, QuotaRow, QuotaRows, Slot,
};
use plain_rules::{Place, charge, is_own, live};
use std::alloc::Global;

// Whether an entry stays.
#[tactic(auto, unfolding(plain_rules::specs::Mending::stays))]
fn stays(cat: &Cat, all: &[Place], dir: u32, e: &DirEnt) -> bool
    requires { all.now ≡ places cat.now }
    ensures { result ≡ stays cat.now (record { dir = dir; entry = e.now }) }
{
    live(cat, e.fid).is_some()
        && (if e.fid.num <= 11 {
            is_own(dir, e)
        } else {
            is_first(dir, e, all)
        })
}

fn kept_entries(
    alloc: Global,
    cat: &Cat,
    all: &[Place],
    dir: u32,
    entries: &DirEnts,
) -> Result<DirEnts, NoMemory>
    requires { all.now ≡ places cat.now }
    ensures { IfOk result (λ es. es ≡ filter (λ (e : DirEnt). stays cat.now (record { dir = dir; entry = e })) entries.now) }
{
    let mut kept = DirEnts::new(alloc);
    for e in entries.items() {
        if stays(cat, all, dir, e) {
            kept.push(e.copy(alloc)?)?;
        }
    }
    Ok(kept)
}

// A slot without the entries that go.
fn less_entries(
    alloc: Global,
    cat: &Cat,
    all: &[Place],
    n: u32,
    slot: &Slot,
) -> Result<Slot, NoMemory>
    requires { all.now ≡ places cat.now }
    ensures { IfOk result (λ s. s ≡ less_entries cat.now n slot.now) }
{
    Ok(match slot {
        Slot::Used(file) => {
            let mut less = file.copy(alloc)?;
            less.entries = kept_entries(alloc, cat, all, n, &file.entries)?;
            Slot::Used(less)
        }
        Slot::Free(seq) => Slot::Free(*seq),
    })
}

fn less_files(alloc: Global, cat: &Cat, all: &[Place]) -> Result<Files, NoMemory>
    requires places { all.now ≡ places cat.now }
    requires numbers { length cat.now.files ≤ 4096 }
    ensures { IfOk result (λ fs. fs ≡ each_from (less_entries cat.now) 1 cat.now.files) }
{
    let mut files = Files::new(alloc);
    for (i, slot) in cat.files.items().iter().enumerate() {
        files.push(less_entries(alloc, cat, all, i as u32 + 1, slot)?)?;
    }
    Ok(files)
}

fn closed(alloc: Global, cat: &Cat) -> Result<Channels, NoMemory>
    ensures { IfOk result (λ os. os ≡ map (λ (o : Option Open). None) cat.now.opens) }
{
    let mut opens = Channels::new(alloc);
    for _held in cat.opens.items() {
        opens.push(None)?;
    }
    Ok(opens)
}

// Every channel is closed, and the entries that go are gone.
fn cleared(alloc: Global, cat: &Cat) -> Result<Cat, NoMemory>
    requires { Accounted cat.now }
    ensures { IfOk result (λ a. a ≡ without_entries (without_opens cat.now)) }
{
    let mut shut = cat.copy(alloc)?;
    shut.opens = closed(alloc, cat)?;
    let all = places(alloc, &shut)?;
    let files = less_files(alloc, &shut, &all)?;
    let mut after = shut;
    after.files = files;
    Ok(after)
}

// The lost files are entered, or none where one that is not empty has no room.
fn with_lost(alloc: Global, cat: Cat) -> Result<Option<Cat>, NoMemory>
    requires { Accounted cat }
    ensures { IfOk result (λ o. o ≡ with_lost cat) }
{
    let all = places(alloc, &cat)?;
    let full = lost(alloc, &cat, &all, false)?;
    let empty = lost(alloc, &cat, &all, true)?;
    match enter_all(alloc, cat, &full)? {
        Some(after) => Ok(Some(enter_some(alloc, after, &empty)?)),
        None => Ok(None),
    }
}

// Whether a file is gone: marked, or in no directory.
fn is_gone(cat: &Cat, all: &[Place], n: u32, file: &File) -> bool
    requires { all.now ≡ places cat.now }
    ensures { result ≡ is_gone cat.now n file.now }
{
    let fid = Fid {
        num: n,
        seq: file.seq,
    };
    file.marked || !is_named(all, fid)
}

fn gone_slot(alloc: Global, cat: &Cat, all: &[Place], n: u32, slot: &Slot) -> Result<Slot, NoMemory>
    requires { all.now ≡ places cat.now }
    ensures { IfOk result (λ s. s ≡ gone_slot cat.now n slot.now) }
{
    match slot {
        Slot::Used(file) => {
            if is_gone(cat, all, n, file) {
                return Ok(Slot::Free(file.seq));
            }
            Ok(Slot::Used(file.copy(alloc)?))
        }
        Slot::Free(seq) => Ok(Slot::Free(*seq)),
    }
}

fn left_files(alloc: Global, cat: &Cat, all: &[Place]) -> Result<Files, NoMemory>
    requires places { all.now ≡ places cat.now }
    requires numbers { length cat.now.files ≤ 4096 }
    ensures { IfOk result (λ fs. fs ≡ each_from (gone_slot cat.now) 1 cat.now.files) }
{
    let mut files = Files::new(alloc);
    for (i, slot) in cat.files.items().iter().enumerate() {
        files.push(gone_slot(alloc, cat, all, i as u32 + 1, slot)?)?;
    }
    Ok(files)
}

fn no_flags(alloc: Global, cat: &Cat) -> Result<Flags, NoMemory>
    ensures { IfOk result (λ fs. fs ≡ map (λ b. false) cat.now.leaked_numbers) }
{
    let mut flags = Flags::new(alloc);
    for _flag in cat.leaked_numbers.items() {
        flags.push(false)?;
    }
    Ok(flags)
}

fn summed(alloc: Global, cat: &Cat) -> Result<QuotaRows, NoMemory>
    requires numbers { length cat.now.files ≤ 4096 }
    requires sizes { All (λ (s : Slot). cat.now.factor * clusters_in s ≤ 65536) cat.now.files }
    ensures { IfOk result (λ rs. rs ≡ map (summed_row cat.now) cat.now.quota) }
{
    let mut rows = QuotaRows::new(alloc);
    for row in cat.quota.items() {
        rows.push(QuotaRow {
            owner: row.owner,
            usage: charge(cat, row.owner),
            quota: row.quota,
            over: row.over,
        })?;
    }
    Ok(rows)
}

// Files that are marked or in no directory are gone, nothing is leaked, and each usage is what the owner's files cost.
fn put_right(alloc: Global, cat: Cat) -> Result<Cat, NoMemory>
    requires { Accounted cat }
    ensures { IfOk result (λ d. d ≡ put_right cat) }
{
    let all = places(alloc, &cat)?;
    let files = left_files(alloc, &cat, &all)?;
    let flags = no_flags(alloc, &cat)?;
    let mut after = cat;
    after.files = files;
    after.leaked = 0;
    after.leaked_numbers = flags;
    after.quota = summed(alloc, &after)?;
    Ok(after)
}

/// What a mending came to.
#[derive(Drop)]
pub struct Repair {
    pub after: Cat,
    pub entered: usize,
    pub removed: usize,
    pub gone: usize,
    pub clusters: u32,
    pub numbers: usize,
}

fn used_count(cat: &Cat) -> usize
    ensures { result ≡ count_by is_used cat.now.files }
{
    cat.files
        .items()
        .iter()
        .filter(|slot| matches!(slot, Slot::Used(_)))
        .count()
}

fn flag_count(cat: &Cat) -> usize
    ensures { result ≡ count_by is_true cat.now.leaked_numbers }
{
    cat.leaked_numbers
        .items()
        .iter()
        .filter(|flag| **flag)
        .count()
}

fn place_count(alloc: Global, cat: &Cat) -> Result<usize, NoMemory>
    requires { length cat.now.files ≤ 4096 }
    ensures { IfOk result (λ k. k ≡ length (places cat.now)) }
{
    let all = places(alloc, cat)?;
    Ok(all.len())
}

// The catalogue after mending, and what was done, or none where a lost file has no room.
#[tactic(auto, unfolding(plain_rules::specs::Mending::mended))]
pub(crate) fn mend(alloc: Global, cat: &Cat) -> Result<Option<Repair>, NoMemory>
    requires { Accounted cat.now }
    ensures value { IfOk result (λ o. MendsTo cat.now o) }
    ensures accounts { IfOk result (λ o. IfSome o (λ w. Accounted w.after)) }
{
    let found = place_count(alloc, cat)?;
    let cleared = cleared(alloc, cat)?;
    let kept = place_count(alloc, &cleared)?;
    let Some(entered) = with_lost(alloc, cleared)? else {
        return Ok(None);
    };
    let named = place_count(alloc, &entered)?;
    let after = put_right(alloc, entered)?;
    Ok(Some(Repair {
        entered: named.saturating_sub(kept),
        removed: found.saturating_sub(kept),
        gone: used_count(cat).saturating_sub(used_count(&after)),
        clusters: cat.leaked,
        numbers: flag_count(cat),
        after,
    }))
}
