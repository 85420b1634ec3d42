//! Which files are sound.

ghost use Rattle.std.specs.Prelude.{◌≡◌, ◌+◌, ◌≤◌, ◌<◌, ◌≢◌, ℕ, true, false, IfOk, length, map, min, slice_index};
ghost use Rattle.std.specs.List.{list_any};
ghost use Rattle.fx_home.specs.Homes.{IsWithinLimits};
ghost use Rattle.vol_parts.specs.Fatal.{is_off_bounds};
ghost use Rattle.vol_parts.specs.Iter.{file_runs_left};
ghost use Rattle.vol_parts.specs.Volumes.{volume, IsNumber, total, numbers};
ghost use Rattle.vol_sound.specs.Clusters.{AreTimes, are_once};
ghost use Rattle.vol_faults.specs.Conditions.{has_run_off};
ghost use Rattle.vol_sound.specs.Sound.{has_cut, times_in_cut, times_cut, shares_none, is_sound};

use crate::clusters::{Span, clusters_of, count_file, total};
use base_words::Block;
use fx_header::Run;
use fx_home::Home;
use plain_cat::NoMemory;
use std::alloc::Global;
use vol_parts::{FileRuns, chain_fault, dir_fault, fields, file_runs};

/// Whether the file of a number has a cut: its first header is in the slot, with this number, and the chain of headers has no fault,
/// for which a system file is not asked.
#[tactic(auto, unfolding(crate::specs::Sound::has_cut))]
fn has_cut(home: &Home, blocks: &[Block], n: u32) -> bool
    requires limits { IsWithinLimits home.now }
    requires number { IsNumber (volume home.now blocks.now) n }
    ensures { result ≡ has_cut (volume home.now blocks.now) n }
{
    let Some(first) = fields(home, blocks, n) else {
        return false;
    };
    first.num == n && (n <= 11 || chain_fault(home, blocks, n).is_none())
}

/// Adds one to the counts of the clusters of each run of the cut of a number, if it has one.
#[tactic(auto, unfolding(crate::specs::Sound::times_in_cut))]
fn count_cut(counts: &mut [u8], home: &Home, blocks: &[Block], n: u32)
    requires limits { IsWithinLimits home.now }
    requires number { IsNumber (volume home.now blocks.now) n }
    requires all { length counts.old ≡ total (volume home.now blocks.now) }
    requires small { (q : ℕ) → q < total (volume home.now blocks.now) → slice_index counts.old q ≤ 2 }
    ensures { (q : ℕ) → q < total (volume home.now blocks.now) → slice_index counts.new q
        ≡ min 2 (slice_index counts.old q + times_in_cut (volume home.now blocks.now) q n) }
{
    if has_cut(home, blocks, n) {
        count_file(counts, home, blocks, n);
    }
}

/// Counts from nothing in how many runs of cuts each cluster is.
fn count_cuts(counts: &mut [u8], home: &Home, blocks: &[Block])
    requires limits { IsWithinLimits home.now }
    requires all { length counts.old ≡ total (volume home.now blocks.now) }
    requires none { (q : ℕ) → slice_index counts.old q ≡ 0 }
    ensures { AreTimes (volume home.now blocks.now) (times_cut (volume home.now blocks.now)) counts.new }
{
    for n in 1..home.files + 1 {
        count_cut(counts, home, blocks, n);
    }
}

/// For each cluster in how many runs of cuts it is, where 2 stands for all from there on. An error says that memory ran out.
fn cut_counts(alloc: Global, home: &Home, blocks: &[Block]) -> Result<Vec<u8>, NoMemory>
    requires { IsWithinLimits home.now }
    ensures { let v = volume home.now blocks.now in IfOk result (λ counts. AreTimes v (times_cut v) counts.items) }
{
    let mut counts = vec![in alloc; 0; total(home, blocks)]?;
    count_cuts(&mut counts, home, blocks);
    Ok(counts)
}

/// Whether a run is no whole clusters of the volume. It may lie anywhere in 32 bits.
#[tactic(auto, unfolding(vol_parts::specs::Fatal::is_off_bounds))]
fn is_off_bounds(home: &Home, blocks: &[Block], run: &Run) -> bool
    requires { IsWithinLimits home.now }
    ensures { result ≡ is_off_bounds (volume home.now blocks.now) run.now }
{
    let cluster = u32::from(home.cluster);
    let end = run.lbn as usize + run.count as usize;
    run.lbn % cluster != 0
        || run.count % cluster != 0
        || end > usize::from(home.cluster) * total(home, blocks)
}

fn is_any_off(home: &Home, blocks: &[Block], left: FileRuns<'_>) -> bool
    requires { IsWithinLimits home.now }
    ensures { result ≡ list_any (is_off_bounds (volume home.now blocks.now)) (file_runs_left left.entry) }
{
    for run in left {
        if is_off_bounds(home, blocks, &run) {
            return true;
        }
    }
    false
}

/// Whether a run of the file of a number is no whole clusters of the volume.
#[tactic(auto, unfolding(vol_faults::specs::Conditions::has_run_off))]
fn has_run_off(home: &Home, blocks: &[Block], n: u32) -> bool
    requires limits { IsWithinLimits home.now }
    requires number { IsNumber (volume home.now blocks.now) n }
    ensures { result ≡ has_run_off (volume home.now blocks.now) n }
{
    is_any_off(home, blocks, file_runs(home, blocks, n))
}

/// Whether one of these clusters is not counted once.
fn has_other_count(counts: &[u8], span: Span) -> bool
    requires { span.to ≤ length counts.now }
    ensures some { result ≡ true → (q : ℕ) × (span.from ≤ q) × (q < span.to) × (slice_index counts.now q ≢ 1) }
    ensures none { result ≡ false → (q : ℕ) → span.from ≤ q → q < span.to → slice_index counts.now q ≡ 1 }
{
    for q in span.from..span.to {
        if counts[q] != 1 {
            return true;
        }
    }
    false
}

/// Whether each cluster of these runs is counted once, as far as the volume goes.
fn are_once(home: &Home, blocks: &[Block], counts: &[u8], left: FileRuns<'_>) -> bool
    requires limits { IsWithinLimits home.now }
    requires all { length counts.now ≡ total (volume home.now blocks.now) }
    ensures { result ≡ are_once (volume home.now blocks.now) counts.now (file_runs_left left.entry) }
{
    for run in left {
        if has_other_count(counts, clusters_of(home, blocks, &run)) {
            return false;
        }
    }
    true
}

/// Whether no cluster of a file is in two runs of cuts, which are counted.
fn shares_none(home: &Home, blocks: &[Block], counts: &[u8], n: u32) -> bool
    requires limits { IsWithinLimits home.now }
    requires number { IsNumber (volume home.now blocks.now) n }
    requires counts { AreTimes (volume home.now blocks.now) (times_cut (volume home.now blocks.now)) counts.now }
    ensures { result ≡ shares_none (volume home.now blocks.now) n }
{
    are_once(home, blocks, counts, file_runs(home, blocks, n))
}

/// Whether the file of a number is sound. The counts are those of [`cut_counts`].
#[tactic(auto, unfolding(crate::specs::Sound::is_sound))]
fn is_sound(
    alloc: Global,
    home: &Home,
    blocks: &[Block],
    counts: &[u8],
    n: u32,
) -> Result<bool, NoMemory>
    requires limits { IsWithinLimits home.now }
    requires number { IsNumber (volume home.now blocks.now) n }
    requires counts { AreTimes (volume home.now blocks.now) (times_cut (volume home.now blocks.now)) counts.now }
    ensures { IfOk result (λ sound. sound ≡ is_sound (volume home.now blocks.now) n) }
{
    if n <= 11 || !has_cut(home, blocks, n) {
        return Ok(false);
    }
    if has_run_off(home, blocks, n) {
        return Ok(false);
    }
    if dir_fault(alloc, home, blocks, n)?.is_some() {
        return Ok(false);
    }
    Ok(shares_none(home, blocks, counts, n))
}

/// Which files of a volume are sound: number n stands at n - 1. A file above number 11 is sound where its first header is in its
/// slot, its chain of headers has no fault, its runs are whole clusters of the volume that no other run of such a file or of a system
/// file has, and, where it is a directory, that has no fault. Runs of damaged headers may lie anywhere and have any size: the time
/// that it takes is bounded by the volume. An error says that memory ran out.
pub fn sound_files(alloc: Global, home: &Home, blocks: &[Block]) -> Result<Vec<bool>, NoMemory>
    requires { IsWithinLimits home.now }
    ensures { let v = volume home.now blocks.now in IfOk result (λ sound. sound.items ≡ map (is_sound v) (numbers v)) }
{
    let counts = cut_counts(alloc, home, blocks)?;
    let mut sound = Vec::new(alloc);
    for n in 1..home.files + 1 {
        sound.push(is_sound(alloc, home, blocks, &counts, n)?)?;
    }
    Ok(sound)
}
