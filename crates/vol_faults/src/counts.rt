//! In how many runs each cluster is: in none, in one, or in more.

ghost use Rattle.std.specs.Prelude.{◌≡◌, ◌+◌, ◌≤◌, ◌&&◌, ℕ, IfOk, false, length, min, nat_le, nat_lt, slice_index, if◌then◌else◌};
ghost use Rattle.std.specs.List.{count_by, list_any};
ghost use Rattle.fx_home.specs.Homes.{IsWithinLimits};
ghost use Rattle.vol_parts.specs.Conditions.{HasAllRunsInside};
ghost use Rattle.vol_parts.specs.Fatal.{is_off_bounds};
ghost use Rattle.vol_parts.specs.Iter.{file_runs_left};
ghost use Rattle.vol_parts.specs.Volumes.{volume, IsNumber, factor, total, is_in_run};
ghost use Rattle.vol_faults.specs.Counts.{AreCounts, times_in};

use crate::sizes::total;
use base_words::Block;
use fx_home::Home;
use plain_cat::NoMemory;
use std::alloc::Global;
use vol_parts::{FileRuns, file_runs};

/// Adds one to the counts of the clusters from `from` on and before `to`. A count stays at 2.
fn count_clusters_between(counts: &mut [u8], from: usize, to: usize)
    requires order { from ≤ to }
    requires inside { to ≤ length counts.old }
    ensures { (q : ℕ) → slice_index counts.new q
        ≡ (if nat_le from q && nat_lt q to then min 2 (slice_index counts.old q + 1) else slice_index counts.old q) }
{
    for q in from..to {
        counts[q] = counts[q].saturating_add(1).min(2);
    }
}

/// Adds one to the counts of the clusters of each of these runs.
fn count_runs(counts: &mut [u8], home: &Home, blocks: &[Block], left: FileRuns<'_>)
    requires limits { IsWithinLimits home.now }
    requires all { length counts.old ≡ total (volume home.now blocks.now) }
    requires runs { list_any (is_off_bounds (volume home.now blocks.now)) (file_runs_left left) ≡ false }
    requires small { (q : ℕ) → slice_index counts.old q ≤ 2 }
    ensures { (q : ℕ) → slice_index counts.new q
        ≡ min 2 (slice_index counts.old q + count_by (is_in_run (factor (volume home.now blocks.now)) q) (file_runs_left left.entry)) }
{
    let cluster = usize::from(home.cluster);
    for run in left {
        let from = run.lbn as usize;
        let to = from + run.count as usize;
        count_clusters_between(counts, from / cluster, to / cluster);
    }
}

/// Adds one to the counts of the clusters of each run of the file of a number.
fn count_file(counts: &mut [u8], home: &Home, blocks: &[Block], n: u32)
    requires limits { IsWithinLimits home.now }
    requires number { IsNumber (volume home.now blocks.now) n }
    requires all { length counts.old ≡ total (volume home.now blocks.now) }
    requires runs { HasAllRunsInside (volume home.now blocks.now) }
    requires small { (q : ℕ) → slice_index counts.old q ≤ 2 }
    ensures { (q : ℕ) → slice_index counts.new q
        ≡ min 2 (slice_index counts.old q + times_in (volume home.now blocks.now) q n) }
{
    count_runs(counts, home, blocks, file_runs(home, blocks, n));
}

/// Counts from nothing in how many runs each cluster is, over the files of all numbers.
fn count_files(counts: &mut [u8], home: &Home, blocks: &[Block])
    requires limits { IsWithinLimits home.now }
    requires runs { HasAllRunsInside (volume home.now blocks.now) }
    requires all { length counts.old ≡ total (volume home.now blocks.now) }
    requires none { (q : ℕ) → slice_index counts.old q ≡ 0 }
    ensures { AreCounts (volume home.now blocks.now) counts.new }
{
    for n in 1..home.files + 1 {
        count_file(counts, home, blocks, n);
    }
}

/// For each cluster in how many runs it is, where 2 stands for all from there on. All runs are whole clusters of the volume.
/// An error says that memory ran out.
pub fn count_clusters(alloc: Global, home: &Home, blocks: &[Block]) -> Result<Vec<u8>, NoMemory>
    requires limits { IsWithinLimits home.now }
    requires runs { HasAllRunsInside (volume home.now blocks.now) }
    ensures { IfOk result (λ counts. AreCounts (volume home.now blocks.now) counts.items) }
{
    let mut counts = vec![in alloc; 0; total(home, blocks)]?;
    count_files(&mut counts, home, blocks);
    Ok(counts)
}
