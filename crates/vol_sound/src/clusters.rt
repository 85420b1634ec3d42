//! The clusters of runs, which may lie anywhere in 32 bits, as far as the volume goes, and how often each is counted.

ghost use Rattle.std.specs.Prelude.{◌≡◌, ◌+◌, ◌-◌, ◌/◌, ◌^◌, ◌<◌, ◌≤◌, ◌&&◌, ℕ, length, min, nat_le, nat_lt, slice_index, if◌then◌else◌};
ghost use Rattle.std.specs.List.{count_by};
ghost use Rattle.fx_home.specs.Homes.{IsWithinLimits};
ghost use Rattle.vol_parts.specs.Iter.{file_runs_left};
ghost use Rattle.vol_parts.specs.Volumes.{volume, IsNumber, factor, total, is_in_run};
ghost use Rattle.vol_faults.specs.Counts.{times_in};
ghost use Rattle.vol_sound.specs.Clusters.{AreOfRun};

use base_words::Block;
use fx_header::Run;
use fx_home::Home;
use vol_parts::{FileRuns, file_runs};

/// Clusters of a volume: from one on, and before another one.
#[derive(Clone, Copy)]
pub(crate) struct Span {
    pub(crate) from: usize,
    pub(crate) to: usize,
}

/// The whole clusters of a volume.
pub(crate) fn total(home: &Home, blocks: &[Block]) -> usize
    requires { IsWithinLimits home.now }
    ensures { result ≡ total (volume home.now blocks.now) }
{
    blocks.len() / usize::from(home.cluster)
}

/// The cluster of a block, where it is one of so many.
fn cluster_of(lbn: usize, cluster: usize, all: usize) -> usize
    requires { 1 ≤ cluster }
    ensures { result ≡ min (lbn / cluster) all }
{
    (lbn / cluster).min(all)
}

/// The first cluster behind a block, where it is one of so many. The block is within 2^33.
fn cluster_behind(end: usize, cluster: usize, all: usize) -> usize
    requires some { 1 ≤ cluster }
    requires small { end + cluster < 2 ^ 34 }
    ensures { result ≡ min ((end + cluster - 1) / cluster) all }
{
    ((end + cluster - 1) / cluster).min(all)
}

/// The clusters of the volume in which a run has a block.
pub(crate) fn clusters_of(home: &Home, blocks: &[Block], run: &Run) -> Span
    requires { IsWithinLimits home.now }
    ensures { AreOfRun (volume home.now blocks.now) run.now result.from result.to }
{
    let cluster = usize::from(home.cluster);
    let all = total(home, blocks);
    let [lbn, count] = [run.lbn as usize, run.count as usize];
    let from = cluster_of(lbn, cluster, all);
    let to = cluster_behind(lbn + count, cluster, all);
    Span { from, to }
}

/// Adds one to the counts of the clusters from `from` on and before `to`. A count stays at 2.
fn count_between(counts: &mut [u8], from: usize, to: usize)
    requires order { from ≤ to }
    requires inside { to ≤ length counts.old }
    ensures { (q : ℕ) → slice_index counts.new q
        ≡ (if nat_le from q && nat_lt q to then min 2 (slice_index counts.old q + 1) else slice_index counts.old q) }
{
    for q in from..to {
        counts[q] = counts[q].saturating_add(1).min(2);
    }
}

/// Adds one to the counts of the clusters of each of these runs.
fn count_runs(counts: &mut [u8], home: &Home, blocks: &[Block], left: FileRuns<'_>)
    requires limits { IsWithinLimits home.now }
    requires all { length counts.old ≡ total (volume home.now blocks.now) }
    requires small { (q : ℕ) → q < total (volume home.now blocks.now) → slice_index counts.old q ≤ 2 }
    ensures { (q : ℕ) → q < total (volume home.now blocks.now) → slice_index counts.new q
        ≡ min 2 (slice_index counts.old q + count_by (is_in_run (factor (volume home.now blocks.now)) q) (file_runs_left left.entry)) }
{
    for run in left {
        let span = clusters_of(home, blocks, &run);
        count_between(counts, span.from, span.to);
    }
}

/// Adds one to the counts of the clusters of each run of the file of a number.
pub(crate) fn count_file(counts: &mut [u8], home: &Home, blocks: &[Block], n: u32)
    requires limits { IsWithinLimits home.now }
    requires number { IsNumber (volume home.now blocks.now) n }
    requires all { length counts.old ≡ total (volume home.now blocks.now) }
    requires small { (q : ℕ) → q < total (volume home.now blocks.now) → slice_index counts.old q ≤ 2 }
    ensures { (q : ℕ) → q < total (volume home.now blocks.now) → slice_index counts.new q
        ≡ min 2 (slice_index counts.old q + times_in (volume home.now blocks.now) q n) }
{
    count_runs(counts, home, blocks, file_runs(home, blocks, n));
}
