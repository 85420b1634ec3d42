//! System files, numbers 1 to 11, that are not what the structure of a volume asks.

ghost use Rattle.std.specs.Prelude.{◌≡◌, ◌+◌, ◌*◌, ◌^◌, ◌<◌, ◌≤◌, not, IfNone, IfSome, length};
ghost use Rattle.fx_home.specs.Homes.{IsWithinLimits};
ghost use Rattle.vol_parts.specs.Conditions.{HasSystemFiles};
ghost use Rattle.vol_parts.specs.Fatal.{in_whole_clusters, stated_clusters, is_stated_run, are_stated, is_system_header, is_system_file};
ghost use Rattle.vol_parts.specs.Firsts.{IsFirstOf};
ghost use Rattle.vol_parts.specs.Iter.{file_runs_left};
ghost use Rattle.vol_parts.specs.Lowest.{IsLowest};
ghost use Rattle.vol_parts.specs.Volumes.{volume, runs};
ghost use Rattle.vol_faults.specs.Conditions.{IsSize};

use crate::sizes::{total, whole};
use base_words::Block;
use fx_header::{Hdr, Run};
use fx_home::Home;
use vol_parts::{FileRuns, Finding, fields, file_runs, is_one_header};

/// How many clusters so many blocks take.
fn in_whole_clusters(cluster: usize, blocks: usize) -> usize
    requires { 0 < cluster }
    ensures value { result ≡ in_whole_clusters cluster blocks }
    ensures bound { result ≤ blocks }
{
    blocks.div_ceil(cluster)
}

/// The clusters of the index file: the first four, the bitmap and the headers.
fn index_clusters(home: &Home) -> usize
    requires { IsWithinLimits home.now }
    ensures value { result ≡ in_whole_clusters home.now.cluster (4 * home.now.cluster + 1 + home.now.files) }
    ensures bound { result < 2 ^ 20 }
{
    let cluster = usize::from(home.cluster);
    in_whole_clusters(cluster, 4 * cluster + 1 + home.files as usize)
}

/// The clusters of a system file whose size is stated.
#[tactic(auto, unfolding(vol_parts::specs::Fatal::stated_clusters))]
fn stated_clusters(home: &Home, blocks: &[Block], n: u32) -> Option<usize>
    requires limits { IsWithinLimits home.now }
    requires size { IsSize (length blocks.now) }
    ensures value { result ≡ stated_clusters (volume home.now blocks.now) n }
    ensures bound { IfSome result (λ clusters. clusters < 2 ^ 20) }
{
    match n {
        1 => Some(index_clusters(home)),
        2 => {
            let storage = total(home, blocks).div_ceil(4096);
            Some(in_whole_clusters(usize::from(home.cluster), 1 + storage))
        }
        4 | 10 | 11 => Some(1),
        _ => None,
    }
}

/// Whether a run has so many clusters inside the whole clusters, from LBN 0 for the index file.
fn is_stated_run(home: &Home, blocks: &[Block], n: u32, clusters: usize, run: &Run) -> bool
    requires limits { IsWithinLimits home.now }
    requires clusters { clusters < 2 ^ 20 }
    ensures { result ≡ is_stated_run (volume home.now blocks.now) n clusters run.now }
{
    let [lbn, count] = [run.lbn as usize, run.count as usize];
    count == usize::from(home.cluster) * clusters
        && lbn + count <= whole(home, blocks)
        && (n != 1 || lbn == 0)
}

/// Whether there is one run, and it is as stated.
fn is_one_stated(
    home: &Home,
    blocks: &[Block],
    n: u32,
    clusters: usize,
    mut left: FileRuns<'_>,
) -> bool
    requires limits { IsWithinLimits home.now }
    requires clusters { clusters < 2 ^ 20 }
    ensures { result ≡ are_stated (volume home.now blocks.now) n (Some clusters) (file_runs_left left.entry) }
{
    let Some(run) = left.next() else {
        return false;
    };
    left.next().is_none() && is_stated_run(home, blocks, n, clusters, &run)
}

/// Whether the runs of a system file are as stated, where they are stated.
fn has_stated_runs(home: &Home, blocks: &[Block], n: u32) -> bool
    requires limits { IsWithinLimits home.now }
    requires size { IsSize (length blocks.now) }
    requires number { (1 ≤ n) × (n ≤ 11) }
    ensures { let v = volume home.now blocks.now in result ≡ are_stated v n (stated_clusters v n) (runs v n) }
{
    let Some(clusters) = stated_clusters(home, blocks, n) else {
        return true;
    };
    is_one_stated(home, blocks, n, clusters, file_runs(home, blocks, n))
}

/// Whether a header in use is that of this system file: its sequence, a directory or not, and not marked.
fn is_system_header(n: u32, f: &Hdr) -> bool
    ensures { result ≡ is_system_header n (Some f.now) }
{
    let directory = n == 4 || n == 11;
    let seq = if n <= 9 { n } else { 1 };
    u32::from(f.seq) == seq && f.dir == directory && !f.marked
}

#[tactic(auto, unfolding(vol_parts::specs::Fatal::is_system_file))]
fn is_system_file(home: &Home, blocks: &[Block], n: u32) -> bool
    requires limits { IsWithinLimits home.now }
    requires size { IsSize (length blocks.now) }
    requires number { (1 ≤ n) × (n ≤ 11) }
    ensures { result ≡ is_system_file (volume home.now blocks.now) n }
{
    match fields(home, blocks, n) {
        Some(f) => {
            is_system_header(n, &f)
                && is_one_header(home, blocks, n, &f)
                && has_stated_runs(home, blocks, n)
        }
        None => false,
    }
}

fn lowest_bad_system_file(home: &Home, blocks: &[Block]) -> Option<u32>
    requires limits { IsWithinLimits home.now }
    requires size { IsSize (length blocks.now) }
    ensures { IsLowest (λ n. not (is_system_file (volume home.now blocks.now) n)) 1 11 result }
{
    for n in 1..12 {
        if !is_system_file(home, blocks, n) {
            return Some(n);
        }
    }
    None
}

/// The first system file that is not what the structure of a volume asks.
pub fn first_bad_system_file(home: &Home, blocks: &[Block]) -> Option<Finding>
    requires limits { IsWithinLimits home.now }
    requires size { IsSize (length blocks.now) }
    ensures first { IsFirstOf (volume home.now blocks.now) 2 result }
    ensures none { IfNone result (HasSystemFiles (volume home.now blocks.now)) }
{
    Some(Finding::SystemFile(lowest_bad_system_file(home, blocks)?))
}
