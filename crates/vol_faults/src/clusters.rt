//! Clusters in two runs, clusters that are free and in a file, and clusters that are neither.

ghost use Rattle.std.specs.Prelude.{◌≡◌, ◌+◌, ◌/◌, ◌<◌, ◌&&◌, not, nat_le, length, slice_index};
ghost use Rattle.std.specs.List.{count_by, range_with_len};
ghost use Rattle.fx_home.specs.Homes.{IsWithinLimits};
ghost use Rattle.vol_parts.specs.Catalogues.{is_outside_cluster};
ghost use Rattle.vol_parts.specs.Conditions.{HasSystemFiles, HasAllRunsInside};
ghost use Rattle.vol_parts.specs.Firsts.{IsFirstOf};
ghost use Rattle.vol_parts.specs.Lowest.{IsLowest};
ghost use Rattle.vol_parts.specs.Volumes.{volume, total, bitmap_lbn, is_free_cluster};
ghost use Rattle.vol_faults.specs.Conditions.{IsSize};
ghost use Rattle.vol_faults.specs.Counts.{AreCounts, times};

use crate::sizes::total;
use base_words::Block;
use fx_home::Home;
use vol_parts::{Finding, first_lbn, is_free_cluster};

fn lowest_shared(home: &Home, blocks: &[Block], counts: &[u8]) -> Option<u32>
    requires limits { IsWithinLimits home.now }
    requires size { IsSize (length blocks.now) }
    requires counts { AreCounts (volume home.now blocks.now) counts.now }
    ensures { let v = volume home.now blocks.now in IsLowest (λ q. nat_le 2 (times v q)) 0 (total v) result }
{
    for q in 0..total(home, blocks) as u32 {
        if counts[q as usize] == 2 {
            return Some(q);
        }
    }
    None
}

/// The first cluster that is in two runs. All runs are whole clusters of the volume, and the counts are those of
/// [`crate::count_clusters`].
pub fn first_shared_cluster(home: &Home, blocks: &[Block], counts: &[u8]) -> Option<Finding>
    requires limits { IsWithinLimits home.now }
    requires size { IsSize (length blocks.now) }
    requires runs { HasAllRunsInside (volume home.now blocks.now) }
    requires counts { AreCounts (volume home.now blocks.now) counts.now }
    ensures { IsFirstOf (volume home.now blocks.now) 7 result }
{
    Some(Finding::SharedCluster(lowest_shared(home, blocks, counts)?))
}

/// Whether the storage bitmap calls a cluster free, and its count is not 0.
fn is_free_in_file(home: &Home, blocks: &[Block], counts: &[u8], bitmap: u32, q: u32) -> bool
    requires bitmap { bitmap ≡ bitmap_lbn (volume home.now blocks.now) }
    requires there { bitmap + 1 + q / 4096 < length blocks.now }
    requires count { q < length counts.now }
    ensures { result ≡ (is_free_cluster (volume home.now blocks.now) q && nat_le 1 (slice_index counts.now q)) }
{
    is_free_cluster(home, blocks, bitmap, q) && counts[q as usize] != 0
}

fn lowest_free_in_file(home: &Home, blocks: &[Block], counts: &[u8]) -> Option<u32>
    requires limits { IsWithinLimits home.now }
    requires size { IsSize (length blocks.now) }
    requires systems { HasSystemFiles (volume home.now blocks.now) }
    requires counts { AreCounts (volume home.now blocks.now) counts.now }
    ensures { let v = volume home.now blocks.now in
        IsLowest (λ q. is_free_cluster v q && nat_le 1 (times v q)) 0 (total v) result }
{
    let bitmap = first_lbn(home, blocks, 2);
    for q in 0..total(home, blocks) as u32 {
        if is_free_in_file(home, blocks, counts, bitmap, q) {
            return Some(q);
        }
    }
    None
}

/// The first cluster that the storage bitmap calls free and that a file has. The system files are what the structure of a
/// volume asks; the counts are those of [`crate::count_clusters`].
pub fn first_free_cluster(home: &Home, blocks: &[Block], counts: &[u8]) -> Option<Finding>
    requires limits { IsWithinLimits home.now }
    requires size { IsSize (length blocks.now) }
    requires systems { HasSystemFiles (volume home.now blocks.now) }
    requires counts { AreCounts (volume home.now blocks.now) counts.now }
    ensures { IsFirstOf (volume home.now blocks.now) 11 result }
{
    Some(Finding::FreeCluster(lowest_free_in_file(home, blocks, counts)?))
}

/// Whether the storage bitmap does not call a cluster free, and its count is 0.
fn is_outside(home: &Home, blocks: &[Block], counts: &[u8], bitmap: u32, q: u32) -> bool
    requires bitmap { bitmap ≡ bitmap_lbn (volume home.now blocks.now) }
    requires there { bitmap + 1 + q / 4096 < length blocks.now }
    requires count { q < length counts.now }
    ensures { result ≡ (not (is_free_cluster (volume home.now blocks.now) q) && not (nat_le 1 (slice_index counts.now q))) }
{
    !is_free_cluster(home, blocks, bitmap, q) && counts[q as usize] == 0
}

/// How many clusters are neither free nor in a file. The system files are what the structure of a volume asks; the counts
/// are those of [`crate::count_clusters`].
pub fn count_outside(home: &Home, blocks: &[Block], counts: &[u8]) -> u32
    requires limits { IsWithinLimits home.now }
    requires size { IsSize (length blocks.now) }
    requires systems { HasSystemFiles (volume home.now blocks.now) }
    requires counts { AreCounts (volume home.now blocks.now) counts.now }
    ensures { let v = volume home.now blocks.now in
        result ≡ count_by (is_outside_cluster v) (range_with_len 0 (total v)) }
{
    let bitmap = first_lbn(home, blocks, 2);
    let mut outside = 0;
    for q in 0..total(home, blocks) as u32 {
        if is_outside(home, blocks, counts, bitmap, q) {
            outside += 1;
        }
    }
    outside
}
