//! Where the fixed parts of a volume lie that can be read, and how much of it is free.

ghost use Rattle.std.specs.Prelude.{◌≡◌, length};
ghost use Rattle.fx_home.specs.Homes.{IsWithinLimits, home_read};
ghost use Rattle.vol_parts.specs.Conditions.{HasSystemFiles};
ghost use Rattle.vol_parts.specs.Findings.{home_at, IsReadable};
ghost use Rattle.vol_parts.specs.Parts.{IsGeometry};
ghost use Rattle.vol_parts.specs.Volumes.{volume};
ghost use Rattle.vol_faults.specs.Conditions.{IsSize, HasHeads};
ghost use Rattle.vol_faults.specs.Free.{free_clusters, free_numbers, IsGeometryBy, AreFreeBy};

use crate::sizes::total;
use base_words::Block;
use fx_home::{Home, read_home};
use vol_parts::{Geometry, first_lbn, is_free_cluster, is_used_number};

/// How many clusters the storage bitmap calls free.
fn free_clusters(home: &Home, blocks: &[Block]) -> u32
    requires limits { IsWithinLimits home.now }
    requires size { IsSize (length blocks.now) }
    requires systems { HasSystemFiles (volume home.now blocks.now) }
    ensures { result ≡ free_clusters (volume home.now blocks.now) }
{
    let bitmap = first_lbn(home, blocks, 2);
    let mut free = 0;
    for q in 0..total(home, blocks) as u32 {
        if is_free_cluster(home, blocks, bitmap, q) {
            free += 1;
        }
    }
    free
}

/// How many file numbers the index-file bitmap calls free.
fn free_numbers(home: &Home, blocks: &[Block]) -> u32
    requires limits { IsWithinLimits home.now }
    requires heads { HasHeads (volume home.now blocks.now) }
    ensures { result ≡ free_numbers (volume home.now blocks.now) }
{
    let mut free = 0;
    for i in 0..home.files {
        if !is_used_number(home, blocks, i + 1) {
            free += 1;
        }
    }
    free
}

/// Where the fixed parts of a volume lie. It can be read: it has 64 to 65,536 blocks and no fatal finding, but that [SYSLOST]
/// may lack room for a lost file. What is told is within the limits of a volume.
pub fn geometry(blocks: &[Block]) -> Geometry
    requires size { IsSize (length blocks.now) }
    requires readable { IsReadable blocks.now }
    ensures told { IsGeometryBy blocks.now (home_read (home_at blocks.now)) result }
    ensures limits { IsGeometry result }
{
    match read_home(&blocks[1]) {
        Ok(home) => Geometry {
            blocks: blocks.len() as u32,
            cluster: u32::from(home.cluster),
            files: home.files,
            bitmap_lbn: first_lbn(&home, blocks, 2),
            quota_lbn: first_lbn(&home, blocks, 10),
        },
        Err(_) => Geometry {
            blocks: 0,
            cluster: 0,
            files: 0,
            bitmap_lbn: 0,
            quota_lbn: 0,
        },
    }
}

/// How many clusters the storage bitmap of a volume calls free, and how many numbers its index-file bitmap. The volume can be
/// read: it has 64 to 65,536 blocks and no fatal finding, but that [SYSLOST] may lack room for a lost file.
pub fn free_counts(blocks: &[Block]) -> (u32, u32)
    requires size { IsSize (length blocks.now) }
    requires readable { IsReadable blocks.now }
    ensures { AreFreeBy blocks.now (home_read (home_at blocks.now)) result.0 result.1 }
{
    match read_home(&blocks[1]) {
        Ok(home) => (free_clusters(&home, blocks), free_numbers(&home, blocks)),
        Err(_) => (0, 0),
    }
}
