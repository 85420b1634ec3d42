//! A stock that is given back to the bitmaps.

ghost use Rattle.std.specs.Prelude.{◌≡◌, ◌≤◌, ◌<◌, ◌++◌, IfOk, OnOk, map, filter};
ghost use Rattle.std.specs.List.{All};
ghost use Rattle.vol_parts.specs.Parts.{IsGeometry};
ghost use Rattle.lock_db.specs.declared.name.LockName.TheVariants.{V};
ghost use Rattle.plain_cat.specs.declared.history.Stage.TheVariants as stage;
ghost use Rattle.op_law.specs.Writing.{empty_handed, write_at};
ghost use Rattle.core_space.specs.Giving.{has_covered, storage_range, clusters_place, give_place, index_back, clusters_back, give_writes};

use crate::bits::{block_seen, has_covered, is_seen, storage_blocks, with_free, without_numbers};
use base_words::Block;
use lock_db::LockName;
use op_law::{Numbers, PlanWrite, Writes};
use plain_cat::{Clusters, NoMemory, Stage};
use std::alloc::Global;
use vol_parts::Geometry;

// The first block of the storage bitmap that has bits of these clusters and was not looked at.
fn clusters_place(geometry: &Geometry, clusters: &[u32], looked: &[(u32, Block)]) -> Option<u32>
    requires { IsGeometry geometry.now }
    ensures { result ≡ clusters_place geometry.now clusters.now looked.now }
{
    for k in 0..storage_blocks(geometry) {
        let lbn = geometry.bitmap_lbn + 1 + k;
        if has_covered(clusters, k) && !is_seen(looked, lbn) {
            return Some(lbn);
        }
    }
    None
}

// The next block to be looked at before a stock of these clusters and numbers goes back.
pub(crate) fn give_place(
    geometry: &Geometry,
    clusters: &[u32],
    numbers: &[u32],
    looked: &[(u32, Block)],
) -> Option<u32>
    requires { IsGeometry geometry.now }
    ensures { result ≡ give_place geometry.now clusters.now numbers.now looked.now }
{
    let index = 4 * geometry.cluster;
    if !numbers.is_empty() && !is_seen(looked, index) {
        return Some(index);
    }
    clusters_place(geometry, clusters, looked)
}

// A write of a bitmap that leaves nothing to the command.
fn bare_write(alloc: Global, lbn: u32, block: Block) -> PlanWrite
    ensures { result ≡ write_at V lbn block stage.Nothing empty_handed }
{
    PlanWrite {
        lock: LockName::V,
        lbn,
        block,
        stage: Stage::Nothing,
        clusters: Clusters::new(alloc),
        numbers: Numbers::new(alloc),
        number: None,
    }
}

// Puts the writes that make these clusters free behind the others.
fn add_clusters(
    alloc: Global,
    geometry: &Geometry,
    clusters: &[u32],
    looked: &[(u32, Block)],
    writes: &mut Writes,
) -> Result<(), NoMemory>
    requires { IsGeometry geometry.now }
    ensures { OnOk result (writes.new ≡ writes.old ++ map (clusters_back geometry.now clusters.now looked.now) (filter (has_covered clusters.now) (storage_range geometry.now))) }
{
    for k in 0..storage_blocks(geometry) {
        if has_covered(clusters, k) {
            let lbn = geometry.bitmap_lbn + 1 + k;
            let block = with_free(&block_seen(looked, lbn), clusters, k);
            writes.push(bare_write(alloc, lbn, block))?;
        }
    }
    Ok(())
}

// The write that makes the numbers free, where there are any.
fn index_writes(
    alloc: Global,
    geometry: &Geometry,
    numbers: &[u32],
    looked: &[(u32, Block)],
) -> Result<Writes, NoMemory>
    requires geometry { IsGeometry geometry.now }
    requires within { All (λ n. (1 ≤ n) × (n < 4097)) numbers.now }
    ensures { IfOk result (λ ws. ws ≡ index_back geometry.now numbers.now looked.now) }
{
    let mut writes = Writes::new(alloc);
    if !numbers.is_empty() {
        let index = 4 * geometry.cluster;
        let block = without_numbers(&block_seen(looked, index), numbers);
        writes.push(bare_write(alloc, index, block))?;
    }
    Ok(writes)
}

// The writes that make a stock of these clusters and numbers free, once all its blocks are looked at.
#[tactic(auto, unfolding(crate::specs::Giving::give_writes))]
pub(crate) fn give_writes(
    alloc: Global,
    geometry: &Geometry,
    clusters: &[u32],
    numbers: &[u32],
    looked: &[(u32, Block)],
) -> Result<Writes, NoMemory>
    requires geometry { IsGeometry geometry.now }
    requires within { All (λ n. (1 ≤ n) × (n < 4097)) numbers.now }
    ensures { IfOk result (λ ws. ws ≡ give_writes geometry.now clusters.now numbers.now looked.now) }
{
    let mut writes = index_writes(alloc, geometry, numbers, looked)?;
    add_clusters(alloc, geometry, clusters, looked, &mut writes)?;
    Ok(writes)
}
