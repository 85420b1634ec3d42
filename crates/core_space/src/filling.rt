//! A stock that is filled from the bitmaps.

ghost use Rattle.std.specs.Prelude.{◌≡◌, ◌≤◌, ◌+◌, ◌++◌, ◌&&◌, ◌||◌, not, nat_lt, nat_le, IfOk, OnOk, length, map};
ghost use Rattle.std.specs.List.{All};
ghost use Rattle.vol_parts.specs.Parts.{IsGeometry};
ghost use Rattle.op_law.specs.Writing.{with_numbers};
ghost use Rattle.core_space.specs.Searching.{free_from};
ghost use Rattle.core_space.specs.Answering.{blocks_alone};
ghost use Rattle.core_space.specs.Filling.{clusters_to_take, lacks_number, storage_part, storage_place, fill_place, numbers_taken, numbers_write, index_writes, storage_writes, filled};

use crate::bits::{count_free, lowest_numbers, storage_blocks, with_used};
use crate::run::SpaceNeed;
use crate::{Search, search};
use base_words::Block;
use extent_cache::Extents;
use lock_db::LockName;
use op_law::{Numbers, PlanWrite, Writes};
use plain_cat::{Clusters, NoMemory, Stage};
use std::alloc::Global;
use vol_parts::Geometry;

/// So many clusters are taken beyond the need.
const SPARE: u32 = 16;

// How many clusters a stock that holds so many is to take.
pub(crate) fn clusters_to_take(need: u32, held: u32) -> u32
    requires { need ≤ 65536 }
    ensures count { result ≡ clusters_to_take need held }
{
    if need <= held { 0 } else { need + SPARE - held }
}

// Whether a number is needed and the stock holds none.
pub(crate) fn lacks_number(needed: bool, stock: &Extents) -> bool
    ensures { result ≡ lacks_number needed stock.now.numbers }
{
    needed && stock.numbers().is_empty()
}

// Of the blocks looked at, those of the storage bitmap.
fn storage_part(lacks: bool, looked: &[(u32, Block)]) -> &[(u32, Block)]
    ensures { blocks_alone result.now ≡ storage_part lacks (blocks_alone looked.now) }
{
    match looked {
        [_, storage @ ..] if lacks => storage,
        _ => looked,
    }
}

// The next block of the storage bitmap, where in these too few are free and there is one more.
fn storage_place(geometry: &Geometry, wanted: u32, storage: &[(u32, Block)]) -> Option<u32>
    requires { IsGeometry geometry.now }
    ensures { result ≡ storage_place geometry.now wanted (blocks_alone storage.now) }
{
    if count_free(geometry, storage) < wanted && storage.len() < storage_blocks(geometry) as usize {
        return Some(geometry.bitmap_lbn + 1 + storage.len() as u32);
    }
    None
}

// The next block to be looked at where a stock takes so many clusters, and lacks a number or not.
pub(crate) fn fill_place(
    geometry: &Geometry,
    wanted: u32,
    lacks: bool,
    looked: &[(u32, Block)],
) -> Option<u32>
    requires { IsGeometry geometry.now }
    ensures { result ≡ fill_place geometry.now wanted lacks (blocks_alone looked.now) }
{
    if !lacks {
        return storage_place(geometry, wanted, looked);
    }
    match looked {
        [] => Some(4 * geometry.cluster),
        [_, storage @ ..] => storage_place(geometry, wanted, storage),
    }
}

// The numbers that are taken.
fn numbers_taken(
    alloc: Global,
    geometry: &Geometry,
    lacks: bool,
    looked: &[(u32, Block)],
) -> Result<Numbers, NoMemory>
    requires { IsGeometry geometry.now }
    ensures numbers { IfOk result (λ ns. ns ≡ numbers_taken geometry.now lacks (blocks_alone looked.now)) }
    ensures within { IfOk result (λ ns. All (λ n. (1 ≤ n) × (n ≤ 4096)) ns) }
{
    match looked {
        [(_, index), ..] if lacks => lowest_numbers(alloc, geometry, index),
        _ => Ok(Numbers::new(alloc)),
    }
}

// The same numbers again.
fn copied(alloc: Global, numbers: &[u32]) -> Result<Numbers, NoMemory>
    ensures { IfOk result (λ ns. ns ≡ numbers.now) }
{
    let mut list = Numbers::new(alloc);
    for n in numbers {
        list.push(*n)?;
    }
    Ok(list)
}

// The write of the index-file bitmap that takes these numbers.
fn numbers_write(
    alloc: Global,
    geometry: &Geometry,
    index: &Block,
    numbers: &[u32],
) -> Result<PlanWrite, NoMemory>
    requires geometry { IsGeometry geometry.now }
    requires within { All (λ n. (1 ≤ n) × (n ≤ 4096)) numbers.now }
    ensures { IfOk result (λ w. w ≡ numbers_write geometry.now index.now numbers.now) }
{
    Ok(PlanWrite {
        lock: LockName::V,
        lbn: 4 * geometry.cluster,
        block: with_used(index, numbers),
        stage: Stage::Nothing,
        clusters: Clusters::new(alloc),
        numbers: copied(alloc, numbers)?,
        number: None,
    })
}

// The writes of the index-file bitmap, where a number is lacking and these are taken.
fn index_writes(
    alloc: Global,
    geometry: &Geometry,
    lacks: bool,
    looked: &[(u32, Block)],
    numbers: &[u32],
) -> Result<Writes, NoMemory>
    requires geometry { IsGeometry geometry.now }
    requires numbers { numbers.now ≡ numbers_taken geometry.now lacks (blocks_alone looked.now) }
    requires within { All (λ n. (1 ≤ n) × (n ≤ 4096)) numbers.now }
    ensures { IfOk result (λ ws. ws ≡ index_writes geometry.now lacks (blocks_alone looked.now)) }
{
    let mut writes = Writes::new(alloc);
    if let [(_, index), ..] = looked {
        if lacks {
            writes.push(numbers_write(alloc, geometry, index, numbers)?)?;
        }
    }
    Ok(writes)
}

// A write with these numbers taken before it.
fn behind(alloc: Global, write: &PlanWrite, numbers: &[u32]) -> Result<PlanWrite, NoMemory>
    ensures { IfOk result (λ w. w ≡ with_numbers numbers.now write.now) }
{
    Ok(PlanWrite {
        lock: write.lock,
        lbn: write.lbn,
        block: write.block,
        stage: write.stage,
        clusters: write.clusters.copy(alloc)?,
        numbers: copied(alloc, numbers)?,
        number: write.number,
    })
}

// Puts these writes behind the others, with these numbers taken before them.
fn put_behind(
    alloc: Global,
    list: &[PlanWrite],
    numbers: &[u32],
    writes: &mut Writes,
) -> Result<(), NoMemory>
    ensures { OnOk result (writes.new ≡ writes.old ++ map (with_numbers numbers.now) list.now) }
{
    for write in list {
        writes.push(behind(alloc, write, numbers)?)?;
    }
    Ok(())
}

// Puts the writes that take the lowest free clusters, so many, behind the others. There are so many.
fn add_clusters(
    alloc: Global,
    geometry: &Geometry,
    count: u32,
    storage: &[(u32, Block)],
    numbers: &[u32],
    writes: &mut Writes,
) -> Result<(), NoMemory>
    requires geometry { IsGeometry geometry.now }
    requires there { count ≤ length (free_from geometry.now 0 (blocks_alone storage.now)) }
    ensures { OnOk result (writes.new ≡ writes.old ++ storage_writes geometry.now count numbers.now (blocks_alone storage.now)) }
{
    match search(alloc, geometry, count, false, storage)? {
        Search::Take(list) => put_behind(alloc, list.items(), numbers, writes),
        _ => Ok(()),
    }
}

// Whether a number was found, where one is lacking, and with what is held there are as many clusters as are needed.
fn suffices(need: SpaceNeed, held: u32, lacks: bool, numbers: &[u32], free: u32) -> bool
    ensures { result ≡ ((not lacks || nat_lt 0 (length numbers.now)) && nat_le need.clusters (held + free)) }
{
    (!lacks || !numbers.is_empty()) && need.clusters.saturating_sub(held) <= free
}

// The writes that fill the stock, once all is looked at. None comes exactly where there is too little.
pub(crate) fn fill(
    alloc: Global,
    geometry: &Geometry,
    need: SpaceNeed,
    looked: &[(u32, Block)],
    stock: &Extents,
) -> Result<Option<Writes>, NoMemory>
    requires geometry { IsGeometry geometry.now }
    requires need { need.clusters ≤ 65536 }
    ensures { IfOk result (λ o. o ≡ filled geometry.now need.clusters (length stock.now.clusters) (lacks_number need.number stock.now.numbers) (blocks_alone looked.now)) }
{
    let held = stock.count();
    let lacks = lacks_number(need.number, stock);
    let storage = storage_part(lacks, looked);
    let free = count_free(geometry, storage);
    let numbers = numbers_taken(alloc, geometry, lacks, looked)?;
    let found = numbers.items();
    let count = clusters_to_take(need.clusters, held).min(free);
    if !suffices(need, held, lacks, found, free) {
        return Ok(None);
    }
    let mut writes = index_writes(alloc, geometry, lacks, looked, found)?;
    add_clusters(alloc, geometry, count, storage, found, &mut writes)?;
    Ok(Some(writes))
}
