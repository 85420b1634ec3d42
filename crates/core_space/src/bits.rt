//! What is free by the bits of a block, and blocks with other bits.

ghost use Rattle.std.specs.Prelude.{◌≡◌, ◌<◌, ◌≤◌, ◌+◌, ◌-◌, ◌*◌, ◌/◌, IfOk, filter, length};
ghost use Rattle.std.specs.List.{All};
ghost use Rattle.extent_cache.specs.Stock.{is_covered};
ghost use Rattle.vol_parts.specs.Parts.{IsGeometry, storage_blocks};
ghost use Rattle.vol_spell.specs.Reading.{total_of};
ghost use Rattle.op_law.specs.Freeing.{with_free, without_numbers};
ghost use Rattle.core_space.specs.Searching.{free_in, free_from};
ghost use Rattle.core_space.specs.Answering.{blocks_alone};
ghost use Rattle.core_space.specs.Filling.{lowest_numbers, with_used};
ghost use Rattle.core_space.specs.Giving.{is_seen, block_seen, has_covered};

use base_words::{Block, zeros};
use fx_bitmap::{bit, clear_bits, count_set, set_bits};
use op_law::Numbers;
use plain_cat::NoMemory;
use std::alloc::Global;
use vol_parts::Geometry;

/// How many clusters have their bits in a block of the storage bitmap.
const CLUSTERS_PER_BLOCK: u32 = 4_096;

/// One file number, and the spare ones that a stock takes with it.
const NUMBERS: usize = 9;

// How many blocks the storage bitmap has.
pub(crate) fn storage_blocks(geometry: &Geometry) -> u32
    requires { IsGeometry geometry.now }
    ensures { result ≡ storage_blocks (total_of geometry.now) }
{
    (geometry.blocks / geometry.cluster).div_ceil(CLUSTERS_PER_BLOCK)
}

// How many clusters of the volume are free by block k of the storage bitmap.
fn count_in(geometry: &Geometry, k: u32, block: &Block) -> u32
    requires geometry { IsGeometry geometry.now }
    requires place { k < 16 }
    ensures count { result ≡ length (free_in geometry.now k block.now) }
    ensures most { result ≤ 4096 }
{
    let first = CLUSTERS_PER_BLOCK * k;
    let end = (first + CLUSTERS_PER_BLOCK).min(geometry.blocks / geometry.cluster);
    if end == first + CLUSTERS_PER_BLOCK {
        return count_set(block);
    }
    let mut count = 0;
    for q in first..end {
        if bit(block, q % CLUSTERS_PER_BLOCK) {
            count += 1;
        }
    }
    count
}

// How many are free by these blocks, of which the first is block 0. The volume has at most 16.
pub(crate) fn count_free(geometry: &Geometry, storage: &[(u32, Block)]) -> u32
    requires { IsGeometry geometry.now }
    ensures count { result ≡ length (free_from geometry.now 0 (blocks_alone storage.now)) }
    ensures most { result ≤ 65536 }
{
    let last = storage.len().min(16);
    count_first(geometry, &storage[..last])
}

fn count_first(geometry: &Geometry, storage: &[(u32, Block)]) -> u32
    requires geometry { IsGeometry geometry.now }
    requires few { length storage.now ≤ 16 }
    ensures count { result ≡ length (free_from geometry.now 0 (blocks_alone storage.now)) }
    ensures most { result ≤ 65536 }
{
    let mut count = 0;
    for (k, (_, block)) in storage.iter().enumerate() {
        count += count_in(geometry, k as u32, block);
    }
    count
}

// The lowest free numbers by the index-file bitmap: one and the spare ones, or as many as there are.
pub(crate) fn lowest_numbers(
    alloc: Global,
    geometry: &Geometry,
    index: &Block,
) -> Result<Numbers, NoMemory>
    requires { IsGeometry geometry.now }
    ensures numbers { IfOk result (λ ns. ns ≡ lowest_numbers geometry.now index.now) }
    ensures within { IfOk result (λ ns. All (λ n. (1 ≤ n) × (n ≤ 4096)) ns) }
{
    let mut numbers = Numbers::new(alloc);
    for n in 1..geometry.files + 1 {
        if numbers.items().len() < NUMBERS && !bit(index, n - 1) {
            numbers.push(n)?;
        }
    }
    Ok(numbers)
}

// A block of the index-file bitmap in which these numbers are in use.
#[tactic(auto, unfolding(crate::specs::Filling::with_used))]
pub(crate) fn with_used(index: &Block, numbers: &[u32]) -> Block
    requires { All (λ n. (1 ≤ n) × (n ≤ 4096)) numbers.now }
    ensures { result ≡ with_used index.now numbers.now }
{
    let mut block = *index;
    for n in numbers {
        set_bits(&mut block, *n - 1, 1);
    }
    block
}

// The same with these numbers free.
#[tactic(auto, unfolding(op_law::specs::Freeing::without_numbers))]
pub(crate) fn without_numbers(index: &Block, numbers: &[u32]) -> Block
    requires { All (λ n. (1 ≤ n) × (n < 4097)) numbers.now }
    ensures { result ≡ without_numbers index.now numbers.now }
{
    let mut block = *index;
    for n in numbers {
        clear_bits(&mut block, *n - 1, 1);
    }
    block
}

// A block of the storage bitmap in which those of the clusters are free that have their bits in it.
pub(crate) fn with_free(storage: &Block, clusters: &[u32], k: u32) -> Block
    ensures { result ≡ with_free storage.now (filter (λ c. is_covered k c) clusters.now) }
{
    let mut block = *storage;
    for q in clusters {
        if *q / CLUSTERS_PER_BLOCK == k {
            set_bits(&mut block, *q % CLUSTERS_PER_BLOCK, 1);
        }
    }
    block
}

// Whether some of these clusters have their bits in block k of the storage bitmap.
pub(crate) fn has_covered(clusters: &[u32], k: u32) -> bool
    ensures { result ≡ has_covered clusters.now k }
{
    clusters.iter().any(|c| *c / CLUSTERS_PER_BLOCK == k)
}

// Whether a block was looked at.
pub(crate) fn is_seen(looked: &[(u32, Block)], lbn: u32) -> bool
    ensures { result ≡ is_seen looked.now lbn }
{
    looked.iter().any(|b| b.0 == lbn)
}

// What was seen there, or zeros where it was not looked at.
pub(crate) fn block_seen(looked: &[(u32, Block)], lbn: u32) -> Block
    ensures { result ≡ block_seen looked.now lbn }
{
    for seen in looked {
        if seen.0 == lbn {
            let block = seen.1;
            return block;
        }
    }
    zeros()
}
