//! The search for free clusters and a free file number in the bitmaps that a node has looked at.

ghost use Rattle.std.specs.Prelude.{◌≡◌, ◌+◌, IfOk, length};
ghost use Rattle.vol_parts.specs.Parts.{IsGeometry, storage_blocks};
ghost use Rattle.vol_parts.specs.declared.geometry.Part.TheVariants.{Storage};
ghost use Rattle.vol_spell.specs.Reading.{total_of};
ghost use Rattle.vol_spell.specs.Places.{place_of};
ghost use Rattle.core_space.specs.Searching.{found_clusters};
ghost use Rattle.core_space.specs.Answering.{answered, answer, blocks_alone};

use crate::outcome::Search;
use crate::taking::{free_number, number_write, take_clusters};
use base_words::Block;
use op_law::Writes;
use plain_cat::{NoMemory, Refusal};
use std::alloc::Global;
use vol_parts::Geometry;

/// What a search for so many clusters, and a file number or none, comes to by the blocks that it has looked at, each with its
/// LBN, in order. The geometry is one of a volume.
pub fn search(
    alloc: Global,
    geometry: &Geometry,
    clusters: u32,
    number: bool,
    looked: &[(u32, Block)],
) -> Result<Search, NoMemory>
    requires { IsGeometry geometry.now }
    ensures { IfOk result (λ s. s ≡ answer geometry.now clusters number (blocks_alone looked.now)) }
{
    let mut writes = Writes::new(alloc);
    if !number {
        return search_storage(alloc, geometry, clusters, None, looked, writes);
    }
    let [(_, index), storage @ ..] = looked else {
        return Ok(Search::Look(4 * geometry.cluster));
    };
    let Some(n) = free_number(geometry, index) else {
        return Ok(Search::Short(Refusal::IndexFull));
    };
    writes.push(number_write(alloc, geometry, n, index))?;
    search_storage(alloc, geometry, clusters, Some(n), storage, writes)
}

// What it comes to by the blocks of the storage bitmap that it has looked at, with the number and the writes that come first.
fn search_storage(
    alloc: Global,
    geometry: &Geometry,
    clusters: u32,
    number: Option<u32>,
    looked: &[(u32, Block)],
    mut writes: Writes,
) -> Result<Search, NoMemory>
    requires { IsGeometry geometry.now }
    ensures { IfOk result (λ s. s ≡ answered (place_of geometry.now (Storage (length looked.now))) (found_clusters geometry.now clusters number writes (blocks_alone looked.now))) }
{
    let count = looked.len().min(16);
    let taken = take_clusters(
        alloc,
        geometry,
        clusters,
        number,
        &looked[..count],
        &mut writes,
    )?;
    if clusters as usize <= taken.items().len() {
        return Ok(Search::Take(writes));
    }
    if looked.len() < storage_blocks(geometry) as usize {
        return Ok(Search::Look(geometry.bitmap_lbn + 1 + looked.len() as u32));
    }
    Ok(Search::Short(Refusal::DeviceFull))
}

// How many blocks the storage bitmap has.
fn storage_blocks(geometry: &Geometry) -> u32
    requires { IsGeometry geometry.now }
    ensures { result ≡ storage_blocks (total_of geometry.now) }
{
    (geometry.blocks / geometry.cluster).div_ceil(4096)
}
