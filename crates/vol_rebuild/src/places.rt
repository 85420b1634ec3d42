//! The blocks of a directory, and where they stand.

ghost use Rattle.std.specs.Prelude.{◌≡◌, ◌<◌, ◌++◌, ◌+◌, All, length, IfOk, IsTrue, OnOk};
ghost use Rattle.fx_header.specs.Headers.{has_offsets, has_map, runs_in};
ghost use Rattle.fx_header.specs.Pointers.{lbns_in};
ghost use Rattle.std.specs.List.{range_with_len};
ghost use Rattle.vol_spell.specs.Spread.{blocks_at};
ghost use Rattle.vol_spell.specs.Reading.{header_block, runs_told};
ghost use Rattle.vol_rebuild.specs.Places.{places_told, IsThere};

use base_words::Block;
use fx_dir::Move;
use fx_header::{Run, Slot, read_header, runs};
use plain_cat::NoMemory;
use std::alloc::Global;
use vol_parts::{Geometry, cut};

// The blocks of a directory, and the LBN of each.
#[derive(Drop)]
pub(crate) struct DirBlocks {
    pub(crate) places: Vec<usize>,
    pub(crate) blocks: Vec<Block>,
}

// Moves in a directory, and the LBN of each of its blocks.
#[derive(Drop)]
pub(crate) struct Moves {
    pub(crate) places: Vec<usize>,
    pub(crate) moves: Vec<Move>,
}

// Adds the LBNs of the blocks of a run.
fn push_run(all: &mut Vec<usize>, run: Run) -> Result<(), NoMemory>
    ensures { OnOk result (all.new.items ≡ all.old.items ++ range_with_len run.lbn run.count) }
{
    for i in 0..run.count as usize {
        all.push(run.lbn as usize + i)?;
    }
    Ok(())
}

// The runs that a header lists.
pub(crate) fn listed(alloc: Global, header: &Block) -> Result<Vec<Run>, NoMemory>
    requires offsets { IsTrue (has_offsets header.now) }
    requires map { IsTrue (has_map header.now) }
    ensures { IfOk result (λ v. v.items ≡ runs_in header.now) }
{
    let mut all = Vec::new(alloc);
    for run in runs(header) {
        all.push(run)?;
    }
    Ok(all)
}

// The runs of a file that has one header, by this header: none where it is no first header in use.
fn first_runs(alloc: Global, header: &Block) -> Result<Vec<Run>, NoMemory>
    ensures { IfOk result (λ v. v.items ≡ runs_told header.now) }
{
    let Ok(Slot::Used(f)) = read_header(header) else {
        return Ok(Vec::new(alloc));
    };
    if f.seg != 0 {
        return Ok(Vec::new(alloc));
    }
    let listed = listed(alloc, header)?;
    cut(alloc, listed.as_slice(), f.blocks)
}

// The LBNs of the blocks of runs, in order.
fn lbns(alloc: Global, runs: &[Run]) -> Result<Vec<usize>, NoMemory>
    ensures { IfOk result (λ v. v.items ≡ lbns_in runs.now) }
{
    let mut all = Vec::new(alloc);
    for run in runs {
        push_run(&mut all, *run)?;
    }
    Ok(all)
}

// The LBNs of the blocks of a file that has one header, by this header.
fn places(alloc: Global, header: &Block) -> Result<Vec<usize>, NoMemory>
    ensures { IfOk result (λ v. v.items ≡ places_told header.now) }
{
    let runs = first_runs(alloc, header)?;
    lbns(alloc, runs.as_slice())
}

// The blocks at these LBNs.
fn blocks_at(alloc: Global, blocks: &[Block], places: &[usize]) -> Result<Vec<Block>, NoMemory>
    requires { All (λ l. l < length blocks.now) places.now }
    ensures { IfOk result (λ v. v.items ≡ blocks_at blocks.now places.now) }
{
    let mut all = Vec::new(alloc);
    for l in places {
        all.push(blocks[*l])?;
    }
    Ok(all)
}

// The blocks of the directory of a number.
pub(crate) fn body(
    alloc: Global,
    g: &Geometry,
    blocks: &[Block],
    n: u32,
) -> Result<DirBlocks, NoMemory>
    requires { IsThere g.now blocks.now n }
    ensures places { IfOk result (λ b. b.places.items ≡ places_told (header_block g.now blocks.now n)) }
    ensures blocks { IfOk result (λ b. b.blocks.items ≡ blocks_at blocks.now (places_told (header_block g.now blocks.now n))) }
{
    let header = &blocks[4 * g.cluster as usize + n as usize];
    let places = places(alloc, header)?;
    let found = blocks_at(alloc, blocks, places.as_slice())?;
    Ok(DirBlocks {
        places,
        blocks: found,
    })
}
