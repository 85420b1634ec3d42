//! The blocks of a directory, and where they stand.

ghost use Rattle.std.specs.Prelude.{◌≡◌, ◌<◌, ◌++◌, ◌+◌, All, length, IfOk, IsTrue, OnOk};
ghost use Rattle.fx_header.specs.Headers.{has_offsets, has_map, runs_in};
ghost use Rattle.fx_header.specs.Pointers.{lbns_in};
ghost use Rattle.std.specs.List.{range_with_len};
ghost use Rattle.vol_spell.specs.Spread.{blocks_at};
ghost use Rattle.vol_spell.specs.Reading.{header_block};
ghost use Rattle.vol_repair.specs.Listed.{runs_listed, places_listed, IsThere};

use base_words::Block;
use fx_dir::Move;
use fx_header::{Run, Slot, read_header, runs};
use plain_cat::NoMemory;
use std::alloc::Global;
use vol_parts::Geometry;

// The blocks of a directory, and the LBN of each.
#[derive(Drop)]
pub(crate) struct DirBlocks {
    pub(crate) places: Vec<usize>,
    pub(crate) blocks: Vec<Block>,
}

// Moves in a directory, and the LBN of each of its blocks.
#[derive(Drop)]
pub(crate) struct Moves {
    pub(crate) places: Vec<usize>,
    pub(crate) moves: Vec<Move>,
}

// Adds the LBNs of the blocks of a run.
fn push_run(all: &mut Vec<usize>, run: Run) -> Result<(), NoMemory>
    ensures { OnOk result (all.new.items ≡ all.old.items ++ range_with_len run.lbn run.count) }
{
    for i in 0..run.count as usize {
        all.push(run.lbn as usize + i)?;
    }
    Ok(())
}

// The runs that a header lists.
fn listed(alloc: Global, header: &Block) -> Result<Vec<Run>, NoMemory>
    requires offsets { IsTrue (has_offsets header.now) }
    requires map { IsTrue (has_map header.now) }
    ensures { IfOk result (λ v. v.items ≡ runs_in header.now) }
{
    let mut all = Vec::new(alloc);
    for run in runs(header) {
        all.push(run)?;
    }
    Ok(all)
}

// The runs that a header lists, or none where it is not in use.
fn runs_listed(alloc: Global, header: &Block) -> Result<Vec<Run>, NoMemory>
    ensures { IfOk result (λ v. v.items ≡ runs_listed header.now) }
{
    match read_header(header) {
        Ok(Slot::Used(_)) => listed(alloc, header),
        _ => Ok(Vec::new(alloc)),
    }
}

// The LBNs of the blocks of runs, in order.
fn lbns(alloc: Global, runs: &[Run]) -> Result<Vec<usize>, NoMemory>
    ensures { IfOk result (λ v. v.items ≡ lbns_in runs.now) }
{
    let mut all = Vec::new(alloc);
    for run in runs {
        push_run(&mut all, *run)?;
    }
    Ok(all)
}

// The LBNs of the blocks that a header lists.
fn places(alloc: Global, header: &Block) -> Result<Vec<usize>, NoMemory>
    ensures { IfOk result (λ v. v.items ≡ places_listed header.now) }
{
    let runs = runs_listed(alloc, header)?;
    lbns(alloc, runs.as_slice())
}

// The blocks at these LBNs.
fn blocks_at(alloc: Global, blocks: &[Block], places: &[usize]) -> Result<Vec<Block>, NoMemory>
    requires { All (λ l. l < length blocks.now) places.now }
    ensures { IfOk result (λ v. v.items ≡ blocks_at blocks.now places.now) }
{
    let mut all = Vec::new(alloc);
    for l in places {
        all.push(blocks[*l])?;
    }
    Ok(all)
}

// The blocks of the directory of a number.
pub(crate) fn body(
    alloc: Global,
    g: &Geometry,
    blocks: &[Block],
    n: u32,
) -> Result<DirBlocks, NoMemory>
    requires { IsThere g.now blocks.now n }
    ensures places { IfOk result (λ b. b.places.items ≡ places_listed (header_block g.now blocks.now n)) }
    ensures blocks { IfOk result (λ b. b.blocks.items ≡ blocks_at blocks.now (places_listed (header_block g.now blocks.now n))) }
{
    let header = &blocks[4 * g.cluster as usize + n as usize];
    let places = places(alloc, header)?;
    let found = blocks_at(alloc, blocks, places.as_slice())?;
    Ok(DirBlocks {
        places,
        blocks: found,
    })
}
