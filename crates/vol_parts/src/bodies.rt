//! The blocks of a file, and the bits of a number and of a cluster.

ghost use Rattle.std.specs.Prelude.{◌≡◌, ◌+◌, ◌*◌, ◌/◌, ◌≤◌, ◌<◌, ◌++◌, length, slice_range, IfOk, OnOk};
ghost use Rattle.fx_home.specs.Homes.{IsWithinLimits};
ghost use Rattle.vol_parts.specs.Volumes.{volume, IsNumber, runs, first_lbn, bitmap_lbn, is_used_number, is_free_cluster, body};
ghost use Rattle.vol_parts.specs.Iter.{file_runs_left};
ghost use Rattle.vol_parts.specs.Conditions.{HasRunsInside};

use crate::heads::fields;
use crate::links::MOST_HEADERS;
use crate::one_slot::{no_runs, used_slot_runs};
use crate::walk::FileRuns;
use base_words::Block;
use fx_bitmap::bit;
use fx_header::Run;
use fx_home::Home;
use plain_cat::{Blocks, NoMemory};
use std::alloc::Global;

/// The runs of the file of a number, in order, of all its headers. A number that has no first header of a file has none.
#[tactic(auto, unfolding(crate::specs::Volumes::runs))]
pub fn file_runs<'a>(home: &'a Home, blocks: &'a [Block], n: u32) -> FileRuns<'a>
    requires limits { IsWithinLimits home.now }
    requires number { IsNumber (volume home.now blocks.now) n }
    ensures { file_runs_left result ≡ runs (volume home.now blocks.now) n }
{
    let Some(first) = fields(home, blocks, n) else {
        return FileRuns {
            home,
            blocks,
            header: None,
            runs: no_runs(),
            more: 0,
            left: 0,
        };
    };
    FileRuns {
        home,
        blocks,
        header: Some(first),
        runs: used_slot_runs(home, blocks, n),
        more: MOST_HEADERS - 1,
        left: first.blocks,
    }
}

/// The LBN at which a file's first run begins, 0 where it has none.
pub fn first_lbn(home: &Home, blocks: &[Block], n: u32) -> u32
    requires limits { IsWithinLimits home.now }
    requires number { IsNumber (volume home.now blocks.now) n }
    ensures { result ≡ first_lbn (runs (volume home.now blocks.now) n) }
{
    match file_runs(home, blocks, n).next() {
        Some(run) => run.lbn,
        None => 0,
    }
}

/// Whether the index-file bitmap, the one block behind the first four clusters, says that a file number is in use. The block
/// is inside the image.
#[tactic(auto, unfolding(crate::specs::Volumes::is_used_number))]
pub fn is_used_number(home: &Home, blocks: &[Block], n: u32) -> bool
    requires limits { IsWithinLimits home.now }
    requires number { IsNumber (volume home.now blocks.now) n }
    requires there { 4 * home.now.cluster < length blocks.now }
    ensures { result ≡ is_used_number (volume home.now blocks.now) n }
{
    bit(&blocks[4 * usize::from(home.cluster)], n - 1)
}

/// Whether the storage bitmap says that the cluster `q`, from 0, is free. The storage control block stands at the LBN
/// `bitmap`, the bitmap stands behind it, and the block that has the bit is inside the image.
#[tactic(auto, unfolding(crate::specs::Volumes::is_free_cluster))]
pub fn is_free_cluster(home: &Home, blocks: &[Block], bitmap: u32, q: u32) -> bool
    requires lbn { bitmap ≡ bitmap_lbn (volume home.now blocks.now) }
    requires there { bitmap + 1 + q / 4096 < length blocks.now }
    ensures { result ≡ is_free_cluster (volume home.now blocks.now) q }
{
    let lbn = bitmap as usize + 1 + (q / 4096) as usize;
    bit(&blocks[lbn], q % 4096)
}

// The blocks of a run.
pub(crate) fn run_blocks(blocks: &[Block], run: Run) -> &[Block]
    requires { run.lbn + run.count ≤ length blocks.now }
    ensures { result.now ≡ slice_range blocks.now run.lbn (run.lbn + run.count) }
{
    let start = run.lbn as usize;
    &blocks[start..start + run.count as usize]
}

// Adds the blocks of a run.
fn push_run(all: &mut Blocks, blocks: &[Block], run: Run) -> Result<(), NoMemory>
    requires { run.lbn + run.count ≤ length blocks.now }
    ensures { OnOk result (all.new ≡ all.old ++ slice_range blocks.now run.lbn (run.lbn + run.count)) }
{
    all.append(run_blocks(blocks, run))
}

/// The blocks of a file, in order of virtual block. Its runs lie inside the whole clusters. An error says that memory ran
/// out.
pub fn body(alloc: Global, home: &Home, blocks: &[Block], n: u32) -> Result<Blocks, NoMemory>
    requires limits { IsWithinLimits home.now }
    requires number { IsNumber (volume home.now blocks.now) n }
    requires runs { HasRunsInside (volume home.now blocks.now) n }
    ensures { IfOk result (λ b. b ≡ body (volume home.now blocks.now) n) }
{
    let mut all = Blocks::new(alloc);
    for run in file_runs(home, blocks, n) {
        push_run(&mut all, blocks, run)?;
    }
    Ok(all)
}
