//! What is wrong with the directories of a volume.

ghost use Rattle.std.specs.Prelude.{◌≡◌, ◌∷◌, [], true, false, IfOk, MatchOption};
ghost use Rattle.fx_header.specs.declared.run.Run.{Run};
ghost use Rattle.fx_home.specs.Homes.{IsWithinLimits};
ghost use Rattle.fx_dir.specs.Directory.{directory};
ghost use Rattle.vol_parts.specs.Volumes.{volume, IsNumber, runs};
ghost use Rattle.vol_parts.specs.Fatal.{has_dir_size, found_in, dir_fault};
ghost use Rattle.vol_parts.specs.Firsts.{IsFirstOf};
ghost use Rattle.vol_parts.specs.Conditions.{HasRunsInside, HasAllRunsInside, IsFirstDirFault};

use crate::bodies::{file_runs, run_blocks};
use crate::chains::is_one_header;
use crate::finding::Finding;
use crate::heads::fields;
use base_words::Block;
use fx_dir::{DirFault, read_dir};
use fx_header::{Hdr, Run};
use fx_home::Home;
use plain_cat::NoMemory;
use std::alloc::{AllocError, Global};

// The run of a file that has one run.
fn only_run(home: &Home, blocks: &[Block], n: u32) -> Option<Run>
    requires limits { IsWithinLimits home.now }
    requires number { IsNumber (volume home.now blocks.now) n }
    ensures { MatchOption result ((r : Run) → runs (volume home.now blocks.now) n ≡ r ∷ [] → ⊥)
        (λ r. runs (volume home.now blocks.now) n ≡ r ∷ []) }
{
    let mut runs = file_runs(home, blocks, n);
    let run = runs.next()?;
    match runs.next() {
        Some(_) => None,
        None => Some(run),
    }
}

// The run of a directory that has the size of one: one cluster in one run, the end after the last block, no mark.
fn dir_run(home: &Home, blocks: &[Block], n: u32, f: &Hdr) -> Option<Run>
    requires limits { IsWithinLimits home.now }
    requires number { IsNumber (volume home.now blocks.now) n }
    ensures { MatchOption result
        (has_dir_size home.now.cluster f.now (runs (volume home.now blocks.now) n) ≡ false)
        (λ r. (has_dir_size home.now.cluster f.now (runs (volume home.now blocks.now) n) ≡ true)
        × (runs (volume home.now blocks.now) n ≡ r ∷ [])) }
{
    let run = only_run(home, blocks, n)?;
    let cluster = u32::from(home.cluster);
    if run.count == cluster && f.mark == 0 && f.end == cluster + 1 && f.byte == 0 {
        Some(run)
    } else {
        None
    }
}

// What is wrong with the blocks of the directory of number `n`.
fn blocks_fault(alloc: Global, blocks: &[Block], n: u32) -> Result<Option<Finding>, NoMemory>
    ensures { IfOk result (λ o. o ≡ found_in n (directory blocks.now)) }
{
    match read_dir(alloc, blocks) {
        Ok(_) => Ok(None),
        Err(DirFault::BadRecord(_)) => Ok(Some(Finding::DirRecord(n))),
        Err(DirFault::BadOrder) => Ok(Some(Finding::DirOrder(n))),
        Err(DirFault::Clash) => Ok(Some(Finding::DirClash(n))),
        Err(DirFault::NoMemory) => Err(AllocError),
    }
}

/// What is wrong with the directory of a number, from 1 to the last: its headers or its size, or the first fault of its blocks. `None` where
/// nothing is, and where the number has no directory. The runs of its file lie inside the whole clusters. An error says that
/// memory ran out.
#[tactic(auto, unfolding(crate::specs::Fatal::dir_fault))]
pub fn dir_fault(
    alloc: Global,
    home: &Home,
    blocks: &[Block],
    n: u32,
) -> Result<Option<Finding>, NoMemory>
    requires limits { IsWithinLimits home.now }
    requires number { IsNumber (volume home.now blocks.now) n }
    requires runs { HasRunsInside (volume home.now blocks.now) n }
    ensures { IfOk result (λ o. o ≡ dir_fault (volume home.now blocks.now) n) }
{
    let Some(f) = fields(home, blocks, n) else {
        return Ok(None);
    };
    if !f.dir {
        return Ok(None);
    }
    if !is_one_header(home, blocks, n, &f) {
        return Ok(Some(Finding::DirSize(n)));
    }
    let Some(run) = dir_run(home, blocks, n, &f) else {
        return Ok(Some(Finding::DirSize(n)));
    };
    blocks_fault(alloc, run_blocks(blocks, run), n)
}

// The fault of the lowest directory that has one.
fn lowest_dir_fault(
    alloc: Global,
    home: &Home,
    blocks: &[Block],
) -> Result<Option<Finding>, NoMemory>
    requires limits { IsWithinLimits home.now }
    requires runs { HasAllRunsInside (volume home.now blocks.now) }
    ensures { IfOk result (IsFirstDirFault (volume home.now blocks.now)) }
{
    for n in 1..home.files + 1 {
        if let Some(found) = dir_fault(alloc, home, blocks, n)? {
            return Ok(Some(found));
        }
    }
    Ok(None)
}

/// The finding of the lowest directory that has a fault, or `None` where none has. The runs of all files lie inside the whole
/// clusters. An error says that memory ran out.
pub fn first_bad_directory(
    alloc: Global,
    home: &Home,
    blocks: &[Block],
) -> Result<Option<Finding>, NoMemory>
    requires limits { IsWithinLimits home.now }
    requires runs { HasAllRunsInside (volume home.now blocks.now) }
    ensures { IfOk result (IsFirstOf (volume home.now blocks.now) 8) }
{
    lowest_dir_fault(alloc, home, blocks)
}
