//! The chain of headers of a file, what can be wrong with it, and the cut of runs.

ghost use Rattle.std.specs.Prelude.{◌≡◌, ◌-◌, ◌==◌, Some, false, IfOk};
ghost use Rattle.fx_home.specs.Homes.{IsWithinLimits};
ghost use Rattle.vol_parts.specs.Volumes.{volume, IsNumber, fields, headers_of, told};
ghost use Rattle.vol_parts.specs.Chains.{held, cut, chain_of, is_broken, is_well_split};
ghost use Rattle.vol_parts.specs.Fatal.{is_one_header, chain_fault};

pub mod laws;

use crate::bodies::file_runs;
use crate::finding::Finding;
use crate::heads::fields;
use crate::links::{MOST_HEADERS, next_header};
use crate::one_slot::slot_runs;
use base_words::Block;
use fx_header::{Hdr, Run};
use fx_home::Home;
use plain_cat::NoMemory;
use std::alloc::Global;

/// How many of so many blocks are left behind those of the runs that a slot lists.
pub fn left_behind(home: &Home, blocks: &[Block], n: u32, left: u32) -> u32
    requires limits { IsWithinLimits home.now }
    requires number { IsNumber (volume home.now blocks.now) n }
    ensures { result ≡ left - held (headers_of (volume home.now blocks.now)) n }
{
    let mut left = left;
    for run in slot_runs(home, blocks, n) {
        left = left.saturating_sub(run.count);
    }
    left
}

// Whether a slot lists just so many blocks.
fn has_blocks(home: &Home, blocks: &[Block], n: u32, count: u32) -> bool
    requires limits { IsWithinLimits home.now }
    requires number { IsNumber (volume home.now blocks.now) n }
    ensures { result ≡ (held (headers_of (volume home.now blocks.now)) n == count) }
{
    let mut left = count;
    for run in slot_runs(home, blocks, n) {
        if left < run.count {
            return false;
        }
        left -= run.count;
    }
    left == 0
}

/// Whether a file has one header alone: it has no link, and lists just the file's blocks. `first` is its first header, in the slot
/// `n`.
pub fn is_one_header(home: &Home, blocks: &[Block], n: u32, first: &Hdr) -> bool
    requires limits { IsWithinLimits home.now }
    requires number { IsNumber (volume home.now blocks.now) n }
    requires first { fields (volume home.now blocks.now) n ≡ Some first.now }
    ensures { result ≡ is_one_header first.now (told (volume home.now blocks.now) n) }
{
    first.ext == 0 && has_blocks(home, blocks, n, first.blocks)
}

// Whether the chain of a file ends before its blocks do.
fn is_broken(home: &Home, blocks: &[Block], n: u32, first: &Hdr) -> bool
    requires limits { IsWithinLimits home.now }
    requires number { IsNumber (volume home.now blocks.now) n }
    requires first { fields (volume home.now blocks.now) n ≡ Some first.now }
    ensures { result ≡ is_broken first.now (chain_of (headers_of (volume home.now blocks.now)) n first.now) }
{
    let mut left = first.blocks;
    for run in file_runs(home, blocks, n) {
        left = left.saturating_sub(run.count);
    }
    left != 0
}

// Whether the clusters of a file are well split over its headers. Its chain is not broken.
#[tactic(auto, unfolding(crate::specs::Chains::is_well_split))]
fn is_well_split(home: &Home, blocks: &[Block], n: u32, first: &Hdr) -> bool
    requires limits { IsWithinLimits home.now }
    requires number { IsNumber (volume home.now blocks.now) n }
    requires whole { is_broken first.now (chain_of (headers_of (volume home.now blocks.now)) n first.now) ≡ false }
    ensures { result ≡ is_well_split home.now.cluster (chain_of (headers_of (volume home.now blocks.now)) n first.now) }
{
    let full = 77 * u32::from(home.cluster);
    let mut at = n;
    let mut header = *first;
    let mut left = first.blocks;
    for _count in 0..MOST_HEADERS {
        let behind = left_behind(home, blocks, at, left);
        if behind == 0 {
            return left <= full;
        }
        if left - behind != full {
            return false;
        }
        let Some(next) = next_header(home, blocks, &header) else {
            return false;
        };
        at = header.ext;
        header = next;
        left = behind;
    }
    false
}

/// What is wrong with the chain of headers of a file, from 1 to the last: it ends before the file's blocks do, or its clusters are
/// not well split over the headers. `None` where nothing is, and where the number has no first header of a file.
#[tactic(auto, unfolding(crate::specs::Fatal::chain_fault))]
pub fn chain_fault(home: &Home, blocks: &[Block], n: u32) -> Option<Finding>
    requires limits { IsWithinLimits home.now }
    requires number { IsNumber (volume home.now blocks.now) n }
    ensures { result ≡ chain_fault (volume home.now blocks.now) n }
{
    let first = fields(home, blocks, n)?;
    if is_broken(home, blocks, n, &first) {
        return Some(Finding::ChainBroken(n));
    }
    if is_well_split(home, blocks, n, &first) {
        return None;
    }
    Some(Finding::ChainSplit(n))
}

/// The first so many blocks of runs: the run in which they end is shortened. An error says that memory ran out.
pub fn cut(alloc: Global, runs: &[Run], blocks: u32) -> Result<Vec<Run>, NoMemory>
    ensures { IfOk result (λ front. front.items ≡ cut blocks runs.now) }
{
    let mut front = Vec::new(alloc);
    let mut left = blocks;
    for run in runs {
        if left == 0 {
            return Ok(front);
        }
        if left <= run.count {
            front.push(Run {
                lbn: run.lbn,
                count: left,
            })?;
            return Ok(front);
        }
        front.push(*run)?;
        left -= run.count;
    }
    Ok(front)
}
