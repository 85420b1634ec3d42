//! What is listed behind the blocks of files: the files whose chains of headers go on behind their last block, and the headers that
//! are in no chain.

ghost use Rattle.std.specs.Prelude.{◌≡◌, nat_lt, map, filter, IfOk};
ghost use Rattle.fx_home.specs.Homes.{IsWithinLimits};
ghost use Rattle.vol_parts.specs.Chains.{held, most_headers};
ghost use Rattle.vol_parts.specs.Volumes.{volume, IsNumber, numbers, headers_of, is_in_slots};
ghost use Rattle.vol_parts.specs.Warnings.{has_surplus, is_stray};
ghost use Rattle.vol_faults.specs.Tails.{surplus_from};

use base_words::Block;
use fx_header::Hdr;
use fx_home::Home;
use plain_cat::{Flags, NoMemory};
use std::alloc::Global;
use vol_parts::{MOST_HEADERS, fields, left_behind, next_header, slot_flags, slot_runs, used_slot};

/// Whether the header in a slot lists more than so many blocks.
fn lists_more(home: &Home, blocks: &[Block], n: u32, count: u32) -> bool
    requires limits { IsWithinLimits home.now }
    requires number { IsNumber (volume home.now blocks.now) n }
    ensures { result ≡ nat_lt count (held (headers_of (volume home.now blocks.now)) n) }
{
    let mut left = count;
    for run in slot_runs(home, blocks, n) {
        if left < run.count {
            return true;
        }
        left -= run.count;
    }
    false
}

/// Whether the chain of a file goes on behind its last block, whose first header `first` stands in the slot `n`.
fn goes_on(home: &Home, blocks: &[Block], n: u32, first: &Hdr) -> bool
    requires limits { IsWithinLimits home.now }
    requires number { IsNumber (volume home.now blocks.now) n }
    ensures { result ≡ surplus_from (headers_of (volume home.now blocks.now)) most_headers n first.now first.now.blocks }
{
    let mut at = n;
    let mut header = *first;
    let mut left = first.blocks;
    for _count in 0..MOST_HEADERS {
        let behind = left_behind(home, blocks, at, left);
        if behind == 0 {
            return header.ext != 0 || lists_more(home, blocks, at, left);
        }
        let Some(next) = next_header(home, blocks, &header) else {
            return header.ext != 0;
        };
        at = header.ext;
        header = next;
        left = behind;
    }
    true
}

/// Whether something is listed behind the blocks of the file of a number, or a link leads on.
fn has_surplus(home: &Home, blocks: &[Block], n: u32) -> bool
    requires limits { IsWithinLimits home.now }
    requires number { IsNumber (volume home.now blocks.now) n }
    ensures { result ≡ has_surplus (volume home.now blocks.now) n }
{
    match fields(home, blocks, n) {
        Some(f) => goes_on(home, blocks, n, &f),
        None => false,
    }
}

/// The files, by rising number, whose chains of headers go on behind their last block. An error says that memory ran out.
pub fn surplus(alloc: Global, home: &Home, blocks: &[Block]) -> Result<Vec<u32>, NoMemory>
    requires { IsWithinLimits home.now }
    ensures { IfOk result (λ ns. ns.items ≡ filter (has_surplus (volume home.now blocks.now)) (numbers (volume home.now blocks.now))) }
{
    let mut found = Vec::new(alloc);
    for i in 0..home.files {
        if has_surplus(home, blocks, i + 1) {
            found.push(i + 1)?;
        }
    }
    Ok(found)
}

/// Whether the header of a number is another one than a first one, and in the chain of no file. `flags` say which numbers are in one.
#[tactic(auto, unfolding(vol_parts::specs::Warnings::is_stray))]
fn is_stray(home: &Home, blocks: &[Block], flags: &Flags, n: u32) -> bool
    requires limits { IsWithinLimits home.now }
    requires number { IsNumber (volume home.now blocks.now) n }
    requires flags { flags.now ≡ map (is_in_slots (volume home.now blocks.now)) (numbers (volume home.now blocks.now)) }
    ensures { result ≡ is_stray (volume home.now blocks.now) n }
{
    match used_slot(home, blocks, n) {
        Some(f) => f.seg > 0 && !flags.items()[n as usize - 1],
        None => false,
    }
}

/// The headers, by rising number, that are other ones than first ones, and in the chain of no file. `flags` say which numbers are in
/// one. An error says that memory ran out.
fn strays_by(
    alloc: Global,
    home: &Home,
    blocks: &[Block],
    flags: &Flags,
) -> Result<Vec<u32>, NoMemory>
    requires limits { IsWithinLimits home.now }
    requires flags { flags.now ≡ map (is_in_slots (volume home.now blocks.now)) (numbers (volume home.now blocks.now)) }
    ensures { IfOk result (λ ns. ns.items ≡ filter (is_stray (volume home.now blocks.now)) (numbers (volume home.now blocks.now))) }
{
    let mut found = Vec::new(alloc);
    for i in 0..home.files {
        if is_stray(home, blocks, flags, i + 1) {
            found.push(i + 1)?;
        }
    }
    Ok(found)
}

/// The headers, by rising number, that are other ones than first ones, and in the chain of no file. An error says that memory ran out.
pub fn strays(alloc: Global, home: &Home, blocks: &[Block]) -> Result<Vec<u32>, NoMemory>
    requires { IsWithinLimits home.now }
    ensures { IfOk result (λ ns. ns.items ≡ filter (is_stray (volume home.now blocks.now)) (numbers (volume home.now blocks.now))) }
{
    let flags = slot_flags(alloc, home, blocks)?;
    strays_by(alloc, home, blocks, &flags)
}
