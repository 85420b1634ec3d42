//! Step 4, first half: the last header of a file that lists or links more than the file has is cut to the file's blocks. A death
//! while a file gets or loses headers leaves such a header.

ghost use Rattle.std.specs.Prelude.{◌≡◌, ◌==◌, ◌||◌, not, nat_lt, false, Ok, Err, IfOk, IsTrue, OnOk};
ghost use Rattle.fx_header.specs.declared.slot.Hdr.{Hdr};
ghost use Rattle.fx_header.specs.declared.slot.Slot.TheVariants.{Used};
ghost use Rattle.fx_header.specs.Headers.{header_read, has_offsets, has_map, runs_in, HasRoom};
ghost use Rattle.fx_header.specs.Pointers.{merged, blocks_in};
ghost use Rattle.fx_home.specs.Homes.{IsWithinLimits};
ghost use Rattle.plain_cat.specs.declared.cat.Cat.{Cat};
ghost use Rattle.vol_parts.specs.Chains.{most_headers, chain_of, is_broken};
ghost use Rattle.vol_parts.specs.Parts.{IsGeometry};
ghost use Rattle.vol_parts.specs.Volumes.{volume, IsNumber, headers_of};
ghost use Rattle.vol_spell.specs.Reading.{IsFileNumber};
ghost use Rattle.vol_mends.specs.Surplus.{unlinked};
ghost use Rattle.vol_mends.specs.Told.{IsTold};
ghost use Rattle.vol_rebuild.specs.Tails.{IsLast, IsCutFor, IsFileCut, AreFilesCut};
ghost use Rattle.vol_rebuild.specs.Ways.{IsStep};

use crate::fault::StepFault;
use crate::flags::home_of;
use crate::making::{block_is_whole, make};
use crate::places::listed;
use base_words::Block;
use blk_drive::{ImageDev, Mirror};
use fx_header::{Hdr, Run, runs, set_link, set_map};
use fx_home::Home;
use plain_cat::NoMemory;
use std::alloc::Global;
use vol_parts::{Geometry, MOST_HEADERS, cut, fields, left_behind, next_header};

// The last header of a file: its slot, what it says, and how many of the file's blocks lie in it.
#[derive(Drop)]
struct LastHeader {
    slot: u32,
    header: Hdr,
    rest: u32,
}

// A last header that is cut to the blocks of its file, and its slot.
#[derive(Drop)]
pub(crate) struct CutHeader {
    pub(crate) slot: u32,
    pub(crate) block: Block,
}

// The last header of a file whose first header `first` is in the slot `n`. The chain of the file is not broken.
fn last_header(home: &Home, blocks: &[Block], n: u32, first: &Hdr) -> LastHeader
    requires limits { IsWithinLimits home.now }
    requires number { IsNumber (volume home.now blocks.now) n }
    requires whole { is_broken first.now (chain_of (headers_of (volume home.now blocks.now)) n first.now) ≡ false }
    ensures { IsLast (headers_of (volume home.now blocks.now)) most_headers n first.now first.now.blocks result.slot result.header result.rest }
{
    let mut slot = n;
    let mut header = *first;
    let mut rest = first.blocks;
    for _count in 0..MOST_HEADERS {
        let behind = left_behind(home, blocks, slot, rest);
        if behind == 0 {
            return LastHeader { slot, header, rest };
        }
        let Some(next) = next_header(home, blocks, &header) else {
            unreachable!()
        };
        slot = header.ext;
        header = next;
        rest = behind;
    }
    unreachable!()
}

// Whether a header lists more than so many blocks.
fn lists_more(header: &Block, count: u32) -> bool
    requires offsets { IsTrue (has_offsets header.now) }
    requires map { IsTrue (has_map header.now) }
    ensures { result ≡ nat_lt count (blocks_in (runs_in header.now)) }
{
    let mut left = count;
    for run in runs(header) {
        if left < run.count {
            return true;
        }
        left -= run.count;
    }
    false
}

// Whether the last header of a file lists or links more than the file has. `header` is its block.
fn has_more(header: &Block, last: &LastHeader) -> bool
    requires offsets { IsTrue (has_offsets header.now) }
    requires map { IsTrue (has_map header.now) }
    ensures { result ≡ (not (last.now.header.ext == 0) || nat_lt last.now.rest (blocks_in (runs_in header.now))) }
{
    last.header.ext != 0 || lists_more(header, last.rest)
}

// A header that lists these runs alone, and has no link.
fn cut_to(header: &Block, runs: &[Run]) -> Block
    requires offsets { IsTrue (has_offsets header.now) }
    requires room { HasRoom header.now runs.now }
    ensures runs { runs_in result ≡ merged runs.now }
    ensures reads { (f : Hdr) → header_read header.now ≡ Ok (Used f) → header_read result ≡ Ok (Used (unlinked f)) }
{
    let mut b = *header;
    set_map(&mut b, runs);
    set_link(&mut b, 0, 0);
    b
}

// The last header of the file of a number, cut to the file's blocks, if the file has surplus.
fn cut_header(
    alloc: Global,
    g: &Geometry,
    blocks: &[Block],
    n: u32,
) -> Result<Option<CutHeader>, NoMemory>
    requires geometry { IsGeometry g.now }
    requires told { (c : Cat) × IsTold g.now blocks.now c }
    requires number { IsFileNumber g.now n }
    ensures { IfOk result (λ b. (c : Cat) → IsTold g.now blocks.now c → IsCutFor g.now blocks.now c n b) }
{
    let home = home_of(blocks);
    let Some(first) = fields(&home, blocks, n) else {
        return Ok(None);
    };
    let last = last_header(&home, blocks, n, &first);
    let header = &blocks[4 * g.cluster as usize + last.slot as usize];
    if !has_more(header, &last) {
        return Ok(None);
    }
    let all = listed(alloc, header)?;
    let runs = cut(alloc, all.as_slice(), last.rest)?;
    let b = cut_to(header, runs.as_slice());
    block_is_whole(b);
    Ok(Some(CutHeader {
        slot: last.slot,
        block: b,
    }))
}

// Cuts the last header of the file of a number, if the file has surplus.
fn cut_file<I: ImageDev>(
    alloc: Global,
    m: &mut Mirror<I>,
    g: &Geometry,
    n: u32,
) -> Result<(), StepFault>
    requires geometry { IsGeometry g.now }
    requires told { (c : Cat) × IsTold g.now m.old.blocks c }
    requires number { IsFileNumber g.now n }
    ensures step { IsStep m.old.blocks m.new.blocks (I.told m.old.image) (I.told m.new.image) (I.faults m.old.image) (I.faults m.new.image) (result ≡ Err StepFault.ImageFault) }
    ensures ok { (c : Cat) → IsTold g.now m.old.blocks c → OnOk result (IsFileCut g.now c m.old.blocks m.new.blocks n) }
{
    match cut_header(alloc, g, m.all(), n)? {
        Some(cut) => make(m, 4 * g.cluster + cut.slot, &cut.block),
        None => Ok(()),
    }
}

// Cuts the last header of each file that has surplus.
pub(crate) fn cut_files<I: ImageDev>(
    alloc: Global,
    m: &mut Mirror<I>,
    g: &Geometry,
) -> Result<(), StepFault>
    requires geometry { IsGeometry g.now }
    requires told { (c : Cat) × IsTold g.now m.old.blocks c }
    ensures step { IsStep m.old.blocks m.new.blocks (I.told m.old.image) (I.told m.new.image) (I.faults m.old.image) (I.faults m.new.image) (result ≡ Err StepFault.ImageFault) }
    ensures ok { (c : Cat) → IsTold g.now m.old.blocks c → OnOk result (AreFilesCut g.now c m.old.blocks m.new.blocks) }
{
    for n in 1..g.files + 1 {
        cut_file(alloc, m, g, n)?;
    }
    Ok(())
}
