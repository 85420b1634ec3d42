//! Step 5: the bitmaps get the bits that the headers ask for.

ghost use Rattle.std.specs.Prelude.{◌≡◌, ◌≤◌, ◌<◌, ◌-◌, ◌/◌, ◌%◌, ◌==◌, ℕ, Err, false, length, slice_index, slice_index_or, if◌then◌else◌, IfOk, OnOk};
ghost use Rattle.fx_bitmap.specs.Bits.{bit_at};
ghost use Rattle.plain_cat.specs.declared.cat.Cat.{Cat};
ghost use Rattle.vol_parts.specs.declared.geometry.Geometry.{Geometry};
ghost use Rattle.vol_parts.specs.Parts.{IsGeometry, storage_blocks};
ghost use Rattle.vol_spell.specs.Reading.{total_of};
ghost use Rattle.vol_mends.specs.Told.{IsTold};
ghost use Rattle.vol_mends.specs.Clean.{IsClean};
ghost use Rattle.vol_rebuild.specs.Steps.{AreNumbersSet, IsTidy};
ghost use Rattle.vol_rebuild.specs.Space.{IsCounted, IsSpaceSet, IsSpaceTidy};
ghost use Rattle.vol_rebuild.specs.Ways.{IsStep};

use crate::fault::StepFault;
use crate::flags::{flagged, home_of};
use crate::making::{block_is_whole, make_other};
use base_words::Block;
use blk_drive::{ImageDev, Mirror};
use fx_bitmap::{clear_bits, set_bits};
use fx_home::Home;
use plain_cat::NoMemory;
use std::alloc::Global;
use vol_faults::count_clusters;
use vol_parts::Geometry;

// Sets a bit, or clears it.
fn put_bit(b: &mut Block, i: u32, value: bool)
    requires { i < 4096 }
    ensures { (j : ℕ) → j < 4096 → bit_at b.new j ≡ (if j == i then value else bit_at b.old j) }
{
    if value {
        set_bits(b, i, 1);
    } else {
        clear_bits(b, i, 1);
    }
}

// A block of the index-file bitmap in which the numbers of header slots of files, which have a flag, are in use, and no others.
fn index_block(old: &Block, flags: &[bool]) -> Block
    requires { length flags.now ≤ 4096 }
    ensures { (i : ℕ) → i < length flags.now → bit_at result i ≡ slice_index_or flags.now i false }
{
    let mut b = *old;
    for (i, flag) in flags.iter().enumerate() {
        put_bit(&mut b, i as u32, *flag);
    }
    b
}

// Writes the index-file bitmap, unless it says what the headers say.
fn set_index<I: ImageDev>(alloc: Global, m: &mut Mirror<I>, g: &Geometry) -> Result<(), StepFault>
    requires geometry { IsGeometry g.now }
    requires told { (c : Cat) × IsTold g.now m.old.blocks c }
    requires clean { IsClean g.now m.old.blocks }
    ensures step { IsStep m.old.blocks m.new.blocks (I.told m.old.image) (I.told m.new.image) (I.faults m.old.image) (I.faults m.new.image) (result ≡ Err StepFault.ImageFault) }
    ensures ok { (c : Cat) → IsTold g.now m.old.blocks c → OnOk result (AreNumbersSet g.now m.old.blocks m.new.blocks c) }
{
    let flags = flagged(alloc, m.all())?;
    let lbn = 4 * g.cluster;
    let b = index_block(m.read(lbn), flags.items());
    block_is_whole(b);
    make_other(m, lbn, &b)
}

// Block `k` of the storage bitmap, in which the clusters that are in no file are free, and no others.
fn storage_block(old: &Block, counts: &[u8], k: u32) -> Block
    ensures { (q : ℕ) → q < length counts.now → q / 4096 ≡ k → bit_at result (q % 4096) ≡ (slice_index counts.now q == 0) }
{
    let mut b = *old;
    for i in 0..4096u32 {
        let q = 4096 * k as usize + i as usize;
        if q < counts.len() {
            put_bit(&mut b, i, counts[q] == 0);
        }
    }
    b
}

// Writes block `k` of the storage bitmap, unless it says what the headers say.
fn set_storage<I: ImageDev>(
    m: &mut Mirror<I>,
    g: &Geometry,
    home: &Home,
    counts: &[u8],
    k: u32,
) -> Result<(), StepFault>
    requires geometry { IsGeometry g.now }
    requires block { k < storage_blocks (total_of g.now) }
    requires counted { (c : Cat) × IsCounted g.now home.now counts.now m.old.blocks c }
    ensures step { IsStep m.old.blocks m.new.blocks (I.told m.old.image) (I.told m.new.image) (I.faults m.old.image) (I.faults m.new.image) (result ≡ Err StepFault.ImageFault) }
    ensures ok { (c : Cat) → IsCounted g.now home.now counts.now m.old.blocks c
        → OnOk result (IsSpaceSet g.now home.now counts.now m.old.blocks m.new.blocks c k) }
{
    let lbn = g.bitmap_lbn + 1 + k;
    let b = storage_block(m.read(lbn), counts, k);
    block_is_whole(b);
    make_other(m, lbn, &b)
}

// The home block of blocks that tell a catalogue, and for each cluster in how many runs it is.
fn counted(alloc: Global, blocks: &[Block]) -> Result<(Home, Vec<u8>), NoMemory>
    requires { (g : Geometry) × (c : Cat) × IsTold g blocks.now c }
    ensures { IfOk result (λ p. (g : Geometry) (c : Cat) → IsTold g blocks.now c → IsCounted g p.0 p.1.items blocks.now c) }
{
    let home = home_of(blocks);
    let counts = count_clusters(alloc, &home, blocks)?;
    Ok((home, counts))
}

// Writes the blocks of the storage bitmap that do not say what the headers say.
fn set_space<I: ImageDev>(alloc: Global, m: &mut Mirror<I>, g: &Geometry) -> Result<(), StepFault>
    requires geometry { IsGeometry g.now }
    requires told { (c : Cat) × IsTold g.now m.old.blocks c }
    ensures step { IsStep m.old.blocks m.new.blocks (I.told m.old.image) (I.told m.new.image) (I.faults m.old.image) (I.faults m.new.image) (result ≡ Err StepFault.ImageFault) }
    ensures ok { (c : Cat) → IsTold g.now m.old.blocks c → OnOk result (IsSpaceTidy g.now m.old.blocks m.new.blocks c) }
{
    let (home, counts) = counted(alloc, m.all())?;
    for k in 0..(g.blocks / g.cluster).div_ceil(4096) {
        set_storage(m, g, &home, &counts, k)?;
    }
    Ok(())
}

// Writes the blocks of the bitmaps that do not say what the headers say, that of the index file first.
pub(crate) fn set_all_bits<I: ImageDev>(
    alloc: Global,
    m: &mut Mirror<I>,
    g: &Geometry,
) -> Result<(), StepFault>
    requires geometry { IsGeometry g.now }
    requires told { (c : Cat) × IsTold g.now m.old.blocks c }
    requires clean { IsClean g.now m.old.blocks }
    ensures step { IsStep m.old.blocks m.new.blocks (I.told m.old.image) (I.told m.new.image) (I.faults m.old.image) (I.faults m.new.image) (result ≡ Err StepFault.ImageFault) }
    ensures ok { (c : Cat) → IsTold g.now m.old.blocks c → OnOk result (IsTidy g.now c m.old.blocks m.new.blocks) }
{
    set_index(alloc, m, g)?;
    set_space(alloc, m, g)
}
