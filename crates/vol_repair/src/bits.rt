//! Step 5: the bits of the clusters and the numbers that files have.

ghost use Rattle.std.specs.Prelude.{◌≡◌, ◌≤◌, ◌<◌, ◌+◌, ◌/◌, ◌%◌, ◌==◌, ◌&&◌, ◌||◌, ℕ, List, Err, false, length, slice_index, slice_index_or, if◌then◌else◌, IfOk, OnOk};
ghost use Rattle.base_words.specs.Fields.{Block};
ghost use Rattle.fx_bitmap.specs.Bits.{bit_at};
ghost use Rattle.fx_home.specs.Homes.{IsWithinLimits};
ghost use Rattle.vol_parts.specs.Parts.{storage_blocks};
ghost use Rattle.vol_parts.specs.Volumes.{volume, total};
ghost use Rattle.vol_faults.specs.Conditions.{IsSize};
ghost use Rattle.vol_repair.specs.BitSteps.{AreKeptCounts, AreBitsSet, IsBitTurn};
ghost use Rattle.vol_repair.specs.Phases.{IsBeforeBits, IsAfterBits};
ghost use Rattle.vol_repair.specs.Steps.{IsStep};
ghost use Rattle.vol_repair.specs.Touched.{IsTouched, IsGround};

use crate::fault::StepFault;
use crate::laws::touching_is_easy;
use crate::making::{block_is_whole, make_other};
use base_words::Block;
use blk_drive::{ImageDev, Mirror};
use fx_bitmap::{bit, clear_bits, set_bits};
use fx_home::Home;
use plain_cat::NoMemory;
use std::alloc::Global;
use vol_faults::count_clusters;
use vol_parts::first_lbn;

// Sets a bit, or clears it.
fn put_bit(b: &mut Block, i: u32, value: bool)
    requires { i < 4096 }
    ensures { (j : ℕ) → j < 4096 → bit_at b.new j ≡ (if j == i then value else bit_at b.old j) }
{
    if value {
        set_bits(b, i, 1);
    } else {
        clear_bits(b, i, 1);
    }
}

// A block of the index-file bitmap in which the numbers with a flag are in use too.
fn index_block(old: &Block, kept: &[bool]) -> Block
    requires { length kept.now ≤ 4096 }
    ensures { (i : ℕ) → i < length kept.now → bit_at result i ≡ (bit_at old.now i || slice_index_or kept.now i false) }
{
    let mut b = *old;
    for (i, flag) in kept.iter().enumerate() {
        put_bit(&mut b, i as u32, bit(old, i as u32) || *flag);
    }
    b
}

// Sets the bit of each number that has a flag in the index-file bitmap.
fn set_numbers<I: ImageDev>(m: &mut Mirror<I>, home: &Home, kept: &[bool]) -> Result<(), StepFault>
    requires limits { IsWithinLimits home.now }
    requires before { (first : List Block) × IsBeforeBits home.now first kept.now m.old.blocks }
    ensures step { (first : List Block) → IsBeforeBits home.now first kept.now m.old.blocks
        → IsStep (IsTouched home.now first) m.old.blocks m.new.blocks (I.told m.old.image) (I.told m.new.image) (I.faults m.old.image) (I.faults m.new.image) (result ≡ Err StepFault.ImageFault) }
    ensures ok { (first : List Block) → IsBeforeBits home.now first kept.now m.old.blocks → OnOk result (AreBitsSet home.now first m.old.blocks m.new.blocks 0) }
{
    touching_is_easy();
    let lbn = 4 * u32::from(home.cluster);
    let b = index_block(m.read(lbn), kept);
    block_is_whole(b);
    make_other(m, lbn, &b)
}

// Block `k` of the storage bitmap, in which the clusters with a count are not free.
fn storage_block(old: &Block, counts: &[u8], k: u32) -> Block
    ensures { (q : ℕ) → q < length counts.now → q / 4096 ≡ k → bit_at result (q % 4096) ≡ (bit_at old.now (q % 4096) && (slice_index counts.now q == 0)) }
{
    let mut b = *old;
    for i in 0..4096u32 {
        let q = 4096 * k as usize + i as usize;
        if q < counts.len() {
            put_bit(&mut b, i, bit(old, i) && counts[q] == 0);
        }
    }
    b
}

// Clears the bits of the clusters with a count in block `k` of the storage bitmap, which follows the storage control block at `control`.
fn set_storage<I: ImageDev>(
    m: &mut Mirror<I>,
    home: &Home,
    counts: &[u8],
    control: u32,
    k: u32,
) -> Result<(), StepFault>
    requires limits { IsWithinLimits home.now }
    requires size { IsSize (length m.old.blocks) }
    requires block { k < storage_blocks (total (volume home.now m.old.blocks)) }
    requires turn { (first : List Block) × (old : List Block) × IsBitTurn home.now first old m.old.blocks counts.now control k }
    ensures step { (first old : List Block) → IsBitTurn home.now first old m.old.blocks counts.now control k
        → IsStep (IsTouched home.now first) m.old.blocks m.new.blocks (I.told m.old.image) (I.told m.new.image) (I.faults m.old.image) (I.faults m.new.image) (result ≡ Err StepFault.ImageFault) }
    ensures ok { (first old : List Block) → IsBitTurn home.now first old m.old.blocks counts.now control k
        → OnOk result (IsBitTurn home.now first old m.new.blocks counts.now control (k + 1)) }
{
    touching_is_easy();
    let lbn = control + 1 + k;
    let b = storage_block(m.read(lbn), counts, k);
    block_is_whole(b);
    make_other(m, lbn, &b)
}

// For each cluster a count, which is 0 where no file that is kept has the cluster.
fn count_kept(alloc: Global, home: &Home, blocks: &[Block]) -> Result<Vec<u8>, NoMemory>
    requires limits { IsWithinLimits home.now }
    requires ground { (first : List Block) × IsGround home.now first blocks.now }
    ensures { IfOk result (λ counts. (first : List Block) → IsGround home.now first blocks.now → AreKeptCounts (volume home.now first) counts.items) }
{
    count_clusters(alloc, home, blocks)
}

// Clears the bits of the clusters that files have in the storage bitmap, block by block.
fn set_clusters<I: ImageDev>(alloc: Global, m: &mut Mirror<I>, home: &Home) -> Result<(), StepFault>
    requires limits { IsWithinLimits home.now }
    requires size { IsSize (length m.old.blocks) }
    requires numbers { (first : List Block) × (old : List Block) × AreBitsSet home.now first old m.old.blocks 0 }
    ensures step { (first old : List Block) → AreBitsSet home.now first old m.old.blocks 0
        → IsStep (IsTouched home.now first) m.old.blocks m.new.blocks (I.told m.old.image) (I.told m.new.image) (I.faults m.old.image) (I.faults m.new.image) (result ≡ Err StepFault.ImageFault) }
    ensures ok { (first old : List Block) → AreBitsSet home.now first old m.old.blocks 0 → OnOk result (IsAfterBits home.now first old m.new.blocks) }
{
    let counts = count_kept(alloc, home, m.all())?;
    let control = first_lbn(home, m.all(), 2);
    for k in 0..(counts.len() as u32).div_ceil(4096) {
        set_storage(m, home, &counts, control, k)?;
    }
    Ok(())
}

// Sets the bit of each number whose header slot is kept in the index-file bitmap, and clears those of the clusters of files in the
// storage bitmap. No other bit changes.
pub(crate) fn make_bits<I: ImageDev>(
    alloc: Global,
    m: &mut Mirror<I>,
    home: &Home,
    kept: &[bool],
) -> Result<(), StepFault>
    requires limits { IsWithinLimits home.now }
    requires size { IsSize (length m.old.blocks) }
    requires before { (first : List Block) × IsBeforeBits home.now first kept.now m.old.blocks }
    ensures step { (first : List Block) → IsBeforeBits home.now first kept.now m.old.blocks
        → IsStep (IsTouched home.now first) m.old.blocks m.new.blocks (I.told m.old.image) (I.told m.new.image) (I.faults m.old.image) (I.faults m.new.image) (result ≡ Err StepFault.ImageFault) }
    ensures ok { (first : List Block) → IsBeforeBits home.now first kept.now m.old.blocks → OnOk result (IsAfterBits home.now first m.old.blocks m.new.blocks) }
{
    set_numbers(m, home, kept)?;
    set_clusters(alloc, m, home)
}
