//! The writes that take a file number and clusters.

ghost use Rattle.std.specs.Prelude.{◌≡◌, ◌<◌, ◌≤◌, ◌+◌, ◌-◌, ◌*◌, ◌++◌, IfOk, OnOk, [], take, length};
ghost use Rattle.std.specs.List.{All};
ghost use Rattle.lock_db.specs.declared.name.LockName.TheVariants.{V};
ghost use Rattle.plain_cat.specs.declared.history.Stage.TheVariants as stage;
ghost use Rattle.vol_parts.specs.declared.geometry.Part.TheVariants.{Storage};
ghost use Rattle.vol_parts.specs.Parts.{IsGeometry};
ghost use Rattle.vol_spell.specs.Places.{place_of};
ghost use Rattle.op_law.specs.Writing.{holding, write_at};
ghost use Rattle.core_space.specs.Searching.{free_number, free_from, number_write, with_taken, taken_in, cluster_writes};
ghost use Rattle.core_space.specs.Answering.{blocks_alone};

use base_words::Block;
use fx_bitmap::{bit, clear_bits, set_bits};
use lock_db::LockName;
use op_law::{Numbers, PlanWrite, Writes};
use plain_cat::{Clusters, NoMemory, Stage};
use std::alloc::Global;
use vol_parts::Geometry;

// The lowest number of the volume whose bit is clear.
pub(crate) fn free_number(geometry: &Geometry, index: &Block) -> Option<u32>
    requires { IsGeometry geometry.now }
    ensures { result ≡ free_number geometry.now index.now }
{
    for n in 1..geometry.files + 1 {
        if !bit(index, n - 1) {
            return Some(n);
        }
    }
    None
}

// The write of the index-file bitmap that takes a number.
pub(crate) fn number_write(alloc: Global, geometry: &Geometry, n: u32, index: &Block) -> PlanWrite
    requires geometry { IsGeometry geometry.now }
    requires number { (1 ≤ n) × (n ≤ geometry.now.files) }
    ensures { result ≡ number_write geometry.now n index.now }
{
    let mut block = *index;
    set_bits(&mut block, n - 1, 1);
    PlanWrite {
        lock: LockName::V,
        lbn: 4 * geometry.cluster,
        block,
        stage: Stage::Nothing,
        clusters: Clusters::new(alloc),
        numbers: Numbers::new(alloc),
        number: Some(n),
    }
}

// Takes the lowest free clusters of the first blocks of the storage bitmap, as many as are wanted: which they are, with the
// writes that take them behind the others.
pub(crate) fn take_clusters(
    alloc: Global,
    geometry: &Geometry,
    wanted: u32,
    number: Option<u32>,
    storage: &[(u32, Block)],
    writes: &mut Writes,
) -> Result<Clusters, NoMemory>
    requires geometry { IsGeometry geometry.now }
    requires count { length storage.now ≤ 16 }
    ensures taken { IfOk result (λ taken. taken ≡ take wanted (free_from geometry.now 0 (blocks_alone storage.now))) }
    ensures writes { IfOk result (λ taken. writes.new ≡ writes.old ++ cluster_writes geometry.now wanted number [] 0 (blocks_alone storage.now)) }
{
    let mut taken = Clusters::new(alloc);
    for (k, (_, block)) in storage.iter().enumerate() {
        let before = taken.items().len();
        let block = take_from(geometry, wanted, k as u32, block, &mut taken)?;
        if before < taken.items().len() {
            writes.push(block_write(alloc, geometry, number, k as u32, block, &taken)?)?;
        }
    }
    Ok(taken)
}

// Takes the lowest free clusters of block k of the storage bitmap, as far as more are wanted: the block in which their bits are
// clear.
fn take_from(
    geometry: &Geometry,
    wanted: u32,
    k: u32,
    block: &Block,
    taken: &mut Clusters,
) -> Result<Block, NoMemory>
    requires geometry { IsGeometry geometry.now }
    requires place { k < 16 }
    requires rising { All (λ q. q < 4096 * k) taken.old }
    ensures block { IfOk result (λ b. b ≡ with_taken block.now (taken_in geometry.now wanted taken.old k block.now)) }
    ensures taken { OnOk result (taken.new ≡ taken.old ++ taken_in geometry.now wanted taken.old k block.now) }
    ensures rising { OnOk result (All (λ q. q < 4096 * (k + 1)) taken.new) }
{
    let first = 4096 * k;
    let end = (first + 4096).min(geometry.blocks / geometry.cluster);
    let mut left = *block;
    for q in first..end {
        if wanted as usize <= taken.items().len() {
            return Ok(left);
        }
        if bit(block, q % 4096) {
            taken.push(q)?;
            clear_bits(&mut left, q % 4096, 1);
        }
    }
    Ok(left)
}

// The write of block k of the storage bitmap, after which these clusters are taken.
fn block_write(
    alloc: Global,
    geometry: &Geometry,
    number: Option<u32>,
    k: u32,
    block: Block,
    taken: &Clusters,
) -> Result<PlanWrite, NoMemory>
    requires geometry { IsGeometry geometry.now }
    requires place { k < 16 }
    ensures { IfOk result (λ w. w ≡ write_at V (place_of geometry.now (Storage k)) block stage.Nothing (holding taken.now number)) }
{
    Ok(PlanWrite {
        lock: LockName::V,
        lbn: geometry.bitmap_lbn + 1 + k,
        block,
        stage: Stage::Nothing,
        clusters: taken.copy(alloc)?,
        numbers: Numbers::new(alloc),
        number,
    })
}
