//! The writes that make a file and enter it.

ghost use Rattle.std.specs.Prelude.{◌≡◌, ◌≤◌, ◌*◌, ◌++◌, [], ◌∷◌, Some, length, map, None, IfOk, OnOk};
ghost use Rattle.std.specs.List.{range_with_len};
ghost use Rattle.fx_dir.specs.Writing.{block_of};
ghost use Rattle.lock_db.specs.declared.name.LockName.TheVariants.{S};
ghost use Rattle.plain_cat.specs.declared.history.Stage.TheVariants as stage;
ghost use Rattle.vol_parts.specs.Parts.{IsGeometry};
ghost use Rattle.vol_spell.specs.Reading.{IsFileNumber};
ghost use Rattle.op_law.specs.Writing.{holding, empty_handed, write_at, header_write};
ghost use Rattle.op_law.specs.Entering.{body_writes, new_header, entry_for, making_writes};
ghost use Rattle.op_law.specs.Behind.{blocks_alone};
ghost use Rattle.op_law.specs.Readable.{IsRead};
ghost use Rattle.op_steps.specs.Names.{dir_seen, IsReadable};
ghost use Rattle.op_steps.specs.Given.{IsOfVolume};
ghost use Rattle.op_create.specs.Files.{file_made, entry_made, IsSound, IsNewIn};

use crate::files::{NewFile, header_block};
use base_words::Block;
use fx_dir::packed;
use lock_db::LockName;
use op_law::{NoMemory, Numbers, PlanWrite, Writes};
use op_steps::{DirSeen, cost_of, push_charge, push_header, push_insertion};
use plain_cat::{Clusters, DirEnt, Fid, Stage};
use std::alloc::Global;
use vol_parts::Geometry;

// ---- a file

// Adds the writes of the blocks of one of a new directory's clusters.
fn push_cluster(
    alloc: Global,
    writes: &mut Writes,
    g: &Geometry,
    n: u32,
    q: u32,
    block: &Block,
    clusters: &Clusters,
) -> Result<(), NoMemory>
    requires geometry { IsGeometry g.now }
    requires within { IsOfVolume g.now (q ∷ []) None }
    ensures { OnOk result (writes.new ≡ writes.old ++ map (λ l. write_at (S n) l block.now stage.Charged (holding clusters.now (Some n))) (range_with_len (q * g.now.cluster) g.now.cluster)) }
{
    for i in 0..g.cluster {
        writes.push(PlanWrite {
            lock: LockName::S(n),
            lbn: q * g.cluster + i,
            block: *block,
            stage: Stage::Charged,
            clusters: clusters.copy(alloc)?,
            numbers: Numbers::new(alloc),
            number: Some(n),
        })?;
    }
    Ok(())
}

// The block of a directory without an entry.
fn empty_block(alloc: Global) -> Result<Block, NoMemory>
    ensures { IfOk result (λ b. b ≡ block_of []) }
{
    let none = Vec::new(alloc);
    match packed(alloc, none.as_slice(), 1)? {
        Some(blocks) => Ok(blocks[0]),
        None => unreachable!(),
    }
}

// Adds the writes of the blocks of a new directory of these clusters. No other file's blocks are written.
#[tactic(auto, unfolding(op_law::specs::Entering::body_writes))]
fn push_body(
    alloc: Global,
    writes: &mut Writes,
    g: &Geometry,
    n: u32,
    f: &NewFile<'_>,
    clusters: &Clusters,
) -> Result<(), NoMemory>
    requires geometry { IsGeometry g.now }
    requires within { IsOfVolume g.now clusters.now None }
    ensures { OnOk result (writes.new ≡ writes.old ++ body_writes g.now n (file_made f.now) clusters.now) }
{
    if !f.dir {
        return Ok(());
    }
    let block = empty_block(alloc)?;
    for q in clusters.items() {
        push_cluster(alloc, writes, g, n, *q, &block, clusters)?;
    }
    Ok(())
}

// Adds the write of the header of a new file of these clusters.
fn push_new_header(
    alloc: Global,
    writes: &mut Writes,
    g: &Geometry,
    parent: Fid,
    n: u32,
    f: &NewFile<'_>,
    clusters: &Clusters,
) -> Result<(), NoMemory>
    requires geometry { IsGeometry g.now }
    requires parent { parent.num ≤ 16777215 }
    requires number { IsFileNumber g.now n }
    requires sound { IsSound g.now f.now }
    requires count { length clusters.now ≡ f.now.clusters }
    requires within { IsOfVolume g.now clusters.now None }
    ensures { OnOk result (writes.new ≡ writes.old ++ header_write g.now n (new_header g.now parent n (entry_made f.now) clusters.now) stage.Lost empty_handed ∷ []) }
{
    let block = header_block(alloc, g, parent, n, f, clusters)?;
    let none = Clusters::new(alloc);
    push_header(alloc, writes, g, n, &block, Stage::Lost, none, None)
}

// ---- the plan

/// The entry of a new file under number n. An error says that memory ran out.
pub(crate) fn entry_for(alloc: Global, n: u32, f: &NewFile<'_>) -> Result<DirEnt, NoMemory>
    ensures { IfOk result (λ e. e ≡ entry_for n (entry_made f.now)) }
{
    Ok(DirEnt {
        name: f.name.copy(alloc)?,
        ver: f.ver,
        fid: Fid { num: n, seq: f.seq },
    })
}

/// The writes that make a file of these clusters under number n: its owner is charged, a directory's own blocks are written,
/// then the header, and the entry is inserted. An error says that memory ran out.
#[tactic(auto, unfolding(op_law::specs::Entering::making_writes))]
pub(crate) fn making_writes(
    alloc: Global,
    g: &Geometry,
    d: &DirSeen<'_>,
    quota: &[(u32, Block)],
    f: &NewFile<'_>,
    n: u32,
    clusters: &Clusters,
) -> Result<Writes, NoMemory>
    requires geometry { IsGeometry g.now }
    requires readable { IsReadable d.now }
    requires read { IsRead d.now.blocks.now }
    requires few { length quota.now ≤ 16 }
    requires sound { IsSound g.now f.now }
    requires new { IsNewIn (dir_seen d.now) f.now }
    requires number { IsFileNumber g.now n }
    requires count { length clusters.now ≡ f.now.clusters }
    requires within { IsOfVolume g.now clusters.now None }
    ensures { IfOk result (λ ws. ws ≡ making_writes g.now (dir_seen d.now) (blocks_alone quota.now) (entry_made f.now) n clusters.now) }
{
    let mut writes = Writes::new(alloc);
    push_charge(
        alloc,
        &mut writes,
        g,
        quota,
        f.owner,
        cost_of(g, f.clusters),
        clusters,
        Some(n),
    )?;
    push_body(alloc, &mut writes, g, n, f, clusters)?;
    push_new_header(alloc, &mut writes, g, d.fid, n, f, clusters)?;
    let e = entry_for(alloc, n, f)?;
    push_insertion(alloc, &mut writes, d, &e, Stage::Lost, Stage::Done)?;
    Ok(writes)
}
