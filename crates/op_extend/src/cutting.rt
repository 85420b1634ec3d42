//! The writes of TRUNC: the headers with fewer clusters, those that go become free, and the owner is charged less.

ghost use Rattle.std.specs.Prelude.{◌≡◌, ◌≤◌, ◌*◌, ◌/◌, ◌++◌, [], ◌∷◌, None, All, IsTrue, length, map, take, drop, IfOk, OnOk};
ghost use Rattle.base_words.specs.Fields.{IsWholeBlock};
ghost use Rattle.fx_header.specs.declared.run.Run.{Run};
ghost use Rattle.fx_header.specs.Headers.{has_offsets};
ghost use Rattle.plain_cat.specs.declared.history.Stage.TheVariants as stage;
ghost use Rattle.plain_rules.specs.Lookups.{file_most, extra};
ghost use Rattle.vol_parts.specs.Parts.{IsGeometry};
ghost use Rattle.op_law.specs.Freeing.{freeing_tail};
ghost use Rattle.op_law.specs.Headers.{slots_seen, kept_headers, cut_last};
ghost use Rattle.op_law.specs.Sizes.{lowered, cut_first, cut_last_writes, cut_clusters, headers_cut, cutting_writes};
ghost use Rattle.op_law.specs.Writing.{holding, with_numbers, header_write};
ghost use Rattle.op_steps.specs.Seeing.{file_seen};
ghost use Rattle.op_extend.specs.Seeing.{CanBeCut};
ghost use Rattle.op_extend.specs.Cutting.{IsGone, IsLooked, space_seen};

use crate::headers::{last_header, list_runs, slot_at};
use crate::runs::{cluster_runs, extra, runs_behind, tail_runs};
use base_words::Block;
use fx_header::{Run, set_blocks, set_end, set_mark};
use lock_db::LockName;
use op_law::{NoMemory, Numbers, PlanWrite, Writes, header_lbn};
use op_steps::{FileSeen, push_discharge, push_index, push_slots, push_storage, rising};
use plain_cat::{Clusters, Stage, Uic};
use std::alloc::Global;
use vol_parts::Geometry;

// ---- what goes

/// What a file loses: its clusters behind the first k, rising, and the numbers of the headers that go.
#[derive(Drop)]
pub(crate) struct Gone {
    pub clusters: Clusters,
    pub numbers: Numbers,
}

// The first cluster of each of these runs.
fn first_clusters(alloc: Global, g: &Geometry, runs: &[Run]) -> Result<Vec<u32>, NoMemory>
    requires { IsGeometry g.now }
    ensures { IfOk result (λ qs. qs.items ≡ map (λ r. r.lbn / g.now.cluster) runs.now) }
{
    runs.iter().map(|r| r.lbn / g.cluster).collect(alloc)
}

// The clusters of a file behind the first k, rising.
fn clusters_behind(
    alloc: Global,
    g: &Geometry,
    f: &FileSeen<'_>,
    k: u32,
) -> Result<Clusters, NoMemory>
    requires geometry { IsGeometry g.now }
    requires can { CanBeCut g.now f.now k }
    ensures { IfOk result (λ qs. qs ≡ cut_clusters g.now (file_seen g.now f.now) k) }
{
    let all = cluster_runs(alloc, g, f)?;
    let first = first_clusters(alloc, g, runs_behind(all.as_slice(), k))?;
    let gone = rising(alloc, g, first.as_slice())?;
    Ok(gone)
}

// The headers behind the first one that a file keeps with its first k clusters.
fn kept_headers<'a>(f: &FileSeen<'a>, k: u32) -> &'a [(u32, Block)]
    requires { extra k ≤ length f.now.rest.now }
    ensures { result.now ≡ take (extra k) f.now.rest.now }
{
    &f.rest[..extra(k) as usize]
}

// Those that go.
fn gone_headers<'a>(f: &FileSeen<'a>, k: u32) -> &'a [(u32, Block)]
    requires { extra k ≤ length f.now.rest.now }
    ensures { result.now ≡ drop (extra k) f.now.rest.now }
{
    &f.rest[extra(k) as usize..]
}

// The numbers of headers that were seen.
fn slots_seen(alloc: Global, g: &Geometry, seen: &[(u32, Block)]) -> Result<Numbers, NoMemory>
    requires { IsGeometry g.now }
    ensures { IfOk result (λ ns. ns ≡ slots_seen g.now seen.now) }
{
    let mut numbers = Numbers::new(alloc);
    for (lbn, _) in seen {
        numbers.push(slot_at(g, *lbn))?;
    }
    Ok(numbers)
}

/// What a file loses that keeps its first k clusters. An error says that memory ran out.
pub(crate) fn gone_seen(
    alloc: Global,
    g: &Geometry,
    f: &FileSeen<'_>,
    k: u32,
) -> Result<Gone, NoMemory>
    requires geometry { IsGeometry g.now }
    requires can { CanBeCut g.now f.now k }
    ensures { IfOk result (IsGone g.now (file_seen g.now f.now) k) }
{
    Ok(Gone {
        clusters: clusters_behind(alloc, g, f, k)?,
        numbers: slots_seen(alloc, g, gone_headers(f, k))?,
    })
}

// ---- the headers that stay

// Writes a mark and an end that are at most one block behind the first k clusters.
fn lower(block: &mut Block, g: &Geometry, f: &FileSeen<'_>, k: u32)
    requires geometry { IsGeometry g.now }
    requires few { k ≤ file_most }
    ensures lowered { block.new ≡ lowered block.old (file_seen g.now f.now).file (g.now.cluster * k) }
    ensures whole { IsWholeBlock block.old }
{
    let limit = g.cluster * k + 1;
    let byte = if limit < f.fields.end {
        0
    } else {
        f.fields.byte
    };
    set_end(block, f.fields.end.min(limit), byte);
    set_mark(block, f.fields.mark.min(limit));
}

// Makes a header the last one of a file with its first k clusters.
#[tactic(auto, unfolding(op_law::specs::Headers::listing))]
fn cut_last(
    alloc: Global,
    block: &mut Block,
    g: &Geometry,
    f: &FileSeen<'_>,
    k: u32,
) -> Result<(), NoMemory>
    requires geometry { IsGeometry g.now }
    requires can { CanBeCut g.now f.now k }
    requires offsets { IsTrue (has_offsets block.old) }
    ensures { OnOk result (block.new ≡ cut_last g.now (file_seen g.now f.now) k block.old) }
{
    let runs = tail_runs(alloc, g, f, k)?;
    list_runs(block, runs.as_slice(), (0, 0));
    Ok(())
}

// The first header of a file with its first k clusters alone.
#[tactic(auto, unfolding(op_law::specs::Sizes::cut_first))]
fn cut_first(alloc: Global, g: &Geometry, f: &FileSeen<'_>, k: u32) -> Result<Block, NoMemory>
    requires geometry { IsGeometry g.now }
    requires can { CanBeCut g.now f.now k }
    ensures { IfOk result (λ b. b ≡ cut_first g.now (file_seen g.now f.now) k (kept_headers (file_seen g.now f.now) k)) }
{
    let mut block = *f.head;
    lower(&mut block, g, f, k);
    if kept_headers(f, k).is_empty() {
        cut_last(alloc, &mut block, g, f, k)?;
    }
    set_blocks(&mut block, g.cluster * k);
    Ok(block)
}

// ---- the writes

// The same numbers again.
fn copied(alloc: Global, numbers: &Numbers) -> Result<Numbers, NoMemory>
    ensures { IfOk result (λ ns. ns ≡ numbers.now) }
{
    let mut same = Numbers::new(alloc);
    for n in numbers.items() {
        same.push(*n)?;
    }
    Ok(same)
}

// Adds the write of the header of number n, after which all that goes is outside. If memory runs out, the writes are as they were.
fn push_cut(
    alloc: Global,
    writes: &mut Writes,
    g: &Geometry,
    n: u32,
    block: &Block,
    gone: &Gone,
) -> Result<(), NoMemory>
    requires geometry { IsGeometry g.now }
    requires number { n ≤ g.now.files }
    ensures { OnOk result (writes.new ≡ writes.old ++ with_numbers gone.now.numbers (header_write g.now n block.now stage.Shortened (holding gone.now.clusters None)) ∷ []) }
{
    writes.push(PlanWrite {
        lock: LockName::S(n),
        lbn: header_lbn(g, n),
        block: *block,
        stage: Stage::Shortened,
        clusters: gone.clusters.copy(alloc)?,
        numbers: copied(alloc, &gone.numbers)?,
        number: None,
    })?;
    Ok(())
}

// Adds the write of the last header that is kept, where it is not the first one. A refusal of memory says nothing of the writes.
fn push_last(
    alloc: Global,
    writes: &mut Writes,
    g: &Geometry,
    f: &FileSeen<'_>,
    k: u32,
    gone: &Gone,
) -> Result<(), NoMemory>
    requires geometry { IsGeometry g.now }
    requires can { CanBeCut g.now f.now k }
    ensures { OnOk result (writes.new ≡ writes.old ++ cut_last_writes g.now (file_seen g.now f.now) k gone.now.clusters gone.now.numbers (kept_headers (file_seen g.now f.now) k)) }
{
    let kept = kept_headers(f, k);
    if kept.is_empty() {
        return Ok(());
    }
    let last = last_header(g, f.num, f.head, kept);
    let mut block = *last.block;
    cut_last(alloc, &mut block, g, f, k)?;
    push_cut(alloc, writes, g, last.num, &block, gone)
}

// Adds the writes of the headers. A refusal of memory says nothing of the writes.
#[tactic(auto, unfolding(op_law::specs::Sizes::headers_cut))]
fn push_headers(
    alloc: Global,
    writes: &mut Writes,
    g: &Geometry,
    f: &FileSeen<'_>,
    k: u32,
    gone: &Gone,
) -> Result<(), NoMemory>
    requires geometry { IsGeometry g.now }
    requires can { CanBeCut g.now f.now k }
    requires gone { IsGone g.now (file_seen g.now f.now) k gone.now }
    ensures { OnOk result (writes.new ≡ writes.old ++ headers_cut g.now (file_seen g.now f.now) k) }
{
    let block = cut_first(alloc, g, f, k)?;
    push_cut(alloc, writes, g, f.num, &block, gone)?;
    push_last(alloc, writes, g, f, k, gone)?;
    push_slots(
        alloc,
        writes,
        g,
        Stage::Shortened,
        &gone.clusters,
        &gone.numbers,
        gone_headers(f, k),
    )
}

/// The block of the index-file bitmap.
#[derive(Clone, Copy)]
pub(crate) enum Index<'a> {
    /// It was looked at, since numbers become free.
    Seen(&'a Block),

    /// No number does.
    Unseen,
}

/// What a TRUNC has looked at behind the headers: the quota blocks, the block of the index-file bitmap, and the blocks of the storage
/// bitmap that have bits of the clusters that go.
#[derive(Clone, Copy)]
pub(crate) struct Space<'a> {
    pub quota: &'a [(u32, Block)],
    pub index: Index<'a>,
    pub storage: &'a [(u32, Block)],
}

// Adds the writes of the bitmaps by which all that goes becomes free. A refusal of memory says nothing of the writes.
fn push_freeing(
    alloc: Global,
    writes: &mut Writes,
    g: &Geometry,
    gone: &Gone,
    space: &Space<'_>,
) -> Result<(), NoMemory>
    requires geometry { IsGeometry g.now }
    requires numbers { All (λ n. n ≤ 4096) gone.now.numbers }
    requires looked { IsLooked g.now gone.now space.now }
    ensures { OnOk result (writes.new ≡ writes.old ++ freeing_tail g.now stage.Shortened gone.now.clusters gone.now.numbers (space_seen space.now).storage (space_seen space.now).index) }
{
    push_storage(
        alloc,
        writes,
        g,
        Stage::Shortened,
        &gone.clusters,
        &gone.numbers,
        space.storage,
    )?;
    match space.index {
        Index::Seen(index) => push_index(alloc, writes, g, Stage::Shortened, &gone.numbers, index),
        Index::Unseen => Ok(()),
    }
}

/// The writes that leave a file its first k clusters: the headers, the bits of what goes, and the owner's row. An error says that
/// memory ran out.
#[tactic(auto, unfolding(op_law::specs::Sizes::cutting_writes))]
pub(crate) fn cutting_writes(
    alloc: Global,
    g: &Geometry,
    f: &FileSeen<'_>,
    k: u32,
    gone: &Gone,
    space: &Space<'_>,
) -> Result<Writes, NoMemory>
    requires geometry { IsGeometry g.now }
    requires can { CanBeCut g.now f.now k }
    requires gone { IsGone g.now (file_seen g.now f.now) k gone.now }
    requires looked { IsLooked g.now gone.now space.now }
    ensures { IfOk result (λ ws. ws ≡ cutting_writes g.now (file_seen g.now f.now) k (space_seen space.now)) }
{
    let mut writes = Writes::new(alloc);
    push_headers(alloc, &mut writes, g, f, k, gone)?;
    push_freeing(alloc, &mut writes, g, gone, space)?;
    let owner = Uic(f.fields.owner);
    let less = g.cluster * (f.fields.blocks / g.cluster - k);
    push_discharge(alloc, &mut writes, g, space.quota, owner, less)?;
    Ok(writes)
}
