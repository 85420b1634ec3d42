//! The writes of EXTEND: the charge, and the headers with more clusters.

ghost use Rattle.std.specs.Prelude.{◌≡◌, ◌≤◌, ◌+◌, ◌/◌, ◌++◌, [], ◌∷◌, None, IsTrue, option_map, length, IfOk, IfSome, OnOk};
ghost use Rattle.fx_header.specs.Headers.{has_offsets};
ghost use Rattle.plain_cat.specs.declared.history.Stage.TheVariants as stage;
ghost use Rattle.plain_rules.specs.Lookups.{header_most, file_most, extra};
ghost use Rattle.vol_parts.specs.Parts.{IsGeometry};
ghost use Rattle.op_law.specs.Behind.{blocks_alone};
ghost use Rattle.op_law.specs.Headers.{next_fields, next_header, grown_mark, grown_first, front_part, behind_part, link_to, grown_last, new_header_writes, old_header_writes, room_for};
ghost use Rattle.op_law.specs.Sizes.{growing_writes};
ghost use Rattle.op_law.specs.Writing.{holding, header_write};
ghost use Rattle.op_steps.specs.Seeing.{file_seen};
ghost use Rattle.op_extend.specs.Seeing.{IsSeenWhole, IsGrowth, IsNewSlot};

use crate::headers::{last_header, list_runs};
use crate::runs::{extra, push_runs, tail_runs};
use base_words::Block;
use fx_header::{Hdr, clear_contig, new_header, set_blocks, set_map, set_mark};
use op_law::{HEADER_MOST, NoMemory, Writes};
use op_steps::{FileSeen, push_charge, push_header};
use plain_cat::{Clusters, Stage, Uic};
use std::alloc::Global;
use vol_parts::Geometry;

// ---- the new clusters

// How many clusters more the last header of a file of k clusters can list.
fn room_for(k: u32) -> u32
    requires { k ≤ file_most }
    ensures { result ≡ room_for k }
{
    (HEADER_MOST * (extra(k) + 1)).saturating_sub(k)
}

// Those of the new clusters that the last header of the file lists.
fn front_part<'a>(g: &Geometry, f: &FileSeen<'_>, clusters: &'a [u32]) -> &'a [u32]
    requires geometry { IsGeometry g.now }
    requires few { f.now.fields.blocks / g.now.cluster ≤ file_most }
    ensures { result.now ≡ front_part (file_seen g.now f.now) clusters.now }
{
    let room = room_for(f.fields.blocks / g.cluster) as usize;
    &clusters[..room.min(clusters.len())]
}

// Those that a new header lists.
fn behind_part<'a>(g: &Geometry, f: &FileSeen<'_>, clusters: &'a [u32]) -> &'a [u32]
    requires geometry { IsGeometry g.now }
    requires few { f.now.fields.blocks / g.now.cluster ≤ file_most }
    ensures { result.now ≡ behind_part (file_seen g.now f.now) clusters.now }
{
    let room = room_for(f.fields.blocks / g.cluster) as usize;
    &clusters[room.min(clusters.len())..]
}

// ---- the headers

// The number of a new header, if there is one.
fn number_of(new: Option<(u32, u16)>) -> Option<u32>
    ensures { result ≡ option_map (λ n. n.0) new }
{
    match new {
        Some(slot) => Some(slot.0),
        None => None,
    }
}

// The link to a new header, if there is one.
fn link_to(new: Option<(u32, u16)>) -> (u32, u16)
    ensures { result ≡ link_to new }
{
    match new {
        Some(slot) => slot,
        None => (0, 0),
    }
}

// The fields of a new header in the slot of this number and sequence, which comes behind the last one of the file.
fn next_fields(g: &Geometry, f: &FileSeen<'_>, new: (u32, u16)) -> Hdr
    requires geometry { IsGeometry g.now }
    requires few { f.now.fields.blocks / g.now.cluster ≤ file_most }
    ensures { result ≡ next_fields (file_seen g.now f.now).file (extra (f.now.fields.blocks / g.now.cluster) + 1) new }
{
    Hdr {
        num: new.0,
        seq: new.1,
        owner: f.fields.owner,
        dir: false,
        marked: false,
        blocks: 0,
        mark: 0,
        end: 0,
        byte: 0,
        seg: extra(f.fields.blocks / g.cluster) as u16 + 1,
        ext: 0,
        ext_seq: 0,
    }
}

// The new header, with those of the clusters that the last one of the file has no room for.
#[tactic(auto, unfolding(op_law::specs::Headers::next_header))]
fn next_header(
    alloc: Global,
    g: &Geometry,
    f: &FileSeen<'_>,
    new: (u32, u16),
    clusters: &[u32],
) -> Result<Block, NoMemory>
    requires geometry { IsGeometry g.now }
    requires whole { IsSeenWhole g.now f.now }
    requires growth { IsGrowth g.now f.now clusters.now }
    requires slot { IsNewSlot g.now f.now (length clusters.now) new }
    ensures { IfOk result (λ b. b ≡ next_header g.now (file_seen g.now f.now) new (behind_part (file_seen g.now f.now) clusters.now)) }
{
    let fields = next_fields(g, f, new);
    let mut block = new_header(&fields, b"", (f.num, f.fields.seq));
    let mut runs = Vec::new(alloc);
    push_runs(&mut runs, g, behind_part(g, f, clusters))?;
    set_map(&mut block, runs.as_slice());
    Ok(block)
}

// The last header of the file with those of the clusters that it has room for, and with a link to the new one, if there is one.
#[tactic(auto, unfolding(op_law::specs::Headers::listing))]
fn grown_last(
    alloc: Global,
    g: &Geometry,
    f: &FileSeen<'_>,
    last: &Block,
    clusters: &[u32],
    new: Option<(u32, u16)>,
) -> Result<Block, NoMemory>
    requires geometry { IsGeometry g.now }
    requires whole { IsSeenWhole g.now f.now }
    requires growth { IsGrowth g.now f.now clusters.now }
    requires offsets { IsTrue (has_offsets last.now) }
    requires link { (link_to new).0 ≤ g.now.files }
    ensures { IfOk result (λ b. b ≡ grown_last g.now (file_seen g.now f.now) last.now clusters.now new) }
{
    let mut block = *last;
    let mut runs = tail_runs(alloc, g, f, f.fields.blocks / g.cluster)?;
    push_runs(&mut runs, g, front_part(g, f, clusters))?;
    list_runs(&mut block, runs.as_slice(), link_to(new));
    Ok(block)
}

// The mark of a file that gets more blocks: where it had none, the blocks that it has stay written.
fn grown_mark(g: &Geometry, f: &FileSeen<'_>) -> u32
    requires geometry { IsGeometry g.now }
    requires few { f.now.fields.blocks / g.now.cluster ≤ file_most }
    ensures { result ≡ grown_mark g.now (file_seen g.now f.now).file }
{
    if f.fields.mark == 0 {
        g.cluster * (f.fields.blocks / g.cluster) + 1
    } else {
        f.fields.mark
    }
}

// Writes into the first header what it says of a file with k clusters more.
#[tactic(auto, unfolding(op_law::specs::Headers::grown_first))]
fn grow_first(block: &mut Block, g: &Geometry, f: &FileSeen<'_>, k: u32)
    requires geometry { IsGeometry g.now }
    requires few { f.now.fields.blocks / g.now.cluster ≤ file_most }
    requires growth { k ≤ header_most }
    ensures { block.new ≡ grown_first g.now (file_seen g.now f.now).file block.old k }
{
    set_blocks(block, g.cluster * (f.fields.blocks / g.cluster + k));
    set_mark(block, grown_mark(g, f));
    clear_contig(block);
}

// ---- the writes

// Adds the write of the new header, if there is one. A refusal of memory says nothing of the writes.
fn push_new(
    alloc: Global,
    writes: &mut Writes,
    g: &Geometry,
    f: &FileSeen<'_>,
    clusters: &Clusters,
    new: Option<(u32, u16)>,
) -> Result<(), NoMemory>
    requires geometry { IsGeometry g.now }
    requires whole { IsSeenWhole g.now f.now }
    requires growth { IsGrowth g.now f.now clusters.now }
    requires slot { IfSome new (IsNewSlot g.now f.now (length clusters.now)) }
    ensures { OnOk result (writes.new ≡ writes.old ++ new_header_writes g.now (file_seen g.now f.now) clusters.now new) }
{
    let Some(slot) = new else {
        return Ok(());
    };
    let block = next_header(alloc, g, f, slot, clusters.items())?;
    let outside = clusters.copy(alloc)?;
    push_header(
        alloc,
        writes,
        g,
        slot.0,
        &block,
        Stage::Charged,
        outside,
        Some(slot.0),
    )
}

// Adds the write of the first header, the last of the plan, with this block for what it lists and its link. If memory runs out, the
// writes are as they were.
fn push_first(
    alloc: Global,
    writes: &mut Writes,
    g: &Geometry,
    f: &FileSeen<'_>,
    listed: &Block,
    k: u32,
) -> Result<(), NoMemory>
    requires geometry { IsGeometry g.now }
    requires number { f.now.num ≤ g.now.files }
    requires few { f.now.fields.blocks / g.now.cluster ≤ file_most }
    requires growth { k ≤ header_most }
    ensures { OnOk result (writes.new ≡ writes.old ++ header_write g.now f.now.num (grown_first g.now (file_seen g.now f.now).file listed.now k) stage.Done (holding [] None) ∷ []) }
{
    let mut block = *listed;
    grow_first(&mut block, g, f, k);
    let none = Clusters::new(alloc);
    push_header(alloc, writes, g, f.num, &block, Stage::Done, none, None)
}

// Adds the writes of the headers that were there. A refusal of memory says nothing of the writes.
fn push_old(
    alloc: Global,
    writes: &mut Writes,
    g: &Geometry,
    f: &FileSeen<'_>,
    clusters: &Clusters,
    new: Option<(u32, u16)>,
) -> Result<(), NoMemory>
    requires geometry { IsGeometry g.now }
    requires whole { IsSeenWhole g.now f.now }
    requires growth { IsGrowth g.now f.now clusters.now }
    requires link { (link_to new).0 ≤ g.now.files }
    ensures { OnOk result (writes.new ≡ writes.old ++ old_header_writes g.now (file_seen g.now f.now) clusters.now new f.now.rest.now) }
{
    let k = clusters.items().len() as u32;
    let last = last_header(g, f.num, f.head, f.rest);
    let block = grown_last(alloc, g, f, last.block, clusters.items(), new)?;
    if f.rest.is_empty() {
        return push_first(alloc, writes, g, f, &block, k);
    }
    let outside = clusters.copy(alloc)?;
    push_header(
        alloc,
        writes,
        g,
        last.num,
        &block,
        Stage::Charged,
        outside,
        number_of(new),
    )?;
    push_first(alloc, writes, g, f, f.head, k)
}

/// The writes that give a file these clusters more, and a new header in the slot of this number and sequence, if there is one: its
/// owner is charged, and then the headers, of which the first one is the last that is written. An error says that memory ran out.
#[tactic(auto, unfolding(op_law::specs::Sizes::growing_writes, op_law::specs::Headers::headers_grown))]
pub(crate) fn growing_writes(
    alloc: Global,
    g: &Geometry,
    f: &FileSeen<'_>,
    quota: &[(u32, Block)],
    clusters: &Clusters,
    k: u32,
    new: Option<(u32, u16)>,
) -> Result<Writes, NoMemory>
    requires geometry { IsGeometry g.now }
    requires whole { IsSeenWhole g.now f.now }
    requires quota { length quota.now ≤ 16 }
    requires growth { IsGrowth g.now f.now clusters.now }
    requires count { length clusters.now ≡ k }
    requires slot { IfSome new (IsNewSlot g.now f.now k) }
    ensures { IfOk result (λ ws. ws ≡ growing_writes g.now (file_seen g.now f.now) (blocks_alone quota.now) clusters.now k new) }
{
    let mut writes = Writes::new(alloc);
    let owner = Uic(f.fields.owner);
    push_charge(
        alloc,
        &mut writes,
        g,
        quota,
        owner,
        g.cluster * k,
        clusters,
        number_of(new),
    )?;
    push_new(alloc, &mut writes, g, f, clusters, new)?;
    push_old(alloc, &mut writes, g, f, clusters, new)?;
    Ok(writes)
}
