//! The writes by which a file goes: the free slots of its headers, and what becomes free.

ghost use Rattle.std.specs.Prelude.{◌≡◌, ◌≤◌, ◌++◌, [], ◌∷◌, None, OnOk, OnErr};
ghost use Rattle.base_words.specs.Lists.{HoldsPart};
ghost use Rattle.fx_header.specs.Headers.{freed};
ghost use Rattle.plain_cat.specs.declared.history.Stage.TheVariants as stage;
ghost use Rattle.vol_parts.specs.Parts.{IsGeometry};
ghost use Rattle.op_law.specs.Writing.{holding, with_numbers, header_write};
ghost use Rattle.op_law.specs.Freeing.{all_clusters, headers_freed, freeing_writes};
ghost use Rattle.op_law.specs.Headers.{numbers_of};
ghost use Rattle.op_steps.specs.Seeing.{file_seen, IsReadable};
ghost use Rattle.op_steps.specs.Looking.{space_seen, IsWhole};
ghost use Rattle.op_steps.specs.FreeingSeeing.{HasNumbers};

use crate::bitmaps::{copied, push_freeing};
use crate::gone_looking::SpaceSeen;
use crate::slots::{all_numbers, push_slots};
use crate::{FileSeen, push_discharge};
use fx_header::free_slot;
use lock_db::LockName;
use op_law::{NoMemory, Numbers, PlanWrite, Writes, header_lbn};
use plain_cat::{Clusters, Stage, Uic};
use std::alloc::Global;
use vol_parts::Geometry;

// Adds the write of the first header that becomes a free slot. The clusters and the numbers are outside then. If memory runs out,
// the writes are as they were.
fn push_first(
    alloc: Global,
    writes: &mut Writes,
    g: &Geometry,
    f: &FileSeen<'_>,
    clusters: &Clusters,
    numbers: &Numbers,
) -> Result<(), NoMemory>
    requires geometry { IsGeometry g.now }
    requires number { f.now.num ≤ g.now.files }
    ensures ok { OnOk result (writes.new ≡ writes.old ++ with_numbers numbers.now (header_write g.now f.now.num (freed f.now.fields.seq) stage.Freed (holding clusters.now None)) ∷ []) }
    ensures err { OnErr result (writes.new ≡ writes.old) }
{
    writes.push(PlanWrite {
        lock: LockName::S(f.num),
        lbn: header_lbn(g, f.num),
        block: free_slot(f.fields.seq),
        stage: Stage::Freed,
        clusters: clusters.copy(alloc)?,
        numbers: copied(alloc, numbers)?,
        number: None,
    })
}

// Adds the writes by which the slots of all headers become free, the first one's first. If memory runs out, the writes that were
// there are followed by a beginning of those to be added.
#[tactic(auto, unfolding(op_law::specs::Freeing::headers_freed))]
fn push_headers(
    alloc: Global,
    writes: &mut Writes,
    g: &Geometry,
    f: &FileSeen<'_>,
    clusters: &Clusters,
    numbers: &Numbers,
) -> Result<(), NoMemory>
    requires geometry { IsGeometry g.now }
    requires number { f.now.num ≤ g.now.files }
    requires clusters { clusters.now ≡ all_clusters g.now (file_seen g.now f.now) }
    requires numbers { numbers.now ≡ numbers_of g.now (file_seen g.now f.now) }
    ensures ok { OnOk result (writes.new ≡ writes.old ++ headers_freed g.now (file_seen g.now f.now)) }
    ensures err { OnErr result (HoldsPart writes.old (headers_freed g.now (file_seen g.now f.now)) writes.new) }
{
    push_first(alloc, writes, g, f, clusters, numbers)?;
    push_slots(alloc, writes, g, Stage::Freed, clusters, numbers, f.rest)
}

/// Adds the writes with which a file of these clusters goes. If memory runs out, the writes that were there are followed by a
/// beginning of those to be added.
#[tactic(auto, unfolding(op_law::specs::Freeing::freeing_writes))]
pub fn push_gone(
    alloc: Global,
    writes: &mut Writes,
    g: &Geometry,
    f: &FileSeen<'_>,
    clusters: &Clusters,
    space: &SpaceSeen<'_>,
) -> Result<(), NoMemory>
    requires geometry { IsGeometry g.now }
    requires numbers { HasNumbers g.now f.now }
    requires readable { IsReadable f.now }
    requires clusters { clusters.now ≡ all_clusters g.now (file_seen g.now f.now) }
    requires whole { IsWhole g.now clusters.now space.now }
    ensures ok { OnOk result (writes.new ≡ writes.old ++ freeing_writes g.now (file_seen g.now f.now) (space_seen space.now)) }
    ensures err { OnErr result (HoldsPart writes.old (freeing_writes g.now (file_seen g.now f.now) (space_seen space.now)) writes.new) }
{
    let numbers = all_numbers(alloc, g, f)?;
    push_headers(alloc, writes, g, f, clusters, &numbers)?;
    push_freeing(
        alloc,
        writes,
        g,
        Stage::Freed,
        clusters,
        &numbers,
        space.storage,
        space.index,
    )?;
    let cost = g.cluster * (f.fields.blocks / g.cluster) + 1;
    push_discharge(alloc, writes, g, space.quota, Uic(f.fields.owner), cost)
}
