//! Header slots that become free.

ghost use Rattle.std.specs.Prelude.{◌≡◌, ◌++◌, None, IfOk, OnOk, OnErr};
ghost use Rattle.base_words.specs.Lists.{HoldsPart};
ghost use Rattle.fx_header.specs.Headers.{header_read, freed};
ghost use Rattle.vol_parts.specs.Parts.{IsGeometry};
ghost use Rattle.op_law.specs.Entering.{slot_seq};
ghost use Rattle.op_law.specs.Headers.{slot_at, numbers_of, slots_freed};
ghost use Rattle.op_law.specs.Writing.{holding, with_numbers, header_write};
ghost use Rattle.op_steps.specs.Seeing.{file_seen};

use crate::FileSeen;
use crate::bitmaps::copied;
use base_words::Block;
use fx_header::{Slot, free_slot, read_header};
use lock_db::LockName;
use op_law::{NoMemory, Numbers, PlanWrite, Writes};
use plain_cat::{Clusters, Stage};
use std::alloc::Global;
use vol_parts::Geometry;

/// The last sequence that a header slot tells.
pub fn slot_seq(slot: &Block) -> u16
    ensures { result ≡ slot_seq (header_read slot.now) }
{
    match read_header(slot) {
        Ok(Slot::Free(seq)) => seq,
        Ok(Slot::Used(h)) => h.seq,
        Err(_) => 0,
    }
}

// The number of the header slot at an LBN.
fn slot_at(g: &Geometry, lbn: u32) -> u32
    requires { IsGeometry g.now }
    ensures { result ≡ slot_at g.now lbn }
{
    lbn.saturating_sub(4 * g.cluster)
}

/// The numbers of all headers of a file that were seen. An error says that memory ran out.
pub fn all_numbers(alloc: Global, g: &Geometry, f: &FileSeen<'_>) -> Result<Numbers, NoMemory>
    requires { IsGeometry g.now }
    ensures { IfOk result (λ ns. ns ≡ numbers_of g.now (file_seen g.now f.now)) }
{
    let mut numbers = Numbers::new(alloc);
    numbers.push(f.num)?;
    for slot in f.rest {
        numbers.push(slot_at(g, slot.0))?;
    }
    Ok(numbers)
}

// The write by which a slot that was seen becomes free. It keeps the sequence.
fn slot_write(
    alloc: Global,
    g: &Geometry,
    stage: Stage,
    clusters: &Clusters,
    numbers: &Numbers,
    slot: &(u32, Block),
) -> Result<PlanWrite, NoMemory>
    requires { IsGeometry g.now }
    ensures { IfOk result (λ w. w ≡ with_numbers numbers.now (header_write g.now (slot_at g.now slot.now.0) (freed (slot_seq (header_read slot.now.1))) stage (holding clusters.now None))) }
{
    let n = slot_at(g, slot.0);
    Ok(PlanWrite {
        lock: LockName::S(n),
        lbn: 4 * g.cluster + n,
        block: free_slot(slot_seq(&slot.1)),
        stage,
        clusters: clusters.copy(alloc)?,
        numbers: copied(alloc, numbers)?,
        number: None,
    })
}

/// Adds the writes by which slots that were seen become free, in order. Each leaves this stage, and these clusters and numbers
/// outside. If memory runs out, the writes that were there are followed by a beginning of those to be added.
pub fn push_slots(
    alloc: Global,
    writes: &mut Writes,
    g: &Geometry,
    stage: Stage,
    clusters: &Clusters,
    numbers: &Numbers,
    slots: &[(u32, Block)],
) -> Result<(), NoMemory>
    requires { IsGeometry g.now }
    ensures ok { OnOk result (writes.new ≡ writes.old ++ slots_freed g.now stage clusters.now numbers.now slots.now) }
    ensures err { OnErr result (HoldsPart writes.old (slots_freed g.now stage clusters.now numbers.now slots.now) writes.new) }
{
    for slot in slots {
        let write = slot_write(alloc, g, stage, clusters, numbers, slot)?;
        writes.push(write)?;
    }
    Ok(())
}
