//! The write of a file's header.

ghost use Rattle.std.specs.Prelude.{◌≡◌, ◌≤◌, ◌++◌, [], ◌∷◌, OnOk, OnErr};
ghost use Rattle.vol_parts.specs.Parts.{IsGeometry};
ghost use Rattle.op_law.specs.Writing.{holding, header_write};

use base_words::Block;
use lock_db::LockName;
use op_law::{NoMemory, Numbers, PlanWrite, Writes, header_lbn};
use plain_cat::{Clusters, Stage};
use std::alloc::Global;
use vol_parts::Geometry;

/// Adds the write of the header of file n, which leaves this stage; these clusters and this number are outside then. If memory
/// runs out, the writes are as they were.
pub fn push_header(
    alloc: Global,
    writes: &mut Writes,
    g: &Geometry,
    n: u32,
    block: &Block,
    stage: Stage,
    clusters: Clusters,
    number: Option<u32>,
) -> Result<(), NoMemory>
    requires geometry { IsGeometry g.now }
    requires number { n ≤ g.now.files }
    ensures ok { OnOk result (writes.new ≡ writes.old ++ header_write g.now n block.now stage (holding clusters number) ∷ []) }
    ensures err { OnErr result (writes.new ≡ writes.old) }
{
    writes.push(PlanWrite {
        lock: LockName::S(n),
        lbn: header_lbn(g, n),
        block: *block,
        stage,
        clusters,
        numbers: Numbers::new(alloc),
        number,
    })
}
