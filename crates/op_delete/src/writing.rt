//! The first writes of a DELETE: the mark, and the removal of the entry.

ghost use Rattle.std.specs.Prelude.{◌≡◌, ◌≤◌, ◌++◌, true, OnOk};
ghost use Rattle.std.specs.Result.{ForOk};
ghost use Rattle.fx_dir.specs.Entries.{has};
ghost use Rattle.fx_dir.specs.Directory.{directory};
ghost use Rattle.fx_dir.specs.Moves.{key};
ghost use Rattle.vol_parts.specs.Parts.{IsGeometry};
ghost use Rattle.op_law.specs.Behind.{blocks_alone};
ghost use Rattle.op_law.specs.Readable.{IsRead};
ghost use Rattle.op_law.specs.Removing.{marking_writes, unnaming_writes};
ghost use Rattle.op_steps.specs.Names.{dir_seen, IsReadable as IsDirReadable};
ghost use Rattle.op_steps.specs.Seeing.{file_seen};

use fx_header::set_marked;
use op_law::{NoMemory, Writes};
use op_steps::{DirSeen, FileSeen, push_header, push_removal};
use plain_cat::{Clusters, DirEnt, Stage};
use std::alloc::Global;
use vol_parts::Geometry;

// Adds the write that marks a file for delete, unless it is marked. A refusal of memory says nothing of the writes.
fn push_mark(
    alloc: Global,
    writes: &mut Writes,
    g: &Geometry,
    f: &FileSeen<'_>,
) -> Result<(), NoMemory>
    requires geometry { IsGeometry g.now }
    requires number { f.now.num ≤ g.now.files }
    ensures { OnOk result (writes.new ≡ writes.old ++ marking_writes g.now (file_seen g.now f.now)) }
{
    if f.fields.marked {
        return Ok(());
    }
    let mut head = *f.head;
    set_marked(&mut head);
    let none = Clusters::new(alloc);
    push_header(alloc, writes, g, f.num, &head, Stage::Marked, none, None)
}

/// Adds the mark, and the removal of the entry. A refusal of memory says nothing of the writes.
#[tactic(auto, unfolding(op_law::specs::Removing::unnaming_writes))]
pub(crate) fn push_unnaming(
    alloc: Global,
    writes: &mut Writes,
    g: &Geometry,
    d: &DirSeen<'_>,
    e: &DirEnt,
    f: &FileSeen<'_>,
) -> Result<(), NoMemory>
    requires geometry { IsGeometry g.now }
    requires number { f.now.num ≤ g.now.files }
    requires readable { IsDirReadable d.now }
    requires read { IsRead d.now.blocks.now }
    requires there { ForOk (directory (blocks_alone d.now.blocks.now)) (λ es. has es (key e.now.name e.now.ver) ≡ true) }
    ensures { OnOk result (writes.new ≡ writes.old ++ unnaming_writes g.now (dir_seen d.now) e.now (file_seen g.now f.now)) }
{
    push_mark(alloc, writes, g, f)?;
    let before = if f.fields.marked {
        Stage::Nothing
    } else {
        Stage::Marked
    };
    push_removal(alloc, writes, d, e, before, Stage::Unlinked)
}
