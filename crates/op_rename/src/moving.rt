//! The writes of a RENAME: the new name is entered, and then the old one is removed.

ghost use Rattle.std.specs.Prelude.{◌≡◌, true, false, IfOk};
ghost use Rattle.fx_dir.specs.Writing.{IsInForm};
ghost use Rattle.plain_rules.specs.Lookups.{versions};
ghost use Rattle.plain_rules.specs.Directories.{is_taken};
ghost use Rattle.op_law.specs.Moving.{entries_of, rename_writes};
ghost use Rattle.vol_spell.specs.Entries.{raw_entry};
ghost use Rattle.op_law.specs.Readable.{IsRead};
ghost use Rattle.op_steps.specs.Names.{dir_seen, IsReadable};

use fx_dir::{Renaming, read_sound, rename_into};
use op_law::{NoMemory, Writes, blocks_of};
use op_steps::{DirSeen, push_moves, raw_entry};
use plain_cat::{DirEnt, Stage};
use std::alloc::Global;

/// The writes that give the entry `e` the name and version of `new`, which has the same file: `new` is entered, and then `e` is
/// removed from the directory as it stands by then. An error says that memory ran out.
#[tactic(auto, unfolding(op_law::specs::Moving::insertion_writes, op_law::specs::Moving::removal_writes, op_law::specs::Moving::rename_writes))]
pub(crate) fn rename_writes(
    alloc: Global,
    d: &DirSeen<'_>,
    e: &DirEnt,
    new: &DirEnt,
) -> Result<Writes, NoMemory>
    requires readable { IsReadable d.now }
    requires read { IsRead d.now.blocks.now }
    requires form { IsInForm (raw_entry new.now) }
    requires new { is_taken new.now.ver (versions new.now.name (entries_of (dir_seen d.now))) ≡ false }
    requires there { is_taken e.now.ver (versions e.now.name (entries_of (dir_seen d.now))) ≡ true }
    ensures { IfOk result (λ ws. ws ≡ rename_writes (dir_seen d.now) e.now new.now) }
{
    let blocks = blocks_of(alloc, d.blocks)?;
    let es = read_sound(alloc, blocks.items())?;
    let Renaming { entering, leaving } = rename_into(
        alloc,
        blocks.items(),
        es.as_slice(),
        e.name.items(),
        e.ver,
        &raw_entry(new),
    )?;
    let mut writes = Writes::new(alloc);
    let count = entering.len().saturating_add(leaving.moves.len());
    writes.make_room(count)?;
    let last = entering.len().saturating_sub(1);
    push_moves(
        alloc,
        &mut writes,
        d,
        entering.as_slice(),
        last,
        Stage::Nothing,
        Stage::Both,
    )?;
    push_moves(
        alloc,
        &mut writes,
        d,
        leaving.moves.as_slice(),
        leaving.packing,
        Stage::Both,
        Stage::Done,
    )?;
    Ok(writes)
}
