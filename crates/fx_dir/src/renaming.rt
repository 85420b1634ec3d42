//! The writes that give an entry another name: the new one is entered, and then the old one removed.

ghost use Rattle.std.specs.Prelude.{◌≡◌, ◌<◌, ◌^◌, ◌==◌, ◌&&◌, true, false, unwrap_or, IfOk, Ok, map, length, []};
ghost use Rattle.std.specs.List.{list_all};
ghost use Rattle.base_words.specs.Packing.{pack, over};
ghost use Rattle.fx_dir.specs.Lists.{Each};
ghost use Rattle.fx_dir.specs.Entries.{rises, has};
ghost use Rattle.fx_dir.specs.Directory.{directory};
ghost use Rattle.fx_dir.specs.Writing.{IsInForm, IsRanged, name_of, block_of};
ghost use Rattle.fx_dir.specs.Moves.{written, insertion, removal, key, packing_writes};
ghost use Rattle.fx_dir.specs.Pieces.{has_new_marks};

use crate::both::{Both, copied, pack_both};
use crate::moves::{Removal, as_new, insert_writes, inserted, remove_by, remove_from};
use crate::{Move, NoMemory, RawEnt, read_sound};
use base_words::Block;
use std::alloc::Global;

/// The writes by which an entry gets another name.
#[derive(Drop)]
pub struct Renaming {
    /// Those that enter the new name, in their order.
    pub entering: Vec<Move>,
    /// Those that remove the old one from what these leave.
    pub leaving: Removal,
}

/// Whether each entry has the version limit and the flags of a new record.
fn has_new_marks(es: &[RawEnt]) -> bool
    ensures { result ≡ has_new_marks es.now }
{
    es.iter().all(|e| e.limit == 32767 && e.flags == 0)
}

/// The writes that remove an entry from blocks that have the entries `es`, packed. Only where the records of one name may differ in
/// version limit or flags are the blocks read again.
fn leave(
    alloc: Global,
    now: &[Block],
    es: &[RawEnt],
    name: &[u8],
    ver: u16,
) -> Result<Removal, NoMemory>
    requires numbered { length now.now < 2 ^ 32 }
    requires packed { now.now ≡ map block_of (pack name_of (length now.now) es.now) }
    requires fits { over name_of (length now.now) es.now ≡ [] }
    requires order { rises es.now ≡ true }
    requires forms { Each IsInForm es.now }
    requires ranged { Each IsRanged es.now }
    requires there { has es.now (key name.now ver) ≡ true }
    ensures moves { IfOk result (λ r. r.moves.items ≡ removal now.now name.now ver) }
    ensures packing { IfOk result (λ r. r.packing ≡ packing_writes now.now) }
{
    if has_new_marks(es) {
        let whole = copied(alloc, now, now.len())?;
        return remove_by(alloc, now, whole, es, name, ver);
    }
    let read = read_sound(alloc, now)?;
    remove_from(alloc, now, read.as_slice(), name, ver)
}

/// The writes that give the entry of this name and version the name and version of `e`: those of an insertion and behind them
/// those of a removal from what they leave, as [`insert_moves`](crate::insert_moves) and [`remove_moves`](crate::remove_moves)
/// give them. None enters `e` where the entries do not pack with it.
///
/// The blocks `old` are those of a directory without a fault with the entries `es`.
pub fn rename_into(
    alloc: Global,
    old: &[Block],
    es: &[RawEnt],
    name: &[u8],
    ver: u16,
    e: &RawEnt,
) -> Result<Renaming, NoMemory>
    requires numbered { length old.now < 2 ^ 32 }
    requires form { IsInForm e.now }
    requires read { directory old.now ≡ Ok es.now }
    requires forms { Each IsInForm es.now }
    requires new { has es.now e.now ≡ false }
    requires there { has es.now (key name.now ver) ≡ true }
    ensures entering { IfOk result (λ r. r.entering.items ≡ unwrap_or (insertion old.now e.now) []) }
    ensures leaving { IfOk result (λ r. r.leaving.moves.items ≡ removal (written (unwrap_or (insertion old.now e.now) []) old.now) name.now ver) }
    ensures packing { IfOk result (λ r. r.leaving.packing ≡ packing_writes (written (unwrap_or (insertion old.now e.now) []) old.now)) }
{
    let new = as_new(es, e);
    let Both {
        before,
        after,
        lacking,
    } = pack_both(alloc, es, &new, old.len())?;
    if after.left > 0 {
        let leaving = remove_from(alloc, old, es, name, ver)?;
        let entering = Vec::new(alloc);
        return Ok(Renaming { entering, leaving });
    }
    let all = inserted(alloc, es, &new)?;
    let leaving = leave(alloc, after.blocks.as_slice(), all.as_slice(), name, ver)?;
    let entering = insert_writes(alloc, old, before.blocks.as_slice(), after.blocks, &lacking)?;
    Ok(Renaming { entering, leaving })
}
