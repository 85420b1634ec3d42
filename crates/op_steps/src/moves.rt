//! The writes that enter an entry into a directory, and those that remove one.

ghost use Rattle.std.specs.Prelude.{◌≡◌, ◌++◌, true, false, IfOk, OnOk, OnErr};
ghost use Rattle.std.specs.Result.{ForOk};
ghost use Rattle.base_words.specs.Lists.{HoldsPart};
ghost use Rattle.fx_dir.specs.Writing.{IsInForm};
ghost use Rattle.fx_dir.specs.Entries.{has};
ghost use Rattle.fx_dir.specs.Directory.{directory};
ghost use Rattle.fx_dir.specs.Moves.{key};
ghost use Rattle.plain_rules.specs.Lookups.{versions};
ghost use Rattle.plain_rules.specs.Directories.{is_taken};
ghost use Rattle.op_law.specs.Behind.{blocks_alone};
ghost use Rattle.op_law.specs.Readable.{IsRead};
ghost use Rattle.op_law.specs.Moving.{entries_of, move_write, moves_at, insertion_moves, insertion_writes, removal_writes};
ghost use Rattle.vol_spell.specs.Entries.{raw_entry};
ghost use Rattle.op_steps.specs.Names.{dir_seen, IsReadable};

use crate::names::DirSeen;
use fx_dir::{Move, RawEnt, RawName, insert_into, read_sound, remove_from};
use lock_db::LockName;
use op_law::{NoMemory, Numbers, PlanWrite, Writes, blocks_of, place_in};
use plain_cat::{Clusters, DirEnt, Stage};
use std::alloc::Global;

// Room for the writes that come behind those of moves, as where a file goes.
const FEW: usize = 8;

/// An entry as a directory's blocks have it.
pub fn raw_entry(e: &DirEnt) -> RawEnt
    requires { IsInForm (raw_entry e.now) }
    ensures { result ≡ raw_entry e.now }
{
    RawEnt {
        name: RawName::new(e.name.items()),
        ver: e.ver,
        num: e.fid.num,
        seq: e.fid.seq,
        limit: 32767,
        flags: 0,
    }
}

// The moves that enter an entry: none where the blocks have no room for it. An error says that memory ran out.
fn insertion_moves(alloc: Global, d: &DirSeen<'_>, e: &DirEnt) -> Result<Vec<Move>, NoMemory>
    requires readable { IsReadable d.now }
    requires read { IsRead d.now.blocks.now }
    requires form { IsInForm (raw_entry e.now) }
    requires new { is_taken e.now.ver (versions e.now.name (entries_of (dir_seen d.now))) ≡ false }
    ensures { IfOk result (λ ms. ms.items ≡ insertion_moves (dir_seen d.now) e.now) }
{
    let blocks = blocks_of(alloc, d.blocks)?;
    let es = read_sound(alloc, blocks.items())?;
    match insert_into(alloc, blocks.items(), es.as_slice(), &raw_entry(e))? {
        Some(moves) => Ok(moves),
        None => Ok(Vec::new(alloc)),
    }
}

// The write of a move.
fn move_write(alloc: Global, d: &DirSeen<'_>, m: &Move, stage: Stage) -> PlanWrite
    requires { IsReadable d.now }
    ensures { result ≡ move_write (dir_seen d.now) stage m.now }
{
    let at = m.vbn.saturating_sub(1) as usize;
    let clusters = Clusters::new(alloc);
    let numbers = Numbers::new(alloc);
    PlanWrite {
        lock: LockName::S(d.fid.num),
        lbn: place_in(d.head, at).unwrap_or(0),
        block: m.block,
        stage,
        clusters,
        numbers,
        number: None,
    }
}

/// Adds the writes of moves in a directory, of which so many leave the stage `before`, and those behind them `after`. If
/// memory runs out, the writes that were there are followed by a beginning of those to be added.
pub fn push_moves(
    alloc: Global,
    writes: &mut Writes,
    d: &DirSeen<'_>,
    moves: &[Move],
    first: usize,
    before: Stage,
    after: Stage,
) -> Result<(), NoMemory>
    requires { IsReadable d.now }
    ensures ok { OnOk result (writes.new ≡ writes.old ++ moves_at (dir_seen d.now) before after first moves.now) }
    ensures err { OnErr result (HoldsPart writes.old (moves_at (dir_seen d.now) before after first moves.now) writes.new) }
{
    writes.make_room(moves.len().saturating_add(FEW))?;
    for (i, m) in moves.iter().enumerate() {
        let stage = if i < first { before } else { after };
        writes.push(move_write(alloc, d, m, stage))?;
    }
    Ok(())
}

/// Adds the writes that enter an entry, of which the last leaves the stage `after`, and those in front of it `before`. If
/// memory runs out, the writes that were there are followed by a beginning of those to be added.
#[tactic(auto, unfolding(op_law::specs::Moving::insertion_writes))]
pub fn push_insertion(
    alloc: Global,
    writes: &mut Writes,
    d: &DirSeen<'_>,
    e: &DirEnt,
    before: Stage,
    after: Stage,
) -> Result<(), NoMemory>
    requires readable { IsReadable d.now }
    requires read { IsRead d.now.blocks.now }
    requires form { IsInForm (raw_entry e.now) }
    requires new { is_taken e.now.ver (versions e.now.name (entries_of (dir_seen d.now))) ≡ false }
    ensures ok { OnOk result (writes.new ≡ writes.old ++ insertion_writes (dir_seen d.now) e.now before after) }
    ensures err { OnErr result (HoldsPart writes.old (insertion_writes (dir_seen d.now) e.now before after) writes.new) }
{
    let moves = insertion_moves(alloc, d, e)?;
    let last = moves.len().saturating_sub(1);
    push_moves(alloc, writes, d, moves.as_slice(), last, before, after)
}

/// Adds the writes that remove an entry from a directory as it was seen. Those that pack its entries leave the stage `before`, and
/// the others `after`. If memory runs out, the writes that were there are followed by a beginning of those to be added.
#[tactic(auto, unfolding(op_law::specs::Moving::removal_writes))]
pub fn push_removal(
    alloc: Global,
    writes: &mut Writes,
    d: &DirSeen<'_>,
    e: &DirEnt,
    before: Stage,
    after: Stage,
) -> Result<(), NoMemory>
    requires readable { IsReadable d.now }
    requires read { IsRead d.now.blocks.now }
    requires there { ForOk (directory (blocks_alone d.now.blocks.now)) (λ es. has es (key e.now.name e.now.ver) ≡ true) }
    ensures ok { OnOk result (writes.new ≡ writes.old ++ removal_writes (dir_seen d.now) e.now before after) }
    ensures err { OnErr result (HoldsPart writes.old (removal_writes (dir_seen d.now) e.now before after) writes.new) }
{
    let blocks = blocks_of(alloc, d.blocks)?;
    let es = read_sound(alloc, blocks.items())?;
    let removal = remove_from(alloc, blocks.items(), es.as_slice(), e.name.items(), e.ver)?;
    push_moves(
        alloc,
        writes,
        d,
        removal.moves.as_slice(),
        removal.packing,
        before,
        after,
    )
}
