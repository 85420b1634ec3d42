//! The writes by which an entry comes, goes or is packed, block by block.

ghost use Rattle.std.specs.Prelude.{◌≡◌, ◌<◌, ◌≤◌, ◌^◌, ◌++◌, true, false, option_map, position, IfOk, OnOk, IfSome, IsOk, Ok, map, length};
ghost use Rattle.std.specs.List.{position_or_len};
ghost use Rattle.std.specs.Result.{ForOk};
ghost use Rattle.std.specs.Str.{bytes_eq};
ghost use Rattle.fx_dir.specs.Lists.{Each};
ghost use Rattle.fx_dir.specs.Entries.{before, has};
ghost use Rattle.fx_dir.specs.Directory.{directory};
ghost use Rattle.base_words.specs.Packing.{pack};
ghost use Rattle.fx_dir.specs.Writing.{IsInForm, IsRanged, name_of, block_of};
ghost use Rattle.fx_dir.specs.Moves.{rising, falling, less_last, inserted, as_new, insertion, Inserts, removal, key, Removes, repacking, packing_writes, Packs};
ghost use Rattle.fx_dir.specs.Pieces.{insertion_by, removal_by};

use crate::both::{Both, pack_both};
use crate::packing::{Lacking, lacking_at, pack_into, without};
use crate::{Move, NoMemory, RawEnt, RawName, read_sound};
use base_words::Block;
use std::alloc::Global;

/// Whether two blocks have the same bytes.
fn are_equal(a: &Block, b: &Block) -> bool
    ensures { result ≡ bytes_eq a.now b.now }
{
    a.as_slice() == b.as_slice()
}

/// No fewer than the writes by which an entry comes or goes: two for each block, and one more.
fn most_moves(old: &[Block]) -> usize {
    old.len().saturating_mul(2).saturating_add(1)
}

/// The writes of the blocks that change, first to last.
fn rising(alloc: Global, old: &[Block], new: &[Block]) -> Result<Vec<Move>, NoMemory>
    requires count { length old.now ≡ length new.now }
    requires numbered { length old.now < 2 ^ 32 }
    ensures { IfOk result (λ v. v.items ≡ rising 1 old.now new.now) }
{
    let mut moves = Vec::with_capacity(alloc, most_moves(old))?;
    for i in 0..old.len() {
        if !are_equal(&old[i], &new[i]) {
            moves.push(Move {
                vbn: i as u32 + 1,
                block: new[i],
            })?;
        }
    }
    Ok(moves)
}

/// The same, last to first.
fn falling(alloc: Global, old: &[Block], new: &[Block]) -> Result<Vec<Move>, NoMemory>
    requires count { length old.now ≡ length new.now }
    requires numbered { length old.now < 2 ^ 32 }
    ensures { IfOk result (λ v. v.items ≡ falling 1 old.now new.now) }
{
    let mut moves = Vec::with_capacity(alloc, old.len())?;
    let mut i = old.len();
    while i > 0 {
        i -= 1;
        if !are_equal(&old[i], &new[i]) {
            moves.push(Move {
                vbn: i as u32 + 1,
                block: new[i],
            })?;
        }
    }
    Ok(moves)
}

/// Takes the last write away where it is to the block of this VBN.
fn drop_last(moves: &mut Vec<Move>, vbn: u32)
    ensures { moves.new.items ≡ less_last vbn moves.old.items }
{
    if let Some(last) = moves.pop() {
        if last.vbn != vbn {
            moves.push_reserved(last);
        }
    }
}

/// The version limit and the flags of the first record of the name of `e`, and else those of a new record.
fn marks_of(es: &[RawEnt], e: &RawEnt) -> (u16, u8)
    ensures limit { result.0 ≡ (as_new es.now e.now).limit }
    ensures flags { result.1 ≡ (as_new es.now e.now).flags }
{
    for x in es {
        if x.name.is_same(&e.name) {
            return (x.limit, x.flags);
        }
    }
    (32767, 0)
}

/// The entry with the version limit and the flags of its name.
pub(crate) fn as_new(es: &[RawEnt], e: &RawEnt) -> RawEnt
    ensures { result ≡ as_new es.now e.now }
{
    let (limit, flags) = marks_of(es, e);
    RawEnt {
        name: e.name,
        ver: e.ver,
        num: e.num,
        seq: e.seq,
        limit,
        flags,
    }
}

fn first_behind(es: &[RawEnt], e: &RawEnt) -> Option<usize>
    ensures { result ≡ position (λ x. before e.now x) es.now }
{
    es.iter().position(|x| e.is_before(x))
}

/// How many of the entries stand in front of the place of this one.
pub(crate) fn spot_of(es: &[RawEnt], e: &RawEnt) -> usize
    ensures spot { result ≡ position_or_len (λ x. before e.now x) es.now }
    ensures bound { result ≤ length es.now }
{
    first_behind(es, e).unwrap_or(es.len())
}

/// Appends the entries.
fn push_all(list: &mut Vec<RawEnt>, es: &[RawEnt]) -> Result<(), NoMemory>
    ensures { OnOk result (list.new.items ≡ list.old.items ++ es.now) }
{
    for e in es {
        list.push(*e)?;
    }
    Ok(())
}

/// The entries with one more in its place.
pub(crate) fn inserted(alloc: Global, es: &[RawEnt], e: &RawEnt) -> Result<Vec<RawEnt>, NoMemory>
    ensures { IfOk result (λ v. v.items ≡ inserted e.now es.now) }
{
    let (front, back) = es.split_at(spot_of(es, e));
    let mut list = Vec::with_capacity(alloc, es.len().saturating_add(1))?;
    push_all(&mut list, front)?;
    list.push(*e)?;
    push_all(&mut list, back)?;
    Ok(list)
}

/// The writes of an insertion that leads from the packing `left` of the old entries to the packing `new`, of which one block
/// has the new entry.
pub(crate) fn insert_writes(
    alloc: Global,
    old: &[Block],
    left: &[Block],
    mut new: Vec<Block>,
    lacking: &Lacking,
) -> Result<Vec<Move>, NoMemory>
    requires numbered { length old.now < 2 ^ 32 }
    requires left { length left.now ≡ length old.now }
    requires new { length new.items ≡ length old.now }
    requires there { lacking.now.at < length new.items }
    ensures { IfOk result (λ v. v.items ≡ insertion_by old.now left.now new.items lacking.now.at lacking.now.block) }
{
    let at = lacking.at;
    let vbn = at as u32 + 1;
    let block = new[at];
    new[at] = lacking.block;
    let mut moves = rising(alloc, old, left)?;
    let mut back = falling(alloc, left, new.as_slice())?;
    drop_last(&mut back, vbn);
    moves.append(&mut back)?;
    moves.push(Move { vbn, block })?;
    Ok(moves)
}

/// What [`insert_moves`] gives, where the entries of the directory are read already.
pub fn insert_into(
    alloc: Global,
    old: &[Block],
    es: &[RawEnt],
    e: &RawEnt,
) -> Result<Option<Vec<Move>>, NoMemory>
    requires numbered { length old.now < 2 ^ 32 }
    requires form { IsInForm e.now }
    requires read { directory old.now ≡ Ok es.now }
    requires forms { Each IsInForm es.now }
    requires new { has es.now e.now ≡ false }
    ensures moves { IfOk result (λ o. option_map (λ v. v.items) o ≡ insertion old.now e.now) }
    ensures law { IfOk result (λ o. IfSome o (λ v. Inserts old.now e.now v.items)) }
{
    let new = as_new(es, e);
    let Both {
        before,
        after,
        lacking,
    } = pack_both(alloc, es, &new, old.len())?;
    if after.left > 0 {
        return Ok(None);
    }
    Ok(Some(insert_writes(alloc, old, before.blocks.as_slice(), after.blocks, &lacking)?))
}

/// The writes that enter an entry into a directory, in their order, or none where the entries do not pack with it.
///
/// The blocks `old` are those of a directory without a fault that has no entry of this name and version. Before the last
/// write the directory has its old entries, after it the new one as well, and each write changes its block. The version
/// limit and the flags of the new entry are those of the first record of its name, and else 32,767 and 0; those in `e`
/// are not looked at.
pub fn insert_moves(alloc: Global, old: &[Block], e: &RawEnt) -> Result<Option<Vec<Move>>, NoMemory>
    requires numbered { length old.now < 2 ^ 32 }
    requires form { IsInForm e.now }
    requires read { IsOk (directory old.now) }
    requires new { ForOk (directory old.now) (λ es. has es e.now ≡ false) }
    ensures moves { IfOk result (λ o. option_map (λ v. v.items) o ≡ insertion old.now e.now) }
    ensures law { IfOk result (λ o. IfSome o (λ v. Inserts old.now e.now v.items)) }
{
    let es = read_sound(alloc, old)?;
    insert_into(alloc, old, es.as_slice(), e)
}

/// The writes that pack the entries of a directory into its blocks, in their order.
///
/// The blocks `old` are those of a directory without a fault. It has the same entries after each number of the writes,
/// and after all of them none that stands in two blocks; each write changes its block. There is none where the entries
/// are packed.
pub fn pack_moves(alloc: Global, old: &[Block]) -> Result<Vec<Move>, NoMemory>
    requires numbered { length old.now < 2 ^ 32 }
    requires read { IsOk (directory old.now) }
    ensures moves { IfOk result (λ v. v.items ≡ repacking old.now) }
    ensures law { IfOk result (λ v. Packs old.now v.items) }
{
    let es = read_sound(alloc, old)?;
    let packing = pack_into(alloc, es.as_slice(), old.len())?;
    rising(alloc, old, packing.blocks.as_slice())
}

/// The writes of a removal, and how many of them pack the entries, in front of the one that takes the entry out.
#[derive(Drop)]
pub struct Removal {
    /// The writes, in their order.
    pub moves: Vec<Move>,
    /// As many as [`pack_moves`] gives.
    pub packing: usize,
}

/// The writes of a removal that leads from the packing `left` of all entries to the packing `rest`.
fn remove_writes(
    alloc: Global,
    old: &[Block],
    mut left: Vec<Block>,
    lacking: &Lacking,
    rest: &[Block],
) -> Result<Removal, NoMemory>
    requires numbered { length old.now < 2 ^ 32 }
    requires left { length left.items ≡ length old.now }
    requires rest { length rest.now ≡ length old.now }
    requires there { lacking.now.at < length left.items }
    ensures moves { IfOk result (λ r. r.moves.items ≡ removal_by old.now left.items lacking.now.at lacking.now.block rest.now) }
    ensures packing { IfOk result (λ r. r.packing ≡ length (rising 1 old.now left.items)) }
{
    let mut moves = rising(alloc, old, left.as_slice())?;
    let packing = moves.as_slice().len();
    left[lacking.at] = lacking.block;
    moves.push(Move {
        vbn: lacking.at as u32 + 1,
        block: lacking.block,
    })?;
    let mut more = rising(alloc, left.as_slice(), rest)?;
    moves.append(&mut more)?;
    Ok(Removal { moves, packing })
}

/// What [`remove_from`] gives, where `whole` is the packing of the entries.
pub(crate) fn remove_by(
    alloc: Global,
    old: &[Block],
    whole: Vec<Block>,
    es: &[RawEnt],
    name: &[u8],
    ver: u16,
) -> Result<Removal, NoMemory>
    requires numbered { length old.now < 2 ^ 32 }
    requires read { directory old.now ≡ Ok es.now }
    requires forms { Each IsInForm es.now }
    requires whole { whole.items ≡ map block_of (pack name_of (length old.now) es.now) }
    requires ranged { Each (λ g. Each IsRanged g) (pack name_of (length old.now) es.now) }
    requires there { has es.now (key name.now ver) ≡ true }
    ensures moves { IfOk result (λ r. r.moves.items ≡ removal old.now name.now ver) }
    ensures packing { IfOk result (λ r. r.packing ≡ packing_writes old.now) }
    ensures law { IfOk result (λ r. Removes old.now (key name.now ver) r.moves.items) }
{
    let e = RawEnt {
        name: RawName::new(name),
        ver,
        num: 0,
        seq: 0,
        limit: 0,
        flags: 0,
    };
    let rest = without(alloc, es, &e)?;
    let after = pack_into(alloc, rest.as_slice(), old.len())?;
    let lacking = lacking_at(alloc, es, old.len(), &e)?;
    remove_writes(alloc, old, whole, &lacking, after.blocks.as_slice())
}

/// What [`remove_moves`] gives, where the entries of the directory are read already.
pub fn remove_from(
    alloc: Global,
    old: &[Block],
    es: &[RawEnt],
    name: &[u8],
    ver: u16,
) -> Result<Removal, NoMemory>
    requires numbered { length old.now < 2 ^ 32 }
    requires read { directory old.now ≡ Ok es.now }
    requires forms { Each IsInForm es.now }
    requires there { has es.now (key name.now ver) ≡ true }
    ensures moves { IfOk result (λ r. r.moves.items ≡ removal old.now name.now ver) }
    ensures packing { IfOk result (λ r. r.packing ≡ packing_writes old.now) }
    ensures law { IfOk result (λ r. Removes old.now (key name.now ver) r.moves.items) }
{
    let whole = pack_into(alloc, es, old.len())?;
    remove_by(alloc, old, whole.blocks, es, name, ver)
}

/// The writes that take the entry of this name and version out of a directory, in their order.
///
/// The blocks `old` are those of a directory without a fault that has this entry. Up to one write the directory has its
/// old entries, and from that one on the others; each write changes its block.
pub fn remove_moves(
    alloc: Global,
    old: &[Block],
    name: &[u8],
    ver: u16,
) -> Result<Vec<Move>, NoMemory>
    requires numbered { length old.now < 2 ^ 32 }
    requires read { IsOk (directory old.now) }
    requires there { ForOk (directory old.now) (λ es. has es (key name.now ver) ≡ true) }
    ensures moves { IfOk result (λ v. v.items ≡ removal old.now name.now ver) }
    ensures law { IfOk result (λ v. Removes old.now (key name.now ver) v.items) }
{
    let es = read_sound(alloc, old)?;
    Ok(remove_from(alloc, old, es.as_slice(), name, ver)?.moves)
}
