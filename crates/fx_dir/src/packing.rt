//! Packing: each entry goes into the current block if it has room there, and else into the next.

ghost use Rattle.std.specs.Prelude.{◌≡◌, ◌<◌, ◌≤◌, ◌+◌, ◌++◌, true, None, option_map, Ok, map, IfOk, IfSome, length, take, drop, slice_index_or, []};
ghost use Rattle.base_words.specs.Packing.{cost, filled, unfilled, pack, over};
ghost use Rattle.fx_dir.specs.Lists.{Each};
ghost use Rattle.fx_dir.specs.Entries.{rises, plain, without};
ghost use Rattle.fx_dir.specs.Directory.{directory, dir_entries};
ghost use Rattle.fx_dir.specs.Writing.{IsInForm, IsRanged, IsUniform, name_of, last_name, block_of, packed};
ghost use Rattle.fx_dir.specs.Moves.{place};

use crate::entries::has;
use crate::writing::block_of;
use crate::{NoMemory, RawEnt};
use base_words::Block;
use std::alloc::Global;

/// The bytes of an entry behind those that are in a block already.
#[tactic(auto, unfolding(base_words::specs::Packing::cost))]
fn cost_of(block: &[RawEnt], e: &RawEnt) -> usize
    requires { length e.now.name < 256 }
    ensures value { result ≡ cost (last_name block.now) e.now.name }
    ensures bound { result < 300 }
{
    if let Some(last) = block.get(block.len().saturating_sub(1)) {
        if last.name.is_same(&e.name) {
            return 8;
        }
    }
    let name = e.name.bytes();
    14 + (name.len() + name.len() % 2)
}

/// How many of the entries go into one block.
pub(crate) fn fill(es: &[RawEnt]) -> usize
    requires { Each IsInForm es.now }
    ensures group { take result es.now ≡ filled name_of None 0 es.now }
    ensures rest { drop result es.now ≡ unfilled name_of None 0 es.now }
    ensures ranged { Each IsRanged (take result es.now) }
    ensures bound { result ≤ length es.now }
{
    let mut used = 0usize;
    let mut n = 0usize;
    while n < es.len() {
        let e = &es[n];
        let more = cost_of(es.split_at(n).0, e);
        if used + more > 510 {
            return n;
        }
        e.know_ranges();
        used += more;
        n += 1;
    }
    n
}

/// Blocks of packed entries, and the number of the entries that had no room.
#[derive(Drop)]
pub(crate) struct Packing {
    pub(crate) blocks: Vec<Block>,
    pub(crate) left: usize,
}

/// The first `count` blocks of the packing.
pub(crate) fn pack_into(alloc: Global, es: &[RawEnt], count: usize) -> Result<Packing, NoMemory>
    requires { Each IsInForm es.now }
    ensures blocks { IfOk result (λ r. r.blocks.items ≡ map block_of (pack name_of count es.now)) }
    ensures ranged { IfOk result (λ _. Each (λ g. Each IsRanged g) (pack name_of count es.now)) }
    ensures left { IfOk result (λ r. r.left ≡ length (over name_of count es.now)) }
{
    pack_onto(Vec::with_capacity(alloc, count)?, es, count)
}

/// These blocks, and behind them the first `count` of the packing.
pub(crate) fn pack_onto(
    mut blocks: Vec<Block>,
    es: &[RawEnt],
    count: usize,
) -> Result<Packing, NoMemory>
    requires { Each IsInForm es.now }
    ensures blocks { IfOk result (λ r. r.blocks.items ≡ blocks.items ++ map block_of (pack name_of count es.now)) }
    ensures ranged { IfOk result (λ _. Each (λ g. Each IsRanged g) (pack name_of count es.now)) }
    ensures left { IfOk result (λ r. r.left ≡ length (over name_of count es.now)) }
{
    let mut rest = es;
    for i in 0..count {
        let (group, more) = rest.split_at(fill(rest));
        blocks.push(block_of(group))?;
        rest = more;
    }
    Ok(Packing {
        blocks,
        left: rest.len(),
    })
}

/// The entries of another name or version.
pub(crate) fn without(alloc: Global, es: &[RawEnt], e: &RawEnt) -> Result<Vec<RawEnt>, NoMemory>
    ensures { IfOk result (λ v. v.items ≡ without e.now es.now) }
{
    let mut list = Vec::with_capacity(alloc, es.len())?;
    for x in es {
        if !e.is_same(x) {
            list.push(*x)?;
        }
    }
    Ok(list)
}

/// How many blocks of a packing stand in front of the one that has an entry, and this one without the entry.
#[derive(Drop)]
pub(crate) struct Lacking {
    pub(crate) at: usize,
    pub(crate) block: Block,
}

/// Where the entry of this name and version stands in the packing. Behind all, if nowhere.
pub(crate) fn lacking_at(
    alloc: Global,
    es: &[RawEnt],
    count: usize,
    e: &RawEnt,
) -> Result<Lacking, NoMemory>
    requires { Each IsInForm es.now }
    ensures at { IfOk result (λ r. r.at ≡ place e.now (pack name_of count es.now)) }
    ensures block { IfOk result (λ r. r.block ≡ block_of (without e.now (slice_index_or (pack name_of count es.now) (place e.now (pack name_of count es.now)) []))) }
{
    let mut rest = es;
    for i in 0..count {
        let (group, more) = rest.split_at(fill(rest));
        if has(group, e) {
            let others = without(alloc, group, e)?;
            return Ok(Lacking {
                at: i,
                block: block_of(others.as_slice()),
            });
        }
        rest = more;
    }
    Ok(Lacking {
        at: count,
        block: block_of(&[]),
    })
}

/// The blocks of a directory of `k` blocks with these entries, or none where they need more.
///
/// Each entry goes, in order, into the current block where it has room, and else into the next; behind the last entry
/// the blocks are empty. A record takes the version limit and the flags of its first entry.
pub fn packed(alloc: Global, ents: &[RawEnt], k: u32) -> Result<Option<Vec<Block>>, NoMemory>
    requires order { rises ents.now ≡ true }
    requires form { Each IsInForm ents.now }
    ensures packing { IfOk result (λ o. option_map (λ v. v.items) o ≡ packed k ents.now) }
    ensures read { IfOk result (λ o. IfSome o (λ v. dir_entries v.items ≡ Ok (map plain ents.now))) }
    ensures kept { IfOk result (λ o. IfSome o (λ v. IsUniform ents.now → directory v.items ≡ Ok ents.now)) }
    ensures count { IfOk result (λ o. IfSome o (λ v. length v.items ≡ k)) }
{
    let packing = pack_into(alloc, ents, k as usize)?;
    if packing.left > 0 {
        return Ok(None);
    }
    Ok(Some(packing.blocks))
}
