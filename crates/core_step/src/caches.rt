//! A node's cached blocks: which are current, and what a look and a write make of them.

ghost use Rattle.std.specs.Prelude.{◌≡◌, is_some, option_copied, Some, OnOk, OnErr, if◌then◌else◌};
ghost use Rattle.base_words.specs.Fields.{Block};
ghost use Rattle.vol_parts.specs.Parts.{IsGeometry};
ghost use Rattle.lock_db.specs.Tables.{resource_at};
ghost use Rattle.op_law.specs.declared.need.PlanWrite.{PlanWrite};
ghost use Rattle.node_locks.specs.Sequences.{first_sequence, second_sequence};
ghost use Rattle.core_state.specs.Raises.{is_first_part};
ghost use Rattle.core_state.specs.Caches.{next_sequence, writes_at, kept_sequence, kept_with, least_sequence, rewritten};
ghost use Rattle.core_state.specs.Events.{cached_block};
ghost use Rattle.core_step.specs.Cached.{part_now, entry_in};

use crate::raises::is_first_part;
use base_words::Block;
use lock_db::{LockDb, LockName, Mode, Owner};
use node_cache::NodeCache;
use node_locks::{first_sequence, second_sequence};
use op_law::NoMemory;
use std::alloc::Global;
use vol_parts::Geometry;

/// The part of a lock's value block to which a block belongs, as it is now.
#[derive(Clone, Copy)]
pub(crate) struct PartNow {
    /// Its sequence.
    pub(crate) seq: u64,
    /// Whether the value block is valid.
    pub(crate) valid: bool,
}

// The sequence of the part to which a block belongs, in this value block.
fn part_sequence(g: &Geometry, name: LockName, lbn: u32, value: &[u8; 16]) -> u64
    requires { IsGeometry g.now }
    ensures { result ≡ (if is_first_part g.now name lbn then first_sequence value.now else second_sequence value.now) }
{
    if is_first_part(g, name, lbn) {
        first_sequence(value)
    } else {
        second_sequence(value)
    }
}

/// The part to which a block belongs that a lock guards.
pub(crate) fn part_now(g: &Geometry, locks: &LockDb, name: LockName, lbn: u32) -> PartNow
    requires { IsGeometry g.now }
    ensures { result ≡ part_now g.now locks.now name lbn }
{
    let (value, valid) = locks.value(name);
    PartNow {
        seq: part_sequence(g, name, lbn, &value),
        valid,
    }
}

// One higher.
fn next_sequence(seq: u64) -> u64
    ensures { result ≡ next_sequence seq }
{
    seq.saturating_add(1)
}

/// The bytes of the entry of a block that is current by this part.
pub(crate) fn current_block(
    part: PartNow,
    cache: &NodeCache,
    name: LockName,
    lbn: u32,
) -> Option<&Block>
    ensures some { is_some result ≡ is_some (entry_in part name lbn cache.now) }
    ensures block { (b : Block) → option_copied result ≡ Some b → b ≡ cached_block (entry_in part name lbn cache.now) }
{
    if !part.valid {
        return None;
    }
    cache.peek(lbn, name, part.seq)
}

// Whether the file system of a node holds a lock in PW.
fn writes_at(locks: &LockDb, node: u8, name: LockName) -> bool
    ensures { result ≡ writes_at node (resource_at name locks.now) }
{
    matches!(locks.mode(name, Owner { node, part: 0 }), Some(Mode::PW))
}

/// With which sequence a block of this part is kept that is read under a lock, if it is.
pub(crate) fn kept_sequence(part: PartNow, locks: &LockDb, node: u8, name: LockName) -> Option<u64>
    ensures { result ≡ kept_sequence part.valid (writes_at node (resource_at name locks.now)) part.seq }
{
    if part.valid {
        Some(part.seq)
    } else if writes_at(locks, node, name) {
        Some(next_sequence(part.seq))
    } else {
        None
    }
}

/// A block that was read is kept, if it is to be, with this sequence. Where memory is refused, nothing changes.
pub(crate) fn keep(
    alloc: Global,
    cache: &mut NodeCache,
    seq: Option<u64>,
    lbn: u32,
    name: LockName,
    block: &Block,
) -> Result<(), NoMemory>
    ensures ok { OnOk result (cache.new ≡ kept_with seq lbn name block.now cache.old) }
    ensures err { OnErr result (cache.new ≡ cache.old) }
{
    if let Some(seq) = seq {
        cache.keep(alloc, lbn, name, seq, block)?;
    }
    Ok(())
}

// The sequence with which a holder in PW keeps a block now.
fn least_sequence(valid: bool, seq: u64) -> u64
    ensures { result ≡ least_sequence valid seq }
{
    if valid { seq } else { next_sequence(seq) }
}

/// A write of a block under a lock makes the entry anew that the node has of it, unless that is an older one. It takes no memory.
pub(crate) fn rewrite(
    g: &Geometry,
    locks: &LockDb,
    cache: &mut NodeCache,
    name: LockName,
    lbn: u32,
    block: &Block,
)
    requires { IsGeometry g.now }
    ensures { (w : PlanWrite) → w.lock ≡ name → w.lbn ≡ lbn → w.block ≡ block.now → cache.new ≡ rewritten g.now locks.now w cache.old }
{
    let part = part_now(g, locks, name, lbn);
    let least = least_sequence(part.valid, part.seq);
    if cache.holds_since(lbn, name, least) {
        cache.replace(lbn, name, next_sequence(part.seq), block);
    }
}
