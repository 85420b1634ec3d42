//! The looks and writes of bitmaps by the rules for space.

ghost use Rattle.std.specs.Prelude.{ℕ, ◌≡◌, ◌==◌, ◌≤◌, ◌⊎◌, ◌<◌, ◌+◌, [], not, filter, if◌then◌else◌, Some, IfOk, OnOk, OnErr, IsSome, length, slice_get, slice_set};
ghost use Rattle.base_words.specs.Faults.{HasCause};
ghost use Rattle.blk_drive.specs.Images.{told_set};
ghost use Rattle.vol_parts.specs.declared.geometry.Part.TheVariants.{IndexBitmap};
ghost use Rattle.vol_parts.specs.Parts.{IsGeometry};
ghost use Rattle.vol_spell.specs.Places.{place_of};
ghost use Rattle.op_law.specs.declared.need.PlanWrite.{PlanWrite};
ghost use Rattle.core_space.specs.Rule.{space_decision};
ghost use Rattle.core_state.specs.Worlds.{NodeState, IsOfWorld, state_of, plain_of, node_at};
ghost use Rattle.core_state.specs.Event as event;
ghost use Rattle.lock_db.specs.declared.name.LockName.TheVariants.{V};
ghost use Rattle.node_cache.specs.Cached.{found, used};
ghost use Rattle.lock_db.specs.Tables.{resource_at};
ghost use Rattle.core_state.specs.Caches.{kept_with, kept_sequence, writes_at, sequence_now};
ghost use Rattle.core_state.specs.Events.{happen, turned, caching, told_by, ready_of, space_decided, space_looking, space_using, space_writing};
ghost use Rattle.core_state.specs.Asks.{has_asked};
ghost use Rattle.core_state.specs.Stocks.{has_bit_at};
ghost use Rattle.core_step.specs.Spaces.{IsBitmapPlace, CanTake, taking, next_write};
ghost use Rattle.core_step.specs.Using.{IsCurrent};

use crate::caches::{keep, rewrite};
use crate::events::{count, count_hit, count_read};
use crate::raises::is_same;
use base_words::Block;
use blk_drive::{ImageDev, ImageFault};
use core_space::{Decision, Phase, SpaceNeed, space_writes};
use core_state::{Core, Node};
use extent_cache::Extents;
use lock_db::LockName;
use op_law::{NoMemory, Operation, PlanWrite};
use plain_cat::{Clusters, Mode, Refusal};
use std::alloc::Global;
use std::mem;
use vol_parts::Geometry;

/// Whether a lock of this name is among these.
pub(crate) fn has_asked(locks: &[(LockName, Mode)], name: LockName) -> bool
    ensures { result ≡ has_asked name locks.now }
{
    for (other, _) in locks {
        if is_same(*other, name) {
            return true;
        }
    }
    false
}

// The clusters that the last of these writes gives to the command.
fn ready_of(alloc: Global, phase: Phase, writes: &[PlanWrite]) -> Result<Clusters, NoMemory>
    ensures { IfOk result (λ l. l ≡ ready_of phase writes.now) }
{
    match (phase, writes.last()) {
        (Phase::Last, Some(write)) => write.clusters.copy(alloc),
        _ => Ok(Clusters::new(alloc)),
    }
}

// A need that was refused is told to the command.
fn tell<O: Operation>(alloc: Global, node: &mut Node<O>, short: Option<Refusal>)
    ensures { state_of O.cmd_is node.new ≡ record (state_of O.cmd_is node.old) { seen = told_by short node.old.seen } }
{
    if let Some(why) = short {
        node.seen.clusters = Clusters::new(alloc);
        node.seen.number = None;
        node.seen.short = Some(why);
    }
}

// What the rules for space have come to is taken over.
fn take_over<O: Operation>(alloc: Global, node: &mut Node<O>, decision: Decision, ready: Clusters)
    requires { ready ≡ ready_of decision.phase decision.writes }
    ensures { state_of O.cmd_is node.new ≡ space_decided (state_of O.cmd_is node.old) node.old.run.looked decision }
{
    let Decision {
        phase,
        writes,
        short,
    } = decision;
    node.run.phase = phase;
    node.run.writes = writes;
    node.run.made = 0;
    node.run.ready = ready;
    tell(alloc, node, short);
}

// What the rules for space come to by what is looked at, and the clusters of the last of its writes.
fn decide<O: Operation>(
    alloc: Global,
    node: &Node<O>,
    need: SpaceNeed,
) -> Result<(Decision, Clusters), NoMemory>
    requires geometry { IsGeometry node.now.seen.geometry }
    requires need { need.clusters ≤ 65536 }
    ensures decision { IfOk result (λ d. d.0 ≡ space_decision node.now.seen.geometry node.now.run node.now.stock need) }
    ensures ready { IfOk result (λ d. d.1 ≡ ready_of d.0.phase d.0.writes) }
{
    let decision = space_writes(alloc, &node.seen.geometry, &node.run, &node.stock, need)?;
    let ready = ready_of(alloc, decision.phase, decision.writes.items())?;
    Ok((decision, ready))
}

// What the rules for space come to by what is looked at, and the cache keeps the last block of it with this sequence, or not. Where memory
// is refused, the cache is as it was.
fn decide_and_keep<O: Operation>(
    alloc: Global,
    node: &mut Node<O>,
    need: SpaceNeed,
    seq: Option<u64>,
    lbn: u32,
    block: &Block,
) -> Result<(Decision, Clusters), NoMemory>
    requires geometry { IsGeometry node.old.seen.geometry }
    requires need { need.clusters ≤ 65536 }
    ensures ok { OnOk result (state_of O.cmd_is node.new ≡ caching (kept_with seq lbn V block.now node.old.cache) (state_of O.cmd_is node.old)) }
    ensures err { OnErr result (state_of O.cmd_is node.new ≡ state_of O.cmd_is node.old) }
    ensures decision { IfOk result (λ d. d.0 ≡ space_decision node.old.seen.geometry node.old.run node.old.stock need) }
    ensures ready { IfOk result (λ d. d.1 ≡ ready_of d.0.phase d.0.writes) }
{
    let decided = decide(alloc, node, need)?;
    keep(alloc, &mut node.cache, seq, lbn, LockName::V, block)?;
    Ok(decided)
}

// A node looks at one bitmap block more by its rules for space, which its cache keeps with this sequence, or not, and what they then come
// to is taken over. An error says that memory ran out, and nothing was looked at.
fn look_on<O: Operation>(
    alloc: Global,
    node: &mut Node<O>,
    need: SpaceNeed,
    seq: Option<u64>,
    lbn: u32,
    block: &Block,
) -> Result<(), NoMemory>
    requires geometry { IsGeometry node.old.seen.geometry }
    requires need { need.clusters ≤ 65536 }
    ensures ok { OnOk result (state_of O.cmd_is node.new ≡ turned (caching (kept_with seq lbn V block.now node.old.cache) (space_looking (state_of O.cmd_is node.old) need.clusters need.number lbn block.now))) }
    ensures err { OnErr result (state_of O.cmd_is node.new ≡ state_of O.cmd_is node.old) }
{
    node.run.looked.push((lbn, *block))?;
    match decide_and_keep(alloc, node, need, seq, lbn, block) {
        Ok((decision, ready)) => {
            take_over(alloc, node, decision, ready);
            count_read(node);
            Ok(())
        }
        Err(fault) => {
            let _block = node.run.looked.pop();
            Err(fault)
        }
    }
}

// The same with a cached block that is current.
fn use_on<O: Operation>(
    alloc: Global,
    node: &mut Node<O>,
    need: SpaceNeed,
    lbn: u32,
    block: &Block,
) -> Result<(), NoMemory>
    requires geometry { IsGeometry node.old.seen.geometry }
    requires need { need.clusters ≤ 65536 }
    ensures ok { OnOk result ((seq : ℕ) → IsSome (found lbn V seq node.old.cache) → state_of O.cmd_is node.new ≡ turned (caching (used lbn V seq node.old.cache) (space_using (state_of O.cmd_is node.old) need.clusters need.number lbn block.now))) }
    ensures err { OnErr result (state_of O.cmd_is node.new ≡ state_of O.cmd_is node.old) }
{
    node.run.looked.push((lbn, *block))?;
    match decide(alloc, node, need) {
        Ok((decision, ready)) => {
            take_over(alloc, node, decision, ready);
            node.cache.to_front(lbn);
            count_hit(node);
            Ok(())
        }
        Err(fault) => {
            let _block = node.run.looked.pop();
            Err(fault)
        }
    }
}

/// By its rules for space, for this need, a node looks at a bitmap block and reads it from the drive; its cache keeps it with this
/// sequence, or not, and what the rules then come to is taken over. An error says that memory ran out, and nothing was looked at.
pub(crate) fn space_look<I: ImageDev, O: Operation>(
    alloc: Global,
    core: &mut Core<I, O>,
    node: u8,
    need: SpaceNeed,
    lbn: u32,
    seq: Option<u64>,
) -> Result<(), NoMemory>
    requires node { IsOfWorld (plain_of O.cmd_is core.old) node }
    requires geometry { (s : NodeState) → node_at (plain_of O.cmd_is core.old).nodes node ≡ Some s → IsGeometry s.seen.geometry }
    requires need { need.clusters ≤ 65536 }
    requires within { lbn < length core.old.mirror.blocks }
    requires kept { seq ≡ kept_sequence (resource_at V core.old.locks).valid (writes_at node (resource_at V core.old.locks)) (sequence_now core.old.geometry core.old.locks V lbn) }
    ensures world { OnOk result (plain_of O.cmd_is core.new ≡ happen (plain_of O.cmd_is core.old) node (event.SpaceLook need.clusters need.number lbn)) }
    ensures same { OnErr result (plain_of O.cmd_is core.new ≡ plain_of O.cmd_is core.old) }
    ensures mirror { core.new.mirror ≡ core.old.mirror }
    ensures room { core.new.history.room ≡ core.old.history.room }
{
    let block = *core.mirror.read(lbn);
    look_on(
        alloc,
        &mut core.nodes[node as usize - 1],
        need,
        seq,
        lbn,
        &block,
    )
}

/// The same with a bitmap block that the node has cached, and whose entry is current: it has these bytes. An error says that memory ran
/// out, and nothing was used.
pub(crate) fn space_use<I: ImageDev, O: Operation>(
    alloc: Global,
    core: &mut Core<I, O>,
    node: u8,
    need: SpaceNeed,
    lbn: u32,
    block: &Block,
) -> Result<(), NoMemory>
    requires node { IsOfWorld (plain_of O.cmd_is core.old) node }
    requires volume { IsGeometry core.old.geometry }
    requires geometry { (s : NodeState) → node_at (plain_of O.cmd_is core.old).nodes node ≡ Some s → IsGeometry s.seen.geometry }
    requires need { need.clusters ≤ 65536 }
    ensures world { OnOk result (IsCurrent (plain_of O.cmd_is core.old) node V lbn block.now → plain_of O.cmd_is core.new ≡ happen (plain_of O.cmd_is core.old) node (event.SpaceUse need.clusters need.number lbn)) }
    ensures same { OnErr result (plain_of O.cmd_is core.new ≡ plain_of O.cmd_is core.old) }
    ensures mirror { core.new.mirror ≡ core.old.mirror }
    ensures room { core.new.history.room ≡ core.old.history.room }
{
    use_on(alloc, &mut core.nodes[node as usize - 1], need, lbn, block)
}

// What a write of a give-back makes free leaves the stock: all file numbers, or the clusters that have their bits in that block.
fn drop_at(g: &Geometry, lbn: u32, stock: &mut Extents)
    requires geometry { IsGeometry g.now }
    requires place { IsBitmapPlace g.now stock.old.clusters lbn }
    ensures clusters { stock.new.clusters ≡ filter (λ c. not (has_bit_at g.now lbn c)) stock.old.clusters }
    ensures numbers { stock.new.numbers ≡ (if place_of g.now IndexBitmap == lbn then [] else stock.old.numbers) }
{
    if lbn == 4 * g.cluster {
        stock.give_back_one(None);
    } else {
        stock.give_back_one(Some(lbn - g.bitmap_lbn - 1));
    }
}

// What the next write takes or makes free is taken over: with its last write a filling puts all that it has taken into the stock, and a
// search of all free space gives it to the command. The answer is how many writes are made with it.
fn keep_taken<O: Operation>(alloc: Global, node: &mut Node<O>) -> usize
    requires next { node.old.run.made < length node.old.run.writes }
    requires can { (v : PlanWrite) → slice_get node.old.run.writes node.old.run.made ≡ Some v → CanTake (state_of O.cmd_is node.old) v }
    ensures made { result ≡ node.old.run.made + 1 }
    ensures state { (v : PlanWrite) → slice_get node.old.run.writes node.old.run.made ≡ Some v → state_of O.cmd_is node.new ≡ taking (state_of O.cmd_is node.old) v }
{
    let writes = node.run.writes.items();
    let w = &writes[node.run.made];
    let made = node.run.made + 1;
    let last = made == writes.len();
    match node.run.phase {
        Phase::Fill if last => node.stock.put_all(w.clusters.items(), w.numbers.items()),
        Phase::Drain => drop_at(&node.seen.geometry, w.lbn, &mut node.stock),
        Phase::Back => drop_at(&node.seen.geometry, w.lbn, &mut node.stock),
        Phase::Last if last => {
            node.seen.number = w.number;
            node.seen.short = None;
            node.seen.clusters = mem::replace(&mut node.run.ready, Clusters::new(alloc));
        }
        _ => {}
    }
    made
}

// The lock under which the next write of a node's rules for space is made.
fn next_lock<O: Operation>(node: &Node<O>) -> LockName
    requires { node.now.run.made < length node.now.run.writes }
    ensures { (v : PlanWrite) → slice_get node.now.run.writes node.now.run.made ≡ Some v → result ≡ v.lock }
{
    node.run.writes.items()[node.run.made].lock
}

// A node has made the next write of its rules for space.
fn keep_space_write<O: Operation>(alloc: Global, node: &mut Node<O>)
    requires next { node.old.run.made < length node.old.run.writes }
    requires can { (v : PlanWrite) → slice_get node.old.run.writes node.old.run.made ≡ Some v → CanTake (state_of O.cmd_is node.old) v }
    ensures { (v : PlanWrite) → slice_get node.old.run.writes node.old.run.made ≡ Some v → state_of O.cmd_is node.new ≡ turned (space_writing (state_of O.cmd_is node.old) v) }
{
    node.run.made = keep_taken(alloc, node);
    node.writes = node.writes.saturating_add(1);
    count(node);
}

/// A node makes the next write of its rules for space, which is of this block, and renews the entry that it has cached of it. It takes no memory. An error says that the image
/// failed: in memory no block has changed, and the node stands before the write.
pub(crate) fn space_write<I: ImageDev, O: Operation>(
    alloc: Global,
    core: &mut Core<I, O>,
    node: u8,
    lbn: u32,
    block: &Block,
) -> Result<(), ImageFault>
    requires node { IsOfWorld (plain_of O.cmd_is core.old) node }
    requires volume { IsGeometry core.old.geometry }
    requires within { lbn < length core.old.mirror.blocks }
    requires next { IsSome (next_write (plain_of O.cmd_is core.old) node) }
    requires can { (s : NodeState) (v : PlanWrite) → node_at (plain_of O.cmd_is core.old).nodes node ≡ Some s → slice_get s.run.writes s.run.made ≡ Some v → CanTake s v }
    ensures world { OnOk result ((v : PlanWrite) → next_write (plain_of O.cmd_is core.old) node ≡ Some v → v.lbn ≡ lbn → v.block ≡ block.now → plain_of O.cmd_is core.new ≡ happen (plain_of O.cmd_is core.old) node (event.SpaceWrite v)) }
    ensures same { OnErr result (plain_of O.cmd_is core.new ≡ plain_of O.cmd_is core.old) }
    ensures cause { HasCause (I.faults core.old.mirror.image) (I.faults core.new.mirror.image) result }
    ensures blocks { OnOk result (core.new.mirror.blocks ≡ slice_set core.old.mirror.blocks lbn block.now) }
    ensures image { OnOk result (I.told core.new.mirror.image ≡ told_set (I.told core.old.mirror.image) lbn block.now) }
    ensures failed { OnErr result ((I.told core.new.mirror.image ≡ I.told core.old.mirror.image)
        ⊎ (I.told core.new.mirror.image ≡ told_set (I.told core.old.mirror.image) lbn block.now)) }
    ensures room { core.new.history.room ≡ core.old.history.room }
{
    core.mirror.write(lbn, block)?;
    let at = &mut core.nodes[node as usize - 1];
    let name = next_lock(at);
    rewrite(&core.geometry, &core.locks, &mut at.cache, name, lbn, block);
    keep_space_write(alloc, at);
    Ok(())
}
