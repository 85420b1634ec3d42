//! The writes of a plan, and the answer behind them.

ghost use Rattle.std.specs.Prelude.{◌≡◌, ◌⊎◌, ◌<◌, ◌≤◌, ◌+◌, ◌++◌, Some, OnOk, OnErr, IsSome, option_map, length, slice_set};
ghost use Rattle.base_words.specs.Faults.{HasCause};
ghost use Rattle.blk_drive.specs.Images.{told_set};
ghost use Rattle.vol_parts.specs.Parts.{IsGeometry};
ghost use Rattle.plain_cat.specs.declared.command.Cmd.{Cmd};
ghost use Rattle.op_law.specs.declared.need.Plan.{Plan};
ghost use Rattle.op_law.specs.declared.need.PlanWrite.{PlanWrite};
ghost use Rattle.op_law.specs.declared.seen.Seen.{Seen};
ghost use Rattle.core_state.specs.Worlds.{NodeState, IsOfWorld, state_of, plain_of, node_at};
ghost use Rattle.core_state.specs.Event as event;
ghost use Rattle.core_state.specs.Caches.{put_back_all, lowered_of};
ghost use Rattle.core_state.specs.Events.{happen, turned, writing, answering, unseen, all_writes, staying, going, used_locks, given_back, command_at, plan_at, tried_at};
ghost use Rattle.core_state.specs.Asks.{reply_by};
ghost use Rattle.core_state.specs.Channels.{channel_seen};
ghost use Rattle.core_step.specs.Giving.{MayPutAllBack, MayEnd};

use crate::asks::{into_reply, reply_by, writes_by};
use crate::caches::rewrite;
use crate::channels::{channel_seen, close_off, open_and_close};
use crate::claims::begin_phase;
use crate::giving::{give_back_going, has_any, put_back_all};
use base_words::Block;
use blk_drive::{ImageDev, ImageFault};
use core_space::{LastingLocks, Phase};
use core_state::{Core, Node};
use lock_db::{LockDb, LockName};
use node_cache::NodeCache;
use op_law::{Chan, Operation, Plan, Seen};
use plain_cat::{Clusters, Cmd, Entry, Mode};
use std::alloc::Global;
use vol_parts::Geometry;

// A node has made so many writes, one more than before.
fn keep_write<O: Operation>(node: &mut Node<O>, done: usize)
    requires { done ≡ node.old.done + 1 }
    ensures { state_of O.cmd_is node.new ≡ turned (writing (state_of O.cmd_is node.old)) }
{
    node.done = done;
    node.writes = node.writes.saturating_add(1);
    node.turns = node.turns.saturating_add(1);
}

/// A node makes a write under a lock, the next of its plan, and has done so many then. The entry that it has cached of the block is
/// renewed. An error says that the image failed: in memory no block has changed, and the node
/// stands before the write.
pub(crate) fn write<I: ImageDev, O: Operation>(
    core: &mut Core<I, O>,
    node: u8,
    name: LockName,
    lbn: u32,
    block: &Block,
    done: usize,
) -> Result<(), ImageFault>
    requires node { IsOfWorld (plain_of O.cmd_is core.old) node }
    requires geometry { IsGeometry core.old.geometry }
    requires within { lbn < length core.old.mirror.blocks }
    requires more { (s : NodeState) → node_at (plain_of O.cmd_is core.old).nodes node ≡ Some s → done ≡ s.done + 1 }
    ensures world { OnOk result ((v : PlanWrite) → v.lock ≡ name → v.lbn ≡ lbn → v.block ≡ block.now → plain_of O.cmd_is core.new ≡ happen (plain_of O.cmd_is core.old) node (event.Write v)) }
    ensures same { OnErr result (plain_of O.cmd_is core.new ≡ plain_of O.cmd_is core.old) }
    ensures cause { HasCause (I.faults core.old.mirror.image) (I.faults core.new.mirror.image) result }
    ensures blocks { OnOk result (core.new.mirror.blocks ≡ slice_set core.old.mirror.blocks lbn block.now) }
    ensures image { OnOk result (I.told core.new.mirror.image ≡ told_set (I.told core.old.mirror.image) lbn block.now) }
    ensures failed { OnErr result ((I.told core.new.mirror.image ≡ I.told core.old.mirror.image)
        ⊎ (I.told core.new.mirror.image ≡ told_set (I.told core.old.mirror.image) lbn block.now)) }
    ensures room { core.new.history.room ≡ core.old.history.room }
{
    core.mirror.write(lbn, block)?;
    let at = &mut core.nodes[node as usize - 1];
    rewrite(&core.geometry, &core.locks, &mut at.cache, name, lbn, block);
    keep_write(at, done);
    Ok(())
}

// What was seen for a command is away. The lists keep their memory for the next one.
fn put_away(alloc: Global, seen: &mut Seen)
    ensures { seen.new ≡ unseen seen.old }
{
    seen.channel = None;
    seen.locks.clear();
    seen.blocks.clear();
    seen.clusters = Clusters::new(alloc);
    seen.number = None;
    seen.short = None;
}

// What a command leaves behind as it ends, and what its channel had open.
#[derive(Drop)]
struct Ended {
    cmd: Cmd,
    plan: Plan,
    tried: bool,
    had: Option<Chan>,
}

// Of these locks, those under which a cached block is are kept in NL.
fn keep_lowered(kept: &mut LastingLocks, cache: &NodeCache, held: &[(LockName, Mode)])
    requires { length kept.old + length held.now ≤ 128 }
    ensures { kept.new ≡ kept.old ++ lowered_of cache.now held.now }
{
    for (name, _) in held {
        if cache.holds_under(*name) {
            kept.append((*name, Mode::NL));
        }
    }
}

// Of the locks that a node keeps, those that stay are kept, and behind them, in NL, those of its command under which a cached block is.
fn keep_staying<O: Operation>(node: &mut Node<O>)
    requires { length node.old.kept + (length node.old.asked + length node.old.claims) ≤ 128 }
    ensures { state_of O.cmd_is node.new ≡ record (state_of O.cmd_is node.old) {
      kept = staying (state_of O.cmd_is node.old) ++ lowered_of node.old.cache (used_locks (state_of O.cmd_is node.old));
    } }
{
    let stocked = has_any(&node.stock);
    node.kept.keep_staying(stocked, &node.cache);
    keep_lowered(&mut node.kept, &node.cache, node.asked.items());
    keep_lowered(&mut node.kept, &node.cache, node.claims.items());
}

// A node's command ends with the reply of its plan, or of its ask where that was not granted. It takes no memory.
#[tactic(auto, unfolding(plain_rules::specs::Own::after_answer))]
fn end<O: Operation>(alloc: Global, node: &mut Node<O>) -> Ended
    requires op { IsSome node.old.op }
    requires plan { IsSome node.old.plan }
    requires few { node.old.past.answered < 4294967295 }
    requires room { length node.old.kept + (length node.old.asked + length node.old.claims) ≤ 128 }
    ensures cmd { option_map O.cmd_is node.old.op ≡ Some result.cmd }
    ensures plan { node.old.plan ≡ Some result.plan }
    ensures tried { result.tried ≡ node.old.tried }
    ensures had { result.had ≡ channel_seen node.old.opens result.cmd }
    ensures state { state_of O.cmd_is node.new ≡ turned (answering (state_of O.cmd_is node.old) result.cmd (reply_by result.plan.ask result.tried result.plan.reply)) }
{
    let (Some(op), Some(plan)) = (node.op.take(), node.plan.take()) else {
        unreachable!()
    };
    let tried = node.tried;
    let cmd = op.into_cmd();
    node.past.answer(&cmd, reply_by(&plan, tried));
    let had = channel_seen(&node.opens, &cmd);
    open_and_close(&mut node.opens, &cmd, reply_by(&plan, tried));
    put_away(alloc, &mut node.seen);
    node.done = 0;
    node.tried = false;
    keep_staying(node);
    node.asked.clear();
    node.claims.clear();
    begin_phase(&mut node.run, Phase::Off);
    node.turns = node.turns.saturating_add(1);
    Ended {
        cmd,
        plan,
        tried,
        had,
    }
}

// The locks of a node are put back at its answer: those of its command are lowered to NL where a cached block is under them, or go
// back, and those that it kept go back if they do not stay.
fn give_all<O: Operation>(g: &Geometry, node: u8, at: &Node<O>, locks: &mut LockDb)
    requires geometry { IsGeometry g.now }
    requires plan { IsSome at.now.plan }
    requires may { MayPutAllBack g.now node (state_of O.cmd_is at.now) locks.old }
    ensures { locks.new ≡ given_back g.now node (all_writes (state_of O.cmd_is at.now)) (going (state_of O.cmd_is at.now))
        (put_back_all g.now node (all_writes (state_of O.cmd_is at.now)) at.now.cache (used_locks (state_of O.cmd_is at.now)) locks.old) }
{
    let Some(plan) = &at.plan else { unreachable!() };
    let takes = at.run.writes.items();
    let writes = writes_by(plan, at.tried);
    put_back_all(g, node, takes, writes, &at.cache, at.asked.items(), locks);
    put_back_all(g, node, takes, writes, &at.cache, at.claims.items(), locks);
    let stocked = has_any(&at.stock);
    give_back_going(
        g,
        node,
        takes,
        writes,
        &at.cache,
        stocked,
        at.kept.items(),
        locks,
    );
}

/// A node answers, with the reply of its plan, or of its ask where that was not granted: its answer is the last of the history, and
/// its locks go back, but for X where it has a stock, and for those under which a cached block is: these stay in NL. OPEN keeps its
/// channel's lock, and CLOSE gives it back. It takes no memory.
pub(crate) fn answer<I: ImageDev, O: Operation>(alloc: Global, core: &mut Core<I, O>, node: u8)
    requires node { IsOfWorld (plain_of O.cmd_is core.old) node }
    requires geometry { IsGeometry core.old.geometry }
    requires ends { (s : NodeState) → node_at (plain_of O.cmd_is core.old).nodes node ≡ Some s → MayEnd core.old.geometry node s core.old.locks }
    requires place { 0 < core.old.history.room }
    ensures world { (x : Cmd) (p : Plan) → command_at (plain_of O.cmd_is core.old) node ≡ Some x → plan_at (plain_of O.cmd_is core.old) node ≡ Some p → plain_of O.cmd_is core.new ≡ happen (plain_of O.cmd_is core.old) node (event.Answer x (reply_by p.ask (tried_at (plain_of O.cmd_is core.old) node) p.reply)) }
    ensures mirror { core.new.mirror ≡ core.old.mirror }
    ensures room { core.new.history.room + 1 ≡ core.old.history.room }
{
    let at = &mut core.nodes[node as usize - 1];
    give_all(&core.geometry, node, at, &mut core.locks);
    let Ended {
        cmd,
        plan,
        tried,
        had,
    } = end(alloc, at);
    close_off(&mut core.locks, node, had, &cmd, reply_by(&plan, tried));
    let reply = into_reply(plan, tried);
    core.history.append(Entry::Done { node, cmd, reply });
}
