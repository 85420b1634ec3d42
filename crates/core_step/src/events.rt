//! The events, each as a function on what a world is made of.

ghost use Rattle.std.specs.Prelude.{ℕ, true, false, ◌≡◌, ◌≤◌, ◌<◌, ◌++◌, [], ◌∷◌, Some, IfOk, OnOk, OnErr, IsSome, length};
ghost use Rattle.plain_cat.specs.declared.command.Cmd.{Cmd};
ghost use Rattle.lock_db.specs.declared.name.LockName.TheVariants.{A};
ghost use Rattle.lock_db.specs.Resources.{asked_answer};
ghost use Rattle.node_locks.specs.Held.{system_of};
ghost use Rattle.node_locks.specs.Taking.{taken, taken_now, MayTake};
ghost use Rattle.op_law.specs.declared.need.Ask.{Ask as PlanAsk};
ghost use Rattle.core_state.specs.Worlds.{NodeState, IsOfWorld, state_of, plain_of, node_at};
ghost use Rattle.core_state.specs.Event as event;
ghost use Rattle.core_state.specs.Asks.{has_asked};
ghost use Rattle.lock_db.specs.declared.name.LockName.{LockName};
ghost use Rattle.node_cache.specs.Cached.{found, used};
ghost use Rattle.lock_db.specs.Tables.{resource_at};
ghost use Rattle.core_state.specs.Caches.{kept_with, kept_sequence, writes_at, sequence_now};
ghost use Rattle.core_state.specs.Events.{happen, turned, leaving, locking, reading, hitting, caching, looking, using, planning, would_go};
ghost use Rattle.core_step.specs.Asks.{aim_of, MayAsk, noted, unnoted};
ghost use Rattle.core_step.specs.Giving.{MayLeaveAll};
ghost use Rattle.core_step.specs.Using.{IsCurrent};

use crate::asks::Aim;
use crate::caches::keep;
use crate::giving::leave_all;
use base_words::Block;
use blk_drive::ImageDev;
use core_state::{Core, Node};
use lock_db::{Asked, LockDb, LockName, Owner};
use op_law::{NoMemory, Operation, Plan, SeenLocks};
use plain_cat::{Cmd, Mode};
use std::alloc::Global;

/// One turn more.
pub(crate) fn count<O: Operation>(node: &mut Node<O>)
    ensures { state_of O.cmd_is node.new ≡ turned (state_of O.cmd_is node.old) }
{
    node.turns = node.turns.saturating_add(1);
}

/// One turn more, in which a block was read from the drive.
pub(crate) fn count_read<O: Operation>(node: &mut Node<O>)
    ensures { state_of O.cmd_is node.new ≡ turned (reading (state_of O.cmd_is node.old)) }
{
    node.reads = node.reads.saturating_add(1);
    count(node);
}

/// One turn more, in which a block was found cached.
pub(crate) fn count_hit<O: Operation>(node: &mut Node<O>)
    ensures { state_of O.cmd_is node.new ≡ turned (hitting (state_of O.cmd_is node.old)) }
{
    node.hits = node.hits.saturating_add(1);
    count(node);
}

/// A turn in which nothing happens.
pub(crate) fn stand<I: ImageDev, O: Operation>(core: &mut Core<I, O>, node: u8)
    requires { IsOfWorld (plain_of O.cmd_is core.old) node }
    ensures world { plain_of O.cmd_is core.new ≡ happen (plain_of O.cmd_is core.old) node event.Stand }
    ensures mirror { core.new.mirror ≡ core.old.mirror }
    ensures room { core.new.history.room ≡ core.old.history.room }
{
    count(&mut core.nodes[node as usize - 1]);
}

// A node leaves, and has no lock and no cached block.
fn leave_node<O: Operation>(node: &mut Node<O>)
    ensures { state_of O.cmd_is node.new ≡ turned (leaving (state_of O.cmd_is node.old)) }
{
    node.kept.clear();
    node.cache.clear();
    node.over = true;
    count(node);
}

/// A node leaves the volume: its cache is emptied, and it gives back the locks that it keeps. It takes no memory.
pub(crate) fn leave<I: ImageDev, O: Operation>(core: &mut Core<I, O>, node: u8)
    requires node { IsOfWorld (plain_of O.cmd_is core.old) node }
    requires may { (s : NodeState) → node_at (plain_of O.cmd_is core.old).nodes node ≡ Some s → MayLeaveAll node s.kept core.old.locks }
    ensures world { plain_of O.cmd_is core.new ≡ happen (plain_of O.cmd_is core.old) node event.Leave }
    ensures mirror { core.new.mirror ≡ core.old.mirror }
    ensures room { core.new.history.room ≡ core.old.history.room }
{
    let at = &mut core.nodes[node as usize - 1];
    leave_all(node, at.kept.items(), &mut core.locks);
    leave_node(at);
}

// A node's file system asks for a lock, which is then the last of these. An error says that memory ran out, and nothing was asked.
fn request(
    alloc: Global,
    locks: &mut LockDb,
    node: u8,
    list: &mut SeenLocks,
    name: LockName,
    mode: Mode,
) -> Result<Asked, NoMemory>
    requires may { MayTake name (system_of node) locks.old }
    requires apart { has_asked name list.old ≡ false }
    ensures ok { OnOk result ((locks.new ≡ taken name (system_of node) mode locks.old) × (list.new ≡ list.old ++ (name, mode) ∷ [])) }
    ensures answer { IfOk result (λ a. a ≡ asked_answer (taken_now name (system_of node) mode locks.old)) }
    ensures err { OnErr result ((locks.new ≡ locks.old) × (list.new ≡ list.old)) }
{
    list.push((name, mode))?;
    match node_locks::take(alloc, locks, node, name, mode) {
        Ok(asked) => Ok(asked),
        Err(fault) => {
            list.remove(name);
            Err(fault)
        }
    }
}

// A node's command asks for a lock. An error says that memory ran out, and nothing was asked.
fn request_lock<O: Operation>(
    alloc: Global,
    locks: &mut LockDb,
    node: u8,
    at: &mut Node<O>,
    name: LockName,
    mode: Mode,
) -> Result<Asked, NoMemory>
    requires may { MayTake name (system_of node) locks.old }
    requires apart { has_asked name at.old.asked ≡ false }
    requires unseen { has_asked name at.old.seen.locks ≡ false }
    ensures ok { OnOk result ((locks.new ≡ taken name (system_of node) mode locks.old) × (state_of O.cmd_is at.new ≡ turned (locking (state_of O.cmd_is at.old) name mode))) }
    ensures answer { IfOk result (λ a. a ≡ asked_answer (taken_now name (system_of node) mode locks.old)) }
    ensures err { OnErr result ((locks.new ≡ locks.old) × (state_of O.cmd_is at.new ≡ state_of O.cmd_is at.old)) }
{
    at.seen.locks.push((name, mode))?;
    match request(alloc, locks, node, &mut at.asked, name, mode) {
        Ok(asked) => {
            at.kept.remove(name);
            count(at);
            Ok(asked)
        }
        Err(fault) => {
            at.seen.locks.remove(name);
            Err(fault)
        }
    }
}

/// A node's command asks for a lock. An error says that memory ran out, and nothing was asked.
pub(crate) fn lock<I: ImageDev, O: Operation>(
    alloc: Global,
    core: &mut Core<I, O>,
    node: u8,
    name: LockName,
    mode: Mode,
) -> Result<Asked, NoMemory>
    requires node { IsOfWorld (plain_of O.cmd_is core.old) node }
    requires may { MayTake name (system_of node) core.old.locks }
    requires apart { (s : NodeState) → node_at (plain_of O.cmd_is core.old).nodes node ≡ Some s → (has_asked name s.asked ≡ false) × (has_asked name s.seen.locks ≡ false) }
    ensures world { OnOk result (plain_of O.cmd_is core.new ≡ happen (plain_of O.cmd_is core.old) node (event.Lock name mode)) }
    ensures answer { IfOk result (λ a. a ≡ asked_answer (taken_now name (system_of node) mode core.old.locks)) }
    ensures same { OnErr result (plain_of O.cmd_is core.new ≡ plain_of O.cmd_is core.old) }
    ensures mirror { core.new.mirror ≡ core.old.mirror }
    ensures room { core.new.history.room ≡ core.old.history.room }
{
    let at = &mut core.nodes[node as usize - 1];
    request_lock(alloc, &mut core.locks, node, at, name, mode)
}

// An owner asks for a lock that would be granted at once: a new one, or the conversion of one that it has, whose value block stays. An
// error says that memory ran out, and nothing was asked.
fn take(
    alloc: Global,
    locks: &mut LockDb,
    owner: Owner,
    name: LockName,
    mode: Mode,
) -> Result<(), NoMemory>
    requires { MayAsk name owner mode locks.old }
    ensures ok { OnOk result (locks.new ≡ taken name owner mode locks.old) }
    ensures err { OnErr result (locks.new ≡ locks.old) }
{
    if locks.mode(name, owner).is_some() {
        let (value, _) = locks.value(name);
        let _granted = locks.convert(name, owner, mode, value);
    } else {
        let _granted = locks.request(alloc, name, owner, mode)?;
    }
    Ok(())
}

// The lock of an ask of the file system is the last of these; that of a channel is none of them. An error says that memory ran out.
fn note(list: &mut SeenLocks, chan: u8, name: LockName, mode: Mode) -> Result<(), NoMemory>
    ensures ok { OnOk result (list.new ≡ noted list.old chan name mode) }
    ensures err { OnErr result (list.new ≡ list.old) }
{
    if chan == 0 {
        list.push((name, mode))?;
    }
    Ok(())
}

// It is none of them again.
fn unnote(list: &mut SeenLocks, chan: u8, name: LockName)
    ensures { list.new ≡ unnoted list.old chan name }
{
    if chan == 0 {
        list.remove(name);
    }
}

// A node makes the ask of its plan, which would be granted. An error says that memory ran out, and nothing was asked.
fn request_ask<O: Operation>(
    alloc: Global,
    locks: &mut LockDb,
    node: u8,
    at: &mut Node<O>,
    aim: Aim,
) -> Result<(), NoMemory>
    requires may { MayAsk (A aim.file) (record { node = node; part = aim.chan }) aim.mode locks.old }
    requires apart { aim.chan ≡ 0 → has_asked (A aim.file) at.old.asked ≡ false }
    ensures ok { OnOk result ((locks.new ≡ taken (A aim.file) (record { node = node; part = aim.chan }) aim.mode locks.old) × (state_of O.cmd_is at.new ≡ turned (record (state_of O.cmd_is at.old) { asked = noted at.old.asked aim.chan (A aim.file) aim.mode; tried = true }))) }
    ensures err { OnErr result ((locks.new ≡ locks.old) × (state_of O.cmd_is at.new ≡ state_of O.cmd_is at.old)) }
{
    let name = LockName::A(aim.file);
    let owner = Owner {
        node,
        part: aim.chan,
    };
    note(&mut at.asked, aim.chan, name, aim.mode)?;
    match take(alloc, locks, owner, name, aim.mode) {
        Ok(()) => {
            at.tried = true;
            count(at);
            Ok(())
        }
        Err(fault) => {
            unnote(&mut at.asked, aim.chan, name);
            Err(fault)
        }
    }
}

/// A node's command makes the ask of its plan for who has this file open, in this mode, by a channel or by the file system, where that
/// is granted. An error says that memory ran out, and nothing was asked.
pub(crate) fn ask<I: ImageDev, O: Operation>(
    alloc: Global,
    core: &mut Core<I, O>,
    node: u8,
    aim: Aim,
) -> Result<(), NoMemory>
    requires node { IsOfWorld (plain_of O.cmd_is core.old) node }
    requires may { MayAsk (A aim.file) (record { node = node; part = aim.chan }) aim.mode core.old.locks }
    requires apart { (s : NodeState) → node_at (plain_of O.cmd_is core.old).nodes node ≡ Some s → aim.chan ≡ 0 → has_asked (A aim.file) s.asked ≡ false }
    requires goes { (a : PlanAsk) → aim ≡ aim_of a → would_go core.old.locks node a ≡ true }
    ensures world { OnOk result ((x : Cmd) (a : PlanAsk) → aim ≡ aim_of a → plain_of O.cmd_is core.new ≡ happen (plain_of O.cmd_is core.old) node (event.Ask x a)) }
    ensures same { OnErr result (plain_of O.cmd_is core.new ≡ plain_of O.cmd_is core.old) }
    ensures mirror { core.new.mirror ≡ core.old.mirror }
    ensures room { core.new.history.room ≡ core.old.history.room }
{
    let at = &mut core.nodes[node as usize - 1];
    request_ask(alloc, &mut core.locks, node, at, aim)
}

// A node has looked at a block. A refusal of memory leaves it as it was.
fn keep_block<O: Operation>(node: &mut Node<O>, lbn: u32, block: &Block) -> Result<(), NoMemory>
    ensures ok { OnOk result (state_of O.cmd_is node.new ≡ turned (looking (state_of O.cmd_is node.old) lbn block.now)) }
    ensures err { OnErr result (state_of O.cmd_is node.new ≡ state_of O.cmd_is node.old) }
{
    node.seen.blocks.push((lbn, *block))?;
    count_read(node);
    Ok(())
}

// A node has looked at a block under a lock, which its cache keeps with this sequence, or not. A refusal of memory leaves it as it was.
fn keep_looked<O: Operation>(
    alloc: Global,
    node: &mut Node<O>,
    seq: Option<u64>,
    name: LockName,
    lbn: u32,
    block: &Block,
) -> Result<(), NoMemory>
    ensures ok { OnOk result (state_of O.cmd_is node.new ≡ turned (caching (kept_with seq lbn name block.now node.old.cache) (looking (state_of O.cmd_is node.old) lbn block.now))) }
    ensures err { OnErr result (state_of O.cmd_is node.new ≡ state_of O.cmd_is node.old) }
{
    node.seen.blocks.push((lbn, *block))?;
    match keep(alloc, &mut node.cache, seq, lbn, name, block) {
        Ok(()) => {
            count_read(node);
            Ok(())
        }
        Err(fault) => {
            let _block = node.seen.blocks.pop();
            Err(fault)
        }
    }
}

/// A node's command looks at a block, which the lock of this name guards, and reads it from the drive. Its cache keeps it with this
/// sequence, or not. An error says that memory ran out, and nothing was looked at.
pub(crate) fn look<I: ImageDev, O: Operation>(
    alloc: Global,
    core: &mut Core<I, O>,
    node: u8,
    name: LockName,
    lbn: u32,
    seq: Option<u64>,
) -> Result<(), NoMemory>
    requires node { IsOfWorld (plain_of O.cmd_is core.old) node }
    requires within { lbn < length core.old.mirror.blocks }
    requires kept { seq ≡ kept_sequence (resource_at name core.old.locks).valid (writes_at node (resource_at name core.old.locks)) (sequence_now core.old.geometry core.old.locks name lbn) }
    ensures world { OnOk result (plain_of O.cmd_is core.new ≡ happen (plain_of O.cmd_is core.old) node (event.Look name lbn)) }
    ensures same { OnErr result (plain_of O.cmd_is core.new ≡ plain_of O.cmd_is core.old) }
    ensures mirror { core.new.mirror ≡ core.old.mirror }
    ensures room { core.new.history.room ≡ core.old.history.room }
{
    let block = *core.mirror.read(lbn);
    keep_looked(
        alloc,
        &mut core.nodes[node as usize - 1],
        seq,
        name,
        lbn,
        &block,
    )
}

// A node has used a cached block. A refusal of memory leaves it as it was.
fn keep_used<O: Operation>(node: &mut Node<O>, lbn: u32, block: &Block) -> Result<(), NoMemory>
    ensures ok { OnOk result ((name : LockName) (seq : ℕ) → IsSome (found lbn name seq node.old.cache) → state_of O.cmd_is node.new ≡ turned (caching (used lbn name seq node.old.cache) (using (state_of O.cmd_is node.old) lbn block.now))) }
    ensures err { OnErr result (state_of O.cmd_is node.new ≡ state_of O.cmd_is node.old) }
{
    node.seen.blocks.push((lbn, *block))?;
    node.cache.to_front(lbn);
    count_hit(node);
    Ok(())
}

/// A node's command uses a block that the node has cached under some lock, and whose entry is current: it has these bytes.
/// An error says that memory ran out, and nothing was used.
pub(crate) fn use_block<I: ImageDev, O: Operation>(
    core: &mut Core<I, O>,
    node: u8,
    lbn: u32,
    block: &Block,
) -> Result<(), NoMemory>
    requires node { IsOfWorld (plain_of O.cmd_is core.old) node }
    ensures world { OnOk result ((name : LockName) → IsCurrent (plain_of O.cmd_is core.old) node name lbn block.now → plain_of O.cmd_is core.new ≡ happen (plain_of O.cmd_is core.old) node (event.Use name lbn)) }
    ensures same { OnErr result (plain_of O.cmd_is core.new ≡ plain_of O.cmd_is core.old) }
    ensures mirror { core.new.mirror ≡ core.old.mirror }
    ensures room { core.new.history.room ≡ core.old.history.room }
{
    keep_used(&mut core.nodes[node as usize - 1], lbn, block)
}

/// A node's command looks at a file's own block. An error says that memory ran out, and nothing was looked at.
pub(crate) fn fetch<I: ImageDev, O: Operation>(
    core: &mut Core<I, O>,
    node: u8,
    lbn: u32,
) -> Result<(), NoMemory>
    requires node { IsOfWorld (plain_of O.cmd_is core.old) node }
    requires within { lbn < length core.old.mirror.blocks }
    ensures world { OnOk result (plain_of O.cmd_is core.new ≡ happen (plain_of O.cmd_is core.old) node (event.Fetch lbn)) }
    ensures same { OnErr result (plain_of O.cmd_is core.new ≡ plain_of O.cmd_is core.old) }
    ensures mirror { core.new.mirror ≡ core.old.mirror }
    ensures room { core.new.history.room ≡ core.old.history.room }
{
    let block = *core.mirror.read(lbn);
    keep_block(&mut core.nodes[node as usize - 1], lbn, &block)
}

// A node has decided on a plan.
fn keep_plan<O: Operation>(node: &mut Node<O>, plan: Plan)
    ensures { state_of O.cmd_is node.new ≡ turned (planning (state_of O.cmd_is node.old) plan) }
{
    node.plan = Some(plan);
    node.done = 0;
    node.tried = false;
    count(node);
}

/// A node's command decides on a plan, and a place for its answer is kept, as one is for the death of each node. An error says that memory ran out, and nothing was
/// decided.
pub(crate) fn plan<I: ImageDev, O: Operation>(
    core: &mut Core<I, O>,
    node: u8,
    plan: Plan,
) -> Result<(), NoMemory>
    requires { IsOfWorld (plain_of O.cmd_is core.old) node }
    ensures world { OnOk result (plain_of O.cmd_is core.new ≡ happen (plain_of O.cmd_is core.old) node (event.Plan plan)) }
    ensures same { OnErr result (plain_of O.cmd_is core.new ≡ plain_of O.cmd_is core.old) }
    ensures mirror { core.new.mirror ≡ core.old.mirror }
    ensures place { OnOk result (16 ≤ core.new.history.room) }
    ensures room { core.old.history.room ≤ core.new.history.room }
{
    core.history.make_room(16)?;
    keep_plan(&mut core.nodes[node as usize - 1], plan);
    Ok(())
}
