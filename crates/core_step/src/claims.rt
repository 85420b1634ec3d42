//! The locks of free space: how a node claims X and V, lowers them, and gives X back.

ghost use Rattle.std.specs.Prelude.{◌≡◌, ◌≤◌, ◌<◌, Some, IfOk, OnOk, OnErr, IsSome, length};
ghost use Rattle.lock_db.specs.declared.name.LockName.TheVariants.{X, V};
ghost use Rattle.lock_db.specs.Queues.{lock_of};
ghost use Rattle.lock_db.specs.Resources.{asked_answer};
ghost use Rattle.lock_db.specs.Tables.{resource_at, converted};
ghost use Rattle.vol_parts.specs.Parts.{IsGeometry};
ghost use Rattle.node_locks.specs.Held.{system_of};
ghost use Rattle.node_locks.specs.Sequences.{raised_block};
ghost use Rattle.node_locks.specs.Taking.{taken_now, MayTake};
ghost use Rattle.core_state.specs.Worlds.{NodeState, IsOfWorld, state_of, plain_of, node_at};
ghost use Rattle.core_state.specs.Event as event;
ghost use Rattle.core_state.specs.Events.{happen, turned, claiming, lowering, lowering_both, returning, x_lowered, x_returned};
ghost use Rattle.core_state.specs.Raises.{raise_of};
ghost use Rattle.core_state.specs.Searches.{begun_run};

use crate::events::count;
use crate::raises::raise_by_writes;
use blk_drive::ImageDev;
use core_space::{Phase, SpaceRun};
use core_state::{Core, Node};
use lock_db::{Asked, LockDb, LockName, Owner};
use node_locks::{lower, take};
use op_law::{NoMemory, Operation};
use plain_cat::Mode;
use std::alloc::Global;
use vol_parts::Geometry;

/// The rules for space go on in this phase, with nothing looked at and nothing written.
pub(crate) fn begin_phase(run: &mut SpaceRun, phase: Phase)
    ensures { run.new ≡ begun_run phase }
{
    run.phase = phase;
    run.looked.clear();
    run.writes.clear();
    run.made = 0;
    run.ready.clear();
}

// X or V is claimed. X, which was claimed before it, is kept.
fn keep_claim<O: Operation>(node: &mut Node<O>, phase: Phase, name: LockName, mode: Mode)
    requires kept { length node.old.kept < 128 }
    requires claims { length node.old.claims ≤ 1 }
    ensures { state_of O.cmd_is node.new ≡ turned (claiming (state_of O.cmd_is node.old) phase name mode) }
{
    if let [lock, ..] = node.claims.items() {
        let lock = *lock;
        node.kept.append(lock);
    }
    node.kept.remove(name);
    node.claims.clear();
    node.claims.append((name, mode));
    node.run.phase = phase;
    count(node);
}

/// By its rules for space, which go on in this phase, a node claims X or V. An error says that memory ran out, and nothing was
/// claimed.
pub(crate) fn claim<I: ImageDev, O: Operation>(
    alloc: Global,
    core: &mut Core<I, O>,
    node: u8,
    phase: Phase,
    name: LockName,
    mode: Mode,
) -> Result<Asked, NoMemory>
    requires node { IsOfWorld (plain_of O.cmd_is core.old) node }
    requires may { MayTake name (system_of node) core.old.locks }
    requires few { (s : NodeState) → node_at (plain_of O.cmd_is core.old).nodes node ≡ Some s → (length s.kept < 128) × (length s.claims ≤ 1) }
    ensures world { OnOk result (plain_of O.cmd_is core.new ≡ happen (plain_of O.cmd_is core.old) node (event.Claim phase name mode)) }
    ensures answer { IfOk result (λ a. a ≡ asked_answer (taken_now name (system_of node) mode core.old.locks)) }
    ensures same { OnErr result (plain_of O.cmd_is core.new ≡ plain_of O.cmd_is core.old) }
    ensures mirror { core.new.mirror ≡ core.old.mirror }
    ensures room { core.new.history.room ≡ core.old.history.room }
{
    let asked = take(alloc, &mut core.locks, node, name, mode)?;
    keep_claim(&mut core.nodes[node as usize - 1], phase, name, mode);
    Ok(asked)
}

// V is lowered from PW to NL, its value block raised by the writes of the node's rules under it.
fn lower_bitmaps(g: &Geometry, locks: &mut LockDb, node: u8, run: &SpaceRun)
    requires geometry { IsGeometry g.now }
    requires lock { lock_of (system_of node) (resource_at V locks.old).askers ≡ Some Mode.PW }
    ensures { locks.new ≡ converted V (system_of node) Mode.NL (raised_block V (raise_of g.now V run.now.writes) (resource_at V locks.old)) locks.old }
{
    let raise = raise_by_writes(g, LockName::V, run.writes.items());
    lower(locks, node, LockName::V, Mode::NL, raise);
}

// The stock of a node is filled, and it keeps V in NL.
fn keep_filled<O: Operation>(node: &mut Node<O>)
    requires kept { length node.old.kept < 128 }
    ensures { state_of O.cmd_is node.new ≡ turned (lowering (state_of O.cmd_is node.old)) }
{
    node.kept.append((LockName::V, Mode::NL));
    node.claims.clear();
    begin_phase(&mut node.run, Phase::Fill);
    count(node);
}

/// The stock of a node is filled, and it lowers V. It takes no memory.
pub(crate) fn lower_v<I: ImageDev, O: Operation>(core: &mut Core<I, O>, node: u8)
    requires node { IsOfWorld (plain_of O.cmd_is core.old) node }
    requires geometry { IsGeometry core.old.geometry }
    requires lock { lock_of (system_of node) (resource_at V core.old.locks).askers ≡ Some Mode.PW }
    requires few { (s : NodeState) → node_at (plain_of O.cmd_is core.old).nodes node ≡ Some s → length s.kept < 127 }
    ensures world { plain_of O.cmd_is core.new ≡ happen (plain_of O.cmd_is core.old) node event.LowerV }
    ensures mirror { core.new.mirror ≡ core.old.mirror }
    ensures room { core.new.history.room ≡ core.old.history.room }
{
    let at = &mut core.nodes[node as usize - 1];
    lower_bitmaps(&core.geometry, &mut core.locks, node, &at.run);
    keep_filled(at);
}

// X is lowered to NL, and its value block stays.
fn lower_stocks(locks: &mut LockDb, node: u8)
    requires lock { IsSome (lock_of (system_of node) (resource_at X locks.old).askers) }
    ensures { locks.new ≡ x_lowered node locks.old }
{
    let (value, _) = locks.value(LockName::X);
    let _granted = locks.convert(LockName::X, Owner { node, part: 0 }, Mode::NL, value);
}

// The stock of a node is given back, and it keeps V and X in NL.
fn keep_drained<O: Operation>(node: &mut Node<O>)
    requires kept { length node.old.kept < 127 }
    ensures { state_of O.cmd_is node.new ≡ turned (lowering_both (state_of O.cmd_is node.old)) }
{
    node.kept.append((LockName::V, Mode::NL));
    node.kept.remove(LockName::X);
    node.kept.append((LockName::X, Mode::NL));
    node.claims.clear();
    begin_phase(&mut node.run, Phase::Last);
    count(node);
}

/// Too little was found and a node's stock is given back: it lowers V, and behind it X. It takes no memory.
pub(crate) fn lower_x<I: ImageDev, O: Operation>(core: &mut Core<I, O>, node: u8)
    requires node { IsOfWorld (plain_of O.cmd_is core.old) node }
    requires geometry { IsGeometry core.old.geometry }
    requires lock { lock_of (system_of node) (resource_at V core.old.locks).askers ≡ Some Mode.PW }
    requires stocks { IsSome (lock_of (system_of node) (resource_at X core.old.locks).askers) }
    requires few { (s : NodeState) → node_at (plain_of O.cmd_is core.old).nodes node ≡ Some s → length s.kept < 127 }
    ensures world { plain_of O.cmd_is core.new ≡ happen (plain_of O.cmd_is core.old) node event.LowerX }
    ensures mirror { core.new.mirror ≡ core.old.mirror }
    ensures room { core.new.history.room ≡ core.old.history.room }
{
    let at = &mut core.nodes[node as usize - 1];
    lower_bitmaps(&core.geometry, &mut core.locks, node, &at.run);
    lower_stocks(&mut core.locks, node);
    keep_drained(at);
}

// X is given back, and its value block stays.
fn return_stocks(locks: &mut LockDb, node: u8)
    requires lock { IsSome (lock_of (system_of node) (resource_at X locks.old).askers) }
    ensures { locks.new ≡ x_returned node locks.old }
{
    let (value, _) = locks.value(LockName::X);
    locks.release(LockName::X, Owner { node, part: 0 }, value);
}

// The stock of a node is given back for good, and it keeps V in NL alone.
fn keep_returned<O: Operation>(node: &mut Node<O>)
    requires kept { length node.old.kept < 128 }
    ensures { state_of O.cmd_is node.new ≡ turned (returning (state_of O.cmd_is node.old)) }
{
    node.kept.append((LockName::V, Mode::NL));
    node.kept.remove(LockName::X);
    node.claims.clear();
    begin_phase(&mut node.run, Phase::Off);
    count(node);
}

/// A node's stock is given back for good: it lowers V, and gives X back. It takes no memory.
pub(crate) fn return_x<I: ImageDev, O: Operation>(core: &mut Core<I, O>, node: u8)
    requires node { IsOfWorld (plain_of O.cmd_is core.old) node }
    requires geometry { IsGeometry core.old.geometry }
    requires lock { lock_of (system_of node) (resource_at V core.old.locks).askers ≡ Some Mode.PW }
    requires stocks { IsSome (lock_of (system_of node) (resource_at X core.old.locks).askers) }
    requires few { (s : NodeState) → node_at (plain_of O.cmd_is core.old).nodes node ≡ Some s → length s.kept < 128 }
    ensures world { plain_of O.cmd_is core.new ≡ happen (plain_of O.cmd_is core.old) node event.Return }
    ensures mirror { core.new.mirror ≡ core.old.mirror }
    ensures room { core.new.history.room ≡ core.old.history.room }
{
    let at = &mut core.nodes[node as usize - 1];
    lower_bitmaps(&core.geometry, &mut core.locks, node, &at.run);
    return_stocks(&mut core.locks, node);
    keep_returned(at);
}
