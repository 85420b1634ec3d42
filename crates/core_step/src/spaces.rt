//! The event of a node by its rules for space, and when its stock goes back.

ghost use Rattle.std.specs.Prelude.{◌≡◌, ◌≤◌, ◌&&◌, IfOk, OnErr, None, true, is_none};
ghost use Rattle.plain_rules.specs.Own.{command_after};
ghost use Rattle.lock_db.specs.declared.name.LockName.TheVariants.{X, V};
ghost use Rattle.vol_parts.specs.Parts.{IsGeometry};
ghost use Rattle.lock_db.specs.Queues.{holds_up};
ghost use Rattle.lock_db.specs.Tables.{resource_at};
ghost use Rattle.node_locks.specs.Held.{system_of};
ghost use Rattle.core_space.specs.Rule.{space_event, back_event, is_reader, TakesMemory};
ghost use Rattle.core_state.specs.Worlds.{NodeState, IsOfWorld, state_of, plain_of, node_at, or_next};
ghost use Rattle.core_state.specs.Goods.{Good};
ghost use Rattle.core_state.specs.Asks.{has_asked};
ghost use Rattle.core_state.specs.Events.{space_locks, space_state, serves, phase_begun, is_due_in, gives_back, stands};
ghost use Rattle.core_space.specs.declared.run.Phase.TheVariants.{Off};
ghost use Rattle.extent_cache.specs.Takings.{holds_enough};

use crate::giving::has_any;
use crate::searches::has_asked;
use blk_drive::ImageDev;
use core_space::{Phase, SpaceEvent, SpaceLocks, SpaceNeed, back_next, is_due, space_next};
use core_state::{Core, Node};
use extent_cache::Extents;
use lock_db::{LockDb, LockName};
use node_locks::waits;
use op_law::{NoMemory, Operation};
use plain_cat::{Mode, Script};
use std::alloc::Global;

// The modes in which a node holds X and V by its rules for space.
fn space_locks<O: Operation>(node: &Node<O>) -> SpaceLocks
    ensures { result ≡ space_locks (state_of O.cmd_is node.now) }
{
    SpaceLocks {
        x: node.kept.x().or(node.claims.x()),
        v: node.kept.v().or(node.claims.v()),
    }
}

/// The phase of a rule that has begun.
pub(crate) fn phase_begun(phase: Phase) -> Phase
    ensures { result ≡ phase_begun phase }
{
    match phase {
        Phase::Off => Phase::Fill,
        other => other,
    }
}

/// The event of a node by its rules for space, where its command has this need. An error says that memory ran out: it comes only in
/// the search of all free space, where no write comes next.
pub(crate) fn space_event<O: Operation>(
    alloc: Global,
    node: &Node<O>,
    need: SpaceNeed,
) -> Result<SpaceEvent, NoMemory>
    requires geometry { IsGeometry node.now.seen.geometry }
    requires need { need.clusters ≤ 65536 }
    ensures event { IfOk result (λ e. e ≡ space_event (space_state (state_of O.cmd_is node.now)) need) }
    ensures memory { OnErr result (TakesMemory (space_state (state_of O.cmd_is node.now))) }
{
    space_next(
        alloc,
        &node.seen.geometry,
        space_locks(node),
        &node.run,
        &node.stock,
        need,
    )
}

/// The event of a node's give-back. It takes no memory.
pub(crate) fn back_event<O: Operation>(node: &Node<O>) -> SpaceEvent
    requires { IsGeometry node.now.seen.geometry }
    ensures { result ≡ back_event (space_state (state_of O.cmd_is node.now)) }
{
    back_next(
        &node.seen.geometry,
        space_locks(node),
        &node.run,
        &node.stock,
    )
}

// Whether a stock holds so many clusters, and a number where one is wanted.
fn holds_enough(stock: &Extents, need: SpaceNeed) -> bool
    ensures { result ≡ holds_enough need.clusters need.number stock.now }
{
    need.clusters <= stock.count() && (!need.number || !stock.numbers().is_empty())
}

/// Whether a node's command may be given what it needs from the stock.
pub(crate) fn serves<O: Operation>(node: &Node<O>, need: SpaceNeed) -> bool
    ensures { result ≡ serves (state_of O.cmd_is node.now) need.clusters need.number }
{
    let may = matches!(node.run.phase, Phase::Off | Phase::Fill) && node.claims.items().is_empty();
    may && holds_enough(&node.stock, need)
}

// Whether a lock is held in CR.
fn is_reader(mode: Option<Mode>) -> bool
    ensures { result ≡ is_reader mode }
{
    mode == Some(Mode::CR)
}

// Whether no command is left to a node.
fn is_ended<O: Operation>(at: &Node<O>, script: &Script, node: u8) -> bool
    ensures { result ≡ is_none (or_next (state_of O.cmd_is at.now).cmd (command_after script.now node at.now.past)) }
{
    match &at.op {
        Some(_) => false,
        None => !at.past.has_next(script, node),
    }
}

// Whether another node waits for X, where it matters: where this node may have to give its stock back.
fn is_wanted(shares: bool, locks: &LockDb, node: u8) -> bool
    ensures { result ≡ (shares && holds_up (system_of node) (resource_at X locks.now).askers) }
{
    shares && locks.blocking(node, LockName::X)
}

// Whether a node's command holds or awaits V, where it matters.
fn is_busy(wanted: bool, asked: &[(LockName, Mode)]) -> bool
    ensures { result ≡ (wanted && has_asked V asked.now) }
{
    wanted && has_asked(asked, LockName::V)
}

// Whether no command is left to a node, where it matters: where it has a stock.
fn is_through<O: Operation>(stocked: bool, at: &Node<O>, script: &Script, node: u8) -> bool
    ensures { result ≡ (stocked && is_none (or_next (state_of O.cmd_is at.now).cmd (command_after script.now node at.now.past))) }
{
    stocked && is_ended(at, script, node)
}

// Whether a node's stock is to go back, whose rules for space are not begun.
fn is_due_now<I: ImageDev, O: Operation>(core: &Core<I, O>, node: u8) -> bool
    requires good { Good (plain_of O.cmd_is core.now) }
    requires node { IsOfWorld (plain_of O.cmd_is core.now) node }
    ensures { (s : NodeState) → node_at (plain_of O.cmd_is core.now).nodes node ≡ Some s → result ≡ is_due_in (plain_of O.cmd_is core.now) node s Off }
{
    let at = &core.nodes[node as usize - 1];
    let locks = space_locks(at);
    let wanted = is_wanted(is_reader(locks.x), &core.locks, node);
    let busy = is_busy(wanted, at.asked.items());
    let ended = is_through(has_any(&at.stock), at, &core.script, node);
    is_due(locks, &at.stock, wanted, busy, ended)
}

/// Whether a node's give-back is under way, or due. It takes no memory.
pub fn gives_back<I: ImageDev, O: Operation>(core: &Core<I, O>, node: u8) -> bool
    requires good { Good (plain_of O.cmd_is core.now) }
    requires node { IsOfWorld (plain_of O.cmd_is core.now) node }
    ensures { (s : NodeState) → node_at (plain_of O.cmd_is core.now).nodes node ≡ Some s → result ≡ gives_back (plain_of O.cmd_is core.now) node s }
{
    match core.nodes[node as usize - 1].run.phase {
        Phase::Back => true,
        Phase::Off => is_due_now(core, node),
        _ => false,
    }
}

/// Whether the request of a node that has claimed a lock, or of its command where no give-back comes before it, stands in a queue.
pub fn stands<I: ImageDev, O: Operation>(core: &Core<I, O>, node: u8, gives: bool) -> bool
    requires node { IsOfWorld (plain_of O.cmd_is core.now) node }
    requires gives { (s : NodeState) → node_at (plain_of O.cmd_is core.now).nodes node ≡ Some s → gives ≡ gives_back (plain_of O.cmd_is core.now) node s }
    ensures { (s : NodeState) → node_at (plain_of O.cmd_is core.now).nodes node ≡ Some s → result ≡ stands (plain_of O.cmd_is core.now) node s }
{
    let at = &core.nodes[node as usize - 1];
    waits(&core.locks, node, at.claims.items())
        || !gives && waits(&core.locks, node, at.asked.items())
}
