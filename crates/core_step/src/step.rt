//! A turn: the event of the first rule that applies.

ghost use Rattle.std.specs.Prelude.{ℕ, ◌≡◌, ◌≤◌, ◌⊎◌, true, false, Some, None, Err, IfOk, OnOk, OnErr, IsSome};
ghost use Rattle.base_words.specs.Faults.{Rose};
ghost use Rattle.base_words.specs.Fields.{Block};
ghost use Rattle.core_space.specs.declared.event.SpaceEvent.TheVariants as space;
ghost use Rattle.plain_cat.specs.declared.command.Cmd.{Cmd};
ghost use Rattle.op_law.specs.declared.need.Need.TheVariants as needed;
ghost use Rattle.core_state.specs.Event as event;
ghost use Rattle.op_law.specs.Laws.{Lawful};
ghost use Rattle.core_state.specs.Worlds.{NodeState, IsOfWorld, state_of, plain_of, node_at, current};
ghost use Rattle.core_state.specs.Goods.{Good, HasOnly, HasRoom};
ghost use Rattle.core_state.specs.Images.{IsTorn};
ghost use Rattle.blk_drive.specs.Telling.{IsTold};
ghost use Rattle.blk_drive.specs.Telling.{told_as};
ghost use Rattle.core_state.specs.Uses.{UsesTheDrives};
ghost use Rattle.core_state.specs.Events.{is_out, is_write, begun, by_rule, or_use, serves, gives_back, stands, is_held_up, next_event, plan_at, after_turn};
ghost use Rattle.core_step.specs.Ready.{Makes, IsBegun, IsReady, Begins, NeedsNow, LacksSpace, IsGivenAll, forgotten};
ghost use Rattle.core_step.specs.Moving.{IsPut, CanMove};
ghost use Rattle.core_step.specs.Memory.{takes_none};
ghost use Rattle.core_step.specs.Outcome.{IsTurn, held_of};
ghost use Rattle.core_step.specs.Turns.{told};

use crate::answers::{answer, write};
use crate::asks::{going_ask, writes_by};
use crate::caches::{current_block, kept_sequence, part_now};
use crate::channels::channel_seen;
use crate::claims::{claim, lower_v, lower_x, return_x};
use crate::events::{ask, fetch, leave, lock, look, plan, stand, use_block};
use crate::needs::next_need;
use crate::searches::{space_look, space_use, space_write};
use crate::serving::{serve, take_back};
use crate::spaces::{back_event, gives_back, phase_begun, serves, space_event, stands};
use crate::turns::{Kind, Turn, TurnFault};
use blk_drive::ImageDev;
use core_space::{Phase, SpaceEvent, SpaceNeed};
use core_state::{Core, Node, World};
use lock_db::{Asked, LockName};
use op_law::{Need, Operation};
use plain_cat::Cmd;
use std::alloc::Global;

// By its rules for space, for this need, a node looks at a bitmap block: it uses the block that it has cached, if that is current, and
// else reads it from the drive.
fn by_space_look<I: ImageDev, O: Operation>(
    alloc: Global,
    core: &mut Core<I, O>,
    node: u8,
    need: SpaceNeed,
    lbn: u32,
) -> Result<Turn, TurnFault>
    requires good { Good (plain_of O.cmd_is core.old) }
    requires node { IsOfWorld (plain_of O.cmd_is core.old) node }
    requires need { need.clusters ≤ 65536 }
    requires makes { (s : NodeState) → node_at (plain_of O.cmd_is core.old).nodes node ≡ Some s → Makes (plain_of O.cmd_is core.old) node (or_use (plain_of O.cmd_is core.old) s (event.SpaceLook need.clusters need.number lbn)) }
    requires can { (s : NodeState) → node_at (plain_of O.cmd_is core.old).nodes node ≡ Some s → CanMove (plain_of O.cmd_is core.old) node s (event.SpaceLook need.clusters need.number lbn) }
    requires room { HasRoom (plain_of O.cmd_is core.old) core.old.history.room }
    ensures { IsTurn I.faults I.told node (held_of O.cmd_is core.old) (held_of O.cmd_is core.new) result }
{
    let at = &core.nodes[node as usize - 1];
    let part = part_now(&core.geometry, &core.locks, LockName::V, lbn);
    if let Some(block) = current_block(part, &at.cache, LockName::V, lbn) {
        let block = *block;
        space_use(alloc, core, node, need, lbn, &block)?;
        return Ok(Turn::Moved(Kind::Used));
    }
    let seq = kept_sequence(part, &core.locks, node, LockName::V);
    space_look(alloc, core, node, need, lbn, seq)?;
    Ok(Turn::Moved(Kind::Looked))
}

// The event of a node by its rules for space, which go on in this phase, for this need.
fn by_rule<I: ImageDev, O: Operation>(
    alloc: Global,
    core: &mut Core<I, O>,
    node: u8,
    phase: Phase,
    need: SpaceNeed,
    event: SpaceEvent,
) -> Result<Turn, TurnFault>
    requires good { Good (plain_of O.cmd_is core.old) }
    requires node { IsOfWorld (plain_of O.cmd_is core.old) node }
    requires need { need.clusters ≤ 65536 }
    requires makes { (s : NodeState) → node_at (plain_of O.cmd_is core.old).nodes node ≡ Some s → Makes (plain_of O.cmd_is core.old) node (or_use (plain_of O.cmd_is core.old) s (by_rule s phase need event)) }
    requires can { (s : NodeState) → node_at (plain_of O.cmd_is core.old).nodes node ≡ Some s → CanMove (plain_of O.cmd_is core.old) node s (by_rule s phase need event) }
    requires puts { (s : NodeState) (lbn : ℕ) (b : Block) → node_at (plain_of O.cmd_is core.old).nodes node ≡ Some s → event ≡ space.Put lbn b → IsPut s lbn b }
    requires room { HasRoom (plain_of O.cmd_is core.old) core.old.history.room }
    ensures { IsTurn I.faults I.told node (held_of O.cmd_is core.old) (held_of O.cmd_is core.new) result }
{
    match event {
        SpaceEvent::Ask(name, mode) => match claim(alloc, core, node, phase, name, mode)? {
            Asked::Granted => Ok(Turn::Moved(Kind::Locked)),
            Asked::Queued => Ok(Turn::Waiting),
        },
        SpaceEvent::Look(lbn) => by_space_look(alloc, core, node, need, lbn),
        SpaceEvent::Put { lbn, block } => {
            space_write(alloc, core, node, lbn, &block)?;
            Ok(Turn::Moved(Kind::Wrote))
        }
        SpaceEvent::LowerV => {
            lower_v(core, node);
            Ok(Turn::Moved(Kind::Lowered))
        }
        SpaceEvent::LowerX => {
            lower_x(core, node);
            Ok(Turn::Moved(Kind::Lowered))
        }
        SpaceEvent::Return => {
            return_x(core, node);
            Ok(Turn::Moved(Kind::Returned))
        }
        SpaceEvent::Enough => {
            stand(core, node);
            Ok(Turn::Waiting)
        }
        SpaceEvent::Short(_) => {
            stand(core, node);
            Ok(Turn::Waiting)
        }
    }
}

// A command needs space, which its stock has not: its rules for space go on.
fn by_space<I: ImageDev, O: Operation>(
    alloc: Global,
    core: &mut Core<I, O>,
    node: u8,
    need: SpaceNeed,
) -> Result<Turn, TurnFault>
    requires good { Good (plain_of O.cmd_is core.old) }
    requires node { IsOfWorld (plain_of O.cmd_is core.old) node }
    requires ready { IsReady (plain_of O.cmd_is core.old) node }
    requires plan { plan_at (plain_of O.cmd_is core.old) node ≡ None }
    requires needs { NeedsNow (plain_of O.cmd_is core.old) node (needed.Space need.clusters need.number) }
    requires lacks { LacksSpace (plain_of O.cmd_is core.old) node (needed.Space need.clusters need.number) }
    requires room { HasRoom (plain_of O.cmd_is core.old) core.old.history.room }
    ensures { IsTurn I.faults I.told node (held_of O.cmd_is core.old) (held_of O.cmd_is core.new) result }
{
    let at = &core.nodes[node as usize - 1];
    let event = space_event(alloc, at, need)?;
    let phase = phase_begun(at.run.phase);
    by_rule(alloc, core, node, phase, need, event)
}

// A command looks at a block that a lock guards: it uses the block that its node has cached, if that is current, and else reads it from
// the drive.
fn by_look<I: ImageDev, O: Operation>(
    alloc: Global,
    core: &mut Core<I, O>,
    node: u8,
    name: LockName,
    lbn: u32,
) -> Result<Turn, TurnFault>
    requires good { Good (plain_of O.cmd_is core.old) }
    requires node { IsOfWorld (plain_of O.cmd_is core.old) node }
    requires ready { IsReady (plain_of O.cmd_is core.old) node }
    requires plan { plan_at (plain_of O.cmd_is core.old) node ≡ None }
    requires needs { NeedsNow (plain_of O.cmd_is core.old) node (needed.Block name lbn) }
    requires room { HasRoom (plain_of O.cmd_is core.old) core.old.history.room }
    ensures { IsTurn I.faults I.told node (held_of O.cmd_is core.old) (held_of O.cmd_is core.new) result }
{
    let at = &core.nodes[node as usize - 1];
    let part = part_now(&core.geometry, &core.locks, name, lbn);
    if let Some(block) = current_block(part, &at.cache, name, lbn) {
        let block = *block;
        use_block(core, node, lbn, &block)?;
        return Ok(Turn::Moved(Kind::Used));
    }
    let seq = kept_sequence(part, &core.locks, node, name);
    look(alloc, core, node, name, lbn, seq)?;
    Ok(Turn::Moved(Kind::Looked))
}

// A command that has not decided on a plan goes on by this need.
fn by_need<I: ImageDev, O: Operation>(
    alloc: Global,
    core: &mut Core<I, O>,
    node: u8,
    need: Need,
) -> Result<Turn, TurnFault>
    requires good { Good (plain_of O.cmd_is core.old) }
    requires node { IsOfWorld (plain_of O.cmd_is core.old) node }
    requires ready { IsReady (plain_of O.cmd_is core.old) node }
    requires plan { plan_at (plain_of O.cmd_is core.old) node ≡ None }
    requires needs { NeedsNow (plain_of O.cmd_is core.old) node need }
    requires lacks { LacksSpace (plain_of O.cmd_is core.old) node need }
    requires room { HasRoom (plain_of O.cmd_is core.old) core.old.history.room }
    ensures { IsTurn I.faults I.told node (held_of O.cmd_is core.old) (held_of O.cmd_is core.new) result }
{
    match need {
        Need::Lock(name, mode) => match lock(alloc, core, node, name, mode)? {
            Asked::Granted => Ok(Turn::Moved(Kind::Locked)),
            Asked::Queued => Ok(Turn::Waiting),
        },
        Need::Block(name, lbn) => by_look(alloc, core, node, name, lbn),
        Need::Bare(lbn) => {
            fetch(core, node, lbn)?;
            Ok(Turn::Moved(Kind::Looked))
        }
        Need::Space { clusters, number } => {
            by_space(alloc, core, node, SpaceNeed { clusters, number })
        }
        Need::Ready(made) => {
            plan(core, node, made)?;
            Ok(Turn::Moved(Kind::Planned))
        }
    }
}

// A command was given what it needs from the stock, and goes on by its next need.
fn go_on_served<I: ImageDev, O: Operation>(
    alloc: Global,
    core: &mut Core<I, O>,
    node: u8,
) -> Result<Turn, TurnFault>
    requires good { Good (plain_of O.cmd_is core.old) }
    requires node { IsOfWorld (plain_of O.cmd_is core.old) node }
    requires ready { IsReady (plain_of O.cmd_is core.old) node }
    requires plan { plan_at (plain_of O.cmd_is core.old) node ≡ None }
    requires given { IsGivenAll (plain_of O.cmd_is core.old) node }
    requires room { HasRoom (plain_of O.cmd_is core.old) core.old.history.room }
    ensures { IsTurn I.faults I.told node (held_of O.cmd_is core.old) (held_of O.cmd_is core.new) result }
{
    let need = next_need(alloc, &core.nodes[node as usize - 1])?;
    by_need(alloc, core, node, need)
}

// A command needs this, and its stock is enough: it is given that, and goes on. After an error the stock has it again.
fn by_stock<I: ImageDev, O: Operation>(
    alloc: Global,
    core: &mut Core<I, O>,
    node: u8,
    need: SpaceNeed,
) -> Result<Turn, TurnFault>
    requires good { Good (plain_of O.cmd_is core.old) }
    requires node { IsOfWorld (plain_of O.cmd_is core.old) node }
    requires begun { IsBegun (plain_of O.cmd_is core.old) node }
    requires plan { plan_at (plain_of O.cmd_is core.old) node ≡ None }
    requires needs { NeedsNow (plain_of O.cmd_is core.old) node (needed.Space need.clusters need.number) }
    requires serves { (s : NodeState) → node_at (plain_of O.cmd_is core.old).nodes node ≡ Some s → serves s need.clusters need.number ≡ true }
    requires room { HasRoom (plain_of O.cmd_is core.old) core.old.history.room }
    ensures { IsTurn I.faults I.told node (held_of O.cmd_is core.old) (held_of O.cmd_is core.new) result }
{
    let before = serve(alloc, &mut core.nodes[node as usize - 1], need)?;
    match go_on_served(alloc, core, node) {
        Ok(turn) => Ok(turn),
        Err(fault) => {
            take_back(alloc, &mut core.nodes[node as usize - 1], before);
            Err(fault)
        }
    }
}

// A command that has not decided on a plan goes on by its next need.
fn unplanned<I: ImageDev, O: Operation>(
    alloc: Global,
    core: &mut Core<I, O>,
    node: u8,
) -> Result<Turn, TurnFault>
    requires good { Good (plain_of O.cmd_is core.old) }
    requires node { IsOfWorld (plain_of O.cmd_is core.old) node }
    requires begun { IsBegun (plain_of O.cmd_is core.old) node }
    requires plan { plan_at (plain_of O.cmd_is core.old) node ≡ None }
    requires room { HasRoom (plain_of O.cmd_is core.old) core.old.history.room }
    ensures { IsTurn I.faults I.told node (held_of O.cmd_is core.old) (held_of O.cmd_is core.new) result }
{
    let at = &core.nodes[node as usize - 1];
    match next_need(alloc, at)? {
        Need::Space { clusters, number } => {
            let wanted = SpaceNeed { clusters, number };
            if serves(at, wanted) {
                by_stock(alloc, core, node, wanted)
            } else {
                by_need(alloc, core, node, Need::Space { clusters, number })
            }
        }
        need => by_need(alloc, core, node, need),
    }
}

// A command that has decided on a plan makes its next write, or its ask, or answers.
fn planned<I: ImageDev, O: Operation>(
    alloc: Global,
    core: &mut Core<I, O>,
    node: u8,
) -> Result<Turn, TurnFault>
    requires good { Good (plain_of O.cmd_is core.old) }
    requires node { IsOfWorld (plain_of O.cmd_is core.old) node }
    requires ready { IsReady (plain_of O.cmd_is core.old) node }
    requires plan { IsSome (plan_at (plain_of O.cmd_is core.old) node) }
    requires room { HasRoom (plain_of O.cmd_is core.old) core.old.history.room }
    ensures { IsTurn I.faults I.told node (held_of O.cmd_is core.old) (held_of O.cmd_is core.new) result }
{
    let at = &core.nodes[node as usize - 1];
    let Some(plan) = &at.plan else { unreachable!() };
    let writes = writes_by(plan, at.tried);
    if at.done < writes.len() {
        let w = &writes[at.done];
        let name = w.lock;
        let lbn = w.lbn;
        let block = w.block;
        let done = at.done + 1;
        write(core, node, name, lbn, &block, done)?;
        return Ok(Turn::Moved(Kind::Wrote));
    }
    if let Some(aim) = going_ask(plan, at.tried, &core.locks, node) {
        ask(alloc, core, node, aim)?;
        return Ok(Turn::Moved(Kind::Tried));
    }
    answer(alloc, core, node);
    Ok(Turn::Answered)
}

// A node goes on with its command: by its plan, or else by its next need.
fn go_on<I: ImageDev, O: Operation>(
    alloc: Global,
    core: &mut Core<I, O>,
    node: u8,
) -> Result<Turn, TurnFault>
    requires good { Good (plain_of O.cmd_is core.old) }
    requires node { IsOfWorld (plain_of O.cmd_is core.old) node }
    requires begun { IsBegun (plain_of O.cmd_is core.old) node }
    requires room { HasRoom (plain_of O.cmd_is core.old) core.old.history.room }
    ensures { IsTurn I.faults I.told node (held_of O.cmd_is core.old) (held_of O.cmd_is core.new) result }
{
    if core.nodes[node as usize - 1].plan.is_some() {
        planned(alloc, core, node)
    } else {
        unplanned(alloc, core, node)
    }
}

// A node begins a command, for which it has seen what its channel has open.
fn begin<O: Operation>(node: &mut Node<O>, cmd: Cmd)
    requires { O.takes cmd }
    ensures lawful { Lawful cmd }
    ensures state { state_of O.cmd_is node.new ≡ begun (state_of O.cmd_is node.old) cmd }
{
    node.seen.channel = channel_seen(&node.opens, &cmd);
    node.op = Some(O::of(cmd));
}

// A node is without a command again.
fn forget<O: Operation>(node: &mut Node<O>)
    ensures { state_of O.cmd_is node.new ≡ forgotten (state_of O.cmd_is node.old) }
{
    node.op = None;
    node.seen.channel = None;
}

// A node begins a command with its first event. After an error it is without the command.
fn first<I: ImageDev, O: Operation>(
    alloc: Global,
    core: &mut Core<I, O>,
    node: u8,
    cmd: Cmd,
) -> Result<Turn, TurnFault>
    requires good { Good (plain_of O.cmd_is core.old) }
    requires node { IsOfWorld (plain_of O.cmd_is core.old) node }
    requires begins { Begins (plain_of O.cmd_is core.old) node cmd }
    requires takes { O.takes cmd }
    requires room { HasRoom (plain_of O.cmd_is core.old) core.old.history.room }
    ensures turn { IsTurn I.faults I.told node (held_of O.cmd_is core.old) (held_of O.cmd_is core.new) result }
    ensures lawful { Lawful cmd }
{
    begin(&mut core.nodes[node as usize - 1], cmd);
    match go_on(alloc, core, node) {
        Ok(turn) => Ok(turn),
        Err(fault) => {
            forget(&mut core.nodes[node as usize - 1]);
            Err(fault)
        }
    }
}

// Whether a node has left, or is dead.
fn is_out<O: Operation>(node: &Node<O>) -> bool
    ensures { result ≡ is_out (state_of O.cmd_is node.now) }
{
    node.over || node.past.is_dead()
}

// A node gives its stock back.
fn by_back<I: ImageDev, O: Operation>(
    alloc: Global,
    core: &mut Core<I, O>,
    node: u8,
) -> Result<Turn, TurnFault>
    requires good { Good (plain_of O.cmd_is core.old) }
    requires node { IsOfWorld (plain_of O.cmd_is core.old) node }
    requires on { (s : NodeState) → node_at (plain_of O.cmd_is core.old).nodes node ≡ Some s → (is_out s ≡ false) × ((gives_back (plain_of O.cmd_is core.old) node s ≡ true) × (stands (plain_of O.cmd_is core.old) node s ≡ false)) }
    requires room { HasRoom (plain_of O.cmd_is core.old) core.old.history.room }
    ensures { IsTurn I.faults I.told node (held_of O.cmd_is core.old) (held_of O.cmd_is core.new) result }
{
    let event = back_event(&core.nodes[node as usize - 1]);
    let need = SpaceNeed {
        clusters: 0,
        number: false,
    };
    by_rule(alloc, core, node, Phase::Back, need, event)
}

// A node goes on with its command, or begins its next one, or leaves.
fn by_command<I: ImageDev, O: Operation>(
    alloc: Global,
    core: &mut Core<I, O>,
    node: u8,
) -> Result<Turn, TurnFault>
    requires good { Good (plain_of O.cmd_is core.old) }
    requires node { IsOfWorld (plain_of O.cmd_is core.old) node }
    requires takes { HasOnly O.takes core.old.script }
    requires on { (s : NodeState) → node_at (plain_of O.cmd_is core.old).nodes node ≡ Some s → (is_out s ≡ false) × ((gives_back (plain_of O.cmd_is core.old) node s ≡ false) × (stands (plain_of O.cmd_is core.old) node s ≡ false)) }
    requires room { HasRoom (plain_of O.cmd_is core.old) core.old.history.room }
    ensures turn { IsTurn I.faults I.told node (held_of O.cmd_is core.old) (held_of O.cmd_is core.new) result }
    ensures lawful { OnOk result ((s : NodeState) (x : Cmd) → node_at (plain_of O.cmd_is core.old).nodes node ≡ Some s → current (plain_of O.cmd_is core.old) node s ≡ Some x → Lawful x) }
{
    let at = &core.nodes[node as usize - 1];
    if at.op.is_some() {
        return go_on(alloc, core, node);
    }
    if !at.past.has_next(&core.script, node) {
        leave(core, node);
        return Ok(Turn::Over);
    }
    let Some(cmd) = at.past.next(alloc, &core.script, node)? else {
        unreachable!()
    };
    first(alloc, core, node, cmd)
}

// One turn of a node: the event of the first rule that applies. After an error what the world is made of is as before.
fn step<I: ImageDev, O: Operation>(
    alloc: Global,
    core: &mut Core<I, O>,
    node: u8,
) -> Result<Turn, TurnFault>
    requires good { Good (plain_of O.cmd_is core.old) }
    requires takes { HasOnly O.takes core.old.script }
    requires node { IsOfWorld (plain_of O.cmd_is core.old) node }
    requires room { HasRoom (plain_of O.cmd_is core.old) core.old.history.room }
    ensures turn { IsTurn I.faults I.told node (held_of O.cmd_is core.old) (held_of O.cmd_is core.new) result }
    ensures lawful { OnOk result ((s : NodeState) (x : Cmd) → node_at (plain_of O.cmd_is core.old).nodes node ≡ Some s → is_held_up (plain_of O.cmd_is core.old) node s ≡ false → current (plain_of O.cmd_is core.old) node s ≡ Some x → Lawful x) }
{
    if is_out(&core.nodes[node as usize - 1]) {
        stand(core, node);
        return Ok(Turn::Over);
    }
    let gives = gives_back(core, node);
    if stands(core, node, gives) {
        stand(core, node);
        return Ok(Turn::Waiting);
    }
    if gives {
        by_back(alloc, core, node)
    } else {
        by_command(alloc, core, node)
    }
}

/// One turn of a node, which counts from 1: the event of the first rule that applies to it. A node that is over, and one whose
/// request stands in a queue still, make no other event. After a fault the world is as before: ImageFault comes only where a
/// write of the image failed, whose block there is then the old one or the new; NoMemory where memory ran out. A turn that makes
/// a write of a plan, or answers, takes no memory, and neither does one in which nothing happens: once a command has decided on a
/// plan only an ask that is granted takes any.
pub fn turn<I: ImageDev, O: Operation>(
    alloc: Global,
    w: &mut World<I, O>,
    node: u8,
) -> Result<Turn, TurnFault>
    requires { IsOfWorld w.old.world node }
    ensures moved { OnOk result (w.new.world ≡ after_turn w.old.world node) }
    ensures answer { IfOk result (λ t. t ≡ told w.new.world node (next_event w.old.world node)) }
    ensures same { OnErr result (w.new.world ≡ w.old.world) }
    ensures memory { result ≡ Err TurnFault.NoMemory → takes_none w.old.world.locks node (next_event w.old.world node) ≡ false }
    ensures later { I.faults w.old.image ≤ I.faults w.new.image }
    ensures cause { result ≡ Err TurnFault.ImageFault → Rose (I.faults w.old.image) (I.faults w.new.image) }

    // It comes only in place of a write. The image, if it had the blocks of the drive before, has then those from before the turn or
    // those that the turn would have left, and in all other cases those of the drive.
    ensures before { result ≡ Err TurnFault.ImageFault → is_write (next_event w.old.world node) ≡ true }
    ensures torn { result ≡ Err TurnFault.ImageFault → IsTold (I.told w.old.image) w.old.world.blocks
        → IsTorn (I.told w.old.image) (I.told w.new.image) w.old.world.blocks (after_turn w.old.world node).blocks }
    ensures drive { IsTold (I.told w.old.image) w.old.world.blocks
        → (I.told w.new.image ≡ told_as (I.told w.old.image) w.new.world.blocks) ⊎ (result ≡ Err TurnFault.ImageFault) }

    // A block that it uses from the node's cache is the drive's.
    ensures used { OnOk result (UsesTheDrives w.old.world node) }
{
    step(alloc, &mut w.core, node)
}
