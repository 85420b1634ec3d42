//! What a command is given from its node's stock.

ghost use Rattle.std.specs.Prelude.{◌≡◌, IsTrue, IfOk, OnOk, OnErr};
ghost use Rattle.core_state.specs.Worlds.{state_of};
ghost use Rattle.core_state.specs.Events.{serves, serving};
ghost use Rattle.core_step.specs.Spaces.{unserved};

use core_space::{Phase, SpaceNeed};
use core_state::Node;
use extent_cache::Extents;
use op_law::{NoMemory, Operation};
use plain_cat::Clusters;
use std::alloc::Global;
use std::mem;

/// What a node had before its command was given something.
#[derive(Drop)]
pub(crate) struct Before {
    pub(crate) stock: Extents,
    pub(crate) phase: Phase,
}

/// A node's command is given what it needs from the stock, which is enough. An error says that memory ran out, and nothing was given.
pub(crate) fn serve<O: Operation>(
    alloc: Global,
    node: &mut Node<O>,
    need: SpaceNeed,
) -> Result<Before, NoMemory>
    requires { IsTrue (serves (state_of O.cmd_is node.old) need.clusters need.number) }
    ensures before { IfOk result (λ b. (b.stock ≡ node.old.stock) × (b.phase ≡ node.old.run.phase)) }
    ensures ok { OnOk result (state_of O.cmd_is node.new ≡ serving (state_of O.cmd_is node.old) need.clusters need.number) }
    ensures err { OnErr result (state_of O.cmd_is node.new ≡ state_of O.cmd_is node.old) }
{
    let Some(lowest) = node.stock.lowest(alloc, need.clusters, need.number)? else {
        unreachable!()
    };
    let rest = node.stock.rest(alloc, need.clusters, need.number)?;
    node.seen.clusters = lowest.clusters;
    node.seen.number = lowest.number;
    node.seen.short = None;
    let phase = node.run.phase;
    node.run.phase = Phase::Fill;
    Ok(Before {
        stock: mem::replace(&mut node.stock, rest),
        phase,
    })
}

/// The stock has it again.
pub(crate) fn take_back<O: Operation>(alloc: Global, node: &mut Node<O>, before: Before)
    ensures { state_of O.cmd_is node.new ≡ unserved (state_of O.cmd_is node.old) before.phase before.stock.clusters before.stock.numbers }
{
    node.seen.clusters = Clusters::new(alloc);
    node.seen.number = None;
    node.seen.short = None;
    node.run.phase = before.phase;
    node.stock = before.stock;
}
