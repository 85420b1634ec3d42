//! A node dies.

ghost use Rattle.std.specs.Prelude.{◌≡◌, ◌≤◌, ◌<◌, ◌+◌, ◌^◌, false, [], Some};
ghost use Rattle.core_state.specs.Worlds.{NodeState, IsOfWorld, state_of, plain_of, node_at, shown};
ghost use Rattle.core_state.specs.Events.{is_over};
ghost use Rattle.core_state.specs.Deaths.{gone, died};
ghost use Rattle.core_death.specs.Lasts.{clusters_told, death_told, CanDie};

use crate::things::{clusters_now, list_numbers, stage_now};
use blk_drive::ImageDev;
use core_space::Phase;
use core_state::{Core, Node, World};
use op_law::Operation;
use plain_cat::{Entry, NumberList};

// A node has nothing any more. It takes no memory.
fn bury<O: Operation>(node: &mut Node<O>)
    ensures { state_of O.cmd_is node.new ≡ gone (state_of O.cmd_is node.old) }
{
    node.past.die();
    node.op = None;
    node.seen.channel = None;
    node.seen.locks.clear();
    node.seen.blocks.clear();
    node.seen.clusters.clear();
    node.seen.number = None;
    node.seen.short = None;
    node.plan = None;
    node.done = 0;
    node.tried = false;
    node.asked.clear();
    node.kept.clear();
    node.claims.clear();
    node.opens = [None; 8];
    node.run.phase = Phase::Off;
    node.run.looked.clear();
    node.run.writes.clear();
    node.run.made = 0;
    node.run.ready.clear();
    node.stock.clear();
    node.cache.clear();
}

// The entry of the death of a node, with this list for its numbers.
fn entry_of<O: Operation>(node: u8, at: &Node<O>, mut numbers: NumberList) -> Entry
    requires few { clusters_told (state_of O.cmd_is at.now) < 2 ^ 32 }
    requires empty { numbers.items ≡ [] }
    requires room { 4096 ≤ numbers.room }
    ensures { shown result ≡ death_told node (state_of O.cmd_is at.now) }
{
    list_numbers(at, &mut numbers);
    Entry::Died {
        node,
        stage: stage_now(at),
        clusters: clusters_now(at),
        numbers,
    }
}

// A node dies, with this list for its numbers.
fn die<I: ImageDev, O: Operation>(core: &mut Core<I, O>, node: u8, numbers: NumberList)
    requires node { IsOfWorld (plain_of O.cmd_is core.old) node }
    requires state { (s : NodeState) → node_at (plain_of O.cmd_is core.old).nodes node ≡ Some s → CanDie node s }
    requires place { 0 < core.old.history.room }
    requires empty { numbers.items ≡ [] }
    requires room { 4096 ≤ numbers.room }
    ensures world { plain_of O.cmd_is core.new ≡ died (plain_of O.cmd_is core.old) node }
    ensures mirror { core.new.mirror ≡ core.old.mirror }
    ensures room { core.new.history.room + 1 ≡ core.old.history.room }
{
    let entry = entry_of(node, &core.nodes[node as usize - 1], numbers);
    core.locks.drop_node(node);
    core.history.append(entry);
    bury(&mut core.nodes[node as usize - 1]);
}

/// A node that lives dies. Its death is the last entry of the history: it tells the stage at which its command stands, which is that
/// of the last write done, and how many clusters and which file numbers it has outside files and bitmaps: these are leaked. All of its
/// locks and requests go, with the mark of each value block where it held a lock to write, and so do its opens. The drive is left as
/// it is. It takes no memory: places for the entry and for its numbers were made as the volume was mounted. The nodes count from 1.
pub fn kill<I: ImageDev, O: Operation>(w: &mut World<I, O>, node: u8)
    requires node { IsOfWorld w.old.world node }
    requires alive { is_over w.old.world node ≡ false }
    ensures world { w.new.world ≡ died w.old.world node }
    ensures image { w.new.image ≡ w.old.image }
{
    let numbers = w.lists.take();
    die(&mut w.core, node, numbers);
}
