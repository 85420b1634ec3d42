//! Mounting: a world is made of a drive on which nothing fatal is found.

ghost use Rattle.std.specs.Prelude.{◌≡◌, ◌≤◌, [], IfOk, IfErr, map, replicate};
ghost use Rattle.plain_cat.specs.InForm.{InForm};
ghost use Rattle.core_state.specs.Worlds.{state_of};
ghost use Rattle.core_state.specs.Goods.{HasOnly};
ghost use Rattle.core_state.specs.Mounting.{IsMounted, IsMountEnd, at_rest};

use crate::cluster::Core;
use crate::node::Node;
use crate::spare::SpareLists;
use crate::world::World;
use blk_drive::{ImageDev, Mirror};
use core_space::{LastingLocks, SpaceRun};
use extent_cache::Extents;
use lock_db::LockDb;
use node_cache::NodeCache;
use op_law::{NoMemory, Operation, Seen, SeenBlocks, SeenLocks};
use plain_cat::{Cat, Clusters, History, Script};
use plain_past::Past;
use std::alloc::Global;
use vol_analyze::{Finding, accepted};
use vol_faults::geometry;
use vol_parts::{Geometry, blocks_are_whole};

/// Why a volume was not mounted.
#[derive(Drop)]
pub enum MountFault {
    /// This is found in it first.
    NotAccepted(Finding),

    /// Memory ran out.
    NoMemory,
}

/// A volume that was not mounted, and why.
#[derive(Drop)]
pub struct MountRefused<I: ImageDev> {
    pub fault: MountFault,
    pub mirror: Mirror<I>,
}

// A node at rest.
#[tactic(auto, unfolding(plain_rules::specs::Own::newborn))]
fn resting<O: Operation>(alloc: Global, geometry: Geometry) -> Result<Node<O>, NoMemory>
    ensures { IfOk result (λ node. state_of O.cmd_is node ≡ at_rest geometry) }
{
    Ok(Node {
        past: Past::new(),
        op: None,
        seen: Seen {
            geometry,
            channel: None,
            locks: SeenLocks::new(alloc),
            blocks: SeenBlocks::new(alloc),
            clusters: Clusters::new(alloc),
            number: None,
            short: None,
        },
        plan: None,
        done: 0,
        tried: false,
        asked: SeenLocks::new(alloc),
        kept: LastingLocks::new(alloc)?,
        claims: LastingLocks::new(alloc)?,
        opens: [None; 8],
        run: SpaceRun::new(alloc),
        stock: Extents::new(alloc)?,
        cache: NodeCache::new(alloc)?,
        over: false,
        turns: 0,
        writes: 0,
        reads: 0,
        hits: 0,
    })
}

// So many nodes at rest.
fn all_resting<O: Operation>(
    alloc: Global,
    geometry: Geometry,
    count: u8,
) -> Result<Vec<Node<O>>, NoMemory>
    ensures { IfOk result (λ nodes. map (state_of O.cmd_is) nodes.items ≡ replicate count (at_rest geometry)) }
{
    let mut nodes = Vec::new(alloc);
    for _ in 0..count {
        nodes.push(resting(alloc, geometry)?)?;
    }
    Ok(nodes)
}

// What a mounted world is made of.
#[derive(Drop)]
struct Made<O: Operation> {
    script: Script,
    locks: LockDb,
    nodes: Vec<Node<O>>,
    history: History,
    lists: SpareLists,
}

fn made_of<O: Operation>(
    alloc: Global,
    geometry: Geometry,
    script: &Script,
) -> Result<Made<O>, NoMemory>
    ensures script { IfOk result (λ m. m.script ≡ script.now) }
    ensures locks { IfOk result (λ m. m.locks ≡ []) }
    ensures nodes { IfOk result (λ m. map (state_of O.cmd_is) m.nodes.items ≡ replicate script.now.nodes (at_rest geometry)) }
    ensures history { IfOk result (λ m. m.history.items ≡ []) }
    ensures room { IfOk result (λ m. 8 ≤ m.history.room) }
    ensures lists { IfOk result (λ m. m.lists ≡ script.now.nodes) }
{
    let mut history = History::new(alloc);
    history.make_room(8)?;
    Ok(Made {
        script: script.copy(alloc)?,
        locks: LockDb::new(alloc)?,
        nodes: all_resting(alloc, geometry, script.nodes)?,
        history,
        lists: SpareLists::new(alloc, script.nodes)?,
    })
}

impl<I: ImageDev, O: Operation> World<I, O> {
    /// Mounts a volume, for a script: no node has made a turn, no lock is held, and the history is empty. The opening catalogue is
    /// the one that the volume tells. NotAccepted comes exactly where something is found in the volume, with the first of it;
    /// NoMemory where memory ran out. The drive comes back with a refusal.
    pub fn mount(
        alloc: Global,
        m: Mirror<I>,
        script: &Script,
    ) -> Result<World<I, O>, MountRefused<I>>
        requires form { InForm script.now }
        requires taken { HasOnly O.takes script.now }
        ensures world { IfOk result (λ w. IsMounted m.blocks script.now w.world) }
        ensures image { IfOk result (λ w. w.image ≡ m.image) }
        ensures end { IfErr result (λ r. IsMountEnd m.blocks r.fault) }
        ensures mirror { IfErr result (λ r. r.mirror ≡ m) }
    {
        let _size = m.size();
        let opening = match accepted(alloc, m.all()) {
            Ok(Ok(cat)) => cat,
            Ok(Err(found)) => {
                return Err(MountRefused {
                    fault: MountFault::NotAccepted(found),
                    mirror: m,
                });
            }
            Err(_) => {
                return Err(MountRefused {
                    fault: MountFault::NoMemory,
                    mirror: m,
                });
            }
        };
        blocks_are_whole(m.all());
        let geometry = geometry(m.all());
        let Ok(made) = made_of(alloc, geometry, script) else {
            return Err(MountRefused {
                fault: MountFault::NoMemory,
                mirror: m,
            });
        };
        Ok(World {
            core: Core {
                script: made.script,
                opening,
                geometry,
                mirror: m,
                locks: made.locks,
                nodes: made.nodes,
                history: made.history,
            },
            lists: made.lists,
        })
    }
}
