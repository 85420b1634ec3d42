//! A node's locks go back.

ghost use Rattle.std.specs.Prelude.{◌≡◌, List, ◌++◌, not, map, filter, IsSome, if◌then◌else◌};
ghost use Rattle.lock_db.specs.Queues.{lock_of};
ghost use Rattle.lock_db.specs.Tables.{resource_at, converted, released};
ghost use Rattle.node_locks.specs.Held.{system_of};
ghost use Rattle.node_locks.specs.PuttingBack.{MayPutBack};
ghost use Rattle.node_locks.specs.Sequences.{raised_block};
ghost use Rattle.node_cache.specs.Cached.{Cached};
ghost use Rattle.core_space.specs.Lasting.{stays_by};
ghost use Rattle.core_state.specs.Caches.{keeps, raised_values, put_back_all};
ghost use Rattle.vol_parts.specs.Parts.{IsGeometry};
ghost use Rattle.core_space.specs.Rule.{has_any};
ghost use Rattle.core_state.specs.Events.{given_back, left_alone};
ghost use Rattle.core_step.specs.Giving.{MayGiveAll, MayLeaveAll};

use crate::raises::raise_of;
use core_space::stays_behind;
use extent_cache::Extents;
use lock_db::{LockDb, LockName, Owner};
use node_cache::{LockWalk, NodeCache};
use node_locks::{Raise, lower, release};
use op_law::PlanWrite;
use plain_cat::Mode;
use vol_parts::Geometry;

/// Whether a stock holds anything.
pub(crate) fn has_any(stock: &Extents) -> bool
    ensures { result ≡ has_any stock.now }
{
    stock.count() > 0 || !stock.numbers().is_empty()
}

// Puts back one lock: it is lowered to NL where a cached block is under it, and else it goes back.
fn put_back(locks: &mut LockDb, node: u8, name: LockName, cached: bool, raise: Raise)
    requires { IsSome (lock_of (system_of node) (resource_at name locks.old).askers) }
    ensures { locks.new ≡ (if cached then converted name (system_of node) Mode.NL (raised_block name raise (resource_at name locks.old)) locks.old
        else released name (system_of node) (raised_block name raise (resource_at name locks.old)) locks.old) }
{
    if cached {
        lower(locks, node, name, Mode::NL, raise);
    } else {
        release(locks, node, name, raise);
    }
}

/// Puts back the locks of a node, in order: each is lowered to NL where a cached block is under it, or goes back, with its value block
/// raised by the writes under it, those of its search and those of its plan. It takes no memory.
pub(crate) fn put_back_all(
    g: &Geometry,
    node: u8,
    takes: &[PlanWrite],
    writes: &[PlanWrite],
    cache: &NodeCache,
    held: &[(LockName, Mode)],
    locks: &mut LockDb,
)
    requires geometry { IsGeometry g.now }
    requires may { MayPutBack node (keeps cache.now) (raised_values g.now (takes.now ++ writes.now)) held.now locks.old }
    ensures { locks.new ≡ put_back_all g.now node (takes.now ++ writes.now) cache.now held.now locks.old }
{
    for (name, _) in held {
        let raise = raise_of(g, *name, takes, writes);
        put_back(locks, node, *name, cache.holds_under(*name), raise);
    }
}

// Whether a lock that a node keeps stays behind an answer: X does where it has a stock, and any other where a walk through the locks of
// its cache meets it.
fn stays(name: LockName, stocked: bool, walk: &mut LockWalk) -> bool
    ensures stays { (es : List Cached) → walk.old ≡ map (λ (e : Cached). e.lock) es → result ≡ stays_by stocked es (name, Mode.NL) }
    ensures same { walk.new ≡ walk.old }
{
    stays_behind(name, stocked, walk)
}

/// Gives back those of the locks that a node keeps, in order, that do not stay behind an answer. It takes no memory.
pub(crate) fn give_back_going(
    g: &Geometry,
    node: u8,
    takes: &[PlanWrite],
    writes: &[PlanWrite],
    cache: &NodeCache,
    stocked: bool,
    kept: &[(LockName, Mode)],
    locks: &mut LockDb,
)
    requires geometry { IsGeometry g.now }
    requires may { MayGiveAll g.now node (takes.now ++ writes.now) (filter (λ l. not (stays_by stocked cache.now l)) kept.now) locks.old }
    ensures { locks.new ≡ given_back g.now node (takes.now ++ writes.now) (filter (λ l. not (stays_by stocked cache.now l)) kept.now) locks.old }
{
    let mut walk = cache.walk();
    for (name, _) in kept {
        if !stays(*name, stocked, &mut walk) {
            release(locks, node, *name, raise_of(g, *name, takes, writes));
        }
    }
}

/// Gives back the locks of a node, in order, with their value blocks left as they are. It takes no memory.
pub(crate) fn leave_all(node: u8, held: &[(LockName, Mode)], locks: &mut LockDb)
    requires { MayLeaveAll node held.now locks.old }
    ensures { locks.new ≡ left_alone node held.now locks.old }
{
    for (name, _) in held {
        let (value, _) = locks.value(*name);
        locks.release(*name, Owner { node, part: 0 }, value);
    }
}
