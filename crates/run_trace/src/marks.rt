//! How a node stands before its turn.

ghost use Rattle.std.specs.Prelude.{◌≡◌};
ghost use Rattle.core_state.specs.Worlds.{state_of};
ghost use Rattle.run_trace.specs.Reads.{mark_of};

use core_state::Node;
use lock_db::LockDb;
use node_locks::waits;
use op_law::Operation;

/// How a node stands before its turn.
#[derive(Clone, Copy)]
pub struct Mark {
    /// How many locks its command has asked for, how many blocks it has seen, and how many of its writes are done.
    pub asked: usize,
    pub looked: usize,
    pub done: usize,

    /// Whether the lock that it has claimed by its rules for space stands in a queue.
    pub claimed: bool,
}

/// How a node stands now.
#[tactic(auto, unfolding(crate::specs::Reads::mark_of))]
pub fn mark_of<O: Operation>(locks: &LockDb, node: u8, at: &Node<O>) -> Mark
    ensures { result ≡ mark_of locks.now node (state_of O.cmd_is at.now) }
{
    Mark {
        asked: at.asked.items().len(),
        looked: at.seen.blocks.items().len(),
        done: at.done,
        claimed: waits(locks, node, at.claims.items()),
    }
}
