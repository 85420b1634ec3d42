//! What the map underneath holds for a block.

use crate::locks::is_one;
use base_words::Block;
use lock_db::LockName;

/// What is held for a block.
#[derive(Drop)]
pub(crate) struct Held {
    pub(crate) lock: LockName,
    pub(crate) seq: u64,
    pub(crate) block: Block,
}

impl Held {
    ghost use Rattle.std.specs.Prelude.{◌≡◌, ◌==◌, ◌&&◌, nat_le};
    ghost use Rattle.lock_db.specs.Names.{is_same};
    ghost use Rattle.node_cache.specs.Views.{renewed};

    /// Whether it was looked at under the lock and has the sequence.
    pub(crate) fn is_current(&self, lock: LockName, seq: u64) -> bool
        ensures { result ≡ (is_same lock self.now.lock && (seq == self.now.seq)) }
    {
        is_one(lock, self.lock) && seq == self.seq
    }

    /// Whether it was looked at under the lock and has the sequence or a later one.
    pub(crate) fn is_since(&self, lock: LockName, seq: u64) -> bool
        ensures { result ≡ (is_same lock self.now.lock && nat_le seq self.now.seq) }
    {
        is_one(lock, self.lock) && seq <= self.seq
    }

    /// Gives it a new sequence and new bytes, where it was looked at under the lock.
    pub(crate) fn renew(&mut self, lock: LockName, seq: u64, b: &Block)
        ensures { self.new ≡ renewed lock seq b.now self.old }
    {
        if is_one(lock, self.lock) {
            self.seq = seq;
            self.block = *b;
        }
    }
}
