//! The cache and its calls.

ghost use Rattle.std.specs.Prelude.{◌≡◌, ℕ, [], map, find, is_some, option_map, option_copied, IsSome, IfOk, OnOk, OnErr};
ghost use Rattle.std.specs.List.{list_any, IsDistinct};
ghost use Rattle.std.specs.Borrow.{sem};
ghost use Rattle.lock_db.specs.declared.name.LockName.{LockName};
ghost use Rattle.lock_db.specs.Names.{is_same};
ghost use Rattle.node_cache.specs.Cached.{Cached, cached, IsCache, is_under, is_since, found, used, kept, replaced, without_lock, locks_of};

use crate::held::Held;
use crate::locks::{is_one, join};
use crate::walk::{ENTRIES, LockWalk};
use base_words::Block;
use lock_db::{LockName, NoMemory};
use lru::LruCache;
use std::alloc::Global;
use std::marker::Model;
use std::num::NonZeroUsize;

/// A node's cache: at most 64 entries, in order of use.
#[derive(Drop)]
pub struct NodeCache {
    cache: LruCache<u32, Held>,
}

impl Model for NodeCache {
    ghost use Rattle.std.specs.Prelude.{◌≡◌, List};
    ghost use Rattle.node_cache.specs.Cached.{Cached, IsCache};
    ghost use Rattle.node_cache.specs.Views.{entries_of};

    ghost Value = { List Cached };

    ghost view = { λ c. entries_of c.cache.entries };

    ghost invariant = { λ c. IsCache (entries_of c.cache.entries) × (c.cache.cap ≡ 64) };
}

impl NodeCache {
    ghost use Rattle.node_cache.specs.Lending.{EndsAs};

    /// An empty cache. It fails only where memory is refused.
    pub fn new(alloc: Global) -> Result<NodeCache, NoMemory>
        ensures { IfOk result (λ c. c ≡ []) }
    {
        let Some(entries) = NonZeroUsize::new(ENTRIES) else {
            unreachable!()
        };
        Ok(NodeCache {
            cache: LruCache::new(alloc, entries)?,
        })
    }

    /// The block's bytes, exactly where there is an entry for it under the lock and with the sequence. That entry comes
    /// to the front then; where there is none, nothing changes.
    pub fn current(&mut self, lbn: u32, lock: LockName, seq: u64) -> Option<&Block>
        ensures* order { sem 𝓛 (EndsAs self.entry (used lbn lock seq self.old)) }
        ensures block { option_copied result ≡ option_map (λ (e : Cached). e.block) (found lbn lock seq self.old) }
    {
        if !self.is_current(lbn, lock, seq) {
            return None;
        }
        match self.cache.get(&lbn) {
            Some(held) => Some(&held.block),
            None => None,
        }
    }

    /// The block's bytes, exactly where there is an entry for it under the lock and with the sequence. All stay in their places.
    pub fn peek(&self, lbn: u32, lock: LockName, seq: u64) -> Option<&Block>
        ensures { option_copied result ≡ option_map (λ (e : Cached). e.block) (found lbn lock seq self.now) }
    {
        let held = self.cache.peek(&lbn)?;
        if !held.is_current(lock, seq) {
            return None;
        }
        Some(&held.block)
    }

    /// A copy of the block's bytes, exactly where there is an entry for it under the lock and with the sequence.
    pub fn block(&self, lbn: u32, lock: LockName, seq: u64) -> Option<Block>
        ensures { result ≡ option_map (λ (e : Cached). e.block) (found lbn lock seq self.now) }
    {
        Some(*self.peek(lbn, lock, seq)?)
    }

    /// Brings the entry for the block, under whatever lock and with whatever sequence it is, to the front. It takes no memory.
    pub fn to_front(&mut self, lbn: u32)
        ensures { (lock : LockName) (seq : ℕ) → IsSome (found lbn lock seq self.old) → self.new ≡ used lbn lock seq self.old }
    {
        self.cache.promote(&lbn);
    }

    /// Brings the entry for the block under the lock and with the sequence to the front. Where there is none, nothing changes. It
    /// takes no memory.
    pub fn promote(&mut self, lbn: u32, lock: LockName, seq: u64)
        ensures { self.new ≡ used lbn lock seq self.old }
    {
        if self.is_current(lbn, lock, seq) {
            self.to_front(lbn);
        }
    }

    /// Whether there is an entry for the block under the lock, with the sequence or a later one.
    pub fn holds_since(&self, lbn: u32, lock: LockName, seq: u64) -> bool
        ensures { result ≡ list_any (is_since lbn lock seq) self.now }
    {
        match self.cache.peek(&lbn) {
            Some(held) => held.is_since(lock, seq),
            None => false,
        }
    }

    /// Keeps a block, as the entry in front. It takes the place of an entry for the same block, whatever its lock, and
    /// where 64 others are held, the last of them goes. Where memory is refused, nothing changes.
    pub fn keep(
        &mut self,
        _alloc: Global,
        lbn: u32,
        lock: LockName,
        seq: u64,
        b: &Block,
    ) -> Result<(), NoMemory>
        ensures ok { OnOk result (self.new ≡ kept (cached lbn lock seq b.now) self.old) }
        ensures err { OnErr result (self.new ≡ self.old) }
    {
        let held = Held {
            lock,
            seq,
            block: *b,
        };
        self.cache.put(lbn, held)?;
        Ok(())
    }

    /// Gives the entry for the block under the lock, where there is one, a new sequence and new bytes. It stays in its
    /// place. Where there is none, nothing changes. It takes no memory.
    pub fn replace(&mut self, lbn: u32, lock: LockName, seq: u64, b: &Block)
        ensures { self.new ≡ replaced (cached lbn lock seq b.now) self.old }
    {
        if let Some(held) = self.cache.peek_mut(&lbn) {
            held.renew(lock, seq, b);
        }
    }

    /// Lets all entries go.
    pub fn clear(&mut self)
        ensures { self.new ≡ [] }
    {
        self.cache.clear();
    }

    /// Lets all entries under a lock go. It takes no memory.
    pub fn forget_lock(&mut self, lock: LockName)
        ensures { self.new ≡ without_lock lock self.old }
    {
        while let Some(lbn) = self.first_under(lock) {
            self.cache.pop(&lbn);
        }
    }

    /// Whether there is an entry under the lock.
    pub fn holds_under(&self, lock: LockName) -> bool
        ensures held { result ≡ list_any (is_under lock) self.now }
        ensures cache { IsCache self.now }
    {
        self.first_under(lock).is_some()
    }

    /// A walk through the locks of the entries, which begins at the entry that was used longest ago. It takes no memory.
    pub fn walk(&self) -> LockWalk
        ensures { result ≡ map (λ (e : Cached). e.lock) self.now }
    {
        let mut walk = LockWalk::new();
        for (_, held) in self.cache.iter() {
            walk.append(held.lock);
        }
        walk
    }

    /// The locks of the entries, each once, by the order of their first entries.
    pub fn locks_used(&self, alloc: Global) -> Result<Vec<LockName>, NoMemory>
        ensures locks { IfOk result (λ locks. locks.items ≡ locks_of self.now) }
        ensures once { IfOk result (λ locks. IsDistinct is_same locks.items) }
    {
        let mut locks = Vec::new(alloc);
        for (_, held) in self.cache.iter() {
            join(&mut locks, held.lock)?;
        }
        Ok(locks)
    }

    /// Whether there is an entry for the block under the lock and with the sequence.
    fn is_current(&self, lbn: u32, lock: LockName, seq: u64) -> bool
        ensures { result ≡ is_some (found lbn lock seq self.now) }
    {
        match self.cache.peek(&lbn) {
            Some(held) => held.is_current(lock, seq),
            None => false,
        }
    }

    /// The block of the first entry under the lock.
    fn first_under(&self, lock: LockName) -> Option<u32>
        ensures first { result ≡ option_map (λ (e : Cached). e.lbn) (find (is_under lock) self.now) }
        ensures cache { IsCache self.now }
    {
        let (lbn, _) = self.cache.iter().find(|(_, held)| is_one(lock, held.lock))?;
        Some(*lbn)
    }
}
