//! A walk through the locks of a cache's entries.

ghost use Rattle.std.specs.Prelude.{◌≡◌, ◌<◌, ◌≤◌, ◌++◌, [], ◌∷◌, take, true, is_some, length, IfSome};
ghost use Rattle.std.specs.List.{list_any};
ghost use Rattle.lock_db.specs.Names.{is_same};

use crate::locks::is_one;
use lock_db::LockName;
use std::marker::Model;

/// The most entries of a cache.
pub(crate) const ENTRIES: usize = 64;

/// How many locks a walk looks at from its place on before it looks at all.
const NEAR: usize = 8;

/// The locks of a cache's entries, by the entry that was used last in front, and a place among them. Who asks for one lock after the
/// other, by the order in which they were used, finds each beside the one before.
#[derive(Drop)]
pub struct LockWalk {
    locks: [LockName; ENTRIES],
    len: usize,
    place: usize,
}

impl Model for LockWalk {
    ghost use Rattle.std.specs.Prelude.{◌≡◌, ◌≤◌, List, length, take};
    ghost use Rattle.lock_db.specs.declared.name.LockName.{LockName};

    ghost Value = { List LockName };

    ghost view = { λ w. take w.len w.locks };

    ghost invariant = { λ w. (length w.locks ≡ 64) × (w.len ≤ 64) × (w.place ≤ w.len) };
}

// The last place at which a lock stands among these.
fn last_at(locks: &[LockName], lock: LockName) -> Option<usize>
    ensures found { is_some result ≡ list_any (is_same lock) locks.now }
    ensures place { IfSome result (λ i. i < length locks.now) }
{
    let mut at = locks.len();
    while 0 < at {
        at -= 1;
        if is_one(lock, locks[at]) {
            return Some(at);
        }
    }
    None
}

impl LockWalk {
    /// No lock.
    pub(crate) fn new() -> LockWalk
        ensures { result ≡ [] }
    {
        LockWalk {
            locks: [LockName::X; ENTRIES],
            len: 0,
            place: 0,
        }
    }

    /// Adds the lock of an entry that was used longer ago, where there is room. The walk begins there.
    pub(crate) fn append(&mut self, lock: LockName)
        ensures { self.new ≡ take 64 (self.old ++ lock ∷ []) }
    {
        if self.len < ENTRIES {
            self.locks[self.len] = lock;
            self.len += 1;
        }
        self.place = self.len;
    }

    /// Whether the lock is among them. The walk goes on from where it stands, and takes no memory.
    pub fn meets(&mut self, lock: LockName) -> bool
        ensures met { result ≡ list_any (is_same lock) self.old }
        ensures same { self.new ≡ self.old }
    {
        match self.near(lock) {
            Some(place) => {
                self.place = place;
                true
            }
            None => self.is_anywhere(lock),
        }
    }

    // The place behind the lock, where it is among the next ones from the walk's place on.
    fn near(&self, lock: LockName) -> Option<usize>
        ensures { IfSome result (λ place. (place ≤ length self.now) × (list_any (is_same lock) self.now ≡ true)) }
    {
        let locks = &self.locks[..self.len];
        let from = self.place.saturating_sub(NEAR);
        let at = last_at(&locks[from..self.place], lock)?;
        Some(from + at + 1)
    }

    // Whether the lock is among all of them.
    fn is_anywhere(&mut self, lock: LockName) -> bool
        ensures met { result ≡ list_any (is_same lock) self.old }
        ensures same { self.new ≡ self.old }
    {
        match last_at(&self.locks[..self.len], lock) {
            Some(at) => {
                self.place = at + 1;
                true
            }
            None => false,
        }
    }
}
