//! The locks that outlive a node's commands.

ghost use Rattle.std.specs.Prelude.{◌≡◌, ◌≤◌, ◌<◌, ◌++◌, [], ◌∷◌, None, not, length, take, filter, IfOk, if◌then◌else◌};
ghost use Rattle.std.specs.List.{list_any};
ghost use Rattle.lock_db.specs.declared.name.LockName.TheVariants.{X, V};
ghost use Rattle.lock_db.specs.Names.{is_same};
ghost use Rattle.core_space.specs.Lasting.{stays_by, mode_on, noted};

use lock_db::LockName;
use node_cache::{LockWalk, NodeCache};
use plain_cat::{Mode, NoMemory};
use std::alloc::Global;
use std::marker::Model;

/// How many locks a list has room for.
const PLACES: usize = 128;

/// The locks that a node keeps from one command to the next, each with its mode, in order. The list has room for 128, so that a
/// lock is put in without memory. The modes of X and V, which each turn asks for, stand beside the list.
#[derive(Drop)]
pub struct LastingLocks {
    list: Vec<(LockName, Mode)>,
    x: Option<Mode>,
    v: Option<Mode>,
}

impl Model for LastingLocks {
    ghost use Rattle.std.specs.Prelude.{◌≡◌, ◌≤◌, List, vec_capacity};
    ghost use Rattle.plain_cat.specs.declared.mode.Mode.{Mode};
    ghost use Rattle.lock_db.specs.declared.name.LockName.{LockName};
    ghost use Rattle.lock_db.specs.declared.name.LockName.TheVariants.{X, V};
    ghost use Rattle.core_space.specs.Lasting.{mode_on};

    ghost Value = { List (LockName × Mode) };

    ghost view = { λ l. l.list.items };

    ghost invariant = { λ l. (128 ≤ vec_capacity l.list) × (l.x ≡ mode_on X l.list.items) × (l.v ≡ mode_on V l.list.items) };
}

// Whether a lock has another name.
fn is_other(lock: &(LockName, Mode), name: LockName) -> bool
    ensures { result ≡ not (is_same lock.now.0 name) }
{
    lock.0 != name
}

// Whether two names are one.
fn is_one(a: LockName, b: LockName) -> bool
    ensures { result ≡ is_same a b }
{
    a == b
}

// The mode of a lock, unless it went.
fn unless(gone: bool, mode: Option<Mode>) -> Option<Mode>
    ensures { result ≡ (if gone then None else mode) }
{
    if gone { None } else { mode }
}

// The mode in which a lock is held, where one more of its name may have been added behind.
fn noted(mode: Option<Mode>, name: LockName, lock: (LockName, Mode)) -> Option<Mode>
    ensures { result ≡ noted name lock mode }
{
    match mode {
        Some(mode) => Some(mode),
        None if is_one(lock.0, name) => Some(lock.1),
        None => None,
    }
}

/// Whether a lock stays behind an answer: X does where the node has a stock, and any other where a walk meets it.
pub fn stays_behind(name: LockName, stocked: bool, walk: &mut LockWalk) -> bool
    ensures stays { result ≡ (if is_same name X then stocked else list_any (is_same name) walk.old) }
    ensures same { walk.new ≡ walk.old }
{
    if is_one(name, LockName::X) {
        stocked
    } else {
        walk.meets(name)
    }
}

// Moves the locks that stay behind an answer to the front, in order, and says how many they are.
fn move_staying(locks: &mut [(LockName, Mode)], stocked: bool, cache: &NodeCache) -> usize
    ensures few { result ≤ length locks.old }
    ensures front { take result locks.new ≡ filter (stays_by stocked cache.now) locks.old }
{
    let mut walk = cache.walk();
    let mut kept = 0;
    for at in 0..locks.len() {
        let lock = locks[at];
        if stays_behind(lock.0, stocked, &mut walk) {
            locks[kept] = lock;
            kept += 1;
        }
    }
    kept
}

impl LastingLocks {
    /// No lock. It fails only where memory is refused.
    pub fn new(alloc: Global) -> Result<LastingLocks, NoMemory>
        ensures { IfOk result (λ l. l ≡ []) }
    {
        let mut list = Vec::new(alloc);
        list.reserve(PLACES)?;
        Ok(LastingLocks {
            list,
            x: None,
            v: None,
        })
    }

    /// Adds a lock at the end, of which there are fewer than 128. It takes no memory.
    pub fn append(&mut self, item: (LockName, Mode))
        requires { length self.old < 128 }
        ensures { self.new ≡ self.old ++ item ∷ [] }
    {
        self.x = noted(self.x, LockName::X, item);
        self.v = noted(self.v, LockName::V, item);
        self.list.push_reserved(item);
    }

    /// Removes the lock of this name, where it is there. The others stay, in order.
    pub fn remove(&mut self, name: LockName)
        ensures { self.new ≡ filter (λ l. not (is_same l.0 name)) self.old }
    {
        self.list.retain(|l| is_other(l, name));
        self.x = unless(is_one(LockName::X, name), self.x);
        self.v = unless(is_one(LockName::V, name), self.v);
    }

    /// Removes the locks that do not stay behind an answer: X stays where the node has a stock, and any other where a cached block is
    /// under it.
    pub fn keep_staying(&mut self, stocked: bool, cache: &NodeCache)
        ensures { self.new ≡ filter (stays_by stocked cache.now) self.old }
    {
        let kept = move_staying(&mut self.list, stocked, cache);
        self.list.truncate(kept);
        self.x = unless(!stocked, self.x);
        self.v = unless(!cache.holds_under(LockName::V), self.v);
    }

    /// Drops all locks.
    pub fn clear(&mut self)
        ensures { self.new ≡ [] }
    {
        self.list.clear();
        self.x = None;
        self.v = None;
    }

    /// The mode of X, where it is among them.
    pub fn x(&self) -> Option<Mode>
        ensures { result ≡ mode_on X self.now }
    {
        self.x
    }

    /// The mode of V, where it is among them.
    pub fn v(&self) -> Option<Mode>
        ensures { result ≡ mode_on V self.now }
    {
        self.v
    }

    /// The locks, in order.
    pub fn items(&self) -> &[(LockName, Mode)]
        ensures { result.now ≡ self.now }
    {
        self.list.as_slice()
    }
}
