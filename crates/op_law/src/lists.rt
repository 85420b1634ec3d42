//! The lists of a command under way: locks granted, blocks looked at, writes planned.

ghost use Rattle.std.specs.Prelude.{◌≡◌, ◌+◌, ◌<◌, ◌≤◌, ◌++◌, [], ◌∷◌, not, length, filter, option_to_list, OnOk, OnErr, IsNone};
ghost use Rattle.lock_db.specs.Names.{is_same};

use crate::need::PlanWrite;
use base_words::Block;
use lock_db::LockName;
use plain_cat::{Mode, NoMemory};
use std::alloc::Global;
use std::marker::Model;

/// The locks that were granted for a command, each with its mode, in order.
#[derive(Drop)]
pub struct SeenLocks {
    list: Vec<(LockName, Mode)>,
}

impl Model for SeenLocks {
    ghost use Rattle.std.specs.Prelude.{List};
    ghost use Rattle.plain_cat.specs.declared.mode.Mode.{Mode};
    ghost use Rattle.lock_db.specs.declared.name.LockName.{LockName};

    ghost Value = { List (LockName × Mode) };

    ghost view = { λ l. l.list.items };
}

// Whether a lock has another name.
fn is_other(lock: &(LockName, Mode), name: LockName) -> bool
    ensures { result ≡ not (is_same lock.now.0 name) }
{
    lock.0 != name
}

impl SeenLocks {
    /// No lock.
    pub fn new(alloc: Global) -> Self
        ensures { result ≡ [] }
    {
        SeenLocks {
            list: Vec::new(alloc),
        }
    }

    /// Adds a lock at the end. A refusal of memory leaves the list as it was.
    pub fn push(&mut self, item: (LockName, Mode)) -> Result<(), NoMemory>
        ensures ok { OnOk result (self.new ≡ self.old ++ item ∷ []) }
        ensures err { OnErr result (self.new ≡ self.old) }
    {
        self.list.push(item)?;
        Ok(())
    }

    /// Removes the lock of this name, where it is there. The others stay, in order, and no memory is taken.
    pub fn remove(&mut self, name: LockName)
        ensures { self.new ≡ filter (λ l. not (is_same l.0 name)) self.old }
    {
        self.list.retain(|l| is_other(l, name));
    }

    /// Drops all locks, and keeps the memory.
    pub fn clear(&mut self)
        ensures { self.new ≡ [] }
    {
        self.list.clear();
    }

    /// The locks, in order.
    pub fn items(&self) -> &[(LockName, Mode)]
        ensures { result.now ≡ self.now }
    {
        self.list.as_slice()
    }
}

/// The blocks that a command has looked at, each with its LBN, in order.
#[derive(Drop)]
pub struct SeenBlocks {
    list: Vec<(u32, Block)>,
}

impl Model for SeenBlocks {
    ghost use Rattle.std.specs.Prelude.{List, ℕ};
    ghost use Rattle.base_words.specs.Fields.{Block};

    ghost Value = { List (ℕ × Block) };

    ghost view = { λ l. l.list.items };
}

impl SeenBlocks {
    /// No block.
    pub fn new(alloc: Global) -> Self
        ensures { result ≡ [] }
    {
        SeenBlocks {
            list: Vec::new(alloc),
        }
    }

    /// Adds a block at the end. A refusal of memory leaves the list as it was.
    pub fn push(&mut self, item: (u32, Block)) -> Result<(), NoMemory>
        ensures ok { OnOk result (self.new ≡ self.old ++ item ∷ []) }
        ensures err { OnErr result (self.new ≡ self.old) }
    {
        self.list.push(item)?;
        Ok(())
    }

    /// Takes the last block out, and gives it with its LBN. None comes exactly where there is no block.
    pub fn pop(&mut self) -> Option<(u32, Block)>
        ensures last { self.old ≡ self.new ++ option_to_list result }
        ensures none { IsNone result → self.old ≡ [] }
    {
        self.list.pop()
    }

    /// Drops all blocks, and keeps the memory.
    pub fn clear(&mut self)
        ensures { self.new ≡ [] }
    {
        self.list.clear();
    }

    /// The blocks, in order.
    pub fn items(&self) -> &[(u32, Block)]
        ensures { result.now ≡ self.now }
    {
        self.list.as_slice()
    }
}

/// The writes of a plan, in order.
#[derive(Drop)]
pub struct Writes {
    list: Vec<PlanWrite>,
}

impl Model for Writes {
    ghost use Rattle.std.specs.Prelude.{List};
    ghost use Rattle.op_law.specs.declared.need.PlanWrite.{PlanWrite};

    ghost Value = { List PlanWrite };

    ghost view = { λ l. l.list.items };
}

impl Writes {
    /// No write.
    pub fn new(alloc: Global) -> Self
        ensures { result ≡ [] }
    {
        Writes {
            list: Vec::new(alloc),
        }
    }

    /// Adds a write at the end. A refusal of memory leaves the list as it was.
    pub fn push(&mut self, item: PlanWrite) -> Result<(), NoMemory>
        ensures ok { OnOk result (self.new ≡ self.old ++ item ∷ []) }
        ensures err { OnErr result (self.new ≡ self.old) }
    {
        self.list.push(item)?;
        Ok(())
    }

    /// Takes memory for n more writes, so that none is moved while as many are added. The writes stay.
    pub fn make_room(&mut self, n: usize) -> Result<(), NoMemory>
        ensures { self.new ≡ self.old }
    {
        self.list.reserve(n)
    }

    /// Drops all writes, and keeps the memory.
    pub fn clear(&mut self)
        ensures { self.new ≡ [] }
    {
        self.list.clear();
    }

    /// The writes, in order.
    pub fn items(&self) -> &[PlanWrite]
        ensures { result.now ≡ self.now }
    {
        self.list.as_slice()
    }
}
