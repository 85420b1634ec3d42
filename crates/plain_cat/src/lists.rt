//! Rising lists of clusters and of file numbers.

ghost use Rattle.std.specs.Prelude.{◌≡◌, ◌+◌, ◌<◌, ◌≤◌, ◌++◌, [], ◌∷◌, All, IfOk, OnOk, OnErr};
ghost use Rattle.std.specs.List.Sorted.{IsStrictlyIncreasing};

use crate::NoMemory;
use std::alloc::Global;
use std::marker::Model;

/// Clusters, in rising order.
#[derive(Drop)]
pub struct Clusters {
    list: Vec<u32>,
}

impl Model for Clusters {
    ghost use Rattle.std.specs.Prelude.{List, ℕ};
    ghost use Rattle.std.specs.List.Sorted.{IsStrictlyIncreasing};

    ghost Value = { List ℕ };

    ghost view = { λ l. l.list.items };

    ghost invariant = { λ l. IsStrictlyIncreasing l.list.items };
}

impl Clusters {
    /// No cluster.
    pub fn new(alloc: Global) -> Self
        ensures { result ≡ [] }
    {
        Clusters {
            list: Vec::new(alloc),
        }
    }

    /// Adds a cluster above the last one. A refusal of memory leaves the list as it was.
    pub fn push(&mut self, item: u32) -> Result<(), NoMemory>
        requires { All (λ x. x < item) self.old }
        ensures ok { OnOk result (self.new ≡ self.old ++ item ∷ []) }
        ensures err { OnErr result (self.new ≡ self.old) }
    {
        self.list.push(item)?;
        Ok(())
    }

    /// Drops all clusters, and keeps the memory.
    pub fn clear(&mut self)
        ensures { self.new ≡ [] }
    {
        self.list.clear();
    }

    /// The same clusters again.
    pub fn copy(&self, alloc: Global) -> Result<Self, NoMemory>
        ensures { IfOk result (λ l. l ≡ self.now) }
    {
        Ok(Clusters {
            list: Vec::from_slice(alloc, self.list.as_slice())?,
        })
    }

    /// The clusters, in order.
    pub fn items(&self) -> &[u32]
        ensures items { result.now ≡ self.now }
        ensures rising { IsStrictlyIncreasing result.now }
    {
        self.list.as_slice()
    }
}

/// File numbers, in rising order, with spare room.
#[derive(Drop)]
pub struct NumberList {
    list: Vec<u32>,
}

impl Model for NumberList {
    ghost use Rattle.std.specs.Prelude.{ℕ, ◌-◌, vec_capacity, vec_len};
    ghost use Rattle.std.specs.List.Sorted.{IsStrictlyIncreasing};
    ghost use Rattle.plain_cat.specs.Spared.{Spared};

    ghost Value = { Spared ℕ };

    ghost view = { λ l. record { items = l.list.items; room = vec_capacity l.list - vec_len l.list } };

    ghost invariant = { λ l. IsStrictlyIncreasing l.list.items };
}

impl NumberList {
    /// No number.
    pub fn new(alloc: Global) -> Self
        ensures { result.items ≡ [] }
    {
        NumberList {
            list: Vec::new(alloc),
        }
    }

    /// Adds a number above the last one. A refusal of memory leaves the list as it was.
    pub fn push(&mut self, item: u32) -> Result<(), NoMemory>
        requires { All (λ x. x < item) self.old.items }
        ensures ok { OnOk result (self.new.items ≡ self.old.items ++ item ∷ []) }
        ensures err { OnErr result (self.new.items ≡ self.old.items) }
        ensures room { self.old.room ≤ self.new.room + 1 }
    {
        self.list.push(item)?;
        Ok(())
    }

    /// The numbers, in order.
    pub fn items(&self) -> &[u32]
        ensures items { result.now ≡ self.now.items }
        ensures rising { IsStrictlyIncreasing result.now }
    {
        self.list.as_slice()
    }

    /// Takes memory for n more numbers, so that `append` needs none. The numbers stay.
    pub fn make_room(&mut self, n: usize) -> Result<(), NoMemory>
        ensures same { self.new.items ≡ self.old.items }
        ensures ok { OnOk result (n ≤ self.new.room) }
        ensures grows { self.old.room ≤ self.new.room }
    {
        self.list.reserve(n)
    }

    /// Adds a number above the last one, in the spare room. It takes no memory.
    pub fn append(&mut self, item: u32)
        requires room { 0 < self.old.room }
        requires above { All (λ x. x < item) self.old.items }
        ensures items { self.new.items ≡ self.old.items ++ item ∷ [] }
        ensures room { self.new.room + 1 ≡ self.old.room }
    {
        self.list.push_reserved(item);
    }
}
