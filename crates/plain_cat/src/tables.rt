//! The lists that a catalogue consists of: slots, quota rows, channels, flags and blocks.

ghost use Rattle.std.specs.Prelude.{◌≡◌, ◌<◌, ◌≤◌, ◌++◌, [], ◌∷◌, OnOk, OnErr, IfOk, Some, length, slice_get, slice_set, take};
ghost use Rattle.std.specs.List.{insert};

use crate::NoMemory;
use crate::cat::{Open, QuotaRow, Slot};
use std::alloc::Global;
use std::marker::Model;
use std::mem;

/// The slots of all file numbers: number n stands at n - 1.
#[derive(Drop)]
pub struct Files {
    list: Vec<Slot>,
}

impl Model for Files {
    ghost use Rattle.std.specs.Prelude.{List};
    ghost use Rattle.plain_cat.specs.declared.cat.Slot.{Slot};

    ghost Value = { List Slot };

    ghost view = { λ l. l.list.items };
}

impl Files {
    /// No slot.
    pub fn new(alloc: Global) -> Self
        ensures { result ≡ [] }
    {
        Files {
            list: Vec::new(alloc),
        }
    }

    /// Adds a slot at the end. A refusal of memory leaves the list as it was.
    pub fn push(&mut self, item: Slot) -> Result<(), NoMemory>
        ensures ok { OnOk result (self.new ≡ self.old ++ item ∷ []) }
        ensures err { OnErr result (self.new ≡ self.old) }
    {
        self.list.push(item)?;
        Ok(())
    }

    /// The slots, in order.
    pub fn items(&self) -> &[Slot]
        ensures { result.now ≡ self.now }
    {
        self.list.as_slice()
    }

    /// The same list again.
    pub fn copy(&self, alloc: Global) -> Result<Self, NoMemory>
        ensures { IfOk result (λ l. l ≡ self.now) }
    {
        let mut all = Vec::new(alloc);
        for x in self.list.as_slice() {
            all.push(x.copy(alloc)?)?;
        }
        Ok(Files { list: all })
    }

    /// Puts a slot in place of the one at `at`, which counts from 0.
    pub fn set(&mut self, at: usize, item: Slot)
        requires { at < length self.old }
        ensures { self.new ≡ slice_set self.old at item }
    {
        self.list[at] = item;
    }

    /// Takes the slot at `at` out, which counts from 0. A free slot of sequence 0 stands there until another one is put
    /// in its place. It takes no memory.
    pub fn take(&mut self, at: usize) -> Slot
        requires { at < length self.old }
        ensures taken { slice_get self.old at ≡ Some result }
        ensures left { self.new ≡ slice_set self.old at (Slot.Free 0) }
    {
        mem::replace(&mut self.list[at], Slot::Free(0))
    }
}

/// The quota rows, by rising owner.
#[derive(Drop)]
pub struct QuotaRows {
    list: Vec<QuotaRow>,
}

impl Model for QuotaRows {
    ghost use Rattle.std.specs.Prelude.{List};
    ghost use Rattle.plain_cat.specs.declared.cat.QuotaRow.{QuotaRow};

    ghost Value = { List QuotaRow };

    ghost view = { λ l. l.list.items };
}

impl QuotaRows {
    /// No row.
    pub fn new(alloc: Global) -> Self
        ensures { result ≡ [] }
    {
        QuotaRows {
            list: Vec::new(alloc),
        }
    }

    /// Adds a row at the end. A refusal of memory leaves the list as it was.
    pub fn push(&mut self, item: QuotaRow) -> Result<(), NoMemory>
        ensures ok { OnOk result (self.new ≡ self.old ++ item ∷ []) }
        ensures err { OnErr result (self.new ≡ self.old) }
    {
        self.list.push(item)?;
        Ok(())
    }

    /// The rows, in order.
    pub fn items(&self) -> &[QuotaRow]
        ensures { result.now ≡ self.now }
    {
        self.list.as_slice()
    }

    /// The same list again.
    pub fn copy(&self, alloc: Global) -> Result<Self, NoMemory>
        ensures { IfOk result (λ l. l ≡ self.now) }
    {
        Ok(QuotaRows {
            list: Vec::from_slice(alloc, self.list.as_slice())?,
        })
    }

    /// Puts a row in place of the one at `at`, which counts from 0.
    pub fn set(&mut self, at: usize, item: QuotaRow)
        requires { at < length self.old }
        ensures { self.new ≡ slice_set self.old at item }
    {
        self.list[at] = item;
    }

    /// Puts a row at `at`, which counts from 0, before those from there on. A refusal of memory leaves the list as it
    /// was.
    pub fn insert(&mut self, at: usize, item: QuotaRow) -> Result<(), NoMemory>
        requires { at ≤ length self.old }
        ensures ok { OnOk result (self.new ≡ insert self.old at item) }
        ensures err { OnErr result (self.new ≡ self.old) }
    {
        self.list.insert(at, item)?;
        Ok(())
    }
}

/// The channels of eight nodes: channel c of node n stands at 8 (n - 1) + c - 1.
#[derive(Drop)]
pub struct Channels {
    list: Vec<Option<Open>>,
}

impl Model for Channels {
    ghost use Rattle.std.specs.Prelude.{List, Option};
    ghost use Rattle.plain_cat.specs.declared.cat.Open.{Open};

    ghost Value = { List (Option Open) };

    ghost view = { λ l. l.list.items };
}

impl Channels {
    /// No channel.
    pub fn new(alloc: Global) -> Self
        ensures { result ≡ [] }
    {
        Channels {
            list: Vec::new(alloc),
        }
    }

    /// Adds a channel at the end. A refusal of memory leaves the list as it was.
    pub fn push(&mut self, item: Option<Open>) -> Result<(), NoMemory>
        ensures ok { OnOk result (self.new ≡ self.old ++ item ∷ []) }
        ensures err { OnErr result (self.new ≡ self.old) }
    {
        self.list.push(item)?;
        Ok(())
    }

    /// The channels, in order.
    pub fn items(&self) -> &[Option<Open>]
        ensures { result.now ≡ self.now }
    {
        self.list.as_slice()
    }

    /// The same list again.
    pub fn copy(&self, alloc: Global) -> Result<Self, NoMemory>
        ensures { IfOk result (λ l. l ≡ self.now) }
    {
        Ok(Channels {
            list: Vec::from_slice(alloc, self.list.as_slice())?,
        })
    }

    /// Puts a channel in place of the one at `at`, which counts from 0.
    pub fn set(&mut self, at: usize, item: Option<Open>)
        requires { at < length self.old }
        ensures { self.new ≡ slice_set self.old at item }
    {
        self.list[at] = item;
    }
}

/// One flag for each file number: number n stands at n - 1.
#[derive(Drop)]
pub struct Flags {
    list: Vec<bool>,
}

impl Model for Flags {
    ghost use Rattle.std.specs.Prelude.{List, Bool};

    ghost Value = { List Bool };

    ghost view = { λ l. l.list.items };
}

impl Flags {
    /// No flag.
    pub fn new(alloc: Global) -> Self
        ensures { result ≡ [] }
    {
        Flags {
            list: Vec::new(alloc),
        }
    }

    /// Adds a flag at the end. A refusal of memory leaves the list as it was.
    pub fn push(&mut self, item: bool) -> Result<(), NoMemory>
        ensures ok { OnOk result (self.new ≡ self.old ++ item ∷ []) }
        ensures err { OnErr result (self.new ≡ self.old) }
    {
        self.list.push(item)?;
        Ok(())
    }

    /// The flags, in order.
    pub fn items(&self) -> &[bool]
        ensures { result.now ≡ self.now }
    {
        self.list.as_slice()
    }

    /// The same list again.
    pub fn copy(&self, alloc: Global) -> Result<Self, NoMemory>
        ensures { IfOk result (λ l. l ≡ self.now) }
    {
        Ok(Flags {
            list: Vec::from_slice(alloc, self.list.as_slice())?,
        })
    }

    /// Puts a flag in place of the one at `at`, which counts from 0.
    pub fn set(&mut self, at: usize, item: bool)
        requires { at < length self.old }
        ensures { self.new ≡ slice_set self.old at item }
    {
        self.list[at] = item;
    }
}

/// Blocks, in order of virtual block number.
#[derive(Drop)]
pub struct Blocks {
    list: Vec<[u8; 512]>,
}

impl Model for Blocks {
    ghost use Rattle.std.specs.Prelude.{List, ℕ};

    ghost Value = { List (List ℕ) };

    ghost view = { λ l. l.list.items };
}

impl Blocks {
    /// No block.
    pub fn new(alloc: Global) -> Self
        ensures { result ≡ [] }
    {
        Blocks {
            list: Vec::new(alloc),
        }
    }

    /// Adds a block at the end. A refusal of memory leaves the list as it was.
    pub fn push(&mut self, item: [u8; 512]) -> Result<(), NoMemory>
        ensures ok { OnOk result (self.new ≡ self.old ++ item ∷ []) }
        ensures err { OnErr result (self.new ≡ self.old) }
    {
        self.list.push(item)?;
        Ok(())
    }

    /// Adds blocks at the end, in order. A refusal of memory leaves the list as it was.
    pub fn append(&mut self, blocks: &[[u8; 512]]) -> Result<(), NoMemory>
        ensures ok { OnOk result (self.new ≡ self.old ++ blocks.now) }
        ensures err { OnErr result (self.new ≡ self.old) }
    {
        self.list.extend_from_slice(blocks)?;
        Ok(())
    }

    /// The blocks, in order.
    pub fn items(&self) -> &[[u8; 512]]
        ensures { result.now ≡ self.now }
    {
        self.list.as_slice()
    }

    /// The same list again.
    pub fn copy(&self, alloc: Global) -> Result<Self, NoMemory>
        ensures { IfOk result (λ l. l ≡ self.now) }
    {
        Ok(Blocks {
            list: Vec::from_slice(alloc, self.list.as_slice())?,
        })
    }

    /// Puts a block in place of the one at `at`, which counts from 0.
    pub fn set(&mut self, at: usize, item: [u8; 512])
        requires { at < length self.old }
        ensures { self.new ≡ slice_set self.old at item }
    {
        self.list[at] = item;
    }

    /// Drops the blocks behind the first n, or none where there are no more. The memory stays.
    pub fn truncate(&mut self, n: usize)
        ensures { self.new ≡ take n self.old }
    {
        self.list.truncate(n);
    }

    /// The first n blocks again, or all where there are no more.
    pub fn front(&self, alloc: Global, n: usize) -> Result<Self, NoMemory>
        ensures { IfOk result (λ l. l ≡ take n self.now) }
    {
        let all = self.list.as_slice();
        Ok(Blocks {
            list: Vec::from_slice(alloc, &all[..n.min(all.len())])?,
        })
    }
}
