//! The entries of a directory.

ghost use Rattle.std.specs.Prelude.{◌≡◌, ◌++◌, [], ◌∷◌, OnOk, OnErr, IfOk, Some, ◌<◌, ◌≤◌, length, slice_get};
ghost use Rattle.std.specs.List.{insert, remove};

use crate::NoMemory;
use crate::ids::Fid;
use crate::name::Name;
use std::alloc::Global;
use std::marker::Model;

/// An entry of a directory.
#[derive(Drop)]
pub struct DirEnt {
    /// `NAME.TYP`.
    pub name: Name,

    /// The version, 1 to 32,767.
    pub ver: u16,

    /// The file that it names.
    pub fid: Fid,
}

impl DirEnt {
    /// The same entry again.
    pub fn copy(&self, alloc: Global) -> Result<Self, NoMemory>
        ensures { IfOk result (λ e. e ≡ self.now) }
    {
        Ok(DirEnt {
            name: self.name.copy(alloc)?,
            ver: self.ver,
            fid: self.fid,
        })
    }
}

/// The entries of a directory, by name and falling version.
#[derive(Drop)]
pub struct DirEnts {
    list: Vec<DirEnt>,
}

impl Model for DirEnts {
    ghost use Rattle.std.specs.Prelude.{List};
    ghost use Rattle.plain_cat.specs.declared.entries.DirEnt.{DirEnt};

    ghost Value = { List DirEnt };

    ghost view = { λ l. l.list.items };
}

impl DirEnts {
    /// No entry.
    pub fn new(alloc: Global) -> Self
        ensures { result ≡ [] }
    {
        DirEnts {
            list: Vec::new(alloc),
        }
    }

    /// Adds an entry at the end. A refusal of memory leaves the list as it was.
    pub fn push(&mut self, item: DirEnt) -> Result<(), NoMemory>
        ensures ok { OnOk result (self.new ≡ self.old ++ item ∷ []) }
        ensures err { OnErr result (self.new ≡ self.old) }
    {
        self.list.push(item)?;
        Ok(())
    }

    /// The entries, in order.
    pub fn items(&self) -> &[DirEnt]
        ensures { result.now ≡ self.now }
    {
        self.list.as_slice()
    }

    /// The same entries again.
    pub fn copy(&self, alloc: Global) -> Result<Self, NoMemory>
        ensures { IfOk result (λ l. l ≡ self.now) }
    {
        let mut all = Vec::new(alloc);
        for e in self.list.as_slice() {
            all.push(e.copy(alloc)?)?;
        }
        Ok(DirEnts { list: all })
    }

    /// Puts an entry at `at`, which counts from 0, before those from there on. A refusal of memory leaves the list as it
    /// was.
    pub fn insert(&mut self, at: usize, item: DirEnt) -> Result<(), NoMemory>
        requires { at ≤ length self.old }
        ensures ok { OnOk result (self.new ≡ insert self.old at item) }
        ensures err { OnErr result (self.new ≡ self.old) }
    {
        self.list.insert(at, item)?;
        Ok(())
    }

    /// Takes the entry at `at` out, which counts from 0; those behind it move down. It takes no memory.
    pub fn remove(&mut self, at: usize) -> DirEnt
        requires { at < length self.old }
        ensures taken { slice_get self.old at ≡ Some result }
        ensures left { self.new ≡ remove self.old at }
    {
        self.list.remove(at)
    }
}
