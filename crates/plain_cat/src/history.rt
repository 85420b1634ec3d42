//! Histories: answers, deaths and mendings, in the order in which they came.

ghost use Rattle.std.specs.Prelude.{◌≡◌, ◌+◌, ◌<◌, ◌≤◌, ◌++◌, [], ◌∷◌, OnOk, OnErr};

use crate::NoMemory;
use crate::command::Cmd;
use crate::lists::NumberList;
use crate::reply::Reply;
use std::alloc::Global;
use std::marker::Model;

/// How far a command had come in its writes when its node died.
#[derive(Clone, Copy, Debug, PartialEq)]
pub enum Stage {
    /// No command was under way.
    Idle,

    /// No write that shows.
    Nothing,

    /// The usage of the owner is raised.
    Charged,

    /// The file is there, and no directory names it.
    Lost,

    /// The file is shorter, and its owner's usage is the old one.
    Shortened,

    /// The file is marked for delete.
    Marked,

    /// The entry is gone, and the file is still there, marked for delete.
    Unlinked,

    /// The file is gone, and its owner's usage is the old one.
    Freed,

    /// The old and the new entry are there.
    Both,

    /// The block is written, and mark and end of file are the old ones.
    DataOnly,

    /// All effects but an open.
    Done,
}

/// What a mending did: files entered in [SYSLOST], entries removed, files gone, and the leaked clusters and numbers
/// that it found.
#[derive(Clone, Copy, Debug, PartialEq)]
pub struct Mended {
    pub entered: u32,
    pub removed: u32,
    pub gone: u32,
    pub clusters: u32,
    pub numbers: u32,
}

/// An entry of the history.
#[derive(Drop)]
pub enum Entry {
    /// A node's command and its reply.
    Done {
        node: u8,
        cmd: Cmd,
        reply: Reply,
    },

    /// A node's death: the stage of its command, and the clusters and file numbers that it leaked.
    Died {
        node: u8,
        stage: Stage,
        clusters: u32,
        numbers: NumberList,
    },

    /// A mending, once every node was dead or over.
    Mended(Mended),
}

/// The entries in order of their answers and deaths, with spare room.
#[derive(Drop)]
pub struct History {
    list: Vec<Entry>,
}

impl Model for History {
    ghost use Rattle.std.specs.Prelude.{◌-◌, vec_capacity, vec_len};
    ghost use Rattle.plain_cat.specs.Spared.{Spared};
    ghost use Rattle.plain_cat.specs.declared.history.Entry.{Entry};

    ghost Value = { Spared Entry };

    ghost view = { λ h. record { items = h.list.items; room = vec_capacity h.list - vec_len h.list } };
}

impl History {
    /// No entry.
    pub fn new(alloc: Global) -> Self
        ensures { result.items ≡ [] }
    {
        History {
            list: Vec::new(alloc),
        }
    }

    /// Adds an entry at the end. A refusal of memory leaves the list as it was.
    pub fn push(&mut self, item: Entry) -> Result<(), NoMemory>
        ensures ok { OnOk result (self.new.items ≡ self.old.items ++ item ∷ []) }
        ensures err { OnErr result (self.new.items ≡ self.old.items) }
        ensures room { self.old.room ≤ self.new.room + 1 }
    {
        self.list.push(item)?;
        Ok(())
    }

    /// The entries, in order.
    pub fn items(&self) -> &[Entry]
        ensures { result.now ≡ self.now.items }
    {
        self.list.as_slice()
    }

    /// Takes memory for n more entries, so that `append` needs none. The entries stay.
    pub fn make_room(&mut self, n: usize) -> Result<(), NoMemory>
        ensures same { self.new.items ≡ self.old.items }
        ensures ok { OnOk result (n ≤ self.new.room) }
        ensures grows { self.old.room ≤ self.new.room }
    {
        self.list.reserve(n)
    }

    /// Adds an entry at the end, in the spare room. It takes no memory.
    pub fn append(&mut self, item: Entry)
        requires { 0 < self.old.room }
        ensures items { self.new.items ≡ self.old.items ++ item ∷ [] }
        ensures room { self.new.room + 1 ≡ self.old.room }
    {
        self.list.push_reserved(item);
    }
}
