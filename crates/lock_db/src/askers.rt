//! The list of those who have a lock or a request at one resource.

ghost use Rattle.std.specs.Prelude.{◌≡◌, ◌++◌, [], ◌∷◌, IfOk, OnOk, OnErr, IsSome};
ghost use Rattle.std.specs.Vec.{vec_capacity};
ghost use Rattle.lock_db.specs.Queues.{with_standing, without, without_node, settled, standing_of};

use crate::name::Owner;
use crate::queues::{settle, stand};
use plain_cat::{Mode, NoMemory};
use std::alloc::Global;
use std::marker::Model;

/// How an owner stands at a resource.
#[derive(Clone, Copy, Debug, PartialEq)]
pub enum Standing {
    /// It holds a lock.
    Granted(Mode),
    /// It holds a lock, and waits for another mode.
    Converting {
        /// The mode that it keeps until then.
        held: Mode,
        /// The mode that it waits for.
        wanted: Mode,
    },
    /// It waits for its first lock.
    Waiting(Mode),
}

/// An owner that has a lock or a request.
#[derive(Clone, Copy, Debug, PartialEq)]
pub struct Asker {
    /// Who asks.
    pub owner: Owner,
    /// How it stands.
    pub standing: Standing,
}

/// The locks and requests of one resource, in order of asking.
#[derive(Drop, Debug)]
pub struct Askers {
    list: Vec<Asker>,
}

impl Model for Askers {
    ghost use Rattle.std.specs.Prelude.{List};
    ghost use Rattle.lock_db.specs.declared.askers.Asker.{Asker};

    ghost Value = { List Asker };

    ghost view = { λ a. a.list.items };
}

impl Askers {
    pub(crate) fn new(alloc: Global) -> Askers
        ensures { result ≡ [] }
    {
        Askers {
            list: Vec::new(alloc),
        }
    }

    pub(crate) fn copy(&self, alloc: Global) -> Result<Askers, NoMemory>
        ensures { IfOk result (λ a. a ≡ self.now) }
    {
        Ok(Askers {
            list: Vec::from_slice(alloc, self.list.as_slice())?,
        })
    }

    pub(crate) fn list(&self) -> &[Asker]
        ensures { result.now ≡ self.now }
    {
        &self.list
    }

    pub(crate) fn push(&mut self, asker: Asker) -> Result<(), NoMemory>
        ensures ok { OnOk result (self.new ≡ self.old ++ asker ∷ []) }
        ensures err { OnErr result (self.new ≡ self.old) }
    {
        self.list.push(asker)?;
        Ok(())
    }

    pub(crate) fn stand(&mut self, owner: Owner, standing: Standing)
        ensures { self.new ≡ with_standing owner standing self.old }
    {
        stand(&mut self.list, owner, standing);
    }

    /// The owner goes to the end of the list and stands so there. The place that it leaves serves it, so this takes no
    /// memory.
    pub(crate) fn stand_last(&mut self, owner: Owner, standing: Standing)
        requires { IsSome (standing_of owner self.old) }
        ensures { self.new ≡ without owner self.old ++ record { owner = owner; standing = standing } ∷ [] }
    {
        retain_others(&mut self.list, owner);
        self.list.push_reserved(Asker { owner, standing });
    }

    pub(crate) fn remove(&mut self, owner: Owner)
        ensures { self.new ≡ without owner self.old }
    {
        retain_others(&mut self.list, owner);
    }

    pub(crate) fn remove_node(&mut self, node: u8)
        ensures { self.new ≡ without_node node self.old }
    {
        self.list.retain(|a| a.owner.node != node);
    }

    pub(crate) fn settle(&mut self)
        ensures { self.new ≡ settled self.old }
    {
        settle(&mut self.list);
    }
}

fn retain_others(list: &mut Vec<Asker>, owner: Owner)
    ensures items { list.new.items ≡ without owner list.old.items }
    ensures capacity { vec_capacity list.new ≡ vec_capacity list.old }
{
    list.retain(|a| a.owner != owner);
}
