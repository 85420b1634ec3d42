//! The lock table and its calls.

ghost use Rattle.std.specs.Prelude.{◌≡◌, ◌≢◌, IfOk, OnOk, OnErr, IsSome, IfSome, IsTrue, false, None, Some, Ok, []};
ghost use Rattle.lock_db.specs.Queues.{is_upward, standing_of, lock_of, mode_of, queues, holds_up};
ghost use Rattle.lock_db.specs.Resources.{is_used, goes_at_once, asked_answer, tried_answer};
ghost use Rattle.lock_db.specs.Tables.{IsTable, resource_at, asked, tried, converts_now, converted, try_converted, released, dropped, recovered};

use crate::name::{LockName, Owner};
use crate::resource::{Asked, Resource, Tried, goes_at_once};
use crate::{queues, table};
use plain_cat::{Mode, NoMemory};
use std::alloc::Global;
use std::marker::Model;

/// The lock table. Contracts see it as the list of its resources, in order of name: a resource stands in it as long as
/// somebody has a lock or a request there. After each call any two granted locks of one resource go together, an owner
/// stands at most once at a resource, and no request that could be granted waits.
#[derive(Drop, Debug)]
pub struct LockDb {
    resources: Vec<Resource>,
}

impl Model for LockDb {
    ghost use Rattle.std.specs.Prelude.{List};
    ghost use Rattle.lock_db.specs.declared.resource.Resource.{Resource};
    ghost use Rattle.lock_db.specs.Tables.{IsTable};

    ghost Value = { List Resource };

    ghost view = { λ d. d.resources.items };

    ghost invariant = { λ d. IsTable d.resources.items };
}

impl LockDb {
    /// Every table keeps the rules: what holds of it after each call holds of it at any time.
    pub fn keeps_the_rules(&self)
        ensures { IsTable self.now }
    {
        let _resources = &self.resources;
    }

    /// A table without a lock or request. `NoMemory` never comes.
    pub fn new(alloc: Global) -> Result<LockDb, NoMemory>
        ensures { result ≡ Ok [] }
    {
        Ok(LockDb {
            resources: Vec::new(alloc),
        })
    }

    /// Asks for a new lock. It is granted at once exactly where it goes with all granted locks of the resource and both
    /// queues are empty; otherwise it is the last in the waiting queue.
    pub fn request(
        &mut self,
        alloc: Global,
        name: LockName,
        owner: Owner,
        mode: Mode,
    ) -> Result<Asked, NoMemory>
        requires { standing_of owner (resource_at name self.old).askers ≡ None }
        ensures ok { OnOk result (self.new ≡ asked name owner mode self.old) }
        ensures answer { IfOk result
            (λ a. a ≡ asked_answer (goes_at_once owner mode (resource_at name self.old).askers)) }
        ensures err { OnErr result (self.new ≡ self.old) }
    {
        table::ask(alloc, &mut self.resources, name, owner, mode)
    }

    /// Asks for a new lock that does not wait: where it is not granted at once, nothing changes, and no memory is taken.
    pub fn try_request(
        &mut self,
        alloc: Global,
        name: LockName,
        owner: Owner,
        mode: Mode,
    ) -> Result<Tried, NoMemory>
        requires { standing_of owner (resource_at name self.old).askers ≡ None }
        ensures ok { OnOk result (self.new ≡ tried name owner mode self.old) }
        ensures answer { IfOk result
            (λ a. a ≡ tried_answer (goes_at_once owner mode (resource_at name self.old).askers)) }
        ensures refused { goes_at_once owner mode (resource_at name self.old).askers ≡ false
            → result ≡ Ok Tried.NotQueued }
        ensures err { OnErr result (self.new ≡ self.old) }
    {
        table::try_ask(alloc, &mut self.resources, name, owner, mode)
    }

    /// Converts a lock of which no conversion waits. A level or downward conversion is granted at once, and one from PW
    /// or EX writes the value block. An upward one is granted at once exactly where it goes with the granted locks of
    /// the others and the conversion queue is empty; otherwise it is the last in that queue, and the lock keeps its old
    /// mode. It takes no memory: the place was taken when the lock was asked for. From PR to CW is not asked, since a
    /// downward conversion does not wait, and CW does not go with another's PR.
    pub fn convert(&mut self, name: LockName, owner: Owner, mode: Mode, value: [u8; 16]) -> Asked
        requires lock { IsSome (lock_of owner (resource_at name self.old).askers) }
        requires not_across { lock_of owner (resource_at name self.old).askers ≡ Some Mode.PR → mode ≢ Mode.CW }
        ensures after { self.new ≡ converted name owner mode value self.old }
        ensures answer { result ≡ asked_answer (converts_now name owner mode self.old) }
    {
        table::convert(&mut self.resources, name, owner, mode, value)
    }

    /// Converts a lock upward without waiting: where the conversion is not granted at once, nothing changes.
    pub fn try_convert(&mut self, name: LockName, owner: Owner, mode: Mode) -> Tried
        requires lock { IsSome (lock_of owner (resource_at name self.old).askers) }
        requires upward { IfSome (lock_of owner (resource_at name self.old).askers)
            (λ held. IsTrue (is_upward held mode)) }
        ensures after { self.new ≡ try_converted name owner mode self.old }
        ensures answer { result ≡ tried_answer (converts_now name owner mode self.old) }
    {
        table::try_convert(&mut self.resources, name, owner, mode)
    }

    /// Gives up a lock of which no conversion waits. From PW or EX it writes the value block.
    pub fn release(&mut self, name: LockName, owner: Owner, value: [u8; 16])
        requires { IsSome (lock_of owner (resource_at name self.old).askers) }
        ensures { self.new ≡ released name owner value self.old }
    {
        table::release(&mut self.resources, name, owner, value);
    }

    /// Removes all locks and requests of a node that has died. Where it held PW or EX, the value block is no longer
    /// valid.
    pub fn drop_node(&mut self, node: u8)
        ensures { self.new ≡ dropped node self.old }
    {
        table::drop_node(&mut self.resources, node);
    }

    /// After a death of the lock's master: the value block of a name at which somebody has a lock or a request gets
    /// these bytes and this mark. One that is not valid is so until a holder in PW or EX writes it. It takes no memory.
    pub fn recover(&mut self, name: LockName, value: [u8; 16], valid: bool)
        requires { IsTrue (is_used (resource_at name self.old)) }
        ensures { self.new ≡ recovered name value valid self.old }
    {
        table::recover(&mut self.resources, name, value, valid);
    }

    /// The same table once more. `NoMemory` comes only where memory is refused.
    pub fn copy(&self, alloc: Global) -> Result<LockDb, NoMemory>
        ensures { IfOk result (λ d. d ≡ self.now) }
    {
        Ok(LockDb {
            resources: table::copy(alloc, &self.resources)?,
        })
    }

    /// The value block, and whether it is valid.
    pub fn value(&self, name: LockName) -> ([u8; 16], bool)
        ensures bytes { result.0 ≡ (resource_at name self.now).value }
        ensures valid { result.1 ≡ (resource_at name self.now).valid }
    {
        match table::find(&self.resources, name) {
            Some(r) => (r.value, r.valid),
            None => ([0; 16], true),
        }
    }

    /// The mode in which the owner has a lock; the old one, where a conversion of it waits.
    pub fn mode(&self, name: LockName, owner: Owner) -> Option<Mode>
        ensures { result ≡ mode_of owner (resource_at name self.now).askers }
    {
        queues::mode_of(table::askers(&self.resources, name), owner)
    }

    /// Whether a new lock would be granted at once: it goes with all granted locks of the resource, and both queues are empty.
    pub fn would_grant(&self, name: LockName, owner: Owner, mode: Mode) -> bool
        ensures { result ≡ goes_at_once owner mode (resource_at name self.now).askers }
    {
        goes_at_once(owner, mode, table::askers(&self.resources, name))
    }

    /// Whether a request or a conversion of the owner waits.
    pub fn queued(&self, name: LockName, owner: Owner) -> bool
        ensures { result ≡ queues owner (resource_at name self.now).askers }
    {
        queues::queues(table::askers(&self.resources, name), owner)
    }

    /// Whether the lock of the node's file system holds up a request or a conversion of another node.
    pub fn blocking(&self, node: u8, name: LockName) -> bool
        ensures { result ≡ holds_up record { node = node; part = 0 } (resource_at name self.now).askers }
    {
        let owner = Owner { node, part: 0 };
        queues::holds_up(table::askers(&self.resources, name), owner)
    }
}
