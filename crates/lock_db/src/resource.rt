//! The steps on one resource.

ghost use Rattle.std.specs.Prelude.{◌≡◌, ◌<◌, IfOk, OnOk, OnErr, IsSome, unwrap_or};
ghost use Rattle.std.specs.List.{list_any};
ghost use Rattle.lock_db.specs.Queues.{goes, lock_of, is_upward};
ghost use Rattle.lock_db.specs.Resources.{fresh, is_used, goes_at_once, first_standing, asked_of, asked_answer, tried_answer, converts_at_once, written, mode_held, regranted, converted_of, try_converted_of, released_of, is_writer_of, dropped_of, recovered_of};

use crate::askers::{Asker, Askers, Standing};
use crate::name::{LockName, Owner};
use crate::queues::{goes, has_converting, has_waiting, held, is_upward, is_writing, lock_of};
use plain_cat::{Mode, NoMemory};
use std::alloc::Global;

/// What a request or a conversion answers.
#[derive(Clone, Copy, Debug, PartialEq, Eq)]
pub enum Asked {
    /// The lock is granted in this mode.
    Granted,
    /// It stands in a queue.
    Queued,
}

/// What a request or a conversion that does not wait answers.
#[derive(Clone, Copy, Debug, PartialEq, Eq)]
pub enum Tried {
    /// The lock is granted in this mode.
    Granted,
    /// It is not, and nothing has changed.
    NotQueued,
}

/// A resource: its locks and requests, its value block, and whether that is valid.
#[derive(Drop, Debug)]
pub struct Resource {
    /// Its name.
    pub name: LockName,
    /// Who has a lock or a request.
    pub askers: Askers,
    /// The value block.
    pub value: [u8; 16],
    /// Whether the value block is valid.
    pub valid: bool,
}

impl Resource {
    pub(crate) fn new(alloc: Global, name: LockName) -> Resource
        ensures { result ≡ fresh name }
    {
        Resource {
            name,
            askers: Askers::new(alloc),
            value: [0; 16],
            valid: true,
        }
    }

    pub(crate) fn is_used(&self) -> bool
        ensures { result ≡ is_used self.now }
    {
        !self.askers.list().is_empty()
    }

    pub(crate) fn ask(&mut self, owner: Owner, mode: Mode) -> Result<Asked, NoMemory>
        ensures ok { OnOk result (self.new ≡ asked_of owner mode self.old) }
        ensures answer { IfOk result (λ a. a ≡ asked_answer (goes_at_once owner mode self.old.askers)) }
        ensures err { OnErr result (self.new ≡ self.old) }
    {
        let granted = goes_at_once(owner, mode, self.askers.list());
        let standing = first_standing(granted, mode);
        self.askers.push(Asker { owner, standing })?;
        Ok(asked_answer(granted))
    }

    fn write_if(&mut self, writes: bool, value: [u8; 16])
        ensures { self.new ≡ written writes value self.old }
    {
        if writes {
            self.value = value;
            self.valid = true;
        }
    }

    fn regrant(&mut self, owner: Owner, mode: Mode)
        ensures { self.new ≡ regranted owner mode self.old }
    {
        self.askers.stand(owner, Standing::Granted(mode));
        self.askers.settle();
    }

    pub(crate) fn convert(&mut self, owner: Owner, mode: Mode, value: [u8; 16]) -> Asked
        requires { IsSome (lock_of owner self.old.askers) }
        ensures after { self.new ≡ converted_of owner mode value self.old }
        ensures answer { result
            ≡ asked_answer (converts_at_once owner (mode_held owner self.old) mode self.old.askers) }
    {
        let old = mode_held(owner, self.askers.list());
        let granted = converts_at_once(owner, old, mode, self.askers.list());
        if granted {
            self.regrant(owner, mode);
            self.write_if(is_writing(old) && !is_upward(old, mode), value);
        } else {
            let standing = Standing::Converting {
                held: old,
                wanted: mode,
            };
            self.askers.stand_last(owner, standing);
        }
        asked_answer(granted)
    }

    pub(crate) fn try_convert(&mut self, owner: Owner, mode: Mode) -> Tried
        ensures after { self.new ≡ try_converted_of owner mode self.old }
        ensures answer { result
            ≡ tried_answer (converts_at_once owner (mode_held owner self.old) mode self.old.askers) }
    {
        let old = mode_held(owner, self.askers.list());
        let granted = converts_at_once(owner, old, mode, self.askers.list());
        if granted {
            self.regrant(owner, mode);
        }
        tried_answer(granted)
    }

    pub(crate) fn release(&mut self, owner: Owner, value: [u8; 16])
        ensures { self.new ≡ released_of owner value self.old }
    {
        let old = mode_held(owner, self.askers.list());
        self.askers.remove(owner);
        self.askers.settle();
        self.write_if(is_writing(old), value);
    }

    pub(crate) fn drop_node(&mut self, node: u8)
        ensures { self.new ≡ dropped_of node self.old }
    {
        let died_writing = has_writer_of(node, self.askers.list());
        self.askers.remove_node(node);
        self.askers.settle();
        self.valid = self.valid && !died_writing;
    }

    pub(crate) fn recover(&mut self, value: [u8; 16], valid: bool)
        ensures { self.new ≡ recovered_of value valid self.old }
    {
        self.value = value;
        self.valid = valid;
    }

    pub(crate) fn copy(&self, alloc: Global) -> Result<Resource, NoMemory>
        ensures { IfOk result (λ r. r ≡ self.now) }
    {
        Ok(Resource {
            name: self.name,
            askers: self.askers.copy(alloc)?,
            value: self.value,
            valid: self.valid,
        })
    }
}

/// Whether a new request is granted at once.
pub(crate) fn goes_at_once(owner: Owner, mode: Mode, all: &[Asker]) -> bool
    ensures { result ≡ goes_at_once owner mode all.now }
{
    !has_converting(all) && !has_waiting(all) && goes(owner, mode, all)
}

/// Whether a conversion is granted at once.
pub(crate) fn converts_at_once(owner: Owner, old: Mode, new: Mode, all: &[Asker]) -> bool
    ensures { result ≡ converts_at_once owner old new all.now }
{
    !is_upward(old, new) || (!has_converting(all) && goes(owner, new, all))
}

pub(crate) fn mode_held(owner: Owner, all: &[Asker]) -> Mode
    ensures { result ≡ unwrap_or (lock_of owner all.now) Mode.NL }
{
    lock_of(all, owner).unwrap_or(Mode::NL)
}

fn is_writer_of(node: u8, asker: &Asker) -> bool
    ensures { result ≡ is_writer_of node asker.now }
{
    asker.owner.node == node && held(asker.standing).is_some_and(|mode| is_writing(mode))
}

fn has_writer_of(node: u8, all: &[Asker]) -> bool
    ensures { result ≡ list_any (is_writer_of node) all.now }
{
    all.iter().any(|a| is_writer_of(node, a))
}

fn first_standing(granted: bool, mode: Mode) -> Standing
    ensures { result ≡ first_standing granted mode }
{
    if granted {
        Standing::Granted(mode)
    } else {
        Standing::Waiting(mode)
    }
}

fn asked_answer(granted: bool) -> Asked
    ensures { result ≡ asked_answer granted }
{
    if granted {
        Asked::Granted
    } else {
        Asked::Queued
    }
}

pub(crate) fn tried_answer(granted: bool) -> Tried
    ensures { result ≡ tried_answer granted }
{
    if granted {
        Tried::Granted
    } else {
        Tried::NotQueued
    }
}
