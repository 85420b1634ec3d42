//! What a master makes of an ask or a drop, and an owner of a grant.

ghost use Rattle.std.specs.Prelude.{◌≡◌, ◌-◌, Some, None, OnOk, IfOk, not, filter};
ghost use Rattle.lock_db.specs.Queues.{mode_of};
ghost use Rattle.dlm_core.specs.States.{IsShaped, home, table_at, told_at};
ghost use Rattle.dlm_core.specs.Steps.{is_served, grant_of, grants_of, served, put_last, versions_after, taken, taken_all, granted};

use crate::blocks::{Block, Seen, note_block, note_version, version_at};
use crate::cluster::Cluster;
use crate::holds::{Hold, note, writes};
use crate::masters::home;
use crate::messages::{Letter, Message};
use crate::queue::{Waiter, put_last};
use crate::tables::{is_in_use, make_ask, make_drop};
use lock_db::{Mode, NoMemory};
use std::alloc::Global;

impl Cluster {
    /// Whether an ask that waits at its master is not queued any more.
    fn is_served(&self, waiter: Waiter) -> bool
        requires { IsShaped self.now }
        ensures { result ≡ is_served self.now waiter }
    {
        let i = home(self.nodes, waiter.name) as usize - 1;
        !self.tables[i].queued(waiter.name, waiter.owner)
    }

    /// The message of a grant, with the value block and its mark as they are now.
    fn grant_of(&self, waiter: Waiter) -> Message
        requires { IsShaped self.now }
        ensures { result ≡ grant_of self.now waiter }
    {
        let i = home(self.nodes, waiter.name) as usize - 1;
        let (value, valid) = self.tables[i].value(waiter.name);
        Message {
            from: self.home_of(waiter.name).master,
            to: waiter.owner.node,
            owner: waiter.owner,
            name: waiter.name,
            letter: Letter::Grant(waiter.mode, valid),
            value,
            version: version_at(self.versions.as_slice(), waiter.name),
        }
    }

    /// The grants to those that do not wait any more.
    fn grants(&self, alloc: Global, queue: &[Waiter]) -> Result<Vec<Message>, NoMemory>
        requires { IsShaped self.now }
        ensures { IfOk result (λ v. v.items ≡ grants_of self.now queue.now) }
    {
        let mut all = Vec::new(alloc);
        for w in queue {
            if self.is_served(*w) {
                all.push(self.grant_of(*w))?;
            }
        }
        Ok(all)
    }

    /// Those that still wait.
    fn left(&self, alloc: Global, queue: &[Waiter]) -> Result<Vec<Waiter>, NoMemory>
        requires { IsShaped self.now }
        ensures { IfOk result (λ v. v.items ≡ filter (λ w. not (is_served self.now w)) queue.now) }
    {
        let mut all = Vec::new(alloc);
        for w in queue {
            if !self.is_served(*w) {
                all.push(*w)?;
            }
        }
        Ok(all)
    }

    /// The tables have changed: sends a grant to each ask that does not wait any more, in order of the queue.
    #[tactic(auto, using(crate::proofs::Shapes::served_shape))]
    pub(crate) fn serve(&mut self, alloc: Global) -> Result<(), NoMemory>
        requires { IsShaped self.old }
        ensures after { OnOk result (self.new ≡ served self.old) }
        ensures shape { OnOk result (IsShaped self.new) }
    {
        let grants = self.grants(alloc, self.queue.as_slice())?;
        let left = self.left(alloc, self.queue.as_slice())?;
        self.mail.extend_from_slice(grants.as_slice())?;
        self.queue = left;
        Ok(())
    }

    /// The mode in which the owner of a message has a lock at the master.
    pub(crate) fn mode_of(&self, m: Message) -> Option<Mode>
        requires { IsShaped self.now }
        ensures { result ≡ mode_of m.owner (told_at m.name self.now).askers }
    {
        let i = home(self.nodes, m.name) as usize - 1;
        self.tables[i].mode(m.name, m.owner)
    }

    /// Notes the version of a name's value block before a call is made of its table.
    fn note_call(&mut self, m: Message, old: Option<Mode>) -> Result<(), NoMemory>
        requires { IsShaped self.old }
        ensures { OnOk result (self.new ≡ record self.old { versions = versions_after m old (table_at (home self.old.nodes m.name) self.old.tables) self.old.holds self.old.versions }) }
    {
        let i = home(self.nodes, m.name) as usize - 1;
        if writes(old, m.letter) {
            note_version(&mut self.versions, m.name, m.version)
        } else if is_in_use(&self.tables[i], m.name, self.holds.as_slice()) {
            Ok(())
        } else {
            note_version(&mut self.versions, m.name, 0)
        }
    }

    fn take_ask(&mut self, alloc: Global, m: Message, mode: Mode) -> Result<(), NoMemory>
        requires shape { IsShaped self.old }
        requires letter { m.letter ≡ Letter.Ask mode }
        ensures { OnOk result (self.new ≡ taken m self.old) }
    {
        let old = self.mode_of(m);
        let i = home(self.nodes, m.name) as usize - 1;
        self.note_call(m, old)?;
        make_ask(alloc, &mut self.tables[i], m, old, mode)?;
        put_last(&mut self.queue, m, old, mode)?;
        self.serve(alloc)
    }

    fn take_drop(&mut self, alloc: Global, m: Message) -> Result<(), NoMemory>
        requires shape { IsShaped self.old }
        requires letter { m.letter ≡ Letter.Drop }
        ensures { OnOk result (self.new ≡ taken m self.old) }
    {
        let old = self.mode_of(m);
        let i = home(self.nodes, m.name) as usize - 1;
        self.note_call(m, old)?;
        make_drop(&mut self.tables[i], m, old);
        self.serve(alloc)
    }

    /// The master of a name takes an ask or a drop.
    #[tactic(auto, using(crate::proofs::Shapes::taken_shape))]
    pub(crate) fn take(&mut self, alloc: Global, m: Message) -> Result<(), NoMemory>
        requires { IsShaped self.old }
        ensures after { OnOk result (self.new ≡ taken m self.old) }
        ensures shape { OnOk result (IsShaped self.new) }
    {
        match m.letter {
            Letter::Ask(mode) => self.take_ask(alloc, m, mode),
            Letter::Drop => self.take_drop(alloc, m),
            Letter::Grant(..) | Letter::Claim(_) => Ok(()),
        }
    }

    /// It takes several, one after the other.
    pub(crate) fn take_all(&mut self, alloc: Global, messages: &[Message]) -> Result<(), NoMemory>
        requires { IsShaped self.old }
        ensures after { OnOk result (self.new ≡ taken_all messages.now self.old) }
        ensures shape { OnOk result (IsShaped self.new) }
    {
        for m in messages {
            self.take(alloc, *m)?;
        }
        Ok(())
    }

    /// An owner gets a grant.
    pub(crate) fn take_grant(&mut self, m: Message, mode: Mode, valid: bool) -> Result<(), NoMemory>
        ensures { OnOk result (self.new ≡ granted m mode valid self.old) }
    {
        let value = m.value;
        note_block(
            &mut self.blocks,
            Block {
                node: m.owner.node,
                name: m.name,
                value,
                version: m.version,
            },
        )?;
        note(
            &mut self.holds,
            Hold {
                owner: m.owner,
                name: m.name,
                belief: Some(mode),
                wait: None,
                seen: Seen {
                    value,
                    valid,
                    version: m.version,
                },
            },
        )
    }
}
