//! What the death of a node makes of the others, and each event as a change of the state.

ghost use Rattle.std.specs.Prelude.{◌≡◌, ◌≤◌, ◌&&◌, ◌++◌, ◌∷◌, [], OnOk, IfOk, Some, None, filter, map, find, not, ◌==◌};
ghost use Rattle.dlm_core.specs.States.{IsShaped, home, master, is_between, hold_at};
ghost use Rattle.dlm_core.specs.Recoveries.{is_of_recovery};
ghost use Rattle.dlm_core.specs.Deaths.{lowest, without_dead, rehomed, was_master, goes_on, left_holds, left_blocks, left_awaited, buried, with_claimed, without_mail, rehomed_to, bereft, claim_from, with_claims, killed};
ghost use Rattle.dlm_core.specs.Events.{arrived, is_claimed, claimed, received, received_told, pass_told, pass_after, names_living, answer_of, played, told_of, after};

use crate::blocks::Block;
use crate::cluster::Cluster;
use crate::events::{Event, Told};
use crate::holds::{Hold, hold_at};
use crate::homes::{Awaited, Home};
use crate::messages::{Letter, Message, lose, take_first};
use crate::queue::Waiter;
use crate::recoveries::is_of_recovery;
use crate::tables::bereft_tables;
use lock_db::{LockName, NoMemory, Owner};
use std::alloc::Global;

/// Who lives after a death.
fn without_dead(alloc: Global, dead: u8, nodes: &[u8]) -> Result<Vec<u8>, NoMemory>
    ensures { IfOk result (λ v. v.items ≡ without_dead dead nodes.now) }
{
    let mut all = Vec::new(alloc);
    for n in nodes {
        if *n != dead {
            all.push(*n)?;
        }
    }
    Ok(all)
}

/// The lowest node that lives: 0, where none does.
fn lowest(living: &[u8]) -> u8
    ensures { result ≡ lowest living.now }
{
    match living {
        [first, ..] => *first,
        [] => 0,
    }
}

fn rehomed(dead: u8, next: u8, home: Home) -> Home
    ensures { result ≡ rehomed dead next home }
{
    if home.master == dead {
        Home {
            master: next,
            recovers: Some(dead),
        }
    } else {
        home
    }
}

/// The homes, of which those of the dead node get another master.
fn rehome_all(alloc: Global, dead: u8, next: u8, homes: &[Home]) -> Result<Vec<Home>, NoMemory>
    ensures { IfOk result (λ v. v.items ≡ map (rehomed dead next) homes.now) }
{
    let mut all = Vec::new(alloc);
    for h in homes {
        all.push(rehomed(dead, next, *h))?;
    }
    Ok(all)
}

/// Whether a recovery goes on: its names have not got another master.
fn goes_on(homes: &[Home], dead: u8) -> bool
    ensures { result ≡ goes_on homes.now dead }
{
    for h in homes {
        if is_of_recovery(dead, h.recovers) {
            return true;
        }
    }
    false
}

/// The recoveries that go on, and behind them that of the dead node.
fn left_recoveries(
    alloc: Global,
    dead: u8,
    homes: &[Home],
    recoveries: &[u8],
) -> Result<Vec<u8>, NoMemory>
    ensures { IfOk result (λ v. v.items ≡ filter (goes_on homes.now) recoveries.now ++ dead ∷ []) }
{
    let mut all = Vec::new(alloc);
    for d in recoveries {
        if goes_on(homes, *d) {
            all.push(*d)?;
        }
    }
    all.push(dead)?;
    Ok(all)
}

/// The claims that are still to come: those of the living for the recoveries that go on.
fn left_awaited(
    alloc: Global,
    dead: u8,
    homes: &[Home],
    awaited: &[Awaited],
) -> Result<Vec<Awaited>, NoMemory>
    ensures { IfOk result (λ v. v.items ≡ left_awaited dead homes.now awaited.now) }
{
    let mut all = Vec::new(alloc);
    for w in awaited {
        if w.node != dead && goes_on(homes, w.dead) {
            all.push(*w)?;
        }
    }
    Ok(all)
}

/// A claim of each living node is to come.
fn await_all(awaited: &mut Vec<Awaited>, dead: u8, living: &[u8]) -> Result<(), NoMemory>
    ensures { OnOk result (awaited.new.items ≡ awaited.old.items ++ map (λ n. record { dead = dead; node = n }) living.now) }
{
    for n in living {
        awaited.push(Awaited { dead, node: *n })?;
    }
    Ok(())
}

/// What the living believe.
fn left_holds(alloc: Global, dead: u8, holds: &[Hold]) -> Result<Vec<Hold>, NoMemory>
    ensures { IfOk result (λ v. v.items ≡ filter (λ h. not (h.owner.node == dead)) holds.now) }
{
    let mut all = Vec::new(alloc);
    for h in holds {
        if h.owner.node != dead {
            all.push(*h)?;
        }
    }
    Ok(all)
}

/// The value blocks that the living have read or written.
fn left_blocks(alloc: Global, dead: u8, blocks: &[Block]) -> Result<Vec<Block>, NoMemory>
    ensures { IfOk result (λ v. v.items ≡ filter (λ b. not (b.node == dead)) blocks.now) }
{
    let mut all = Vec::new(alloc);
    for b in blocks {
        if b.node != dead {
            all.push(*b)?;
        }
    }
    Ok(all)
}

/// A claim does not have to be awaited any more.
fn forget_awaited(awaited: &mut Vec<Awaited>, dead: u8, node: u8)
    ensures { awaited.new.items ≡ filter (λ w. not (is_claimed dead node w)) awaited.old.items }
{
    awaited.retain(|w| !(w.dead == dead && w.node == node));
}

fn claim_from(dead: u8, next: u8, node: u8) -> Message
    ensures { result ≡ claim_from dead next node }
{
    Message {
        from: node,
        to: next,
        owner: Owner { node, part: 0 },
        name: LockName::V,
        letter: Letter::Claim(dead),
        value: [0; 16],
        version: 0,
    }
}

/// Each of these nodes sends its claim.
fn claim_all(mail: &mut Vec<Message>, dead: u8, next: u8, nodes: &[u8]) -> Result<(), NoMemory>
    ensures { OnOk result (mail.new.items ≡ mail.old.items ++ map (claim_from dead next) nodes.now) }
{
    for n in nodes {
        mail.push(claim_from(dead, next, *n))?;
    }
    Ok(())
}

impl Cluster {
    /// Whether the dead node has been the master of a name.
    fn was_master(&self, dead: u8, name: LockName) -> bool
        requires { 1 ≤ self.now.nodes }
        ensures { result ≡ was_master dead self.now name }
    {
        self.home_of(name).master == dead
    }

    fn left_queue(&self, alloc: Global, dead: u8, some: &[Waiter]) -> Result<Vec<Waiter>, NoMemory>
        requires { 1 ≤ self.now.nodes }
        ensures { IfOk result (λ v. v.items
            ≡ filter (λ w. not (w.owner.node == dead) && not (was_master dead self.now w.name)) some.now) }
    {
        let mut all = Vec::new(alloc);
        for w in some {
            if w.owner.node != dead && !self.was_master(dead, w.name) {
                all.push(*w)?;
            }
        }
        Ok(all)
    }

    /// The claims of the living for names that have not lost their master.
    fn left_claims(&self, alloc: Global, dead: u8, some: &[Hold]) -> Result<Vec<Hold>, NoMemory>
        requires { 1 ≤ self.now.nodes }
        ensures { IfOk result (λ v. v.items
            ≡ filter (λ h. not (h.owner.node == dead) && not (was_master dead self.now h.name)) some.now) }
    {
        let mut all = Vec::new(alloc);
        for h in some {
            if h.owner.node != dead && !self.was_master(dead, h.name) {
                all.push(*h)?;
            }
        }
        Ok(all)
    }

    /// Adds the claims for names that have lost it.
    fn add_claims(&self, dead: u8, holds: &[Hold], claims: &mut Vec<Hold>) -> Result<(), NoMemory>
        requires { 1 ≤ self.now.nodes }
        ensures { OnOk result (claims.new.items ≡ claims.old.items ++ filter (λ h. was_master dead self.now h.name) holds.now) }
    {
        for h in holds {
            if self.was_master(dead, h.name) {
                claims.push(*h)?;
            }
        }
        Ok(())
    }

    fn left_claimed(&self, alloc: Global, dead: u8, some: &[Block]) -> Result<Vec<Block>, NoMemory>
        requires { 1 ≤ self.now.nodes }
        ensures { IfOk result (λ v. v.items
            ≡ filter (λ b. not (b.node == dead) && not (was_master dead self.now b.name)) some.now) }
    {
        let mut all = Vec::new(alloc);
        for b in some {
            if b.node != dead && !self.was_master(dead, b.name) {
                all.push(*b)?;
            }
        }
        Ok(all)
    }

    fn add_claimed(
        &self,
        dead: u8,
        blocks: &[Block],
        claimed: &mut Vec<Block>,
    ) -> Result<(), NoMemory>
        requires { 1 ≤ self.now.nodes }
        ensures { OnOk result (claimed.new.items ≡ claimed.old.items ++ filter (λ b. was_master dead self.now b.name) blocks.now) }
    {
        for b in blocks {
            if self.was_master(dead, b.name) {
                claimed.push(*b)?;
            }
        }
        Ok(())
    }

    /// What its owners waited for and believed, and what it read and wrote, is forgotten; and so are the asks for names that it
    /// was the master of.
    fn bury(&mut self, alloc: Global, dead: u8) -> Result<(), NoMemory>
        requires { IsShaped self.old }
        ensures { OnOk result (self.new ≡ buried dead self.old) }
    {
        let queue = self.left_queue(alloc, dead, self.queue.as_slice())?;
        let holds = left_holds(alloc, dead, self.holds.as_slice())?;
        let blocks = left_blocks(alloc, dead, self.blocks.as_slice())?;
        self.queue = queue;
        self.holds = holds;
        self.blocks = blocks;
        Ok(())
    }

    /// What the living believe, and what they read or wrote last, is claimed of the names that have lost their master.
    fn claim(&mut self, alloc: Global, dead: u8) -> Result<(), NoMemory>
        requires { IsShaped self.old }
        ensures { OnOk result (self.new ≡ with_claimed dead self.old) }
    {
        let mut claims = self.left_claims(alloc, dead, self.claims.as_slice())?;
        self.add_claims(dead, self.holds.as_slice(), &mut claims)?;
        let mut claimed = self.left_claimed(alloc, dead, self.claimed_blocks.as_slice())?;
        self.add_claimed(dead, self.blocks.as_slice(), &mut claimed)?;
        self.claims = claims;
        self.claimed_blocks = claimed;
        Ok(())
    }

    /// The messages from the dead node and to it are lost.
    fn lose_mail(&mut self, dead: u8)
        ensures { self.new ≡ without_mail dead self.old }
    {
        lose(&mut self.mail, dead);
        lose(&mut self.kept, dead);
    }

    /// The names that it was the master of are to be recovered by another.
    fn rehome(&mut self, alloc: Global, dead: u8, living: &[u8]) -> Result<(), NoMemory>
        requires { IsShaped self.old }
        ensures { OnOk result (self.new ≡ rehomed_to dead living.now (map (rehomed dead (lowest living.now)) self.old.homes) self.old) }
    {
        let homes = rehome_all(alloc, dead, lowest(living), self.homes.as_slice())?;
        let tables = bereft_tables(alloc, dead, self.homes.as_slice(), self.tables.as_slice())?;
        let recoveries = left_recoveries(
            alloc,
            dead,
            homes.as_slice(),
            self.recoveries.as_slice(),
        )?;
        let mut awaited = left_awaited(alloc, dead, homes.as_slice(), self.awaited.as_slice())?;
        await_all(&mut awaited, dead, living)?;
        self.homes = homes;
        self.tables = tables;
        self.recoveries = recoveries;
        self.awaited = awaited;
        Ok(())
    }

    /// A node is dead. Its messages, locks and requests are gone, and the names that it was the master of are to be recovered
    /// from what the living claim.
    fn bereave(&mut self, alloc: Global, dead: u8) -> Result<(), NoMemory>
        requires { IsShaped self.old }
        ensures after { OnOk result (self.new ≡ bereft dead self.old) }
        ensures shape { OnOk result (IsShaped self.new) }
    {
        let living = without_dead(alloc, dead, self.living.as_slice())?;
        self.bury(alloc, dead)?;
        self.claim(alloc, dead)?;
        self.lose_mail(dead);
        self.rehome(alloc, dead, living.as_slice())?;
        self.living = living;
        Ok(())
    }

    /// Each living node sends its claim to the new master.
    fn send_claims(&mut self, dead: u8) -> Result<(), NoMemory>
        ensures { OnOk result (self.new ≡ with_claims dead self.old) }
    {
        let next = lowest(self.living.as_slice());
        claim_all(&mut self.mail, dead, next, self.living.as_slice())
    }

    fn kill(&mut self, alloc: Global, dead: u8) -> Result<(), NoMemory>
        requires { IsShaped self.old }
        ensures { OnOk result (self.new ≡ killed dead self.old) }
    {
        self.bereave(alloc, dead)?;
        self.serve(alloc)?;
        self.end_all(alloc)?;
        self.send_claims(dead)
    }

    /// An ask or a drop arrives at its master, which keeps it back while the name is being recovered.
    fn arrive(&mut self, alloc: Global, m: Message) -> Result<(), NoMemory>
        requires { IsShaped self.old }
        ensures { OnOk result (self.new ≡ arrived m self.old) }
    {
        if self.home_of(m.name).recovers.is_some() {
            self.kept.push(m)?;
            Ok(())
        } else {
            self.take(alloc, m)
        }
    }

    /// A claim arrives; with the last one the recovery ends.
    fn take_claim(&mut self, alloc: Global, m: Message, dead: u8) -> Result<(), NoMemory>
        requires { IsShaped self.old }
        ensures { OnOk result (self.new ≡ claimed m dead self.old) }
    {
        forget_awaited(&mut self.awaited, dead, m.from);
        self.end_all(alloc)
    }

    fn receive(&mut self, alloc: Global, m: Message) -> Result<Told, NoMemory>
        requires { IsShaped self.old }
        ensures after { OnOk result (self.new ≡ received m m.letter self.old) }
        ensures told { IfOk result (λ t. t ≡ received_told m m.letter) }
    {
        match m.letter {
            Letter::Ask(_) | Letter::Drop => {
                self.arrive(alloc, m)?;
                Ok(Told::Done)
            }
            Letter::Claim(dead) => {
                self.take_claim(alloc, m, dead)?;
                Ok(Told::Done)
            }
            Letter::Grant(mode, valid) => {
                self.take_grant(m, mode, valid)?;
                let value = m.value;
                Ok(Told::Granted {
                    owner: m.owner,
                    name: m.name,
                    mode,
                    value,
                    valid,
                })
            }
        }
    }

    fn pass(&mut self, alloc: Global, from: u8, to: u8) -> Result<Told, NoMemory>
        requires { IsShaped self.old }
        ensures after { OnOk result (self.new ≡ pass_after from to (find (is_between from to) self.old.mail) self.old) }
        ensures told { IfOk result (λ t. t ≡ pass_told (find (is_between from to) self.old.mail)) }
    {
        match take_first(&mut self.mail, from, to) {
            Some(m) => self.receive(alloc, m),
            None => Ok(Told::Nothing),
        }
    }

    /// Whether an event names only nodes that live.
    fn names_living(&self, event: Event) -> bool
        ensures { result ≡ names_living event self.now }
    {
        match event {
            Event::Ask { owner, .. } | Event::Drop { owner, .. } => self.lives(owner.node),
            Event::Pass { from, to } => self.lives(from) && self.lives(to),
            Event::Kill { node } => self.lives(node),
        }
    }

    fn play(&mut self, alloc: Global, event: Event) -> Result<Told, NoMemory>
        requires { IsShaped self.old }
        ensures after { OnOk result (self.new ≡ played event self.old) }
        ensures told { IfOk result (λ t. t ≡ answer_of event self.old) }
    {
        match event {
            Event::Ask {
                owner,
                name,
                mode,
                fill,
            } => {
                let hold = hold_at(self.holds.as_slice(), owner, name);
                let told = self.ask(hold, mode, fill)?;
                Ok(told)
            }
            Event::Drop { owner, name, fill } => {
                let hold = hold_at(self.holds.as_slice(), owner, name);
                self.drop_lock(hold, fill)
            }
            Event::Pass { from, to } => self.pass(alloc, from, to),
            Event::Kill { node } => {
                self.kill(alloc, node)?;
                Ok(Told::Done)
            }
        }
    }

    /// Plays an event.
    pub(crate) fn act(&mut self, alloc: Global, event: Event) -> Result<Told, NoMemory>
        requires { IsShaped self.old }
        ensures after { OnOk result (self.new ≡ after event self.old) }
        ensures told { IfOk result (λ t. t ≡ told_of event self.old) }
    {
        if !self.names_living(event) {
            return Ok(Told::Dead);
        }
        self.play(alloc, event)
    }
}
