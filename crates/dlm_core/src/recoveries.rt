//! How the names of a dead node are recovered.

ghost use Rattle.std.specs.Prelude.{◌≡◌, ◌≤◌, ◌&&◌, OnOk, IfOk, Some, None, true, false, filter, find, map, not, ◌==◌};
ghost use Rattle.lock_db.specs.Names.{is_same};
ghost use Rattle.dlm_core.specs.States.{IsShaped, home, in_turn};
ghost use Rattle.dlm_core.specs.Recoveries.{is_of_recovery, is_with, is_better, better, best_block, is_strong, later, latest, unmarked, held_block, block_for, again, reclaimed_lock, reclaimed, asked_again, all_asked_again, settled_home, closed, recovered_with, ended, is_open, ended_if, all_ended};

use crate::blocks::{Block, Seen, note_version, unseen};
use crate::cluster::Cluster;
use crate::holds::Hold;
use crate::homes::{Awaited, Home};
use crate::masters::home;
use crate::messages::{Letter, Message};
use crate::queue::put_last;
use crate::rules::BlockRule;
use crate::tables::make_again;
use lock_db::{LockName, Mode, NoMemory};
use std::alloc::Global;

/// Whether a claimed value block is of a greater version than another, or of the same and of a lower node.
fn is_better(a: Block, b: Block) -> bool
    ensures { result ≡ is_better a b }
{
    a.version > b.version || (a.version == b.version && a.node < b.node)
}

fn better(block: Block, best: Option<Block>) -> Option<Block>
    ensures { result ≡ better block best }
{
    match best {
        Some(b) => {
            if is_better(block, b) {
                Some(block)
            } else {
                Some(b)
            }
        }
        None => Some(block),
    }
}

fn best_of(name: LockName, blocks: &[Block]) -> Option<Block>
    ensures { result ≡ in_turn better (filter (λ b. is_same b.name name) blocks.now) None }
{
    let mut best = None;
    for b in blocks {
        if b.name == name {
            best = better(*b, best);
        }
    }
    best
}

/// The claimed value block of the greatest version, not valid: zeros, where none is claimed.
fn best_block(name: LockName, blocks: &[Block]) -> Seen
    ensures { result ≡ best_block name blocks.now }
{
    match best_of(name, blocks) {
        Some(b) => {
            let value = b.value;
            Seen {
                value,
                valid: false,
                version: b.version,
            }
        }
        None => unseen(),
    }
}

fn is_strong(belief: Option<Mode>) -> bool
    ensures { result ≡ is_strong belief }
{
    matches!(belief, Some(Mode::CW | Mode::PR | Mode::PW | Mode::EX))
}

/// A claimed lock on a name above CR.
fn strong_of(name: LockName, holds: &[Hold]) -> Option<Hold>
    ensures { result ≡ find (λ h. is_same h.name name && is_strong h.belief) holds.now }
{
    holds
        .iter()
        .copied()
        .find(|h| h.name == name && is_strong(h.belief))
}

/// Of two claimed locks the one whose owner has seen the greater version.
fn later(hold: Hold, best: Option<Hold>) -> Option<Hold>
    ensures { result ≡ later hold best }
{
    match best {
        Some(b) => {
            if b.seen.version < hold.seen.version {
                Some(hold)
            } else {
                Some(b)
            }
        }
        None => Some(hold),
    }
}

/// Of the claimed locks on a name the one whose owner has seen the greatest version.
fn latest(name: LockName, holds: &[Hold]) -> Option<Hold>
    ensures { result ≡ latest name holds.now }
{
    let mut best = None;
    for h in holds {
        if h.name == name && h.belief.is_some() {
            best = later(*h, best);
        }
    }
    best
}

fn with_mark(seen: Seen, valid: bool) -> Seen
    ensures { result ≡ record seen { valid = valid } }
{
    Seen { valid, ..seen }
}

/// What the owner of a claimed lock has seen, not valid.
fn unmarked(last: Option<Hold>) -> Seen
    ensures { result ≡ unmarked last }
{
    match last {
        Some(h) => with_mark(h.seen, false),
        None => unseen(),
    }
}

/// The value block that the claimed locks on a name keep for it.
fn held_block(name: LockName, holds: &[Hold]) -> Seen
    ensures { result ≡ held_block name holds.now }
{
    match strong_of(name, holds) {
        Some(h) => h.seen,
        None => unmarked(latest(name, holds)),
    }
}

/// The value block of a name whose claims have all come.
fn block_for(rule: BlockRule, name: LockName, holds: &[Hold], blocks: &[Block]) -> Seen
    ensures { result ≡ block_for rule holds.now blocks.now name }
{
    match rule {
        BlockRule::OfHolders => held_block(name, holds),
        BlockRule::OfAll => best_block(name, blocks),
    }
}

pub(crate) fn is_of_recovery(dead: u8, recovers: Option<u8>) -> bool
    ensures { result ≡ is_of_recovery dead recovers }
{
    match recovers {
        Some(k) => k == dead,
        None => false,
    }
}

fn settled_home(dead: u8, home: Home) -> Home
    ensures { result ≡ settled_home dead home }
{
    if is_of_recovery(dead, home.recovers) {
        Home {
            master: home.master,
            recovers: None,
        }
    } else {
        home
    }
}

/// The homes, of which those of a dead node are not being recovered any more.
fn settled_homes(alloc: Global, dead: u8, homes: &[Home]) -> Result<Vec<Home>, NoMemory>
    ensures { IfOk result (λ h. h.items ≡ map (settled_home dead) homes.now) }
{
    let mut all = Vec::new(alloc);
    for h in homes {
        all.push(settled_home(dead, *h))?;
    }
    Ok(all)
}

/// Takes a dead node out of those whose names are being recovered.
fn forget(recoveries: &mut Vec<u8>, dead: u8)
    ensures { recoveries.new.items ≡ filter (λ k. not (k == dead)) recoveries.old.items }
{
    recoveries.retain(|k| *k != dead);
}

/// Whether a claim is still on its way.
fn is_open(dead: u8, awaited: &[Awaited]) -> bool
    ensures { result ≡ is_open dead awaited.now }
{
    for w in awaited {
        if w.dead == dead {
            return true;
        }
    }
    false
}

impl Cluster {
    /// Whether a name is among those of a dead node that are being recovered, or whether it is not.
    fn is_with(&self, own: bool, dead: u8, name: LockName) -> bool
        requires { 1 ≤ self.now.nodes }
        ensures { result ≡ is_with own dead self.now name }
    {
        let is = is_of_recovery(dead, self.home_of(name).recovers);
        if own { is } else { !is }
    }

    fn claims_of(
        &self,
        alloc: Global,
        own: bool,
        dead: u8,
        all: &[Hold],
    ) -> Result<Vec<Hold>, NoMemory>
        requires { 1 ≤ self.now.nodes }
        ensures { IfOk result (λ v. v.items ≡ filter (λ h. is_with own dead self.now h.name) all.now) }
    {
        let mut some = Vec::new(alloc);
        for h in all {
            if self.is_with(own, dead, h.name) {
                some.push(*h)?;
            }
        }
        Ok(some)
    }

    fn blocks_of(
        &self,
        alloc: Global,
        own: bool,
        dead: u8,
        all: &[Block],
    ) -> Result<Vec<Block>, NoMemory>
        requires { 1 ≤ self.now.nodes }
        ensures { IfOk result (λ v. v.items ≡ filter (λ b. is_with own dead self.now b.name) all.now) }
    {
        let mut some = Vec::new(alloc);
        for b in all {
            if self.is_with(own, dead, b.name) {
                some.push(*b)?;
            }
        }
        Ok(some)
    }

    fn kept_of(
        &self,
        alloc: Global,
        own: bool,
        dead: u8,
        all: &[Message],
    ) -> Result<Vec<Message>, NoMemory>
        requires { 1 ≤ self.now.nodes }
        ensures { IfOk result (λ v. v.items ≡ filter (λ m. is_with own dead self.now m.name) all.now) }
    {
        let mut some = Vec::new(alloc);
        for m in all {
            if self.is_with(own, dead, m.name) {
                some.push(*m)?;
            }
        }
        Ok(some)
    }

    /// The names of a dead node are not being recovered any more.
    #[tactic(auto, using(crate::proofs::Shapes::closed_shape))]
    fn close(&mut self, alloc: Global, dead: u8) -> Result<(), NoMemory>
        requires { IsShaped self.old }
        ensures after { OnOk result (self.new ≡ closed dead self.old) }
        ensures shape { OnOk result (IsShaped self.new) }
    {
        let claims = self.claims_of(alloc, false, dead, self.claims.as_slice())?;
        let blocks = self.blocks_of(alloc, false, dead, self.claimed_blocks.as_slice())?;
        let kept = self.kept_of(alloc, false, dead, self.kept.as_slice())?;
        self.homes = settled_homes(alloc, dead, self.homes.as_slice())?;
        self.claims = claims;
        self.claimed_blocks = blocks;
        self.kept = kept;
        forget(&mut self.recoveries, dead);
        Ok(())
    }

    /// A claimed ask, as a message that its owner sends once more, with the value block that is claimed for the name.
    fn again(&self, hold: Hold, mode: Mode, block: Seen) -> Message
        requires { 1 ≤ self.now.nodes }
        ensures { result ≡ again hold mode block self.now }
    {
        let value = block.value;
        Message {
            from: hold.owner.node,
            to: self.home_of(hold.name).master,
            owner: hold.owner,
            name: hold.name,
            letter: Letter::Ask(mode),
            value,
            version: block.version,
        }
    }

    /// Grants a claimed lock.
    #[tactic(auto, using(crate::proofs::Shapes::reclaimed_shape))]
    fn reclaim(&mut self, alloc: Global, hold: Hold, block: Seen) -> Result<(), NoMemory>
        requires { IsShaped self.old }
        ensures after { OnOk result (self.new ≡ reclaimed_lock hold hold.belief block self.old) }
        ensures shape { OnOk result (IsShaped self.new) }
    {
        if let Some(mode) = hold.belief {
            let m = self.again(hold, mode, block);
            let old = self.mode_of(m);
            let i = home(self.nodes, m.name) as usize - 1;
            make_again(alloc, &mut self.tables[i], m, old, mode, block.valid)?;
            note_version(&mut self.versions, m.name, m.version)?;
        }
        Ok(())
    }

    fn reclaim_all(
        &mut self,
        alloc: Global,
        rule: BlockRule,
        blocks: &[Block],
        holds: &[Hold],
    ) -> Result<(), NoMemory>
        requires { IsShaped self.old }
        ensures after { OnOk result (self.new ≡ reclaimed (block_for rule holds.now blocks.now) holds.now self.old) }
        ensures shape { OnOk result (IsShaped self.new) }
    {
        for h in holds {
            self.reclaim(alloc, *h, block_for(rule, h.name, holds, blocks))?;
        }
        Ok(())
    }

    /// Takes a claimed ask.
    #[tactic(auto, using(crate::proofs::Shapes::asked_shape))]
    fn ask_again(&mut self, alloc: Global, hold: Hold, block: Seen) -> Result<(), NoMemory>
        requires { IsShaped self.old }
        ensures after { OnOk result (self.new ≡ asked_again hold hold.wait block self.old) }
        ensures shape { OnOk result (IsShaped self.new) }
    {
        if let Some(mode) = hold.wait {
            let m = self.again(hold, mode, block);
            let old = self.mode_of(m);
            let i = home(self.nodes, m.name) as usize - 1;
            make_again(alloc, &mut self.tables[i], m, old, mode, block.valid)?;
            put_last(&mut self.queue, m, old, mode)?;
            note_version(&mut self.versions, m.name, m.version)?;
            self.serve(alloc)?;
        }
        Ok(())
    }

    fn ask_all_again(
        &mut self,
        alloc: Global,
        rule: BlockRule,
        blocks: &[Block],
        holds: &[Hold],
    ) -> Result<(), NoMemory>
        requires { IsShaped self.old }
        ensures after { OnOk result (self.new ≡ all_asked_again (block_for rule holds.now blocks.now) holds.now self.old) }
        ensures shape { OnOk result (IsShaped self.new) }
    {
        for h in holds {
            self.ask_again(alloc, *h, block_for(rule, h.name, holds, blocks))?;
        }
        Ok(())
    }

    /// What is claimed of the names of a dead node.
    fn own_claims(&self, alloc: Global, dead: u8) -> Result<Vec<Hold>, NoMemory>
        requires { 1 ≤ self.now.nodes }
        ensures { IfOk result (λ v. v.items ≡ filter (λ h. is_with true dead self.now h.name) self.now.claims) }
    {
        self.claims_of(alloc, true, dead, self.claims.as_slice())
    }

    fn own_blocks(&self, alloc: Global, dead: u8) -> Result<Vec<Block>, NoMemory>
        requires { 1 ≤ self.now.nodes }
        ensures { IfOk result (λ v. v.items ≡ filter (λ b. is_with true dead self.now b.name) self.now.claimed_blocks) }
    {
        self.blocks_of(alloc, true, dead, self.claimed_blocks.as_slice())
    }

    /// What is kept back of them.
    fn own_kept(&self, alloc: Global, dead: u8) -> Result<Vec<Message>, NoMemory>
        requires { 1 ≤ self.now.nodes }
        ensures { IfOk result (λ v. v.items ≡ filter (λ m. is_with true dead self.now m.name) self.now.kept) }
    {
        self.kept_of(alloc, true, dead, self.kept.as_slice())
    }

    /// Grants the claimed locks, takes the claimed conversions and requests, name after name, and then what was kept back.
    fn recover_with(
        &mut self,
        alloc: Global,
        claims: &[Hold],
        blocks: &[Block],
        kept: &[Message],
    ) -> Result<(), NoMemory>
        requires { IsShaped self.old }
        ensures after { OnOk result (self.new ≡ recovered_with (block_for self.old.rule claims.now blocks.now) claims.now kept.now self.old) }
        ensures shape { OnOk result (IsShaped self.new) }
    {
        let rule = self.rule;
        self.reclaim_all(alloc, rule, blocks, claims)?;
        self.ask_all_again(alloc, rule, blocks, claims)?;
        self.take_all(alloc, kept)
    }

    /// Ends a recovery.
    fn end(&mut self, alloc: Global, dead: u8) -> Result<(), NoMemory>
        requires { IsShaped self.old }
        ensures after { OnOk result (self.new ≡ ended dead self.old) }
        ensures shape { OnOk result (IsShaped self.new) }
    {
        let claims = self.own_claims(alloc, dead)?;
        let blocks = self.own_blocks(alloc, dead)?;
        let kept = self.own_kept(alloc, dead)?;
        self.close(alloc, dead)?;
        self.recover_with(alloc, claims.as_slice(), blocks.as_slice(), kept.as_slice())
    }

    fn end_if(&mut self, alloc: Global, dead: u8) -> Result<(), NoMemory>
        requires { IsShaped self.old }
        ensures after { OnOk result (self.new ≡ ended_if dead self.old) }
        ensures shape { OnOk result (IsShaped self.new) }
    {
        if is_open(dead, self.awaited.as_slice()) {
            return Ok(());
        }
        self.end(alloc, dead)
    }

    fn end_each(&mut self, alloc: Global, recoveries: &[u8]) -> Result<(), NoMemory>
        requires { IsShaped self.old }
        ensures after { OnOk result (self.new ≡ all_ended recoveries.now self.old) }
        ensures shape { OnOk result (IsShaped self.new) }
    {
        for dead in recoveries {
            self.end_if(alloc, *dead)?;
        }
        Ok(())
    }

    /// Ends the recoveries for which no claim is on its way any more, in order of the deaths.
    pub(crate) fn end_all(&mut self, alloc: Global) -> Result<(), NoMemory>
        requires { IsShaped self.old }
        ensures after { OnOk result (self.new ≡ all_ended self.old.recoveries self.old) }
        ensures shape { OnOk result (IsShaped self.new) }
    {
        let recoveries = Vec::from_slice(alloc, self.recoveries.as_slice())?;
        self.end_each(alloc, recoveries.as_slice())
    }
}
