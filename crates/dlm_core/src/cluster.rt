//! The state of all nodes, and what an owner's own event makes of it.

ghost use Rattle.std.specs.Prelude.{◌≡◌, ◌≤◌, ◌+◌, ◌++◌, ◌∷◌, [], OnOk, IfOk, map, if◌then◌else◌, ◌==◌};
ghost use Rattle.std.specs.List.{range_with_len, list_any};
ghost use Rattle.dlm_core.specs.Modes.{writes};
ghost use Rattle.dlm_core.specs.States.{State, start, own_home, home_at, home, lives, noted, noted_block};
ghost use Rattle.dlm_core.specs.Steps.{last_version, version_of, seen_after, call_to, called, ask_told, ask_after, drop_told, drop_after};

use crate::blocks::{Block, Seen, Version, block_at, next_version, note_block};
use crate::events::Told;
use crate::holds::{Hold, asked_hold, crosses, hold_at, note, writes};
use crate::homes::{Awaited, Home};
use crate::masters::home_of;
use crate::messages::{Letter, Message};
use crate::queue::Waiter;
use crate::rules::BlockRule;
use crate::tables::{copy_tables, new_tables};
use lock_db::{LockDb, LockName, Mode, NoMemory, Owner};
use std::alloc::Global;
use std::marker::Model;

/// The whole state.
#[derive(Drop)]
pub(crate) struct Cluster {
    pub(crate) rule: BlockRule,
    pub(crate) nodes: u8,
    pub(crate) living: Vec<u8>,
    pub(crate) homes: Vec<Home>,
    pub(crate) tables: Vec<LockDb>,
    pub(crate) versions: Vec<Version>,
    pub(crate) mail: Vec<Message>,
    pub(crate) queue: Vec<Waiter>,
    pub(crate) holds: Vec<Hold>,
    pub(crate) blocks: Vec<Block>,
    pub(crate) recoveries: Vec<u8>,
    pub(crate) awaited: Vec<Awaited>,
    pub(crate) claims: Vec<Hold>,
    pub(crate) claimed_blocks: Vec<Block>,
    pub(crate) kept: Vec<Message>,
}

impl Model for Cluster {
    ghost use Rattle.dlm_core.specs.States.{State};

    ghost Value = { State };

    ghost view = { λ c. record {
      rule = c.rule;
      nodes = c.nodes;
      living = c.living.items;
      homes = c.homes.items;
      tables = c.tables.items;
      versions = c.versions.items;
      mail = c.mail.items;
      queue = c.queue.items;
      holds = c.holds.items;
      blocks = c.blocks.items;
      recoveries = c.recoveries.items;
      awaited = c.awaited.items;
      claims = c.claims.items;
      claimed_blocks = c.claimed_blocks.items;
      kept = c.kept.items;
    } };
}

/// The numbers 1 to `nodes`.
#[tactic(auto, using(crate::proofs::Placing::range_more))]
fn numbers(alloc: Global, nodes: u8) -> Result<Vec<u8>, NoMemory>
    ensures { IfOk result (λ n. n.items ≡ range_with_len 1 nodes) }
{
    let mut all = Vec::new(alloc);
    for i in 0..nodes {
        all.push(i + 1)?;
    }
    Ok(all)
}

/// Each home, its own master.
fn own_homes(alloc: Global, nodes: &[u8]) -> Result<Vec<Home>, NoMemory>
    ensures { IfOk result (λ h. h.items ≡ map own_home nodes.now) }
{
    let mut all = Vec::new(alloc);
    for n in nodes {
        all.push(Home {
            master: *n,
            recovers: None,
        })?;
    }
    Ok(all)
}

/// What an owner has seen once it has sent a message: what it writes, where it does.
fn seen_after(old: Option<Mode>, hold: Hold, m: Message) -> Seen
    ensures { result ≡ seen_after old hold m }
{
    if writes(old, m.letter) {
        let value = m.value;
        Seen {
            value,
            valid: true,
            version: m.version,
        }
    } else {
        hold.seen
    }
}

fn is_among(node: u8, nodes: &[u8]) -> bool
    ensures { result ≡ list_any (λ k. k == node) nodes.now }
{
    for k in nodes {
        if *k == node {
            return true;
        }
    }
    false
}

impl Cluster {
    pub(crate) fn new(alloc: Global, rule: BlockRule, nodes: u8) -> Result<Cluster, NoMemory>
        ensures { IfOk result (λ c. c ≡ start rule nodes) }
    {
        let living = numbers(alloc, nodes)?;
        let homes = own_homes(alloc, living.as_slice())?;
        Ok(Cluster {
            rule,
            nodes,
            living,
            homes,
            tables: new_tables(alloc, nodes)?,
            versions: Vec::new(alloc),
            mail: Vec::new(alloc),
            queue: Vec::new(alloc),
            holds: Vec::new(alloc),
            blocks: Vec::new(alloc),
            recoveries: Vec::new(alloc),
            awaited: Vec::new(alloc),
            claims: Vec::new(alloc),
            claimed_blocks: Vec::new(alloc),
            kept: Vec::new(alloc),
        })
    }

    pub(crate) fn copy(&self, alloc: Global) -> Result<Cluster, NoMemory>
        ensures { IfOk result (λ c. c ≡ self.now) }
    {
        Ok(Cluster {
            rule: self.rule,
            nodes: self.nodes,
            living: Vec::from_slice(alloc, self.living.as_slice())?,
            homes: Vec::from_slice(alloc, self.homes.as_slice())?,
            tables: copy_tables(alloc, self.tables.as_slice())?,
            versions: Vec::from_slice(alloc, self.versions.as_slice())?,
            mail: Vec::from_slice(alloc, self.mail.as_slice())?,
            queue: Vec::from_slice(alloc, self.queue.as_slice())?,
            holds: Vec::from_slice(alloc, self.holds.as_slice())?,
            blocks: Vec::from_slice(alloc, self.blocks.as_slice())?,
            recoveries: Vec::from_slice(alloc, self.recoveries.as_slice())?,
            awaited: Vec::from_slice(alloc, self.awaited.as_slice())?,
            claims: Vec::from_slice(alloc, self.claims.as_slice())?,
            claimed_blocks: Vec::from_slice(alloc, self.claimed_blocks.as_slice())?,
            kept: Vec::from_slice(alloc, self.kept.as_slice())?,
        })
    }

    /// Whether a node lives.
    pub(crate) fn lives(&self, node: u8) -> bool
        ensures { result ≡ lives node self.now }
    {
        is_among(node, self.living.as_slice())
    }

    /// What stands of the home of a name.
    pub(crate) fn home_of(&self, name: LockName) -> Home
        requires { 1 ≤ self.now.nodes }
        ensures { result ≡ home_at (home self.now.nodes name) self.now.homes }
    {
        home_of(self.homes.as_slice(), self.nodes, name)
    }

    /// The version of what the writer of a name has read or written last: the owner, or by the rule of all its node.
    fn last_version(&self, owner: Owner, name: LockName) -> u64
        ensures { result ≡ last_version self.now.rule owner name self.now }
    {
        match self.rule {
            BlockRule::OfHolders => hold_at(self.holds.as_slice(), owner, name).seen.version,
            BlockRule::OfAll => block_at(self.blocks.as_slice(), owner.node, name).version,
        }
    }

    fn version_of(&self, hold: Hold, old: Option<Mode>, letter: Letter) -> u64
        ensures { result ≡ version_of hold.owner hold.name old letter self.now }
    {
        if writes(old, letter) {
            next_version(self.last_version(hold.owner, hold.name))
        } else {
            0
        }
    }

    /// The message to the master of a name, from an owner that believes a lock there.
    fn call_to(&self, old: Option<Mode>, hold: Hold, letter: Letter, fill: u8) -> Message
        requires { 1 ≤ self.now.nodes }
        ensures { result ≡ call_to hold.owner hold.name old letter fill self.now }
    {
        let version = self.version_of(hold, old, letter);
        let to = self.home_of(hold.name).master;
        Message {
            from: hold.owner.node,
            to,
            owner: hold.owner,
            name: hold.name,
            letter,
            value: [fill; 16],
            version,
        }
    }

    /// Notes what a node writes by a message, where it does.
    fn note_write(&mut self, m: Message, old: Option<Mode>) -> Result<(), NoMemory>
        ensures { OnOk result (self.new ≡ record self.old { blocks = if writes old m.letter then noted_block (record { node = m.owner.node; name = m.name; value = m.value; version = m.version }) self.old.blocks else self.old.blocks }) }
    {
        if writes(old, m.letter) {
            let value = m.value;
            note_block(
                &mut self.blocks,
                Block {
                    node: m.owner.node,
                    name: m.name,
                    value,
                    version: m.version,
                },
            )?;
        }
        Ok(())
    }

    /// Notes what an owner believes from now on, and what it has seen, by the message that it sends.
    fn note_hold(&mut self, hold: Hold, m: Message, old: Option<Mode>) -> Result<(), NoMemory>
        ensures { OnOk result (self.new ≡ record self.old { holds = noted (record hold { seen = seen_after old hold m }) self.old.holds }) }
    {
        let seen = seen_after(old, hold, m);
        note(&mut self.holds, Hold { seen, ..hold })
    }

    fn send(&mut self, m: Message) -> Result<(), NoMemory>
        ensures { OnOk result (self.new ≡ record self.old { mail = self.old.mail ++ m ∷ [] }) }
    {
        self.mail.push(m)?;
        Ok(())
    }

    /// Notes what the owner believes from now on, and sends its call to the master of the name.
    fn call(
        &mut self,
        old: Option<Mode>,
        hold: Hold,
        letter: Letter,
        fill: u8,
    ) -> Result<(), NoMemory>
        requires { 1 ≤ self.old.nodes }
        ensures { OnOk result (self.new ≡ called old hold letter fill self.old) }
    {
        let m = self.call_to(old, hold, letter, fill);
        self.note_write(m, old)?;
        self.note_hold(hold, m, old)?;
        self.send(m)?;
        Ok(())
    }

    pub(crate) fn ask(&mut self, hold: Hold, mode: Mode, fill: u8) -> Result<Told, NoMemory>
        requires { 1 ≤ self.old.nodes }
        ensures after { OnOk result (self.new ≡ ask_after hold mode fill self.old) }
        ensures told { IfOk result (λ t. t ≡ ask_told hold mode) }
    {
        if hold.wait.is_some() {
            return Ok(Told::Busy);
        }
        if crosses(hold.belief, mode) {
            return Ok(Told::BadConvert);
        }
        self.call(hold.belief, asked_hold(hold, mode), Letter::Ask(mode), fill)?;
        Ok(Told::Done)
    }

    pub(crate) fn drop_lock(&mut self, hold: Hold, fill: u8) -> Result<Told, NoMemory>
        requires { 1 ≤ self.old.nodes }
        ensures after { OnOk result (self.new ≡ drop_after hold fill self.old) }
        ensures told { IfOk result (λ t. t ≡ drop_told hold) }
    {
        if hold.wait.is_some() {
            return Ok(Told::Busy);
        }
        if hold.belief.is_none() {
            return Ok(Told::NotHeld);
        }
        let left = Hold {
            belief: None,
            ..hold
        };
        self.call(hold.belief, left, Letter::Drop, fill)?;
        Ok(Told::Done)
    }
}
