//! A mounted volume, and the nodes that run a script on it.

ghost use Rattle.std.specs.Prelude.{◌≡◌, ◌≤◌, length, map};
ghost use Rattle.core_state.specs.Worlds.{IsOfWorld, shown};
ghost use Rattle.core_state.specs.Goods.{Good, IsAccepted};
ghost use Rattle.core_state.specs.Small.{AllGoOn};
ghost use Rattle.core_state.specs.Events.{is_over, count_of};

use crate::cluster::Core;
use crate::spare::SpareLists;
use blk_drive::{ImageDev, Mirror};
use op_law::Operation;
use plain_cat::{Cat, History, Script};
use std::marker::Model;

/// A mounted volume and the nodes that run a script on it.
///
/// At every moment the history of the answers replays from the opening catalogue, in each node's own order; the drive has the
/// blocks of the catalogue to which it leads, with the writes done of each command under way; and each lock that a command needs
/// is held.
#[derive(Drop)]
pub struct World<I: ImageDev, O: Operation> {
    pub core: Core<I, O>,

    /// A list of file numbers for the death of each node that lives.
    pub lists: SpareLists,
}

impl<I: ImageDev, O: Operation> Model for World<I, O> {
    ghost use Rattle.core_state.specs.Worlds.{Held, plain_of};
    ghost use Rattle.core_state.specs.Goods.{IsWorld, HasLists};

    ghost Value = { Held I };

    ghost view = { λ w. record { world = plain_of O.cmd_is w.core; image = w.core.mirror.image; room = w.core.history.room } };

    ghost invariant = { λ w. IsWorld O.takes (plain_of O.cmd_is w.core) w.core.history.room × HasLists (plain_of O.cmd_is w.core) w.lists };
}

impl<I: ImageDev, O: Operation> World<I, O> {
    /// Every world keeps the rules: what holds of it as it is mounted and after each event holds of it at any time. Its opening
    /// catalogue is that of an accepted volume.
    pub fn keeps_the_rules(&self)
        ensures good { Good self.now.world }
        ensures accepted { IsAccepted self.now.world.opening }
        ensures few { length self.now.world.nodes ≤ 8 }
        ensures lines { length self.now.world.script.lines ≤ 4096 }
    {
        let _core = &self.core;
    }

    /// No sequence of a value block comes to the last value of 64 bits: an answer raises each by just as much as its writes ask for,
    /// and by one at least where the block is not valid.
    pub fn sequences_do_not_stop(&self)
        ensures { AllGoOn self.now.world }
    {
        self.keeps_the_rules();
    }

    /// The answers so far, in order.
    pub fn history(&self) -> &History
        ensures { map shown result.now.items ≡ self.now.world.history }
    {
        &self.core.history
    }

    /// The catalogue that the volume told as it was mounted.
    pub fn opening(&self) -> &Cat
        ensures { result.now ≡ self.now.world.opening }
    {
        &self.core.opening
    }

    /// The script that the nodes run.
    pub fn script(&self) -> &Script
        ensures { result.now ≡ self.now.world.script }
    {
        &self.core.script
    }

    /// Whether a node is dead, or has left after its script was done. The nodes count from 1.
    pub fn is_over(&self, node: u8) -> bool
        requires { IsOfWorld self.now.world node }
        ensures { result ≡ is_over self.now.world node }
    {
        let node = &self.core.nodes[node as usize - 1];
        node.over || node.past.is_dead()
    }

    /// How many turns a node has made since mounting, those in which its request waited among them, and without those that a fault
    /// stopped. The nodes count from 1; the count stays at the last value of 64 bits, as the next three do.
    pub fn turns(&self, node: u8) -> u64
        requires { IsOfWorld self.now.world node }
        ensures { result ≡ count_of (λ s. s.turns) self.now.world node }
    {
        self.core.nodes[node as usize - 1].turns
    }

    /// How many blocks a node has written since mounting.
    pub fn writes(&self, node: u8) -> u64
        requires { IsOfWorld self.now.world node }
        ensures { result ≡ count_of (λ s. s.writes) self.now.world node }
    {
        self.core.nodes[node as usize - 1].writes
    }

    /// How many blocks a node has read from the drive since mounting.
    pub fn reads(&self, node: u8) -> u64
        requires { IsOfWorld self.now.world node }
        ensures { result ≡ count_of (λ s. s.reads) self.now.world node }
    {
        self.core.nodes[node as usize - 1].reads
    }

    /// How many blocks a node has found cached since mounting.
    pub fn hits(&self, node: u8) -> u64
        requires { IsOfWorld self.now.world node }
        ensures { result ≡ count_of (λ s. s.hits) self.now.world node }
    {
        self.core.nodes[node as usize - 1].hits
    }

    /// The history and the drive.
    pub fn into_parts(self) -> (History, Mirror<I>)
        ensures history { map shown result.0.items ≡ self.world.history }
        ensures blocks { result.1.blocks ≡ self.world.blocks }
        ensures image { result.1.image ≡ self.image }
    {
        (self.core.history, self.core.mirror)
    }
}
