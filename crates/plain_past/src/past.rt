//! What a node has of its answers so far: registers, open channels, and the place in its script.

ghost use Rattle.std.specs.Prelude.{◌≡◌, ◌<◌, true, IfOk, is_some};
ghost use Rattle.plain_rules.specs.Own.{newborn, after_answer, command_after};

use crate::{channels, filling, registers};
use plain_cat::{Cmd, Fid, NoMemory, Reply, Script};
use std::alloc::Global;
use std::marker::Model;

/// What a node has of its answers so far: what its eight registers hold, which of its eight channels are open, how many of
/// its commands were answered, and whether it is dead.
#[derive(Drop)]
pub struct Past {
    registers: [Fid; 8],
    channels: [bool; 8],
    answered: u32,
    dead: bool,
}

impl Model for Past {
    ghost use Rattle.plain_rules.specs.Own.{NodePast};

    ghost Value = { NodePast };

    ghost view = { λ p. record { registers = p.registers; channels = p.channels; answered = p.answered; dead = p.dead } };
}

impl Past {
    /// A node without an answer: each register holds number 0 and sequence 0, no channel is open.
    #[tactic(auto, unfolding(plain_rules::specs::Own::newborn))]
    pub fn new() -> Past
        ensures { result ≡ newborn }
    {
        Past {
            registers: [Fid { num: 0, seq: 0 }; 8],
            channels: [false; 8],
            answered: 0,
            dead: false,
        }
    }

    /// How many commands of the node were answered, 0 to 4,294,967,295.
    pub fn answered(&self) -> u32
        ensures { result ≡ self.now.answered }
    {
        self.answered
    }

    /// Whether the node is dead.
    pub fn is_dead(&self) -> bool
        ensures { result ≡ self.now.dead }
    {
        self.dead
    }

    /// One answer more. A register is set where the reply tells of an identifier, and a channel is open or closed from now
    /// on where the reply says so; a refusal does neither. A register or channel past 8 changes nothing, and 0 counts as 1.
    /// Fewer than 4,294,967,295 were answered before. It takes no memory.
    #[tactic(auto, unfolding(plain_rules::specs::Own::after_answer))]
    pub fn answer(&mut self, cmd: &Cmd, reply: &Reply)
        requires { self.old.answered < 4294967295 }
        ensures { self.new ≡ after_answer self.old cmd.now reply.now }
    {
        registers::keep(
            &mut self.registers,
            registers::register_of(cmd),
            registers::found_fid(reply),
        );
        channels::note(&mut self.channels, cmd, reply);
        self.answered += 1;
    }

    /// The node dies. What it had of its answers stays.
    pub fn die(&mut self)
        ensures { self.new ≡ record self.old { dead = true } }
    {
        self.dead = true;
    }

    /// The next command of this node, whose number is from 1: that of its next line, with what its registers hold now in
    /// place of references; after its last line the close of the first channel that is open; none where there is none. A dead
    /// node has one too: that it gives no command is its caller's to see. The error comes where memory for a name is refused.
    pub fn next(&self, alloc: Global, script: &Script, node: u8) -> Result<Option<Cmd>, NoMemory>
        ensures { IfOk result (λ o. o ≡ command_after script.now node self.now) }
    {
        match script.lines.own(node, self.answered) {
            Some(line) => Ok(Some(filling::filled(alloc, &self.registers, line)?)),
            None => Ok(channels::first_close(&self.channels)),
        }
    }

    /// Whether the node has a next command. It takes no memory.
    pub fn has_next(&self, script: &Script, node: u8) -> bool
        ensures { result ≡ is_some (command_after script.now node self.now) }
    {
        script.lines.own(node, self.answered).is_some()
            || channels::first_close(&self.channels).is_some()
    }
}
