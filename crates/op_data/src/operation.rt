//! READ and WRITE under way.

ghost use Rattle.op_data.specs.Kinds.{MovesData};

use crate::reading::read_next;
use crate::writing::write_next;
use op_law::{Need, NoMemory, Operation, Seen};
use plain_cat::Cmd;
use std::alloc::Global;
use std::marker::Model;

/// A READ or a WRITE under way. Both need the lock of the file that the channel has open, a READ in PR and a WRITE in PW, and its
/// header, and the same of each further header up to that which lists the block. A READ then looks at the block where it lies below
/// the mark or there is none. Where the channel has nothing open, or a WRITE has it open to read alone, nothing is needed.
#[derive(Drop)]
pub struct OpData {
    cmd: Cmd,
}

impl Model for OpData {
    ghost use Rattle.plain_cat.specs.declared.command.Cmd.{Cmd};
    ghost use Rattle.op_data.specs.Kinds.{MovesData};

    ghost Value = { Cmd };

    ghost view = { λ s. s.cmd };

    ghost invariant = { λ s. MovesData s.cmd };
}

impl Operation for OpData {
    ghost takes = { MovesData };

    ghost cmd_is = { λ s. s };

    fn of(cmd: Cmd) -> Self {
        OpData { cmd }
    }

    fn cmd(&self) -> &Cmd {
        &self.cmd
    }

    fn into_cmd(self) -> Cmd {
        self.cmd
    }

    #[tactic(auto, unfolding(op_law::specs::Needs::events_of))]
    fn next(&self, alloc: Global, seen: &Seen) -> Result<Need, NoMemory> {
        match &self.cmd {
            Cmd::ReadBlock { vbn, .. } => read_next(alloc, *vbn, seen),
            Cmd::WriteBlock { vbn, text, .. } => write_next(alloc, *vbn, text, seen),
            _ => unreachable!(),
        }
    }
}
