//! OPEN and CLOSE under way.

ghost use Rattle.op_access.specs.Kinds.{IsAccess};

use crate::closing::close_next;
use crate::opening::open_next;
use op_law::{Need, NoMemory, Operation, Seen};
use plain_cat::Cmd;
use std::alloc::Global;
use std::marker::Model;

/// An OPEN or a CLOSE under way. Both need the file's lock in PW and its header. OPEN then asks for the lock of who has the file open,
/// in its mode. CLOSE of a file that is marked for delete needs the file's other headers, the quota file and the bitmaps besides,
/// and asks whether no other channel has the file open, unless its own mode says so.
#[derive(Drop)]
pub struct OpAccess {
    cmd: Cmd,
}

impl Model for OpAccess {
    ghost use Rattle.plain_cat.specs.declared.command.Cmd.{Cmd};
    ghost use Rattle.op_access.specs.Kinds.{IsAccess};

    ghost Value = { Cmd };

    ghost view = { λ s. s.cmd };

    ghost invariant = { λ s. IsAccess s.cmd };
}

impl Operation for OpAccess {
    ghost takes = { IsAccess };

    ghost cmd_is = { λ s. s };

    fn of(cmd: Cmd) -> Self {
        OpAccess { cmd }
    }

    fn cmd(&self) -> &Cmd {
        &self.cmd
    }

    fn into_cmd(self) -> Cmd {
        self.cmd
    }

    #[tactic(auto, unfolding(op_law::specs::Needs::events_of))]
    fn next(&self, alloc: Global, seen: &Seen) -> Result<Need, NoMemory> {
        match &self.cmd {
            Cmd::OpenFile { chan, file, mode } => Ok(open_next(alloc, *chan, *file, *mode, seen)),
            Cmd::CloseFile { chan } => close_next(alloc, *chan, seen),
            _ => unreachable!(),
        }
    }
}
