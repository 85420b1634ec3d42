//! DELETE under way.

ghost use Rattle.op_delete.specs.Kinds.{IsDelete};

use crate::deleting::delete_next;
use op_law::{Need, NoMemory, Operation, Seen};
use plain_cat::Cmd;
use std::alloc::Global;
use std::marker::Model;

/// A DELETE under way. It needs the directory's lock in PW, its header and all of its blocks; the lock and the header of the file
/// that the entry names, and the file's blocks where it is a directory; the quota file and the bitmaps; and then it makes its plan.
#[derive(Drop)]
pub struct OpDelete {
    cmd: Cmd,
}

impl Model for OpDelete {
    ghost use Rattle.plain_cat.specs.declared.command.Cmd.{Cmd};
    ghost use Rattle.op_delete.specs.Kinds.{IsDelete};

    ghost Value = { Cmd };

    ghost view = { λ s. s.cmd };

    ghost invariant = { λ s. IsDelete s.cmd };
}

impl Operation for OpDelete {
    ghost takes = { IsDelete };

    ghost cmd_is = { λ s. s };

    fn of(cmd: Cmd) -> Self {
        OpDelete { cmd }
    }

    fn cmd(&self) -> &Cmd {
        &self.cmd
    }

    fn into_cmd(self) -> Cmd {
        self.cmd
    }

    #[tactic(auto, unfolding(op_law::specs::Needs::events_of))]
    fn next(&self, alloc: Global, seen: &Seen) -> Result<Need, NoMemory> {
        match &self.cmd {
            Cmd::Delete { dir, name, ver } => delete_next(alloc, *dir, name, *ver, seen),
            _ => unreachable!(),
        }
    }
}
