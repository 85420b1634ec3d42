//! RENAME under way.

ghost use Rattle.op_rename.specs.Kinds.{IsRename};

use crate::renaming::rename_next;
use op_law::{Need, NoMemory, Operation, Seen};
use plain_cat::Cmd;
use std::alloc::Global;
use std::marker::Model;

/// A RENAME under way. It needs the directory's lock in PW, its header and all of its blocks; and then it makes its plan.
#[derive(Drop)]
pub struct OpRename {
    cmd: Cmd,
}

impl Model for OpRename {
    ghost use Rattle.plain_cat.specs.declared.command.Cmd.{Cmd};
    ghost use Rattle.op_rename.specs.Kinds.{IsRename};

    ghost Value = { Cmd };

    ghost view = { λ s. s.cmd };

    ghost invariant = { λ s. IsRename s.cmd };
}

impl Operation for OpRename {
    ghost takes = { IsRename };

    ghost cmd_is = { λ s. s };

    fn of(cmd: Cmd) -> Self {
        OpRename { cmd }
    }

    fn cmd(&self) -> &Cmd {
        &self.cmd
    }

    fn into_cmd(self) -> Cmd {
        self.cmd
    }

    #[tactic(auto, unfolding(op_law::specs::Needs::events_of))]
    fn next(&self, alloc: Global, seen: &Seen) -> Result<Need, NoMemory> {
        match &self.cmd {
            Cmd::Rename {
                dir,
                name,
                ver,
                to,
                to_ver,
            } => rename_next(alloc, *dir, name, *ver, to, *to_ver, seen),
            _ => unreachable!(),
        }
    }
}
