//! CREATE and MKDIR under way.

ghost use Rattle.op_create.specs.Kinds.{IsMake};

use crate::entering::{create_next, mkdir_next};
use op_law::{Need, NoMemory, Operation, Seen};
use plain_cat::Cmd;
use std::alloc::Global;
use std::marker::Model;

/// A CREATE or MKDIR under way. It needs the directory's lock in PW, its header and all of its blocks, the quota file's lock in
/// PW and its blocks, clusters and a file number, and the lock of that number in PW and its slot; and then it makes its plan.
#[derive(Drop)]
pub struct OpCreate {
    cmd: Cmd,
}

impl Model for OpCreate {
    ghost use Rattle.plain_cat.specs.declared.command.Cmd.{Cmd};
    ghost use Rattle.op_create.specs.Kinds.{IsMake};

    ghost Value = { Cmd };

    ghost view = { λ s. s.cmd };

    ghost invariant = { λ s. IsMake s.cmd };
}

impl Operation for OpCreate {
    ghost takes = { IsMake };

    ghost cmd_is = { λ s. s };

    fn of(cmd: Cmd) -> Self {
        OpCreate { cmd }
    }

    fn cmd(&self) -> &Cmd {
        &self.cmd
    }

    fn into_cmd(self) -> Cmd {
        self.cmd
    }

    #[tactic(auto, unfolding(op_law::specs::Needs::events_of))]
    fn next(&self, alloc: Global, seen: &Seen) -> Result<Need, NoMemory> {
        match &self.cmd {
            Cmd::Create {
                dir,
                name,
                ver,
                blocks,
                owner,
                ..
            } => create_next(alloc, *dir, name, *ver, *blocks, *owner, seen),
            Cmd::MkDir {
                dir,
                name,
                owner,
                ..
            } => mkdir_next(alloc, *dir, name, *owner, seen),
            _ => unreachable!(),
        }
    }
}
