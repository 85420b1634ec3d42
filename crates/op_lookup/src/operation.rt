//! LOOKUP, LIST and STAT under way.

ghost use Rattle.op_lookup.specs.Kinds.{IsLook};

use crate::looks::{list_next, lookup_next, stat_next};
use op_law::{Need, NoMemory, Operation, Seen};
use plain_cat::Cmd;
use std::alloc::Global;
use std::marker::Model;

/// A LOOKUP, LIST or STAT under way. It needs one file's lock in PR, its header, of a directory all blocks, and then answers.
#[derive(Drop)]
pub struct OpLookup {
    cmd: Cmd,
}

impl Model for OpLookup {
    ghost use Rattle.plain_cat.specs.declared.command.Cmd.{Cmd};
    ghost use Rattle.op_lookup.specs.Kinds.{IsLook};

    ghost Value = { Cmd };

    ghost view = { λ s. s.cmd };

    ghost invariant = { λ s. IsLook s.cmd };
}

impl Operation for OpLookup {
    ghost takes = { IsLook };

    ghost cmd_is = { λ s. s };

    fn of(cmd: Cmd) -> Self {
        OpLookup { cmd }
    }

    fn cmd(&self) -> &Cmd {
        &self.cmd
    }

    fn into_cmd(self) -> Cmd {
        self.cmd
    }

    #[tactic(auto, unfolding(op_law::specs::Needs::events_of))]
    fn next(&self, alloc: Global, seen: &Seen) -> Result<Need, NoMemory> {
        match &self.cmd {
            Cmd::Lookup { dir, name, ver, .. } => lookup_next(alloc, *dir, name, *ver, seen),
            Cmd::List { dir } => list_next(alloc, *dir, seen),
            Cmd::Stat { file } => Ok(stat_next(alloc, *file, seen)),
            _ => unreachable!(),
        }
    }
}
