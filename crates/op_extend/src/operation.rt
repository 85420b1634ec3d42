//! EXTEND and TRUNC under way.

ghost use Rattle.op_extend.specs.Kinds.{ChangesSize};

use crate::extending::extend_next;
use crate::truncating::trunc_next;
use op_law::{Need, NoMemory, Operation, Seen};
use plain_cat::Cmd;
use std::alloc::Global;
use std::marker::Model;

/// An EXTEND or a TRUNC under way. Both need the locks of the file's headers in PW and these headers, and the quota file's lock in PW
/// and its blocks. EXTEND then needs clusters, and a number with its lock and its slot if a new header is needed, and TRUNC the lock
/// of the bitmaps in PW and the blocks that have bits of what goes. A TRUNC by which nothing goes needs the headers alone.
#[derive(Drop)]
pub struct OpExtend {
    cmd: Cmd,
}

impl Model for OpExtend {
    ghost use Rattle.plain_cat.specs.declared.command.Cmd.{Cmd};
    ghost use Rattle.op_extend.specs.Kinds.{ChangesSize};

    ghost Value = { Cmd };

    ghost view = { λ s. s.cmd };

    ghost invariant = { λ s. ChangesSize s.cmd };
}

impl Operation for OpExtend {
    ghost takes = { ChangesSize };

    ghost cmd_is = { λ s. s };

    fn of(cmd: Cmd) -> Self {
        OpExtend { cmd }
    }

    fn cmd(&self) -> &Cmd {
        &self.cmd
    }

    fn into_cmd(self) -> Cmd {
        self.cmd
    }

    #[tactic(auto, unfolding(op_law::specs::Needs::events_of))]
    fn next(&self, alloc: Global, seen: &Seen) -> Result<Need, NoMemory> {
        match &self.cmd {
            Cmd::Extend { file, blocks } => extend_next(alloc, *file, *blocks, seen),
            Cmd::Trunc { file, blocks } => trunc_next(alloc, *file, *blocks, seen),
            _ => unreachable!(),
        }
    }
}
