//! QUOTASET and QUOTASHOW under way.

ghost use Rattle.op_quota.specs.Kinds.{IsQuota};

use crate::setting::quota_set_next;
use crate::showing::quota_show_next;
use op_law::{Need, NoMemory, Operation, Seen};
use plain_cat::Cmd;
use std::alloc::Global;
use std::marker::Model;

/// A QUOTASET or QUOTASHOW under way. It needs the quota file's lock, in PW or PR, and all of its blocks; and then it makes its
/// plan.
#[derive(Drop)]
pub struct OpQuota {
    cmd: Cmd,
}

impl Model for OpQuota {
    ghost use Rattle.plain_cat.specs.declared.command.Cmd.{Cmd};
    ghost use Rattle.op_quota.specs.Kinds.{IsQuota};

    ghost Value = { Cmd };

    ghost view = { λ s. s.cmd };

    ghost invariant = { λ s. IsQuota s.cmd };
}

impl Operation for OpQuota {
    ghost takes = { IsQuota };

    ghost cmd_is = { λ s. s };

    fn of(cmd: Cmd) -> Self {
        OpQuota { cmd }
    }

    fn cmd(&self) -> &Cmd {
        &self.cmd
    }

    fn into_cmd(self) -> Cmd {
        self.cmd
    }

    #[tactic(auto, unfolding(op_law::specs::Needs::events_of))]
    fn next(&self, alloc: Global, seen: &Seen) -> Result<Need, NoMemory> {
        match &self.cmd {
            Cmd::QuotaSet { owner, quota, over } => quota_set_next(
                alloc, *owner, *quota, *over, seen,
            ),
            Cmd::QuotaShow { owner } => quota_show_next(alloc, *owner, seen),
            _ => unreachable!(),
        }
    }
}
