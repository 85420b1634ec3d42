//! The law, a statement for every command that it speaks of.

ghost use Rattle.plain_cat.specs.declared.command.Cmd.{Cmd};
ghost use Rattle.op_law.specs.Laws.{Lawful};
ghost use Rattle.op_quota.specs.Kinds.{IsQuota};

/// QUOTASET and QUOTASHOW obey the law.
pub fn quota_obeys_the_law()
    ensures { (x : Cmd) → IsQuota x → Lawful x }
{}
