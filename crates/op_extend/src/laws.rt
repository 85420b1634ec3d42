//! The law, a statement for every command that it speaks of.

ghost use Rattle.plain_cat.specs.declared.command.Cmd.{Cmd};
ghost use Rattle.op_law.specs.Laws.{Lawful};
ghost use Rattle.op_extend.specs.Kinds.{IsExtend, IsTrunc};

/// EXTEND obeys the law.
pub fn extend_obeys_the_law()
    ensures { (x : Cmd) → IsExtend x → Lawful x }
{}

/// TRUNC obeys the law.
pub fn trunc_obeys_the_law()
    ensures { (x : Cmd) → IsTrunc x → Lawful x }
{}
