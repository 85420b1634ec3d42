//! The law, a statement for every command that it speaks of.

ghost use Rattle.plain_cat.specs.declared.command.Cmd.{Cmd};
ghost use Rattle.op_law.specs.Laws.{Lawful};
ghost use Rattle.op_delete.specs.Kinds.{IsDelete};

/// DELETE obeys the law.
pub fn delete_obeys_the_law()
    ensures { (x : Cmd) → IsDelete x → Lawful x }
{}
