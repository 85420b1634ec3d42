//! The law, a statement for every command that it speaks of.

ghost use Rattle.plain_cat.specs.declared.command.Cmd.{Cmd};
ghost use Rattle.op_law.specs.Laws.{Lawful};
ghost use Rattle.op_create.specs.Kinds.{IsMake};

/// CREATE and MKDIR obey the law.
pub fn create_obeys_the_law()
    ensures { (x : Cmd) → IsMake x → Lawful x }
{}
