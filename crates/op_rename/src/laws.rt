//! The law, a statement for every command that it speaks of.

ghost use Rattle.plain_cat.specs.declared.command.Cmd.{Cmd};
ghost use Rattle.op_law.specs.Laws.{Lawful};
ghost use Rattle.op_rename.specs.Kinds.{IsRename};

/// RENAME obeys the law.
pub fn rename_obeys_the_law()
    ensures { (x : Cmd) → IsRename x → Lawful x }
{}
