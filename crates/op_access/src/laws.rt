//! The law, a statement for every command that it speaks of.

ghost use Rattle.plain_cat.specs.declared.command.Cmd.{Cmd};
ghost use Rattle.op_law.specs.Laws.{Lawful};
ghost use Rattle.op_access.specs.Kinds.{IsOpen, IsClose};

/// OPEN obeys the law.
pub fn open_obeys_the_law()
    ensures { (x : Cmd) → IsOpen x → Lawful x }
{}

/// CLOSE obeys the law.
pub fn close_obeys_the_law()
    ensures { (x : Cmd) → IsClose x → Lawful x }
{}
