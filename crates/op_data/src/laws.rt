//! The law, a statement for every command that it speaks of.

ghost use Rattle.plain_cat.specs.declared.command.Cmd.{Cmd};
ghost use Rattle.op_law.specs.Laws.{Lawful};
ghost use Rattle.op_data.specs.Kinds.{IsRead, IsWrite};

/// READ obeys the law.
pub fn read_obeys_the_law()
    ensures { (x : Cmd) → IsRead x → Lawful x }
{}

/// WRITE obeys the law.
pub fn write_obeys_the_law()
    ensures { (x : Cmd) → IsWrite x → Lawful x }
{}
