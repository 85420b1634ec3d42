//! The law of a command, of all fifteen.

ghost use Rattle.plain_cat.specs.declared.command.Cmd.{Cmd};
ghost use Rattle.op_law.specs.Laws.{Lawful};
ghost use Rattle.xqp_set.specs.Built.{IsBuilt};

/// Each of the fifteen commands obeys the law, if its numbers, names and texts are in form.
pub fn commands_obey_the_law()
    ensures { (x : Cmd) → IsBuilt x → Lawful x }
{}
