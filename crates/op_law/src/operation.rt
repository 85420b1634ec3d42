//! The trait of a command under way.

ghost use Rattle.std.specs.Prelude.{◌≡◌, IfOk};
ghost use Rattle.plain_cat.specs.declared.command.Cmd.{Cmd};

use crate::need::Need;
use crate::seen::Seen;
use plain_cat::{Cmd, NoMemory};
use std::alloc::Global;

/// A command under way: it says what it needs next, by what it has seen.
pub trait Operation: Sized + Drop {
    ghost use Rattle.op_law.specs.Needs.{IsNext};
    ghost use Rattle.op_law.specs.Fits.{FitsSeen};
    ghost use Rattle.op_law.specs.Laws.{Lawful};

    /// The commands that it takes.
    ghost takes: { Cmd → Type 0 };

    /// The command.
    ghost cmd_is: { Self → Cmd };

    /// The operation of a command that it takes. It takes no memory.
    fn of(cmd: Cmd) -> Self
        requires { takes cmd }
        ensures cmd { cmd_is result ≡ cmd }
        ensures lawful { Lawful cmd };

    /// The command. It takes no memory.
    fn cmd(&self) -> &Cmd
        ensures { result.now ≡ cmd_is self.now };

    /// The command, where the operation is done with. It takes no memory.
    fn into_cmd(self) -> Cmd
        ensures { result ≡ cmd_is self };

    /// What the command needs next, by what it has seen. An error says that memory ran out.
    fn next(&self, alloc: Global, seen: &Seen) -> Result<Need, NoMemory>
        requires { FitsSeen (cmd_is self.now) seen.now }
        ensures { IfOk result (IsNext (cmd_is self.now) seen.now) };
}
