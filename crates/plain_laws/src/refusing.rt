//! A law of refusals: they change nothing.

ghost use Rattle.std.specs.Prelude.{◌≡◌, ℕ};
ghost use Rattle.plain_cat.specs.declared.command.Cmd.{Cmd};
ghost use Rattle.plain_cat.specs.declared.reply.Refusal.{Refusal};
ghost use Rattle.plain_cat.specs.declared.cat.Cat.{Cat};
ghost use Rattle.plain_laws.specs.Refusing.{Refuses};

/// A refused command leaves the catalogue as it was.
pub fn refusals_change_nothing()
    ensures { (c : Cat) (node : ℕ) (cmd : Cmd) (why : Refusal) (d : Cat) → Refuses c node cmd why d → d ≡ c }
{}
