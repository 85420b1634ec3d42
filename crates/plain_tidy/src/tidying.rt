//! Laws of tidy catalogues: where they come from, what keeps them, and what mending makes of them.

ghost use Rattle.std.specs.Prelude.{◌≡◌, ℕ, List, Some};
ghost use Rattle.plain_cat.specs.declared.command.Cmd.{Cmd};
ghost use Rattle.plain_cat.specs.declared.reply.Reply.{Reply};
ghost use Rattle.plain_cat.specs.declared.cat.Cat.{Cat};
ghost use Rattle.plain_rules.specs.Answers.{Answer};
ghost use Rattle.plain_rules.specs.Mending.{mended};
ghost use Rattle.plain_rules.specs.Replaying.{dead};
ghost use Rattle.plain_mends.specs.Resuming.{AreKeyed};
ghost use Rattle.plain_mends.specs.Sound.{IsSound};
ghost use Rattle.plain_mends.specs.Waiting.{IsDone};
ghost use Rattle.plain_tidy.specs.Tidy.{IsTidy, tidied, tidy_counts};

/// A catalogue in which nothing is left to mend is tidy, where it is in order and no directory has a name and version twice.
pub fn done_is_tidy()
    ensures { (c : Cat) → IsSound c → AreKeyed c → IsDone c → IsTidy c }
{}

/// A tidy catalogue stays tidy: after each answer, after a death that left nothing of a command, and after a mending.
pub fn tidy_stays()
    ensures answers { (c d : Cat) (n : ℕ) (x : Cmd) (r : Reply) → IsTidy c → Answer c n x r d → IsTidy d }
    ensures deaths { (c : Cat) (n k : ℕ) (numbers : List ℕ) → IsTidy c → IsTidy (dead c n k numbers) }
    ensures mendings { (c : Cat) → IsTidy c → IsTidy (tidied c) }
{}

/// Mending a tidy catalogue always ends: nothing is open any more, leaks and the files that are marked for delete are gone, and each
/// usage is what the owner's files cost. No entry is removed and none is made.
pub fn tidy_is_mended()
    ensures { (c : Cat) → IsTidy c → mended c ≡ Some (tidied c, tidy_counts c) }
{}
