//! Laws of sizes and quota usage along a history.

ghost use Rattle.std.specs.Prelude.{◌≡◌, ◌≤◌, ◌+◌, ℕ, List, Option, Some, All};
ghost use Rattle.plain_cat.specs.declared.command.Cmd.{Cmd};
ghost use Rattle.plain_cat.specs.declared.reply.Reply.{Reply};
ghost use Rattle.plain_cat.specs.declared.history.Stage.{Stage};
ghost use Rattle.plain_cat.specs.declared.cat.Cat.{Cat};
ghost use Rattle.plain_cat.specs.declared.cat.QuotaRow.{QuotaRow};
ghost use Rattle.plain_rules.specs.Accounts.{charge};
ghost use Rattle.plain_rules.specs.Answers.{IsPick, Answer};
ghost use Rattle.plain_rules.specs.Stages.{staged};
ghost use Rattle.plain_rules.specs.Replaying.{dead};
ghost use Rattle.plain_histories.specs.Opens.{OpensNameFiles};
ghost use Rattle.plain_histories.specs.Usages.{AreNear, HasSmallFiles};

/// A file above number 11 has at most `file_most` clusters after every answer, at every stage of a command and after every death, where it
/// was so before.
pub fn files_stay_small()
    ensures answers { (c d : Cat) (n : ℕ) (x : Cmd) (r : Reply) → HasSmallFiles c → Answer c n x r d → HasSmallFiles d }
    ensures stages { (c d : Cat) (n : ℕ) (x : Option Cmd) (s : Stage) (new : Option ℕ) → HasSmallFiles c → IsPick c new → staged c n x s new ≡ Some d → HasSmallFiles d }
    ensures deaths { (c : Cat) (n k : ℕ) (numbers : List ℕ) → HasSmallFiles c → HasSmallFiles (dead c n k numbers) }
{}

/// The usage of a quota row is above what its owner's files cost by at most the cost of one file for each death. An answer adds
/// nothing to that, and a stage at which a node dies adds the cost of one file at most. Eight deaths, which are all that a run has,
/// leave at most a million more.
pub fn usages_stay_near()
    ensures answers { (c d : Cat) (n : ℕ) (x : Cmd) (r : Reply) (k : ℕ) → AreNear c k → Answer c n x r d → AreNear d k }
    ensures stages { (c d : Cat) (n : ℕ) (x : Option Cmd) (s : Stage) (new : Option ℕ) (k : ℕ) → HasSmallFiles c → OpensNameFiles c → IsPick c new → AreNear c k → staged c n x s new ≡ Some d → AreNear d (k + 1) }
    ensures deaths { (c : Cat) (n m : ℕ) (numbers : List ℕ) (k : ℕ) → AreNear c k → AreNear (dead c n m numbers) k }
    ensures eight { (c : Cat) (k : ℕ) → k ≤ 8 → AreNear c k → All (λ (r : QuotaRow). r.usage ≤ charge c r.owner + 1000000) c.quota }
{}
