//! Laws of deaths: accounts stay in order, system files stay, channels close.

ghost use Rattle.std.specs.Prelude.{◌≡◌, ◌≤◌, ◌<◌, ℕ, false, List, Option, Some, None};
ghost use Rattle.plain_cat.specs.declared.command.Cmd.{Cmd};
ghost use Rattle.plain_cat.specs.declared.reply.Reply.{Reply};
ghost use Rattle.plain_cat.specs.declared.history.Stage.{Stage};
ghost use Rattle.plain_cat.specs.declared.cat.Cat.{Cat};
ghost use Rattle.plain_rules.specs.Lookups.{channel_at, is_free_number};
ghost use Rattle.plain_rules.specs.Accounts.{Accounted};
ghost use Rattle.plain_rules.specs.Answers.{IsPick, Answer};
ghost use Rattle.plain_rules.specs.Stages.{staged};
ghost use Rattle.plain_rules.specs.Replaying.{dead};
ghost use Rattle.plain_histories.specs.Opens.{IsChannel, OpensNameFiles};
ghost use Rattle.plain_histories.specs.Moves.{switched_next, IsElsewhere};
ghost use Rattle.plain_histories.specs.Usages.{AreNear, HasSmallFiles};

/// A catalogue keeps the limits of a volume, and its accounts stay in order, where a node dies at any stage of its command: each owner
/// of a file still has a quota row, no usage is below what the owner's files cost, and while there were fewer than eight deaths before,
/// none is above that by more than a million.
pub fn deaths_keep_accounts()
    ensures { (c d : Cat) (n : ℕ) (x : Option Cmd) (s : Stage) (new : Option ℕ) (k clusters : ℕ) (numbers : List ℕ) → Accounted c → HasSmallFiles c → OpensNameFiles c → AreNear c k → k < 8 → IsPick c new
        → staged c n x s new ≡ Some d → Accounted (dead d n clusters numbers) }
{}

/// No number of a system file, which are those up to 11, becomes free: neither by an answer, nor by the death of a node at any stage of
/// its command.
pub fn system_numbers_stay_taken()
    ensures answers { (c d : Cat) (n : ℕ) (x : Cmd) (r : Reply) (i : ℕ) → OpensNameFiles c → Answer c n x r d → i ≤ 11 → is_free_number c i ≡ false → is_free_number d i ≡ false }
    ensures deaths { (c d : Cat) (n : ℕ) (x : Option Cmd) (s : Stage) (new : Option ℕ) (i clusters : ℕ) (numbers : List ℕ) → OpensNameFiles c → IsPick c new → staged c n x s new ≡ Some d
        → i ≤ 11 → is_free_number c i ≡ false → is_free_number (dead d n clusters numbers) i ≡ false }
{}

/// A death leaves the node's own channels with nothing open, and each channel of another node with what it had, whatever the stage of
/// the node's command, where that names no channel but one of the node's.
pub fn deaths_close_channels()
    ensures own { (c : Cat) (n chan clusters : ℕ) (numbers : List ℕ) → 1 ≤ chan → chan ≤ 8 → channel_at (dead c n clusters numbers) n chan ≡ None }
    ensures others { (c d : Cat) (n m chan : ℕ) (x : Option Cmd) (s : Stage) (new : Option ℕ) (clusters : ℕ) (numbers : List ℕ) → 1 ≤ n → IsChannel m chan → (n ≡ m → ⊥) → IsElsewhere n (switched_next x) m chan
        → IsPick c new → staged c n x s new ≡ Some d → channel_at (dead d n clusters numbers) m chan ≡ channel_at c m chan }
{}
