//! A law of sound catalogues: answers, deaths and mending keep them so.

ghost use Rattle.std.specs.Prelude.{◌≡◌, ℕ, List, Option, Some};
ghost use Rattle.plain_cat.specs.declared.command.Cmd.{Cmd};
ghost use Rattle.plain_cat.specs.declared.reply.Reply.{Reply};
ghost use Rattle.plain_cat.specs.declared.history.Stage.{Stage};
ghost use Rattle.plain_cat.specs.declared.history.Entry.{Entry};
ghost use Rattle.plain_cat.specs.declared.history.Mended.{Mended};
ghost use Rattle.plain_cat.specs.declared.script.Script.{Script};
ghost use Rattle.plain_cat.specs.declared.cat.Cat.{Cat};
ghost use Rattle.plain_rules.specs.Answers.{IsPick, Answer};
ghost use Rattle.plain_rules.specs.Stages.{staged};
ghost use Rattle.plain_rules.specs.Mending.{mended};
ghost use Rattle.plain_rules.specs.Replaying.{dead, Leads, Replays};
ghost use Rattle.plain_mends.specs.Sound.{IsSound};

/// A catalogue in order stays so: after each answer, at each stage of a command, after a death and a mending, and so along every
/// replay. It is a property of what is mounted on an accepted volume: on another one that can be mended, an entry that names no file
/// may close a chain of numbers.
pub fn sound_stays()
    ensures answers { (c d : Cat) (n : ℕ) (x : Cmd) (r : Reply) → IsSound c → Answer c n x r d → IsSound d }
    ensures stages { (c d : Cat) (n : ℕ) (x : Option Cmd) (s : Stage) (new : Option ℕ) → IsSound c → IsPick c new → staged c n x s new ≡ Some d → IsSound d }
    ensures deaths { (c : Cat) (n k : ℕ) (numbers : List ℕ) → IsSound c → IsSound (dead c n k numbers) }
    ensures mendings { (c d : Cat) (m : Mended) → IsSound c → mended c ≡ Some (d, m) → IsSound d }
    ensures entries { (s : Script) (h : List Entry) (c : Cat) (e : Entry) (d : Cat) → IsSound c → Leads s h c e d → IsSound d }
    ensures replays { (c : Cat) (s : Script) (h : List Entry) (d : Cat) → IsSound c → Replays c s h d → IsSound d }
{}
