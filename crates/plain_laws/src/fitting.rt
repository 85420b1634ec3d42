//! A law of free clusters: they are all that no file has and nothing leaked.

ghost use Rattle.std.specs.Prelude.{◌≡◌, ◌+◌, ℕ, List};
ghost use Rattle.plain_cat.specs.declared.command.Cmd.{Cmd};
ghost use Rattle.plain_cat.specs.declared.reply.Reply.{Reply};
ghost use Rattle.plain_cat.specs.declared.history.Entry.{Entry};
ghost use Rattle.plain_cat.specs.declared.script.Script.{Script};
ghost use Rattle.plain_cat.specs.declared.cat.Cat.{Cat};
ghost use Rattle.plain_rules.specs.Lookups.{free_clusters};
ghost use Rattle.plain_rules.specs.Answers.{Answer};
ghost use Rattle.plain_rules.specs.Replaying.{Leads, Replays};
ghost use Rattle.plain_laws.specs.Fitting.{taken, Fits};

/// Where no more clusters are taken than the volume has, the free ones are all the others, and this stays so: after every
/// answer, after every entry of a history, be it a death at any stage or a mending, and so along every replay.
pub fn free_clusters_fit()
    ensures free { (c : Cat) → Fits c → taken c + free_clusters c ≡ c.total }
    ensures answers { (c : Cat) (node : ℕ) (cmd : Cmd) (r : Reply) (d : Cat) → Fits c → Answer c node cmd r d → Fits d }
    ensures entries { (s : Script) (h : List Entry) (c : Cat) (e : Entry) (d : Cat) → Fits c → Leads s h c e d → Fits d }
    ensures replays { (c : Cat) (s : Script) (h : List Entry) (d : Cat) → Fits c → Replays c s h d → Fits d }
{}
