//! Laws of open channels along a history.

ghost use Rattle.std.specs.Prelude.{◌≡◌, ◌≤◌, ℕ, Bool, true, false, List, Option, Some, None, length, replicate};
ghost use Rattle.std.specs.List.{list_all};
ghost use Rattle.plain_cat.specs.InForm.{in_form, InForm};
ghost use Rattle.plain_cat.specs.declared.ids.Fid.{Fid};
ghost use Rattle.plain_cat.specs.declared.mode.Mode.{Mode};
ghost use Rattle.plain_cat.specs.declared.command.Cmd.{Cmd};
ghost use Rattle.plain_cat.specs.declared.command.Cmd.TheVariants as cmd;
ghost use Rattle.plain_cat.specs.declared.reply.Reply.{Reply};
ghost use Rattle.plain_cat.specs.declared.reply.Reply.TheVariants as reply;
ghost use Rattle.plain_cat.specs.declared.history.Stage.{Stage};
ghost use Rattle.plain_cat.specs.declared.history.Entry.{Entry};
ghost use Rattle.plain_cat.specs.declared.history.Mended.{Mended};
ghost use Rattle.plain_cat.specs.declared.script.Script.{Script};
ghost use Rattle.plain_cat.specs.declared.cat.Cat.{Cat};
ghost use Rattle.plain_rules.specs.Lookups.{channel_at};
ghost use Rattle.plain_rules.specs.Answers.{IsPick, Answer};
ghost use Rattle.plain_rules.specs.Stages.{staged};
ghost use Rattle.plain_rules.specs.Mending.{mended};
ghost use Rattle.plain_rules.specs.Own.{is_opened, is_closed, past, IsNext, Own};
ghost use Rattle.plain_rules.specs.Replaying.{dead, Leads, Replays};
ghost use Rattle.plain_histories.specs.Opens.{IsChannel, has_open, OpensNameFiles};
ghost use Rattle.plain_rules.specs.Opens.{is_held_open};
ghost use Rattle.plain_histories.specs.Moves.{has_channel_in_form, switched_by, switched_next, IsElsewhere, opens_after};
ghost use Rattle.plain_histories.specs.Pasts.{AreOfNodes, AreOpenBy};

/// Each open is of a file above number 11 that is in use and is no directory, it is in CR or more, and the opens of one file go
/// together pair by pair. It holds where nothing is open, and stays: after each answer of a command whose channel and mode are in
/// form, at each stage of a command, after a death and a mending, and so along every history of a script in form.
pub fn opens_name_files()
    ensures closed { (c : Cat) → c.opens ≡ replicate 64 None → OpensNameFiles c }
    ensures held { (c : Cat) → OpensNameFiles c → list_all is_held_open c.opens ≡ true }
    ensures form { (x : Cmd) → in_form x ≡ true → has_channel_in_form x ≡ true }
    ensures answers { (c d : Cat) (n : ℕ) (x : Cmd) (r : Reply) → has_channel_in_form x ≡ true → OpensNameFiles c → Answer c n x r d → OpensNameFiles d }
    ensures stages { (c d : Cat) (n : ℕ) (x : Option Cmd) (s : Stage) (new : Option ℕ) → OpensNameFiles c → IsPick c new → staged c n x s new ≡ Some d → OpensNameFiles d }
    ensures deaths { (c : Cat) (n k : ℕ) (numbers : List ℕ) → OpensNameFiles c → OpensNameFiles (dead c n k numbers) }
    ensures mendings { (c d : Cat) (m : Mended) → OpensNameFiles c → mended c ≡ Some (d, m) → OpensNameFiles d }
    ensures entries { (s : Script) (h : List Entry) (c : Cat) (e : Entry) (d : Cat) → InForm s → IsNext s h e → OpensNameFiles c → Leads s h c e d → OpensNameFiles d }
    ensures replays { (c : Cat) (s : Script) (h : List Entry) (d : Cat) → InForm s → Own s h → OpensNameFiles c → Replays c s h d → OpensNameFiles d }
{}

/// What a channel has open stays while the command of another channel, or one that names none, is answered: the same open of the
/// same file with the same sequence, which still goes with all others. It stays at each stage of such a command, and after the death
/// of another node. A channel with nothing open stays so.
pub fn outcome_keeps_open()
    ensures channel { (c d : Cat) (m n chan : ℕ) (x : Cmd) (r : Reply) → IsChannel n chan → IsElsewhere m (switched_by x) n chan → Answer c m x r d → channel_at d n chan ≡ channel_at c n chan }
    ensures answers { (c d : Cat) (m n chan : ℕ) (x : Cmd) (r : Reply) (file : Fid) (mode : Mode) → IsChannel n chan → IsElsewhere m (switched_by x) n chan → Answer c m x r d → has_open c n chan file mode ≡ true → has_open d n chan file mode ≡ true }
    ensures stages { (c d : Cat) (m n chan : ℕ) (x : Option Cmd) (s : Stage) (new : Option ℕ) (file : Fid) (mode : Mode) → IsChannel n chan → IsElsewhere m (switched_next x) n chan → IsPick c new → staged c m x s new ≡ Some d → has_open c n chan file mode ≡ true → has_open d n chan file mode ≡ true }
    ensures deaths { (c : Cat) (m n chan k : ℕ) (numbers : List ℕ) (file : Fid) (mode : Mode) → 1 ≤ m → IsChannel n chan → (m ≡ n → ⊥) → has_open c n chan file mode ≡ true → has_open (dead c m k numbers) n chan file mode ≡ true }
{}

/// An answer changes what one channel has open, or nothing. OPEN that is answered `Opened` leaves its channel with the file open in
/// the mode, CLOSE that is answered `Closed` leaves it with nothing, and every other reply leaves all channels of all nodes.
pub fn answers_change_opens()
    ensures exactly { (c d : Cat) (n : ℕ) (x : Cmd) (r : Reply) → Answer c n x r d → d.opens ≡ opens_after c.opens n x r }
    ensures opened { (c d : Cat) (n chan : ℕ) (file : Fid) (mode : Mode) → IsChannel n chan → length c.opens ≡ 64 → Answer c n (cmd.OpenFile chan file mode) reply.Opened d → has_open d n chan file mode ≡ true }
    ensures closed { (c d : Cat) (n chan : ℕ) (gone : Bool) → Answer c n (cmd.CloseFile chan) (reply.Closed gone) d → channel_at d n chan ≡ None }
    ensures others { (c d : Cat) (m : ℕ) (x : Cmd) (r : Reply) → is_opened r ≡ false → is_closed r ≡ false → Answer c m x r d → d.opens ≡ c.opens }
    ensures still { (c d : Cat) (m n chan : ℕ) (x : Cmd) (r : Reply) (file : Fid) (mode : Mode) → is_opened r ≡ false → is_closed r ≡ false → IsChannel n chan → Answer c m x r d → has_open c n chan file mode ≡ true → has_open d n chan file mode ≡ true }
{}

/// A channel of a node that lives is open by the node's answers exactly where it is open in the catalogue to which the history
/// replays, from a catalogue where nothing is open.
pub fn past_channels()
    ensures { (c : Cat) (s : Script) (h : List Entry) (d : Cat) (n : ℕ) → InForm s → Own s h → AreOfNodes h → c.opens ≡ replicate 64 None → (past n h).dead ≡ false → Replays c s h d → AreOpenBy d n (past n h) }
{}
