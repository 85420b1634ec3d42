//! Laws of the rules, for the proofs above.

ghost use Rattle.std.specs.Prelude.{◌≡◌, ◌≤◌, ◌+◌, ◌*◌, ℕ, false, is_none, Option};
ghost use Rattle.plain_cat.specs.declared.command.Cmd.{Cmd};
ghost use Rattle.plain_cat.specs.declared.reply.Reply.{Reply};
ghost use Rattle.plain_cat.specs.declared.reply.Reply.TheVariants as reply;
ghost use Rattle.plain_cat.specs.declared.reply.Refusal.{Refusal};
ghost use Rattle.plain_cat.specs.declared.history.Entry.{Entry};
ghost use Rattle.plain_cat.specs.declared.cat.Cat.{Cat};
ghost use Rattle.plain_rules.specs.Lookups.{header_most, file_most, extra, needs_header};
ghost use Rattle.plain_rules.specs.Changes.{cost};
ghost use Rattle.plain_rules.specs.Accounts.{death_cost};
ghost use Rattle.plain_rules.specs.Answers.{Answer, IsPick};
ghost use Rattle.plain_rules.specs.Checks.{shown_number, IsLegal};
ghost use Rattle.plain_rules.specs.OneForm.{HasOneForm};
ghost use Rattle.plain_rules.specs.Laws.{Same, Answered, makes_file};

/// Every command has an answer on every catalogue.
pub fn commands_are_answered()
    ensures { (c : Cat) (node : ℕ) (cmd : Cmd) → Answered c node cmd }
{}

/// The answer of a command, and the catalogue after it, are determined by the catalogue, the node and the command, but for
/// the number that the new file of CREATE and MKDIR takes. Every other command has one answer, a command that is refused has
/// no other answer, and two answers that show the same number are the same.
pub fn answers_are_determined()
    ensures others { (c : Cat) (node : ℕ) (cmd : Cmd) (r s : Reply) (d e : Cat) → makes_file cmd ≡ false → Answer c node cmd r d → Answer c node cmd s e → Same r s d e }
    ensures refused { (c : Cat) (node : ℕ) (cmd : Cmd) (why : Refusal) (s : Reply) (d e : Cat) → Answer c node cmd (reply.Refused why) d → Answer c node cmd s e → Same (reply.Refused why) s d e }
    ensures shown { (c : Cat) (node : ℕ) (cmd : Cmd) (r s : Reply) (d e : Cat) → Answer c node cmd r d → Answer c node cmd s e → shown_number r ≡ shown_number s → Same r s d e }
{}

/// Two picks of one catalogue are both a number or both none, so EXTEND, which looks at that alone, has one answer.
pub fn picks_are_alike()
    ensures { (c : Cat) (new other : Option ℕ) → IsPick c new → IsPick c other → is_none new ≡ is_none other }
{}

/// A file needs no new header while one has room for it, and for the growth that one command may ask for it needs at most one.
pub fn growth_needs_few_headers()
    ensures none { (k more : ℕ) → k + more ≤ header_most → needs_header k more ≡ false }
    ensures one { (k more : ℕ) → more ≤ header_most → extra (k + more) ≤ extra k + 1 }
{}

/// No file costs its owner more than a death may leave above the sum of a row, and eight deaths, which are all that a run
/// has, leave less than the million that a usage may be above it.
pub fn deaths_are_within()
    ensures file { (c : Cat) (n : ℕ) → c.factor ≤ 16 → n ≤ file_most → cost c n ≤ death_cost }
    ensures run { 8 * death_cost ≤ 1000000 }
{}

/// A legal entry leaves a catalogue in its one form: after the answer of any command, a death that left nothing of a command
/// and a mending its lists are in order again, with nothing twice, and as long as they were.
pub fn legal_entries_keep_the_form()
    ensures { (c : Cat) (e : Entry) (d : Cat) → HasOneForm c → IsLegal c e d → HasOneForm d }
{}
