//! Laws of scripts that no code runs: the contract of each function is a theorem.

ghost use Rattle.std.specs.Prelude.{ℕ, List};
ghost use Rattle.run_script.specs.Laws.{SayOneThing, CommandTextsReadBack};

/// A text spells one script, or has one first bad line, or one item too many, and never two of these.
pub fn a_text_says_one_thing()
    ensures { (lines : List (List ℕ)) → SayOneThing lines }
{}

/// The text of a command in form, put behind its node, is the line of that command with those identifiers, and of
/// nothing else.
pub fn command_texts_read_back()
    ensures { CommandTextsReadBack }
{}
