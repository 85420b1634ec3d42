//! Which number a command takes, by the text of its answer.

ghost use Rattle.std.specs.Prelude.{◌≡◌, ◌++◌, ◌∷◌, ℕ, List, Some};
ghost use Rattle.plain_cat.specs.declared.reply.Reply.{Reply};
ghost use Rattle.plain_rules.specs.Accounts.{Accounted};
ghost use Rattle.plain_rules.specs.Answers.{IsPick, takes_space};
ghost use Rattle.plain_rules.specs.Checks.{shown_number};
ghost use Rattle.plain_texts.specs.Replies.{reply_text};
ghost use Rattle.log_check.specs.Steps.{IsChosen};

use crate::shown_number;
use plain_cat::{Cat, Cmd};
use plain_vol::{is_free_number, pick};

// Whether a command may take a number, for a new file or a new header.
fn takes_space(cmd: &Cmd) -> bool
    ensures { result ≡ takes_space cmd.now }
{
    matches!(
        cmd,
        Cmd::Create { .. } | Cmd::MkDir { .. } | Cmd::Extend { .. }
    )
}

// The number that a command takes: the one that the text of its reply shows, where that is free, else the lowest; none where
// there is none to take.
fn shown_or_first(cat: &Cat, reply: &[u8]) -> Option<u32>
    requires { Accounted cat.now }
    ensures pick { IsPick cat.now result }
    ensures shown { (r : Reply) (n : ℕ) (rest : List ℕ) → reply.now ≡ reply_text r ++ (10 ∷ rest) → shown_number r ≡ Some n → IsPick cat.now (Some n) → result ≡ Some n }
{
    let first = pick(cat)?;
    match shown_number(reply) {
        Some(n) if is_free_number(cat, n) => Some(n),
        _ => Some(first),
    }
}

/// The number that a command takes, by the text of its reply; none where the command takes none. Which free numbers are those of
/// extension headers is not known, so it may be such a one.
pub(crate) fn choose(cat: &Cat, cmd: &Cmd, reply: &[u8]) -> Option<u32>
    requires { Accounted cat.now }
    ensures { IsChosen cat.now cmd.now reply.now result }
{
    if takes_space(cmd) {
        shown_or_first(cat, reply)
    } else {
        None
    }
}
