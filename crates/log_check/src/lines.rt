//! One line of a report: which entry it is about.

ghost use Rattle.std.specs.Prelude.{◌≡◌, ◌+◌, IfOk};
ghost use Rattle.log_check.specs.Lines.{body_of, words_of, reply_of, shown_of, IsDrafted};

use crate::commands::{Given, read_command};
use crate::drafts::{Death, read_death, read_mending};
use crate::numbers::read_short;
use crate::parts::{behind_first, rest_from};
use plain_cat::{Mended, NoMemory};
use run_script::part;
use std::alloc::Global;

/// Which entry a line is about.
#[derive(Drop)]
pub enum Draft {
    /// The answer of a node's command.
    Answer(Given),

    /// A node's death.
    Death(Death),

    /// A mending.
    Mending(Mended),
}

/// What stands behind the number of a line.
#[tactic(auto, unfolding(crate::specs::Lines::body_of))]
pub fn body_of(text: &[u8]) -> &[u8]
    ensures { result.now ≡ body_of text.now }
{
    behind_first(text, b' ')
}

// The words between the N of a node and the equals sign of its answer.
#[tactic(auto, unfolding(crate::specs::Lines::words_of))]
fn words_of(body: &[u8]) -> &[u8]
    ensures { result.now ≡ words_of body.now }
{
    let front = part(body, b'=', 0);
    let words = rest_from(front, 1);
    &words[..words.len().saturating_sub(1)]
}

/// What stands behind the equals sign of an answer.
#[tactic(auto, unfolding(crate::specs::Lines::reply_of))]
pub fn reply_of(body: &[u8]) -> &[u8]
    ensures { result.now ≡ reply_of body.now }
{
    rest_from(body, part(body, b'=', 0).len() + 2)
}

/// The number of the file that a reply shows, if it begins as an identifier does.
#[tactic(auto, unfolding(crate::specs::Lines::shown_of))]
pub fn shown_number(reply: &[u8]) -> Option<u32>
    ensures { result ≡ shown_of reply.now }
{
    match part(reply, b',', 0) {
        [b'(', digits @ ..] => read_short(digits),
        _ => None,
    }
}

/// Which entry a line is about, by what stands behind its number. The line of an entry is read as that entry; of other texts the
/// answer is any.
pub fn draft_of(alloc: Global, body: &[u8]) -> Result<Option<Draft>, NoMemory>
    ensures { IfOk result (IsDrafted body.now) }
{
    if let Some(counts) = read_mending(body) {
        return Ok(Some(Draft::Mending(counts)));
    }
    if let Some(death) = read_death(body) {
        return Ok(Some(Draft::Death(death)));
    }
    match read_command(alloc, words_of(body))? {
        Some(given) => Ok(Some(Draft::Answer(given))),
        None => Ok(None),
    }
}
