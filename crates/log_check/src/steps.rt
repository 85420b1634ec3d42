//! One line, judged: an answer, a death or a mending, and the catalogue after it.

ghost use Rattle.std.specs.Prelude.{◌≡◌, ◌<◌, ◌≤◌, ◌++◌, ◌↔◌, true, false, drop, length, None, Some, IfOk, IfSome, IsTrue};
ghost use Rattle.plain_cat.specs.InForm.{is_eighth};
ghost use Rattle.plain_texts.specs.Reports.{line_text};
ghost use Rattle.plain_rules.specs.Accounts.{Accounted};
ghost use Rattle.plain_rules.specs.Mending.{mended};
ghost use Rattle.plain_cat.specs.declared.history.Entry.TheVariants as EntryOf;
ghost use Rattle.log_check.specs.Commands.{IsSpeaking};
ghost use Rattle.log_check.specs.Lines.{body_of, IsDrafted};
ghost use Rattle.log_check.specs.Tidying.{IsSettled};
ghost use Rattle.log_check.specs.Steps.{BeginsWith, IsEntryStep, IsAnswerStep, is_told, IsDeathStep, IsStep};

use crate::answers::choose;
use crate::deaths::{death_line, is_told};
use crate::tidying::{does, tidied};
use crate::{Death, Draft, Given, body_of, draft_of, reply_of};
use plain_cat::{Cat, Entry, Mended, NoMemory, NumberList};
use plain_texts::push_line;
use plain_vol::{Checked, check_reply, died_on, outcome_on};
use std::alloc::Global;

/// What is said of a line.
#[derive(Drop)]
pub enum Step {
    /// It is that of an entry that follows.
    Next {
        /// The catalogue after it.
        after: Cat,

        /// How many bytes the line has, with its line feed.
        used: usize,

        /// Whether it is an answer.
        answered: bool,

        /// Whether it is a death.
        died: bool,
    },

    /// It is that of a death of which it tells too little.
    Untold,

    /// Neither.
    Stop,
}

// Whether a text begins so.
fn starts_so(text: &[u8], line: &[u8]) -> bool
    ensures begins { IsTrue result ↔ BeginsWith text.now line.now }
    ensures rest { IsTrue result → text.now ≡ line.now ++ drop (length line.now) text.now }
    ensures within { IsTrue result → length line.now ≤ length text.now }
{
    text.starts_with(line)
}

// The line of an entry.
fn line_of(alloc: Global, i: usize, entry: &Entry) -> Result<Vec<u8>, NoMemory>
    ensures { IfOk result (λ line. line.items ≡ line_text i entry.now) }
{
    let mut line = Vec::new(alloc);
    push_line(alloc, &mut line, i, entry)?;
    Ok(line)
}

// Judges a line that is about the answer of a command: the reply is worked out, and the line has to be the one with that reply.
fn judge_answer(
    alloc: Global,
    cat: Cat,
    i: usize,
    text: &[u8],
    given: Given,
) -> Result<Step, NoMemory>
    requires cat { Accounted cat }
    requires given { IsSpeaking given.node given.cmd }
    ensures { IfOk result (IsAnswerStep i cat text.now given.node given.cmd) }
{
    let new = choose(&cat, &given.cmd, reply_of(body_of(text)));
    let outcome = outcome_on(alloc, cat, given.node, &given.cmd, new)?;
    let entry = Entry::Done {
        node: given.node,
        cmd: given.cmd,
        reply: outcome.reply,
    };
    let line = line_of(alloc, i, &entry)?;
    if !starts_so(text, line.as_slice()) {
        return Ok(Step::Stop);
    }
    Ok(Step::Next {
        after: outcome.after,
        used: line.len(),
        answered: true,
        died: false,
    })
}

// Judges a line that tells a death whole.
fn judge_told(
    alloc: Global,
    cat: Cat,
    i: usize,
    text: &[u8],
    death: Death,
) -> Result<Step, NoMemory>
    requires cat { Accounted cat }
    requires node { is_eighth death.node ≡ true }
    requires told { is_told death ≡ true }
    ensures { IfOk result (IsDeathStep i cat text.now death) }
{
    let entry = Entry::Died {
        node: death.node,
        stage: death.stage,
        clusters: death.clusters,
        numbers: NumberList::new(alloc),
    };
    let line = line_of(alloc, i, &entry)?;
    if !starts_so(text, line.as_slice()) {
        return Ok(Step::Stop);
    }
    match died_on(cat, death.node, death.clusters) {
        Some(after) => Ok(Step::Next {
            after,
            used: line.len(),
            answered: false,
            died: true,
        }),
        None => Ok(Step::Stop),
    }
}

// Judges a line that is about a death.
fn judge_death(
    alloc: Global,
    cat: Cat,
    i: usize,
    text: &[u8],
    death: Death,
) -> Result<Step, NoMemory>
    requires cat { Accounted cat }
    requires node { is_eighth death.node ≡ true }
    ensures { IfOk result (IsDeathStep i cat text.now death) }
{
    if is_told(death) {
        return judge_told(alloc, cat, i, text, death);
    }
    let line = death_line(alloc, i, death)?;
    if starts_so(text, line.as_slice()) {
        return Ok(Step::Untold);
    }
    Ok(Step::Stop)
}

// The catalogue after a mending that does just this, or none if a mending does something else.
fn mended_as(
    alloc: Global,
    cat: Cat,
    settled: bool,
    counts: Mended,
) -> Result<Option<Cat>, NoMemory>
    requires cat { Accounted cat }
    requires settled { settled ≡ true → IsSettled cat }
    ensures some { IfOk result (λ o. IfSome o (λ d. (mended cat ≡ Some (d, counts)) × Accounted d)) }
    ensures none { IfOk result (λ o. o ≡ None → (d : Cat) → mended cat ≡ Some (d, counts) → ⊥) }
{
    if settled {
        if !does(&cat, counts) {
            return Ok(None);
        }
        let after = tidied(alloc, cat)?;
        return Ok(Some(after));
    }
    match check_reply(alloc, &cat, &Entry::Mended(counts))? {
        Checked::Legal(after) => Ok(Some(after)),
        Checked::Illegal => Ok(None),
    }
}

// Judges a line that is about a mending with these counts.
fn judge_mending(
    alloc: Global,
    cat: Cat,
    settled: bool,
    i: usize,
    text: &[u8],
    counts: Mended,
) -> Result<Step, NoMemory>
    requires cat { Accounted cat }
    requires settled { settled ≡ true → IsSettled cat }
    ensures { IfOk result (IsEntryStep i cat text.now (EntryOf.Mended counts)) }
{
    let line = line_of(alloc, i, &Entry::Mended(counts))?;
    if !starts_so(text, line.as_slice()) {
        return Ok(Step::Stop);
    }
    match mended_as(alloc, cat, settled, counts)? {
        Some(after) => Ok(Step::Next {
            after,
            used: line.len(),
            answered: false,
            died: false,
        }),
        None => Ok(Step::Stop),
    }
}

// Judges a line that is about what its draft says.
fn judge_draft(
    alloc: Global,
    cat: Cat,
    settled: bool,
    i: usize,
    text: &[u8],
    draft: Draft,
) -> Result<Step, NoMemory>
    requires cat { Accounted cat }
    requires settled { settled ≡ true → IsSettled cat }
    requires drafted { IsDrafted (body_of text.now) (Some draft) }
    ensures { IfOk result (IsStep i cat text.now) }
{
    match draft {
        Draft::Answer(given) => {
            let answered = judge_answer(alloc, cat, i, text, given)?;
            Ok(answered)
        }
        Draft::Death(death) => {
            let died = judge_death(alloc, cat, i, text, death)?;
            Ok(died)
        }
        Draft::Mending(counts) => {
            let mended = judge_mending(alloc, cat, settled, i, text, counts)?;
            Ok(mended)
        }
    }
}

/// Judges the line that stands at the front of a text, where it has this number, on the catalogue before it. If the catalogue is settled,
/// a mending is known without being worked out.
pub fn judge_line(
    alloc: Global,
    cat: Cat,
    settled: bool,
    i: usize,
    text: &[u8],
) -> Result<Step, NoMemory>
    requires cat { Accounted cat }
    requires settled { settled ≡ true → IsSettled cat }
    ensures { IfOk result (IsStep i cat text.now) }
{
    let read = draft_of(alloc, body_of(text))?;
    match read {
        Some(draft) => judge_draft(alloc, cat, settled, i, text, draft),
        None => Ok(Step::Stop),
    }
}
