//! A whole report, judged line by line up to its last line.

ghost use Rattle.std.specs.Prelude.{◌≡◌, ◌≤◌, ◌<◌, ◌^◌, ◌+◌, ◌↔◌, true, drop, length, IfOk, IsTrue};
ghost use Rattle.plain_rules.specs.Lookups.{free_clusters};
ghost use Rattle.plain_rules.specs.Accounts.{Accounted};
ghost use Rattle.log_check.specs.Histories.{closing_text};
ghost use Rattle.log_check.specs.Tidying.{IsSettled};
ghost use Rattle.log_check.specs.Steps.{is_at_end, one_if, IsVerdict};

use crate::steps::{Step, judge_line};
use plain_cat::{Cat, NoMemory};
use plain_rules::free_clusters;
use plain_texts::{push_bytes, push_count, push_number};
use std::alloc::Global;

/// What is said of a report.
#[derive(Drop)]
pub enum Verdict {
    /// It is that of a legal history.
    Legal {
        /// How many entries there are.
        entries: usize,

        /// The catalogue to which they lead.
        after: Cat,
    },

    /// This line, counted from 1, is the first that is not that of a legal entry: a death at a later stage than `nothing`, or with
    /// file numbers, of which a line tells too little.
    Unchecked(usize),

    /// This line is the first that is not that of a legal entry, and it is no such death. Where the last line is missing it is the
    /// one behind the last.
    Illegal(usize),
}

// The last line of a report.
fn closing_line(alloc: Global, answered: usize, died: usize, free: u32) -> Result<Vec<u8>, NoMemory>
    ensures { IfOk result (λ line. line.items ≡ closing_text answered died free) }
{
    let mut line = Vec::new(alloc);
    push_bytes(&mut line, b"end: ")?;
    push_count(alloc, &mut line, answered)?;
    push_bytes(&mut line, b" answered, ")?;
    push_count(alloc, &mut line, died)?;
    push_bytes(&mut line, b" died, ")?;
    push_number(alloc, &mut line, free)?;
    push_bytes(&mut line, b" free\n")?;
    Ok(line)
}

// Whether a text begins as the last line does. The lines of entries begin with a digit.
fn is_at_end(text: &[u8]) -> bool
    ensures { result ≡ is_at_end text.now }
{
    match text {
        [b, ..] => *b == b'e',
        [] => false,
    }
}

// Whether two texts are the same.
fn is_same(a: &[u8], b: &[u8]) -> bool
    ensures { IsTrue result ↔ (a.now ≡ b.now) }
{
    a == b
}

// Whether the rest of a report is its last line.
fn is_closed(
    alloc: Global,
    cat: &Cat,
    answered: usize,
    died: usize,
    text: &[u8],
) -> Result<bool, NoMemory>
    ensures { IfOk result (λ b. IsTrue b ↔ (text.now ≡ closing_text answered died (free_clusters cat.now))) }
{
    if !is_at_end(text) {
        return Ok(false);
    }
    let line = closing_line(alloc, answered, died, free_clusters(cat))?;
    Ok(is_same(text, line.as_slice()))
}

// What stands behind so many bytes of a text.
fn behind(text: &[u8], used: usize) -> &[u8]
    requires { used ≤ length text.now }
    ensures { result.now ≡ drop used text.now }
{
    &text[used..]
}

// One more where this is so.
fn one_more(count: usize, is_so: bool) -> usize
    requires { count < 2 ^ 63 }
    ensures { result ≡ count + one_if is_so }
{
    if is_so { count + 1 } else { count }
}

// Judges a report on a catalogue, which may be known to be settled: then it stays so.
fn judge_from(alloc: Global, cat: Cat, settled: bool, text: &[u8]) -> Result<Verdict, NoMemory>
    requires cat { Accounted cat }
    requires settled { settled ≡ true → IsSettled cat }
    ensures { IfOk result (IsVerdict cat text.now) }
{
    let mut now = cat;
    let mut rest = text;
    let mut entries = 0usize;
    let mut answers = 0usize;
    let mut deaths = 0usize;
    loop {
        let closed = is_closed(alloc, &now, answers, deaths, rest)?;
        if closed {
            return Ok(Verdict::Legal {
                entries,
                after: now,
            });
        }
        let step = judge_line(alloc, now, settled, entries + 1, rest)?;
        match step {
            Step::Next {
                after,
                used,
                answered,
                died,
            } => {
                now = after;
                rest = behind(rest, used);
                entries += 1;
                answers = one_more(answers, answered);
                deaths = one_more(deaths, died);
            }
            Step::Untold => return Ok(Verdict::Unchecked(entries + 1)),
            Step::Stop => return Ok(Verdict::Illegal(entries + 1)),
        }
    }
}

/// Judges a report on a catalogue. A mending in it is worked out, so a line of a mending costs as much as the catalogue has entries times files.
pub fn judge(alloc: Global, cat: Cat, text: &[u8]) -> Result<Verdict, NoMemory>
    requires { Accounted cat }
    ensures { IfOk result (IsVerdict cat text.now) }
{
    judge_from(alloc, cat, false, text)
}

/// Judges a report on the catalogue of an accepted volume. A line costs what it changes, and a mending one look at each file number.
pub fn judge_settled(alloc: Global, cat: Cat, text: &[u8]) -> Result<Verdict, NoMemory>
    requires cat { Accounted cat }
    requires settled { IsSettled cat }
    ensures { IfOk result (IsVerdict cat text.now) }
{
    judge_from(alloc, cat, true, text)
}
