//! The report of a history: its lines, and the last one with its sums.

ghost use Rattle.std.specs.Prelude.{◌≡◌, ◌++◌, IfOk, OnOk, count_by, map};
ghost use Rattle.core_state.specs.Worlds.{shown};
ghost use Rattle.run_engine.specs.Reports.{is_answer, is_death, counts_text, closing_text, lines_bytes, report_bytes};

use plain_cat::{Entry, History, NoMemory};
use plain_texts::{push_bytes, push_count, push_lines, push_number};
use std::alloc::Global;

// Whether an entry is an answer, or a death.
#[tactic(auto, unfolding(crate::specs::Reports::is_answer))]
fn is_answer(e: &Entry) -> bool
    ensures { result ≡ is_answer e.now }
{
    matches!(e, Entry::Done { .. })
}

#[tactic(auto, unfolding(crate::specs::Reports::is_death))]
fn is_death(e: &Entry) -> bool
    ensures { result ≡ is_death e.now }
{
    matches!(e, Entry::Died { .. })
}

// How many entries are answers, and how many are deaths.
fn answers(entries: &[Entry]) -> usize
    ensures { result ≡ count_by is_answer entries.now }
{
    let mut n = 0usize;
    for e in entries {
        if is_answer(e) {
            n += 1;
        }
    }
    n
}

fn deaths(entries: &[Entry]) -> usize
    ensures { result ≡ count_by is_death entries.now }
{
    let mut n = 0usize;
    for e in entries {
        if is_death(e) {
            n += 1;
        }
    }
    n
}

// Appends how many answers and deaths there are.
#[tactic(auto, unfolding(crate::specs::Reports::counts_text))]
fn push_counts(
    alloc: Global,
    out: &mut Vec<u8>,
    answered: usize,
    died: usize,
) -> Result<(), NoMemory>
    ensures { OnOk result (out.new.items ≡ out.old.items ++ counts_text answered died) }
{
    push_bytes(out, b"end: ")?;
    push_count(alloc, out, answered)?;
    push_bytes(out, b" answered, ")?;
    push_count(alloc, out, died)?;
    push_bytes(out, b" died, ")
}

// Appends the last line of a report.
fn push_closing(
    alloc: Global,
    out: &mut Vec<u8>,
    answered: usize,
    died: usize,
    free: u32,
) -> Result<(), NoMemory>
    ensures { OnOk result (out.new.items ≡ out.old.items ++ closing_text answered died free) }
{
    push_counts(alloc, out, answered, died)?;
    push_number(alloc, out, free)?;
    push_bytes(out, b" free\n")
}

/// The lines of a history, one for each entry, numbered from 1: the report of a run that stopped, which has no last line.
pub fn report_lines(alloc: Global, h: &History) -> Result<Vec<u8>, NoMemory>
    ensures { IfOk result (λ text. text.items ≡ lines_bytes (map shown h.now.items)) }
{
    let mut text = Vec::new(alloc);
    push_lines(alloc, &mut text, h.items())?;
    Ok(text)
}

/// The report of a run: the lines of its history, and a last line that counts the answers, the deaths and the clusters that are
/// free at its end.
pub fn report(alloc: Global, h: &History, free: u32) -> Result<Vec<u8>, NoMemory>
    ensures { IfOk result (λ text. text.items ≡ report_bytes (map shown h.now.items) free) }
{
    let entries = h.items();
    let mut text = report_lines(alloc, h)?;
    push_closing(alloc, &mut text, answers(entries), deaths(entries), free)?;
    Ok(text)
}
