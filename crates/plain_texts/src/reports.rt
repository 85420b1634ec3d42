//! The lines of a report: answers, deaths and mendings.

ghost use Rattle.std.specs.Prelude.{◌≡◌, ◌++◌, ◌+◌, OnOk, OnErr};
ghost use Rattle.plain_texts.specs.Reports.{stage_text, leaks_text, entries_text, mended_text, node_text, entry_line, line_text, lines_text};

use crate::commands::add_command;
use crate::pieces::{NoMemory, push_bytes, push_count, push_number};
use crate::replies::add_reply;
use plain_cat::{Entry, Mended, Stage};
use std::alloc::Global;

/// Appends the stage at which a node died.
pub fn push_stage(out: &mut Vec<u8>, stage: Stage) -> Result<(), NoMemory>
    ensures ok { OnOk result (out.new.items ≡ out.old.items ++ stage_text stage) }
    ensures err { OnErr result (out.new.items ≡ out.old.items) }
{
    match stage {
        Stage::Idle => push_bytes(out, b"idle"),
        Stage::Nothing => push_bytes(out, b"nothing"),
        Stage::Charged => push_bytes(out, b"charged"),
        Stage::Lost => push_bytes(out, b"lost"),
        Stage::Shortened => push_bytes(out, b"shortened"),
        Stage::Marked => push_bytes(out, b"marked"),
        Stage::Unlinked => push_bytes(out, b"unlinked"),
        Stage::Freed => push_bytes(out, b"freed"),
        Stage::Both => push_bytes(out, b"both"),
        Stage::DataOnly => push_bytes(out, b"data only"),
        Stage::Done => push_bytes(out, b"done"),
    }
}

// Appends how many clusters and file numbers are leaked.
fn push_leaks(
    alloc: Global,
    out: &mut Vec<u8>,
    clusters: u32,
    numbers: usize,
) -> Result<(), NoMemory>
    ensures { OnOk result (out.new.items ≡ out.old.items ++ leaks_text clusters numbers) }
{
    push_number(alloc, out, clusters)?;
    push_bytes(out, b" clusters, ")?;
    push_count(alloc, out, numbers)?;
    push_bytes(out, b" numbers")
}

// Appends how many entries a mending made and removed.
fn push_entries(
    alloc: Global,
    out: &mut Vec<u8>,
    entered: u32,
    removed: u32,
) -> Result<(), NoMemory>
    ensures { OnOk result (out.new.items ≡ out.old.items ++ entries_text entered removed) }
{
    push_number(alloc, out, entered)?;
    push_bytes(out, b" entered, ")?;
    push_number(alloc, out, removed)?;
    push_bytes(out, b" entries removed, ")
}

// Appends what a mending did, as the verb `rebuild` prints it.
pub(crate) fn add_mended(alloc: Global, out: &mut Vec<u8>, m: Mended) -> Result<(), NoMemory>
    ensures { OnOk result (out.new.items ≡ out.old.items ++ mended_text m) }
{
    push_bytes(out, b"rebuilt: ")?;
    push_entries(alloc, out, m.entered, m.removed)?;
    push_number(alloc, out, m.gone)?;
    push_bytes(out, b" files gone, ")?;
    push_leaks(alloc, out, m.clusters, m.numbers as usize)
}

// Appends a node, and the space behind it.
fn push_node(alloc: Global, out: &mut Vec<u8>, node: u8) -> Result<(), NoMemory>
    ensures { OnOk result (out.new.items ≡ out.old.items ++ node_text node) }
{
    push_bytes(out, b"N")?;
    push_number(alloc, out, u32::from(node))?;
    push_bytes(out, b" ")
}

// Appends an entry of the history.
#[tactic(auto, unfolding(crate::specs::Reports::entry_line))]
fn push_entry_line(alloc: Global, out: &mut Vec<u8>, entry: &Entry) -> Result<(), NoMemory>
    ensures { OnOk result (out.new.items ≡ out.old.items ++ entry_line entry.now) }
{
    match entry {
        Entry::Done { node, cmd, reply } => {
            push_node(alloc, out, *node)?;
            add_command(alloc, out, cmd)?;
            push_bytes(out, b" = ")?;
            add_reply(alloc, out, reply)
        }
        Entry::Died {
            node,
            stage,
            clusters,
            numbers,
        } => {
            push_node(alloc, out, *node)?;
            push_bytes(out, b"died at ")?;
            push_stage(out, *stage)?;
            push_bytes(out, b", leaked ")?;
            push_leaks(alloc, out, *clusters, numbers.items().len())
        }
        Entry::Mended(m) => add_mended(alloc, out, *m),
    }
}

// Appends the line of an entry of the history, with its number and its line feed.
pub(crate) fn add_line(
    alloc: Global,
    out: &mut Vec<u8>,
    k: usize,
    entry: &Entry,
) -> Result<(), NoMemory>
    ensures { OnOk result (out.new.items ≡ out.old.items ++ line_text k entry.now) }
{
    push_count(alloc, out, k)?;
    push_bytes(out, b" ")?;
    push_entry_line(alloc, out, entry)?;
    push_bytes(out, b"\n")
}

// Appends the lines of a history, numbered from 1.
pub(crate) fn add_lines(alloc: Global, out: &mut Vec<u8>, entries: &[Entry]) -> Result<(), NoMemory>
    ensures { OnOk result (out.new.items ≡ out.old.items ++ lines_text entries.now) }
{
    for (i, entry) in entries.iter().enumerate() {
        add_line(alloc, out, i + 1, entry)?;
    }
    Ok(())
}
