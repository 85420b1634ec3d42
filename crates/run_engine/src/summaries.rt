//! The summary of a soak: its sums.

ghost use Rattle.std.specs.Prelude.{◌≡◌, ◌++◌, IfOk, OnOk, count_by};
ghost use Rattle.plain_rules.specs.Stages.{is_refusal};
ghost use Rattle.run_engine.specs.Summaries.{is_refused, is_carried_out, counted, outcomes_text, blocks_text, soak_text, summary_bytes};

use crate::counts::{all_hits, all_reads};
use blk_drive::ImageDev;
use core_state::World;
use op_law::Operation;
use plain_cat::{Entry, NoMemory, Reply};
use plain_texts::push_bytes;
use std::alloc::Global;

// Whether a reply refuses its command.
fn is_refusal(reply: &Reply) -> bool
    ensures { result ≡ is_refusal reply.now }
{
    matches!(reply, Reply::Refused(_))
}

// Whether an entry is an answer that refuses its command, or one that does not.
#[tactic(auto, unfolding(crate::specs::Summaries::is_refused))]
fn is_refused(e: &Entry) -> bool
    ensures { result ≡ is_refused e.now }
{
    match e {
        Entry::Done { reply, .. } => is_refusal(reply),
        _ => false,
    }
}

#[tactic(auto, unfolding(crate::specs::Summaries::is_carried_out))]
fn is_carried_out(e: &Entry) -> bool
    ensures { result ≡ is_carried_out e.now }
{
    match e {
        Entry::Done { reply, .. } => !is_refusal(reply),
        _ => false,
    }
}

// How many commands were refused, and how many were not.
fn refused(entries: &[Entry]) -> usize
    ensures { result ≡ count_by is_refused entries.now }
{
    let mut n = 0usize;
    for e in entries {
        if is_refused(e) {
            n += 1;
        }
    }
    n
}

fn carried_out(entries: &[Entry]) -> usize
    ensures { result ≡ count_by is_carried_out entries.now }
{
    let mut n = 0usize;
    for e in entries {
        if is_carried_out(e) {
            n += 1;
        }
    }
    n
}

// The same of the history of a world.
fn all_refused<I: ImageDev, O: Operation>(w: &World<I, O>) -> usize
    ensures { result ≡ count_by is_refused w.now.world.history }
{
    refused(w.history().items())
}

fn all_carried_out<I: ImageDev, O: Operation>(w: &World<I, O>) -> usize
    ensures { result ≡ count_by is_carried_out w.now.world.history }
{
    carried_out(w.history().items())
}

// Appends a number, and the words for what is counted.
#[tactic(auto, unfolding(crate::specs::Summaries::counted))]
fn push_counted(alloc: Global, out: &mut Vec<u8>, n: u128, words: &[u8]) -> Result<(), NoMemory>
    ensures { OnOk result (out.new.items ≡ out.old.items ++ counted n words.now) }
{
    let text = format!(in alloc; "{n}")?;
    push_bytes(out, text.as_bytes())?;
    push_bytes(out, words)
}

// Appends the number of a soak.
#[tactic(auto, unfolding(crate::specs::Summaries::soak_text))]
fn push_soak(alloc: Global, out: &mut Vec<u8>, n: u32) -> Result<(), NoMemory>
    ensures { OnOk result (out.new.items ≡ out.old.items ++ soak_text n) }
{
    push_bytes(out, b"soak ")?;
    push_counted(alloc, out, u128::from(n), b": ")
}

// Appends how many commands were carried out, and how many were refused.
#[tactic(auto, unfolding(crate::specs::Summaries::outcomes_text))]
fn push_outcomes(
    alloc: Global,
    out: &mut Vec<u8>,
    answered: usize,
    refused: usize,
) -> Result<(), NoMemory>
    ensures { OnOk result (out.new.items ≡ out.old.items ++ outcomes_text answered refused) }
{
    push_counted(alloc, out, answered as u128, b" answered, ")?;
    push_counted(alloc, out, refused as u128, b" refused, ")
}

// Appends how many blocks were read, and how many were found.
#[tactic(auto, unfolding(crate::specs::Summaries::blocks_text))]
fn push_blocks(alloc: Global, out: &mut Vec<u8>, reads: u128, hits: u128) -> Result<(), NoMemory>
    ensures { OnOk result (out.new.items ≡ out.old.items ++ blocks_text reads hits) }
{
    push_counted(alloc, out, reads, b" reads, ")?;
    push_counted(alloc, out, hits, b" hits, ")
}

/// The summary of soak `n`, which has led to this world: how many commands were carried out and how many refused, how many blocks
/// the nodes have read from the drive and how many they have found in their caches, all together, and how many clusters are
/// free at its end.
pub fn summary<I: ImageDev, O: Operation>(
    alloc: Global,
    n: u32,
    w: &World<I, O>,
    free: u32,
) -> Result<Vec<u8>, NoMemory>
    ensures { IfOk result (λ text. text.items ≡ summary_bytes n w.now.world free) }
{
    let mut text = Vec::new(alloc);
    push_soak(alloc, &mut text, n)?;
    push_outcomes(alloc, &mut text, all_carried_out(w), all_refused(w))?;
    push_blocks(alloc, &mut text, all_reads(w), all_hits(w))?;
    push_counted(alloc, &mut text, u128::from(free), b" free\n")?;
    Ok(text)
}
