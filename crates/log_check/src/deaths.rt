//! The line of a death: what it tells, and how it is written.

ghost use Rattle.std.specs.Prelude.{◌≡◌, ◌++◌, [], ◌∷◌, IfOk, OnOk, decimal};
ghost use Rattle.plain_rules.specs.Checks.{is_quiet};
ghost use Rattle.plain_texts.specs.Reports.{node_text, leaks_text};
ghost use Rattle.log_check.specs.Lines.{died_text};
ghost use Rattle.log_check.specs.Steps.{is_told};

use crate::Death;
use plain_cat::{NoMemory, Stage};
use plain_texts::{push_bytes, push_count, push_number, push_stage};
use std::alloc::Global;

// Whether a stage leaves the catalogue, whatever the command.
fn is_quiet(stage: Stage) -> bool
    ensures { result ≡ is_quiet stage }
{
    matches!(stage, Stage::Idle | Stage::Nothing)
}

// Whether a line tells this death whole: it left nothing of a command, and no file numbers.
pub(crate) fn is_told(d: Death) -> bool
    ensures { result ≡ is_told d }
{
    is_quiet(d.stage) && d.numbers == 0
}

// Appends a node, and the space behind it.
fn push_node(alloc: Global, out: &mut Vec<u8>, node: u8) -> Result<(), NoMemory>
    ensures { OnOk result (out.new.items ≡ out.old.items ++ node_text node) }
{
    push_bytes(out, b"N")?;
    push_number(alloc, out, u32::from(node))?;
    push_bytes(out, b" ")
}

// Appends how many clusters and file numbers are leaked.
fn push_leaks(alloc: Global, out: &mut Vec<u8>, clusters: u32, numbers: u32) -> Result<(), NoMemory>
    ensures { OnOk result (out.new.items ≡ out.old.items ++ leaks_text clusters numbers) }
{
    push_number(alloc, out, clusters)?;
    push_bytes(out, b" clusters, ")?;
    push_number(alloc, out, numbers)?;
    push_bytes(out, b" numbers")
}

// Appends what stands behind the number of a death's line.
#[tactic(auto, unfolding(crate::specs::Lines::died_text))]
fn push_death(alloc: Global, out: &mut Vec<u8>, d: Death) -> Result<(), NoMemory>
    ensures { OnOk result (out.new.items ≡ out.old.items ++ died_text d.node d.stage d.clusters d.numbers) }
{
    push_node(alloc, out, d.node)?;
    push_bytes(out, b"died at ")?;
    push_stage(out, d.stage)?;
    push_bytes(out, b", leaked ")?;
    push_leaks(alloc, out, d.clusters, d.numbers)
}

// The line of a death, with its number and its line feed.
pub(crate) fn death_line(alloc: Global, i: usize, d: Death) -> Result<Vec<u8>, NoMemory>
    ensures { IfOk result (λ line. line.items ≡ decimal i ++ (32 ∷ (died_text d.node d.stage d.clusters d.numbers ++ (10 ∷ [])))) }
{
    let mut line = Vec::new(alloc);
    push_count(alloc, &mut line, i)?;
    push_bytes(&mut line, b" ")?;
    push_death(alloc, &mut line, d)?;
    push_bytes(&mut line, b"\n")?;
    Ok(line)
}
