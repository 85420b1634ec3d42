//! The judge of an entry of a history.

ghost use Rattle.std.specs.Prelude.{◌≡◌, ◌≤◌, ◌↔◌, IsTrue, true, ℕ, Option, Some, IfOk, length};
ghost use Rattle.plain_cat.specs.InForm.{in_form};
ghost use Rattle.plain_cat.specs.declared.history.Entry.TheVariants.{Done, Died};
ghost use Rattle.plain_rules.specs.Accounts.{Accounted};
ghost use Rattle.plain_rules.specs.Answers.{IsPick, outcome};
ghost use Rattle.plain_rules.specs.Checks.{shown_number, is_quiet, EntryInForm};
ghost use Rattle.plain_cat.specs.InForm.{is_eighth as is_node};
ghost use Rattle.plain_vol.specs.Judging.{IsChecked, KeepsAccounts};
ghost use Rattle.plain_vol.specs.Mends.{counts_of};

use crate::checking::Checked;
use crate::dying::{are_free, bury};
use crate::mending::{Repair, mend};
use crate::outcomes::outcome_on;
use crate::picks::{free_count, is_free_number, pick};
use crate::sameness::is_same_reply;
use plain_cat::{Cat, Cmd, Entry, Mended, NoMemory, NumberList, Reply, Stage};
use plain_rules::{Outcome, free_clusters};
use std::alloc::Global;

fn shown_number(reply: &Reply) -> Option<u32>
    ensures { result ≡ shown_number reply.now }
{
    match reply {
        Reply::Found { fid, .. } => Some(fid.num),
        _ => None,
    }
}

// The number that a new file or a new header takes: the one that the reply shows, where it is free.
fn choose(cat: &Cat, reply: &Reply) -> Option<u32>
    requires { length cat.now.files ≤ 4096 }
    ensures pick { IsPick cat.now result }
    ensures shown { (n : ℕ) → shown_number reply.now ≡ Some n → IsPick cat.now (Some n) → result ≡ Some n }
{
    let first = pick(cat)?;
    match shown_number(reply) {
        Some(n) if is_free_number(cat, n) => Some(n),
        _ => Some(first),
    }
}

// Whether this is the number of a node.
fn is_node(node: u8) -> bool
    ensures { result ≡ is_node node }
{
    1 <= node && node <= 8
}

// What a command is answered on a copy of the catalogue.
fn answered(
    alloc: Global,
    cat: &Cat,
    node: u8,
    cmd: &Cmd,
    new: Option<u32>,
) -> Result<Outcome, NoMemory>
    requires cat { Accounted cat.now }
    requires cmd { in_form cmd.now ≡ true }
    ensures { IfOk result (λ o. o ≡ outcome cat.now node cmd.now new) }
{
    let copy = cat.copy(alloc)?;
    outcome_on(alloc, copy, node, cmd, new)
}

// Whether the reply is the one of a node's command.
fn check_answer(
    alloc: Global,
    cat: &Cat,
    node: u8,
    cmd: &Cmd,
    reply: &Reply,
) -> Result<Checked, NoMemory>
    requires cat { Accounted cat.now }
    requires cmd { in_form cmd.now ≡ true }
    ensures exact { IfOk result (IsChecked cat.now (Done node cmd.now reply.now)) }
    ensures keeps { IfOk result KeepsAccounts }
{
    if !is_node(node) {
        return Ok(Checked::Illegal);
    }
    let new = choose(cat, reply);
    let answer = answered(alloc, cat, node, cmd, new)?;
    if is_same_reply(&answer.reply, reply) {
        Ok(Checked::Legal(answer.after))
    } else {
        Ok(Checked::Illegal)
    }
}

fn is_quiet(stage: Stage) -> bool
    ensures { result ≡ is_quiet stage }
{
    matches!(stage, Stage::Idle | Stage::Nothing)
}

// Whether a node may die so, with nothing left of a command.
fn check_death(
    alloc: Global,
    cat: &Cat,
    node: u8,
    stage: Stage,
    clusters: u32,
    numbers: &NumberList,
) -> Result<Checked, NoMemory>
    requires { Accounted cat.now }
    ensures exact { IfOk result (IsChecked cat.now (Died node stage clusters numbers.now)) }
    ensures keeps { IfOk result KeepsAccounts }
{
    if !is_node(node)
        || !is_quiet(stage)
        || free_clusters(cat) < clusters
        || !are_free(cat, numbers.items())
        || free_count(cat) < numbers.items().len()
    {
        return Ok(Checked::Illegal);
    }
    let mut after = cat.copy(alloc)?;
    bury(&mut after, node, clusters, numbers.items());
    Ok(Checked::Legal(after))
}

fn is_same_counts(done: &Repair, counts: &Mended) -> bool
    ensures { IsTrue result ↔ (counts_of done.now ≡ counts.now) }
{
    done.entered == counts.entered as usize
        && done.removed == counts.removed as usize
        && done.gone == counts.gone as usize
        && done.clusters == counts.clusters
        && done.numbers == counts.numbers as usize
}

// Whether mending does just this.
fn check_mending(alloc: Global, cat: &Cat, counts: &Mended) -> Result<Checked, NoMemory>
    requires { Accounted cat.now }
    ensures exact { IfOk result (IsChecked cat.now (Entry.Mended counts.now)) }
    ensures keeps { IfOk result KeepsAccounts }
{
    let Some(done) = mend(alloc, cat)? else {
        return Ok(Checked::Illegal);
    };
    if !is_same_counts(&done, counts) {
        return Ok(Checked::Illegal);
    }
    Ok(Checked::Legal(done.after))
}

/// Judges an entry of a history on the catalogue before it. `Legal`, with the catalogue after it, comes exactly where the
/// entry is a case of the rules, and `Illegal` exactly where it is none: an answer is the reply of its command, with any free
/// number for a new file; a mending has the counts of what mending does; and a death is judged where it left nothing of a
/// command, with clusters and numbers that are free and no more numbers than there are to take, since the entry does not tell
/// the command. A death at a later stage is `Illegal` here, and so is an answer or a death of a node outside 1 to 8.
pub fn check_reply(alloc: Global, cat: &Cat, e: &Entry) -> Result<Checked, NoMemory>
    requires cat { Accounted cat.now }
    requires entry { EntryInForm e.now }
    ensures exact { IfOk result (IsChecked cat.now e.now) }
    ensures keeps { IfOk result KeepsAccounts }
{
    match e {
        Entry::Done { node, cmd, reply } => check_answer(alloc, cat, *node, cmd, reply),
        Entry::Died {
            node,
            stage,
            clusters,
            numbers,
        } => check_death(alloc, cat, *node, *stage, *clusters, numbers),
        Entry::Mended(counts) => check_mending(alloc, cat, counts),
    }
}
