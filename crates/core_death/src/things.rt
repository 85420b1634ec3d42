//! What a node has outside files and bitmaps, and the stage of its command.

ghost use Rattle.std.specs.Prelude.{◌≡◌, ◌≤◌, ◌<◌, ◌+◌, ◌^◌, [], option_copied};
ghost use Rattle.std.specs.List.{list_any};
ghost use Rattle.core_state.specs.Deaths.{numbers_that};
ghost use Rattle.core_state.specs.Worlds.{state_of};
ghost use Rattle.core_death.specs.Lasts.{last_of, last_in, clusters_or, clusters_by, taken_by, is_number, is_this, number_or, number_by, stage_told, clusters_told, number_told};

use core_space::{Phase, SpaceRun};
use core_state::Node;
use op_law::{Operation, Plan, PlanWrite, Seen};
use plain_cat::{NumberList, Stage};

// The last of the first writes, so many of them.
fn last_of(writes: &[PlanWrite], done: usize) -> Option<&PlanWrite>
    ensures { option_copied result ≡ last_of writes.now done }
{
    if done == 0 || writes.len() < done {
        return None;
    }
    Some(&writes[done - 1])
}

// The same of a plan, where there is one.
fn last_in(plan: &Option<Plan>, done: usize) -> Option<&PlanWrite>
    ensures { option_copied result ≡ last_in plan.now done }
{
    match plan {
        Some(plan) => last_of(plan.writes.items(), done),
        None => None,
    }
}

// The last of the writes of rules for space that are made, where they are not all.
fn taken_by(run: &SpaceRun) -> Option<&PlanWrite>
    ensures { option_copied result ≡ taken_by run.now }
{
    let writes = run.writes.items();
    if run.made == writes.len() {
        return None;
    }
    last_of(writes, run.made)
}

/// The stage at which the command of a node stands: that of the last of its writes done.
pub(crate) fn stage_now<O: Operation>(node: &Node<O>) -> Stage
    ensures { result ≡ stage_told (state_of O.cmd_is node.now) }
{
    match last_in(&node.plan, node.done) {
        Some(write) => write.stage,
        None => {
            if node.op.is_some() {
                Stage::Nothing
            } else {
                Stage::Idle
            }
        }
    }
}

// How many clusters the command of a node has outside.
fn own_clusters(plan: &Option<Plan>, done: usize, seen: &Seen) -> usize
    ensures { result ≡ clusters_or (last_in plan.now done) seen.now }
{
    match last_in(plan, done) {
        Some(write) => write.clusters.items().len(),
        None => seen.clusters.items().len(),
    }
}

// How many its rules for space have taken.
fn search_clusters(run: &SpaceRun) -> usize
    ensures { result ≡ clusters_by run.now.phase (taken_by run.now) }
{
    let Some(write) = taken_by(run) else { return 0 };
    match run.phase {
        Phase::Fill | Phase::Last => write.clusters.items().len(),
        _ => 0,
    }
}

/// How many clusters a node has outside files and bitmaps, of which a volume has fewer than 2 ^ 32.
pub(crate) fn clusters_now<O: Operation>(node: &Node<O>) -> u32
    requires { clusters_told (state_of O.cmd_is node.now) < 2 ^ 32 }
    ensures { result ≡ clusters_told (state_of O.cmd_is node.now) }
{
    let own = own_clusters(&node.plan, node.done, &node.seen);
    let stock = node.stock.count() as usize;
    (own + (stock + search_clusters(&node.run))) as u32
}

// Whether a number is this one, where 0 counts as 1.
fn is_number(n: u32, number: u32) -> bool
    ensures { result ≡ is_number n number }
{
    number.saturating_sub(1) + 1 == n
}

fn is_this(n: u32, number: Option<u32>) -> bool
    ensures { result ≡ is_this n number }
{
    match number {
        Some(number) => is_number(n, number),
        None => false,
    }
}

// Whether a number is among these.
fn is_among(n: u32, numbers: &[u32]) -> bool
    ensures { result ≡ list_any (is_number n) numbers.now }
{
    numbers.iter().any(|number| is_number(n, *number))
}

// Whether the command of a node has a number outside.
fn own_number(n: u32, plan: &Option<Plan>, done: usize, seen: &Seen) -> bool
    ensures { result ≡ number_or n (last_in plan.now done) seen.now }
{
    match last_in(plan, done) {
        Some(write) => is_among(n, write.numbers.items()) || is_this(n, write.number),
        None => is_this(n, seen.number),
    }
}

// Whether its rules for space have taken it.
fn search_number(n: u32, run: &SpaceRun) -> bool
    ensures { result ≡ number_by n run.now.phase (taken_by run.now) }
{
    let Some(write) = taken_by(run) else {
        return false
    };
    match run.phase {
        Phase::Fill => is_among(n, write.numbers.items()),
        Phase::Last => is_this(n, write.number),
        _ => false,
    }
}

// Whether a node has a file number outside files and bitmaps.
fn has_number<O: Operation>(node: &Node<O>, n: u32) -> bool
    ensures { result ≡ number_told (state_of O.cmd_is node.now) n }
{
    own_number(n, &node.plan, node.done, &node.seen)
        || is_among(n, node.stock.numbers())
        || search_number(n, &node.run)
}

/// The file numbers that a node has outside files and bitmaps, in rising order, in a list with room for all of a volume. It takes no
/// memory.
pub(crate) fn list_numbers<O: Operation>(node: &Node<O>, list: &mut NumberList)
    requires empty { list.old.items ≡ [] }
    requires room { 4096 ≤ list.old.room }
    ensures { list.new.items ≡ numbers_that (number_told (state_of O.cmd_is node.now)) 4096 }
{
    for n in 1..4097u32 {
        if has_number(node, n) {
            list.append(n);
        }
    }
}
