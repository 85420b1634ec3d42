//! What is read of a script so far, and the limits that each line has to keep.

ghost use Rattle.std.specs.Prelude.{◌≡◌, ◌+◌, ◌++◌, None, Some, OnOk, length, replicate, leb};
ghost use Rattle.std.specs.List.{list_all};
ghost use Rattle.run_script.specs.declared.items.Run.{Run};
ghost use Rattle.run_script.specs.Spelling.{plays_of, is_killed};
ghost use Rattle.run_script.specs.Steps.{Answers, next_of, step_of, with_some};

use crate::fault::LineFault;
use crate::items::{Item, Run, Runs, read_item};
use plain_cat::{Kill, Kills, Line, Lines, NoMemory, Plays, Script};
use std::alloc::Global;

/// The most commands of a script.
const COMMANDS: usize = 4096;

/// The most plays of a script.
const PLAYS: usize = 65_536;

// Whether a node is killed already.
fn is_killed(node: u8, kills: &[Kill]) -> bool
    ensures { result ≡ is_killed node kills.now }
{
    for kill in kills {
        if kill.node == node {
            return true;
        }
    }
    false
}

// Whether all plays are of nodes up to this one.
fn are_known(nodes: u8, runs: &[Run]) -> bool
    ensures { result ≡ list_all (λ (r : Run). leb r.node nodes) runs.now }
{
    runs.iter().all(|run| run.node <= nodes)
}

// Whether there is room for these plays behind so many.
fn has_room(plays: usize, runs: &[Run]) -> bool
    ensures { result ≡ leb (plays + length (plays_of runs.now)) 65536 }
{
    if plays > PLAYS {
        return false;
    }
    let mut left = PLAYS - plays;
    for run in runs {
        let count = run.count as usize;
        if count > left {
            return false;
        }
        left -= count;
    }
    true
}

// Adds the plays of one run.
fn push_run(plays: &mut Plays, run: Run) -> Result<(), NoMemory>
    ensures { OnOk result (plays.new ≡ plays.old ++ replicate run.count run.node) }
{
    for _ in 0..run.count {
        plays.push(run.node)?;
    }
    Ok(())
}

// Adds the plays of these runs.
fn push_runs(plays: &mut Plays, runs: &[Run]) -> Result<(), NoMemory>
    ensures { OnOk result (plays.new ≡ plays.old ++ plays_of runs.now) }
{
    for run in runs {
        push_run(plays, *run)?;
    }
    Ok(())
}

fn add_command(mut script: Script, line: Line) -> Result<Script, LineFault>
    ensures { Answers (next_of (Some script) (Item.Command line)) (with_some result) }
{
    if line.node > script.nodes {
        return Err(LineFault::Bad);
    }
    if script.lines.items().len() >= COMMANDS {
        return Err(LineFault::TooMany);
    }
    script.lines.push(line)?;
    Ok(script)
}

fn add_death(mut script: Script, kill: Kill) -> Result<Script, LineFault>
    ensures { Answers (next_of (Some script) (Item.Death kill)) (with_some result) }
{
    if kill.node > script.nodes || is_killed(kill.node, script.kills.items()) {
        return Err(LineFault::Bad);
    }
    script.kills.push(kill)?;
    Ok(script)
}

fn add_plays(mut script: Script, runs: &Runs) -> Result<Script, LineFault>
    ensures { Answers (next_of (Some script) (Item.Plays runs.now)) (with_some result) }
{
    if !are_known(script.nodes, runs.items()) {
        return Err(LineFault::Bad);
    }
    if !has_room(script.plays.items().len(), runs.items()) {
        return Err(LineFault::TooMany);
    }
    push_runs(&mut script.plays, runs.items())?;
    Ok(script)
}

// What the lines spell with one more item, behind the line that told the nodes.
fn with_later(script: Script, item: Item) -> Result<Script, LineFault>
    ensures { Answers (next_of (Some script) item) (with_some result) }
{
    match item {
        Item::Skipped => Ok(script),
        Item::Nodes(_) => Err(LineFault::Bad),
        Item::Plays(runs) => add_plays(script, &runs),
        Item::Death(kill) => add_death(script, kill),
        Item::Command(line) => add_command(script, line),
    }
}

// What the lines spell with one more item, before a line told the nodes.
fn with_first(alloc: Global, item: Item) -> Result<Option<Script>, LineFault>
    ensures { Answers (next_of None item) result }
{
    match item {
        Item::Skipped => Ok(None),
        Item::Nodes(nodes) => Ok(Some(Script {
            nodes,
            lines: Lines::new(alloc),
            plays: Plays::new(alloc),
            kills: Kills::new(alloc),
        })),
        _ => Err(LineFault::Bad),
    }
}

/// Takes one more line: what the lines spell with it.
#[tactic(auto, unfolding(crate::specs::Steps::step_of))]
pub fn take_line(
    alloc: Global,
    state: Option<Script>,
    line: &[u8],
) -> Result<Option<Script>, LineFault>
    ensures { Answers (step_of state line.now) result }
{
    let item = read_item(alloc, line)?;
    match state {
        None => with_first(alloc, item),
        Some(script) => Ok(Some(with_later(script, item)?)),
    }
}
