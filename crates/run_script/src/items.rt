//! What a line says: how many nodes, a schedule, a death or a command.

ghost use Rattle.std.specs.Prelude.{◌≡◌, ◌++◌, [], ◌∷◌, OnOk};
ghost use Rattle.run_script.specs.Grammar.{is_skipped};
ghost use Rattle.run_script.specs.Lines.{words_of};
ghost use Rattle.run_script.specs.Steps.{Gives, nodes_of, said_of, item_of};

use crate::commands::line_of;
use crate::deaths::read_death;
use crate::fault::LineFault;
use crate::numbers::read_channel;
use crate::parts::{count_parts, part};
use crate::runs::read_schedule;
use plain_cat::{Kill, Line, NoMemory};
use std::alloc::Global;
use std::marker::Model;

/// A node, and how many plays it has in a row.
#[derive(Clone, Copy)]
pub struct Run {
    /// 1 to 8.
    pub node: u8,

    /// 1 to 65,536.
    pub count: u32,
}

/// The plays of a schedule.
#[derive(Drop)]
pub struct Runs {
    list: Vec<Run>,
}

impl Model for Runs {
    ghost use Rattle.std.specs.Prelude.{List};
    ghost use Rattle.run_script.specs.declared.items.Run.{Run};

    ghost Value = { List Run };

    ghost view = { λ runs. runs.list.items };
}

impl Runs {
    /// No play.
    pub fn new(alloc: Global) -> Self
        ensures { result ≡ [] }
    {
        Runs {
            list: Vec::new(alloc),
        }
    }

    /// Adds plays at the end.
    pub fn push(&mut self, run: Run) -> Result<(), NoMemory>
        ensures { OnOk result (self.new ≡ self.old ++ run ∷ []) }
    {
        self.list.push(run)?;
        Ok(())
    }

    /// The plays, in order.
    pub fn items(&self) -> &[Run]
        ensures { result.now ≡ self.now }
    {
        self.list.as_slice()
    }
}

/// What a line says.
#[derive(Drop)]
pub enum Item {
    /// Nothing: it is empty, or a comment.
    Skipped,

    /// How many nodes there are, 1 to 8.
    Nodes(u8),

    /// The nodes whose turns come first.
    Plays(Runs),

    /// A node, and when it is killed.
    Death(Kill),

    /// A node with its command.
    Command(Line),
}

fn is_skipped(line: &[u8]) -> bool
    ensures { result ≡ is_skipped line.now }
{
    match line {
        [] => true,
        [b, ..] => *b == b'#',
    }
}

#[tactic(auto, unfolding(crate::specs::Steps::nodes_of))]
fn read_nodes(line: &[u8]) -> Result<u8, LineFault>
    ensures { Gives (nodes_of (words_of line.now)) result }
{
    if count_parts(line, b' ') != 2 {
        return Err(LineFault::Bad);
    }
    read_channel(part(line, b' ', 1))
}

// Reads what the words of a line say.
#[tactic(auto, unfolding(crate::specs::Steps::said_of))]
fn read_words(alloc: Global, line: &[u8]) -> Result<Item, LineFault>
    ensures { Gives (said_of (words_of line.now)) result }
{
    let first = part(line, b' ', 0);
    if first == b"NODES".as_slice() {
        return Ok(Item::Nodes(read_nodes(line)?));
    }
    if first == b"SCHED".as_slice() {
        return Ok(Item::Plays(read_schedule(alloc, line)?));
    }
    if first == b"KILL".as_slice() {
        return Ok(Item::Death(read_death(line)?));
    }
    Ok(Item::Command(line_of(alloc, line)?))
}

/// Reads a line.
#[tactic(auto, unfolding(crate::specs::Steps::item_of))]
pub fn read_item(alloc: Global, line: &[u8]) -> Result<Item, LineFault>
    ensures { Gives (item_of line.now) result }
{
    if is_skipped(line) {
        return Ok(Item::Skipped);
    }
    read_words(alloc, line)
}
