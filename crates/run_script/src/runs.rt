//! The schedule of a script: plays of nodes in a row.

ghost use Rattle.run_script.specs.Lines.{words_of};
ghost use Rattle.run_script.specs.Steps.{Gives, run_of, schedule_of};

use crate::fault::LineFault;
use crate::items::{Run, Runs};
use crate::numbers::{read_channel, read_number};
use crate::parts::{count_parts, part};
use std::alloc::Global;

/// Reads a word of a schedule: a node, or a node with the number of its plays, as `1*3`.
#[tactic(auto, unfolding(crate::specs::Steps::run_of))]
fn read_run(word: &[u8]) -> Result<Run, LineFault>
    ensures { Gives (run_of word.now) result }
{
    let count = count_parts(word, b'*');
    if count == 1 {
        return Ok(Run {
            node: read_channel(word)?,
            count: 1,
        });
    }
    if count != 2 {
        return Err(LineFault::Bad);
    }
    let node = read_channel(part(word, b'*', 0))?;
    let count = read_number(part(word, b'*', 1), 10, 1, 65_536)?;
    Ok(Run { node, count })
}

/// Reads a schedule: the words behind the first.
#[tactic(auto, unfolding(crate::specs::Steps::schedule_of))]
pub fn read_schedule(alloc: Global, line: &[u8]) -> Result<Runs, LineFault>
    ensures { Gives (schedule_of (words_of line.now)) result }
{
    if count_parts(line, b' ') < 2 {
        return Err(LineFault::Bad);
    }
    let mut runs = Runs::new(alloc);
    for word in line.split(|b| *b == b' ').skip(1) {
        runs.push(read_run(word)?)?;
    }
    Ok(runs)
}
