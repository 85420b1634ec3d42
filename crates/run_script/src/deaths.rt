//! The line of a death.

ghost use Rattle.run_script.specs.Lines.{words_of};
ghost use Rattle.run_script.specs.Steps.{Gives, moment_of, death_of};

use crate::fault::LineFault;
use crate::numbers::{read_channel, read_number};
use crate::parts::{count_parts, part};
use plain_cat::{Kill, KillAt};

// Reads when a node is killed.
#[tactic(auto, unfolding(crate::specs::Steps::moment_of))]
fn read_moment(word: &[u8], digits: &[u8]) -> Result<KillAt, LineFault>
    ensures { Gives (moment_of word.now digits.now) result }
{
    if word == b"TURN".as_slice() {
        return Ok(KillAt::Turn(read_number(digits, 10, 1, 1_000_000)?));
    }
    if word == b"WRITE".as_slice() {
        return Ok(KillAt::Write(read_number(digits, 10, 1, 1_000_000)?));
    }
    Err(LineFault::Bad)
}

/// Reads the death of a node.
#[tactic(auto, unfolding(crate::specs::Steps::death_of))]
pub fn read_death(line: &[u8]) -> Result<Kill, LineFault>
    ensures { Gives (death_of (words_of line.now)) result }
{
    if count_parts(line, b' ') != 4 {
        return Err(LineFault::Bad);
    }
    let node = read_channel(part(line, b' ', 1))?;
    let at = read_moment(part(line, b' ', 2), part(line, b' ', 3))?;
    Ok(Kill { node, at })
}
