//! Events as lines.

ghost use Rattle.std.specs.Prelude.{◌≡◌};
ghost use Rattle.dlm_run.specs.Reading.{nodes_of, ask_of, drop_of, pass_of, kill_of, event_of};

use crate::names::{read_mode, read_name, read_owner};
use crate::words::{has_form, read_byte, word_at};
use dlm_core::Event;

/// Reads the number of nodes, 1 to 8.
#[tactic(auto, unfolding(crate::specs::Reading::nodes_of))]
pub(crate) fn read_nodes(line: &[u8]) -> Option<u8>
    ensures { result ≡ nodes_of line.now }
{
    if !has_form(line, 2, b"NODES") {
        return None;
    }
    read_byte(word_at(line, 1), 1, 8)
}

#[tactic(auto, unfolding(crate::specs::Reading::ask_of))]
fn read_ask(nodes: u8, line: &[u8]) -> Option<Event>
    ensures { result ≡ ask_of nodes line.now }
{
    let owner = read_owner(nodes, line)?;
    let name = read_name(word_at(line, 3))?;
    let mode = read_mode(word_at(line, 4))?;
    let fill = read_byte(word_at(line, 5), 0, 255)?;
    Some(Event::Ask {
        owner,
        name,
        mode,
        fill,
    })
}

#[tactic(auto, unfolding(crate::specs::Reading::drop_of))]
fn read_drop(nodes: u8, line: &[u8]) -> Option<Event>
    ensures { result ≡ drop_of nodes line.now }
{
    let owner = read_owner(nodes, line)?;
    let name = read_name(word_at(line, 3))?;
    let fill = read_byte(word_at(line, 4), 0, 255)?;
    Some(Event::Drop { owner, name, fill })
}

#[tactic(auto, unfolding(crate::specs::Reading::pass_of))]
fn read_pass(nodes: u8, line: &[u8]) -> Option<Event>
    ensures { result ≡ pass_of nodes line.now }
{
    let from = read_byte(word_at(line, 1), 1, nodes)?;
    let to = read_byte(word_at(line, 2), 1, nodes)?;
    Some(Event::Pass { from, to })
}

#[tactic(auto, unfolding(crate::specs::Reading::kill_of))]
fn read_kill(nodes: u8, line: &[u8]) -> Option<Event>
    ensures { result ≡ kill_of nodes line.now }
{
    let node = read_byte(word_at(line, 1), 1, nodes)?;
    Some(Event::Kill { node })
}

/// Reads an event on the nodes 1 to `nodes`.
#[tactic(auto, unfolding(crate::specs::Reading::event_of))]
pub(crate) fn read_event(nodes: u8, line: &[u8]) -> Option<Event>
    ensures { result ≡ event_of nodes line.now }
{
    if has_form(line, 6, b"ASK") {
        return read_ask(nodes, line);
    }
    if has_form(line, 5, b"DROP") {
        return read_drop(nodes, line);
    }
    if has_form(line, 3, b"PASS") {
        return read_pass(nodes, line);
    }
    if has_form(line, 2, b"KILL") {
        return read_kill(nodes, line);
    }
    None
}
