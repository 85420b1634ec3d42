//! Reading a script line by line.

ghost use Rattle.std.specs.Prelude.{◌≡◌, ◌∷◌, ◌++◌, [], Option, Some, None, Ok, Err, Result, OnOk};
ghost use Rattle.run_script.specs.Grammar.{is_skipped};
ghost use Rattle.dlm_run.specs.Reading.{Begun, with_event, with_nodes, taken_line, ended_at, script_of, Agrees};

use crate::events::{read_event, read_nodes};
use crate::script::{Fault, Script};
use dlm_core::Event;
use plain_cat::NoMemory;
use run_script::split_line;
use std::alloc::Global;
use std::marker::Model;

/// The greatest number of events.
const MOST: usize = 4096;

/// Why a script is not read.
#[derive(Clone, Copy, Debug, PartialEq)]
pub(crate) enum ReadFault {
    /// It is no script.
    Bad(Fault),

    /// Memory ran out, or there are more lines than 32 bits count.
    NoMemory,
}

impl From<NoMemory> for ReadFault {
    ghost use Rattle.std.specs.Prelude.{◌≡◌};
    ghost use Rattle.dlm_run.specs.declared.reading.ReadFault.TheVariants.{NoMemory};

    ghost from_gives = { λ _ fault. fault ≡ NoMemory };

    fn from(_error: NoMemory) -> ReadFault {
        ReadFault::NoMemory
    }
}

/// A script so far.
#[derive(Drop)]
struct Reader {
    nodes: Option<u8>,
    events: Vec<Event>,
}

impl Model for Reader {
    ghost use Rattle.dlm_run.specs.Reading.{Begun};

    ghost Value = { Begun };

    ghost view = { λ r. record { nodes = r.nodes; events = r.events.items } };
}

fn is_skipped(line: &[u8]) -> bool
    ensures { result ≡ is_skipped line.now }
{
    match line {
        [] => true,
        [b, ..] => *b == b'#',
    }
}

fn push_event(events: &mut Vec<Event>, event: Event) -> Result<(), NoMemory>
    ensures { OnOk result (events.new.items ≡ events.old.items ++ event ∷ []) }
{
    events.push(event)?;
    Ok(())
}

// One more event.
fn with_event(
    at: u32,
    nodes: u8,
    mut events: Vec<Event>,
    event: Option<Event>,
) -> Result<Reader, ReadFault>
    ensures { Agrees (with_event event at nodes events.items) result }
{
    let Some(event) = event else {
        return Err(ReadFault::Bad(Fault::BadLine(at)));
    };
    if events.len() >= MOST {
        return Err(ReadFault::Bad(Fault::TooMany));
    }
    push_event(&mut events, event)?;
    Ok(Reader {
        nodes: Some(nodes),
        events,
    })
}

// The line that tells the nodes.
fn with_nodes(alloc: Global, at: u32, nodes: Option<u8>) -> Result<Reader, ReadFault>
    ensures { Agrees (with_nodes nodes at) result }
{
    match nodes {
        Some(n) => Ok(Reader {
            nodes: Some(n),
            events: Vec::new(alloc),
        }),
        None => Err(ReadFault::Bad(Fault::BadLine(at))),
    }
}

// One more line.
#[tactic(auto, unfolding(crate::specs::Reading::taken_line))]
fn take_line(alloc: Global, at: u32, line: &[u8], reader: Reader) -> Result<Reader, ReadFault>
    ensures { Agrees (taken_line at line.now reader) result }
{
    if is_skipped(line) {
        return Ok(reader);
    }
    match reader.nodes {
        Some(n) => with_event(at, n, reader.events, read_event(n, line)),
        None => with_nodes(alloc, at, read_nodes(line)),
    }
}

// The script at its end.
fn end_at(at: u32, reader: Reader) -> Result<Script, ReadFault>
    ensures { Agrees (ended_at at reader.nodes reader.events) result }
{
    match reader.nodes {
        Some(nodes) => Ok(Script {
            nodes,
            events: reader.events,
        }),
        None => Err(ReadFault::Bad(Fault::BadLine(at))),
    }
}

/// Reads a script: all of it, or the first fault in the order of its lines.
pub(crate) fn read_script(alloc: Global, bytes: &[u8]) -> Result<Script, ReadFault>
    ensures { Agrees (script_of bytes.now) result }
{
    let mut reader = Reader {
        nodes: None,
        events: Vec::new(alloc),
    };
    let mut number = 1u32;
    let mut rest = bytes;
    while let Some(split) = split_line(rest) {
        match take_line(alloc, number, split.line, reader) {
            Ok(next) => reader = next,
            Err(fault) => return Err(fault),
        }
        if number == u32::MAX {
            return Err(ReadFault::NoMemory);
        }
        number += 1;
        rest = split.rest;
    }
    end_at(number, reader)
}
