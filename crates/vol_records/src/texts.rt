//! The text of records.
ghost use Rattle.std.specs.Prelude.{◌≡◌, ◌+◌, ◌≤◌, ◌++◌, All, OnOk, OnErr, length, map};
ghost use Rattle.vol_records.specs.Texts.{printable, record_line, count_line, records_text};

use crate::types::{NoMemory, Rec};
use plain_texts::{push_bytes, push_count};
use std::alloc::Global;

// A byte as it is printed.
#[tactic(auto, unfolding(crate::specs::Texts::printable))]
fn printable(b: u8) -> u8
    ensures { result ≡ printable b }
{
    if b >= 32 && b <= 126 { b } else { b'.' }
}

// Appends bytes as they are printed.
fn add_printable(out: &mut Vec<u8>, bytes: &[u8]) -> Result<(), NoMemory>
    ensures { OnOk result (out.new.items ≡ out.old.items ++ map printable bytes.now) }
{
    for b in bytes {
        out.push(printable(*b))?;
    }
    Ok(())
}

// Appends the line of a record.
#[tactic(auto, unfolding(crate::specs::Texts::record_line))]
fn add_record(out: &mut Vec<u8>, stream: &[u8], place: Rec) -> Result<(), NoMemory>
    requires { place.from + place.len ≤ length stream.now }
    ensures { OnOk result (out.new.items ≡ out.old.items ++ record_line stream.now place) }
{
    add_printable(out, &stream[place.from..place.from + place.len])?;
    push_bytes(out, b"\n")
}

// Appends how many records there are.
#[tactic(auto, unfolding(crate::specs::Texts::count_line))]
fn add_count(alloc: Global, out: &mut Vec<u8>, n: usize) -> Result<(), NoMemory>
    ensures { OnOk result (out.new.items ≡ out.old.items ++ count_line n) }
{
    push_count(alloc, out, n)?;
    push_bytes(out, b" records\n")
}

// Appends the text of records.
fn add_records(
    alloc: Global,
    out: &mut Vec<u8>,
    stream: &[u8],
    places: &[Rec],
) -> Result<(), NoMemory>
    requires { All (λ r. r.from + r.len ≤ length stream.now) places.now }
    ensures { OnOk result (out.new.items ≡ out.old.items ++ records_text stream.now places.now) }
{
    for place in places {
        add_record(out, stream, *place)?;
    }
    add_count(alloc, out, places.len())
}

/// Appends the text of the records that stand at these places of a stream, as [`records`](crate::records) gives them: a line for
/// each, in which a full stop stands for each byte outside 32 to 126, and a line with their count. An error says that memory
/// ran out, and leaves the list as it was.
pub fn push_records(
    alloc: Global,
    out: &mut Vec<u8>,
    stream: &[u8],
    places: &[Rec],
) -> Result<(), NoMemory>
    requires { All (λ r. r.from + r.len ≤ length stream.now) places.now }
    ensures ok { OnOk result (out.new.items ≡ out.old.items ++ records_text stream.now places.now) }
    ensures err { OnErr result (out.new.items ≡ out.old.items) }
{
    let mut text = Vec::with_capacity(alloc, stream.len())?;
    add_records(alloc, &mut text, stream, places)?;
    push_bytes(out, text.as_slice())
}
