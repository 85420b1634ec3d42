//! The records of a stream as lines of raw bytes.

ghost use Rattle.std.specs.Prelude.{◌≡◌, ◌+◌, ◌≤◌, ◌++◌, All, IfOk, OnOk, length, take, flat_map};
ghost use Rattle.vol_records.specs.Records.{records_of};
ghost use Rattle.vol_show.specs.Fronts.{raw_line, raw_lines, bad_record, front_text, GoodLinesComeOut};

use plain_cat::NoMemory;
use plain_texts::push_bytes;
use std::alloc::{AllocError, Global};
use vol_records::{Rec, RecFault, records};

/// The good records of a stream, and the first bad one.
#[derive(Drop)]
pub struct RawText {
    /// A line for each good record, or for each in front of the first bad one: its bytes as they are, and a line feed.
    pub text: Vec<u8>,

    /// The byte at which the first bad record begins, if there is one.
    pub bad: Option<usize>,
}

// Appends the line of a record.
#[tactic(auto, unfolding(crate::specs::Fronts::raw_line))]
fn push_raw(out: &mut Vec<u8>, stream: &[u8], place: Rec) -> Result<(), NoMemory>
    requires { place.from + place.len ≤ length stream.now }
    ensures { OnOk result (out.new.items ≡ out.old.items ++ raw_line stream.now place) }
{
    push_bytes(out, &stream[place.from..place.from + place.len])?;
    push_bytes(out, b"\n")
}

// The lines of records.
fn raw_lines(alloc: Global, stream: &[u8], places: &[Rec]) -> Result<Vec<u8>, NoMemory>
    requires { All (λ r. r.from + r.len ≤ length stream.now) places.now }
    ensures { IfOk result (λ text. text.items ≡ flat_map (raw_line stream.now) places.now) }
{
    let mut text = Vec::with_capacity(alloc, stream.len())?;
    for place in places {
        push_raw(&mut text, stream, *place)?;
    }
    Ok(text)
}

// The lines of a stream in which no record is bad.
fn good_lines(alloc: Global, stream: &[u8]) -> Result<Vec<u8>, NoMemory>
    ensures { IfOk result (λ text. text.items ≡ raw_lines stream.now (records_of stream.now)) }
{
    match records(alloc, stream) {
        Ok(places) => raw_lines(alloc, stream, places.as_slice()),
        Err(RecFault::BadCount(_)) => Ok(Vec::new(alloc)),
        Err(RecFault::Truncated(_)) => Ok(Vec::new(alloc)),
        Err(RecFault::NoMemory) => Err(AllocError),
    }
}

// The byte of the first bad record.
fn bad_record(alloc: Global, stream: &[u8]) -> Result<Option<usize>, NoMemory>
    ensures { IfOk result (λ bad. bad ≡ bad_record stream.now) }
{
    match records(alloc, stream) {
        Ok(_) => Ok(None),
        Err(RecFault::BadCount(at)) => Ok(Some(at)),
        Err(RecFault::Truncated(at)) => Ok(Some(at)),
        Err(RecFault::NoMemory) => Err(AllocError),
    }
}

// What stands in front of a byte.
fn part_before(stream: &[u8], at: usize) -> &[u8]
    ensures { result.now ≡ take at stream.now }
{
    if at > stream.len() {
        return stream;
    }
    &stream[..at]
}

/// The records of a stream as lines of raw bytes, with the good ones in front of a bad one too, and the byte at which the first bad one
/// begins. An error says that memory ran out.
pub fn front(alloc: Global, stream: &[u8]) -> Result<RawText, NoMemory>
    ensures text { IfOk result (λ f. f.text.items ≡ front_text stream.now) }
    ensures bad { IfOk result (λ f. f.bad ≡ bad_record stream.now) }
{
    let bad = bad_record(alloc, stream)?;
    let good = match bad {
        Some(at) => part_before(stream, at),
        None => stream,
    };
    let text = good_lines(alloc, good)?;
    Ok(RawText { text, bad })
}

/// A law: all lines come out of a stream that is their records, and all lines in front of a bad record.
pub fn good_lines_come_out()
    ensures { GoodLinesComeOut }
{}
