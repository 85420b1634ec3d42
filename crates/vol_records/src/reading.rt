//! Reading a stream.
ghost use Rattle.std.specs.Prelude.{◌≡◌, ◌+◌, ◌≤◌, ℕ, All, Ok, Err, IfOk, drop, length};
ghost use Rattle.vol_records.specs.Records.{front_record, records_of, room_of};

use crate::LARGEST;
use crate::types::{Rec, RecFault};
use byteorder::{ByteOrder, LittleEndian};
use std::alloc::Global;

// The record that begins at byte `at`.
#[tactic(auto, unfolding(crate::specs::Records::front_record))]
fn next_record(stream: &[u8], at: usize) -> Result<Rec, RecFault>
    requires { at ≤ length stream.now }
    ensures value { result ≡ front_record at (drop at stream.now) }
    ensures inside { IfOk result (λ r. at + room_of r.len ≤ length stream.now) }
    ensures start { IfOk result (λ r. r.from ≡ at + 2) }
{
    let rest = &stream[at..];
    if rest.len() < 2 {
        return Err(RecFault::Truncated(at));
    }
    let count = LittleEndian::read_u16(rest) as usize;
    if count > LARGEST {
        return Err(RecFault::BadCount(at));
    }
    if rest.len() - 2 < count + count % 2 {
        return Err(RecFault::Truncated(at));
    }
    Ok(Rec {
        from: at + 2,
        len: count,
    })
}

/// The records of a stream, in order: where the data of each stand.
///
/// A fault is the first in the order of the bytes, and no record is given then.
pub fn records(alloc: Global, stream: &[u8]) -> Result<Vec<Rec>, RecFault>
    ensures ok { IfOk result (λ places. records_of stream.now ≡ Ok places.items) }
    ensures inside { IfOk result (λ places. All (λ r. r.from + r.len ≤ length stream.now) places.items) }
    ensures bad_count { (at : ℕ) → result ≡ Err (RecFault.BadCount at) → records_of stream.now ≡ Err (RecFault.BadCount at) }
    ensures truncated { (at : ℕ) → result ≡ Err (RecFault.Truncated at) → records_of stream.now ≡ Err (RecFault.Truncated at) }
{
    let mut places = Vec::new(alloc);
    let mut at = 0;
    while at < stream.len() {
        let record = next_record(stream, at)?;
        places.push(record)?;
        at = record.from + record.len + record.len % 2;
    }
    Ok(places)
}
