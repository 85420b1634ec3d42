//! Writing a stream.
ghost use Rattle.std.specs.Prelude.{◌≡◌, ◌≤◌, ◌++◌, IfOk, OnOk, length};
ghost use Rattle.vol_records.specs.Records.{spelt_line, spelt, ReadsAs};

use crate::lines::Lines8;
use crate::types::NoMemory;
use std::alloc::Global;

// Appends the record of a line.
#[tactic(auto, unfolding(crate::specs::Records::spelt_line))]
fn push_record(stream: &mut Vec<u8>, line: &[u8]) -> Result<(), NoMemory>
    requires { length line.now ≤ 32767 }
    ensures { OnOk result (stream.new.items ≡ stream.old.items ++ spelt_line line.now) }
{
    let count = line.len() as u16;
    stream.extend_from_slice(&count.to_le_bytes())?;
    stream.extend_from_slice(line)?;
    if line.len() % 2 == 1 {
        stream.push(0)?;
    }
    Ok(())
}

/// The stream of a list of lines: the record of each, one behind the other. The padding is zero.
pub fn spell(alloc: Global, lines: &Lines8) -> Result<Vec<u8>, NoMemory>
    ensures bytes { IfOk result (λ stream. stream.items ≡ spelt lines.now) }
    ensures reads_back { IfOk result (λ stream. ReadsAs stream.items lines.now) }
{
    let mut stream = Vec::with_capacity(alloc, lines.spelt_len())?;
    for i in 0..lines.len() {
        push_record(&mut stream, lines.line(i))?;
    }
    Ok(stream)
}
