//! The stream of a file of a volume.
ghost use Rattle.std.specs.Prelude.{◌≡◌, ◌≤◌, IfOk, IfSome, option_map, length};
ghost use Rattle.fx_home.specs.Homes.{IsWithinLimits};
ghost use Rattle.vol_faults.specs.Conditions.{IsSize};
ghost use Rattle.vol_parts.specs.Volumes.{volume, IsNumber};
ghost use Rattle.vol_parts.specs.Conditions.{HasRunsInside};
ghost use Rattle.vol_parts.specs.Findings.{Weak};
ghost use Rattle.vol_records.specs.Streams.{blocks_below, end_at, stream_in, plain_file, stream_of, stream_at};

use base_words::Block;
use fx_header::Hdr;
use fx_home::{Home, read_home};
use plain_cat::NoMemory;
use std::alloc::Global;
use vol_parts::{body, fields};

// How many bytes stand before the end of a file.
#[tactic(auto, unfolding(crate::specs::Streams::end_at))]
fn end_at(end: u32, byte: u16) -> usize
    ensures { result ≡ end_at end byte }
{
    if end == 0 {
        return 0;
    }
    512 * (end as usize - 1) + usize::from(byte)
}

// How many of so many blocks stand before a mark.
#[tactic(auto, unfolding(crate::specs::Streams::blocks_below))]
fn blocks_below(mark: u32, count: usize) -> usize
    ensures value { result ≡ blocks_below mark count }
    ensures within { result ≤ count }
{
    if mark == 0 {
        return count;
    }
    (mark as usize - 1).min(count)
}

// The bytes of a file up to its end, by its header and its blocks.
fn stream_in(alloc: Global, f: &Hdr, blocks: &[Block]) -> Result<Vec<u8>, NoMemory>
    ensures { IfOk result (λ s. s.items ≡ stream_in f.now blocks.now) }
{
    let room = blocks.as_flattened().len();
    let written = &blocks[..blocks_below(f.mark, blocks.len())];
    let mut bytes = Vec::with_capacity(alloc, room)?;
    bytes.extend_from_slice(written.as_flattened())?;
    bytes.resize(room, 0)?;
    bytes.truncate(end_at(f.end, f.byte));
    Ok(bytes)
}

// The fields of the file in use under a number and a sequence, where it is no directory.
#[tactic(auto, unfolding(crate::specs::Streams::plain_file))]
fn plain_file(home: &Home, blocks: &[Block], n: u32, seq: u16) -> Option<Hdr>
    requires { IsWithinLimits home.now }
    ensures value { result ≡ plain_file (volume home.now blocks.now) n seq }
    ensures number { IfSome result (λ _f. IsNumber (volume home.now blocks.now) n) }
{
    if n == 0 || n > home.files {
        return None;
    }
    let f = fields(home, blocks, n)?;
    if f.seq == seq && !f.dir {
        Some(f)
    } else {
        None
    }
}

/// The stream of the file that is in use under a number and a sequence, of a volume whose home block is read: its bytes up to its
/// end, where blocks from its mark on show zeros. `None` comes where no such file is in use, or it is a directory.
///
/// The runs of the file lie inside the whole clusters. Of other files nothing is asked. An error says that memory ran out.
pub fn stream_of(
    alloc: Global,
    home: &Home,
    blocks: &[Block],
    n: u32,
    seq: u16,
) -> Result<Option<Vec<u8>>, NoMemory>
    requires limits { IsWithinLimits home.now }
    requires runs { IsNumber (volume home.now blocks.now) n → HasRunsInside (volume home.now blocks.now) n }
    ensures { IfOk result (λ s. option_map (λ v. v.items) s ≡ stream_of (volume home.now blocks.now) n seq) }
{
    let Some(f) = plain_file(home, blocks, n, seq) else {
        return Ok(None);
    };
    let all = body(alloc, home, blocks, n)?;
    Ok(Some(stream_in(alloc, &f, all.items())?))
}

/// The stream of the file that is in use under a number and a sequence: its bytes up to its end, where blocks from its mark on
/// show zeros. `None` comes where no such file is in use, or it is a directory. Files 1, 2 and 10 have a stream like any other.
///
/// There are 64 to 65,536 blocks, and no fatal finding holds of them. An error says that memory ran out.
pub fn stream(
    alloc: Global,
    blocks: &[Block],
    n: u32,
    seq: u16,
) -> Result<Option<Vec<u8>>, NoMemory>
    requires size { IsSize (length blocks.now) }
    requires weak { Weak blocks.now }
    ensures { IfOk result (λ s. option_map (λ v. v.items) s ≡ stream_at blocks.now n seq) }
{
    match read_home(&blocks[1]) {
        Ok(home) => stream_of(alloc, &home, blocks, n, seq),
        Err(_) => Ok(None),
    }
}
