//! Retrieval pointers, read as runs of blocks.

ghost use Rattle.std.specs.Prelude.{◌≡◌, ◌≤◌, ◌==◌, length, IsTrue};
ghost use Rattle.fx_header.specs.Headers.{has_offsets, has_map, map_in_use, map_area, map_bytes, runs_in};
ghost use Rattle.fx_header.specs.Iter.{runs_left};
ghost use Rattle.fx_header.specs.Pointers.{pointer_size, pointer_run, rest_of, SplitsPointer};

use crate::run::Run;
use base_words::Block;
use byteorder::{ByteOrder, LittleEndian};

/// The bytes of the retrieval pointer at the front.
fn size_of_pointer(p: &[u8]) -> usize
    requires { 2 ≤ length p.now }
    ensures { result ≡ pointer_size p.now }
{
    2 + 2 * usize::from(LittleEndian::read_u16(p) >> 14)
}

/// The run that the pointer at the front spells; a placement pointer spells none.
#[tactic(auto, unfolding(crate::specs::Pointers::pointer_run))]
fn run_of_pointer(p: &[u8]) -> Option<Run>
    requires { pointer_size p.now ≤ length p.now }
    ensures { result ≡ pointer_run p.now }
{
    let first = LittleEndian::read_u16(p);
    match first >> 14 {
        0 => None,
        1 => {
            let lbn = u32::from(first >> 8) % 64 * 65536
                + u32::from(LittleEndian::read_u16(&p[2..]));
            Some(Run {
                lbn,
                count: u32::from(first % 256) + 1,
            })
        }
        2 => Some(Run {
            lbn: LittleEndian::read_u32(&p[2..]),
            count: u32::from(first % 16384) + 1,
        }),
        _ => {
            let count = u32::from(first % 16384) * 65536
                + u32::from(LittleEndian::read_u16(&p[2..]))
                + 1;
            Some(Run {
                lbn: LittleEndian::read_u32(&p[4..]),
                count,
            })
        }
    }
}

/// Takes the retrieval pointer at the front off the bytes: the run that it spells, and the bytes behind it. `None` where
/// the bytes end before the pointer does.
fn split_pointer(p: &[u8]) -> Option<(Option<Run>, &[u8])>
    ensures { SplitsPointer p.now result }
{
    if p.len() < 2 {
        return None;
    }
    let size = size_of_pointer(p);
    if p.len() < size {
        return None;
    }
    Some((run_of_pointer(p), &p[size..]))
}

/// The retrieval pointers end at the last byte.
pub(crate) fn ends_whole(p: &[u8]) -> bool
    ensures { result ≡ (length (rest_of p.now) == 0) }
{
    let mut left = p;
    while let Some((_, behind)) = split_pointer(left) {
        left = behind;
    }
    left.is_empty()
}

/// The runs that a header's retrieval pointers spell, in order.
#[derive(Debug, Clone, Drop)]
pub struct RunIter<'a> {
    bytes: &'a [u8],
}

impl Iterator for RunIter<'_> {
    ghost use Rattle.std.specs.Iterator.{YieldsFirst, item_count};
    ghost use Rattle.fx_header.specs.Iter.{runs_left};

    type Item = Run;

    ghost next_gives = { YieldsFirst runs_left };

    ghost remaining = { item_count runs_left };

    fn next(&mut self) -> Option<Run> {
        while let Some((spelt, behind)) = split_pointer(self.bytes) {
            self.bytes = behind;
            if let Some(run) = spelt {
                return Some(run);
            }
        }
        None
    }
}

/// The bytes of the map area's words in use.
#[tactic(auto, unfolding(crate::specs::Headers::has_offsets))]
pub(crate) fn map_words(b: &Block) -> &[u8]
    requires offsets { IsTrue (has_offsets b.now) }
    requires area { map_in_use b.now ≤ map_area b.now }
    ensures { result.now ≡ map_bytes b.now }
{
    let start = usize::from(b[1]);
    let end = start + usize::from(b[58]);
    &b[2 * start..2 * end]
}

/// The runs of a header, in order. Placement pointers give none.
#[tactic(auto, unfolding(crate::specs::Headers::has_map))]
pub fn runs(b: &Block) -> RunIter<'_>
    requires offsets { IsTrue (has_offsets b.now) }
    requires map { IsTrue (has_map b.now) }
    ensures { runs_left result ≡ runs_in b.now }
{
    RunIter {
        bytes: map_words(b),
    }
}
