//! A header slot, read: what it says, or the first test that it fails.

ghost use Rattle.std.specs.Prelude.{◌≡◌, ◌+◌, ◌≤◌, ◌<◌, IsTrue, IfOk};
ghost use Rattle.base_words.specs.Fields.{field};
ghost use Rattle.fx_header.specs.Headers.{high_first, number_of, is_free, has_level, has_offsets, is_on_this_volume, has_segment, has_map, has_end, link_of, fields_of, header_read, HasRuns};
ghost use Rattle.base_words.specs.Fields.{has_sum};

use crate::flags::FileFlags;
use crate::pointers::{ends_whole, map_words};
use crate::slot::{Hdr, HeaderFault, Slot};
use base_words::{Block, long_at, sum_of, word_at};
use bitflags::Flags;

/// The number of four bytes at the offset `o` whose high word stands first.
fn high_first_at(b: &Block, o: usize) -> u32
    requires { o + 4 ≤ 512 }
    ensures { result ≡ high_first b.now o }
{
    u32::from(word_at(b, o)) * 65536 + u32::from(word_at(b, o + 2))
}

/// The file number, 0 in a free slot.
fn number_at(b: &Block) -> u32
    ensures { result ≡ number_of b.now }
{
    u32::from(b[13]) * 65536 + u32::from(word_at(b, 8))
}

/// The file characteristics.
fn flags_at(b: &Block) -> FileFlags
    ensures { result.0 ≡ field b.now 52 4 }
{
    FileFlags(long_at(b, 52))
}

#[tactic(auto, unfolding(crate::specs::Headers::is_free))]
fn is_free(b: &Block) -> bool
    ensures { result ≡ is_free b.now }
{
    number_at(b) == 0
}

#[tactic(auto, unfolding(base_words::specs::Fields::has_sum))]
fn has_sum(b: &Block) -> bool
    ensures { result ≡ has_sum b.now }
{
    word_at(b, 510) == sum_of(b, 255)
}

#[tactic(auto, unfolding(crate::specs::Headers::has_level))]
fn has_level(b: &Block) -> bool
    ensures { result ≡ has_level b.now }
{
    b[7] == 2
}

#[tactic(auto, unfolding(crate::specs::Headers::has_offsets))]
fn has_offsets(b: &Block) -> bool
    ensures { result ≡ has_offsets b.now }
{
    let [ident, map, access, reserved] = [b[0], b[1], b[2], b[3]];
    40 <= ident
        && ident <= map
        && map <= access
        && access <= reserved
        && reserved <= 255
        && 154 <= access - map
}

#[tactic(auto, unfolding(crate::specs::Headers::is_on_this_volume))]
fn is_on_this_volume(b: &Block) -> bool
    ensures { result ≡ is_on_this_volume b.now }
{
    b[12] == 0
}

#[tactic(auto, unfolding(crate::specs::Headers::has_segment))]
fn has_segment(b: &Block) -> bool
    ensures { result ≡ has_segment b.now }
{
    word_at(b, 4) <= 15
}

#[tactic(auto, unfolding(crate::specs::Headers::has_offsets, crate::specs::Headers::has_map))]
fn has_map(b: &Block) -> bool
    requires { IsTrue (has_offsets b.now) }
    ensures { result ≡ has_map b.now }
{
    b[58] <= b[2] - b[1] && ends_whole(map_words(b))
}

#[tactic(auto, unfolding(crate::specs::Headers::has_end))]
fn has_end(b: &Block) -> bool
    ensures { result ≡ has_end b.now }
{
    if word_at(b, 4) != 0 {
        return true;
    }
    let blocks = u64::from(high_first_at(b, 24));
    u64::from(high_first_at(b, 28)) <= blocks + 1
        && word_at(b, 32) <= 511
        && u64::from(long_at(b, 76)) <= blocks + 1
}

/// The file number of the next header of the file, 0 where there is none.
fn link_at(b: &Block) -> u32
    ensures { result ≡ link_of b.now }
{
    u32::from(b[19]) * 65536 + u32::from(word_at(b, 14))
}

#[tactic(auto, unfolding(crate::specs::Headers::fields_of))]
fn fields_of(b: &Block) -> Hdr
    ensures { result ≡ fields_of b.now }
{
    let flags = flags_at(b);
    Hdr {
        num: number_at(b),
        seq: word_at(b, 10),
        owner: long_at(b, 60),
        dir: flags.contains(FileFlags::DIRECTORY),
        marked: flags.contains(FileFlags::MARKDEL),
        blocks: high_first_at(b, 24),
        mark: long_at(b, 76),
        end: high_first_at(b, 28),
        byte: word_at(b, 32),
        seg: word_at(b, 4),
        ext: link_at(b),
        ext_seq: word_at(b, 16),
    }
}

/// Reads a header slot of the index file. A slot whose file number is zero is free, whatever else it holds. Of several
/// faults the answer is the first, in the order in which `HeaderFault` lists them.
#[tactic(auto, unfolding(crate::specs::Headers::header_read))]
pub fn read_header(b: &Block) -> Result<Slot, HeaderFault>
    ensures value { result ≡ header_read b.now }
    ensures runs { IfOk result (HasRuns b.now) }
{
    if is_free(b) {
        return Ok(Slot::Free(word_at(b, 10)));
    }
    if !has_sum(b) {
        return Err(HeaderFault::BadSum);
    }
    if !has_level(b) {
        return Err(HeaderFault::BadLevel);
    }
    if !has_offsets(b) {
        return Err(HeaderFault::BadOffsets);
    }
    if !is_on_this_volume(b) {
        return Err(HeaderFault::BadRvn);
    }
    if !has_segment(b) {
        return Err(HeaderFault::BadExtension);
    }
    if !has_map(b) {
        return Err(HeaderFault::BadMap);
    }
    if !has_end(b) {
        return Err(HeaderFault::BadEnd);
    }
    Ok(Slot::Used(fields_of(b)))
}
