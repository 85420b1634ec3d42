//! The map area of a header: runs are written as retrieval pointers.

ghost use Rattle.std.specs.Prelude.{◌≡◌, ◌+◌, ◌-◌, ◌*◌, ◌≤◌, ◌<◌, IsTrue, nat_le, false, length};
ghost use Rattle.fx_header.specs.declared.slot.Hdr.{Hdr};
ghost use Rattle.fx_header.specs.declared.slot.Slot.TheVariants.{Used};
ghost use Rattle.fx_header.specs.Headers.{has_offsets, has_map, map_area, runs_in, fields_of, header_read, with_words, with_runs, with_map, KeepsTests};
ghost use Rattle.fx_header.specs.Pointers.{IsRun, AreRuns, SplitsRun, Appended, pointer_bytes, merged, map_words, blocks_in, lbns_in};

use crate::run::Run;
use crate::write::{put_byte, put_high_first};
use base_words::{Block, put_bytes, set_sum, zeros};

/// Takes the first run off a list, merged with the runs that are adjacent to it.
fn split_run(runs: &[Run]) -> Option<(Run, &[Run])>
    requires { AreRuns runs.now }
    ensures { SplitsRun runs.now result }
{
    let (first, mut behind) = runs.split_first()?;
    let mut run = *first;
    while let Some((next, others)) = behind.split_first() {
        if run.lbn + run.count != next.lbn {
            break;
        }
        run.count += next.count;
        behind = others;
    }
    Some((run, behind))
}

/// Writes bytes behind the first `used` ones, where they fit in the first `room`, and gives how many are then used.
fn append(map: &mut Block, room: usize, used: usize, bytes: &[u8]) -> Option<usize>
    requires room { room ≤ 512 }
    requires used { used ≤ room }
    requires few { length bytes.now ≤ 8 }
    ensures { Appended room bytes.now used map.old result map.new }
{
    let end = used + bytes.len();
    if room < end {
        return None;
    }
    map[used..end].copy_from_slice(bytes);
    Some(end)
}

/// Writes the pointer of a run, in the first format that has room for it.
#[tactic(auto, unfolding(crate::specs::Pointers::pointer_bytes))]
fn append_pointer(map: &mut Block, room: usize, used: usize, run: Run) -> Option<usize>
    requires room { room ≤ 512 }
    requires used { used ≤ room }
    requires run { IsRun run }
    ensures { Appended room (pointer_bytes run) used map.old result map.new }
{
    let [low, next, third, high] = run.lbn.to_le_bytes();
    let last = run.count - 1;
    let [count, more, upper, highest] = last.to_le_bytes();
    if run.lbn < 0x40_0000 && last < 0x100 {
        append(map, room, used, &[count, 0x40 + third, low, next])
    } else if last < 0x4000 {
        let pointer = [count, 0x80 + more, low, next, third, high];
        append(map, room, used, &pointer)
    } else {
        let pointer = [upper, 0xc0 + highest, count, more, low, next, third, high];
        append(map, room, used, &pointer)
    }
}

/// Spells runs, with adjacent ones merged, at the front of `map`. `None` where they need more than `room` bytes.
fn spell(map: &mut Block, room: usize, runs: &[Run]) -> Option<usize>
    requires room { room ≤ 512 }
    requires runs { AreRuns runs.now }
    ensures { Appended room (map_words runs.now) 0 map.old result map.new }
{
    let mut used = 0;
    let mut left = runs;
    while let Some((run, behind)) = split_run(left) {
        used = append_pointer(map, room, used, run)?;
        left = behind;
    }
    Some(used)
}

/// Writes runs into the map area, and how many words are then in use. The answer is false, and the block is unchanged, where
/// the pointers need more words than the map area has.
#[tactic(auto, unfolding(crate::specs::Headers::has_offsets))]
fn put_map(b: &mut Block, runs: &[Run]) -> bool
    requires offsets { IsTrue (has_offsets b.old) }
    requires runs { AreRuns runs.now }
    ensures fits { result ≡ nat_le (length (map_words runs.now)) (2 * map_area b.old) }
    ensures written { IsTrue result → b.new ≡ with_words b.old (map_words runs.now) }
    ensures same { result ≡ false → b.new ≡ b.old }
{
    let mut map = zeros();
    let [map_offset, access_offset] = [b[1], b[2]];
    let room = 2 * usize::from(access_offset - map_offset);
    let Some(used) = spell(&mut map, room, runs) else {
        return false;
    };
    put_bytes(b, 2 * usize::from(map_offset), &map[..used]);
    put_byte(b, 58, (used / 2) as u8);
    true
}

/// Writes a file's runs into the map area, with adjacent ones merged and each pointer in the first of the formats 1, 2 and
/// 3 that has room for it; besides, the words in use, the blocks (HIBLK) and the checksum. Words behind those in use stay
/// as they were. The answer is false, and the block is unchanged, where the pointers need more words than the map area
/// has. Each run has a block at least and ends at or before LBN 65,536, and together they have at most 65,536 blocks.
#[tactic(auto, unfolding(crate::specs::Headers::with_runs))]
pub fn set_runs(b: &mut Block, runs: &[Run]) -> bool
    requires offsets { IsTrue (has_offsets b.old) }
    requires runs { AreRuns runs.now }
    requires blocks { blocks_in runs.now ≤ 65536 }
    ensures fits { result ≡ nat_le (length (map_words runs.now)) (2 * map_area b.old) }
    ensures written { IsTrue result → b.new ≡ with_runs b.old runs.now }
    ensures same { result ≡ false → b.new ≡ b.old }
    ensures runs { IsTrue result → runs_in b.new ≡ merged runs.now }
    ensures blocks { IsTrue result → lbns_in (runs_in b.new) ≡ lbns_in runs.now }
    ensures reads { IsTrue result → (h : Hdr) → header_read b.old ≡ Ok (Used h)
        → h.end ≤ blocks_in runs.now + 1 → h.mark ≤ blocks_in runs.now + 1
        → header_read b.new ≡ Ok (Used (record h { blocks = blocks_in runs.now })) }
{
    if !put_map(b, runs) {
        return false;
    }
    put_high_first(b, 24, runs.iter().map(|r| r.count).sum());
    set_sum(b);
    true
}

/// Writes runs into the map area of one of a file's headers, as `set_runs` does, but leaves the file's blocks (HIBLK) as they
/// are: these stand in the first header for all.
#[tactic(auto, unfolding(crate::specs::Headers::with_map))]
pub fn set_map(b: &mut Block, runs: &[Run]) -> bool
    requires offsets { IsTrue (has_offsets b.old) }
    requires runs { AreRuns runs.now }
    ensures fits { result ≡ nat_le (length (map_words runs.now)) (2 * map_area b.old) }
    ensures written { IsTrue result → b.new ≡ with_map b.old runs.now }
    ensures same { result ≡ false → b.new ≡ b.old }
    ensures runs { IsTrue result → runs_in b.new ≡ merged runs.now }
    ensures blocks { IsTrue result → lbns_in (runs_in b.new) ≡ lbns_in runs.now }
    ensures map { IsTrue result → IsTrue (has_map b.new) }
    ensures fields { IsTrue result → fields_of b.new ≡ fields_of b.old }
    ensures tests { IsTrue result → KeepsTests b.old b.new }
    ensures reads { IsTrue result → (h : Hdr) → header_read b.old ≡ Ok (Used h) → header_read b.new ≡ Ok (Used h) }
{
    if !put_map(b, runs) {
        return false;
    }
    set_sum(b);
    true
}
