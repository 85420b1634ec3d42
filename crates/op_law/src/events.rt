//! The events that commands have in common, each worked out.

ghost use Rattle.std.specs.Prelude.{◌≡◌, ◌+◌, true, IfOk, IfSome, option_map, map, length, slice_get};
ghost use Rattle.fx_dir.specs.Directory.{all_entries};
ghost use Rattle.fx_dir.specs.Wanted.{wanted_in, version_of};
ghost use Rattle.plain_rules.specs.Lookups.{versions, entry_of};
ghost use Rattle.op_law.specs.Rows.{answered, refused, is_number, live_in, entries_seen};
ghost use Rattle.vol_spell.specs.Entries.{places_in};
ghost use Rattle.op_law.specs.Behind.{blocks_alone};
ghost use Rattle.op_law.specs.Readable.{HasMap, ListsInside, AreInside, IsRead, version_told};

use crate::lists::Writes;
use crate::need::{Need, Plan};
use base_words::Block;
use fx_dir::{Version, find_in, read_sound};
use fx_header::{Hdr, Slot, read_header, runs};
use plain_cat::{Blocks, DirEnt, DirEnts, Fid, Name, NoMemory, Refusal, Reply};
use std::alloc::Global;
use vol_parts::{Geometry, plain_entries, read_entries};

/// Nothing more is needed, and nothing is written: the reply. It takes no memory.
pub fn answered(alloc: Global, reply: Reply) -> Need
    ensures { result ≡ answered reply }
{
    Need::Ready(Plan {
        writes: Writes::new(alloc),
        ask: None,
        reply,
    })
}

/// Nothing more is needed: the command is refused. It takes no memory.
pub fn refused(alloc: Global, refusal: Refusal) -> Need
    ensures { result ≡ refused refusal }
{
    answered(alloc, Reply::Refused(refusal))
}

/// Whether the number of an identifier is one of the volume's.
pub fn is_number(g: &Geometry, fid: Fid) -> bool
    ensures { result ≡ is_number g.now fid }
{
    1 <= fid.num && fid.num <= g.files
}

/// The first header of the live file of this sequence, by its block, or none where the slot has none. Its runs can be read; those of a
/// directory have as many blocks as it says.
pub fn live_in(b: &Block, seq: u16) -> Option<Hdr>
    ensures header { result ≡ live_in seq b.now }
    ensures map { IfSome result (λ h. HasMap b.now) }
    ensures count { IfSome result (λ h. h.dir ≡ true → AreInside b.now → length (places_in b.now) ≡ h.blocks) }
    ensures inside { IfSome result (λ h. h.dir ≡ true → AreInside b.now → ListsInside b.now) }
{
    match read_header(b) {
        Ok(Slot::Used(h)) => if h.seg == 0 && h.seq == seq && !h.marked {
            Some(h)
        } else {
            None
        },
        Ok(Slot::Free(_)) => None,
        Err(_) => None,
    }
}

/// The LBN of a directory's block, which counts from 0, by the block of its header, or none where the directory has fewer. All runs of
/// the header can be read, and end at or before LBN 65,536.
pub fn place_in(b: &Block, at: usize) -> Option<u32>
    requires map { HasMap b.now }
    requires inside { ListsInside b.now }
    ensures { result ≡ slice_get (places_in b.now) at }
{
    let mut left = at;
    for run in runs(b) {
        let count = run.count as usize;
        if left < count {
            return Some(run.lbn + left as u32);
        }
        left -= count;
    }
    None
}

/// The blocks alone. An error says that memory ran out.
pub fn blocks_of(alloc: Global, seen: &[(u32, Block)]) -> Result<Blocks, NoMemory>
    ensures { IfOk result (λ bs. bs ≡ map (λ s. s.1) seen.now) }
{
    let mut blocks = Blocks::new(alloc);
    for (_, block) in seen {
        blocks.push(*block)?;
    }
    Ok(blocks)
}

/// The entries of a directory whose blocks were seen, in order; none where the blocks have a fault. An error says that memory
/// ran out.
pub fn entries_seen(alloc: Global, seen: &[(u32, Block)]) -> Result<DirEnts, NoMemory>
    ensures { IfOk result (λ entries. entries ≡ entries_seen (blocks_alone seen.now)) }
{
    read_entries(alloc, blocks_of(alloc, seen)?.items())
}

/// The same of a directory that is read without a fault, which is not checked again.
pub fn entries_read(alloc: Global, seen: &[(u32, Block)]) -> Result<DirEnts, NoMemory>
    requires { IsRead seen.now }
    ensures { IfOk result (λ entries. entries ≡ entries_seen (blocks_alone seen.now)) }
{
    let blocks = blocks_of(alloc, seen)?;
    let found = read_sound(alloc, blocks.items())?;
    plain_entries(alloc, found.as_slice())
}

// The entry of this name and version in the first block that has one, without its name.
fn first_found(seen: &[(u32, Block)], name: &[u8], ver: u16) -> Option<Version>
    requires { IsRead seen.now }
    ensures { result ≡ option_map version_of (wanted_in name.now ver (all_entries (blocks_alone seen.now))) }
{
    for (_, block) in seen {
        if let Some(found) = find_in(block, name, ver) {
            return Some(found);
        }
    }
    None
}

/// The entry of this name and version in a directory whose blocks were seen, without its name: the highest of the name where the
/// version is 0. The blocks are read without a fault. It takes no memory.
pub fn version_seen(seen: &[(u32, Block)], name: &Name, ver: u16) -> Option<Version>
    requires { IsRead seen.now }
    ensures { result ≡ option_map version_told (entry_of (versions name.now (entries_seen (blocks_alone seen.now))) ver) }
{
    first_found(seen, name.items(), ver)
}

/// The same with its name. An error says that memory ran out.
pub fn entry_seen(
    alloc: Global,
    seen: &[(u32, Block)],
    name: &Name,
    ver: u16,
) -> Result<Option<DirEnt>, NoMemory>
    requires { IsRead seen.now }
    ensures { IfOk result (λ o. o ≡ entry_of (versions name.now (entries_seen (blocks_alone seen.now))) ver) }
{
    let Some(v) = version_seen(seen, name, ver) else {
        return Ok(None);
    };
    Ok(Some(DirEnt {
        name: name.copy(alloc)?,
        ver: v.ver,
        fid: Fid {
            num: v.num,
            seq: v.seq,
        },
    }))
}
