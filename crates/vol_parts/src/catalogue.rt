//! The catalogue that the blocks of a volume tell.

ghost use Rattle.std.specs.Prelude.{◌≡◌, ◌+◌, ◌*◌, ◌^◌, ◌≤◌, ◌<◌, None, true, length, map, take, replicate, IfOk};
ghost use Rattle.std.specs.List.{range_with_len, sum_by, count_by};
ghost use Rattle.fx_home.specs.Homes.{IsWithinLimits};
ghost use Rattle.fx_dir.specs.Directory.{directory};
ghost use Rattle.plain_rules.specs.Lookups.{clusters_in};
ghost use Rattle.vol_parts.specs.Volumes.{volume, IsNumber, numbers, fields, told, is_in_slots, total, body};
ghost use Rattle.vol_parts.specs.Catalogues.{plain_entry, plain_entries, is_structure, written_blocks, is_bare, file_of, slot_of, files_of, is_outside_cluster, is_outside_number, catalogue};
ghost use Rattle.vol_parts.specs.Fatal.{has_one_header};
ghost use Rattle.vol_parts.specs.Conditions.{HasSystemFiles, HasRunsInside, HasAllRunsInside};

use crate::bodies::{body, is_used_number};
use crate::flags::slot_flags;
use crate::heads::{fields, first_head};
use crate::rows::{active_rows, sorted_rows};
use base_words::Block;
use fx_dir::{DirFault, RawEnt, read_dir};
use fx_header::{Hdr, Slot as Head};
use fx_home::Home;
use plain_cat::{
    Blocks, Cat, Channels, DirEnt, DirEnts, Fid, File, Files, Flags, Name, NoMemory, Slot, Uic,
};
use std::alloc::{AllocError, Global};

/// An entry without the version limit and the flags of its record. An error says that memory ran out.
pub fn plain_entry(alloc: Global, e: &RawEnt) -> Result<DirEnt, NoMemory>
    ensures { IfOk result (λ entry. entry ≡ plain_entry e.now) }
{
    let seq = e.seq;
    Ok(DirEnt {
        name: Name::of(alloc, e.name.bytes())?,
        ver: e.ver,
        fid: Fid { num: e.num, seq },
    })
}

/// Entries without the version limits and the flags of their records, in their order. An error says that memory ran out.
pub fn plain_entries(alloc: Global, found: &[RawEnt]) -> Result<DirEnts, NoMemory>
    ensures { IfOk result (λ entries. entries ≡ map plain_entry found.now) }
{
    let mut entries = DirEnts::new(alloc);
    for e in found {
        entries.push(plain_entry(alloc, e)?)?;
    }
    Ok(entries)
}

/// The entries of the blocks of a directory, in order; none where the blocks have a fault. An error says that memory ran out.
pub fn read_entries(alloc: Global, blocks: &[Block]) -> Result<DirEnts, NoMemory>
    ensures { IfOk result (λ entries. entries ≡ plain_entries (directory blocks.now)) }
{
    match read_dir(alloc, blocks) {
        Ok(found) => plain_entries(alloc, found.as_slice()),
        Err(DirFault::NoMemory) => Err(AllocError),
        Err(DirFault::BadRecord(_)) => Ok(DirEnts::new(alloc)),
        Err(DirFault::BadOrder) => Ok(DirEnts::new(alloc)),
        Err(DirFault::Clash) => Ok(DirEnts::new(alloc)),
    }
}

// Whether a file holds the volume's own structures.
fn is_structure(n: u32) -> bool
    ensures { result ≡ is_structure n }
{
    n == 1 || n == 2 || n == 10
}

// The blocks of a file that can be seen: those below its mark, or all where there is none.
fn written_blocks(alloc: Global, n: u32, f: &Hdr, all: Blocks) -> Result<Blocks, NoMemory>
    ensures { IfOk result (λ written. written ≡ written_blocks n f.now all) }
{
    if f.dir || is_structure(n) {
        return Ok(Blocks::new(alloc));
    }
    if f.mark == 0 {
        return Ok(all);
    }
    all.front(alloc, f.mark as usize - 1)
}

// A file, by its header and its blocks.
fn file_of(alloc: Global, home: &Home, n: u32, f: &Hdr, all: Blocks) -> Result<File, NoMemory>
    requires { IsWithinLimits home.now }
    ensures { IfOk result (λ file. file ≡ file_of home.now.cluster n f.now all) }
{
    let entries = if f.dir {
        read_entries(alloc, all.items())?
    } else {
        DirEnts::new(alloc)
    };
    let (seq, owner, dir, marked, byte) = (f.seq, Uic(f.owner), f.dir, f.marked, f.byte);
    Ok(File {
        seq,
        owner,
        dir,
        clusters: f.blocks / u32::from(home.cluster),
        mark: f.mark,
        end: f.end,
        byte,
        marked,
        written: written_blocks(alloc, n, f, all)?,
        entries,
    })
}

// Whether the blocks of a file tell nothing of it: it is no directory, and holds the volume's own structures or has nothing below its mark.
fn is_bare(n: u32, f: &Hdr) -> bool
    ensures { result ≡ is_bare n f.now }
{
    !f.dir && (is_structure(n) || f.mark == 1)
}

// A file, by its header and its blocks, which are not read where they tell nothing of it.
fn file(alloc: Global, home: &Home, blocks: &[Block], n: u32, f: &Hdr) -> Result<File, NoMemory>
    requires limits { IsWithinLimits home.now }
    requires number { IsNumber (volume home.now blocks.now) n }
    requires runs { HasRunsInside (volume home.now blocks.now) n }
    ensures { IfOk result (λ file. file ≡ file_of home.now.cluster n f.now (body (volume home.now blocks.now) n)) }
{
    if is_bare(n, f) {
        return file_of(alloc, home, n, f, Blocks::new(alloc));
    }
    let all = body(alloc, home, blocks, n)?;
    file_of(alloc, home, n, f, all)
}

/// What a file number has, as a catalogue tells it. The runs of its file lie inside the whole clusters. An error says that
/// memory ran out.
#[tactic(auto, unfolding(crate::specs::Catalogues::slot_of))]
pub fn slot(alloc: Global, home: &Home, blocks: &[Block], n: u32) -> Result<Slot, NoMemory>
    requires limits { IsWithinLimits home.now }
    requires number { IsNumber (volume home.now blocks.now) n }
    requires runs { HasRunsInside (volume home.now blocks.now) n }
    ensures { IfOk result (λ slot. slot ≡ slot_of (volume home.now blocks.now) n) }
{
    match first_head(home, blocks, n) {
        Ok(Head::Used(f)) => Ok(Slot::Used(file(alloc, home, blocks, n, &f)?)),
        Ok(Head::Free(seq)) => Ok(Slot::Free(seq)),
        Err(_) => Ok(Slot::Free(0)),
    }
}

/// All files of a volume, as a catalogue tells them: number n stands at n - 1. The runs of all lie inside the whole clusters.
/// An error says that memory ran out.
#[tactic(auto, unfolding(crate::specs::Catalogues::files_of))]
pub fn files(alloc: Global, home: &Home, blocks: &[Block]) -> Result<Files, NoMemory>
    requires limits { IsWithinLimits home.now }
    requires runs { HasAllRunsInside (volume home.now blocks.now) }
    ensures { IfOk result (λ files. files ≡ files_of (volume home.now blocks.now)) }
{
    let mut files = Files::new(alloc);
    for n in 1..home.files + 1 {
        files.push(slot(alloc, home, blocks, n)?)?;
    }
    Ok(files)
}

fn clusters_in(slot: &Slot) -> u32
    ensures { result ≡ clusters_in slot.now }
{
    match slot {
        Slot::Used(file) => file.clusters,
        Slot::Free(_) => 0,
    }
}

// The clusters of the first eleven files.
fn reserved(slots: &[Slot]) -> u32
    requires many { 11 ≤ length slots.now }
    requires fits { sum_by clusters_in (take 11 slots.now) < 2 ^ 32 }
    ensures { result ≡ sum_by clusters_in (take 11 slots.now) }
{
    let mut clusters = 0;
    for slot in &slots[..11] {
        clusters += clusters_in(slot);
    }
    clusters
}

// How many blocks the file of a number has, which has one header.
fn size(home: &Home, blocks: &[Block], n: u32) -> u32
    requires limits { IsWithinLimits home.now }
    requires number { IsNumber (volume home.now blocks.now) n }
    requires one { let v = volume home.now blocks.now in has_one_header (fields v n) (told v n) ≡ true }
    ensures { result ≡ length (body (volume home.now blocks.now) n) }
{
    match fields(home, blocks, n) {
        Some(f) => f.blocks,
        None => 0,
    }
}

// Whether a file number is in use by its bit, and no file's. `slots` are the flags of the files' header slots.
#[tactic(auto, unfolding(crate::specs::Catalogues::is_outside_number))]
fn is_outside_number(home: &Home, blocks: &[Block], slots: &[bool], n: u32) -> bool
    requires limits { IsWithinLimits home.now }
    requires number { IsNumber (volume home.now blocks.now) n }
    requires there { 4 * home.now.cluster < length blocks.now }
    requires slots { slots.now ≡ map (is_in_slots (volume home.now blocks.now)) (numbers (volume home.now blocks.now)) }
    ensures { result ≡ is_outside_number (volume home.now blocks.now) n }
{
    is_used_number(home, blocks, n) && !slots[n as usize - 1]
}

// Which file numbers are in use by their bits, and no file's.
fn outside_numbers(alloc: Global, home: &Home, blocks: &[Block]) -> Result<Flags, NoMemory>
    requires limits { IsWithinLimits home.now }
    requires there { 4 * home.now.cluster < length blocks.now }
    ensures { IfOk result (λ flags. flags ≡ map (is_outside_number (volume home.now blocks.now)) (numbers (volume home.now blocks.now))) }
{
    let slots = slot_flags(alloc, home, blocks)?;
    let mut flags = Flags::new(alloc);
    for n in 1..home.files + 1 {
        flags.push(is_outside_number(home, blocks, slots.items(), n))?;
    }
    Ok(flags)
}

// The channels of all nodes, with nothing open.
fn no_opens(alloc: Global) -> Result<Channels, NoMemory>
    ensures { IfOk result (λ opens. opens ≡ replicate 64 None) }
{
    let mut opens = Channels::new(alloc);
    for _i in 0..64u32 {
        opens.push(None)?;
    }
    Ok(opens)
}

/// The catalogue that the blocks of a volume tell, of which there are at most 65,536. `leaked` is how many clusters are
/// neither free nor in a file. The system files are as the structure of a volume asks, the runs of all files lie inside the
/// whole clusters, and the index-file bitmap is inside the image. An error says that memory ran out.
#[tactic(auto, unfolding(crate::specs::Catalogues::catalogue))]
pub fn read_catalogue(
    alloc: Global,
    home: &Home,
    blocks: &[Block],
    leaked: u32,
) -> Result<Cat, NoMemory>
    requires limits { IsWithinLimits home.now }
    requires blocks { length blocks.now ≤ 65536 }
    requires there { 4 * home.now.cluster < length blocks.now }
    requires systems { HasSystemFiles (volume home.now blocks.now) }
    requires runs { HasAllRunsInside (volume home.now blocks.now) }
    requires leaked { leaked ≡ count_by (is_outside_cluster (volume home.now blocks.now)) (range_with_len 0 (total (volume home.now blocks.now))) }
    ensures { IfOk result (λ cat. cat ≡ catalogue (volume home.now blocks.now)) }
{
    let factor = u32::from(home.cluster);
    let files = files(alloc, home, blocks)?;
    let rows = active_rows(alloc, home, blocks)?;
    Ok(Cat {
        factor,
        total: blocks.len() as u32 / factor,
        reserved: reserved(files.items()),
        rows: 16 * size(home, blocks, 10),
        files,
        quota: sorted_rows(alloc, rows.as_slice())?,
        opens: no_opens(alloc)?,
        leaked,
        leaked_numbers: outside_numbers(alloc, home, blocks)?,
    })
}
