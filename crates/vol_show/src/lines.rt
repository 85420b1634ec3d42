//! The lines of a listing.

ghost use Rattle.std.specs.Prelude.{true, codes, ◌≡◌, ◌≤◌, ◌<◌, ◌+◌, ◌-◌, ◌*◌, ◌++◌, length, take, map, flat_map, is_none, Some, IfOk, OnOk, option_map};
ghost use Rattle.std.specs.List.{sum_by};
ghost use Rattle.plain_rules.specs.Lookups.{slot_at, last_seq, file_at, in_use};
ghost use Rattle.plain_rules.specs.Mending.{places};
ghost use Rattle.vol_faults.specs.Places.{place_of, place_in, first_in, AreFirsts};
ghost use Rattle.vol_records.specs.Streams.{end_at};
ghost use Rattle.vol_show.specs.Showing.{blocks_of, size_of};
ghost use Rattle.vol_show.specs.Listing.{is_dir_entry, dir_word, path, dir_text, spec_text, size_text, mark_text, file_text, use_text, entry_line, nameless_text, numbers};

use plain_cat::{Cat, DirEnt, Fid, File, NoMemory, Slot};
use plain_rules::{file_at, in_use, slot_at};
use plain_texts::{push_bytes, push_count, push_entry, push_fid, push_number, push_uic};
use std::alloc::Global;
use vol_faults::Spot;

// The first entry of the file of a number. The table has the first entries of all files.
pub(crate) fn first_entry<'a>(cat: &Cat, table: &[Option<Spot<'a>>], n: u32) -> Option<Spot<'a>>
    requires { AreFirsts cat.now (places cat.now) table.now }
    ensures { place_in result ≡ first_in (places cat.now) n (file_at cat.now n) }
{
    if n == 0 || n as usize > table.len() {
        return None;
    }
    table[n as usize - 1]
}

// Whether an entry is one as a directory has.
#[tactic(auto, unfolding(crate::specs::Listing::is_dir_entry))]
fn is_dir_entry(e: &DirEnt) -> bool
    ensures value { result ≡ is_dir_entry e.now }
    ensures long { result ≡ true → 4 < length e.now.name }
{
    let name = e.name.items();
    e.ver == 1 && name.len() > 4 && &name[name.len() - 4..] == b".DIR".as_slice()
}

// The word of a directory's entry.
#[tactic(auto, unfolding(crate::specs::Listing::dir_word))]
fn dir_word(e: &DirEnt) -> &[u8]
    requires { 4 < length e.now.name }
    ensures { result.now ≡ dir_word e.now }
{
    let name = e.name.items();
    &name[..name.len() - 4]
}

// A way, if there is one, and one word more.
fn with_word(up: Option<Vec<u8>>, word: &[u8]) -> Result<Option<Vec<u8>>, NoMemory>
    ensures { IfOk result (λ t. option_map (λ v. v.items) t ≡ option_map (λ x. x ++ (codes "." ++ word.now)) (option_map (λ v. v.items) up)) }
{
    let Some(mut text) = up else {
        return Ok(None);
    };
    push_bytes(&mut text, b".")?;
    push_bytes(&mut text, word)?;
    Ok(Some(text))
}

// The way to a directory, of at most so many words, where there is one.
fn path(
    alloc: Global,
    cat: &Cat,
    table: &[Option<Spot<'_>>],
    most: u32,
    n: u32,
) -> Result<Option<Vec<u8>>, NoMemory>
    requires { AreFirsts cat.now (places cat.now) table.now }
    ensures { IfOk result (λ t. option_map (λ v. v.items) t ≡ path cat.now most n) }
{
    if most == 0 {
        return Ok(None);
    }
    let Some(spot) = first_entry(cat, table, n) else {
        return Ok(None);
    };
    if !is_dir_entry(spot.entry) {
        return Ok(None);
    }
    let word = dir_word(spot.entry);
    if spot.dir == 4 {
        return Ok(Some(Vec::from_slice(alloc, word)?));
    }
    let up = path(alloc, cat, table, most - 1, spot.dir)?;
    Ok(with_word(up, word)?)
}

// The last sequence of a number.
fn last_seq(cat: &Cat, n: u32) -> u16
    ensures { result ≡ last_seq (slot_at cat.now n) }
{
    match slot_at(cat, n) {
        Some(Slot::Used(file)) => file.seq,
        Some(Slot::Free(seq)) => *seq,
        None => 0,
    }
}

// Appends what stands between the brackets of a specification.
#[tactic(auto, unfolding(crate::specs::Listing::dir_text))]
fn push_dir(
    alloc: Global,
    out: &mut Vec<u8>,
    cat: &Cat,
    table: &[Option<Spot<'_>>],
    n: u32,
) -> Result<(), NoMemory>
    requires { AreFirsts cat.now (places cat.now) table.now }
    ensures { OnOk result (out.new.items ≡ out.old.items ++ dir_text cat.now n) }
{
    if let Some(text) = path(alloc, cat, table, 8, n)? {
        return push_bytes(out, text.as_slice());
    }
    push_number(alloc, out, n)?;
    push_bytes(out, b",")?;
    push_number(alloc, out, u32::from(last_seq(cat, n)))?;
    push_bytes(out, b",0")
}

// Appends the full specification of an entry.
#[tactic(auto, unfolding(crate::specs::Listing::spec_text))]
fn push_spec(
    alloc: Global,
    out: &mut Vec<u8>,
    cat: &Cat,
    table: &[Option<Spot<'_>>],
    spot: &Spot<'_>,
) -> Result<(), NoMemory>
    requires { AreFirsts cat.now (places cat.now) table.now }
    ensures { OnOk result (out.new.items ≡ out.old.items ++ spec_text cat.now (place_of spot.now)) }
{
    push_bytes(out, b"[")?;
    push_dir(alloc, out, cat, table, spot.dir)?;
    push_bytes(out, b"]")?;
    push_entry(alloc, out, &spot.entry.name, spot.entry.ver)
}

// How many blocks a file has.
pub(crate) fn blocks_of(cat: &Cat, f: &File) -> usize
    requires { cat.now.factor ≤ 65535 }
    ensures value { result ≡ blocks_of cat.now f.now }
    ensures most { result ≤ 281470681677825 }
{
    f.clusters as usize * cat.factor as usize
}

// How many bytes stand before the end of a file.
#[tactic(auto, unfolding(vol_records::specs::Streams::end_at))]
fn end_at(end: u32, byte: u16) -> usize
    ensures value { result ≡ end_at end byte }
    ensures most { result ≤ 4398046511104 }
{
    if end == 0 {
        return 0;
    }
    512 * (end as usize - 1) + usize::from(byte)
}

// How many bytes a file has.
#[tactic(auto, unfolding(crate::specs::Showing::size_of))]
pub(crate) fn size_of(cat: &Cat, f: &File) -> usize
    requires { cat.now.factor ≤ 65535 }
    ensures value { result ≡ size_of cat.now f.now }
    ensures most { result ≤ 4398046511104 }
{
    end_at(f.end, f.byte).min(512 * blocks_of(cat, f))
}

// Appends how many bytes a file has, or that it is a directory, and whether it is marked for delete.
fn push_size(alloc: Global, out: &mut Vec<u8>, cat: &Cat, f: &File) -> Result<(), NoMemory>
    requires { cat.now.factor ≤ 65535 }
    ensures { OnOk result (out.new.items ≡ out.old.items ++ size_text cat.now f.now) }
{
    if f.dir {
        return push_bytes(out, b"directory");
    }
    push_count(alloc, out, size_of(cat, f))?;
    push_bytes(out, b" bytes")
}

fn push_mark(out: &mut Vec<u8>, f: &File) -> Result<(), NoMemory>
    ensures { OnOk result (out.new.items ≡ out.old.items ++ mark_text f.now) }
{
    if f.marked {
        push_bytes(out, b", marked")
    } else {
        Ok(())
    }
}

// Appends the owner of a file, its blocks and its bytes.
#[tactic(auto, unfolding(crate::specs::Listing::file_text))]
fn push_file(alloc: Global, out: &mut Vec<u8>, cat: &Cat, f: &File) -> Result<(), NoMemory>
    requires { cat.now.factor ≤ 65535 }
    ensures { OnOk result (out.new.items ≡ out.old.items ++ file_text cat.now f.now) }
{
    push_bytes(out, b" ")?;
    push_uic(alloc, out, f.owner)?;
    push_bytes(out, b" ")?;
    push_count(alloc, out, blocks_of(cat, f))?;
    push_bytes(out, b" blocks, ")?;
    push_size(alloc, out, cat, f)?;
    push_mark(out, f)
}

// Appends what a file in use has, or that there is none.
fn push_use(alloc: Global, out: &mut Vec<u8>, cat: &Cat, fid: Fid) -> Result<(), NoMemory>
    requires { cat.now.factor ≤ 65535 }
    ensures { OnOk result (out.new.items ≡ out.old.items ++ use_text cat.now (in_use cat.now fid)) }
{
    match in_use(cat, fid) {
        Some(f) => push_file(alloc, out, cat, f),
        None => push_bytes(out, b" no file"),
    }
}

// Appends the line of an entry.
#[tactic(auto, unfolding(crate::specs::Listing::entry_line))]
fn push_entry_line(
    alloc: Global,
    out: &mut Vec<u8>,
    cat: &Cat,
    table: &[Option<Spot<'_>>],
    spot: &Spot<'_>,
) -> Result<(), NoMemory>
    requires factor { cat.now.factor ≤ 65535 }
    requires firsts { AreFirsts cat.now (places cat.now) table.now }
    ensures { OnOk result (out.new.items ≡ out.old.items ++ entry_line cat.now (place_of spot.now)) }
{
    push_spec(alloc, out, cat, table, spot)?;
    push_bytes(out, b" ")?;
    push_fid(alloc, out, spot.entry.fid)?;
    push_use(alloc, out, cat, spot.entry.fid)?;
    push_bytes(out, b"\n")
}

// Appends the lines of entries.
pub(crate) fn push_entries(
    alloc: Global,
    out: &mut Vec<u8>,
    cat: &Cat,
    table: &[Option<Spot<'_>>],
    all: &[Spot<'_>],
) -> Result<(), NoMemory>
    requires factor { cat.now.factor ≤ 65535 }
    requires firsts { AreFirsts cat.now (places cat.now) table.now }
    ensures { OnOk result (out.new.items ≡ out.old.items ++ flat_map (entry_line cat.now) (map place_of all.now)) }
{
    for spot in all {
        push_entry_line(alloc, out, cat, table, spot)?;
    }
    Ok(())
}

// Appends the line of a number, if it has a file that no entry names.
#[tactic(auto, unfolding(crate::specs::Listing::nameless_text))]
fn push_nameless(
    alloc: Global,
    out: &mut Vec<u8>,
    cat: &Cat,
    table: &[Option<Spot<'_>>],
    n: u32,
) -> Result<(), NoMemory>
    requires factor { cat.now.factor ≤ 65535 }
    requires firsts { AreFirsts cat.now (places cat.now) table.now }
    ensures { OnOk result (out.new.items ≡ out.old.items ++ nameless_text cat.now n) }
{
    let Some(f) = file_at(cat, n) else {
        return Ok(());
    };
    if first_entry(cat, table, n).is_some() {
        return Ok(());
    }
    push_fid(alloc, out, Fid { num: n, seq: f.seq })?;
    push_file(alloc, out, cat, f)?;
    push_bytes(out, b", no name\n")
}

// Appends the lines of all files that no entry names.
pub(crate) fn push_all_nameless(
    alloc: Global,
    out: &mut Vec<u8>,
    cat: &Cat,
    table: &[Option<Spot<'_>>],
) -> Result<(), NoMemory>
    requires factor { cat.now.factor ≤ 65535 }
    requires few { length cat.now.files ≤ 4096 }
    requires firsts { AreFirsts cat.now (places cat.now) table.now }
    ensures { OnOk result (out.new.items ≡ out.old.items ++ flat_map (nameless_text cat.now) (numbers cat.now)) }
{
    for n in 1..cat.files.items().len() as u32 + 1 {
        push_nameless(alloc, out, cat, table, n)?;
    }
    Ok(())
}
