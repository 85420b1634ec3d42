//! The sums of a listing, and the whole of it.

ghost use Rattle.std.specs.Prelude.{◌≡◌, ◌≤◌, ◌++◌, length, map, is_some, is_none, IfOk, OnOk};
ghost use Rattle.std.specs.List.{sum_by};
ghost use Rattle.plain_rules.specs.Lookups.{file_at};
ghost use Rattle.plain_rules.specs.Mending.{places};
ghost use Rattle.vol_faults.specs.Places.{place_of, AreFirsts};
ghost use Rattle.vol_show.specs.Listing.{files_in, blocks_in, bytes_in, is_nameless, nameless_count, numbers, counts_text, space_text, rest_text, list_text};

use crate::lines::{blocks_of, first_entry, push_all_nameless, push_entries, size_of};
use plain_cat::{Cat, NoMemory, Slot};
use plain_rules::file_at;
use plain_texts::{push_bytes, push_count};
use std::alloc::Global;
use vol_faults::{Spot, all_firsts, spots};

// How many files there are.
fn count_files(cat: &Cat) -> usize
    requires { length cat.now.files ≤ 4096 }
    ensures { result ≡ sum_by files_in cat.now.files }
{
    let mut count = 0;
    for slot in cat.files.items() {
        if let Slot::Used(_) = slot {
            count += 1;
        }
    }
    count
}

// How many blocks a slot has.
fn blocks_in(cat: &Cat, slot: &Slot) -> usize
    requires { cat.now.factor ≤ 65535 }
    ensures value { result ≡ blocks_in cat.now slot.now }
    ensures most { result ≤ 281470681677825 }
{
    match slot {
        Slot::Used(f) => blocks_of(cat, f),
        Slot::Free(_) => 0,
    }
}

// How many blocks all files have.
fn sum_blocks(cat: &Cat) -> usize
    requires factor { cat.now.factor ≤ 65535 }
    requires few { length cat.now.files ≤ 4096 }
    ensures { result ≡ sum_by (blocks_in cat.now) cat.now.files }
{
    let mut sum = 0;
    for slot in cat.files.items() {
        sum += blocks_in(cat, slot);
    }
    sum
}

// How many bytes a slot has, where its file is no directory.
fn bytes_in(cat: &Cat, slot: &Slot) -> usize
    requires { cat.now.factor ≤ 65535 }
    ensures value { result ≡ bytes_in cat.now slot.now }
    ensures most { result ≤ 4398046511104 }
{
    match slot {
        Slot::Used(f) if !f.dir => size_of(cat, f),
        _ => 0,
    }
}

// How many bytes all files have.
fn sum_bytes(cat: &Cat) -> usize
    requires factor { cat.now.factor ≤ 65535 }
    requires few { length cat.now.files ≤ 4096 }
    ensures { result ≡ sum_by (bytes_in cat.now) cat.now.files }
{
    let mut sum = 0;
    for slot in cat.files.items() {
        sum += bytes_in(cat, slot);
    }
    sum
}

// Whether a number has a file that no entry names.
#[tactic(auto, unfolding(crate::specs::Listing::is_nameless))]
fn is_nameless(cat: &Cat, table: &[Option<Spot<'_>>], n: u32) -> bool
    requires { AreFirsts cat.now (places cat.now) table.now }
    ensures { result ≡ is_nameless cat.now n }
{
    file_at(cat, n).is_some() && first_entry(cat, table, n).is_none()
}

fn nameless_count(cat: &Cat, table: &[Option<Spot<'_>>], n: u32) -> usize
    requires { AreFirsts cat.now (places cat.now) table.now }
    ensures value { result ≡ nameless_count cat.now n }
    ensures most { result ≤ 1 }
{
    if is_nameless(cat, table, n) { 1 } else { 0 }
}

// How many files no entry names.
fn count_nameless(cat: &Cat, table: &[Option<Spot<'_>>]) -> usize
    requires few { length cat.now.files ≤ 4096 }
    requires firsts { AreFirsts cat.now (places cat.now) table.now }
    ensures { result ≡ sum_by (nameless_count cat.now) (numbers cat.now) }
{
    let mut count = 0;
    for n in 1..cat.files.items().len() as u32 + 1 {
        count += nameless_count(cat, table, n);
    }
    count
}

// Appends how many entries there are, and how many files.
#[tactic(auto, unfolding(crate::specs::Listing::counts_text))]
fn push_counts(alloc: Global, out: &mut Vec<u8>, cat: &Cat, entries: usize) -> Result<(), NoMemory>
    requires few { length cat.now.files ≤ 4096 }
    requires entries { entries ≡ length (places cat.now) }
    ensures { OnOk result (out.new.items ≡ out.old.items ++ counts_text cat.now) }
{
    push_count(alloc, out, entries)?;
    push_bytes(out, b" entries, ")?;
    push_count(alloc, out, count_files(cat))?;
    push_bytes(out, b" files, ")
}

// Appends the blocks and the bytes of all files.
#[tactic(auto, unfolding(crate::specs::Listing::space_text))]
fn push_space(alloc: Global, out: &mut Vec<u8>, cat: &Cat) -> Result<(), NoMemory>
    requires factor { cat.now.factor ≤ 65535 }
    requires few { length cat.now.files ≤ 4096 }
    ensures { OnOk result (out.new.items ≡ out.old.items ++ space_text cat.now) }
{
    push_count(alloc, out, sum_blocks(cat))?;
    push_bytes(out, b" blocks, ")?;
    push_count(alloc, out, sum_bytes(cat))?;
    push_bytes(out, b" bytes, ")
}

// Appends how many files have no name.
#[tactic(auto, unfolding(crate::specs::Listing::rest_text))]
fn push_rest(
    alloc: Global,
    out: &mut Vec<u8>,
    cat: &Cat,
    table: &[Option<Spot<'_>>],
) -> Result<(), NoMemory>
    requires few { length cat.now.files ≤ 4096 }
    requires firsts { AreFirsts cat.now (places cat.now) table.now }
    ensures { OnOk result (out.new.items ≡ out.old.items ++ rest_text cat.now) }
{
    push_count(alloc, out, count_nameless(cat, table))?;
    push_bytes(out, b" without a name\n")
}

/// The listing of a catalogue, which has at most 4,096 files and a cluster factor below 65,536: a line for each entry with its full
/// specification, by directory, name and falling version; one for each file that no entry names; and the sums. An error says that memory
/// ran out.
#[tactic(auto, unfolding(crate::specs::Listing::list_text))]
pub fn list(alloc: Global, cat: &Cat) -> Result<Vec<u8>, NoMemory>
    requires factor { cat.now.factor ≤ 65535 }
    requires few { length cat.now.files ≤ 4096 }
    ensures { IfOk result (λ text. text.items ≡ list_text cat.now) }
{
    let all = spots(alloc, cat)?;
    let table = all_firsts(alloc, cat, all.as_slice())?;
    let mut text = Vec::new(alloc);
    push_entries(alloc, &mut text, cat, table.as_slice(), all.as_slice())?;
    push_all_nameless(alloc, &mut text, cat, table.as_slice())?;
    push_counts(alloc, &mut text, cat, all.len())?;
    push_space(alloc, &mut text, cat)?;
    push_rest(alloc, &mut text, cat, table.as_slice())?;
    Ok(text)
}
