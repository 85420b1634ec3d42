//! What a mending makes of a tidy catalogue, in place: nothing is searched for, and nothing is copied.

ghost use Rattle.std.specs.Prelude.{◌≡◌, ◌≤◌, ◌<◌, ◌*◌, ◌↔◌, false, All, IfOk, IsTrue, Some, length, map, slice_get, slice_set};
ghost use Rattle.std.specs.List.{count_by};
ghost use Rattle.plain_cat.specs.declared.cat.QuotaRow.{QuotaRow};
ghost use Rattle.plain_cat.specs.declared.cat.Slot.{Slot};
ghost use Rattle.plain_rules.specs.Accounts.{Accounted, charge};
ghost use Rattle.plain_rules.specs.Lookups.{clusters_in};
ghost use Rattle.plain_rules.specs.Mending.{is_true, summed_row, with_sums};
ghost use Rattle.plain_tidy.specs.Tidy.{is_marked_slot, less_marked, without_marked, tidied, tidy_counts};
ghost use Rattle.log_check.specs.Tidying.{IsSettled};

use crate::shutting::closed;
use plain_cat::{Cat, Files, Flags, Mended, NoMemory, QuotaRow, Slot};
use plain_rules::charge;
use std::alloc::Global;

// Whether a slot's file is marked for delete.
fn is_marked(slot: &Slot) -> bool
    ensures { result ≡ is_marked_slot slot.now }
{
    match slot {
        Slot::Used(file) => file.marked,
        Slot::Free(_) => false,
    }
}

// How many files are marked for delete.
fn marked_count(cat: &Cat) -> usize
    ensures { result ≡ count_by is_marked_slot cat.now.files }
{
    cat.files
        .items()
        .iter()
        .filter(|slot| is_marked(slot))
        .count()
}

// How many file numbers are leaked.
fn leaked_count(cat: &Cat) -> usize
    ensures { result ≡ count_by is_true cat.now.leaked_numbers }
{
    cat.leaked_numbers
        .items()
        .iter()
        .filter(|flag| **flag)
        .count()
}

// Frees a slot if its file is marked for delete.
fn free_if_marked(files: &mut Files, at: usize)
    requires { at < length files.old }
    ensures { (s : Slot) → slice_get files.old at ≡ Some s → files.new ≡ slice_set files.old at (less_marked s) }
{
    let seq = match &files.items()[at] {
        Slot::Used(file) if file.marked => file.seq,
        _ => return,
    };
    files.set(at, Slot::Free(seq));
}

// Frees the slots of the files that are marked for delete.
fn free_marked(files: &mut Files)
    ensures { files.new ≡ map less_marked files.old }
{
    for at in 0..files.items().len() {
        free_if_marked(files, at);
    }
}

// No file number is leaked.
fn clear_flags(flags: &mut Flags)
    ensures { flags.new ≡ map (λ b. false) flags.old }
{
    for at in 0..flags.items().len() {
        flags.set(at, false);
    }
}

// Sets the usage of a row to what its owner's files cost.
fn sum_row(cat: &mut Cat, at: usize)
    requires at { at < length cat.old.quota }
    requires numbers { length cat.old.files ≤ 4096 }
    requires sizes { All (λ (s : Slot). cat.old.factor * clusters_in s ≤ 65536) cat.old.files }
    ensures { (r : QuotaRow) → slice_get cat.old.quota at ≡ Some r → cat.new ≡ record cat.old { quota = slice_set cat.old.quota at (summed_row cat.old r) } }
{
    let row = cat.quota.items()[at];
    let usage = charge(cat, row.owner);
    cat.quota.set(at, QuotaRow { usage, ..row });
}

// Sets the usage of each row so.
fn sum_rows(cat: &mut Cat)
    requires numbers { length cat.old.files ≤ 4096 }
    requires sizes { All (λ (s : Slot). cat.old.factor * clusters_in s ≤ 65536) cat.old.files }
    ensures { cat.new ≡ with_sums cat.old }
{
    for at in 0..cat.quota.items().len() {
        sum_row(cat, at);
    }
}

// Frees the slots of the files that are marked for delete, and sums the usages anew if there are any.
fn drop_marked(cat: &mut Cat)
    requires accounted { Accounted cat.old }
    requires usage { All (λ (r : QuotaRow). r.usage ≡ charge cat.old r.owner) cat.old.quota }
    ensures { cat.new ≡ with_sums (without_marked cat.old) }
{
    if marked_count(cat) > 0 {
        free_marked(&mut cat.files);
        sum_rows(cat);
    }
}

/// Whether a mending of a tidy catalogue does just this.
pub(crate) fn does(cat: &Cat, counts: Mended) -> bool
    ensures { IsTrue result ↔ (counts ≡ tidy_counts cat.now) }
{
    counts.entered == 0
        && counts.removed == 0
        && counts.gone as usize == marked_count(cat)
        && counts.clusters == cat.leaked
        && counts.numbers as usize == leaked_count(cat)
}

/// What a mending makes of it.
pub(crate) fn tidied(alloc: Global, mut cat: Cat) -> Result<Cat, NoMemory>
    requires accounted { Accounted cat }
    requires settled { IsSettled cat }
    ensures { IfOk result (λ d. d ≡ tidied cat) }
{
    cat.opens = closed(alloc, &cat.opens)?;
    cat.leaked = 0;
    clear_flags(&mut cat.leaked_numbers);
    drop_marked(&mut cat);
    Ok(cat)
}
