//! Whether two catalogues are the same, part by part.

ghost use Rattle.std.specs.Prelude.{◌≡◌, ◌↔◌, IsTrue};

use plain_cat::{Cat, DirEnt, File, Open, QuotaRow, Slot};

fn is_same_entry(a: &DirEnt, b: &DirEnt) -> bool
    ensures { IsTrue result ↔ (a.now ≡ b.now) }
{
    a.name.is_same(&b.name) && a.ver == b.ver && a.fid.num == b.fid.num && a.fid.seq == b.fid.seq
}

fn are_same_entries(a: &[DirEnt], b: &[DirEnt]) -> bool
    ensures { IsTrue result ↔ (a.now ≡ b.now) }
{
    match a {
        [] => b.is_empty(),
        [x, xs @ ..] => match b {
            [] => false,
            [y, ys @ ..] => is_same_entry(x, y) && are_same_entries(xs, ys),
        },
    }
}

fn is_same_block(a: &[u8; 512], b: &[u8; 512]) -> bool
    ensures { IsTrue result ↔ (a.now ≡ b.now) }
{
    a == b
}

fn are_same_blocks(a: &[[u8; 512]], b: &[[u8; 512]]) -> bool
    ensures { IsTrue result ↔ (a.now ≡ b.now) }
{
    match a {
        [] => b.is_empty(),
        [x, xs @ ..] => match b {
            [] => false,
            [y, ys @ ..] => is_same_block(x, y) && are_same_blocks(xs, ys),
        },
    }
}

fn is_same_file(a: &File, b: &File) -> bool
    ensures { IsTrue result ↔ (a.now ≡ b.now) }
{
    a.seq == b.seq
        && a.owner.0 == b.owner.0
        && a.dir == b.dir
        && a.clusters == b.clusters
        && a.mark == b.mark
        && a.end == b.end
        && a.byte == b.byte
        && a.marked == b.marked
        && are_same_blocks(a.written.items(), b.written.items())
        && are_same_entries(a.entries.items(), b.entries.items())
}

fn is_same_slot(a: &Slot, b: &Slot) -> bool
    ensures { IsTrue result ↔ (a.now ≡ b.now) }
{
    match (a, b) {
        (Slot::Used(file), Slot::Used(other)) => is_same_file(file, other),
        (Slot::Free(seq), Slot::Free(other)) => seq == other,
        _ => false,
    }
}

fn are_same_slots(a: &[Slot], b: &[Slot]) -> bool
    ensures { IsTrue result ↔ (a.now ≡ b.now) }
{
    match a {
        [] => b.is_empty(),
        [x, xs @ ..] => match b {
            [] => false,
            [y, ys @ ..] => is_same_slot(x, y) && are_same_slots(xs, ys),
        },
    }
}

fn is_same_row(a: &QuotaRow, b: &QuotaRow) -> bool
    ensures { IsTrue result ↔ (a.now ≡ b.now) }
{
    a.owner.0 == b.owner.0 && a.usage == b.usage && a.quota == b.quota && a.over == b.over
}

fn are_same_rows(a: &[QuotaRow], b: &[QuotaRow]) -> bool
    ensures { IsTrue result ↔ (a.now ≡ b.now) }
{
    match a {
        [] => b.is_empty(),
        [x, xs @ ..] => match b {
            [] => false,
            [y, ys @ ..] => is_same_row(x, y) && are_same_rows(xs, ys),
        },
    }
}

fn is_same_open(a: Option<Open>, b: Option<Open>) -> bool
    ensures { IsTrue result ↔ (a ≡ b) }
{
    match (a, b) {
        (Some(open), Some(other)) => open.file == other.file && open.mode == other.mode,
        (None, None) => true,
        _ => false,
    }
}

fn are_same_opens(a: &[Option<Open>], b: &[Option<Open>]) -> bool
    ensures { IsTrue result ↔ (a.now ≡ b.now) }
{
    match a {
        [] => b.is_empty(),
        [x, xs @ ..] => match b {
            [] => false,
            [y, ys @ ..] => is_same_open(*x, *y) && are_same_opens(xs, ys),
        },
    }
}

fn are_same_flags(a: &[bool], b: &[bool]) -> bool
    ensures { IsTrue result ↔ (a.now ≡ b.now) }
{
    match a {
        [] => b.is_empty(),
        [x, xs @ ..] => match b {
            [] => false,
            [y, ys @ ..] => *x == *y && are_same_flags(xs, ys),
        },
    }
}

/// Whether two catalogues are equal in each part.
pub(crate) fn is_same_cat(a: &Cat, b: &Cat) -> bool
    ensures { IsTrue result ↔ (a.now ≡ b.now) }
{
    a.factor == b.factor
        && a.total == b.total
        && a.reserved == b.reserved
        && a.rows == b.rows
        && a.leaked == b.leaked
        && are_same_slots(a.files.items(), b.files.items())
        && are_same_rows(a.quota.items(), b.quota.items())
        && are_same_opens(a.opens.items(), b.opens.items())
        && are_same_flags(a.leaked_numbers.items(), b.leaked_numbers.items())
}
