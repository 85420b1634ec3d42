//! What stands in a catalogue: files, quota rows and free clusters.

ghost use Rattle.std.specs.Prelude.{◌≡◌, ◌-◌, ◌+◌, ◌*◌, ◌≤◌, option_copied, drop, length};
ghost use Rattle.std.specs.List.{sum_by};
ghost use Rattle.plain_rules.specs.Lookups.{slot_at, file_at, in_use, live, row_of, clusters_in, free_clusters};

use plain_cat::{Cat, Fid, File, QuotaRow, Slot, Uic};

/// The slot of a number, or none if it is not one of the catalogue's.
pub fn slot_at(cat: &Cat, n: u32) -> Option<&Slot>
    ensures { option_copied result ≡ slot_at cat.now n }
{
    if n == 0 {
        return None;
    }
    cat.files.items().get(n as usize - 1)
}

/// The file under a number, or none where the number is free or not one of the catalogue's.
pub fn file_at(cat: &Cat, n: u32) -> Option<&File>
    ensures { option_copied result ≡ file_at cat.now n }
{
    match slot_at(cat, n) {
        Some(Slot::Used(file)) => Some(file),
        _ => None,
    }
}

/// The file in use under an identifier: its number has a file of its sequence.
pub fn in_use(cat: &Cat, fid: Fid) -> Option<&File>
    ensures { option_copied result ≡ in_use cat.now fid }
{
    match file_at(cat, fid.num) {
        Some(file) if file.seq == fid.seq => Some(file),
        _ => None,
    }
}

/// The live file under an identifier: the file in use, unless it is marked for delete.
pub fn live(cat: &Cat, fid: Fid) -> Option<&File>
    ensures { option_copied result ≡ live cat.now fid }
{
    match in_use(cat, fid) {
        Some(file) if !file.marked => Some(file),
        _ => None,
    }
}

/// The quota row of an owner.
pub fn row_of(rows: &[QuotaRow], owner: Uic) -> Option<QuotaRow>
    ensures { result ≡ row_of owner rows.now }
{
    for row in rows {
        if row.owner.0 == owner.0 {
            return Some(*row);
        }
    }
    None
}

pub(crate) fn clusters_in(slot: &Slot) -> u32
    ensures { result ≡ clusters_in slot.now }
{
    match slot {
        Slot::Used(file) => file.clusters,
        Slot::Free(_) => 0,
    }
}

// A number less the clusters of these slots.
fn less_clusters(all: u32, slots: &[Slot]) -> u32
    ensures { result ≡ all - sum_by clusters_in slots.now }
{
    let mut free = all;
    for slot in slots {
        free = free.saturating_sub(clusters_in(slot));
    }
    free
}

// The slots of the files that are no system files.
fn above_system(slots: &[Slot]) -> &[Slot]
    ensures { result.now ≡ drop 11 slots.now }
{
    if slots.len() < 11 { &[] } else { &slots[11..] }
}

/// The free clusters: those that no file has and that are not leaked.
pub fn free_clusters(cat: &Cat) -> u32
    ensures { result ≡ free_clusters cat.now }
{
    let all = cat
        .total
        .saturating_sub(cat.reserved)
        .saturating_sub(cat.leaked);
    less_clusters(all, above_system(cat.files.items()))
}
