//! Quotas: what an owner is charged, and whether a catalogue keeps its limits.

ghost use Rattle.std.specs.Prelude.{◌≡◌, ◌≤◌, ◌+◌, ◌*◌, ◌↔◌, ◌<◌, IsTrue, All, Option, length};
ghost use Rattle.plain_cat.specs.declared.cat.Slot.{Slot};
ghost use Rattle.plain_cat.specs.declared.cat.QuotaRow.{QuotaRow};
ghost use Rattle.plain_rules.specs.Answers.{over_quota};
ghost use Rattle.plain_rules.specs.Lookups.{clusters_in};
ghost use Rattle.plain_rules.specs.Accounts.{share, charge, HasRow, IsCharged, Accounted};

use crate::lookups;
use plain_cat::{Cat, QuotaRow, Slot, Uic};

// What a slot's file costs an owner.
fn share(cat: &Cat, owner: Uic, slot: &Slot) -> u32
    requires { cat.now.factor * clusters_in slot.now ≤ 65536 }
    ensures value { result ≡ share cat.now owner slot.now }
    ensures bound { result ≤ 65537 }
{
    match slot {
        Slot::Used(file) if owner.0 == file.owner.0 => cat.factor * file.clusters + 1,
        _ => 0,
    }
}

/// What all files of an owner cost.
pub fn charge(cat: &Cat, owner: Uic) -> u32
    requires numbers { length cat.now.files ≤ 4096 }
    requires sizes { All (λ (s : Slot). cat.now.factor * clusters_in s ≤ 65536) cat.now.files }
    ensures { result ≡ charge cat.now owner }
{
    let mut sum = 0;
    for slot in cat.files.items() {
        sum += share(cat, owner, slot);
    }
    sum
}

fn is_sized(cat: &Cat, slot: &Slot) -> bool
    ensures { IsTrue result ↔ (cat.now.factor * clusters_in slot.now ≤ 65536) }
{
    cat.factor as u64 * (lookups::clusters_in(slot) as u64) <= 65536
}

fn are_sized(cat: &Cat) -> bool
    ensures { IsTrue result ↔ All (λ (s : Slot). cat.now.factor * clusters_in s ≤ 65536) cat.now.files }
{
    cat.files.items().iter().all(|slot| is_sized(cat, slot))
}

fn has_row(cat: &Cat, slot: &Slot) -> bool
    ensures { IsTrue result ↔ HasRow cat.now.quota slot.now }
{
    match slot {
        Slot::Used(file) => lookups::row_of(cat.quota.items(), file.owner).is_some(),
        Slot::Free(_) => true,
    }
}

fn have_rows(cat: &Cat) -> bool
    ensures { IsTrue result ↔ All (HasRow cat.now.quota) cat.now.files }
{
    cat.files.items().iter().all(|slot| has_row(cat, slot))
}

fn is_charged(cat: &Cat, row: &QuotaRow) -> bool
    requires numbers { length cat.now.files ≤ 4096 }
    requires sizes { All (λ (s : Slot). cat.now.factor * clusters_in s ≤ 65536) cat.now.files }
    ensures { IsTrue result ↔ IsCharged cat.now row.now }
{
    let all = charge(cat, row.owner) as u64;
    let usage = row.usage as u64;
    all <= usage && usage <= all + 1000000
}

fn are_charged(cat: &Cat) -> bool
    requires numbers { length cat.now.files ≤ 4096 }
    requires sizes { All (λ (s : Slot). cat.now.factor * clusters_in s ≤ 65536) cat.now.files }
    ensures { IsTrue result ↔ All (IsCharged cat.now) cat.now.quota }
{
    for row in cat.quota.items() {
        if !is_charged(cat, row) {
            return false;
        }
    }
    true
}

/// Whether a catalogue keeps the limits of a volume and its quotas are in order, as `check_reply` needs it: each owner of a
/// file has a quota row, and the usage of each row is what its owner's files cost, or at most 1,000,000 blocks more.
pub fn is_accounted(cat: &Cat) -> bool
    ensures { IsTrue result ↔ Accounted cat.now }
{
    1 <= cat.factor
        && cat.factor <= 16
        && cat.files.items().len() <= 4096
        && are_sized(cat)
        && have_rows(cat)
        && are_charged(cat)
}

/// Whether the usage of a row and these blocks exceed the quota.
pub fn over_quota(row: Option<QuotaRow>, k: u32) -> bool
    ensures { result ≡ over_quota row k }
{
    match row {
        Some(row) => (row.quota as u64) < row.usage as u64 + k as u64,
        None => false,
    }
}
