//! Whether the entries of a directory pack into its blocks.

ghost use Rattle.std.specs.Prelude.{◌≡◌, ◌+◌, ◌≤◌, option_copied, None, Some, length, slice_get};
ghost use Rattle.std.specs.List.{insert};
ghost use Rattle.base_words.specs.Packing.{padded, cost, unfilled};
ghost use Rattle.plain_cat.specs.declared.entries.DirEnt.{DirEnt};
ghost use Rattle.plain_rules.specs.Directories.{fits, inserted};

use crate::directories::entry_place;
use plain_cat::{DirEnt, Name};

// The bytes of a record of its own, one version in it.
fn own_cost(name: &Name) -> usize
    ensures { result ≡ 14 + padded name.now }
{
    let length = name.items().len();
    14 + length + length % 2
}

// The bytes of an entry behind a record of the name `last`.
#[tactic(auto, unfolding(base_words::specs::Packing::cost))]
fn cost(last: Option<&Name>, name: &Name) -> usize
    ensures { result ≡ cost (option_copied last.entry) name.now }
{
    match last {
        Some(last) if last.is_same(name) => 8,
        _ => own_cost(name),
    }
}

// The entries for which a block has no room.
fn after_block(entries: &[DirEnt]) -> &[DirEnt]
    ensures { result.now ≡ unfilled (λ (e : DirEnt). e.name) None 0 entries.now }
{
    let mut last = None;
    let mut used = 0;
    for (i, e) in entries.iter().enumerate() {
        let more = cost(last, &e.name);
        if more > 510 - used {
            return &entries[i..];
        }
        used += more;
        last = Some(&e.name);
    }
    &[]
}

/// Whether the greedy packing puts these entries, by name and falling version, into k blocks of a directory: each in order
/// into the current block where its bytes fit in 510, else into the next. It takes no memory.
#[tactic(auto, unfolding(crate::specs::Directories::fits))]
pub fn dir_fits(ents: &[DirEnt], k: u32) -> bool
    ensures { result ≡ fits k ents.now }
{
    let mut left = ents;
    for _i in 0..k {
        left = after_block(left);
    }
    left.is_empty()
}

// What stands at place i of the entries once one more is put in at `at`.
fn entry_with<'a>(ents: &'a [DirEnt], at: usize, e: &'a DirEnt, i: usize) -> &'a DirEnt
    requires at { at ≤ length ents.now }
    requires within { i ≤ length ents.now }
    ensures { slice_get (insert ents.now at e.now) i ≡ Some result.now }
{
    if i < at {
        &ents[i]
    } else if i == at {
        e
    } else {
        &ents[i - 1]
    }
}

// Whether the packing puts these entries, with one more at `at`, into a block and `more` further ones.
fn packs_with(ents: &[DirEnt], at: usize, e: &DirEnt, more: u32) -> bool
    requires { at ≤ length ents.now }
    ensures { result ≡ fits (more + 1) (insert ents.now at e.now) }
{
    let mut last = None;
    let mut used = 0;
    let mut left = more;
    for i in 0..ents.len() + 1 {
        let name = &entry_with(ents, at, e, i).name;
        let behind = cost(last, name);
        if behind <= 510 - used {
            used += behind;
        } else {
            let alone = own_cost(name);
            if left == 0 || 510 < alone {
                return false;
            }
            left -= 1;
            used = alone;
        }
        last = Some(name);
    }
    true
}

/// The same of these entries with one more in its place in order. It takes no memory.
#[tactic(auto, using(crate::proofs::Packs::fits_none))]
pub fn fits_with(ents: &[DirEnt], e: &DirEnt, k: u32) -> bool
    ensures { result ≡ fits k (inserted e.now ents.now) }
{
    if k == 0 {
        return false;
    }
    packs_with(ents, entry_place(e, ents), e, k - 1)
}
