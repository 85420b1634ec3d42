//! What a command that makes a file needs between its directory and its plan: the quota blocks, clusters and a number, and that
//! number's slot.

ghost use Rattle.std.specs.Prelude.{◌≡◌, ◌≤◌, ℕ, List, IfOk};
ghost use Rattle.base_words.specs.Fields.{Block};
ghost use Rattle.plain_rules.specs.Lookups.{header_most};
ghost use Rattle.plain_rules.specs.Answers.{first_refusal};
ghost use Rattle.vol_parts.specs.Parts.{IsGeometry};
ghost use Rattle.vol_spell.specs.Reading.{IsFileNumber};
ghost use Rattle.op_law.specs.Events.{Events, Space, following, space_of};
ghost use Rattle.op_law.specs.Quotas.{rows_seen};
ghost use Rattle.op_law.specs.Behind.{goes_on_by, blocks_alone};
ghost use Rattle.op_create.specs.Given.{charge_refusals, through_slot, through_place, behind_place, IsSlotOf, IsPlace};
ghost use Rattle.op_steps.specs.Given.{IsOfVolume};

use crate::numbers::{Given, number_given};
use base_words::Block;
use lock_db::LockName;
use op_law::{
    Granted, Listed, Looked, Need, NoMemory, Rest, Seen, block_seen, header_lbn, lock_seen, refused,
};
use op_steps::{cost_of, quota_seen, rows_seen};
use plain_cat::{Mode, Refusal, Uic};
use plain_rules::{over_quota, row_of};
use std::alloc::Global;
use vol_parts::Geometry;

/// The place of a new file, where all is seen that comes before the plan.
#[derive(Drop)]
pub(crate) enum Place<'a> {
    /// The quota blocks with their LBNs, the number, the block of its slot, and what was seen behind it. The clusters are those
    /// that were seen.
    Slot(&'a [(u32, Block)], u32, &'a Block, Rest<'a>),

    /// It is not seen yet: what the command needs next.
    Next(Need),
}

// Why the owner does not get a file of so many clusters, if not.
fn charge_refusal(
    alloc: Global,
    g: &Geometry,
    quota: &[(u32, Block)],
    owner: Uic,
    clusters: u32,
) -> Result<Option<Refusal>, NoMemory>
    requires geometry { IsGeometry g.now }
    requires few { clusters ≤ header_most }
    ensures { IfOk result (λ r. r ≡ first_refusal (charge_refusals g.now owner clusters (rows_seen (blocks_alone quota.now)))) }
{
    let rows = rows_seen(alloc, quota)?;
    let row = row_of(rows.items(), owner);
    if row.is_none() {
        return Ok(Some(Refusal::NoQuota));
    }
    if over_quota(row, cost_of(g, clusters)) {
        return Ok(Some(Refusal::ExQuota));
    }
    Ok(None)
}

// The lock of the new number, and its slot.
fn slot_seen<'a>(g: &Geometry, quota: &'a [(u32, Block)], n: u32, rest: Rest<'a>) -> Place<'a>
    requires geometry { IsGeometry g.now }
    requires number { IsFileNumber g.now n }
    ensures slot { IsSlotOf quota.now n result }
    ensures need { (next : List Block → List ℕ → ℕ → Block → Events) (space : Space) → following (through_slot g.now n (next (blocks_alone quota.now) space.clusters n)) rest.entry.locks.now rest.entry.blocks.now space ≡ behind_place next space result }
{
    match lock_seen(LockName::S(n), Mode::PW, rest) {
        Granted::Next(need) => Place::Next(need),
        Granted::Held(behind) => {
            let lbn = header_lbn(g, n);
            match block_seen(LockName::S(n), lbn, behind) {
                Looked::Next(need) => Place::Next(need),
                Looked::Seen(slot, last) => Place::Slot(quota, n, slot, last),
            }
        }
    }
}

/// The quota, the space and the new slot, for a file of so many clusters, no more than one header has. An error says that memory ran out.
pub(crate) fn place_seen<'a>(
    alloc: Global,
    seen: &Seen,
    owner: Uic,
    clusters: u32,
    rest: Rest<'a>,
) -> Result<Place<'a>, NoMemory>
    requires geometry { IsGeometry seen.now.geometry }
    requires few { clusters ≤ header_most }
    requires within { IsOfVolume seen.now.geometry seen.now.clusters seen.now.number }
    ensures place { IfOk result (λ p. IsPlace seen.now.geometry clusters (space_of seen.now) p) }
    ensures need { IfOk result (λ p. (next : List Block → List ℕ → ℕ → Block → Events) → goes_on_by (through_place seen.now.geometry owner clusters next) rest.entry (space_of seen.now) ≡ behind_place next (space_of seen.now) p) }
{
    match quota_seen(&seen.geometry, Mode::PW, rest) {
        Listed::Next(need) => Ok(Place::Next(need)),
        Listed::All(quota, behind) => {
            let g = &seen.geometry;
            if let Some(why) = charge_refusal(alloc, g, quota, owner, clusters)? {
                return Ok(Place::Next(refused(alloc, why)));
            }
            match number_given(alloc, seen, clusters, behind) {
                Given::Next(need) => Ok(Place::Next(need)),
                Given::Number(n) => Ok(slot_seen(g, quota, n, behind)),
            }
        }
    }
}
