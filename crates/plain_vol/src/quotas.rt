//! QUOTASET.

ghost use Rattle.std.specs.Prelude.{◌≡◌, IfOk};
ghost use Rattle.plain_rules.specs.Answers.{quota_set_outcome};

use crate::changes::{add_row, allow};
use crate::outcomes::{refused, told};
use plain_cat::{Cat, NoMemory, QuotaRow, Refusal, Reply, Uic};
use plain_rules::{Outcome, row_of};
use std::alloc::Global;

// QUOTASET
#[tactic(auto, unfolding(plain_rules::specs::Answers::quota_set_outcome))]
pub(crate) fn quota_set(
    alloc: Global,
    mut cat: Cat,
    owner: Uic,
    quota: u32,
    over: u32,
) -> Result<Outcome, NoMemory>
    ensures { IfOk result (λ o. o ≡ quota_set_outcome cat owner quota over) }
{
    if row_of(cat.quota.items(), owner).is_some() {
        allow(alloc, &mut cat, owner, quota, over)?;
        return Ok(told(cat, Reply::QuotaKept));
    }
    if cat.rows as usize <= cat.quota.items().len() {
        return Ok(refused(cat, Refusal::QuotaFull));
    }
    let row = QuotaRow {
        owner,
        usage: 0,
        quota,
        over,
    };
    add_row(&mut cat, row)?;
    Ok(told(cat, Reply::QuotaKept))
}
