//! What a QUOTASET needs next.

ghost use Rattle.std.specs.Prelude.{◌≡◌, ◌≤◌, ◌<◌, ◌*◌, [], ◌∷◌, is_none, length, IfOk};
ghost use Rattle.plain_cat.specs.declared.history.Stage.TheVariants as stage;
ghost use Rattle.plain_cat.specs.declared.reply.Reply.TheVariants as reply;
ghost use Rattle.vol_parts.specs.Parts.{IsGeometry};
ghost use Rattle.op_law.specs.declared.need.Need.TheVariants as need;
ghost use Rattle.op_law.specs.Events.{next_of, space_of};
ghost use Rattle.op_law.specs.Writing.{plan_of, empty_handed};
ghost use Rattle.op_law.specs.Quotas.{row_place, row_write, quota_set_in, quota_set_events};
ghost use Rattle.vol_spell.specs.Rows.{is_row_of};
ghost use Rattle.op_law.specs.Behind.{goes_on_by, blocks_alone};

use crate::rows::free_row;
use base_words::Block;
use fx_quota::Row;
use op_law::{Listed, Need, NoMemory, Plan, Rest, Seen, Writes, refused};
use op_steps::{owner_row, push_row, quota_seen, row_there};
use plain_cat::{Clusters, Mode, Refusal, Reply, Stage, Uic};
use std::alloc::Global;
use vol_parts::Geometry;

// The plan that writes row j with these values.
fn row_kept(
    alloc: Global,
    g: &Geometry,
    quota: &[(u32, Block)],
    j: u32,
    row: &Row,
) -> Result<Need, NoMemory>
    requires geometry { IsGeometry g.now }
    requires few { length quota.now ≤ 16 }
    requires within { j < 16 * length quota.now }
    ensures { IfOk result (λ n. n ≡ need.Ready (plan_of (row_write g.now (blocks_alone quota.now) j row.now stage.Done empty_handed ∷ []) reply.QuotaKept)) }
{
    let mut writes = Writes::new(alloc);
    let none = Clusters::new(alloc);
    push_row(
        alloc,
        &mut writes,
        g,
        quota,
        j,
        row,
        Stage::Done,
        none,
        None,
    )?;
    Ok(Need::Ready(Plan {
        writes,
        ask: None,
        reply: Reply::QuotaKept,
    }))
}

// The plan, by the quota blocks: the owner's row, or else the first that is not active, is set.
fn quota_set_in(
    alloc: Global,
    seen: &Seen,
    quota: &[(u32, Block)],
    owner: Uic,
    limit: u32,
    over: u32,
    rest: Rest<'_>,
) -> Result<Need, NoMemory>
    requires geometry { IsGeometry seen.now.geometry }
    requires few { length quota.now ≤ 16 }
    ensures { IfOk result (λ n. n ≡ goes_on_by (quota_set_in seen.now.geometry (blocks_alone quota.now) owner limit over (row_place (is_row_of owner) (blocks_alone quota.now)) (row_place (λ r. is_none r) (blocks_alone quota.now))) rest.entry (space_of seen.now)) }
{
    let g = &seen.geometry;
    if let Some(j) = owner_row(quota, owner) {
        let old = row_there(quota, j);
        let row = Row {
            uic: old.uic,
            usage: old.usage,
            quota: limit,
            over,
        };
        return row_kept(alloc, g, quota, j, &row);
    }
    match free_row(quota) {
        Some(j) => {
            let row = Row {
                uic: owner.0,
                usage: 0,
                quota: limit,
                over,
            };
            row_kept(alloc, g, quota, j, &row)
        }
        None => Ok(refused(alloc, Refusal::QuotaFull)),
    }
}

/// What a QUOTASET needs next. An error says that memory ran out.
#[tactic(auto, unfolding(op_law::specs::Quotas::quota_set_events))]
pub(crate) fn quota_set_next(
    alloc: Global,
    owner: Uic,
    limit: u32,
    over: u32,
    seen: &Seen,
) -> Result<Need, NoMemory>
    requires { IsGeometry seen.now.geometry }
    ensures { IfOk result (λ n. n ≡ next_of (quota_set_events seen.now.geometry owner limit over) seen.now) }
{
    match quota_seen(&seen.geometry, Mode::PW, seen.all()) {
        Listed::Next(need) => Ok(need),
        Listed::All(quota, rest) => quota_set_in(alloc, seen, quota, owner, limit, over, rest),
    }
}
