//! The quota blocks: what they show, and the write of an owner's row.

ghost use Rattle.std.specs.Prelude.{◌≡◌, ◌≤◌, ◌<◌, ◌*◌, ◌%◌, ◌++◌, [], ◌∷◌, List, Some, true, is_some, length, slice_get, IfOk, IfSome, OnOk, OnErr};
ghost use Rattle.base_words.specs.Fields.{Block};
ghost use Rattle.fx_quota.specs.Rows.{row_in};
ghost use Rattle.plain_cat.specs.declared.history.Stage.TheVariants as stage;
ghost use Rattle.vol_parts.specs.Parts.{IsGeometry};
ghost use Rattle.vol_spell.specs.Reading.{quota_places};
ghost use Rattle.op_law.specs.Events.{Events, Space, following};
ghost use Rattle.op_law.specs.Writing.{holding, empty_handed};
ghost use Rattle.op_law.specs.Quotas.{through_quota, rows_seen, row_place, row_write, owner_write, row_charged, row_discharged};
ghost use Rattle.vol_spell.specs.Rows.{block_with};
ghost use Rattle.vol_spell.specs.Rows.{row_seen};
ghost use Rattle.vol_spell.specs.Rows.{is_row_of};
ghost use Rattle.op_law.specs.Behind.{behind_all, blocks_alone, FollowsBy, FollowsAll, HasAtMost};

use base_words::Block;
use fx_quota::{Row, row, set_row};
use lock_db::LockName;
use op_law::{Granted, Listed, NoMemory, Numbers, PlanWrite, Rest, Writes, blocks_seen, lock_seen};
use plain_cat::{Clusters, Mode, QuotaRows, Stage, Uic};
use std::alloc::Global;
use vol_parts::{Geometry, push_rows, sorted_rows};

// The LBN of a quota block, which counts from 0, or none where there are fewer.
fn quota_lbn(g: &Geometry, at: usize) -> Option<u32>
    requires { IsGeometry g.now }
    ensures { result ≡ slice_get (quota_places g.now) at }
{
    if at < g.cluster as usize {
        Some(g.quota_lbn + at as u32)
    } else {
        None
    }
}

/// The quota blocks, behind the lock Q in this mode. It takes no memory.
pub fn quota_seen<'a>(g: &Geometry, mode: Mode, rest: Rest<'a>) -> Listed<'a>
    requires { IsGeometry g.now }
    ensures few { HasAtMost g.now.cluster result }
    ensures need { (next : List Block → Events) (space : Space) → following (through_quota g.now mode next) rest.entry.locks.now rest.entry.blocks.now space ≡ behind_all next space result }
    ensures follows { (next : List Block → Events) (space : Space) → FollowsBy (through_quota g.now mode next) rest.entry space → FollowsAll next space result }
{
    match lock_seen(LockName::Q, mode, rest) {
        Granted::Next(need) => Listed::Next(need),
        Granted::Held(behind) => blocks_seen(
            LockName::Q,
            g.cluster as usize,
            quota_lbn(g, behind.blocks.len()),
            behind,
        ),
    }
}

/// The active rows that quota blocks tell, in order of owner. An error says that memory ran out.
pub fn rows_seen(alloc: Global, quota: &[(u32, Block)]) -> Result<QuotaRows, NoMemory>
    ensures { IfOk result (λ rows. rows ≡ rows_seen (blocks_alone quota.now)) }
{
    let mut all = Vec::new(alloc);
    for (_, block) in quota {
        push_rows(&mut all, block)?;
    }
    sorted_rows(alloc, all.as_slice())
}

// Row j, which counts from 0 through all of these blocks, or none where it is not active.
fn row_seen(quota: &[(u32, Block)], j: u32) -> Option<Row>
    requires { j < 16 * length quota.now }
    ensures { result ≡ row_seen (blocks_alone quota.now) j }
{
    row(&quota[(j / 16) as usize].1, j % 16)
}

// Whether a row is active and this owner's.
fn is_row_of(owner: Uic, row: Option<Row>) -> bool
    ensures { result ≡ is_row_of owner row }
{
    match row {
        Some(r) => r.uic == owner.0,
        None => false,
    }
}

/// The place of an owner's row, which counts from 0 through at most 16 quota blocks, or none where the owner has no row.
#[tactic(auto, unfolding(op_law::specs::Quotas::row_place))]
pub fn owner_row(quota: &[(u32, Block)], owner: Uic) -> Option<u32>
    requires { length quota.now ≤ 16 }
    ensures place { result ≡ row_place (is_row_of owner) (blocks_alone quota.now) }
    ensures within { IfSome result (λ j. j < 16 * length quota.now) }
    ensures active { IfSome result (λ j. is_some (row_seen (blocks_alone quota.now) j) ≡ true) }
{
    let count = 16 * quota.len() as u32;
    for j in 0..count {
        if is_row_of(owner, row_seen(quota, j)) {
            return Some(j);
        }
    }
    None
}

/// What row j says, which is active.
pub fn row_there(quota: &[(u32, Block)], j: u32) -> Row
    requires within { j < 16 * length quota.now }
    requires active { is_some (row_seen (blocks_alone quota.now) j) ≡ true }
    ensures { result ≡ row_in (block_with (blocks_alone quota.now) j) (j % 16) }
{
    match row_seen(quota, j) {
        Some(r) => r,
        None => unreachable!(),
    }
}

/// Adds the write that makes row j active with these values, which leaves this stage; these clusters and this number are outside
/// then. If memory runs out, the writes are as they were.
pub fn push_row(
    alloc: Global,
    writes: &mut Writes,
    g: &Geometry,
    quota: &[(u32, Block)],
    j: u32,
    row: &Row,
    stage: Stage,
    clusters: Clusters,
    number: Option<u32>,
) -> Result<(), NoMemory>
    requires geometry { IsGeometry g.now }
    requires few { length quota.now ≤ 16 }
    requires within { j < 16 * length quota.now }
    ensures ok { OnOk result (writes.new ≡ writes.old ++ row_write g.now (blocks_alone quota.now) j row.now stage (holding clusters number) ∷ []) }
    ensures err { OnErr result (writes.new ≡ writes.old) }
{
    let mut block = quota[(j / 16) as usize].1;
    set_row(&mut block, j % 16, row);
    writes.push(PlanWrite {
        lock: LockName::Q,
        lbn: g.quota_lbn + j / 16,
        block,
        stage,
        clusters,
        numbers: Numbers::new(alloc),
        number,
    })
}

/// Adds the write that charges an owner with k blocks more, where the owner has a row; these clusters and this number are
/// outside then. The usage has 32 bits. If memory runs out, the writes are as they were.
#[tactic(auto, unfolding(op_law::specs::Quotas::owner_write))]
pub fn push_charge(
    alloc: Global,
    writes: &mut Writes,
    g: &Geometry,
    quota: &[(u32, Block)],
    owner: Uic,
    k: u32,
    clusters: &Clusters,
    number: Option<u32>,
) -> Result<(), NoMemory>
    requires geometry { IsGeometry g.now }
    requires few { length quota.now ≤ 16 }
    ensures ok { OnOk result (writes.new ≡ writes.old ++ owner_write g.now (blocks_alone quota.now) owner (row_charged k) stage.Charged (holding clusters.now number)) }
    ensures err { OnErr result (writes.new ≡ writes.old) }
{
    let Some(j) = owner_row(quota, owner) else {
        return Ok(());
    };
    let r = row_there(quota, j);
    let charged = Row {
        uic: r.uic,
        usage: r.usage.wrapping_add(k),
        quota: r.quota,
        over: r.over,
    };
    let outside = clusters.copy(alloc)?;
    push_row(
        alloc,
        writes,
        g,
        quota,
        j,
        &charged,
        Stage::Charged,
        outside,
        number,
    )
}

/// Adds the write that charges an owner with k blocks less, where the owner has a row, which is the last of its command. If
/// memory runs out, the writes are as they were.
#[tactic(auto, unfolding(op_law::specs::Quotas::owner_write))]
pub fn push_discharge(
    alloc: Global,
    writes: &mut Writes,
    g: &Geometry,
    quota: &[(u32, Block)],
    owner: Uic,
    k: u32,
) -> Result<(), NoMemory>
    requires geometry { IsGeometry g.now }
    requires few { length quota.now ≤ 16 }
    ensures ok { OnOk result (writes.new ≡ writes.old ++ owner_write g.now (blocks_alone quota.now) owner (row_discharged k) stage.Done empty_handed) }
    ensures err { OnErr result (writes.new ≡ writes.old) }
{
    let Some(j) = owner_row(quota, owner) else {
        return Ok(());
    };
    let r = row_there(quota, j);
    let discharged = Row {
        uic: r.uic,
        usage: r.usage.saturating_sub(k),
        quota: r.quota,
        over: r.over,
    };
    let none = Clusters::new(alloc);
    push_row(
        alloc,
        writes,
        g,
        quota,
        j,
        &discharged,
        Stage::Done,
        none,
        None,
    )
}
