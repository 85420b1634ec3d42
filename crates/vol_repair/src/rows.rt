//! Step 4: of two rows of an owner the first stays, and [1,1] has one.

ghost use Rattle.std.specs.Prelude.{◌≡◌, ◌==◌, ◌+◌, ◌*◌, ◌/◌, ◌<◌, List, Some, None, Err, length, IfOk, OnOk};
ghost use Rattle.std.specs.List.{list_any};
ghost use Rattle.base_words.specs.Fields.{Block};
ghost use Rattle.fx_home.specs.Homes.{IsWithinLimits};
ghost use Rattle.fx_quota.specs.Rows.{IsRowPut};
ghost use Rattle.vol_faults.specs.Conditions.{IsSize};
ghost use Rattle.vol_parts.specs.Volumes.{volume, quota_lbn};
ghost use Rattle.vol_sound.specs.Begun.{system_row};
ghost use Rattle.vol_repair.specs.Phases.{IsBeforeRows, IsAfterRows};
ghost use Rattle.vol_repair.specs.Rows.{numbered_row, IsRowSet, IsRowSettled, AreRowsSettled, IsSystemPlace};
ghost use Rattle.vol_repair.specs.Steps.{IsStep};
ghost use Rattle.vol_repair.specs.Touched.{IsTouched, IsGround};

use crate::fault::StepFault;
use crate::laws::touching_is_easy;
use crate::making::{block_is_whole, make_other};
use base_words::Block;
use blk_drive::{ImageDev, Mirror};
use fx_home::Home;
use fx_quota::{Row, clear_row, row, set_row};
use std::alloc::Global;
use vol_init::SYSTEM_OWNER;
use vol_parts::first_lbn;

// How many rows the quota file has.
fn row_count(home: &Home) -> u32
    requires { IsWithinLimits home.now }
    ensures { result ≡ 16 * home.now.cluster }
{
    16 * u32::from(home.cluster)
}

// Where the block of row `j` stands, which counts from 0 through all quota blocks.
fn row_lbn<I: ImageDev>(m: &Mirror<I>, home: &Home, j: u32) -> u32
    requires limits { IsWithinLimits home.now }
    requires size { IsSize (length m.now.blocks) }
    requires before { (first : List Block) × IsGround home.now first m.now.blocks }
    requires row { j < 16 * home.now.cluster }
    ensures inside { result < length m.now.blocks }
    ensures place { result ≡ quota_lbn (volume home.now m.now.blocks) + j / 16 }
{
    first_lbn(home, m.all(), 10) + j / 16
}

// What row `j` says, or none where it is not active.
fn numbered_row<I: ImageDev>(m: &Mirror<I>, home: &Home, j: u32) -> Option<Row>
    requires limits { IsWithinLimits home.now }
    requires size { IsSize (length m.now.blocks) }
    requires before { (first : List Block) × IsGround home.now first m.now.blocks }
    requires row { j < 16 * home.now.cluster }
    ensures { result ≡ numbered_row home.now m.now.blocks j }
{
    row(m.read(row_lbn(m, home, j)), j % 16)
}

// The block in which row `i`, 0 to 15, is this one, or not active.
fn with_row(old: &Block, i: u32, new: Option<Row>) -> Block
    requires { i < 16 }
    ensures { IsRowPut old.now result i new }
{
    let mut b = *old;
    match new {
        Some(r) => set_row(&mut b, i, &r),
        None => clear_row(&mut b, i),
    }
    b
}

// Writes row `j`: it becomes this one, or is not active any more.
fn write_row<I: ImageDev>(
    m: &mut Mirror<I>,
    home: &Home,
    j: u32,
    new: Option<Row>,
) -> Result<(), StepFault>
    requires limits { IsWithinLimits home.now }
    requires size { IsSize (length m.old.blocks) }
    requires before { (first : List Block) × IsGround home.now first m.old.blocks }
    requires row { j < 16 * home.now.cluster }
    ensures step { (first : List Block) → IsGround home.now first m.old.blocks
        → IsStep (IsTouched home.now first) m.old.blocks m.new.blocks (I.told m.old.image) (I.told m.new.image) (I.faults m.old.image) (I.faults m.new.image) (result ≡ Err StepFault.ImageFault) }
    ensures ok { (first : List Block) → IsGround home.now first m.old.blocks → OnOk result (IsRowSet home.now first m.old.blocks m.new.blocks j new) }
{
    touching_is_easy();
    let lbn = row_lbn(m, home, j);
    let b = with_row(m.read(lbn), j % 16, new);
    block_is_whole(b);
    make_other(m, lbn, &b)
}

// Whether an owner is among these.
fn is_seen(seen: &[u32], owner: u32) -> bool
    ensures { result ≡ list_any (λ n. n == owner) seen.now }
{
    seen.iter().any(|n| *n == owner)
}

// Clears row `j` if its owner has been seen, and notes its owner otherwise.
fn settle_row<I: ImageDev>(
    m: &mut Mirror<I>,
    home: &Home,
    seen: &mut Vec<u32>,
    j: u32,
) -> Result<(), StepFault>
    requires limits { IsWithinLimits home.now }
    requires size { IsSize (length m.old.blocks) }
    requires before { (first : List Block) × IsGround home.now first m.old.blocks }
    requires row { j < 16 * home.now.cluster }
    ensures step { (first : List Block) → IsGround home.now first m.old.blocks
        → IsStep (IsTouched home.now first) m.old.blocks m.new.blocks (I.told m.old.image) (I.told m.new.image) (I.faults m.old.image) (I.faults m.new.image) (result ≡ Err StepFault.ImageFault) }
    ensures ok { (first : List Block) → IsGround home.now first m.old.blocks → OnOk result (IsRowSettled home.now first m.old.blocks m.new.blocks j seen.old.items seen.new.items) }
{
    let Some(r) = numbered_row(m, home, j) else {
        return Ok(());
    };
    if is_seen(seen.as_slice(), r.uic) {
        return write_row(m, home, j, None);
    }
    seen.push(r.uic)?;
    Ok(())
}

// Clears each row whose owner has an active row before it, and gives the owners of the rows that are left.
fn settle_rows<I: ImageDev>(
    alloc: Global,
    m: &mut Mirror<I>,
    home: &Home,
) -> Result<Vec<u32>, StepFault>
    requires limits { IsWithinLimits home.now }
    requires size { IsSize (length m.old.blocks) }
    requires before { (first : List Block) × IsGround home.now first m.old.blocks }
    ensures step { (first : List Block) → IsGround home.now first m.old.blocks
        → IsStep (IsTouched home.now first) m.old.blocks m.new.blocks (I.told m.old.image) (I.told m.new.image) (I.faults m.old.image) (I.faults m.new.image) (result ≡ Err StepFault.ImageFault) }
    ensures ok { (first : List Block) → IsGround home.now first m.old.blocks → IfOk result (λ seen. AreRowsSettled home.now first m.old.blocks m.new.blocks seen.items) }
{
    let mut seen = Vec::new(alloc);
    for j in 0..row_count(home) {
        settle_row(m, home, &mut seen, j)?;
    }
    Ok(seen)
}

// The row that becomes that of [1,1]: the first one that is not active, or the last one where each is.
fn system_place<I: ImageDev>(m: &Mirror<I>, home: &Home) -> u32
    requires limits { IsWithinLimits home.now }
    requires size { IsSize (length m.now.blocks) }
    requires before { (first : List Block) × IsGround home.now first m.now.blocks }
    ensures { IsSystemPlace home.now m.now.blocks result }
{
    let count = row_count(home);
    for j in 0..count {
        if numbered_row(m, home, j).is_none() {
            return j;
        }
    }
    count - 1
}

// The row of [1,1], who may use as much as there is.
fn system_row() -> Row
    ensures { result ≡ system_row }
{
    Row {
        uic: SYSTEM_OWNER,
        usage: 0,
        quota: u32::MAX,
        over: 0,
    }
}

// Clears bit 0 of the flags of each row whose owner has an active row before it. If [1,1] has none then, the first row that is not
// active becomes its row, or the last one where all are.
pub(crate) fn make_rows<I: ImageDev>(
    alloc: Global,
    m: &mut Mirror<I>,
    home: &Home,
) -> Result<(), StepFault>
    requires limits { IsWithinLimits home.now }
    requires size { IsSize (length m.old.blocks) }
    requires before { (first : List Block) × IsBeforeRows home.now first m.old.blocks }
    ensures step { (first : List Block) → IsBeforeRows home.now first m.old.blocks
        → IsStep (IsTouched home.now first) m.old.blocks m.new.blocks (I.told m.old.image) (I.told m.new.image) (I.faults m.old.image) (I.faults m.new.image) (result ≡ Err StepFault.ImageFault) }
    ensures ok { (first : List Block) → IsBeforeRows home.now first m.old.blocks → OnOk result (IsAfterRows home.now first m.old.blocks m.new.blocks) }
{
    let seen = settle_rows(alloc, m, home)?;
    if is_seen(seen.as_slice(), SYSTEM_OWNER) {
        return Ok(());
    }
    let j = system_place(m, home);
    write_row(m, home, j, Some(system_row()))
}
