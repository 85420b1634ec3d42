//! Step 6: the usages of the quota rows become what the owners' files cost.

ghost use Rattle.std.specs.Prelude.{◌≡◌, ◌≤◌, ◌<◌, ◌==◌, ℕ, Err, length, map, option_map, if◌then◌else◌, OnOk};
ghost use Rattle.fx_quota.specs.Rows.{row_at};
ghost use Rattle.plain_cat.specs.declared.cat.Cat.{Cat};
ghost use Rattle.vol_parts.specs.Parts.{IsGeometry};
ghost use Rattle.vol_parts.specs.Volumes.{rows_in};
ghost use Rattle.vol_analyze.specs.Conditions.{HasFileSizes};
ghost use Rattle.vol_mends.specs.Told.{IsTold};
ghost use Rattle.vol_mends.specs.Rows.{summed};
ghost use Rattle.vol_rebuild.specs.Steps.{IsOfFiles, AreSummed};
ghost use Rattle.vol_rebuild.specs.Sums.{IsQuotaSet};
ghost use Rattle.vol_rebuild.specs.Ways.{IsStep};

use crate::fault::StepFault;
use crate::making::{block_is_whole, make_other};
use base_words::Block;
use blk_drive::{ImageDev, Mirror};
use fx_quota::{row, set_row};
use plain_cat::{Cat, Uic};
use plain_rules::charge;
use vol_parts::Geometry;

// Puts right the usage of a row, if the row is active.
fn put_usage(cat: &Cat, b: &mut Block, i: u32)
    requires row { i < 16 }
    requires numbers { length cat.now.files ≤ 4096 }
    requires sizes { HasFileSizes cat.now }
    ensures { (j : ℕ) → j < 16 → row_at b.new j ≡ (if j == i then option_map (summed cat.now) (row_at b.old i) else row_at b.old j) }
{
    if let Some(old) = row(b, i) {
        let mut new = old;
        new.usage = charge(cat, Uic(old.uic));
        set_row(b, i, &new);
    }
}

// A quota block in which each usage is what the owner's files cost.
fn summed_block(cat: &Cat, old: &Block) -> Block
    requires numbers { length cat.now.files ≤ 4096 }
    requires sizes { HasFileSizes cat.now }
    ensures { rows_in result ≡ map (summed cat.now) (rows_in old.now) }
{
    let mut b = *old;
    for i in 0..16u32 {
        put_usage(cat, &mut b, i);
    }
    b
}

// Writes quota block `k`, unless its usages are right.
fn set_quota<I: ImageDev>(
    m: &mut Mirror<I>,
    g: &Geometry,
    cat: &Cat,
    k: u32,
) -> Result<(), StepFault>
    requires geometry { IsGeometry g.now }
    requires block { k < g.now.cluster }
    requires told { (c : Cat) × IsOfFiles cat.now c × IsTold g.now m.old.blocks c }
    ensures step { IsStep m.old.blocks m.new.blocks (I.told m.old.image) (I.told m.new.image) (I.faults m.old.image) (I.faults m.new.image) (result ≡ Err StepFault.ImageFault) }
    ensures ok { (c : Cat) → IsOfFiles cat.now c → IsTold g.now m.old.blocks c → OnOk result (IsQuotaSet g.now m.old.blocks m.new.blocks c k) }
{
    let lbn = g.quota_lbn + k;
    let b = summed_block(cat, m.read(lbn));
    block_is_whole(b);
    make_other(m, lbn, &b)
}

// Writes the quota blocks in which a usage is another than what the files of the catalogue cost.
pub(crate) fn set_usages<I: ImageDev>(
    m: &mut Mirror<I>,
    g: &Geometry,
    cat: &Cat,
) -> Result<(), StepFault>
    requires geometry { IsGeometry g.now }
    requires told { (c : Cat) × IsOfFiles cat.now c × IsTold g.now m.old.blocks c }
    ensures step { IsStep m.old.blocks m.new.blocks (I.told m.old.image) (I.told m.new.image) (I.faults m.old.image) (I.faults m.new.image) (result ≡ Err StepFault.ImageFault) }
    ensures ok { (c : Cat) → IsOfFiles cat.now c → IsTold g.now m.old.blocks c → OnOk result (AreSummed g.now c m.old.blocks m.new.blocks) }
{
    for k in 0..g.cluster {
        set_quota(m, g, cat, k)?;
    }
    Ok(())
}
