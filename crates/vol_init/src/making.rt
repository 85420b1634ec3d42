//! Writing a volume.
ghost use Rattle.std.specs.Prelude.{◌≡◌, ◌≢◌, ◌<◌, ◌≤◌, ◌*◌, ℕ, length, Some, None, Err, IfSome, IfErr, OnOk, OnErr};
ghost use Rattle.base_words.specs.Faults.{HasCause};
ghost use Rattle.vol_parts.specs.Findings.{Accepts, CatOf};
ghost use Rattle.vol_init.specs.Layouts.{IsLayout, reserved_clusters, fresh};
ghost use Rattle.vol_init.specs.Refusals.{refusal, layout_for, home_of, HasInitCause};
ghost use Rattle.vol_init.specs.Parts.{part_of};
ghost use Rattle.base_words.specs.Fields.{block_at as block_in};
ghost use Rattle.vol_init.specs.Plans.{IsPlan, IsAt, ArePut, told_at};
ghost use Rattle.vol_init.specs.Made.{IsMade, IsLeft};
ghost use Rattle.vol_init.specs.declared.fault.InitFault.TheVariants.{NoMemory};

use crate::blocks::block_of;
use crate::fault::refusal;
use crate::part::part_of;
use crate::plan::Plan;
use crate::{InitFault, Layout};
use base_words::zeros;
use blk_drive::{ImageDev, ImageFault, Mirror};
use fx_home::home_block;
use std::alloc::Global;

/// Writes the part that a block is, if it is one.
fn put_part<I: ImageDev>(m: &mut Mirror<I>, plan: &Plan, lbn: u32) -> Result<(), ImageFault>
    requires plan { IsPlan plan.now }
    requires inside { lbn < length m.old.blocks }
    requires behind { 1 < lbn }
    ensures there { OnOk result (IsAt plan.now lbn (block_in m.old.blocks lbn) (block_in m.new.blocks lbn)) }
    ensures others { (k : ℕ) → k ≢ lbn → block_in m.new.blocks k ≡ block_in m.old.blocks k }
    ensures image { I.told m.old.image ≡ Some m.old.blocks → OnOk result (I.told m.new.image ≡ Some m.new.blocks) }
    ensures untold { I.told m.old.image ≡ None → I.told m.new.image ≡ None }
    ensures home { told_at (I.told m.new.image) 1 ≡ told_at (I.told m.old.image) 1 }
    ensures size { I.size m.new.image ≡ I.size m.old.image }
    ensures count { length m.new.blocks ≡ length m.old.blocks }
    ensures cause { HasCause (I.faults m.old.image) (I.faults m.new.image) result }
{
    match part_of(&plan.layout, lbn) {
        Some(part) => m.write(lbn, &block_of(plan, part)),
        None => Ok(()),
    }
}

/// The end of the system files, behind which no block is a part.
fn end_of_parts(layout: &Layout) -> u32
    requires { IsLayout layout.now }
    ensures { result ≡ layout.now.cluster * reserved_clusters layout.now }
{
    layout.cluster * layout.reserved_clusters()
}

/// Writes all parts behind the home block, in order of LBN.
fn put_parts<I: ImageDev>(m: &mut Mirror<I>, plan: &Plan) -> Result<(), ImageFault>
    requires plan { IsPlan plan.now }
    requires blocks { plan.now.layout.blocks ≡ length m.old.blocks }
    ensures there { OnOk result (ArePut plan.now (length m.old.blocks) m.old.blocks m.new.blocks) }
    ensures low { (k : ℕ) → k < 2 → block_in m.new.blocks k ≡ block_in m.old.blocks k }
    ensures image { I.told m.old.image ≡ Some m.old.blocks → OnOk result (I.told m.new.image ≡ Some m.new.blocks) }
    ensures untold { I.told m.old.image ≡ None → I.told m.new.image ≡ None }
    ensures home { told_at (I.told m.new.image) 1 ≡ told_at (I.told m.old.image) 1 }
    ensures size { I.size m.new.image ≡ I.size m.old.image }
    ensures count { length m.new.blocks ≡ length m.old.blocks }
    ensures cause { HasCause (I.faults m.old.image) (I.faults m.new.image) result }
{
    for lbn in 2..end_of_parts(&plan.layout) {
        put_part(m, plan, lbn)?;
    }
    Ok(())
}

/// Writes a volume: the home block is cleared first and written last.
fn make<I: ImageDev>(m: &mut Mirror<I>, plan: &Plan) -> Result<(), ImageFault>
    requires plan { IsPlan plan.now }
    requires blocks { plan.now.layout.blocks ≡ length m.old.blocks }
    ensures ok { OnOk result (IsMade plan.now.home m.old.blocks m.new.blocks) }
    ensures image { I.told m.old.image ≡ Some m.old.blocks → OnOk result (I.told m.new.image ≡ Some m.new.blocks) }
    ensures untold { I.told m.old.image ≡ None → I.told m.new.image ≡ None }
    ensures fault { I.told m.old.image ≡ Some m.old.blocks
        → OnErr result (IsLeft plan.now.home m.old.blocks (I.told m.new.image)) }
    ensures size { I.size m.new.image ≡ I.size m.old.image }
    ensures count { length m.new.blocks ≡ length m.old.blocks }
    ensures cause { HasCause (I.faults m.old.image) (I.faults m.new.image) result }
{
    let cleared = zeros();
    let home = home_block(&plan.home);
    m.write(1, &cleared)?;
    put_parts(m, plan)?;
    m.write(1, &home)
}

/// Makes a volume of the drive's blocks: its system files, and nothing else.
///
/// The cluster factor is 1 to 16, and the file numbers are 32 to 4,096; the label has 1 to 12 characters of A to Z, 0 to 9,
/// `$`, `_` and `-`. A refusal, as [`InitFault`] lists them, changes nothing, and neither does want of memory. `ImageFault`
/// comes where a write of the image failed: the image then has the old blocks, or no home block that can be read, or the
/// whole new volume.
pub fn init<I: ImageDev>(
    alloc: Global,
    m: &mut Mirror<I>,
    cluster: u32,
    files: u32,
    label: &[u8],
) -> Result<(), InitFault>
    // A refusal is exactly the first that holds, and changes nothing.
    ensures refused { IfSome (refusal (layout_for cluster files m.old.blocks) label.now) (λ fault. result ≡ Err fault) }
    ensures same { IfSome (refusal (layout_for cluster files m.old.blocks) label.now) (λ fault. m.new ≡ m.old) }

    // Ok comes with the whole volume, in memory and on the image.
    ensures ok { OnOk result (IsMade (home_of cluster files label.now) m.old.blocks m.new.blocks) }
    ensures image { I.told m.old.image ≡ Some m.old.blocks → OnOk result (I.told m.new.image ≡ Some m.new.blocks) }

    // An image that tells nothing tells nothing then.
    ensures untold { I.told m.old.image ≡ None → I.told m.new.image ≡ None }

    // The volume is accepted, and its catalogue is that of a fresh volume.
    ensures accepted { OnOk result (Accepts m.new.blocks) }
    ensures catalogue { OnOk result (CatOf m.new.blocks (fresh (layout_for cluster files m.old.blocks))) }

    // After a failed write the image has the old volume, no volume, or the whole new one.
    ensures fault { I.told m.old.image ≡ Some m.old.blocks → result ≡ Err InitFault.ImageFault
        → IsLeft (home_of cluster files label.now) m.old.blocks (I.told m.new.image) }
    ensures memory { result ≡ Err InitFault.NoMemory → m.new ≡ m.old }
    ensures cause { IfErr result (HasInitCause (refusal (layout_for cluster files m.old.blocks) label.now) (I.faults m.old.image) (I.faults m.new.image)) }
    ensures later { I.faults m.old.image ≤ I.faults m.new.image }
    ensures size { I.size m.new.image ≡ I.size m.old.image }
    ensures count { length m.new.blocks ≡ length m.old.blocks }
{
    let layout = Layout {
        cluster,
        files,
        blocks: m.size(),
    };
    if let Some(fault) = refusal(&layout, label) {
        return Err(fault);
    }
    let plan = Plan::new(alloc, layout, label)?;
    make(m, &plan)?;
    Ok(())
}
