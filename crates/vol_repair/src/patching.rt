//! The parts of a repair that go from one catalogue that the blocks spell to another.

ghost use Rattle.std.specs.Prelude.{◌≡◌, Err, IfOk, OnOk};
ghost use Rattle.vol_parts.specs.Catalogues.{catalogue};
ghost use Rattle.vol_parts.specs.Volumes.{volume, geometry_of};
ghost use Rattle.vol_sound.specs.Begun.{without_own, without_loops, with_owners};
ghost use Rattle.vol_repair.specs.Alike.{IsSpeltAs, TellsAlike};
ghost use Rattle.vol_repair.specs.Patching.{IsSpellable};
ghost use Rattle.vol_repair.specs.Steps.{IsStep};

use crate::fault::StepFault;
use crate::loops::remove_loops;
use crate::own::remove_own;
use crate::owners::set_owners;
use base_words::Block;
use blk_drive::{ImageDev, Mirror};
use fx_home::Home;
use plain_cat::{Cat, NoMemory};
use std::alloc::Global;
use vol_faults::{count_clusters, count_outside};
use vol_parts::{Geometry, first_lbn, read_catalogue};

// Where the fixed parts of a volume lie.
fn geometry(home: &Home, blocks: &[Block]) -> Geometry
    requires { IsSpellable home.now blocks.now }
    ensures { result ≡ geometry_of (volume home.now blocks.now) }
{
    Geometry {
        blocks: blocks.len() as u32,
        cluster: u32::from(home.cluster),
        files: home.files,
        bitmap_lbn: first_lbn(home, blocks, 2),
        quota_lbn: first_lbn(home, blocks, 10),
    }
}

// The catalogue that the blocks of a volume tell.
fn told_catalogue(alloc: Global, home: &Home, blocks: &[Block]) -> Result<Cat, NoMemory>
    requires { IsSpellable home.now blocks.now }
    ensures { IfOk result (λ cat. cat ≡ catalogue (volume home.now blocks.now)) }
{
    let counts = count_clusters(alloc, home, blocks)?;
    let leaked = count_outside(home, blocks, counts.as_slice());
    read_catalogue(alloc, home, blocks, leaked)
}

// The master file directory loses each entry that names it, but its own; directories on loops lose their entries of directories; and
// files whose owner has no quota row become those of [1,1].
pub(crate) fn patch<I: ImageDev>(
    alloc: Global,
    m: &mut Mirror<I>,
    home: &Home,
) -> Result<(), StepFault>
    requires { IsSpellable home.now m.old.blocks }
    ensures step { IsStep (TellsAlike (geometry_of (volume home.now m.old.blocks)) (catalogue (volume home.now m.old.blocks))) m.old.blocks m.new.blocks (I.told m.old.image) (I.told m.new.image) (I.faults m.old.image) (I.faults m.new.image) (result ≡ Err StepFault.ImageFault) }
    ensures told { OnOk result (IsSpeltAs (geometry_of (volume home.now m.old.blocks)) m.new.blocks (with_owners (without_loops (without_own (catalogue (volume home.now m.old.blocks)))))) }
{
    let g = geometry(home, m.all());
    let mut cat = told_catalogue(alloc, home, m.all())?;
    remove_own(alloc, m, &g, &mut cat)?;
    remove_loops(alloc, m, &g, &mut cat)?;
    set_owners(alloc, m, &g, &mut cat)
}
