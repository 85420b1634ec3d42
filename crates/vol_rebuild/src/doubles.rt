//! Step 1: the entries that stand in two blocks are packed away.

ghost use Rattle.std.specs.Prelude.{◌≡◌, Err, IfOk, OnOk};
ghost use Rattle.plain_rules.specs.Lookups.{file_at};
ghost use Rattle.vol_spell.specs.Reading.{IsFileNumber};
ghost use Rattle.vol_mends.specs.Told.{IsTold, IsSingle, KeepsSingles};
ghost use Rattle.vol_mends.specs.Moving.{HasDir};
ghost use Rattle.vol_rebuild.specs.Places.{DirLeads};
ghost use Rattle.vol_rebuild.specs.Steps.{AreSingles};
ghost use Rattle.vol_rebuild.specs.Ways.{IsStep};

use crate::fault::StepFault;
use crate::making::make_moves;
use crate::places::{Moves, body};
use base_words::Block;
use blk_drive::{ImageDev, Mirror};
use fx_dir::pack_moves;
use plain_cat::{Cat, File, NoMemory};
use plain_rules::file_at;
use std::alloc::Global;
use vol_analyze::have_more;
use vol_parts::Geometry;

// The moves by which the entries of a directory that stand in two of its blocks are packed away: none where there are none.
fn packing(
    alloc: Global,
    g: &Geometry,
    blocks: &[Block],
    cat: &Cat,
    n: u32,
    dir: &File,
) -> Result<Moves, NoMemory>
    requires { HasDir g.now blocks.now cat.now n dir.now }
    ensures { IfOk result (λ x. DirLeads g.now blocks.now cat.now n x.places.items x.moves.items) }
{
    let body = body(alloc, g, blocks, n)?;
    if !have_more(alloc, body.blocks.as_slice(), dir.entries.items().len())? {
        return Ok(Moves {
            places: body.places,
            moves: Vec::new(alloc),
        });
    }
    let moves = pack_moves(alloc, body.blocks.as_slice())?;
    Ok(Moves {
        places: body.places,
        moves,
    })
}

// Packs the directory of a number, if it is one and an entry stands in two of its blocks.
fn pack<I: ImageDev>(
    alloc: Global,
    m: &mut Mirror<I>,
    g: &Geometry,
    cat: &Cat,
    n: u32,
) -> Result<(), StepFault>
    requires told { IsTold g.now m.old.blocks cat.now }
    requires number { IsFileNumber g.now n }
    ensures step { IsStep m.old.blocks m.new.blocks (I.told m.old.image) (I.told m.new.image) (I.faults m.old.image) (I.faults m.new.image) (result ≡ Err StepFault.ImageFault) }
    ensures told { OnOk result (IsTold g.now m.new.blocks cat.now) }
    ensures singles { OnOk result (KeepsSingles g.now m.old.blocks m.new.blocks) }
    ensures single { OnOk result (IsSingle g.now m.new.blocks n) }
{
    let Some(dir) = file_at(cat, n) else {
        return Ok(());
    };
    if !dir.dir {
        return Ok(());
    }
    let x = packing(alloc, g, m.all(), cat, n, dir)?;
    make_moves(m, x.places.as_slice(), x.moves.as_slice())
}

// Packs each directory of which an entry stands in two blocks.
pub(crate) fn pack_doubles<I: ImageDev>(
    alloc: Global,
    m: &mut Mirror<I>,
    g: &Geometry,
    cat: &Cat,
) -> Result<(), StepFault>
    requires { IsTold g.now m.old.blocks cat.now }
    ensures step { IsStep m.old.blocks m.new.blocks (I.told m.old.image) (I.told m.new.image) (I.faults m.old.image) (I.faults m.new.image) (result ≡ Err StepFault.ImageFault) }
    ensures told { OnOk result (IsTold g.now m.new.blocks cat.now) }
    ensures singles { OnOk result (AreSingles g.now m.new.blocks) }
{
    for n in 1..g.files + 1 {
        pack(alloc, m, g, cat, n)?;
    }
    Ok(())
}
