//! The job `rebuild`: the volume of an image is mended, and the line of what was done.

ghost use Rattle.std.specs.Prelude.{◌≡◌, IfErr, IfOk, length};
ghost use Rattle.blk_drive.specs.Images.{IsInside};
ghost use Rattle.blk_drive.specs.Telling.{IsTold as Shows};
ghost use Rattle.run_engine.specs.Inputs.{Leaves, OfImage};
ghost use Rattle.clus_top.specs.Ends.{IsRebuiltWith, IsRebuildEnd, rebuild_status};
ghost use Rattle.clus_top.specs.Mendings.{mending_text};

use blk_drive::{ImageDev, LoadRefused, Mirror};
use plain_cat::{Mended, NoMemory};
use plain_texts::{push_bytes, push_mended};
use run_engine::{Status, load_status};
use std::alloc::Global;
use vol_rebuild::{RebuildFault, rebuild};

/// The end of a mending: the text of status 0 or another status, and the image.
#[derive(Drop)]
pub struct Rebuild<I: ImageDev> {
    pub outcome: Result<Vec<u8>, Status>,
    pub image: I,
}

// The line of what was done.
fn mending_text(alloc: Global, done: Mended) -> Result<Vec<u8>, NoMemory>
    ensures { IfOk result (λ text. text.items ≡ mending_text done) }
{
    let mut text = Vec::new(alloc);
    push_mended(alloc, &mut text, done)?;
    push_bytes(&mut text, b"\n")?;
    Ok(text)
}

// The status of a mending that came to no end.
fn rebuild_status(fault: RebuildFault) -> Status
    ensures { result ≡ rebuild_status fault }
{
    match fault {
        RebuildFault::NotMendable(found) => Status::NotMendable(found),
        RebuildFault::ImageFault => Status::ImageFault,
        RebuildFault::NoMemory => Status::NoMemory,
    }
}

// Mends the volume of an image.
fn mend_on<I: ImageDev>(alloc: Global, m: &mut Mirror<I>) -> Result<Vec<u8>, Status>
    requires inside { IsInside (length m.old.blocks) }
    requires told { Shows (I.told m.old.image) m.old.blocks }
    ensures text { IfOk result (λ text. Leaves (I.told m.old.image) (I.told m.new.image) (λ new. IsRebuiltWith (length m.old.blocks) m.old.blocks new text.items)) }
    ensures end { IfErr result (λ s. Leaves (I.told m.old.image) (I.told m.new.image)
        (λ new. IsRebuildEnd (length m.old.blocks) m.old.blocks new (I.faults m.old.image) (I.faults m.new.image) s)) }
{
    let done = match rebuild(alloc, m) {
        Ok(done) => done,
        Err(fault) => return Err(rebuild_status(fault)),
    };
    match mending_text(alloc, done) {
        Ok(text) => Ok(text),
        Err(_) => Err(Status::NoMemory),
    }
}

/// Mends the volume of an image.
pub fn mend_image<I: ImageDev>(alloc: Global, image: I) -> Rebuild<I>
    ensures text { IfOk result.outcome (λ text. OfImage (I.size image) (I.told image) (I.told result.image) (λ old new. IsRebuiltWith (I.size image) old new text.items)) }
    ensures end { IfErr result.outcome (λ s. OfImage (I.size image) (I.told image) (I.told result.image)
        (λ old new. IsRebuildEnd (I.size image) old new (I.faults image) (I.faults result.image) s)) }
{
    match Mirror::load(alloc, image) {
        Ok(mut mirror) => {
            let outcome = mend_on(alloc, &mut mirror);
            Rebuild {
                outcome,
                image: mirror.into_image(),
            }
        }
        Err(LoadRefused { fault, image }) => Rebuild {
            outcome: Err(load_status(fault)),
            image,
        },
    }
}
