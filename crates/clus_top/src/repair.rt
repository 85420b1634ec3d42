//! The job `repair`: a damaged volume is repaired, and the lines of what was done.

ghost use Rattle.std.specs.Prelude.{◌≡◌, IfErr, IfOk, length};
ghost use Rattle.blk_drive.specs.Images.{IsInside};
ghost use Rattle.blk_drive.specs.Telling.{IsTold as Shows};
ghost use Rattle.run_engine.specs.Inputs.{Leaves, OfImage};
ghost use Rattle.clus_top.specs.Repairs.{repair_text, repair_status, IsRepairedWith, IsRepairEnd};

use blk_drive::{ImageDev, LoadRefused, Mirror};
use plain_cat::NoMemory;
use plain_texts::{push_bytes, push_mended, push_number};
use run_engine::{Status, load_status};
use std::alloc::Global;
use vol_repair::{RepairFault, Repaired, repair};

/// The end of a repair: the text of status 0 or another status, and the image.
#[derive(Drop)]
pub struct Repair<I: ImageDev> {
    pub outcome: Result<Vec<u8>, Status>,
    pub image: I,
}

// The lines of what was done.
#[tactic(auto, unfolding(crate::specs::Repairs::repair_text))]
fn repair_text(alloc: Global, done: Repaired) -> Result<Vec<u8>, NoMemory>
    ensures { IfOk result (λ text. text.items ≡ repair_text done) }
{
    let mut text = Vec::new(alloc);
    push_bytes(&mut text, b"repaired: ")?;
    push_number(alloc, &mut text, done.slots)?;
    push_bytes(&mut text, b" slots freed\n")?;
    push_mended(alloc, &mut text, done.mended)?;
    push_bytes(&mut text, b"\n")?;
    Ok(text)
}

// The status of a repair that came to no end.
fn repair_status(fault: RepairFault) -> Status
    ensures { result ≡ repair_status fault }
{
    match fault {
        RepairFault::NotRepairable(found) => Status::NotRepairable(found),
        RepairFault::NoRoom(found) => Status::RepairNoRoom(found),
        RepairFault::ImageFault => Status::ImageFault,
        RepairFault::NoMemory => Status::NoMemory,
    }
}

// Repairs the volume of an image.
fn repair_on<I: ImageDev>(alloc: Global, m: &mut Mirror<I>) -> Result<Vec<u8>, Status>
    requires inside { IsInside (length m.old.blocks) }
    requires told { Shows (I.told m.old.image) m.old.blocks }
    ensures text { IfOk result (λ text. Leaves (I.told m.old.image) (I.told m.new.image) (λ new. IsRepairedWith (length m.old.blocks) m.old.blocks new text.items)) }
    ensures end { IfErr result (λ s. Leaves (I.told m.old.image) (I.told m.new.image)
        (λ new. IsRepairEnd (length m.old.blocks) m.old.blocks new (I.faults m.old.image) (I.faults m.new.image) s)) }
{
    let done = match repair(alloc, m) {
        Ok(done) => done,
        Err(fault) => return Err(repair_status(fault)),
    };
    match repair_text(alloc, done) {
        Ok(text) => Ok(text),
        Err(_) => Err(Status::NoMemory),
    }
}

/// Repairs the volume of an image.
pub fn repair_image<I: ImageDev>(alloc: Global, image: I) -> Repair<I>
    ensures text { IfOk result.outcome (λ text. OfImage (I.size image) (I.told image) (I.told result.image) (λ old new. IsRepairedWith (I.size image) old new text.items)) }
    ensures end { IfErr result.outcome (λ s. OfImage (I.size image) (I.told image) (I.told result.image)
        (λ old new. IsRepairEnd (I.size image) old new (I.faults image) (I.faults result.image) s)) }
{
    match Mirror::load(alloc, image) {
        Ok(mut mirror) => {
            let outcome = repair_on(alloc, &mut mirror);
            Repair {
                outcome,
                image: mirror.into_image(),
            }
        }
        Err(LoadRefused { fault, image }) => Repair {
            outcome: Err(load_status(fault)),
            image,
        },
    }
}
