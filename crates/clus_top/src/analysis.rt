//! The job `analyze`: what is found in the volume of an image.

ghost use Rattle.std.specs.Prelude.{◌≡◌, IfOk, IfErr, length};
ghost use Rattle.blk_drive.specs.Images.{IsInside};
ghost use Rattle.vol_parts.specs.Findings.{AreFindings};
ghost use Rattle.run_engine.specs.Inputs.{OfImage};
ghost use Rattle.clus_top.specs.Ends.{IsLoadEnd};

use base_words::Block;
use blk_drive::{ImageDev, LoadRefused, Mirror};
use run_engine::{Status, load_status};
use std::alloc::Global;
use vol_analyze::{Finding, analyze};

/// The end of an analysis: what is found or a status, and the image.
#[derive(Drop)]
pub struct Analysis<I: ImageDev> {
    pub outcome: Result<Vec<Finding>, Status>,
    pub image: I,
}

// What is found in the blocks of a volume.
fn findings_in(alloc: Global, bs: &[Block]) -> Result<Vec<Finding>, Status>
    requires { IsInside (length bs.now) }
    ensures found { IfOk result (λ fs. AreFindings bs.now fs.items) }
    ensures end { IfErr result (λ s. s ≡ Status.NoMemory) }
{
    match analyze(alloc, bs) {
        Ok(findings) => Ok(findings),
        Err(_) => Err(Status::NoMemory),
    }
}

/// Looks for what is wrong with the volume of an image.
pub fn analyze_image<I: ImageDev>(alloc: Global, image: I) -> Analysis<I>
    ensures inside { IfOk result.outcome (λ fs. IsInside (I.size image)) }
    ensures found { IfOk result.outcome (λ fs. OfImage (I.size image) (I.told image) (I.told result.image) (λ old new. (new ≡ old) × AreFindings old fs.items)) }
    ensures end { IfErr result.outcome (IsLoadEnd (I.size image) (I.faults image) (I.faults result.image)) }
    ensures told { I.told result.image ≡ I.told image }
{
    match Mirror::load(alloc, image) {
        Ok(mirror) => {
            let outcome = findings_in(alloc, mirror.all());
            Analysis {
                outcome,
                image: mirror.into_image(),
            }
        }
        Err(LoadRefused { fault, image }) => Analysis {
            outcome: Err(load_status(fault)),
            image,
        },
    }
}
