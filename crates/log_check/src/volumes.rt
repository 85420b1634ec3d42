//! The catalogues of the volumes before and after, between which a report is judged.

ghost use Rattle.std.specs.Prelude.{◌≡◌, IfOk, IfErr, length};
ghost use Rattle.blk_drive.specs.Images.{IsInside};
ghost use Rattle.plain_rules.specs.Accounts.{Accounted};
ghost use Rattle.vol_parts.specs.Findings.{Accepts, CatOf};
ghost use Rattle.log_check.specs.Tidying.{IsSettled};
ghost use Rattle.log_check.specs.Checks.{IsLegalBetween, IsNotLegal, IsNotAccepted, IsNotMendable, load_status};

use crate::sameness::is_same_cat;
use crate::shutting::shut;
use crate::status::CheckStatus;
use crate::{Verdict, judge_settled};
use base_words::Block;
use blk_drive::LoadFault;
use plain_cat::Cat;
use std::alloc::Global;
use vol_analyze::accepted;
use vol_parts::blocks_are_whole;
use vol_spell::read_fully;

/// Why an image was not loaded.
pub(crate) fn load_status(fault: LoadFault) -> CheckStatus
    ensures { result ≡ load_status fault }
{
    match fault {
        LoadFault::ImageFault => CheckStatus::ImageFault,
        LoadFault::BadSize(n) => CheckStatus::BadSize(n),
        LoadFault::NoMemory => CheckStatus::NoMemory,
    }
}

/// The catalogue of a volume that has to be accepted.
pub(crate) fn cat_before(alloc: Global, blocks: &[Block]) -> Result<Cat, CheckStatus>
    requires { IsInside (length blocks.now) }
    ensures told { IfOk result (λ c. Accepts blocks.now × CatOf blocks.now c) }
    ensures accounted { IfOk result Accounted }
    ensures settled { IfOk result IsSettled }
    ensures end { IfErr result (IsNotAccepted blocks.now) }
{
    blocks_are_whole(blocks);
    match accepted(alloc, blocks) {
        Ok(Ok(cat)) => Ok(cat),
        Ok(Err(found)) => Err(CheckStatus::NotAccepted(found)),
        Err(_) => Err(CheckStatus::NoMemory),
    }
}

/// The catalogue of a volume in which nothing fatal may be found.
pub(crate) fn cat_after(alloc: Global, blocks: &[Block]) -> Result<Cat, CheckStatus>
    requires { IsInside (length blocks.now) }
    ensures told { IfOk result (CatOf blocks.now) }
    ensures end { IfErr result (IsNotMendable blocks.now) }
{
    match read_fully(alloc, blocks) {
        Ok(Ok(cat)) => Ok(cat),
        Ok(Err(found)) => Err(CheckStatus::NotMendable(found)),
        Err(_) => Err(CheckStatus::NoMemory),
    }
}

/// Judges a report between two catalogues, and tells how many entries it has.
pub(crate) fn judge_between(
    alloc: Global,
    before: Cat,
    after: &Cat,
    text: &[u8],
) -> Result<usize, CheckStatus>
    requires accounted { Accounted before }
    requires settled { IsSettled before }
    ensures legal { IfOk result (IsLegalBetween before after.now text.now) }
    ensures end { IfErr result (IsNotLegal before after.now text.now) }
{
    match judge_settled(alloc, before, text) {
        Ok(
            Verdict::Legal {
                entries,
                after: last,
            },
        ) => match shut(alloc, last) {
            Ok(end) if is_same_cat(&end, after) => Ok(entries),
            Ok(_) => Err(CheckStatus::EndDiffers),
            Err(_) => Err(CheckStatus::NoMemory),
        },
        Ok(Verdict::Unchecked(k)) => Err(CheckStatus::Unchecked(k)),
        Ok(Verdict::Illegal(k)) => Err(CheckStatus::Illegal(k)),
        Err(_) => Err(CheckStatus::NoMemory),
    }
}
