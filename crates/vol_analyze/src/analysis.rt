//! All findings of a volume's blocks, and whether they are accepted.

ghost use Rattle.std.specs.Prelude.{length, IfOk};
ghost use Rattle.fx_home.specs.Homes.{home_read};
ghost use Rattle.vol_parts.specs.Findings.{home_at, AreWarningsBy, AreFindings, CatOf};
ghost use Rattle.vol_faults.specs.Conditions.{IsSize};
ghost use Rattle.vol_analyze.specs.Judging.{IsFirstWarning, IsJudged};

use crate::firsts::first_warning;
use crate::warnings::all_warnings;
use base_words::Block;
use fx_home::read_home;
use plain_cat::{Cat, NoMemory};
use std::alloc::Global;
use vol_parts::{Finding, blocks_are_whole};
use vol_spell::read_fully;

// The findings that are not fatal, where the blocks tell this catalogue.
fn warnings_of(alloc: Global, blocks: &[Block], cat: &Cat) -> Result<Vec<Finding>, NoMemory>
    requires size { IsSize (length blocks.now) }
    requires told { CatOf blocks.now cat.now }
    ensures { IfOk result (λ fs. AreWarningsBy blocks.now (home_read (home_at blocks.now)) fs.items) }
{
    blocks_are_whole(blocks);
    match read_home(&blocks[1]) {
        Ok(home) => all_warnings(alloc, &home, blocks, cat),
        Err(_) => Ok(Vec::new(alloc)),
    }
}

/// All findings of the blocks of a volume, of which there are 64 to 65,536: where a fatal finding holds, the first one alone,
/// else all the others, kind by kind, and in each kind by rising number or in the order of entries. An error says that memory
/// ran out.
pub fn analyze(alloc: Global, blocks: &[Block]) -> Result<Vec<Finding>, NoMemory>
    requires { IsSize (length blocks.now) }
    ensures { IfOk result (λ fs. AreFindings blocks.now fs.items) }
{
    match read_fully(alloc, blocks)? {
        Ok(cat) => warnings_of(alloc, blocks, &cat),
        Err(found) => {
            let mut all = Vec::new(alloc);
            all.push(found)?;
            Ok(all)
        }
    }
}

// The first finding that is not fatal, where the blocks tell this catalogue.
fn first_warning_of(alloc: Global, blocks: &[Block], cat: &Cat) -> Result<Option<Finding>, NoMemory>
    requires size { IsSize (length blocks.now) }
    requires told { CatOf blocks.now cat.now }
    ensures { IfOk result (IsFirstWarning blocks.now (home_read (home_at blocks.now))) }
{
    blocks_are_whole(blocks);
    match read_home(&blocks[1]) {
        Ok(home) => first_warning(alloc, &home, blocks, cat),
        Err(_) => Ok(None),
    }
}

/// The catalogue of blocks in which nothing is found, else the first of what [`analyze`] finds. There are 64 to 65,536 blocks.
/// An error says that memory ran out.
#[tactic(auto, using(crate::proofs::Heads::judged_none, crate::proofs::Heads::judged_first))]
pub fn accepted(alloc: Global, blocks: &[Block]) -> Result<Result<Cat, Finding>, NoMemory>
    requires { IsSize (length blocks.now) }
    ensures { IfOk result (IsJudged blocks.now) }
{
    let cat = match read_fully(alloc, blocks)? {
        Ok(cat) => cat,
        Err(found) => return Ok(Err(found)),
    };
    match first_warning_of(alloc, blocks, &cat)? {
        Some(found) => Ok(Err(found)),
        None => Ok(Ok(cat)),
    }
}
