//! The storage control block.

ghost use Rattle.std.specs.Prelude.{◌≡◌, ◌<◌};
ghost use Rattle.fx_home.specs.Homes.{IsWithinLimits};
ghost use Rattle.vol_parts.specs.Conditions.{HasSystemFiles};
ghost use Rattle.vol_parts.specs.Fatal.{scb_fault};
ghost use Rattle.vol_parts.specs.Firsts.{IsFirstOf};
ghost use Rattle.vol_parts.specs.Volumes.{volume};

use base_words::Block;
use fx_home::{Home, ScbFault, read_scb};
use vol_parts::{Finding, first_lbn};

#[tactic(auto, unfolding(vol_parts::specs::Fatal::scb_fault))]
fn scb_fault(home: &Home, blocks: &[Block]) -> Option<ScbFault>
    requires limits { IsWithinLimits home.now }
    requires systems { HasSystemFiles (volume home.now blocks.now) }
    ensures { result ≡ scb_fault (volume home.now blocks.now) }
{
    match read_scb(&blocks[first_lbn(home, blocks, 2) as usize]) {
        Err(fault) => Some(fault),
        Ok(scb) if scb.cluster != home.cluster => Some(ScbFault::BadCluster),
        Ok(scb) if scb.blocks as usize != blocks.len() => Some(ScbFault::BadSize),
        Ok(_) => None,
    }
}

/// The fault of the storage control block, where the system files are what the structure of a volume asks.
pub fn first_bad_control_block(home: &Home, blocks: &[Block]) -> Option<Finding>
    requires limits { IsWithinLimits home.now }
    requires systems { HasSystemFiles (volume home.now blocks.now) }
    ensures { IsFirstOf (volume home.now blocks.now) 3 result }
{
    Some(Finding::Scb(scb_fault(home, blocks)?))
}
