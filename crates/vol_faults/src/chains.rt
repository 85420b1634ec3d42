//! Chains of headers that end before their file does, or among whose headers the file's clusters are badly split.

ghost use Rattle.fx_home.specs.Homes.{IsWithinLimits};
ghost use Rattle.vol_parts.specs.Firsts.{IsFirstOf};
ghost use Rattle.vol_parts.specs.Volumes.{volume};

use base_words::Block;
use fx_home::Home;
use vol_parts::{Finding, chain_fault};

/// The first file behind the system files whose chain of headers is broken or badly split.
pub fn first_bad_chain(home: &Home, blocks: &[Block]) -> Option<Finding>
    requires { IsWithinLimits home.now }
    ensures { IsFirstOf (volume home.now blocks.now) 4 result }
{
    for n in 12..home.files + 1 {
        if let Some(found) = chain_fault(home, blocks, n) {
            return Some(found);
        }
    }
    None
}
