//! File numbers that the index-file bitmap calls free, and whose header slots are used.

ghost use Rattle.std.specs.Prelude.{◌≡◌};
ghost use Rattle.fx_home.specs.Homes.{IsWithinLimits};
ghost use Rattle.vol_parts.specs.Firsts.{IsFirstOf};
ghost use Rattle.vol_parts.specs.Lowest.{IsLowest};
ghost use Rattle.vol_parts.specs.Volumes.{volume, IsNumber};
ghost use Rattle.vol_faults.specs.Conditions.{HasHeads, is_free_in_use};

use base_words::Block;
use fx_home::Home;
use vol_parts::{Finding, is_used_number, used_slot};

/// Whether the index-file bitmap says that a number is free, and its header slot is used.
#[tactic(auto, unfolding(crate::specs::Conditions::is_free_in_use))]
fn is_free_in_use(home: &Home, blocks: &[Block], n: u32) -> bool
    requires limits { IsWithinLimits home.now }
    requires heads { HasHeads (volume home.now blocks.now) }
    requires number { IsNumber (volume home.now blocks.now) n }
    ensures { result ≡ is_free_in_use (volume home.now blocks.now) n }
{
    !is_used_number(home, blocks, n) && used_slot(home, blocks, n).is_some()
}

fn lowest_free_in_use(home: &Home, blocks: &[Block]) -> Option<u32>
    requires limits { IsWithinLimits home.now }
    requires heads { HasHeads (volume home.now blocks.now) }
    ensures { IsLowest (is_free_in_use (volume home.now blocks.now)) 1 home.now.files result }
{
    for n in 1..home.files + 1 {
        if is_free_in_use(home, blocks, n) {
            return Some(n);
        }
    }
    None
}

/// The first file number that the index-file bitmap calls free and whose header slot is used. All headers can be read.
pub fn first_free_number(home: &Home, blocks: &[Block]) -> Option<Finding>
    requires limits { IsWithinLimits home.now }
    requires heads { HasHeads (volume home.now blocks.now) }
    ensures { IsFirstOf (volume home.now blocks.now) 12 result }
{
    Some(Finding::FreeNumber(lowest_free_in_use(home, blocks)?))
}
