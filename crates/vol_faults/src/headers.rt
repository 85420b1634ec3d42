//! Headers that cannot be read, or stand in the slot of another number.

ghost use Rattle.std.specs.Prelude.{◌≡◌, IfNone};
ghost use Rattle.fx_home.specs.Homes.{IsWithinLimits};
ghost use Rattle.vol_parts.specs.Firsts.{IsFirstOf};
ghost use Rattle.vol_parts.specs.Lowest.{IsLowest};
ghost use Rattle.vol_parts.specs.Volumes.{volume, IsNumber};
ghost use Rattle.vol_faults.specs.Conditions.{is_bad_header, HasHeads};

use base_words::Block;
use fx_header::Slot;
use fx_home::Home;
use vol_parts::{Finding, head};

/// Whether the header of a number has a fault, or is that of another number.
#[tactic(auto, unfolding(crate::specs::Conditions::is_bad_header))]
fn is_bad_header(home: &Home, blocks: &[Block], n: u32) -> bool
    requires limits { IsWithinLimits home.now }
    requires number { IsNumber (volume home.now blocks.now) n }
    ensures { result ≡ is_bad_header (volume home.now blocks.now) n }
{
    match head(home, blocks, n) {
        Ok(Slot::Used(f)) => f.num != n,
        Ok(Slot::Free(_)) => false,
        Err(_) => true,
    }
}

fn lowest_bad_header(home: &Home, blocks: &[Block]) -> Option<u32>
    requires { IsWithinLimits home.now }
    ensures { IsLowest (is_bad_header (volume home.now blocks.now)) 1 home.now.files result }
{
    for n in 1..home.files + 1 {
        if is_bad_header(home, blocks, n) {
            return Some(n);
        }
    }
    None
}

/// The first header that has a fault or is that of another number.
pub fn first_bad_header(home: &Home, blocks: &[Block]) -> Option<Finding>
    requires { IsWithinLimits home.now }
    ensures first { IsFirstOf (volume home.now blocks.now) 1 result }
    ensures none { IfNone result (HasHeads (volume home.now blocks.now)) }
{
    let n = lowest_bad_header(home, blocks)?;
    Some(match head(home, blocks, n) {
        Err(fault) => Finding::Header(n, fault),
        Ok(_) => Finding::WrongNumber(n),
    })
}
