//! Header slots by number, and the first headers of files.

ghost use Rattle.std.specs.Prelude.{◌≡◌};
ghost use Rattle.fx_home.specs.Homes.{IsWithinLimits};
ghost use Rattle.vol_parts.specs.Chains.{as_first};
ghost use Rattle.vol_parts.specs.Volumes.{volume, IsNumber, head, fields_in, used_slot, first_head, fields};

use base_words::Block;
use fx_header::{Hdr, HeaderFault, Slot, read_header};
use fx_home::{Home, slot_lbn};

/// What the header slot of a file number says. The sum of one beyond the last block is wrong.
#[tactic(auto, unfolding(crate::specs::Volumes::head))]
pub fn head(home: &Home, blocks: &[Block], n: u32) -> Result<Slot, HeaderFault>
    requires limits { IsWithinLimits home.now }
    requires number { IsNumber (volume home.now blocks.now) n }
    ensures { result ≡ head (volume home.now blocks.now) n }
{
    let lbn = slot_lbn(home, n) as usize;
    if lbn < blocks.len() {
        read_header(&blocks[lbn])
    } else {
        Err(HeaderFault::BadSum)
    }
}

// The fields of a slot that is used.
fn fields_in(said: Result<Slot, HeaderFault>) -> Option<Hdr>
    ensures { result ≡ fields_in said }
{
    match said {
        Ok(Slot::Used(f)) => Some(f),
        Ok(Slot::Free(_)) => None,
        Err(_) => None,
    }
}

/// The fields of the header slot of a number, or none where the slot is not used or its header is not one. The header may be the
/// first one of a file or another one.
pub fn used_slot(home: &Home, blocks: &[Block], n: u32) -> Option<Hdr>
    requires limits { IsWithinLimits home.now }
    requires number { IsNumber (volume home.now blocks.now) n }
    ensures { result ≡ used_slot (volume home.now blocks.now) n }
{
    fields_in(head(home, blocks, n))
}

// What a slot says of a file: that of another header than a first one is told as a free slot.
fn as_first(said: Result<Slot, HeaderFault>) -> Result<Slot, HeaderFault>
    ensures { result ≡ as_first said }
{
    match said {
        Ok(Slot::Used(f)) => {
            if f.seg == 0 {
                Ok(Slot::Used(f))
            } else {
                Ok(Slot::Free(f.seq))
            }
        }
        Ok(Slot::Free(seq)) => Ok(Slot::Free(seq)),
        Err(fault) => Err(fault),
    }
}

/// What the header slot of a number says as the first header of a file: the slot of another header is told as a free one.
pub fn first_head(home: &Home, blocks: &[Block], n: u32) -> Result<Slot, HeaderFault>
    requires limits { IsWithinLimits home.now }
    requires number { IsNumber (volume home.now blocks.now) n }
    ensures { result ≡ first_head (volume home.now blocks.now) n }
{
    as_first(head(home, blocks, n))
}

/// The fields of the first header of the file of a number, or none where the number is not in use as a file's or its header is
/// not one.
pub fn fields(home: &Home, blocks: &[Block], n: u32) -> Option<Hdr>
    requires limits { IsWithinLimits home.now }
    requires number { IsNumber (volume home.now blocks.now) n }
    ensures { result ≡ fields (volume home.now blocks.now) n }
{
    fields_in(first_head(home, blocks, n))
}
