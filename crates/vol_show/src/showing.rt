//! Which catalogue is shown of a volume.

ghost use Rattle.std.specs.Prelude.{◌≡◌, length, IfOk};
ghost use Rattle.vol_faults.specs.Conditions.{IsSize};
ghost use Rattle.vol_show.specs.Showing.{IsShown, IsPatchedOrBeyond};

use base_words::Block;
use blk_drive::{MemImage, Mirror};
use plain_cat::{Cat, NoMemory};
use std::alloc::{AllocError, Global};
use vol_parts::Finding;
use vol_repair::{RepairFault, patch_all};
use vol_spell::read_fully;

// A drive in memory with these blocks.
fn copy_of(alloc: Global, blocks: &[Block]) -> Result<Mirror<MemImage>, NoMemory>
    requires { IsSize (length blocks.now) }
    ensures { IfOk result (λ m. m.blocks ≡ blocks.now) }
{
    let image = MemImage::new(Vec::from_slice(alloc, blocks)?, Vec::new(alloc));
    match Mirror::load(alloc, image) {
        Ok(m) => Ok(m),
        Err(_) => Err(AllocError),
    }
}

// The catalogue that a repair mends, or the first finding beyond repair. It is made on a copy of the blocks.
fn salvaged(alloc: Global, blocks: &[Block]) -> Result<Result<Cat, Finding>, NoMemory>
    requires { IsSize (length blocks.now) }
    ensures { IfOk result (IsPatchedOrBeyond blocks.now) }
{
    let mut copy = copy_of(alloc, blocks)?;
    match patch_all(alloc, &mut copy) {
        Ok(cat) => Ok(Ok(cat)),
        Err(RepairFault::NotRepairable(found)) => Ok(Err(found)),
        Err(RepairFault::NoRoom(_)) => Err(AllocError),
        Err(RepairFault::ImageFault) => Err(AllocError),
        Err(RepairFault::NoMemory) => Err(AllocError),
    }
}

/// The catalogue that is shown of the blocks of a volume, of which there are 64 to 65,536: its own, if no fatal finding holds; else the
/// one that a repair mends, or the first finding beyond repair. The blocks stay as they are. An error says that memory ran out.
pub fn shown(alloc: Global, blocks: &[Block]) -> Result<Result<Cat, Finding>, NoMemory>
    requires { IsSize (length blocks.now) }
    ensures { IfOk result (IsShown blocks.now) }
{
    match read_fully(alloc, blocks)? {
        Ok(cat) => Ok(Ok(cat)),
        Err(_) => salvaged(alloc, blocks),
    }
}
