//! What the blocks of a volume tell: their catalogue, or the first fatal finding of all kinds.

ghost use Rattle.std.specs.Prelude.{length, IfOk};
ghost use Rattle.vol_faults.specs.Conditions.{IsSize};
ghost use Rattle.vol_spell.specs.Fully.{IsReadFully, IsCatOrNone};

use base_words::Block;
use plain_cat::{Cat, NoMemory};
use std::alloc::Global;
use vol_faults::{first_without_room, read_whole};
use vol_parts::Finding;

/// What the blocks of a volume tell, of which there are 64 to 65,536: their catalogue where no fatal finding holds, else the
/// first fatal finding. An error says that memory ran out.
pub fn read_fully(alloc: Global, blocks: &[Block]) -> Result<Result<Cat, Finding>, NoMemory>
    requires { IsSize (length blocks.now) }
    ensures { IfOk result (IsReadFully blocks.now) }
{
    let cat = match read_whole(alloc, blocks)? {
        Ok(cat) => cat,
        Err(found) => return Ok(Err(found)),
    };
    match first_without_room(alloc, &cat)? {
        Some(found) => Ok(Err(found)),
        None => Ok(Ok(cat)),
    }
}

/// The catalogue that the blocks of a volume tell, of which there are 64 to 65,536, or `None` where a fatal finding holds. An
/// error says that memory ran out.
pub fn read_volume(alloc: Global, blocks: &[Block]) -> Result<Option<Cat>, NoMemory>
    requires { IsSize (length blocks.now) }
    ensures { IfOk result (IsCatOrNone blocks.now) }
{
    Ok(read_fully(alloc, blocks)?.ok())
}
