//! The file numbers that are those of header slots of files.

ghost use Rattle.std.specs.Prelude.{◌≡◌, Ok, IfOk};
ghost use Rattle.fx_home.specs.Homes.{home_read, IsWithinLimits};
ghost use Rattle.plain_cat.specs.declared.cat.Cat.{Cat};
ghost use Rattle.vol_parts.specs.Findings.{home_at};
ghost use Rattle.vol_parts.specs.declared.geometry.Geometry.{Geometry};
ghost use Rattle.vol_mends.specs.Told.{IsTold};
ghost use Rattle.vol_rebuild.specs.Space.{AreFlagged};

use base_words::Block;
use fx_home::{Home, read_home};
use plain_cat::{Flags, NoMemory};
use std::alloc::Global;
use vol_parts::slot_flags;

// The home block of blocks that tell a catalogue.
pub(crate) fn home_of(blocks: &[Block]) -> Home
    requires { (g : Geometry) × (c : Cat) × IsTold g blocks.now c }
    ensures read { home_read (home_at blocks.now) ≡ Ok result }
    ensures limits { IsWithinLimits result }
{
    let Ok(home) = read_home(&blocks[1]) else {
        unreachable!()
    };
    home
}

// For each number of blocks that tell a catalogue whether it is that of a header slot of a file.
pub(crate) fn flagged(alloc: Global, blocks: &[Block]) -> Result<Flags, NoMemory>
    requires { (g : Geometry) × (c : Cat) × IsTold g blocks.now c }
    ensures { IfOk result (λ flags. (g : Geometry) (c : Cat) → IsTold g blocks.now c → AreFlagged g blocks.now flags) }
{
    let home = home_of(blocks);
    slot_flags(alloc, &home, blocks)
}
