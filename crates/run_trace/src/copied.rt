//! A copy of an image in memory, of which no call fails.

ghost use Rattle.std.specs.Prelude.{◌≡◌, ◌<◌, ◌^◌, Some, length, refl, IfOk};
ghost use Rattle.blk_drive.specs.Images.{IsInside};

use base_words::Block;
use blk_drive::{DevFault, ImageDev};
use plain_cat::NoMemory;
use std::alloc::Global;
use std::marker::Model;

/// A copy of the blocks of an image, fewer than 2^32: what is written to it is written nowhere else, and no call of it fails.
#[derive(Drop)]
pub struct Copied {
    blocks: Vec<Block>,
}

impl Model for Copied {
    ghost use Rattle.std.specs.Prelude.{◌<◌, ◌^◌, List, length};
    ghost use Rattle.base_words.specs.Fields.{Block};

    ghost Value = { List Block };

    ghost view = { λ c. c.blocks.items };

    ghost invariant = { λ c. length c.blocks.items < 2 ^ 32 };
}

/// Copies blocks.
pub fn copy_of(alloc: Global, blocks: &[Block]) -> Result<Copied, NoMemory>
    requires { length blocks.now < 2 ^ 32 }
    ensures { IfOk result (λ c. c ≡ blocks.now) }
{
    let blocks = Vec::from_slice(alloc, blocks)?;
    Ok(Copied { blocks })
}

impl ImageDev for Copied {
    ghost told = { λ c. Some c };

    ghost size = { λ c. length c };

    ghost faults = { λ _. 0 };

    ghost lost = { λ _. 0 };

    ghost counted = { λ _. refl };

    fn blocks(&mut self) -> Result<u32, DevFault> {
        Ok(self.blocks.len() as u32)
    }

    fn read_block(&mut self, lbn: u32, b: &mut [u8; 512]) -> Result<(), DevFault> {
        *b = self.blocks[lbn as usize];
        Ok(())
    }

    fn read_onto(&mut self, lbn: u32, count: u32, all: &mut Vec<Block>) -> Result<(), DevFault> {
        let from = lbn as usize;
        for at in from..from + count as usize {
            all.push_reserved(self.blocks[at]);
        }
        Ok(())
    }

    fn write_block(&mut self, lbn: u32, b: &[u8; 512]) -> Result<(), DevFault> {
        self.blocks[lbn as usize] = *b;
        Ok(())
    }
}
