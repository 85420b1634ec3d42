//! A block of bytes in memory of its own.

ghost use Rattle.std.specs.Prelude.{◌≡◌, IfOk};

use crate::NoMemory;
use base_words::Block;
use std::alloc::Global;
use std::marker::Model;

/// The bytes of a block, in memory of their own, so that a reply is small and cheap to move.
#[derive(Drop)]
pub struct ByteBlock {
    block: Box<Block>,
}

impl Model for ByteBlock {
    ghost use Rattle.std.specs.Prelude.{List, ℕ};

    ghost Value = { List ℕ };

    ghost view = { λ b. b.block.value };
}

impl ByteBlock {
    /// These bytes.
    pub fn new(alloc: Global, block: &Block) -> Result<Self, NoMemory>
        ensures { IfOk result (λ b. b ≡ block.now) }
    {
        Ok(ByteBlock {
            block: Box::new(alloc, *block)?,
        })
    }

    /// The bytes.
    pub fn block(&self) -> &Block
        ensures { result.now ≡ self.now }
    {
        &self.block
    }

    /// The same bytes again.
    pub fn copy(&self, alloc: Global) -> Result<Self, NoMemory>
        ensures { IfOk result (λ b. b ≡ self.now) }
    {
        ByteBlock::new(alloc, &self.block)
    }
}
