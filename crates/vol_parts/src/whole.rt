//! Laws: whatever the format crates write is a whole block, one of 512 bytes.
//!
//! Each law is the contract of a function that does nothing. `headers_are_whole` says it of new and changed headers,
//! `rows_are_whole` of quota blocks, `directories_are_whole` of packed entries and of the writes of an insertion and a removal.
//! The one call for use at run time turns the type of blocks into a clause:
//!
//! ```text
//! blocks_are_whole(blocks);
//! ```
//!
//! It changes nothing, and says that each block in memory is whole. The laws of writes (`vol_spell`, `vol_mends`) and the
//! operations cite these, since the laws of volumes speak of whole blocks.

ghost use Rattle.base_words.specs.Fields.{IsWholeBlock, AreWholeBlocks};

pub mod laws;

use base_words::Block;

/// A block in memory is whole.
fn block_is_whole(block: Block)
    ensures { IsWholeBlock block }
{}

/// Blocks in memory are whole. Their types say it, and this function tells it as a clause. It changes nothing.
pub fn blocks_are_whole(blocks: &[Block])
    ensures { AreWholeBlocks blocks.now }
{
    for block in blocks {
        block_is_whole(*block);
    }
}
