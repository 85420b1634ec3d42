//! The shared drive: an image of 64 to 65,536 blocks, and a copy of all of them in memory.
//!
//! `ImageDev` is the trait of an image, `MemImage` one in memory. `Mirror` is the drive.
//!
//! ```text
//! match Mirror::load(alloc, image) {
//!     Ok(mut mirror) => mirror.write(lbn, &block),
//!     Err(refused) => ..,  // refused.fault, refused.image
//! }
//! ```
//!
//! `load` gives the very blocks of the image, or the image back with the cause. `write` changes one block, on the image and then
//! in memory. After a failed write memory is as before, and the image's block is whole, old or new. `ImageFault` comes only if
//! the image's count of faults rose in that call, or is at its last value. Failed writes are counted by themselves too.
//!
//! `vol_init` and `vol_rebuild` write through it, and the core shares it. `blk_files` has the image in a file.
#![tactic(auto)]

ghost use Rattle.std.specs.Prelude.{◌≡◌, ◌<◌, ◌≤◌, ◌+◌, ◌++◌, ◌⊎◌, ℕ, List, Option, Some, slice_get, slice_range, IfOk, IfSome, OnOk, OnErr, vec_len};
ghost use Rattle.std.specs.Vec.{vec_capacity};
ghost use Rattle.base_words.specs.Fields.{Block};
ghost use Rattle.base_words.specs.Faults.{HasCause};
ghost use Rattle.blk_drive.specs.Images.{HasSize, told_set};

mod memory;
mod mirror;

use base_words::Block;
pub use memory::{Fail, MemImage};
pub use mirror::{ImageFault, LoadFault, LoadRefused, Mirror, NoMemory};

/// A call of an image that failed: the image has counted it.
#[derive(Clone, Copy, Debug)]
pub struct DevFault;

/// An image of a volume: a number of blocks of 512 bytes, by logical block number (LBN) from 0 on.
///
/// Some images tell their blocks. Each has a size, and counts its failed calls, and among them its lost writes, in 64 bits and up to the
/// last value.
pub trait ImageDev: Drop {
    ghost told: { Self → Option (List Block) };

    ghost size: { Self → ℕ };

    ghost faults: { Self → ℕ };

    ghost lost: { Self → ℕ };

    /// How many blocks there are.
    fn blocks(&mut self) -> Result<u32, DevFault>
        ensures answer { IfOk result (λ n. n ≡ size self.old) }
        ensures told { told self.new ≡ told self.old }
        ensures size { size self.new ≡ size self.old }
        ensures lost { lost self.new ≡ lost self.old }
        ensures cause { HasCause (faults self.old) (faults self.new) result };

    /// Reads a block.
    fn read_block(&mut self, lbn: u32, b: &mut [u8; 512]) -> Result<(), DevFault>
        requires { lbn < size self.old }
        ensures block { OnOk result (IfSome (told self.old) (λ blocks. slice_get blocks lbn ≡ Some b.new)) }
        ensures told { told self.new ≡ told self.old }
        ensures size { size self.new ≡ size self.old }
        ensures lost { lost self.new ≡ lost self.old }
        ensures cause { HasCause (faults self.old) (faults self.new) result };

    /// Reads so many blocks from `lbn` on, and appends them to the list, which has room for them. After a failed read it may have the first ones.
    fn read_onto(&mut self, lbn: u32, count: u32, all: &mut Vec<Block>) -> Result<(), DevFault>
        requires inside { lbn + count ≤ size self.old }
        requires room { vec_len all.old + count ≤ vec_capacity all.old }
        ensures blocks { OnOk result (IfSome (told self.old) (λ blocks. all.new.items ≡ all.old.items ++ slice_range blocks lbn (lbn + count))) }
        ensures count { OnOk result (vec_len all.new ≡ vec_len all.old + count) }
        ensures told { told self.new ≡ told self.old }
        ensures size { size self.new ≡ size self.old }
        ensures lost { lost self.new ≡ lost self.old }
        ensures cause { HasCause (faults self.old) (faults self.new) result };

    /// Writes a block, and changes no other. After a failed write the block is whole, old or new.
    fn write_block(&mut self, lbn: u32, b: &[u8; 512]) -> Result<(), DevFault>
        requires { lbn < size self.old }
        ensures ok { OnOk result (told self.new ≡ told_set (told self.old) lbn b.now) }
        ensures failed { OnErr result ((told self.new ≡ told self.old) ⊎ (told self.new ≡ told_set (told self.old) lbn b.now)) }
        ensures size { size self.new ≡ size self.old }
        ensures cause { HasCause (faults self.old) (faults self.new) result }

        // It is lost where it failed, and only there.
        ensures kept { OnOk result (lost self.new ≡ lost self.old) }
        ensures lost { HasCause (lost self.old) (lost self.new) result };

    ghost counted: { (image : Self) → HasSize (told image) (size image) };
}
