//! The drive in memory: all blocks of an image, each write going to the image first.
ghost use Rattle.std.specs.Prelude.{◌≡◌, ◌<◌, ◌≤◌, ◌⊎◌, length, vec_len, slice_get, slice_set, Some, IfOk, IfErr, IfSome, OnOk, OnErr};
ghost use Rattle.base_words.specs.Faults.{HasCause};
ghost use Rattle.blk_drive.specs.Images.{IsInside, told_set};
ghost use Rattle.blk_drive.specs.Loads.{image_of, HasLoadCause};

use crate::{DevFault, ImageDev};
use base_words::Block;
use std::alloc::{AllocError, AllocFailed, Global};
use std::marker::Model;

/// Memory ran out.
pub type NoMemory = AllocError;

/// A write of the image failed, and the image has counted it.
#[derive(Clone, Copy, Debug)]
pub struct ImageFault;

/// Why an image was not loaded.
#[derive(Clone, Copy, Debug, PartialEq)]
pub enum LoadFault {
    /// A call of the image failed.
    ImageFault,
    /// The image has so many blocks, and a volume has 64 to 65,536.
    BadSize(u32),
    /// Memory ran out.
    NoMemory,
}

impl From<DevFault> for LoadFault {
    ghost use Rattle.blk_drive.specs.declared.mirror.LoadFault.TheVariants.{ImageFault};

    ghost from_gives = { λ _ fault. fault ≡ ImageFault };

    fn from(_fault: DevFault) -> LoadFault {
        LoadFault::ImageFault
    }
}

impl From<AllocError> for LoadFault {
    ghost use Rattle.blk_drive.specs.declared.mirror.LoadFault.TheVariants.{NoMemory};

    ghost from_gives = { λ _ fault. fault ≡ NoMemory };

    fn from(_error: AllocError) -> LoadFault {
        LoadFault::NoMemory
    }
}

impl<T: Drop> From<AllocFailed<T>> for LoadFault {
    ghost use Rattle.blk_drive.specs.declared.mirror.LoadFault.TheVariants.{NoMemory};

    ghost from_gives = { λ _ fault. fault ≡ NoMemory };

    fn from(_failed: AllocFailed<T>) -> LoadFault {
        LoadFault::NoMemory
    }
}

/// An image that was not loaded, and why.
#[derive(Debug, Drop)]
pub struct LoadRefused<I> {
    pub fault: LoadFault,
    pub image: I,
}

/// The shared drive: an image of 64 to 65,536 blocks, with all of them in memory.
#[derive(Drop)]
pub struct Mirror<I: ImageDev> {
    blocks: Vec<Block>,
    image: I,
}

impl<I: ImageDev> Model for Mirror<I> {
    ghost use Rattle.std.specs.Prelude.{length};
    ghost use Rattle.blk_drive.specs.Images.{Drive, IsDrive};

    ghost Value = { Drive I };

    ghost view = { λ m. record { blocks = m.blocks.items; image = m.image } };

    ghost invariant = { λ m. IsDrive (length m.blocks.items) (I.size m.image) };
}

// All blocks of an image.
fn blocks_of<I: ImageDev>(alloc: Global, image: &mut I) -> Result<Vec<Block>, LoadFault>
    ensures blocks { IfOk result (λ all. IfSome (I.told image.old) (λ blocks. all.items ≡ blocks)) }
    ensures count { IfOk result (λ all. vec_len all ≡ I.size image.old) }
    ensures inside { OnOk result (IsInside (I.size image.old)) }
    ensures cause { IfErr result (HasLoadCause (I.size image.old) (I.faults image.old) (I.faults image.new)) }
    ensures told { I.told image.new ≡ I.told image.old }
    ensures size { I.size image.new ≡ I.size image.old }
    ensures lost { I.lost image.new ≡ I.lost image.old }
    ensures later { I.faults image.old ≤ I.faults image.new }
{
    let size = image.blocks()?;
    if size < 64 || size > 65_536 {
        return Err(LoadFault::BadSize(size));
    }
    let mut all = Vec::with_capacity(alloc, size as usize)?;
    image.read_onto(0, size, &mut all)?;
    Ok(all)
}

impl<I: ImageDev> Mirror<I> {
    /// Reads an image whole.
    pub fn load(alloc: Global, mut image: I) -> Result<Mirror<I>, LoadRefused<I>>
        // Ok comes with the blocks that the image has, which are as many as a volume may have.
        ensures blocks { IfOk result (λ m. IfSome (I.told image) (λ blocks. m.blocks ≡ blocks)) }
        ensures count { IfOk result (λ m. length m.blocks ≡ I.size image) }
        ensures inside { OnOk result (IsInside (I.size image)) }

        // ImageFault comes only where the image's count rose, BadSize exactly where the size is outside the limits.
        ensures cause { IfErr result (λ r. HasLoadCause (I.size image) (I.faults image) (I.faults r.image) r.fault) }

        // The image comes back as it was, with each answer.
        ensures told { I.told (image_of result) ≡ I.told image }
        ensures size { I.size (image_of result) ≡ I.size image }
        ensures lost { I.lost (image_of result) ≡ I.lost image }
        ensures later { I.faults image ≤ I.faults (image_of result) }
    {
        match blocks_of(alloc, &mut image) {
            Ok(blocks) => Ok(Mirror { blocks, image }),
            Err(fault) => Err(LoadRefused { fault, image }),
        }
    }

    /// How many blocks there are, in memory and on the image.
    pub fn size(&self) -> u32
        ensures blocks { result ≡ length self.now.blocks }
        ensures image { result ≡ I.size self.now.image }
        ensures inside { IsInside result }
    {
        self.blocks.len() as u32
    }

    /// A block.
    pub fn read(&self, lbn: u32) -> &Block
        requires { lbn < length self.now.blocks }
        ensures { slice_get self.now.blocks lbn ≡ Some result.now }
    {
        &self.blocks[lbn as usize]
    }

    /// All blocks, in order of LBN.
    pub fn all(&self) -> &[Block]
        ensures { result.now ≡ self.now.blocks }
    {
        self.blocks.as_slice()
    }

    /// Writes a block on the image, and then in memory.
    pub fn write(&mut self, lbn: u32, b: &Block) -> Result<(), ImageFault>
        requires { lbn < length self.old.blocks }

        // Ok changes that block alone, in memory and on the image.
        ensures ok { OnOk result (self.new.blocks ≡ slice_set self.old.blocks lbn b.now) }
        ensures image { OnOk result (I.told self.new.image ≡ told_set (I.told self.old.image) lbn b.now) }

        // A fault changes no block in memory, and leaves the image's block whole, old or new.
        ensures same { OnErr result (self.new.blocks ≡ self.old.blocks) }
        ensures failed { OnErr result ((I.told self.new.image ≡ I.told self.old.image)
            ⊎ (I.told self.new.image ≡ told_set (I.told self.old.image) lbn b.now)) }
        ensures size { I.size self.new.image ≡ I.size self.old.image }
        ensures cause { HasCause (I.faults self.old.image) (I.faults self.new.image) result }

        // It is lost where it failed, and only there.
        ensures kept { OnOk result (I.lost self.new.image ≡ I.lost self.old.image) }
        ensures lost { HasCause (I.lost self.old.image) (I.lost self.new.image) result }
    {
        match self.image.write_block(lbn, b) {
            Ok(()) => {
                self.blocks[lbn as usize] = *b;
                Ok(())
            }
            Err(DevFault) => Err(ImageFault),
        }
    }

    /// The image below.
    pub fn into_image(self) -> I
        ensures { result ≡ self.image }
    {
        let Mirror { blocks: _, image } = self;
        image
    }
}
