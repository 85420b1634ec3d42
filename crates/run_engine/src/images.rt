//! An image as the top calls have it.

ghost use Rattle.blk_drive.specs.Images.{HasSize};

use blk_drive::ImageDev;

/// The blocks that an image tells, if it tells any, are as many as it has. It does nothing.
pub fn blocks_are_counted<I: ImageDev>(image: &I)
    ensures { HasSize (I.told image.now) (I.size image.now) }
{
    let _image = image;
}
