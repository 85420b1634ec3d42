//! Rows of steps.

use crate::checks::Wrong;
use crate::images::{On, image_of};
use crate::steps::Step;
use blk_drive::MemImage;
use std::alloc::Global;

/// A volume, what happens on it first, and what then happens on it, each on a copy.
#[derive(Clone, Copy)]
pub struct Row<'a> {
    pub on: On,
    pub first: &'a [Step<'a>],
    pub each: &'a [&'a [Step<'a>]],
}

// The image behind these steps.
fn steps(alloc: Global, image: MemImage, steps: &[Step<'_>]) -> Result<MemImage, Wrong> {
    let mut image = image;
    for step in steps {
        image = step.done(alloc, image)?;
    }
    Ok(image)
}

impl<'a> Row<'a> {
    /// The volume behind what happens first.
    pub fn begun(self, alloc: Global) -> Result<MemImage, Wrong> {
        steps(alloc, self.on.image(alloc)?, self.first)
    }

    // What happens, each on a copy.
    fn play(self, alloc: Global) -> Result<(), Wrong> {
        let image = self.begun(alloc)?;
        for each in self.each {
            steps(alloc, image_of(alloc, image.all(), None)?, each)?;
        }
        Ok(())
    }
}

/// What happens in each row.
pub fn play(alloc: Global, rows: &[Row<'_>]) -> Result<(), Wrong> {
    for row in rows {
        row.play(alloc)?;
    }
    Ok(())
}
