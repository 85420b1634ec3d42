//! Images of which a write fails.

use crate::images::image_of;
use blk_drive::{Fail as Failing, MemImage};
use plain_cat::NoMemory;
use std::alloc::Global;

/// A write of the image, from 1, and whether its block is on the image though it fails.
#[derive(Clone, Copy)]
pub struct Stop {
    pub write: u64,
    pub lands: bool,
}

/// The image, of which this write fails. A call begins with one call that asks for the count of blocks, and one for each block.
pub fn failing(alloc: Global, image: &MemImage, stop: Stop) -> Result<MemImage, NoMemory> {
    let reads = (image.all().len() as u64).saturating_add(1);
    let fail = Failing {
        call: stop.write.saturating_add(reads),
        lands: stop.lands,
    };
    image_of(alloc, image.all(), Some(fail))
}

/// Whether a text is that of a job that was cut short: lines of its report, and the fault.
pub fn is_cut(text: &[u8], report: &[u8]) -> bool {
    if !text.ends_with(b"image fault\n") || text.len() < 12 {
        return false;
    }
    let lines = &text[..text.len() - 12];
    report.starts_with(lines) && (lines.is_empty() || lines.ends_with(b"\n"))
}
