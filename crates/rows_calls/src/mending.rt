//! A mending of which each write fails.

use crate::calls::{Exchange, call};
use crate::checks::{Wrong, check_answer, check_same, expect};
use crate::images::image_of;
use crate::steps::{REBUILD, after, mended};
use crate::stops::{Stop, failing};
use base_words::Block;
use blk_drive::MemImage;
use std::alloc::Global;

// Whether a mending comes to the write that fails. It is told then, and made again it leaves these blocks.
fn is_stopped(alloc: Global, image: &MemImage, stop: Stop, end: &[Block]) -> Result<bool, Wrong> {
    let called = call(alloc, REBUILD, failing(alloc, image, stop)?, "")?;
    if called.code == 0 {
        return Ok(false);
    }
    check_answer(
        alloc,
        &called,
        Exchange::worded(REBUILD, 4, "image fault\n"),
    )?;
    let again = after(alloc, called.image, REBUILD, "", 0, ("rebuilt: ", "\n"))?;
    check_same(alloc, &again, end, "a mending that is made again")?;
    Ok(true)
}

// How many writes a mending has, at most 30, of which each fails, landing or not, and behind which it is made again.
fn stops(alloc: Global, image: &MemImage, end: &[Block]) -> Result<u64, Wrong> {
    for write in 1..31u64 {
        let stop = Stop {
            write,
            lands: false,
        };
        let lost = is_stopped(alloc, image, stop, end)?;
        let landed = is_stopped(
            alloc,
            image,
            Stop {
                lands: true,
                ..stop
            },
            end,
        )?;
        expect(alloc, lost == landed, "a write that fails, landing or not")?;
        if !lost {
            return Ok(write.saturating_sub(1));
        }
    }
    Ok(31)
}

/// The mended image, in which nothing is left to mend; and how many writes the mending has, at most 30. Each of them fails in turn, and the
/// mending is made again.
pub fn each_stops(alloc: Global, image: &MemImage) -> Result<(MemImage, u64), Wrong> {
    let end = mended(alloc, image_of(alloc, image.all(), None)?, "rebuilt: ")?;
    let writes = stops(alloc, image, end.all())?;
    Ok((end, writes))
}
