//! Each write of a format fails, landing or not. What is left is the old volume, no volume, or the new one, and made again it is the new one.

use base_words::Block;
use blk_drive::MemImage;
use rows_calls::{
    Exchange, On, Stop, Wrong, answered, call, check_answer, check_same, expect, failing, image_of,
    text_of,
};
use std::alloc::Global;
use std::test::Fail;

const FORMAT: &[&str] = &["init", "2", "40", "NEW"];

const MADE: &str = "volume NEW: 64 blocks, 3 free clusters, 29 free numbers\n";

// What is left is the old blocks, or a volume in which nothing is found, or none: the first home block is not taken.
fn check_left(alloc: Global, left: &MemImage, blocks: &[Block]) -> Result<(), Wrong> {
    let found = call(alloc, &["analyze"], image_of(alloc, left.all(), None)?, "")?;
    let text = text_of(&found);
    let is_so = (found.code == 0 && text == "accepted\n")
        || (found.code == 5 && text.starts_with("home: "))
        || left.all() == blocks;
    expect(alloc, is_so, text)
}

// Whether a format of these blocks comes to the write that fails. It is told then, and made again it leaves these.
fn is_stopped(alloc: Global, image: &MemImage, stop: Stop, end: &[Block]) -> Result<bool, Wrong> {
    let stopped = call(alloc, FORMAT, failing(alloc, image, stop)?, "")?;
    if stopped.code == 0 {
        return Ok(false);
    }
    check_answer(
        alloc,
        &stopped,
        Exchange::worded(FORMAT, 4, "image fault\n"),
    )?;
    check_left(alloc, &stopped.image, image.all())?;
    let again = answered(alloc, stopped.image, Exchange::worded(FORMAT, 0, MADE))?;
    check_same(alloc, &again, end, "a format that is made again")?;
    Ok(true)
}

// How many writes a format has, at most 64, of which each fails, landing or not.
fn stops(alloc: Global, image: &MemImage, end: &[Block]) -> Result<u64, Wrong> {
    for write in 1..65u64 {
        let stop = Stop {
            write,
            lands: false,
        };
        let lost = is_stopped(alloc, image, stop, end)?;
        let landed = is_stopped(
            alloc,
            image,
            Stop {
                lands: true,
                ..stop
            },
            end,
        )?;
        expect(alloc, lost == landed, "a write that fails, landing or not")?;
        if !lost {
            return Ok(write.saturating_sub(1));
        }
    }
    Ok(65)
}

// A format has more than 40 writes.
fn is_formatted(alloc: Global, image: &MemImage) -> Result<(), Wrong> {
    let copy = image_of(alloc, image.all(), None)?;
    let made = answered(alloc, copy, Exchange::worded(FORMAT, 0, MADE))?;
    let count = stops(alloc, image, made.all())?;
    expect(alloc, count > 40, "more than 40 writes")
}

// On zeros, and on a volume.
#[test]
fn each_write_of_a_format(rt: HostRuntime) -> Result<(), Fail> {
    for on in [On::Zeros(64), On::Tiny] {
        is_formatted(rt.alloc(), &on.image(rt.alloc())?)?;
    }
    Ok(())
}
