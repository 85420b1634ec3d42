//! Images of random bytes, and volumes with one byte changed at random, through each job: each ends with a number of its own, and they
//! agree with each other.

use blk_drive::MemImage;
use plain_cat::NoMemory;
use rows_calls::{
    Called, Exchange, On, REBUILD, Wrong, answered, call, check_same, expect, image_of, text_of,
};
use std::alloc::Global;
use std::test::Fail;

/// Numbers that look random, each made of the one before.
#[derive(Clone, Copy)]
struct Numbers {
    last: u32,
}

impl Numbers {
    // The next 16 bits.
    fn half(&mut self) -> u32 {
        self.last = self.last.wrapping_mul(1_103_515_245).wrapping_add(12_345);
        self.last >> 16
    }

    // A byte.
    fn byte(&mut self) -> u8 {
        (self.half() & 0xff) as u8
    }
}

const RUN: &[&str] = &["run"];

const SCRIPT: &str =
    "NODES 2\n1 LIST MFD\n1 CREATE R1 MFD NEW.TXT;0 1 [1,1]\n2 LIST LOST\n2 DELETE MFD NEW.TXT;0\n";

const ANALYZE: &[&str] = &["analyze"];

const FORMAT: &[&str] = &["init", "1", "32", "TINY"];

// A call has to end with status 0 or 5 and a line, and with 5 to leave the blocks.
fn check_named(alloc: Global, called: &Called, image: &MemImage) -> Result<(), Wrong> {
    let text = text_of(called);
    let is_named = (called.code == 0 || called.code == 5) && text.ends_with("\n");
    expect(alloc, is_named, text)?;
    if called.code == 5 {
        check_same(alloc, &called.image, image.all(), text)?;
    }
    Ok(())
}

// The status of a job on a copy. Behind one that went well nothing is found.
fn status(alloc: Global, image: &MemImage, words: &[&str], script: &str) -> Result<u8, Wrong> {
    let called = call(alloc, words, image_of(alloc, image.all(), None)?, script)?;
    check_named(alloc, &called, image)?;
    let code = called.code;
    if code == 0 {
        answered(alloc, called.image, Exchange::finds("accepted\n"))?;
    }
    Ok(code)
}

// An image goes through each job: whether nothing is found, and whether it is mended.
fn through(alloc: Global, image: &MemImage) -> Result<(bool, bool), Wrong> {
    let found = status(alloc, image, ANALYZE, "")?;
    let ran = status(alloc, image, RUN, SCRIPT)?;
    let mended = status(alloc, image, REBUILD, "")?;
    let made = status(alloc, image, FORMAT, "")?;
    let agree = ran == found && (mended == 0 || found == 5) && made == 0;
    let what = format!(in alloc; "found {found}, ran {ran}, mended {mended}, made {made}")?;
    expect(alloc, agree, what.as_str())?;
    Ok((found == 0, mended == 0))
}

// 64 blocks of random bytes.
fn random(alloc: Global, numbers: &mut Numbers) -> Result<MemImage, NoMemory> {
    let mut blocks = vec![in alloc; [0; 512]; 64]?;
    for block in blocks.iter_mut() {
        for byte in block.iter_mut() {
            *byte = numbers.byte();
        }
    }
    image_of(alloc, blocks.as_slice(), None)
}

/// How many images of random bytes, and how many volumes of each kind.
const RANDOM: usize = 20;

const CHANGED: usize = 60;

// None of them is a volume.
#[test]
fn random_bytes(rt: HostRuntime) -> Result<(), Fail> {
    let alloc = rt.alloc();
    let mut numbers = Numbers { last: 1 };
    for _ in 0..RANDOM {
        let image = random(alloc, &mut numbers)?;
        let through = through(alloc, &image)?;
        assert_eq!(rt; through, (false, false));
    }
    Ok(())
}

// One byte is another one, which may be in each block, half of the time in its front.
fn with_a_change(
    alloc: Global,
    image: &MemImage,
    numbers: &mut Numbers,
) -> Result<MemImage, NoMemory> {
    let mut blocks = Vec::from_slice(alloc, image.all())?;
    let lbn = (numbers.half() & 63) as usize;
    let wide = if numbers.half() & 1 == 0 { 0x1ff } else { 0x7f };
    let at = (numbers.half() & wide) as usize;
    let byte = numbers.byte();
    if let Some(block) = blocks.get_mut(lbn) {
        if let Some(place) = block.get_mut(at) {
            *place = byte;
        }
    }
    image_of(alloc, blocks.as_slice(), None)
}

/// A script that makes directories and files, one of which is open and written.
const USING: &str = "NODES 2\n\
    1 MKDIR R1 MFD USERS [1,4]\n\
    1 CREATE R2 R1 LOGIN.COM;0 3 [1,4]\n\
    1 CREATE R3 R1 LOGIN.COM;0 3 [1,4]\n\
    2 CREATE R1 MFD A.TXT;0 2 [1,1]\n\
    2 OPEN 1 R1 PW\n\
    2 WRITE 1 1 HELLO\n";

/// One by which a node dies, so that its file is lost.
const DYING: &str = "NODES 2\n\
    KILL 1 WRITE 5\n\
    1 CREATE R1 MFD A.TXT;0 1 [1,4]\n\
    2 CREATE R1 LOST B.TXT;0 1 [1,4]\n";

// Volumes with one byte changed. How many of them have something found, and how many of these are mended.
fn all_through(alloc: Global, image: &MemImage, seed: u32) -> Result<(usize, usize), Wrong> {
    let mut numbers = Numbers { last: seed };
    let mut spoilt = 0usize;
    let mut mended = 0usize;
    for _ in 0..CHANGED {
        let changed = with_a_change(alloc, image, &mut numbers)?;
        let (accepted, mends) = through(alloc, &changed)?;
        if !accepted {
            spoilt = spoilt.saturating_add(1);
            if mends {
                mended = mended.saturating_add(1);
            }
        }
    }
    Ok((spoilt, mended))
}

// A byte of the volume that a script leaves.
fn behind(alloc: Global, script: &str, seed: u32) -> Result<(usize, usize), Wrong> {
    let used = call(alloc, RUN, On::Tiny.image(alloc)?, script)?;
    expect(alloc, used.code == 0, script)?;
    all_through(alloc, &used.image, seed)
}

// A byte of a fresh volume, of one with files, and of what a death left.
#[test]
fn a_byte_of_a_volume(rt: HostRuntime) -> Result<(), Fail> {
    let alloc = rt.alloc();
    for (script, seed) in [("NODES 1\n", 2), (USING, 3)] {
        let (spoilt, mended) = behind(alloc, script, seed)?;
        assert!(rt; spoilt > 10 && mended < spoilt, "{spoilt} {mended}");
    }
    let (spoilt, mended) = behind(alloc, DYING, 4)?;
    assert!(rt; spoilt == CHANGED && mended > 10, "{spoilt} {mended}");
    Ok(())
}
