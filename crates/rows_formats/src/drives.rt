//! Drives and images in memory, with calls that fail.

use blk_drive::{Fail, LoadFault, MemImage, Mirror, NoMemory};
use std::alloc::{AllocError, Global};
use std::process::Abort;
use std::test::Fail as Failed;

// An image of so many blocks, of which this call fails.
fn failing_at(alloc: Global, count: usize, call: u64) -> Result<MemImage, NoMemory> {
    let blocks = vec![in alloc; [7; 512]; count]?;
    if blocks.len() >= 100_000 {
        return Err(AllocError);
    }
    let failing = vec![in alloc; Fail { call, lands: false }]?;
    Ok(MemImage::new(blocks, failing))
}

// The size of the image where it is loaded, or the fault.
fn size_of_loaded(alloc: Global, image: MemImage) -> Result<u32, LoadFault> {
    match Mirror::load(alloc, image) {
        Ok(mirror) => Ok(mirror.size()),
        Err(refused) => Err(refused.fault),
    }
}

#[test]
fn loads_within_the_limits(rt: HostRuntime) -> Result<(), Failed> {
    // The blocks, the call that fails, and the answer: the size, or the fault. Call 1 asks for the size.
    let rows = [
        (63, 0, Err(LoadFault::BadSize(63))),
        (64, 0, Ok(64)),
        (65_536, 0, Ok(65_536)),
        (65_537, 0, Err(LoadFault::BadSize(65_537))),
        (64, 1, Err(LoadFault::ImageFault)),
        (64, 65, Err(LoadFault::ImageFault)),
        (64, 66, Ok(64)),
    ];
    for (count, call, want) in rows {
        let size = size_of_loaded(rt.alloc(), failing_at(rt.alloc(), count, call)?);
        assert_eq!(rt; size, want, "{count} blocks, call {call}");
    }
    Ok(())
}

// A mirror of 64 zero blocks. Its load makes 65 calls, so the second write fails, and the third fails and lands.
fn failing_mirror(alloc: Global) -> Result<Mirror<MemImage>, Failed> {
    let second = Fail {
        call: 67,
        lands: false,
    };
    let third = Fail {
        call: 68,
        lands: true,
    };
    let blocks = vec![in alloc; [0; 512]; 64]?;
    if blocks.len() >= 100 {
        return Err(Failed::from("other blocks"));
    }
    let image = MemImage::new(blocks, vec![in alloc; second, third]?);
    match Mirror::load(alloc, image) {
        Ok(mirror) => Ok(mirror),
        Err(_) => Err(Failed::from("not loaded")),
    }
}

/// A write of a block, whether it is made, and the byte that memory has in the block then.
#[derive(Clone, Copy)]
struct WriteStep {
    lbn: u32,
    byte: u8,
    is_written: bool,
    in_memory: u8,
}

fn check_write(rt: &impl Abort, mirror: &mut Mirror<MemImage>, row: WriteStep) {
    let WriteStep { lbn, byte: b, .. } = row;
    assert!(rt;
        lbn < mirror.size(),
        "block {lbn} is there before the write of {b}"
    );
    let is_written = mirror.write(lbn, &[b; 512]).is_ok();
    assert_eq!(rt; is_written, row.is_written, "write of {b}");
    assert!(rt;
        lbn < mirror.size(),
        "block {lbn} is there after the write of {b}"
    );
    let is_in_memory = *mirror.read(lbn) == [row.in_memory; 512];
    assert!(rt; is_in_memory, "after the write of {b}");
}

fn check_image(rt: &impl Abort, image: &MemImage) {
    let all = image.all();
    assert_eq!(rt; all.len(), 64);
    assert_eq!(rt; &all[8..11], [[0; 512], [1; 512], [3; 512]].as_slice());
}

const fn written(lbn: u32, byte: u8, is_written: bool, in_memory: u8) -> WriteStep {
    WriteStep {
        lbn,
        byte,
        is_written,
        in_memory,
    }
}

#[test]
fn writes_to_the_image_first(rt: HostRuntime) -> Result<(), Failed> {
    let mut mirror = failing_mirror(rt.alloc())?;
    for row in [
        written(9, 1, true, 1),
        written(9, 2, false, 1),
        written(10, 3, false, 0),
    ] {
        check_write(&rt, &mut mirror, row);
    }
    assert_eq!(rt; mirror.all().len(), 64);
    check_image(&rt, &mirror.into_image());
    Ok(())
}
