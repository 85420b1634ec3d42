//! A file that goes: its clusters in rising order, the blocks of their bits, and the writes that free them and its number.

use base_words::Block;
use lock_db::LockName;
use op_law::{NoMemory, Numbers, PlanWrite, Writes};
use op_steps::{blocks_for, push_freeing, rising};
use plain_cat::Stage;
use std::alloc::Global;
use std::test::Fail;
use vol_parts::Geometry;

/// 16,384 clusters of four blocks, and 32 file numbers: the index-file bitmap is LBN 16, and the storage bitmap is LBN 1001 to
/// 1004.
const LARGE: Geometry = Geometry {
    blocks: 65536,
    cluster: 4,
    files: 32,
    bitmap_lbn: 1000,
    quota_lbn: 2000,
};

/// A block with these bytes at these places, and zeros elsewhere.
fn block(bytes: &[(usize, u8)]) -> Block {
    let mut b = [0; 512];
    for (place, byte) in bytes {
        if let Some(here) = b.get_mut(*place) {
            *here = *byte;
        }
    }
    b
}

/// The clusters of a file in the file's order: two with their bits in the first block of the bitmap, and two in the third.
const OF_FILE: &[u32] = &[8200, 4095, 8192, 3];

/// Whether they come in rising order, and the blocks of their bits are the first and the third.
fn come_in_order(alloc: Global) -> Result<bool, NoMemory> {
    let clusters = rising(alloc, &LARGE, OF_FILE)?;
    let places = blocks_for(alloc, &LARGE, &clusters)?;
    Ok(
        clusters.items() == [3, 4095, 8192, 8200].as_slice()
            && places.as_slice() == [0, 2].as_slice(),
    )
}

#[test]
fn clusters_and_their_blocks_come_in_order(rt: HostRuntime) -> Result<(), Fail> {
    let in_order = come_in_order(rt.alloc())?;
    assert!(&rt;
        in_order,
        "clusters, and the blocks of their bits, come in rising order"
    );
    Ok(())
}

/// A write under V of this block, after which these clusters are outside and these numbers.
fn is_write(write: &PlanWrite, lbn: u32, block: &Block, clusters: &[u32], numbers: &[u32]) -> bool {
    write.lock == LockName::V
        && write.stage == Stage::Freed
        && write.lbn == lbn
        && write.block == *block
        && write.clusters.items() == clusters
        && write.numbers.items() == numbers
}

/// The writes that make those clusters free, and number 12. A bit that was set stays set.
fn free_all(writes: &[PlanWrite]) -> bool {
    let first = block(&[(0, 0x18), (511, 0x80)]);
    let third = block(&[(0, 0x01), (1, 0x01)]);
    let index = block(&[(0, 0xff), (1, 0x07)]);
    matches!(writes, [one, two, number] if is_write(one, 1001, &first, &[8192, 8200], &[12])
        && is_write(two, 1003, &third, &[], &[12])
        && is_write(number, 16, &index, &[], &[]))
}

/// Whether the writes of a file that goes are these.
fn are_freed(alloc: Global) -> Result<bool, NoMemory> {
    let clusters = rising(alloc, &LARGE, OF_FILE)?;
    let mut numbers = Numbers::new(alloc);
    numbers.push(12)?;
    let storage = [(1001, block(&[(0, 0x10)])), (1003, block(&[]))];
    let index = block(&[(0, 0xff), (1, 0x0f)]);
    let places = blocks_for(alloc, &LARGE, &clusters)?;
    if places.len() != storage.len() {
        return Ok(false);
    }
    let mut writes = Writes::new(alloc);
    push_freeing(
        alloc,
        &mut writes,
        &LARGE,
        Stage::Freed,
        &clusters,
        &numbers,
        &storage,
        &index,
    )?;
    Ok(free_all(writes.items()))
}

#[test]
fn a_file_that_goes_is_freed_in_both_bitmaps(rt: HostRuntime) -> Result<(), Fail> {
    let freed = are_freed(rt.alloc())?;
    assert!(&rt;
        freed,
        "the writes that free the clusters and the number of a file"
    );
    Ok(())
}
