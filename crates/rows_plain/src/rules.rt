//! The worked examples: nodes give commands to a fresh volume, of which 231 clusters are free.

use replay::{Step, block_of, replay_row};
use std::test::Fail;

mod channels;
mod deaths;
mod directories;
mod histories;
mod nodes;
mod numbers;
mod quotas;
mod replay;
mod sizes;

/// Commands of node 1 on a fresh volume, after which so many clusters are free.
const ROWS: [(&str, &[Step], u32); 9] = [
    ("in clusters", &sizes::ONE_FILE, 228),
    ("several headers", &sizes::SEVERAL_HEADERS, 154),
    ("refusals of EXTEND", &sizes::REFUSED_GROWTH, 0),
    ("versions", &directories::VERSIONS, 231),
    ("directory", &directories::EMPTY_DIRECTORY, 230),
    ("ordinary", &directories::ORDINARY_USE, 229),
    ("renaming", &directories::RENAMING, 228),
    ("open file", &channels::OPEN_FILE, 228),
    ("deleted while open", &channels::DELETED_WHILE_OPEN, 231),
];

#[test]
fn commands_have_their_answers(rt: HostRuntime) -> Result<(), Fail> {
    for (row, steps, free) in &ROWS {
        replay_row(&rt, rt.alloc(), row, steps, *free)?;
    }
    Ok(())
}

// The sums that a READ prints.
#[test]
fn blocks_have_their_sums(rt: HostRuntime) {
    let sums = [&channels::ZEROS, &channels::FIVE, &nodes::HELLO].map(sum_of);
    assert_eq!(rt; sums, [0, 298, 372]);
}

fn sum_of(front: &[u8; 5]) -> u32 {
    let mut sum = 0u32;
    for byte in block_of(front).iter() {
        sum = sum.wrapping_add(*byte as u32);
    }
    sum
}
