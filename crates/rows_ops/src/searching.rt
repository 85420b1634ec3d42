//! The search for free clusters and a free file number on the bitmaps of a volume: the blocks are looked at in order, and then the index
//! block is written, and the storage blocks, the lowest clusters first.

use base_words::Block;
use core_space::{Search, search};
use lock_db::LockName;
use op_law::PlanWrite;
use plain_cat::{NoMemory, Refusal, Stage};
use std::alloc::Global;
use std::process::Abort;
use std::test::Fail;
use vol_parts::Geometry;

/// 8,192 clusters of eight blocks, and 32 file numbers: the index-file bitmap is LBN 32, and the storage bitmap is LBN 1001 and
/// 1002.
const LARGE: Geometry = Geometry {
    blocks: 65536,
    cluster: 8,
    files: 32,
    bitmap_lbn: 1000,
    quota_lbn: 2000,
};

/// An LBN, and the bytes of its block that are not zero, each with its place.
type Bytes = (u32, &'static [(usize, u8)]);

/// The numbers 1 to 12 are in use.
const INDEX: Bytes = (32, &[(0, 0xff), (1, 0x0f)]);

/// All 32 are. The bits behind them are clear.
const FULL: Bytes = (32, &[(0, 0xff), (1, 0xff), (2, 0xff), (3, 0xff)]);

/// The clusters 100 and 4,095 are free.
const FIRST: Bytes = (1001, &[(12, 0x10), (511, 0x80)]);

/// The clusters 4,097 and 5,000 are free.
const SECOND: Bytes = (1002, &[(0, 0x02), (113, 0x01)]);

/// A write under V: its block, the clusters that are outside behind it, and the number.
#[derive(Clone, Copy)]
struct Taking {
    bytes: Bytes,
    clusters: &'static [u32],
    number: Option<u32>,
}

/// The write of the index-file bitmap that takes number 13.
const NUMBER: Taking = Taking {
    bytes: (32, &[(0, 0xff), (1, 0x1f)]),
    clusters: &[],
    number: Some(13),
};

/// What a search comes to.
#[derive(Clone, Copy)]
enum Found {
    Look(u32),
    Short(Refusal),
    Take(&'static [Taking]),
}

/// So many clusters, and a number or none, behind looks at these blocks.
#[derive(Clone, Copy)]
struct Case {
    clusters: u32,
    number: bool,
    looked: &'static [Bytes],
    found: Found,
}

/// A number and three clusters: all free ones of the first storage block, and the lowest of the second. One cluster is the lowest, and the
/// block behind it is neither looked at nor written. A full index is refused at once, and a full device behind the last block. A number
/// alone needs the index block alone, and nothing needs nothing.
const CASES: &[Case] = &[
    Case {
        clusters: 3,
        number: true,
        looked: &[],
        found: Found::Look(32),
    },
    Case {
        clusters: 3,
        number: true,
        looked: &[INDEX],
        found: Found::Look(1001),
    },
    Case {
        clusters: 3,
        number: true,
        looked: &[INDEX, FIRST],
        found: Found::Look(1002),
    },
    Case {
        clusters: 3,
        number: true,
        looked: &[INDEX, FIRST, SECOND],
        found: Found::Take(&[
            NUMBER,
            Taking {
                bytes: (1001, &[]),
                clusters: &[100, 4095],
                number: Some(13),
            },
            Taking {
                bytes: (1002, &[(113, 0x01)]),
                clusters: &[100, 4095, 4097],
                number: Some(13),
            },
        ]),
    },
    Case {
        clusters: 1,
        number: false,
        looked: &[FIRST],
        found: Found::Take(&[Taking {
            bytes: (1001, &[(511, 0x80)]),
            clusters: &[100],
            number: None,
        }]),
    },
    Case {
        clusters: 3,
        number: true,
        looked: &[FULL],
        found: Found::Short(Refusal::IndexFull),
    },
    Case {
        clusters: 5,
        number: false,
        looked: &[FIRST],
        found: Found::Look(1002),
    },
    Case {
        clusters: 5,
        number: false,
        looked: &[FIRST, SECOND],
        found: Found::Short(Refusal::DeviceFull),
    },
    Case {
        clusters: 4,
        number: false,
        looked: &[FIRST, SECOND],
        found: Found::Take(&[
            Taking {
                bytes: (1001, &[]),
                clusters: &[100, 4095],
                number: None,
            },
            Taking {
                bytes: (1002, &[]),
                clusters: &[100, 4095, 4097, 5000],
                number: None,
            },
        ]),
    },
    Case {
        clusters: 0,
        number: true,
        looked: &[],
        found: Found::Look(32),
    },
    Case {
        clusters: 0,
        number: true,
        looked: &[INDEX],
        found: Found::Take(&[NUMBER]),
    },
    Case {
        clusters: 0,
        number: false,
        looked: &[],
        found: Found::Take(&[]),
    },
];

// A block with these bytes at their places, and zeros elsewhere.
fn block(bytes: &[(usize, u8)]) -> Block {
    let mut b = [0; 512];
    for (place, byte) in bytes {
        if let Some(here) = b.get_mut(*place) {
            *here = *byte;
        }
    }
    b
}

// The write has to be this one.
fn check_write(rt: &impl Abort, k: usize, write: &PlanWrite, wanted: &Taking) {
    let (lbn, bytes) = wanted.bytes;
    assert_eq!(rt;
        (write.lock, write.lbn, write.stage, write.number),
        (LockName::V, lbn, Stage::Nothing, wanted.number),
        "case {k}"
    );
    assert_eq!(rt;
        write.clusters.items(),
        wanted.clusters,
        "case {k}, what is outside behind {lbn}"
    );
    assert!(rt; write.block == block(bytes), "case {k}, the block of {lbn}");
}

// The search has to come to this.
fn check_found(rt: &impl Abort, k: usize, found: &Search, wanted: Found) {
    match (found, wanted) {
        (Search::Look(lbn), Found::Look(next)) => {
            assert_eq!(rt; *lbn, next, "case {k}, the next look")
        }
        (Search::Short(why), Found::Short(reason)) => {
            assert_eq!(rt; *why, reason, "case {k}, the refusal")
        }
        (Search::Take(writes), Found::Take(takings)) => {
            assert_eq!(rt;
                writes.items().len(),
                takings.len(),
                "case {k}, the count of writes"
            );
            for (write, taking) in writes.items().iter().zip(takings) {
                check_write(rt, k, write, taking);
            }
        }
        _ => panic!(rt; "case {k}: another kind of answer"),
    }
}

// What a search behind these looks comes to.
fn searched(alloc: Global, case: &Case) -> Result<Search, NoMemory> {
    let mut looked = Vec::new(alloc);
    for (lbn, bytes) in case.looked {
        looked.push((*lbn, block(bytes)))?;
    }
    search(alloc, &LARGE, case.clusters, case.number, looked.as_slice())
}

#[test]
fn searches_come_to_looks_and_writes(rt: HostRuntime) -> Result<(), Fail> {
    for (k, case) in CASES.iter().enumerate() {
        check_found(&rt, k, &searched(rt.alloc(), case)?, case.found);
    }
    Ok(())
}
