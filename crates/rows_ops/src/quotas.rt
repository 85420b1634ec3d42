//! QUOTASET and QUOTASHOW, under the lock of the quota file, whose two blocks are looked at.

use crate::plans::{Row, check, check_all, check_bytes};
use base_words::Block;
use fx_quota::{Row as QuotaRow, set_row};
use rows_sample::volume;
use std::test::Fail;

/// [1,4] has a row, and [2,2] has none.
const SHOWN: &[Row<'static>] = &[
    (
        "1 QUOTASHOW [1,4]",
        "Q PR at 46 47",
        "usage 3 quota 200 overdraft 0",
    ),
    ("1 QUOTASHOW [2,2]", "Q PR at 46 47", "refused NoQuota"),
];

#[test]
fn quotas_are_shown(rt: HostRuntime) -> Result<(), Fail> {
    check_all(&rt, rt.alloc(), &volume(), None, SHOWN)?;
    Ok(())
}

// The volume, with rows of other owners from row 2 on, so that so many of the 32 are active. Its quota blocks are LBN 46 and 47.
fn with_rows(active: u32) -> [Block; 64] {
    let mut blocks = volume();
    for j in 2..active.min(32) {
        let row = QuotaRow {
            uic: 196_608 + j,
            usage: 0,
            quota: 1,
            over: 0,
        };
        set_row(&mut blocks[46 + (j / 16) as usize], j % 16, &row);
    }
    blocks
}

const IN_THE_FIRST: &str = "Q 46 Done\nset";

const IN_THE_SECOND: &str = "Q 47 Done\nset";

const OF_USER: &[u8] = b"\x01\0\0\0\x04\0\x01\0\x03\0\0\0\x0d\0\0\0\x04\0\0\0";

const OF_STRANGER: &[u8] = b"\x01\0\0\0\x02\0\x02\0\0\0\0\0\x0d\0\0\0\x04\0\0\0";

/// So many active rows, the owner, the plan, and the row that it writes with its place. The usage stays; a new row has none, and comes
/// into the first that is not active, which may be in the second block.
const SET: &[(u32, &str, &str, usize, &[u8])] = &[
    (2, "1 QUOTASET [1,4] 13 4", IN_THE_FIRST, 32, OF_USER),
    (2, "1 QUOTASET [2,2] 13 4", IN_THE_FIRST, 64, OF_STRANGER),
    (31, "1 QUOTASET [2,2] 13 4", IN_THE_SECOND, 480, OF_STRANGER),
];

const FULL: Row<'static> = (
    "1 QUOTASET [2,2] 13 4",
    "Q PW at 46 47",
    "refused QuotaFull",
);

#[test]
fn quotas_are_set(rt: HostRuntime) -> Result<(), Fail> {
    let alloc = rt.alloc();
    for (active, words, plan, at, row) in SET {
        let set = (*words, "Q PW at 46 47", *plan);
        let writes = check(&rt, alloc, &with_rows(*active), None, set)?;
        check_bytes(&rt, &writes, 0, *at, row);
    }
    check(&rt, alloc, &with_rows(32), None, FULL)?;
    Ok(())
}
