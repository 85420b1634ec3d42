//! The fresh volume with one edit: what is found, how a run is refused, and whether it is mended.

use rows_calls::{On, REBUILD, Row, Step, play};
use std::test::Fail;

const ANALYZE: &[&str] = &["analyze"];

const RUN: &[&str] = &["run"];

/// Edits behind which a volume is not mended: what is found is printed, a run and a mending are refused, and no block changes. The last is
/// a header of zeros.
const FATAL: &[&[Step<'static>]] = &[
    &[
        Step::Byte(1, 496, 0x58),
        Step::Kept(ANALYZE, "", 5, "home: BadFormat\n"),
        Step::Kept(RUN, "NODES 1\n", 5, "not accepted: home: BadFormat\n"),
        Step::Kept(REBUILD, "", 5, "not mendable: home: BadFormat\n"),
    ],
    &[
        Step::Byte(1, 13, 5),
        Step::Kept(ANALYZE, "", 5, "home: BadLevel\n"),
        Step::Kept(RUN, "NODES 1\n", 5, "not accepted: home: BadLevel\n"),
        Step::Kept(REBUILD, "", 5, "not mendable: home: BadLevel\n"),
    ],
    &[
        Step::Byte(1, 28, 65),
        Step::Kept(ANALYZE, "", 5, "home: BadSum1\n"),
        Step::Kept(RUN, "NODES 1\n", 5, "not accepted: home: BadSum1\n"),
        Step::Kept(REBUILD, "", 5, "not mendable: home: BadSum1\n"),
    ],
    &[
        Step::Byte(1, 100, 1),
        Step::Kept(ANALYZE, "", 5, "home: BadSum2\n"),
        Step::Kept(RUN, "NODES 1\n", 5, "not accepted: home: BadSum2\n"),
        Step::Kept(REBUILD, "", 5, "not mendable: home: BadSum2\n"),
    ],
    &[
        Step::Byte(84, 100, 1),
        Step::Kept(ANALYZE, "", 5, "storage control block: BadSum\n"),
        Step::Kept(
            RUN,
            "NODES 1\n",
            5,
            "not accepted: storage control block: BadSum\n",
        ),
        Step::Kept(
            REBUILD,
            "",
            5,
            "not mendable: storage control block: BadSum\n",
        ),
    ],
    &[
        Step::Byte(88, 0, 0),
        Step::Kept(ANALYZE, "", 5, "directory 4: BadRecord\n"),
        Step::Kept(
            RUN,
            "NODES 1\n",
            5,
            "not accepted: directory 4: BadRecord\n",
        ),
        Step::Kept(REBUILD, "", 5, "not mendable: directory 4: BadRecord\n"),
    ],
    &[
        Step::Byte(96, 0, 0),
        Step::Kept(ANALYZE, "", 5, "no quota row for 1\n"),
        Step::Kept(RUN, "NODES 1\n", 5, "not accepted: no quota row for 1\n"),
        Step::Kept(REBUILD, "", 5, "not mendable: no quota row for 1\n"),
    ],
    &[
        Step::Byte(85, 0, 1),
        Step::Kept(ANALYZE, "", 5, "free cluster 0 in use\n"),
        Step::Kept(RUN, "NODES 1\n", 5, "not accepted: free cluster 0 in use\n"),
        Step::Kept(REBUILD, "", 5, "not mendable: free cluster 0 in use\n"),
    ],
    &[
        Step::Byte(16, 0, 0xfe),
        Step::Kept(ANALYZE, "", 5, "free number 1 in use\n"),
        Step::Kept(RUN, "NODES 1\n", 5, "not accepted: free number 1 in use\n"),
        Step::Kept(REBUILD, "", 5, "not mendable: free number 1 in use\n"),
    ],
    &[
        Step::Byte(28, 8, 12),
        Step::Kept(ANALYZE, "", 5, "header 12: BadSum\n"),
        Step::Kept(RUN, "NODES 1\n", 5, "not accepted: header 12: BadSum\n"),
        Step::Kept(REBUILD, "", 5, "not mendable: header 12: BadSum\n"),
    ],
    &[
        Step::Without(27),
        Step::Kept(ANALYZE, "", 5, "system file 11\n"),
        Step::Kept(RUN, "NODES 1\n", 5, "not accepted: system file 11\n"),
        Step::Kept(REBUILD, "", 5, "not mendable: system file 11\n"),
    ],
];

/// Edits behind which it is, and what is printed of that. It is the fresh volume then.
const MENDED: &[&[Step<'static>]] = &[
    &[
        Step::Byte(85, 4, 0xfe),
        Step::Kept(ANALYZE, "", 5, "leaked clusters 1\n"),
        Step::Kept(RUN, "NODES 1\n", 5, "not accepted: leaked clusters 1\n"),
        Step::Call(
            REBUILD,
            "",
            0,
            "rebuilt: 0 entered, 0 entries removed, 0 files gone, 1 clusters, 0 numbers\n",
        ),
        Step::Changed(&[]),
    ],
    &[
        Step::Byte(96, 8, 0x70),
        Step::Kept(ANALYZE, "", 5, "usage of [1,1]: has 112, should be 111\n"),
        Step::Kept(
            RUN,
            "NODES 1\n",
            5,
            "not accepted: usage of [1,1]: has 112, should be 111\n",
        ),
        Step::Call(
            REBUILD,
            "",
            0,
            "rebuilt: 0 entered, 0 entries removed, 0 files gone, 0 clusters, 0 numbers\n",
        ),
        Step::Changed(&[]),
    ],
];

/// A file's header is spoilt; and look-ups where it is not.
const OF_A_FILE: &[&[Step<'static>]] = &[
    &[
        Step::Byte(28, 100, 1),
        Step::Kept(ANALYZE, "", 5, "header 12: BadSum\n"),
        Step::Kept(RUN, "NODES 1\n", 5, "not accepted: header 12: BadSum\n"),
        Step::Kept(REBUILD, "", 5, "not mendable: header 12: BadSum\n"),
    ],
    &[Step::Run(
        "NODES 1\n1 STAT (12,2,0)\n1 STAT (65,1,0)\n",
        "1 N1 STAT (12,2,0) = refused NoSuchFile\n\
         2 N1 STAT (65,1,0) = refused NoSuchFile\n\
         end: 2 answered, 0 died, 228 free\n",
    )],
];

const ROWS: &[Row<'static>] = &[
    Row {
        on: On::Fresh,
        first: &[],
        each: FATAL,
    },
    Row {
        on: On::Fresh,
        first: &[],
        each: MENDED,
    },
    Row {
        on: On::Fresh,
        first: &[Step::About(
            RUN,
            "NODES 1\n1 CREATE R1 MFD A.TXT;0 10 [1,4]\n",
            0,
            "",
            "\n",
        )],
        each: OF_A_FILE,
    },
];

#[test]
fn edits_are_told_or_mended(rt: HostRuntime) -> Result<(), Fail> {
    play(rt.alloc(), ROWS)?;
    Ok(())
}
