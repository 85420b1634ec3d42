//! Creations of which a write of the image fails: what is found on the image behind it.

use rows_calls::{BEFORE, ELEVEN, On, Row, Step, play};
use std::test::Fail;

/// What is found where a node has only its stock outside files and bitmaps.
const STOCK: &str = "leaked clusters 16\nleaked numbers 8\n";

const CHARGED: &str = "leaked clusters 19\nleaked numbers 9\nusage of [1,4]: has 13, should be 0\n";

const DIRECTORY_CHARGED: &str =
    "leaked clusters 17\nleaked numbers 9\nusage of [1,4]: has 5, should be 0\n";

/// The first file's search puts the second file's number into the stock, with seven more. The fifth write charges the owner of the second.
/// The answers before it are told.
const ANSWERED: Step<'static> = Step::Cut(
    "NODES 1\n1 CREATE R1 MFD A.TXT;0 0 [1,4]\n1 STAT R1\n1 CREATE R1 MFD B.TXT;0 0 [1,4]\n",
    "1 N1 CREATE R1 (4,4,0) A.TXT;0 0 [1,4] = (12,1,0) A.TXT;1\n\
     2 N1 STAT (12,1,0) = file [1,4] 0 blocks mark 1 end 1,0\n\
     image fault\n",
    &[(5, false, "leaked numbers 8\n")],
);

/// Index bitmap, storage bitmap, quota row, header, directory. Three clusters and a number are wanted, and sixteen and eight more are
/// taken into the stock.
const FILE: Step<'static> = Step::Cut(
    "NODES 1\n1 CREATE R1 MFD A.TXT;0 10 [1,4]\n",
    "image fault\n",
    &[
        (1, false, "accepted\n"),
        (1, true, "leaked numbers 9\n"),
        (2, false, "leaked numbers 9\n"),
        (2, true, "leaked clusters 19\nleaked numbers 9\n"),
        (3, false, "leaked clusters 19\nleaked numbers 9\n"),
        (3, true, CHARGED),
        (4, false, CHARGED),
        (4, true, "lost 12\nleaked clusters 16\nleaked numbers 8\n"),
        (5, false, "lost 12\nleaked clusters 16\nleaked numbers 8\n"),
        (5, true, STOCK),
    ],
);

/// The four blocks of a directory come behind the quota row, and its header behind them.
const DIRECTORY: Step<'static> = Step::Cut(
    "NODES 1\n1 MKDIR R1 MFD A [1,4]\n",
    "image fault\n",
    &[
        (3, false, "leaked clusters 17\nleaked numbers 9\n"),
        (4, false, DIRECTORY_CHARGED),
        (7, true, DIRECTORY_CHARGED),
        (8, true, "lost 12\nleaked clusters 16\nleaked numbers 8\n"),
        (9, false, "lost 12\nleaked clusters 16\nleaked numbers 8\n"),
        (9, true, STOCK),
    ],
);

/// A new first entry moves one out of each block: the writes are index bitmap, quota row, header, and the blocks of the directory,
/// the last first. Until its last write no entry is missing, and some stand in two blocks.
const ENTRY: Step<'static> = Step::Cut(
    BEFORE,
    "image fault\n",
    &[
        (4, false, "lost 24\nleaked numbers 8\n"),
        (4, true, "doubles in 12\nlost 24\nleaked numbers 8\n"),
        (5, false, "doubles in 12\nlost 24\nleaked numbers 8\n"),
        (5, true, "doubles in 12\nlost 24\nleaked numbers 8\n"),
        (6, false, "doubles in 12\nlost 24\nleaked numbers 8\n"),
        (6, true, "leaked numbers 8\n"),
    ],
);

const ROWS: &[Row<'static>] = &[
    Row {
        on: On::Fresh,
        first: &[ANSWERED, FILE, DIRECTORY],
        each: &[],
    },
    Row {
        on: On::Fresh,
        first: ELEVEN,
        each: &[&[ENTRY]],
    },
];

#[test]
fn creations_are_cut_short(rt: HostRuntime) -> Result<(), Fail> {
    play(rt.alloc(), ROWS)?;
    Ok(())
}
