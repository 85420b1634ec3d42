//! Traces of runs whose copy is mended then.

use crate::tracing::{FRESH, REBUILD, check, ends_alike, traced};
use rows_calls::{Exchange, Lines, On, Row, Step, Wrong, check_about};
use std::alloc::Global;
use std::test::Fail;

/// Node 1 dies in place of the write that would enter its file, and node 2, which waits for its lock, has it then. The mending enters the
/// file.
const IS_MENDED: (&str, &str) = (
    "NODES 2\n\
    KILL 1 WRITE 5\n\
    1 CREATE R1 MFD A.TXT;0 10 [1,4]\n\
    2 LOOKUP R1 MFD A.TXT;0\n",
    "1 N1 1 lock S(4) PW granted\n\
    2 N2 1 lock S(4) PR queued, N1 has PW\n\
    3 N1 2 read 20\n\
    5 N1 3 read 88\n\
    7 N1 4 read 89\n\
    9 N1 5 read 90\n\
    11 N1 6 read 91\n\
    13 N1 7 lock Q PW granted\n\
    15 N1 8 read 96\n\
    17 N1 9 read 97\n\
    19 N1 10 read 98\n\
    21 N1 11 read 99\n\
    23 N1 12 lock X CR granted\n\
    25 N1 13 lock V PW granted\n\
    27 N1 14 read 16 for space\n\
    29 N1 15 read 85 for space\n\
    31 N1 16 write 16 to fill the stock\n\
    33 N1 17 write 85 to fill the stock\n\
    35 N1 18 stock filled, V to NL\n\
    37 N1 19 lock S(12) PW granted\n\
    39 N1 20 read 28\n\
    41 N1 21 plan of 3 writes\n\
    43 N1 22 write 96, stage charged\n\
    45 N1 23 write 28, stage lost\n\
    47 N1 - dies at lost, leaks 16 clusters, 8 numbers\n\
    47 N2 - granted S(4) PR\n\
    48 N2 24 read 20\n\
    49 N2 25 read 88\n\
    50 N2 26 read 89\n\
    51 N2 27 read 90\n\
    52 N2 28 read 91\n\
    53 N2 29 plan of 0 writes\n\
    54 N2 30 answers LOOKUP R1 (4,4,0) A.TXT;0 = refused NoSuchFile\n\
    55 N2 31 leaves\n\
    1 N1 died at lost, leaked 16 clusters, 8 numbers\n\
    2 N2 LOOKUP R1 (4,4,0) A.TXT;0 = refused NoSuchFile\n\
    3 rebuilt: 1 entered, 0 entries removed, 0 files gone, 16 clusters, 8 numbers\n\
    end: 1 answered, 1 died, 228 free\n",
);

/// Scripts: no node dies and nothing is mended; a node dies, and another one does so at its first turn.
const OTHERS: &[&str] = &[
    "NODES 8\n",
    "NODES 3\n\
    SCHED 1*20 3*4\n\
    KILL 1 WRITE 4\n\
    KILL 2 TURN 1\n\
    1 MKDIR R1 MFD D [1,4]\n\
    2 LIST MFD\n\
    3 CREATE R1 MFD A.TXT;0 4 [1,4]\n",
];

#[test]
fn mended_runs_have_these_lines(rt: HostRuntime) -> Result<(), Fail> {
    let wanted = Exchange {
        words: REBUILD,
        script: IS_MENDED.0,
        code: 0,
        text: IS_MENDED.1,
    };
    check(rt.alloc(), FRESH, wanted)?;
    for script in OTHERS {
        ends_alike(rt.alloc(), FRESH, REBUILD, script)?;
    }
    Ok(())
}

/// The directory of lost files has no room left, on a volume of 256 clusters of one block.
const CROWDED: Row<'static> = Row {
    on: On::Small,
    first: &[Step::AboutLines(
        "NODES 1\n",
        &[Lines {
            from: 1,
            to: 21,
            more: 11,
            script: "1 CREATE R1 LOST G%5.LST;0 0 [1,4]\n",
            report: "",
        }],
        0,
        "1 N1 CREATE R1 (11,1,0) G00001.LST;0",
        "end: 21 answered, 0 died, 182 free\n",
    )],
    each: &[],
};

/// A node dies and leaves a file that is in no directory, and another one writes to it by its number. It is not empty then, so it may
/// not go.
const UNMENDED: (&str, &str) = (
    "NODES 2\n\
    SCHED 1*60\n\
    KILL 1 WRITE 5\n\
    1 CREATE R1 MFD A.TXT;0 4 [1,4]\n\
    2 OPEN 1 (33,1,0) PW\n\
    2 WRITE 1 1 X\n",
    "1 N1 died at lost, leaked 16 clusters, 8 numbers\n\
    2 N2 OPEN 1 (33,1,0) PW = open\n\
    3 N2 WRITE 1 1 X = written\n\
    4 N2 CLOSE 1 = closed\n\
    not mendable: no room for 33\n",
);

// The lines come before the text that says that the copy cannot be mended.
fn is_unmended(alloc: Global) -> Result<(), Wrong> {
    let (script, text) = UNMENDED;
    let called = traced(alloc, CROWDED, REBUILD, script)?;
    let front = "1 N1 1 lock S(4) PW granted\n2 N1 2 read ";
    check_about(alloc, &called, 5, (front, text), script)?;
    ends_alike(alloc, CROWDED, REBUILD, script)?;
    ends_alike(alloc, CROWDED, &[], script)
}

#[test]
fn a_copy_without_room_is_not_mended(rt: HostRuntime) -> Result<(), Fail> {
    is_unmended(rt.alloc())?;
    Ok(())
}
