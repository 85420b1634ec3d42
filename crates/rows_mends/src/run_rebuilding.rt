//! Runs whose volume is mended once the last node is over: each report, and a volume that cannot be mended.

use crate::volumes::{CROWDED, RUN};
use blk_drive::MemImage;
use rows_calls::{
    Exchange, On, REBUILD, Row, Step, Wrong, after, answered, check_same, play, stays, volume,
};
use std::alloc::Global;
use std::test::Fail;

const WORDS: &[&str] = &["run", "--rebuild"];

/// A script that loses a file, and its report: it is found again.
const LOST: (&str, &str) = (
    "NODES 2\n\
     KILL 1 WRITE 5\n\
     1 CREATE R1 MFD A.TXT;0 10 [1,4]\n\
     2 LOOKUP R1 MFD A.TXT;0\n\
     2 CREATE R1 MFD B.TXT;0 4 [1,4]\n",
    "1 N1 died at lost, leaked 16 clusters, 8 numbers\n\
     2 N2 LOOKUP R1 (4,4,0) A.TXT;0 = refused NoSuchFile\n\
     3 N2 CREATE R1 (4,4,0) B.TXT;0 4 [1,4] = (21,1,0) B.TXT;1\n\
     4 rebuilt: 1 entered, 0 entries removed, 0 files gone, 16 clusters, 8 numbers\n\
     end: 2 answered, 1 died, 227 free\n",
);

/// Scripts on a fresh volume, and their reports: nothing is to be mended; a stock is lost, and its clusters and numbers are free again; a
/// file is lost, and found again; two nodes die, as in the example `killed`; a renamed file has both names, and keeps one; and an open file is deleted, whose node dies.
const REPORTS: &[(&str, &str)] = &[
    (
        "NODES 8\n",
        "1 rebuilt: 0 entered, 0 entries removed, 0 files gone, 0 clusters, 0 numbers\n\
         end: 0 answered, 0 died, 231 free\n",
    ),
    (
        "NODES 2\n\
         KILL 1 WRITE 6\n\
         1 CREATE R1 MFD A.TXT;0 4 [1,4]\n\
         2 CREATE R1 MFD B.TXT;0 308 [1,4]\n\
         2 CREATE R2 MFD C.TXT;0 308 [1,4]\n\
         2 CREATE R3 MFD D.TXT;0 240 [1,4]\n\
         2 CREATE R4 MFD E.TXT;0 4 [1,4]\n",
        "1 N1 CREATE R1 (4,4,0) A.TXT;0 4 [1,4] = (12,1,0) A.TXT;1\n\
         2 N1 died at idle, leaked 16 clusters, 8 numbers\n\
         3 N2 CREATE R1 (4,4,0) B.TXT;0 308 [1,4] = (21,1,0) B.TXT;1\n\
         4 N2 CREATE R2 (4,4,0) C.TXT;0 308 [1,4] = (22,1,0) C.TXT;1\n\
         5 N2 CREATE R3 (4,4,0) D.TXT;0 240 [1,4] = (23,1,0) D.TXT;1\n\
         6 N2 CREATE R4 (4,4,0) E.TXT;0 4 [1,4] = refused DeviceFull\n\
         7 rebuilt: 0 entered, 0 entries removed, 0 files gone, 16 clusters, 8 numbers\n\
         end: 5 answered, 1 died, 16 free\n",
    ),
    LOST,
    (
        "NODES 3\n\
         KILL 1 WRITE 5\n\
         KILL 3 WRITE 4\n\
         1 CREATE R1 MFD PLAN.TXT;0 10 [1,4]\n\
         2 LOOKUP R1 MFD PLAN.TXT;0\n\
         2 CREATE R2 MFD NOTE.TXT;0 4 [1,4]\n\
         2 QUOTASHOW [1,4]\n\
         3 CREATE R1 MFD TASK.TXT;0 4 [1,4]\n",
        "1 N1 died at lost, leaked 16 clusters, 8 numbers\n\
         2 N2 LOOKUP R1 (4,4,0) PLAN.TXT;0 = refused NoSuchFile\n\
         3 N3 died at charged, leaked 17 clusters, 9 numbers\n\
         4 N2 CREATE R2 (4,4,0) NOTE.TXT;0 4 [1,4] = (30,1,0) NOTE.TXT;1\n\
         5 N2 QUOTASHOW [1,4] = usage 23 quota 1088 overdraft 0\n\
         6 rebuilt: 1 entered, 0 entries removed, 0 files gone, 33 clusters, 17 numbers\n\
         end: 3 answered, 2 died, 227 free\n",
    ),
    (
        "NODES 1\n\
         KILL 1 WRITE 7\n\
         1 CREATE R1 MFD A.TXT;0 4 [1,4]\n\
         1 RENAME MFD A.TXT;1 B.TXT;0\n",
        "1 N1 CREATE R1 (4,4,0) A.TXT;0 4 [1,4] = (12,1,0) A.TXT;1\n\
         2 N1 died at both, leaked 16 clusters, 8 numbers\n\
         3 rebuilt: 0 entered, 1 entries removed, 0 files gone, 16 clusters, 8 numbers\n\
         end: 1 answered, 1 died, 230 free\n",
    ),
    (
        "NODES 1\n\
         KILL 1 WRITE 8\n\
         1 CREATE R1 MFD A.TXT;0 4 [1,4]\n\
         1 OPEN 1 R1 PR\n\
         1 DELETE MFD A.TXT;0\n",
        "1 N1 CREATE R1 (4,4,0) A.TXT;0 4 [1,4] = (12,1,0) A.TXT;1\n\
         2 N1 OPEN 1 (12,1,0) PR = open\n\
         3 N1 DELETE (4,4,0) A.TXT;0 = marked\n\
         4 N1 died at nothing, leaked 16 clusters, 8 numbers\n\
         5 rebuilt: 0 entered, 0 entries removed, 1 files gone, 16 clusters, 8 numbers\n\
         end: 3 answered, 1 died, 231 free\n",
    ),
];

// The image that a run of a script leaves, and `rebuild` makes of it.
fn in_two(alloc: Global, script: &str) -> Result<MemImage, Wrong> {
    let image = after(alloc, volume(alloc)?, RUN, script, 0, ("", ""))?;
    after(alloc, image, REBUILD, "", 0, ("", ""))
}

// The report is this one, nothing is left to mend, and the image is that of a run and a mending.
fn is_mended(alloc: Global, script: &str, report: &str) -> Result<(), Wrong> {
    let wanted = Exchange {
        words: WORDS,
        script,
        code: 0,
        text: report,
    };
    let image = stays(alloc, answered(alloc, volume(alloc)?, wanted)?)?;
    check_same(alloc, &image, in_two(alloc, script)?.all(), script)
}

#[test]
fn runs_are_mended(rt: HostRuntime) -> Result<(), Fail> {
    for (script, report) in REPORTS {
        is_mended(rt.alloc(), script, report)?;
    }
    Ok(())
}

/// One node dies and leaves a file with blocks that is in no directory, and another one writes to it by its number.
const WRITTEN: &str = "NODES 2\n\
    SCHED 1*60\n\
    KILL 1 WRITE 5\n\
    1 CREATE R1 MFD A.TXT;0 4 [1,4]\n\
    2 OPEN 1 (33,1,0) PW\n\
    2 WRITE 1 1 X\n";

const UNMENDED: &str = "1 N1 died at lost, leaked 16 clusters, 8 numbers\n\
    2 N2 OPEN 1 (33,1,0) PW = open\n\
    3 N2 WRITE 1 1 X = written\n\
    4 N2 CLOSE 1 = closed\n\
    not mendable: no room for 33\n";

/// The file is not empty then, so it may not go; and the directory of lost files has no room for it.
const NO_ROOM: Row<'static> = Row {
    on: On::Small,
    first: CROWDED,
    each: &[&[
        Step::Call(WORDS, WRITTEN, 5, UNMENDED),
        Step::Finds("no room for 33\n"),
        Step::Call(REBUILD, "", 5, "not mendable: no room for 33\n"),
    ]],
};

/// Other words are bad. The script and the volume are tested as for a run.
const REFUSED: &[Row<'static>] = &[
    NO_ROOM,
    Row {
        on: On::Zeros(0),
        first: &[
            Step::Call(&["run", "rebuild"], "NODES 1\n", 1, "bad words\n"),
            Step::Call(&["run", "--REBUILD"], "NODES 1\n", 1, "bad words\n"),
            Step::Call(&["run", "--rebuild", "now"], "NODES 1\n", 1, "bad words\n"),
            Step::Call(
                &["run", "--rebuild", "1", "1"],
                "NODES 1\n",
                1,
                "bad words\n",
            ),
            Step::Call(&["run", ""], "NODES 1\n", 1, "bad words\n"),
            Step::Call(&["run", "1"], "NODES 1\n", 1, "bad words\n"),
            Step::Call(&["--rebuild", "run"], "NODES 1\n", 1, "bad words\n"),
            Step::Call(&["analyze", "--rebuild"], "NODES 1\n", 1, "bad words\n"),
            Step::Call(&["soak", "--rebuild"], "NODES 1\n", 1, "bad words\n"),
            Step::Call(&["soak", "1", "--rebuild"], "NODES 1\n", 1, "bad words\n"),
        ],
        each: &[],
    },
    Row {
        on: On::Fresh,
        first: &[
            Step::Call(WORDS, "", 3, "bad line 1\n"),
            Step::Byte(21, 100, 1),
            Step::Call(WORDS, "NODES 1\n", 5, "not accepted: header 5: BadSum\n"),
        ],
        each: &[],
    },
    Row {
        on: On::Zeros(63),
        first: &[Step::Call(WORDS, "NODES 1\n", 4, "bad size 63\n")],
        each: &[],
    },
];

#[test]
fn others_are_refused(rt: HostRuntime) -> Result<(), Fail> {
    play(rt.alloc(), REFUSED)?;
    Ok(())
}

// What is not mended is as a run leaves it.
fn is_as_run(alloc: Global) -> Result<(), Wrong> {
    let ran = after(alloc, NO_ROOM.begun(alloc)?, RUN, WRITTEN, 0, ("", ""))?;
    let image = after(alloc, NO_ROOM.begun(alloc)?, WORDS, WRITTEN, 5, ("", ""))?;
    check_same(alloc, &image, ran.all(), WRITTEN)
}

#[test]
fn what_is_not_mended_is_as_a_run_leaves_it(rt: HostRuntime) -> Result<(), Fail> {
    is_as_run(rt.alloc())?;
    Ok(())
}
