//! Mending by the top call: what deaths and failed writes leave, a volume in order, one with a fatal finding, and a mending of which
//! each write fails.

use crate::volumes::{CROWDED, FIVE, RUN, SIX};
use blk_drive::MemImage;
use rows_calls::{
    ELEVEN, Exchange, NOTHING, On, REBUILD, Row, Step, Stop, Wrong, after, answered, check_same,
    each_stops, expect, failing, made, mended, play, volume,
};
use std::alloc::Global;
use std::test::Fail;

/// On a fresh volume: a file that is lost is found again in [SYSLOST]; a stock that was full is free again; and two nodes die, as in the
/// example `killed`.
const CASES: &[&[Step<'static>]] = &[
    &[
        Step::Run(
            "NODES 3\n\
            KILL 1 WRITE 5\n\
            KILL 3 WRITE 4\n\
            1 CREATE R1 MFD PLAN.TXT;0 10 [1,4]\n\
            2 LOOKUP R1 MFD PLAN.TXT;0\n\
            2 CREATE R2 MFD NOTE.TXT;0 4 [1,4]\n\
            2 QUOTASHOW [1,4]\n\
            3 CREATE R1 MFD TASK.TXT;0 4 [1,4]\n",
            "1 N1 died at lost, leaked 16 clusters, 8 numbers\n\
            2 N2 LOOKUP R1 (4,4,0) PLAN.TXT;0 = refused NoSuchFile\n\
            3 N3 died at charged, leaked 17 clusters, 9 numbers\n\
            4 N2 CREATE R2 (4,4,0) NOTE.TXT;0 4 [1,4] = (30,1,0) NOTE.TXT;1\n\
            5 N2 QUOTASHOW [1,4] = usage 23 quota 1088 overdraft 0\n\
            end: 3 answered, 2 died, 194 free\n",
        ),
        Step::Finds(
            "lost 12\n\
            leaked clusters 33\n\
            leaked numbers 17\n\
            usage of [1,4]: has 23, should be 18\n",
        ),
        Step::Call(
            RUN,
            "NODES 1\n1 LIST LOST\n1 QUOTASHOW [1,4]\n",
            5,
            "not accepted: lost 12\n",
        ),
        Step::Call(
            REBUILD,
            "",
            0,
            "rebuilt: 1 entered, 0 entries removed, 0 files gone, 33 clusters, 17 numbers\n",
        ),
        Step::Stays,
        Step::Made(
            "NODES 1\n1 LIST LOST\n1 QUOTASHOW [1,4]\n",
            "1 N1 LIST (11,1,0) = 1 entries F00012.LST;1 (12,1,0)\n\
            2 N1 QUOTASHOW [1,4] = usage 18 quota 1088 overdraft 0\n\
            end: 2 answered, 0 died, 227 free\n",
        ),
    ],
    &[
        Step::Run(
            "NODES 2\n\
            KILL 1 WRITE 5\n\
            1 CREATE R1 MFD A.TXT;0 10 [1,4]\n\
            2 LOOKUP R1 MFD A.TXT;0\n\
            2 CREATE R1 MFD B.TXT;0 4 [1,4]\n",
            "1 N1 died at lost, leaked 16 clusters, 8 numbers\n\
            2 N2 LOOKUP R1 (4,4,0) A.TXT;0 = refused NoSuchFile\n\
            3 N2 CREATE R1 (4,4,0) B.TXT;0 4 [1,4] = (21,1,0) B.TXT;1\n\
            end: 2 answered, 1 died, 211 free\n",
        ),
        Step::Finds("lost 12\nleaked clusters 16\nleaked numbers 8\n"),
        Step::Call(RUN, "NODES 1\n1 LIST LOST\n", 5, "not accepted: lost 12\n"),
        Step::Call(
            REBUILD,
            "",
            0,
            "rebuilt: 1 entered, 0 entries removed, 0 files gone, 16 clusters, 8 numbers\n",
        ),
        Step::Stays,
        Step::Made(
            "NODES 1\n1 LIST LOST\n",
            "1 N1 LIST (11,1,0) = 1 entries F00012.LST;1 (12,1,0)\n\
            end: 1 answered, 0 died, 227 free\n",
        ),
    ],
    &[
        Step::Run(
            "NODES 2\n\
            KILL 1 WRITE 6\n\
            1 CREATE R1 MFD A.TXT;0 4 [1,4]\n\
            2 CREATE R1 MFD B.TXT;0 308 [1,4]\n\
            2 CREATE R2 MFD C.TXT;0 308 [1,4]\n\
            2 CREATE R3 MFD D.TXT;0 240 [1,4]\n\
            2 CREATE R4 MFD E.TXT;0 4 [1,4]\n",
            "1 N1 CREATE R1 (4,4,0) A.TXT;0 4 [1,4] = (12,1,0) A.TXT;1\n\
            2 N1 died at idle, leaked 16 clusters, 8 numbers\n\
            3 N2 CREATE R1 (4,4,0) B.TXT;0 308 [1,4] = (21,1,0) B.TXT;1\n\
            4 N2 CREATE R2 (4,4,0) C.TXT;0 308 [1,4] = (22,1,0) C.TXT;1\n\
            5 N2 CREATE R3 (4,4,0) D.TXT;0 240 [1,4] = (23,1,0) D.TXT;1\n\
            6 N2 CREATE R4 (4,4,0) E.TXT;0 4 [1,4] = refused DeviceFull\n\
            end: 5 answered, 1 died, 0 free\n",
        ),
        Step::Finds("leaked clusters 16\nleaked numbers 8\n"),
        Step::Call(
            RUN,
            "NODES 1\n1 CREATE R4 MFD E.TXT;0 4 [1,4]\n",
            5,
            "not accepted: leaked clusters 16\n",
        ),
        Step::Call(
            REBUILD,
            "",
            0,
            "rebuilt: 0 entered, 0 entries removed, 0 files gone, 16 clusters, 8 numbers\n",
        ),
        Step::Stays,
        Step::Made(
            "NODES 1\n1 CREATE R4 MFD E.TXT;0 4 [1,4]\n",
            "1 N1 CREATE R4 (4,4,0) E.TXT;0 4 [1,4] = (13,1,0) E.TXT;1\n\
            end: 1 answered, 0 died, 15 free\n",
        ),
    ],
];

/// A volume with the file A.TXT.
const FILE: &str = "NODES 1\n1 CREATE R1 MFD A.TXT;0 10 [1,4]\n";

const FILE_REPORT: &str =
    "1 N1 CREATE R1 (4,4,0) A.TXT;0 10 [1,4] = (12,1,0) A.TXT;1\nend: 1 answered, 0 died, 228 free\n";

/// On the volume with A.TXT: both entries of a renamed file are there, and the file keeps the one that comes first; a file that was open
/// is deleted, and the node that has it open dies; and one node dies in its removal and another while it makes a file, so that there is
/// something of each kind to mend.
const OF_A_FILE: &[&[Step<'static>]] = &[
    &[
        Step::Run(
            "NODES 1\nKILL 1 WRITE 2\n1 RENAME MFD A.TXT;1 B.TXT;0\n",
            "1 N1 died at both, leaked 0 clusters, 0 numbers\n\
            end: 0 answered, 1 died, 228 free\n",
        ),
        Step::Finds("second entry B.TXT;1 in 4\n"),
        Step::Call(
            RUN,
            "NODES 1\n1 LOOKUP R1 MFD A.TXT;0\n1 LOOKUP R2 MFD B.TXT;0\n",
            5,
            "not accepted: second entry B.TXT;1 in 4\n",
        ),
        Step::Call(
            REBUILD,
            "",
            0,
            "rebuilt: 0 entered, 1 entries removed, 0 files gone, 0 clusters, 0 numbers\n",
        ),
        Step::Stays,
        Step::Made(
            "NODES 1\n1 LOOKUP R1 MFD A.TXT;0\n1 LOOKUP R2 MFD B.TXT;0\n",
            "1 N1 LOOKUP R1 (4,4,0) A.TXT;0 = (12,1,0) A.TXT;1\n\
            2 N1 LOOKUP R2 (4,4,0) B.TXT;0 = refused NoSuchFile\n\
            end: 2 answered, 0 died, 228 free\n",
        ),
    ],
    &[
        Step::Run(
            "NODES 1\nKILL 1 WRITE 3\n1 OPEN 1 (12,1,0) PR\n1 DELETE MFD A.TXT;0\n",
            "1 N1 OPEN 1 (12,1,0) PR = open\n\
            2 N1 DELETE (4,4,0) A.TXT;0 = marked\n\
            3 N1 died at nothing, leaked 0 clusters, 0 numbers\n\
            end: 2 answered, 1 died, 228 free\n",
        ),
        Step::Finds("marked 12\n"),
        Step::Call(
            RUN,
            "NODES 1\n1 LOOKUP R1 MFD A.TXT;0\n1 QUOTASHOW [1,4]\n",
            5,
            "not accepted: marked 12\n",
        ),
        Step::Call(
            REBUILD,
            "",
            0,
            "rebuilt: 0 entered, 0 entries removed, 1 files gone, 0 clusters, 0 numbers\n",
        ),
        Step::Stays,
        Step::Made(
            "NODES 1\n1 LOOKUP R1 MFD A.TXT;0\n1 QUOTASHOW [1,4]\n",
            "1 N1 LOOKUP R1 (4,4,0) A.TXT;0 = refused NoSuchFile\n\
            2 N1 QUOTASHOW [1,4] = usage 0 quota 1088 overdraft 0\n\
            end: 2 answered, 0 died, 231 free\n",
        ),
    ],
    &[
        Step::Run(
            "NODES 2\nKILL 1 WRITE 2\nKILL 2 WRITE 5\n1 DELETE MFD A.TXT;0\n2 CREATE R1 MFD B.TXT;0 10 [1,4]\n",
            "1 N1 died at marked, leaked 0 clusters, 0 numbers\n\
            2 N2 died at lost, leaked 16 clusters, 8 numbers\n\
            end: 0 answered, 2 died, 209 free\n",
        ),
        Step::Finds("marked 12\nlost 13\nleaked clusters 16\nleaked numbers 8\n"),
        Step::Call(
            REBUILD,
            "",
            0,
            "rebuilt: 1 entered, 1 entries removed, 1 files gone, 16 clusters, 8 numbers\n",
        ),
        Step::Stays,
        Step::Made(
            "NODES 1\n1 LIST LOST\n1 LOOKUP R1 MFD A.TXT;0\n1 QUOTASHOW [1,4]\n",
            "1 N1 LIST (11,1,0) = 1 entries F00013.LST;1 (13,1,0)\n\
            2 N1 LOOKUP R1 (4,4,0) A.TXT;0 = refused NoSuchFile\n\
            3 N1 QUOTASHOW [1,4] = usage 13 quota 1088 overdraft 0\n\
            end: 3 answered, 0 died, 228 free\n",
        ),
    ],
];

/// A directory whose entries stand in two of its blocks: one was to be entered, or to be removed.
const REMOVED: &[Step<'static>] = &[
    Step::Run(
        "NODES 1\nKILL 1 WRITE 4\n1 DELETE (12,1,0) 06XXXXXXXXXXXXXXXXXXXXXXXXXXXXXXXXXXXXX.YYYYYYYYYYYYYYYYYYYYYYYYYYYYYYYYYYYYYYY;0\n",
        "1 N1 died at unlinked, leaked 0 clusters, 0 numbers\n\
            end: 0 answered, 1 died, 230 free\n",
    ),
    Step::Finds("marked 18\ndoubles in 12\n"),
    Step::Call(
        RUN,
        "NODES 1\n1 LOOKUP R1 (12,1,0) Z.T;0\n1 STAT (18,1,0)\n",
        5,
        "not accepted: marked 18\n",
    ),
    Step::Call(
        REBUILD,
        "",
        0,
        "rebuilt: 0 entered, 0 entries removed, 1 files gone, 0 clusters, 0 numbers\n",
    ),
    Step::Stays,
    Step::Made(
        "NODES 1\n1 LOOKUP R1 (12,1,0) Z.T;0\n1 STAT (18,1,0)\n",
        "1 N1 LOOKUP R1 (12,1,0) Z.T;0 = (19,1,0) Z.T;1\n\
            2 N1 STAT (18,1,0) = refused NoSuchFile\n\
            end: 2 answered, 0 died, 230 free\n",
    ),
];

const ENTERED: &[Step<'static>] = &[
    Step::Run(
        "NODES 1\nKILL 1 WRITE 5\n1 CREATE R1 (12,1,0) 06XXXXXXXXXXXXXXXXXXXXXXXXXXXXXXXXXXXXX.YYYYYYYYYYYYYYYYYYYYYYYYYYYYYYYYYYYYYYY;0 0 [1,4]\n",
        "1 N1 died at lost, leaked 0 clusters, 8 numbers\n\
            end: 0 answered, 1 died, 230 free\n",
    ),
    Step::Finds("doubles in 12\nlost 19\nleaked numbers 8\n"),
    Step::Call(
        RUN,
        "NODES 1\n1 LIST LOST\n1 LOOKUP R1 (12,1,0) Z.T;0\n",
        5,
        "not accepted: doubles in 12\n",
    ),
    Step::Call(
        REBUILD,
        "",
        0,
        "rebuilt: 1 entered, 0 entries removed, 0 files gone, 0 clusters, 8 numbers\n",
    ),
    Step::Stays,
    Step::Made(
        "NODES 1\n1 LIST LOST\n1 LOOKUP R1 (12,1,0) Z.T;0\n",
        "1 N1 LIST (11,1,0) = 1 entries F00019.LST;1 (19,1,0)\n\
            2 N1 LOOKUP R1 (12,1,0) Z.T;0 = (18,1,0) Z.T;1\n\
            end: 2 answered, 0 died, 230 free\n",
    ),
];

/// A directory of three blocks, in which a new first entry was to move one out of each.
const OF_THREE: &[Step<'static>] = &[
    Step::Run(
        "NODES 1\nKILL 1 WRITE 5\n1 CREATE R1 (12,1,0) 00XXXXXXXXXXXXXXXXXXXXXXXXXXXXXXXXXXXXX.YYYYYYYYYYYYYYYYYYYYYYYYYYYYYYYYYYYYYYY;0 0 [1,4]\n",
        "1 N1 died at lost, leaked 0 clusters, 8 numbers\n\
            end: 0 answered, 1 died, 230 free\n",
    ),
    Step::Finds("doubles in 12\nlost 24\nleaked numbers 8\n"),
    Step::Call(
        RUN,
        "NODES 1\n1 LIST LOST\n",
        5,
        "not accepted: doubles in 12\n",
    ),
    Step::Call(
        REBUILD,
        "",
        0,
        "rebuilt: 1 entered, 0 entries removed, 0 files gone, 0 clusters, 8 numbers\n",
    ),
    Step::Stays,
    Step::Made(
        "NODES 1\n1 LIST LOST\n",
        "1 N1 LIST (11,1,0) = 1 entries F00024.LST;1 (24,1,0)\n\
            end: 1 answered, 0 died, 230 free\n",
    ),
];

/// An empty file that is lost, where [SYSLOST] has no room, goes.
const NO_ROOM: &[Step<'static>] = &[
    Step::Run(
        "NODES 1\nKILL 1 WRITE 4\n1 CREATE R1 MFD A.TXT;0 0 [1,4]\n",
        "1 N1 died at lost, leaked 0 clusters, 8 numbers\n\
            end: 0 answered, 1 died, 182 free\n",
    ),
    Step::Finds("lost 33\nleaked numbers 8\n"),
    Step::Call(
        RUN,
        "NODES 1\n1 STAT (33,1,0)\n1 CREATE R1 MFD B.TXT;0 0 [1,4]\n",
        5,
        "not accepted: lost 33\n",
    ),
    Step::Call(
        REBUILD,
        "",
        0,
        "rebuilt: 0 entered, 0 entries removed, 1 files gone, 0 clusters, 8 numbers\n",
    ),
    Step::Stays,
    Step::Made(
        "NODES 1\n1 STAT (33,1,0)\n1 CREATE R1 MFD B.TXT;0 0 [1,4]\n",
        "1 N1 STAT (33,1,0) = refused NoSuchFile\n\
            2 N1 CREATE R1 (4,4,0) B.TXT;0 0 [1,4] = (33,2,0) B.TXT;1\n\
            end: 2 answered, 0 died, 182 free\n",
    ),
];

/// A mending is one word.
const WORDS: &[Step<'static>] = &[
    Step::Call(&["rebuild", "now"], "", 1, "bad words\n"),
    Step::Call(&["rebuild", "1"], "", 1, "bad words\n"),
    Step::Call(&["REBUILD"], "", 1, "bad words\n"),
    Step::Call(&["--rebuild"], "", 1, "bad words\n"),
    Step::Call(&["rebuild", "--rebuild"], "", 1, "bad words\n"),
    Step::Call(&["rebuild", ""], "", 1, "bad words\n"),
];

/// A fatal finding is told, and nothing is written.
const FATAL: &[Step<'static>] = &[
    Step::Byte(28, 100, 1),
    Step::Kept(REBUILD, "", 5, "not mendable: header 12: BadSum\n"),
];

const RUNS: &[Row<'static>] = &[Row {
    on: On::Fresh,
    first: &[],
    each: CASES,
}];

const FILES: &[Row<'static>] = &[
    Row {
        on: On::Fresh,
        first: &[Step::Made(FILE, FILE_REPORT)],
        each: OF_A_FILE,
    },
    Row {
        on: On::Fresh,
        first: &[Step::Made(FILE, FILE_REPORT)],
        each: &[FATAL],
    },
];

const DIRECTORIES: &[Row<'static>] = &[
    Row {
        on: On::Fresh,
        first: SIX,
        each: &[REMOVED],
    },
    Row {
        on: On::Fresh,
        first: FIVE,
        each: &[ENTERED],
    },
];

const BLOCKS: &[Row<'static>] = &[Row {
    on: On::Fresh,
    first: ELEVEN,
    each: &[OF_THREE],
}];

const NO_ROOMS: &[Row<'static>] = &[Row {
    on: On::Small,
    first: CROWDED,
    each: &[NO_ROOM],
}];

const NONE: &[Row<'static>] = &[
    Row {
        on: On::Zeros(0),
        first: WORDS,
        each: &[],
    },
    Row {
        on: On::Zeros(63),
        first: &[Step::Call(REBUILD, "", 4, "bad size 63\n")],
        each: &[],
    },
];

#[test]
fn what_runs_leave_is_mended(rt: HostRuntime) -> Result<(), Fail> {
    play(rt.alloc(), RUNS)?;
    Ok(())
}

#[test]
fn what_is_left_of_a_file_is_mended(rt: HostRuntime) -> Result<(), Fail> {
    play(rt.alloc(), FILES)?;
    Ok(())
}

#[test]
fn directories_are_mended(rt: HostRuntime) -> Result<(), Fail> {
    play(rt.alloc(), DIRECTORIES)?;
    Ok(())
}

#[test]
fn three_blocks_are_mended(rt: HostRuntime) -> Result<(), Fail> {
    play(rt.alloc(), BLOCKS)?;
    Ok(())
}

#[test]
fn a_volume_without_room_is_not_mended(rt: HostRuntime) -> Result<(), Fail> {
    play(rt.alloc(), NO_ROOMS)?;
    Ok(())
}

#[test]
fn a_file_that_is_no_volume_is_not_mended(rt: HostRuntime) -> Result<(), Fail> {
    play(rt.alloc(), NONE)?;
    Ok(())
}

/// Scripts on the volume with A.TXT in which the one node dies, and how the text of the mending begins after each: both entries of a
/// renamed file are there; the file is marked, with its entry and without it; another file is charged, and lost.
const DEATHS: &[(&str, &str)] = &[
    (
        "NODES 1\nKILL 1 WRITE 2\n1 RENAME MFD A.TXT;1 B.TXT;0\n",
        "rebuilt: 0 entered, 1 entries removed, 0 files gone, 0 clusters, 0 numbers\n",
    ),
    (
        "NODES 1\nKILL 1 WRITE 2\n1 DELETE MFD A.TXT;0\n",
        "rebuilt: 0 entered, 1 entries removed, 1 files gone, 0 clusters, 0 numbers\n",
    ),
    (
        "NODES 1\nKILL 1 WRITE 3\n1 DELETE MFD A.TXT;0\n",
        "rebuilt: 0 entered, 0 entries removed, 1 files gone, 0 clusters, 0 numbers\n",
    ),
    (
        "NODES 1\nKILL 1 WRITE 4\n1 CREATE R1 MFD B.TXT;0 10 [1,4]\n",
        "rebuilt: 0 entered, 0 entries removed, 0 files gone, ",
    ),
    (
        "NODES 1\nKILL 1 WRITE 5\n1 CREATE R1 MFD B.TXT;0 10 [1,4]\n",
        "rebuilt: 1 entered, 0 entries removed, 0 files gone, ",
    ),
];

// The image that a script leaves on the volume with A.TXT, in which the node dies, and in which something is found.
fn dead(alloc: Global, script: &str) -> Result<MemImage, Wrong> {
    let image = made(alloc, volume(alloc)?, FILE, FILE_REPORT)?;
    let image = after(alloc, image, RUN, script, 0, ("1 N1 died at ", "\n"))?;
    after(alloc, image, &["analyze"], "", 5, ("", "\n"))
}

// It is mended, also where each write of the mending fails.
fn each_is_mended(alloc: Global, script: &str, front: &str) -> Result<(), Wrong> {
    let image = dead(alloc, script)?;
    let (_, writes) = each_stops(alloc, &image)?;
    expect(alloc, writes > 0 && writes < 11, script)?;
    mended(alloc, image, front)?;
    Ok(())
}

#[test]
fn what_deaths_leave_is_mended(rt: HostRuntime) -> Result<(), Fail> {
    for (script, front) in DEATHS {
        each_is_mended(rt.alloc(), script, front)?;
    }
    Ok(())
}

// A mending of a volume in order writes nothing: the first write would fail.
fn is_not_written(alloc: Global, row: Row<'_>) -> Result<(), Wrong> {
    let image = row.begun(alloc)?;
    let stop = Stop {
        write: 1,
        lands: true,
    };
    let wanted = Exchange::worded(REBUILD, 0, NOTHING);
    let after = answered(alloc, failing(alloc, &image, stop)?, wanted)?;
    check_same(alloc, &after, image.all(), "a volume in order")
}

#[test]
fn a_volume_in_order_is_not_written(rt: HostRuntime) -> Result<(), Fail> {
    for first in [&[] as &[Step<'_>], ELEVEN] {
        let row = Row {
            on: On::Fresh,
            first,
            each: &[],
        };
        is_not_written(rt.alloc(), row)?;
    }
    Ok(())
}
