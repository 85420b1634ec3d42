//! Nodes that a script kills: each report, and what is found on the volume after it.

use crate::volumes::{CROWDED, FIVE, RUN, SIX};
use blk_drive::MemImage;
use plain_cat::NoMemory;
use rows_calls::{ELEVEN, Exchange, Lines, On, Row, Step, Wrong, answered, image_of, play};
use std::alloc::Global;
use std::test::Fail;

/// A node that dies before its directory write, which leaves a file in no directory, while another node waits for the directory; one
/// that dies with 32 clusters, so that another finds too few; two that die one after the other, as in the example of their name; and
/// eight of which six die one after the other, each with 17 clusters, numbers and a charge, so that no number is left for the others.
const IN_COMMANDS: &[&[Step<'static>]] = &[
    &[
        Step::Run(
            "NODES 2\n\
         KILL 1 WRITE 5\n\
         1 CREATE R1 MFD A.TXT;0 10 [1,4]\n\
         2 LOOKUP R1 MFD A.TXT;0\n\
         2 CREATE R1 MFD B.TXT;0 4 [1,4]\n",
            "1 N1 died at lost, leaked 16 clusters, 8 numbers\n\
         2 N2 LOOKUP R1 (4,4,0) A.TXT;0 = refused NoSuchFile\n\
         3 N2 CREATE R1 (4,4,0) B.TXT;0 4 [1,4] = (21,1,0) B.TXT;1\n\
         end: 2 answered, 1 died, 211 free\n",
        ),
        Step::Finds(
            "lost 12\n\
         leaked clusters 16\n\
         leaked numbers 8\n",
        ),
    ],
    &[
        Step::Run(
            "NODES 2\n\
         KILL 1 WRITE 3\n\
         1 CREATE R1 MFD A.TXT;0 64 [1,4]\n\
         2 CREATE R1 MFD B.TXT;0 308 [1,4]\n\
         2 CREATE R2 MFD C.TXT;0 308 [1,4]\n\
         2 CREATE R3 MFD D.TXT;0 180 [1,4]\n\
         2 CREATE R4 MFD E.TXT;0 4 [1,4]\n",
            "1 N1 died at nothing, leaked 32 clusters, 9 numbers\n\
         2 N2 CREATE R1 (4,4,0) B.TXT;0 308 [1,4] = (21,1,0) B.TXT;1\n\
         3 N2 CREATE R2 (4,4,0) C.TXT;0 308 [1,4] = (22,1,0) C.TXT;1\n\
         4 N2 CREATE R3 (4,4,0) D.TXT;0 180 [1,4] = (23,1,0) D.TXT;1\n\
         5 N2 CREATE R4 (4,4,0) E.TXT;0 4 [1,4] = refused DeviceFull\n\
         end: 4 answered, 1 died, 0 free\n",
        ),
        Step::Finds("leaked clusters 32\nleaked numbers 9\n"),
    ],
    &[
        Step::Run(
            "# Nodes 1 and 3 die while they make files: a KILL comes in place of the write that it names, of node 1 that of the directory, of\n\
         # node 3 that of the header. Node 2 waits for each of them to give the directory free, and goes on when they are dead.\n\
         NODES 3\n\
         KILL 1 WRITE 5\n\
         KILL 3 WRITE 4\n\
         1 CREATE R1 MFD PLAN.TXT;0 10 [1,4]\n\
         2 LOOKUP R1 MFD PLAN.TXT;0\n\
         2 CREATE R2 MFD NOTE.TXT;0 4 [1,4]\n\
         2 QUOTASHOW [1,4]\n\
         3 CREATE R1 MFD TASK.TXT;0 4 [1,4]\n",
            "1 N1 died at lost, leaked 16 clusters, 8 numbers\n\
         2 N2 LOOKUP R1 (4,4,0) PLAN.TXT;0 = refused NoSuchFile\n\
         3 N3 died at charged, leaked 17 clusters, 9 numbers\n\
         4 N2 CREATE R2 (4,4,0) NOTE.TXT;0 4 [1,4] = (30,1,0) NOTE.TXT;1\n\
         5 N2 QUOTASHOW [1,4] = usage 23 quota 1088 overdraft 0\n\
         end: 3 answered, 2 died, 194 free\n",
        ),
        Step::Finds(
            "lost 12\nleaked clusters 33\nleaked numbers 17\nusage of [1,4]: has 23, should be 18\n",
        ),
    ],
    &[
        Step::Run(
            "NODES 8\n\
         KILL 1 WRITE 4\nKILL 2 WRITE 4\nKILL 3 WRITE 4\nKILL 4 WRITE 4\n\
         KILL 5 WRITE 4\nKILL 6 WRITE 4\nKILL 7 WRITE 4\nKILL 8 WRITE 4\n\
         1 CREATE R1 MFD A.TXT;0 4 [1,4]\n2 CREATE R1 MFD A.TXT;0 4 [1,4]\n\
         3 CREATE R1 MFD A.TXT;0 4 [1,4]\n4 CREATE R1 MFD A.TXT;0 4 [1,4]\n\
         5 CREATE R1 MFD A.TXT;0 4 [1,4]\n6 CREATE R1 MFD A.TXT;0 4 [1,4]\n\
         7 CREATE R1 MFD A.TXT;0 4 [1,4]\n8 CREATE R1 MFD A.TXT;0 4 [1,4]\n",
            "1 N1 died at charged, leaked 17 clusters, 9 numbers\n\
         2 N2 died at charged, leaked 17 clusters, 9 numbers\n\
         3 N3 died at charged, leaked 17 clusters, 9 numbers\n\
         4 N4 died at charged, leaked 17 clusters, 9 numbers\n\
         5 N5 died at charged, leaked 17 clusters, 9 numbers\n\
         6 N6 died at charged, leaked 17 clusters, 8 numbers\n\
         7 N7 CREATE R1 (4,4,0) A.TXT;0 4 [1,4] = refused IndexFull\n\
         8 N8 CREATE R1 (4,4,0) A.TXT;0 4 [1,4] = refused IndexFull\n\
         end: 2 answered, 6 died, 129 free\n",
        ),
        Step::Finds(
            "leaked clusters 102\nleaked numbers 53\nusage of [1,4]: has 30, should be 0\n",
        ),
    ],
];

/// Deaths before the first turn, and of a node that waits and has another waiting after it, which leave nothing to find; after the last
/// answer, and between the ask and the answer of an OPEN, which leave the stock; and kills that never come, since there is no such turn
/// or write: the seven writes of a creation are those of its file and of its stock. A file that a dead node had open is open no more.
/// Deleted before that death, it stays marked.
const OF_NODES: &[&[Step<'static>]] = &[
    &[
        Step::Run(
            "NODES 2\n\
         KILL 1 TURN 1\n\
         1 CREATE R1 MFD A.TXT;0 4 [1,4]\n\
         2 CREATE R1 MFD A.TXT;0 4 [1,4]\n",
            "1 N1 died at idle, leaked 0 clusters, 0 numbers\n\
         2 N2 CREATE R1 (4,4,0) A.TXT;0 4 [1,4] = (12,1,0) A.TXT;1\n\
         end: 1 answered, 1 died, 230 free\n",
        ),
        Step::Finds("accepted\n"),
    ],
    &[
        Step::Run(
            "NODES 3\n\
         KILL 2 TURN 3\n\
         1 CREATE R1 MFD A.TXT;0 4 [1,4]\n\
         2 CREATE R1 MFD A.TXT;0 4 [1,4]\n\
         3 CREATE R1 MFD A.TXT;0 4 [1,4]\n",
            "1 N2 died at nothing, leaked 0 clusters, 0 numbers\n\
         2 N1 CREATE R1 (4,4,0) A.TXT;0 4 [1,4] = (12,1,0) A.TXT;1\n\
         3 N3 CREATE R1 (4,4,0) A.TXT;0 4 [1,4] = (13,1,0) A.TXT;2\n\
         end: 2 answered, 1 died, 229 free\n",
        ),
        Step::Finds("accepted\n"),
    ],
    &[
        Step::Run(
            "NODES 2\n\
         SCHED 1*30 2*4 1\n\
         KILL 1 TURN 31\n\
         1 CREATE R1 MFD A.TXT;0 4 [1,4]\n\
         1 OPEN 1 R1 EX\n\
         2 OPEN 1 (12,1,0) PR\n\
         2 OPEN 1 (12,1,0) PR\n",
            "1 N1 CREATE R1 (4,4,0) A.TXT;0 4 [1,4] = (12,1,0) A.TXT;1\n\
         2 N1 OPEN 1 (12,1,0) EX = open\n\
         3 N2 OPEN 1 (12,1,0) PR = refused AccConflict\n\
         4 N1 died at idle, leaked 16 clusters, 8 numbers\n\
         5 N2 OPEN 1 (12,1,0) PR = open\n\
         6 N2 CLOSE 1 = closed\n\
         end: 5 answered, 1 died, 214 free\n",
        ),
        Step::Finds(
            "leaked clusters 16\n\
         leaked numbers 8\n",
        ),
    ],
    &[
        Step::Run(
            "NODES 2\n\
         SCHED 1*30 2*40\n\
         KILL 1 TURN 31\n\
         1 CREATE R1 MFD A.TXT;0 4 [1,4]\n\
         1 OPEN 1 R1 CR\n\
         2 DELETE MFD A.TXT;0\n",
            "1 N1 CREATE R1 (4,4,0) A.TXT;0 4 [1,4] = (12,1,0) A.TXT;1\n\
         2 N1 OPEN 1 (12,1,0) CR = open\n\
         3 N2 DELETE (4,4,0) A.TXT;0 = marked\n\
         4 N1 died at idle, leaked 16 clusters, 8 numbers\n\
         end: 3 answered, 1 died, 214 free\n",
        ),
        Step::Finds(
            "marked 12\n\
         leaked clusters 16\n\
         leaked numbers 8\n",
        ),
    ],
    &[
        Step::Run(
            "NODES 2\n\
         SCHED 1*30\n\
         KILL 1 TURN 30\n\
         1 CREATE R1 MFD A.TXT;0 4 [1,4]\n\
         1 OPEN 1 R1 EX\n\
         2 OPEN 1 (12,1,0) EX\n",
            "1 N1 CREATE R1 (4,4,0) A.TXT;0 4 [1,4] = (12,1,0) A.TXT;1\n\
         2 N1 died at nothing, leaked 16 clusters, 8 numbers\n\
         3 N2 OPEN 1 (12,1,0) EX = open\n\
         4 N2 CLOSE 1 = closed\n\
         end: 3 answered, 1 died, 214 free\n",
        ),
        Step::Finds(
            "leaked clusters 16\n\
         leaked numbers 8\n",
        ),
    ],
    &[
        Step::Run(
            "NODES 3\n\
         KILL 1 WRITE 8\n\
         KILL 2 TURN 2\n\
         KILL 3 TURN 1\n\
         1 CREATE R1 MFD A.TXT;0 4 [1,4]\n",
            "1 N3 died at idle, leaked 0 clusters, 0 numbers\n\
         2 N1 CREATE R1 (4,4,0) A.TXT;0 4 [1,4] = (12,1,0) A.TXT;1\n\
         end: 1 answered, 1 died, 230 free\n",
        ),
        Step::Finds("accepted\n"),
    ],
];

/// Deaths at the writes of commands on a channel, where the file has eight blocks: at the second of the four by which a CLOSE frees a
/// marked file, and at the header write of a WRITE above the mark, whose blocks do not show without it.
const ON_CHANNELS: &[&[Step<'static>]] = &[
    &[
        Step::Run(
            "NODES 1\n\
         KILL 1 WRITE 4\n\
         1 OPEN 1 (12,1,0) CR\n\
         1 DELETE MFD A.TXT;0\n",
            "1 N1 OPEN 1 (12,1,0) CR = open\n\
         2 N1 DELETE (4,4,0) A.TXT;0 = marked\n\
         3 N1 died at freed, leaked 2 clusters, 1 numbers\n\
         end: 2 answered, 1 died, 229 free\n",
        ),
        Step::Finds("leaked clusters 2\nleaked numbers 1\nusage of [1,4]: has 9, should be 0\n"),
    ],
    &[
        Step::Run(
            "NODES 1\n\
         KILL 1 WRITE 4\n\
         1 OPEN 1 (12,1,0) PW\n\
         1 WRITE 1 3 AB\n",
            "1 N1 OPEN 1 (12,1,0) PW = open\n\
         2 N1 died at nothing, leaked 0 clusters, 0 numbers\n\
         end: 1 answered, 1 died, 229 free\n",
        ),
        Step::Finds("accepted\n"),
    ],
];

/// The fresh volume with A.TXT;1 (12,1), which has eight blocks.
const A_FILE: &[Step<'static>] = &[Step::Made(
    "NODES 1\n1 CREATE R1 MFD A.TXT;0 8 [1,4]\n",
    "1 N1 CREATE R1 (4,4,0) A.TXT;0 8 [1,4] = (12,1,0) A.TXT;1\nend: 1 answered, 0 died, 229 free\n",
)];

/// A node dies between the writes of a directory of three blocks. Another node then finds every entry that was there.
const LOOKED_UP: &[Step<'static>] = &[
    Step::Lines(
        "NODES 2\nKILL 1 WRITE 5\n",
        &[
            Lines {
                from: 1,
                to: 1,
                more: 0,
                script: "1 CREATE R1 (12,1,0) 00XXXXXXXXXXXXXXXXXXXXXXXXXXXXXXXXXXXXX.YYYYYYYYYYYYYYYYYYYYYYYYYYYYYYYYYYYYYYY;0 0 [1,4]\n",
                report: "%l N1 died at lost, leaked 0 clusters, 8 numbers\n",
            },
            Lines {
                from: 1,
                to: 11,
                more: 12,
                script: "2 LOOKUP R1 (12,1,0) %2XXXXXXXXXXXXXXXXXXXXXXXXXXXXXXXXXXXXX.YYYYYYYYYYYYYYYYYYYYYYYYYYYYYYYYYYYYYYY;0\n",
                report: "%l N2 LOOKUP R1 (12,1,0) %2XXXXXXXXXXXXXXXXXXXXXXXXXXXXXXXXXXXXX.YYYYYYYYYYYYYYYYYYYYYYYYYYYYYYYYYYYYYYY;0 = (%n,1,0) %2XXXXXXXXXXXXXXXXXXXXXXXXXXXXXXXXXXXXX.YYYYYYYYYYYYYYYYYYYYYYYYYYYYYYYYYYYYYYY;1\n",
            },
        ],
        "end: 11 answered, 1 died, 230 free\n",
    ),
    Step::Finds("doubles in 12\nlost 24\nleaked numbers 8\n"),
];

/// The removal of an entry moves Z.T from the second block to the first, and an insertion from the first to the second: in between it
/// stands in both.
const REMOVED: &[Step<'static>] = &[
    Step::Run(
        "NODES 1\nKILL 1 WRITE 4\n1 DELETE (12,1,0) 06XXXXXXXXXXXXXXXXXXXXXXXXXXXXXXXXXXXXX.YYYYYYYYYYYYYYYYYYYYYYYYYYYYYYYYYYYYYYY;0\n",
        "1 N1 died at unlinked, leaked 0 clusters, 0 numbers\nend: 0 answered, 1 died, 230 free\n",
    ),
    Step::Finds("marked 18\ndoubles in 12\n"),
];

const INSERTED: &[Step<'static>] = &[
    Step::Run(
        "NODES 1\nKILL 1 WRITE 5\n1 CREATE R1 (12,1,0) 06XXXXXXXXXXXXXXXXXXXXXXXXXXXXXXXXXXXXX.YYYYYYYYYYYYYYYYYYYYYYYYYYYYYYYYYYYYYYY;0 0 [1,4]\n",
        "1 N1 died at lost, leaked 0 clusters, 8 numbers\nend: 0 answered, 1 died, 230 free\n",
    ),
    Step::Finds("doubles in 12\nlost 19\nleaked numbers 8\n"),
];

/// A lost file without a block needs no place there, so the volume can be mended.
const EMPTY: &[Step<'static>] = &[
    Step::Run(
        "NODES 1\nKILL 1 WRITE 4\n1 CREATE R1 MFD A.TXT;0 0 [1,4]\n",
        "1 N1 died at lost, leaked 0 clusters, 8 numbers\nend: 0 answered, 1 died, 182 free\n",
    ),
    Step::Finds("lost 33\nleaked numbers 8\n"),
];

const COMMANDS: &[Row<'static>] = &[Row {
    on: On::Fresh,
    first: &[],
    each: IN_COMMANDS,
}];

const SEVERAL: &[Row<'static>] = &[Row {
    on: On::Fresh,
    first: &[],
    each: OF_NODES,
}];

const CHANNELS: &[Row<'static>] = &[Row {
    on: On::Fresh,
    first: A_FILE,
    each: ON_CHANNELS,
}];

const DIRECTORIES: &[Row<'static>] = &[
    Row {
        on: On::Fresh,
        first: ELEVEN,
        each: &[LOOKED_UP],
    },
    Row {
        on: On::Fresh,
        first: SIX,
        each: &[REMOVED],
    },
    Row {
        on: On::Fresh,
        first: FIVE,
        each: &[INSERTED],
    },
];

const SMALL: &[Row<'static>] = &[Row {
    on: On::Small,
    first: CROWDED,
    each: &[EMPTY],
}];

#[test]
fn a_node_dies_in_its_command(rt: HostRuntime) -> Result<(), Fail> {
    play(rt.alloc(), COMMANDS)?;
    Ok(())
}

#[test]
fn several_nodes_die(rt: HostRuntime) -> Result<(), Fail> {
    play(rt.alloc(), SEVERAL)?;
    Ok(())
}

#[test]
fn nodes_die_with_channels(rt: HostRuntime) -> Result<(), Fail> {
    play(rt.alloc(), CHANNELS)?;
    Ok(())
}

#[test]
fn a_node_dies_in_a_directory_of_two_blocks(rt: HostRuntime) -> Result<(), Fail> {
    play(rt.alloc(), DIRECTORIES)?;
    Ok(())
}

#[test]
fn a_node_dies_on_a_small_volume(rt: HostRuntime) -> Result<(), Fail> {
    play(rt.alloc(), SMALL)?;
    Ok(())
}

/// Deaths of node 1 at each turn, or each write, from the first of these numbers to the last: its entry, the reply of node 2, the free
/// clusters, and what is found.
type Death = (u32, u32, &'static str, &'static str, u32, &'static str);

/// The command of node 1, and the one of node 2, which waits for it, as a script and as the report has it; whether the numbers of
/// deaths count turns or writes; and the deaths.
#[derive(Clone, Copy)]
struct Scene {
    by: &'static str,
    line: &'static str,
    other: &'static str,
    entry: &'static str,
    deaths: &'static [Death],
}

const NOT_THERE: &str = "refused NoSuchFile";

const NOTHING: &str = "nothing, leaked 0 clusters, 0 numbers";

const ACCEPTED: &str = "accepted\n";

const WHOLE: &str = "file [1,4] 8 blocks mark 1 end 1,0";

const CUT: &str = "file [1,4] 4 blocks mark 1 end 1,0";

const FOUND: &str = "(12,1,0) A.TXT;1";

const LOOKS: &str = "LOOKUP R1 MFD A.TXT;0";

const LOOKS_ENTRY: &str = "LOOKUP R1 (4,4,0) A.TXT;0";

/// Turns 16 and 17 write the bitmaps, and 22 to 24 quota row, header and directory. The answer is turn 25.
const OF_A_FILE: &[Death] = &[
    (
        1,
        1,
        "idle, leaked 0 clusters, 0 numbers",
        NOT_THERE,
        231,
        ACCEPTED,
    ),
    (2, 16, NOTHING, NOT_THERE, 231, ACCEPTED),
    (
        17,
        17,
        "nothing, leaked 0 clusters, 9 numbers",
        NOT_THERE,
        231,
        "leaked numbers 9\n",
    ),
    (
        18,
        22,
        "nothing, leaked 19 clusters, 9 numbers",
        NOT_THERE,
        212,
        "leaked clusters 19\nleaked numbers 9\n",
    ),
    (
        23,
        23,
        "charged, leaked 19 clusters, 9 numbers",
        NOT_THERE,
        212,
        "leaked clusters 19\nleaked numbers 9\nusage of [1,4]: has 13, should be 0\n",
    ),
    (
        24,
        24,
        "lost, leaked 16 clusters, 8 numbers",
        NOT_THERE,
        212,
        "lost 12\nleaked clusters 16\nleaked numbers 8\n",
    ),
    (
        25,
        25,
        "done, leaked 16 clusters, 8 numbers",
        "(12,1,0) A.TXT;1",
        212,
        "leaked clusters 16\nleaked numbers 8\n",
    ),
];

/// The blocks of a directory come after the quota row, and the header after them.
const OF_A_DIRECTORY: &[Death] = &[
    (1, 1, NOTHING, NOT_THERE, 231, ACCEPTED),
    (
        2,
        2,
        "nothing, leaked 0 clusters, 9 numbers",
        NOT_THERE,
        231,
        "leaked numbers 9\n",
    ),
    (
        3,
        3,
        "nothing, leaked 17 clusters, 9 numbers",
        NOT_THERE,
        214,
        "leaked clusters 17\nleaked numbers 9\n",
    ),
    (
        4,
        8,
        "charged, leaked 17 clusters, 9 numbers",
        NOT_THERE,
        214,
        "leaked clusters 17\nleaked numbers 9\nusage of [1,4]: has 5, should be 0\n",
    ),
    (
        9,
        9,
        "lost, leaked 16 clusters, 8 numbers",
        NOT_THERE,
        214,
        "lost 12\nleaked clusters 16\nleaked numbers 8\n",
    ),
];

/// An EXTEND writes the storage block, the quota row and the header; a TRUNC the header, the storage block and the quota row.
const GROWS: &[Death] = &[
    (1, 1, NOTHING, WHOLE, 229, ACCEPTED),
    (
        2,
        2,
        "nothing, leaked 17 clusters, 0 numbers",
        WHOLE,
        212,
        "leaked clusters 17\n",
    ),
    (
        3,
        3,
        "charged, leaked 17 clusters, 0 numbers",
        WHOLE,
        212,
        "leaked clusters 17\nusage of [1,4]: has 13, should be 9\n",
    ),
];

const SHRINKS: &[Death] = &[
    (1, 1, NOTHING, WHOLE, 229, ACCEPTED),
    (
        2,
        2,
        "shortened, leaked 1 clusters, 0 numbers",
        CUT,
        229,
        "leaked clusters 1\nusage of [1,4]: has 9, should be 5\n",
    ),
    (
        3,
        3,
        "shortened, leaked 0 clusters, 0 numbers",
        CUT,
        230,
        "usage of [1,4]: has 9, should be 5\n",
    ),
];

/// A DELETE writes the mark, the directory, the free slot, the storage block, the index block and the quota row; a RENAME writes the
/// directory twice.
const GOES: &[Death] = &[
    (1, 1, NOTHING, FOUND, 229, ACCEPTED),
    (
        2,
        2,
        "marked, leaked 0 clusters, 0 numbers",
        FOUND,
        229,
        "marked 12\n",
    ),
    (
        3,
        3,
        "unlinked, leaked 0 clusters, 0 numbers",
        NOT_THERE,
        229,
        "marked 12\n",
    ),
    (
        4,
        4,
        "freed, leaked 2 clusters, 1 numbers",
        NOT_THERE,
        229,
        "leaked clusters 2\nleaked numbers 1\nusage of [1,4]: has 9, should be 0\n",
    ),
    (
        5,
        5,
        "freed, leaked 0 clusters, 1 numbers",
        NOT_THERE,
        231,
        "leaked numbers 1\nusage of [1,4]: has 9, should be 0\n",
    ),
    (
        6,
        6,
        "freed, leaked 0 clusters, 0 numbers",
        NOT_THERE,
        231,
        "usage of [1,4]: has 9, should be 0\n",
    ),
];

const MOVES: &[Death] = &[
    (1, 1, NOTHING, FOUND, 229, ACCEPTED),
    (
        2,
        2,
        "both, leaked 0 clusters, 0 numbers",
        FOUND,
        229,
        "second entry B.TXT;1 in 4\n",
    ),
];

/// The write of a quota row is turn 7, and the answer turn 8.
const OF_A_QUOTA: &[Death] = &[
    (2, 7, NOTHING, "refused NoQuota", 231, ACCEPTED),
    (
        8,
        8,
        "done, leaked 0 clusters, 0 numbers",
        "usage 0 quota 100 overdraft 0",
        231,
        ACCEPTED,
    ),
];

/// Before the removal of a DELETE; before and after its ask, which is turn 20; after the free slot; and before the answer.
const ABOUT_AN_ASK: &[Death] = &[
    (
        19,
        19,
        "marked, leaked 0 clusters, 0 numbers",
        "(12,1,0) A.TXT;1",
        229,
        "marked 12\n",
    ),
    (
        20,
        21,
        "unlinked, leaked 0 clusters, 0 numbers",
        NOT_THERE,
        229,
        "marked 12\n",
    ),
    (
        22,
        22,
        "freed, leaked 2 clusters, 1 numbers",
        NOT_THERE,
        229,
        "leaked clusters 2\nleaked numbers 1\nusage of [1,4]: has 9, should be 0\n",
    ),
    (
        25,
        25,
        "done, leaked 0 clusters, 0 numbers",
        NOT_THERE,
        231,
        ACCEPTED,
    ),
];

/// On a fresh volume.
const ON_FRESH: &[Scene] = &[
    Scene {
        by: "TURN",
        line: "CREATE R1 MFD A.TXT;0 10 [1,4]",
        other: LOOKS,
        entry: LOOKS_ENTRY,
        deaths: OF_A_FILE,
    },
    Scene {
        by: "WRITE",
        line: "MKDIR R1 MFD A [1,4]",
        other: "LOOKUP R1 MFD A.DIR;0",
        entry: "LOOKUP R1 (4,4,0) A.DIR;0",
        deaths: OF_A_DIRECTORY,
    },
    Scene {
        by: "TURN",
        line: "QUOTASET [2,2] 100 0",
        other: "QUOTASHOW [2,2]",
        entry: "QUOTASHOW [2,2]",
        deaths: OF_A_QUOTA,
    },
];

/// On the volume with A.TXT.
const ON_A_FILE: &[Scene] = &[
    Scene {
        by: "WRITE",
        line: "EXTEND (12,1,0) 4",
        other: "STAT (12,1,0)",
        entry: "STAT (12,1,0)",
        deaths: GROWS,
    },
    Scene {
        by: "WRITE",
        line: "TRUNC (12,1,0) 4",
        other: "STAT (12,1,0)",
        entry: "STAT (12,1,0)",
        deaths: SHRINKS,
    },
    Scene {
        by: "WRITE",
        line: "DELETE MFD A.TXT;0",
        other: LOOKS,
        entry: LOOKS_ENTRY,
        deaths: GOES,
    },
    Scene {
        by: "WRITE",
        line: "RENAME MFD A.TXT;1 B.TXT;0",
        other: LOOKS,
        entry: LOOKS_ENTRY,
        deaths: MOVES,
    },
    Scene {
        by: "TURN",
        line: "DELETE MFD A.TXT;0",
        other: LOOKS,
        entry: LOOKS_ENTRY,
        deaths: ABOUT_AN_ASK,
    },
];

// The script in which node 1 dies at this turn or write.
fn script_of(alloc: Global, scene: Scene, k: u32) -> Result<String, NoMemory> {
    let Scene {
        by,
        line,
        other,
        ..
    } = scene;
    format!(in alloc; "NODES 2\nKILL 1 {by} {k}\n1 {line}\n2 {other}\n")
}

// Its report.
fn report_of(alloc: Global, scene: Scene, death: Death) -> Result<String, NoMemory> {
    let (_, _, died, reply, free, _) = death;
    let entry = scene.entry;
    format!(in alloc;
        "1 N1 died at {died}\n2 N2 {entry} = {reply}\nend: 1 answered, 1 died, {free} free\n"
    )
}

// Node 1 dies at this turn or write.
fn dies_at(
    alloc: Global,
    image: &MemImage,
    scene: Scene,
    death: Death,
    k: u32,
) -> Result<(), Wrong> {
    let script = script_of(alloc, scene, k)?;
    let report = report_of(alloc, scene, death)?;
    let wanted = Exchange::run(script.as_str(), 0, report.as_str());
    let left = answered(alloc, image_of(alloc, image.all(), None)?, wanted)?;
    answered(alloc, left, Exchange::finds(death.5))?;
    Ok(())
}

// The deaths of each of these scenes.
fn all_die(alloc: Global, image: &MemImage, scenes: &[Scene]) -> Result<(), Wrong> {
    for scene in scenes {
        for death in scene.deaths {
            for k in death.0..death.1.saturating_add(1) {
                dies_at(alloc, image, *scene, *death, k)?;
            }
        }
    }
    Ok(())
}

#[test]
fn a_node_dies_at_each_turn_or_write(rt: HostRuntime) -> Result<(), Fail> {
    let alloc = rt.alloc();
    for (first, scenes) in [(&[] as &[Step<'_>], ON_FRESH), (A_FILE, ON_A_FILE)] {
        let row = Row {
            on: On::Fresh,
            first,
            each: &[],
        };
        all_die(alloc, &row.begun(alloc)?, scenes)?;
    }
    Ok(())
}
