//! Stocks: what nodes have of free clusters and file numbers, when they give it back, and what is refused when all of it together is
//! not enough.

use blk_drive::MemImage;
use plain_cat::NoMemory;
use rows_calls::{
    Called, Exchange, Lines, On, Row, Step, Written, Wrong, answered, call, check_about, expect,
    lines_with, play, text_of, volume,
};
use std::alloc::Global;
use std::test::Fail;

/// Node 1 makes a file in 25 turns, and has sixteen clusters and eight numbers in its stock. Node 2 then fills the volume: it takes 77
/// and 16 clusters, then 77, and for D.TXT it needs 76, of which 16 stand in its stock and 44 are free. It writes its stock back and asks
/// for all free space, so that node 1 gives back its own. In the first script node 1 has begun no command then; in the second its look-up
/// waits for the directory, which node 2 has; in the third it is between the two writes of a RENAME. In the fourth node 3 has a stock
/// too, and D.TXT needs both.
const SHORTAGES: &[&[Step<'static>]] = &[
    &[Step::Made(
        "NODES 2\n\
         SCHED 1*25 2*400\n\
         1 CREATE R1 MFD A.TXT;0 4 [1,4]\n\
         1 LOOKUP R2 MFD A.TXT;0\n\
         2 CREATE R1 MFD B.TXT;0 308 [1,4]\n\
         2 CREATE R2 MFD C.TXT;0 308 [1,4]\n\
         2 CREATE R3 MFD D.TXT;0 304 [1,4]\n\
         2 CREATE R4 MFD E.TXT;0 4 [1,4]\n",
        "1 N1 CREATE R1 (4,4,0) A.TXT;0 4 [1,4] = (12,1,0) A.TXT;1\n\
         2 N2 CREATE R1 (4,4,0) B.TXT;0 308 [1,4] = (21,1,0) B.TXT;1\n\
         3 N2 CREATE R2 (4,4,0) C.TXT;0 308 [1,4] = (22,1,0) C.TXT;1\n\
         4 N2 CREATE R3 (4,4,0) D.TXT;0 304 [1,4] = (13,1,0) D.TXT;1\n\
         5 N1 LOOKUP R2 (4,4,0) A.TXT;0 = (12,1,0) A.TXT;1\n\
         6 N2 CREATE R4 (4,4,0) E.TXT;0 4 [1,4] = refused DeviceFull\n\
         end: 6 answered, 0 died, 0 free\n",
    )],
    &[Step::Made(
        "NODES 2\n\
         SCHED 1*25 2*50 1 2*400\n\
         1 CREATE R1 MFD A.TXT;0 4 [1,4]\n\
         1 LOOKUP R2 MFD A.TXT;0\n\
         2 CREATE R1 MFD B.TXT;0 308 [1,4]\n\
         2 CREATE R2 MFD C.TXT;0 308 [1,4]\n\
         2 CREATE R3 MFD D.TXT;0 304 [1,4]\n\
         2 CREATE R4 MFD E.TXT;0 4 [1,4]\n",
        "1 N1 CREATE R1 (4,4,0) A.TXT;0 4 [1,4] = (12,1,0) A.TXT;1\n\
         2 N2 CREATE R1 (4,4,0) B.TXT;0 308 [1,4] = (21,1,0) B.TXT;1\n\
         3 N2 CREATE R2 (4,4,0) C.TXT;0 308 [1,4] = (22,1,0) C.TXT;1\n\
         4 N2 CREATE R3 (4,4,0) D.TXT;0 304 [1,4] = (13,1,0) D.TXT;1\n\
         5 N1 LOOKUP R2 (4,4,0) A.TXT;0 = (12,1,0) A.TXT;1\n\
         6 N2 CREATE R4 (4,4,0) E.TXT;0 4 [1,4] = refused DeviceFull\n\
         end: 6 answered, 0 died, 0 free\n",
    )],
    &[Step::Made(
        "NODES 2\n\
         SCHED 1*33 2*400\n\
         1 CREATE R1 LOST A.TXT;0 4 [1,4]\n\
         1 RENAME LOST A.TXT;1 Z.TXT;0\n\
         2 CREATE R1 MFD B.TXT;0 308 [1,4]\n\
         2 CREATE R2 MFD C.TXT;0 308 [1,4]\n\
         2 CREATE R3 MFD D.TXT;0 304 [1,4]\n\
         2 CREATE R4 MFD E.TXT;0 4 [1,4]\n",
        "1 N1 CREATE R1 (11,1,0) A.TXT;0 4 [1,4] = (12,1,0) A.TXT;1\n\
         2 N2 CREATE R1 (4,4,0) B.TXT;0 308 [1,4] = (21,1,0) B.TXT;1\n\
         3 N2 CREATE R2 (4,4,0) C.TXT;0 308 [1,4] = (22,1,0) C.TXT;1\n\
         4 N1 RENAME (11,1,0) A.TXT;1 Z.TXT;0 = Z.TXT;1\n\
         5 N2 CREATE R3 (4,4,0) D.TXT;0 304 [1,4] = (13,1,0) D.TXT;1\n\
         6 N2 CREATE R4 (4,4,0) E.TXT;0 4 [1,4] = refused DeviceFull\n\
         end: 6 answered, 0 died, 0 free\n",
    )],
    &[Step::Made(
        "NODES 3\n\
         SCHED 1*25 3*25 2*400\n\
         1 CREATE R1 MFD A.TXT;0 4 [1,4]\n\
         1 LOOKUP R2 MFD A.TXT;0\n\
         2 CREATE R1 MFD B.TXT;0 308 [1,4]\n\
         2 CREATE R2 MFD C.TXT;0 308 [1,4]\n\
         2 CREATE R3 MFD D.TXT;0 300 [1,4]\n\
         2 CREATE R4 MFD E.TXT;0 4 [1,4]\n\
         3 CREATE R1 MFD F.TXT;0 4 [1,4]\n\
         3 LOOKUP R2 MFD F.TXT;0\n",
        "1 N1 CREATE R1 (4,4,0) A.TXT;0 4 [1,4] = (12,1,0) A.TXT;1\n\
         2 N3 CREATE R1 (4,4,0) F.TXT;0 4 [1,4] = (21,1,0) F.TXT;1\n\
         3 N2 CREATE R1 (4,4,0) B.TXT;0 308 [1,4] = (30,1,0) B.TXT;1\n\
         4 N2 CREATE R2 (4,4,0) C.TXT;0 308 [1,4] = (31,1,0) C.TXT;1\n\
         5 N2 CREATE R3 (4,4,0) D.TXT;0 300 [1,4] = (13,1,0) D.TXT;1\n\
         6 N3 LOOKUP R2 (4,4,0) F.TXT;0 = (21,1,0) F.TXT;1\n\
         7 N1 LOOKUP R2 (4,4,0) A.TXT;0 = (12,1,0) A.TXT;1\n\
         8 N2 CREATE R4 (4,4,0) E.TXT;0 4 [1,4] = refused DeviceFull\n\
         end: 8 answered, 0 died, 0 free\n",
    )],
];

/// The scripts of the shortages above with a death in place of a write of the give-back, or of the turn behind it. Node 2 has 16 clusters
/// and 7 numbers when it writes its stock back for D.TXT, in turns 62 and 63; node 1 its 16 and 8 in turns 29 and 30, or 37 and 38 in
/// the middle of its RENAME. What the dead node 1 has not given back is wanting for D.TXT.
const DEATHS: &[&[Step<'static>]] = &[
    &[
        Step::Run(
            "NODES 2\n\
         SCHED 1*25 2*400\n\
         KILL 2 TURN 62\n\
         1 CREATE R1 MFD A.TXT;0 4 [1,4]\n\
         1 LOOKUP R2 MFD A.TXT;0\n\
         2 CREATE R1 MFD B.TXT;0 308 [1,4]\n\
         2 CREATE R2 MFD C.TXT;0 308 [1,4]\n\
         2 CREATE R3 MFD D.TXT;0 304 [1,4]\n",
            "1 N1 CREATE R1 (4,4,0) A.TXT;0 4 [1,4] = (12,1,0) A.TXT;1\n\
         2 N2 CREATE R1 (4,4,0) B.TXT;0 308 [1,4] = (21,1,0) B.TXT;1\n\
         3 N2 CREATE R2 (4,4,0) C.TXT;0 308 [1,4] = (22,1,0) C.TXT;1\n\
         4 N2 died at nothing, leaked 16 clusters, 7 numbers\n\
         5 N1 LOOKUP R2 (4,4,0) A.TXT;0 = (12,1,0) A.TXT;1\n\
         end: 4 answered, 1 died, 60 free\n",
        ),
        Step::Finds("leaked clusters 16\nleaked numbers 7\n"),
    ],
    &[
        Step::Run(
            "NODES 2\n\
         SCHED 1*25 2*400\n\
         KILL 2 TURN 63\n\
         1 CREATE R1 MFD A.TXT;0 4 [1,4]\n\
         2 CREATE R1 MFD B.TXT;0 308 [1,4]\n\
         2 CREATE R2 MFD C.TXT;0 308 [1,4]\n\
         2 CREATE R3 MFD D.TXT;0 304 [1,4]\n",
            "1 N1 CREATE R1 (4,4,0) A.TXT;0 4 [1,4] = (12,1,0) A.TXT;1\n\
         2 N2 CREATE R1 (4,4,0) B.TXT;0 308 [1,4] = (21,1,0) B.TXT;1\n\
         3 N2 CREATE R2 (4,4,0) C.TXT;0 308 [1,4] = (22,1,0) C.TXT;1\n\
         4 N2 died at nothing, leaked 16 clusters, 0 numbers\n\
         end: 3 answered, 1 died, 60 free\n",
        ),
        Step::Finds("leaked clusters 16\n"),
    ],
    &[
        Step::Run(
            "NODES 2\n\
         SCHED 1*25 2*400\n\
         KILL 2 TURN 64\n\
         1 CREATE R1 MFD A.TXT;0 4 [1,4]\n\
         2 CREATE R1 MFD B.TXT;0 308 [1,4]\n\
         2 CREATE R2 MFD C.TXT;0 308 [1,4]\n\
         2 CREATE R3 MFD D.TXT;0 304 [1,4]\n",
            "1 N1 CREATE R1 (4,4,0) A.TXT;0 4 [1,4] = (12,1,0) A.TXT;1\n\
         2 N2 CREATE R1 (4,4,0) B.TXT;0 308 [1,4] = (21,1,0) B.TXT;1\n\
         3 N2 CREATE R2 (4,4,0) C.TXT;0 308 [1,4] = (22,1,0) C.TXT;1\n\
         4 N2 died at nothing, leaked 0 clusters, 0 numbers\n\
         end: 3 answered, 1 died, 76 free\n",
        ),
        Step::Finds("accepted\n"),
    ],
    &[
        Step::Run(
            "NODES 2\n\
         SCHED 1*25 2*400\n\
         KILL 1 TURN 30\n\
         1 CREATE R1 MFD A.TXT;0 4 [1,4]\n\
         1 LOOKUP R2 MFD A.TXT;0\n\
         2 CREATE R1 MFD B.TXT;0 308 [1,4]\n\
         2 CREATE R2 MFD C.TXT;0 308 [1,4]\n\
         2 CREATE R3 MFD D.TXT;0 304 [1,4]\n\
         2 CREATE R4 MFD E.TXT;0 4 [1,4]\n",
            "1 N1 CREATE R1 (4,4,0) A.TXT;0 4 [1,4] = (12,1,0) A.TXT;1\n\
         2 N2 CREATE R1 (4,4,0) B.TXT;0 308 [1,4] = (21,1,0) B.TXT;1\n\
         3 N2 CREATE R2 (4,4,0) C.TXT;0 308 [1,4] = (22,1,0) C.TXT;1\n\
         4 N1 died at idle, leaked 16 clusters, 0 numbers\n\
         5 N2 CREATE R3 (4,4,0) D.TXT;0 304 [1,4] = refused DeviceFull\n\
         6 N2 CREATE R4 (4,4,0) E.TXT;0 4 [1,4] = (13,1,0) E.TXT;1\n\
         end: 5 answered, 1 died, 59 free\n",
        ),
        Step::Finds("leaked clusters 16\n"),
    ],
    &[
        Step::Run(
            "NODES 2\n\
         SCHED 1*25 2*400\n\
         KILL 1 TURN 31\n\
         1 CREATE R1 MFD A.TXT;0 4 [1,4]\n\
         1 LOOKUP R2 MFD A.TXT;0\n\
         2 CREATE R1 MFD B.TXT;0 308 [1,4]\n\
         2 CREATE R2 MFD C.TXT;0 308 [1,4]\n\
         2 CREATE R3 MFD D.TXT;0 304 [1,4]\n\
         2 CREATE R4 MFD E.TXT;0 4 [1,4]\n",
            "1 N1 CREATE R1 (4,4,0) A.TXT;0 4 [1,4] = (12,1,0) A.TXT;1\n\
         2 N2 CREATE R1 (4,4,0) B.TXT;0 308 [1,4] = (21,1,0) B.TXT;1\n\
         3 N2 CREATE R2 (4,4,0) C.TXT;0 308 [1,4] = (22,1,0) C.TXT;1\n\
         4 N1 died at idle, leaked 0 clusters, 0 numbers\n\
         5 N2 CREATE R3 (4,4,0) D.TXT;0 304 [1,4] = (13,1,0) D.TXT;1\n\
         6 N2 CREATE R4 (4,4,0) E.TXT;0 4 [1,4] = refused DeviceFull\n\
         end: 5 answered, 1 died, 0 free\n",
        ),
        Step::Finds("accepted\n"),
    ],
    &[
        Step::Run(
            "NODES 2\n\
         SCHED 1*33 2*400\n\
         KILL 1 TURN 38\n\
         1 CREATE R1 LOST A.TXT;0 4 [1,4]\n\
         1 RENAME LOST A.TXT;1 Z.TXT;0\n\
         2 CREATE R1 MFD B.TXT;0 308 [1,4]\n\
         2 CREATE R2 MFD C.TXT;0 308 [1,4]\n\
         2 CREATE R3 MFD D.TXT;0 304 [1,4]\n",
            "1 N1 CREATE R1 (11,1,0) A.TXT;0 4 [1,4] = (12,1,0) A.TXT;1\n\
         2 N2 CREATE R1 (4,4,0) B.TXT;0 308 [1,4] = (21,1,0) B.TXT;1\n\
         3 N2 CREATE R2 (4,4,0) C.TXT;0 308 [1,4] = (22,1,0) C.TXT;1\n\
         4 N1 died at both, leaked 16 clusters, 0 numbers\n\
         5 N2 CREATE R3 (4,4,0) D.TXT;0 304 [1,4] = refused DeviceFull\n\
         end: 4 answered, 1 died, 60 free\n",
        ),
        Step::Finds("second entry Z.TXT;1 in 11\nleaked clusters 16\n"),
    ],
];

/// A node that is over dies in place of the first write of its give-back, and another then takes all that is left, to the last cluster.
const OVER: &[&[Step<'static>]] = &[&[
    Step::Run(
        "NODES 2\n\
     KILL 1 WRITE 6\n\
     1 CREATE R1 MFD A.TXT;0 4 [1,4]\n\
     2 CREATE R1 MFD B.TXT;0 308 [1,4]\n\
     2 CREATE R2 MFD C.TXT;0 308 [1,4]\n\
     2 CREATE R3 MFD D.TXT;0 240 [1,4]\n\
     2 CREATE R4 MFD E.TXT;0 4 [1,4]\n",
        "1 N1 CREATE R1 (4,4,0) A.TXT;0 4 [1,4] = (12,1,0) A.TXT;1\n\
     2 N1 died at idle, leaked 16 clusters, 8 numbers\n\
     3 N2 CREATE R1 (4,4,0) B.TXT;0 308 [1,4] = (21,1,0) B.TXT;1\n\
     4 N2 CREATE R2 (4,4,0) C.TXT;0 308 [1,4] = (22,1,0) C.TXT;1\n\
     5 N2 CREATE R3 (4,4,0) D.TXT;0 240 [1,4] = (23,1,0) D.TXT;1\n\
     6 N2 CREATE R4 (4,4,0) E.TXT;0 4 [1,4] = refused DeviceFull\n\
     end: 5 answered, 1 died, 0 free\n",
    ),
    Step::Finds("leaked clusters 16\nleaked numbers 8\n"),
]];

/// What the stock has takes no turn: behind a creation of 25 turns the second takes 18 and the EXTEND 11, so that the answer to it is
/// turn 54. Node 2 has its four turns behind that one, or in front of it.
const FROM_STOCK: &[&[Step<'static>]] = &[
    &[Step::Made(
        "NODES 2\n\
         SCHED 1*54 2*4\n\
         1 CREATE R1 MFD A.TXT;0 10 [1,4]\n\
         1 CREATE R1 MFD B.TXT;0 40 [1,4]\n\
         1 EXTEND R1 24\n\
         2 STAT LOST\n",
        "1 N1 CREATE R1 (4,4,0) A.TXT;0 10 [1,4] = (12,1,0) A.TXT;1\n\
         2 N1 CREATE R1 (4,4,0) B.TXT;0 40 [1,4] = (13,1,0) B.TXT;1\n\
         3 N1 EXTEND (13,1,0) 24 = 64 blocks\n\
         4 N2 STAT (11,1,0) = directory [1,1] 4 blocks mark 0 end 5,0\n\
         end: 4 answered, 0 died, 212 free\n",
    )],
    &[Step::Made(
        "NODES 2\n\
         SCHED 1*53 2*4\n\
         1 CREATE R1 MFD A.TXT;0 10 [1,4]\n\
         1 CREATE R1 MFD B.TXT;0 40 [1,4]\n\
         1 EXTEND R1 24\n\
         2 STAT LOST\n",
        "1 N1 CREATE R1 (4,4,0) A.TXT;0 10 [1,4] = (12,1,0) A.TXT;1\n\
         2 N1 CREATE R1 (4,4,0) B.TXT;0 40 [1,4] = (13,1,0) B.TXT;1\n\
         3 N2 STAT (11,1,0) = directory [1,1] 4 blocks mark 0 end 5,0\n\
         4 N1 EXTEND (13,1,0) 24 = 64 blocks\n\
         end: 4 answered, 0 died, 212 free\n",
    )],
];

/// A volume of 21 numbers. Node 1 has nine, of which it uses one. Node 2 takes the other twelve, and for its 13th file node 1 gives back
/// eight, in one index block. Before the 14th it has given back the directory for the look-up of node 1. Then no number is left.
const NUMBERS: &[Lines<'static>] = &[
    Lines {
        from: 1,
        to: 1,
        more: 0,
        script: "1 CREATE R1 MFD A.B;0 0 [1,4]\n1 LOOKUP R1 MFD A.B;1\n",
        report: "%l N1 CREATE R1 (4,4,0) A.B;0 0 [1,4] = (12,1,0) A.B;1\n",
    },
    Lines {
        from: 2,
        to: 13,
        more: 19,
        script: "2 CREATE R1 MFD A.B;0 0 [1,4]\n",
        report: "%l N2 CREATE R1 (4,4,0) A.B;0 0 [1,4] = (%n,1,0) A.B;%k\n",
    },
    Lines {
        from: 13,
        to: 13,
        more: 1,
        script: "2 CREATE R1 MFD A.B;0 0 [1,4]\n",
        report: "%l N2 CREATE R1 (4,4,0) A.B;0 0 [1,4] = (%k,1,0) A.B;%n\n",
    },
    Lines {
        from: 1,
        to: 1,
        more: 0,
        script: "",
        report: "%l N1 LOOKUP R1 (4,4,0) A.B;1 = (12,1,0) A.B;1\n",
    },
    Lines {
        from: 14,
        to: 20,
        more: 1,
        script: "2 CREATE R1 MFD A.B;0 0 [1,4]\n",
        report: "%l N2 CREATE R1 (4,4,0) A.B;0 0 [1,4] = (%k,1,0) A.B;%n\n",
    },
    Lines {
        from: 1,
        to: 1,
        more: 0,
        script: "2 CREATE R1 MFD A.B;0 0 [1,4]\n",
        report: "%l N2 CREATE R1 (4,4,0) A.B;0 0 [1,4] = refused IndexFull\n",
    },
];

/// On the volume of 8,192 clusters: 51 files of 77 blocks. The next free cluster is 4,067, and the next number 64.
const HALF_FULL: &[Step<'static>] = &[
    Step::Lines(
        "NODES 1\n",
        &[
            Lines {
                from: 1,
                to: 1,
                more: 0,
                script: "1 MKDIR R1 MFD D [1,4]\n",
                report: "%l N1 MKDIR R1 (4,4,0) D [1,4] = (12,1,0) D.DIR;1\n",
            },
            Lines {
                from: 1,
                to: 51,
                more: 12,
                script: "1 CREATE R2 R1 A.B;0 77 [1,4]\n",
                report: "%l N1 CREATE R2 (12,1,0) A.B;0 77 [1,4] = (%n,1,0) A.B;%k\n",
            },
        ],
        "end: 52 answered, 0 died, 4125 free\n",
    ),
    Step::Finds("accepted\n"),
];

/// A file of 20 blocks, for which 36 clusters are taken: 29 of the first storage block and 7 of the second. Its writes are index block,
/// both storage blocks, quota row, header, directory; and of the give-back index block and both storage blocks. The stock has 9 clusters
/// of the first storage block and all 7 of the second.
const OVER_TWO_BLOCKS: &[&[Step<'static>]] = &[
    &[
        Step::Run(
            "NODES 1\n\
         KILL 1 WRITE 3\n\
         1 CREATE R1 MFD S.TXT;0 20 [1,4]\n",
            "1 N1 died at nothing, leaked 29 clusters, 9 numbers\n\
         end: 0 answered, 1 died, 4096 free\n",
        ),
        Step::Finds("leaked clusters 29\nleaked numbers 9\n"),
    ],
    &[
        Step::Run(
            "NODES 1\n\
         KILL 1 WRITE 8\n\
         1 CREATE R1 MFD S.TXT;0 20 [1,4]\n",
            "1 N1 CREATE R1 (4,4,0) S.TXT;0 20 [1,4] = (64,1,0) S.TXT;1\n\
         2 N1 died at idle, leaked 16 clusters, 0 numbers\n\
         end: 1 answered, 1 died, 4089 free\n",
        ),
        Step::Finds("leaked clusters 16\n"),
    ],
    &[
        Step::Run(
            "NODES 1\n\
         KILL 1 WRITE 9\n\
         1 CREATE R1 MFD S.TXT;0 20 [1,4]\n",
            "1 N1 CREATE R1 (4,4,0) S.TXT;0 20 [1,4] = (64,1,0) S.TXT;1\n\
         2 N1 died at idle, leaked 7 clusters, 0 numbers\n\
         end: 1 answered, 1 died, 4098 free\n",
        ),
        Step::Finds("leaked clusters 7\n"),
    ],
    &[
        Step::Run(
            "NODES 1\n\
         KILL 1 WRITE 10\n\
         1 CREATE R1 MFD S.TXT;0 20 [1,4]\n",
            "1 N1 CREATE R1 (4,4,0) S.TXT;0 20 [1,4] = (64,1,0) S.TXT;1\n\
         end: 1 answered, 0 died, 4105 free\n",
        ),
        Step::Finds("accepted\n"),
    ],
];

const ROWS: &[Row<'static>] = &[
    Row {
        on: On::Fresh,
        first: &[],
        each: SHORTAGES,
    },
    Row {
        on: On::Fresh,
        first: &[],
        each: DEATHS,
    },
    Row {
        on: On::Fresh,
        first: &[],
        each: OVER,
    },
    Row {
        on: On::Fresh,
        first: &[],
        each: FROM_STOCK,
    },
    Row {
        on: On::Tiny,
        first: &[
            Step::Lines(
                "NODES 2\nSCHED 1*17 2*2000\n",
                NUMBERS,
                "end: 23 answered, 0 died, 22 free\n",
            ),
            Step::Finds("accepted\n"),
        ],
        each: &[],
    },
    Row {
        on: On::Wide,
        first: HALF_FULL,
        each: OVER_TWO_BLOCKS,
    },
];

#[test]
fn stocks_are_filled_and_given_back(rt: HostRuntime) -> Result<(), Fail> {
    play(rt.alloc(), ROWS)?;
    Ok(())
}

/// Each of eight nodes makes its files, the larger one of 28 clusters.
const MAKES: &[Lines<'static>] = &[Lines {
    from: 1,
    to: 8,
    more: 0,
    script: "%k CREATE R1 MFD A%k.T;0 112 [1,4]\n%k CREATE R2 MFD B%k.T;0 4 [1,4]\n",
    report: "",
}];

/// Each node deletes the files of another.
const DELETES: &[Lines<'static>] = &[Lines {
    from: 1,
    to: 1,
    more: 0,
    script: "1 DELETE MFD A8.T;0\n\
                 1 DELETE MFD B8.T;0\n\
                 2 DELETE MFD A7.T;0\n\
                 2 DELETE MFD B7.T;0\n\
                 3 DELETE MFD A6.T;0\n\
                 3 DELETE MFD B6.T;0\n\
                 4 DELETE MFD A5.T;0\n\
                 4 DELETE MFD B5.T;0\n\
                 5 DELETE MFD A4.T;0\n\
                 5 DELETE MFD B4.T;0\n\
                 6 DELETE MFD A3.T;0\n\
                 6 DELETE MFD B3.T;0\n\
                 7 DELETE MFD A2.T;0\n\
                 7 DELETE MFD B2.T;0\n\
                 8 DELETE MFD A1.T;0\n\
                 8 DELETE MFD B1.T;0\n",
    report: "",
}];

/// Each node makes its files and deletes them.
const BOTH: Lines<'static> = Lines {
    from: 1,
    to: 8,
    more: 0,
    script: "%k CREATE R1 MFD A%k.T;0 116 [1,4]\n\
             %k CREATE R2 MFD B%k.T;0 4 [1,4]\n\
             %k DELETE MFD A%k.T;0\n\
             %k DELETE MFD B%k.T;0\n",
    report: "",
};

// A script of eight nodes with this schedule.
fn of_eight(alloc: Global, schedule: &str, lines: &[Lines<'_>]) -> Result<Written, NoMemory> {
    let first = format!(in alloc; "NODES 8\n{schedule}")?;
    Written::new(alloc, first.as_str(), lines)
}

/// How many commands of a run are refused for want of clusters and for want of a file, or as many for the one as for the other; and the
/// last line of its report.
#[derive(Clone, Copy)]
struct Refused<'a> {
    counts: Option<(usize, usize)>,
    end: &'a str,
}

// So many commands of a run have to be refused.
fn check_refused(
    alloc: Global,
    called: &Called,
    wanted: Refused<'_>,
    schedule: &str,
) -> Result<(), Wrong> {
    check_about(alloc, called, 0, ("", wanted.end), schedule)?;
    let text = text_of(called);
    let full = lines_with(text, "refused DeviceFull");
    let none = lines_with(text, "refused NoSuchFile");
    let is_so = match wanted.counts {
        Some(counts) => counts == (full, none),
        None => full == none,
    };
    let what = format!(in alloc; "{full} and {none} are refused with {schedule}")?;
    expect(alloc, is_so, what.as_str())
}

// The image that such a script leaves, of which so many commands are refused, and behind which nothing is found.
fn run_by_eight(
    alloc: Global,
    image: MemImage,
    schedule: &str,
    lines: &[Lines<'_>],
    wanted: Refused<'_>,
) -> Result<MemImage, Wrong> {
    let text = of_eight(alloc, schedule, lines)?;
    let called = call(alloc, &["run"], image, text.script())?;
    check_refused(alloc, &called, wanted, schedule)?;
    answered(alloc, called.image, Exchange::finds("accepted\n"))
}

const SCHEDULES: &[&str] = &[
    "",
    "SCHED 8*26 7*52 6*78 5*104 4*130 3*7 2*9\n",
    "SCHED 1*12 2*13 3*14 4*15 5*16 6*17 7*18 8*19 1 8*3\n",
    "SCHED 3*40 5*41 7*300 1*2 2*900\n",
    "SCHED 4*33 6*1 4*33 2*70 8*1000\n",
    "SCHED 6*26 3*12 1*3 3*12 4*26 1*27\n",
];

/// One of 232 files of a cluster is refused, and no other.
const FULL: Refused<'static> = Refused {
    counts: Some((1, 0)),
    end: "\nend: 16 answered, 0 died, 0 free\n",
};

const EMPTY: Refused<'static> = Refused {
    counts: Some((0, 1)),
    end: "\nend: 16 answered, 0 died, 231 free\n",
};

const EMPTIED: Refused<'static> = Refused {
    counts: None,
    end: "\nend: 128 answered, 0 died, 231 free\n",
};

// Each of eight nodes makes a file of 28 clusters and one of one, 232 of 231: the last small one is refused, whoever makes it, and no
// other is. Then all are deleted, but the one that is not there.
#[test]
fn eight_nodes_fill_a_volume(rt: HostRuntime) -> Result<(), Fail> {
    let alloc = rt.alloc();
    let mut image = volume(alloc)?;
    for schedule in SCHEDULES {
        image = run_by_eight(alloc, image, schedule, MAKES, FULL)?;
        image = run_by_eight(alloc, image, schedule, DELETES, EMPTY)?;
    }
    Ok(())
}

// Each of eight nodes makes its files and deletes them, four times over. Eight of the larger ones are more than the volume has: each file
// that is refused is not there to be deleted, and in the end all clusters are free. How many are refused is a matter of the schedule.
#[test]
fn eight_nodes_make_and_delete(rt: HostRuntime) -> Result<(), Fail> {
    let alloc = rt.alloc();
    let mut image = volume(alloc)?;
    for schedule in SCHEDULES {
        image = run_by_eight(alloc, image, schedule, &[BOTH, BOTH, BOTH, BOTH], EMPTIED)?;
    }
    Ok(())
}
