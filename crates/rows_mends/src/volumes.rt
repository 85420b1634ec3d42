//! What happens on volumes first.

use rows_calls::{Lines, Step};

/// The words of a run.
pub const RUN: &[&str] = &["run"];

/// On a fresh volume: the directory D (12,1), five files with long names in it, 13 to 17, which fill its first block, and Z.T (18,1).
pub const FIVE: &[Step<'static>] = &[
    Step::Lines(
        "NODES 1\n",
        &[
            Lines {
                from: 1,
                to: 1,
                more: 0,
                script: "1 MKDIR R1 MFD D [1,4]\n",
                report: "%l N1 MKDIR R1 (4,4,0) D [1,4] = (12,1,0) D.DIR;1\n",
            },
            Lines {
                from: 1,
                to: 5,
                more: 12,
                script: "1 CREATE R2 R1 %2XXXXXXXXXXXXXXXXXXXXXXXXXXXXXXXXXXXXX.YYYYYYYYYYYYYYYYYYYYYYYYYYYYYYYYYYYYYYY;0 0 [1,4]\n",
                report: "%l N1 CREATE R2 (12,1,0) %2XXXXXXXXXXXXXXXXXXXXXXXXXXXXXXXXXXXXX.YYYYYYYYYYYYYYYYYYYYYYYYYYYYYYYYYYYYYYY;0 0 [1,4] = (%n,1,0) %2XXXXXXXXXXXXXXXXXXXXXXXXXXXXXXXXXXXXX.YYYYYYYYYYYYYYYYYYYYYYYYYYYYYYYYYYYYYYY;1\n",
            },
            Lines {
                from: 1,
                to: 1,
                more: 0,
                script: "1 CREATE R2 R1 Z.T;0 0 [1,4]\n",
                report: "%l N1 CREATE R2 (12,1,0) Z.T;0 0 [1,4] = (18,1,0) Z.T;1\n",
            },
        ],
        "end: 7 answered, 0 died, 230 free\n",
    ),
    Step::Finds("accepted\n"),
];

/// The same with six files, so that Z.T (19,1) stands in the second block.
pub const SIX: &[Step<'static>] = &[
    Step::Lines(
        "NODES 1\n",
        &[
            Lines {
                from: 1,
                to: 1,
                more: 0,
                script: "1 MKDIR R1 MFD D [1,4]\n",
                report: "%l N1 MKDIR R1 (4,4,0) D [1,4] = (12,1,0) D.DIR;1\n",
            },
            Lines {
                from: 1,
                to: 6,
                more: 12,
                script: "1 CREATE R2 R1 %2XXXXXXXXXXXXXXXXXXXXXXXXXXXXXXXXXXXXX.YYYYYYYYYYYYYYYYYYYYYYYYYYYYYYYYYYYYYYY;0 0 [1,4]\n",
                report: "%l N1 CREATE R2 (12,1,0) %2XXXXXXXXXXXXXXXXXXXXXXXXXXXXXXXXXXXXX.YYYYYYYYYYYYYYYYYYYYYYYYYYYYYYYYYYYYYYY;0 0 [1,4] = (%n,1,0) %2XXXXXXXXXXXXXXXXXXXXXXXXXXXXXXXXXXXXX.YYYYYYYYYYYYYYYYYYYYYYYYYYYYYYYYYYYYYYY;1\n",
            },
            Lines {
                from: 1,
                to: 1,
                more: 0,
                script: "1 CREATE R2 R1 Z.T;0 0 [1,4]\n",
                report: "%l N1 CREATE R2 (12,1,0) Z.T;0 0 [1,4] = (19,1,0) Z.T;1\n",
            },
        ],
        "end: 8 answered, 0 died, 230 free\n",
    ),
    Step::Finds("accepted\n"),
];

/// On a volume of 256 clusters of one block: the directory of lost files has no room left.
pub const CROWDED: &[Step<'static>] = &[
    Step::Lines(
        "NODES 1\n",
        &[
            Lines {
                from: 1,
                to: 21,
                more: 11,
                script: "1 CREATE R1 LOST G%5.LST;0 0 [1,4]\n",
                report: "%l N1 CREATE R1 (11,1,0) G%5.LST;0 0 [1,4] = (%n,1,0) G%5.LST;1\n",
            },
            Lines {
                from: 22,
                to: 22,
                more: 0,
                script: "1 CREATE R1 LOST G%5.LST;0 0 [1,4]\n",
                report: "%l N1 CREATE R1 (11,1,0) G%5.LST;0 0 [1,4] = refused DirFull\n",
            },
        ],
        "end: 22 answered, 0 died, 182 free\n",
    ),
    Step::Finds("accepted\n"),
];
