//! A directory of eleven files with long names.

use crate::steps::Step;
use crate::texts::Lines;

/// On a fresh volume: the directory D (12,1), and eleven files in it, 13 to 23, with names of 79 characters, so that they stand in blocks of
/// five, five and one; and then nothing is found.
pub const ELEVEN: &[Step<'static>] = &[
    Step::Lines(
        "NODES 1\n",
        &[
            Lines {
                from: 1,
                to: 1,
                more: 0,
                script: "1 MKDIR R1 MFD D [1,4]\n",
                report: "%l N1 MKDIR R1 (4,4,0) D [1,4] = (12,1,0) D.DIR;1\n",
            },
            Lines {
                from: 1,
                to: 11,
                more: 12,
                script: "1 CREATE R2 R1 %2XXXXXXXXXXXXXXXXXXXXXXXXXXXXXXXXXXXXX.YYYYYYYYYYYYYYYYYYYYYYYYYYYYYYYYYYYYYYY;0 0 [1,4]\n",
                report: "%l N1 CREATE R2 (12,1,0) %2XXXXXXXXXXXXXXXXXXXXXXXXXXXXXXXXXXXXX.YYYYYYYYYYYYYYYYYYYYYYYYYYYYYYYYYYYYYYY;0 0 [1,4] = (%n,1,0) %2XXXXXXXXXXXXXXXXXXXXXXXXXXXXXXXXXXXXX.YYYYYYYYYYYYYYYYYYYYYYYYYYYYYYYYYYYYYYY;1\n",
            },
        ],
        "end: 12 answered, 0 died, 230 free\n",
    ),
    Step::Finds("accepted\n"),
];

/// A script that makes a file in directory 12, whose name comes before those.
pub const BEFORE: &str =
    "NODES 1\n1 CREATE R1 (12,1,0) 00XXXXXXXXXXXXXXXXXXXXXXXXXXXXXXXXXXXXX.YYYYYYYYYYYYYYYYYYYYYYYYYYYYYYYYYYYYYYY;0 0 [1,4]\n";
