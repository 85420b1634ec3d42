//! Look-ups, lists and facts on a volume with a directory and files in it, by nodes in turn.

use rows_calls::{Lines, On, Row, Step, play};
use std::test::Fail;

const RUN: &[&str] = &["run"];

/// One node goes down by a register, and each answer to a look-up sets its register anew.
const REGISTERS: &str = "NODES 1\n\
        1 LOOKUP R1 MFD Z.DIR;1\n\
        1 LIST R1\n\
        1 LOOKUP R2 R1 A.TXT;0\n\
        1 STAT R2\n\
        1 LOOKUP R2 R1 A.TXT;1\n\
        1 STAT R2\n\
        1 STAT R1\n\
        1 LIST LOST\n\
        1 LIST R2\n\
        1 STAT (12,2,0)\n\
        1 LOOKUP R3 R8 A.TXT;0\n\
        1 LOOKUP R1 R1 C.TXT;0\n\
        1 LOOKUP R1 R1 B.DAT;0\n\
        1 STAT R1\n";

const REGISTERS_REPORT: &str = "1 N1 LOOKUP R1 (4,4,0) Z.DIR;1 = (12,1,0) Z.DIR;1\n\
        2 N1 LIST (12,1,0) = 3 entries A.TXT;2 (13,1,0) A.TXT;1 (14,1,0) B.DAT;1 (15,2,0)\n\
        3 N1 LOOKUP R2 (12,1,0) A.TXT;0 = (13,1,0) A.TXT;2\n\
        4 N1 STAT (13,1,0) = file [1,1] 0 blocks mark 0 end 1,0\n\
        5 N1 LOOKUP R2 (12,1,0) A.TXT;1 = (14,1,0) A.TXT;1\n\
        6 N1 STAT (14,1,0) = file [1,1] 4 blocks mark 0 end 5,0\n\
        7 N1 STAT (12,1,0) = directory [1,1] 4 blocks mark 0 end 5,0\n\
        8 N1 LIST (11,1,0) = 0 entries\n\
        9 N1 LIST (14,1,0) = refused NotDir\n\
        10 N1 STAT (12,2,0) = refused NoSuchFile\n\
        11 N1 LOOKUP R3 (0,0,0) A.TXT;0 = refused NoSuchFile\n\
        12 N1 LOOKUP R1 (12,1,0) C.TXT;0 = refused NoSuchFile\n\
        13 N1 LOOKUP R1 (12,1,0) B.DAT;0 = (15,2,0) B.DAT;1\n\
        14 N1 STAT (15,2,0) = file [1,1] 0 blocks mark 0 end 1,0\n\
        end: 14 answered, 0 died, 229 free\n";

/// A look at a file takes four turns: its lock, its header, the plan and the answer. A list takes four more, for the blocks of
/// its directory. Node 5 has no command, and node 2 is the last to be answered.
const EIGHT: &str = "NODES 8\n\
    2 LIST (12,1,0)\n\
    1 STAT (14,1,0)\n\
    3 STAT (13,1,0)\n\
    4 STAT (14,1,0)\n\
    6 STAT (15,2,0)\n\
    7 STAT (12,1,0)\n\
    8 LOOKUP R1 (13,1,0) A.B;1\n";

const EIGHT_REPORT: &str = "1 N1 STAT (14,1,0) = file [1,1] 4 blocks mark 0 end 5,0\n\
        2 N3 STAT (13,1,0) = file [1,1] 0 blocks mark 0 end 1,0\n\
        3 N4 STAT (14,1,0) = file [1,1] 4 blocks mark 0 end 5,0\n\
        4 N6 STAT (15,2,0) = file [1,1] 0 blocks mark 0 end 1,0\n\
        5 N7 STAT (12,1,0) = directory [1,1] 4 blocks mark 0 end 5,0\n\
        6 N8 LOOKUP R1 (13,1,0) A.B;1 = refused NotDir\n\
        7 N2 LIST (12,1,0) = 3 entries A.TXT;2 (13,1,0) A.TXT;1 (14,1,0) B.DAT;1 (15,2,0)\n\
        end: 7 answered, 0 died, 229 free\n";

/// Node 8 is over after five of its plays, and the others have no effect. The last play is the answer of node 7.
const PLAYED: &str = "NODES 8\n\
    SCHED 8*20 7*3 2*8\n\
    SCHED 8 8 7\n\
    2 LIST (12,1,0)\n\
    1 STAT (14,1,0)\n\
    3 STAT (13,1,0)\n\
    4 STAT (14,1,0)\n\
    6 STAT (15,2,0)\n\
    7 STAT (12,1,0)\n\
    8 LOOKUP R1 (13,1,0) A.B;1\n";

const PLAYED_REPORT: &str = "1 N8 LOOKUP R1 (13,1,0) A.B;1 = refused NotDir\n\
        2 N2 LIST (12,1,0) = 3 entries A.TXT;2 (13,1,0) A.TXT;1 (14,1,0) B.DAT;1 (15,2,0)\n\
        3 N7 STAT (12,1,0) = directory [1,1] 4 blocks mark 0 end 5,0\n\
        4 N1 STAT (14,1,0) = file [1,1] 4 blocks mark 0 end 5,0\n\
        5 N3 STAT (13,1,0) = file [1,1] 0 blocks mark 0 end 1,0\n\
        6 N4 STAT (14,1,0) = file [1,1] 4 blocks mark 0 end 5,0\n\
        7 N6 STAT (15,2,0) = file [1,1] 0 blocks mark 0 end 1,0\n\
        end: 7 answered, 0 died, 229 free\n";

/// 4,096 look-ups by eight nodes in turn.
const LONGEST: &[Lines<'static>] = &[Lines {
    from: 1,
    to: 512,
    more: 0,
    script: "1 LOOKUP R1 (12,1,0) B.DAT;1\n\
                    2 LOOKUP R1 (12,1,0) B.DAT;1\n\
                    3 LOOKUP R1 (12,1,0) B.DAT;1\n\
                    4 LOOKUP R1 (12,1,0) B.DAT;1\n\
                    5 LOOKUP R1 (12,1,0) B.DAT;1\n\
                    6 LOOKUP R1 (12,1,0) B.DAT;1\n\
                    7 LOOKUP R1 (12,1,0) B.DAT;1\n\
                    8 LOOKUP R1 (12,1,0) B.DAT;1\n",
    report: "",
}];

/// The files of the volume have clusters 25 and 26. Each script leaves it as it was.
const ROWS: &[Row<'static>] = &[Row {
    on: On::Tree(104, 0xf8),
    first: &[Step::Finds("accepted\n")],
    each: &[
        &[Step::Kept(RUN, REGISTERS, 0, REGISTERS_REPORT)],
        &[Step::Kept(RUN, EIGHT, 0, EIGHT_REPORT)],
        &[Step::Kept(RUN, PLAYED, 0, PLAYED_REPORT)],
        &[Step::AboutLines(
            "NODES 8\n",
            LONGEST,
            0,
            "1 N1 LOOKUP R1 (12,1,0) B.DAT;1 = (15,2,0) B.DAT;1\n2 N2 LOOKUP",
            "\n4096 N8 LOOKUP R1 (12,1,0) B.DAT;1 = (15,2,0) B.DAT;1\nend: 4096 answered, 0 died, 229 free\n",
        )],
    ],
}];

#[test]
fn nodes_look_down_a_tree(rt: HostRuntime) -> Result<(), Fail> {
    play(rt.alloc(), ROWS)?;
    Ok(())
}
