//! Nodes that wait for one another's locks, and how many turns a creation takes.

use rows_calls::{On, Row, Step, play};
use std::test::Fail;

/// The node that asks for the directory's lock first makes version 1.
const ONE_NAME: &[&[Step<'static>]] = &[
    &[Step::Made(
        "NODES 2\n1 CREATE R1 MFD A.TXT;0 4 [1,4]\n2 CREATE R1 MFD A.TXT;0 4 [1,4]\n",
        "1 N1 CREATE R1 (4,4,0) A.TXT;0 4 [1,4] = (12,1,0) A.TXT;1\n\
        2 N2 CREATE R1 (4,4,0) A.TXT;0 4 [1,4] = (13,1,0) A.TXT;2\n\
        end: 2 answered, 0 died, 229 free\n",
    )],
    &[Step::Made(
        "NODES 2\nSCHED 2\n1 CREATE R1 MFD A.TXT;0 4 [1,4]\n2 CREATE R1 MFD A.TXT;0 4 [1,4]\n",
        "1 N2 CREATE R1 (4,4,0) A.TXT;0 4 [1,4] = (12,1,0) A.TXT;1\n\
        2 N1 CREATE R1 (4,4,0) A.TXT;0 4 [1,4] = (13,1,0) A.TXT;2\n\
        end: 2 answered, 0 died, 229 free\n",
    )],
];

/// A look-up waits for a creation, and a creation for a look-up. Lists go together, unless one asks behind a creation that waits.
/// Two creations in two directories go together as far as the quota file, which node 2 comes to first. The lock of a new file's number is the last that its creation asks for, in turn 19.
const QUEUES: &[&[Step<'static>]] = &[
    &[Step::Made(
        "NODES 2\nSCHED 1 2*40\n1 CREATE R1 MFD A.TXT;0 4 [1,4]\n2 LOOKUP R1 MFD A.TXT;0\n",
        "1 N1 CREATE R1 (4,4,0) A.TXT;0 4 [1,4] = (12,1,0) A.TXT;1\n\
        2 N2 LOOKUP R1 (4,4,0) A.TXT;0 = (12,1,0) A.TXT;1\n\
        end: 2 answered, 0 died, 230 free\n",
    )],
    &[Step::Made(
        "NODES 2\nSCHED 2 1*40\n1 CREATE R1 MFD A.TXT;0 4 [1,4]\n2 LOOKUP R1 MFD A.TXT;0\n",
        "1 N2 LOOKUP R1 (4,4,0) A.TXT;0 = refused NoSuchFile\n\
        2 N1 CREATE R1 (4,4,0) A.TXT;0 4 [1,4] = (12,1,0) A.TXT;1\n\
        end: 2 answered, 0 died, 230 free\n",
    )],
    &[Step::Made(
        "NODES 4\n1 LIST LOST\n2 LIST LOST\n3 MKDIR R1 LOST A [1,4]\n4 LIST LOST\n",
        "1 N1 LIST (11,1,0) = 0 entries\n\
        2 N2 LIST (11,1,0) = 0 entries\n\
        3 N3 MKDIR R1 (11,1,0) A [1,4] = (12,1,0) A.DIR;1\n\
        4 N4 LIST (11,1,0) = 1 entries A.DIR;1 (12,1,0)\n\
        end: 4 answered, 0 died, 230 free\n",
    )],
    &[Step::Made(
        "NODES 4\nSCHED 4 1 3*9 2*9\n1 LIST LOST\n2 LIST LOST\n3 MKDIR R1 LOST A [1,4]\n4 LIST LOST\n",
        "1 N1 LIST (11,1,0) = 0 entries\n\
        2 N4 LIST (11,1,0) = 0 entries\n\
        3 N3 MKDIR R1 (11,1,0) A [1,4] = (12,1,0) A.DIR;1\n\
        4 N2 LIST (11,1,0) = 1 entries A.DIR;1 (12,1,0)\n\
        end: 4 answered, 0 died, 230 free\n",
    )],
    &[Step::Made(
        "NODES 2\nSCHED 1*3 2*7\n1 CREATE R1 MFD A.TXT;0 4 [1,4]\n2 CREATE R1 LOST A.TXT;0 4 [1,4]\n",
        "1 N2 CREATE R1 (11,1,0) A.TXT;0 4 [1,4] = (12,1,0) A.TXT;1\n\
        2 N1 CREATE R1 (4,4,0) A.TXT;0 4 [1,4] = (13,1,0) A.TXT;1\n\
        end: 2 answered, 0 died, 229 free\n",
    )],
    &[Step::Made(
        "NODES 2\nSCHED 2 1*40\n1 CREATE R1 MFD A.TXT;0 4 [1,4]\n2 STAT (12,1,0)\n",
        "1 N2 STAT (12,1,0) = refused NoSuchFile\n\
        2 N1 CREATE R1 (4,4,0) A.TXT;0 4 [1,4] = (12,1,0) A.TXT;1\n\
        end: 2 answered, 0 died, 230 free\n",
    )],
    &[Step::Made(
        "NODES 2\nSCHED 1*19 2*40\n1 CREATE R1 MFD A.TXT;0 4 [1,4]\n2 STAT (12,1,0)\n",
        "1 N1 CREATE R1 (4,4,0) A.TXT;0 4 [1,4] = (12,1,0) A.TXT;1\n\
        2 N2 STAT (12,1,0) = file [1,4] 4 blocks mark 1 end 1,0\n\
        end: 2 answered, 0 died, 230 free\n",
    )],
    &[Step::Made(
        "NODES 2\nSCHED 1*18 2*4\n1 CREATE R1 MFD A.TXT;0 4 [1,4]\n2 STAT (12,1,0)\n",
        "1 N2 STAT (12,1,0) = refused NoSuchFile\n\
        2 N1 CREATE R1 (4,4,0) A.TXT;0 4 [1,4] = (12,1,0) A.TXT;1\n\
        end: 2 answered, 0 died, 230 free\n",
    )],
];

/// In rotation, and with nodes 8 and 3 first and node 5 without a command, which is over after the first of its plays.
const EIGHT: &[&[Step<'static>]] = &[
    &[Step::Made(
        "NODES 8\n\
        1 CREATE R1 MFD A.TXT;0 0 [1,4]\n2 CREATE R1 MFD A.TXT;0 0 [1,4]\n\
        3 CREATE R1 MFD A.TXT;0 0 [1,4]\n4 CREATE R1 MFD A.TXT;0 0 [1,4]\n\
        5 CREATE R1 MFD A.TXT;0 0 [1,4]\n6 CREATE R1 MFD A.TXT;0 0 [1,4]\n\
        7 CREATE R1 MFD A.TXT;0 0 [1,4]\n8 CREATE R1 MFD A.TXT;0 0 [1,4]\n",
        "1 N1 CREATE R1 (4,4,0) A.TXT;0 0 [1,4] = (12,1,0) A.TXT;1\n\
        2 N2 CREATE R1 (4,4,0) A.TXT;0 0 [1,4] = (13,1,0) A.TXT;2\n\
        3 N3 CREATE R1 (4,4,0) A.TXT;0 0 [1,4] = (14,1,0) A.TXT;3\n\
        4 N4 CREATE R1 (4,4,0) A.TXT;0 0 [1,4] = (15,1,0) A.TXT;4\n\
        5 N5 CREATE R1 (4,4,0) A.TXT;0 0 [1,4] = (16,1,0) A.TXT;5\n\
        6 N6 CREATE R1 (4,4,0) A.TXT;0 0 [1,4] = (17,1,0) A.TXT;6\n\
        7 N7 CREATE R1 (4,4,0) A.TXT;0 0 [1,4] = (18,1,0) A.TXT;7\n\
        8 N8 CREATE R1 (4,4,0) A.TXT;0 0 [1,4] = (19,1,0) A.TXT;8\n\
        end: 8 answered, 0 died, 231 free\n",
    )],
    &[Step::Made(
        "NODES 8\nSCHED 5*3 8 3 5\n\
        1 CREATE R1 MFD A.TXT;0 4 [1,4]\n2 CREATE R1 MFD A.TXT;0 4 [1,4]\n\
        3 CREATE R1 MFD A.TXT;0 4 [1,4]\n4 CREATE R1 MFD A.TXT;0 4 [1,4]\n\
        6 CREATE R1 MFD A.TXT;0 4 [1,4]\n7 CREATE R1 MFD A.TXT;0 4 [1,4]\n\
        8 CREATE R1 MFD A.TXT;0 4 [1,4]\n",
        "1 N8 CREATE R1 (4,4,0) A.TXT;0 4 [1,4] = (12,1,0) A.TXT;1\n\
        2 N3 CREATE R1 (4,4,0) A.TXT;0 4 [1,4] = (13,1,0) A.TXT;2\n\
        3 N1 CREATE R1 (4,4,0) A.TXT;0 4 [1,4] = (14,1,0) A.TXT;3\n\
        4 N2 CREATE R1 (4,4,0) A.TXT;0 4 [1,4] = (15,1,0) A.TXT;4\n\
        5 N4 CREATE R1 (4,4,0) A.TXT;0 4 [1,4] = (16,1,0) A.TXT;5\n\
        6 N6 CREATE R1 (4,4,0) A.TXT;0 4 [1,4] = (17,1,0) A.TXT;6\n\
        7 N7 CREATE R1 (4,4,0) A.TXT;0 4 [1,4] = (18,1,0) A.TXT;7\n\
        end: 7 answered, 0 died, 224 free\n",
    )],
];

/// The directory's lock, its header and its four blocks are six turns; the quota file's lock and its four blocks five; the lock of
/// the stocks, that of the bitmaps, the index block and, for clusters, a storage block, each with its write, and the lowering of the
/// bitmaps' lock five or seven; the lock of the number and its slot two. Then come the plan, the writes (quota row, a directory's own
/// four blocks, header, directory), and the answer. Node 1 has so many
/// turns and is answered first, or one turn less and is answered second; node 2 has four, which are those of its command.
const TURNS: &[&[Step<'static>]] = &[
    &[Step::Made(
        "NODES 2\nSCHED 1*25 2*4\n1 CREATE R1 MFD A.TXT;0 10 [1,4]\n2 STAT LOST\n",
        "1 N1 CREATE R1 (4,4,0) A.TXT;0 10 [1,4] = (12,1,0) A.TXT;1\n2 N2 STAT (11,1,0) = directory [1,1] 4 blocks mark 0 end 5,0\nend: 2 answered, 0 died, 228 free\n",
    )],
    &[Step::Made(
        "NODES 2\nSCHED 1*24 2*4\n1 CREATE R1 MFD A.TXT;0 10 [1,4]\n2 STAT LOST\n",
        "1 N2 STAT (11,1,0) = directory [1,1] 4 blocks mark 0 end 5,0\n2 N1 CREATE R1 (4,4,0) A.TXT;0 10 [1,4] = (12,1,0) A.TXT;1\nend: 2 answered, 0 died, 228 free\n",
    )],
    &[Step::Made(
        "NODES 2\nSCHED 1*23 2*4\n1 CREATE R1 MFD A.TXT;0 0 [1,4]\n2 STAT LOST\n",
        "1 N1 CREATE R1 (4,4,0) A.TXT;0 0 [1,4] = (12,1,0) A.TXT;1\n2 N2 STAT (11,1,0) = directory [1,1] 4 blocks mark 0 end 5,0\nend: 2 answered, 0 died, 231 free\n",
    )],
    &[Step::Made(
        "NODES 2\nSCHED 1*22 2*4\n1 CREATE R1 MFD A.TXT;0 0 [1,4]\n2 STAT LOST\n",
        "1 N2 STAT (11,1,0) = directory [1,1] 4 blocks mark 0 end 5,0\n2 N1 CREATE R1 (4,4,0) A.TXT;0 0 [1,4] = (12,1,0) A.TXT;1\nend: 2 answered, 0 died, 231 free\n",
    )],
    &[Step::Made(
        "NODES 2\nSCHED 1*29 2*4\n1 MKDIR R1 MFD A [1,4]\n2 STAT LOST\n",
        "1 N1 MKDIR R1 (4,4,0) A [1,4] = (12,1,0) A.DIR;1\n2 N2 STAT (11,1,0) = directory [1,1] 4 blocks mark 0 end 5,0\nend: 2 answered, 0 died, 230 free\n",
    )],
    &[Step::Made(
        "NODES 2\nSCHED 1*28 2*4\n1 MKDIR R1 MFD A [1,4]\n2 STAT LOST\n",
        "1 N2 STAT (11,1,0) = directory [1,1] 4 blocks mark 0 end 5,0\n2 N1 MKDIR R1 (4,4,0) A [1,4] = (12,1,0) A.DIR;1\nend: 2 answered, 0 died, 230 free\n",
    )],
    &[Step::Made(
        "NODES 2\nSCHED 1*2 2*4\n1 CREATE R1 (65,1,0) A.TXT;0 0 [1,4]\n2 STAT LOST\n",
        "1 N1 CREATE R1 (65,1,0) A.TXT;0 0 [1,4] = refused NoSuchFile\n2 N2 STAT (11,1,0) = directory [1,1] 4 blocks mark 0 end 5,0\nend: 2 answered, 0 died, 231 free\n",
    )],
    &[Step::Made(
        "NODES 2\nSCHED 1*1 2*4\n1 CREATE R1 (65,1,0) A.TXT;0 0 [1,4]\n2 STAT LOST\n",
        "1 N2 STAT (11,1,0) = directory [1,1] 4 blocks mark 0 end 5,0\n2 N1 CREATE R1 (65,1,0) A.TXT;0 0 [1,4] = refused NoSuchFile\nend: 2 answered, 0 died, 231 free\n",
    )],
    &[Step::Made(
        "NODES 2\nSCHED 1*4 2*4\n1 CREATE R1 (10,1,0) A.TXT;0 0 [1,4]\n2 STAT LOST\n",
        "1 N1 CREATE R1 (10,1,0) A.TXT;0 0 [1,4] = refused NotDir\n2 N2 STAT (11,1,0) = directory [1,1] 4 blocks mark 0 end 5,0\nend: 2 answered, 0 died, 231 free\n",
    )],
    &[Step::Made(
        "NODES 2\nSCHED 1*3 2*4\n1 CREATE R1 (10,1,0) A.TXT;0 0 [1,4]\n2 STAT LOST\n",
        "1 N2 STAT (11,1,0) = directory [1,1] 4 blocks mark 0 end 5,0\n2 N1 CREATE R1 (10,1,0) A.TXT;0 0 [1,4] = refused NotDir\nend: 2 answered, 0 died, 231 free\n",
    )],
    &[Step::Made(
        "NODES 2\nSCHED 1*8 2*4\n1 MKDIR R1 MFD SYSLOST [1,4]\n2 STAT LOST\n",
        "1 N1 MKDIR R1 (4,4,0) SYSLOST [1,4] = refused DupFile\n2 N2 STAT (11,1,0) = directory [1,1] 4 blocks mark 0 end 5,0\nend: 2 answered, 0 died, 231 free\n",
    )],
    &[Step::Made(
        "NODES 2\nSCHED 1*7 2*4\n1 MKDIR R1 MFD SYSLOST [1,4]\n2 STAT LOST\n",
        "1 N2 STAT (11,1,0) = directory [1,1] 4 blocks mark 0 end 5,0\n2 N1 MKDIR R1 (4,4,0) SYSLOST [1,4] = refused DupFile\nend: 2 answered, 0 died, 231 free\n",
    )],
    &[Step::Made(
        "NODES 2\nSCHED 1*13 2*4\n1 MKDIR R1 MFD A [7,7]\n2 STAT LOST\n",
        "1 N1 MKDIR R1 (4,4,0) A [7,7] = refused NoQuota\n2 N2 STAT (11,1,0) = directory [1,1] 4 blocks mark 0 end 5,0\nend: 2 answered, 0 died, 231 free\n",
    )],
    &[Step::Made(
        "NODES 2\nSCHED 1*12 2*4\n1 MKDIR R1 MFD A [7,7]\n2 STAT LOST\n",
        "1 N2 STAT (11,1,0) = directory [1,1] 4 blocks mark 0 end 5,0\n2 N1 MKDIR R1 (4,4,0) A [7,7] = refused NoQuota\nend: 2 answered, 0 died, 231 free\n",
    )],
];

const ROWS: &[Row<'static>] = &[
    Row {
        on: On::Fresh,
        first: &[],
        each: ONE_NAME,
    },
    Row {
        on: On::Fresh,
        first: &[],
        each: QUEUES,
    },
    Row {
        on: On::Fresh,
        first: &[],
        each: EIGHT,
    },
    Row {
        on: On::Fresh,
        first: &[],
        each: TURNS,
    },
];

#[test]
fn nodes_wait_for_one_another(rt: HostRuntime) -> Result<(), Fail> {
    play(rt.alloc(), ROWS)?;
    Ok(())
}
