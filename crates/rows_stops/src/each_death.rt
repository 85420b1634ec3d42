//! Each command under deaths in place of each of its turns and each of its writes, while two other nodes are at work.

use crate::scenes::{CLEAN, GONE, GROWS, MAKES, Scene, each_scene};
use rows_calls::{On, Row, Step};
use std::test::Fail;

const SETUP: &str = "NODES 1\n\
    1 CREATE R1 MFD A.TXT;0 8 [1,4]\n\
    1 MKDIR R2 MFD D [1,4]\n\
    1 CREATE R3 R2 B.TXT;0 4 [1,4]\n\
    1 OPEN 1 R1 EX\n\
    1 WRITE 1 1 HELLO\n";

const SETUP_REPORT: &str = "1 N1 CREATE R1 (4,4,0) A.TXT;0 8 [1,4] = (12,1,0) A.TXT;1\n\
    2 N1 MKDIR R2 (4,4,0) D [1,4] = (13,1,0) D.DIR;1\n\
    3 N1 CREATE R3 (13,1,0) B.TXT;0 4 [1,4] = (14,1,0) B.TXT;1\n\
    4 N1 OPEN 1 (12,1,0) EX = open\n\
    5 N1 WRITE 1 1 HELLO = written\n\
    6 N1 CLOSE 1 = closed\n\
    end: 6 answered, 0 died, 227 free\n";

/// The file with eight, twelve and sixteen blocks.
const EIGHT: &str = "file [1,4] 8 blocks mark 2 end 2,0";

const TWELVE: &str = "file [1,4] 12 blocks mark 2 end 2,0";

const SIXTEEN: &str = "file [1,4] 16 blocks mark 2 end 2,0";

const ENTRY: &str = "(14,1,0) B.TXT;1";

const MARKED: (&str, &str) = ("marked 14\n", "");

/// The file that is gone costs 5, and the others with that of node 2 cost 19.
const FREED: (&str, &str) = ("", "usage of [1,4]: has 24, should be 19\n");

/// The first bytes of blocks, and the sum of all: of HELLO, of AB, and of zeros.
const HELLO: &str = "48454c4c4f0000000000000000000000 sum 372";

const AB: &str = "41420000000000000000000000000000 sum 131";

const ZEROS: &str = "00000000000000000000000000000000 sum 0";

/// A look-up in the directory in which node 2 makes a file while node 3 waits behind it. Node 2 takes one cluster more in each scene, so
/// that 226 are left.
/// A node that only looks leaks no number, so that node 2 always takes 15.
const LOOKUP: Scene = Scene {
    lines: "1 LOOKUP R1 (13,1,0) B.TXT;0\n",
    other: MAKES,
    opens: "",
    look: "LIST (13,1,0)",
    answers: 2,
    writes: 0,
    rows: &[
        (
            "idle",
            0,
            226,
            "2 entries B.TXT;1 (14,1,0) C.TXT;1 (15,1,0)",
            CLEAN,
        ),
        (
            "nothing",
            0,
            226,
            "2 entries B.TXT;1 (14,1,0) C.TXT;1 (15,1,0)",
            CLEAN,
        ),
        (
            "idle",
            1,
            226,
            "2 entries B.TXT;1 (14,1,0) C.TXT;1 (15,1,0)",
            CLEAN,
        ),
    ],
};

const LIST: Scene = Scene {
    lines: "1 LIST (13,1,0)\n",
    other: MAKES,
    opens: "",
    look: "LOOKUP R1 (13,1,0) C.TXT;0",
    answers: 2,
    writes: 0,
    rows: &[
        ("idle", 0, 226, "(15,1,0) C.TXT;1", CLEAN),
        ("nothing", 0, 226, "(15,1,0) C.TXT;1", CLEAN),
        ("idle", 1, 226, "(15,1,0) C.TXT;1", CLEAN),
    ],
};

const STAT: Scene = Scene {
    lines: "1 STAT (12,1,0)\n",
    other: GROWS,
    opens: "",
    look: "STAT (12,1,0)",
    answers: 2,
    writes: 0,
    rows: &[
        ("idle", 0, 226, TWELVE, CLEAN),
        ("nothing", 0, 226, TWELVE, CLEAN),
        ("idle", 1, 226, TWELVE, CLEAN),
    ],
};

/// The file costs 13 and has three clusters. All files with that of node 2 cost 24 without it. Written are both bitmaps, quota row, header
/// and directory, and the bitmaps again for the stock.
const CREATE: Scene = Scene {
    lines: "1 CREATE R1 (13,1,0) A.TXT;0 10 [1,4]\n",
    other: MAKES,
    opens: "",
    look: "LOOKUP R1 (13,1,0) A.TXT;0",
    answers: 2,
    writes: 7,
    rows: &[
        ("idle", 0, 226, GONE, CLEAN),
        ("nothing", 0, 226, GONE, CLEAN),
        (
            "charged",
            0,
            226,
            GONE,
            ("", "usage of [1,4]: has 37, should be 24\n"),
        ),
        ("lost", 0, 223, GONE, ("lost 15\n", "")),
        ("done", 0, 223, "(15,1,0) A.TXT;1", CLEAN),
        ("idle", 1, 223, "(15,1,0) A.TXT;1", CLEAN),
    ],
};

/// The directory costs 5 and has one cluster, whose four blocks are written too.
const MKDIR: Scene = Scene {
    lines: "1 MKDIR R1 (13,1,0) E [1,4]\n",
    other: MAKES,
    opens: "",
    look: "LOOKUP R1 (13,1,0) E.DIR;0",
    answers: 2,
    writes: 11,
    rows: &[
        ("idle", 0, 226, GONE, CLEAN),
        ("nothing", 0, 226, GONE, CLEAN),
        (
            "charged",
            0,
            226,
            GONE,
            ("", "usage of [1,4]: has 29, should be 24\n"),
        ),
        ("lost", 0, 225, GONE, ("lost 15\n", "")),
        ("done", 0, 225, "(15,1,0) E.DIR;1", CLEAN),
        ("idle", 1, 225, "(15,1,0) E.DIR;1", CLEAN),
    ],
};

/// Node 2 adds four blocks to the same file, with which the files cost 23. Written are storage block, quota row and header, and the storage
/// block again for the stock.
const EXTEND: Scene = Scene {
    lines: "1 EXTEND (12,1,0) 4\n",
    other: GROWS,
    opens: "",
    look: "STAT (12,1,0)",
    answers: 2,
    writes: 4,
    rows: &[
        ("idle", 0, 226, TWELVE, CLEAN),
        ("nothing", 0, 226, TWELVE, CLEAN),
        (
            "charged",
            0,
            226,
            TWELVE,
            ("", "usage of [1,4]: has 27, should be 23\n"),
        ),
        ("done", 0, 225, SIXTEEN, CLEAN),
        ("idle", 1, 225, SIXTEEN, CLEAN),
    ],
};

/// Node 2 adds to the shorter file what went. Written are header, storage block and quota row.
const TRUNC: Scene = Scene {
    lines: "1 TRUNC (12,1,0) 4\n",
    other: GROWS,
    opens: "",
    look: "STAT (12,1,0)",
    answers: 2,
    writes: 3,
    rows: &[
        ("idle", 0, 226, TWELVE, CLEAN),
        ("nothing", 0, 226, TWELVE, CLEAN),
        (
            "shortened",
            0,
            227,
            EIGHT,
            ("", "usage of [1,4]: has 23, should be 19\n"),
        ),
        ("done", 0, 227, EIGHT, CLEAN),
        ("idle", 1, 227, EIGHT, CLEAN),
    ],
};

/// A look-up does not look at the file, so it finds the entry of a marked one.
const DELETE: Scene = Scene {
    lines: "1 DELETE (13,1,0) B.TXT;0\n",
    other: MAKES,
    opens: "",
    look: "LOOKUP R1 (13,1,0) B.TXT;0",
    answers: 2,
    writes: 6,
    rows: &[
        ("idle", 0, 226, ENTRY, CLEAN),
        ("nothing", 0, 226, ENTRY, CLEAN),
        ("marked", 0, 226, ENTRY, MARKED),
        ("unlinked", 0, 226, GONE, MARKED),
        ("freed", 0, 227, GONE, FREED),
        ("done", 0, 227, GONE, CLEAN),
        ("idle", 1, 227, GONE, CLEAN),
    ],
};

/// Of two entries that of the earlier name is kept.
const RENAME: Scene = Scene {
    lines: "1 RENAME (13,1,0) B.TXT;1 A.TXT;0\n",
    other: MAKES,
    opens: "",
    look: "LOOKUP R1 (13,1,0) B.TXT;0",
    answers: 2,
    writes: 2,
    rows: &[
        ("idle", 0, 226, ENTRY, CLEAN),
        ("nothing", 0, 226, ENTRY, CLEAN),
        ("both", 0, 226, ENTRY, ("second entry B.TXT;1 in 13\n", "")),
        ("done", 0, 226, GONE, CLEAN),
        ("idle", 1, 226, GONE, CLEAN),
    ],
};

/// A file that the dead node had open can be opened all the same, and after the last line each channel is closed.
const OPEN: Scene = Scene {
    lines: "1 OPEN 1 (12,1,0) CR\n",
    other: GROWS,
    opens: "",
    look: "OPEN 1 (12,1,0) PW",
    answers: 3,
    writes: 0,
    rows: &[
        ("idle", 0, 226, "open", CLEAN),
        ("nothing", 0, 226, "open", CLEAN),
        ("idle", 1, 226, "open", CLEAN),
        ("nothing", 1, 226, "open", CLEAN),
        ("idle", 2, 226, "open", CLEAN),
    ],
};

/// The file is marked and its entry gone before its one channel is closed, and it stays so if the node dies until then. The first six turns
/// are the OPEN and the lock of the directory, so that the others wait for the DELETE, which writes two blocks; the CLOSE writes four.
const CLOSE: Scene = Scene {
    lines: "SCHED 1*6\n1 OPEN 1 (14,1,0) CR\n1 DELETE (13,1,0) B.TXT;0\n1 CLOSE 1\n",
    other: MAKES,
    opens: "",
    look: "LOOKUP R1 (13,1,0) B.TXT;0",
    answers: 2,
    writes: 6,
    rows: &[
        ("idle", 0, 226, ENTRY, CLEAN),
        ("nothing", 0, 226, ENTRY, CLEAN),
        ("idle", 1, 226, ENTRY, CLEAN),
        ("nothing", 1, 226, ENTRY, CLEAN),
        ("marked", 1, 226, ENTRY, MARKED),
        ("unlinked", 1, 226, GONE, MARKED),
        ("idle", 2, 226, GONE, MARKED),
        ("nothing", 2, 226, GONE, MARKED),
        ("freed", 2, 227, GONE, FREED),
        ("done", 2, 227, GONE, CLEAN),
        ("idle", 3, 227, GONE, CLEAN),
    ],
};

/// Node 3 writes the block that node 1 reads.
const READ: Scene = Scene {
    lines: "1 OPEN 1 (12,1,0) CR\n1 READ 1 1\n1 CLOSE 1\n",
    other: GROWS,
    opens: "3 OPEN 1 (12,1,0) CW\n",
    look: "WRITE 1 1 NEW",
    answers: 4,
    writes: 0,
    rows: &[
        ("idle", 0, 226, "written", CLEAN),
        ("nothing", 0, 226, "written", CLEAN),
        ("idle", 1, 226, "written", CLEAN),
        ("nothing", 1, 226, "written", CLEAN),
        ("idle", 2, 226, "written", CLEAN),
        ("nothing", 2, 226, "written", CLEAN),
        ("idle", 3, 226, "written", CLEAN),
    ],
};

/// Two blocks between are zeroed, the block is written, and only the header shows it. Node 3 reads the block that node 1 writes.
const WRITE: Scene = Scene {
    lines: "1 OPEN 1 (12,1,0) PW\n1 WRITE 1 4 AB\n1 CLOSE 1\n",
    other: GROWS,
    opens: "3 OPEN 1 (12,1,0) CR\n",
    look: "READ 1 4",
    answers: 4,
    writes: 4,
    rows: &[
        ("idle", 0, 226, ZEROS, CLEAN),
        ("nothing", 0, 226, ZEROS, CLEAN),
        ("idle", 1, 226, ZEROS, CLEAN),
        ("nothing", 1, 226, ZEROS, CLEAN),
        ("done", 1, 226, AB, CLEAN),
        ("idle", 2, 226, AB, CLEAN),
        ("nothing", 2, 226, AB, CLEAN),
        ("idle", 3, 226, AB, CLEAN),
    ],
};

/// Below the mark the block shows before the header has the new end.
const BELOW_THE_MARK: Scene = Scene {
    lines: "1 OPEN 1 (12,1,0) PW\n1 WRITE 1 1 AB\n1 CLOSE 1\n",
    other: GROWS,
    opens: "3 OPEN 1 (12,1,0) CR\n",
    look: "READ 1 1",
    answers: 4,
    writes: 2,
    rows: &[
        ("idle", 0, 226, HELLO, CLEAN),
        ("nothing", 0, 226, HELLO, CLEAN),
        ("idle", 1, 226, HELLO, CLEAN),
        ("nothing", 1, 226, HELLO, CLEAN),
        ("data only", 1, 226, AB, CLEAN),
        ("done", 1, 226, AB, CLEAN),
        ("idle", 2, 226, AB, CLEAN),
        ("nothing", 2, 226, AB, CLEAN),
        ("idle", 3, 226, AB, CLEAN),
    ],
};

/// A quota is set for an owner without a file while node 2 charges another, and shown while node 3 sets it.
const QUOTASET: Scene = Scene {
    lines: "1 QUOTASET [2,2] 100 0\n",
    other: MAKES,
    opens: "",
    look: "QUOTASHOW [2,2]",
    answers: 2,
    writes: 1,
    rows: &[
        ("idle", 0, 226, "refused NoQuota", CLEAN),
        ("nothing", 0, 226, "refused NoQuota", CLEAN),
        ("done", 0, 226, "usage 0 quota 100 overdraft 0", CLEAN),
        ("idle", 1, 226, "usage 0 quota 100 overdraft 0", CLEAN),
    ],
};

const QUOTASHOW: Scene = Scene {
    lines: "1 QUOTASHOW [1,4]\n",
    other: MAKES,
    opens: "",
    look: "QUOTASET [1,4] 500 0",
    answers: 2,
    writes: 0,
    rows: &[
        ("idle", 0, 226, "set", CLEAN),
        ("nothing", 0, 226, "set", CLEAN),
        ("idle", 1, 226, "set", CLEAN),
    ],
};

/// The volume on which each scene begins.
const BEGUN: Row<'static> = Row {
    on: On::Fresh,
    first: &[Step::Made(SETUP, SETUP_REPORT)],
    each: &[],
};

/// The same with the end of A.TXT (12,1) in its first block, which is below the mark. The header is LBN 28.
const WITH_AN_END: Row<'static> = Row {
    on: On::Fresh,
    first: &[
        Step::Made(SETUP, SETUP_REPORT),
        Step::Byte(28, 30, 1),
        Step::Sum(28),
    ],
    each: &[],
};

const READS: &[Scene] = &[LOOKUP, LIST, STAT, OPEN, READ, QUOTASHOW];

const MAKINGS: &[Scene] = &[CREATE, MKDIR, QUOTASET];

const CHANGES: &[Scene] = &[EXTEND, TRUNC, WRITE];

const REMOVALS: &[Scene] = &[DELETE, RENAME, CLOSE];

#[test]
fn each_turn_of_a_look(rt: HostRuntime) -> Result<(), Fail> {
    each_scene(rt.alloc(), BEGUN, READS)?;
    Ok(())
}

#[test]
fn each_turn_of_a_making(rt: HostRuntime) -> Result<(), Fail> {
    each_scene(rt.alloc(), BEGUN, MAKINGS)?;
    Ok(())
}

#[test]
fn each_turn_of_a_change(rt: HostRuntime) -> Result<(), Fail> {
    each_scene(rt.alloc(), BEGUN, CHANGES)?;
    each_scene(rt.alloc(), WITH_AN_END, &[BELOW_THE_MARK])?;
    Ok(())
}

#[test]
fn each_turn_of_a_removal(rt: HostRuntime) -> Result<(), Fail> {
    each_scene(rt.alloc(), BEGUN, REMOVALS)?;
    Ok(())
}
