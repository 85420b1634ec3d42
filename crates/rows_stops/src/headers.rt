//! Files of several headers: a volume on which one was linked by hand, and deaths of the nodes that change one.

use crate::scenes::{CLEAN, GONE, GROWS, MAKES, Other, Scene, each_scene};
use rows_calls::{On, REBUILD, Row, Step, each_stops, play};
use std::test::Fail;

// ---- headers that were linked by hand

/// A file of the most clusters that CREATE gives it. They are 25 to 101.
const LARGEST: Step<'static> = Step::Made(
    "NODES 1\n1 CREATE R1 MFD A.TXT;0 308 [1,4]\n",
    "1 N1 CREATE R1 (4,4,0) A.TXT;0 308 [1,4] = (12,1,0) A.TXT;1\nend: 1 answered, 0 died, 154 free\n",
);

/// Its header, LBN 28, has a link to header 13, LBN 29, which lists cluster 102 and belongs to it. Both bits say that they are in use.
const LINKED: &[Step<'static>] = &[
    LARGEST,
    Step::Byte(28, 14, 13),
    Step::Sum(28),
    Step::Byte(29, 0, 40),
    Step::Byte(29, 1, 100),
    Step::Byte(29, 2, 255),
    Step::Byte(29, 3, 255),
    Step::Byte(29, 4, 1),
    Step::Byte(29, 6, 1),
    Step::Byte(29, 7, 2),
    Step::Byte(29, 8, 13),
    Step::Byte(29, 58, 2),
    Step::Byte(29, 60, 4),
    Step::Byte(29, 62, 1),
    Step::Byte(29, 66, 12),
    Step::Byte(29, 68, 1),
    Step::Byte(29, 200, 0x03),
    Step::Byte(29, 201, 0x40),
    Step::Byte(29, 202, 0x98),
    Step::Byte(29, 203, 0x01),
    Step::Sum(29),
    Step::Byte(16, 1, 0x1f),
    Step::Byte(85, 12, 0x80),
];

/// The file has 312 blocks, so both headers are its own. Its owner is charged for them.
const OWN: &[Step<'static>] = &[
    Step::Byte(28, 26, 0x38),
    Step::Sum(28),
    Step::Byte(96, 40, 0x39),
    Step::Finds("accepted\n"),
    Step::Stays,
    Step::Made(
        "NODES 1\n1 STAT (12,1,0)\n1 TRUNC (12,1,0) 308\n",
        "1 N1 STAT (12,1,0) = file [1,4] 312 blocks mark 1 end 1,0\n\
         2 N1 TRUNC (12,1,0) 308 = 308 blocks\n\
         end: 2 answered, 0 died, 154 free\n",
    ),
];

/// It still has 308, all of which are in the first header.
const NOT_ITS_OWN: &[Step<'static>] = &[
    Step::Finds("surplus of 12\nstray header 13\nleaked clusters 1\nleaked numbers 1\n"),
    Step::Call(
        REBUILD,
        "",
        0,
        "rebuilt: 0 entered, 0 entries removed, 0 files gone, 1 clusters, 1 numbers\n",
    ),
    Step::Stays,
];

const BY_HAND: Row<'static> = Row {
    on: On::Fresh,
    first: LINKED,
    each: &[OWN, NOT_ITS_OWN],
};

#[test]
fn a_linked_header_is_the_files_by_its_blocks(rt: HostRuntime) -> Result<(), Fail> {
    play(rt.alloc(), &[BY_HAND])?;
    Ok(())
}

#[test]
fn each_write_that_takes_a_header_off_fails(rt: HostRuntime) -> Result<(), Fail> {
    let image = BY_HAND.begun(rt.alloc())?;
    each_stops(rt.alloc(), &image)?;
    Ok(())
}

// ---- a death between a new header and its link

/// The node dies in place of the write of the first header, behind that of the new one.
const UNLINKED: &[Step<'static>] = &[
    Step::Run(
        "NODES 1\nKILL 1 WRITE 5\n1 EXTEND (12,1,0) 1\n",
        "1 N1 died at charged, leaked 17 clusters, 9 numbers\nend: 0 answered, 1 died, 137 free\n",
    ),
    Step::Finds(
        "stray header 13\nleaked clusters 17\nleaked numbers 9\nusage of [1,4]: has 313, should be 309\n",
    ),
    Step::Call(
        REBUILD,
        "",
        0,
        "rebuilt: 0 entered, 0 entries removed, 0 files gone, 17 clusters, 9 numbers\n",
    ),
    Step::Stays,
];

const DIED: Row<'static> = Row {
    on: On::Fresh,
    first: &[LARGEST],
    each: &[UNLINKED],
};

#[test]
fn a_new_header_without_a_link_is_a_stray(rt: HostRuntime) -> Result<(), Fail> {
    play(rt.alloc(), &[DIED])?;
    Ok(())
}

// ---- deaths at each turn and each write

/// A.TXT (12,1) of one header, which is full, the directory D (13,1), and B.TXT (14,1) in it, which costs 5 as D does.
const MADE: Step<'static> = Step::Made(
    "NODES 1\n\
     1 CREATE R1 MFD A.TXT;0 308 [1,4]\n\
     1 MKDIR R2 MFD D [1,4]\n\
     1 CREATE R3 R2 B.TXT;0 4 [1,4]\n",
    "1 N1 CREATE R1 (4,4,0) A.TXT;0 308 [1,4] = (12,1,0) A.TXT;1\n\
     2 N1 MKDIR R2 (4,4,0) D [1,4] = (13,1,0) D.DIR;1\n\
     3 N1 CREATE R3 (13,1,0) B.TXT;0 4 [1,4] = (14,1,0) B.TXT;1\n\
     end: 3 answered, 0 died, 152 free\n",
);

const ONE: Row<'static> = Row {
    on: On::Fresh,
    first: &[MADE],
    each: &[],
};

/// The same with a second header, number 15, which lists one cluster.
pub const TWO: Row<'static> = Row {
    on: On::Fresh,
    first: &[
        MADE,
        Step::Made(
            "NODES 1\n1 EXTEND (12,1,0) 4\n",
            "1 N1 EXTEND (12,1,0) 4 = 312 blocks\nend: 1 answered, 0 died, 151 free\n",
        ),
    ],
    each: &[],
};

/// The same with a second header that is full.
const FULL: Row<'static> = Row {
    on: On::Fresh,
    first: &[
        MADE,
        Step::Made(
            "NODES 1\n1 EXTEND (12,1,0) 308\n",
            "1 N1 EXTEND (12,1,0) 308 = 616 blocks\nend: 1 answered, 0 died, 75 free\n",
        ),
    ],
    each: &[],
};

/// The same with a third header besides, number 16, which lists one cluster.
const THREE: Row<'static> = Row {
    on: On::Fresh,
    first: &[
        MADE,
        Step::Made(
            "NODES 1\n1 EXTEND (12,1,0) 308\n1 EXTEND (12,1,0) 4\n",
            "1 N1 EXTEND (12,1,0) 308 = 616 blocks\n\
             2 N1 EXTEND (12,1,0) 4 = 620 blocks\n\
             end: 2 answered, 0 died, 74 free\n",
        ),
    ],
    each: &[],
};

/// Node 2 cuts file 12 to one cluster.
const CUTS: Other = Other {
    line: "2 TRUNC (12,1,0) 4\n",
    start: " N2 TRUNC (12,1,0) 4 = ",
    end: "4 blocks",
};

/// It deletes the file. Node 3 has looked at it by then, since the directory comes first.
const REMOVES: Other = Other {
    line: "2 DELETE MFD A.TXT;0\n",
    start: " N2 DELETE (4,4,0) A.TXT;0 = ",
    end: "deleted",
};

/// The file with so many blocks.
const B0: &str = "file [1,4] 0 blocks mark 1 end 1,0";

const B4: &str = "file [1,4] 4 blocks mark 1 end 1,0";

const B308: &str = "file [1,4] 308 blocks mark 1 end 1,0";

const B312: &str = "file [1,4] 312 blocks mark 1 end 1,0";

const B316: &str = "file [1,4] 316 blocks mark 1 end 1,0";

const B404: &str = "file [1,4] 404 blocks mark 1 end 1,0";

const B612: &str = "file [1,4] 612 blocks mark 1 end 1,0";

const B616: &str = "file [1,4] 616 blocks mark 1 end 1,0";

const B620: &str = "file [1,4] 620 blocks mark 1 end 1,0";

const B624: &str = "file [1,4] 624 blocks mark 1 end 1,0";

/// The file gets a second header, number 15. Written are both bitmaps, quota row, new header and first header, and the bitmaps again for
/// the stock. Node 2 extends the file too, by another number where that one is a stray.
const GETS_A_SECOND: Scene = Scene {
    lines: "1 EXTEND (12,1,0) 4\n",
    other: GROWS,
    opens: "",
    look: "STAT (12,1,0)",
    answers: 2,
    writes: 7,
    rows: &[
        ("idle", 0, 151, B312, CLEAN),
        ("nothing", 0, 151, B312, CLEAN),
        (
            "charged",
            0,
            151,
            B312,
            ("", "usage of [1,4]: has 327, should be 323\n"),
        ),
        (
            "charged",
            0,
            151,
            B312,
            (
                "stray header 15\n",
                "usage of [1,4]: has 327, should be 323\n",
            ),
        ),
        ("done", 0, 150, B316, CLEAN),
        ("idle", 1, 150, B316, CLEAN),
    ],
};

/// The second header lists one cluster more, and then the first one says so. Node 2 cuts off what either has left.
const FILLS_THE_SECOND: Scene = Scene {
    lines: "1 EXTEND (12,1,0) 4\n",
    other: CUTS,
    opens: "",
    look: "STAT (12,1,0)",
    answers: 2,
    writes: 5,
    rows: &[
        ("idle", 0, 228, B4, CLEAN),
        ("nothing", 0, 228, B4, CLEAN),
        (
            "charged",
            0,
            228,
            B4,
            ("", "usage of [1,4]: has 19, should be 15\n"),
        ),
        ("done", 0, 228, B4, CLEAN),
        ("idle", 1, 228, B4, CLEAN),
    ],
};

/// The file gets a third header, number 16. The second one, which is full, has the link to it before the first one says more blocks.
const GETS_A_THIRD: Scene = Scene {
    lines: "1 EXTEND (12,1,0) 4\n",
    other: MAKES,
    opens: "",
    look: "STAT (12,1,0)",
    answers: 2,
    writes: 8,
    rows: &[
        ("idle", 0, 74, B616, CLEAN),
        ("nothing", 0, 74, B616, CLEAN),
        (
            "charged",
            0,
            74,
            B616,
            ("", "usage of [1,4]: has 636, should be 632\n"),
        ),
        (
            "charged",
            0,
            74,
            B616,
            (
                "stray header 16\n",
                "usage of [1,4]: has 636, should be 632\n",
            ),
        ),
        (
            "charged",
            0,
            74,
            B616,
            (
                "surplus of 12\nstray header 16\n",
                "usage of [1,4]: has 636, should be 632\n",
            ),
        ),
        ("done", 0, 73, B620, CLEAN),
        ("idle", 1, 73, B620, CLEAN),
    ],
};

/// The same, and node 2 deletes the file: a header that was not the file's yet stays.
const GETS_A_THIRD_AND_GOES: Scene = Scene {
    lines: "1 EXTEND (12,1,0) 4\n",
    other: REMOVES,
    opens: "",
    look: "STAT (12,1,0)",
    answers: 2,
    writes: 8,
    rows: &[
        ("idle", 0, 229, B616, CLEAN),
        ("nothing", 0, 229, B616, CLEAN),
        (
            "charged",
            0,
            229,
            B616,
            ("", "usage of [1,4]: has 14, should be 10\n"),
        ),
        (
            "charged",
            0,
            229,
            B616,
            (
                "stray header 16\n",
                "usage of [1,4]: has 14, should be 10\n",
            ),
        ),
        ("done", 0, 229, B620, CLEAN),
        ("idle", 1, 229, B620, CLEAN),
    ],
};

/// A cluster goes from the second header. Written are first header, second header, storage block and quota row.
const LOSES_A_CLUSTER: Scene = Scene {
    lines: "1 TRUNC (12,1,0) 612\n",
    other: MAKES,
    opens: "",
    look: "STAT (12,1,0)",
    answers: 2,
    writes: 4,
    rows: &[
        ("idle", 0, 74, B616, CLEAN),
        ("nothing", 0, 74, B616, CLEAN),
        (
            "shortened",
            0,
            75,
            B612,
            (
                "surplus of 12\n",
                "usage of [1,4]: has 632, should be 628\n",
            ),
        ),
        (
            "shortened",
            0,
            75,
            B612,
            ("", "usage of [1,4]: has 632, should be 628\n"),
        ),
        ("done", 0, 75, B612, CLEAN),
        ("idle", 1, 75, B612, CLEAN),
    ],
};

/// The second header goes. Written are first header, slot, both bitmaps and quota row.
const LOSES_THE_SECOND: Scene = Scene {
    lines: "1 TRUNC (12,1,0) 308\n",
    other: MAKES,
    opens: "",
    look: "STAT (12,1,0)",
    answers: 2,
    writes: 5,
    rows: &[
        ("idle", 0, 150, B312, CLEAN),
        ("nothing", 0, 150, B312, CLEAN),
        (
            "shortened",
            0,
            151,
            B308,
            (
                "stray header 15\n",
                "usage of [1,4]: has 328, should be 324\n",
            ),
        ),
        (
            "shortened",
            0,
            151,
            B308,
            ("", "usage of [1,4]: has 328, should be 324\n"),
        ),
        ("done", 0, 151, B308, CLEAN),
        ("idle", 1, 151, B308, CLEAN),
    ],
};

/// The third header goes, and the second one keeps 23 clusters. Node 2 extends the file, and writes over what the second one has left.
const LOSES_THE_THIRD: Scene = Scene {
    lines: "1 TRUNC (12,1,0) 400\n",
    other: GROWS,
    opens: "",
    look: "STAT (12,1,0)",
    answers: 2,
    writes: 6,
    rows: &[
        ("idle", 0, 73, B624, CLEAN),
        ("nothing", 0, 73, B624, CLEAN),
        (
            "shortened",
            0,
            128,
            B404,
            (
                "stray header 16\n",
                "usage of [1,4]: has 635, should be 415\n",
            ),
        ),
        (
            "shortened",
            0,
            128,
            B404,
            ("", "usage of [1,4]: has 635, should be 415\n"),
        ),
        ("done", 0, 128, B404, CLEAN),
        ("idle", 1, 128, B404, CLEAN),
    ],
};

/// All clusters go, and two headers with them, in order.
const LOSES_ALL: Scene = Scene {
    lines: "1 TRUNC (12,1,0) 0\n",
    other: MAKES,
    opens: "",
    look: "STAT (12,1,0)",
    answers: 2,
    writes: 6,
    rows: &[
        ("idle", 0, 73, B620, CLEAN),
        ("nothing", 0, 73, B620, CLEAN),
        (
            "shortened",
            0,
            228,
            B0,
            (
                "stray header 15\nstray header 16\n",
                "usage of [1,4]: has 636, should be 16\n",
            ),
        ),
        (
            "shortened",
            0,
            228,
            B0,
            (
                "stray header 16\n",
                "usage of [1,4]: has 636, should be 16\n",
            ),
        ),
        (
            "shortened",
            0,
            228,
            B0,
            ("", "usage of [1,4]: has 636, should be 16\n"),
        ),
        ("done", 0, 228, B0, CLEAN),
        ("idle", 1, 228, B0, CLEAN),
    ],
};

const ENTRY: &str = "(12,1,0) A.TXT;1";

const MARKED: (&str, &str) = ("marked 12\n", "");

/// What is found where the file is gone and its owner still charged: both other headers are strays, one is, and none is.
const TWO_STRAYS: (&str, &str) = (
    "stray header 15\nstray header 16\n",
    "usage of [1,4]: has 636, should be 15\n",
);

const ONE_STRAY: (&str, &str) = (
    "stray header 16\n",
    "usage of [1,4]: has 636, should be 15\n",
);

const NO_STRAY: (&str, &str) = ("", "usage of [1,4]: has 636, should be 15\n");

/// The file goes, the slot of its first header first.
const DELETE: Scene = Scene {
    lines: "1 DELETE MFD A.TXT;0\n",
    other: MAKES,
    opens: "",
    look: "LOOKUP R1 (4,4,0) A.TXT;0",
    answers: 2,
    writes: 8,
    rows: &[
        ("idle", 0, 73, ENTRY, CLEAN),
        ("nothing", 0, 73, ENTRY, CLEAN),
        ("marked", 0, 73, ENTRY, MARKED),
        ("unlinked", 0, 73, GONE, MARKED),
        ("freed", 0, 228, GONE, TWO_STRAYS),
        ("freed", 0, 228, GONE, ONE_STRAY),
        ("freed", 0, 228, GONE, NO_STRAY),
        ("done", 0, 228, GONE, CLEAN),
        ("idle", 1, 228, GONE, CLEAN),
    ],
};

/// The same by the CLOSE of its one channel. The first six turns are the OPEN and the lock of the directory.
const CLOSE: Scene = Scene {
    lines: "SCHED 1*6\n1 OPEN 1 (12,1,0) CR\n1 DELETE MFD A.TXT;0\n1 CLOSE 1\n",
    other: MAKES,
    opens: "",
    look: "LOOKUP R1 (4,4,0) A.TXT;0",
    answers: 2,
    writes: 8,
    rows: &[
        ("idle", 0, 73, ENTRY, CLEAN),
        ("nothing", 0, 73, ENTRY, CLEAN),
        ("idle", 1, 73, ENTRY, CLEAN),
        ("nothing", 1, 73, ENTRY, CLEAN),
        ("marked", 1, 73, ENTRY, MARKED),
        ("unlinked", 1, 73, GONE, MARKED),
        ("idle", 2, 73, GONE, MARKED),
        ("nothing", 2, 73, GONE, MARKED),
        ("freed", 2, 228, GONE, TWO_STRAYS),
        ("freed", 2, 228, GONE, ONE_STRAY),
        ("freed", 2, 228, GONE, NO_STRAY),
        ("done", 2, 228, GONE, CLEAN),
        ("idle", 3, 228, GONE, CLEAN),
    ],
};

#[test]
fn each_turn_in_which_a_file_gets_headers(rt: HostRuntime) -> Result<(), Fail> {
    each_scene(rt.alloc(), ONE, &[GETS_A_SECOND])?;
    each_scene(rt.alloc(), TWO, &[FILLS_THE_SECOND])?;
    each_scene(rt.alloc(), FULL, &[GETS_A_THIRD, GETS_A_THIRD_AND_GOES])?;
    Ok(())
}

#[test]
fn each_turn_in_which_a_file_loses_headers(rt: HostRuntime) -> Result<(), Fail> {
    each_scene(rt.alloc(), FULL, &[LOSES_A_CLUSTER])?;
    each_scene(rt.alloc(), TWO, &[LOSES_THE_SECOND])?;
    each_scene(rt.alloc(), THREE, &[LOSES_THE_THIRD, LOSES_ALL])?;
    Ok(())
}

#[test]
fn each_turn_in_which_a_file_of_headers_goes(rt: HostRuntime) -> Result<(), Fail> {
    each_scene(rt.alloc(), THREE, &[DELETE, CLOSE])?;
    Ok(())
}
