//! Repair by the top call: what is beyond it, what it frees and what it keeps, a volume in order, and repairs of which each write fails.

use crate::volumes::{CROWDED, RUN};
use blk_drive::MemImage;
use rows_calls::{
    Exchange, On, REBUILD, Row, Step, Stop, Wrong, after, answered, call, check_answer, check_same,
    expect, failing, image_of, play, stays,
};
use std::alloc::Global;
use std::test::Fail;

const REPAIR: &[&str] = &["repair"];

/// What is printed where nothing is to be repaired.
const SOUND: &str =
    "repaired: 0 slots freed\nrebuilt: 0 entered, 0 entries removed, 0 files gone, 0 clusters, 0 numbers\n";

/// The files A.TXT, B.TXT and C.TXT of one cluster each, 25 to 27. C.TXT has something written in it.
const WRITTEN: &[Step<'static>] = &[
    Step::Made(
        "NODES 1\n\
        1 CREATE R1 MFD A.TXT;0 4 [1,4]\n\
        1 CREATE R2 MFD B.TXT;0 4 [1,4]\n\
        1 CREATE R3 MFD C.TXT;0 4 [1,4]\n",
        "1 N1 CREATE R1 (4,4,0) A.TXT;0 4 [1,4] = (12,1,0) A.TXT;1\n\
        2 N1 CREATE R2 (4,4,0) B.TXT;0 4 [1,4] = (13,1,0) B.TXT;1\n\
        3 N1 CREATE R3 (4,4,0) C.TXT;0 4 [1,4] = (14,1,0) C.TXT;1\n\
        end: 3 answered, 0 died, 228 free\n",
    ),
    Step::Made(
        "NODES 1\n1 OPEN 1 (14,1,0) PW\n1 WRITE 1 2 7\n1 CLOSE 1\n",
        "1 N1 OPEN 1 (14,1,0) PW = open\n\
        2 N1 WRITE 1 2 7 = written\n\
        3 N1 CLOSE 1 = closed\n\
        end: 3 answered, 0 died, 228 free\n",
    ),
];

/// C.TXT is as it was.
const C_STAYS: Step<'static> = Step::Made(
    "NODES 1\n1 LOOKUP R1 MFD C.TXT;0\n1 STAT R1\n1 OPEN 1 R1 CR\n1 READ 1 1\n1 READ 1 2\n",
    "1 N1 LOOKUP R1 (4,4,0) C.TXT;0 = (14,1,0) C.TXT;1\n\
    2 N1 STAT (14,1,0) = file [1,4] 4 blocks mark 3 end 3,0\n\
    3 N1 OPEN 1 (14,1,0) CR = open\n\
    4 N1 READ 1 1 = 00000000000000000000000000000000 sum 0\n\
    5 N1 READ 1 2 = 37000000000000000000000000000000 sum 55\n\
    6 N1 CLOSE 1 = closed\n\
    end: 6 answered, 0 died, 230 free\n",
);

/// The directories D (12,1), of cluster 25, and E (13,1) in it, of cluster 26; and in E the file F.TXT (14,1) of cluster 27.
const TREE: &[Step<'static>] = &[Step::Made(
    "NODES 1\n\
    1 MKDIR R1 MFD D [1,4]\n\
    1 MKDIR R2 R1 E [1,4]\n\
    1 CREATE R3 R2 F.TXT;0 4 [1,4]\n",
    "1 N1 MKDIR R1 (4,4,0) D [1,4] = (12,1,0) D.DIR;1\n\
    2 N1 MKDIR R2 (12,1,0) E [1,4] = (13,1,0) E.DIR;1\n\
    3 N1 CREATE R3 (13,1,0) F.TXT;0 4 [1,4] = (14,1,0) F.TXT;1\n\
    end: 3 answered, 0 died, 228 free\n",
)];

/// Of three files: a header without its sum; a header that has the cluster of another file, so that neither is sound; a header of another
/// number; and the main directory, which cannot be read.
const OF_FILES: &[&[Step<'static>]] = &[
    &[
        Step::Byte(28, 100, 1),
        Step::Kept(REBUILD, "", 5, "not mendable: header 12: BadSum\n"),
        Step::Call(
            REPAIR,
            "",
            0,
            "repaired: 1 slots freed\nrebuilt: 0 entered, 1 entries removed, 0 files gone, 1 clusters, 1 numbers\n",
        ),
        Step::Stays,
        Step::Made(
            "NODES 1\n1 LOOKUP R1 MFD B.TXT;0\n1 CREATE R1 MFD A.TXT;0 0 [1,4]\n",
            "1 N1 LOOKUP R1 (4,4,0) B.TXT;0 = (13,1,0) B.TXT;1\n\
            2 N1 CREATE R1 (4,4,0) A.TXT;0 0 [1,4] = (12,2,0) A.TXT;1\n\
            end: 2 answered, 0 died, 229 free\n",
        ),
    ],
    &[
        Step::Byte(29, 202, 100),
        Step::Sum(29),
        Step::Finds("shared cluster 25\n"),
        Step::Kept(REBUILD, "", 5, "not mendable: shared cluster 25\n"),
        Step::Call(
            REPAIR,
            "",
            0,
            "repaired: 2 slots freed\nrebuilt: 0 entered, 2 entries removed, 0 files gone, 2 clusters, 2 numbers\n",
        ),
        Step::Stays,
        C_STAYS,
    ],
    &[
        Step::Byte(29, 8, 15),
        Step::Sum(29),
        Step::Finds("header 13: WrongNumber\n"),
        Step::Call(
            REPAIR,
            "",
            0,
            "repaired: 1 slots freed\nrebuilt: 0 entered, 1 entries removed, 0 files gone, 1 clusters, 1 numbers\n",
        ),
        Step::Stays,
    ],
    &[
        Step::Byte(88, 0, 0),
        Step::Finds("directory 4: BadRecord\n"),
        Step::Call(
            REPAIR,
            "",
            0,
            "repaired: 0 slots freed\nrebuilt: 3 entered, 0 entries removed, 0 files gone, 0 clusters, 0 numbers\n",
        ),
        Step::Stays,
        Step::Made(
            "NODES 1\n1 LIST LOST\n1 LIST MFD\n",
            "1 N1 LIST (11,1,0) = 3 entries F00012.LST;1 (12,1,0) F00013.LST;1 (13,1,0) F00014.LST;1 (14,1,0)\n\
            2 N1 LIST (4,4,0) = 11 entries 000000.DIR;1 (4,4,0) BACKUP.SYS;1 (8,8,0) BADBLK.SYS;1 (3,3,0) BADLOG.SYS;1 (9,9,0) BITMAP.SYS;1 (2,2,0) CONTIN.SYS;1 (7,7,0) CORIMG.SYS;1 (5,5,0) INDEXF.SYS;1 (1,1,0) QUOTA.SYS;1 (10,1,0) SYSLOST.DIR;1 (11,1,0) VOLSET.SYS;1 (6,6,0)\n\
            end: 2 answered, 0 died, 228 free\n",
        ),
    ],
];

/// Of a fresh volume: [SYSLOST] cannot be read; [1,1] has no row; two rows of one owner; a cluster and a number that files have are free
/// by their bits.
const OF_PARTS: &[&[Step<'static>]] = &[
    &[
        Step::Byte(92, 0, 0),
        Step::Finds("directory 11: BadRecord\n"),
        Step::Call(REPAIR, "", 0, SOUND),
        Step::Stays,
    ],
    &[
        Step::Byte(96, 0, 0),
        Step::Finds("no quota row for 1\n"),
        Step::Call(REPAIR, "", 0, SOUND),
        Step::Stays,
        Step::Made(
            "NODES 1\n1 QUOTASHOW [1,1]\n",
            "1 N1 QUOTASHOW [1,1] = usage 111 quota 4294967295 overdraft 0\n\
            end: 1 answered, 0 died, 231 free\n",
        ),
    ],
    &[
        Step::Byte(96, 64, 1),
        Step::Byte(96, 68, 1),
        Step::Byte(96, 70, 1),
        Step::Finds("quota row [1,1]\n"),
        Step::Call(REPAIR, "", 0, SOUND),
        Step::Stays,
        Step::Has(96, 64, &[0, 0, 0, 0, 1, 0, 1, 0]),
    ],
    &[
        Step::Byte(85, 0, 1),
        Step::Finds("free cluster 0 in use\n"),
        Step::Call(REPAIR, "", 0, SOUND),
        Step::Changed(&[]),
    ],
    &[
        Step::Byte(16, 0, 0xfe),
        Step::Finds("free number 1 in use\n"),
        Step::Call(REPAIR, "", 0, SOUND),
        Step::Changed(&[]),
    ],
];

/// Of directories: one that names itself loses that entry; one that is marked for delete loses all; one that cannot be read goes, and what
/// is in it is lost.
const OF_DIRECTORIES: &[&[Step<'static>]] = &[
    &[
        Step::Byte(100, 14, 12),
        Step::Finds("directory loop at 12\n"),
        Step::Call(
            REPAIR,
            "",
            0,
            "repaired: 0 slots freed\nrebuilt: 1 entered, 0 entries removed, 0 files gone, 0 clusters, 0 numbers\n",
        ),
        Step::Stays,
        Step::Made(
            "NODES 1\n1 LIST (12,1,0)\n1 LIST LOST\n1 LIST (13,1,0)\n",
            "1 N1 LIST (12,1,0) = 0 entries\n\
            2 N1 LIST (11,1,0) = 1 entries F00013.LST;1 (13,1,0)\n\
            3 N1 LIST (13,1,0) = 1 entries F.TXT;1 (14,1,0)\n\
            end: 3 answered, 0 died, 228 free\n",
        ),
    ],
    &[
        Step::Byte(29, 53, 0xa0),
        Step::Sum(29),
        Step::Finds("marked directory 13\n"),
        Step::Call(
            REPAIR,
            "",
            0,
            "repaired: 0 slots freed\nrebuilt: 1 entered, 1 entries removed, 1 files gone, 0 clusters, 0 numbers\n",
        ),
        Step::Stays,
    ],
    &[
        Step::Byte(104, 0, 1),
        Step::Finds("directory 13: BadRecord\n"),
        Step::Call(
            REPAIR,
            "",
            0,
            "repaired: 1 slots freed\nrebuilt: 1 entered, 1 entries removed, 0 files gone, 1 clusters, 1 numbers\n",
        ),
        Step::Stays,
        Step::Made(
            "NODES 1\n1 LIST LOST\n1 LIST (12,1,0)\n",
            "1 N1 LIST (11,1,0) = 1 entries F00014.LST;1 (14,1,0)\n\
            2 N1 LIST (12,1,0) = 0 entries\n\
            end: 2 answered, 0 died, 229 free\n",
        ),
    ],
];

/// The directories D (12,1), E (13,1) in it and G (14,1) in that; and in G the file F.TXT (15,1).
const DEEP: &[Step<'static>] = &[Step::Made(
    "NODES 1\n\
    1 MKDIR R1 MFD D [1,4]\n\
    1 MKDIR R2 R1 E [1,4]\n\
    1 MKDIR R3 R2 G [1,4]\n\
    1 CREATE R4 R3 F.TXT;0 4 [1,4]\n",
    "1 N1 MKDIR R1 (4,4,0) D [1,4] = (12,1,0) D.DIR;1\n\
    2 N1 MKDIR R2 (12,1,0) E [1,4] = (13,1,0) E.DIR;1\n\
    3 N1 MKDIR R3 (13,1,0) G [1,4] = (14,1,0) G.DIR;1\n\
    4 N1 CREATE R4 (14,1,0) F.TXT;0 4 [1,4] = (15,1,0) F.TXT;1\n\
    end: 4 answered, 0 died, 227 free\n",
)];

/// E names D in place of G: D and E are on a loop and lose these entries, and the main directory keeps its entry of D. G, which D and E
/// lead to no more, is lost with what is in it.
const OF_A_LOOP: &[&[Step<'static>]] = &[&[
    Step::Byte(104, 14, 12),
    Step::Finds("directory loop at 12\n"),
    Step::Call(
        REPAIR,
        "",
        0,
        "repaired: 0 slots freed\nrebuilt: 2 entered, 0 entries removed, 0 files gone, 0 clusters, 0 numbers\n",
    ),
    Step::Stays,
    Step::About(
        RUN,
        "NODES 1\n1 LIST (12,1,0)\n1 LIST (13,1,0)\n1 LIST (14,1,0)\n1 LIST LOST\n1 LOOKUP R1 MFD D.DIR;0\n",
        0,
        "1 N1 LIST (12,1,0) = 0 entries\n2 N1 LIST (13,1,0) = 0 entries\n3 N1 LIST (14,1,0) = 1 entries F.TXT;1 (15,1,0)\n4 N1 LIST (11,1,0) = 2 entries F00013.LST;1 (13,1,0) F00014.LST;1 (14,1,0)\n5 N1 LOOKUP R1 (4,4,0) D.DIR;0 = (12,1,0) D.DIR;1\n",
        "end: 5 answered, 0 died, 227 free\n",
    ),
]];

/// On a volume with clusters of one block: A.TXT (12,1) of 90 blocks, whose second header has number 13, and B.TXT (14,1).
const LONG: &[Step<'static>] = &[Step::Made(
    "NODES 1\n\
    1 CREATE R1 MFD A.TXT;0 70 [1,1]\n\
    1 EXTEND R1 20\n\
    1 CREATE R2 MFD B.TXT;0 2 [1,1]\n",
    "1 N1 CREATE R1 (4,4,0) A.TXT;0 70 [1,1] = (12,1,0) A.TXT;1\n\
    2 N1 EXTEND (12,1,0) 20 = 90 blocks\n\
    3 N1 CREATE R2 (4,4,0) B.TXT;0 2 [1,1] = (14,1,0) B.TXT;1\n\
    end: 3 answered, 0 died, 90 free\n",
)];

/// What is printed of a file of two headers that goes.
const TWO_FREED: &str =
    "repaired: 2 slots freed\nrebuilt: 0 entered, 1 entries removed, 0 files gone, 90 clusters, 2 numbers\n";

/// B.TXT is as it was, and A.TXT is gone.
const B_STAYS: Step<'static> = Step::Made(
    "NODES 1\n1 STAT (12,1,0)\n1 STAT (14,1,0)\n",
    "1 N1 STAT (12,1,0) = refused NoSuchFile\n\
    2 N1 STAT (14,1,0) = file [1,1] 2 blocks mark 1 end 1,0\n\
    end: 2 answered, 0 died, 180 free\n",
);

/// Of a file of two headers: the second one has not its sum, or the first one has not; the first one does not link the second one.
const OF_A_CHAIN: &[&[Step<'static>]] = &[
    &[
        Step::Byte(17, 100, 1),
        Step::Finds("header 13: BadSum\n"),
        Step::Call(REPAIR, "", 0, TWO_FREED),
        Step::Stays,
        B_STAYS,
    ],
    &[
        Step::Byte(16, 100, 1),
        Step::Finds("header 12: BadSum\n"),
        Step::Call(REPAIR, "", 0, TWO_FREED),
        Step::Stays,
        B_STAYS,
    ],
    &[
        Step::Byte(16, 14, 0),
        Step::Byte(16, 16, 0),
        Step::Sum(16),
        Step::Finds("chain of 12: Broken\n"),
        Step::Call(REPAIR, "", 0, TWO_FREED),
        Step::Stays,
        B_STAYS,
    ],
];

/// What is beyond repair is told, and nothing is written.
const BEYOND: &[&[Step<'static>]] = &[
    &[
        Step::Byte(1, 496, 0x58),
        Step::Kept(REPAIR, "", 12, "not repairable: home: BadFormat\n"),
    ],
    &[
        Step::Byte(84, 100, 1),
        Step::Kept(
            REPAIR,
            "",
            12,
            "not repairable: storage control block: BadSum\n",
        ),
    ],
    &[
        Step::Byte(28, 100, 1),
        Step::Byte(19, 100, 1),
        Step::Kept(REPAIR, "", 12, "not repairable: header 3: BadSum\n"),
    ],
    &[
        Step::Without(27),
        Step::Kept(REPAIR, "", 12, "not repairable: system file 11\n"),
    ],
];

const FILES: &[Row<'static>] = &[Row {
    on: On::Fresh,
    first: WRITTEN,
    each: OF_FILES,
}];

const CHAINS: &[Row<'static>] = &[Row {
    on: On::Small,
    first: LONG,
    each: OF_A_CHAIN,
}];

const PARTS: &[Row<'static>] = &[
    Row {
        on: On::Fresh,
        first: &[],
        each: OF_PARTS,
    },
    Row {
        on: On::Fresh,
        first: &[],
        each: BEYOND,
    },
    Row {
        on: On::Zeros(0),
        first: &[
            Step::Call(&["repair", "now"], "", 1, "bad words\n"),
            Step::Call(&["REPAIR"], "", 1, "bad words\n"),
            Step::Call(REPAIR, "", 4, "bad size 0\n"),
        ],
        each: &[],
    },
];

const DIRECTORIES: &[Row<'static>] = &[Row {
    on: On::Fresh,
    first: TREE,
    each: OF_DIRECTORIES,
}];

const LOOPS: &[Row<'static>] = &[Row {
    on: On::Fresh,
    first: DEEP,
    each: OF_A_LOOP,
}];

#[test]
fn broken_files_go_and_others_stay(rt: HostRuntime) -> Result<(), Fail> {
    play(rt.alloc(), FILES)?;
    play(rt.alloc(), CHAINS)?;
    Ok(())
}

#[test]
fn parts_of_the_volume_are_repaired_or_beyond_it(rt: HostRuntime) -> Result<(), Fail> {
    play(rt.alloc(), PARTS)?;
    Ok(())
}

#[test]
fn directories_are_repaired(rt: HostRuntime) -> Result<(), Fail> {
    play(rt.alloc(), DIRECTORIES)?;
    play(rt.alloc(), LOOPS)?;
    Ok(())
}

/// Damaged volumes of which each write of the repair fails: A.TXT has no header with its sum; A.TXT and B.TXT share a cluster.
const STOPPED: &[Row<'static>] = &[Row {
    on: On::Fresh,
    first: WRITTEN,
    each: &[
        &[Step::Byte(28, 100, 1)],
        &[Step::Byte(29, 202, 100), Step::Sum(29)],
    ],
}];

// The image behind these steps.
fn behind(alloc: Global, image: &MemImage, steps: &[Step<'_>]) -> Result<MemImage, Wrong> {
    let mut image = image_of(alloc, image.all(), None)?;
    for step in steps {
        image = step.done(alloc, image)?;
    }
    Ok(image)
}

// Whether a repair comes to the write that fails. It is told then, and made again it leaves an accepted volume in which C.TXT is as it was.
fn is_stopped(alloc: Global, image: &MemImage, stop: Stop) -> Result<bool, Wrong> {
    let called = call(alloc, REPAIR, failing(alloc, image, stop)?, "")?;
    if called.code == 0 {
        return Ok(false);
    }
    check_answer(alloc, &called, Exchange::worded(REPAIR, 4, "image fault\n"))?;
    let again = after(alloc, called.image, REPAIR, "", 0, ("repaired: ", "\n"))?;
    let again = stays(alloc, again)?;
    after(
        alloc,
        again,
        RUN,
        "NODES 1\n1 OPEN 1 (14,1,0) CR\n1 READ 1 2\n1 LOOKUP R1 MFD C.TXT;0\n",
        0,
        (
            "1 N1 OPEN 1 (14,1,0) CR = open\n2 N1 READ 1 2 = 37000000000000000000000000000000 sum 55\n3 N1 LOOKUP R1 (4,4,0) C.TXT;0 = (14,1,0) C.TXT;1\n",
            "\n",
        ),
    )?;
    Ok(true)
}

// How many writes a repair has, at most 30, of which each fails, landing or not, and behind which it is made again.
fn stops(alloc: Global, image: &MemImage) -> Result<u64, Wrong> {
    for write in 1..31u64 {
        let stop = Stop {
            write,
            lands: false,
        };
        let lost = is_stopped(alloc, image, stop)?;
        let landed = is_stopped(
            alloc,
            image,
            Stop {
                lands: true,
                ..stop
            },
        )?;
        expect(alloc, lost == landed, "a write that fails, landing or not")?;
        if !lost {
            return Ok(write.saturating_sub(1));
        }
    }
    Ok(31)
}

// Each write of the repair of this row's volumes fails.
fn each_stops(alloc: Global, row: Row<'_>) -> Result<(), Wrong> {
    let image = row.begun(alloc)?;
    for each in row.each {
        let damaged = behind(alloc, &image, each)?;
        let writes = stops(alloc, &damaged)?;
        expect(alloc, writes > 2 && writes < 31, "the writes of a repair")?;
    }
    Ok(())
}

#[test]
fn each_write_of_a_repair_fails(rt: HostRuntime) -> Result<(), Fail> {
    for row in STOPPED {
        each_stops(rt.alloc(), *row)?;
    }
    Ok(())
}

// A repair of a volume in order writes nothing: the first write would fail.
#[test]
fn a_volume_in_order_is_not_repaired(rt: HostRuntime) -> Result<(), Fail> {
    let alloc = rt.alloc();
    let row = Row {
        on: On::Fresh,
        first: WRITTEN,
        each: &[],
    };
    let image = row.begun(alloc)?;
    let stop = Stop {
        write: 1,
        lands: true,
    };
    let wanted = Exchange::worded(REPAIR, 0, SOUND);
    let after = answered(alloc, failing(alloc, &image, stop)?, wanted)?;
    check_same(alloc, &after, image.all(), "a volume in order")?;
    Ok(())
}

/// A file in which something was written is lost, since the main directory cannot be read, and [SYSLOST] has no room for it: what was
/// written stays, and then a mending, a run and a repair are refused.
const NO_ROOM: &[Step<'static>] = &[
    Step::About(
        RUN,
        "NODES 1\n1 CREATE R1 MFD A.TXT;0 1 [1,4]\n1 OPEN 1 R1 PW\n1 WRITE 1 1 7\n1 CLOSE 1\n",
        0,
        "1 N1 CREATE R1 (4,4,0) A.TXT;0 1 [1,4] = (33,1,0) A.TXT;1\n",
        "\n",
    ),
    Step::Byte(71, 0, 0),
    Step::Finds("directory 4: BadRecord\n"),
    Step::Call(REPAIR, "", 12, "no room: no room for 33\n"),
    Step::Finds("no room for 33\n"),
    Step::Kept(REPAIR, "", 12, "no room: no room for 33\n"),
    Step::Kept(REBUILD, "", 5, "not mendable: no room for 33\n"),
    Step::Kept(RUN, "NODES 1\n", 5, "not accepted: no room for 33\n"),
];

const NO_ROOMS: &[Row<'static>] = &[Row {
    on: On::Small,
    first: CROWDED,
    each: &[NO_ROOM],
}];

#[test]
fn a_volume_without_room_is_told(rt: HostRuntime) -> Result<(), Fail> {
    play(rt.alloc(), NO_ROOMS)?;
    Ok(())
}
