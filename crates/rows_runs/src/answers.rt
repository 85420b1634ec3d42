//! What calls answer: the examples, look-ups, bad scripts, formats, sizes and noise.

use rows_calls::{Lines, On, Row, Step, play};
use std::test::Fail;

const RUN: &[&str] = &["run"];

const ANALYZE: &[&str] = &["analyze"];

const MAKING: &str =
    "# Two nodes make a directory and files in it, and list them. Node 1 has the first turns, in which it makes the directory.\n\
    NODES 2\n\
    SCHED 1*29\n\
    1 MKDIR R1 MFD NOTES [1,4]\n\
    1 CREATE R2 R1 PLAN.TXT;0 3 [1,4]\n\
    1 CREATE R2 R1 PLAN.TXT;0 3 [1,4]\n\
    1 LIST R1\n\
    2 LOOKUP R1 MFD NOTES.DIR;0\n\
    2 CREATE R2 R1 TASK.TXT;0 10 [1,1]\n\
    2 STAT R2\n\
    2 LIST R1\n\
    2 CREATE R3 R1 TASK.TXT;1 0 [1,4]\n";

const MAKING_REPORT: &str = "1 N1 MKDIR R1 (4,4,0) NOTES [1,4] = (12,1,0) NOTES.DIR;1\n\
    2 N2 LOOKUP R1 (4,4,0) NOTES.DIR;0 = (12,1,0) NOTES.DIR;1\n\
    3 N1 CREATE R2 (12,1,0) PLAN.TXT;0 3 [1,4] = (13,1,0) PLAN.TXT;1\n\
    4 N2 CREATE R2 (12,1,0) TASK.TXT;0 10 [1,1] = (21,1,0) TASK.TXT;1\n\
    5 N2 STAT (21,1,0) = file [1,1] 12 blocks mark 1 end 1,0\n\
    6 N1 CREATE R2 (12,1,0) PLAN.TXT;0 3 [1,4] = (14,1,0) PLAN.TXT;2\n\
    7 N2 LIST (12,1,0) = 3 entries PLAN.TXT;2 (14,1,0) PLAN.TXT;1 (13,1,0) TASK.TXT;1 (21,1,0)\n\
    8 N1 LIST (12,1,0) = 3 entries PLAN.TXT;2 (14,1,0) PLAN.TXT;1 (13,1,0) TASK.TXT;1 (21,1,0)\n\
    9 N2 CREATE R3 (12,1,0) TASK.TXT;1 0 [1,4] = refused DupFile\n\
    end: 9 answered, 0 died, 225 free\n";

const LOOKING_BACK: &str = "# One node looks at what the script `making` has left.\n\
    NODES 1\n\
    1 LOOKUP R1 MFD NOTES.DIR;0\n\
    1 LIST R1\n\
    1 LOOKUP R2 R1 PLAN.TXT;1\n\
    1 STAT R2\n";

const LOOKING_BACK_REPORT: &str = "1 N1 LOOKUP R1 (4,4,0) NOTES.DIR;0 = (12,1,0) NOTES.DIR;1\n\
    2 N1 LIST (12,1,0) = 3 entries PLAN.TXT;2 (14,1,0) PLAN.TXT;1 (13,1,0) TASK.TXT;1 (21,1,0)\n\
    3 N1 LOOKUP R2 (12,1,0) PLAN.TXT;1 = (13,1,0) PLAN.TXT;1\n\
    4 N1 STAT (13,1,0) = file [1,4] 4 blocks mark 1 end 1,0\n\
    end: 4 answered, 0 died, 225 free\n";

/// The scripts and reports of the folder examples/. The last script is run on the volume that the one before it leaves.
const EXAMPLES: &[Step<'static>] = &[
    Step::Call(
        RUN,
        "NODES 1\n1 LOOKUP R1 MFD INDEXF.SYS;1\n",
        0,
        "1 N1 LOOKUP R1 (4,4,0) INDEXF.SYS;1 = (1,1,0) INDEXF.SYS;1\nend: 1 answered, 0 died, 231 free\n",
    ),
    Step::Call(
        RUN,
        "NODES 1\n1 LOOKUP R1 MFD INDEXF.SYS;2\n",
        0,
        "1 N1 LOOKUP R1 (4,4,0) INDEXF.SYS;2 = refused NoSuchFile\nend: 1 answered, 0 died, 231 free\n",
    ),
    Step::Call(
        RUN,
        "# Two nodes look into the main directory.\nNODES 2\nSCHED 2 1*2 2\n\n2 LOOKUP R1 MFD INDEXF.SYS;1\n1 LOOKUP R1 MFD 000000.DIR;0\n1 LOOKUP R2 (4,4,0) INDEXF.SYS;0\n2 LOOKUP R8 MFD ABSENT.X;3\n",
        0,
        "1 N1 LOOKUP R1 (4,4,0) 000000.DIR;0 = (4,4,0) 000000.DIR;1\n2 N2 LOOKUP R1 (4,4,0) INDEXF.SYS;1 = (1,1,0) INDEXF.SYS;1\n3 N1 LOOKUP R2 (4,4,0) INDEXF.SYS;0 = (1,1,0) INDEXF.SYS;1\n4 N2 LOOKUP R8 (4,4,0) ABSENT.X;3 = refused NoSuchFile\nend: 4 answered, 0 died, 231 free\n",
    ),
    Step::Call(
        RUN,
        "# Two nodes look at files and directories by registers. Node 2 has the first turns.\nNODES 2\nSCHED 2*12\n1 LOOKUP R1 MFD SYSLOST.DIR;0\n1 LIST R1\n1 STAT R1\n2 STAT MFD\n2 LOOKUP R8 MFD QUOTA.SYS;1\n2 STAT R8\n",
        0,
        "1 N2 STAT (4,4,0) = directory [1,1] 4 blocks mark 0 end 5,0\n2 N2 LOOKUP R8 (4,4,0) QUOTA.SYS;1 = (10,1,0) QUOTA.SYS;1\n3 N2 STAT (10,1,0) = file [1,1] 4 blocks mark 0 end 5,0\n4 N1 LOOKUP R1 (4,4,0) SYSLOST.DIR;0 = (11,1,0) SYSLOST.DIR;1\n5 N1 LIST (11,1,0) = 0 entries\n6 N1 STAT (11,1,0) = directory [1,1] 4 blocks mark 0 end 5,0\nend: 6 answered, 0 died, 231 free\n",
    ),
    Step::Made(MAKING, MAKING_REPORT),
    Step::Made(LOOKING_BACK, LOOKING_BACK_REPORT),
];

const LOOK_UPS: &[Step<'static>] = &[
    Step::Call(
        RUN,
        "NODES 1\n1 LOOKUP R1 MFD QUOTA.SYS;0",
        0,
        "1 N1 LOOKUP R1 (4,4,0) QUOTA.SYS;0 = (10,1,0) QUOTA.SYS;1\nend: 1 answered, 0 died, 231 free\n",
    ),
    Step::Call(RUN, "NODES 8\n", 0, "end: 0 answered, 0 died, 231 free\n"),
    Step::Call(RUN, "", 3, "bad line 1\n"),
    Step::Call(RUN, "# nothing\n", 3, "bad line 2\n"),
    Step::Call(RUN, "NODES 9\n", 3, "bad line 1\n"),
    Step::Call(RUN, "NODES 1\n\n1 LOOKUP R9 MFD A.B;1\n", 3, "bad line 3\n"),
    Step::Call(RUN, "NODES 1\n2 LOOKUP R1 MFD A.B;1\n", 3, "bad line 2\n"),
    Step::Call(RUN, "NODES 1\n1 LOOKUP R1 MFD A.B;01\n", 3, "bad line 2\n"),
    Step::Call(RUN, "NODES 1\n1 CREATE R1 MFD\n", 3, "bad line 2\n"),
    Step::Call(
        RUN,
        "NODES 1\n1 OPEN 1 R1 CR\n",
        0,
        "1 N1 OPEN 1 (0,0,0) CR = refused NoSuchFile\nend: 1 answered, 0 died, 231 free\n",
    ),
    Step::Call(RUN, "NODES 1\n1 LIST R9\n", 3, "bad line 2\n"),
    Step::Call(
        RUN,
        "NODES 1\nKILL 1 TURN 1\n",
        0,
        "1 N1 died at idle, leaked 0 clusters, 0 numbers\nend: 0 answered, 1 died, 231 free\n",
    ),
    Step::Call(
        RUN,
        "NODES 1\nKILL 1 TURN 1\nKILL 1 WRITE 1\n",
        3,
        "bad line 3\n",
    ),
    Step::Call(RUN, "NODES 1\nSCHED 1*65536 1\nbad\n", 3, "too many\n"),
    Step::Call(RUN, "NODES 1\nbad\nSCHED 1*65536 1\n", 3, "bad line 2\n"),
];

/// Two findings that are not fatal, and then a fatal one beside them.
const FINDINGS: &[Step<'static>] = &[
    Step::Byte(96, 8, 0x70),
    Step::Byte(85, 4, 0xfe),
    Step::Finds("leaked clusters 1\nusage of [1,1]: has 112, should be 111\n"),
    Step::Byte(16, 0, 0xfe),
    Step::Byte(88, 0, 0),
    Step::Finds("directory 4: BadRecord\n"),
];

/// Scripts without an end: so many commands, and so many lines.
const MANY: &[Lines<'static>] = &[Lines {
    from: 1,
    to: 4097,
    more: 0,
    script: "1 LOOKUP R1 MFD A.B;0\n",
    report: "",
}];

const LONG: &[Lines<'static>] = &[Lines {
    from: 1,
    to: 65_537,
    more: 0,
    script: "# an empty line\n",
    report: "",
}];

const ENDLESS: &[Step<'static>] = &[
    Step::AboutLines("NODES 1\n", MANY, 3, "too many\n", ""),
    Step::AboutLines("NODES 1\n", LONG, 2, "script too long\n", ""),
];

const ROWS: &[Row<'static>] = &[
    Row {
        on: On::Fresh,
        first: &[Step::Finds("accepted\n")],
        each: &[EXAMPLES, LOOK_UPS, FINDINGS, ENDLESS],
    },
    Row {
        on: On::Zeros(65_536),
        first: &[
            Step::Call(
                &["init", "16", "4096", "BIG"],
                "",
                0,
                "volume BIG: 65536 blocks, 3831 free clusters, 4085 free numbers\n",
            ),
            Step::Finds("accepted\n"),
        ],
        each: &[],
    },
];

#[test]
fn scripts_are_answered(rt: HostRuntime) -> Result<(), Fail> {
    play(rt.alloc(), ROWS)?;
    Ok(())
}

/// Formats of zero blocks.
const FORMATS: &[Row<'static>] = &[
    Row {
        on: On::Zeros(1024),
        first: &[],
        each: &[&[Step::Call(
            &["init", "4", "64", "KVOL"],
            "",
            0,
            "volume KVOL: 1024 blocks, 231 free clusters, 53 free numbers\n",
        )]],
    },
    Row {
        on: On::Zeros(64),
        first: &[],
        each: &[
            &[Step::Call(
                &["init", "001", "00032", "TINY"],
                "",
                0,
                "volume TINY: 64 blocks, 22 free clusters, 21 free numbers\n",
            )],
            &[Step::Call(&["init", "16", "32", "TINY"], "", 9, "too small\n")],
            &[Step::Call(&["init", "17", "32", "TINY"], "", 9, "bad cluster\n")],
            &[Step::Call(&["init", "0", "31", "TINY"], "", 9, "bad cluster\n")],
            &[Step::Call(&["init", "1", "31", "TINY"], "", 9, "bad files\n")],
            &[Step::Call(&["init", "1", "32", "ABCDEFGHIJKLM"], "", 9, "bad label\n")],
            &[Step::Call(&["init", "1", "32", "tiny"], "", 9, "bad label\n")],
            &[Step::Call(&["init", "000001", "32", "TINY"], "", 1, "bad words\n")],
            &[Step::Call(&["init", "1", "x", "TINY"], "", 1, "bad words\n")],
            &[Step::Call(&["make", "1", "32", "TINY"], "", 1, "bad words\n")],
        ],
    },
    Row {
        on: On::Zeros(63),
        first: &[],
        each: &[&[Step::Call(&["init", "1", "32", "TINY"], "", 4, "bad size 63\n")]],
    },
];

/// Sizes that are none, zeros and noise.
const SIZES: &[Row<'static>] = &[
    Row {
        on: On::Noise(10_000),
        first: &[Step::Finds("home: BadFormat\n")],
        each: &[],
    },
    Row {
        on: On::Zeros(63),
        first: &[
            Step::Call(ANALYZE, "", 4, "bad size 63\n"),
            Step::Call(RUN, "NODES 1\n", 4, "bad size 63\n"),
        ],
        each: &[],
    },
    Row {
        on: On::Zeros(64),
        first: &[Step::Finds("home: BadFormat\n")],
        each: &[],
    },
    Row {
        on: On::Zeros(65_537),
        first: &[Step::Call(ANALYZE, "", 4, "bad size 65537\n")],
        each: &[],
    },
];

#[test]
fn sizes_are_formatted_or_refused(rt: HostRuntime) -> Result<(), Fail> {
    play(rt.alloc(), FORMATS)?;
    play(rt.alloc(), SIZES)?;
    Ok(())
}
