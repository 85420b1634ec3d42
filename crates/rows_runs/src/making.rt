//! Files and directories are made: each report, and the image after it.

use rows_calls::{Lines, On, Row, Step, play};
use std::test::Fail;

/// Nobody has a command.
const NOTHING: &[Step<'static>] = &[
    Step::Made("NODES 8\n", "end: 0 answered, 0 died, 231 free\n"),
    Step::Changed(&[]),
];

/// The first free number is 12, whose header is LBN 28, and the first free cluster 25, whose first block is LBN 100. Written are
/// both bitmaps, the header, the first block of the main directory and that of the quota file.
const FILE: &str = "NODES 1\n1 CREATE R1 MFD A.TXT;0 10 [1,4]\n1 STAT R1\n";

const FILE_REPORT: &str = "1 N1 CREATE R1 (4,4,0) A.TXT;0 10 [1,4] = (12,1,0) A.TXT;1\n\
        2 N1 STAT (12,1,0) = file [1,4] 12 blocks mark 1 end 1,0\n\
        end: 2 answered, 0 died, 228 free\n";

const FILE_STEPS: &[Step<'static>] = &[
    Step::Made(FILE, FILE_REPORT),
    Step::Changed(&[16, 28, 85, 88, 96]),
    Step::Has(16, 1, b"\x0f\0"),
    Step::Has(28, 8, b"\x0c\0\x01\0\0\0"),
    Step::Has(28, 24, b"\0\0\x0c\0\0\0\x01\0\0\0"),
    Step::Has(28, 60, b"\x04\0\x01\0\0\0\x04\0\x04\0\0\0"),
    Step::Has(28, 76, b"\x01\0\0\0A.TXT;1 "),
    Step::Has(28, 200, b"\x0b\x40\x64\0\0\0"),
    Step::Has(85, 3, b"\xf0\xff"),
    Step::Has(
        88,
        24,
        b"\x12\0\xff\x7f\0\x05A.TXT\0\x01\0\x0c\0\x01\0\0\0\x16\0\xff\x7f\0\x0aBACKUP.SYS",
    ),
    Step::Has(
        96,
        32,
        b"\x01\0\0\0\x04\0\x01\0\x0d\0\0\0\x40\x04\0\0\0\0\0\0",
    ),
];

/// A directory of the longest name, one in it, and files in that.
const DIRECTORIES: &str = "NODES 1\n\
        1 MKDIR R1 MFD A123456789B123456789C123456789D12345678 [1,4]\n\
        1 MKDIR R1 MFD A123456789B123456789C123456789D12345678 [1,1]\n\
        1 MKDIR R2 R1 E [1,1]\n\
        1 CREATE R3 R2 .;0 5 [1,4]\n\
        1 CREATE R3 R2 F.G;7 4 [1,4]\n\
        1 CREATE R3 R2 F.G;0 0 [1,1]\n\
        1 LIST R2\n\
        1 LIST R1\n\
        1 STAT R2\n\
        1 CREATE R4 R3 H.I;1 0 [1,4]\n\
        1 MKDIR R4 (13,2,0) H [1,4]\n\
        1 CREATE R4 R8 H.I;1 0 [1,4]\n\
        1 CREATE R5 R1 F.DIR;2 0 [1,4]\n\
        1 MKDIR R6 R1 F [1,4]\n";

const DIRECTORIES_REPORT: &str =
    "1 N1 MKDIR R1 (4,4,0) A123456789B123456789C123456789D12345678 [1,4] = (12,1,0) A123456789B123456789C123456789D12345678.DIR;1\n\
        2 N1 MKDIR R1 (4,4,0) A123456789B123456789C123456789D12345678 [1,1] = refused DupFile\n\
        3 N1 MKDIR R2 (12,1,0) E [1,1] = (13,1,0) E.DIR;1\n\
        4 N1 CREATE R3 (13,1,0) .;0 5 [1,4] = (14,1,0) .;1\n\
        5 N1 CREATE R3 (13,1,0) F.G;7 4 [1,4] = (15,1,0) F.G;7\n\
        6 N1 CREATE R3 (13,1,0) F.G;0 0 [1,1] = (16,1,0) F.G;8\n\
        7 N1 LIST (13,1,0) = 3 entries .;1 (14,1,0) F.G;8 (16,1,0) F.G;7 (15,1,0)\n\
        8 N1 LIST (12,1,0) = 1 entries E.DIR;1 (13,1,0)\n\
        9 N1 STAT (13,1,0) = directory [1,1] 4 blocks mark 0 end 5,0\n\
        10 N1 CREATE R4 (16,1,0) H.I;1 0 [1,4] = refused NotDir\n\
        11 N1 MKDIR R4 (13,2,0) H [1,4] = refused NoSuchFile\n\
        12 N1 CREATE R4 (0,0,0) H.I;1 0 [1,4] = refused NoSuchFile\n\
        13 N1 CREATE R5 (12,1,0) F.DIR;2 0 [1,4] = (17,1,0) F.DIR;2\n\
        14 N1 MKDIR R6 (12,1,0) F [1,4] = refused DupFile\n\
        end: 14 answered, 0 died, 226 free\n";

/// The header has the first 20 bytes of the longest name, and zeros behind them; the rest stands further on.
const DIRECTORIES_STEPS: &[Step<'static>] = &[
    Step::Made(DIRECTORIES, DIRECTORIES_REPORT),
    Step::Has(
        28,
        80,
        b"A123456789B123456789\0\0\0\0\0\0\0\0\0\0\0\0\0\0\0\0\0\0\0\0\0\0\0\0\0\0\0\0\0\0\0\0\0\0",
    ),
    Step::Has(28, 134, b"C123456789D12345678.DIR;1  "),
];

/// The last version there is, an empty directory, and a file of too many blocks.
const REFUSALS: &[&[Step<'static>]] = &[
    &[Step::Made(
        "NODES 1\n1 CREATE R1 MFD A.TXT;32767 0 [1,4]\n1 CREATE R1 MFD A.TXT;0 0 [1,4]\n1 CREATE R1 MFD A.TXT;32767 0 [1,4]\n",
        "1 N1 CREATE R1 (4,4,0) A.TXT;32767 0 [1,4] = (12,1,0) A.TXT;32767\n\
        2 N1 CREATE R1 (4,4,0) A.TXT;0 0 [1,4] = refused BadVersion\n\
        3 N1 CREATE R1 (4,4,0) A.TXT;32767 0 [1,4] = refused DupFile\n\
        end: 3 answered, 0 died, 231 free\n",
    )],
    &[Step::Made(
        "NODES 1\n1 MKDIR R1 MFD D [1,4]\n1 LIST R1\n1 STAT R1\n1 CREATE R2 R1 A.B;0 0 [2,2]\n",
        "1 N1 MKDIR R1 (4,4,0) D [1,4] = (12,1,0) D.DIR;1\n\
        2 N1 LIST (12,1,0) = 0 entries\n\
        3 N1 STAT (12,1,0) = directory [1,4] 4 blocks mark 0 end 5,0\n\
        4 N1 CREATE R2 (12,1,0) A.B;0 0 [2,2] = refused NoQuota\n\
        end: 4 answered, 0 died, 230 free\n",
    )],
    &[Step::Made(
        "NODES 1\n1 CREATE R1 MFD A.TXT;0 309 [1,4]\n1 CREATE R1 MFD A.TXT;0 308 [1,4]\n1 CREATE R1 MFD INDEXF.SYS;1 65536 [1,4]\n",
        "1 N1 CREATE R1 (4,4,0) A.TXT;0 309 [1,4] = refused FileLimit\n\
        2 N1 CREATE R1 (4,4,0) A.TXT;0 308 [1,4] = (12,1,0) A.TXT;1\n\
        3 N1 CREATE R1 (4,4,0) INDEXF.SYS;1 65536 [1,4] = refused DupFile\n\
        end: 3 answered, 0 died, 154 free\n",
    )],
];

/// The sequence of a slot that was in use before, as it stands in the free slot of number 12.
const SEQUENCE: &str = "NODES 1\n1 CREATE R1 LOST A.TXT;0 0 [1,4]\n1 STAT R1\n";

/// It is 7 there.
const NEXT_REPORT: &str = "1 N1 CREATE R1 (11,1,0) A.TXT;0 0 [1,4] = (12,8,0) A.TXT;1\n\
        2 N1 STAT (12,8,0) = file [1,4] 0 blocks mark 1 end 1,0\n\
        end: 2 answered, 0 died, 231 free\n";

/// It is the last that there is.
const FIRST_REPORT: &str = "1 N1 CREATE R1 (11,1,0) A.TXT;0 0 [1,4] = (12,1,0) A.TXT;1\n\
        2 N1 STAT (12,1,0) = file [1,4] 0 blocks mark 1 end 1,0\n\
        end: 2 answered, 0 died, 231 free\n";

/// A file costs its blocks, rounded up to clusters, and one more. The last file but two would make 1,087 of 1,088, and the last
/// but one 1,091; no cluster is left for either.
const QUOTA: &str = "NODES 1\n\
        1 CREATE R1 MFD A.TXT;0 308 [1,1]\n\
        1 CREATE R1 MFD A.TXT;0 308 [1,1]\n\
        1 CREATE R1 MFD A.TXT;0 305 [1,1]\n\
        1 CREATE R1 MFD A.TXT;0 48 [1,1]\n\
        1 CREATE R1 MFD A.TXT;0 49 [1,1]\n\
        1 CREATE R1 MFD A.TXT;0 49 [1,4]\n";

const QUOTA_REPORT: &str = "1 N1 CREATE R1 (4,4,0) A.TXT;0 308 [1,1] = (12,1,0) A.TXT;1\n\
        2 N1 CREATE R1 (4,4,0) A.TXT;0 308 [1,1] = (13,1,0) A.TXT;2\n\
        3 N1 CREATE R1 (4,4,0) A.TXT;0 305 [1,1] = (14,1,0) A.TXT;3\n\
        4 N1 CREATE R1 (4,4,0) A.TXT;0 48 [1,1] = refused DeviceFull\n\
        5 N1 CREATE R1 (4,4,0) A.TXT;0 49 [1,1] = refused ExQuota\n\
        6 N1 CREATE R1 (4,4,0) A.TXT;0 49 [1,4] = refused DeviceFull\n\
        end: 6 answered, 0 died, 0 free\n";

/// What one owner is refused, another one is granted, up to its last block.
///
/// The quota of [1,4] is 13 here, and its overdraft 200, which a new file may not use. The first row of the second quota block is
/// that of [2,2], who may use 5.
const OWNERS: &str = "NODES 2\n\
        SCHED 1*50\n\
        1 CREATE R1 MFD A.TXT;0 12 [1,4]\n\
        2 CREATE R2 MFD B.TXT;0 0 [1,4]\n\
        2 CREATE R2 MFD B.TXT;0 0 [1,1]\n\
        2 MKDIR R3 MFD D [1,4]\n\
        2 MKDIR R3 MFD D [2,2]\n\
        2 CREATE R4 R3 C.TXT;0 0 [2,2]\n";

const OWNERS_REPORT: &str = "1 N1 CREATE R1 (4,4,0) A.TXT;0 12 [1,4] = (12,1,0) A.TXT;1\n\
        2 N2 CREATE R2 (4,4,0) B.TXT;0 0 [1,4] = refused ExQuota\n\
        3 N2 CREATE R2 (4,4,0) B.TXT;0 0 [1,1] = (13,1,0) B.TXT;1\n\
        4 N2 MKDIR R3 (4,4,0) D [1,4] = refused ExQuota\n\
        5 N2 MKDIR R3 (4,4,0) D [2,2] = (14,1,0) D.DIR;1\n\
        6 N2 CREATE R4 (14,1,0) C.TXT;0 0 [2,2] = refused ExQuota\n\
        end: 6 answered, 0 died, 227 free\n";

const OWNERS_STEPS: &[Step<'static>] = &[
    Step::Byte(96, 44, 13),
    Step::Byte(96, 45, 0),
    Step::Byte(96, 48, 200),
    Step::Byte(97, 0, 1),
    Step::Byte(97, 4, 2),
    Step::Byte(97, 6, 2),
    Step::Byte(97, 12, 5),
    Step::Made(OWNERS, OWNERS_REPORT),
    Step::Has(97, 0, b"\x01\0\0\0\x02\0\x02\0\x05\0\0\0\x05\0"),
];

const FULL_DEVICE: &str = "NODES 1\n\
        1 CREATE R1 MFD A.B;0 23 [1,4]\n\
        1 CREATE R1 MFD A.B;0 20 [1,4]\n\
        1 CREATE R1 MFD A.B;0 3 [1,4]\n\
        1 CREATE R1 MFD A.B;0 2 [1,4]\n\
        1 CREATE R1 MFD A.B;0 1 [1,4]\n\
        1 MKDIR R2 MFD D [1,4]\n\
        1 CREATE R1 MFD A.B;0 0 [1,4]\n";

const FULL_DEVICE_REPORT: &str = "1 N1 CREATE R1 (4,4,0) A.B;0 23 [1,4] = refused DeviceFull\n\
        2 N1 CREATE R1 (4,4,0) A.B;0 20 [1,4] = (12,1,0) A.B;1\n\
        3 N1 CREATE R1 (4,4,0) A.B;0 3 [1,4] = refused DeviceFull\n\
        4 N1 CREATE R1 (4,4,0) A.B;0 2 [1,4] = (13,1,0) A.B;2\n\
        5 N1 CREATE R1 (4,4,0) A.B;0 1 [1,4] = refused DeviceFull\n\
        6 N1 MKDIR R2 (4,4,0) D [1,4] = refused DeviceFull\n\
        7 N1 CREATE R1 (4,4,0) A.B;0 0 [1,4] = (14,1,0) A.B;3\n\
        end: 7 answered, 0 died, 0 free\n";

/// The first file takes all clusters, and 21 numbers are in use then. What is wanted then is a number first.
const FULL_INDEX: &[Lines<'static>] = &[
    Lines {
        from: 1,
        to: 1,
        more: 0,
        script: "1 CREATE R2 MFD A.B;0 22 [1,4]\n",
        report: "%l N1 CREATE R2 (4,4,0) A.B;0 22 [1,4] = (12,1,0) A.B;1\n",
    },
    Lines {
        from: 2,
        to: 21,
        more: 11,
        script: "1 CREATE R2 MFD A.B;0 0 [1,4]\n",
        report: "%l N1 CREATE R2 (4,4,0) A.B;0 0 [1,4] = (%n,1,0) A.B;%k\n",
    },
    Lines {
        from: 1,
        to: 1,
        more: 0,
        script: "1 CREATE R2 MFD A.B;0 1 [1,4]\n",
        report: "%l N1 CREATE R2 (4,4,0) A.B;0 1 [1,4] = refused IndexFull\n",
    },
    Lines {
        from: 1,
        to: 1,
        more: 0,
        script: "1 MKDIR R2 MFD D [1,1]\n",
        report: "%l N1 MKDIR R2 (4,4,0) D [1,1] = refused IndexFull\n",
    },
];

/// Five entries of the long names fill a block but for 40 bytes, and the directory has four: it takes 20 of them, and a short one behind
/// them.
const FULL_DIRECTORY: &[Lines<'static>] = &[
    Lines {
        from: 1,
        to: 1,
        more: 0,
        script: "1 MKDIR R1 MFD D [1,4]\n",
        report: "%l N1 MKDIR R1 (4,4,0) D [1,4] = (12,1,0) D.DIR;1\n",
    },
    Lines {
        from: 1,
        to: 20,
        more: 12,
        script: "1 CREATE R2 R1 %2XXXXXXXXXXXXXXXXXXXXXXXXXXXXXXXXXXXXX.YYYYYYYYYYYYYYYYYYYYYYYYYYYYYYYYYYYYYYY;0 0 [1,4]\n",
        report: "%l N1 CREATE R2 (12,1,0) %2XXXXXXXXXXXXXXXXXXXXXXXXXXXXXXXXXXXXX.YYYYYYYYYYYYYYYYYYYYYYYYYYYYYYYYYYYYYYY;0 0 [1,4] = (%n,1,0) %2XXXXXXXXXXXXXXXXXXXXXXXXXXXXXXXXXXXXX.YYYYYYYYYYYYYYYYYYYYYYYYYYYYYYYYYYYYYYY;1\n",
    },
    Lines {
        from: 21,
        to: 21,
        more: 0,
        script: "1 CREATE R2 R1 %2XXXXXXXXXXXXXXXXXXXXXXXXXXXXXXXXXXXXX.YYYYYYYYYYYYYYYYYYYYYYYYYYYYYYYYYYYYYYY;0 0 [1,4]\n",
        report: "%l N1 CREATE R2 (12,1,0) %2XXXXXXXXXXXXXXXXXXXXXXXXXXXXXXXXXXXXX.YYYYYYYYYYYYYYYYYYYYYYYYYYYYYYYYYYYYYYY;0 0 [1,4] = refused DirFull\n",
    },
    Lines {
        from: 1,
        to: 1,
        more: 0,
        script: "1 CREATE R2 R1 A.B;0 0 [1,4]\n",
        report: "%l N1 CREATE R2 (12,1,0) A.B;0 0 [1,4] = (33,1,0) A.B;1\n",
    },
];

/// A volume of 8,192 clusters, whose storage bitmap is LBN 134 and 135. The first free cluster is 139, which the directory takes;
/// file 52 of those in it, of number 64, has clusters 4,067 to 4,143, and they are one run.
const MANY_BLOCKS: &[Lines<'static>] = &[
    Lines {
        from: 1,
        to: 1,
        more: 0,
        script: "1 MKDIR R1 MFD D [1,4]\n",
        report: "%l N1 MKDIR R1 (4,4,0) D [1,4] = (12,1,0) D.DIR;1\n",
    },
    Lines {
        from: 1,
        to: 52,
        more: 12,
        script: "1 CREATE R2 R1 A.B;0 77 [1,4]\n",
        report: "%l N1 CREATE R2 (12,1,0) A.B;0 77 [1,4] = (%n,1,0) A.B;%k\n",
    },
];

/// The directory (12,1,0) has blocks that are not packed, and its A.TXT a limit of 5 and a flag. Of the clusters 25 to 27 the second
/// is free alone.
///
/// A new file has the lowest free clusters in two runs, and the directory is packed. A new version has its name's limit and flag.
const SCATTERED: &str = "NODES 1\n\
        1 CREATE R1 (12,1,0) C.TXT;0 12 [1,1]\n\
        1 CREATE R1 (12,1,0) A.TXT;0 0 [1,4]\n\
        1 LIST (12,1,0)\n";

const SCATTERED_REPORT: &str = "1 N1 CREATE R1 (12,1,0) C.TXT;0 12 [1,1] = (16,1,0) C.TXT;1\n\
        2 N1 CREATE R1 (12,1,0) A.TXT;0 0 [1,4] = (17,1,0) A.TXT;3\n\
        3 N1 LIST (12,1,0) = 5 entries A.TXT;3 (17,1,0) A.TXT;2 (13,1,0) A.TXT;1 (14,1,0) B.DAT;1 (15,2,0) C.TXT;1 (16,1,0)\n\
        end: 3 answered, 0 died, 226 free\n";

const SCATTERED_STEPS: &[Step<'static>] = &[
    Step::Byte(100, 2, 5),
    Step::Byte(100, 3, 0),
    Step::Byte(100, 4, 1),
    Step::Made(SCATTERED, SCATTERED_REPORT),
    Step::Has(32, 200, b"\x03\x40\x68\0\x07\x40\x70\0\0\0"),
    Step::Has(
        100,
        0,
        b"\x22\0\x05\0\x01\x05A.TXT\0\x03\0\x11\0\x01\0\0\0\x02\0\x0d\0\x01\0\0\0\x01\0\x0e\0\x01\0\0\0",
    ),
    Step::Has(
        100,
        36,
        b"\x12\0\xff\x7f\0\x05B.DAT\0\x01\0\x0f\0\x02\0\0\0\x12\0\xff\x7f\0\x05C.TXT\0\x01\0\x10\0\x01\0\0\0\xff\xff\0",
    ),
    Step::Has(101, 0, b"\xff\xff\0\0\0\0\0\0\0\0\0\0\0\0\0\0\0\0\0\0\0\0"),
];

const ON_FRESH: Row<'static> = Row {
    on: On::Fresh,
    first: &[],
    each: &[
        NOTHING,
        FILE_STEPS,
        DIRECTORIES_STEPS,
        &[Step::Byte(28, 10, 7), Step::Made(SEQUENCE, NEXT_REPORT)],
        &[
            Step::Byte(28, 10, 255),
            Step::Byte(28, 11, 255),
            Step::Made(SEQUENCE, FIRST_REPORT),
        ],
        &[Step::Made(QUOTA, QUOTA_REPORT)],
        OWNERS_STEPS,
        &[
            Step::Lines(
                "NODES 1\n",
                FULL_DIRECTORY,
                "end: 23 answered, 0 died, 230 free\n",
            ),
            Step::Finds("accepted\n"),
        ],
    ],
};

const ROWS: &[Row<'static>] = &[
    ON_FRESH,
    Row {
        on: On::Fresh,
        first: &[],
        each: REFUSALS,
    },
    Row {
        on: On::Tiny,
        first: &[],
        each: &[
            &[Step::Made(FULL_DEVICE, FULL_DEVICE_REPORT)],
            &[
                Step::Lines(
                    "NODES 1\n",
                    FULL_INDEX,
                    "end: 23 answered, 0 died, 0 free\n",
                ),
                Step::Finds("accepted\n"),
            ],
        ],
    },
    Row {
        on: On::Wide,
        first: &[
            Step::Lines(
                "NODES 1\n",
                MANY_BLOCKS,
                "end: 53 answered, 0 died, 4048 free\n",
            ),
            Step::Finds("accepted\n"),
            Step::Has(68, 200, b"\x4c\x40\xe3\x0f\0\0"),
            Step::Has(134, 0, &[0; 512]),
            Step::Has(135, 0, b"\0\0\0\0\0\0\xff\xff"),
        ],
        each: &[],
    },
    Row {
        on: On::Tree(108, 0xf4),
        first: SCATTERED_STEPS,
        each: &[],
    },
];

#[test]
fn files_and_directories_are_made(rt: HostRuntime) -> Result<(), Fail> {
    play(rt.alloc(), ROWS)?;
    Ok(())
}
