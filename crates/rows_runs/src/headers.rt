//! Files of several headers grow, are read, are cut and go: each report.

use rows_calls::{Lines, On, Row, Step, play};
use std::test::Fail;

/// A file of one header gets a second one and loses it again. CREATE makes no second one, and EXTEND one at most.
const SECOND: &[Step<'static>] = &[Step::Made(
    "NODES 1\n\
     1 CREATE R1 MFD A.TXT;0 308 [1,4]\n\
     1 EXTEND R1 1\n\
     1 TRUNC R1 304\n\
     1 EXTEND R1 4\n\
     1 CREATE R2 MFD B.TXT;0 309 [1,4]\n\
     1 EXTEND R1 309\n",
    "1 N1 CREATE R1 (4,4,0) A.TXT;0 308 [1,4] = (12,1,0) A.TXT;1\n\
     2 N1 EXTEND (12,1,0) 1 = 312 blocks\n\
     3 N1 TRUNC (12,1,0) 304 = 304 blocks\n\
     4 N1 EXTEND (12,1,0) 4 = 308 blocks\n\
     5 N1 CREATE R2 (4,4,0) B.TXT;0 309 [1,4] = refused FileLimit\n\
     6 N1 EXTEND (12,1,0) 309 = refused FileLimit\n\
     end: 6 answered, 0 died, 154 free\n",
)];

/// Number 13, LBN 29, was a file's once. As the number of a header it keeps that sequence, and no identifier names a file by it, also while
/// a node extends the file and others wait for the header. The next file of the number has one more.
const SEQUENCES: &[Step<'static>] = &[
    Step::Made(
        "NODES 1\n\
         1 CREATE R1 MFD A.TXT;0 308 [1,4]\n\
         1 CREATE R2 MFD B.TXT;0 0 [1,4]\n\
         1 DELETE MFD B.TXT;0\n",
        "1 N1 CREATE R1 (4,4,0) A.TXT;0 308 [1,4] = (12,1,0) A.TXT;1\n\
         2 N1 CREATE R2 (4,4,0) B.TXT;0 0 [1,4] = (13,1,0) B.TXT;1\n\
         3 N1 DELETE (4,4,0) B.TXT;0 = deleted\n\
         end: 3 answered, 0 died, 154 free\n",
    ),
    Step::Made(
        "NODES 1\n1 EXTEND (12,1,0) 4\n1 STAT (13,1,0)\n1 DELETE (13,1,0) A.TXT;0\n",
        "1 N1 EXTEND (12,1,0) 4 = 312 blocks\n\
         2 N1 STAT (13,1,0) = refused NoSuchFile\n\
         3 N1 DELETE (13,1,0) A.TXT;0 = refused NoSuchFile\n\
         end: 3 answered, 0 died, 153 free\n",
    ),
    Step::Has(28, 14, b"\x0d\0\x01\0\0\0"),
    Step::Has(28, 24, b"\0\0\x38\x01"),
    Step::Has(29, 4, b"\x01\0\x01\x02\x0d\0\x01\0\0\0\0\0\0\0\0\0"),
    Step::Has(29, 24, b"\0\0\0\0\0\0\0\0\0\0"),
    Step::Has(29, 58, b"\x02\0\x04\0\x01\0\0\0\x0c\0\x01\0\0\0"),
    Step::Made(
        "NODES 3\n\
         SCHED 1*4 2*2 3*2\n\
         1 EXTEND (12,1,0) 4\n\
         2 STAT (13,1,0)\n\
         3 DELETE (13,1,0) A.TXT;0\n",
        "1 N1 EXTEND (12,1,0) 4 = 316 blocks\n\
         2 N2 STAT (13,1,0) = refused NoSuchFile\n\
         3 N3 DELETE (13,1,0) A.TXT;0 = refused NoSuchFile\n\
         end: 3 answered, 0 died, 152 free\n",
    ),
    Step::Made(
        "NODES 1\n\
         1 TRUNC (12,1,0) 308\n\
         1 CREATE R1 MFD C.TXT;0 0 [1,4]\n\
         1 STAT R1\n\
         1 QUOTASHOW [1,4]\n",
        "1 N1 TRUNC (12,1,0) 308 = 308 blocks\n\
         2 N1 CREATE R1 (4,4,0) C.TXT;0 0 [1,4] = (13,2,0) C.TXT;1\n\
         3 N1 STAT (13,2,0) = file [1,4] 0 blocks mark 1 end 1,0\n\
         4 N1 QUOTASHOW [1,4] = usage 310 quota 1088 overdraft 0\n\
         end: 4 answered, 0 died, 154 free\n",
    ),
];

/// Eight nodes extend one file in turn. Nodes 4 and 7 make a header.
const SHARED: &[Step<'static>] = &[
    Step::Made(
        "NODES 1\n1 CREATE R1 MFD A.TXT;0 4 [1,4]\n",
        "1 N1 CREATE R1 (4,4,0) A.TXT;0 4 [1,4] = (12,1,0) A.TXT;1\nend: 1 answered, 0 died, 230 free\n",
    ),
    Step::Made(
        "NODES 8\n\
         1 EXTEND (12,1,0) 100\n2 EXTEND (12,1,0) 100\n3 EXTEND (12,1,0) 100\n4 EXTEND (12,1,0) 100\n\
         5 EXTEND (12,1,0) 100\n6 EXTEND (12,1,0) 100\n7 EXTEND (12,1,0) 100\n8 EXTEND (12,1,0) 100\n",
        "1 N1 EXTEND (12,1,0) 100 = 104 blocks\n\
         2 N2 EXTEND (12,1,0) 100 = 204 blocks\n\
         3 N3 EXTEND (12,1,0) 100 = 304 blocks\n\
         4 N4 EXTEND (12,1,0) 100 = 404 blocks\n\
         5 N5 EXTEND (12,1,0) 100 = 504 blocks\n\
         6 N6 EXTEND (12,1,0) 100 = 604 blocks\n\
         7 N7 EXTEND (12,1,0) 100 = 704 blocks\n\
         8 N8 EXTEND (12,1,0) 100 = 804 blocks\n\
         end: 8 answered, 0 died, 30 free\n",
    ),
];

/// A volume of 2,048 clusters of one block. Header n is LBN 4 + n.
const BIG: Step<'static> = Step::Call(
    &["init", "1", "64", "BIG"],
    "",
    0,
    "volume BIG: 2048 blocks, 1974 free clusters, 53 free numbers\n",
);

/// A file gets sixteen full headers, and no more. All that it had is free again once it goes.
const LARGEST: &[Step<'static>] = &[Step::Made(
    "NODES 1\n\
     1 CREATE R1 MFD A.TXT;0 77 [1,4]\n\
     1 EXTEND R1 77\n1 EXTEND R1 77\n1 EXTEND R1 77\n1 EXTEND R1 77\n1 EXTEND R1 77\n\
     1 EXTEND R1 77\n1 EXTEND R1 77\n1 EXTEND R1 77\n1 EXTEND R1 77\n1 EXTEND R1 77\n\
     1 EXTEND R1 77\n1 EXTEND R1 77\n1 EXTEND R1 77\n1 EXTEND R1 77\n1 EXTEND R1 77\n\
     1 EXTEND R1 1\n\
     1 DELETE MFD A.TXT;0\n",
    "1 N1 CREATE R1 (4,4,0) A.TXT;0 77 [1,4] = (12,1,0) A.TXT;1\n\
     2 N1 EXTEND (12,1,0) 77 = 154 blocks\n\
     3 N1 EXTEND (12,1,0) 77 = 231 blocks\n\
     4 N1 EXTEND (12,1,0) 77 = 308 blocks\n\
     5 N1 EXTEND (12,1,0) 77 = 385 blocks\n\
     6 N1 EXTEND (12,1,0) 77 = 462 blocks\n\
     7 N1 EXTEND (12,1,0) 77 = 539 blocks\n\
     8 N1 EXTEND (12,1,0) 77 = 616 blocks\n\
     9 N1 EXTEND (12,1,0) 77 = 693 blocks\n\
     10 N1 EXTEND (12,1,0) 77 = 770 blocks\n\
     11 N1 EXTEND (12,1,0) 77 = 847 blocks\n\
     12 N1 EXTEND (12,1,0) 77 = 924 blocks\n\
     13 N1 EXTEND (12,1,0) 77 = 1001 blocks\n\
     14 N1 EXTEND (12,1,0) 77 = 1078 blocks\n\
     15 N1 EXTEND (12,1,0) 77 = 1155 blocks\n\
     16 N1 EXTEND (12,1,0) 77 = 1232 blocks\n\
     17 N1 EXTEND (12,1,0) 1 = refused FileLimit\n\
     18 N1 DELETE (4,4,0) A.TXT;0 = deleted\n\
     end: 18 answered, 0 died, 1974 free\n",
)];

/// The same file, its first and its last header, and its last header's blocks: they are above the mark until the last one is written.
const READ: &[Step<'static>] = &[
    Step::AboutLines(
        "NODES 1\n1 CREATE R1 MFD A.TXT;0 77 [1,4]\n",
        &[Lines {
            from: 1,
            to: 15,
            more: 0,
            script: "1 EXTEND R1 77\n",
            report: "",
        }],
        0,
        "",
        "\nend: 16 answered, 0 died, 742 free\n",
    ),
    Step::Has(16, 14, b"\x0d\0\0\0\0\0"),
    Step::Has(16, 24, b"\0\0\xd0\x04"),
    Step::Has(31, 4, b"\x0f\0\x01\x02\x1b\0\0\0\0\0\0\0\0\0\0\0"),
    Step::Made(
        "NODES 1\n\
         1 OPEN 1 (12,1,0) PW\n\
         1 READ 1 1156\n\
         1 READ 1 1232\n\
         1 WRITE 1 1232 END\n\
         1 READ 1 1232\n\
         1 READ 1 1231\n\
         1 READ 1 1233\n\
         1 STAT (12,1,0)\n\
         1 TRUNC (12,1,0) 100\n\
         1 READ 1 100\n\
         1 READ 1 101\n",
        "1 N1 OPEN 1 (12,1,0) PW = open\n\
         2 N1 READ 1 1156 = 00000000000000000000000000000000 sum 0\n\
         3 N1 READ 1 1232 = 00000000000000000000000000000000 sum 0\n\
         4 N1 WRITE 1 1232 END = written\n\
         5 N1 READ 1 1232 = 454e4400000000000000000000000000 sum 215\n\
         6 N1 READ 1 1231 = 00000000000000000000000000000000 sum 0\n\
         7 N1 READ 1 1233 = refused EndOfFile\n\
         8 N1 STAT (12,1,0) = file [1,4] 1232 blocks mark 1233 end 1233,0\n\
         9 N1 TRUNC (12,1,0) 100 = 100 blocks\n\
         10 N1 READ 1 100 = 00000000000000000000000000000000 sum 0\n\
         11 N1 READ 1 101 = refused EndOfFile\n\
         12 N1 CLOSE 1 = closed\n\
         end: 12 answered, 0 died, 1874 free\n",
    ),
];

/// On the volume of 182 free clusters of one block all 53 numbers get files or headers, and what needs one more is refused, before what
/// needs more clusters. A header that goes gives its number to a file, and a file to a header.
const NUMBERS: &[Lines<'static>] = &[
    Lines {
        from: 1,
        to: 1,
        more: 0,
        script: "1 CREATE R1 LOST A.TXT;0 77 [1,4]\n",
        report: "%l N1 CREATE R1 (11,1,0) A.TXT;0 77 [1,4] = (12,1,0) A.TXT;1\n",
    },
    Lines {
        from: 1,
        to: 51,
        more: 12,
        script: "1 CREATE R2 LOST B.T;0 0 [1,4]\n",
        report: "%l N1 CREATE R2 (11,1,0) B.T;0 0 [1,4] = (%n,1,0) B.T;%k\n",
    },
    Lines {
        from: 1,
        to: 1,
        more: 0,
        script: "1 EXTEND R1 77\n1 CREATE R2 LOST B.T;0 0 [1,4]\n1 MKDIR R2 LOST D [1,1]\n1 EXTEND R1 1\n",
        report: "53 N1 EXTEND (12,1,0) 77 = 154 blocks\n\
            54 N1 CREATE R2 (11,1,0) B.T;0 0 [1,4] = refused IndexFull\n\
            55 N1 MKDIR R2 (11,1,0) D [1,1] = refused IndexFull\n\
            56 N1 EXTEND (12,1,0) 1 = refused IndexFull\n",
    },
    Lines {
        from: 1,
        to: 1,
        more: 0,
        script: "1 TRUNC R1 100\n1 EXTEND R1 54\n1 EXTEND R1 77\n1 TRUNC R1 77\n",
        report: "57 N1 TRUNC (12,1,0) 100 = 100 blocks\n\
            58 N1 EXTEND (12,1,0) 54 = 154 blocks\n\
            59 N1 EXTEND (12,1,0) 77 = refused IndexFull\n\
            60 N1 TRUNC (12,1,0) 77 = 77 blocks\n",
    },
    Lines {
        from: 1,
        to: 1,
        more: 0,
        script: "1 CREATE R2 LOST B.T;0 0 [1,4]\n1 EXTEND R1 1\n1 DELETE LOST B.T;1\n1 EXTEND R1 1\n",
        report: "61 N1 CREATE R2 (11,1,0) B.T;0 0 [1,4] = (64,1,0) B.T;52\n\
            62 N1 EXTEND (12,1,0) 1 = refused IndexFull\n\
            63 N1 DELETE (11,1,0) B.T;1 = deleted\n\
            64 N1 EXTEND (12,1,0) 1 = 78 blocks\n",
    },
];

const ROWS: &[Row<'static>] = &[
    Row {
        on: On::Fresh,
        first: &[],
        each: &[SECOND, SEQUENCES, SHARED],
    },
    Row {
        on: On::Zeros(2048),
        first: &[BIG],
        each: &[LARGEST, READ],
    },
    Row {
        on: On::Small,
        first: &[
            Step::Lines("NODES 1\n", NUMBERS, "end: 64 answered, 0 died, 104 free\n"),
            Step::Finds("accepted\n"),
        ],
        each: &[],
    },
];

#[test]
fn files_have_several_headers(rt: HostRuntime) -> Result<(), Fail> {
    play(rt.alloc(), ROWS)?;
    Ok(())
}
