//! Files that nodes open, read, write and close on channels, and that are deleted while they are open: each report.

use rows_calls::{On, Row, Step, play};
use std::test::Fail;

const WRITTEN: &str = "NODES 1\n\
    1 CREATE R1 MFD C.DAT;0 12 [1,4]\n\
    1 OPEN 1 R1 PW\n\
    1 WRITE 1 1 ONE\n\
    1 WRITE 1 5 FIVE\n\
    1 READ 1 3\n\
    1 READ 1 7\n\
    1 READ 1 5\n\
    1 READ 1 13\n\
    1 WRITE 1 13 X\n\
    1 STAT R1\n";

const WRITTEN_REPORT: &str = "1 N1 CREATE R1 (4,4,0) C.DAT;0 12 [1,4] = (12,1,0) C.DAT;1\n\
    2 N1 OPEN 1 (12,1,0) PW = open\n\
    3 N1 WRITE 1 1 ONE = written\n\
    4 N1 WRITE 1 5 FIVE = written\n\
    5 N1 READ 1 3 = 00000000000000000000000000000000 sum 0\n\
    6 N1 READ 1 7 = 00000000000000000000000000000000 sum 0\n\
    7 N1 READ 1 5 = 46495645000000000000000000000000 sum 298\n\
    8 N1 READ 1 13 = refused EndOfFile\n\
    9 N1 WRITE 1 13 X = refused EndOfFile\n\
    10 N1 STAT (12,1,0) = file [1,4] 12 blocks mark 6 end 6,0\n\
    11 N1 CLOSE 1 = closed\n\
    end: 11 answered, 0 died, 228 free\n";

/// The file has LBN 100 to 111, of which the zeros in front of block 5 are LBN 101 to 103. Its header is LBN 28.
const WRITTEN_STEPS: &[Step<'static>] = &[
    Step::Made(WRITTEN, WRITTEN_REPORT),
    Step::Changed(&[16, 28, 85, 88, 96, 100, 104]),
    Step::Has(28, 28, b"\0\0\x06\0\0\0"),
    Step::Has(28, 76, b"\x06\0\0\0C.DAT;1 "),
    Step::Has(100, 0, b"ONE\0\0"),
    Step::Has(104, 0, b"FIVE\0\0"),
];

/// Deletes of a file that is open: by the node that has it open; by another node, between the OPEN and the WRITE of the first, and
/// once it waits behind that WRITE; and by a third, while two have the file open, of which the second closes it last. The last is the
/// script of the folder examples/ that is named for it.
const DELETED: &[&[Step<'static>]] = &[
    &[Step::Made(
        "NODES 1\n\
         1 CREATE R1 MFD A.TXT;0 4 [1,4]\n\
         1 OPEN 1 R1 EX\n\
         1 DELETE MFD A.TXT;0\n\
         1 CLOSE 1\n",
        "1 N1 CREATE R1 (4,4,0) A.TXT;0 4 [1,4] = (12,1,0) A.TXT;1\n\
         2 N1 OPEN 1 (12,1,0) EX = open\n\
         3 N1 DELETE (4,4,0) A.TXT;0 = marked\n\
         4 N1 CLOSE 1 = closed and deleted\n\
         end: 4 answered, 0 died, 231 free\n",
    )],
    &[Step::Made(
        "NODES 2\n\
         SCHED 1*30 2*100\n\
         1 CREATE R1 MFD B.DAT;0 4 [1,4]\n\
         1 OPEN 1 R1 CW\n\
         1 WRITE 1 1 HELLO\n\
         1 READ 1 1\n\
         1 CLOSE 1\n\
         2 LOOKUP R1 MFD B.DAT;0\n\
         2 OPEN 1 R1 PR\n\
         2 DELETE MFD B.DAT;0\n",
        "1 N1 CREATE R1 (4,4,0) B.DAT;0 4 [1,4] = (12,1,0) B.DAT;1\n\
         2 N1 OPEN 1 (12,1,0) CW = open\n\
         3 N2 LOOKUP R1 (4,4,0) B.DAT;0 = (12,1,0) B.DAT;1\n\
         4 N2 OPEN 1 (12,1,0) PR = refused AccConflict\n\
         5 N2 DELETE (4,4,0) B.DAT;0 = marked\n\
         6 N1 WRITE 1 1 HELLO = written\n\
         7 N1 READ 1 1 = 48454c4c4f0000000000000000000000 sum 372\n\
         8 N1 CLOSE 1 = closed and deleted\n\
         end: 8 answered, 0 died, 231 free\n",
    )],
    &[Step::Made(
        "NODES 2\n\
         SCHED 1*32 2*100\n\
         1 CREATE R1 MFD B.DAT;0 4 [1,4]\n\
         1 OPEN 1 R1 CW\n\
         1 WRITE 1 1 HELLO\n\
         1 READ 1 1\n\
         1 CLOSE 1\n\
         2 LOOKUP R1 MFD B.DAT;0\n\
         2 OPEN 1 R1 PR\n\
         2 DELETE MFD B.DAT;0\n",
        "1 N1 CREATE R1 (4,4,0) B.DAT;0 4 [1,4] = (12,1,0) B.DAT;1\n\
         2 N1 OPEN 1 (12,1,0) CW = open\n\
         3 N2 LOOKUP R1 (4,4,0) B.DAT;0 = (12,1,0) B.DAT;1\n\
         4 N1 WRITE 1 1 HELLO = written\n\
         5 N2 OPEN 1 (12,1,0) PR = refused AccConflict\n\
         6 N1 READ 1 1 = 48454c4c4f0000000000000000000000 sum 372\n\
         7 N1 CLOSE 1 = closed\n\
         8 N2 DELETE (4,4,0) B.DAT;0 = deleted\n\
         end: 8 answered, 0 died, 231 free\n",
    )],
    &[Step::Made(
        "NODES 3\n\
         SCHED 1*28 2*13 3*60\n\
         1 CREATE R1 MFD A.TXT;0 0 [1,4]\n\
         1 OPEN 1 R1 CR\n\
         2 LOOKUP R1 MFD A.TXT;0\n\
         2 OPEN 4 R1 PW\n\
         3 DELETE MFD A.TXT;0\n\
         3 LOOKUP R1 MFD A.TXT;0\n\
         3 STAT (12,1,0)\n",
        "1 N1 CREATE R1 (4,4,0) A.TXT;0 0 [1,4] = (12,1,0) A.TXT;1\n\
         2 N1 OPEN 1 (12,1,0) CR = open\n\
         3 N2 LOOKUP R1 (4,4,0) A.TXT;0 = (12,1,0) A.TXT;1\n\
         4 N2 OPEN 4 (12,1,0) PW = open\n\
         5 N3 DELETE (4,4,0) A.TXT;0 = marked\n\
         6 N3 LOOKUP R1 (4,4,0) A.TXT;0 = refused NoSuchFile\n\
         7 N3 STAT (12,1,0) = refused NoSuchFile\n\
         8 N1 CLOSE 1 = closed\n\
         9 N2 CLOSE 4 = closed and deleted\n\
         end: 9 answered, 0 died, 231 free\n",
    )],
    &[Step::Made(
        "# Two nodes share a file. Node 1 makes it, opens it in PW and writes. Node 2 cannot keep a writer out of it (PR), but can read it\n\
         # beside the writer (CR). It deletes the file: the name is gone at once, and the file itself with the last close.\n\
         NODES 2\n\
         SCHED 1*36 2*52 1*6\n\
         1 CREATE R1 MFD LOG.DAT;0 8 [1,4]\n\
         1 OPEN 1 R1 PW\n\
         1 WRITE 1 1 HELLO\n\
         2 LOOKUP R1 MFD LOG.DAT;0\n\
         2 OPEN 1 R1 PR\n\
         2 OPEN 1 R1 CR\n\
         2 READ 1 1\n\
         2 WRITE 1 1 BYE\n\
         2 DELETE MFD LOG.DAT;0\n\
         2 LOOKUP R2 MFD LOG.DAT;0\n\
         1 WRITE 1 2 MORE\n\
         2 READ 1 2\n",
        "1 N1 CREATE R1 (4,4,0) LOG.DAT;0 8 [1,4] = (12,1,0) LOG.DAT;1\n\
         2 N1 OPEN 1 (12,1,0) PW = open\n\
         3 N1 WRITE 1 1 HELLO = written\n\
         4 N2 LOOKUP R1 (4,4,0) LOG.DAT;0 = (12,1,0) LOG.DAT;1\n\
         5 N2 OPEN 1 (12,1,0) PR = refused AccConflict\n\
         6 N2 OPEN 1 (12,1,0) CR = open\n\
         7 N2 READ 1 1 = 48454c4c4f0000000000000000000000 sum 372\n\
         8 N2 WRITE 1 1 BYE = refused NoPriv\n\
         9 N2 DELETE (4,4,0) LOG.DAT;0 = marked\n\
         10 N2 LOOKUP R2 (4,4,0) LOG.DAT;0 = refused NoSuchFile\n\
         11 N1 WRITE 1 2 MORE = written\n\
         12 N1 CLOSE 1 = closed\n\
         13 N2 READ 1 2 = 4d4f5245000000000000000000000000 sum 307\n\
         14 N2 CLOSE 1 = closed and deleted\n\
         end: 14 answered, 0 died, 231 free\n",
    )],
];

/// Channels of one node: a file on two of them, which goes with the last; each refusal; and eight that are left open, which close in
/// their order behind the last line.
const OF_ONE_NODE: &[&[Step<'static>]] = &[
    &[Step::Made(
        "NODES 1\n\
         1 CREATE R1 MFD A.TXT;0 4 [1,4]\n\
         1 OPEN 1 R1 CW\n\
         1 OPEN 2 R1 PR\n\
         1 OPEN 2 R1 CR\n\
         1 OPEN 2 R1 CR\n\
         1 WRITE 1 1 ABCDEFGHIJ123456\n\
         1 READ 2 1\n\
         1 WRITE 2 1 AB\n\
         1 DELETE MFD A.TXT;0\n\
         1 CLOSE 1\n\
         1 OPEN 1 R1 CR\n\
         1 READ 2 1\n\
         1 QUOTASHOW [1,4]\n\
         1 CLOSE 2\n\
         1 CLOSE 2\n\
         1 READ 2 1\n\
         1 WRITE 2 1 AB\n\
         1 OPEN 2 MFD CR\n\
         1 OPEN 2 (1,1,0) EX\n\
         1 OPEN 2 (65,1,0) EX\n\
         1 QUOTASHOW [1,4]\n",
        "1 N1 CREATE R1 (4,4,0) A.TXT;0 4 [1,4] = (12,1,0) A.TXT;1\n\
         2 N1 OPEN 1 (12,1,0) CW = open\n\
         3 N1 OPEN 2 (12,1,0) PR = refused AccConflict\n\
         4 N1 OPEN 2 (12,1,0) CR = open\n\
         5 N1 OPEN 2 (12,1,0) CR = refused ChanBusy\n\
         6 N1 WRITE 1 1 ABCDEFGHIJ123456 = written\n\
         7 N1 READ 2 1 = 4142434445464748494a313233343536 sum 1004\n\
         8 N1 WRITE 2 1 AB = refused NoPriv\n\
         9 N1 DELETE (4,4,0) A.TXT;0 = marked\n\
         10 N1 CLOSE 1 = closed\n\
         11 N1 OPEN 1 (12,1,0) CR = refused NoSuchFile\n\
         12 N1 READ 2 1 = 4142434445464748494a313233343536 sum 1004\n\
         13 N1 QUOTASHOW [1,4] = usage 5 quota 1088 overdraft 0\n\
         14 N1 CLOSE 2 = closed and deleted\n\
         15 N1 CLOSE 2 = refused NotOpen\n\
         16 N1 READ 2 1 = refused NotOpen\n\
         17 N1 WRITE 2 1 AB = refused NotOpen\n\
         18 N1 OPEN 2 (4,4,0) CR = refused NoPriv\n\
         19 N1 OPEN 2 (1,1,0) EX = refused NoPriv\n\
         20 N1 OPEN 2 (65,1,0) EX = refused NoSuchFile\n\
         21 N1 QUOTASHOW [1,4] = usage 0 quota 1088 overdraft 0\n\
         end: 21 answered, 0 died, 231 free\n",
    )],
    &[Step::Made(
        "NODES 1\n\
         1 CREATE R1 MFD A.TXT;0 4 [1,4]\n\
         1 OPEN 8 R1 CR\n\
         1 OPEN 3 R1 CR\n\
         1 OPEN 5 R1 CR\n\
         1 OPEN 1 R1 CR\n\
         1 OPEN 7 R1 CR\n\
         1 OPEN 2 R1 CR\n\
         1 OPEN 6 R1 CR\n\
         1 OPEN 4 R1 CR\n\
         1 DELETE MFD A.TXT;0\n",
        "1 N1 CREATE R1 (4,4,0) A.TXT;0 4 [1,4] = (12,1,0) A.TXT;1\n\
         2 N1 OPEN 8 (12,1,0) CR = open\n\
         3 N1 OPEN 3 (12,1,0) CR = open\n\
         4 N1 OPEN 5 (12,1,0) CR = open\n\
         5 N1 OPEN 1 (12,1,0) CR = open\n\
         6 N1 OPEN 7 (12,1,0) CR = open\n\
         7 N1 OPEN 2 (12,1,0) CR = open\n\
         8 N1 OPEN 6 (12,1,0) CR = open\n\
         9 N1 OPEN 4 (12,1,0) CR = open\n\
         10 N1 DELETE (4,4,0) A.TXT;0 = marked\n\
         11 N1 CLOSE 1 = closed\n\
         12 N1 CLOSE 2 = closed\n\
         13 N1 CLOSE 3 = closed\n\
         14 N1 CLOSE 4 = closed\n\
         15 N1 CLOSE 5 = closed\n\
         16 N1 CLOSE 6 = closed\n\
         17 N1 CLOSE 7 = closed\n\
         18 N1 CLOSE 8 = closed and deleted\n\
         end: 18 answered, 0 died, 231 free\n",
    )],
];

/// Node 1 has five files open, each in another mode, and node 2 opens each of them in each mode. It closes what it has opened. The
/// first creation takes 23 turns, the others 18, since their numbers stand in the stock; each OPEN takes five.
const MODES: &str = "NODES 2\n\
    SCHED 1*120 2*1000\n\
    1 CREATE R1 MFD CR.DAT;0 0 [1,4]\n\
    1 CREATE R2 MFD CW.DAT;0 0 [1,4]\n\
    1 CREATE R3 MFD PR.DAT;0 0 [1,4]\n\
    1 CREATE R4 MFD PW.DAT;0 0 [1,4]\n\
    1 CREATE R5 MFD EX.DAT;0 0 [1,4]\n\
    1 OPEN 1 R1 CR\n\
    1 OPEN 2 R2 CW\n\
    1 OPEN 3 R3 PR\n\
    1 OPEN 4 R4 PW\n\
    1 OPEN 5 R5 EX\n\
    2 OPEN 1 (12,1,0) CR\n\
    2 CLOSE 1\n\
    2 OPEN 1 (12,1,0) CW\n\
    2 CLOSE 1\n\
    2 OPEN 1 (12,1,0) PR\n\
    2 CLOSE 1\n\
    2 OPEN 1 (12,1,0) PW\n\
    2 CLOSE 1\n\
    2 OPEN 1 (12,1,0) EX\n\
    2 OPEN 1 (13,1,0) CR\n\
    2 CLOSE 1\n\
    2 OPEN 1 (13,1,0) CW\n\
    2 CLOSE 1\n\
    2 OPEN 1 (13,1,0) PR\n\
    2 OPEN 1 (13,1,0) PW\n\
    2 OPEN 1 (13,1,0) EX\n\
    2 OPEN 1 (14,1,0) CR\n\
    2 CLOSE 1\n\
    2 OPEN 1 (14,1,0) CW\n\
    2 OPEN 1 (14,1,0) PR\n\
    2 CLOSE 1\n\
    2 OPEN 1 (14,1,0) PW\n\
    2 OPEN 1 (14,1,0) EX\n\
    2 OPEN 1 (15,1,0) CR\n\
    2 CLOSE 1\n\
    2 OPEN 1 (15,1,0) CW\n\
    2 OPEN 1 (15,1,0) PR\n\
    2 OPEN 1 (15,1,0) PW\n\
    2 OPEN 1 (15,1,0) EX\n\
    2 OPEN 1 (16,1,0) CR\n\
    2 OPEN 1 (16,1,0) CW\n\
    2 OPEN 1 (16,1,0) PR\n\
    2 OPEN 1 (16,1,0) PW\n\
    2 OPEN 1 (16,1,0) EX\n";

const MODES_REPORT: &str = "1 N1 CREATE R1 (4,4,0) CR.DAT;0 0 [1,4] = (12,1,0) CR.DAT;1\n\
    2 N1 CREATE R2 (4,4,0) CW.DAT;0 0 [1,4] = (13,1,0) CW.DAT;1\n\
    3 N1 CREATE R3 (4,4,0) PR.DAT;0 0 [1,4] = (14,1,0) PR.DAT;1\n\
    4 N1 CREATE R4 (4,4,0) PW.DAT;0 0 [1,4] = (15,1,0) PW.DAT;1\n\
    5 N1 CREATE R5 (4,4,0) EX.DAT;0 0 [1,4] = (16,1,0) EX.DAT;1\n\
    6 N1 OPEN 1 (12,1,0) CR = open\n\
    7 N1 OPEN 2 (13,1,0) CW = open\n\
    8 N1 OPEN 3 (14,1,0) PR = open\n\
    9 N1 OPEN 4 (15,1,0) PW = open\n\
    10 N1 OPEN 5 (16,1,0) EX = open\n\
    11 N2 OPEN 1 (12,1,0) CR = open\n\
    12 N2 CLOSE 1 = closed\n\
    13 N2 OPEN 1 (12,1,0) CW = open\n\
    14 N2 CLOSE 1 = closed\n\
    15 N2 OPEN 1 (12,1,0) PR = open\n\
    16 N2 CLOSE 1 = closed\n\
    17 N2 OPEN 1 (12,1,0) PW = open\n\
    18 N2 CLOSE 1 = closed\n\
    19 N2 OPEN 1 (12,1,0) EX = refused AccConflict\n\
    20 N2 OPEN 1 (13,1,0) CR = open\n\
    21 N2 CLOSE 1 = closed\n\
    22 N2 OPEN 1 (13,1,0) CW = open\n\
    23 N2 CLOSE 1 = closed\n\
    24 N2 OPEN 1 (13,1,0) PR = refused AccConflict\n\
    25 N2 OPEN 1 (13,1,0) PW = refused AccConflict\n\
    26 N2 OPEN 1 (13,1,0) EX = refused AccConflict\n\
    27 N2 OPEN 1 (14,1,0) CR = open\n\
    28 N2 CLOSE 1 = closed\n\
    29 N2 OPEN 1 (14,1,0) CW = refused AccConflict\n\
    30 N2 OPEN 1 (14,1,0) PR = open\n\
    31 N2 CLOSE 1 = closed\n\
    32 N2 OPEN 1 (14,1,0) PW = refused AccConflict\n\
    33 N2 OPEN 1 (14,1,0) EX = refused AccConflict\n\
    34 N2 OPEN 1 (15,1,0) CR = open\n\
    35 N2 CLOSE 1 = closed\n\
    36 N2 OPEN 1 (15,1,0) CW = refused AccConflict\n\
    37 N2 OPEN 1 (15,1,0) PR = refused AccConflict\n\
    38 N2 OPEN 1 (15,1,0) PW = refused AccConflict\n\
    39 N2 OPEN 1 (15,1,0) EX = refused AccConflict\n\
    40 N2 OPEN 1 (16,1,0) CR = refused AccConflict\n\
    41 N2 OPEN 1 (16,1,0) CW = refused AccConflict\n\
    42 N2 OPEN 1 (16,1,0) PR = refused AccConflict\n\
    43 N2 OPEN 1 (16,1,0) PW = refused AccConflict\n\
    44 N2 OPEN 1 (16,1,0) EX = refused AccConflict\n\
    45 N1 CLOSE 1 = closed\n\
    46 N1 CLOSE 2 = closed\n\
    47 N1 CLOSE 3 = closed\n\
    48 N1 CLOSE 4 = closed\n\
    49 N1 CLOSE 5 = closed\n\
    end: 49 answered, 0 died, 231 free\n";

/// A WRITE waits for a READ, which still shows the old text. A READ waits for a WRITE whose block is on the image already, and shows
/// the new one.
const WAITING: &str = "NODES 2\n\
    SCHED 1*30 2*19 1*2 2*5 1*3 2*8 1*5 2 1*4\n\
    1 CREATE R1 MFD A.TXT;0 4 [1,4]\n\
    1 OPEN 1 R1 CR\n\
    2 LOOKUP R1 MFD A.TXT;0\n\
    2 OPEN 1 R1 PW\n\
    2 WRITE 1 1 OLD\n\
    1 READ 1 1\n\
    2 WRITE 1 1 NEW\n\
    2 WRITE 1 1 NEWER\n\
    1 READ 1 1\n";

const WAITING_REPORT: &str = "1 N1 CREATE R1 (4,4,0) A.TXT;0 4 [1,4] = (12,1,0) A.TXT;1\n\
    2 N1 OPEN 1 (12,1,0) CR = open\n\
    3 N2 LOOKUP R1 (4,4,0) A.TXT;0 = (12,1,0) A.TXT;1\n\
    4 N2 OPEN 1 (12,1,0) PW = open\n\
    5 N2 WRITE 1 1 OLD = written\n\
    6 N1 READ 1 1 = 4f4c4400000000000000000000000000 sum 223\n\
    7 N2 WRITE 1 1 NEW = written\n\
    8 N2 WRITE 1 1 NEWER = written\n\
    9 N1 READ 1 1 = 4e455745520000000000000000000000 sum 385\n\
    10 N1 CLOSE 1 = closed\n\
    11 N2 CLOSE 1 = closed\n\
    end: 11 answered, 0 died, 230 free\n";

/// Blocks are written below the end and past it, and below the mark, at it and past it.
const SIZES: &str = "NODES 1\n\
    1 OPEN 1 (14,1,0) PW\n\
    1 READ 1 2\n\
    1 WRITE 1 2 BELOW\n\
    1 STAT (14,1,0)\n\
    1 EXTEND (14,1,0) 1\n\
    1 STAT (14,1,0)\n\
    1 WRITE 1 4 END\n\
    1 STAT (14,1,0)\n\
    1 READ 1 6\n\
    1 WRITE 1 5 AT\n\
    1 STAT (14,1,0)\n\
    1 WRITE 1 8 PAST\n\
    1 READ 1 7\n\
    1 READ 1 8\n\
    1 READ 1 2\n\
    1 STAT (14,1,0)\n\
    1 TRUNC (14,1,0) 4\n\
    1 STAT (14,1,0)\n\
    1 READ 1 5\n\
    1 READ 1 0\n\
    1 WRITE 1 0 X\n";

const SIZES_REPORT: &str = "1 N1 OPEN 1 (14,1,0) PW = open\n\
    2 N1 READ 1 2 = 07000000000000000000000000000000 sum 7\n\
    3 N1 WRITE 1 2 BELOW = written\n\
    4 N1 STAT (14,1,0) = file [1,1] 4 blocks mark 0 end 3,0\n\
    5 N1 EXTEND (14,1,0) 1 = 8 blocks\n\
    6 N1 STAT (14,1,0) = file [1,1] 8 blocks mark 5 end 3,0\n\
    7 N1 WRITE 1 4 END = written\n\
    8 N1 STAT (14,1,0) = file [1,1] 8 blocks mark 5 end 5,0\n\
    9 N1 READ 1 6 = 00000000000000000000000000000000 sum 0\n\
    10 N1 WRITE 1 5 AT = written\n\
    11 N1 STAT (14,1,0) = file [1,1] 8 blocks mark 6 end 6,0\n\
    12 N1 WRITE 1 8 PAST = written\n\
    13 N1 READ 1 7 = 00000000000000000000000000000000 sum 0\n\
    14 N1 READ 1 8 = 50415354000000000000000000000000 sum 312\n\
    15 N1 READ 1 2 = 42454c4f570000000000000000000000 sum 377\n\
    16 N1 STAT (14,1,0) = file [1,1] 8 blocks mark 9 end 9,0\n\
    17 N1 TRUNC (14,1,0) 4 = 4 blocks\n\
    18 N1 STAT (14,1,0) = file [1,1] 4 blocks mark 5 end 5,0\n\
    19 N1 READ 1 5 = refused EndOfFile\n\
    20 N1 READ 1 0 = refused EndOfFile\n\
    21 N1 WRITE 1 0 X = refused EndOfFile\n\
    22 N1 CLOSE 1 = closed\n\
    end: 22 answered, 0 died, 229 free\n";

const ROWS: &[Row<'static>] = &[
    Row {
        on: On::Fresh,
        first: &[],
        each: DELETED,
    },
    Row {
        on: On::Fresh,
        first: &[],
        each: OF_ONE_NODE,
    },
    Row {
        on: On::Fresh,
        first: &[],
        each: &[
            WRITTEN_STEPS,
            &[Step::Made(MODES, MODES_REPORT)],
            &[Step::Made(WAITING, WAITING_REPORT)],
        ],
    },
    // File 14 has no mark and its end at block 3. Its second block begins with a byte of 7.
    Row {
        on: On::Tree(104, 0xf8),
        first: &[
            Step::Byte(30, 30, 3),
            Step::Byte(30, 510, 173),
            Step::Byte(105, 0, 7),
        ],
        each: &[&[Step::Made(SIZES, SIZES_REPORT)]],
    },
];

#[test]
fn files_are_used_on_channels(rt: HostRuntime) -> Result<(), Fail> {
    play(rt.alloc(), ROWS)?;
    Ok(())
}
