//! Quotas are set and shown, with files made under them: each report.

use rows_calls::{Lines, On, Row, Step, play};
use std::test::Fail;

/// Scripts and their reports. In the first a file is made, and its owner's row and its facts are shown. In the second the quota
/// of [1,4] is just enough for a file of twelve blocks, and an overdraft is of no use to a new file; [2,2] has no row, and then
/// one, which a file of no blocks fills. In the third the second node waits for the quota file behind the first.
const SET: &[&[Step<'static>]] = &[
    &[Step::Made(
        "NODES 1\n\
         1 CREATE R1 MFD A.TXT;0 10 [1,4]\n\
         1 QUOTASHOW [1,4]\n\
         1 STAT R1\n",
        "1 N1 CREATE R1 (4,4,0) A.TXT;0 10 [1,4] = (12,1,0) A.TXT;1\n\
         2 N1 QUOTASHOW [1,4] = usage 13 quota 1088 overdraft 0\n\
         3 N1 STAT (12,1,0) = file [1,4] 12 blocks mark 1 end 1,0\n\
         end: 3 answered, 0 died, 228 free\n",
    )],
    &[Step::Made(
        "NODES 1\n\
         1 QUOTASET [1,4] 13 0\n\
         1 CREATE R1 MFD A.TXT;0 12 [1,4]\n\
         1 CREATE R2 MFD B.TXT;0 0 [1,4]\n\
         1 QUOTASET [1,4] 13 4\n\
         1 CREATE R2 MFD B.TXT;0 0 [1,4]\n\
         1 CREATE R2 MFD C.TXT;0 0 [2,2]\n\
         1 QUOTASHOW [2,2]\n\
         1 QUOTASET [2,2] 1 4294967295\n\
         1 CREATE R2 MFD C.TXT;0 0 [2,2]\n\
         1 QUOTASHOW [2,2]\n\
         1 QUOTASHOW [1,4]\n\
         1 QUOTASHOW [1,1]\n",
        "1 N1 QUOTASET [1,4] 13 0 = set\n\
         2 N1 CREATE R1 (4,4,0) A.TXT;0 12 [1,4] = (12,1,0) A.TXT;1\n\
         3 N1 CREATE R2 (4,4,0) B.TXT;0 0 [1,4] = refused ExQuota\n\
         4 N1 QUOTASET [1,4] 13 4 = set\n\
         5 N1 CREATE R2 (4,4,0) B.TXT;0 0 [1,4] = refused ExQuota\n\
         6 N1 CREATE R2 (4,4,0) C.TXT;0 0 [2,2] = refused NoQuota\n\
         7 N1 QUOTASHOW [2,2] = refused NoQuota\n\
         8 N1 QUOTASET [2,2] 1 4294967295 = set\n\
         9 N1 CREATE R2 (4,4,0) C.TXT;0 0 [2,2] = (13,1,0) C.TXT;1\n\
         10 N1 QUOTASHOW [2,2] = usage 1 quota 1 overdraft 4294967295\n\
         11 N1 QUOTASHOW [1,4] = usage 13 quota 13 overdraft 4\n\
         12 N1 QUOTASHOW [1,1] = usage 111 quota 1088 overdraft 0\n\
         end: 12 answered, 0 died, 228 free\n",
    )],
    &[Step::Made(
        "NODES 2\n\
         1 QUOTASET [2,2] 5 0\n\
         2 QUOTASHOW [2,2]\n",
        "1 N1 QUOTASET [2,2] 5 0 = set\n\
         2 N2 QUOTASHOW [2,2] = usage 0 quota 5 overdraft 0\n\
         end: 2 answered, 0 died, 231 free\n",
    )],
];

/// The quotas of 56 owners, [3,10] to [3,77], and of six, [2,0] to [2,5], and then of one more. The four quota blocks have 64 rows, of
/// which two are in use.
const OWNERS: &[Lines<'static>] = &[
    Lines {
        from: 8,
        to: 63,
        more: 0,
        script: "1 QUOTASET [3,%o] 1 0\n",
        report: "%l N1 QUOTASET [3,%o] 1 0 = set\n",
    },
    Lines {
        from: 0,
        to: 5,
        more: 0,
        script: "1 QUOTASET [2,%o] 1 0\n",
        report: "%l N1 QUOTASET [2,%o] 1 0 = set\n",
    },
    Lines {
        from: 6,
        to: 6,
        more: 0,
        script: "1 QUOTASET [2,%o] 1 0\n",
        report: "%l N1 QUOTASET [2,%o] 1 0 = refused QuotaFull\n",
    },
    Lines {
        from: 5,
        to: 5,
        more: 0,
        script: "1 QUOTASET [2,%o] 1 0\n",
        report: "%l N1 QUOTASET [2,%o] 1 0 = set\n",
    },
];

const ROWS: &[Row<'static>] = &[
    Row {
        on: On::Fresh,
        first: &[],
        each: SET,
    },
    Row {
        on: On::Fresh,
        first: &[
            Step::Lines("NODES 1\n", OWNERS, "end: 64 answered, 0 died, 231 free\n"),
            Step::Finds("accepted\n"),
        ],
        each: &[],
    },
];

#[test]
fn quotas_are_set_and_shown(rt: HostRuntime) -> Result<(), Fail> {
    play(rt.alloc(), ROWS)?;
    Ok(())
}
