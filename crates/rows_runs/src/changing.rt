//! Files grow, are cut and go, and entries change their names: each report.

use rows_calls::{On, Row, Step, play};
use std::test::Fail;

/// Scripts and their reports. The first is examples/changing. In the second a file grows by a cluster more than one header lists, and
/// its entry gets other names and versions. In the third the overdraft counts for a file that grows. In the fourth four nodes change
/// one file and its entry. In the fifth a directory goes once it is empty; in the sixth each of two nodes deletes the other's file; in the
/// seventh eight nodes extend and cut one file, and node 1, which has kept its lock, comes before those that wait for one.
const CHANGED: &[&[Step<'static>]] = &[
    &[Step::Made(
        "# Node 1 makes a file, which grows, is cut and gets another name. Node 2 makes a directory, which goes once it is empty.\n\
         NODES 2\n\
         1 QUOTASET [1,4] 100 10\n\
         1 CREATE R1 MFD DRAFT.TXT;0 4 [1,4]\n\
         1 EXTEND R1 8\n\
         1 TRUNC R1 5\n\
         1 RENAME MFD DRAFT.TXT;1 FINAL.TXT;0\n\
         1 STAT R1\n\
         1 QUOTASHOW [1,4]\n\
         2 MKDIR R1 MFD OLD [1,4]\n\
         2 CREATE R2 R1 NOTE.TXT;0 1 [1,4]\n\
         2 DELETE MFD OLD.DIR;1\n\
         2 DELETE R1 NOTE.TXT;1\n\
         2 DELETE MFD OLD.DIR;1\n\
         2 LIST MFD\n",
        "1 N1 QUOTASET [1,4] 100 10 = set\n\
         2 N2 MKDIR R1 (4,4,0) OLD [1,4] = (12,1,0) OLD.DIR;1\n\
         3 N1 CREATE R1 (4,4,0) DRAFT.TXT;0 4 [1,4] = (21,1,0) DRAFT.TXT;1\n\
         4 N2 CREATE R2 (12,1,0) NOTE.TXT;0 1 [1,4] = (13,1,0) NOTE.TXT;1\n\
         5 N1 EXTEND (21,1,0) 8 = 12 blocks\n\
         6 N2 DELETE (4,4,0) OLD.DIR;1 = refused DirNotEmpty\n\
         7 N1 TRUNC (21,1,0) 5 = 8 blocks\n\
         8 N1 RENAME (4,4,0) DRAFT.TXT;1 FINAL.TXT;0 = FINAL.TXT;1\n\
         9 N1 STAT (21,1,0) = file [1,4] 8 blocks mark 1 end 1,0\n\
         10 N2 DELETE (12,1,0) NOTE.TXT;1 = deleted\n\
         11 N1 QUOTASHOW [1,4] = usage 14 quota 100 overdraft 10\n\
         12 N2 DELETE (4,4,0) OLD.DIR;1 = deleted\n\
         13 N2 LIST (4,4,0) = 12 entries 000000.DIR;1 (4,4,0) BACKUP.SYS;1 (8,8,0) BADBLK.SYS;1 (3,3,0) BADLOG.SYS;1 (9,9,0) BITMAP.SYS;1 (2,2,0) CONTIN.SYS;1 (7,7,0) CORIMG.SYS;1 (5,5,0) FINAL.TXT;1 (21,1,0) INDEXF.SYS;1 (1,1,0) QUOTA.SYS;1 (10,1,0) SYSLOST.DIR;1 (11,1,0) VOLSET.SYS;1 (6,6,0)\n\
         end: 13 answered, 0 died, 229 free\n",
    )],
    &[Step::Made(
        "NODES 1\n\
         1 CREATE R1 MFD A.TXT;0 304 [1,4]\n\
         1 EXTEND R1 4\n\
         1 EXTEND R1 1\n\
         1 EXTEND (4,4,0) 1\n\
         1 EXTEND (13,1,0) 1\n\
         1 STAT R1\n\
         1 RENAME MFD A.TXT;1 B.TXT;0\n\
         1 RENAME MFD B.TXT;0 B.TXT;5\n\
         1 RENAME MFD B.TXT;5 B.TXT;5\n\
         1 RENAME MFD INDEXF.SYS;1 X.SYS;0\n\
         1 RENAME MFD A.TXT;0 C.TXT;0\n\
         1 RENAME R1 A.TXT;0 C.TXT;0\n\
         1 LOOKUP R2 MFD B.TXT;0\n",
        "1 N1 CREATE R1 (4,4,0) A.TXT;0 304 [1,4] = (12,1,0) A.TXT;1\n\
         2 N1 EXTEND (12,1,0) 4 = 308 blocks\n\
         3 N1 EXTEND (12,1,0) 1 = 312 blocks\n\
         4 N1 EXTEND (4,4,0) 1 = refused NoPriv\n\
         5 N1 EXTEND (13,1,0) 1 = refused NoSuchFile\n\
         6 N1 STAT (12,1,0) = file [1,4] 312 blocks mark 1 end 1,0\n\
         7 N1 RENAME (4,4,0) A.TXT;1 B.TXT;0 = B.TXT;1\n\
         8 N1 RENAME (4,4,0) B.TXT;0 B.TXT;5 = B.TXT;5\n\
         9 N1 RENAME (4,4,0) B.TXT;5 B.TXT;5 = refused DupFile\n\
         10 N1 RENAME (4,4,0) INDEXF.SYS;1 X.SYS;0 = refused NoPriv\n\
         11 N1 RENAME (4,4,0) A.TXT;0 C.TXT;0 = refused NoSuchFile\n\
         12 N1 RENAME (12,1,0) A.TXT;0 C.TXT;0 = refused NotDir\n\
         13 N1 LOOKUP R2 (4,4,0) B.TXT;0 = (12,1,0) B.TXT;5\n\
         end: 13 answered, 0 died, 153 free\n",
    )],
    &[Step::Made(
        "NODES 1\n\
         1 QUOTASET [1,4] 13 0\n\
         1 CREATE R1 MFD A.TXT;0 12 [1,4]\n\
         1 EXTEND R1 1\n\
         1 QUOTASET [1,4] 13 4\n\
         1 EXTEND R1 1\n\
         1 EXTEND R1 1\n\
         1 QUOTASHOW [1,4]\n",
        "1 N1 QUOTASET [1,4] 13 0 = set\n\
         2 N1 CREATE R1 (4,4,0) A.TXT;0 12 [1,4] = (12,1,0) A.TXT;1\n\
         3 N1 EXTEND (12,1,0) 1 = refused ExQuota\n\
         4 N1 QUOTASET [1,4] 13 4 = set\n\
         5 N1 EXTEND (12,1,0) 1 = 16 blocks\n\
         6 N1 EXTEND (12,1,0) 1 = refused ExQuota\n\
         7 N1 QUOTASHOW [1,4] = usage 17 quota 13 overdraft 4\n\
         end: 7 answered, 0 died, 227 free\n",
    )],
    &[Step::Made(
        "NODES 4\n\
         SCHED 1*42 2*5 3*5 4*5\n\
         1 CREATE R1 MFD A.TXT;0 4 [1,4]\n\
         2 EXTEND (12,1,0) 4\n\
         3 RENAME MFD A.TXT;1 C.TXT;0\n\
         4 EXTEND (12,1,0) 8\n\
         1 EXTEND R1 1\n\
         2 LOOKUP R1 MFD C.TXT;0\n\
         3 STAT (12,1,0)\n",
        "1 N1 CREATE R1 (4,4,0) A.TXT;0 4 [1,4] = (12,1,0) A.TXT;1\n\
         2 N1 EXTEND (12,1,0) 1 = 8 blocks\n\
         3 N3 RENAME (4,4,0) A.TXT;1 C.TXT;0 = C.TXT;1\n\
         4 N2 EXTEND (12,1,0) 4 = 12 blocks\n\
         5 N2 LOOKUP R1 (4,4,0) C.TXT;0 = (12,1,0) C.TXT;1\n\
         6 N4 EXTEND (12,1,0) 8 = 20 blocks\n\
         7 N3 STAT (12,1,0) = file [1,4] 20 blocks mark 1 end 1,0\n\
         end: 7 answered, 0 died, 226 free\n",
    )],
    &[Step::Made(
        "NODES 1\n\
         1 MKDIR R1 MFD USERS [1,4]\n\
         1 CREATE R2 R1 LOGIN.COM;0 3 [1,4]\n\
         1 CREATE R3 R1 LOGIN.COM;0 3 [1,4]\n\
         1 LIST R1\n\
         1 DELETE MFD USERS.DIR;1\n\
         1 DELETE R1 LOGIN.COM;1\n\
         1 LIST R1\n\
         1 DELETE R1 LOGIN.COM;0\n\
         1 DELETE MFD USERS.DIR;0\n\
         1 LIST R1\n\
         1 QUOTASHOW [1,4]\n",
        "1 N1 MKDIR R1 (4,4,0) USERS [1,4] = (12,1,0) USERS.DIR;1\n\
         2 N1 CREATE R2 (12,1,0) LOGIN.COM;0 3 [1,4] = (13,1,0) LOGIN.COM;1\n\
         3 N1 CREATE R3 (12,1,0) LOGIN.COM;0 3 [1,4] = (14,1,0) LOGIN.COM;2\n\
         4 N1 LIST (12,1,0) = 2 entries LOGIN.COM;2 (14,1,0) LOGIN.COM;1 (13,1,0)\n\
         5 N1 DELETE (4,4,0) USERS.DIR;1 = refused DirNotEmpty\n\
         6 N1 DELETE (12,1,0) LOGIN.COM;1 = deleted\n\
         7 N1 LIST (12,1,0) = 1 entries LOGIN.COM;2 (14,1,0)\n\
         8 N1 DELETE (12,1,0) LOGIN.COM;0 = deleted\n\
         9 N1 DELETE (4,4,0) USERS.DIR;0 = deleted\n\
         10 N1 LIST (12,1,0) = refused NoSuchFile\n\
         11 N1 QUOTASHOW [1,4] = usage 0 quota 1088 overdraft 0\n\
         end: 11 answered, 0 died, 231 free\n",
    )],
    &[Step::Made(
        "NODES 2\n\
         1 CREATE R1 MFD A.TXT;0 4 [1,4]\n\
         2 CREATE R1 MFD B.TXT;0 4 [1,4]\n\
         1 DELETE MFD B.TXT;0\n\
         2 DELETE MFD A.TXT;0\n\
         1 LOOKUP R2 MFD A.TXT;0\n",
        "1 N1 CREATE R1 (4,4,0) A.TXT;0 4 [1,4] = (12,1,0) A.TXT;1\n\
         2 N2 CREATE R1 (4,4,0) B.TXT;0 4 [1,4] = (21,1,0) B.TXT;1\n\
         3 N1 DELETE (4,4,0) B.TXT;0 = deleted\n\
         4 N2 DELETE (4,4,0) A.TXT;0 = deleted\n\
         5 N1 LOOKUP R2 (4,4,0) A.TXT;0 = refused NoSuchFile\n\
         end: 5 answered, 0 died, 231 free\n",
    )],
    &[Step::Made(
        "NODES 8\n\
         SCHED 1*32\n\
         1 CREATE R1 MFD A.TXT;0 4 [1,4]\n\
         1 EXTEND R1 1\n\
         2 EXTEND (12,1,0) 5\n\
         3 EXTEND (12,1,0) 9\n\
         4 TRUNC (12,1,0) 8\n\
         5 EXTEND (12,1,0) 4\n\
         6 TRUNC (12,1,0) 1\n\
         7 EXTEND (12,1,0) 12\n\
         8 TRUNC (12,1,0) 6\n\
         1 STAT R1\n\
         1 QUOTASHOW [1,4]\n",
        "1 N1 CREATE R1 (4,4,0) A.TXT;0 4 [1,4] = (12,1,0) A.TXT;1\n\
         2 N1 EXTEND (12,1,0) 1 = 8 blocks\n\
         3 N2 EXTEND (12,1,0) 5 = 16 blocks\n\
         4 N1 STAT (12,1,0) = file [1,4] 16 blocks mark 1 end 1,0\n\
         5 N1 QUOTASHOW [1,4] = usage 17 quota 1088 overdraft 0\n\
         6 N3 EXTEND (12,1,0) 9 = 28 blocks\n\
         7 N4 TRUNC (12,1,0) 8 = 8 blocks\n\
         8 N5 EXTEND (12,1,0) 4 = 12 blocks\n\
         9 N6 TRUNC (12,1,0) 1 = 4 blocks\n\
         10 N7 EXTEND (12,1,0) 12 = 16 blocks\n\
         11 N8 TRUNC (12,1,0) 6 = 8 blocks\n\
         end: 11 answered, 0 died, 229 free\n",
    )],
];

const ROWS: &[Row<'static>] = &[Row {
    on: On::Fresh,
    first: &[],
    each: CHANGED,
}];

#[test]
fn files_and_entries_change(rt: HostRuntime) -> Result<(), Fail> {
    play(rt.alloc(), ROWS)?;
    Ok(())
}
