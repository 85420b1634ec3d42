//! LOOKUP, LIST and STAT: the lock, the header, and the blocks of a directory in order; then the reply, or a refusal in its place.

use crate::plans::{Row, check_all};
use rows_sample::volume;
use std::test::Fail;

/// Version 0 is the highest. A number out of range is refused at once, without a lock.
const LOOKS: &[Row<'static>] = &[
    (
        "1 LOOKUP R1 (12,1,0) A.TXT;0",
        "S(12) PR at 20 50 51",
        "(13,1,0) A.TXT;2",
    ),
    (
        "1 LOOKUP R1 (12,1,0) A.TXT;1",
        "S(12) PR at 20 50 51",
        "(14,1,0) A.TXT;1",
    ),
    (
        "1 LOOKUP R1 (12,1,0) B.DAT;1",
        "S(12) PR at 20 50 51",
        "(15,2,0) B.DAT;1",
    ),
    (
        "1 LOOKUP R1 (4,4,0) Z.DIR;0",
        "S(4) PR at 12 44 45",
        "(12,1,0) Z.DIR;1",
    ),
    (
        "1 LIST (12,1,0)",
        "S(12) PR at 20 50 51",
        "3 entries A.TXT;2 (13,1,0) A.TXT;1 (14,1,0) B.DAT;1 (15,2,0)",
    ),
    (
        "1 LIST (4,4,0)",
        "S(4) PR at 12 44 45",
        "12 entries 000000.DIR;1 (4,4,0) BACKUP.SYS;1 (8,8,0) BADBLK.SYS;1 (3,3,0) BADLOG.SYS;1 (9,9,0) BITMAP.SYS;1 (2,2,0) \
         CONTIN.SYS;1 (7,7,0) CORIMG.SYS;1 (5,5,0) INDEXF.SYS;1 (1,1,0) QUOTA.SYS;1 (10,1,0) SYSLOST.DIR;1 (11,1,0) \
         VOLSET.SYS;1 (6,6,0) Z.DIR;1 (12,1,0)",
    ),
    (
        "1 STAT (14,1,0)",
        "S(14) PR at 22",
        "file [1,4] 2 blocks mark 2 end 1,7",
    ),
    ("1 STAT (0,1,0)", "at", "refused NoSuchFile"),
    ("1 STAT (33,1,0)", "at", "refused NoSuchFile"),
    ("1 STAT (32,1,0)", "S(32) PR at 40", "refused NoSuchFile"),
    ("1 STAT (12,2,0)", "S(12) PR at 20", "refused NoSuchFile"),
    ("1 STAT (16,1,0)", "S(16) PR at 24", "refused NoSuchFile"),
    ("1 STAT (4,5,0)", "S(4) PR at 12", "refused NoSuchFile"),
    ("1 LIST (14,1,0)", "S(14) PR at 22", "refused NotDir"),
    (
        "1 LOOKUP R1 (12,1,0) A.TXT;3",
        "S(12) PR at 20 50 51",
        "refused NoSuchFile",
    ),
    (
        "1 LOOKUP R1 (13,1,0) A.TXT;0",
        "S(13) PR at 21",
        "refused NotDir",
    ),
];

#[test]
fn looks_go_turn_by_turn(rt: HostRuntime) -> Result<(), Fail> {
    check_all(&rt, rt.alloc(), &volume(), None, LOOKS)?;
    Ok(())
}
