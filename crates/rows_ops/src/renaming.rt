//! RENAME: the refusals of the directory and of the old name, then those of the new name, each where none in front of it holds, and the
//! first of two; and an entry that gets another name.

use crate::plans::{Row, check, check_all, check_bytes};
use crate::volumes::{full_directory, last_version};
use rows_sample::volume;
use std::test::Fail;

const ON_THE_VOLUME: &[Row<'static>] = &[
    ("1 RENAME (13,1,0) A.TXT;1 A.TXT;2", "", "refused NotDir"),
    (
        "1 RENAME (12,1,0) A.TXT;3 A.TXT;2",
        "",
        "refused NoSuchFile",
    ),
    (
        "1 RENAME (4,4,0) INDEXF.SYS;1 INDEXF.SYS;1",
        "",
        "refused NoPriv",
    ),
];

/// B.DAT has the highest version.
const ON_THE_LAST: &[Row<'static>] = &[(
    "1 RENAME (12,1,0) A.TXT;1 B.DAT;0",
    "",
    "refused BadVersion",
)];

/// The directory has no room.
const ON_THE_FULL: &[Row<'static>] = &[
    ("1 RENAME (12,1,0) A.TXT;1 A.TXT;2", "", "refused DupFile"),
    ("1 RENAME (12,1,0) A.TXT;1 C.TXT;0", "", "refused DirFull"),
];

#[test]
fn new_names_are_refused_in_order(rt: HostRuntime) -> Result<(), Fail> {
    let alloc = rt.alloc();
    check_all(&rt, alloc, &volume(), None, ON_THE_VOLUME)?;
    check_all(&rt, alloc, &last_version(), None, ON_THE_LAST)?;
    check_all(&rt, alloc, &full_directory(), None, ON_THE_FULL)?;
    Ok(())
}

/// The block behind which both names are there, from its second record on.
const BOTH: &[u8] =
    b"\x12\0\xff\x7f\0\x05B.DAT\0\x01\0\x0f\0\x02\0\0\0\x12\0\xff\x7f\0\x05B.TXT\0\x01\0\x0e\0\x01\0\0\0\xff\xff";

/// The block behind which the old name is gone.
const NEW: &[u8] =
    b"\x12\0\xff\x7f\0\x05A.TXT\0\x02\0\x0d\0\x01\0\0\0\x12\0\xff\x7f\0\x05B.DAT\0\x01\0\x0f\0\x02\0\0\0\x12\0\xff\x7f\0\x05B.TXT\0\x01\0\x0e\0\x01\0\0\0\xff\xff";

// A.TXT;1 becomes B.TXT, where version 0 is the first. B.DAT comes into the first block before it leaves the second.
#[test]
fn an_entry_gets_another_name(rt: HostRuntime) -> Result<(), Fail> {
    let row = (
        "1 RENAME (12,1,0) A.TXT;1 B.TXT;0",
        "",
        "S(12) 50 Nothing\nS(12) 51 Nothing\nS(12) 50 Both\nS(12) 50 Done\nB.TXT;1",
    );
    let writes = check(&rt, rt.alloc(), &volume(), None, row)?;
    check_bytes(&rt, &writes, 1, 0, b"\xff\xff");
    check_bytes(&rt, &writes, 2, 28, BOTH);
    check_bytes(&rt, &writes, 3, 0, NEW);
    Ok(())
}
