//! CREATE and MKDIR: the refusals, each where none in front of it holds, and the first of two.

use crate::plans::{Row, check_all};
use crate::volumes::{full_directory, last_version};
use rows_sample::volume;
use std::test::Fail;

/// The name of a new directory's entry has the type, and its version is 1. In the last the owner has no quota row, which shows once the
/// quota file's two blocks are seen, behind the directory's header and its two.
const ON_THE_VOLUME: &[Row<'static>] = &[
    (
        "1 CREATE R1 (12,1,0) A.TXT;2 155 [0,11]",
        "",
        "refused DupFile",
    ),
    (
        "1 CREATE R1 (12,1,0) A.TXT;0 155 [0,11]",
        "",
        "refused FileLimit",
    ),
    (
        "1 CREATE R1 (12,1,0) C.TXT;0 154 [0,11]",
        "",
        "refused NoQuota",
    ),
    (
        "1 CREATE R1 (12,1,0) C.TXT;0 154 [0,0]",
        "",
        "refused ExQuota",
    ),
    ("1 MKDIR R1 (4,4,0) Z [0,11]", "", "refused DupFile"),
    (
        "1 CREATE R1 (4,4,0) A.TXT;0 10 [2,2]",
        "S(4) PW Q PW at 12 44 45 46 47",
        "refused NoQuota",
    ),
];

/// B.DAT has the highest version.
const ON_THE_LAST: &[Row<'static>] = &[(
    "1 CREATE R1 (12,1,0) B.DAT;0 155 [0,11]",
    "",
    "refused BadVersion",
)];

/// The directory has no room.
const ON_THE_FULL: &[Row<'static>] = &[(
    "1 CREATE R1 (12,1,0) C.TXT;0 154 [0,11]",
    "",
    "refused DirFull",
)];

#[test]
fn makings_are_refused_in_order(rt: HostRuntime) -> Result<(), Fail> {
    let alloc = rt.alloc();
    check_all(&rt, alloc, &volume(), None, ON_THE_VOLUME)?;
    check_all(&rt, alloc, &last_version(), None, ON_THE_LAST)?;
    check_all(&rt, alloc, &full_directory(), None, ON_THE_FULL)?;
    Ok(())
}
