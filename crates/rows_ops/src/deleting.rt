//! DELETE: a file goes, if nobody has it open; a directory with entries stays; an entry whose file is not in use goes alone.

use crate::plans::{Row, check_all};
use base_words::{Block, put_word};
use rows_sample::volume;
use std::test::Fail;

/// A.TXT;1 goes, and its file of one cluster: the mark, the entries packed and the entry removed, the free slot, both bitmaps, and the row
/// of the owner; the ask for the lock of who has the file open is behind four writes.
const ON_THE_VOLUME: &[Row<'static>] = &[
    (
        "1 DELETE (12,1,0) A.TXT;1",
        "",
        "S(14) 22 Marked\n\
         S(12) 50 Marked\n\
         S(12) 51 Marked\n\
         S(12) 50 Unlinked\n\
         S(14) 22 Freed cluster 26 number 14\n\
         V 43 Freed number 14\n\
         V 8 Freed\n\
         Q 46 Done\n\
         ask for 14 by 0 in EX behind 4, or marked\n\
         deleted",
    ),
    ("1 DELETE (4,4,0) Z.DIR;1", "", "refused DirNotEmpty"),
];

/// The entry of B.DAT has another sequence than its file. The entries are packed, and the entry alone is removed.
const ON_THE_OTHER: &[Row<'static>] = &[(
    "1 DELETE (12,1,0) B.DAT;1",
    "",
    "S(12) 50 Nothing\nS(12) 51 Nothing\nS(12) 50 Done\nentry removed",
)];

// The volume, on which the entry of B.DAT has another sequence than its file.
fn other_sequence() -> [Block; 64] {
    let mut other = volume();
    put_word(&mut other[51], 16, 1);
    other
}

#[test]
fn files_and_entries_go(rt: HostRuntime) -> Result<(), Fail> {
    let alloc = rt.alloc();
    check_all(&rt, alloc, &volume(), None, ON_THE_VOLUME)?;
    check_all(&rt, alloc, &other_sequence(), None, ON_THE_OTHER)?;
    Ok(())
}
