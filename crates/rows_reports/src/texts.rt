//! Texts of reports, judged from the catalogue of a fresh volume.

use log_check::{Verdict, judge};
use plain_cat::NoMemory;
use plain_rules::{free_clusters, is_accounted};
use rows_sample::fresh_catalogue;
use std::alloc::Global;
use std::test::Fail;

/// What is expected of a report.
#[derive(Clone, Copy, Debug, PartialEq)]
pub enum Said {
    /// So many entries, and so many clusters are free after them.
    Legal(usize, u32),
    Unchecked(usize),
    Illegal(usize),
    NoCatalogue,
}

/// What is said of the bytes of a report on a fresh volume with 231 free clusters.
pub fn said_of_bytes(alloc: Global, text: &[u8]) -> Result<Said, NoMemory> {
    let cat = fresh_catalogue(alloc)?;
    if !is_accounted(&cat) {
        return Ok(Said::NoCatalogue);
    }
    Ok(match judge(alloc, cat, text)? {
        Verdict::Legal { entries, after } => Said::Legal(entries, free_clusters(&after)),
        Verdict::Unchecked(k) => Said::Unchecked(k),
        Verdict::Illegal(k) => Said::Illegal(k),
    })
}

// What is said of a report.
fn said_of(alloc: Global, text: &str) -> Result<Said, NoMemory> {
    said_of_bytes(alloc, text.as_bytes())
}

const FRONT: &str =
    "1 N1 MKDIR R1 (4,4,0) USERS [1,4] = (12,1,0) USERS.DIR;1\n2 N1 CREATE R2 (12,1,0) LOGIN.COM;0 3 [1,4] = (13,1,0) LOGIN.COM;1\n3 N1 CREATE R3 (12,1,0) LOGIN.COM;0 3 [1,4] = (14,1,0) LOGIN.COM;";

const BACK: &str =
    "\n4 N1 LIST (12,1,0) = 2 entries LOGIN.COM;2 (14,1,0) LOGIN.COM;1 (13,1,0)\n5 N1 DELETE (4,4,0) USERS.DIR;1 = refused DirNotEmpty\n6 N1 DELETE (12,1,0) LOGIN.COM;1 = deleted\n7 N1 LIST (12,1,0) = 1 entries LOGIN.COM;2 (14,1,0)\n";

const END: &str = "end: 7 answered, 0 died, 229 free\n";

// Ordinary use: what is said with this version in the reply of line 3, and this last line.
fn said_with(alloc: Global, ver: &str, end: &str) -> Result<Said, NoMemory> {
    let text = format!(in alloc; "{FRONT}{ver}{BACK}{end}")?;
    said_of(alloc, text.as_str())
}

#[test]
fn ordinary_use(rt: HostRuntime) -> Result<(), Fail> {
    let alloc = rt.alloc();
    assert_eq!(rt;
        said_with(alloc, "2", END)?,
        Said::Legal(7, 229),
        "version 2 in line 3"
    );
    assert_eq!(rt;
        said_with(alloc, "3", END)?,
        Said::Illegal(3),
        "version 3 in line 3"
    );
    Ok(())
}

#[test]
fn last_lines(rt: HostRuntime) -> Result<(), Fail> {
    let alloc = rt.alloc();
    let ends = [
        "",
        "end: 7 answered, 0 died, 229 free",
        "end: 6 answered, 0 died, 229 free\n",
        "end: 7 answered, 1 died, 229 free\n",
        "end: 7 answered, 0 died, 228 free\n",
        "end: 7 answered, 0 died, 229 free\n\n",
        "end: 7 answered, 0 died, 229 free\nend: 7 answered, 0 died, 229 free\n",
    ];
    for end in ends {
        assert_eq!(rt; said_with(alloc, "2", end)?, Said::Illegal(8), "{end}");
    }
    let is_early = said_of(
        alloc,
        "end: 0 answered, 0 died, 231 free\n1 N1 LIST (4,4,0) = refused NotDir\n",
    )?;
    assert_eq!(rt; is_early, Said::Illegal(1), "an early end");
    assert_eq!(rt; said_of(alloc, "")?, Said::Illegal(1), "no text");
    assert_eq!(rt;
        said_of(alloc, "end: 0 answered, 0 died, 231 free\n")?,
        Said::Legal(0, 231)
    );
    Ok(())
}

#[test]
fn deaths_and_mendings(rt: HostRuntime) -> Result<(), Fail> {
    let alloc = rt.alloc();
    let rows = [
        (
            "1 N2 died at idle, leaked 0 clusters, 0 numbers\nend: 0 answered, 1 died, 231 free\n",
            Said::Legal(1, 231),
        ),
        (
            "1 N2 died at nothing, leaked 16 clusters, 0 numbers\nend: 0 answered, 1 died, 215 free\n",
            Said::Legal(1, 215),
        ),
        (
            "1 N2 died at idle, leaked 232 clusters, 0 numbers\nend: 0 answered, 1 died, 0 free\n",
            Said::Illegal(1),
        ),
        (
            "1 N9 died at idle, leaked 0 clusters, 0 numbers\nend: 0 answered, 1 died, 231 free\n",
            Said::Illegal(1),
        ),
        (
            "1 N1 died at unlinked, leaked 0 clusters, 0 numbers\n",
            Said::Unchecked(1),
        ),
        (
            "1 N1 died at data only, leaked 0 clusters, 0 numbers\n",
            Said::Unchecked(1),
        ),
        (
            "1 N1 died at idle, leaked 16 clusters, 8 numbers\n",
            Said::Unchecked(1),
        ),
        (
            "1 N1 died at lost, leaked 0 clusters, 08 numbers\n",
            Said::Illegal(1),
        ),
        (
            "1 N2 died at nothing, leaked 16 clusters, 0 numbers\n2 rebuilt: 0 entered, 0 entries removed, 0 files gone, 16 clusters, 0 numbers\nend: 0 answered, 1 died, 231 free\n",
            Said::Legal(2, 231),
        ),
        (
            "1 rebuilt: 0 entered, 0 entries removed, 0 files gone, 1 clusters, 0 numbers\n",
            Said::Illegal(1),
        ),
    ];
    for (text, said) in rows {
        assert_eq!(rt; said_of(alloc, text)?, said, "{text}");
    }
    Ok(())
}

#[test]
fn lines_that_are_none(rt: HostRuntime) -> Result<(), Fail> {
    let alloc = rt.alloc();
    let lines = [
        "2 N1 STAT (4,4,0) = directory [1,1] 4 blocks mark 0 end 5,0\n",
        "1 N1 STAT R1 = refused NoSuchFile\n",
        "1 N1 STAT MFD = directory [1,1] 4 blocks mark 0 end 5,0\n",
        "1 N1  STAT (4,4,0) = directory [1,1] 4 blocks mark 0 end 5,0\n",
        "1 N1 STAT (4,4,0)\n",
        "1 N1 STAT (4,4,0) = directory [1,1] 4 blocks mark 0 end 5,0 \n",
        "1 N9 STAT (4,4,0) = directory [1,1] 4 blocks mark 0 end 5,0\n",
        "1 N1 STAT (4,4,0) = directory [1,1] 4 blocks mark 0 end 5,0",
        "1 N1 CREATE R1 (4,4,0) A.B;0 0 [1,4] = (5,1,0) A.B;1\n",
        "\n",
        "=",
    ];
    for line in lines {
        let text = format!(in alloc; "{line}end: 1 answered, 0 died, 231 free\n")?;
        assert_eq!(rt; said_of(alloc, text.as_str())?, Said::Illegal(1), "{line}");
    }
    let text =
        "1 N1 STAT (4,4,0) = directory [1,1] 4 blocks mark 0 end 5,0\nend: 1 answered, 0 died, 231 free\n";
    assert_eq!(rt; said_of(alloc, text)?, Said::Legal(1, 231));
    Ok(())
}
