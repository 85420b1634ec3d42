//! Findings as they are printed.

use fx_header::HeaderFault;
use fx_home::{HomeFault, ScbFault};
use plain_cat::{Name, NoMemory, Uic};
use std::alloc::Global;
use std::process::Abort;
use std::test::Fail;
use vol_analyze::{Finding, push_finding};

const USER: Uic = Uic(65540);

/// Findings, and how each is written.
const TEXTS: [(Finding, &str); 45] = [
    (Finding::Home(HomeFault::BadFormat), "home: BadFormat"),
    (Finding::Home(HomeFault::BadLevel), "home: BadLevel"),
    (Finding::Home(HomeFault::BadSum1), "home: BadSum1"),
    (Finding::Home(HomeFault::BadSum2), "home: BadSum2"),
    (Finding::Home(HomeFault::BadCluster), "home: BadCluster"),
    (Finding::Home(HomeFault::BadFiles), "home: BadFiles"),
    (Finding::Home(HomeFault::BadLayout), "home: BadLayout"),
    (
        Finding::Header(13, HeaderFault::BadSum),
        "header 13: BadSum",
    ),
    (
        Finding::Header(1, HeaderFault::BadLevel),
        "header 1: BadLevel",
    ),
    (
        Finding::Header(2, HeaderFault::BadOffsets),
        "header 2: BadOffsets",
    ),
    (
        Finding::Header(32, HeaderFault::BadRvn),
        "header 32: BadRvn",
    ),
    (
        Finding::Header(4096, HeaderFault::BadExtension),
        "header 4096: BadExtension",
    ),
    (
        Finding::Header(12, HeaderFault::BadMap),
        "header 12: BadMap",
    ),
    (
        Finding::Header(12, HeaderFault::BadEnd),
        "header 12: BadEnd",
    ),
    (Finding::WrongNumber(12), "header 12: WrongNumber"),
    (
        Finding::Scb(ScbFault::BadLevel),
        "storage control block: BadLevel",
    ),
    (
        Finding::Scb(ScbFault::BadSum),
        "storage control block: BadSum",
    ),
    (
        Finding::Scb(ScbFault::BadCluster),
        "storage control block: BadCluster",
    ),
    (
        Finding::Scb(ScbFault::BadSize),
        "storage control block: BadSize",
    ),
    (Finding::DirSize(4), "directory 4: BadSize"),
    (Finding::DirRecord(11), "directory 11: BadRecord"),
    (Finding::DirOrder(12), "directory 12: BadOrder"),
    (Finding::DirClash(13), "directory 13: Clash"),
    (Finding::MarkedDir(14), "marked directory 14"),
    (Finding::DirLoop(15), "directory loop at 15"),
    (Finding::SystemFile(2), "system file 2"),
    (Finding::ChainBroken(12), "chain of 12: Broken"),
    (Finding::ChainSplit(13), "chain of 13: BadSplit"),
    (Finding::Runs(12), "runs of 12"),
    (Finding::Clusters(12), "clusters of 12"),
    (Finding::SharedCluster(65535), "shared cluster 65535"),
    (Finding::QuotaRow(USER), "quota row [1,4]"),
    (Finding::NoQuotaRow(12), "no quota row for 12"),
    (Finding::FreeCluster(0), "free cluster 0 in use"),
    (Finding::FreeNumber(13), "free number 13 in use"),
    (Finding::SystemEntry(4), "system entry 4"),
    (Finding::NoRoom(16), "no room for 16"),
    (Finding::Marked(12), "marked 12"),
    (Finding::Doubles(4), "doubles in 4"),
    (Finding::Lost(13), "lost 13"),
    (Finding::Surplus(14), "surplus of 14"),
    (Finding::Stray(4096), "stray header 4096"),
    (Finding::LeakedClusters(16), "leaked clusters 16"),
    (Finding::LeakedNumbers(8), "leaked numbers 8"),
    (
        Finding::Usage {
            owner: USER,
            has: 14,
            should: 13,
        },
        "usage of [1,4]: has 14, should be 13",
    ),
];

fn check_text(rt: &impl Abort, alloc: Global, f: &Finding, text: &str) -> Result<(), Fail> {
    let mut out = Vec::new(alloc);
    push_finding(alloc, &mut out, f)?;
    assert_eq!(rt; str::from_utf8(out.as_slice()).ok(), Some(text));
    Ok(())
}

#[test]
fn writes_each_finding(rt: HostRuntime) -> Result<(), Fail> {
    for (f, text) in &TEXTS {
        check_text(&rt, rt.alloc(), f, text)?;
    }
    Ok(())
}

fn name_of(alloc: Global, text: &str) -> Result<Name, NoMemory> {
    let mut name = Name::new(alloc);
    for byte in text.as_bytes() {
        name.push(*byte)?;
    }
    Ok(name)
}

#[test]
fn writes_entries(rt: HostRuntime) -> Result<(), Fail> {
    let alloc = rt.alloc();
    let none = Finding::NamesNone {
        name: name_of(alloc, "A.TXT")?,
        ver: 1,
        dir: 4,
    };
    check_text(&rt, alloc, &none, "entry A.TXT;1 in 4 names no file")?;
    let second = Finding::Second {
        name: name_of(alloc, "B.DAT")?,
        ver: 32767,
        dir: 12,
    };
    check_text(&rt, alloc, &second, "second entry B.DAT;32767 in 12")
}

/// The findings, each on a line.
pub(crate) fn written(alloc: Global, found: &[Finding]) -> Result<Vec<u8>, NoMemory> {
    let mut out = Vec::new(alloc);
    for f in found {
        push_finding(alloc, &mut out, f)?;
        out.push(b'\n')?;
    }
    Ok(out)
}
