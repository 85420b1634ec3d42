//! Which file a specification means.

use plain_cat::{Cat, Fid, NoMemory};
use rows_sample::fresh_catalogue;
use std::alloc::{AllocError, Global};
use std::test::Fail;
use vol_show::{SpecFault, Target, read_spec, target};

/// What a text means on a catalogue; none where it is no specification.
fn meant(alloc: Global, cat: &Cat, text: &[u8]) -> Result<Option<Target>, NoMemory> {
    match read_spec(alloc, text) {
        Ok(spec) => Ok(Some(target(alloc, cat, &spec)?)),
        Err(SpecFault::Bad) => Ok(None),
        Err(SpecFault::NoMemory) => Err(AllocError),
    }
}

/// Texts, and what each means on the fresh volume.
const ROWS: [(&[u8], Option<Target>); 36] = [
    (b"INDEXF.SYS", Some(Target::Found(Fid { num: 1, seq: 1 }))),
    (b"indexf.sys;1", Some(Target::Found(Fid { num: 1, seq: 1 }))),
    (
        b"[000000]INDEXF.SYS;0",
        Some(Target::Found(Fid { num: 1, seq: 1 })),
    ),
    (
        b"[4,4,0]QUOTA.SYS;1",
        Some(Target::Found(Fid { num: 10, seq: 1 })),
    ),
    (
        b"[000000.000000]SYSLOST.DIR",
        Some(Target::Found(Fid { num: 11, seq: 1 })),
    ),
    (
        b"[000000.000000.000000.000000.000000.000000.000000.000000]QUOTA.SYS",
        Some(Target::Found(Fid { num: 10, seq: 1 })),
    ),
    // an identifier is not looked up
    (b"(13,1,0)", Some(Target::Found(Fid { num: 13, seq: 1 }))),
    (
        b"(0,65535,0)",
        Some(Target::Found(Fid {
            num: 0,
            seq: 65_535,
        })),
    ),
    // no directory: no entry, no directory's entry, not in use, another sequence, a file that is none
    (b"[NONE]X.DAT;1", Some(Target::NoSuchDirectory)),
    (b"[INDEXF]X.DAT", Some(Target::NoSuchDirectory)),
    (b"[SYSLOST.A]X.DAT", Some(Target::NoSuchDirectory)),
    (b"[12,1,0]X.DAT", Some(Target::NoSuchDirectory)),
    (b"[4,1,0]QUOTA.SYS", Some(Target::NoSuchDirectory)),
    (b"[1,1,0]X.DAT", Some(Target::NoSuchDirectory)),
    // no entry of this name, or of this version
    (b"[SYSLOST]X.DAT", Some(Target::NoSuchFile)),
    (b"INDEXF.SYS;2", Some(Target::NoSuchFile)),
    (b"INDEXF.", Some(Target::NoSuchFile)),
    // no specification
    (b"", None),
    (b"INDEXF", None),
    (b"INDEXF.SYS;", None),
    (b"INDEXF.SYS;1;1", None),
    (b"INDEXF.SYS;01", None),
    (b"INDEXF.SYS;32768", None),
    (b"A*.SYS", None),
    (b"[]INDEXF.SYS", None),
    (b"[A..B]X.DAT", None),
    (b"[A.B", None),
    (b"[A]B]X.DAT", None),
    (b"[1,1,1]X.DAT", None),
    (b"[16777216,1,0]X.DAT", None),
    (
        b"[000000.000000.000000.000000.000000.000000.000000.000000.000000]QUOTA.SYS",
        None,
    ),
    (b"(13,1)", None),
    (b"(13,1,1)", None),
    (b"(13,65536,0)", None),
    (b"(13,1,0", None),
    (b"(13,1,0)X", None),
];

#[test]
fn texts_mean_these_files(rt: HostRuntime) -> Result<(), Fail> {
    let alloc = rt.alloc();
    let cat = fresh_catalogue(alloc)?;
    for (text, want) in &ROWS {
        assert!(rt; meant(alloc, &cat, text)? == *want, "{text:?}");
    }
    Ok(())
}
