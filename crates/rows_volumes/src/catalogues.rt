//! Catalogues of directories: second entries, lost files, entries of no file.

use plain_cat::{
    Blocks, Cat, Channels, DirEnt, DirEnts, Fid, File, Files, Flags, Name, NoMemory, QuotaRows,
    Slot, Uic,
};
use std::alloc::Global;
use std::test::Fail;
use vol_faults::{first_loop, first_marked_dir, first_missing_entry};
use vol_parts::Finding;

fn entry(alloc: Global, text: &[u8], num: u32, seq: u16) -> Result<DirEnt, NoMemory> {
    let mut name = Name::new(alloc);
    for byte in text {
        name.push(*byte)?;
    }
    Ok(DirEnt {
        name,
        ver: 1,
        fid: Fid { num, seq },
    })
}

fn file(alloc: Global, seq: u16, dir: bool, marked: bool, entries: DirEnts) -> Slot {
    Slot::Used(File {
        seq,
        owner: Uic(65537),
        dir,
        clusters: 1,
        mark: 0,
        end: 5,
        byte: 0,
        marked,
        written: Blocks::new(alloc),
        entries,
    })
}

/// What a directory of sequence 1 is: whether it is marked, and the identifiers that it has entries for.
#[derive(Clone, Copy)]
struct Directory<'a> {
    marked: bool,
    named: &'a [Fid],
}

/// A directory without an entry.
const EMPTY: Directory = Directory {
    marked: false,
    named: &[],
};

fn directory_slot(alloc: Global, wanted: Directory) -> Result<Slot, NoMemory> {
    let mut entries = DirEnts::new(alloc);
    for fid in wanted.named {
        entries.push(entry(alloc, b"SUB.DIR", fid.num, fid.seq)?)?;
    }
    Ok(file(alloc, 1, true, wanted.marked, entries))
}

/// An entry of the main directory.
#[derive(Clone, Copy)]
struct Named {
    text: &'static [u8],
    num: u32,
    seq: u16,
}

/// The entries of the system files before that of QUOTA.SYS.
const BEFORE: [Named; 8] = [
    Named {
        text: b"000000.DIR",
        num: 4,
        seq: 4,
    },
    Named {
        text: b"BACKUP.SYS",
        num: 8,
        seq: 8,
    },
    Named {
        text: b"BADBLK.SYS",
        num: 3,
        seq: 3,
    },
    Named {
        text: b"BADLOG.SYS",
        num: 9,
        seq: 9,
    },
    Named {
        text: b"BITMAP.SYS",
        num: 2,
        seq: 2,
    },
    Named {
        text: b"CONTIN.SYS",
        num: 7,
        seq: 7,
    },
    Named {
        text: b"CORIMG.SYS",
        num: 5,
        seq: 5,
    },
    Named {
        text: b"INDEXF.SYS",
        num: 1,
        seq: 1,
    },
];

/// Those behind it, and that of an empty directory.
const BEHIND: [Named; 3] = [
    Named {
        text: b"SYSLOST.DIR",
        num: 11,
        seq: 1,
    },
    Named {
        text: b"VOLSET.SYS",
        num: 6,
        seq: 6,
    },
    Named {
        text: b"USER.DIR",
        num: 12,
        seq: 1,
    },
];

fn add_entry(alloc: Global, entries: &mut DirEnts, named: Named) -> Result<(), NoMemory> {
    entries.push(entry(alloc, named.text, named.num, named.seq)?)?;
    Ok(())
}

/// The entries of the system files, of which that of QUOTA.SYS has this sequence, and that of an empty directory.
fn main_directory(alloc: Global, quota_seq: u16) -> Result<Slot, NoMemory> {
    let mut entries = DirEnts::new(alloc);
    for named in &BEFORE {
        add_entry(alloc, &mut entries, *named)?;
    }
    let quota = Named {
        text: b"QUOTA.SYS",
        num: 10,
        seq: quota_seq,
    };
    add_entry(alloc, &mut entries, quota)?;
    for named in &BEHIND {
        add_entry(alloc, &mut entries, *named)?;
    }
    Ok(file(alloc, 4, true, false, entries))
}

/// Adds a file without a block that was written.
fn add_file(alloc: Global, files: &mut Files, seq: u16, dir: bool) -> Result<(), NoMemory> {
    files.push(file(alloc, seq, dir, false, DirEnts::new(alloc)))?;
    Ok(())
}

/// The system files, and the files 12 and 13.
fn all_files(
    alloc: Global,
    quota_seq: u16,
    twelve: Directory,
    thirteen: Directory,
) -> Result<Files, NoMemory> {
    let mut files = Files::new(alloc);
    for seq in 1..4 {
        add_file(alloc, &mut files, seq, false)?;
    }
    files.push(main_directory(alloc, quota_seq)?)?;
    for seq in 5..10 {
        add_file(alloc, &mut files, seq, false)?;
    }
    add_file(alloc, &mut files, 1, false)?;
    add_file(alloc, &mut files, 1, true)?;
    files.push(directory_slot(alloc, twelve)?)?;
    files.push(directory_slot(alloc, thirteen)?)?;
    Ok(files)
}

fn catalogue(alloc: Global, files: Files) -> Cat {
    Cat {
        factor: 4,
        total: 256,
        reserved: 11,
        rows: 64,
        files,
        quota: QuotaRows::new(alloc),
        opens: Channels::new(alloc),
        leaked: 0,
        leaked_numbers: Flags::new(alloc),
    }
}

/// The first finding of the kinds that a catalogue alone tells.
fn first(alloc: Global, cat: &Cat) -> Result<Option<Finding>, NoMemory> {
    if cat.files.items().len() > 4096 {
        return Ok(None);
    }
    if let Some(f) = first_missing_entry(cat) {
        return Ok(Some(f));
    }
    if let Some(f) = first_marked_dir(cat) {
        return Ok(Some(f));
    }
    first_loop(alloc, cat)
}

/// The first finding where QUOTA.SYS has an entry of this sequence, and the directories 12 and 13 are these.
fn first_with(
    alloc: Global,
    quota_seq: u16,
    twelve: Directory,
    thirteen: Directory,
) -> Result<Option<Finding>, NoMemory> {
    let cat = catalogue(alloc, all_files(alloc, quota_seq, twelve, thirteen)?);
    first(alloc, &cat)
}

/// Whether nothing is found where the directories are these.
fn finds_nothing(alloc: Global, twelve: Directory, thirteen: Directory) -> Result<bool, NoMemory> {
    Ok(first_with(alloc, 1, twelve, thirteen)?.is_none())
}

fn finds_system_entry_10(alloc: Global, quota_seq: u16) -> Result<bool, NoMemory> {
    Ok(matches!(
        first_with(alloc, quota_seq, EMPTY, EMPTY)?,
        Some(Finding::SystemEntry(10))
    ))
}

fn finds_marked_directory_13(alloc: Global, thirteen: Directory) -> Result<bool, NoMemory> {
    Ok(matches!(
        first_with(alloc, 1, EMPTY, thirteen)?,
        Some(Finding::MarkedDir(13))
    ))
}

#[test]
fn entries_and_marked_directories(rt: HostRuntime) -> Result<(), Fail> {
    let alloc = rt.alloc();
    let gone = Directory {
        marked: true,
        named: &[],
    };
    assert!(rt;
        finds_nothing(alloc, gone, EMPTY)?,
        "nothing is found of a marked directory without entries"
    );
    assert!(rt;
        finds_system_entry_10(alloc, 10)?,
        "the entry of QUOTA.SYS with another sequence is told"
    );
    let full = Directory {
        marked: true,
        named: &[Fid { num: 1, seq: 1 }],
    };
    assert!(rt;
        finds_marked_directory_13(alloc, full)?,
        "the marked directory 13, which has an entry, is told"
    );
    Ok(())
}

/// The identifiers of the main directory, of the directories 12 and 13, and of an earlier file of the number 12.
const MAIN: Fid = Fid { num: 4, seq: 4 };

const TWELVE: Fid = Fid { num: 12, seq: 1 };

const THIRTEEN: Fid = Fid { num: 13, seq: 1 };

const OLD: Fid = Fid { num: 12, seq: 2 };

fn unmarked(named: &[Fid]) -> Directory {
    Directory {
        marked: false,
        named,
    }
}

/// Whether nothing is found where directory 12 has an entry of directory 13, and that these entries.
fn is_no_loop(alloc: Global, thirteen: &[Fid]) -> Result<bool, NoMemory> {
    finds_nothing(alloc, unmarked(&[THIRTEEN]), unmarked(thirteen))
}

/// Whether a loop at this number is found there.
fn is_loop_at(alloc: Global, thirteen: &[Fid], number: u32) -> Result<bool, NoMemory> {
    Ok(matches!(
        first_with(alloc, 1, unmarked(&[THIRTEEN]), unmarked(thirteen))?,
        Some(Finding::DirLoop(n)) if n == number
    ))
}

#[test]
fn chains_that_lead_back(rt: HostRuntime) -> Result<(), Fail> {
    let alloc = rt.alloc();
    assert!(rt;
        is_no_loop(alloc, &[])?,
        "a directory without entries makes no loop"
    );
    assert!(rt;
        is_no_loop(alloc, &[OLD])?,
        "an entry of an earlier file 12 makes no loop"
    );
    assert!(rt;
        is_loop_at(alloc, &[TWELVE], 12)?,
        "an entry of directory 12 makes a loop at 12"
    );
    assert!(rt;
        is_loop_at(alloc, &[THIRTEEN], 13)?,
        "an entry of directory 13 itself makes a loop at 13"
    );
    assert!(rt;
        is_loop_at(alloc, &[OLD, MAIN], 4)?,
        "an entry of the main directory makes a loop at 4"
    );
    Ok(())
}
