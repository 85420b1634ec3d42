//! Lost files and the room for them in `[SYSLOST]`.

use plain_cat::{
    Blocks, Cat, Channels, DirEnt, DirEnts, Fid, File, Files, Flags, Name, NoMemory, QuotaRows,
    Slot, Uic,
};
use std::alloc::Global;
use std::test::Fail;
use vol_faults::first_without_room;
use vol_parts::Finding;

// An entry of the file `num`, whose sequence is 1.
fn entry(alloc: Global, text: &[u8], ver: u16, num: u32) -> Result<DirEnt, NoMemory> {
    let mut name = Name::new(alloc);
    for byte in text {
        name.push(*byte)?;
    }
    let fid = Fid { num, seq: 1 };
    Ok(DirEnt { name, ver, fid })
}

// A file of sequence 1 to which something was written.
fn file(alloc: Global) -> File {
    File {
        seq: 1,
        owner: Uic(65540),
        dir: false,
        clusters: 1,
        mark: 0,
        end: 2,
        byte: 0,
        marked: false,
        written: Blocks::new(alloc),
        entries: DirEnts::new(alloc),
    }
}

fn files(alloc: Global) -> [File; 4] {
    [file(alloc), file(alloc), file(alloc), file(alloc)]
}

// A directory with these entries.
fn directory(alloc: Global, entries: DirEnts) -> File {
    let mut dir = file(alloc);
    dir.dir = true;
    dir.entries = entries;
    dir
}

// The master file directory, with its own entry and that of [SYSLOST].
fn main_directory(alloc: Global) -> Result<File, NoMemory> {
    let mut entries = DirEnts::new(alloc);
    entries.push(entry(alloc, b"000000.DIR", 1, 4)?)?;
    entries.push(entry(alloc, b"SYSLOST.DIR", 1, 11)?)?;
    Ok(directory(alloc, entries))
}

// A catalogue of the master file directory, of [SYSLOST] with these entries, and of the files 12 to 15.
fn catalogue(alloc: Global, lost: DirEnts, last: [File; 4]) -> Result<Cat, NoMemory> {
    let mut files = Files::new(alloc);
    for _n in 1..4u32 {
        files.push(Slot::Free(0))?;
    }
    files.push(Slot::Used(main_directory(alloc)?))?;
    for _n in 5..11u32 {
        files.push(Slot::Free(0))?;
    }
    files.push(Slot::Used(directory(alloc, lost)))?;
    for last in last {
        files.push(Slot::Used(last))?;
    }
    Ok(Cat {
        factor: 1,
        total: 64,
        reserved: 2,
        rows: 16,
        files,
        quota: QuotaRows::new(alloc),
        opens: Channels::new(alloc),
        leaked: 0,
        leaked_numbers: Flags::new(alloc),
    })
}

// The number of the file without room.
fn without_room(alloc: Global, lost: DirEnts, last: [File; 4]) -> Result<Option<u32>, NoMemory> {
    let cat = catalogue(alloc, lost, last)?;
    if cat.files.items().len() > 4096 {
        return Ok(None);
    }
    Ok(match first_without_room(alloc, &cat)? {
        Some(Finding::NoRoom(n)) => Some(n),
        _ => None,
    })
}

// The entries of [SYSLOST] where file 13 has the last version of the name for file 12.
fn full(alloc: Global) -> Result<DirEnts, NoMemory> {
    let mut lost = DirEnts::new(alloc);
    lost.push(entry(alloc, b"F00012.LST", 32767, 13)?)?;
    Ok(lost)
}

#[test]
fn lost_files_find_room(rt: HostRuntime) -> Result<(), Fail> {
    let alloc = rt.alloc();
    assert_eq!(rt;
        without_room(alloc, DirEnts::new(alloc), files(alloc))?,
        None
    );
    assert_eq!(rt; without_room(alloc, full(alloc)?, files(alloc))?, Some(12));
    Ok(())
}

#[test]
fn marked_and_empty_files_need_none(rt: HostRuntime) -> Result<(), Fail> {
    let alloc = rt.alloc();
    let mut marked = file(alloc);
    marked.marked = true;
    let last = [marked, file(alloc), file(alloc), file(alloc)];
    assert_eq!(rt; without_room(alloc, full(alloc)?, last)?, None);
    let mut empty = file(alloc);
    empty.mark = 1;
    let last = [empty, file(alloc), file(alloc), file(alloc)];
    assert_eq!(rt; without_room(alloc, full(alloc)?, last)?, None);
    let mut none = DirEnts::new(alloc);
    none.push(entry(alloc, b"GONE.TXT", 1, 10)?)?;
    let last = [
        directory(alloc, none),
        file(alloc),
        file(alloc),
        file(alloc),
    ];
    assert_eq!(rt; without_room(alloc, full(alloc)?, last)?, None);
    Ok(())
}

#[test]
fn entries_that_go_take_no_room(rt: HostRuntime) -> Result<(), Fail> {
    let alloc = rt.alloc();
    let mut lost = DirEnts::new(alloc);
    lost.push(entry(alloc, b"F00012.LST", 32767, 10)?)?;
    assert_eq!(rt; without_room(alloc, lost, files(alloc))?, None);
    Ok(())
}

#[test]
fn lost_files_in_order(rt: HostRuntime) -> Result<(), Fail> {
    let alloc = rt.alloc();
    let mut some = DirEnts::new(alloc);
    some.push(entry(alloc, b"F00014.LST", 32767, 13)?)?;
    assert_eq!(rt; without_room(alloc, some, files(alloc))?, Some(14));
    let mut both = full(alloc)?;
    both.push(entry(alloc, b"F00014.LST", 32767, 15)?)?;
    assert_eq!(rt; without_room(alloc, both, files(alloc))?, Some(12));
    Ok(())
}
