//! Nodes die, others go on, and the volume is mended. What a death leaves of its command is put on the catalogue by hand. From there
//! the judge takes it as a death that leaves nothing of a command; at the stage itself it is illegal, since the entry does not tell the
//! command.

use super::histories::{Happens, Instead, Passage, enter, pass, small_catalogue, unname};
use super::replay::{Answer, Command, FIRST, Item, LOST, MFD, Replay, USER, long_name, name_of};
use Answer::{Deleted, EntryRemoved, Facts, Found, Listed, Refused, Renamed};
use Command::{Create, Delete, List, Lookup, MkDir, Rename, Stat};
use Happens::{Answered, Dies, Mends};
use Instead::{Counts, Death, Reply};
use plain_cat::Refusal::{
    DeviceFull, DirFull, DupFile, ExQuota, IndexFull, NoQuota, NoSuchFile, NotDir,
};
use plain_cat::{DirEnt, Fid, NoMemory, Stage};
use std::alloc::Global;
use std::process::Abort;
use std::test::Fail;

// The eight numbers behind 12, those behind 24, and those behind 33.
const EIGHT: [u32; 8] = [13, 14, 15, 16, 17, 18, 19, 20];

const NEXT: [u32; 8] = [25, 26, 27, 28, 29, 30, 31, 32];

const BEHIND: [u32; 8] = [34, 35, 36, 37, 38, 39, 40, 41];

// ---- a node is dead before the directory write of its CREATE

const MAKING: [Passage; 1] = [Passage {
    right: Answered(
        1,
        Create(MFD, "A.TXT", 0, 10, USER),
        Found(12, 1, "A.TXT", 1),
    ),
    wrong: &[
        Reply(Found(12, 0, "A.TXT", 1)),
        Reply(Found(11, 1, "A.TXT", 1)),
        Reply(Refused(DirFull)),
    ],
}];

const LOST_ITEMS: [Item; 1] = [("F00012.LST", 1, 12, 1)];

const OTHER_ITEMS: [Item; 1] = [("F00012.LST", 2, 12, 1)];

const AFTER_LOSS: [Passage; 3] = [
    Passage {
        right: Dies((1, Stage::Idle, 16, &EIGHT)),
        wrong: &[
            Death((1, Stage::Lost, 16, &EIGHT)),
            Death((1, Stage::Idle, 229, &EIGHT)),
            Death((1, Stage::Idle, 16, &[12])),
        ],
    },
    Passage {
        right: Answered(2, Lookup(MFD, "A.TXT", 0), Refused(NoSuchFile)),
        wrong: &[
            Reply(Found(12, 1, "A.TXT", 1)),
            Reply(Refused(NotDir)),
            Reply(Refused(DupFile)),
        ],
    },
    Passage {
        right: Answered(
            2,
            Create(MFD, "B.TXT", 0, 4, USER),
            Found(21, 1, "B.TXT", 1),
        ),
        wrong: &[
            Reply(Found(13, 1, "B.TXT", 1)),
            Reply(Found(12, 2, "B.TXT", 1)),
            Reply(Refused(DeviceFull)),
        ],
    },
];

const MENDED: [Passage; 2] = [
    Passage {
        right: Mends([1, 0, 0, 16, 8]),
        wrong: &[
            Counts([0, 0, 0, 16, 8]),
            Counts([1, 0, 1, 16, 8]),
            Counts([1, 0, 0, 16, 7]),
        ],
    },
    Passage {
        right: Answered(2, List(LOST), Listed(&LOST_ITEMS)),
        wrong: &[
            Reply(Listed(&[])),
            Reply(Listed(&OTHER_ITEMS)),
            Reply(Refused(NotDir)),
        ],
    },
];

// ---- a node is dead between two commands

const STOCKED: [Passage; 6] = [
    Passage {
        right: Answered(
            1,
            Create(MFD, "A.TXT", 0, 4, USER),
            Found(12, 1, "A.TXT", 1),
        ),
        wrong: &[
            Reply(Found(12, 1, "A.TXT", 2)),
            Reply(Found(65, 1, "A.TXT", 1)),
            Reply(Refused(NoQuota)),
        ],
    },
    Passage {
        right: Dies((1, Stage::Idle, 16, &EIGHT)),
        wrong: &[
            Death((0, Stage::Idle, 16, &EIGHT)),
            Death((9, Stage::Idle, 16, &EIGHT)),
            Death((1, Stage::Done, 16, &EIGHT)),
        ],
    },
    Passage {
        right: Answered(
            2,
            Create(MFD, "B.TXT", 0, 308, USER),
            Found(21, 1, "B.TXT", 1),
        ),
        wrong: &[
            Reply(Found(20, 1, "B.TXT", 1)),
            Reply(Refused(ExQuota)),
            Reply(Refused(DeviceFull)),
        ],
    },
    Passage {
        right: Answered(
            2,
            Create(MFD, "C.TXT", 0, 308, USER),
            Found(22, 1, "C.TXT", 1),
        ),
        wrong: &[
            Reply(Found(21, 1, "C.TXT", 1)),
            Reply(Refused(IndexFull)),
            Reply(Refused(DeviceFull)),
        ],
    },
    Passage {
        right: Answered(
            2,
            Create(MFD, "D.TXT", 0, 240, USER),
            Found(23, 1, "D.TXT", 1),
        ),
        wrong: &[
            Reply(Found(22, 1, "D.TXT", 1)),
            Reply(Refused(ExQuota)),
            Reply(Refused(DeviceFull)),
        ],
    },
    Passage {
        right: Answered(2, Create(MFD, "E.TXT", 0, 4, USER), Refused(DeviceFull)),
        wrong: &[
            Reply(Found(24, 1, "E.TXT", 1)),
            Reply(Refused(IndexFull)),
            Reply(Refused(ExQuota)),
        ],
    },
];

const UNSTOCKED: [Passage; 1] = [Passage {
    right: Mends([0, 0, 0, 16, 8]),
    wrong: &[
        Counts([0, 0, 0, 0, 8]),
        Counts([0, 0, 0, 16, 0]),
        Counts([1, 0, 0, 16, 8]),
    ],
}];

// ---- a node is dead between the two writes of its RENAME

const RENAMED: [Passage; 1] = [Passage {
    right: Answered(1, Rename(MFD, "A.TXT", 1, "B.TXT", 0), Renamed("B.TXT", 1)),
    wrong: &[
        Reply(Renamed("B.TXT", 2)),
        Reply(Refused(DupFile)),
        Reply(Refused(NoSuchFile)),
    ],
}];

const AFTER_BOTH: [Passage; 4] = [
    Passage {
        right: Dies((1, Stage::Nothing, 0, &[])),
        wrong: &[
            Death((1, Stage::Both, 0, &[])),
            Death((1, Stage::Nothing, 0, &[12])),
            Death((1, Stage::Nothing, 0, &[11])),
        ],
    },
    Passage {
        right: Mends([0, 1, 0, 0, 0]),
        wrong: &[
            Counts([0, 0, 0, 0, 0]),
            Counts([0, 2, 0, 0, 0]),
            Counts([0, 1, 1, 0, 0]),
        ],
    },
    Passage {
        right: Answered(2, Lookup(MFD, "A.TXT", 1), Found(12, 1, "A.TXT", 1)),
        wrong: &[
            Reply(Refused(NoSuchFile)),
            Reply(Found(12, 1, "B.TXT", 1)),
            Reply(Found(13, 1, "A.TXT", 1)),
        ],
    },
    Passage {
        right: Answered(2, Delete(MFD, "B.TXT", 1), Refused(NoSuchFile)),
        wrong: &[Reply(Deleted), Reply(EntryRemoved), Reply(Refused(NotDir))],
    },
];

fn first_entry(alloc: Global) -> Result<DirEnt, NoMemory> {
    Ok(DirEnt {
        name: name_of(alloc, "A.TXT")?,
        ver: 1,
        fid: FIRST,
    })
}

// ---- the rows so far

/// What comes next in a row.
#[derive(Clone, Copy)]
enum Act<'a> {
    /// These entries, in turn.
    Pass(&'a [Passage<'a>]),
    /// What a death leaves: the main directory has no entry A.TXT.
    Unnamed,
    /// What a death leaves: the main directory has the entry A.TXT;1 of the first file.
    Named,
    /// So many clusters are free.
    Free(u32),
}

const ROWS: [(&str, &[Act]); 3] = [
    (
        "a lost file is entered",
        &[
            Act::Pass(&MAKING),
            Act::Unnamed,
            Act::Pass(&AFTER_LOSS),
            Act::Free(211),
            Act::Pass(&MENDED),
            Act::Free(227),
        ],
    ),
    (
        "what a dead node had is not free",
        &[
            Act::Pass(&STOCKED),
            Act::Free(0),
            Act::Pass(&UNSTOCKED),
            Act::Free(16),
        ],
    ),
    (
        "a second entry goes",
        &[
            Act::Pass(&MAKING),
            Act::Pass(&RENAMED),
            Act::Named,
            Act::Pass(&AFTER_BOTH),
        ],
    ),
];

fn perform(rt: &impl Abort, alloc: Global, replay: &mut Replay, act: &Act) -> Result<(), Fail> {
    match act {
        Act::Pass(row) => pass(rt, alloc, replay, row),
        Act::Unnamed => Ok(unname(alloc, &mut replay.cat, 4, "A.TXT")?),
        Act::Named => Ok(enter(alloc, &mut replay.cat, 4, first_entry(alloc)?)?),
        Act::Free(free) => {
            assert_eq!(rt; replay.free(), *free, "{}", replay.row);
            Ok(())
        }
    }
}

#[test]
fn deaths_leave_what_is_stated(rt: HostRuntime) -> Result<(), Fail> {
    for (row, acts) in &ROWS {
        let mut replay = Replay::fresh(rt.alloc(), row)?;
        for act in *acts {
            perform(&rt, rt.alloc(), &mut replay, act)?;
        }
    }
    Ok(())
}

// ---- a node is dead while it enters a name before those of a directory

const DIRECTORY: [Passage; 1] = [Passage {
    right: Answered(1, MkDir(MFD, "D", USER), Found(12, 1, "D.DIR", 1)),
    wrong: &[
        Reply(Found(12, 1, "D", 1)),
        Reply(Found(12, 1, "D.DIR", 2)),
        Reply(Refused(NotDir)),
    ],
}];

// A file of the directory is made, under number 12 + k, or 24 for k = 0.
fn make(rt: &impl Abort, alloc: Global, replay: &mut Replay, k: u32) -> Result<(), Fail> {
    let name = long_name(alloc, k)?;
    let name = name.as_str();
    let num = if k == 0 { 24 } else { k.wrapping_add(12) };
    let row = [Passage {
        right: Answered(1, Create(FIRST, name, 0, 0, USER), Found(num, 1, name, 1)),
        wrong: &[
            Reply(Found(12, 1, name, 1)),
            Reply(Found(num, 2, name, 1)),
            Reply(Refused(DirFull)),
        ],
    }];
    pass(rt, alloc, replay, &row)
}

fn find(rt: &impl Abort, alloc: Global, replay: &mut Replay, k: u32) -> Result<(), Fail> {
    let name = long_name(alloc, k)?;
    let name = name.as_str();
    let row = [Passage {
        right: Answered(
            2,
            Lookup(FIRST, name, 0),
            Found(k.wrapping_add(12), 1, name, 1),
        ),
        wrong: &[
            Reply(Found(k.wrapping_add(11), 1, name, 1)),
            Reply(Found(k.wrapping_add(12), 1, name, 2)),
            Reply(Refused(NoSuchFile)),
        ],
    }];
    pass(rt, alloc, replay, &row)
}

const LATE_ITEMS: [Item; 1] = [("F00024.LST", 1, 24, 1)];

const AFTER_ENTERING: [Passage; 3] = [
    Passage {
        right: Dies((1, Stage::Idle, 0, &NEXT)),
        wrong: &[
            Death((1, Stage::Lost, 0, &NEXT)),
            Death((1, Stage::Idle, 0, &[24])),
            Death((1, Stage::Idle, 231, &NEXT)),
        ],
    },
    Passage {
        right: Mends([1, 0, 0, 0, 8]),
        wrong: &[
            Counts([0, 0, 1, 0, 8]),
            Counts([1, 0, 0, 0, 0]),
            Counts([1, 1, 0, 0, 8]),
        ],
    },
    Passage {
        right: Answered(2, List(LOST), Listed(&LATE_ITEMS)),
        wrong: &[
            Reply(Listed(&[])),
            Reply(Listed(&LOST_ITEMS)),
            Reply(Refused(NoSuchFile)),
        ],
    },
];

#[test]
fn the_other_entries_are_found(rt: HostRuntime) -> Result<(), Fail> {
    let alloc = rt.alloc();
    let mut replay = Replay::fresh(alloc, "the other entries are found")?;
    pass(&rt, alloc, &mut replay, &DIRECTORY)?;
    for k in 1..12u32 {
        make(&rt, alloc, &mut replay, k)?;
    }
    make(&rt, alloc, &mut replay, 0)?;
    let lost = long_name(alloc, 0)?;
    unname(alloc, &mut replay.cat, 12, lost.as_str())?;
    pass(&rt, alloc, &mut replay, &AFTER_ENTERING[..1])?;
    for k in 1..12u32 {
        find(&rt, alloc, &mut replay, k)?;
    }
    pass(&rt, alloc, &mut replay, &AFTER_ENTERING[1..])
}

// ---- there is no room for a lost file without blocks

// A file of [SYSLOST] is made, under number 11 + k, or refused where its block is full.
fn crowd(
    rt: &impl Abort,
    alloc: Global,
    replay: &mut Replay,
    k: u32,
    fits: bool,
) -> Result<(), Fail> {
    let name = format!(in alloc; "G{k:05}.LST")?;
    let name = name.as_str();
    let found = Found(k.wrapping_add(11), 1, name, 1);
    let full = Refused(DirFull);
    let row = [Passage {
        right: Answered(
            1,
            Create(LOST, name, 0, 0, USER),
            if fits { found } else { full },
        ),
        wrong: &[
            Reply(if fits { full } else { found }),
            Reply(Refused(IndexFull)),
            Reply(Found(k.wrapping_add(10), 1, name, 1)),
        ],
    }];
    pass(rt, alloc, replay, &row)
}

const LAST: [Passage; 1] = [Passage {
    right: Answered(
        1,
        Create(MFD, "A.TXT", 0, 0, USER),
        Found(33, 1, "A.TXT", 1),
    ),
    wrong: &[
        Reply(Found(32, 1, "A.TXT", 1)),
        Reply(Found(33, 1, "A.TXT", 0)),
        Reply(Refused(DirFull)),
    ],
}];

const AFTER_CROWDING: [Passage; 3] = [
    Passage {
        right: Dies((1, Stage::Idle, 0, &BEHIND)),
        wrong: &[
            Death((1, Stage::Lost, 0, &BEHIND)),
            Death((1, Stage::Idle, 183, &BEHIND)),
            Death((1, Stage::Idle, 0, &[33])),
        ],
    },
    Passage {
        right: Mends([0, 0, 1, 0, 8]),
        wrong: &[
            Counts([1, 0, 0, 0, 8]),
            Counts([0, 0, 0, 0, 8]),
            Counts([0, 0, 1, 0, 9]),
        ],
    },
    Passage {
        right: Answered(2, Stat(Fid { num: 33, seq: 1 }), Refused(NoSuchFile)),
        wrong: &[
            Reply(Facts(false, USER, 0, 1, 1)),
            Reply(Facts(true, USER, 0, 0, 1)),
            Reply(Refused(NotDir)),
        ],
    },
];

#[test]
fn a_lost_file_without_room_goes(rt: HostRuntime) -> Result<(), Fail> {
    let alloc = rt.alloc();
    let mut replay = Replay::of("a lost file without room goes", small_catalogue(alloc)?);
    for k in 1..23u32 {
        crowd(&rt, alloc, &mut replay, k, k < 22)?;
    }
    pass(&rt, alloc, &mut replay, &LAST)?;
    unname(alloc, &mut replay.cat, 4, "A.TXT")?;
    pass(&rt, alloc, &mut replay, &AFTER_CROWDING)?;
    assert_eq!(rt; replay.free(), 182);
    Ok(())
}
