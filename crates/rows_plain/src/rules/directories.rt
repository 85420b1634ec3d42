//! Rows of names, versions and directories, up to a full one.

use super::replay::{Answer, Command, FIRST, Item, MFD, Replay, STRANGER, Step, USER, long_name};
use Answer::{Deleted, EntryRemoved, Facts, Found, Listed, Marked, Refused, Renamed};
use Command::{Create, Delete, List, MkDir, Rename, Stat};
use plain_cat::Refusal::{
    BadVersion, DirFull, DirNotEmpty, DupFile, ExQuota, IndexFull, NoPriv, NoQuota, NoSuchFile,
    NotDir,
};
use std::alloc::Global;
use std::process::Abort;
use std::test::Fail;

pub const VERSIONS: [Step; 3] = [
    Step {
        command: Create(MFD, "A.TXT", 32767, 0, USER),
        answer: Found(12, 1, "A.TXT", 32767),
        wrong: &[
            Refused(BadVersion),
            Found(4, 1, "A.TXT", 32767),
            Found(12, 1, "A.TXT", 32766),
        ],
    },
    Step {
        command: Create(MFD, "A.TXT", 0, 0, USER),
        answer: Refused(BadVersion),
        wrong: &[
            Refused(DupFile),
            Found(13, 1, "A.TXT", 1),
            Found(13, 1, "A.TXT", 32767),
        ],
    },
    Step {
        command: Create(MFD, "A.TXT", 32767, 0, USER),
        answer: Refused(DupFile),
        wrong: &[
            Refused(BadVersion),
            Found(12, 1, "A.TXT", 32767),
            Found(13, 1, "A.TXT", 32767),
        ],
    },
];

pub const EMPTY_DIRECTORY: [Step; 4] = [
    Step {
        command: MkDir(MFD, "D", USER),
        answer: Found(12, 1, "D.DIR", 1),
        wrong: &[
            Refused(DupFile),
            Found(12, 1, "D", 1),
            Found(12, 1, "D.DIR", 2),
        ],
    },
    Step {
        command: List(FIRST),
        answer: Listed(&NOTHING),
        wrong: &[Listed(&ITSELF), Refused(NotDir), Refused(NoSuchFile)],
    },
    Step {
        command: Stat(FIRST),
        answer: Facts(true, USER, 4, 0, 5),
        wrong: &[
            Facts(false, USER, 4, 0, 5),
            Facts(true, USER, 4, 1, 1),
            Facts(true, USER, 1, 0, 2),
        ],
    },
    Step {
        command: Create(FIRST, "A.B", 0, 0, STRANGER),
        answer: Refused(NoQuota),
        wrong: &[Refused(ExQuota), Refused(NoPriv), Found(13, 1, "A.B", 1)],
    },
];

const NOTHING: [Item; 0] = [];

const ITSELF: [Item; 1] = [("D.DIR", 1, 12, 1)];

pub const ORDINARY_USE: [Step; 7] = [
    Step {
        command: MkDir(MFD, "USERS", USER),
        answer: Found(12, 1, "USERS.DIR", 1),
        wrong: &[
            Refused(DupFile),
            Found(11, 1, "USERS.DIR", 1),
            Found(12, 1, "USERS.DIR", 2),
        ],
    },
    Step {
        command: Create(FIRST, "LOGIN.COM", 0, 3, USER),
        answer: Found(13, 1, "LOGIN.COM", 1),
        wrong: &[
            Refused(DirFull),
            Found(12, 1, "LOGIN.COM", 1),
            Found(13, 1, "LOGIN.COM", 2),
        ],
    },
    Step {
        command: Create(FIRST, "LOGIN.COM", 0, 3, USER),
        answer: Found(14, 1, "LOGIN.COM", 2),
        wrong: &[
            Refused(DupFile),
            Found(13, 1, "LOGIN.COM", 2),
            Found(14, 1, "LOGIN.COM", 1),
        ],
    },
    Step {
        command: List(FIRST),
        answer: Listed(&BOTH),
        wrong: &[Listed(&RISING), Listed(&SECOND), Refused(NotDir)],
    },
    Step {
        command: Delete(MFD, "USERS.DIR", 1),
        answer: Refused(DirNotEmpty),
        wrong: &[Refused(NoPriv), Deleted, EntryRemoved],
    },
    Step {
        command: Delete(FIRST, "LOGIN.COM", 1),
        answer: Deleted,
        wrong: &[Marked, EntryRemoved, Refused(NoSuchFile)],
    },
    Step {
        command: List(FIRST),
        answer: Listed(&SECOND),
        wrong: &[Listed(&BOTH), Listed(&NOTHING), Refused(NoSuchFile)],
    },
];

const BOTH: [Item; 2] = [("LOGIN.COM", 2, 14, 1), ("LOGIN.COM", 1, 13, 1)];

const RISING: [Item; 2] = [("LOGIN.COM", 1, 13, 1), ("LOGIN.COM", 2, 14, 1)];

const SECOND: [Item; 1] = [("LOGIN.COM", 2, 14, 1)];

pub const RENAMING: [Step; 4] = [
    Step {
        command: Create(MFD, "A.TXT", 0, 10, USER),
        answer: Found(12, 1, "A.TXT", 1),
        wrong: &[
            Refused(DirFull),
            Found(10, 1, "A.TXT", 1),
            Found(12, 1, "A.TXT", 0),
        ],
    },
    Step {
        command: Rename(MFD, "A.TXT", 1, "B.TXT", 0),
        answer: Renamed("B.TXT", 1),
        wrong: &[Renamed("B.TXT", 2), Renamed("A.TXT", 1), Refused(DupFile)],
    },
    Step {
        command: Rename(MFD, "INDEXF.SYS", 1, "X.SYS", 0),
        answer: Refused(NoPriv),
        wrong: &[Renamed("X.SYS", 1), Refused(NoSuchFile), Refused(DupFile)],
    },
    Step {
        command: List(FIRST),
        answer: Refused(NotDir),
        wrong: &[Listed(&NOTHING), Refused(NoSuchFile), Refused(NoPriv)],
    },
];

// The 20 entries that a directory of four blocks has room for.
fn fill(rt: &impl Abort, alloc: Global, replay: &mut Replay) -> Result<(), Fail> {
    for k in 1..21u32 {
        let name = long_name(alloc, k)?;
        let name = name.as_str();
        let step = Step {
            command: Create(FIRST, name, 0, 0, USER),
            answer: Found(12 + k, 1, name, 1),
            wrong: &[
                Refused(DirFull),
                Found(11 + k, 1, name, 1),
                Found(12 + k, 1, name, 2),
            ],
        };
        replay.step(rt, alloc, &step)?;
    }
    Ok(())
}

// No room for one more, until another goes.
fn overfill(rt: &impl Abort, alloc: Global, replay: &mut Replay) -> Result<(), Fail> {
    let seventh = long_name(alloc, 7)?;
    let last = long_name(alloc, 21)?;
    let last = last.as_str();
    let steps = [
        Step {
            command: Create(FIRST, last, 0, 0, USER),
            answer: Refused(DirFull),
            wrong: &[Refused(ExQuota), Refused(IndexFull), Found(33, 1, last, 1)],
        },
        Step {
            command: Delete(FIRST, seventh.as_str(), 0),
            answer: Deleted,
            wrong: &[Marked, EntryRemoved, Refused(NoSuchFile)],
        },
        Step {
            command: Create(FIRST, last, 0, 0, USER),
            answer: Found(33, 1, last, 1),
            wrong: &[
                Refused(DirFull),
                Found(20, 1, last, 1),
                Found(19, 1, last, 1),
            ],
        },
    ];
    replay.run(rt, alloc, &steps)
}

const FULL_DIRECTORY: [Step; 1] = [Step {
    command: MkDir(MFD, "D", USER),
    answer: Found(12, 1, "D.DIR", 1),
    wrong: &[
        Refused(DirFull),
        Found(9, 1, "D.DIR", 1),
        Found(12, 1, "D.", 1),
    ],
}];

#[test]
fn a_directory_fills(rt: HostRuntime) -> Result<(), Fail> {
    let mut replay = Replay::fresh(rt.alloc(), "a directory fills")?;
    replay.run(&rt, rt.alloc(), &FULL_DIRECTORY)?;
    fill(&rt, rt.alloc(), &mut replay)?;
    overfill(&rt, rt.alloc(), &mut replay)
}
