//! How many numbers can be taken where a file has extension headers.

use super::histories::{Happens, Instead, Passage, pass};
use super::replay::{Answer, Command, FIRST, MFD, Replay, USER};
use Answer::{Found, Refused, Size};
use Command::{Create, Extend, Trunc};
use Happens::{Answered, Dies, Mends};
use Instead::{Counts, Death, Reply};
use plain_cat::Refusal::{DeviceFull, DirFull, ExQuota, FileLimit, IndexFull};
use plain_cat::{Cat, Stage};
use plain_rules::is_accounted;
use plain_vol::free_count;
use std::process::Abort;
use std::test::Fail;

// File 12 gets 155 clusters, so two extension headers.
const GROWING: [Passage; 3] = [
    Passage {
        right: Answered(
            1,
            Create(MFD, "A.TXT", 0, 308, USER),
            Found(12, 1, "A.TXT", 1),
        ),
        wrong: &[
            Reply(Found(11, 1, "A.TXT", 1)),
            Reply(Refused(FileLimit)),
            Reply(Refused(IndexFull)),
        ],
    },
    Passage {
        right: Answered(1, Extend(FIRST, 308), Size(616)),
        wrong: &[
            Reply(Refused(FileLimit)),
            Reply(Refused(IndexFull)),
            Reply(Size(308)),
        ],
    },
    Passage {
        right: Answered(1, Extend(FIRST, 1), Size(620)),
        wrong: &[
            Reply(Refused(FileLimit)),
            Reply(Refused(IndexFull)),
            Reply(Size(617)),
        ],
    },
];

// 13 to 15 are free, and two of them are extension headers', whichever they are.
const ONE_LEFT: [Passage; 2] = [
    Passage {
        right: Dies((1, Stage::Idle, 0, &[14])),
        wrong: &[
            Death((1, Stage::Idle, 0, &[13, 14])),
            Death((1, Stage::Nothing, 0, &[14, 15])),
            Death((1, Stage::Idle, 0, &[13, 14, 15])),
            Death((1, Stage::Idle, 0, &[12])),
        ],
    },
    Passage {
        right: Answered(2, Create(MFD, "B.TXT", 0, 0, USER), Refused(IndexFull)),
        wrong: &[
            Reply(Found(13, 1, "B.TXT", 1)),
            Reply(Found(15, 1, "B.TXT", 1)),
            Reply(Refused(DirFull)),
            Reply(Refused(DeviceFull)),
        ],
    },
];

// No number is left, and 76 clusters are free: as many as the last header of file 12 has room for.
const NONE_LEFT: [Passage; 4] = [
    Passage {
        right: Answered(2, Extend(FIRST, 308), Refused(IndexFull)),
        wrong: &[
            Reply(Refused(DeviceFull)),
            Reply(Refused(ExQuota)),
            Reply(Size(928)),
        ],
    },
    Passage {
        right: Answered(2, Extend(FIRST, 304), Size(924)),
        wrong: &[
            Reply(Refused(IndexFull)),
            Reply(Refused(DeviceFull)),
            Reply(Size(304)),
        ],
    },
    Passage {
        right: Answered(2, Extend(FIRST, 1), Refused(IndexFull)),
        wrong: &[
            Reply(Refused(DeviceFull)),
            Reply(Refused(FileLimit)),
            Reply(Size(928)),
        ],
    },
    Passage {
        right: Dies((2, Stage::Idle, 0, &[])),
        wrong: &[
            Death((2, Stage::Idle, 0, &[13])),
            Death((2, Stage::Nothing, 0, &[15])),
        ],
    },
];

// File 12 loses a header. Its number is not known, so a new file may show either of the two that are free.
const ONE_MORE: [Passage; 3] = [
    Passage {
        right: Answered(3, Trunc(FIRST, 616), Size(616)),
        wrong: &[
            Reply(Size(620)),
            Reply(Size(924)),
            Reply(Refused(FileLimit)),
        ],
    },
    Passage {
        right: Answered(
            3,
            Create(MFD, "B.TXT", 0, 0, USER),
            Found(15, 1, "B.TXT", 1),
        ),
        wrong: &[
            Reply(Found(14, 1, "B.TXT", 1)),
            Reply(Found(16, 1, "B.TXT", 1)),
            Reply(Refused(IndexFull)),
        ],
    },
    Passage {
        right: Answered(3, Create(MFD, "C.TXT", 0, 0, USER), Refused(IndexFull)),
        wrong: &[
            Reply(Found(13, 1, "C.TXT", 1)),
            Reply(Found(14, 1, "C.TXT", 1)),
            Reply(Refused(DeviceFull)),
        ],
    },
];

const MENDING: [Passage; 1] = [Passage {
    right: Mends([0, 0, 0, 0, 50]),
    wrong: &[
        Counts([0, 0, 0, 0, 52]),
        Counts([0, 0, 0, 0, 49]),
        Counts([1, 0, 0, 0, 50]),
    ],
}];

// All numbers from 16 on are leaked.
fn leak(cat: &mut Cat) {
    for at in 15..cat.leaked_numbers.items().len() {
        if at < cat.leaked_numbers.items().len() {
            cat.leaked_numbers.set(at, true);
        }
    }
}

// So many numbers can be taken.
fn look(rt: &impl Abort, replay: &Replay, numbers: usize) -> Result<(), Fail> {
    if !is_accounted(&replay.cat) {
        return Err(Fail::new("the quotas are not in order"));
    }
    assert_eq!(rt; free_count(&replay.cat), numbers, "{}", replay.row);
    Ok(())
}

#[test]
fn extension_headers_take_numbers(rt: HostRuntime) -> Result<(), Fail> {
    let alloc = rt.alloc();
    let mut replay = Replay::fresh(alloc, "extension headers take numbers")?;
    look(&rt, &replay, 53)?;
    pass(&rt, alloc, &mut replay, &GROWING)?;
    look(&rt, &replay, 50)?;
    leak(&mut replay.cat);
    look(&rt, &replay, 1)?;
    pass(&rt, alloc, &mut replay, &ONE_LEFT)?;
    look(&rt, &replay, 0)?;
    pass(&rt, alloc, &mut replay, &NONE_LEFT)?;
    look(&rt, &replay, 0)?;
    pass(&rt, alloc, &mut replay, &ONE_MORE)?;
    look(&rt, &replay, 0)?;
    pass(&rt, alloc, &mut replay, &MENDING)?;
    look(&rt, &replay, 50)
}
