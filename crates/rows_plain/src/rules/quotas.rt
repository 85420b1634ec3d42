//! Rows of quotas and usage.

use super::replay::{Answer, Command, FIRST, MFD, Replay, STRANGER, SYSTEM, Step, USER};
use Answer::{Found, QuotaKept, Refused, Size, Usage, Written};
use Command::{Create, Extend, QuotaSet, QuotaShow};
use plain_cat::Refusal::{DeviceFull, DirFull, ExQuota, FileLimit, NoPriv, NoQuota, QuotaFull};
use plain_cat::Uic;
use std::alloc::Global;
use std::process::Abort;
use std::test::Fail;

const QUOTA: [Step; 8] = [
    Step {
        command: QuotaSet(USER, 13, 0),
        answer: QuotaKept,
        wrong: &[Refused(QuotaFull), Refused(NoQuota), Usage(0, 13, 0)],
    },
    Step {
        command: Create(MFD, "A.TXT", 0, 12, USER),
        answer: Found(12, 1, "A.TXT", 1),
        wrong: &[
            Refused(ExQuota),
            Found(1, 1, "A.TXT", 1),
            Found(12, 1, "A.TXT", 2),
        ],
    },
    Step {
        command: Create(MFD, "B.TXT", 0, 0, USER),
        answer: Refused(ExQuota),
        wrong: &[
            Refused(NoQuota),
            Refused(DeviceFull),
            Found(13, 1, "B.TXT", 1),
        ],
    },
    Step {
        command: Extend(FIRST, 1),
        answer: Refused(ExQuota),
        wrong: &[Refused(FileLimit), Refused(DeviceFull), Size(16)],
    },
    Step {
        command: QuotaSet(USER, 13, 4),
        answer: QuotaKept,
        wrong: &[Refused(QuotaFull), Refused(ExQuota), Written],
    },
    Step {
        command: Extend(FIRST, 1),
        answer: Size(16),
        wrong: &[Size(13), Size(12), Refused(ExQuota)],
    },
    Step {
        command: Create(MFD, "C.TXT", 0, 0, STRANGER),
        answer: Refused(NoQuota),
        wrong: &[Refused(ExQuota), Refused(DirFull), Found(13, 1, "C.TXT", 1)],
    },
    Step {
        command: QuotaShow(SYSTEM),
        answer: Usage(111, 1088, 0),
        wrong: &[Usage(110, 1088, 0), Usage(100, 1088, 0), Refused(NoQuota)],
    },
];

// 62 owners of group 3 get a row, and the quota file has no other.
fn set_quotas(rt: &impl Abort, alloc: Global, replay: &mut Replay) -> Result<(), Fail> {
    for member in 1..63u32 {
        let step = Step {
            command: QuotaSet(Uic(196608 + member), member, 0),
            answer: QuotaKept,
            wrong: &[Refused(QuotaFull), Refused(NoPriv), Written],
        };
        replay.step(rt, alloc, &step)?;
    }
    Ok(())
}

const NO_ROW: [Step; 1] = [Step {
    command: QuotaSet(STRANGER, 100, 0),
    answer: Refused(QuotaFull),
    wrong: &[QuotaKept, Refused(NoQuota), Refused(ExQuota)],
}];

#[test]
fn usage_stays_below_its_quota(rt: HostRuntime) -> Result<(), Fail> {
    let mut replay = Replay::fresh(rt.alloc(), "usage stays below its quota")?;
    replay.run(&rt, rt.alloc(), &QUOTA)?;
    set_quotas(&rt, rt.alloc(), &mut replay)?;
    replay.run(&rt, rt.alloc(), &NO_ROW)
}
