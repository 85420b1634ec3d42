//! Rows of EXTEND and TRUNC, and of the order of their refusals.

use super::replay::{Answer, Command, FIRST, MFD, Step, USER};
use Answer::{Facts, Found, Refused, Size, Usage};
use Command::{Create, Extend, QuotaShow, Stat, Trunc};
use plain_cat::Fid;
use plain_cat::Refusal::{
    DeviceFull, DupFile, EndOfFile, ExQuota, FileLimit, IndexFull, NoPriv, NoQuota, NoSuchFile,
};

pub const ONE_FILE: [Step; 5] = [
    Step {
        command: Create(MFD, "A.TXT", 0, 10, USER),
        answer: Found(12, 1, "A.TXT", 1),
        wrong: &[
            Refused(DupFile),
            Found(11, 1, "A.TXT", 1),
            Found(12, 1, "A.TXT", 2),
        ],
    },
    Step {
        command: QuotaShow(USER),
        answer: Usage(13, 1088, 0),
        wrong: &[Usage(12, 1088, 0), Usage(11, 1088, 0), Refused(NoQuota)],
    },
    Step {
        command: Stat(FIRST),
        answer: Facts(false, USER, 12, 1, 1),
        wrong: &[
            Facts(false, USER, 10, 1, 1),
            Facts(false, USER, 12, 0, 1),
            Refused(NoSuchFile),
        ],
    },
    Step {
        command: Stat(Fid { num: 12, seq: 2 }),
        answer: Refused(NoSuchFile),
        wrong: &[
            Facts(false, USER, 12, 1, 1),
            Refused(NoPriv),
            Refused(EndOfFile),
        ],
    },
    Step {
        command: Stat(Fid { num: 65, seq: 1 }),
        answer: Refused(NoSuchFile),
        wrong: &[
            Facts(false, USER, 0, 1, 1),
            Refused(IndexFull),
            Refused(EndOfFile),
        ],
    },
];

pub const SEVERAL_HEADERS: [Step; 6] = [
    Step {
        command: Create(MFD, "A.TXT", 0, 308, USER),
        answer: Found(12, 1, "A.TXT", 1),
        wrong: &[
            Refused(FileLimit),
            Found(12, 2, "A.TXT", 1),
            Found(12, 1, "A.TXT", 0),
        ],
    },
    Step {
        command: Extend(FIRST, 1),
        answer: Size(312),
        wrong: &[Refused(FileLimit), Refused(IndexFull), Size(309)],
    },
    Step {
        command: Trunc(FIRST, 304),
        answer: Size(304),
        wrong: &[Size(308), Size(300), Refused(NoPriv)],
    },
    Step {
        command: Extend(FIRST, 4),
        answer: Size(308),
        wrong: &[Size(304), Size(312), Refused(FileLimit)],
    },
    Step {
        command: Create(MFD, "B.TXT", 0, 309, USER),
        answer: Refused(FileLimit),
        wrong: &[
            Found(13, 1, "B.TXT", 1),
            Refused(DeviceFull),
            Refused(ExQuota),
        ],
    },
    Step {
        command: Extend(FIRST, 309),
        answer: Refused(FileLimit),
        wrong: &[Size(620), Refused(DeviceFull), Refused(ExQuota)],
    },
];

/// The file that is made last.
const FOURTH: Fid = Fid { num: 15, seq: 1 };

/// Three files have all the clusters. Of the refusals of an EXTEND the first is answered, where those behind it hold too.
pub const REFUSED_GROWTH: [Step; 9] = [
    Step {
        command: Create(MFD, "A.TXT", 0, 308, USER),
        answer: Found(12, 1, "A.TXT", 1),
        wrong: &[
            Refused(FileLimit),
            Refused(IndexFull),
            Found(11, 1, "A.TXT", 1),
        ],
    },
    Step {
        command: Create(MFD, "B.TXT", 0, 308, USER),
        answer: Found(13, 1, "B.TXT", 1),
        wrong: &[
            Refused(FileLimit),
            Refused(DeviceFull),
            Found(12, 1, "B.TXT", 1),
        ],
    },
    Step {
        command: Create(MFD, "C.TXT", 0, 308, USER),
        answer: Found(14, 1, "C.TXT", 1),
        wrong: &[
            Refused(ExQuota),
            Refused(DeviceFull),
            Found(13, 1, "C.TXT", 1),
        ],
    },
    Step {
        command: Create(MFD, "D.TXT", 0, 0, USER),
        answer: Found(15, 1, "D.TXT", 1),
        wrong: &[
            Refused(ExQuota),
            Refused(DeviceFull),
            Found(14, 1, "D.TXT", 1),
        ],
    },
    Step {
        command: Extend(FOURTH, 1),
        answer: Refused(DeviceFull),
        wrong: &[Refused(ExQuota), Refused(IndexFull), Size(4)],
    },
    Step {
        command: Extend(FOURTH, 308),
        answer: Refused(ExQuota),
        wrong: &[Refused(FileLimit), Refused(DeviceFull), Size(308)],
    },
    Step {
        command: Extend(FOURTH, 309),
        answer: Refused(FileLimit),
        wrong: &[Refused(ExQuota), Refused(DeviceFull), Size(312)],
    },
    Step {
        command: Extend(MFD, 309),
        answer: Refused(NoPriv),
        wrong: &[Refused(FileLimit), Refused(ExQuota), Refused(DeviceFull)],
    },
    Step {
        command: Extend(Fid { num: 15, seq: 2 }, 309),
        answer: Refused(NoSuchFile),
        wrong: &[Refused(NoPriv), Refused(FileLimit), Refused(DeviceFull)],
    },
];
