//! Two nodes share an open file, which is deleted meanwhile.

use super::histories::{Happens, Instead, Passage, pass};
use super::replay::{Answer, Command, FIRST, MFD, Replay, USER};
use Answer::{Bytes, Closed, Deleted, EntryRemoved, Found, Marked, Opened, Refused, Written};
use Command::{CloseFile, Create, Delete, Lookup, OpenFile, ReadBlock, WriteBlock};
use Happens::Answered;
use Instead::Reply;
use plain_cat::Mode;
use plain_cat::Refusal::{AccConflict, ChanBusy, DupFile, EndOfFile, NoPriv, NoSuchFile, NotOpen};
use std::test::Fail;

/// The first bytes of a block written as HELLO.
pub const HELLO: [u8; 5] = [0x48, 0x45, 0x4c, 0x4c, 0x4f];

const ROW: [Passage; 8] = [
    Passage {
        right: Answered(
            1,
            Create(MFD, "B.DAT", 0, 4, USER),
            Found(12, 1, "B.DAT", 1),
        ),
        wrong: &[
            Reply(Found(11, 1, "B.DAT", 1)),
            Reply(Found(12, 2, "B.DAT", 1)),
            Reply(Refused(DupFile)),
        ],
    },
    Passage {
        right: Answered(1, OpenFile(FIRST, Mode::CW), Opened),
        wrong: &[
            Reply(Refused(AccConflict)),
            Reply(Refused(ChanBusy)),
            Reply(Written),
        ],
    },
    Passage {
        right: Answered(2, Lookup(MFD, "B.DAT", 0), Found(12, 1, "B.DAT", 1)),
        wrong: &[
            Reply(Found(12, 1, "B.DAT", 0)),
            Reply(Found(13, 1, "B.DAT", 1)),
            Reply(Refused(NoSuchFile)),
        ],
    },
    Passage {
        right: Answered(2, OpenFile(FIRST, Mode::PR), Refused(AccConflict)),
        wrong: &[
            Reply(Opened),
            Reply(Refused(ChanBusy)),
            Reply(Refused(NoPriv)),
        ],
    },
    Passage {
        right: Answered(2, Delete(MFD, "B.DAT", 0), Marked),
        wrong: &[
            Reply(Deleted),
            Reply(EntryRemoved),
            Reply(Refused(AccConflict)),
        ],
    },
    Passage {
        right: Answered(1, WriteBlock(1, "HELLO"), Written),
        wrong: &[
            Reply(Refused(NotOpen)),
            Reply(Refused(NoPriv)),
            Reply(Refused(EndOfFile)),
        ],
    },
    Passage {
        right: Answered(1, ReadBlock(1), Bytes(HELLO)),
        wrong: &[
            Reply(Bytes([0; 5])),
            Reply(Refused(NotOpen)),
            Reply(Refused(NoSuchFile)),
        ],
    },
    Passage {
        right: Answered(1, CloseFile, Closed(true)),
        wrong: &[
            Reply(Closed(false)),
            Reply(Deleted),
            Reply(Refused(NotOpen)),
        ],
    },
];

#[test]
fn two_nodes_share_a_file(rt: HostRuntime) -> Result<(), Fail> {
    let mut replay = Replay::fresh(rt.alloc(), "two nodes share a file")?;
    pass(&rt, rt.alloc(), &mut replay, &ROW)?;
    assert_eq!(rt; replay.free(), 231);
    Ok(())
}
