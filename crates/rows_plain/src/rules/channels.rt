//! Rows of OPEN, READ, WRITE, CLOSE, and of a file that is deleted while it is open.

use super::replay::{Answer, Command, FIRST, MFD, Step, USER};
use Answer::{
    Bytes, Closed, Deleted, EntryRemoved, Facts, Found, Marked, Opened, Refused, Written,
};
use Command::{CloseFile, Create, Delete, OpenFile, ReadBlock, Stat, WriteBlock};
use plain_cat::Mode;
use plain_cat::Refusal::{
    AccConflict, ChanBusy, EndOfFile, FileLimit, NoPriv, NoSuchFile, NotOpen,
};

// The first bytes of a block of zeros, and of blocks written as ONE and as FIVE.
pub const ZEROS: [u8; 5] = [0, 0, 0, 0, 0];

const ONE: [u8; 5] = [0x4f, 0x4e, 0x45, 0, 0];

pub const FIVE: [u8; 5] = [0x46, 0x49, 0x56, 0x45, 0];

pub const OPEN_FILE: [Step; 11] = [
    Step {
        command: Create(MFD, "C.DAT", 0, 12, USER),
        answer: Found(12, 1, "C.DAT", 1),
        wrong: &[
            Refused(FileLimit),
            Found(2, 1, "C.DAT", 1),
            Found(12, 1, "C.DAT", 2),
        ],
    },
    Step {
        command: OpenFile(FIRST, Mode::PW),
        answer: Opened,
        wrong: &[Refused(AccConflict), Refused(ChanBusy), Refused(NoPriv)],
    },
    Step {
        command: WriteBlock(1, "ONE"),
        answer: Written,
        wrong: &[Refused(NotOpen), Refused(NoPriv), Refused(EndOfFile)],
    },
    Step {
        command: WriteBlock(5, "FIVE"),
        answer: Written,
        wrong: &[Refused(NotOpen), Refused(NoPriv), Refused(EndOfFile)],
    },
    Step {
        command: ReadBlock(3),
        answer: Bytes(ZEROS),
        wrong: &[Bytes(ONE), Bytes(FIVE), Refused(EndOfFile)],
    },
    Step {
        command: ReadBlock(7),
        answer: Bytes(ZEROS),
        wrong: &[Bytes(ONE), Bytes(FIVE), Refused(EndOfFile)],
    },
    Step {
        command: ReadBlock(5),
        answer: Bytes(FIVE),
        wrong: &[
            Bytes(ZEROS),
            Bytes([0x46, 0x49, 0x56, 0x46, 0]),
            Refused(EndOfFile),
        ],
    },
    Step {
        command: ReadBlock(13),
        answer: Refused(EndOfFile),
        wrong: &[Bytes(ZEROS), Refused(NotOpen), Refused(NoPriv)],
    },
    Step {
        command: WriteBlock(13, "X"),
        answer: Refused(EndOfFile),
        wrong: &[Written, Refused(NotOpen), Refused(NoPriv)],
    },
    Step {
        command: Stat(FIRST),
        answer: Facts(false, USER, 12, 6, 6),
        wrong: &[
            Facts(false, USER, 12, 5, 6),
            Facts(false, USER, 12, 6, 5),
            Facts(false, USER, 16, 6, 6),
        ],
    },
    Step {
        command: CloseFile,
        answer: Closed(false),
        wrong: &[Closed(true), Deleted, Refused(NotOpen)],
    },
];

pub const DELETED_WHILE_OPEN: [Step; 4] = [
    Step {
        command: Create(MFD, "A.TXT", 0, 4, USER),
        answer: Found(12, 1, "A.TXT", 1),
        wrong: &[
            Refused(FileLimit),
            Found(3, 1, "A.TXT", 1),
            Found(12, 1, "A.TXT", 2),
        ],
    },
    Step {
        command: OpenFile(FIRST, Mode::EX),
        answer: Opened,
        wrong: &[Refused(AccConflict), Refused(NoPriv), Written],
    },
    Step {
        command: Delete(MFD, "A.TXT", 0),
        answer: Marked,
        wrong: &[Deleted, EntryRemoved, Refused(NoSuchFile)],
    },
    Step {
        command: CloseFile,
        answer: Closed(true),
        wrong: &[Closed(false), Deleted, Refused(NotOpen)],
    },
];
