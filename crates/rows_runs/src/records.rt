//! The records of files: which words ask for them, what is printed of a stream, and where there is no such file or no record.

use rows_calls::{On, Row, Step, play};
use std::test::Fail;

/// The words of the file that the scripts make.
const WORDS: &[&str] = &["records", "12", "1"];

const MISSING: &str = "no such file\n";

const HELLO: &str = "NODES 1\n\
    1 CREATE R1 MFD A.TXT;0 12 [1,4]\n\
    1 OPEN 1 (12,1,0) PW\n\
    1 WRITE 1 1 HELLO\n";

const HELLO_REPORT: &str = "1 N1 CREATE R1 (4,4,0) A.TXT;0 12 [1,4] = (12,1,0) A.TXT;1\n\
    2 N1 OPEN 1 (12,1,0) PW = open\n\
    3 N1 WRITE 1 1 HELLO = written\n\
    4 N1 CLOSE 1 = closed\n\
    end: 4 answered, 0 died, 228 free\n";

/// The letters HE are a count of 17,736, and the file ends after 512 bytes.
const TEXT: &[Row<'static>] = &[Row {
    on: On::Fresh,
    first: &[Step::Made(HELLO, HELLO_REPORT)],
    each: &[&[
        Step::Kept(WORDS, "", 10, "bad record at 0\n"),
        Step::Kept(&["records", "012", "00001"], "", 10, "bad record at 0\n"),
        Step::Kept(&["records", "12", "0"], "", 11, MISSING),
        Step::Kept(&["records", "12", "2"], "", 11, MISSING),
        Step::Kept(&["records", "13", "1"], "", 11, MISSING),
        Step::Kept(&["records", "0", "1"], "", 11, MISSING),
        Step::Kept(&["records", "64", "1"], "", 11, MISSING),
        Step::Kept(&["records", "65", "1"], "", 11, MISSING),
        Step::Kept(&["records", "99999", "65535"], "", 11, MISSING),
        Step::Kept(&["records", "4", "4"], "", 11, MISSING),
        Step::Kept(&["records", "11", "1"], "", 11, MISSING),
        Step::Finds("accepted\n"),
    ]],
}];

#[test]
fn a_text_is_no_records(rt: HostRuntime) -> Result<(), Fail> {
    play(rt.alloc(), TEXT)?;
    Ok(())
}

/// Words that ask for none, on no volume at all.
const BAD: &[Row<'static>] = &[
    Row {
        on: On::Zeros(63),
        first: &[
            Step::Kept(&["records"], "", 1, "bad words\n"),
            Step::Kept(&["records", "12"], "", 1, "bad words\n"),
            Step::Kept(&["records", "12", "1", "1"], "", 1, "bad words\n"),
            Step::Kept(&["records", "12", "65536"], "", 1, "bad words\n"),
            Step::Kept(&["records", "100000", "1"], "", 1, "bad words\n"),
            Step::Kept(&["records", "12", "000001"], "", 1, "bad words\n"),
            Step::Kept(&["records", "12", "x"], "", 1, "bad words\n"),
            Step::Kept(&["records", "", "1"], "", 1, "bad words\n"),
            Step::Kept(&["records", "-1", "1"], "", 1, "bad words\n"),
            Step::Kept(&["record", "12", "1"], "", 1, "bad words\n"),
            Step::Kept(&["RECORDS", "12", "1"], "", 1, "bad words\n"),
            Step::Kept(WORDS, "", 4, "bad size 63\n"),
            Step::Kept(&["records", "12", "65535"], "", 4, "bad size 63\n"),
        ],
        each: &[],
    },
    Row {
        on: On::Zeros(64),
        first: &[Step::Kept(WORDS, "", 5, "not accepted: home: BadFormat\n")],
        each: &[],
    },
    Row {
        on: On::Fresh,
        first: &[Step::Byte(85, 4, 0xfe)],
        each: &[&[
            Step::Kept(
                &["records", "3", "3"],
                "",
                5,
                "not accepted: leaked clusters 1\n",
            ),
            Step::Kept(WORDS, "", 5, "not accepted: leaked clusters 1\n"),
        ]],
    },
];

#[test]
fn records_have_a_number_and_a_sequence(rt: HostRuntime) -> Result<(), Fail> {
    play(rt.alloc(), BAD)?;
    Ok(())
}

/// Two rows of quota, with a full stop for each byte that is not printed: the first record is the flags of the first row, and the third
/// goes from its usage to the third row, with both quotas.
const QUOTAS: &str = ".\n.\n..@...............................@.............................";

/// Files that the volume has from the start. Of the storage bitmap the last clusters are free: a count of 65,535.
const SYSTEM: &[Row<'static>] = &[Row {
    on: On::Fresh,
    first: &[
        Step::Kept(&["records", "3", "3"], "", 0, "0 records\n"),
        Step::Kept(&["records", "2", "2"], "", 10, "bad record at 516\n"),
        Step::About(
            &["records", "1", "1"],
            "",
            0,
            "\n\n\n\n",
            "\n\n8074 records\n",
        ),
        Step::About(&["records", "10", "1"], "", 0, QUOTAS, "\n\n966 records\n"),
    ],
    each: &[],
}];

#[test]
fn system_files_have_streams(rt: HostRuntime) -> Result<(), Fail> {
    play(rt.alloc(), SYSTEM)?;
    Ok(())
}

const STREAM: &str = "NODES 1\n\
    1 CREATE R1 MFD A.TXT;0 12 [1,4]\n\
    1 OPEN 1 (12,1,0) PW\n\
    1 WRITE 1 1 AAHELLOXAAWORLD1\n";

const STREAM_REPORT: &str = "1 N1 CREATE R1 (4,4,0) A.TXT;0 12 [1,4] = (12,1,0) A.TXT;1\n\
    2 N1 OPEN 1 (12,1,0) PW = open\n\
    3 N1 WRITE 1 1 AAHELLOXAAWORLD1 = written\n\
    4 N1 CLOSE 1 = closed\n\
    end: 4 answered, 0 died, 228 free\n";

/// The file has LBN 100 to 111, and its header is LBN 28. Its stream are two records: 5 bytes and one of padding, and 6 bytes; and there
/// is its end, at byte 16 of its first block.
const SPELT: &[Step<'static>] = &[
    Step::Made(STREAM, STREAM_REPORT),
    Step::Byte(100, 0, 5),
    Step::Byte(100, 1, 0),
    Step::Byte(100, 8, 6),
    Step::Byte(100, 9, 0),
    Step::Byte(28, 30, 1),
    Step::Byte(28, 32, 16),
    Step::Sum(28),
    Step::Finds("accepted\n"),
    Step::Kept(WORDS, "", 0, "HELLO\nWORLD1\n2 records\n"),
];

/// Bytes outside 32 to 126, and those at the ends of that.
const UNPRINTABLE: &[Step<'static>] = &[
    Step::Byte(100, 3, 0x1f),
    Step::Byte(100, 4, 0x7f),
    Step::Byte(100, 5, 0x20),
    Step::Byte(100, 6, 0x7e),
    Step::Byte(100, 7, 0),
    Step::Byte(100, 10, 0xff),
    Step::Byte(100, 11, 0x0a),
    Step::Kept(WORDS, "", 0, "H.. ~\n..RLD1\n2 records\n"),
];

/// The stream ends elsewhere.
const ENDS: &[Step<'static>] = &[
    Step::Byte(28, 32, 15),
    Step::Sum(28),
    Step::Kept(WORDS, "", 10, "bad record at 8\n"),
    Step::Byte(28, 32, 9),
    Step::Sum(28),
    Step::Kept(WORDS, "", 10, "bad record at 8\n"),
    Step::Byte(28, 32, 8),
    Step::Sum(28),
    Step::Kept(WORDS, "", 0, "HELLO\n1 records\n"),
    Step::Byte(28, 32, 7),
    Step::Sum(28),
    Step::Kept(WORDS, "", 10, "bad record at 0\n"),
    Step::Byte(28, 32, 1),
    Step::Sum(28),
    Step::Kept(WORDS, "", 10, "bad record at 0\n"),
    Step::Byte(28, 32, 0),
    Step::Sum(28),
    Step::Kept(WORDS, "", 0, "0 records\n"),
];

/// A file without an end has no byte, whatever its last byte would be.
const ENDLESS: &[Step<'static>] = &[
    Step::Byte(28, 30, 0),
    Step::Sum(28),
    Step::Finds("accepted\n"),
    Step::Kept(WORDS, "", 0, "0 records\n"),
];

/// The largest count, which goes past the end, and one more, which is too large however much follows.
const COUNTS: &[Step<'static>] = &[
    Step::Byte(100, 0, 4),
    Step::Kept(WORDS, "", 10, "bad record at 6\n"),
    Step::Byte(100, 0, 5),
    Step::Byte(100, 8, 0xff),
    Step::Byte(100, 9, 0x7f),
    Step::Kept(WORDS, "", 10, "bad record at 8\n"),
    Step::Byte(100, 8, 0),
    Step::Byte(100, 9, 0x80),
    Step::Kept(WORDS, "", 10, "bad record at 8\n"),
];

/// Blocks from the mark on show zeros, and without a mark none does: here the second block has 65,535 as its first word.
const MARKS: &[Step<'static>] = &[
    Step::Byte(101, 0, 0xff),
    Step::Byte(101, 1, 0xff),
    Step::Byte(28, 30, 3),
    Step::Byte(28, 32, 0),
    Step::Sum(28),
    Step::About(WORDS, "", 0, "HELLO\nWORLD1\n\n\n\n", "\n\n506 records\n"),
    Step::Byte(28, 76, 0),
    Step::Sum(28),
    Step::Kept(WORDS, "", 10, "bad record at 512\n"),
    Step::Byte(28, 76, 1),
    Step::Byte(28, 30, 1),
    Step::Byte(28, 32, 16),
    Step::Sum(28),
    Step::Kept(WORDS, "", 0, "\n\n\n\n\n\n\n\n8 records\n"),
    Step::Byte(28, 76, 0),
    Step::Sum(28),
    Step::Kept(WORDS, "", 0, "HELLO\nWORLD1\n2 records\n"),
];

/// A record that goes on across blocks: its count of 12,336 is the two digits 0, and behind it 231 records without a byte fill block 25.
const ACROSS: &str = "NODES 1\n\
    1 CREATE R1 MFD A.TXT;0 28 [1,4]\n\
    1 OPEN 1 (12,1,0) PW\n\
    1 WRITE 1 25 LAST\n\
    1 WRITE 1 1 00HELLO\n";

const ACROSS_REPORT: &str = "1 N1 CREATE R1 (4,4,0) A.TXT;0 28 [1,4] = (12,1,0) A.TXT;1\n\
    2 N1 OPEN 1 (12,1,0) PW = open\n\
    3 N1 WRITE 1 25 LAST = written\n\
    4 N1 WRITE 1 1 00HELLO = written\n\
    5 N1 CLOSE 1 = closed\n\
    end: 5 answered, 0 died, 224 free\n";

const STREAMS: &[Row<'static>] = &[
    Row {
        on: On::Fresh,
        first: SPELT,
        each: &[UNPRINTABLE, ENDS, ENDLESS, COUNTS, MARKS],
    },
    Row {
        on: On::Fresh,
        first: &[
            Step::Made(ACROSS, ACROSS_REPORT),
            Step::About(WORDS, "", 0, "HELLO....", "\n\n232 records\n"),
        ],
        each: &[],
    },
];

#[test]
fn streams_print_their_records(rt: HostRuntime) -> Result<(), Fail> {
    play(rt.alloc(), STREAMS)?;
    Ok(())
}
