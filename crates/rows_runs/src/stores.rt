//! Texts that are stored as records: what is printed and what the file has then, what is refused, and writes that fail.

use blk_drive::MemImage;
use plain_cat::NoMemory;
use rows_calls::{
    Called, Exchange, Failures, On, Row, Step, Stop, Wrong, answered, call_bytes, check_answer,
    check_same, expect, failing, image_of, play,
};
use std::alloc::Global;
use std::test::Fail;

/// The words of the file that the scripts make.
const WORDS: &[&str] = &["store", "12", "1"];

const RECORDS: &[&str] = &["records", "12", "1"];

/// The file has LBN 100 to 111, and its header is LBN 28.
const FILE: &str = "NODES 1\n\
    1 CREATE R1 MFD A.TXT;0 12 [1,4]\n";

const FILE_REPORT: &str = "1 N1 CREATE R1 (4,4,0) A.TXT;0 12 [1,4] = (12,1,0) A.TXT;1\n\
    end: 1 answered, 0 died, 228 free\n";

const STAT: &str = "NODES 1\n\
    1 STAT (12,1,0)\n";

const TWO: &str = "HELLO\nWORLD!\n";

const TWO_STORED: &str = "stored 2 records, 16 bytes\n";

const TWO_PRINTED: &str = "HELLO\nWORLD!\n2 records\n";

const HELD: &[Step<'static>] = &[
    Step::Call(WORDS, TWO, 0, TWO_STORED),
    Step::Has(100, 0, b"\x05\x00HELLO\x00\x06\x00WORLD!\x00\x00\x00\x00"),
    Step::Finds("accepted\n"),
    Step::Kept(RECORDS, "", 0, TWO_PRINTED),
    Step::Run(
        STAT,
        "1 N1 STAT (12,1,0) = file [1,4] 12 blocks mark 2 end 1,16\n\
         end: 1 answered, 0 died, 228 free\n",
    ),
    Step::Kept(WORDS, TWO, 11, "not empty\n"),
    Step::Kept(WORDS, "", 11, "not empty\n"),
    Step::Stays,
];

/// The last line may lack its line feed.
const NO_END: &[Step<'static>] = &[
    Step::Call(
        &["store", "012", "00001"],
        "HELLO\nWORLD!",
        0,
        "stored 2 records, 16 bytes\n",
    ),
    Step::Kept(RECORDS, "", 0, TWO_PRINTED),
];

/// Lines without a byte.
const EMPTY_LINES: &[Step<'static>] = &[
    Step::Call(WORDS, "\n\n", 0, "stored 2 records, 4 bytes\n"),
    Step::Kept(RECORDS, "", 0, "\n\n2 records\n"),
];

/// No line at all: the header alone is written, and says as before that nothing was written in the file.
const NOTHING: &[Step<'static>] = &[
    Step::Call(WORDS, "", 0, "stored 0 records, 0 bytes\n"),
    Step::Finds("accepted\n"),
    Step::Kept(RECORDS, "", 0, "0 records\n"),
    Step::Call(WORDS, "A", 0, "stored 1 records, 4 bytes\n"),
    Step::Kept(RECORDS, "", 0, "A\n1 records\n"),
];

/// A directory of the system, and files that are not there.
const REFUSED: &[Step<'static>] = &[
    Step::Kept(&["store", "4", "4"], TWO, 11, "no privilege\n"),
    Step::Kept(&["store", "11", "1"], TWO, 11, "no privilege\n"),
    Step::Kept(&["store", "13", "1"], TWO, 11, "no such file\n"),
    Step::Kept(&["store", "12", "0"], TWO, 11, "no such file\n"),
    Step::Kept(&["store", "12", "2"], TWO, 11, "no such file\n"),
    Step::Kept(&["store", "0", "1"], TWO, 11, "no such file\n"),
    Step::Kept(&["store", "65", "1"], TWO, 11, "no such file\n"),
    Step::Kept(&["store", "99999", "65535"], TWO, 11, "no such file\n"),
    Step::Finds("accepted\n"),
];

const STORED: &[Row<'static>] = &[Row {
    on: On::Fresh,
    first: &[Step::Made(FILE, FILE_REPORT)],
    each: &[HELD, NO_END, EMPTY_LINES, NOTHING, REFUSED],
}];

#[test]
fn lines_are_stored(rt: HostRuntime) -> Result<(), Fail> {
    play(rt.alloc(), STORED)?;
    Ok(())
}

/// Words that ask for no store, and volumes on which nothing is stored.
const BAD: &[Row<'static>] = &[
    Row {
        on: On::Zeros(63),
        first: &[
            Step::Kept(&["store"], TWO, 1, "bad words\n"),
            Step::Kept(&["store", "12"], TWO, 1, "bad words\n"),
            Step::Kept(&["store", "12", "1", "1"], TWO, 1, "bad words\n"),
            Step::Kept(&["store", "12", "65536"], TWO, 1, "bad words\n"),
            Step::Kept(&["store", "100000", "1"], TWO, 1, "bad words\n"),
            Step::Kept(&["store", "x", "1"], TWO, 1, "bad words\n"),
            Step::Kept(&["STORE", "12", "1"], TWO, 1, "bad words\n"),
            Step::Kept(&["stored", "12", "1"], TWO, 1, "bad words\n"),
            Step::Kept(WORDS, TWO, 4, "bad size 63\n"),
        ],
        each: &[],
    },
    Row {
        on: On::Zeros(64),
        first: &[Step::Kept(WORDS, TWO, 5, "not accepted: home: BadFormat\n")],
        each: &[],
    },
    Row {
        on: On::Fresh,
        first: &[
            Step::Byte(85, 4, 0xfe),
            Step::Kept(WORDS, TWO, 5, "not accepted: leaked clusters 1\n"),
        ],
        each: &[],
    },
    Row {
        on: On::Fresh,
        first: &[
            Step::Made(
                "NODES 1\n1 MKDIR R1 MFD D [1,4]\n",
                "1 N1 MKDIR R1 (4,4,0) D [1,4] = (12,1,0) D.DIR;1\n\
                 end: 1 answered, 0 died, 230 free\n",
            ),
            Step::Kept(WORDS, TWO, 11, "no privilege\n"),
        ],
        each: &[],
    },
];

#[test]
fn a_store_has_a_file(rt: HostRuntime) -> Result<(), Fail> {
    play(rt.alloc(), BAD)?;
    Ok(())
}

// ---- texts of any bytes

// The fresh volume with the file.
fn with_file(alloc: Global) -> Result<MemImage, Wrong> {
    answered(
        alloc,
        On::Fresh.image(alloc)?,
        Exchange::run(FILE, 0, FILE_REPORT),
    )
}

const NEVER: Failures = Failures { script: 0, out: 0 };

// What a store of these bytes answers. What is wanted names no script.
fn stored(
    alloc: Global,
    image: MemImage,
    bytes: &[u8],
    code: u8,
    text: &str,
) -> Result<MemImage, Wrong> {
    let called = call_bytes(alloc, WORDS, image, bytes, NEVER)?;
    check_answer(alloc, &called, Exchange::worded(WORDS, code, text))?;
    Ok(called.image)
}

// So many letters, with these bytes before them.
fn letters(alloc: Global, front: &[u8], count: usize) -> Result<Vec<u8>, NoMemory> {
    let mut bytes = Vec::from_slice(alloc, front)?;
    for _ in 0..count {
        bytes.push(b'A')?;
    }
    Ok(bytes)
}

// A store of so many letters behind these bytes in the file of 12 blocks.
fn letters_stored(
    alloc: Global,
    front: &[u8],
    count: usize,
    code: u8,
    text: &str,
) -> Result<MemImage, Wrong> {
    let bytes = letters(alloc, front, count)?;
    stored(alloc, with_file(alloc)?, bytes.as_slice(), code, text)
}

#[test]
fn any_bytes_are_stored(rt: HostRuntime) -> Result<(), Fail> {
    let alloc = rt.alloc();
    let image = stored(
        alloc,
        with_file(alloc)?,
        b"\r\n\x00\xff\n\x0b\x0c\x01\n",
        0,
        "stored 3 records, 14 bytes\n",
    )?;
    let image = Step::Has(
        100,
        0,
        b"\x01\x00\r\x00\x02\x00\x00\xff\x03\x00\x0b\x0c\x01\x00\x00\x00",
    )
    .done(alloc, image)?;
    answered(
        alloc,
        image,
        Exchange::worded(RECORDS, 0, ".\n..\n...\n3 records\n"),
    )?;
    Ok(())
}

#[test]
fn a_file_has_room_for_its_blocks(rt: HostRuntime) -> Result<(), Fail> {
    let alloc = rt.alloc();
    let image = letters_stored(alloc, b"", 6142, 0, "stored 1 records, 6144 bytes\n")?;
    let image = answered(alloc, image, Exchange::finds("accepted\n"))?;
    let image = Step::Has(111, 508, b"AAAA").done(alloc, image)?;
    Step::Run(
        STAT,
        "1 N1 STAT (12,1,0) = file [1,4] 12 blocks mark 13 end 13,0\n\
         end: 1 answered, 0 died, 228 free\n",
    )
    .done(alloc, image)?;
    letters_stored(alloc, b"", 6141, 0, "stored 1 records, 6144 bytes\n")?;
    letters_stored(alloc, b"", 6143, 11, "no room\n")?;
    letters_stored(alloc, b"", 6144, 11, "no room\n")?;
    letters_stored(alloc, b"\n", 6142, 11, "no room\n")?;
    Ok(())
}

const LARGE: &str = "NODES 1\n\
    1 CREATE R1 MFD A.TXT;0 68 [1,4]\n";

const LARGE_REPORT: &str = "1 N1 CREATE R1 (4,4,0) A.TXT;0 68 [1,4] = (12,1,0) A.TXT;1\n\
    end: 1 answered, 0 died, 214 free\n";

#[test]
fn a_line_has_a_limit(rt: HostRuntime) -> Result<(), Fail> {
    let alloc = rt.alloc();
    letters_stored(alloc, b"", 32_767, 11, "no room\n")?;
    letters_stored(alloc, b"", 32_768, 11, "line 1 too long\n")?;
    letters_stored(alloc, b"HELLO\n\n", 32_768, 11, "line 3 too long\n")?;
    let image = answered(
        alloc,
        On::Fresh.image(alloc)?,
        Exchange::run(LARGE, 0, LARGE_REPORT),
    )?;
    let bytes = letters(alloc, b"", 32_767)?;
    let image = stored(
        alloc,
        image,
        bytes.as_slice(),
        0,
        "stored 1 records, 32770 bytes\n",
    )?;
    answered(alloc, image, Exchange::finds("accepted\n"))?;
    Ok(())
}

/// A file of 78 blocks, of which the second header lists the last one.
const TWO_HEADERS: &str = "NODES 1\n\
    1 CREATE R1 MFD A.TXT;0 77 [1,4]\n\
    1 EXTEND R1 1\n";

const TWO_HEADERS_REPORT: &str = "1 N1 CREATE R1 (4,4,0) A.TXT;0 77 [1,4] = (12,1,0) A.TXT;1\n\
    2 N1 EXTEND (12,1,0) 1 = 78 blocks\n\
    end: 2 answered, 0 died, 104 free\n";

// A line of as many letters as a line may have, and one of so many.
fn long_lines(alloc: Global, count: usize) -> Result<Vec<u8>, NoMemory> {
    let mut first = letters(alloc, b"", 32_767)?;
    first.push(b'\n')?;
    letters(alloc, first.as_slice(), count)
}

// What is printed of the records of these lines.
fn lines_printed(alloc: Global, lines: &[u8]) -> Result<String, NoMemory> {
    let mut text = String::from_str(alloc, str::from_utf8(lines).unwrap_or(""))?;
    text.push_str("\n2 records\n")?;
    Ok(text)
}

#[test]
fn a_record_goes_on_in_the_next_header(rt: HostRuntime) -> Result<(), Fail> {
    let alloc = rt.alloc();
    let made = Exchange::run(TWO_HEADERS, 0, TWO_HEADERS_REPORT);
    let image = answered(alloc, On::Small.image(alloc)?, made)?;
    let image = answered(alloc, image, Exchange::finds("accepted\n"))?;
    let more = long_lines(alloc, 7_165)?;
    let image = stored(alloc, image, more.as_slice(), 11, "no room\n")?;
    let lines = long_lines(alloc, 7_164)?;
    let told = "stored 2 records, 39936 bytes\n";
    let image = stored(alloc, image, lines.as_slice(), 0, told)?;
    let image = answered(alloc, image, Exchange::finds("accepted\n"))?;
    let printed = lines_printed(alloc, lines.as_slice())?;
    answered(alloc, image, Exchange::worded(RECORDS, 0, printed.as_str()))?;
    Ok(())
}

#[test]
fn a_text_has_a_limit(rt: HostRuntime) -> Result<(), Fail> {
    let alloc = rt.alloc();
    letters_stored(alloc, b"", 1_048_577, 2, "script too long\n")?;
    letters_stored(alloc, b"", 1_048_576, 11, "line 1 too long\n")?;
    Ok(())
}

// ---- calls that fail

// What is to be printed of a store of TWO of which a write fails, and then of the records, and of the same store once more.
struct Cut {
    stop: Stop,
    records: &'static str,
    code: u8,
    again: &'static str,
}

const CUTS: &[Cut] = &[
    Cut {
        stop: Stop {
            write: 1,
            lands: false,
        },
        records: "0 records\n",
        code: 0,
        again: TWO_STORED,
    },
    Cut {
        stop: Stop {
            write: 1,
            lands: true,
        },
        records: "0 records\n",
        code: 0,
        again: TWO_STORED,
    },
    Cut {
        stop: Stop {
            write: 2,
            lands: false,
        },
        records: "0 records\n",
        code: 0,
        again: TWO_STORED,
    },
    Cut {
        stop: Stop {
            write: 2,
            lands: true,
        },
        records: TWO_PRINTED,
        code: 11,
        again: "not empty\n",
    },
];

// A store of which a write fails.
fn is_cut(alloc: Global, image: &MemImage, wanted: &Cut) -> Result<(), Wrong> {
    let image = failing(alloc, image, wanted.stop)?;
    let image = stored(alloc, image, TWO.as_bytes(), 4, "image fault\n")?;
    let image = answered(alloc, image, Exchange::finds("accepted\n"))?;
    let image = answered(alloc, image, Exchange::worded(RECORDS, 0, wanted.records))?;
    let image = stored(alloc, image, TWO.as_bytes(), wanted.code, wanted.again)?;
    answered(alloc, image, Exchange::worded(RECORDS, 0, TWO_PRINTED))?;
    Ok(())
}

#[test]
fn each_write_of_a_store_may_fail(rt: HostRuntime) -> Result<(), Fail> {
    let alloc = rt.alloc();
    let image = with_file(alloc)?;
    for wanted in CUTS {
        is_cut(alloc, &image, wanted)?;
    }
    let more = Stop {
        write: 3,
        lands: false,
    };
    stored(
        alloc,
        failing(alloc, &image, more)?,
        TWO.as_bytes(),
        0,
        TWO_STORED,
    )?;
    Ok(())
}

// A store of TWO, of which first calls of the source or the sink fail.
fn failed(alloc: Global, image: &MemImage, fails: Failures) -> Result<Called, Wrong> {
    let image = image_of(alloc, image.all(), None)?;
    Ok(call_bytes(alloc, WORDS, image, TWO.as_bytes(), fails)?)
}

#[test]
fn the_text_and_the_output_may_fail(rt: HostRuntime) -> Result<(), Fail> {
    let alloc = rt.alloc();
    let image = with_file(alloc)?;
    let source = failed(alloc, &image, Failures { script: 1, out: 0 })?;
    check_answer(alloc, &source, Exchange::worded(WORDS, 2, "script fault\n"))?;
    check_same(alloc, &source.image, image.all(), "the image stays")?;
    let sink = failed(alloc, &image, Failures { script: 0, out: 1 })?;
    expect(alloc, sink.code == 6, "a fault of the sink")?;
    answered(alloc, sink.image, Exchange::worded(RECORDS, 0, TWO_PRINTED))?;
    Ok(())
}
