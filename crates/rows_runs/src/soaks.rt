//! Soaks: which words ask for one, what its summary is, and what is told where a write of one fails.

use rows_calls::{
    Exchange, On, Row, Step, Stop, answered, call, failing, lines_with, play, text_of, volume,
    zeros,
};
use std::test::Fail;

/// Words that ask for none, and the greatest number.
const BAD: &[Row<'static>] = &[Row {
    on: On::Zeros(0),
    first: &[
        Step::Call(&["soak"], "", 1, "bad words\n"),
        Step::Call(&["soak", "0"], "", 1, "bad words\n"),
        Step::Call(&["soak", "257"], "", 1, "bad words\n"),
        Step::Call(&["soak", "x"], "", 1, "bad words\n"),
        Step::Call(&["soak", ""], "", 1, "bad words\n"),
        Step::Call(&["soak", "000001"], "", 1, "bad words\n"),
        Step::Call(&["soak", "1", "1"], "", 1, "bad words\n"),
        Step::Call(&["SOAK", "1"], "", 1, "bad words\n"),
        Step::Call(&["soak", "256"], "", 4, "bad size 0\n"),
    ],
    each: &[],
}];

#[test]
fn a_soak_has_a_number(rt: HostRuntime) -> Result<(), Fail> {
    play(rt.alloc(), BAD)?;
    Ok(())
}

// The numbers of reads and hits are those of this order of turns.
const FIRST_SUMMARY: &str = "soak 1: 8 answered, 8 refused, 74 reads, 24 hits, 189 free\n";

// The script of soak 1, and what a run of it says.
const FIRST_SCRIPT: &str = "NODES 4\n\
    1 DELETE MFD F1.DAT;0\n\
    2 LOOKUP R4 MFD F2.DAT;0\n\
    3 EXTEND R7 16\n\
    4 EXTEND R5 8\n\
    1 CREATE R8 MFD F1.DAT;0 30 [1,4]\n\
    2 DELETE MFD F15.DAT;0\n\
    3 LIST MFD\n\
    4 CREATE R1 MFD F12.DAT;0 25 [1,4]\n\
    1 CREATE R7 MFD F3.DAT;0 59 [1,4]\n\
    2 CREATE R6 MFD F1.DAT;0 24 [1,4]\n\
    3 EXTEND R5 16\n\
    4 LIST MFD\n\
    1 CREATE R3 MFD F9.DAT;0 24 [1,4]\n\
    2 EXTEND R4 7\n\
    3 DELETE MFD F9.DAT;0\n\
    4 LIST MFD\n";

const FIRST_END: &str = "\nend: 16 answered, 0 died, 189 free\n";

// A soak leaves what a run of its script leaves, and counts the answers and refusals of that run.
#[test]
fn a_soak_is_a_run_of_its_script(rt: HostRuntime) -> Result<(), Fail> {
    let alloc = rt.alloc();
    let wanted = Exchange::worded(&["soak", "00001"], 0, FIRST_SUMMARY);
    let image = answered(alloc, volume(alloc)?, wanted)?;
    let image = answered(alloc, image, Exchange::finds("accepted\n"))?;
    let run = call(alloc, &["run"], volume(alloc)?, FIRST_SCRIPT)?;
    let report = text_of(&run);
    assert!(rt; report.ends_with(FIRST_END), "{report}");
    assert_eq!(rt; lines_with(report, "refused NoSuchFile"), 8, "refusals");
    assert!(rt; image.all() == run.image.all(), "the image");
    Ok(())
}

// How a soak begins: these two commands name a register into which nothing was put, and take two turns.
const FIRST_LINES: &str = "1 N3 EXTEND (0,0,0) 16 = refused NoSuchFile\n\
    2 N4 EXTEND (0,0,0) 8 = refused NoSuchFile\n";

// A soak stops at a write, behind lines of its answers.
#[test]
fn a_write_of_a_soak_fails(rt: HostRuntime) -> Result<(), Fail> {
    let alloc = rt.alloc();
    let fresh = volume(alloc)?;
    for lands in [false, true] {
        let image = failing(alloc, &fresh, Stop { write: 1, lands })?;
        let stopped = call(alloc, &["soak", "1"], image, "")?;
        let text = text_of(&stopped);
        assert_eq!(rt; stopped.code, 4, "{text}");
        assert!(rt;
            text.starts_with(FIRST_LINES) && text.ends_with("\nimage fault\n"),
            "{text}"
        );
        assert!(rt;
            (stopped.image.all() == fresh.all()) == !lands,
            "landed: {lands}"
        );
    }
    Ok(())
}

// With 1,024 commands, on a volume of 16,384 blocks with clusters of 4 and 4,096 file numbers.
#[test]
fn a_long_soak_leaves_an_accepted_volume(rt: HostRuntime) -> Result<(), Fail> {
    let alloc = rt.alloc();
    let words = ["init", "4", "4096", "BIG"];
    let big = call(alloc, &words, zeros(alloc, 16_384)?, "")?.image;
    let soak = call(alloc, &["soak", "64"], big, "")?;
    assert_eq!(rt; soak.code, 0);
    assert!(rt; text_of(&soak).starts_with("soak 64: "), "the summary");
    let found = call(alloc, &["analyze"], soak.image, "")?;
    assert_eq!(rt; found.code, 0, "the volume");
    Ok(())
}

#[test]
fn a_soak_is_the_same_twice(rt: HostRuntime) -> Result<(), Fail> {
    let alloc = rt.alloc();
    let first = call(alloc, &["soak", "8"], volume(alloc)?, "")?;
    let second = call(alloc, &["soak", "8"], volume(alloc)?, "")?;
    assert_eq!(rt; (first.code, second.code), (0, 0));
    assert!(rt; text_of(&first) == text_of(&second), "the summary");
    assert!(rt; first.image.all() == second.image.all(), "the image");
    Ok(())
}
