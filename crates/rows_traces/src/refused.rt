//! What is refused: the texts and the statuses are those of `vmsclus`, and there are no lines before them.

use crate::tracing::{FRESH, REBUILD, check, traced};
use rows_calls::{Exchange, On, Row, Step, check_answer};
use std::test::Fail;

/// Words that ask for no trace.
const WORDS: &[&[&str]] = &[
    &[""],
    &["run"],
    &["rebuild"],
    &["-rebuild"],
    &["--REBUILD"],
    &["--rebuild "],
    &["--rebuild", ""],
    &["--rebuild", "--rebuild"],
    &["run", "--rebuild"],
    &["--rebuild", "1", "1"],
];

#[test]
fn other_words_are_bad(rt: HostRuntime) -> Result<(), Fail> {
    for words in WORDS {
        let wanted = Exchange::worded(words, 1, "bad words\n");
        let called = traced(rt.alloc(), FRESH, words, "")?;
        check_answer(rt.alloc(), &called, wanted)?;
    }
    Ok(())
}

/// Scripts on the fresh volume, with the status and the text.
const SCRIPTS: &[(&str, u8, &str)] = &[
    ("", 3, "bad line 1\n"),
    ("NODES 2\n1 LIST MFD\n3 LIST MFD\n", 3, "bad line 3\n"),
    ("NODES 1\nSCHED 1*65536 1\n", 3, "too many\n"),
];

/// A volume in which something is found, and images of no volume's size.
const VOLUMES: &[(Row<'static>, u8, &str)] = &[
    (
        Row {
            on: On::Fresh,
            first: &[Step::Byte(21, 100, 1)],
            each: &[],
        },
        5,
        "not accepted: header 5: BadSum\n",
    ),
    (
        Row {
            on: On::Zeros(63),
            first: &[],
            each: &[],
        },
        4,
        "bad size 63\n",
    ),
];

// What has to come of a script with these words.
fn wanted<'a>(words: &'a [&'a str], script: &'a str, code: u8, text: &'a str) -> Exchange<'a> {
    Exchange {
        words,
        script,
        code,
        text,
    }
}

#[test]
fn bad_scripts_are_refused(rt: HostRuntime) -> Result<(), Fail> {
    for (script, code, text) in SCRIPTS {
        check(rt.alloc(), FRESH, wanted(&[], script, *code, text))?;
        check(rt.alloc(), FRESH, wanted(REBUILD, script, *code, text))?;
    }
    Ok(())
}

#[test]
fn bad_volumes_are_refused(rt: HostRuntime) -> Result<(), Fail> {
    for (volume, code, text) in VOLUMES {
        check(rt.alloc(), *volume, wanted(&[], "NODES 1\n", *code, text))?;
        check(
            rt.alloc(),
            *volume,
            wanted(REBUILD, "NODES 1\n", *code, text),
        )?;
    }
    Ok(())
}
