//! Calls of the image, the source and the sink fail, before anything is written.

use base_words::Block;
use blk_drive::{Fail as Failing, MemImage};
use rows_calls::{
    Called, Exchange, Failures, On, Wrong, call, call_with, check_answer, check_same, expect,
    image_of,
};
use std::alloc::Global;
use std::test::Fail;

/// Jobs that go well on a small volume with an empty file: their words, and a script or a text for those that read one.
const JOBS: &[(&[&str], &str)] = &[
    (&["run"], MAKING),
    (&["run", "--rebuild"], MAKING),
    (&["soak", "1"], ""),
    (&["analyze"], ""),
    (&["rebuild"], ""),
    (&["repair"], ""),
    (&["records", "3", "3"], ""),
    (&["store", "12", "1"], "HELLO\n"),
    (&["init", "1", "32", "TINY"], ""),
];

const MAKING: &str = "NODES 1\n1 CREATE R1 MFD A.TXT;0 1 [1,4]\n";

// That volume. Its file is (12,1,0).
fn volume(alloc: Global) -> Result<MemImage, Wrong> {
    let called = call(alloc, &["run"], On::Tiny.image(alloc)?, MAKING)?;
    expect(alloc, called.code == 0, MAKING)?;
    Ok(called.image)
}

// A call has to have this answer, and these blocks.
fn check_left(
    alloc: Global,
    called: &Called,
    wanted: Exchange<'_>,
    blocks: &[Block],
) -> Result<(), Wrong> {
    check_answer(alloc, called, wanted)?;
    check_same(alloc, &called.image, blocks, wanted.script)
}

// A call of the image fails: it is told, and nothing is written. The first call asks for the number of blocks, and each of the next 64
// reads one.
fn each_fails(alloc: Global, image: &MemImage, words: &[&str], script: &str) -> Result<(), Wrong> {
    let wanted = Exchange {
        words,
        script,
        code: 4,
        text: "image fault\n",
    };
    for number in 1..66u64 {
        let fail = Failing {
            call: number,
            lands: false,
        };
        let called = call(
            alloc,
            words,
            image_of(alloc, image.all(), Some(fail))?,
            script,
        )?;
        check_left(alloc, &called, wanted, image.all())?;
    }
    Ok(())
}

#[test]
fn each_read_fails(rt: HostRuntime) -> Result<(), Fail> {
    let alloc = rt.alloc();
    let image = volume(alloc)?;
    for (words, script) in JOBS {
        each_fails(alloc, &image, words, script)?;
    }
    Ok(())
}

/// A source that fails, and a sink.
const SOURCE: Failures = Failures { script: 1, out: 0 };

const SINK: Failures = Failures { script: 0, out: 1 };

/// The script of a run cannot be read: the image is not looked at. Another number than 0 stays, though its text is not told.
const UNTOLD: &[(&[&str], &str, Failures, u8, &str)] = &[
    (&["run"], "NODES 1\n", SOURCE, 2, "script fault\n"),
    (
        &["run", "--rebuild"],
        "NODES 1\n",
        SOURCE,
        2,
        "script fault\n",
    ),
    (&["run"], "", SINK, 3, ""),
    (&["run", "now"], "", SINK, 1, ""),
    (&["init", "17", "32", "TINY"], "", SINK, 9, ""),
    (&["records", "2", "2"], "", SINK, 10, ""),
    (&["records", "12", "1"], "", SINK, 11, ""),
    (&["store", "12", "1"], "A", SOURCE, 2, "script fault\n"),
    (&["store", "12", "1"], "A", SINK, 11, ""),
];

#[test]
fn the_source_or_the_sink_fails(rt: HostRuntime) -> Result<(), Fail> {
    let alloc = rt.alloc();
    let fresh = On::Tiny.image(alloc)?;
    for (words, script, fails, code, text) in UNTOLD {
        let wanted = Exchange {
            words,
            script,
            code: *code,
            text,
        };
        let copy = image_of(alloc, fresh.all(), None)?;
        let called = call_with(alloc, words, copy, script, *fails)?;
        check_left(alloc, &called, wanted, fresh.all())?;
    }
    Ok(())
}

// A sink that fails at its first write has no byte. The number of a job that went well is 6 then, and its image is the same.
fn fails_to_tell(
    alloc: Global,
    image: &MemImage,
    words: &[&str],
    script: &str,
) -> Result<(), Wrong> {
    let whole = call(alloc, words, image_of(alloc, image.all(), None)?, script)?;
    expect(alloc, whole.code == 0, script)?;
    let wanted = Exchange {
        words,
        script,
        code: 6,
        text: "",
    };
    let copy = image_of(alloc, image.all(), None)?;
    let called = call_with(alloc, words, copy, script, SINK)?;
    check_left(alloc, &called, wanted, whole.image.all())
}

#[test]
fn the_sink_fails(rt: HostRuntime) -> Result<(), Fail> {
    let alloc = rt.alloc();
    let image = volume(alloc)?;
    for (words, script) in JOBS {
        fails_to_tell(alloc, &image, words, script)?;
    }
    Ok(())
}
