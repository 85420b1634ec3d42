//! Calls of the program over images in memory.

use blk_drive::MemImage;
use clus_top::vmsclus;
use fx_text::{MemIn, MemOut, Word};
use plain_cat::NoMemory;
use std::alloc::Global;

/// What a call answered.
#[derive(Drop)]
pub struct Called {
    pub code: u8,
    pub out: MemOut,
    pub image: MemImage,
}

/// Which of the first calls fail: of the script, and of the sink.
#[derive(Clone, Copy)]
pub struct Failures {
    pub script: u64,
    pub out: u64,
}

const NONE: Failures = Failures { script: 0, out: 0 };

/// A call with these words and a script of any bytes, of which some calls of the script and the sink fail.
pub fn call_bytes(
    alloc: Global,
    words: &[&str],
    image: MemImage,
    script: &[u8],
    fails: Failures,
) -> Result<Called, NoMemory> {
    let mut given = Vec::new(alloc);
    for word in words {
        given.push(Word::new(alloc, word.as_bytes())?)?;
    }
    let bytes = Vec::from_slice(alloc, script)?;
    let mut script = MemIn::new(bytes, vec![in alloc; fails.script]?);
    let mut out = MemOut::new(alloc, 1_000_000, vec![in alloc; fails.out]?)?;
    let finished = vmsclus(alloc, given.as_slice(), image, &mut script, &mut out);
    Ok(Called {
        code: finished.status.code(),
        out,
        image: finished.image,
    })
}

/// The same with a script of text.
pub fn call_with(
    alloc: Global,
    words: &[&str],
    image: MemImage,
    script: &str,
    fails: Failures,
) -> Result<Called, NoMemory> {
    call_bytes(alloc, words, image, script.as_bytes(), fails)
}

/// A call with these words, whose script and sink do not fail.
pub fn call(
    alloc: Global,
    words: &[&str],
    image: MemImage,
    script: &str,
) -> Result<Called, NoMemory> {
    call_with(alloc, words, image, script, NONE)
}

/// The words and the script of a call, and its answer.
#[derive(Clone, Copy)]
pub struct Exchange<'a> {
    pub words: &'a [&'a str],
    pub script: &'a str,
    pub code: u8,
    pub text: &'a str,
}

const RUN: &[&str] = &["run"];

const ANALYZE: &[&str] = &["analyze"];

impl<'a> Exchange<'a> {
    /// A call with these words and no script.
    pub fn worded(words: &'a [&'a str], code: u8, text: &'a str) -> Exchange<'a> {
        Exchange {
            words,
            script: "",
            code,
            text,
        }
    }

    /// A run of a script.
    pub fn run(script: &'a str, code: u8, text: &'a str) -> Exchange<'a> {
        Exchange {
            words: RUN,
            script,
            code,
            text,
        }
    }

    /// An analysis that finds this, or nothing.
    pub fn finds(text: &'a str) -> Exchange<'a> {
        let code = if text == "accepted\n" { 0 } else { 5 };
        Exchange::worded(ANALYZE, code, text)
    }
}
