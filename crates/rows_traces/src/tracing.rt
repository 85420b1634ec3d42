//! Traces over volumes in memory, and what they have to be.

use blk_drive::MemImage;
use fx_text::{MemIn, MemOut, Word};
use plain_cat::NoMemory;
use rows_calls::{
    Called, Exchange, On, Row, Wrong, blocks_of, call, check_answer, check_same, expect, text_of,
};
use run_trace::vmstrace;
use std::alloc::Global;

/// The fresh volume.
pub const FRESH: Row<'static> = Row {
    on: On::Fresh,
    first: &[],
    each: &[],
};

/// The words of a trace that ends with the report of `run --rebuild`.
pub const REBUILD: &[&str] = &["--rebuild"];

// Traces a script.
fn trace(alloc: Global, words: &[&str], image: MemImage, script: &str) -> Result<Called, NoMemory> {
    let mut given = Vec::new(alloc);
    for word in words {
        given.push(Word::new(alloc, word.as_bytes())?)?;
    }
    let bytes = Vec::from_slice(alloc, script.as_bytes())?;
    let mut script = MemIn::new(bytes, Vec::new(alloc));
    let mut out = MemOut::new(alloc, 1_000_000, Vec::new(alloc))?;
    let finished = vmstrace(alloc, given.as_slice(), image, &mut script, &mut out);
    Ok(Called {
        code: finished.status.code(),
        out,
        image: finished.image,
    })
}

/// A trace of a script on a volume, which stays as it is.
pub fn traced(
    alloc: Global,
    volume: Row<'_>,
    words: &[&str],
    script: &str,
) -> Result<Called, Wrong> {
    let image = volume.begun(alloc)?;
    let before = blocks_of(alloc, &image)?;
    let called = trace(alloc, words, image, script)?;
    check_same(alloc, &called.image, before.as_slice(), script)?;
    Ok(called)
}

// The job of `vmsclus` that is traced.
fn job_of(words: &[&str]) -> &'static [&'static str] {
    if words.is_empty() {
        &["run"]
    } else {
        &["run", "--rebuild"]
    }
}

/// What `vmsclus` prints on a copy of a volume is the end of a trace of it, and the statuses are the same.
pub fn ends_alike(
    alloc: Global,
    volume: Row<'_>,
    words: &[&str],
    script: &str,
) -> Result<(), Wrong> {
    let found = traced(alloc, volume, words, script)?;
    let ran = call(alloc, job_of(words), volume.begun(alloc)?, script)?;
    expect(alloc, found.code == ran.code, script)?;
    expect(alloc, text_of(&found).ends_with(text_of(&ran)), script)
}

/// A trace has to have this answer, and what `vmsclus` prints is its end.
pub fn check(alloc: Global, volume: Row<'_>, wanted: Exchange<'_>) -> Result<(), Wrong> {
    let called = traced(alloc, volume, wanted.words, wanted.script)?;
    check_answer(alloc, &called, wanted)?;
    ends_alike(alloc, volume, wanted.words, wanted.script)
}
