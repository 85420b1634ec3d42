//! What happens on a volume: calls with their answers, changed bytes, and blocks that are compared.

use crate::calls::{Exchange, call};
use crate::checks::{Wrong, answered, check_about, check_same, expect};
use crate::images::{blocks_of, volume, with_byte, with_sum, without};
use crate::stops::{Stop, failing};
use crate::texts::{Lines, Written};
use blk_drive::MemImage;
use plain_cat::NoMemory;
use std::alloc::Global;

/// A step of a row.
#[derive(Clone, Copy)]
pub enum Step<'a> {
    /// The byte of a block at an offset becomes this one.
    Byte(u32, usize, u8),

    /// The sum of a header is made anew.
    Sum(u32),

    /// A block becomes zeros.
    Without(u32),

    /// A call with these words and this script has this status and text.
    Call(&'a [&'a str], &'a str, u8, &'a str),

    /// The same, and the image stays as it is.
    Kept(&'a [&'a str], &'a str, u8, &'a str),

    /// The same, with a text that begins and ends so.
    About(&'a [&'a str], &'a str, u8, &'a str, &'a str),

    /// A run of a script has this report, and status 0.
    Run(&'a str, &'a str),

    /// The same, and behind it nothing is found in the volume.
    Made(&'a str, &'a str),

    /// A run of these lines behind the first ones has their report and this last line.
    Lines(&'a str, &'a [Lines<'a>], &'a str),

    /// A run of these lines has this status, and a text that begins and ends so.
    AboutLines(&'a str, &'a [Lines<'a>], u8, &'a str, &'a str),

    /// An analysis finds this: status 5, or 0 where it is `accepted`.
    Finds(&'a str),

    /// Nothing is left to mend: nothing is found, and mended once more the image stays as it is.
    Stays,

    /// A mending has a text that begins so, and behind it nothing is left to mend.
    Mended(&'a str),

    /// In a run of this script writes fail, each in a run of its own: the status is 4, and the text this one; and then an analysis prints
    /// what is said of the write. The image stays as it is.
    Cut(&'a str, &'a str, &'a [(u64, bool, &'a str)]),

    /// The block of an LBN has these bytes at an offset.
    Has(usize, usize, &'a [u8]),

    /// The image differs from the fresh volume in these blocks.
    Changed(&'a [usize]),
}

/// The words of a mending.
pub const REBUILD: &[&str] = &["rebuild"];

/// What is printed where nothing is to be mended.
pub const NOTHING: &str =
    "rebuilt: 0 entered, 0 entries removed, 0 files gone, 0 clusters, 0 numbers\n";

/// The image behind a call with these words, which has this status and a text that begins and ends so.
pub fn after(
    alloc: Global,
    image: MemImage,
    words: &[&str],
    script: &str,
    code: u8,
    ends: (&str, &str),
) -> Result<MemImage, Wrong> {
    let called = call(alloc, words, image, script)?;
    check_about(alloc, &called, code, ends, script)?;
    Ok(called.image)
}

// The image behind a call with this answer, which leaves it as it was.
fn kept(alloc: Global, image: MemImage, wanted: Exchange<'_>) -> Result<MemImage, Wrong> {
    let before = blocks_of(alloc, &image)?;
    let image = answered(alloc, image, wanted)?;
    check_same(alloc, &image, before.as_slice(), "the image stays")?;
    Ok(image)
}

/// The image that a script leaves, which has this report, and behind which nothing is found in the volume.
pub fn made(alloc: Global, image: MemImage, script: &str, report: &str) -> Result<MemImage, Wrong> {
    let image = answered(alloc, image, Exchange::run(script, 0, report))?;
    answered(alloc, image, Exchange::finds("accepted\n"))
}

// The image that a script of lines leaves, which has their report and this last line.
fn lines_run(
    alloc: Global,
    image: MemImage,
    first: &str,
    rows: &[Lines<'_>],
    last: &str,
) -> Result<MemImage, Wrong> {
    let text = Written::new(alloc, first, rows)?;
    let mut report = String::from_str(alloc, text.report())?;
    report.push_str(last)?;
    let wanted = Exchange::run(text.script(), 0, report.as_str());
    answered(alloc, image, wanted)
}

// The image behind a run of lines, which has this status and a text that begins and ends so.
fn about_lines(
    alloc: Global,
    image: MemImage,
    first: &str,
    rows: &[Lines<'_>],
    code: u8,
    ends: (&str, &str),
) -> Result<MemImage, Wrong> {
    let text = Written::new(alloc, first, rows)?;
    after(alloc, image, &["run"], text.script(), code, ends)
}

/// The image, in which nothing is left to mend: nothing is found, and mended once more it stays as it is.
pub fn stays(alloc: Global, image: MemImage) -> Result<MemImage, Wrong> {
    let image = answered(alloc, image, Exchange::finds("accepted\n"))?;
    kept(alloc, image, Exchange::worded(REBUILD, 0, NOTHING))
}

/// The image behind a mending whose text begins so, in which nothing is left to mend.
pub fn mended(alloc: Global, image: MemImage, front: &str) -> Result<MemImage, Wrong> {
    let image = after(alloc, image, REBUILD, "", 0, (front, "\n"))?;
    stays(alloc, image)
}

// A write of a run fails, with this text, and then this is found.
fn stops_at(
    alloc: Global,
    image: &MemImage,
    wanted: Exchange<'_>,
    stop: Stop,
    found: &str,
) -> Result<(), Wrong> {
    let image = answered(alloc, failing(alloc, image, stop)?, wanted)?;
    answered(alloc, image, Exchange::finds(found))?;
    Ok(())
}

// The image, of which such writes fail.
fn cut(
    alloc: Global,
    image: MemImage,
    wanted: Exchange<'_>,
    rows: &[(u64, bool, &str)],
) -> Result<MemImage, Wrong> {
    for (write, lands, found) in rows {
        let stop = Stop {
            write: *write,
            lands: *lands,
        };
        stops_at(alloc, &image, wanted, stop, found)?;
    }
    Ok(image)
}

// The image, which has these bytes in the block of an LBN.
fn having(
    alloc: Global,
    image: MemImage,
    lbn: usize,
    at: usize,
    bytes: &[u8],
) -> Result<MemImage, Wrong> {
    let found = match image.all().get(lbn) {
        Some(block) => block.get(at..at.saturating_add(bytes.len())),
        None => None,
    };
    if found != Some(bytes) {
        expect(
            alloc,
            false,
            format!(in alloc; "bytes of block {lbn} at {at}")?.as_str(),
        )?;
    }
    Ok(image)
}

// The LBNs of the blocks that differ.
fn apart(alloc: Global, before: &MemImage, after: &MemImage) -> Result<Vec<usize>, NoMemory> {
    let mut lbns = Vec::new(alloc);
    for (lbn, (old, new)) in before.all().iter().zip(after.all()).enumerate() {
        if old != new {
            lbns.push(lbn)?;
        }
    }
    Ok(lbns)
}

// The image, which differs from the fresh volume in these blocks.
fn changed(alloc: Global, image: MemImage, wanted: &[usize]) -> Result<MemImage, Wrong> {
    let lbns = apart(alloc, &volume(alloc)?, &image)?;
    expect(
        alloc,
        lbns.as_slice() == wanted,
        "the blocks that are changed",
    )?;
    Ok(image)
}

// The image with a change, unless memory ran out.
fn edited(changed: Result<MemImage, NoMemory>) -> Result<MemImage, Wrong> {
    match changed {
        Ok(image) => Ok(image),
        Err(_) => Err(Wrong::NoMemory),
    }
}

impl<'a> Step<'a> {
    /// The image behind this step.
    pub fn done(self, alloc: Global, image: MemImage) -> Result<MemImage, Wrong> {
        match self {
            Step::Byte(lbn, at, byte) => edited(with_byte(image, lbn, at, byte)),
            Step::Sum(lbn) => edited(with_sum(image, lbn)),
            Step::Without(lbn) => edited(without(image, lbn)),
            Step::Call(words, script, code, text) => {
                answered(alloc, image, exchange(words, script, code, text))
            }
            Step::Kept(words, script, code, text) => {
                kept(alloc, image, exchange(words, script, code, text))
            }
            Step::About(words, script, code, front, end) => {
                after(alloc, image, words, script, code, (front, end))
            }
            Step::Run(script, report) => answered(alloc, image, Exchange::run(script, 0, report)),
            Step::Made(script, report) => made(alloc, image, script, report),
            Step::Lines(first, rows, last) => lines_run(alloc, image, first, rows, last),
            Step::AboutLines(first, rows, code, front, end) => {
                about_lines(alloc, image, first, rows, code, (front, end))
            }
            Step::Finds(text) => answered(alloc, image, Exchange::finds(text)),
            Step::Stays => stays(alloc, image),
            Step::Mended(front) => mended(alloc, image, front),
            Step::Cut(script, text, rows) => {
                cut(alloc, image, Exchange::run(script, 4, text), rows)
            }
            Step::Has(lbn, at, bytes) => having(alloc, image, lbn, at, bytes),
            Step::Changed(lbns) => changed(alloc, image, lbns),
        }
    }
}

// The words and the script of a call, and its answer.
fn exchange<'a>(words: &'a [&'a str], script: &'a str, code: u8, text: &'a str) -> Exchange<'a> {
    Exchange {
        words,
        script,
        code,
        text,
    }
}
