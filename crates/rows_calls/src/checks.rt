//! What calls have to answer.

use crate::calls::{Called, Exchange, call};
use crate::texts::text_of;
use base_words::Block;
use blk_drive::MemImage;
use plain_cat::NoMemory;
use std::alloc::{AllocError, Global};

/// Why a row does not hold: memory ran out, or what was found is not what is wanted.
#[derive(Debug, Drop)]
pub enum Wrong {
    NoMemory,

    /// What is wanted is not so.
    NotSo(String),

    /// The first line that differs, and of which script or words.
    Differs {
        found: String,
        wanted: String,
        of: String,
    },
}

impl From<AllocError> for Wrong {
    fn from(_e: AllocError) -> Wrong {
        Wrong::NoMemory
    }
}

/// What is wanted, as these words say, has to be so.
pub fn expect(alloc: Global, is_so: bool, what: &str) -> Result<(), Wrong> {
    if is_so {
        return Ok(());
    }
    Err(Wrong::NotSo(String::from_str(alloc, what)?))
}

// The first line in which texts differ, or the texts where none does.
fn line_apart<'a>(found: &'a str, wanted: &'a str) -> (&'a str, &'a str) {
    for (one, other) in found.split('\n').zip(wanted.split('\n')) {
        if one != other {
            return (one, other);
        }
    }
    (found, wanted)
}

// A text has to be this one.
fn check_text(alloc: Global, found: &str, wanted: &str, of: &str) -> Result<(), Wrong> {
    if found == wanted {
        return Ok(());
    }
    let (one, other) = line_apart(found, wanted);
    Err(Wrong::Differs {
        found: String::from_str(alloc, one)?,
        wanted: String::from_str(alloc, other)?,
        of: String::from_str(alloc, of)?,
    })
}

// A status has to be this one.
fn check_code(alloc: Global, found: u8, wanted: u8, text: &str, of: &str) -> Result<(), Wrong> {
    if found == wanted {
        return Ok(());
    }
    let one = format!(in alloc; "status {found}: {text}")?;
    let other = format!(in alloc; "status {wanted}")?;
    Err(Wrong::Differs {
        found: one,
        wanted: other,
        of: String::from_str(alloc, of)?,
    })
}

// The words or the script by which a call is told.
fn named<'a>(words: &[&'a str], script: &'a str) -> &'a str {
    if script.is_empty() {
        words.last().copied().unwrap_or("")
    } else {
        script
    }
}

/// A call has to have this answer.
pub fn check_answer(alloc: Global, called: &Called, wanted: Exchange<'_>) -> Result<(), Wrong> {
    let of = named(wanted.words, wanted.script);
    let text = text_of(called);
    check_code(alloc, called.code, wanted.code, text, of)?;
    check_text(alloc, text, wanted.text, of)
}

/// A call has to have this status, and a text that begins and ends so.
pub fn check_about(
    alloc: Global,
    called: &Called,
    code: u8,
    ends: (&str, &str),
    of: &str,
) -> Result<(), Wrong> {
    let (front, end) = ends;
    let text = text_of(called);
    check_code(alloc, called.code, code, text, of)?;
    if !text.starts_with(front) {
        return check_text(alloc, text, front, of);
    }
    if !text.ends_with(end) {
        return check_text(alloc, text, end, of);
    }
    Ok(())
}

/// An image has to have these blocks.
pub fn check_same(
    alloc: Global,
    image: &MemImage,
    blocks: &[Block],
    what: &str,
) -> Result<(), Wrong> {
    expect(alloc, image.all() == blocks, what)
}

/// The image behind a call, which has this answer.
pub fn answered(alloc: Global, image: MemImage, wanted: Exchange<'_>) -> Result<MemImage, Wrong> {
    let called = call(alloc, wanted.words, image, wanted.script)?;
    check_answer(alloc, &called, wanted)?;
    Ok(called.image)
}
