//! The operands of commands: references, names, owners, modes and texts.

ghost use Rattle.std.specs.Prelude.{◌≡◌, IfOk, MatchOption, None, Some};
ghost use Rattle.plain_cat.specs.InForm.{is_text_char};
ghost use Rattle.std.specs.List.{list_all};
ghost use Rattle.run_script.specs.Steps.{Gives, closed_of, fid_of, ref_of, entry_of, owner_of, mode_of, dir_name_of, text_of};

use crate::fault::LineFault;
use crate::numbers::read_number;
use crate::parts::{behind, count_parts, part};
use base_words::names::{is_name, is_part};
use plain_cat::{Fid, FileRef, Mode, Name, NoMemory, Uic};
use std::alloc::Global;

// The identifiers that have names of their own.
const MAIN: Fid = Fid { num: 4, seq: 4 };

const LOST: Fid = Fid { num: 11, seq: 1 };

/// A name with a version.
#[derive(Drop)]
pub struct EntryText {
    pub name: Name,
    pub ver: u16,
}

// A text of these bytes.
fn name_of(alloc: Global, bytes: &[u8]) -> Result<Name, NoMemory>
    ensures { IfOk result (λ name. name ≡ bytes.now) }
{
    let mut name = Name::new(alloc);
    for byte in bytes {
        name.push(*byte)?;
    }
    Ok(name)
}

// What stands in front of a closing bracket at the end.
#[tactic(auto, unfolding(crate::specs::Steps::closed_of))]
fn closed(text: &[u8]) -> Option<&[u8]>
    ensures { MatchOption result (closed_of text.now ≡ None) (λ front. closed_of text.now ≡ Some front.now) }
{
    if count_parts(text, b']') == 2 && part(text, b']', 1).is_empty() {
        Some(part(text, b']', 0))
    } else {
        None
    }
}

/// Reads a file identifier, as `(4,4,0)`.
#[tactic(auto, unfolding(crate::specs::Steps::fid_of))]
fn read_fid(word: &[u8]) -> Result<Fid, LineFault>
    ensures { Gives (fid_of word.now) result }
{
    if count_parts(word, b',') != 3 || part(word, b',', 2) != b"0)".as_slice() {
        return Err(LineFault::Bad);
    }
    let Some(number) = behind(part(word, b',', 0), b'(') else {
        return Err(LineFault::Bad);
    };
    let num = read_number(number, 10, 0, 16_777_215)?;
    let seq = read_number(part(word, b',', 1), 10, 0, 65_535)?;
    Ok(Fid {
        num,
        seq: seq as u16,
    })
}

/// Reads a directory or a file: a register, as `R1`, an identifier, as `(4,4,0)`, or the name that it has, `MFD` or
/// `LOST`.
#[tactic(auto, unfolding(crate::specs::Steps::ref_of))]
pub fn read_ref(word: &[u8]) -> Result<FileRef, LineFault>
    ensures { Gives (ref_of word.now) result }
{
    if word == b"MFD".as_slice() {
        return Ok(FileRef::Fixed(MAIN));
    }
    if word == b"LOST".as_slice() {
        return Ok(FileRef::Fixed(LOST));
    }
    match behind(word, b'R') {
        Some(digits) => Ok(FileRef::Reg(read_number(digits, 10, 1, 8)? as u8)),
        None => Ok(FileRef::Fixed(read_fid(word)?)),
    }
}

/// Reads a name with its version, as `A.DAT;1`.
#[tactic(auto, unfolding(crate::specs::Steps::entry_of))]
pub fn read_entry(alloc: Global, word: &[u8]) -> Result<EntryText, LineFault>
    ensures { Gives (entry_of word.now) result }
{
    if count_parts(word, b';') != 2 || !is_name(part(word, b';', 0)) {
        return Err(LineFault::Bad);
    }
    let ver = read_number(part(word, b';', 1), 10, 0, 32_767)?;
    let name = name_of(alloc, part(word, b';', 0))?;
    Ok(EntryText {
        name,
        ver: ver as u16,
    })
}

/// Reads an owner, as `[1,4]`: group and member, in octal digits.
#[tactic(auto, unfolding(crate::specs::Steps::owner_of))]
pub fn read_owner(word: &[u8]) -> Result<Uic, LineFault>
    ensures { Gives (owner_of word.now) result }
{
    if count_parts(word, b',') != 2 {
        return Err(LineFault::Bad);
    }
    let Some(group) = behind(part(word, b',', 0), b'[') else {
        return Err(LineFault::Bad);
    };
    let group = read_number(group, 8, 0, 0o37777)?;
    let Some(member) = closed(part(word, b',', 1)) else {
        return Err(LineFault::Bad);
    };
    let member = read_number(member, 8, 0, 0o177_777)?;
    Ok(Uic(group * 65_536 + member))
}

/// Reads a mode in which a file is opened.
#[tactic(auto, unfolding(crate::specs::Steps::mode_of))]
pub fn read_mode(word: &[u8]) -> Result<Mode, LineFault>
    ensures { Gives (mode_of word.now) result }
{
    if word == b"CR".as_slice() {
        return Ok(Mode::CR);
    }
    if word == b"CW".as_slice() {
        return Ok(Mode::CW);
    }
    if word == b"PR".as_slice() {
        return Ok(Mode::PR);
    }
    if word == b"PW".as_slice() {
        return Ok(Mode::PW);
    }
    if word == b"EX".as_slice() {
        return Ok(Mode::EX);
    }
    Err(LineFault::Bad)
}

/// Reads the name of a new directory: 1 to 39 characters, without a dot.
#[tactic(auto, unfolding(crate::specs::Steps::dir_name_of))]
pub fn read_dir_name(alloc: Global, word: &[u8]) -> Result<Name, LineFault>
    ensures { Gives (dir_name_of word.now) result }
{
    if word.is_empty() || !is_part(word) {
        return Err(LineFault::Bad);
    }
    Ok(name_of(alloc, word)?)
}

fn is_text_char(byte: u8) -> bool
    ensures { result ≡ is_text_char byte }
{
    matches!(byte, b'A'..=b'Z' | b'0'..=b'9')
}

fn are_text_chars(word: &[u8]) -> bool
    ensures { result ≡ list_all is_text_char word.now }
{
    word.iter().all(|byte| is_text_char(*byte))
}

/// Reads what a block is written with: 1 to 16 characters of A to Z and 0 to 9.
#[tactic(auto, unfolding(crate::specs::Steps::text_of))]
pub fn read_text(alloc: Global, word: &[u8]) -> Result<Name, LineFault>
    ensures { Gives (text_of word.now) result }
{
    if word.is_empty() || word.len() > 16 || !are_text_chars(word) {
        return Err(LineFault::Bad);
    }
    Ok(name_of(alloc, word)?)
}
