//! Modes, names and owners as words.

ghost use Rattle.std.specs.Prelude.{◌≡◌};
ghost use Rattle.run_script.specs.Steps.{behind};
ghost use Rattle.dlm_run.specs.Reading.{mode_of, name_of, filed_of, owner_of, decimal_of};

use crate::words::{behind, read_byte, read_number, word_at};
use dlm_core::{LockName, Mode, Owner};

/// Reads a lock mode.
#[tactic(auto, unfolding(crate::specs::Reading::mode_of))]
pub(crate) fn read_mode(word: &[u8]) -> Option<Mode>
    ensures { result ≡ mode_of word.now }
{
    if word == b"NL".as_slice() {
        return Some(Mode::NL);
    }
    if word == b"CR".as_slice() {
        return Some(Mode::CR);
    }
    if word == b"CW".as_slice() {
        return Some(Mode::CW);
    }
    if word == b"PR".as_slice() {
        return Some(Mode::PR);
    }
    if word == b"PW".as_slice() {
        return Some(Mode::PW);
    }
    if word == b"EX".as_slice() {
        return Some(Mode::EX);
    }
    None
}

// Reads the number of a file, 1 to 4,096.
fn read_file(digits: &[u8]) -> Option<u32>
    ensures { result ≡ decimal_of 1 4096 digits.now }
{
    read_number(digits, 1, 4096)
}

// Reads a name with a number.
fn read_filed(word: &[u8]) -> Option<LockName>
    ensures { result ≡ filed_of (behind 83 word.now) (behind 65 word.now) }
{
    match behind(word, b'S') {
        Some(digits) => match read_file(digits) {
            Some(n) => Some(LockName::S(n)),
            None => None,
        },
        None => match behind(word, b'A') {
            Some(digits) => match read_file(digits) {
                Some(n) => Some(LockName::A(n)),
                None => None,
            },
            None => None,
        },
    }
}

/// Reads the name of a resource.
#[tactic(auto, unfolding(crate::specs::Reading::name_of))]
pub(crate) fn read_name(word: &[u8]) -> Option<LockName>
    ensures { result ≡ name_of word.now }
{
    if word == b"Q".as_slice() {
        return Some(LockName::Q);
    }
    if word == b"X".as_slice() {
        return Some(LockName::X);
    }
    if word == b"V".as_slice() {
        return Some(LockName::V);
    }
    read_filed(word)
}

/// Reads an owner: the second and the third word of a line.
#[tactic(auto, unfolding(crate::specs::Reading::owner_of))]
pub(crate) fn read_owner(nodes: u8, line: &[u8]) -> Option<Owner>
    ensures { result ≡ owner_of nodes line.now }
{
    let node = read_byte(word_at(line, 1), 1, nodes)?;
    let part = read_byte(word_at(line, 2), 0, 8)?;
    Some(Owner { node, part })
}
