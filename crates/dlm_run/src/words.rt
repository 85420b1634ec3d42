//! The words of a line, and numbers.

ghost use Rattle.std.specs.Prelude.{◌≡◌, ◌==◌, ◌&&◌, ◌≤◌, MatchOption, None, Some, length, IfSome};
ghost use Rattle.run_script.specs.Lines.{words_of};
ghost use Rattle.run_script.specs.Steps.{behind, has_odd_start};
ghost use Rattle.dlm_run.specs.Reading.{word_at, decimal_of, has_form};

use std::str;

// How many words a line has.
fn count_words(line: &[u8]) -> usize
    ensures { result ≡ length (words_of line.now) }
{
    line.split(|b| *b == b' ').count()
}

/// The word with this number, counted from 0; nothing where there are fewer.
pub(crate) fn word_at(line: &[u8], n: usize) -> &[u8]
    ensures { result.now ≡ word_at n line.now }
{
    line.split(|b| *b == b' ').nth(n).unwrap_or(b"")
}

/// Whether a line has so many words, of which the first is this one.
#[tactic(auto, unfolding(crate::specs::Reading::has_form))]
pub(crate) fn has_form(line: &[u8], n: usize, first: &[u8]) -> bool
    ensures { result ≡ has_form n first.now line.now }
{
    count_words(line) == n && word_at(line, 0) == first
}

/// What stands behind this byte.
pub(crate) fn behind(word: &[u8], byte: u8) -> Option<&[u8]>
    ensures { MatchOption result (behind byte word.now ≡ None) (λ rest. behind byte word.now ≡ Some rest.now) }
{
    match word {
        [b, rest @ ..] if *b == byte => Some(rest),
        _ => None,
    }
}

// Whether digits begin with a sign, or with a zero that another digit follows.
fn has_odd_start(word: &[u8]) -> bool
    ensures { result ≡ has_odd_start word.now }
{
    match word {
        [] => false,
        [b, rest @ ..] => *b == b'+' || (*b == b'0' && !rest.is_empty()),
    }
}

/// Reads a number from `low` to `high` in decimal digits, without a sign or a leading zero.
pub(crate) fn read_number(word: &[u8], low: u32, high: u32) -> Option<u32>
    ensures value { result ≡ decimal_of low high word.now }
    ensures limits { IfSome result (λ n. (low ≤ n) × (n ≤ high)) }
{
    if has_odd_start(word) {
        return None;
    }
    let Ok(text) = str::from_utf8(word) else {
        return None;
    };
    match u32::from_str_radix(text, 10) {
        Ok(n) if low <= n && n <= high => Some(n),
        _ => None,
    }
}

/// Reads a number that a byte holds.
pub(crate) fn read_byte(word: &[u8], low: u8, high: u8) -> Option<u8>
    ensures { result ≡ decimal_of low high word.now }
{
    match read_number(word, low as u32, high as u32) {
        Some(n) => Some(n as u8),
        None => None,
    }
}
