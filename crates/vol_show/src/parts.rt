//! The parts of a text, and numbers in it.

ghost use Rattle.std.specs.Prelude.{◌≡◌, ◌≤◌, IfOk, length};
ghost use Rattle.std.specs.List.{list_all};
ghost use Rattle.run_script.specs.Lines.{parts};
ghost use Rattle.run_script.specs.Steps.{has_odd_start, number_of};
ghost use Rattle.vol_show.specs.Reading.{Gives};
ghost use Rattle.vol_show.specs.Specifying.{is_word};

use crate::spec::SpecFault;
use base_words::names::is_part;
use std::str;

/// How many parts a text has, which is cut at each of these bytes.
pub(crate) fn count_parts(text: &[u8], byte: u8) -> usize
    ensures { result ≡ length (parts byte text.now) }
{
    text.split(|b| *b == byte).count()
}

// Whether digits begin with a sign, or with a zero that another digit follows.
fn has_odd_start(word: &[u8]) -> bool
    ensures { result ≡ has_odd_start word.now }
{
    match word {
        [] => false,
        [b, rest @ ..] => *b == b'+' || (*b == b'0' && !rest.is_empty()),
    }
}

/// A number up to a limit, in decimal digits without a sign or a leading zero.
pub(crate) fn read_number(word: &[u8], high: u32) -> Result<u32, SpecFault>
    ensures value { Gives (number_of 10 0 high word.now) result }
    ensures limit { IfOk result (λ n. n ≤ high) }
{
    if has_odd_start(word) {
        return Err(SpecFault::Bad);
    }
    let Ok(text) = str::from_utf8(word) else {
        return Err(SpecFault::Bad);
    };
    match u32::from_str_radix(text, 10) {
        Ok(n) if n <= high => Ok(n),
        _ => Err(SpecFault::Bad),
    }
}

// Whether a text is a word of a way.
#[tactic(auto, unfolding(crate::specs::Specifying::is_word))]
fn is_word(word: &[u8]) -> bool
    ensures { result ≡ is_word word.now }
{
    !word.is_empty() && is_part(word)
}

/// Whether all parts of a text, which is cut at each full stop, are words of a way.
pub(crate) fn are_words(text: &[u8]) -> bool
    ensures { result ≡ list_all is_word (parts 46 text.now) }
{
    text.split(|b| *b == b'.').all(|word| is_word(word))
}
