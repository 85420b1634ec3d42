//! Parts of a text that is cut at some bytes.

ghost use Rattle.std.specs.Prelude.{◌≡◌, MatchOption, None, length};
ghost use Rattle.run_script.specs.Lines.{parts};
ghost use Rattle.run_script.specs.Steps.{part_of, behind};

/// How many parts a text has, which is cut at each of these bytes.
pub fn count_parts(text: &[u8], byte: u8) -> usize
    ensures { result ≡ length (parts byte text.now) }
{
    text.split(|b| *b == byte).count()
}

/// The part with this number, counted from 0, of a text that is cut at each of these bytes; nothing where there are fewer.
pub fn part(text: &[u8], byte: u8, n: usize) -> &[u8]
    ensures { result.now ≡ part_of byte n text.now }
{
    text.split(|b| *b == byte).nth(n).unwrap_or(b"")
}

/// What stands behind this byte.
pub fn behind(word: &[u8], byte: u8) -> Option<&[u8]>
    ensures { MatchOption result (behind byte word.now ≡ None) (λ rest. behind byte word.now ≡ Some rest.now) }
{
    match word {
        [b, rest @ ..] if *b == byte => Some(rest),
        _ => None,
    }
}
