//! Names in a directory.

ghost use Rattle.std.specs.Prelude.{◌≡◌, ◌≤◌, length};
ghost use Rattle.std.specs.List.{list_all, prefix_len};
ghost use Rattle.base_words.specs.Names.{is_character, is_part, is_tail, is_name};

/// Whether a character may stand in a name: A to Z, 0 to 9, `$`, `_` or `-`.
#[tactic(auto, unfolding(crate::specs::Names::is_character))]
fn is_character(c: u8) -> bool
    ensures { result ≡ is_character c }
{
    matches!(c, b'A'..=b'Z' | b'0'..=b'9' | b'$' | b'_' | b'-')
}

fn are_characters(text: &[u8]) -> bool
    ensures { result ≡ list_all is_character text.now }
{
    text.iter().all(|c| is_character(*c))
}

/// How many characters stand in front of the first byte that is none.
fn characters(text: &[u8]) -> usize
    ensures count { result ≡ prefix_len is_character text.now }
    ensures bound { result ≤ length text.now }
{
    text.iter().take_while(|c| is_character(**c)).count()
}

/// Whether a text is a NAME or a TYP: at most 39 characters that may stand in a name.
#[tactic(auto, unfolding(crate::specs::Names::is_part))]
pub fn is_part(text: &[u8]) -> bool
    ensures { result ≡ is_part text.now }
{
    text.len() <= 39 && are_characters(text)
}

/// Whether a text is a dot and a TYP.
fn is_tail(text: &[u8]) -> bool
    ensures { result ≡ is_tail text.now }
{
    match text {
        [] => false,
        [c, rest @ ..] => *c == b'.' && is_part(rest),
    }
}

/// Whether a text is a NAME.TYP, of two parts around one dot.
#[tactic(auto, unfolding(crate::specs::Names::is_name))]
pub fn is_name(text: &[u8]) -> bool
    ensures { result ≡ is_name text.now }
{
    let n = characters(text);
    n <= 39 && is_tail(text.split_at(n).1)
}
