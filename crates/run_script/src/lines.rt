//! The lines of a text.

ghost use Rattle.std.specs.Prelude.{◌≡◌, ◌<◌, ◌≤◌, ◌∷◌, [], MatchOption, length};
ghost use Rattle.run_script.specs.Lines.{front, lines_of};

// How many bytes stand in front of the first line feed.
fn front(bytes: &[u8]) -> usize
    ensures value { result ≡ front bytes.now }
    ensures within { result ≤ length bytes.now }
{
    for (i, b) in bytes.iter().enumerate() {
        if *b == b'\n' {
            return i;
        }
    }
    bytes.len()
}

/// A line, and the bytes behind it.
#[derive(Clone, Copy)]
pub struct Split<'a> {
    pub line: &'a [u8],
    pub rest: &'a [u8],
}

/// Takes the first line off a text.
pub fn split_line(bytes: &[u8]) -> Option<Split<'_>>
    ensures value { MatchOption result (lines_of bytes.now ≡ []) (λ s. lines_of bytes.now ≡ s.line.now ∷ lines_of s.rest.now) }
    ensures shorter { MatchOption result (bytes.now ≡ []) (λ s. length s.rest.now < length bytes.now) }
{
    if bytes.is_empty() {
        return None;
    }
    let end = front(bytes);
    if end == bytes.len() {
        return Some(Split {
            line: bytes,
            rest: &bytes[end..],
        });
    }
    Some(Split {
        line: &bytes[..end],
        rest: &bytes[end + 1..],
    })
}
