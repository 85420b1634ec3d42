//! Parts of a text: what stands behind so many bytes, or behind one of some bytes.

ghost use Rattle.std.specs.Prelude.{◌≡◌, drop};
ghost use Rattle.log_check.specs.Drafts.{behind_first};

use run_script::part;

/// What stands behind so many bytes; nothing where there are not so many.
pub fn rest_from(text: &[u8], n: usize) -> &[u8]
    ensures { result.now ≡ drop n text.now }
{
    if n < text.len() { &text[n..] } else { &[] }
}

/// What stands behind the first of these bytes.
#[tactic(auto, unfolding(crate::specs::Drafts::behind_first))]
pub(crate) fn behind_first(text: &[u8], byte: u8) -> &[u8]
    ensures { result.now ≡ behind_first byte text.now }
{
    rest_from(text, part(text, byte, 0).len() + 1)
}
