//! Numbers and nodes in the text of a report.

ghost use Rattle.std.specs.Prelude.{◌≡◌, ◌≤◌, IfSome};
ghost use Rattle.run_script.specs.Steps.{has_odd_start, number_of};
ghost use Rattle.log_check.specs.Drafts.{node_of};
ghost use Rattle.log_check.specs.Drafts.{short_of};

use std::str;

// Whether digits begin with a sign, or with a zero that another digit follows.
fn has_odd_start(word: &[u8]) -> bool
    ensures { result ≡ has_odd_start word.now }
{
    match word {
        [] => false,
        [b, rest @ ..] => *b == b'+' || (*b == b'0' && !rest.is_empty()),
    }
}

// A number between these limits, in decimal digits without a sign or a leading zero.
fn read_number(word: &[u8], low: u32, high: u32) -> Option<u32>
    ensures value { result ≡ number_of 10 low high word.now }
    ensures limits { IfSome result (λ n. (low ≤ n) × (n ≤ high)) }
{
    if has_odd_start(word) {
        return None;
    }
    let Ok(text) = str::from_utf8(word) else {
        return None;
    };
    match u32::from_str_radix(text, 10) {
        Ok(n) if low <= n && n <= high => Some(n),
        _ => None,
    }
}

/// A number that 32 bits hold, in decimal digits without a sign or a leading zero.
#[tactic(auto, unfolding(crate::specs::Drafts::short_of))]
pub fn read_short(word: &[u8]) -> Option<u32>
    ensures { result ≡ short_of word.now }
{
    read_number(word, 0, 4_294_967_295)
}

/// A node, as `N1`: 1 to 8.
#[tactic(auto, unfolding(crate::specs::Drafts::node_of))]
pub fn read_node(word: &[u8]) -> Option<u8>
    ensures { result ≡ node_of word.now }
{
    match word {
        [b'N', digits @ ..] => Some(read_number(digits, 1, 8)? as u8),
        _ => None,
    }
}
