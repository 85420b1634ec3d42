//! Numbers, registers, channels and nodes in a script.

ghost use Rattle.std.specs.Prelude.{◌≡◌, ◌≤◌, ◌⊎◌, IfOk};
ghost use Rattle.run_script.specs.Steps.{has_odd_start, number_of, register_of, count_of, channel_of, quota_of, Gives};

use crate::fault::LineFault;
use crate::parts::behind;
use std::str;

// Whether digits begin with a sign, or with a zero that another digit follows.
fn has_odd_start(word: &[u8]) -> bool
    ensures { result ≡ has_odd_start word.now }
{
    match word {
        [] => false,
        [b, rest @ ..] => *b == b'+' || (*b == b'0' && !rest.is_empty()),
    }
}

/// Reads a number from `low` to `high`, in digits of this radix, without a sign or a leading zero.
pub fn read_number(word: &[u8], radix: u32, low: u32, high: u32) -> Result<u32, LineFault>
    requires { (radix ≡ 10) ⊎ (radix ≡ 8) }
    ensures value { Gives (number_of radix low high word.now) result }
    ensures limits { IfOk result (λ n. (low ≤ n) × (n ≤ high)) }
{
    if has_odd_start(word) {
        return Err(LineFault::Bad);
    }
    let Ok(text) = str::from_utf8(word) else {
        return Err(LineFault::Bad);
    };
    match u32::from_str_radix(text, radix) {
        Ok(n) if low <= n && n <= high => Ok(n),
        _ => Err(LineFault::Bad),
    }
}

/// Reads a register, as `R1`.
#[tactic(auto, unfolding(crate::specs::Steps::register_of))]
pub fn read_register(word: &[u8]) -> Result<u8, LineFault>
    ensures { Gives (register_of word.now) result }
{
    let Some(digits) = behind(word, b'R') else {
        return Err(LineFault::Bad);
    };
    Ok(read_number(digits, 10, 1, 8)? as u8)
}

/// Reads a number of blocks, or of a block, from 0 to 65,536.
pub fn read_count(word: &[u8]) -> Result<u32, LineFault>
    ensures { Gives (count_of word.now) result }
{
    read_number(word, 10, 0, 65_536)
}

/// Reads a channel or a node, 1 to 8.
pub fn read_channel(word: &[u8]) -> Result<u8, LineFault>
    ensures { Gives (channel_of word.now) result }
{
    Ok(read_number(word, 10, 1, 8)? as u8)
}

/// Reads blocks of a quota, which 32 bits hold.
pub fn read_quota(word: &[u8]) -> Result<u32, LineFault>
    ensures { Gives (quota_of word.now) result }
{
    read_number(word, 10, 0, 4_294_967_295)
}
