//! What stands in a catalogue: the last sequence of a number, what a channel has open.

ghost use Rattle.std.specs.Prelude.{◌≡◌, Some, IfSome, option_copied};
ghost use Rattle.plain_rules.specs.Lookups.{slot_at, file_at, live, last_seq, channel_at, has_file, is_open, place};

use plain_cat::{Cat, Fid, File, Open, Slot};
use plain_rules::{live, slot_at};

// The live file under an identifier, which stands under its number.
#[tactic(auto, using(crate::proofs::Changing::live_at))]
pub(crate) fn live_file(cat: &Cat, fid: Fid) -> Option<&File>
    ensures live { option_copied result ≡ live cat.now fid }
    ensures stands { IfSome (option_copied result) (λ f. file_at cat.now fid.num ≡ Some f) }
{
    live(cat, fid)
}

// The last sequence of a number.
pub(crate) fn last_seq(cat: &Cat, n: u32) -> u16
    ensures { result ≡ last_seq (slot_at cat.now n) }
{
    match slot_at(cat, n) {
        Some(Slot::Used(file)) => file.seq,
        Some(Slot::Free(seq)) => *seq,
        None => 0,
    }
}

// The place of a node's channel.
pub(crate) fn place(node: u8, chan: u8) -> usize
    ensures { result ≡ place node chan }
{
    8 * node.saturating_sub(1) as usize + chan.saturating_sub(1) as usize
}

// What a node's channel has open.
pub(crate) fn channel_at(cat: &Cat, node: u8, chan: u8) -> Option<Open>
    ensures { result ≡ channel_at cat.now node chan }
{
    match cat.opens.items().get(place(node, chan)) {
        Some(open) => *open,
        None => None,
    }
}

fn has_file(n: u32, held: Option<Open>) -> bool
    ensures { result ≡ has_file n held }
{
    match held {
        Some(open) => open.file == n,
        None => false,
    }
}

// Whether some channel has the file of this number open.
pub(crate) fn is_open(cat: &Cat, n: u32) -> bool
    ensures { result ≡ is_open cat.now n }
{
    cat.opens.items().iter().any(|held| has_file(n, *held))
}
