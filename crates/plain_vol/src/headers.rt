//! Extension headers: how many a file has, and when it needs one more.

ghost use Rattle.std.specs.Prelude.{◌≡◌, ◌<◌, ◌+◌, ◌^◌, drop};
ghost use Rattle.plain_rules.specs.Lookups.{extra, extra_in, needs_header};

use plain_cat::Slot;

/// The most clusters of one header.
pub(crate) const HEADER_MOST: u32 = 77;

/// The most clusters of a file above number 11.
pub(crate) const FILE_MOST: u32 = 1232;

// How many extension headers a file of k clusters has.
fn extra(k: u32) -> u32
    ensures { result ≡ extra k }
{
    k.saturating_sub(1) / HEADER_MOST
}

// Whether a file of k clusters needs a new header for so many more.
pub(crate) fn needs_header(k: u32, more: u32) -> bool
    requires { k + more < 2 ^ 32 }
    ensures { result ≡ needs_header k more }
{
    extra(k) < extra(k + more)
}

// The extension headers of a slot's file.
pub(crate) fn extra_in(slot: &Slot) -> usize
    ensures { result ≡ extra_in slot.now }
{
    match slot {
        Slot::Used(file) => extra(file.clusters) as usize,
        Slot::Free(_) => 0,
    }
}

// The slots of the files above number 11.
pub(crate) fn above_system(slots: &[Slot]) -> &[Slot]
    ensures { result.now ≡ drop 11 slots.now }
{
    if slots.len() < 11 { &[] } else { &slots[11..] }
}
