//! What the death of a node leaves.

ghost use Rattle.std.specs.Prelude.{◌≡◌, ◌≤◌, ◌+◌, ◌<◌, ◌^◌, [], IfSome, None};
ghost use Rattle.plain_rules.specs.Lookups.{free_clusters};
ghost use Rattle.plain_rules.specs.Replaying.{closed_channels, flagged, are_free, dead};

use crate::changes::set_channel;
use crate::picks::is_free_number;
use plain_cat::Cat;
use plain_rules::free_clusters;

// Whether each of these numbers is free.
pub(crate) fn are_free(cat: &Cat, numbers: &[u32]) -> bool
    ensures { result ≡ are_free cat.now numbers.now }
{
    numbers.iter().all(|n| is_free_number(cat, *n))
}

// Closes all channels of a node.
#[tactic(auto, unfolding(plain_rules::specs::Replaying::closed_channels))]
fn close_channels(cat: &mut Cat, node: u8)
    ensures { cat.new ≡ record cat.old { opens = closed_channels node 8 cat.old.opens } }
{
    for chan in 0..8u8 {
        set_channel(cat, node, chan + 1, None);
    }
}

// These numbers are leaked too.
fn flag(cat: &mut Cat, numbers: &[u32])
    ensures { cat.new ≡ record cat.old { leaked_numbers = flagged cat.old.leaked_numbers numbers.now } }
{
    for n in numbers {
        let at = n.saturating_sub(1) as usize;
        if at < cat.leaked_numbers.items().len() {
            cat.leaked_numbers.set(at, true);
        }
    }
}

// A node is dead, and leaks these clusters and numbers.
#[tactic(auto, unfolding(plain_rules::specs::Replaying::dead))]
pub(crate) fn bury(cat: &mut Cat, node: u8, clusters: u32, numbers: &[u32])
    requires { cat.old.leaked + clusters < 2 ^ 32 }
    ensures { cat.new ≡ dead cat.old node clusters numbers.now }
{
    close_channels(cat, node);
    cat.leaked += clusters;
    flag(cat, numbers);
}

/// The catalogue once a node is dead, which leaks so many clusters and no number; none where fewer clusters are free. Nothing is
/// copied.
pub fn died_on(mut cat: Cat, node: u8, clusters: u32) -> Option<Cat>
    ensures some { IfSome result (λ d. (clusters ≤ free_clusters cat) × (d ≡ dead cat node clusters [])) }
    ensures none { result ≡ None → free_clusters cat < clusters }
{
    if free_clusters(&cat) < clusters {
        return None;
    }
    bury(&mut cat, node, clusters, &[]);
    Some(cat)
}
