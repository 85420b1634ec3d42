//! The clusters that a command has searched for, and a number or none.

ghost use Rattle.std.specs.Prelude.{◌≡◌, ℕ, List, Option};
ghost use Rattle.op_law.specs.Events.{Events, Find, has_number, following, space_of};
ghost use Rattle.op_law.specs.Refusing.{if_given};
ghost use Rattle.op_extend.specs.Given.{behind_given, AreWanted};

use op_law::{Need, Rest, Seen, refused};
use std::alloc::Global;

/// Clusters and a number or none, where they were given.
#[derive(Drop)]
pub(crate) enum Given {
    /// They are those that were seen.
    Space,

    /// They are not given: what the command needs next.
    Next(Need),
}

// Whether a number was given where one is wanted, and none where none is.
fn has_number(wanted: bool, number: Option<u32>) -> bool
    ensures { result ≡ has_number wanted number }
{
    if wanted {
        number.is_some()
    } else {
        number.is_none()
    }
}

/// So many clusters, and a number if one is wanted. It takes no memory.
pub(crate) fn space_given(
    alloc: Global,
    seen: &Seen,
    clusters: u32,
    number: bool,
    rest: Rest<'_>,
) -> Given
    ensures wanted { AreWanted clusters number (space_of seen.now) result }
    ensures need { (next : List ℕ → Option ℕ → Events) → following (Find clusters number (if_given next)) rest.entry.locks.now rest.entry.blocks.now (space_of seen.now) ≡ behind_given next rest.entry (space_of seen.now) result }
{
    if let Some(why) = seen.short {
        return Given::Next(refused(alloc, why));
    }
    if has_number(number, seen.number) && seen.clusters.items().len() == clusters as usize {
        Given::Space
    } else {
        Given::Next(Need::Space { clusters, number })
    }
}
