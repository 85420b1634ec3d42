//! The clusters and the number that a command has searched for.

ghost use Rattle.std.specs.Prelude.{◌≡◌, ℕ, List, true};
ghost use Rattle.op_law.specs.Events.{Events, Find, following, space_of};
ghost use Rattle.op_law.specs.Refusing.{if_space};
ghost use Rattle.op_create.specs.Given.{behind_number, IsWanted};

use op_law::{Need, Rest, Seen, refused};
use plain_cat::Refusal;
use std::alloc::Global;

/// Clusters and a number, where they were given.
#[derive(Drop)]
pub enum Given {
    /// The number; the clusters are those that were seen.
    Number(u32),

    /// They are not given: what the command needs next.
    Next(Need),
}

/// So many clusters, and a number. It takes no memory.
pub fn number_given(alloc: Global, seen: &Seen, clusters: u32, rest: Rest<'_>) -> Given
    ensures wanted { IsWanted clusters (space_of seen.now) result }
    ensures need { (next : List ℕ → ℕ → Events) → following (Find clusters true (if_space next)) rest.entry.locks.now rest.entry.blocks.now (space_of seen.now) ≡ behind_number next rest.entry (space_of seen.now) result }
{
    if let Some(why) = seen.short {
        return Given::Next(refused(alloc, why));
    }
    match seen.number {
        Some(n) if seen.clusters.items().len() == clusters as usize => Given::Number(n),
        _ => Given::Next(Need::Space {
            clusters,
            number: true,
        }),
    }
}
