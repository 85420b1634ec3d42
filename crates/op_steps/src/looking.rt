//! The blocks of the storage bitmap that are looked at before clusters become free.

ghost use Rattle.std.specs.Prelude.{◌≡◌, ◌<◌, List, length, map, slice_get, IfOk};
ghost use Rattle.std.specs.List.{All};
ghost use Rattle.base_words.specs.Fields.{Block};
ghost use Rattle.vol_parts.specs.declared.geometry.Part.TheVariants.{Storage};
ghost use Rattle.vol_parts.specs.Parts.{IsGeometry};
ghost use Rattle.vol_spell.specs.Places.{place_of};
ghost use Rattle.op_law.specs.Events.{Events, Space, following};
ghost use Rattle.op_law.specs.Freeing.{blocks_for, look_storage};
ghost use Rattle.op_law.specs.Behind.{behind_all};
ghost use Rattle.op_steps.specs.Looked.{HasAll};

use crate::bitmaps::blocks_for;
use lock_db::LockName;
use op_law::{Listed, NoMemory, Rest, blocks_seen};
use plain_cat::Clusters;
use std::alloc::Global;
use vol_parts::Geometry;

// The LBN of one of these blocks of the storage bitmap, which counts from 0, or none where there are fewer.
fn storage_lbn(g: &Geometry, blocks: &[u32], at: usize) -> Option<u32>
    requires geometry { IsGeometry g.now }
    requires few { All (λ k. k < 16) blocks.now }
    ensures { result ≡ slice_get (map (λ k. place_of g.now (Storage k)) blocks.now) at }
{
    if at < blocks.len() {
        Some(g.bitmap_lbn + 1 + blocks[at])
    } else {
        None
    }
}

/// The blocks of the storage bitmap that have bits of these clusters, in rising order, under the lock V. An error says that memory
/// ran out.
pub fn storage_seen<'a>(
    alloc: Global,
    g: &Geometry,
    clusters: &Clusters,
    rest: Rest<'a>,
) -> Result<Listed<'a>, NoMemory>
    requires { IsGeometry g.now }
    ensures all { IfOk result (HasAll (length (blocks_for g.now clusters.now))) }
    ensures need { IfOk result (λ l. (next : List Block → Events) (space : Space) → following (look_storage g.now (blocks_for g.now clusters.now) next) rest.entry.locks.now rest.entry.blocks.now space ≡ behind_all next space l) }
{
    let places = blocks_for(alloc, g, clusters)?;
    let unseen = storage_lbn(g, places.as_slice(), rest.blocks.len());
    Ok(blocks_seen(LockName::V, places.len(), unseen, rest))
}
