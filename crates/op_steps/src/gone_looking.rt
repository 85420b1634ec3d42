//! What a command looks at before a file goes: the quota blocks, and the bitmap blocks.

ghost use Rattle.std.specs.Prelude.{◌≡◌, IfOk};
ghost use Rattle.vol_parts.specs.Parts.{IsGeometry};
ghost use Rattle.op_law.specs.declared.need.Plan.{Plan};
ghost use Rattle.op_law.specs.Events.{Make, Space as Given, following};
ghost use Rattle.op_law.specs.Behind.{blocks_alone};
ghost use Rattle.op_law.specs.Refusing.{SeenFile};
ghost use Rattle.op_law.specs.Freeing.{SeenSpace, all_clusters, through_space};
ghost use Rattle.op_steps.specs.Looking.{through_bitmaps, behind_space, HasBitmaps, HasSpace};

use crate::{quota_seen, storage_seen};
use base_words::Block;
use lock_db::LockName;
use op_law::{Granted, Listed, Looked, Need, NoMemory, Rest, block_seen, lock_seen};
use plain_cat::{Clusters, Mode};
use std::alloc::Global;
use vol_parts::Geometry;

/// The blocks of the quota file and of the bitmaps, for a file that goes.
#[derive(Clone, Copy)]
pub struct SpaceSeen<'a> {
    /// The quota blocks with their LBNs.
    pub quota: &'a [(u32, Block)],

    /// The block of the index-file bitmap.
    pub index: &'a Block,

    /// The blocks of the storage bitmap that have bits of the file's clusters, rising, with their LBNs.
    pub storage: &'a [(u32, Block)],
}

/// These blocks, where all are seen.
#[derive(Drop)]
pub enum Space<'a> {
    /// All of them.
    All(SpaceSeen<'a>),

    /// They are not all seen yet: what the command needs next.
    Next(Need),
}

// The bitmap blocks, behind the lock V in PW.
fn bitmaps_seen<'a>(
    alloc: Global,
    g: &Geometry,
    clusters: &Clusters,
    quota: &'a [(u32, Block)],
    rest: Rest<'a>,
) -> Result<Space<'a>, NoMemory>
    requires { IsGeometry g.now }
    ensures space { IfOk result (HasBitmaps g.now clusters.now quota.now) }
    ensures need { IfOk result (λ r. (plan : SeenSpace → Plan) (given : Given) → following (through_bitmaps g.now clusters.now (blocks_alone quota.now) (λ s. Make (plan s))) rest.entry.locks.now rest.entry.blocks.now given ≡ behind_space plan r) }
{
    match lock_seen(LockName::V, Mode::PW, rest) {
        Granted::Next(need) => Ok(Space::Next(need)),
        Granted::Held(behind) => match block_seen(LockName::V, 4 * g.cluster, behind) {
            Looked::Next(need) => Ok(Space::Next(need)),
            Looked::Seen(index, others) => match storage_seen(alloc, g, clusters, others)? {
                Listed::Next(need) => Ok(Space::Next(need)),
                Listed::All(storage, _) => Ok(Space::All(SpaceSeen {
                    quota,
                    index,
                    storage,
                })),
            },
        },
    }
}

/// All that a command looks at before a file with these clusters goes. An error says that memory ran out.
pub fn space_seen<'a>(
    alloc: Global,
    g: &Geometry,
    clusters: &Clusters,
    rest: Rest<'a>,
) -> Result<Space<'a>, NoMemory>
    requires { IsGeometry g.now }
    ensures space { IfOk result (HasSpace g.now clusters.now) }
    ensures need { IfOk result (λ r. (f : SeenFile) (plan : SeenSpace → Plan) (given : Given) → clusters.now ≡ all_clusters g.now f
        → following (through_space g.now f (λ s. Make (plan s))) rest.entry.locks.now rest.entry.blocks.now given ≡ behind_space plan r) }
{
    match quota_seen(g, Mode::PW, rest) {
        Listed::Next(need) => Ok(Space::Next(need)),
        Listed::All(quota, behind) => bitmaps_seen(alloc, g, clusters, quota, behind),
    }
}
