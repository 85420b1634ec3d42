//! The packing of entries, and of these with one more. They begin with the same blocks, which are packed once.

ghost use Rattle.std.specs.Prelude.{◌≡◌, ◌≤◌, ◌+◌, false, IfOk, length, map, drop, slice_index_or, []};
ghost use Rattle.base_words.specs.Packing.{pack, over};
ghost use Rattle.fx_dir.specs.Lists.{Each};
ghost use Rattle.fx_dir.specs.Entries.{has, without};
ghost use Rattle.fx_dir.specs.Moves.{place, inserted};
ghost use Rattle.fx_dir.specs.Pieces.{IsAhead};
ghost use Rattle.fx_dir.specs.Writing.{IsInForm, IsRanged, name_of, block_of};

use crate::moves::{inserted, spot_of};
use crate::packing::{Lacking, Packing, fill, lacking_at, pack_onto};
use crate::writing::block_of;
use crate::{NoMemory, RawEnt};
use base_words::Block;
use std::alloc::Global;

/// The blocks that entries fill, whatever comes behind these, and how many of the entries they have.
#[derive(Drop)]
struct Ahead {
    blocks: Vec<Block>,
    entries: usize,
}

/// The blocks that these entries fill in a packing of `count` blocks.
fn packed_ahead(alloc: Global, front: &[RawEnt], count: usize) -> Result<Ahead, NoMemory>
    requires { Each IsInForm front.now }
    ensures few { IfOk result (λ a. length a.blocks.items ≤ count) }
    ensures within { IfOk result (λ a. a.entries ≤ length front.now) }
    ensures blocks { IfOk result (λ a. a.blocks.items ≡ map block_of (pack name_of (length a.blocks.items) front.now)) }
    ensures ranged { IfOk result (λ a. Each (λ g. Each IsRanged g) (pack name_of (length a.blocks.items) front.now)) }
    ensures ahead { IfOk result (λ a. IsAhead count front.now (length a.blocks.items) (drop a.entries front.now)) }
{
    let mut blocks = Vec::with_capacity(alloc, count)?;
    let mut entries = 0usize;
    while blocks.as_slice().len() < count {
        let rest = front.split_at(entries).1;
        let n = fill(rest);
        if n == rest.len() {
            return Ok(Ahead { blocks, entries });
        }
        blocks.push(block_of(rest.split_at(n).0))?;
        entries += n;
    }
    Ok(Ahead { blocks, entries })
}

/// The packings of entries without and with one more, and the block of the second that has it, without it.
#[derive(Drop)]
pub(crate) struct Both {
    pub(crate) before: Packing,
    pub(crate) after: Packing,
    pub(crate) lacking: Lacking,
}

/// The same blocks, with room for `count`.
pub(crate) fn copied(alloc: Global, blocks: &[Block], count: usize) -> Result<Vec<Block>, NoMemory>
    ensures { IfOk result (λ v. v.items ≡ blocks.now) }
{
    let mut list = Vec::with_capacity(alloc, count)?;
    list.extend_from_slice(blocks)?;
    Ok(list)
}

/// The first `count` blocks of the packings of the entries without and with this one more.
pub(crate) fn pack_both(
    alloc: Global,
    es: &[RawEnt],
    e: &RawEnt,
    count: usize,
) -> Result<Both, NoMemory>
    requires forms { Each IsInForm es.now }
    requires form { IsInForm e.now }
    requires absent { has es.now e.now ≡ false }
    ensures before { IfOk result (λ r. r.before.blocks.items ≡ map block_of (pack name_of count es.now)) }
    ensures after { IfOk result (λ r. r.after.blocks.items ≡ map block_of (pack name_of count (inserted e.now es.now))) }
    ensures ranged { IfOk result (λ _. Each (λ g. Each IsRanged g) (pack name_of count (inserted e.now es.now))) }
    ensures left { IfOk result (λ r. r.after.left ≡ length (over name_of count (inserted e.now es.now))) }
    ensures at { IfOk result (λ r. r.lacking.at ≡ place e.now (pack name_of count (inserted e.now es.now))) }
    ensures block { IfOk result (λ r. r.lacking.block ≡ block_of (without e.now (slice_index_or (pack name_of count (inserted e.now es.now)) (place e.now (pack name_of count (inserted e.now es.now))) []))) }
{
    let ahead = packed_ahead(alloc, es.split_at(spot_of(es, e)).0, count)?;
    let same = ahead.blocks.as_slice().len();
    let rest = es.split_at(ahead.entries).1;
    let all = inserted(alloc, rest, e)?;
    let lacking = lacking_at(alloc, all.as_slice(), count - same, e)?;
    let blocks = copied(alloc, ahead.blocks.as_slice(), count)?;
    Ok(Both {
        before: pack_onto(ahead.blocks, rest, count - same)?,
        after: pack_onto(blocks, all.as_slice(), count - same)?,
        lacking: Lacking {
            at: same + lacking.at,
            block: lacking.block,
        },
    })
}
