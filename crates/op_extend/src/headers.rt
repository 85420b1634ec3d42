//! The headers of a file, as they were seen and as they are written.

ghost use Rattle.std.specs.Prelude.{◌≡◌, ◌≤◌, IsTrue};
ghost use Rattle.fx_header.specs.Headers.{has_offsets, HasRoom, with_map, with_link};
ghost use Rattle.vol_parts.specs.Parts.{IsGeometry};
ghost use Rattle.op_law.specs.Headers.{slot_at, last_header};
ghost use Rattle.op_extend.specs.Seeing.{IsLast};

use base_words::Block;
use fx_header::{Run, set_link, set_map};
use vol_parts::Geometry;

/// A header that was seen: the number of its slot, and its block.
#[derive(Clone, Copy)]
pub(crate) struct HeaderSeen<'a> {
    pub num: u32,
    pub block: &'a Block,
}

/// The number of the header slot at an LBN.
pub(crate) fn slot_at(g: &Geometry, lbn: u32) -> u32
    requires { IsGeometry g.now }
    ensures { result ≡ slot_at g.now lbn }
{
    lbn.saturating_sub(4 * g.cluster)
}

/// The last of the headers of a file, of which the first one is in slot n.
pub(crate) fn last_header<'a>(
    g: &Geometry,
    n: u32,
    head: &'a Block,
    rest: &'a [(u32, Block)],
) -> HeaderSeen<'a>
    requires { IsGeometry g.now }
    ensures { IsLast (last_header g.now n head.now rest.now) result }
{
    match rest.last() {
        Some(last) => HeaderSeen {
            num: slot_at(g, last.0),
            block: &last.1,
        },
        None => HeaderSeen {
            num: n,
            block: head,
        },
    }
}

/// Writes the runs of a header and its link to a number and sequence.
pub(crate) fn list_runs(block: &mut Block, runs: &[Run], link: (u32, u16))
    requires offsets { IsTrue (has_offsets block.old) }
    requires room { HasRoom block.old runs.now }
    requires link { link.0 ≤ 16777215 }
    ensures { block.new ≡ with_link (with_map block.old runs.now) link.0 link.1 }
{
    set_map(block, runs);
    set_link(block, link.0, link.1);
}
