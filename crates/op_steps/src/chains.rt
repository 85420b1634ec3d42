//! The headers of a file behind its first one, to which the links lead.

ghost use Rattle.std.specs.Prelude.{◌≡◌, ◌≤◌, ◌<◌, ◌-◌, ◌*◌, ◌/◌, [], length};
ghost use Rattle.base_words.specs.Fields.{Block};
ghost use Rattle.lock_db.specs.declared.name.LockName.TheVariants.{S};
ghost use Rattle.plain_rules.specs.Lookups.{extra, header_most};
ghost use Rattle.vol_parts.specs.Parts.{IsGeometry};
ghost use Rattle.vol_spell.specs.Reading.{header_place};
ghost use Rattle.op_law.specs.Behind.{behind_block, FollowsBy, FollowsBlock, IsHeadOf};
ghost use Rattle.op_law.specs.Events.{Events, Take, Look, Space, following};
ghost use Rattle.op_law.specs.Headers.{next_number, through_links, through_chain, through_part};
ghost use Rattle.op_law.specs.Refusing.{SeenFile};
ghost use Rattle.op_steps.specs.Chains.{AreHeaders, behind_chain, FollowsChain, ShowsMore};
ghost use Rattle.op_steps.specs.Seeing.{file_seen, IsReadable};

use crate::FileSeen;
use base_words::Block;
use fx_header::{Slot, read_header};
use lock_db::LockName;
use op_law::{Granted, HEADER_MOST, Looked, Need, Rest, block_seen, header_lbn, lock_seen};
use plain_cat::Mode;
use vol_parts::Geometry;

/// A file, where as many of its headers are seen as are asked for.
#[derive(Drop)]
pub enum Chained<'a> {
    /// The file, and what was seen behind these headers.
    File(FileSeen<'a>, Rest<'a>),

    /// They are not all seen yet: what the command needs next.
    Next(Need),
}

// The number to which the link of a header leads, 0 where it has none.
fn next_number(b: &Block) -> u32
    ensures { result ≡ next_number b.now }
{
    match read_header(b) {
        Ok(Slot::Used(h)) => h.ext,
        Ok(Slot::Free(_)) => 0,
        Err(_) => 0,
    }
}

/// The header slot of a number, behind the lock of the number in this mode. It takes no memory.
pub fn slot_seen<'a>(g: &Geometry, n: u32, mode: Mode, rest: Rest<'a>) -> Looked<'a>
    requires geometry { IsGeometry g.now }
    requires number { n ≤ g.now.files }
    ensures head { IsHeadOf rest.entry.blocks.now result }
    ensures need { (next : Block → Events) (space : Space)
        → following (Take (S n) mode (Look (S n) (header_place g.now n) next)) rest.entry.locks.now rest.entry.blocks.now space ≡ behind_block next space result }
    ensures follows { (next : Block → Events) (space : Space)
        → FollowsBy (Take (S n) mode (Look (S n) (header_place g.now n) next)) rest.entry space → FollowsBlock next space result }
{
    match lock_seen(LockName::S(n), mode, rest) {
        Granted::Next(need) => Looked::Next(need),
        Granted::Held(behind) => block_seen(LockName::S(n), header_lbn(g, n), behind),
    }
}

/// So many headers of a file behind its first one, each under the lock of its number in this mode. It takes no memory.
pub fn links_seen<'a>(
    g: &Geometry,
    mode: Mode,
    count: u32,
    f: &FileSeen<'a>,
    rest: Rest<'a>,
) -> Chained<'a>
    requires geometry { IsGeometry g.now }
    requires alone { f.now.rest.now ≡ [] }
    requires readable { IsReadable f.now }
    requires headers { AreHeaders g.now count f.now.fields f.now.head.now rest.blocks.now }
    ensures file { ShowsMore count f.now rest.entry.blocks.now result }
    ensures need { (next : SeenFile → Events) (space : Space)
        → following (through_links g.now mode count f.now.head.now (file_seen g.now f.now) next) rest.entry.locks.now rest.entry.blocks.now space ≡ behind_chain g.now next space result }
    ensures follows { (next : SeenFile → Events) (space : Space)
        → FollowsBy (through_links g.now mode count f.now.head.now (file_seen g.now f.now) next) rest.entry space → FollowsChain g.now next space result }
{
    let mut last = f.head;
    let mut behind = rest;
    for _ in 0..count {
        match slot_seen(g, next_number(last), mode, behind) {
            Looked::Next(need) => return Chained::Next(need),
            Looked::Seen(block, others) => {
                last = block;
                behind = others;
            }
        }
    }
    let file = FileSeen {
        num: f.num,
        head: f.head,
        rest: &rest.blocks[..count as usize],
        fields: f.fields,
    };
    Chained::File(file, behind)
}

/// All headers of a file, by its clusters. It takes no memory.
pub fn chain_seen<'a>(g: &Geometry, mode: Mode, f: &FileSeen<'a>, rest: Rest<'a>) -> Chained<'a>
    requires geometry { IsGeometry g.now }
    requires alone { f.now.rest.now ≡ [] }
    requires readable { IsReadable f.now }
    requires headers { AreHeaders g.now (extra (f.now.fields.blocks / g.now.cluster)) f.now.fields f.now.head.now rest.blocks.now }
    ensures file { ShowsMore (extra (f.now.fields.blocks / g.now.cluster)) f.now rest.entry.blocks.now result }
    ensures need { (next : SeenFile → Events) (space : Space)
        → following (through_chain g.now mode (file_seen g.now f.now) next) rest.entry.locks.now rest.entry.blocks.now space ≡ behind_chain g.now next space result }
    ensures follows { (next : SeenFile → Events) (space : Space)
        → FollowsBy (through_chain g.now mode (file_seen g.now f.now) next) rest.entry space → FollowsChain g.now next space result }
{
    let clusters = f.fields.blocks / g.cluster;
    links_seen(g, mode, clusters.saturating_sub(1) / HEADER_MOST, f, rest)
}

/// The headers of a file up to that which lists a virtual block; the first block is 1. It takes no memory.
pub fn part_seen<'a>(
    g: &Geometry,
    mode: Mode,
    vbn: u32,
    f: &FileSeen<'a>,
    rest: Rest<'a>,
) -> Chained<'a>
    requires geometry { IsGeometry g.now }
    requires alone { f.now.rest.now ≡ [] }
    requires readable { IsReadable f.now }
    requires headers { AreHeaders g.now ((vbn - 1) / (header_most * g.now.cluster)) f.now.fields f.now.head.now rest.blocks.now }
    ensures file { ShowsMore ((vbn - 1) / (header_most * g.now.cluster)) f.now rest.entry.blocks.now result }
    ensures need { (next : SeenFile → Events) (space : Space)
        → following (through_part g.now mode vbn (file_seen g.now f.now) next) rest.entry.locks.now rest.entry.blocks.now space ≡ behind_chain g.now next space result }
    ensures follows { (next : SeenFile → Events) (space : Space)
        → FollowsBy (through_part g.now mode vbn (file_seen g.now f.now) next) rest.entry space → FollowsChain g.now next space result }
{
    links_seen(
        g,
        mode,
        vbn.saturating_sub(1) / (HEADER_MOST * g.cluster),
        f,
        rest,
    )
}
