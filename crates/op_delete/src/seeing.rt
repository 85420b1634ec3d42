//! The file that an entry names, where one is in use: its number and its header.

ghost use Rattle.std.specs.Prelude.{◌≡◌, ◌≤◌, option_map};
ghost use Rattle.base_words.specs.Fields.{Block};
ghost use Rattle.vol_parts.specs.Parts.{IsGeometry};
ghost use Rattle.vol_parts.specs.declared.geometry.Geometry.{Geometry as Volume};
ghost use Rattle.op_law.specs.declared.need.Plan.{Plan};
ghost use Rattle.op_law.specs.Events.{Events, Make, Space, following};
ghost use Rattle.op_law.specs.Refusing.{SeenFile, seen_file, used_in, if_file};
ghost use Rattle.op_law.specs.Removing.{under_lock, through_named};
ghost use Rattle.op_law.specs.Behind.{behind_block, FollowsBy, FollowsBlock, IsHeadOf};
ghost use Rattle.op_law.specs.Readable.{AreInside, HeadIsInside};
ghost use Rattle.op_delete.specs.Seeing.{behind_named, FollowsNamed, IsFollowed, HeadIsFollowed, ShowsFile};

use base_words::Block;
use lock_db::LockName;
use op_law::{Granted, Looked, Need, Rest, block_seen, header_lbn, is_number, lock_seen};
use op_steps::{FileSeen, file_used};
use plain_cat::{Fid, Mode};
use vol_parts::Geometry;

/// The file that an entry names, where its header is seen.
#[derive(Drop)]
pub(crate) enum Named<'a> {
    /// The file, and what was seen behind its header.
    File(FileSeen<'a>, Rest<'a>),

    /// No such file is in use.
    Nothing,

    /// The header is not seen yet: what the command needs next.
    Next(Need),
}

// The header of a number under its lock in PW. Where the lock is that of the directory it is held already.
fn header_under<'a>(g: &Geometry, dir: u32, n: u32, rest: Rest<'a>) -> Looked<'a>
    requires geometry { IsGeometry g.now }
    requires number { n ≤ g.now.files }
    ensures head { IsHeadOf rest.entry.blocks.now result }
    ensures need { (next : Block → Events) (space : Space) → following (under_lock g.now dir n next) rest.entry.locks.now rest.entry.blocks.now space ≡ behind_block next space result }
    ensures follows { (next : Block → Events) (space : Space) → FollowsBy (under_lock g.now dir n next) rest.entry space → FollowsBlock next space result }
{
    let lbn = header_lbn(g, n);
    if n == dir {
        return block_seen(LockName::S(n), lbn, rest);
    }
    match lock_seen(LockName::S(n), Mode::PW, rest) {
        Granted::Next(need) => Looked::Next(need),
        Granted::Held(behind) => block_seen(LockName::S(n), lbn, behind),
    }
}

// The file of a header.
fn file_in<'a>(volume: &Geometry, fid: Fid, head: &'a Block, rest: Rest<'a>) -> Named<'a>
    requires number { fid.num ≤ volume.now.files }
    requires inside { AreInside head.now }
    requires followed { IsFollowed volume.now head.now rest.blocks.now }
    ensures file { ShowsFile volume.now result }
    ensures need { (g : Volume) (plan : Plan) (next : SeenFile → Events) (space : Space)
        → following (if_file (Make plan) next (option_map (seen_file g fid.num head.now) (used_in fid.seq head.now))) rest.entry.locks.now rest.entry.blocks.now space ≡ behind_named g plan next space result }
    ensures follows { (g : Volume) (plan : Plan) (next : SeenFile → Events) (space : Space)
        → FollowsBy (if_file (Make plan) next (option_map (seen_file g fid.num head.now) (used_in fid.seq head.now))) rest.entry space → FollowsNamed g next space result }
{
    match file_used(fid, head) {
        Some(f) => Named::File(f, rest),
        None => Named::Nothing,
    }
}

/// The file that an entry of a directory of this number names. It takes no memory.
pub(crate) fn named_seen<'a>(g: &Geometry, dir: u32, fid: Fid, rest: Rest<'a>) -> Named<'a>
    requires geometry { IsGeometry g.now }
    requires inside { HeadIsInside rest.blocks.now }
    requires followed { HeadIsFollowed g.now rest.blocks.now }
    ensures file { ShowsFile g.now result }
    ensures need { (plan : Plan) (next : SeenFile → Events) (space : Space)
        → following (through_named g.now dir fid (Make plan) next) rest.entry.locks.now rest.entry.blocks.now space ≡ behind_named g.now plan next space result }
    ensures follows { (plan : Plan) (next : SeenFile → Events) (space : Space) → FollowsBy (through_named g.now dir fid (Make plan) next) rest.entry space → FollowsNamed g.now next space result }
{
    if !is_number(g, fid) {
        return Named::Nothing;
    }
    match header_under(g, dir, fid.num, rest) {
        Looked::Next(need) => Named::Next(need),
        Looked::Seen(head, behind) => file_in(g, fid, head, behind),
    }
}
