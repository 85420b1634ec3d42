//! A directory in which a name is to be entered: its lock in PW, its header and its blocks; and the refusals that it shows.

ghost use Rattle.std.specs.Prelude.{◌≡◌, ◌≤◌, false, not};
ghost use Rattle.plain_rules.specs.Lookups.{versions, highest};
ghost use Rattle.plain_rules.specs.Directories.{is_nil, is_taken, new_version, is_last_version};
ghost use Rattle.vol_parts.specs.Parts.{IsGeometry};
ghost use Rattle.op_law.specs.Events.{Events, Space, following};
ghost use Rattle.op_law.specs.Rows.{in_directory, live_in, entries_seen};
ghost use Rattle.op_law.specs.Moving.{SeenDir, through_names, is_full};
ghost use Rattle.op_law.specs.Readable.{AreInside, HeadIsInside, BodyIsRead, HeadIsReadable, IsRead};
ghost use Rattle.op_law.specs.Behind.{FollowsBy, blocks_alone};
ghost use Rattle.op_steps.specs.Names.{behind_names, FollowsNames, ShowsReadable, ShowsRead, IsDirectory, IsNumbered};

use base_words::Block;
use fx_dir::has_room;
use lock_db::LockName;
use op_law::{
    Listed, Looked, Need, Rest, blocks_seen, header_seen, is_number, live_in, place_in, refused,
    version_seen,
};
use plain_cat::{Fid, Mode, Name, Refusal};
use std::alloc::Global;
use vol_parts::Geometry;

/// A directory whose header and blocks were seen.
#[derive(Clone, Copy)]
pub struct DirSeen<'a> {
    pub fid: Fid,

    /// The block of its header.
    pub head: &'a Block,

    /// Its blocks with their LBNs, in order.
    pub blocks: &'a [(u32, Block)],
}

/// A directory, where all of its blocks are seen.
#[derive(Drop)]
pub enum Names<'a> {
    /// The directory, and what was seen behind it.
    All(DirSeen<'a>, Rest<'a>),

    /// They are not all seen yet: what the command needs next.
    Next(Need),
}

// The blocks of a live directory with this header.
fn blocks_listed<'a>(alloc: Global, dir: Fid, head: &'a Block, rest: Rest<'a>) -> Names<'a>
    requires { AreInside head.now }
    ensures readable { ShowsReadable result }
    ensures read { BodyIsRead dir head.now rest.entry.blocks.now → ShowsRead result }
    ensures of { IsDirectory dir result }
    ensures need { (next : SeenDir → Events) (space : Space) → following (in_directory dir head.now (λ bs. next (record { fid = dir; head = head.now; blocks = bs })) (live_in dir.seq head.now)) rest.entry.locks.now rest.entry.blocks.now space ≡ behind_names next space result }
    ensures follows { (next : SeenDir → Events) (space : Space) → FollowsBy (in_directory dir head.now (λ bs. next (record { fid = dir; head = head.now; blocks = bs })) (live_in dir.seq head.now)) rest.entry space → FollowsNames next space result }
{
    let Some(h) = live_in(head, dir.seq) else {
        return Names::Next(refused(alloc, Refusal::NoSuchFile));
    };
    if !h.dir {
        return Names::Next(refused(alloc, Refusal::NotDir));
    }
    let unseen = place_in(head, rest.blocks.len());
    match blocks_seen(LockName::S(dir.num), h.blocks as usize, unseen, rest) {
        Listed::Next(need) => Names::Next(need),
        Listed::All(blocks, behind) => Names::All(
            DirSeen {
                fid: dir,
                head,
                blocks,
            },
            behind,
        ),
    }
}

/// A live directory's header and its blocks, behind its lock in PW. It takes no memory.
pub fn names_seen<'a>(alloc: Global, g: &Geometry, dir: Fid, rest: Rest<'a>) -> Names<'a>
    requires geometry { IsGeometry g.now }
    requires inside { HeadIsInside rest.blocks.now }
    ensures readable { ShowsReadable result }
    ensures read { HeadIsReadable dir rest.entry.blocks.now → ShowsRead result }
    ensures number { IsNumbered g.now result }
    ensures need { (next : SeenDir → Events) (space : Space) → following (through_names g.now dir next) rest.entry.locks.now rest.entry.blocks.now space ≡ behind_names next space result }
    ensures follows { (next : SeenDir → Events) (space : Space) → FollowsBy (through_names g.now dir next) rest.entry space → FollowsNames next space result }
{
    if !is_number(g, dir) {
        return Names::Next(refused(alloc, Refusal::NoSuchFile));
    }
    match header_seen(alloc, g, dir, Mode::PW, rest) {
        Looked::Next(need) => Names::Next(need),
        Looked::Seen(head, behind) => blocks_listed(alloc, dir, head, behind),
    }
}

/// The highest version of a name in a directory whose blocks were seen, or 0. It takes no memory.
pub fn highest_seen(seen: &[(u32, Block)], name: &Name) -> u16
    requires { IsRead seen.now }
    ensures { result ≡ highest (versions name.now (entries_seen (blocks_alone seen.now))) }
{
    match version_seen(seen, name, 0) {
        Some(v) => v.ver,
        None => 0,
    }
}

/// Whether a directory whose blocks were seen has some version of a name. It takes no memory.
pub fn has_name(seen: &[(u32, Block)], name: &Name) -> bool
    requires { IsRead seen.now }
    ensures { result ≡ not (is_nil (versions name.now (entries_seen (blocks_alone seen.now)))) }
{
    version_seen(seen, name, 0).is_some()
}

/// Whether a directory whose blocks were seen has this version of a name. It takes no memory.
pub fn is_taken(seen: &[(u32, Block)], name: &Name, ver: u16) -> bool
    requires read { IsRead seen.now }
    requires from { 1 ≤ ver }
    ensures { result ≡ is_taken ver (versions name.now (entries_seen (blocks_alone seen.now))) }
{
    version_seen(seen, name, ver).is_some()
}

/// The version of a new entry in a directory whose blocks were seen: one more than the highest, where it is 0. It takes no memory.
pub fn new_version(seen: &[(u32, Block)], name: &Name, ver: u16) -> u16
    requires read { IsRead seen.now }
    requires last { is_last_version ver (versions name.now (entries_seen (blocks_alone seen.now))) ≡ false }
    ensures value { result ≡ new_version ver (versions name.now (entries_seen (blocks_alone seen.now))) }
    ensures from { 1 ≤ result }
{
    if ver == 0 {
        highest_seen(seen, name) + 1
    } else {
        ver
    }
}

/// Whether a new entry of this name and version has no room in a directory whose blocks were seen. It takes no memory.
pub fn is_full(g: &Geometry, seen: &[(u32, Block)], name: &Name, ver: u16) -> bool
    requires { IsRead seen.now }
    ensures { result ≡ is_full g.now (entries_seen (blocks_alone seen.now)) name.now ver }
{
    !has_room(seen, name.items(), ver, g.cluster)
}
