//! The events that commands have in common: locks and looks, a file's lock and its header, and a directory's blocks. Each says
//! what is behind it in what was seen, or what the command needs first.

ghost use Rattle.std.specs.Prelude.{◌≡◌, ◌≤◌, ◌<◌, ◌+◌, ◌*◌, ℕ, List, length, slice_get};
ghost use Rattle.base_words.specs.Fields.{Block};
ghost use Rattle.vol_parts.specs.Parts.{IsGeometry};
ghost use Rattle.vol_spell.specs.Reading.{header_place};
ghost use Rattle.op_law.specs.Events.{Events, Take, Look, Space, following};
ghost use Rattle.op_law.specs.Rows.{look_all, through_header, through_directory, in_directory, live_in};
ghost use Rattle.op_law.specs.Readable.{AreInside, HeadIsInside, BodyIsRead, HeadIsReadable, ListedRead, ListsRead};
ghost use Rattle.op_law.specs.Behind.{behind_lock, behind_block, behind_all, behind_directory, FollowsBy, FollowsLock, FollowsBlock, FollowsAll, HasBlocks, HasAtMost, ListsFirst, IsHeadOf};

use crate::events::{is_number, live_in, place_in, refused};
use crate::need::Need;
use base_words::Block;
use lock_db::LockName;
use plain_cat::{Fid, Mode, Refusal};
use std::alloc::Global;
use vol_parts::Geometry;

/// What was seen from an event of a command on.
#[derive(Clone, Copy)]
pub struct Rest<'a> {
    /// The locks that were granted from there on, in order.
    pub locks: &'a [(LockName, Mode)],

    /// The blocks that were looked at from there on, in order.
    pub blocks: &'a [(u32, Block)],
}

/// A lock, where it is granted.
#[derive(Drop)]
pub enum Granted<'a> {
    /// What was seen behind it.
    Held(Rest<'a>),

    /// It is not granted yet: what the command needs next.
    Next(Need),
}

/// A block, where it is seen.
#[derive(Drop)]
pub enum Looked<'a> {
    /// The block, and what was seen behind it.
    Seen(&'a Block, Rest<'a>),

    /// It is not seen yet: what the command needs next.
    Next(Need),
}

/// Blocks, where all of them are seen.
#[derive(Drop)]
pub enum Listed<'a> {
    /// The blocks with their LBNs, in order, and what was seen behind them.
    All(&'a [(u32, Block)], Rest<'a>),

    /// They are not all seen yet: what the command needs next.
    Next(Need),
}

/// A directory, where all of its blocks are seen.
#[derive(Drop)]
pub enum Listing<'a> {
    /// The block of its header, its blocks with their LBNs, in order, and what was seen behind them.
    All(&'a Block, &'a [(u32, Block)], Rest<'a>),

    /// They are not all seen yet: what the command needs next.
    Next(Need),
}

/// A lock in a mode. It takes no memory.
pub fn lock_seen<'a>(name: LockName, mode: Mode, rest: Rest<'a>) -> Granted<'a>
    ensures blocks { HasBlocks rest.entry.blocks.now result }
    ensures need { (next : Events) (space : Space) → following (Take name mode next) rest.entry.locks.now rest.entry.blocks.now space ≡ behind_lock next space result }
    ensures follows { (next : Events) (space : Space) → FollowsBy (Take name mode next) rest.entry space → FollowsLock next space result }
{
    match rest.locks {
        [_, locks @ ..] => Granted::Held(Rest {
            locks,
            blocks: rest.blocks,
        }),
        [] => Granted::Next(Need::Lock(name, mode)),
    }
}

/// A look at the block of an LBN, which the lock of this name guards. It takes no memory.
pub fn block_seen<'a>(name: LockName, lbn: u32, rest: Rest<'a>) -> Looked<'a>
    ensures head { IsHeadOf rest.entry.blocks.now result }
    ensures need { (next : Block → Events) (space : Space) → following (Look name lbn next) rest.entry.locks.now rest.entry.blocks.now space ≡ behind_block next space result }
    ensures follows { (next : Block → Events) (space : Space) → FollowsBy (Look name lbn next) rest.entry space → FollowsBlock next space result }
{
    match rest.blocks {
        [(_, block), blocks @ ..] => Looked::Seen(
            block,
            Rest {
                locks: rest.locks,
                blocks,
            },
        ),
        [] => Looked::Next(Need::Block(name, lbn)),
    }
}

/// Looks at so many blocks in order, which the lock of this name guards, where the LBN is that of the first that was not seen.
/// It takes no memory.
pub fn blocks_seen<'a>(
    name: LockName,
    count: usize,
    unseen: Option<u32>,
    rest: Rest<'a>,
) -> Listed<'a>
    ensures few { HasAtMost count result }
    ensures first { ListsFirst count unseen rest.entry.blocks.now result }
    ensures need { (places : List ℕ) (next : List Block → Events) (space : Space) → length places ≡ count → slice_get places (length rest.entry.blocks.now) ≡ unseen
        → following (look_all name places next) rest.entry.locks.now rest.entry.blocks.now space ≡ behind_all next space result }
    ensures follows { (places : List ℕ) (next : List Block → Events) (space : Space) → length places ≡ count → slice_get places (length rest.entry.blocks.now) ≡ unseen
        → FollowsBy (look_all name places next) rest.entry space → FollowsAll next space result }
{
    if let Some(lbn) = unseen {
        return Listed::Next(Need::Block(name, lbn));
    }
    let all = count.min(rest.blocks.len());
    Listed::All(
        &rest.blocks[..all],
        Rest {
            locks: rest.locks,
            blocks: &rest.blocks[all..],
        },
    )
}

/// Where the header of a number stands.
pub fn header_lbn(g: &Geometry, n: u32) -> u32
    requires geometry { IsGeometry g.now }
    requires number { n ≤ g.now.files }
    ensures { result ≡ header_place g.now n }
{
    4 * g.cluster + n
}

/// The header of a file, behind its lock in this mode. It takes no memory.
pub fn header_seen<'a>(
    alloc: Global,
    g: &Geometry,
    file: Fid,
    mode: Mode,
    rest: Rest<'a>,
) -> Looked<'a>
    requires { IsGeometry g.now }
    ensures head { IsHeadOf rest.entry.blocks.now result }
    ensures need { (next : Block → Events) (space : Space) → following (through_header g.now file mode next) rest.entry.locks.now rest.entry.blocks.now space ≡ behind_block next space result }
    ensures follows { (next : Block → Events) (space : Space) → FollowsBy (through_header g.now file mode next) rest.entry space → FollowsBlock next space result }
{
    if !is_number(g, file) {
        return Looked::Next(refused(alloc, Refusal::NoSuchFile));
    }
    match lock_seen(LockName::S(file.num), mode, rest) {
        Granted::Next(need) => Looked::Next(need),
        Granted::Held(behind) => block_seen(LockName::S(file.num), header_lbn(g, file.num), behind),
    }
}

/// The blocks of a live directory with this header. It takes no memory.
pub fn entries_looked<'a>(alloc: Global, dir: Fid, header: &Block, rest: Rest<'a>) -> Listed<'a>
    requires { AreInside header.now }
    ensures read { BodyIsRead dir header.now rest.entry.blocks.now → ListedRead result }
    ensures need { (next : List Block → Events) (space : Space) → following (in_directory dir header.now next (live_in dir.seq header.now)) rest.entry.locks.now rest.entry.blocks.now space ≡ behind_all next space result }
{
    let Some(h) = live_in(header, dir.seq) else {
        return Listed::Next(refused(alloc, Refusal::NoSuchFile));
    };
    if !h.dir {
        return Listed::Next(refused(alloc, Refusal::NotDir));
    }
    let unseen = place_in(header, rest.blocks.len());
    blocks_seen(LockName::S(dir.num), h.blocks as usize, unseen, rest)
}

/// A live directory's header and its blocks, behind its lock in this mode. It takes no memory.
pub fn directory_seen<'a>(
    alloc: Global,
    g: &Geometry,
    dir: Fid,
    mode: Mode,
    rest: Rest<'a>,
) -> Listing<'a>
    requires geometry { IsGeometry g.now }
    requires inside { HeadIsInside rest.blocks.now }
    ensures read { HeadIsReadable dir rest.entry.blocks.now → ListsRead result }
    ensures need { (next : Block → List Block → Events) (space : Space) → following (through_directory g.now dir mode next) rest.entry.locks.now rest.entry.blocks.now space ≡ behind_directory next space result }
{
    match header_seen(alloc, g, dir, mode, rest) {
        Looked::Next(need) => Listing::Next(need),
        Looked::Seen(header, behind) => match entries_looked(alloc, dir, header, behind) {
            Listed::Next(need) => Listing::Next(need),
            Listed::All(blocks, others) => Listing::All(header, blocks, others),
        },
    }
}
