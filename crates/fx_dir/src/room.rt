//! Whether one more entry has room in the blocks of a directory, told without a list and without packing.
//!
//! ```text
//! let free = has_room(&seen, name, version, blocks);
//! ```
//!
//! [`has_room`] answers what packing would: the entries and the new one, in order, each into the current block where its bytes
//! fit in 510, and else into the next. It takes no memory.
//!
//! There are two ways to the answer:
//!
//! - First a quick look at the records, of which only the bytes and the longest name count. Packing leaves fewer bytes of a block
//!   free than a record of that name with one version takes. Where k blocks have room for all bytes with so many free in each, the
//!   answer is yes. That is nearly always so.
//! - Else a walk through the entries decides. It fills the blocks as packing would, entry by entry, and counts the bytes.
//!
//! The commands on names use it (`op_steps`).

ghost use Rattle.std.specs.Prelude.{◌≡◌, ◌+◌, ◌-◌, ◌*◌, ◌^◌, ◌<◌, ◌≤◌, ◌&&◌, min, ℕ, true, List, None, IsSome, IsOk, length, option_copied};
ghost use Rattle.std.specs.Result.{ForOk};
ghost use Rattle.std.specs.Str.{bytes_eq};
ghost use Rattle.std.specs.Ordering.{is_lt, is_eq};
ghost use Rattle.base_words.specs.Fields.{field};
ghost use Rattle.base_words.specs.Packing.{padded, cost};
ghost use Rattle.fx_dir.specs.Entries.{lower, before};
ghost use Rattle.fx_dir.specs.Lists.{Each};
ghost use Rattle.fx_dir.specs.Records.{record_length, head_length, name_in, is_end, versions_in, record_entries, block_entries};
ghost use Rattle.fx_dir.specs.Directory.{directory, entries_at, all_entries};
ghost use Rattle.fx_dir.specs.Moves.{key};
ghost use Rattle.fx_dir.specs.Filling.{filled_of, in_next, pushed, is_first, tried_of, taken_in};
ghost use Rattle.fx_dir.specs.Walk.{walked_of, last_met, is_behind, taken_on, walked, read_in, blocks_alone, IsBlockRead};
ghost use Rattle.fx_dir.specs.Plenty.{bytes_of, longest_of, bytes_in, longest_in};
ghost use Rattle.fx_dir.specs.Room.{has_room};

use base_words::Block;
use byteorder::{ByteOrder, LittleEndian};
use std::cmp::Ordering;

/// Blocks that are being filled.
#[derive(Clone, Copy)]
struct Filling<'a> {
    /// The blocks behind the current one.
    behind: u32,

    /// The bytes in use in the current one.
    used: usize,

    /// The name of its last record.
    last: Option<&'a [u8]>,

    /// An entry had no room.
    full: bool,
}

/// What is filled, and whether the new entry is still to come.
#[derive(Clone, Copy)]
struct Trial<'a> {
    filling: Filling<'a>,
    waiting: bool,
}

/// A walk through the entries of blocks: what was tried, and the name and version of the last entry that was met.
#[derive(Clone, Copy)]
struct Walk<'a> {
    trial: Trial<'a>,
    last: Option<&'a [u8]>,
    last_ver: u16,
}

/// What the records of blocks have in all.
#[derive(Clone, Copy)]
struct Tally {
    /// The bytes of their records.
    bytes: usize,

    /// The length of the longest name.
    longest: usize,
}

/// The bytes of an entry in a record of its own.
fn own_cost(name: &[u8]) -> usize
    ensures { result ≡ 14 + padded name.now }
{
    14 + name.len() + name.len() % 2
}

/// The bytes of an entry behind a record of the name `last`.
#[tactic(auto, unfolding(base_words::specs::Packing::cost))]
fn cost(last: Option<&[u8]>, name: &[u8]) -> usize
    ensures { result ≡ cost (option_copied last.entry) name.now }
{
    match last {
        Some(last) if last == name => 8,
        _ => own_cost(name),
    }
}

/// An entry of this name in the next block.
#[tactic(auto, unfolding(base_words::specs::Packing::cost))]
fn in_next<'a>(f: Filling<'a>, name: &'a [u8]) -> Filling<'a>
    ensures { filled_of result ≡ in_next (filled_of f.entry) name.now }
{
    let own = own_cost(name);
    if f.behind == 0 || own > 510 {
        return Filling {
            behind: f.behind,
            used: f.used,
            last: f.last,
            full: true,
        };
    }
    Filling {
        behind: f.behind - 1,
        used: own,
        last: Some(name),
        full: false,
    }
}

/// An entry of this name more.
#[tactic(auto, unfolding(crate::specs::Filling::pushed))]
fn pushed<'a>(f: Filling<'a>, name: &'a [u8]) -> Filling<'a>
    ensures { filled_of result ≡ pushed (filled_of f.entry) name.now }
{
    if f.full {
        return f;
    }
    let used = f.used.saturating_add(cost(f.last, name));
    if used > 510 {
        return in_next(f, name);
    }
    Filling {
        behind: f.behind,
        used,
        last: Some(name),
        full: false,
    }
}

/// By bytes, where a text comes before those that go on after it.
fn name_order(a: &[u8], b: &[u8]) -> Ordering
    ensures lower { is_lt result ≡ lower a.now b.now }
    ensures equal { is_eq result ≡ bytes_eq a.now b.now }
{
    a.cmp(b)
}

/// Whether an entry of this name and version is before one of that.
#[tactic(auto, unfolding(crate::specs::Filling::is_first))]
fn is_first(name: &[u8], ver: u16, other: &[u8], other_ver: u16) -> bool
    ensures { result ≡ is_first name.now ver other.now other_ver }
{
    let order = name_order(name, other);
    order.is_lt() || (order.is_eq() && other_ver < ver)
}

/// Whether the new entry is still to come, and comes before this one.
fn comes_here(waiting: bool, name: &[u8], ver: u16, own: &[u8], own_ver: u16) -> bool
    ensures { result ≡ (waiting && before (key name.now ver) (key own.now own_ver)) }
{
    if waiting {
        return is_first(name, ver, own, own_ver);
    }
    false
}

/// The next entry, and in front of it the new one where that comes before it.
fn taken_in<'a>(t: Trial<'a>, name: &'a [u8], ver: u16, own: &'a [u8], own_ver: u16) -> Trial<'a>
    ensures { tried_of result ≡ taken_in (key name.now ver) (tried_of t.entry) (key own.now own_ver) }
{
    if comes_here(t.waiting, name, ver, own, own_ver) {
        return Trial {
            filling: pushed(pushed(t.filling, name), own),
            waiting: false,
        };
    }
    Trial {
        filling: pushed(t.filling, own),
        waiting: t.waiting,
    }
}

/// Whether an entry comes behind the last one that was met.
fn is_behind(last: Option<&[u8]>, last_ver: u16, own: &[u8], own_ver: u16) -> bool
    ensures { result ≡ is_behind (last_met last.entry last_ver) (key own.now own_ver) }
{
    match last {
        Some(name) => is_first(name, last_ver, own, own_ver),
        None => true,
    }
}

/// One entry of the blocks more. One that was met is passed over.
#[tactic(auto, unfolding(crate::specs::Walk::taken_on))]
fn taken_on<'a>(w: Walk<'a>, name: &'a [u8], ver: u16, own: &'a [u8], own_ver: u16) -> Walk<'a>
    ensures { walked_of result ≡ taken_on (key name.now ver) (walked_of w.entry) (key own.now own_ver) }
{
    if !is_behind(w.last, w.last_ver, own, own_ver) {
        return w;
    }
    Walk {
        trial: taken_in(w.trial, name, ver, own, own_ver),
        last: Some(own),
        last_ver: own_ver,
    }
}

/// The `count` versions of the record of the name `own`.
fn versions_taken<'a>(
    w: Walk<'a>,
    name: &'a [u8],
    ver: u16,
    own: &'a [u8],
    count: usize,
    bytes: &'a [u8],
) -> Walk<'a>
    requires { 8 * count ≤ length bytes.now }
    ensures { (head : List ℕ) → name_in head ≡ own.now → IsSome (versions_in head count bytes.now)
        → walked_of result ≡ walked (key name.now ver) (walked_of w.entry) (read_in (versions_in head count bytes.now)) }
{
    let mut now = w;
    for k in 0..count {
        let version = bytes.split_at(8 * k).1;
        now = taken_on(now, name, ver, own, word(version));
    }
    now
}

/// The word of two bytes that begins here.
fn word(bytes: &[u8]) -> u16
    requires { 2 ≤ length bytes.now }
    ensures { result ≡ field bytes.now 0 2 }
{
    LittleEndian::read_u16(bytes)
}

/// The length of the record that begins here.
fn record_length(bytes: &[u8]) -> usize
    requires { 2 ≤ length bytes.now }
    ensures value { result ≡ record_length bytes.now }
    ensures bound { result < 65538 }
{
    word(bytes) as usize + 2
}

/// How much of it stands in front of its versions.
fn head_length(bytes: &[u8]) -> usize
    requires { 6 ≤ length bytes.now }
    ensures value { result ≡ head_length bytes.now }
    ensures bound { result < 263 }
{
    let n = bytes[5] as usize;
    6 + n + n % 2
}

/// Whether no more record begins here.
#[tactic(auto, unfolding(crate::specs::Records::is_end))]
fn is_end(bytes: &[u8]) -> bool
    requires { 2 ≤ length bytes.now }
    ensures { result ≡ is_end bytes.now }
{
    word(bytes) == 65535
}

/// The name of the record that begins here.
fn name_in(bytes: &[u8]) -> &[u8]
    requires { head_length bytes.now ≤ length bytes.now }
    ensures { result.now ≡ name_in bytes.now }
{
    let n = bytes[5] as usize;
    &bytes[6..6 + n]
}

/// The entries of the record that begins here.
fn record_taken<'a>(w: Walk<'a>, name: &'a [u8], ver: u16, bytes: &'a [u8]) -> Walk<'a>
    requires { IsSome (record_entries bytes.now) }
    ensures { walked_of result ≡ walked (key name.now ver) (walked_of w.entry) (read_in (record_entries bytes.now)) }
{
    let head = head_length(bytes);
    let versions = bytes.split_at(head).1;
    let own = name_in(bytes);
    versions_taken(
        w,
        name,
        ver,
        own,
        (record_length(bytes) - head) / 8,
        versions,
    )
}

/// The entries of a block.
fn block_taken<'a>(w: Walk<'a>, name: &'a [u8], ver: u16, b: &'a Block) -> Walk<'a>
    requires { IsSome (block_entries b.now) }
    ensures { walked_of result ≡ walked (key name.now ver) (walked_of w.entry) (entries_at b.now) }
{
    let mut now = w;
    let mut rest: &'a [u8] = b;
    while !is_end(rest) {
        now = record_taken(now, name, ver, rest);
        rest = rest.split_at(record_length(rest)).1;
    }
    now
}

/// The entries of blocks.
fn blocks_taken<'a>(w: Walk<'a>, name: &'a [u8], ver: u16, seen: &'a [(u32, Block)]) -> Walk<'a>
    requires { Each IsBlockRead (blocks_alone seen.now) }
    ensures { walked_of result ≡ walked (key name.now ver) (walked_of w.entry) (all_entries (blocks_alone seen.now)) }
{
    let mut now = w;
    for (_, block) in seen {
        now = block_taken(now, name, ver, block);
    }
    now
}

/// The bytes of the records of a block, and the longest of their names.
fn block_counted(b: &Block) -> Tally
    requires { IsSome (block_entries b.now) }
    ensures bytes { bytes_of (entries_at b.now) ≤ result.bytes }
    ensures longest { longest_of (entries_at b.now) ≤ result.longest }
{
    let mut longest = 0usize;
    let mut rest: &[u8] = b;
    while !is_end(rest) {
        longest = longest.max(name_in(rest).len());
        rest = rest.split_at(record_length(rest)).1;
    }
    Tally {
        bytes: b.len() - rest.len(),
        longest,
    }
}

/// The bytes of the records of all blocks, as far as 64 bits go, and the longest of their names.
fn blocks_counted(seen: &[(u32, Block)]) -> Tally
    requires { Each IsBlockRead (blocks_alone seen.now) }
    ensures bytes { min (bytes_in (blocks_alone seen.now)) (2 ^ 64 - 1) ≤ result.bytes }
    ensures longest { longest_in (blocks_alone seen.now) ≤ result.longest }
{
    let mut bytes = 0usize;
    let mut longest = 0usize;
    for (_, block) in seen {
        let own = block_counted(block);
        bytes = bytes.saturating_add(own.bytes);
        longest = longest.max(own.longest);
    }
    Tally { bytes, longest }
}

/// Whether the entries of a directory and a new one of this name surely pack into k blocks. It may say no where they do.
///
/// No entry takes more than `most` bytes, so packing ends a block only where `511 - most` of it or more are in use. The entries take
/// no more than the records that they stand in, and with the new one twice `most` at most is added: for its own record, and for one
/// that the entry behind it begins.
fn has_plenty(seen: &[(u32, Block)], name: &[u8], k: u32) -> bool
    requires { IsOk (directory (blocks_alone seen.now)) }
    ensures { result ≡ true → (ver : ℕ) → ForOk (directory (blocks_alone seen.now)) (λ es. has_room k (key name.now ver) es ≡ true) }
{
    let all = blocks_counted(seen);
    let longest = all.longest.max(name.len());
    if longest > 255 {
        return false;
    }
    let most = 14 + longest + longest % 2;
    all.bytes.saturating_add(2 * most) <= k as usize * (511 - most)
}

/// Whether the entries of a directory, in its blocks with their LBNs, and a new one of this name and version pack into k blocks.
/// The blocks are read without a fault. It takes no memory.
pub fn has_room<'a>(seen: &'a [(u32, Block)], name: &'a [u8], ver: u16, k: u32) -> bool
    requires { IsOk (directory (blocks_alone seen.now)) }
    ensures { ForOk (directory (blocks_alone seen.now)) (λ es. result ≡ has_room k (key name.now ver) es) }
{
    if k == 0 {
        return false;
    }
    if has_plenty(seen, name, k) {
        return true;
    }
    let first = Walk {
        trial: Trial {
            filling: Filling {
                behind: k - 1,
                used: 0,
                last: None,
                full: false,
            },
            waiting: true,
        },
        last: None,
        last_ver: 0,
    };
    let t = blocks_taken(first, name, ver, seen).trial;
    if t.waiting {
        return !pushed(t.filling, name).full;
    }
    !t.filling.full
}
