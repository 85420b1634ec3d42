//! The commands that change nothing: LOOKUP, LIST, STAT, READ and QUOTASHOW.

ghost use Rattle.std.specs.Prelude.{◌≡◌, ◌*◌, ◌<◌, ◌^◌, IfOk};
ghost use Rattle.base_words.specs.Tables.{zeros};
ghost use Rattle.plain_rules.specs.Accounts.{Accounted};
ghost use Rattle.plain_rules.specs.Changes.{blocks_of, block_of, is_past_mark};
ghost use Rattle.plain_rules.specs.Answers.{told, is_outside, lookup_outcome, list_outcome, stat_outcome, quota_show_outcome, read_outcome};

use crate::lookups::channel_at;
use base_words::{Block, zeros};
use plain_cat::{ByteBlock, Cat, Fid, File, Name, NoMemory, Refusal, Reply, Uic};
use plain_rules::{file_at, live, look_up, row_of};
use std::alloc::Global;

/// What LOOKUP is answered.
#[tactic(auto, unfolding(plain_rules::specs::Answers::lookup_outcome))]
pub fn lookup(alloc: Global, cat: &Cat, dir: Fid, name: &Name, ver: u16) -> Result<Reply, NoMemory>
    ensures { IfOk result (λ r. told cat.now r ≡ lookup_outcome cat.now dir name.now ver) }
{
    let Some(d) = live(cat, dir) else {
        return Ok(Reply::Refused(Refusal::NoSuchFile));
    };
    if !d.dir {
        return Ok(Reply::Refused(Refusal::NotDir));
    }
    look_up(alloc, &d.entries, name, ver)
}

/// What LIST is answered.
#[tactic(auto, unfolding(plain_rules::specs::Answers::list_outcome))]
pub fn list(alloc: Global, cat: &Cat, dir: Fid) -> Result<Reply, NoMemory>
    ensures { IfOk result (λ r. told cat.now r ≡ list_outcome cat.now dir) }
{
    let Some(d) = live(cat, dir) else {
        return Ok(Reply::Refused(Refusal::NoSuchFile));
    };
    if !d.dir {
        return Ok(Reply::Refused(Refusal::NotDir));
    }
    Ok(Reply::Listed(d.entries.copy(alloc)?))
}

// The allocated blocks of a file.
fn blocks_of(cat: &Cat, file: &File) -> u32
    requires { blocks_of cat.now file.now < 2 ^ 32 }
    ensures { result ≡ blocks_of cat.now file.now }
{
    cat.factor * file.clusters
}

/// What STAT is answered.
#[tactic(auto, unfolding(plain_rules::specs::Answers::stat_outcome))]
pub fn stat(cat: &Cat, fid: Fid) -> Reply
    requires { Accounted cat.now }
    ensures { told cat.now result ≡ stat_outcome cat.now fid }
{
    let Some(file) = live(cat, fid) else {
        return Reply::Refused(Refusal::NoSuchFile);
    };
    Reply::Facts {
        dir: file.dir,
        owner: file.owner,
        blocks: blocks_of(cat, file),
        mark: file.mark,
        end: file.end,
        byte: file.byte,
    }
}

/// What QUOTASHOW is answered.
#[tactic(auto, unfolding(plain_rules::specs::Answers::quota_show_outcome))]
pub fn quota_show(cat: &Cat, owner: Uic) -> Reply
    ensures { told cat.now result ≡ quota_show_outcome cat.now owner }
{
    match row_of(cat.quota.items(), owner) {
        Some(row) => Reply::Usage {
            usage: row.usage,
            quota: row.quota,
            over: row.over,
        },
        None => Reply::Refused(Refusal::NoQuota),
    }
}

pub(crate) fn is_outside(cat: &Cat, file: &File, vbn: u32) -> bool
    ensures { result ≡ is_outside cat.now file.now vbn }
{
    vbn == 0 || cat.factor as u64 * (file.clusters as u64) < vbn as u64
}

pub(crate) fn is_past_mark(file: &File, vbn: u32) -> bool
    ensures { result ≡ is_past_mark file.now vbn }
{
    file.mark != 0 && file.mark <= vbn
}

fn block_of(file: &File, vbn: u32) -> Block
    ensures { result ≡ block_of file.now vbn }
{
    if is_past_mark(file, vbn) {
        return zeros();
    }
    match file.written.items().get((vbn as usize).saturating_sub(1)) {
        Some(block) => *block,
        None => zeros(),
    }
}

/// What READ is answered.
#[tactic(auto, unfolding(plain_rules::specs::Answers::read_outcome))]
pub fn read(alloc: Global, cat: &Cat, node: u8, chan: u8, vbn: u32) -> Result<Reply, NoMemory>
    ensures { IfOk result (λ r. told cat.now r ≡ read_outcome cat.now node chan vbn) }
{
    let Some(held) = channel_at(cat, node, chan) else {
        return Ok(Reply::Refused(Refusal::NotOpen));
    };
    let Some(file) = file_at(cat, held.file) else {
        return Ok(Reply::Refused(Refusal::EndOfFile));
    };
    if is_outside(cat, file, vbn) {
        return Ok(Reply::Refused(Refusal::EndOfFile));
    }
    Ok(Reply::Bytes(ByteBlock::new(alloc, &block_of(file, vbn))?))
}
