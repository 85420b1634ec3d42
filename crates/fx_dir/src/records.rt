//! The records of one directory block, read one by one.

ghost use Rattle.std.specs.Prelude.{◌≡◌, ◌+◌, ◌-◌, ◌*◌, ◌/◌, ◌≤◌, ◌<◌, ◌++◌, IfOk, OnOk, IsSome, length, drop};
ghost use Rattle.std.specs.Bool.{OnTrue};
ghost use Rattle.fx_dir.specs.Directory.{entries_at};
ghost use Rattle.fx_dir.specs.Pieces.{if_whole, behind};
ghost use Rattle.fx_dir.specs.Records.{record_length, head_length, name_in, is_end, is_whole, is_named, is_version, entry_in, versions_in, record_entries, records_in, block_entries};

use crate::entries::rises;
use crate::{NoMemory, RawEnt, RawName};
use base_words::Block;
use base_words::names::is_name;
use byteorder::{ByteOrder, LittleEndian};

/// The word that ends the records of a block.
const END: u16 = 65535;

/// The length of the record that begins here.
pub(crate) fn record_length(bytes: &[u8]) -> usize
    requires { 2 ≤ length bytes.now }
    ensures value { result ≡ record_length bytes.now }
    ensures bound { result < 65538 }
{
    LittleEndian::read_u16(bytes) as usize + 2
}

/// How much of it stands in front of its versions.
pub(crate) fn head_length(bytes: &[u8]) -> usize
    requires { 6 ≤ length bytes.now }
    ensures value { result ≡ head_length bytes.now }
    ensures bound { result < 263 }
{
    let n = bytes[5] as usize;
    6 + n + n % 2
}

#[tactic(auto, unfolding(crate::specs::Records::is_end))]
pub(crate) fn is_end(bytes: &[u8]) -> bool
    requires { 2 ≤ length bytes.now }
    ensures { result ≡ is_end bytes.now }
{
    LittleEndian::read_u16(bytes) == END
}

#[tactic(auto, unfolding(crate::specs::Records::is_whole))]
fn is_whole(bytes: &[u8]) -> bool
    requires { 2 ≤ length bytes.now }
    ensures value { result ≡ is_whole bytes.now }
    ensures room { OnTrue result (record_length bytes.now + 2 ≤ length bytes.now) }
    ensures head { OnTrue result (head_length bytes.now < record_length bytes.now) }
{
    let end = record_length(bytes);
    if bytes.len() < end + 2 || end < 6 {
        return false;
    }
    let head = head_length(bytes);
    head < end && (end - head) % 8 == 0
}

#[tactic(auto, unfolding(crate::specs::Records::is_named))]
fn is_named(bytes: &[u8]) -> bool
    requires { head_length bytes.now ≤ length bytes.now }
    ensures { result ≡ is_named bytes.now }
{
    let n = bytes[5] as usize;
    is_name(&bytes[6..6 + n]) && (n % 2 == 0 || bytes[6 + n] == 0)
}

#[tactic(auto, unfolding(crate::specs::Records::is_version))]
fn is_version(bytes: &[u8]) -> bool
    requires { 8 ≤ length bytes.now }
    ensures { result ≡ is_version bytes.now }
{
    let ver = LittleEndian::read_u16(bytes);
    bytes[6] == 0 && 1 <= ver && ver <= 32767
}

/// The entry of a version, whose record begins with `head` and has this name.
#[tactic(auto, unfolding(crate::specs::Records::entry_in))]
fn entry_in(name: &RawName, head: &[u8], bytes: &[u8]) -> RawEnt
    requires head { 6 ≤ length head.now }
    requires named { name.now ≡ name_in head.now }
    requires version { 8 ≤ length bytes.now }
    ensures { result ≡ entry_in head.now bytes.now }
{
    RawEnt {
        name: *name,
        ver: LittleEndian::read_u16(bytes),
        num: LittleEndian::read_u16(&bytes[2..]) as u32 + 65536 * bytes[7] as u32,
        seq: LittleEndian::read_u16(&bytes[4..]),
        limit: LittleEndian::read_u16(&head[2..]),
        flags: head[4],
    }
}

/// Appends the entries of `count` versions, and says whether none is bad.
fn push_versions(
    list: &mut Vec<RawEnt>,
    head: &[u8],
    count: usize,
    bytes: &[u8],
) -> Result<bool, NoMemory>
    requires head { head_length head.now ≤ length head.now }
    requires named { length (name_in head.now) ≤ 79 }
    requires versions { 8 * count ≤ length bytes.now }
    ensures { IfOk result (λ whole. if_whole whole list.new.items ≡ behind list.old.items (versions_in head.now count bytes.now)) }
{
    let n = head[5] as usize;
    let name = RawName::new(&head[6..6 + n]);
    for k in 0..count {
        let version = bytes.split_at(8 * k).1;
        if !is_version(version) {
            return Ok(false);
        }
        list.push(entry_in(&name, head, version))?;
    }
    Ok(true)
}

/// Appends the entries of the versions of the record that begins here, and says whether none is bad.
fn push_named(list: &mut Vec<RawEnt>, bytes: &[u8]) -> Result<bool, NoMemory>
    requires room { record_length bytes.now + 2 ≤ length bytes.now }
    requires head { head_length bytes.now < record_length bytes.now }
    requires named { length (name_in bytes.now) ≤ 79 }
    ensures { IfOk result (λ whole. if_whole whole list.new.items ≡ behind list.old.items (versions_in bytes.now ((record_length bytes.now - head_length bytes.now) / 8) (drop (head_length bytes.now) bytes.now))) }
{
    let head = head_length(bytes);
    push_versions(
        list,
        bytes,
        (record_length(bytes) - head) / 8,
        &bytes[head..],
    )
}

/// Appends the entries of the record that begins here, and says whether there is one.
#[tactic(auto, unfolding(crate::specs::Records::record_entries))]
fn push_record(list: &mut Vec<RawEnt>, bytes: &[u8]) -> Result<bool, NoMemory>
    requires { 2 ≤ length bytes.now }
    ensures value { IfOk result (λ whole. if_whole whole list.new.items ≡ behind list.old.items (record_entries bytes.now)) }
    ensures room { IfOk result (λ whole. OnTrue whole (record_length bytes.now + 2 ≤ length bytes.now)) }
{
    if !is_whole(bytes) || !is_named(bytes) {
        return Ok(false);
    }
    push_named(list, bytes)
}

/// Appends the entries of the records of a block, and says whether none is bad.
fn push_records(list: &mut Vec<RawEnt>, b: &Block) -> Result<bool, NoMemory>
    ensures { IfOk result (λ whole. if_whole whole list.new.items ≡ behind list.old.items (records_in (length b.now) b.now)) }
{
    let mut rest: &[u8] = b;
    while !is_end(rest) {
        let whole = push_record(list, rest)?;
        if !whole {
            return Ok(false);
        }
        rest = rest.split_at(record_length(rest)).1;
    }
    Ok(true)
}

/// Appends the entries of a block, and says whether it is a list of records in order. What is appended else means nothing.
#[tactic(auto, unfolding(crate::specs::Records::block_entries))]
pub(crate) fn push_block(list: &mut Vec<RawEnt>, b: &Block) -> Result<bool, NoMemory>
    ensures { IfOk result (λ whole. if_whole whole list.new.items ≡ behind list.old.items (block_entries b.now)) }
{
    let at = list.as_slice().len();
    let whole = push_records(list, b)?;
    if !whole {
        return Ok(false);
    }
    Ok(rises(list.as_slice().split_at(at).1))
}

/// Appends the entries of a block that is a list of records in order, which is not checked again.
pub(crate) fn push_sound(list: &mut Vec<RawEnt>, b: &Block) -> Result<(), NoMemory>
    requires { IsSome (block_entries b.now) }
    ensures { OnOk result (list.new.items ≡ list.old.items ++ entries_at b.now) }
{
    let mut rest: &[u8] = b;
    while !is_end(rest) {
        push_named(list, rest)?;
        rest = rest.split_at(record_length(rest)).1;
    }
    Ok(())
}
