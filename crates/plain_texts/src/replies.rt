//! Replies and refusals as they are printed.

ghost use Rattle.std.specs.Prelude.{◌≡◌, ◌<◌, ◌++◌, ◌+◌, ◌*◌, OnOk, OnErr, false, sum};
ghost use Rattle.std.specs.Fmt.{digit_glyph};
ghost use Rattle.std.specs.List.{flat_map};
ghost use Rattle.plain_texts.specs.Replies.{refusal_text, listed_text, kind_text, closed_text, hex_text, size_text, marks_text, facts_text, usage_text, reply_text};

use crate::commands::{then_entry, then_uic};
use crate::names::{add_entry, fid_before, push_fid, version_before};
use crate::pieces::{NoMemory, push_bytes, push_count, push_number};
use crate::tail::Tail;
use plain_cat::{DirEnt, Refusal, Reply, Uic};
use std::alloc::Global;

/// Appends a refusal by its name.
pub fn push_refusal(out: &mut Vec<u8>, why: Refusal) -> Result<(), NoMemory>
    ensures ok { OnOk result (out.new.items ≡ out.old.items ++ refusal_text why) }
    ensures err { OnErr result (out.new.items ≡ out.old.items) }
{
    match why {
        Refusal::NoSuchFile => push_bytes(out, b"NoSuchFile"),
        Refusal::NotDir => push_bytes(out, b"NotDir"),
        Refusal::NoPriv => push_bytes(out, b"NoPriv"),
        Refusal::DupFile => push_bytes(out, b"DupFile"),
        Refusal::BadVersion => push_bytes(out, b"BadVersion"),
        Refusal::DirFull => push_bytes(out, b"DirFull"),
        Refusal::DirNotEmpty => push_bytes(out, b"DirNotEmpty"),
        Refusal::FileLimit => push_bytes(out, b"FileLimit"),
        Refusal::NoQuota => push_bytes(out, b"NoQuota"),
        Refusal::ExQuota => push_bytes(out, b"ExQuota"),
        Refusal::QuotaFull => push_bytes(out, b"QuotaFull"),
        Refusal::IndexFull => push_bytes(out, b"IndexFull"),
        Refusal::DeviceFull => push_bytes(out, b"DeviceFull"),
        Refusal::AccConflict => push_bytes(out, b"AccConflict"),
        Refusal::ChanBusy => push_bytes(out, b"ChanBusy"),
        Refusal::NotOpen => push_bytes(out, b"NotOpen"),
        Refusal::EndOfFile => push_bytes(out, b"EndOfFile"),
    }
}

// Appends an entry of a listing, behind its space.
fn push_listed(out: &mut Vec<u8>, e: &DirEnt) -> Result<(), NoMemory>
    ensures { OnOk result (out.new.items ≡ out.old.items ++ listed_text e.now) }
{
    let mut tail = Tail::new();
    fid_before(&mut tail, e.fid);
    tail.byte(b' ');
    version_before(&mut tail, e.ver);
    push_bytes(out, b" ")?;
    push_bytes(out, e.name.items())?;
    push_bytes(out, tail.text())
}

// Appends the entries of a listing.
fn push_entries(out: &mut Vec<u8>, entries: &[DirEnt]) -> Result<(), NoMemory>
    ensures { OnOk result (out.new.items ≡ out.old.items ++ flat_map listed_text entries.now) }
{
    for e in entries {
        push_listed(out, e)?;
    }
    Ok(())
}

// The hexadecimal digit of a number below 16, in small letters.
fn hex_digit(n: u8) -> u8
    requires { n < 16 }
    ensures { result ≡ digit_glyph false n }
{
    if n < 10 { b'0' + n } else { b'a' - 10 + n }
}

// Appends a byte in two hexadecimal digits.
fn push_hex(out: &mut Vec<u8>, byte: u8) -> Result<(), NoMemory>
    ensures { OnOk result (out.new.items ≡ out.old.items ++ hex_text byte) }
{
    push_bytes(out, &[hex_digit(byte / 16), hex_digit(byte % 16)])
}

// Appends bytes in hexadecimal digits.
fn push_dump(out: &mut Vec<u8>, bytes: &[u8]) -> Result<(), NoMemory>
    ensures { OnOk result (out.new.items ≡ out.old.items ++ flat_map hex_text bytes.now) }
{
    for byte in bytes {
        push_hex(out, *byte)?;
    }
    Ok(())
}

// The sum of the bytes of a block.
fn byte_sum(block: &[u8; 512]) -> u32
    ensures { result ≡ sum block.now }
{
    let mut total = 0u32;
    for byte in block {
        total += u32::from(*byte);
    }
    total
}

// Appends the kind of a file.
fn push_kind(out: &mut Vec<u8>, dir: bool) -> Result<(), NoMemory>
    ensures { OnOk result (out.new.items ≡ out.old.items ++ kind_text dir) }
{
    if dir {
        push_bytes(out, b"directory")
    } else {
        push_bytes(out, b"file")
    }
}

// Appends what a close did.
fn push_closed(out: &mut Vec<u8>, gone: bool) -> Result<(), NoMemory>
    ensures { OnOk result (out.new.items ≡ out.old.items ++ closed_text gone) }
{
    if gone {
        push_bytes(out, b"closed and deleted")
    } else {
        push_bytes(out, b"closed")
    }
}

// Appends a number of blocks.
fn push_size(alloc: Global, out: &mut Vec<u8>, blocks: u32) -> Result<(), NoMemory>
    ensures { OnOk result (out.new.items ≡ out.old.items ++ size_text blocks) }
{
    push_number(alloc, out, blocks)?;
    push_bytes(out, b" blocks")
}

// Appends the high-water mark, and the end of file.
fn push_marks(
    alloc: Global,
    out: &mut Vec<u8>,
    mark: u32,
    end: u32,
    byte: u16,
) -> Result<(), NoMemory>
    ensures { OnOk result (out.new.items ≡ out.old.items ++ marks_text mark end byte) }
{
    push_bytes(out, b" mark ")?;
    push_number(alloc, out, mark)?;
    push_bytes(out, b" end ")?;
    push_number(alloc, out, end)?;
    push_bytes(out, b",")?;
    push_number(alloc, out, u32::from(byte))
}

/// The attributes of a file, as a reply tells them.
#[derive(Clone, Copy)]
struct Facts {
    dir: bool,
    owner: Uic,
    blocks: u32,
    mark: u32,
    end: u32,
    byte: u16,
}

// Appends the attributes of a file.
fn push_facts(alloc: Global, out: &mut Vec<u8>, f: Facts) -> Result<(), NoMemory>
    ensures { OnOk result (out.new.items ≡ out.old.items ++ facts_text f.dir f.owner f.blocks f.mark f.end f.byte) }
{
    push_kind(out, f.dir)?;
    then_uic(alloc, out, f.owner)?;
    push_bytes(out, b" ")?;
    push_size(alloc, out, f.blocks)?;
    push_marks(alloc, out, f.mark, f.end, f.byte)
}

// Appends a quota row.
fn push_usage(
    alloc: Global,
    out: &mut Vec<u8>,
    usage: u32,
    quota: u32,
    over: u32,
) -> Result<(), NoMemory>
    ensures { OnOk result (out.new.items ≡ out.old.items ++ usage_text usage quota over) }
{
    push_bytes(out, b"usage ")?;
    push_number(alloc, out, usage)?;
    push_bytes(out, b" quota ")?;
    push_number(alloc, out, quota)?;
    push_bytes(out, b" overdraft ")?;
    push_number(alloc, out, over)
}

// Appends a reply.
#[tactic(auto, unfolding(crate::specs::Replies::reply_text))]
pub(crate) fn add_reply(alloc: Global, out: &mut Vec<u8>, reply: &Reply) -> Result<(), NoMemory>
    ensures { OnOk result (out.new.items ≡ out.old.items ++ reply_text reply.now) }
{
    match reply {
        Reply::Found { fid, name, ver } => {
            push_fid(alloc, out, *fid)?;
            then_entry(alloc, out, name, *ver)
        }
        Reply::Listed(entries) => {
            push_count(alloc, out, entries.items().len())?;
            push_bytes(out, b" entries")?;
            push_entries(out, entries.items())
        }
        Reply::Facts {
            dir,
            owner,
            blocks,
            mark,
            end,
            byte,
        } => {
            let facts = Facts {
                dir: *dir,
                owner: *owner,
                blocks: *blocks,
                mark: *mark,
                end: *end,
                byte: *byte,
            };
            push_facts(alloc, out, facts)
        }
        Reply::Size(blocks) => push_size(alloc, out, *blocks),
        Reply::Deleted => push_bytes(out, b"deleted"),
        Reply::Marked => push_bytes(out, b"marked"),
        Reply::EntryRemoved => push_bytes(out, b"entry removed"),
        Reply::Renamed { name, ver } => add_entry(alloc, out, name, *ver),
        Reply::Opened => push_bytes(out, b"open"),
        Reply::Closed { gone } => push_closed(out, *gone),
        Reply::Bytes(bytes) => {
            let block = bytes.block();
            push_dump(out, &block[..16])?;
            push_bytes(out, b" sum ")?;
            push_number(alloc, out, byte_sum(block))
        }
        Reply::Written => push_bytes(out, b"written"),
        Reply::QuotaKept => push_bytes(out, b"set"),
        Reply::Usage { usage, quota, over } => push_usage(alloc, out, *usage, *quota, *over),
        Reply::Refused(why) => {
            push_bytes(out, b"refused ")?;
            push_refusal(out, *why)
        }
    }
}
