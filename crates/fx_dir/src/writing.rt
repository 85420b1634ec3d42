//! A directory block, written from its entries.

ghost use Rattle.std.specs.Prelude.{◌≡◌, ◌+◌, ◌≤◌, ◌<◌, suc, None, length};
ghost use Rattle.base_words.specs.Fields.{put};
ghost use Rattle.base_words.specs.Packing.{padded, size};
ghost use Rattle.fx_dir.specs.declared.RawEnt.{RawEnt};
ghost use Rattle.fx_dir.specs.Lists.{Each};
ghost use Rattle.fx_dir.specs.Writing.{IsInForm, name_of, head_bytes, version_bytes, goes_on, last_name, following, block_of};
ghost use Rattle.fx_dir.specs.Pieces.{entry_bytes};

use crate::{RawEnt, RawName};
use base_words::{Block, put_bytes, put_word, zeros};

/// Whether the entry goes into the record of the last of those before it.
#[tactic(auto, unfolding(crate::specs::Writing::goes_on))]
fn goes_on(before: &[RawEnt], e: &RawEnt) -> bool
    ensures { result ≡ goes_on (last_name before.now) e.now }
{
    match before.get(before.len().saturating_sub(1)) {
        None => false,
        Some(last) => last.name.is_same(&e.name),
    }
}

/// How many of the entries go on with this name.
fn following(name: &RawName, es: &[RawEnt]) -> usize
    ensures count { result ≡ following name.now es.now }
    ensures bound { result ≤ length es.now }
{
    es.iter().take_while(|e| name.is_same(&e.name)).count()
}

/// Writes what a record of `count` versions has in front of them.
#[tactic(auto, unfolding(crate::specs::Writing::head_bytes))]
fn put_head(b: &mut Block, at: usize, e: &RawEnt, count: usize)
    requires named { length e.now.name ≤ 79 }
    requires few { count ≤ 64 }
    requires room { at + (6 + padded e.now.name) ≤ 512 }
    ensures { b.new ≡ put b.old at (head_bytes e.now count) }
{
    let name = e.name.bytes();
    let n = name.len();
    let size = 4 + (n + n % 2) + 8 * count;
    put_word(b, at, size as u16);
    put_word(b, at + 2, e.limit);
    put_bytes(b, at + 4, &[e.flags, n as u8]);
    put_bytes(b, at + 6, name);
    put_bytes(b, at + 6 + n, &[0][..n % 2]);
}

/// Writes a version and its file identifier.
#[tactic(auto, unfolding(crate::specs::Writing::version_bytes))]
fn put_version(b: &mut Block, at: usize, e: &RawEnt)
    requires numbered { e.now.num ≤ 16777215 }
    requires room { at + 8 ≤ 512 }
    ensures { b.new ≡ put b.old at (version_bytes e.now) }
{
    put_word(b, at, e.ver);
    put_word(b, at + 2, (e.num % 65536) as u16);
    put_word(b, at + 4, e.seq);
    put_bytes(b, at + 6, &[0, (e.num / 65536) as u8]);
}

/// Writes an entry behind those in front of it, and gives the place behind it. `more` are the entries behind it.
fn put_entry(b: &mut Block, at: usize, before: &[RawEnt], e: &RawEnt, more: &[RawEnt]) -> usize
    requires form { IsInForm e.now }
    requires few { length more.now < 64 }
    requires room { at + length (entry_bytes (last_name before.now) e.now (suc (following e.now.name more.now))) ≤ 510 }
    ensures text { b.new ≡ put b.old at (entry_bytes (last_name before.now) e.now (suc (following e.now.name more.now))) }
    ensures end { result ≡ at + length (entry_bytes (last_name before.now) e.now (suc (following e.now.name more.now))) }
{
    if goes_on(before, e) {
        put_version(b, at, e);
        return at + 8;
    }
    let name = e.name.bytes();
    let head = 6 + (name.len() + name.len() % 2);
    put_head(b, at, e, 1 + following(&e.name, more));
    put_version(b, at + head, e);
    at + head + 8
}

/// The block of entries in order: their records, the word that ends them, and zeros.
pub(crate) fn block_of(es: &[RawEnt]) -> Block
    requires form { Each IsInForm es.now }
    requires room { size name_of None es.now ≤ 510 }
    ensures { result ≡ block_of es.now }
{
    let mut b = zeros();
    let mut at = 0usize;
    for (i, e) in es.iter().enumerate() {
        let (before, _) = es.split_at(i);
        let (_, more) = es.split_at(i + 1);
        at = put_entry(&mut b, at, before, e, more);
    }
    put_bytes(&mut b, at, &[255, 255]);
    b
}
