//! The entries of a directory, read from its blocks.

ghost use Rattle.std.specs.Prelude.{◌≡◌, ◌≤◌, ◌+◌, ◌++◌, Result, Ok, Err, Some, IsOk, IfOk, OnOk, true, length, take, drop};
ghost use Rattle.std.specs.List.{list_all};
ghost use Rattle.fx_dir.specs.Entries.{before, rises};
ghost use Rattle.fx_dir.specs.Lists.{Each};
ghost use Rattle.fx_dir.specs.Writing.{IsInForm};
ghost use Rattle.fx_dir.specs.Directory.{Gives, directory, one_more};
ghost use Rattle.fx_dir.specs.Records.{block_entries};

use crate::records::{push_block, push_sound};
use crate::{DirFault, NoMemory, RawEnt};
use base_words::Block;
use std::alloc::Global;

/// How many of the entries met are before all of a block, as the last and the first tell: all of them, mostly.
fn passed(es: &[RawEnt], fs: &[RawEnt]) -> usize
    requires met { rises es.now ≡ true }
    requires found { rises fs.now ≡ true }
    ensures before { list_all (λ e. list_all (before e) fs.now) (take result es.now) ≡ true }
    ensures bound { result ≤ length es.now }
{
    if es.is_empty() || fs.is_empty() {
        return 0;
    }
    if es[es.len() - 1].is_before(&fs[0]) {
        return es.len();
    }
    0
}

/// How many of the entries of a block were met already, where all others of it come behind those met.
fn count_met(es: &[RawEnt], fs: &[RawEnt]) -> Result<usize, DirFault>
    requires met { rises es.now ≡ true }
    requires found { rises fs.now ≡ true }
    ensures value { Gives (λ n. es.now ++ drop n fs.now) (one_more 0 es.now (Some fs.now)) result }
    ensures bound { IfOk result (λ n. n ≤ length fs.now) }
    ensures sound { IsOk (one_more 0 es.now (Some fs.now)) → IsOk result }
{
    let mut i = passed(es, fs);
    let mut count = 0usize;
    let mut clash = false;
    while i < es.len() && count < fs.len() {
        let e = &es[i];
        let f = &fs[count];
        let order = e.order(f);
        if !order.is_lt() {
            if !order.is_eq() {
                return Err(DirFault::BadOrder);
            }
            clash = clash || f.is_clash(e);
            count += 1;
        }
        i += 1;
    }
    if clash {
        return Err(DirFault::Clash);
    }
    Ok(count)
}

/// Takes `n` of the entries out, from this place on: none, mostly.
fn take_out(es: &mut Vec<RawEnt>, at: usize, n: usize) -> Result<(), NoMemory>
    requires { at + n ≤ length es.old.items }
    ensures { OnOk result (es.new.items ≡ take at es.old.items ++ drop (at + n) es.old.items) }
{
    if n == 0 {
        return Ok(());
    }
    let mut more = es.split_off(at + n)?;
    es.truncate(at);
    es.append(&mut more)
}

/// Adds the entries of one more block to those met so far.
fn one_more(vbn: u32, met: &mut Vec<RawEnt>, b: &Block) -> Result<(), DirFault>
    requires form { Each IsInForm met.old.items }
    requires order { rises met.old.items ≡ true }
    ensures value { Gives (λ _. met.new.items) (one_more vbn met.old.items (block_entries b.now)) result }
    ensures form { OnOk result (Each IsInForm met.new.items) }
    ensures order { OnOk result (rises met.new.items ≡ true) }
{
    let at = met.as_slice().len();
    let whole = push_block(met, b)?;
    if !whole {
        return Err(DirFault::BadRecord(vbn));
    }
    let (before, found) = met.as_slice().split_at(at);
    let count = count_met(before, found)?;
    take_out(met, at, count)?;
    Ok(())
}

/// The entries of a directory, from its blocks in order of VBN: each entry once, in order of name and falling version.
///
/// The fault is the first, block by block, and in one block in the order of [`DirFault`].
pub fn read_dir(alloc: Global, blocks: &[Block]) -> Result<Vec<RawEnt>, DirFault>
    ensures entries { Gives (λ v. v.items) (directory blocks.now) result }
    ensures order { IfOk result (λ v. rises v.items ≡ true) }
    ensures form { IfOk result (λ v. Each IsInForm v.items) }
{
    let mut met = Vec::with_capacity(alloc, blocks.len().saturating_mul(62))?;
    let mut vbn = 1u32;
    for b in blocks {
        one_more(vbn, &mut met, b)?;
        vbn = vbn.saturating_add(1);
    }
    Ok(met)
}

/// Adds the entries of one more block of a directory without a fault to those met so far.
fn one_sound(met: &mut Vec<RawEnt>, b: &Block) -> Result<(), NoMemory>
    requires form { Each IsInForm met.old.items }
    requires order { rises met.old.items ≡ true }
    requires sound { IsOk (one_more 0 met.old.items (block_entries b.now)) }
    ensures value { OnOk result (one_more 0 met.old.items (block_entries b.now) ≡ Ok met.new.items) }
    ensures form { OnOk result (Each IsInForm met.new.items) }
    ensures order { OnOk result (rises met.new.items ≡ true) }
{
    let at = met.as_slice().len();
    push_sound(met, b)?;
    let (before, found) = met.as_slice().split_at(at);
    let Ok(count) = count_met(before, found) else {
        unreachable!()
    };
    take_out(met, at, count)?;
    Ok(())
}

/// The entries of a directory that is read without a fault, which is not checked again: what [`read_dir`] gives.
pub fn read_sound(alloc: Global, blocks: &[Block]) -> Result<Vec<RawEnt>, NoMemory>
    requires { IsOk (directory blocks.now) }
    ensures entries { IfOk result (λ v. directory blocks.now ≡ Ok v.items) }
    ensures order { IfOk result (λ v. rises v.items ≡ true) }
    ensures form { IfOk result (λ v. Each IsInForm v.items) }
{
    let mut met = Vec::with_capacity(alloc, blocks.len().saturating_mul(62))?;
    for b in blocks {
        one_sound(&mut met, b)?;
    }
    Ok(met)
}
