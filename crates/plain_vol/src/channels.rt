//! The commands of channels: OPEN, CLOSE and WRITE.

ghost use Rattle.std.specs.Prelude.{◌≡◌, ◌<◌, ◌^◌, ◌+◌, ◌≤◌, ◌++◌, ℕ, List, replicate, IfOk, OnOk, length};
ghost use Rattle.std.specs.List.{list_any};
ghost use Rattle.base_words.specs.Tables.{zeros};
ghost use Rattle.plain_rules.specs.Accounts.{Accounted};
ghost use Rattle.plain_rules.specs.Lookups.{file_at};
ghost use Rattle.plain_rules.specs.Changes.{text_block, with_block, written};
ghost use Rattle.plain_rules.specs.Answers.{conflicts, open_outcome, close_outcome, is_reading, write_outcome};
ghost use Rattle.plain_vol.specs.Makings.{changed, last_of, closed_by, rewritten_in};

use crate::changes::{set_channel, set_slot, take_file};
use crate::lookups::{channel_at, is_open};
use crate::naming::{Goner, goner_of, remove};
use crate::outcomes::{refused, told};
use crate::readers::{is_outside, is_past_mark};
use crate::sizing::is_kept;
use base_words::{Block, put_bytes, zeros};
use plain_cat::{
    Blocks, Cat, Fid, File, Mode, Name, NoMemory, Open, Refusal, Reply, Slot, compatible,
};
use plain_rules::{Outcome, file_at, live};
use std::alloc::Global;

fn conflicts(n: u32, mode: Mode, held: Option<Open>) -> bool
    ensures { result ≡ conflicts n mode held }
{
    match held {
        Some(other) => other.file == n && !compatible(mode, other.mode),
        None => false,
    }
}

fn any_conflict(cat: &Cat, n: u32, mode: Mode) -> bool
    ensures { result ≡ list_any (conflicts n mode) cat.now.opens }
{
    cat.opens
        .items()
        .iter()
        .any(|held| conflicts(n, mode, *held))
}

// OPEN
#[tactic(auto, unfolding(plain_rules::specs::Answers::open_outcome))]
pub(crate) fn open_file(mut cat: Cat, node: u8, chan: u8, fid: Fid, mode: Mode) -> Outcome
    ensures { result ≡ open_outcome cat node chan fid mode }
{
    if channel_at(&cat, node, chan).is_some() {
        return refused(cat, Refusal::ChanBusy);
    }
    let Some(file) = live(&cat, fid) else {
        return refused(cat, Refusal::NoSuchFile);
    };
    if is_kept(fid.num, file) {
        return refused(cat, Refusal::NoPriv);
    }
    if any_conflict(&cat, fid.num, mode) {
        return refused(cat, Refusal::AccConflict);
    }
    let held = Open {
        file: fid.num,
        mode,
    };
    set_channel(&mut cat, node, chan, Some(held));
    told(cat, Reply::Opened)
}

// The file that is to be gone with its last close.
fn last_of(cat: &Cat, n: u32) -> Option<Goner>
    requires { Accounted cat.now }
    ensures { result ≡ last_of cat.now (file_at cat.now n) }
{
    match file_at(cat, n) {
        Some(file) if file.marked => Some(goner_of(cat, file)),
        _ => None,
    }
}

// What a close of the file under a number leaves, in a catalogue whose channel is closed.
#[tactic(auto)]
fn closed_by(alloc: Global, mut cat: Cat, n: u32, last: Option<Goner>) -> Result<Outcome, NoMemory>
    ensures { IfOk result (λ o. o ≡ closed_by cat n last) }
{
    match last {
        Some(goner) if !is_open(&cat, n) => {
            remove(alloc, &mut cat, n, goner)?;
            Ok(told(cat, Reply::Closed { gone: true }))
        }
        _ => Ok(told(cat, Reply::Closed { gone: false })),
    }
}

// CLOSE
#[tactic(auto, unfolding(plain_rules::specs::Answers::close_outcome), using(crate::proofs::Closing::closes))]
pub(crate) fn close_file(
    alloc: Global,
    mut cat: Cat,
    node: u8,
    chan: u8,
) -> Result<Outcome, NoMemory>
    requires { Accounted cat }
    ensures { IfOk result (λ o. o ≡ close_outcome cat node chan) }
{
    let Some(held) = channel_at(&cat, node, chan) else {
        return Ok(refused(cat, Refusal::NotOpen));
    };
    let last = last_of(&cat, held.file);
    set_channel(&mut cat, node, chan, None);
    closed_by(alloc, cat, held.file, last)
}

fn is_reading(mode: Mode) -> bool
    ensures { result ≡ is_reading mode }
{
    match mode {
        Mode::CR | Mode::PR => true,
        Mode::NL | Mode::CW | Mode::PW | Mode::EX => false,
    }
}

// A text, and zeros after it.
fn text_block(text: &Name) -> Block
    requires { length text.now ≤ 512 }
    ensures { result ≡ text_block text.now }
{
    let mut block = zeros();
    put_bytes(&mut block, 0, text.items());
    block
}

// So many blocks of zeros more.
fn push_zeros(blocks: &mut Blocks, k: u32) -> Result<(), NoMemory>
    ensures { OnOk result (blocks.new ≡ blocks.old ++ replicate k zeros) }
{
    for _i in 0..k {
        blocks.push(zeros())?;
    }
    Ok(())
}

// Puts a block among the visible ones.
fn put_block(file: &mut File, vbn: u32, block: &Block) -> Result<(), NoMemory>
    ensures { OnOk result (file.new ≡ record file.old { written = with_block file.old vbn block.now }) }
{
    if is_past_mark(file, vbn) {
        push_zeros(&mut file.written, vbn.saturating_sub(file.mark))?;
        file.written.push(*block)?;
        return Ok(());
    }
    let at = vbn.saturating_sub(1) as usize;
    if at < file.written.items().len() {
        file.written.set(at, *block);
    }
    Ok(())
}

// Writes a virtual block of a file. After want of memory it may have some blocks of zeros more.
#[tactic(auto)]
fn write_in(file: &mut File, vbn: u32, text: &Name) -> Result<(), NoMemory>
    requires text { length text.now ≤ 512 }
    requires vbn { vbn + 1 < 2 ^ 32 }
    ensures { OnOk result (file.new ≡ written file.old vbn text.now) }
{
    put_block(file, vbn, &text_block(text))?;
    if is_past_mark(file, vbn) {
        file.mark = vbn + 1;
    }
    if file.end <= vbn {
        file.end = vbn + 1;
        file.byte = 0;
    }
    Ok(())
}

// Writes a virtual block of the file of a number. After want of memory the file is gone.
fn rewrite(cat: &mut Cat, n: u32, vbn: u32, text: &Name) -> Result<(), NoMemory>
    requires text { length text.now ≤ 512 }
    requires vbn { vbn + 1 < 2 ^ 32 }
    ensures { OnOk result (cat.new ≡ changed cat.old n (λ f. written f vbn text.now)) }
{
    let Some(mut file) = take_file(cat, n) else {
        return Ok(());
    };
    write_in(&mut file, vbn, text)?;
    set_slot(cat, n, Slot::Used(file));
    Ok(())
}

// The number of the file that a write goes to, or why nothing is written.
#[tactic(auto, unfolding(plain_rules::specs::Answers::write_outcome))]
fn write_to(cat: &Cat, node: u8, chan: u8, vbn: u32) -> Result<u32, Refusal>
    ensures { (text : List ℕ) → rewritten_in cat.now vbn text result ≡ write_outcome cat.now node chan vbn text }
{
    let Some(held) = channel_at(cat, node, chan) else {
        return Err(Refusal::NotOpen);
    };
    if is_reading(held.mode) {
        return Err(Refusal::NoPriv);
    }
    let Some(file) = file_at(cat, held.file) else {
        return Err(Refusal::EndOfFile);
    };
    if is_outside(cat, file, vbn) {
        return Err(Refusal::EndOfFile);
    }
    Ok(held.file)
}

// WRITE
pub(crate) fn write(
    mut cat: Cat,
    node: u8,
    chan: u8,
    vbn: u32,
    text: &Name,
) -> Result<Outcome, NoMemory>
    requires text { length text.now ≤ 512 }
    requires vbn { vbn ≤ 65536 }
    ensures { IfOk result (λ o. o ≡ write_outcome cat node chan vbn text.now) }
{
    match write_to(&cat, node, chan, vbn) {
        Err(refusal) => Ok(refused(cat, refusal)),
        Ok(number) => {
            rewrite(&mut cat, number, vbn, text)?;
            Ok(told(cat, Reply::Written))
        }
    }
}
