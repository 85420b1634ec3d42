//! Commands as they are printed.

ghost use Rattle.std.specs.Prelude.{◌≡◌, ◌++◌, OnOk, decimal};
ghost use Rattle.plain_texts.specs.Names.{fid_text, uic_text, mode_text};
ghost use Rattle.plain_cat.specs.Names.{text_of as entry_text};
ghost use Rattle.plain_texts.specs.Commands.{command_text, then_word, register_text};

use crate::names::{add_entry, add_uic, push_fid, push_mode};
use crate::pieces::{NoMemory, push_bytes, push_number};
use plain_cat::{Cmd, Fid, Mode, Name, Uic};
use std::alloc::Global;

// Appends a space and an entry.
pub(crate) fn then_entry(
    alloc: Global,
    out: &mut Vec<u8>,
    name: &Name,
    ver: u16,
) -> Result<(), NoMemory>
    ensures { OnOk result (out.new.items ≡ out.old.items ++ then_word (entry_text name.now ver)) }
{
    push_bytes(out, b" ")?;
    add_entry(alloc, out, name, ver)
}

// Appends a space and a file identifier.
pub(crate) fn then_fid(alloc: Global, out: &mut Vec<u8>, fid: Fid) -> Result<(), NoMemory>
    ensures { OnOk result (out.new.items ≡ out.old.items ++ then_word (fid_text fid)) }
{
    push_bytes(out, b" ")?;
    push_fid(alloc, out, fid)
}

// Appends a space and an owner.
pub(crate) fn then_uic(alloc: Global, out: &mut Vec<u8>, owner: Uic) -> Result<(), NoMemory>
    ensures { OnOk result (out.new.items ≡ out.old.items ++ then_word (uic_text owner)) }
{
    push_bytes(out, b" ")?;
    add_uic(alloc, out, owner)
}

// Appends a space and a number.
pub(crate) fn then_number(alloc: Global, out: &mut Vec<u8>, n: u32) -> Result<(), NoMemory>
    ensures { OnOk result (out.new.items ≡ out.old.items ++ then_word (decimal n)) }
{
    push_bytes(out, b" ")?;
    push_number(alloc, out, n)
}

// Appends a space and a register.
fn then_register(alloc: Global, out: &mut Vec<u8>, reg: u8) -> Result<(), NoMemory>
    ensures { OnOk result (out.new.items ≡ out.old.items ++ then_word (register_text reg)) }
{
    push_bytes(out, b" R")?;
    push_number(alloc, out, u32::from(reg))
}

// Appends a space and a lock mode.
fn then_mode(out: &mut Vec<u8>, mode: Mode) -> Result<(), NoMemory>
    ensures { OnOk result (out.new.items ≡ out.old.items ++ then_word (mode_text mode)) }
{
    push_bytes(out, b" ")?;
    push_mode(out, mode)
}

// Appends a space and a text.
fn then_text(out: &mut Vec<u8>, text: &Name) -> Result<(), NoMemory>
    ensures { OnOk result (out.new.items ≡ out.old.items ++ then_word text.now) }
{
    push_bytes(out, b" ")?;
    push_bytes(out, text.items())
}

// Appends a command as a script has it, with its file identifiers resolved.
#[tactic(auto, unfolding(crate::specs::Commands::command_text))]
pub(crate) fn add_command(alloc: Global, out: &mut Vec<u8>, cmd: &Cmd) -> Result<(), NoMemory>
    ensures { OnOk result (out.new.items ≡ out.old.items ++ command_text cmd.now) }
{
    match cmd {
        Cmd::Lookup {
            reg,
            dir,
            name,
            ver,
        } => {
            push_bytes(out, b"LOOKUP")?;
            then_register(alloc, out, *reg)?;
            then_fid(alloc, out, *dir)?;
            then_entry(alloc, out, name, *ver)
        }
        Cmd::List { dir } => {
            push_bytes(out, b"LIST")?;
            then_fid(alloc, out, *dir)
        }
        Cmd::Stat { file } => {
            push_bytes(out, b"STAT")?;
            then_fid(alloc, out, *file)
        }
        Cmd::Create {
            reg,
            dir,
            name,
            ver,
            blocks,
            owner,
        } => {
            push_bytes(out, b"CREATE")?;
            then_register(alloc, out, *reg)?;
            then_fid(alloc, out, *dir)?;
            then_entry(alloc, out, name, *ver)?;
            then_number(alloc, out, *blocks)?;
            then_uic(alloc, out, *owner)
        }
        Cmd::MkDir {
            reg,
            dir,
            name,
            owner,
        } => {
            push_bytes(out, b"MKDIR")?;
            then_register(alloc, out, *reg)?;
            then_fid(alloc, out, *dir)?;
            then_text(out, name)?;
            then_uic(alloc, out, *owner)
        }
        Cmd::Extend { file, blocks } => {
            push_bytes(out, b"EXTEND")?;
            then_fid(alloc, out, *file)?;
            then_number(alloc, out, *blocks)
        }
        Cmd::Trunc { file, blocks } => {
            push_bytes(out, b"TRUNC")?;
            then_fid(alloc, out, *file)?;
            then_number(alloc, out, *blocks)
        }
        Cmd::Delete { dir, name, ver } => {
            push_bytes(out, b"DELETE")?;
            then_fid(alloc, out, *dir)?;
            then_entry(alloc, out, name, *ver)
        }
        Cmd::Rename {
            dir,
            name,
            ver,
            to,
            to_ver,
        } => {
            push_bytes(out, b"RENAME")?;
            then_fid(alloc, out, *dir)?;
            then_entry(alloc, out, name, *ver)?;
            then_entry(alloc, out, to, *to_ver)
        }
        Cmd::OpenFile { chan, file, mode } => {
            push_bytes(out, b"OPEN")?;
            then_number(alloc, out, u32::from(*chan))?;
            then_fid(alloc, out, *file)?;
            then_mode(out, *mode)
        }
        Cmd::CloseFile { chan } => {
            push_bytes(out, b"CLOSE")?;
            then_number(alloc, out, u32::from(*chan))
        }
        Cmd::ReadBlock { chan, vbn } => {
            push_bytes(out, b"READ")?;
            then_number(alloc, out, u32::from(*chan))?;
            then_number(alloc, out, *vbn)
        }
        Cmd::WriteBlock { chan, vbn, text } => {
            push_bytes(out, b"WRITE")?;
            then_number(alloc, out, u32::from(*chan))?;
            then_number(alloc, out, *vbn)?;
            then_text(out, text)
        }
        Cmd::QuotaSet { owner, quota, over } => {
            push_bytes(out, b"QUOTASET")?;
            then_uic(alloc, out, *owner)?;
            then_number(alloc, out, *quota)?;
            then_number(alloc, out, *over)
        }
        Cmd::QuotaShow { owner } => {
            push_bytes(out, b"QUOTASHOW")?;
            then_uic(alloc, out, *owner)
        }
    }
}
