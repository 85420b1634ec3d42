//! The texts that are made of pieces: each is added whole, or the list is as it was.

ghost use Rattle.std.specs.Prelude.{◌≡◌, ◌++◌, OnOk, OnErr};
ghost use Rattle.plain_cat.specs.Names.{text_of as entry_text};
ghost use Rattle.plain_texts.specs.Names.{uic_text};
ghost use Rattle.plain_texts.specs.Commands.{command_text};
ghost use Rattle.plain_texts.specs.Replies.{reply_text};
ghost use Rattle.plain_texts.specs.Reports.{mended_text, line_text, lines_text};

use crate::commands::add_command;
use crate::names::{add_entry, add_uic};
use crate::pieces::{NoMemory, push_bytes};
use crate::replies::add_reply;
use crate::reports::{add_line, add_lines, add_mended};
use plain_cat::{Cmd, Entry, Mended, Name, Reply, Uic};
use std::alloc::Global;

/// Appends an owner, as `[1,4]`: group and member in octal.
pub fn push_uic(alloc: Global, out: &mut Vec<u8>, owner: Uic) -> Result<(), NoMemory>
    ensures ok { OnOk result (out.new.items ≡ out.old.items ++ uic_text owner) }
    ensures err { OnErr result (out.new.items ≡ out.old.items) }
{
    let mut text = Vec::new(alloc);
    add_uic(alloc, &mut text, owner)?;
    push_bytes(out, text.as_slice())
}

/// Appends a name with its version, as `INDEXF.SYS;1`.
pub fn push_entry(alloc: Global, out: &mut Vec<u8>, name: &Name, ver: u16) -> Result<(), NoMemory>
    ensures ok { OnOk result (out.new.items ≡ out.old.items ++ entry_text name.now ver) }
    ensures err { OnErr result (out.new.items ≡ out.old.items) }
{
    let mut text = Vec::new(alloc);
    add_entry(alloc, &mut text, name, ver)?;
    push_bytes(out, text.as_slice())
}

/// Appends a command as a script has it, with its file identifiers resolved.
pub fn push_command(alloc: Global, out: &mut Vec<u8>, cmd: &Cmd) -> Result<(), NoMemory>
    ensures ok { OnOk result (out.new.items ≡ out.old.items ++ command_text cmd.now) }
    ensures err { OnErr result (out.new.items ≡ out.old.items) }
{
    let mut text = Vec::new(alloc);
    add_command(alloc, &mut text, cmd)?;
    push_bytes(out, text.as_slice())
}

/// Appends a reply.
pub fn push_reply(alloc: Global, out: &mut Vec<u8>, reply: &Reply) -> Result<(), NoMemory>
    ensures ok { OnOk result (out.new.items ≡ out.old.items ++ reply_text reply.now) }
    ensures err { OnErr result (out.new.items ≡ out.old.items) }
{
    let mut text = Vec::new(alloc);
    add_reply(alloc, &mut text, reply)?;
    push_bytes(out, text.as_slice())
}

/// Appends what a mending did, as the verb `rebuild` prints it.
pub fn push_mended(alloc: Global, out: &mut Vec<u8>, m: Mended) -> Result<(), NoMemory>
    ensures ok { OnOk result (out.new.items ≡ out.old.items ++ mended_text m) }
    ensures err { OnErr result (out.new.items ≡ out.old.items) }
{
    let mut text = Vec::new(alloc);
    add_mended(alloc, &mut text, m)?;
    push_bytes(out, text.as_slice())
}

/// Appends the line of an entry of the history, with its number and its line feed.
pub fn push_line(alloc: Global, out: &mut Vec<u8>, k: usize, entry: &Entry) -> Result<(), NoMemory>
    ensures ok { OnOk result (out.new.items ≡ out.old.items ++ line_text k entry.now) }
    ensures err { OnErr result (out.new.items ≡ out.old.items) }
{
    let mut text = Vec::new(alloc);
    add_line(alloc, &mut text, k, entry)?;
    push_bytes(out, text.as_slice())
}

/// Appends the lines of a history, numbered from 1.
pub fn push_lines(alloc: Global, out: &mut Vec<u8>, entries: &[Entry]) -> Result<(), NoMemory>
    ensures ok { OnOk result (out.new.items ≡ out.old.items ++ lines_text entries.now) }
    ensures err { OnErr result (out.new.items ≡ out.old.items) }
{
    let mut text = Vec::new(alloc);
    add_lines(alloc, &mut text, entries)?;
    push_bytes(out, text.as_slice())
}
