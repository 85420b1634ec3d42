//! The command of a line, with its operands.

ghost use Rattle.std.specs.Prelude.{◌≡◌, ◌<◌, Some, IfOk, IfSome};
ghost use Rattle.plain_cat.specs.declared.script.Line.{Line as NodeCommand};
ghost use Rattle.run_script.specs.Grammar.{IsNodeCommand};
ghost use Rattle.run_script.specs.Lines.{words_of};
ghost use Rattle.run_script.specs.Steps.{Gives, command_of, line_of, operand};

use crate::fault::LineFault;
use crate::kinds::{Kind, arity, named_kind};
use crate::numbers::{read_channel, read_count, read_number, read_quota, read_register};
use crate::operands::{read_dir_name, read_entry, read_mode, read_owner, read_ref, read_text};
use crate::parts::{count_parts, part};
use plain_cat::{Line, LineCmd, NoMemory};
use std::alloc::Global;

// An operand of a line's command, counted from 0: they stand behind the node and the word of the command.
fn operand(line: &[u8], n: usize) -> &[u8]
    requires { n < 5 }
    ensures { result.now ≡ operand (words_of line.now) n }
{
    part(line, b' ', n + 2)
}

#[tactic(auto, unfolding(crate::specs::Steps::command_of))]
fn read_lookup(alloc: Global, line: &[u8]) -> Result<LineCmd, LineFault>
    ensures { Gives (command_of Kind.Lookup (words_of line.now)) result }
{
    let reg = read_register(operand(line, 0))?;
    let dir = read_ref(operand(line, 1))?;
    let entry = read_entry(alloc, operand(line, 2))?;
    Ok(LineCmd::Lookup {
        reg,
        dir,
        name: entry.name,
        ver: entry.ver,
    })
}

#[tactic(auto, unfolding(crate::specs::Steps::command_of))]
fn read_list(line: &[u8]) -> Result<LineCmd, LineFault>
    ensures { Gives (command_of Kind.List (words_of line.now)) result }
{
    let dir = read_ref(operand(line, 0))?;
    Ok(LineCmd::List { dir })
}

#[tactic(auto, unfolding(crate::specs::Steps::command_of))]
fn read_stat(line: &[u8]) -> Result<LineCmd, LineFault>
    ensures { Gives (command_of Kind.Stat (words_of line.now)) result }
{
    let file = read_ref(operand(line, 0))?;
    Ok(LineCmd::Stat { file })
}

#[tactic(auto, unfolding(crate::specs::Steps::command_of))]
fn read_create(alloc: Global, line: &[u8]) -> Result<LineCmd, LineFault>
    ensures { Gives (command_of Kind.Create (words_of line.now)) result }
{
    let reg = read_register(operand(line, 0))?;
    let dir = read_ref(operand(line, 1))?;
    let entry = read_entry(alloc, operand(line, 2))?;
    let blocks = read_count(operand(line, 3))?;
    let owner = read_owner(operand(line, 4))?;
    Ok(LineCmd::Create {
        reg,
        dir,
        name: entry.name,
        ver: entry.ver,
        blocks,
        owner,
    })
}

#[tactic(auto, unfolding(crate::specs::Steps::command_of))]
fn read_mkdir(alloc: Global, line: &[u8]) -> Result<LineCmd, LineFault>
    ensures { Gives (command_of Kind.MkDir (words_of line.now)) result }
{
    let reg = read_register(operand(line, 0))?;
    let dir = read_ref(operand(line, 1))?;
    let name = read_dir_name(alloc, operand(line, 2))?;
    let owner = read_owner(operand(line, 3))?;
    Ok(LineCmd::MkDir {
        reg,
        dir,
        name,
        owner,
    })
}

#[tactic(auto, unfolding(crate::specs::Steps::command_of))]
fn read_extend(line: &[u8]) -> Result<LineCmd, LineFault>
    ensures { Gives (command_of Kind.Extend (words_of line.now)) result }
{
    let file = read_ref(operand(line, 0))?;
    let blocks = read_number(operand(line, 1), 10, 1, 65_536)?;
    Ok(LineCmd::Extend { file, blocks })
}

#[tactic(auto, unfolding(crate::specs::Steps::command_of))]
fn read_trunc(line: &[u8]) -> Result<LineCmd, LineFault>
    ensures { Gives (command_of Kind.Trunc (words_of line.now)) result }
{
    let file = read_ref(operand(line, 0))?;
    let blocks = read_count(operand(line, 1))?;
    Ok(LineCmd::Trunc { file, blocks })
}

#[tactic(auto, unfolding(crate::specs::Steps::command_of))]
fn read_delete(alloc: Global, line: &[u8]) -> Result<LineCmd, LineFault>
    ensures { Gives (command_of Kind.Delete (words_of line.now)) result }
{
    let dir = read_ref(operand(line, 0))?;
    let entry = read_entry(alloc, operand(line, 1))?;
    Ok(LineCmd::Delete {
        dir,
        name: entry.name,
        ver: entry.ver,
    })
}

#[tactic(auto, unfolding(crate::specs::Steps::command_of))]
fn read_rename(alloc: Global, line: &[u8]) -> Result<LineCmd, LineFault>
    ensures { Gives (command_of Kind.Rename (words_of line.now)) result }
{
    let dir = read_ref(operand(line, 0))?;
    let entry = read_entry(alloc, operand(line, 1))?;
    let to = read_entry(alloc, operand(line, 2))?;
    Ok(LineCmd::Rename {
        dir,
        name: entry.name,
        ver: entry.ver,
        to: to.name,
        to_ver: to.ver,
    })
}

#[tactic(auto, unfolding(crate::specs::Steps::command_of))]
fn read_open(line: &[u8]) -> Result<LineCmd, LineFault>
    ensures { Gives (command_of Kind.OpenFile (words_of line.now)) result }
{
    let chan = read_channel(operand(line, 0))?;
    let file = read_ref(operand(line, 1))?;
    let mode = read_mode(operand(line, 2))?;
    Ok(LineCmd::OpenFile { chan, file, mode })
}

#[tactic(auto, unfolding(crate::specs::Steps::command_of))]
fn read_close(line: &[u8]) -> Result<LineCmd, LineFault>
    ensures { Gives (command_of Kind.CloseFile (words_of line.now)) result }
{
    let chan = read_channel(operand(line, 0))?;
    Ok(LineCmd::CloseFile { chan })
}

#[tactic(auto, unfolding(crate::specs::Steps::command_of))]
fn read_read(line: &[u8]) -> Result<LineCmd, LineFault>
    ensures { Gives (command_of Kind.ReadBlock (words_of line.now)) result }
{
    let chan = read_channel(operand(line, 0))?;
    let vbn = read_count(operand(line, 1))?;
    Ok(LineCmd::ReadBlock { chan, vbn })
}

#[tactic(auto, unfolding(crate::specs::Steps::command_of))]
fn read_write(alloc: Global, line: &[u8]) -> Result<LineCmd, LineFault>
    ensures { Gives (command_of Kind.WriteBlock (words_of line.now)) result }
{
    let chan = read_channel(operand(line, 0))?;
    let vbn = read_count(operand(line, 1))?;
    let text = read_text(alloc, operand(line, 2))?;
    Ok(LineCmd::WriteBlock { chan, vbn, text })
}

#[tactic(auto, unfolding(crate::specs::Steps::command_of))]
fn read_quota_set(line: &[u8]) -> Result<LineCmd, LineFault>
    ensures { Gives (command_of Kind.QuotaSet (words_of line.now)) result }
{
    let owner = read_owner(operand(line, 0))?;
    let quota = read_quota(operand(line, 1))?;
    let over = read_quota(operand(line, 2))?;
    Ok(LineCmd::QuotaSet { owner, quota, over })
}

#[tactic(auto, unfolding(crate::specs::Steps::command_of))]
fn read_quota_show(line: &[u8]) -> Result<LineCmd, LineFault>
    ensures { Gives (command_of Kind.QuotaShow (words_of line.now)) result }
{
    let owner = read_owner(operand(line, 0))?;
    Ok(LineCmd::QuotaShow { owner })
}

// Reads the operands of a command of this kind.
fn read_command(alloc: Global, kind: Kind, line: &[u8]) -> Result<LineCmd, LineFault>
    ensures { Gives (command_of kind (words_of line.now)) result }
{
    match kind {
        Kind::Lookup => read_lookup(alloc, line),
        Kind::List => read_list(line),
        Kind::Stat => read_stat(line),
        Kind::Create => read_create(alloc, line),
        Kind::MkDir => read_mkdir(alloc, line),
        Kind::Extend => read_extend(line),
        Kind::Trunc => read_trunc(line),
        Kind::Delete => read_delete(alloc, line),
        Kind::Rename => read_rename(alloc, line),
        Kind::OpenFile => read_open(line),
        Kind::CloseFile => read_close(line),
        Kind::ReadBlock => read_read(line),
        Kind::WriteBlock => read_write(alloc, line),
        Kind::QuotaSet => read_quota_set(line),
        Kind::QuotaShow => read_quota_show(line),
    }
}

/// Reads a node with its command, of the kind that its second word names.
#[tactic(auto, unfolding(crate::specs::Steps::line_of))]
pub(crate) fn line_of(alloc: Global, line: &[u8]) -> Result<Line, LineFault>
    ensures { Gives (line_of (words_of line.now)) result }
{
    let Some(kind) = named_kind(part(line, b' ', 1)) else {
        return Err(LineFault::Bad);
    };
    if count_parts(line, b' ') != arity(kind) + 2 {
        return Err(LineFault::Bad);
    }
    let node = read_channel(part(line, b' ', 0))?;
    let cmd = read_command(alloc, kind, line)?;
    Ok(Line { node, cmd })
}

/// Reads a node with its command, as words of a line in a script tell them, or tells that the words are none. An error says that
/// memory ran out.
pub fn read_node_command(alloc: Global, words: &[u8]) -> Result<Option<Line>, NoMemory>
    ensures said { IfOk result (λ o. IfSome o (λ l. IsNodeCommand l (words_of words.now))) }
    ensures each { (l : NodeCommand) → IsNodeCommand l (words_of words.now) → IfOk result (λ o. o ≡ Some l) }
{
    match line_of(alloc, words) {
        Ok(line) => Ok(Some(line)),
        Err(LineFault::Bad) => Ok(None),
        Err(LineFault::TooMany) => unreachable!(),
        Err(LineFault::NoMemory) => Err(NoMemory {}),
    }
}
