//! The command of a line: a node, and what it gives.

ghost use Rattle.std.specs.Prelude.{◌≡◌, ◌&&◌, leb, IfOk, IfSome};
ghost use Rattle.plain_cat.specs.declared.command.Cmd.{Cmd};
ghost use Rattle.plain_cat.specs.InForm.{in_form, is_eighth};
ghost use Rattle.run_script.specs.Fixed.{has_sequence};
ghost use Rattle.log_check.specs.Commands.{fixed_ref, unfixed, given_of, IsSpeaking, ReadsCommand};

use plain_cat::{Cmd, Fid, FileRef, Line, LineCmd, NoMemory};
use plain_rules::is_in_form;
use run_script::read_node_command;
use std::alloc::Global;

/// A node, and the command that it gives.
#[derive(Drop)]
pub struct Given {
    /// 1 to 8.
    pub node: u8,

    /// The command, in form.
    pub cmd: Cmd,
}

// The identifier that a reference is; a register is none.
fn fixed_ref(file: FileRef) -> Option<Fid>
    ensures { result ≡ fixed_ref file }
{
    match file {
        FileRef::Fixed(fid) => Some(fid),
        FileRef::Reg(_) => None,
    }
}

// Whether this is a sequence of 16 bits, as each sequence here is.
fn is_sequence(seq: u16) -> bool
    ensures { result ≡ leb seq 65535 }
{
    true
}

// Whether the sequence of a command's identifier has 16 bits.
fn has_sequence(cmd: &Cmd) -> bool
    ensures { result ≡ has_sequence cmd.now }
{
    match cmd {
        Cmd::Lookup { dir, .. } => is_sequence(dir.seq),
        Cmd::List { dir } => is_sequence(dir.seq),
        Cmd::Stat { file } => is_sequence(file.seq),
        Cmd::Create { dir, .. } => is_sequence(dir.seq),
        Cmd::MkDir { dir, .. } => is_sequence(dir.seq),
        Cmd::Extend { file, .. } => is_sequence(file.seq),
        Cmd::Trunc { file, .. } => is_sequence(file.seq),
        Cmd::Delete { dir, .. } => is_sequence(dir.seq),
        Cmd::Rename { dir, .. } => is_sequence(dir.seq),
        Cmd::OpenFile { file, .. } => is_sequence(file.seq),
        Cmd::CloseFile { .. } => true,
        Cmd::ReadBlock { .. } => true,
        Cmd::WriteBlock { .. } => true,
        Cmd::QuotaSet { .. } => true,
        Cmd::QuotaShow { .. } => true,
    }
}

// The command of a line that names no register.
fn unfixed(alloc: Global, line: &LineCmd) -> Result<Option<Cmd>, NoMemory>
    ensures { IfOk result (λ o. o ≡ unfixed line.now) }
{
    Ok(Some(match line {
        LineCmd::Lookup {
            reg,
            dir,
            name,
            ver,
        } => {
            let Some(dir) = fixed_ref(*dir) else {
                return Ok(None);
            };
            Cmd::Lookup {
                reg: *reg,
                dir,
                name: name.copy(alloc)?,
                ver: *ver,
            }
        }
        LineCmd::List { dir } => {
            let Some(dir) = fixed_ref(*dir) else {
                return Ok(None);
            };
            Cmd::List { dir }
        }
        LineCmd::Stat { file } => {
            let Some(file) = fixed_ref(*file) else {
                return Ok(None);
            };
            Cmd::Stat { file }
        }
        LineCmd::Create {
            reg,
            dir,
            name,
            ver,
            blocks,
            owner,
        } => {
            let Some(dir) = fixed_ref(*dir) else {
                return Ok(None);
            };
            Cmd::Create {
                reg: *reg,
                dir,
                name: name.copy(alloc)?,
                ver: *ver,
                blocks: *blocks,
                owner: *owner,
            }
        }
        LineCmd::MkDir {
            reg,
            dir,
            name,
            owner,
        } => {
            let Some(dir) = fixed_ref(*dir) else {
                return Ok(None);
            };
            Cmd::MkDir {
                reg: *reg,
                dir,
                name: name.copy(alloc)?,
                owner: *owner,
            }
        }
        LineCmd::Extend { file, blocks } => {
            let Some(file) = fixed_ref(*file) else {
                return Ok(None);
            };
            Cmd::Extend {
                file,
                blocks: *blocks,
            }
        }
        LineCmd::Trunc { file, blocks } => {
            let Some(file) = fixed_ref(*file) else {
                return Ok(None);
            };
            Cmd::Trunc {
                file,
                blocks: *blocks,
            }
        }
        LineCmd::Delete { dir, name, ver } => {
            let Some(dir) = fixed_ref(*dir) else {
                return Ok(None);
            };
            Cmd::Delete {
                dir,
                name: name.copy(alloc)?,
                ver: *ver,
            }
        }
        LineCmd::Rename {
            dir,
            name,
            ver,
            to,
            to_ver,
        } => {
            let Some(dir) = fixed_ref(*dir) else {
                return Ok(None);
            };
            Cmd::Rename {
                dir,
                name: name.copy(alloc)?,
                ver: *ver,
                to: to.copy(alloc)?,
                to_ver: *to_ver,
            }
        }
        LineCmd::OpenFile { chan, file, mode } => {
            let Some(file) = fixed_ref(*file) else {
                return Ok(None);
            };
            Cmd::OpenFile {
                chan: *chan,
                file,
                mode: *mode,
            }
        }
        LineCmd::CloseFile { chan } => { Cmd::CloseFile { chan: *chan } }
        LineCmd::ReadBlock { chan, vbn } => {
            Cmd::ReadBlock {
                chan: *chan,
                vbn: *vbn,
            }
        }
        LineCmd::WriteBlock { chan, vbn, text } => {
            Cmd::WriteBlock {
                chan: *chan,
                vbn: *vbn,
                text: text.copy(alloc)?,
            }
        }
        LineCmd::QuotaSet { owner, quota, over } => {
            Cmd::QuotaSet {
                owner: *owner,
                quota: *quota,
                over: *over,
            }
        }
        LineCmd::QuotaShow { owner } => { Cmd::QuotaShow { owner: *owner } }
    }))
}

// Whether this is the number of a node.
fn is_node(node: u8) -> bool
    ensures { result ≡ is_eighth node }
{
    1 <= node && node <= 8
}

// Whether a node may give this command.
fn is_speaking(node: u8, cmd: &Cmd) -> bool
    ensures { result ≡ in_form cmd.now && (has_sequence cmd.now && is_eighth node) }
{
    is_in_form(cmd) && (has_sequence(cmd) && is_node(node))
}

// The node of a line, and its command, where it names no register.
#[tactic(auto, unfolding(crate::specs::Commands::given_of))]
fn given_of(alloc: Global, line: &Line) -> Result<Option<Given>, NoMemory>
    ensures { IfOk result (λ o. o ≡ given_of line.now) }
{
    let Some(cmd) = unfixed(alloc, &line.cmd)? else {
        return Ok(None);
    };
    if is_speaking(line.node, &cmd) {
        Ok(Some(Given {
            node: line.node,
            cmd,
        }))
    } else {
        Ok(None)
    }
}

/// The node and the command that words give, as a line of a script does, with identifiers and no registers.
pub fn read_command(alloc: Global, words: &[u8]) -> Result<Option<Given>, NoMemory>
    ensures form { IfOk result (λ o. IfSome o (λ g. IsSpeaking g.node g.cmd)) }
    ensures back { IfOk result (ReadsCommand words.now) }
{
    let Some(line) = read_node_command(alloc, words)? else {
        return Ok(None);
    };
    let given = given_of(alloc, &line)?;
    Ok(given)
}
