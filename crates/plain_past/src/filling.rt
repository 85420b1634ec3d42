//! The command of a line, with identifiers in place of registers.

ghost use Rattle.std.specs.Prelude.{◌≡◌, IfOk};
ghost use Rattle.plain_rules.specs.Own.{filled};

use crate::registers::resolved;
use plain_cat::{Cmd, Fid, LineCmd, NoMemory};
use std::alloc::Global;

// The command of a line, with the registers' identifiers in place of references.
#[tactic(auto, unfolding(plain_rules::specs::Own::filled))]
pub(crate) fn filled(alloc: Global, registers: &[Fid; 8], line: &LineCmd) -> Result<Cmd, NoMemory>
    ensures { IfOk result (λ c. c ≡ filled registers.now line.now) }
{
    Ok(match line {
        LineCmd::Lookup {
            reg,
            dir,
            name,
            ver,
        } => Cmd::Lookup {
            reg: *reg,
            dir: resolved(registers, *dir),
            name: name.copy(alloc)?,
            ver: *ver,
        },
        LineCmd::List { dir } => Cmd::List {
            dir: resolved(registers, *dir),
        },
        LineCmd::Stat { file } => Cmd::Stat {
            file: resolved(registers, *file),
        },
        LineCmd::Create {
            reg,
            dir,
            name,
            ver,
            blocks,
            owner,
        } => Cmd::Create {
            reg: *reg,
            dir: resolved(registers, *dir),
            name: name.copy(alloc)?,
            ver: *ver,
            blocks: *blocks,
            owner: *owner,
        },
        LineCmd::MkDir {
            reg,
            dir,
            name,
            owner,
        } => Cmd::MkDir {
            reg: *reg,
            dir: resolved(registers, *dir),
            name: name.copy(alloc)?,
            owner: *owner,
        },
        LineCmd::Extend { file, blocks } => Cmd::Extend {
            file: resolved(registers, *file),
            blocks: *blocks,
        },
        LineCmd::Trunc { file, blocks } => Cmd::Trunc {
            file: resolved(registers, *file),
            blocks: *blocks,
        },
        LineCmd::Delete { dir, name, ver } => Cmd::Delete {
            dir: resolved(registers, *dir),
            name: name.copy(alloc)?,
            ver: *ver,
        },
        LineCmd::Rename {
            dir,
            name,
            ver,
            to,
            to_ver,
        } => Cmd::Rename {
            dir: resolved(registers, *dir),
            name: name.copy(alloc)?,
            ver: *ver,
            to: to.copy(alloc)?,
            to_ver: *to_ver,
        },
        LineCmd::OpenFile { chan, file, mode } => Cmd::OpenFile {
            chan: *chan,
            file: resolved(registers, *file),
            mode: *mode,
        },
        LineCmd::CloseFile { chan } => Cmd::CloseFile { chan: *chan },
        LineCmd::ReadBlock { chan, vbn } => Cmd::ReadBlock {
            chan: *chan,
            vbn: *vbn,
        },
        LineCmd::WriteBlock { chan, vbn, text } => Cmd::WriteBlock {
            chan: *chan,
            vbn: *vbn,
            text: text.copy(alloc)?,
        },
        LineCmd::QuotaSet { owner, quota, over } => Cmd::QuotaSet {
            owner: *owner,
            quota: *quota,
            over: *over,
        },
        LineCmd::QuotaShow { owner } => Cmd::QuotaShow { owner: *owner },
    })
}
