//! The commands of a node.

ghost use Rattle.std.specs.Prelude.{◌≡◌, IfOk};

use crate::NoMemory;
use crate::ids::{Fid, Uic};
use crate::mode::Mode;
use crate::name::Name;
use std::alloc::Global;

/// A command that a node gives, with its file identifiers resolved. Registers and channels are 1 to 8, versions 0 to
/// 32,767 (0 is the highest that there is, or one more for a new entry), blocks and virtual block numbers 0 to 65,536.
#[derive(Drop)]
pub enum Cmd {
    /// Looks an entry up, and keeps its identifier in a register.
    Lookup {
        reg: u8,
        dir: Fid,
        name: Name,
        ver: u16,
    },

    /// Lists a directory.
    List {
        dir: Fid,
    },

    /// Tells a file's attributes.
    Stat {
        file: Fid,
    },

    /// Makes a file of so many blocks, rounded up to clusters.
    Create {
        reg: u8,
        dir: Fid,
        name: Name,
        ver: u16,
        blocks: u32,
        owner: Uic,
    },

    /// Makes a directory. The name is `NAME` alone, and the entry's is `NAME.DIR`.
    MkDir {
        reg: u8,
        dir: Fid,
        name: Name,
        owner: Uic,
    },

    /// Adds blocks, rounded up to clusters.
    Extend {
        file: Fid,
        blocks: u32,
    },

    /// Keeps so many blocks, rounded up to clusters.
    Trunc {
        file: Fid,
        blocks: u32,
    },

    /// Removes an entry, and its file once nobody has it open.
    Delete {
        dir: Fid,
        name: Name,
        ver: u16,
    },

    /// Gives an entry another name in the same directory.
    Rename {
        dir: Fid,
        name: Name,
        ver: u16,
        to: Name,
        to_ver: u16,
    },

    /// Opens a file on a channel of the node, in a mode from CR to EX.
    OpenFile {
        chan: u8,
        file: Fid,
        mode: Mode,
    },

    /// Closes a channel.
    CloseFile {
        chan: u8,
    },

    /// Reads a virtual block, which counts from 1.
    ReadBlock {
        chan: u8,
        vbn: u32,
    },

    /// Writes a virtual block: the text, and zeros after it.
    WriteBlock {
        chan: u8,
        vbn: u32,
        text: Name,
    },

    /// Sets an owner's quota and overdraft, in blocks.
    QuotaSet {
        owner: Uic,
        quota: u32,
        over: u32,
    },

    /// Tells an owner's usage, quota and overdraft.
    QuotaShow {
        owner: Uic,
    },
}

impl Cmd {
    /// The same command again.
    pub fn copy(&self, alloc: Global) -> Result<Self, NoMemory>
        ensures { IfOk result (λ c. c ≡ self.now) }
    {
        Ok(match self {
            Cmd::Lookup {
                reg,
                dir,
                name,
                ver,
            } => Cmd::Lookup {
                reg: *reg,
                dir: *dir,
                name: name.copy(alloc)?,
                ver: *ver,
            },
            Cmd::List { dir } => Cmd::List { dir: *dir },
            Cmd::Stat { file } => Cmd::Stat { file: *file },
            Cmd::Create {
                reg,
                dir,
                name,
                ver,
                blocks,
                owner,
            } => Cmd::Create {
                reg: *reg,
                dir: *dir,
                name: name.copy(alloc)?,
                ver: *ver,
                blocks: *blocks,
                owner: *owner,
            },
            Cmd::MkDir {
                reg,
                dir,
                name,
                owner,
            } => Cmd::MkDir {
                reg: *reg,
                dir: *dir,
                name: name.copy(alloc)?,
                owner: *owner,
            },
            Cmd::Extend { file, blocks } => Cmd::Extend {
                file: *file,
                blocks: *blocks,
            },
            Cmd::Trunc { file, blocks } => Cmd::Trunc {
                file: *file,
                blocks: *blocks,
            },
            Cmd::Delete { dir, name, ver } => Cmd::Delete {
                dir: *dir,
                name: name.copy(alloc)?,
                ver: *ver,
            },
            Cmd::Rename {
                dir,
                name,
                ver,
                to,
                to_ver,
            } => Cmd::Rename {
                dir: *dir,
                name: name.copy(alloc)?,
                ver: *ver,
                to: to.copy(alloc)?,
                to_ver: *to_ver,
            },
            Cmd::OpenFile { chan, file, mode } => Cmd::OpenFile {
                chan: *chan,
                file: *file,
                mode: *mode,
            },
            Cmd::CloseFile { chan } => Cmd::CloseFile { chan: *chan },
            Cmd::ReadBlock { chan, vbn } => Cmd::ReadBlock {
                chan: *chan,
                vbn: *vbn,
            },
            Cmd::WriteBlock { chan, vbn, text } => Cmd::WriteBlock {
                chan: *chan,
                vbn: *vbn,
                text: text.copy(alloc)?,
            },
            Cmd::QuotaSet { owner, quota, over } => Cmd::QuotaSet {
                owner: *owner,
                quota: *quota,
                over: *over,
            },
            Cmd::QuotaShow { owner } => Cmd::QuotaShow { owner: *owner },
        })
    }
}
