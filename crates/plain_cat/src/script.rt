//! Scripts: the lines of all nodes, and where nodes are stopped.

ghost use Rattle.std.specs.Prelude.{◌≡◌, ◌++◌, [], ◌∷◌, OnOk, OnErr, IfOk, option_copied, slice_get};
ghost use Rattle.std.specs.Option.{option_map};
ghost use Rattle.plain_cat.specs.OwnLines.{lines_of};

use crate::NoMemory;
use crate::ids::{Fid, Uic};
use crate::mode::Mode;
use crate::name::Name;
use crate::places::{Places, note, place_at};
use std::alloc::Global;
use std::marker::Model;

/// A file as a script names it: by its identifier, or by what a register of the node holds.
#[derive(Clone, Copy, Debug, PartialEq)]
pub enum FileRef {
    /// An identifier.
    Fixed(Fid),

    /// A register, 1 to 8. One that was never set holds number 0 and sequence 0.
    Reg(u8),
}

/// A command as a script has it: as `Cmd`, with a reference in place of each identifier.
#[derive(Drop)]
pub enum LineCmd {
    Lookup {
        reg: u8,
        dir: FileRef,
        name: Name,
        ver: u16,
    },
    List {
        dir: FileRef,
    },
    Stat {
        file: FileRef,
    },
    Create {
        reg: u8,
        dir: FileRef,
        name: Name,
        ver: u16,
        blocks: u32,
        owner: Uic,
    },
    MkDir {
        reg: u8,
        dir: FileRef,
        name: Name,
        owner: Uic,
    },
    Extend {
        file: FileRef,
        blocks: u32,
    },
    Trunc {
        file: FileRef,
        blocks: u32,
    },
    Delete {
        dir: FileRef,
        name: Name,
        ver: u16,
    },
    Rename {
        dir: FileRef,
        name: Name,
        ver: u16,
        to: Name,
        to_ver: u16,
    },
    OpenFile {
        chan: u8,
        file: FileRef,
        mode: Mode,
    },
    CloseFile {
        chan: u8,
    },
    ReadBlock {
        chan: u8,
        vbn: u32,
    },
    WriteBlock {
        chan: u8,
        vbn: u32,
        text: Name,
    },
    QuotaSet {
        owner: Uic,
        quota: u32,
        over: u32,
    },
    QuotaShow {
        owner: Uic,
    },
}

impl LineCmd {
    /// The same command again.
    pub fn copy(&self, alloc: Global) -> Result<Self, NoMemory>
        ensures { IfOk result (λ c. c ≡ self.now) }
    {
        Ok(match self {
            LineCmd::Lookup {
                reg,
                dir,
                name,
                ver,
            } => LineCmd::Lookup {
                reg: *reg,
                dir: *dir,
                name: name.copy(alloc)?,
                ver: *ver,
            },
            LineCmd::List { dir } => LineCmd::List { dir: *dir },
            LineCmd::Stat { file } => LineCmd::Stat { file: *file },
            LineCmd::Create {
                reg,
                dir,
                name,
                ver,
                blocks,
                owner,
            } => LineCmd::Create {
                reg: *reg,
                dir: *dir,
                name: name.copy(alloc)?,
                ver: *ver,
                blocks: *blocks,
                owner: *owner,
            },
            LineCmd::MkDir {
                reg,
                dir,
                name,
                owner,
            } => LineCmd::MkDir {
                reg: *reg,
                dir: *dir,
                name: name.copy(alloc)?,
                owner: *owner,
            },
            LineCmd::Extend { file, blocks } => LineCmd::Extend {
                file: *file,
                blocks: *blocks,
            },
            LineCmd::Trunc { file, blocks } => LineCmd::Trunc {
                file: *file,
                blocks: *blocks,
            },
            LineCmd::Delete { dir, name, ver } => LineCmd::Delete {
                dir: *dir,
                name: name.copy(alloc)?,
                ver: *ver,
            },
            LineCmd::Rename {
                dir,
                name,
                ver,
                to,
                to_ver,
            } => LineCmd::Rename {
                dir: *dir,
                name: name.copy(alloc)?,
                ver: *ver,
                to: to.copy(alloc)?,
                to_ver: *to_ver,
            },
            LineCmd::OpenFile { chan, file, mode } => LineCmd::OpenFile {
                chan: *chan,
                file: *file,
                mode: *mode,
            },
            LineCmd::CloseFile { chan } => LineCmd::CloseFile { chan: *chan },
            LineCmd::ReadBlock { chan, vbn } => LineCmd::ReadBlock {
                chan: *chan,
                vbn: *vbn,
            },
            LineCmd::WriteBlock { chan, vbn, text } => LineCmd::WriteBlock {
                chan: *chan,
                vbn: *vbn,
                text: text.copy(alloc)?,
            },
            LineCmd::QuotaSet { owner, quota, over } => LineCmd::QuotaSet {
                owner: *owner,
                quota: *quota,
                over: *over,
            },
            LineCmd::QuotaShow { owner } => LineCmd::QuotaShow { owner: *owner },
        })
    }
}

/// A line of a script: a node, from 1, and its command.
#[derive(Drop)]
pub struct Line {
    pub node: u8,
    pub cmd: LineCmd,
}

impl Line {
    /// The same line again.
    pub fn copy(&self, alloc: Global) -> Result<Self, NoMemory>
        ensures { IfOk result (λ l. l ≡ self.now) }
    {
        Ok(Line {
            node: self.node,
            cmd: self.cmd.copy(alloc)?,
        })
    }
}

/// When a node is killed: in place of its turn of this number, or of the turn that would make its block write of this
/// number. Both count from 1, since mounting.
#[derive(Clone, Copy, Debug, PartialEq)]
pub enum KillAt {
    Turn(u32),
    Write(u32),
}

/// A node, and when it is killed.
#[derive(Clone, Copy, Debug, PartialEq)]
pub struct Kill {
    pub node: u8,
    pub at: KillAt,
}

/// The commands of a script, in order, and where those of each node stand.
#[derive(Drop)]
pub struct Lines {
    list: Vec<Line>,

    // Of each node that has a line, from node 0.
    places: Vec<Places>,
}

impl Model for Lines {
    ghost use Rattle.std.specs.Prelude.{List};
    ghost use Rattle.plain_cat.specs.declared.script.Line.{Line};
    ghost use Rattle.plain_cat.specs.OwnLines.{ArePlaces};

    ghost Value = { List Line };

    ghost view = { λ l. l.list.items };

    ghost invariant = { λ l. ArePlaces l.places.items l.list.items };
}

// The command of the line at a place, from 0.
fn cmd_at(lines: &[Line], place: usize) -> Option<&LineCmd>
    ensures { option_copied result ≡ option_map (λ l. l.cmd) (slice_get lines.now place) }
{
    let line = lines.get(place)?;
    Some(&line.cmd)
}

impl Lines {
    /// No line.
    pub fn new(alloc: Global) -> Self
        ensures { result ≡ [] }
    {
        Lines {
            list: Vec::new(alloc),
            places: Vec::new(alloc),
        }
    }

    /// Adds a line at the end. A refusal of memory leaves the list as it was.
    pub fn push(&mut self, item: Line) -> Result<(), NoMemory>
        ensures ok { OnOk result (self.new ≡ self.old ++ item ∷ []) }
        ensures err { OnErr result (self.new ≡ self.old) }
    {
        self.list.reserve(1)?;
        note(&mut self.places, item.node, self.list.len())?;
        self.list.push_reserved(item);
        Ok(())
    }

    /// The lines, in order.
    pub fn items(&self) -> &[Line]
        ensures { result.now ≡ self.now }
    {
        self.list.as_slice()
    }

    /// The command of the node's line that so many of its lines come before. It looks at no other line.
    pub fn own(&self, node: u8, before: u32) -> Option<&LineCmd>
        ensures { option_copied result ≡ slice_get (lines_of node self.now) before }
    {
        cmd_at(&self.list, place_at(&self.places, node, before)?)
    }

    /// The same list again.
    pub fn copy(&self, alloc: Global) -> Result<Self, NoMemory>
        ensures { IfOk result (λ l. l ≡ self.now) }
    {
        let mut all = Lines::new(alloc);
        for x in self.list.as_slice() {
            all.push(x.copy(alloc)?)?;
        }
        Ok(all)
    }
}

/// The nodes whose turns come first, one per play.
#[derive(Drop)]
pub struct Plays {
    list: Vec<u8>,
}

impl Model for Plays {
    ghost use Rattle.std.specs.Prelude.{List, ℕ};

    ghost Value = { List ℕ };

    ghost view = { λ l. l.list.items };
}

impl Plays {
    /// No play.
    pub fn new(alloc: Global) -> Self
        ensures { result ≡ [] }
    {
        Plays {
            list: Vec::new(alloc),
        }
    }

    /// Adds a play at the end. A refusal of memory leaves the list as it was.
    pub fn push(&mut self, item: u8) -> Result<(), NoMemory>
        ensures ok { OnOk result (self.new ≡ self.old ++ item ∷ []) }
        ensures err { OnErr result (self.new ≡ self.old) }
    {
        self.list.push(item)?;
        Ok(())
    }

    /// The plays, in order.
    pub fn items(&self) -> &[u8]
        ensures { result.now ≡ self.now }
    {
        self.list.as_slice()
    }

    /// The same list again.
    pub fn copy(&self, alloc: Global) -> Result<Self, NoMemory>
        ensures { IfOk result (λ l. l ≡ self.now) }
    {
        Ok(Plays {
            list: Vec::from_slice(alloc, self.list.as_slice())?,
        })
    }
}

/// The nodes that are killed, at most one kill for each.
#[derive(Drop)]
pub struct Kills {
    list: Vec<Kill>,
}

impl Model for Kills {
    ghost use Rattle.std.specs.Prelude.{List};
    ghost use Rattle.plain_cat.specs.declared.script.Kill.{Kill};

    ghost Value = { List Kill };

    ghost view = { λ l. l.list.items };
}

impl Kills {
    /// No kill.
    pub fn new(alloc: Global) -> Self
        ensures { result ≡ [] }
    {
        Kills {
            list: Vec::new(alloc),
        }
    }

    /// Adds a kill at the end. A refusal of memory leaves the list as it was.
    pub fn push(&mut self, item: Kill) -> Result<(), NoMemory>
        ensures ok { OnOk result (self.new ≡ self.old ++ item ∷ []) }
        ensures err { OnErr result (self.new ≡ self.old) }
    {
        self.list.push(item)?;
        Ok(())
    }

    /// The kills, in order.
    pub fn items(&self) -> &[Kill]
        ensures { result.now ≡ self.now }
    {
        self.list.as_slice()
    }

    /// The same list again.
    pub fn copy(&self, alloc: Global) -> Result<Self, NoMemory>
        ensures { IfOk result (λ l. l ≡ self.now) }
    {
        Ok(Kills {
            list: Vec::from_slice(alloc, self.list.as_slice())?,
        })
    }
}

/// A script: how many nodes there are, their commands, the schedule of the first turns, and the deaths.
#[derive(Drop)]
pub struct Script {
    /// 1 to 8.
    pub nodes: u8,

    /// At most 4,096.
    pub lines: Lines,

    /// At most 65,536.
    pub plays: Plays,

    /// At most one for each node.
    pub kills: Kills,
}

impl Script {
    /// The same script again.
    pub fn copy(&self, alloc: Global) -> Result<Self, NoMemory>
        ensures { IfOk result (λ s. s ≡ self.now) }
    {
        Ok(Script {
            nodes: self.nodes,
            lines: self.lines.copy(alloc)?,
            plays: self.plays.copy(alloc)?,
            kills: self.kills.copy(alloc)?,
        })
    }
}
