//! The harness of these rows: commands on a fresh volume, each with its answer.

ghost use Rattle.std.specs.Prelude.{IsTrue};
ghost use Rattle.plain_rules.specs.Checks.{EntryInForm};

use base_words::{Block, put_bytes, zeros};
use plain_cat::{
    ByteBlock, Cat, Cmd, DirEnt, DirEnts, Entry, Fid, Mode, Name, NoMemory, Refusal, Reply, Slot,
    Uic,
};
use plain_rules::{is_accounted, is_in_form};
use plain_vol::{Checked, check_reply};
use rows_sample::fresh_catalogue;
use std::alloc::{AllocError, Global};
use std::process::Abort;
use std::test::Fail;

/// The main directory.
pub const MFD: Fid = Fid { num: 4, seq: 4 };

/// [SYSLOST].
pub const LOST: Fid = Fid { num: 11, seq: 1 };

/// The first file that is made on a fresh volume, in a replay.
pub const FIRST: Fid = Fid { num: 12, seq: 1 };

/// [1,1], [1,4] and [2,2], of whom the last has no quota row.
pub const SYSTEM: Uic = Uic(65537);

pub const USER: Uic = Uic(65540);

pub const STRANGER: Uic = Uic(131074);

/// A command, on register 1 and channel 1, with texts for its names. The parts stand in the order of `Cmd`.
#[derive(Clone, Copy)]
pub enum Command<'a> {
    Lookup(Fid, &'a str, u16),
    List(Fid),
    Stat(Fid),
    Create(Fid, &'a str, u16, u32, Uic),
    MkDir(Fid, &'a str, Uic),
    Extend(Fid, u32),
    Trunc(Fid, u32),
    Delete(Fid, &'a str, u16),
    Rename(Fid, &'a str, u16, &'a str, u16),
    OpenFile(Fid, Mode),
    CloseFile,
    ReadBlock(u32),
    WriteBlock(u32, &'a str),
    QuotaSet(Uic, u32, u32),
    QuotaShow(Uic),
}

/// An entry of a directory: name, version, and the number and sequence of its file.
pub type Item<'a> = (&'a str, u16, u32, u16);

/// A reply, with texts for its names. `Found` has number and sequence, name and version; `Facts` whether it is a
/// directory, owner, blocks, mark and the block of the end, whose byte is 0; `Bytes` the first five bytes, and zeros follow.
#[derive(Clone, Copy)]
pub enum Answer<'a> {
    Found(u32, u16, &'a str, u16),
    Listed(&'a [Item<'a>]),
    Facts(bool, Uic, u32, u32, u32),
    Size(u32),
    Deleted,
    Marked,
    EntryRemoved,
    Renamed(&'a str, u16),
    Opened,
    Closed(bool),
    Bytes([u8; 5]),
    Written,
    QuotaKept,
    Usage(u32, u32, u32),
    Refused(Refusal),
}

/// A command of node 1, the reply that it has, and three that it has not.
#[derive(Clone, Copy)]
pub struct Step<'a> {
    pub command: Command<'a>,
    pub answer: Answer<'a>,
    pub wrong: &'a [Answer<'a>],
}

/// The name of this text.
pub fn name_of(alloc: Global, text: &str) -> Result<Name, NoMemory> {
    let mut name = Name::new(alloc);
    for byte in text.as_bytes() {
        name.push(*byte)?;
    }
    Ok(name)
}

/// A name of two digits, 37 letters X, a dot and 39 letters Y. Five records with one version of such a name fill a block.
pub fn long_name(alloc: Global, k: u32) -> Result<String, AllocError> {
    format!(in alloc;
        "{:02}XXXXXXXXXXXXXXXXXXXXXXXXXXXXXXXXXXXXX.YYYYYYYYYYYYYYYYYYYYYYYYYYYYYYYYYYYYYYY",
        k
    )
}

/// A block that begins with these bytes and is zero behind them.
pub fn block_of(front: &[u8; 5]) -> Block {
    let mut b = zeros();
    put_bytes(&mut b, 0, front);
    b
}

/// The command as a value.
pub fn cmd_of(alloc: Global, command: &Command) -> Result<Cmd, NoMemory> {
    Ok(match *command {
        Command::Lookup(dir, name, ver) => Cmd::Lookup {
            reg: 1,
            dir,
            name: name_of(alloc, name)?,
            ver,
        },
        Command::List(dir) => Cmd::List { dir },
        Command::Stat(file) => Cmd::Stat { file },
        Command::Create(dir, name, ver, blocks, owner) => Cmd::Create {
            reg: 1,
            dir,
            name: name_of(alloc, name)?,
            ver,
            blocks,
            owner,
        },
        Command::MkDir(dir, name, owner) => Cmd::MkDir {
            reg: 1,
            dir,
            name: name_of(alloc, name)?,
            owner,
        },
        Command::Extend(file, blocks) => Cmd::Extend { file, blocks },
        Command::Trunc(file, blocks) => Cmd::Trunc { file, blocks },
        Command::Delete(dir, name, ver) => Cmd::Delete {
            dir,
            name: name_of(alloc, name)?,
            ver,
        },
        Command::Rename(dir, name, ver, to, to_ver) => Cmd::Rename {
            dir,
            name: name_of(alloc, name)?,
            ver,
            to: name_of(alloc, to)?,
            to_ver,
        },
        Command::OpenFile(file, mode) => Cmd::OpenFile {
            chan: 1,
            file,
            mode,
        },
        Command::CloseFile => Cmd::CloseFile { chan: 1 },
        Command::ReadBlock(vbn) => Cmd::ReadBlock { chan: 1, vbn },
        Command::WriteBlock(vbn, text) => Cmd::WriteBlock {
            chan: 1,
            vbn,
            text: name_of(alloc, text)?,
        },
        Command::QuotaSet(owner, quota, over) => Cmd::QuotaSet { owner, quota, over },
        Command::QuotaShow(owner) => Cmd::QuotaShow { owner },
    })
}

fn entries_of(alloc: Global, items: &[Item]) -> Result<DirEnts, NoMemory> {
    let mut entries = DirEnts::new(alloc);
    for (name, ver, num, seq) in items {
        entries.push(DirEnt {
            name: name_of(alloc, name)?,
            ver: *ver,
            fid: Fid {
                num: *num,
                seq: *seq,
            },
        })?;
    }
    Ok(entries)
}

/// The reply as a value.
pub fn reply_of(alloc: Global, answer: &Answer) -> Result<Reply, NoMemory> {
    Ok(match *answer {
        Answer::Found(num, seq, name, ver) => Reply::Found {
            fid: Fid { num, seq },
            name: name_of(alloc, name)?,
            ver,
        },
        Answer::Listed(items) => Reply::Listed(entries_of(alloc, items)?),
        Answer::Facts(dir, owner, blocks, mark, end) => Reply::Facts {
            dir,
            owner,
            blocks,
            mark,
            end,
            byte: 0,
        },
        Answer::Size(blocks) => Reply::Size(blocks),
        Answer::Deleted => Reply::Deleted,
        Answer::Marked => Reply::Marked,
        Answer::EntryRemoved => Reply::EntryRemoved,
        Answer::Renamed(name, ver) => Reply::Renamed {
            name: name_of(alloc, name)?,
            ver,
        },
        Answer::Opened => Reply::Opened,
        Answer::Closed(gone) => Reply::Closed { gone },
        Answer::Bytes(front) => Reply::Bytes(ByteBlock::new(alloc, &block_of(&front))?),
        Answer::Written => Reply::Written,
        Answer::QuotaKept => Reply::QuotaKept,
        Answer::Usage(usage, quota, over) => Reply::Usage { usage, quota, over },
        Answer::Refused(refusal) => Reply::Refused(refusal),
    })
}

/// The entry of a node's command and its reply.
pub fn answered(
    alloc: Global,
    node: u8,
    command: &Command,
    answer: &Answer,
) -> Result<Entry, NoMemory> {
    Ok(Entry::Done {
        node,
        cmd: cmd_of(alloc, command)?,
        reply: reply_of(alloc, answer)?,
    })
}

// Whether the command of an answer is in form.
fn is_entry_in_form(e: &Entry) -> bool
    ensures { IsTrue result → EntryInForm e.now }
{
    match e {
        Entry::Done { cmd, .. } => is_in_form(cmd),
        _ => true,
    }
}

/// A volume, as far as its commands were given.
#[derive(Drop)]
pub struct Replay {
    pub row: &'static str,
    pub cat: Cat,
    given: u32,
}

impl Replay {
    pub fn fresh(alloc: Global, row: &'static str) -> Result<Self, NoMemory> {
        Ok(Replay::of(row, fresh_catalogue(alloc)?))
    }

    /// The same on another volume.
    pub fn of(row: &'static str, cat: Cat) -> Self {
        Replay { row, cat, given: 0 }
    }

    fn judged(&self, alloc: Global, e: &Entry) -> Result<Checked, Fail> {
        if !is_entry_in_form(e) {
            return Err(Fail::new("a command is not in form"));
        }
        if !is_accounted(&self.cat) {
            return Err(Fail::new("the quotas are not in order"));
        }
        Ok(check_reply(alloc, &self.cat, e)?)
    }

    /// The entry has to be illegal.
    pub fn illegal(&self, rt: &impl Abort, alloc: Global, e: &Entry) -> Result<(), Fail> {
        let judged = self.judged(alloc, e)?;
        let is_illegal = matches!(judged, Checked::Illegal);
        assert!(rt;
            is_illegal,
            "{}: a wrong entry is legal at step {}",
            self.row, self.given
        );
        Ok(())
    }

    /// The entry has to be legal, and it happens.
    pub fn legal(&mut self, rt: &impl Abort, alloc: Global, e: &Entry) -> Result<(), Fail> {
        match self.judged(alloc, e)? {
            Checked::Legal(after) => self.cat = after,
            Checked::Illegal => assert!(rt;
                false,
                "{}: the entry is illegal at step {}",
                self.row, self.given
            ),
        }
        Ok(())
    }

    /// The next step of the row.
    pub fn count(&mut self) {
        self.given = self.given.wrapping_add(1);
    }

    /// Gives a command: the wrong replies are illegal, and the right one is legal.
    pub fn step(&mut self, rt: &impl Abort, alloc: Global, step: &Step) -> Result<(), Fail> {
        self.count();
        for wrong in step.wrong {
            self.illegal(rt, alloc, &answered(alloc, 1, &step.command, wrong)?)?;
        }
        self.legal(rt, alloc, &answered(alloc, 1, &step.command, &step.answer)?)
    }

    /// Gives the commands of a row in turn.
    pub fn run(&mut self, rt: &impl Abort, alloc: Global, steps: &[Step]) -> Result<(), Fail> {
        for step in steps {
            self.step(rt, alloc, step)?;
        }
        Ok(())
    }

    /// The free clusters: all less the reserved and the leaked ones and those of files above 11.
    pub fn free(&self) -> u32 {
        let cat = &self.cat;
        let taken = cat.reserved.wrapping_add(cat.leaked);
        let mut free = cat.total.wrapping_sub(taken);
        for slot in cat.files.items().iter().skip(11) {
            if let Slot::Used(file) = slot {
                free = free.wrapping_sub(file.clusters);
            }
        }
        free
    }
}

/// A worked example: its steps on a fresh volume, after which so many clusters are free.
pub fn replay_row(
    rt: &impl Abort,
    alloc: Global,
    row: &'static str,
    steps: &[Step],
    free: u32,
) -> Result<(), Fail> {
    let mut replay = Replay::fresh(alloc, row)?;
    replay.run(rt, alloc, steps)?;
    assert_eq!(rt; replay.free(), free, "{row}");
    Ok(())
}
