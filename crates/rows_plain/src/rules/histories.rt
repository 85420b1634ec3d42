//! Rows of several nodes, with deaths and mendings.
ghost use Rattle.std.specs.Prelude.{◌<◌, All, IsTrue};

use super::replay::{Answer, Command, Replay, SYSTEM, USER, answered, name_of};
use plain_cat::{
    Cat, DirEnt, DirEnts, Entry, File, Mended, NoMemory, NumberList, QuotaRow, QuotaRows, Slot,
    Stage, Uic,
};
use plain_rules::inserted;
use rows_sample::fresh_catalogue;
use std::alloc::{AllocError, Global};
use std::process::Abort;
use std::test::Fail;

/// A node's death: its stage, and the clusters and numbers that it leaked.
pub type Death<'a> = (u8, Stage, u32, &'a [u32]);

/// What a mending did: files entered, entries removed, files gone, and the leaked clusters and numbers that it found.
pub type Counts = [u32; 5];

/// An entry of a history that is legal: a node's command with its reply, a death, or a mending.
#[derive(Clone, Copy)]
pub enum Happens<'a> {
    Answered(u8, Command<'a>, Answer<'a>),
    Dies(Death<'a>),
    Mends(Counts),
}

/// What stands in its place: another reply to the same command, another death, or another mending.
#[derive(Clone, Copy)]
pub enum Instead<'a> {
    Reply(Answer<'a>),
    Death(Death<'a>),
    Counts(Counts),
}

/// An entry that is legal, and three that are not.
#[derive(Clone, Copy)]
pub struct Passage<'a> {
    pub right: Happens<'a>,
    pub wrong: &'a [Instead<'a>],
}

// Whether a number is above all of these.
fn is_above(numbers: &[u32], n: u32) -> bool
    ensures { IsTrue result → All (λ x. x < n) numbers.now }
{
    numbers.iter().all(|x| *x < n)
}

// The numbers of a death rise.
fn numbers_of(alloc: Global, numbers: &[u32]) -> Result<NumberList, NoMemory> {
    let mut list = NumberList::new(alloc);
    for n in numbers {
        if !is_above(list.items(), *n) {
            return Err(AllocError);
        }
        list.push(*n)?;
    }
    Ok(list)
}

fn death_of(alloc: Global, death: &Death) -> Result<Entry, NoMemory> {
    let (node, stage, clusters, numbers) = *death;
    Ok(Entry::Died {
        node,
        stage,
        clusters,
        numbers: numbers_of(alloc, numbers)?,
    })
}

fn mending_of(counts: &Counts) -> Entry {
    let [entered, removed, gone, clusters, numbers] = *counts;
    Entry::Mended(Mended {
        entered,
        removed,
        gone,
        clusters,
        numbers,
    })
}

// The entry that is legal.
fn right_of(alloc: Global, right: &Happens) -> Result<Entry, NoMemory> {
    match right {
        Happens::Answered(node, command, answer) => answered(alloc, *node, command, answer),
        Happens::Dies(death) => death_of(alloc, death),
        Happens::Mends(counts) => Ok(mending_of(counts)),
    }
}

// One that is not. A reply is one to the command of the other entry.
fn wrong_of(alloc: Global, right: &Happens, wrong: &Instead) -> Result<Entry, NoMemory> {
    match wrong {
        Instead::Reply(answer) => match right {
            Happens::Answered(node, command, _) => answered(alloc, *node, command, answer),
            _ => Err(AllocError),
        },
        Instead::Death(death) => death_of(alloc, death),
        Instead::Counts(counts) => Ok(mending_of(counts)),
    }
}

/// The wrong entries are illegal, and the right one is legal and happens; and so on, in turn.
pub fn pass(
    rt: &impl Abort,
    alloc: Global,
    replay: &mut Replay,
    row: &[Passage],
) -> Result<(), Fail> {
    for passage in row {
        replay.count();
        for wrong in passage.wrong {
            replay.illegal(rt, alloc, &wrong_of(alloc, &passage.right, wrong)?)?;
        }
        replay.legal(rt, alloc, &right_of(alloc, &passage.right)?)?;
    }
    Ok(())
}

// ---- what a death leaves of a command that its node had begun, by the catalogue behind that command

// The file of a number.
fn file_of(cat: &Cat, n: u32) -> Result<&File, NoMemory> {
    match cat.files.items().get(n.saturating_sub(1) as usize) {
        Some(Slot::Used(file)) => Ok(file),
        _ => Err(AllocError),
    }
}

// A number has this file.
fn put_file(cat: &mut Cat, n: u32, file: File) {
    let at = n.saturating_sub(1) as usize;
    if at < cat.files.items().len() {
        cat.files.set(at, Slot::Used(file));
    }
}

// The directory has these entries.
fn put_entries(alloc: Global, cat: &mut Cat, dir: u32, entries: DirEnts) -> Result<(), NoMemory> {
    let mut file = file_of(cat, dir)?.copy(alloc)?;
    file.entries = entries;
    put_file(cat, dir, file);
    Ok(())
}

fn others(alloc: Global, entries: &[DirEnt], name: &str) -> Result<DirEnts, NoMemory> {
    let name = name_of(alloc, name)?;
    let mut left = DirEnts::new(alloc);
    for e in entries {
        if !e.name.is_same(&name) {
            left.push(e.copy(alloc)?)?;
        }
    }
    Ok(left)
}

/// Without the entries of this name in a directory.
pub fn unname(alloc: Global, cat: &mut Cat, dir: u32, name: &str) -> Result<(), NoMemory> {
    let left = others(alloc, file_of(cat, dir)?.entries.items(), name)?;
    put_entries(alloc, cat, dir, left)
}

/// With an entry more in a directory.
pub fn enter(alloc: Global, cat: &mut Cat, dir: u32, e: DirEnt) -> Result<(), NoMemory> {
    let more = inserted(alloc, e, &file_of(cat, dir)?.entries)?;
    put_entries(alloc, cat, dir, more)
}

// ---- a smaller volume

// A system file has so many clusters of one block.
fn resize(alloc: Global, cat: &mut Cat, n: u32, clusters: u32) -> Result<(), NoMemory> {
    let mut file = file_of(cat, n)?.copy(alloc)?;
    file.clusters = clusters;
    file.end = clusters.wrapping_add(1);
    put_file(cat, n, file);
    Ok(())
}

fn row(owner: Uic, usage: u32) -> QuotaRow {
    QuotaRow {
        owner,
        usage,
        quota: 320,
        over: 0,
    }
}

fn small_rows(alloc: Global) -> Result<QuotaRows, NoMemory> {
    let mut rows = QuotaRows::new(alloc);
    rows.push(row(SYSTEM, 85))?;
    rows.push(row(USER, 0))?;
    Ok(rows)
}

/// The catalogue of a fresh volume of 256 blocks, with clusters of one block and 64 file numbers: 182 clusters are free, and a directory
/// has one block.
pub fn small_catalogue(alloc: Global) -> Result<Cat, NoMemory> {
    let mut cat = fresh_catalogue(alloc)?;
    for (n, clusters) in [(1, 69), (2, 2), (4, 1), (10, 1), (11, 1)] {
        resize(alloc, &mut cat, n, clusters)?;
    }
    cat.factor = 1;
    cat.reserved = 74;
    cat.rows = 16;
    cat.quota = small_rows(alloc)?;
    Ok(cat)
}
