//! The entries of a directory: look-ups, and one entry more in its place in order.

ghost use Rattle.std.specs.Prelude.{◌≡◌, ◌≤◌, IfOk, OnOk, OnErr, option_copied, not, length};
ghost use Rattle.std.specs.List.{insert};
ghost use Rattle.plain_rules.specs.Answers.{dir_name};
ghost use Rattle.plain_rules.specs.Directories.{is_nil, lower, before, inserted};
ghost use Rattle.plain_rules.specs.Lookups.{versions, highest, first_with, entry_of, found};

use plain_cat::{DirEnt, DirEnts, Name, NoMemory, Refusal, Reply};
use std::alloc::Global;

/// The highest version of a name, which comes first, or 0.
pub fn highest(entries: &[DirEnt], name: &Name) -> u16
    ensures { result ≡ highest (versions name.now entries.now) }
{
    for e in entries {
        if e.name.is_same(name) {
            return e.ver;
        }
    }
    0
}

/// Whether some version of a name is there.
pub fn has_name(entries: &[DirEnt], name: &Name) -> bool
    ensures { result ≡ not (is_nil (versions name.now entries.now)) }
{
    for e in entries {
        if e.name.is_same(name) {
            return true;
        }
    }
    false
}

/// The entry of a name and a version.
pub fn with_version<'a>(entries: &'a [DirEnt], name: &Name, ver: u16) -> Option<&'a DirEnt>
    ensures { option_copied result ≡ first_with ver (versions name.now entries.now) }
{
    for e in entries {
        if e.ver == ver && e.name.is_same(name) {
            return Some(e);
        }
    }
    None
}

/// The entry of a version, or of the highest if the version is 0.
pub fn entry_of<'a>(entries: &'a [DirEnt], name: &Name, ver: u16) -> Option<&'a DirEnt>
    ensures { option_copied result ≡ entry_of (versions name.now entries.now) ver }
{
    let ver = if ver == 0 {
        highest(entries, name)
    } else {
        ver
    };
    with_version(entries, name, ver)
}

/// Looks an entry up in a directory: the one of this version, or of the highest where the version is 0.
pub fn look_up(alloc: Global, ents: &DirEnts, name: &Name, ver: u16) -> Result<Reply, NoMemory>
    ensures { IfOk result (λ r. r ≡ found (entry_of (versions name.now ents.now) ver)) }
{
    match entry_of(ents.items(), name, ver) {
        Some(e) => Ok(Reply::Found {
            fid: e.fid,
            name: e.name.copy(alloc)?,
            ver: e.ver,
        }),
        None => Ok(Reply::Refused(Refusal::NoSuchFile)),
    }
}

fn is_lower(a: &[u8], b: &[u8]) -> bool
    ensures { result ≡ lower a.now b.now }
{
    match a {
        [] => !b.is_empty(),
        [x, xs @ ..] => match b {
            [] => false,
            [y, ys @ ..] => *x < *y || (*x == *y && is_lower(xs, ys)),
        },
    }
}

#[tactic(auto, unfolding(crate::specs::Directories::before))]
fn is_before(a: &DirEnt, b: &DirEnt) -> bool
    ensures { result ≡ before a.now b.now }
{
    is_lower(a.name.items(), b.name.items()) || (a.name.is_same(&b.name) && b.ver < a.ver)
}

// The place of a new entry, before the first one that comes after it.
pub(crate) fn entry_place(e: &DirEnt, entries: &[DirEnt]) -> usize
    ensures within { result ≤ length entries.now }
    ensures value { insert entries.now result e.now ≡ inserted e.now entries.now }
{
    for (i, x) in entries.iter().enumerate() {
        if is_before(e, x) {
            return i;
        }
    }
    entries.len()
}

/// Puts an entry in its place in order. A refusal of memory leaves the entries as they were.
pub fn insert_in(entries: &mut DirEnts, e: DirEnt) -> Result<(), NoMemory>
    ensures ok { OnOk result (entries.new ≡ inserted e entries.old) }
    ensures err { OnErr result (entries.new ≡ entries.old) }
{
    let at = entry_place(&e, entries.items());
    entries.insert(at, e)
}

/// The entries with one more, in its place in order. An error says that memory ran out.
pub fn inserted(alloc: Global, e: DirEnt, entries: &DirEnts) -> Result<DirEnts, NoMemory>
    ensures { IfOk result (λ es. es ≡ inserted e entries.now) }
{
    let mut all = entries.copy(alloc)?;
    insert_in(&mut all, e)?;
    Ok(all)
}

/// The name of a directory's entry, by the name of the directory. An error says that memory ran out.
pub fn dir_name(alloc: Global, name: &Name) -> Result<Name, NoMemory>
    ensures { IfOk result (λ n. n ≡ dir_name name.now) }
{
    let mut full = name.copy(alloc)?;
    full.push(b'.')?;
    full.push(b'D')?;
    full.push(b'I')?;
    full.push(b'R')?;
    Ok(full)
}
