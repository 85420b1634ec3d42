//! Which file a specification means.

ghost use Rattle.std.specs.Prelude.{◌≡◌, IfOk, MatchOption, Some, None, length, option_copied};
ghost use Rattle.run_script.specs.Lines.{parts};
ghost use Rattle.plain_rules.specs.Lookups.{in_use, versions, entry_of};
ghost use Rattle.vol_show.specs.Specifying.{entries_of, below, down, dir_at, listed, target_in, target};

use crate::parts::count_parts;
use crate::spec::{Dir, Spec, Target};
use plain_cat::{Cat, DirEnt, Fid, Name, NoMemory};
use plain_rules::{dir_name, entry_of, in_use};
use run_script::part;
use std::alloc::Global;

// The main directory.
const MAIN: Fid = Fid { num: 4, seq: 4 };

// The entries of the directory under an identifier, where it is in use.
fn entries_of(cat: &Cat, fid: Fid) -> Option<&[DirEnt]>
    ensures { MatchOption result (entries_of (in_use cat.now fid) ≡ None) (λ es. entries_of (in_use cat.now fid) ≡ Some es.now) }
{
    match in_use(cat, fid) {
        Some(file) if file.dir => Some(file.entries.items()),
        _ => None,
    }
}

// The directory under a word in a directory.
fn below(alloc: Global, cat: &Cat, fid: Fid, word: &[u8]) -> Result<Option<Fid>, NoMemory>
    ensures { IfOk result (λ found. found ≡ below word.now (entries_of (in_use cat.now fid))) }
{
    let Some(entries) = entries_of(cat, fid) else {
        return Ok(None);
    };
    let name = dir_name(alloc, &Name::of(alloc, word)?)?;
    match entry_of(entries, &name, 1) {
        Some(e) => Ok(Some(e.fid)),
        None => Ok(None),
    }
}

// What the first so many words of a way lead to.
fn down(alloc: Global, cat: &Cat, way: &[u8], k: usize) -> Result<Option<Fid>, NoMemory>
    ensures { IfOk result (λ found. found ≡ down cat.now way.now k) }
{
    if k == 0 {
        return Ok(Some(MAIN));
    }
    let Some(fid) = down(alloc, cat, way, k - 1)? else {
        return Ok(None);
    };
    below(alloc, cat, fid, part(way, b'.', k - 1))
}

// The directory of a specification.
fn dir_at(alloc: Global, cat: &Cat, dir: &Dir) -> Result<Option<Fid>, NoMemory>
    ensures { IfOk result (λ found. found ≡ dir_at cat.now dir.now) }
{
    match dir {
        Dir::Number(fid) => Ok(Some(*fid)),
        Dir::Way(way) => {
            let way = way.items();
            down(alloc, cat, way, count_parts(way, b'.'))
        }
    }
}

// The entry of a name and a version.
fn target_in(entries: &[DirEnt], name: &Name, ver: u16) -> Target
    ensures { result ≡ target_in name.now ver (Some entries.now) }
{
    match entry_of(entries, name, ver) {
        Some(e) => Target::Found(e.fid),
        None => Target::NoSuchFile,
    }
}

/// The identifier that a specification means in a catalogue, or why there is none: the directory first. It need not be that of a
/// file in use. An error says that memory ran out.
#[tactic(auto, unfolding(crate::specs::Specifying::listed))]
pub fn target(alloc: Global, cat: &Cat, spec: &Spec) -> Result<Target, NoMemory>
    ensures { IfOk result (λ t. t ≡ target cat.now spec.now) }
{
    match spec {
        Spec::Id(fid) => Ok(Target::Found(*fid)),
        Spec::Entry(n) => {
            let Some(dir) = dir_at(alloc, cat, &n.dir)? else {
                return Ok(Target::NoSuchDirectory);
            };
            match entries_of(cat, dir) {
                Some(entries) => Ok(target_in(entries, &n.name, n.ver)),
                None => Ok(Target::NoSuchDirectory),
            }
        }
    }
}
