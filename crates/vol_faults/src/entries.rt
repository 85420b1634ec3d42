//! System files without their entry in the master file directory, and directories that are marked for delete.

ghost use Rattle.std.specs.Prelude.{◌≡◌, ◌≤◌, not, length};
ghost use Rattle.std.specs.List.{list_any};
ghost use Rattle.plain_rules.specs.Lookups.{file_at};
ghost use Rattle.vol_parts.specs.Fatal.{is_marked_dir};
ghost use Rattle.plain_rules.specs.SystemFiles.{is_system_entry};
ghost use Rattle.plain_rules.specs.SystemFiles.{entries_of};
ghost use Rattle.vol_parts.specs.Lowest.{IsLowest};
ghost use Rattle.vol_faults.specs.CatFindings.{IsFirstIn};

use plain_cat::{Cat, DirEnt};
use plain_rules::{file_at, is_own};
use vol_parts::Finding;

/// The entries of the directory of a number, of which a number that is no directory's has none.
pub(crate) fn entries_of(cat: &Cat, n: u32) -> &[DirEnt]
    ensures { result.now ≡ entries_of cat.now n }
{
    match file_at(cat, n) {
        Some(file) if file.dir => file.entries.items(),
        _ => &[],
    }
}

/// Whether an entry of the master file directory is the one that it has of this system file: its name, version 1, and its
/// identifier, whose sequence is the number up to 9 and then 1.
#[tactic(auto, unfolding(plain_rules::specs::SystemFiles::is_system_entry))]
pub(crate) fn is_system_entry(n: u32, e: &DirEnt) -> bool
    ensures { result ≡ is_system_entry n e.now }
{
    let seq = if n <= 9 { n } else { 1 };
    is_own(4, e) && e.fid.num == n && u32::from(e.fid.seq) == seq
}

fn has_system_entry(cat: &Cat, n: u32) -> bool
    ensures { result ≡ list_any (is_system_entry n) (entries_of cat.now 4) }
{
    entries_of(cat, 4).iter().any(|e| is_system_entry(n, e))
}

fn lowest_missing_entry(cat: &Cat) -> Option<u32>
    ensures { IsLowest (λ n. not (list_any (is_system_entry n) (entries_of cat.now 4))) 1 11 result }
{
    for n in 1..12 {
        if !has_system_entry(cat, n) {
            return Some(n);
        }
    }
    None
}

/// The first system file of which the master file directory lacks the entry.
pub fn first_missing_entry(cat: &Cat) -> Option<Finding>
    ensures { IsFirstIn cat.now 13 result }
{
    Some(Finding::SystemEntry(lowest_missing_entry(cat)?))
}

fn is_marked_dir(cat: &Cat, n: u32) -> bool
    ensures { result ≡ is_marked_dir (file_at cat.now n) }
{
    match file_at(cat, n) {
        Some(file) => file.marked && file.dir && !file.entries.items().is_empty(),
        None => false,
    }
}

fn lowest_marked_dir(cat: &Cat) -> Option<u32>
    requires { length cat.now.files ≤ 4096 }
    ensures { IsLowest (λ n. is_marked_dir (file_at cat.now n)) 1 (length cat.now.files) result }
{
    for n in 1..cat.files.items().len() as u32 + 1 {
        if is_marked_dir(cat, n) {
            return Some(n);
        }
    }
    None
}

/// The first directory that is marked for delete and has entries.
pub fn first_marked_dir(cat: &Cat) -> Option<Finding>
    requires { length cat.now.files ≤ 4096 }
    ensures { IsFirstIn cat.now 14 result }
{
    Some(Finding::MarkedDir(lowest_marked_dir(cat)?))
}
