//! Where the entries of directories lead, by way of each other.

ghost use Rattle.std.specs.Prelude.{◌≡◌, ◌≤◌, ◌<◌, is_some, length, map, IfOk, OnOk};
ghost use Rattle.std.specs.List.{range_with_len};
ghost use Rattle.plain_rules.specs.Lookups.{in_use};
ghost use Rattle.plain_rules.specs.SystemFiles.{entries_of, is_system_entry};
ghost use Rattle.vol_faults.specs.Reaching.{is_step, is_step_to, leads};
ghost use Rattle.vol_repair.specs.Reached.{flag_at, row_at, row_of, rows_of, either, passed_row, passed, AreRows};

use plain_cat::{Cat, DirEnt, Fid, Flags, NoMemory};
use plain_rules::{file_at, in_use, is_own};
use std::alloc::Global;

// The entries of the directory of a number, of which a number that is no directory's has none.
fn entries_of(cat: &Cat, n: u32) -> &[DirEnt]
    ensures { result.now ≡ entries_of cat.now n }
{
    match file_at(cat, n) {
        Some(file) if file.dir => file.entries.items(),
        _ => &[],
    }
}

// Whether an entry of the master file directory is the one that it has of this system file: its name, version 1, and its identifier,
// whose sequence is the number up to 9 and then 1.
#[tactic(auto, unfolding(plain_rules::specs::SystemFiles::is_system_entry))]
pub(crate) fn is_system_entry(n: u32, e: &DirEnt) -> bool
    ensures { result ≡ is_system_entry n e.now }
{
    let seq = if n <= 9 { n } else { 1 };
    is_own(4, e) && e.fid.num == n && u32::from(e.fid.seq) == seq
}

// Whether a file is in use under an identifier.
fn is_in_use(cat: &Cat, fid: Fid) -> bool
    ensures { result ≡ is_some (in_use cat.now fid) }
{
    in_use(cat, fid).is_some()
}

// Whether a chain goes on from directory n by this entry: it names a file in use, and is not the master file directory's own.
#[tactic(auto, unfolding(vol_faults::specs::Reaching::is_step))]
fn is_step(cat: &Cat, n: u32, e: &DirEnt) -> bool
    ensures { result ≡ is_step cat.now n e.now }
{
    is_in_use(cat, e.fid) && !(n == 4 && is_system_entry(4, e))
}

// Whether a chain goes on from directory n to number m by this entry.
fn is_step_to(cat: &Cat, n: u32, m: u32, e: &DirEnt) -> bool
    ensures { result ≡ is_step_to cat.now n m e.now }
{
    is_step(cat, n, e) && e.fid.num == m
}

// Whether an entry of directory n leads to number m.
#[tactic(auto, unfolding(vol_faults::specs::Reaching::leads))]
fn leads(cat: &Cat, n: u32, m: u32) -> bool
    ensures { result ≡ leads cat.now n m }
{
    entries_of(cat, n).iter().any(|e| is_step_to(cat, n, m, e))
}

// For each number, from 0 on, whether an entry of directory n leads to it.
fn row_of(alloc: Global, cat: &Cat, n: u32) -> Result<Flags, NoMemory>
    requires { length cat.now.files ≤ 4096 }
    ensures { IfOk result (λ row. row ≡ row_of cat.now n) }
{
    let mut row = Flags::new(alloc);
    for m in 0..cat.files.items().len() as u32 + 1 {
        row.push(leads(cat, n, m))?;
    }
    Ok(row)
}

// Such a row for each number, from 0 on.
fn rows_of(alloc: Global, cat: &Cat) -> Result<Vec<Flags>, NoMemory>
    requires { length cat.now.files ≤ 4096 }
    ensures { IfOk result (λ rows. rows.items ≡ rows_of cat.now) }
{
    let mut rows = Vec::new(alloc);
    for n in 0..cat.files.items().len() as u32 + 1 {
        rows.push(row_of(alloc, cat, n)?)?;
    }
    Ok(rows)
}

// A flag of a row, which is not set where the row has none.
fn flag_at(row: &[bool], m: usize) -> bool
    ensures { result ≡ flag_at row.now m }
{
    match row.get(m) {
        Some(flag) => *flag,
        None => false,
    }
}

// Sets the flags of another row as well.
fn join(row: &mut Flags, other: &[bool])
    ensures { row.new ≡ either row.old other.now }
{
    for i in 0..row.items().len() {
        if flag_at(other, i) {
            row.set(i, true);
        }
    }
}

// A row that leads to number x leads to where that one's row leads as well.
fn pass_row(row: &mut Flags, through: &[bool], x: usize)
    ensures { row.new ≡ passed_row x through.now row.old }
{
    if flag_at(row.items(), x) {
        join(row, through);
    }
}

// Each row that leads to number x leads to where this row does as well.
fn pass_rows(rows: &mut [Flags], through: &[bool], x: usize)
    ensures { rows.new ≡ map (passed_row x through.now) rows.old }
{
    for row in rows.iter_mut() {
        pass_row(row, through, x);
    }
}

// Each row that leads to number x leads to where that one's row leads as well.
fn pass(alloc: Global, rows: &mut Vec<Flags>, x: usize) -> Result<(), NoMemory>
    requires { x < length rows.old.items }
    ensures { OnOk result (rows.new.items ≡ passed x rows.old.items) }
{
    let through = rows[x].copy(alloc)?;
    pass_rows(rows, through.items(), x);
    Ok(())
}

// For each number whether entries lead from it to each number, at once or by way of others.
pub(crate) fn all_ways(alloc: Global, cat: &Cat) -> Result<Vec<Flags>, NoMemory>
    requires { length cat.now.files ≤ 4096 }
    ensures { IfOk result (λ rows. AreRows cat.now (range_with_len 1 (length cat.now.files)) rows.items) }
{
    let mut rows = rows_of(alloc, cat)?;
    let count = cat.files.items().len();
    for i in 0..count {
        pass(alloc, &mut rows, count - i)?;
    }
    Ok(rows)
}

// Whether entries lead from a number back to it.
pub(crate) fn leads_back(rows: &[Flags], n: u32) -> bool
    ensures { result ≡ flag_at (row_at rows.now n) n }
{
    match rows.get(n as usize) {
        Some(row) => flag_at(row.items(), n as usize),
        None => false,
    }
}
