//! Directories that a chain of entries leads back to.
//!
//! Chains are followed from each number that none has led to yet, as far as they lead, and each entry is looked at once. The
//! numbers between the start and the directory that is looked at are the way. An entry that leads back to a number of the way
//! shows a loop: from that number on the way is one, and stays together until all its entries were looked at.

ghost use Rattle.std.specs.Prelude.{◌≡◌, ◌+◌, ◌-◌, ◌^◌, ◌<◌, ◌≤◌, [], ℕ, IfOk, OnOk, All, true, false, length, is_some, slice_get, Some};
ghost use Rattle.plain_rules.specs.Lookups.{in_use};
ghost use Rattle.plain_rules.specs.SystemFiles.{entries_of};
ghost use Rattle.vol_faults.specs.CatFindings.{IsFirstIn};
ghost use Rattle.vol_faults.specs.Reaching.{is_step};
ghost use Rattle.vol_faults.specs.declared.loops.Place.{Place};
ghost use Rattle.vol_faults.specs.Walking.{begin_at, place_of, looked_at, is_new, IsWalk, IsPushed, IsJoined, IsLowered, IsBack, IsGone, IsAtEnd, IsAlong, IsOneMore, IsLooked, IsShortened, IsFurther, AreClosed, AreLowered, IsShorter, AreKept, IsLowestOnLoop};

use crate::entries::{entries_of, is_system_entry};
use plain_cat::{Cat, DirEnt, Fid, NoMemory};
use plain_rules::file_at;
use std::alloc::Global;
use vol_parts::Finding;

/// Where a number stands while chains are followed.
#[derive(Clone, Copy)]
enum Place {
    /// No chain has led to it.
    New,

    /// It is on the way, at this place.
    At(usize),

    /// All chains from it were followed.
    Closed,
}

/// Chains of entries, as far as they are followed.
#[derive(Drop)]
struct Walk {
    /// The numbers on the way, of which each leads to all behind it.
    way: Vec<u32>,

    /// For each of them, the place where the loop begins that is known to lead through it, which may be its own.
    begins: Vec<usize>,

    /// From this place on, all entries of the way were looked at.
    end: usize,

    /// For each number, at its own place, where it stands.
    places: Vec<Place>,

    /// For each number, at its own place, how many of its entries were looked at.
    looked: Vec<usize>,

    /// The lowest number that was found on a loop.
    lowest: Option<u32>,
}

fn is_in_use(cat: &Cat, fid: Fid) -> bool
    ensures { result ≡ is_some (in_use cat.now fid) }
{
    match file_at(cat, fid.num) {
        Some(file) => file.seq == fid.seq,
        None => false,
    }
}

/// Whether a chain goes on from directory n by this entry: it names a file in use, and is not the master file directory's
/// own.
#[tactic(auto, unfolding(crate::specs::Reaching::is_step))]
fn is_step(cat: &Cat, n: u32, e: &DirEnt) -> bool
    ensures { result ≡ is_step cat.now n e.now }
{
    is_in_use(cat, e.fid) && !(n == 4 && is_system_entry(4, e))
}

/// Puts a number on the way, behind all others.
fn push(walk: &mut Walk, n: u32) -> Result<(), NoMemory>
    requires { n < length walk.old.places.items }
    ensures { OnOk result (IsPushed n walk.old walk.new) }
{
    let place = walk.way.len();
    walk.way.push(n)?;
    walk.begins.push(place)?;
    walk.places[n as usize] = Place::At(place);
    walk.end = place + 1;
    Ok(())
}

/// The lower of a number and one that was found, if one was.
fn lower(lowest: Option<u32>, n: u32) -> Option<u32>
    ensures { IsLowered n lowest result }
{
    match lowest {
        Some(m) if m <= n => Some(m),
        _ => Some(n),
    }
}

/// Joins all of the way from a place on to one loop, which begins where that through this place does.
fn join(begins: &mut [usize], place: usize)
    requires { place < length begins.old }
    ensures { IsJoined place begins.old begins.new }
{
    let begin = begins[place];
    for i in place..begins.len() {
        begins[i] = begin;
    }
}

/// Goes back to a number of the way, which an entry of number n at the end leads to.
fn go_back(walk: &mut Walk, n: u32, place: usize)
    requires there { place < length walk.old.begins.items }
    requires end { walk.old.end ≤ length walk.old.begins.items }
    ensures { IsBack n place walk.old walk.new }
{
    if place + 1 == walk.end {
        walk.lowest = lower(walk.lowest, n);
    }
    if place < walk.begins[walk.begins.len() - 1] {
        join(&mut walk.begins, place);
    }
}

/// Goes to a number, which an entry of number n at the end leads to. True where it is new: then it is the end.
fn go(walk: &mut Walk, n: u32, to: u32) -> Result<bool, NoMemory>
    requires places { to < length walk.old.places.items }
    requires begins { (p : ℕ) → place_of walk.old to ≡ Place.At p → p < length walk.old.begins.items }
    requires end { walk.old.end ≤ length walk.old.begins.items }
    ensures { IfOk result (IsGone n to walk.old walk.new (place_of walk.old to)) }
{
    match walk.places[to as usize] {
        Place::New => {
            push(walk, to)?;
            Ok(true)
        }
        Place::At(place) => {
            go_back(walk, n, place);
            Ok(false)
        }
        Place::Closed => Ok(false),
    }
}

/// Goes where an entry of directory n leads, which stands at the end of the way. True where that is a new number, which is the
/// end then.
fn go_along(cat: &Cat, walk: &mut Walk, n: u32, e: &DirEnt) -> Result<bool, NoMemory>
    requires walk { IsWalk cat.now walk.old }
    requires end { IsAtEnd n walk.old }
    requires next { slice_get (entries_of cat.now n) (looked_at walk.old n) ≡ Some e.now }
    ensures { IfOk result (IsAlong cat.now n e.now walk.old walk.new) }
{
    if is_step(cat, n, e) {
        go(walk, n, e.fid.num)
    } else {
        Ok(false)
    }
}

/// Counts an entry that was looked at.
fn count(walk: &mut Walk, n: u32)
    requires inside { n < length walk.old.looked.items }
    requires small { looked_at walk.old n < 2 ^ 63 }
    ensures { IsOneMore n walk.old walk.new }
{
    walk.looked[n as usize] += 1;
}

/// Looks at the next entry of directory n, which stands at the end of the way. True where it leads to a new number, which is
/// the end then.
fn look(cat: &Cat, walk: &mut Walk, n: u32, e: &DirEnt) -> Result<bool, NoMemory>
    requires walk { IsWalk cat.now walk.old }
    requires end { IsAtEnd n walk.old }
    requires next { slice_get (entries_of cat.now n) (looked_at walk.old n) ≡ Some e.now }
    requires small { looked_at walk.old n < 2 ^ 63 }
    ensures { IfOk result (IsLooked cat.now n walk.old walk.new) }
{
    let found = go_along(cat, walk, n, e)?;
    count(walk, n);
    Ok(found)
}

/// All entries of the directory at the end were looked at: the end is before it.
fn shorten(walk: &mut Walk)
    requires { 0 < walk.old.end }
    ensures { IsShortened walk.old walk.new }
{
    walk.end -= 1;
}

/// Looks at the entries of the directory at the end, up to one that leads to a new number.
fn advance(cat: &Cat, walk: &mut Walk) -> Result<(), NoMemory>
    requires walk { IsWalk cat.now walk.old }
    requires end { begin_at walk.old (length walk.old.way.items - 1) < walk.old.end }
    ensures { OnOk result (IsFurther cat.now walk.old walk.new) }
{
    let n = walk.way[walk.end - 1];
    let entries = entries_of(cat, n);
    while walk.looked[n as usize] < entries.len() {
        let next = walk.looked[n as usize];
        if look(cat, walk, n, &entries[next])? {
            return Ok(());
        }
    }
    shorten(walk);
    Ok(())
}

/// Closes numbers.
fn close_all(places: &mut [Place], numbers: &[u32])
    requires { All (λ (n : ℕ). n < length places.old) numbers.now }
    ensures { AreClosed numbers.now places.old places.new }
{
    for n in numbers {
        places[*n as usize] = Place::Closed;
    }
}

/// The lowest of numbers and of one that was found, if one was.
fn lowest_of(found: Option<u32>, numbers: &[u32]) -> Option<u32>
    ensures { AreLowered numbers.now found result }
{
    let mut lowest = found;
    for n in numbers {
        lowest = lower(lowest, *n);
    }
    lowest
}

/// Takes the last loop off the way, which begins at this place. All chains from it were followed. It is none where it has one
/// number, which was noted before if it leads to itself.
fn close(walk: &mut Walk, begin: usize)
    requires all { All (λ (n : ℕ). n < length walk.old.places.items) walk.old.way.items }
    requires begin { begin < length walk.old.way.items }
    ensures { IsShorter begin walk.old walk.new }
{
    close_all(&mut walk.places, &walk.way[begin..]);
    if begin + 1 < walk.way.len() {
        walk.lowest = lowest_of(walk.lowest, &walk.way[begin..]);
    }
    walk.way.truncate(begin);
    walk.begins.truncate(begin);
}

/// Follows all chains from the numbers of the way, until none is left on it.
fn follow(cat: &Cat, walk: &mut Walk) -> Result<(), NoMemory>
    requires { IsWalk cat.now walk.old }
    ensures walk { OnOk result (IsWalk cat.now walk.new) }
    ensures none { OnOk result (walk.new.way.items ≡ []) }
    ensures kept { OnOk result (AreKept walk.old walk.new) }
{
    while !walk.way.is_empty() {
        let begin = walk.begins[walk.begins.len() - 1];
        if walk.end == begin {
            close(walk, begin);
        } else {
            advance(cat, walk)?;
        }
    }
    Ok(())
}

/// A walk that has not begun.
fn no_walk(alloc: Global, cat: &Cat) -> Result<Walk, NoMemory>
    requires { length cat.now.files ≤ 4096 }
    ensures walk { IfOk result (IsWalk cat.now) }
    ensures none { IfOk result (λ walk. walk.way.items ≡ []) }
{
    let numbers = cat.files.items().len() + 1;
    Ok(Walk {
        way: Vec::new(alloc),
        begins: Vec::new(alloc),
        end: 0,
        places: vec![in alloc; Place::New; numbers]?,
        looked: vec![in alloc; 0; numbers]?,
        lowest: None,
    })
}

/// Follows all chains from a number, where none has led to it yet.
fn begin(cat: &Cat, walk: &mut Walk, n: u32) -> Result<(), NoMemory>
    requires walk { IsWalk cat.now walk.old }
    requires none { walk.old.way.items ≡ [] }
    requires number { n ≤ length cat.now.files }
    ensures walk { OnOk result (IsWalk cat.now walk.new) }
    ensures none { OnOk result (walk.new.way.items ≡ []) }
    ensures kept { OnOk result (AreKept walk.old walk.new) }
    ensures begun { OnOk result (is_new (place_of walk.new n) ≡ false) }
{
    if let Place::New = walk.places[n as usize] {
        push(walk, n)?;
        follow(cat, walk)?;
    }
    Ok(())
}

/// The lowest number on a loop.
fn lowest_on_loop(alloc: Global, cat: &Cat) -> Result<Option<u32>, NoMemory>
    requires { length cat.now.files ≤ 4096 }
    ensures { IfOk result (IsLowestOnLoop cat.now) }
{
    let mut walk = no_walk(alloc, cat)?;
    for n in 1..cat.files.items().len() as u32 + 1 {
        begin(cat, &mut walk, n)?;
    }
    Ok(walk.lowest)
}

/// The first directory to which a chain of entries leads back, where the master file directory's own entry is left out.
pub fn first_loop(alloc: Global, cat: &Cat) -> Result<Option<Finding>, NoMemory>
    requires { length cat.now.files ≤ 4096 }
    ensures { IfOk result (λ first. IsFirstIn cat.now 15 first) }
{
    match lowest_on_loop(alloc, cat)? {
        Some(n) => Ok(Some(Finding::DirLoop(n))),
        None => Ok(None),
    }
}
