//! The steps on the table: the one on the resource of a name, in its place.

ghost use Rattle.std.specs.Prelude.{◌≡◌, IfOk, OnOk, OnErr, IfSome, IsSome, IsTrue, MatchResult, Some, None, Ok, Err, map, filter, find, take, drop, length, slice_index_or, option_copied, false, ◌<◌, ◌+◌, ◌++◌};
ghost use Rattle.std.specs.Bool.{OnTrue};
ghost use Rattle.lock_db.specs.declared.resource.Resource.{Resource};
ghost use Rattle.lock_db.specs.Names.{is_same};
ghost use Rattle.lock_db.specs.Queues.{lock_of};
ghost use Rattle.lock_db.specs.Resources.{is_used, goes_at_once, asked_answer, tried_answer, dropped_of};
ghost use Rattle.lock_db.specs.Tables.{resource_at, kept, IsAt, IsGap, is_ordered, asked, tried, converts_now, converted, try_converted, released, dropped, recovered};

use crate::askers::Asker;
use crate::name::{LockName, Owner};
use crate::resource::{
    Asked, Resource, Tried, converts_at_once, goes_at_once, mode_held, tried_answer,
};
use plain_cat::{Mode, NoMemory};
use std::alloc::Global;

/// Whether the resource of the name stands at this place.
fn is_at(table: &[Resource], i: usize, name: LockName) -> bool
    ensures { OnTrue result (IsAt name table.now i) }
{
    i < table.len() && table[i].name == name
}

/// The first of these two places at which the resource of the name stands.
fn one_of(table: &[Resource], name: LockName, i: usize, j: usize) -> Option<usize>
    ensures { IfSome result (λ i. IsAt name table.now i) }
{
    if is_at(table, i, name) {
        return Some(i);
    }
    if is_at(table, j, name) {
        return Some(j);
    }
    None
}

/// Where the resource of the name stands, if it is one of the first two or of the last two. Those that are looked for most stand there:
/// the main directory, and X and V.
fn near_end(table: &[Resource], name: LockName) -> Option<usize>
    ensures { IfSome result (λ i. IsAt name table.now i) }
{
    if matches!(name, LockName::S(_)) {
        return one_of(table, name, 0, 1);
    }
    let last = table.len().saturating_sub(1);
    one_of(table, name, last, last.saturating_sub(1))
}

/// Where the resource of the name stands, or where it would.
fn search(table: &[Resource], name: LockName) -> Result<usize, usize>
    requires { IsTrue (is_ordered table.now) }
    ensures { MatchResult result (IsAt name table.now) (IsGap name table.now) }
{
    if let Some(i) = near_end(table, name) {
        return Ok(i);
    }
    table.binary_search_by(|r| r.name.order(name))
}

/// The resource of the name, where somebody asks for it.
pub(crate) fn find(table: &[Resource], name: LockName) -> Option<&Resource>
    requires { IsTrue (is_ordered table.now) }
    ensures { option_copied result ≡ find (λ r. is_same r.name name) table.now }
{
    match search(table, name) {
        Ok(i) => Some(&table[i]),
        Err(_) => None,
    }
}

/// Who asks for the resource of the name.
pub(crate) fn askers(table: &[Resource], name: LockName) -> &[Asker]
    requires { IsTrue (is_ordered table.now) }
    ensures { result.now ≡ (resource_at name table.now).askers }
{
    match find(table, name) {
        Some(r) => r.askers.list(),
        None => &[],
    }
}

pub(crate) fn ask(
    alloc: Global,
    table: &mut Vec<Resource>,
    name: LockName,
    owner: Owner,
    mode: Mode,
) -> Result<Asked, NoMemory>
    requires { IsTrue (is_ordered table.old.items) }
    ensures ok { OnOk result (table.new.items ≡ asked name owner mode table.old.items) }
    ensures answer { IfOk result
        (λ a. a ≡ asked_answer (goes_at_once owner mode (resource_at name table.old.items).askers)) }
    ensures err { OnErr result (table.new.items ≡ table.old.items) }
{
    match search(table, name) {
        Ok(i) => {
            let r = &mut table[i];
            r.ask(owner, mode)
        }
        Err(i) => {
            let mut r = Resource::new(alloc, name);
            let answer = r.ask(owner, mode)?;
            table.insert(i, r)?;
            Ok(answer)
        }
    }
}

#[tactic(auto, unfolding(crate::specs::Tables::tried))]
pub(crate) fn try_ask(
    alloc: Global,
    table: &mut Vec<Resource>,
    name: LockName,
    owner: Owner,
    mode: Mode,
) -> Result<Tried, NoMemory>
    requires { IsTrue (is_ordered table.old.items) }
    ensures ok { OnOk result (table.new.items ≡ tried name owner mode table.old.items) }
    ensures answer { IfOk result
        (λ a. a ≡ tried_answer (goes_at_once owner mode (resource_at name table.old.items).askers)) }
    ensures refused { goes_at_once owner mode (resource_at name table.old.items).askers ≡ false
        → result ≡ Ok Tried.NotQueued }
    ensures err { OnErr result (table.new.items ≡ table.old.items) }
{
    if !goes_at_once(owner, mode, askers(table, name)) {
        return Ok(Tried::NotQueued);
    }
    ask(alloc, table, name, owner, mode)?;
    Ok(Tried::Granted)
}

pub(crate) fn convert(
    table: &mut [Resource],
    name: LockName,
    owner: Owner,
    mode: Mode,
    value: [u8; 16],
) -> Asked
    requires ordered { IsTrue (is_ordered table.old) }
    requires lock { IsSome (lock_of owner (resource_at name table.old).askers) }
    ensures after { table.new ≡ converted name owner mode value table.old }
    ensures answer { result ≡ asked_answer (converts_now name owner mode table.old) }
{
    let Ok(i) = search(table, name) else {
        unreachable!()
    };
    let r = &mut table[i];
    r.convert(owner, mode, value)
}

pub(crate) fn try_convert(table: &mut [Resource], name: LockName, owner: Owner, mode: Mode) -> Tried
    requires ordered { IsTrue (is_ordered table.old) }
    requires lock { IsSome (lock_of owner (resource_at name table.old).askers) }
    ensures after { table.new ≡ try_converted name owner mode table.old }
    ensures answer { result ≡ tried_answer (converts_now name owner mode table.old) }
{
    let Ok(i) = search(table, name) else {
        unreachable!()
    };
    let r = &mut table[i];
    r.try_convert(owner, mode)
}

/// Leaves the resource out where nobody asks for it any more.
fn vacate(table: &mut Vec<Resource>, i: usize)
    requires { i < length table.old.items }
    ensures { (d : Resource) → table.new.items
        ≡ take i table.old.items ++ (kept (slice_index_or table.old.items i d) ++ drop (i + 1) table.old.items) }
{
    if !table[i].is_used() {
        table.remove(i);
    }
}

pub(crate) fn release(table: &mut Vec<Resource>, name: LockName, owner: Owner, value: [u8; 16])
    requires ordered { IsTrue (is_ordered table.old.items) }
    requires lock { IsSome (lock_of owner (resource_at name table.old.items).askers) }
    ensures { table.new.items ≡ released name owner value table.old.items }
{
    let Ok(i) = search(table, name) else {
        unreachable!()
    };
    let r = &mut table[i];
    r.release(owner, value);
    vacate(table, i);
}

pub(crate) fn recover(table: &mut [Resource], name: LockName, value: [u8; 16], valid: bool)
    requires ordered { IsTrue (is_ordered table.old) }
    requires used { IsTrue (is_used (resource_at name table.old)) }
    ensures { table.new ≡ recovered name value valid table.old }
{
    let Ok(i) = search(table, name) else {
        unreachable!()
    };
    let r = &mut table[i];
    r.recover(value, valid);
}

/// The same resources once more.
pub(crate) fn copy(alloc: Global, table: &[Resource]) -> Result<Vec<Resource>, NoMemory>
    ensures { IfOk result (λ t. t.items ≡ table.now) }
{
    let mut all = Vec::new(alloc);
    for r in table {
        all.push(r.copy(alloc)?)?;
    }
    Ok(all)
}

fn drop_from_all(table: &mut [Resource], node: u8)
    ensures { table.new ≡ map (dropped_of node) table.old }
{
    for r in table.iter_mut() {
        r.drop_node(node);
    }
}

#[tactic(auto, unfolding(crate::specs::Tables::dropped))]
pub(crate) fn drop_node(table: &mut Vec<Resource>, node: u8)
    ensures { table.new.items ≡ dropped node table.old.items }
{
    drop_from_all(table, node);
    retain_used(table);
}

/// Leaves the resources out that nobody asks for any more.
fn retain_used(table: &mut Vec<Resource>)
    ensures { table.new.items ≡ filter is_used table.old.items }
{
    table.retain(|r| r.is_used());
}
