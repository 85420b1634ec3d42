//! The calls on one home's table.

ghost use Rattle.std.specs.Prelude.{◌≡◌, ◌&&◌, length, replicate, [], OnOk, IfOk, is_some};
ghost use Rattle.std.specs.List.{list_any};
ghost use Rattle.lock_db.specs.Queues.{mode_of, standing_of};
ghost use Rattle.lock_db.specs.Tables.{resource_at};
ghost use Rattle.dlm_core.specs.Deaths.{bereft_table, bereft_tables};
ghost use Rattle.dlm_core.specs.Recoveries.{made_again};
ghost use Rattle.dlm_core.specs.Steps.{ask_fits, ask_made, drop_made, stands_there};

use crate::holds::{Hold, crosses};
use crate::homes::Home;
use crate::messages::Message;
use lock_db::{LockDb, LockName, Mode, NoMemory, Owner};
use std::alloc::Global;

/// As many tables as there are nodes.
pub(crate) fn new_tables(alloc: Global, nodes: u8) -> Result<Vec<LockDb>, NoMemory>
    ensures { IfOk result (λ t. t.items ≡ replicate nodes []) }
{
    let mut tables = Vec::new(alloc);
    for _ in 0..nodes {
        tables.push(LockDb::new(alloc)?)?;
    }
    Ok(tables)
}

pub(crate) fn copy_tables(alloc: Global, tables: &[LockDb]) -> Result<Vec<LockDb>, NoMemory>
    ensures { IfOk result (λ t. t.items ≡ tables.now) }
{
    let mut all = Vec::new(alloc);
    for t in tables {
        all.push(t.copy(alloc)?)?;
    }
    Ok(all)
}

/// Whether an ask can be taken: its owner does not wait, and it is not between CW and PR.
fn ask_fits(table: &LockDb, owner: Owner, name: LockName, old: Option<Mode>, mode: Mode) -> bool
    ensures { result ≡ ask_fits owner name old mode table.now }
{
    !table.queued(name, owner) && !crosses(old, mode)
}

/// The table takes an ask: a conversion where the owner has a lock, else a request.
pub(crate) fn make_ask(
    alloc: Global,
    table: &mut LockDb,
    m: Message,
    old: Option<Mode>,
    mode: Mode,
) -> Result<(), NoMemory>
    requires { old ≡ mode_of m.owner (resource_at m.name table.old).askers }
    ensures { OnOk result (table.new ≡ ask_made m old mode table.old) }
{
    if ask_fits(table, m.owner, m.name, old, mode) {
        if old.is_some() {
            let _answer = table.convert(m.name, m.owner, mode, m.value);
        } else {
            let _answer = table.request(alloc, m.name, m.owner, mode)?;
        }
    }
    Ok(())
}

/// The same, and then the name has the value block of the message, with this mark.
#[tactic(auto, using(crate::proofs::Others::used_made))]
pub(crate) fn make_again(
    alloc: Global,
    table: &mut LockDb,
    m: Message,
    old: Option<Mode>,
    mode: Mode,
    valid: bool,
) -> Result<(), NoMemory>
    requires { old ≡ mode_of m.owner (resource_at m.name table.old).askers }
    ensures { OnOk result (table.new ≡ made_again valid m old mode table.old) }
{
    make_ask(alloc, table, m, old, mode)?;
    table.recover(m.name, m.value, valid);
    Ok(())
}

/// The table takes a drop: a release, where the owner has a lock and does not wait.
pub(crate) fn make_drop(table: &mut LockDb, m: Message, old: Option<Mode>)
    requires { old ≡ mode_of m.owner (resource_at m.name table.old).askers }
    ensures { table.new ≡ drop_made m old table.old }
{
    if !table.queued(m.name, m.owner) && old.is_some() {
        table.release(m.name, m.owner, m.value);
    }
}

/// Whether an owner has a lock or a request on a name.
fn stands(table: &LockDb, name: LockName, owner: Owner) -> bool
    ensures { result ≡ is_some (standing_of owner (resource_at name table.now).askers) }
{
    table.queued(name, owner) || table.mode(name, owner).is_some()
}

fn stands_there(table: &LockDb, name: LockName, hold: Hold) -> bool
    ensures { result ≡ stands_there name table.now hold }
{
    hold.name == name && stands(table, name, hold.owner)
}

/// Whether somebody of these has a lock or a request on a name.
pub(crate) fn is_in_use(table: &LockDb, name: LockName, holds: &[Hold]) -> bool
    ensures { result ≡ list_any (stands_there name table.now) holds.now }
{
    for h in holds {
        if stands_there(table, name, *h) {
            return true;
        }
    }
    false
}

/// The table of a home after a death.
fn bereft_table(alloc: Global, dead: u8, home: Home, table: &LockDb) -> Result<LockDb, NoMemory>
    ensures { IfOk result (λ t. t ≡ bereft_table dead home table.now) }
{
    if home.master == dead {
        return LockDb::new(alloc);
    }
    let mut left = table.copy(alloc)?;
    left.drop_node(dead);
    Ok(left)
}

/// The tables after a death: those of the dead node's homes are lost, and from the others its locks and requests are dropped.
#[tactic(auto, using(crate::proofs::Placing::bereft_all))]
pub(crate) fn bereft_tables(
    alloc: Global,
    dead: u8,
    homes: &[Home],
    tables: &[LockDb],
) -> Result<Vec<LockDb>, NoMemory>
    requires { length homes.now ≡ length tables.now }
    ensures { IfOk result (λ t. t.items ≡ bereft_tables dead homes.now tables.now) }
{
    let mut all = Vec::new(alloc);
    for i in 0..tables.len() {
        all.push(bereft_table(alloc, dead, homes[i], &tables[i])?)?;
    }
    Ok(all)
}
