//! What a node does with the lock table.

ghost use Rattle.std.specs.Prelude.{◌≡◌, ◌≢◌, IsSome, OnOk, IfOk, OnErr, Some, false};
ghost use Rattle.lock_db.specs.Queues.{lock_of};
ghost use Rattle.lock_db.specs.Resources.{asked_answer};
ghost use Rattle.lock_db.specs.Tables.{resource_at, converted, released};
ghost use Rattle.node_locks.specs.Held.{system_of, has_lock, waits_at};
ghost use Rattle.node_locks.specs.Sequences.{raised_block};
ghost use Rattle.node_locks.specs.Taking.{taken, taken_now, MayTake};

use crate::sequences::{Raise, raised_block};
use lock_db::{Asked, LockDb, LockName, Mode, NoMemory, Owner};
use std::alloc::Global;

/// The file system of a node.
fn system_of(node: u8) -> Owner
    ensures { result ≡ system_of node }
{
    Owner { node, part: 0 }
}

/// Whether the last lock of a row of the node's file system still waits. In a row without locks nothing does.
pub fn waits(db: &LockDb, node: u8, locks: &[(LockName, Mode)]) -> bool
    ensures { result ≡ waits_at db.now node locks.now }
{
    match locks.last() {
        Some(lock) => db.queued(lock.0, system_of(node)),
        None => false,
    }
}

/// Asks for a lock of the node's file system on a name that it has none on, or one in NL, which is converted. The answer says
/// whether it is granted at once; else it stands in a queue, and `waits` says for how long. Only a new request takes memory:
/// where there is none it is an error, and the table is as it was.
pub fn take(
    alloc: Global,
    db: &mut LockDb,
    node: u8,
    name: LockName,
    mode: Mode,
) -> Result<Asked, NoMemory>
    requires { MayTake name (system_of node) db.old }
    ensures ok { OnOk result (db.new ≡ taken name (system_of node) mode db.old) }
    ensures answer { IfOk result (λ a. a ≡ asked_answer (taken_now name (system_of node) mode db.old)) }
    ensures err { OnErr result (db.new ≡ db.old) }
    ensures memory { OnErr result (has_lock name (system_of node) db.old ≡ false) }
{
    let owner = system_of(node);
    if db.mode(name, owner).is_some() {
        let (value, _) = db.value(name);
        Ok(db.convert(name, owner, mode, value))
    } else {
        db.request(alloc, name, owner, mode)
    }
}

/// Lowers a lock that the node's file system has, and of which no conversion waits, or leaves it in its mode. It takes no
/// memory. From PW or EX this writes the value block, as a release does.
pub fn lower(db: &mut LockDb, node: u8, name: LockName, low: Mode, raise: Raise)
    requires lock { IsSome (lock_of (system_of node) (resource_at name db.old).askers) }
    requires not_across { lock_of (system_of node) (resource_at name db.old).askers ≡ Some Mode.PR → low ≢ Mode.CW }
    ensures { db.new ≡ converted name (system_of node) low (raised_block name raise (resource_at name db.old)) db.old }
{
    let (value, valid) = db.value(name);
    let block = raised_block(name, value, valid, raise);
    let _granted = db.convert(name, system_of(node), low, block);
}

/// Gives back a lock that the node's file system has, and of which no conversion waits. From PW or EX this writes the value
/// block. If the lock guards blocks, both sequences are raised: each by its number, and by one at least where the block was not
/// valid. Else, on X and on the A locks, the block is left as it is. With the last lock and request on the name the block is gone: the
/// next to ask finds zeros, valid.
pub fn release(db: &mut LockDb, node: u8, name: LockName, raise: Raise)
    requires { IsSome (lock_of (system_of node) (resource_at name db.old).askers) }
    ensures { db.new ≡ released name (system_of node) (raised_block name raise (resource_at name db.old)) db.old }
{
    let (value, valid) = db.value(name);
    let block = raised_block(name, value, valid, raise);
    db.release(name, system_of(node), block);
}
