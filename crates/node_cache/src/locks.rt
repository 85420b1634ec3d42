//! Lists of lock names, each once.

ghost use Rattle.std.specs.Prelude.{◌≡◌, OnOk};
ghost use Rattle.std.specs.List.{list_any};
ghost use Rattle.lock_db.specs.Names.{is_same};
ghost use Rattle.node_cache.specs.Cached.{joined};

use lock_db::{LockName, NoMemory};

/// Whether two names are one.
pub(crate) fn is_one(a: LockName, b: LockName) -> bool
    ensures { result ≡ is_same a b }
{
    a == b
}

/// Adds a name at the end, where it is not among them.
pub(crate) fn join(locks: &mut Vec<LockName>, lock: LockName) -> Result<(), NoMemory>
    ensures { OnOk result (locks.new.items ≡ joined lock locks.old.items) }
{
    if !contains(locks, lock) {
        locks.push(lock)?;
    }
    Ok(())
}

/// Whether the name is among these.
fn contains(locks: &[LockName], lock: LockName) -> bool
    ensures { result ≡ list_any (λ one. is_same one lock) locks.now }
{
    locks.iter().any(|one| is_one(*one, lock))
}
