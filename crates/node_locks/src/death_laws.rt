//! Laws of a death: what it leaves of the lock table and of its value blocks.

ghost use Rattle.std.specs.Prelude.{◌≡◌, ◌≢◌, ◌≤◌, ℕ, List, Some, None};
ghost use Rattle.plain_cat.specs.declared.mode.Mode.{Mode};
ghost use Rattle.lock_db.specs.declared.name.LockName.{LockName};
ghost use Rattle.lock_db.specs.declared.name.Owner.{Owner};
ghost use Rattle.lock_db.specs.declared.askers.Standing.TheVariants.{Granted};
ghost use Rattle.lock_db.specs.declared.resource.Resource.{Resource};
ghost use Rattle.lock_db.specs.Tables.{IsTable, resource_at, dropped};
ghost use Rattle.lock_db.specs.Laws.{stands_at};
ghost use Rattle.node_locks.specs.Sequences.{first_sequence, second_sequence};

/// After the death of a node the lock table keeps its rules.
pub fn deaths_keep_the_table()
    ensures { (n : ℕ) (t : List Resource) → IsTable t → IsTable (dropped n t) }
{}

/// An owner of another node keeps each lock that it has, and one that has asked for nothing has nothing; the node's own owners have
/// nothing any more.
pub fn deaths_leave_other_owners()
    ensures granted { (name : LockName) (n : ℕ) (owner : Owner) (mode : Mode) (t : List Resource) → IsTable t → owner.node ≢ n → stands_at name owner t ≡ Some (Granted mode) → stands_at name owner (dropped n t) ≡ Some (Granted mode) }
    ensures nothing { (name : LockName) (n : ℕ) (owner : Owner) (t : List Resource) → IsTable t → owner.node ≢ n → stands_at name owner t ≡ None → stands_at name owner (dropped n t) ≡ None }
    ensures own { (name : LockName) (n : ℕ) (owner : Owner) (t : List Resource) → IsTable t → owner.node ≡ n → stands_at name owner (dropped n t) ≡ None }
{}

/// No sequence of a value block is raised: the bytes stay, or with the last lock and request the block goes, and a new one has zeros.
pub fn deaths_raise_nothing()
    ensures first { (name : LockName) (n : ℕ) (t : List Resource) → IsTable t → first_sequence (resource_at name (dropped n t)).value ≤ first_sequence (resource_at name t).value }
    ensures second { (name : LockName) (n : ℕ) (t : List Resource) → IsTable t → second_sequence (resource_at name (dropped n t)).value ≤ second_sequence (resource_at name t).value }
{}
