//! The rules of the lock manager, proved of every table: each contract here is a theorem about the definitions that the
//! calls' contracts cite, and no body does anything.

ghost use Rattle.std.specs.Prelude.{◌≡◌, List, ℕ, Some, IsTrue, Bool};
ghost use Rattle.std.specs.List.{list_any};
ghost use Rattle.plain_cat.specs.declared.mode.Mode.{Mode};
ghost use Rattle.lock_db.specs.declared.name.LockName.{LockName};
ghost use Rattle.lock_db.specs.declared.name.Owner.{Owner};
ghost use Rattle.lock_db.specs.declared.askers.Asker.{Asker};
ghost use Rattle.lock_db.specs.declared.resource.Resource.{Resource};
ghost use Rattle.lock_db.specs.Queues.{is_converting, head_of, settled};
ghost use Rattle.lock_db.specs.Tables.{IsTable, all_together, resource_at, asked, tried, converted, try_converted, released, recovered};
ghost use Rattle.lock_db.specs.Laws.{GoTogether, StandsOnce, IsHeldUp, waiting_queue, GrantsServeTheWaiting, RequestsStand, ConversionsStand, ReleasesLeaveNothing, DeathsLeaveNothing, RequestsKeepTheBlock, TriesKeepTheBlock, ConversionsWriteTheBlock, ReleasesWriteTheBlock, DeathsClearTheMark, RecoveriesWriteTheBlock, LeavesOthers, DeathLeavesOthers};

/// Any two granted locks of different owners on one name are compatible.
pub fn granted_locks_go_together()
    ensures { (t : List Resource) (name : LockName) → IsTable t → GoTogether (resource_at name t).askers }
{}

/// An owner has at most one lock or request on a name.
pub fn an_owner_stands_once()
    ensures { (t : List Resource) (name : LockName) → IsTable t → StandsOnce (resource_at name t).askers }
{}

/// Nothing that could be granted waits: who is next to be served wants a mode that does not go with a lock which another
/// owner has.
pub fn a_head_is_held_up()
    ensures { (t : List Resource) (name : LockName) (a : Asker) → IsTable t
        → head_of (resource_at name t).askers ≡ Some a → IsHeldUp (resource_at name t).askers a }
{}

/// As long as a conversion stands in its queue, no waiting request is granted.
pub fn conversions_go_first()
    ensures { (xs : List Asker) → IsTrue (all_together xs) → IsTrue (list_any is_converting (settled xs))
        → waiting_queue (settled xs) ≡ waiting_queue xs }
{}

/// A settle grants those who wait what they want, and changes nobody else.
pub fn grants_serve_the_waiting()
    ensures { GrantsServeTheWaiting }
{}

/// The answer to a request tells how its owner stands after it.
pub fn requests_stand_as_answered()
    ensures { RequestsStand }
{}

/// The answer to a conversion tells how its owner stands after it: a conversion that waits keeps its old mode.
pub fn conversions_stand_as_answered()
    ensures { ConversionsStand }
{}

/// After a release its owner has neither lock nor request on that name.
pub fn releases_leave_nothing()
    ensures { ReleasesLeaveNothing }
{}

/// After its death a node has neither lock nor request on any name.
pub fn deaths_leave_nothing()
    ensures { DeathsLeaveNothing }
{}

/// A request changes no value block.
pub fn requests_keep_the_value_block()
    ensures { RequestsKeepTheBlock }
{}

/// A conversion that does not wait changes no value block.
pub fn tries_keep_the_value_block()
    ensures { TriesKeepTheBlock }
{}

/// A conversion writes the value block exactly where it is a level or downward one from PW or EX.
pub fn conversions_write_the_value_block()
    ensures { ConversionsWriteTheBlock }
{}

/// A release writes the value block exactly where the lock was in PW or EX. With its last lock and request a resource
/// vanishes, and its block with it.
pub fn releases_write_the_value_block()
    ensures { ReleasesWriteTheBlock }
{}

/// The death of a node leaves the bytes of a value block. It leaves the mark too, but for a block whose resource the
/// node had locked in PW or EX.
pub fn deaths_clear_the_mark()
    ensures { DeathsClearTheMark }
{}

/// A recovery writes the bytes of a value block and its mark. It changes no lock and no request.
pub fn recoveries_write_the_value_block()
    ensures { RecoveriesWriteTheBlock }
{}

/// A call on one name touches no other name's locks, queues and value block.
pub fn calls_leave_other_names()
    ensures request { (name : LockName) (owner : Owner) (mode : Mode) (t : List Resource)
        → LeavesOthers name t (asked name owner mode t) }
    ensures try_request { (name : LockName) (owner : Owner) (mode : Mode) (t : List Resource)
        → LeavesOthers name t (tried name owner mode t) }
    ensures convert { (name : LockName) (owner : Owner) (mode : Mode) (value : List ℕ) (t : List Resource)
        → LeavesOthers name t (converted name owner mode value t) }
    ensures try_convert { (name : LockName) (owner : Owner) (mode : Mode) (t : List Resource)
        → LeavesOthers name t (try_converted name owner mode t) }
    ensures release { (name : LockName) (owner : Owner) (value : List ℕ) (t : List Resource)
        → LeavesOthers name t (released name owner value t) }
    ensures recover { (name : LockName) (value : List ℕ) (valid : Bool) (t : List Resource)
        → LeavesOthers name t (recovered name value valid t) }
{}

/// The death of a node touches no name at which it had no lock or request.
pub fn deaths_leave_other_names()
    ensures { DeathLeavesOthers }
{}
