//! Laws on values: worked examples of deaths, on the fresh volume. Each is the contract of a function that does nothing.
//!
//! `a_create_stops` shows what the stages `charged` and `lost` leave, `a_rename_stops` that both names are there at `both`.
//! `a_death_closes_and_leaks` shows the end of an open and a leak. `nodes_give_their_own_commands` and `nodes_die_where_killed`
//! show histories that the definitions refuse.
//!
//! No crate uses them. They show a reader what the definitions of deaths say in small cases, and a change that breaks a case is
//! refused.

ghost use Rattle.rows_sample.specs.Deaths.{CreateIsCharged, CreateIsLost, RenameHasBoth, RefusedShowsNothing, DeathClosesAndLeaks, OwnByNodes, KilledByScript};

/// Of a CREATE that stops, its stages show the charge, and then the file in no directory.
pub fn a_create_stops()
    ensures charged { CreateIsCharged }
    ensures lost { CreateIsLost }
{}

/// Of a RENAME that stops between its writes both names show, and of one that is refused nothing.
pub fn a_rename_stops()
    ensures both { RenameHasBoth }
    ensures refused { RefusedShowsNothing }
{}

/// A death ends the opens of its node, and leaks what it had outside files.
pub fn a_death_closes_and_leaks()
    ensures { DeathClosesAndLeaks }
{}

/// A dead node answers nothing more, and no node answers out of its order.
pub fn nodes_give_their_own_commands()
    ensures { OwnByNodes }
{}

/// A death without a kill is none of the script.
pub fn nodes_die_where_killed()
    ensures { KilledByScript }
{}
