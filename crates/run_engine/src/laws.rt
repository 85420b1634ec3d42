//! Laws of walks, each as the contract of a function that does nothing.

ghost use Rattle.run_engine.specs.Laws.{OverIsWhole, OverIsSpelt, TurnsLeaveTheRest};
ghost use Rattle.run_engine.specs.Releases.{TurnsAreTwoPhase};

/// Once every node of a world is over, its history is whole: each node has answered each of its commands, in their order.
pub fn over_is_whole()
    ensures { OverIsWhole }
{}

/// Once every node of a world is over, none has a command under way: the drive spells the catalogue to which the history leads,
/// with nothing outside at any node.
pub fn over_is_spelt()
    ensures { OverIsSpelt }
{}

/// A turn, and a death in its place, leaves the script, the opening catalogue, the places of the volume's parts, and the number of nodes.
pub fn turns_leave_the_rest()
    ensures { TurnsLeaveTheRest }
{}

/// A command keeps every lock that it has taken until the turn that appends its entry to the history, and that turn gives them back: so the
/// order of the entries is the order in which commands release their locks.
pub fn turns_are_two_phase()
    ensures { TurnsAreTwoPhase }
{}
