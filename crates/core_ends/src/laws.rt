//! Laws of progress: a run ends, after as many turns as its script and its nodes allow.

ghost use Rattle.core_ends.specs.Moving.{SomebodyMoves};
ghost use Rattle.core_ends.specs.Measure.{TurnsLeaveLess, StepsLeaveLess, LittleIsLeft};
ghost use Rattle.core_ends.specs.Turns.{TurnsAreEnough, StepsTakeOne, NoneIsLeft};

/// While a node is neither dead nor over, the next turn of some such node makes an event, and does not only wait.
pub fn somebody_moves()
    ensures { SomebodyMoves }
{}

/// Each turn of a node that does not only wait leaves less to be done: of the answers that are left, for each line as many events as are above
/// those of a command, and 192 for each close behind them, less the events of the command under way.
pub fn turns_leave_less()
    ensures { TurnsLeaveLess }
{}

/// So does each step that is such a turn, or the death in its place, where the world keeps the rules after it.
pub fn steps_leave_less()
    ensures { StepsLeaveLess }
{}

/// There is never more to be done than for each line and each node as many events as are above those of a command.
pub fn little_is_left()
    ensures { LittleIsLeft }
{}

/// In rotation, so many turns for each node, for each line and each node, are enough for every node to be over.
pub fn turns_are_enough()
    ensures { TurnsAreEnough }
{}

/// A step of the node that comes next leaves one turn less to be made.
pub fn steps_take_one()
    ensures { StepsTakeOne }
{}

/// Where no turn is left to be made, every node is over.
pub fn none_is_left()
    ensures { NoneIsLeft }
{}
