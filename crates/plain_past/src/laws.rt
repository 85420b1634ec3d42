//! How histories grow, and what a node has of them: laws of the definitions, each as the contract of a function that does
//! nothing.

ghost use Rattle.plain_past.specs.Laws.{PastGrows, OwnGrows, ReplaysGrow, KilledGrows, OwnWhole, PastOfOthers, StrangersHaveNothing, OwnStrangers};

/// One entry more, and a node has what it had, and what the entry gives it.
pub fn past_grows()
    ensures { PastGrows }
{}

/// An entry of one node leaves what every other node has.
pub fn past_of_others()
    ensures { PastOfOthers }
{}

/// The answers so far are of each node's commands in their order: so they are with one more, where that is an answer of its
/// node's next command, the death of a node that lives, or a mending.
pub fn own_grows()
    ensures { OwnGrows }
{}

/// The replay of a history goes on by one entry.
pub fn replays_grow()
    ensures { ReplaysGrow }
{}

/// Nodes die only where the script kills them: so it stays with one entry more, where that is no death or one that the script
/// asks for.
pub fn killed_grows()
    ensures { KilledGrows }
{}

/// Where no node that lives has a next command, the history is whole.
pub fn own_whole()
    ensures { OwnWhole }
{}

/// A node without a line has no command: neither where no entry is its own, nor in any history of each node's commands in
/// their order.
pub fn strangers_have_nothing()
    ensures apart { StrangersHaveNothing }
    ensures own { OwnStrangers }
{}
