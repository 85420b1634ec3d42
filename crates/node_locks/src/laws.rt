//! What holds of the nodes' locks, whatever calls come: laws of the definitions that the contracts cite, and no body does
//! anything.

ghost use Rattle.node_locks.specs.Channels.{ChannelsAsk, ChannelsConvert, ChannelsGive};
ghost use Rattle.node_locks.specs.HeldLaws.{NothingIsHeld, AskingHolds, AskingGrows, ConvertingHolds, LoweringHolds, MovingHolds, GivingHolds, FirstGoes, RestGoesOn, DyingHolds, WritersAreSole, HeldAreGranted, RowsAreGranted, RowsStandStill, RowsGoOn, AllAreHeld, MayAsk, MayChange, WhoWaitsIsHeldUp, HoldersHold};
ghost use Rattle.node_locks.specs.PuttingBack.{PuttingBackHolds};
ghost use Rattle.node_locks.specs.Sequences.{SequencesReadBack};
ghost use Rattle.node_locks.specs.Sweeping.{SweepingHolds, AllGo};
ghost use Rattle.node_locks.specs.Taking.{TakingHolds, TakingKeeps};

/// In an empty table no node has a lock.
pub fn nothing_is_held()
    ensures { NothingIsHeld }
{}

/// A node's request adds its lock as the last one of a row, and leaves how all other rows stand.
pub fn asking_holds()
    ensures { AskingHolds }
{}

/// What it holds it goes on to hold.
pub fn asking_grows()
    ensures { AskingGrows }
{}

/// The conversion of a lock in NL takes it to the end of a row, and leaves how all other rows stand: nobody is let in.
pub fn converting_holds()
    ensures { ConvertingHolds }
{}

/// A lock is asked for by a request or by a conversion from NL, and all other rows stand as they stood.
pub fn taking_holds()
    ensures { TakingHolds }
{}

/// After that the table keeps the rules.
pub fn taking_keeps()
    ensures { TakingKeeps }
{}

/// Lowering a lock takes it to the end of a row. It takes no lock from another node, and lets none wait that did not.
pub fn lowering_holds()
    ensures { LoweringHolds }
{}

/// A lock may be moved between rows that wait for nothing.
pub fn moving_holds()
    ensures { MovingHolds }
{}

/// Giving back a lock of a row leaves the node the others, granted. It takes no lock from another node, and lets none wait
/// that did not.
pub fn giving_holds()
    ensures { GivingHolds }
{}

/// All locks of a row may be put back in order, each given back or lowered and kept in the first row.
pub fn putting_back_holds()
    ensures { PuttingBackHolds }
{}

/// Some locks of a row may be given back, in order.
pub fn sweeping_holds()
    ensures { SweepingHolds }
{}

/// Where those on all of its names are, the row is empty.
pub fn all_go()
    ensures { AllGo }
{}

/// Where the first lock of a row goes, those behind it are left.
pub fn first_goes()
    ensures { FirstGoes }
{}

/// A row that waits for nothing does not wait without one of its locks.
pub fn rest_goes_on()
    ensures { RestGoesOn }
{}

/// The death of a node leaves it no lock. It takes no lock from another node, and lets none wait that did not.
pub fn dying_holds()
    ensures { DyingHolds }
{}

/// Where a node holds a lock in PW or EX, no other holds one on that name in PR or above.
pub fn writers_are_sole()
    ensures { WritersAreSole }
{}

/// The locks that a node holds are those that its file system has in the table, each in its mode, and none of which a
/// conversion waits.
pub fn held_locks_are_granted()
    ensures { HeldAreGranted }
{}

/// Those that it holds of a row are the locks of the row among these.
pub fn rows_are_granted()
    ensures { RowsAreGranted }
{}

/// A node whose rows all stand as they stood holds what it held.
pub fn rows_stand_still()
    ensures { RowsStandStill }
{}

/// A node that loses nothing of any row holds no less.
pub fn rows_go_on()
    ensures { RowsGoOn }
{}

/// A node that waits for nothing in a row holds all of it.
pub fn all_are_held_where_nothing_waits()
    ensures { AllAreHeld }
{}

/// A node may ask for a lock on a name that it has none on.
pub fn a_new_name_may_be_asked()
    ensures { MayAsk }
{}

/// A node may convert or give back a lock that it holds.
pub fn a_lock_that_is_held_may_change()
    ensures { MayChange }
{}

/// A node waits for the last lock of a row alone, and only where another has a lock on that name: one that does not go
/// with what is wanted by who is to be served next.
pub fn who_waits_is_held_up()
    ensures { WhoWaitsIsHeldUp }
{}

/// Where a node's file system has a lock in the table in more than NL, the node holds it.
pub fn holders_hold()
    ensures { HoldersHold }
{}

/// A channel's request leaves how all rows of all nodes stand.
pub fn channels_ask()
    ensures { ChannelsAsk }
{}

/// So does its conversion to EX, where that is granted at once.
pub fn channels_convert()
    ensures { ChannelsConvert }
{}

/// A channel that gives its lock back takes none from a node, and lets none wait that did not.
pub fn channels_give()
    ensures { ChannelsGive }
{}

/// The sequences of a value block that was made of two numbers of 64 bits are these numbers.
pub fn sequences_read_back()
    ensures { SequencesReadBack }
{}
