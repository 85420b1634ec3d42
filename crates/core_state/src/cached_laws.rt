//! The laws, each a statement for every value that it speaks of.

ghost use Rattle.core_state.specs.Staying.{DirsStay, SpacesStay, DeathsStay, HeadsLeft, GuardedOrFreed};
ghost use Rattle.core_state.specs.Committed.{AlikeOn, WriteOn, LookOn, PlanOn, QuietOn, LocksOn, OpensOn, CommitOn, AnswerOn, BitsKeepOn};

/// From blocks that spell a catalogue to blocks that spell another, where headers leave the runs of directories: a block that may be
/// cached stays so, and under its lock, or that is the lock of a directory whose slot has become free.
pub fn dirs_stay()
    ensures { DirsStay }
{}

/// It stays so where a node takes free clusters, or gives clusters back.
pub fn spaces_stay()
    ensures { SpacesStay }
{}

/// It stays so where what was outside at a node that has died is leaked.
pub fn deaths_stay()
    ensures { DeathsStay }
{}

/// Nodes that are alike one by one have the same drive, over the same committed blocks.
pub fn alike_on()
    ensures { AlikeOn }
{}

/// The next write of a node's plan leaves the committed blocks and their owners.
pub fn write_on()
    ensures { WriteOn }
{}

/// So does a look at a block whose lock the node holds.
pub fn look_on()
    ensures { LookOn }
{}

/// So does a plan.
pub fn plan_on()
    ensures { PlanOn }
{}

/// So does a change of a node that has no plan before it, nor after it.
pub fn quiet_on()
    ensures { QuietOn }
{}

/// So does a change of a node's locks.
pub fn locks_on()
    ensures { LocksOn }
{}

/// So does what the channels have open.
pub fn opens_on()
    ensures { OpensOn }
{}

/// A commit leaves the blocks with the node's writes, and the owners that they make.
pub fn commit_on()
    ensures { CommitOn }
{}

/// So does an answer, with the catalogue in which the command has happened.
pub fn answer_on()
    ensures { AnswerOn }
{}

/// A bitmap write is committed at once, and owners move between what is free and what is outside at its node.
pub fn bits_keep_on()
    ensures { BitsKeepOn }
{}

/// Writes of a plan that leave the runs of directories leave each header so.
pub fn heads_left()
    ensures { HeadsLeft }
{}

/// After the writes of a plan a block that may be cached stays so, and under its lock, or one of them has freed the slot of its
/// directory under that lock.
pub fn guarded_or_freed()
    ensures { GuardedOrFreed }
{}
