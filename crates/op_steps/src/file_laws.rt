//! The laws, each a statement for every value that it speaks of.

ghost use Rattle.vol_under.specs.Chains.{anywhere};
ghost use Rattle.op_steps.specs.HeadWrites.{HeadSteps, HeadGuards, HeadLeaves};
ghost use Rattle.op_steps.specs.SlotWrites.{SlotSteps};
ghost use Rattle.op_steps.specs.GrownWrites.{GrownSteps, GrownGuards, GrownLeaves, GrownFills, GrownKeepsOut, GrownEnds};
ghost use Rattle.op_steps.specs.MarkWrites.{MarkedSteps, SizedSteps};
ghost use Rattle.op_steps.specs.GoneWrites.{FreedSteps, FreedGuards, FreedLeaves, FreedFills, FreedLeavesFew, FreedEnds, CutSteps, CutGuards, CutLeaves, CutFills, CutLeavesFew, CutEnds};

/// The write of a block that reads as a file's header is a step, whatever stage it leaves: the file's header is then this block, its
/// blocks are those that the block names, and each other file is as it was. So are the writes behind it that are steps on what it
/// leaves.
pub fn head_steps()
    ensures { HeadSteps anywhere }
{}

/// The write is under the lock of the file, which guards the block.
pub fn head_guards()
    ensures { HeadGuards }
{}

/// It leaves the runs of each directory, where it leaves those of this file, or the file is no directory, or its slot becomes free.
pub fn head_leaves()
    ensures { HeadLeaves }
{}

/// The write of a header slot that is no file's is a step that changes no file.
pub fn slot_steps()
    ensures { SlotSteps anywhere }
{}

/// The headers of a file that gets clusters are steps: a new header, where one is needed, the last one, and the first one, with which
/// the file is grown by the clusters that the command has outside, so that what it shows is what it showed, and nothing is outside.
pub fn grown_steps()
    ensures { GrownSteps anywhere }
{}

/// Each of them is under the lock of its own number, which guards the slot.
pub fn grown_guards()
    ensures { GrownGuards }
{}

/// They leave the runs of each directory.
pub fn grown_leaves()
    ensures { GrownLeaves }
{}

/// Each is in the slot of a number that is the file's, or that was given.
pub fn grown_fills()
    ensures { GrownFills }
{}

/// What is outside behind each of them is what was given, or nothing.
pub fn grown_keeps_out()
    ensures { GrownKeepsOut }
{}

/// Behind the last one it is nothing, and the command is done.
pub fn grown_ends()
    ensures { GrownEnds }
{}

/// The header that is marked for delete is a step: the file is then marked, and all else of it is as it was.
pub fn marked_steps()
    ensures { MarkedSteps anywhere }
{}

/// The header with another mark and end is a step: the file is then the same, but for these and for what its blocks show by the mark.
pub fn sized_steps()
    ensures { SizedSteps anywhere }
{}

/// The slots of a file's headers that become free are steps: with the first one no file has the number, and the file's clusters and
/// the numbers of its headers are outside at the node; behind the last one all these slots are free.
pub fn freed_steps()
    ensures { FreedSteps anywhere }
{}

/// Each of them is under the lock of its own number, which guards the slot.
pub fn freed_guards()
    ensures { FreedGuards }
{}

/// They leave the runs of each directory, but for those of a slot that becomes free.
pub fn freed_leaves()
    ensures { FreedLeaves }
{}

/// Each is in the slot of a number that is the file's.
pub fn freed_fills()
    ensures { FreedFills }
{}

/// Each leaves no more numbers outside than a file may have headers.
pub fn freed_leaves_few()
    ensures { FreedLeavesFew }
{}

/// They leave the stage at which the file has gone.
pub fn freed_ends()
    ensures { FreedEnds }
{}

/// The headers of a file that loses clusters are steps: with the first one the file is cut to its first clusters, and the others, and
/// the numbers of the headers that go, are outside at the node; behind the last one the slots of these numbers are free.
pub fn cut_steps()
    ensures { CutSteps anywhere }
{}

/// Each of them is under the lock of its own number, which guards the slot.
pub fn cut_guards()
    ensures { CutGuards }
{}

/// They leave the runs of each directory.
pub fn cut_leaves()
    ensures { CutLeaves }
{}

/// Each is in the slot of a number that is the file's.
pub fn cut_fills()
    ensures { CutFills }
{}

/// Each leaves no more numbers outside than a file may have headers.
pub fn cut_leaves_few()
    ensures { CutLeavesFew }
{}

/// They leave the stage at which the file is cut.
pub fn cut_ends()
    ensures { CutEnds }
{}
