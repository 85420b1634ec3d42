//! The laws, each a statement for every value that it speaks of.

ghost use Rattle.vol_under.specs.Chains.{anywhere};
ghost use Rattle.op_steps.specs.FreeingGoneWrites.{GoneSteps, GoneGuards, GoneLeaves, GoneFills, GoneLeavesFew, GoneEnds};

/// The writes by which a file goes are steps: the slots of its headers, the bitmaps, and the row of the owner. After them the file is gone, its owner
/// is charged no more, and nothing of it is outside.
pub fn gone_steps()
    ensures { GoneSteps anywhere }
{}

/// Each of them is under the lock that guards its block: a slot under that of its number, the bitmaps under V, the row under Q.
pub fn gone_guards()
    ensures { GoneGuards }
{}

/// They leave the runs of each directory, but for this file's, whose slots become free.
pub fn gone_leaves()
    ensures { GoneLeaves }
{}

/// What they write to header slots is in the slots of the headers of the file.
pub fn gone_fills()
    ensures { GoneFills }
{}

/// Between them at most 16 file numbers are outside.
pub fn gone_leaves_few()
    ensures { GoneLeavesFew }
{}

/// After them nothing is outside.
pub fn gone_ends()
    ensures { GoneEnds }
{}
