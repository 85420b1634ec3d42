//! The laws, each a statement for every value that it speaks of.

ghost use Rattle.vol_under.specs.Chains.{anywhere};
ghost use Rattle.op_steps.specs.BlockWrites.{BlockSteps, WriteSteps, WriteGuards, WriteLeaves, WriteFills};

/// The write of a block of a file that is no directory is a step, whatever stage it leaves: at or above the file's mark it does not
/// show, and below it, or where there is none, it shows alone. So are the writes behind it that are steps on what it leaves.
pub fn block_steps()
    ensures { BlockSteps anywhere }
{}

/// The writes that write a virtual block are steps: zeros from the mark on, the block, and the header with the mark and the end
/// behind it, each where it is needed. At their end the file is as the plain volume has it.
pub fn write_steps()
    ensures { WriteSteps anywhere }
{}

/// The lock of the file guards each of them.
pub fn write_guards()
    ensures { WriteGuards }
{}

/// They leave the runs of each directory.
pub fn write_leaves()
    ensures { WriteLeaves }
{}

/// A header that is written is in the slot of the file's number.
pub fn write_fills()
    ensures { WriteFills }
{}
