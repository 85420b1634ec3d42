//! The laws, each a statement for every value that it speaks of.

ghost use Rattle.vol_under.specs.Chains.{anywhere};
ghost use Rattle.op_steps.specs.RowWrites.{RowSteps, RowGuards};
ghost use Rattle.op_steps.specs.NewRows.{NewRowSteps, NewRowGuards};
ghost use Rattle.op_steps.specs.FileWrites.{FileSteps, FileGuards};
ghost use Rattle.op_steps.specs.EntryWrites.{EntrySteps, EntryGuards};
ghost use Rattle.op_steps.specs.RemovalWrites.{RemovalSteps, RemovalGuards};

/// The writes of a new file are steps: a directory's own blocks, in clusters that the node has outside, and then the header under
/// the number that it has outside. After them the file has those clusters and that number, the command has nothing outside, and
/// each other file is as it was. So are the writes behind them that are steps on what they leave.
pub fn file_steps()
    ensures { FileSteps anywhere }
{}

/// Each write of a new file is under the lock of its number, which guards the block, unless the node has the block outside.
pub fn file_guards()
    ensures { FileGuards }
{}

/// The writes that enter an entry into a directory are steps of a plan: all but the last leave the directory's entries as they
/// are. So are the writes behind them that are steps on what they leave.
pub fn entry_steps()
    ensures { EntrySteps anywhere }
{}

/// Each of those writes is under the directory's lock, which guards the block.
pub fn entry_guards()
    ensures { EntryGuards }
{}

/// The writes that remove an entry from a directory are steps of a plan: those that pack the directory's entries leave them as
/// they are, and from the next one on the directory has the others. So are the writes behind them that are steps on what they
/// leave.
pub fn removal_steps()
    ensures { RemovalSteps anywhere }
{}

/// Each of those writes is under the directory's lock, which guards the block.
pub fn removal_guards()
    ensures { RemovalGuards }
{}

/// The write that changes an owner's quota row is a step, and so are the writes behind it that are steps on what it leaves. Where
/// the owner has no row there is no write, and the catalogue is the same.
pub fn row_steps()
    ensures { RowSteps anywhere }
{}

/// The write of an owner's quota row is under the lock Q, which guards the block.
pub fn row_guards()
    ensures { RowGuards }
{}

/// The write that makes the first quota row that is not active that of an owner without a row is a step, and so are the writes
/// behind it that are steps on what it leaves. Behind it the catalogue has that row more, in order of owner.
pub fn new_row_steps()
    ensures { NewRowSteps anywhere }
{}

/// The write of a new quota row is under the lock Q, which guards the block.
pub fn new_row_guards()
    ensures { NewRowGuards }
{}
