//! The laws, each a statement for every value that it speaks of.

ghost use Rattle.vol_under.specs.Chains.{anywhere};
ghost use Rattle.op_steps.specs.BitmapWrites.{RisingClusters, StorageFrees, ClustersFree, FreeingSteps, FreeingGuards, HeldKeepsOut, FreeingEndsSo};
ghost use Rattle.op_steps.specs.Standing.{UnderLocks, UnderJoined, Guarded, OtherLocksStand, OtherFilesStand};
ghost use Rattle.op_steps.specs.TailWrites.{DischargeSteps, TailSteps, TailGuards, TailStage, TailLeavesFew, TailStands, TailEnds};

/// Clusters in rising order are the same clusters, as far as the volume has them, each once.
pub fn rising_clusters()
    ensures { RisingClusters }
{}

/// The writes of the storage bitmap make the clusters free in turn: each those that have their bits in its block, until none is
/// left.
pub fn storage_frees()
    ensures { StorageFrees }
{}

/// After the writes of the storage bitmap the bit of each of the clusters is set.
pub fn clusters_free()
    ensures { ClustersFree }
{}

/// The writes of both bitmaps are steps of a plan that has these clusters and numbers outside, if the slots of the numbers are free.
/// After them it has nothing outside, the catalogue is the same, and each file is as it was. So are the writes behind them that are
/// steps on what they leave.
pub fn freeing_steps()
    ensures { FreeingSteps anywhere }
{}

/// Each of those writes is under the lock V, which guards the block.
pub fn freeing_guards()
    ensures { FreeingGuards }
{}

/// Where V is held in PW, anything may be outside after a write, but at most 16 file numbers.
pub fn held_keeps_out()
    ensures { HeldKeepsOut }
{}

/// After those writes nothing is outside, and the stage is theirs.
pub fn freeing_ends()
    ensures { FreeingEndsSo }
{}

/// The write that charges an owner less is a step, and so are the writes behind it that are steps on what it leaves. Where the
/// owner has no row there is no write, and the catalogue is the same.
pub fn discharge_steps()
    ensures { DischargeSteps anywhere }
{}

/// The writes of the bitmaps and then that of the row, all by the blocks as they stand before the first, are steps, if the slots of
/// the numbers that are outside are free: what was outside is free then, and the owner's usage is lower. So are the writes behind
/// them that are steps on what they leave.
pub fn tail_steps()
    ensures { TailSteps anywhere }
{}

/// Each of them is under the lock that guards its block: the bitmaps under V, the row under Q.
pub fn tail_guards()
    ensures { TailGuards }
{}

/// The catalogue after them is that of the stage after them, also where the owner has no row.
pub fn tail_stage()
    ensures { TailStage }
{}

/// No more file numbers are outside between them than become free.
pub fn tail_leaves_few()
    ensures { TailLeavesFew }
{}

/// Behind writes that are under neither V nor Q, on the committed owners, these are the writes that they were: the blocks that they
/// go by stand as they were seen.
pub fn tail_stands()
    ensures { TailStands }
{}

/// After them nothing is outside.
pub fn tail_ends()
    ensures { TailEnds }
{}

/// Each kind of write is under one lock.
pub fn under_locks()
    ensures { UnderLocks }
{}

/// Writes in a row are under the locks of the first ones and those of the others.
pub fn under_joined()
    ensures { UnderJoined }
{}

/// The lock that guards a block, by what the block is.
pub fn guarded()
    ensures { Guarded }
{}

/// Writes touch no block that a lock guards under which none of them is: such a block stands as it was seen.
pub fn other_locks_stand()
    ensures { OtherLocksStand }
{}

/// So a file stands, its headers and its blocks, after writes that are all under other locks than those of its headers.
pub fn other_files_stand()
    ensures { OtherFilesStand }
{}
