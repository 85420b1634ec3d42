//! The laws, each a statement for every value that it speaks of.

ghost use Rattle.vol_sound.specs.FixedParts.{FixedPartsAreRight};
ghost use Rattle.vol_sound.specs.Kept.{KeptIsRight};
ghost use Rattle.vol_sound.specs.Leading.{LoopsAreFound};
ghost use Rattle.vol_sound.specs.Patched.{OwnersHaveRows};
ghost use Rattle.vol_sound.specs.Unlooped.{NoLoopIsLeft};
ghost use Rattle.vol_sound.specs.Freeing.{OneIsFreed, FreeingKeeps, FreeingLeaves, FreedIsSettled};

/// Where nothing is beyond repair, the system files and the storage control block are as the structure of a volume asks. The laws of
/// slots that become free take this for granted.
pub fn fixed_parts_are_right()
    ensures { FixedPartsAreRight }
{}

/// Where slots that are not kept become free, what is told of the system files and of sound files stays, and no cut appears or grows.
pub fn slots_are_freed()
    ensures one { OneIsFreed }
    ensures told { FreeingKeeps }
    ensures blocks { FreeingLeaves }
{}

/// Once all of them are free, nothing is wrong with a header, a chain or a run, and no cluster is in two runs.
pub fn freed_is_settled()
    ensures { FreedIsSettled }
{}

/// Where nothing is beyond repair, all slots that are not kept are free, and the directories, rows and bits are as a repair wants them,
/// no finding on which the spelling of a catalogue rests holds, and the blocks tell the catalogue that the repair begins with.
pub fn kept_is_right()
    ensures { KeptIsRight }
{}

/// A directory is found on a loop exactly where a chain of entries, of any length, leads from it back to it.
pub fn loops_are_found()
    ensures { LoopsAreFound }
{}

/// Once the master file directory names itself by its own entry alone, and each other directory on a loop has lost its entries of
/// directories, no chain of entries returns.
pub fn no_loop_is_left()
    ensures { NoLoopIsLeft }
{}

/// In the catalogue that mending gets from a repair each owner of a file has a row.
pub fn owners_have_rows()
    ensures { OwnersHaveRows }
{}
