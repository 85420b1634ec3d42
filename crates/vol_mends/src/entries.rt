//! Laws of mending a directory: packing, removals, and lost files that are entered.

ghost use Rattle.vol_mends.specs.Seen.{VolumeIsSeen};
ghost use Rattle.vol_mends.specs.Moving.{DirIsRead, MovesMend, DirIsPacked, EntryGoes, LostIsEntered};

/// The volume by its home block is what its geometry tells.
pub fn volume_is_seen()
    ensures { VolumeIsSeen }
{}

/// A directory of the catalogue is read of its blocks, which are one cluster.
pub fn dir_is_read()
    ensures { DirIsRead }
{}

/// Moves that lead to a catalogue leave blocks that mend to the same, after each number of them.
pub fn moves_mend()
    ensures { MovesMend }
{}

/// The moves that pack the entries of a directory leave the catalogue, and after them no entry stands in two blocks.
pub fn dir_is_packed()
    ensures { DirIsPacked }
{}

/// The moves of a removal lead to the catalogue without an entry that does not stay. The first of them behind those that pack the
/// entries decides.
pub fn entry_goes()
    ensures { EntryGoes }
{}

/// The moves of an insertion enter a lost file in `[SYSLOST]`, and the last of them decides. There are moves exactly where there is
/// room.
pub fn lost_is_entered()
    ensures { LostIsEntered }
{}
