//! Laws of mending slots, chains, bitmaps and quota rows.

ghost use Rattle.vol_mends.specs.Slots.{SlotIsFreed};
ghost use Rattle.vol_mends.specs.Surplus.{LastIsCut};
ghost use Rattle.vol_mends.specs.Tails.{StrayIsFreed, SurplusIsCut};
ghost use Rattle.vol_mends.specs.Bits.{NumbersAreSet, ClustersAreSet};
ghost use Rattle.vol_mends.specs.Rows.{RowsAreSummed};

/// The slot of a first header that becomes free, with the same sequence, leaves the clusters of its file leaked, and the numbers of
/// all of its headers.
pub fn slot_is_freed()
    ensures { SlotIsFreed }
{}

/// A file whose last header is cut to the blocks that the file has in it, and loses its link, keeps its header slots, its blocks in
/// their order and how it is split, and nothing is listed behind them. Adjacent runs of that header are merged.
pub fn last_is_cut()
    ensures { LastIsCut }
{}

/// So with a header block that reads so. The catalogue stays, and so does what is told of each other file.
pub fn surplus_is_cut()
    ensures { SurplusIsCut }
{}

/// A header slot that is in use and no file's becomes free, with the same sequence. The catalogue stays.
pub fn stray_is_freed()
    ensures { StrayIsFreed }
{}

/// An index-file bitmap that says which numbers are those of header slots of files leaves no number leaked.
pub fn numbers_are_set()
    ensures { NumbersAreSet }
{}

/// A block of the storage bitmap that says which clusters files have leaves none leaked whose bit it has.
pub fn clusters_are_set()
    ensures { ClustersAreSet }
{}

/// A quota block whose rows say what files cost changes usages alone.
pub fn rows_are_summed()
    ensures { RowsAreSummed }
{}
