//! The laws, each a statement for every value that it speaks of.

ghost use Rattle.vol_spell.specs.Kinds.{OwnerSpelt};
ghost use Rattle.vol_spell.specs.Rows.{RowsInRange, RowsSpelt, RowSpelt, NewRowSpelt};
ghost use Rattle.vol_spell.specs.Entries.{MovesSpelt, MovesLeave, EntryEnters, EntryLeaves};

/// The rows of a catalogue that is spelt have numbers of 32 bits.
pub fn rows_in_range()
    ensures { RowsInRange }
{}

/// A quota block after whose write the rows are those before it, each changed and of the same owner, changes the catalogue's rows
/// alone.
pub fn rows_spelt()
    ensures { RowsSpelt }
{}

/// A row of an owner that is written with other numbers, within 32 bits, changes the catalogue's row of this owner alone.
pub fn row_spelt()
    ensures { RowSpelt }
{}

/// A row that was not active and is written for an owner who has none is one row more of the catalogue.
pub fn new_row_spelt()
    ensures { NewRowSpelt }
{}

/// Moves in a directory leave the catalogue as it is, up to the one that decides; from that one on the directory has the other
/// entries.
pub fn moves_spelt()
    ensures { MovesSpelt }
{}

/// Moves in a directory leave each other file, and the directory's header, and its blocks are those that they write.
pub fn moves_leave()
    ensures { MovesLeave }
{}

/// The moves of an insertion lead to the entries with the new one, and the last of them decides.
pub fn entry_enters()
    ensures { EntryEnters }
{}

/// The moves of a removal lead to the entries without the one, and the first of them behind those that pack the entries decides.
pub fn entry_leaves()
    ensures { EntryLeaves }
{}

/// Another owner in a file's first header changes the file's owner in the catalogue, and nothing else. The file may be any, 1, 2 and
/// 10 among them, and the owner any of 32 bits.
pub fn owner_spelt()
    ensures { OwnerSpelt }
{}
