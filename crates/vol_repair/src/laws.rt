//! The laws, each a statement for every value that it speaks of.

ghost use Rattle.vol_repair.specs.Firsts.{FirstBeyondIsThere};
ghost use Rattle.vol_repair.specs.Laws.{TouchingIsEasy, TouchedKeeps, PhasesLead, BesideIsSound, AlikeKeeps, MendingKeeps};

/// Each place that a repair may write, besides header slots, is one of the volume's, and a write to it touches no more than that.
pub fn touching_is_easy()
    ensures { TouchingIsEasy }
{}

/// What is touched so keeps what was sound.
pub fn touched_keeps()
    ensures { TouchedKeeps }
{}

/// Directories, rows and bits, made one after another, lead to blocks that tell the catalogue that the repair begins with.
pub fn phases_lead()
    ensures { PhasesLead }
{}

/// Where the only fatal findings are those on which the spelling of a catalogue does not rest, nothing is beyond repair, and each file
/// above number 11 is sound.
pub fn beside_is_sound()
    ensures { BesideIsSound }
{}

/// Blocks that spell the files that the repair begins with keep what was sound, whatever the owners and the entries.
pub fn alike_keeps()
    ensures { AlikeKeeps }
{}

/// Blocks that mend to what the patched catalogue mends to keep what was sound, but for an empty lost file that has no room.
pub fn mending_keeps()
    ensures { MendingKeeps }
{}

/// Of any blocks there is a first finding beyond repair, or none.
pub fn first_beyond_is_there()
    ensures { FirstBeyondIsThere }
{}
