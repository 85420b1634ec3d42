//! Laws of single steps: after each change and each write mending ends the same.

ghost use Rattle.vol_mends.specs.Going.{GoesOn, ChangeMends, WriteMends, StartIsSettled};

/// A catalogue that can be mended can be mended after each small change that mending makes, and mending ends the same.
pub fn mending_goes_on()
    ensures { GoesOn }
{}

/// So blocks that spell the catalogue after such a change tell it, with no fatal finding, and mend to the same.
pub fn change_mends()
    ensures { ChangeMends }
{}

/// So does each write of mending: from blocks with no fatal finding it leads to such blocks, which mend to the same.
pub fn write_mends()
    ensures { WriteMends }
{}

/// Blocks with no fatal finding tell a catalogue that mending can begin with: once the entries that do not stay are gone, it is as
/// the entering of lost files needs it.
pub fn start_is_settled()
    ensures { StartIsSettled }
{}
