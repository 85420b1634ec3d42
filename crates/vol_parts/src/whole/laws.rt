//! The laws, each a statement for every value that it speaks of.

ghost use Rattle.vol_parts.specs.Laws.{WholeZeros, WholePut, WholeField, WholeSummed, WholeRow, WholeCleared, WholeBits, WholeHeader, WholeRuns, WholeMap, WholeBlocks, WholeLink, WholeMark, WholeOwner, WholeEnd, WholeMarked, WholeScattered, WholeFreed, WholeEntries, WholeInsertion, WholeRemoval};

/// A block of zeros is whole, and a write within a whole block keeps it whole.
pub fn fields_are_whole()
    ensures zeros { WholeZeros }
    ensures put { WholePut }
    ensures field { WholeField }
    ensures summed { WholeSummed }
{}

/// A quota block stays whole where a row is written or cleared.
pub fn rows_are_whole()
    ensures row { WholeRow }
    ensures cleared { WholeCleared }
{}

/// A bitmap's block is whole where bits are written.
pub fn bits_are_whole()
    ensures { WholeBits }
{}

/// A new header is whole, and so is a free slot; a header stays whole where one of its parts is written.
pub fn headers_are_whole()
    ensures header { WholeHeader }
    ensures runs { WholeRuns }
    ensures map { WholeMap }
    ensures blocks { WholeBlocks }
    ensures link { WholeLink }
    ensures mark { WholeMark }
    ensures owner { WholeOwner }
    ensures end { WholeEnd }
    ensures marked { WholeMarked }
    ensures scattered { WholeScattered }
    ensures freed { WholeFreed }
{}

/// A block of entries is whole, and so is each block that an insertion or a removal writes.
pub fn directories_are_whole()
    ensures entries { WholeEntries }
    ensures insertion { WholeInsertion }
    ensures removal { WholeRemoval }
{}
