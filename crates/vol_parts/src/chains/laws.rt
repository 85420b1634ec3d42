//! The laws of cuts and of chains of headers, each a statement for every value that it speaks of.

ghost use Rattle.vol_parts.specs.ChainLaws.{CutTakesFirst, CutCounts, CutLeavesAll, CutHasBlocks, CutStaysInside, ListedHaveBlocks, BeginsThere, SlotsAreFew, SlotsAreNumbers, SegmentsRise, SlotsStandOnce, OneIsAlone, OneIsWhole, LinkedAreChain, SumsEndInLast, ChainStays, SplitCounts, SplitIsFew, FewAreInOne, SoundIsFew};

/// A cut has the first blocks of the runs, so many as were asked for, or all. It leaves no empty run, and stays at the bounds of
/// clusters where runs and cut are at such bounds. The runs that a header lists are not empty.
pub fn cuts_are_beginnings()
    ensures first { CutTakesFirst }
    ensures count { CutCounts }
    ensures all { CutLeavesAll }
    ensures blocks { CutHasBlocks }
    ensures inside { CutStaysInside }
    ensures listed { ListedHaveBlocks }
{}

/// The slots of a chain begin with that of the first header. They are at most 16, each is one of the volume, their SEG_NUMs rise by
/// one from slot to slot, and so none stands twice.
pub fn slots_are_in_order()
    ensures first { BeginsThere }
    ensures few { SlotsAreFew }
    ensures numbers { SlotsAreNumbers }
    ensures rise { SegmentsRise }
    ensures once { SlotsStandOnce }
{}

/// A header without a link has a chain of its own slot alone, and so has one that lists all blocks of the file.
pub fn one_header_is_alone()
    ensures alone { OneIsAlone }
    ensures whole { OneIsWhole }
{}

/// Headers that are linked in order, of which the last has the last block of the file, are the chain.
pub fn linked_headers_are_the_chain()
    ensures linked { LinkedAreChain }
    ensures sums { SumsEndInLast }
{}

/// A chain that is not broken stays where what its slots say and list stays.
pub fn chains_stay()
    ensures { ChainStays }
{}

/// A well split chain has a header for each 77 clusters that are begun, and one at least; so it has at most 1,232 clusters, and no
/// file whose chain has no fault has more.
pub fn split_chains_are_counted()
    ensures count { SplitCounts }
    ensures few { SplitIsFew }
    ensures one { FewAreInOne }
    ensures sound { SoundIsFew }
{}
