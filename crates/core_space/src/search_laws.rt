//! The laws, each a statement for every value that it speaks of.

ghost use Rattle.core_space.specs.Answering.{LooksInOrder};
ghost use Rattle.core_space.specs.Taking.{PlacesLie, LookedGrows, SearchEnds, WritesTake, TakingsRefill, WritesApart, TakesAll, NumberIsFree, NumberIsNew, ShortageIsExact, CommandIsShort};

/// The block that is looked at next is the first of those that the search may look at that it has not looked at.
pub fn looks_in_order()
    ensures { LooksInOrder }
{}

/// Each block that a search may look at is a bitmap's, inside the volume, and V guards it.
pub fn places_lie()
    ensures { PlacesLie }
{}

/// One more look comes behind the others.
pub fn looked_grows()
    ensures { LookedGrows }
{}

/// A search that has looked at all that it may look at is over.
pub fn search_ends()
    ensures { SearchEnds }
{}

/// Each write of a search is one under V of a block that was looked at, and takes a number or clusters that are free there.
pub fn writes_take()
    ensures { WritesTake }
{}

/// Where the block stands that was looked at, such a write takes what is free to the stock of a node, by the space rule.
pub fn takings_refill()
    ensures { TakingsRefill }
{}

/// No two writes of a search are to the same block.
pub fn writes_apart()
    ensures { WritesApart }
{}

/// A search takes as many clusters as are wanted, each once, and a number where one is wanted.
pub fn takes_all()
    ensures { TakesAll }
{}

/// The number that it takes is free by the catalogue, and may be taken.
pub fn number_is_free()
    ensures { NumberIsFree }
{}

/// And it is above those of the system files, where none of these is free.
pub fn number_is_new()
    ensures { NumberIsNew }
{}

/// A search is refused for its reason alone, where nothing is outside at any node.
pub fn shortage_is_exact()
    ensures { ShortageIsExact }
{}

/// A command for which such a search was refused was short of space.
pub fn command_is_short()
    ensures { CommandIsShort }
{}
