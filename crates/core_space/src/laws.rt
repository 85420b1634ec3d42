//! The laws, each a statement for every value that it speaks of.

ghost use Rattle.core_space.specs.Laws.{LooksAtBitmaps, WritesFill, FillingsRefill, StocksTakeAll, FillsEnough, TakesLowest, NumbersGoBack, ClustersGoBack, RefusedLast, DecidedLast, FullIsWhole};

/// Each block that the rules look at is a bitmap's.
pub fn looks_at_bitmaps()
    ensures { LooksAtBitmaps }
{}

/// Each write of a filling is one under V of a block that was looked at, and takes numbers or clusters that are free there.
pub fn writes_fill()
    ensures { WritesFill }
{}

/// Where the block stands that was looked at, such a write takes what is free to the node's stock.
pub fn fillings_refill()
    ensures { FillingsRefill }
{}

/// A stock that takes more has what it held and this, each once.
pub fn stocks_take_all()
    ensures { StocksTakeAll }
{}

/// With a filling the stock has what is needed, and at most 16 clusters and 8 numbers more.
pub fn fills_enough()
    ensures { FillsEnough }
{}

/// What a filling takes is the lowest of what is free in the blocks looked at.
pub fn takes_lowest()
    ensures { TakesLowest }
{}

/// A give-back makes all file numbers of the stock free with one write, if the header slots of all numbers outside are free.
pub fn numbers_go_back()
    ensures { NumbersGoBack }
{}

/// With each further write it makes those clusters free that have their bits in one block.
pub fn clusters_go_back()
    ensures { ClustersGoBack }
{}

/// The next event refuses a need only in the search of all free space, under X in EX and V in PW.
pub fn refused_last()
    ensures { RefusedLast }
{}

/// It is decided only there.
pub fn decided_last()
    ensures { DecidedLast }
{}

/// A device is full only after the search has looked at all that it may look at.
pub fn full_is_whole()
    ensures { FullIsWhole }
{}
