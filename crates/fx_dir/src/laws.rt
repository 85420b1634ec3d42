//! Laws of directories that no code runs: the contract of each function is a theorem.

ghost use Rattle.fx_dir.specs.Directory.{ReadsSet};
ghost use Rattle.fx_dir.specs.Laws.{BlocksReadBack, PackingIsLeast, SinglePacked};

/// The list that is read is the set of all entries of all records, in order.
pub fn reading_gives_the_set()
    ensures { ReadsSet }
{}

/// A block that is written reads as the entries that were written.
pub fn written_blocks_read_back()
    ensures { BlocksReadBack }
{}

/// The entries of blocks that are read without a fault pack into as many blocks.
pub fn packing_is_least()
    ensures { PackingIsLeast }
{}

/// No entry of packed blocks stands in two of them.
pub fn packed_blocks_have_no_doubles()
    ensures { SinglePacked }
{}
