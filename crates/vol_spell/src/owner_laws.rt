//! The laws, each a statement for every value that it speaks of. Where a law speaks of what may move, it does so for each
//! test of an owner.

ghost use Rattle.std.specs.Prelude.{Bool, Option, IsTrue};
ghost use Rattle.vol_spell.specs.declared.owner.Owner.{Owner};
ghost use Rattle.vol_spell.specs.OwnerLaws.{OwnerStays, MovesCompose, MovesGrow, HandsOver, HandingMoves, OutStays, OutSwaps, OutRegroups};
ghost use Rattle.vol_spell.specs.OwnerLaws.{OutsideToFile, FileToOutside, OutsideToFree, FreeToStock, OutsideToLeaked};
ghost use Rattle.vol_spell.specs.Spread.{BlocksStay, BlocksSet, BlocksJoined, BlocksKept, BlocksSeen, BlocksWritten};
ghost use Rattle.vol_spell.specs.Spread.{InSpread, SpreadOnce, SpreadJoined, SpreadPlaces};
ghost use Rattle.vol_spell.specs.Counts.{HandingCounts, CountsList, OutCounts};

/// An owner that may not move has what it had.
pub fn owner_stays()
    ensures { (p : Option Owner → Bool) → OwnerStays (λ o. IsTrue (p o)) }
{}

/// Two moves in a row are one, and none is one.
pub fn moves_compose()
    ensures { (p : Option Owner → Bool) → MovesCompose (λ o. IsTrue (p o)) }
{}

/// A move that one test allows is one that any wider test allows.
pub fn moves_grow()
    ensures { (p r : Option Owner → Bool) → MovesGrow (λ o. IsTrue (p o)) (λ o. IsTrue (r o)) }
{}

/// What was handed over from one owner to another is all that changed hands.
pub fn hands_over()
    ensures { HandsOver }
{}

/// Handing over is a move between the two owners.
pub fn handing_moves()
    ensures { (p : Option Owner → Bool) → HandingMoves (λ o. IsTrue (p o)) }
{}

/// A move that leaves a node's things leaves what it holds.
pub fn out_stays()
    ensures { (p : Option Owner → Bool) → OutStays (λ o. IsTrue (p o)) }
{}

/// What a command took and the stock may change places.
pub fn out_swaps()
    ensures { OutSwaps }
{}

/// Things of the stock may be what the command took, and the other way round.
pub fn out_regroups()
    ensures { OutRegroups }
{}

/// What a command took goes into a file, and the stock is left outside.
pub fn outside_to_file()
    ensures { OutsideToFile }
{}

/// Things of a file go outside, and count to what the command took.
pub fn file_to_outside()
    ensures { FileToOutside }
{}

/// A part of what a command took becomes free, and the rest stays outside.
pub fn outside_to_free()
    ensures { OutsideToFree }
{}

/// Free things go outside, and count to the stock.
pub fn free_to_stock()
    ensures { FreeToStock }
{}

/// All that a node held leaks, and nothing of it is left outside.
pub fn outside_to_leaked()
    ensures { OutsideToLeaked }
{}

/// Each thing that is handed over counts with its new owner, and no longer with its old one.
pub fn handing_counts()
    ensures { HandingCounts }
{}

/// An owner has as many things as a list has that names each of them once.
pub fn counts_list()
    ensures { CountsList }
{}

/// A node has as many things outside as its command took and its stock has.
pub fn out_counts()
    ensures { OutCounts }
{}

/// A block that is set elsewhere leaves the blocks at these places.
pub fn blocks_stay()
    ensures { BlocksStay }
{}

/// A block that is set at one of these places is set among the blocks at them.
pub fn blocks_set()
    ensures { BlocksSet }
{}

/// The blocks at places in a row are those at the first ones and then those at the others.
pub fn blocks_joined()
    ensures { BlocksJoined }
{}

/// Writes to other places leave the blocks at these.
pub fn blocks_kept()
    ensures { BlocksKept }
{}

/// Blocks that were seen at these places are the blocks at them.
pub fn blocks_seen()
    ensures { BlocksSeen }
{}

/// Blocks that are written to these places, each place once, are the blocks at them.
pub fn blocks_written()
    ensures { BlocksWritten }
{}

/// A block is one of these clusters' exactly where the cluster that it lies in is one of these.
pub fn in_spread()
    ensures { InSpread }
{}

/// Clusters that are listed once have no block twice.
pub fn spread_once()
    ensures { SpreadOnce }
{}

/// The places of clusters in a row are those of the first ones and then those of the others.
pub fn spread_joined()
    ensures { SpreadJoined }
{}

/// Each cluster has its number of places, one after another.
pub fn spread_places()
    ensures { SpreadPlaces }
{}
