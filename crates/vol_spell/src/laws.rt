//! The laws, each a statement for every value that it speaks of.

ghost use Rattle.vol_spell.specs.Bodies.{PartsLieApart, BodiesLieApart};
ghost use Rattle.vol_spell.specs.Owning.{EachIsOwned};
ghost use Rattle.vol_spell.specs.Kinds.{OutsideWrite, QuotaWrite, StorageWrite, IndexWrite, HeaderWrite, SlotWrite, BodyWrite, DeathLeaks};
ghost use Rattle.vol_spell.specs.Views.{ToldStays, OthersStay, PartsStay, OutsideStays, BodySet, HeaderSet, SlotSet, StorageSet, IndexSet, QuotaSet};
ghost use Rattle.vol_spell.specs.Adding.{ClustersAddUp, NumbersAddUp};
ghost use Rattle.vol_spell.specs.Telling.{VolumeTells};
ghost use Rattle.vol_spell.specs.Accepting.{CatalogueIsSpelt, BesideIsSpelt};
ghost use Rattle.vol_spell.specs.Packing.{PackingFits};
ghost use Rattle.vol_spell.specs.Forms.{SpeltHasOneForm, ReadHasOneForm};

/// Each part of a volume lies in the clusters of its file, apart from all others.
pub fn parts_lie_apart()
    ensures { PartsLieApart }
{}

/// A block that a file's slot tells of lies in the file's clusters, is no part of the volume, and is listed once.
pub fn bodies_lie_apart()
    ensures { BodiesLieApart }
{}

/// Each cluster and each file number is free, in one file, outside at one node, or leaked, and the blocks tell which of the
/// first two, if it is one of them.
pub fn each_is_owned()
    ensures { EachIsOwned }
{}

/// What the blocks spell is what they tell as a volume: geometry, headers, runs, bits, rows and files.
pub fn volume_tells()
    ensures { VolumeTells }
{}

/// The free clusters, those outside at a node, the leaked ones and those of all files are all clusters of the volume.
pub fn clusters_add_up()
    ensures { ClustersAddUp }
{}

/// The file numbers that there are to take by the catalogue are those that are free by their bits and those outside at a node.
pub fn numbers_add_up()
    ensures { NumbersAddUp }
{}

/// A write to a place that is none of a file's header slots leaves what is told of the file, if its runs have the blocks that its
/// first header says.
pub fn told_stays()
    ensures { ToldStays }
{}

/// A write to a place that is none of a file's header slots, nor in its clusters, leaves its header and its blocks.
pub fn others_stay()
    ensures { OthersStay }
{}

/// A write to another part of the volume leaves a file's header and its blocks.
pub fn parts_stay()
    ensures { PartsStay }
{}

/// A write to a place that a node holds outside leaves each file's header and its blocks.
pub fn outside_stays()
    ensures { OutsideStays }
{}

/// A new header of a file leaves the blocks that the file has then, and each other file.
pub fn header_set()
    ensures { HeaderSet }
{}

/// A block in a header slot that is no file's leaves each file.
pub fn slot_set()
    ensures { SlotSet }
{}

/// A block of the storage bitmap tells the bits of its 4,096 clusters, and leaves the others.
pub fn storage_set()
    ensures { StorageSet }
{}

/// The index-file bitmap tells the bits of all file numbers.
pub fn index_set()
    ensures { IndexSet }
{}

/// A quota block is set among the quota blocks.
pub fn quota_set()
    ensures { QuotaSet }
{}

/// A write to a place among a file's blocks leaves its header and sets that block.
pub fn body_set()
    ensures { BodySet }
{}

/// A write to a block that a node holds outside leaves what the blocks spell.
pub fn outside_write()
    ensures { OutsideWrite }
{}

/// A write to a quota block, after which no owner has two rows, changes the rows alone.
pub fn quota_write()
    ensures { QuotaWrite }
{}

/// A write to a block of the storage bitmap moves clusters between the free ones and those of the node that writes.
pub fn storage_write()
    ensures { StorageWrite }
{}

/// A write to the index-file bitmap moves file numbers between the free ones and those of the node that writes.
pub fn index_write()
    ensures { IndexWrite }
{}

/// A write to a header changes one slot, and may move clusters and the number between the file and the node that writes. The files
/// 1, 2 and 10 keep their runs and what makes them system files, and all up to 11 their number of clusters.
pub fn header_write()
    ensures { HeaderWrite }
{}

/// A write to a header slot that is no file's leaves what the blocks spell.
pub fn slot_write()
    ensures { SlotWrite }
{}

/// A write to a block of a file other than 1, 2 and 10 changes its slot.
pub fn body_write()
    ensures { BodyWrite }
{}

/// The death of a node leaks what the node held outside.
pub fn death_leaks()
    ensures { DeathLeaks }
{}

/// The catalogue of a volume of 64 to 65,536 whole blocks in which nothing fatal is found is spelt by its blocks, with nothing outside.
pub fn catalogue_is_spelt()
    ensures { CatalogueIsSpelt }
{}

/// So is what such a volume tells where the only fatal findings are those of owners without a row, of system entries, marked
/// directories, loops and room.
pub fn beside_is_spelt()
    ensures { BesideIsSpelt }
{}

/// Blocks of a directory can be written of entries exactly where the entries of the catalogue fit in as many.
pub fn packing_fits()
    ensures { PackingFits }
{}

/// What the blocks of a volume spell, and so the catalogue that is read of it, has the one form of a catalogue: its lists are in
/// order, with nothing twice.
pub fn catalogues_have_one_form()
    ensures spelt { SpeltHasOneForm }
    ensures read { ReadHasOneForm }
{}
