//! What can be wrong with a volume.

use fx_header::HeaderFault;
use fx_home::{HomeFault, ScbFault};
use plain_cat::{Name, Uic};

/// What is wrong with a volume. The fatal findings come first, in the order in which they are looked for, where the two of a
/// header are one kind, and so are the two of a chain and the four of a directory; of one kind the lowest number comes first. A
/// volume that has one has no catalogue. Mending puts the others right.
#[derive(Drop)]
pub enum Finding {
    /// The home block is not one.
    Home(HomeFault),

    /// The header of this file number is not one. A header beyond the image's end has a wrong sum.
    Header(u32, HeaderFault),

    /// The header of this file number is that of another number.
    WrongNumber(u32),

    /// A file of number 1 to 11 is not what the volume's structure asks: in use under its own identifier, a directory or
    /// not, not marked, with one header that lists just the file's blocks and has no link, and of the files 1, 2, 4, 10 and 11
    /// one run of the stated size inside the whole clusters, which for file 1 begins at LBN 0.
    SystemFile(u32),

    /// The storage control block is not one, or says another cluster factor or size.
    Scb(ScbFault),

    /// The chain of headers of this file, whose number is above 11, ends before the blocks do that the first header says.
    ChainBroken(u32),

    /// The clusters of this file, whose number is above 11, are not well split over its headers: each but the last should have
    /// 77, and the last one 77 at most.
    ChainSplit(u32),

    /// A run of this file does not begin and end at a cluster's bounds, or is not inside the whole clusters.
    Runs(u32),

    /// This file, whose number is above 11, has more than 1,232 clusters.
    Clusters(u32),

    /// This cluster is in two runs.
    SharedCluster(u32),

    /// This directory is not one cluster in one run, in one header, with its end after its last block and no mark.
    DirSize(u32),

    /// A block of this directory is no list of records.
    DirRecord(u32),

    /// The entries of this directory are out of order.
    DirOrder(u32),

    /// A name and version of this directory has two file identifiers.
    DirClash(u32),

    /// This owner has two active quota rows.
    QuotaRow(Uic),

    /// The owner of this file has no quota row.
    NoQuotaRow(u32),

    /// The storage bitmap says that this cluster is free, and a file has it.
    FreeCluster(u32),

    /// The index-file bitmap says that this number is free, and its header slot is used.
    FreeNumber(u32),

    /// The master file directory lacks the entry of this system file: its name, version 1, and its own identifier.
    SystemEntry(u32),

    /// This directory is marked for delete and has entries.
    MarkedDir(u32),

    /// A chain of entries leads from this directory back to it; the master file directory's own entry is left out.
    DirLoop(u32),

    /// This file, which is not empty, is in no directory, and there is no room for it in [SYSLOST].
    NoRoom(u32),

    /// This file is marked for delete.
    Marked(u32),

    /// An entry of the directory `dir` names no file in use.
    NamesNone { name: Name, ver: u16, dir: u32 },

    /// An entry of the directory `dir` names a file that keeps another one.
    Second { name: Name, ver: u16, dir: u32 },

    /// An entry of this directory stands in two of its blocks.
    Doubles(u32),

    /// This file is in no directory.
    Lost(u32),

    /// Something is listed behind the blocks of this file, or a link leads on.
    Surplus(u32),

    /// The header of this number is not the first one of a file, and in no file's chain.
    Stray(u32),

    /// So many clusters are neither free nor in a file.
    LeakedClusters(u32),

    /// So many file numbers are neither free nor a file's.
    LeakedNumbers(u32),

    /// The usage of an owner's quota row is not what the owner's files cost.
    Usage { owner: Uic, has: u32, should: u32 },
}
