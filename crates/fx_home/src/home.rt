//! The home block.

ghost use Rattle.std.specs.Prelude.{◌≡◌, ◌+◌, ◌*◌, ◌≤◌, Ok, IfOk};
ghost use Rattle.base_words.specs.Tables.{laid};
ghost use Rattle.fx_home.specs.Homes.{IsWithinLimits, has_format, has_level, has_sum1, has_cluster, has_files, has_layout, home_in, home_read, home_table, with_sum1, with_label, with_format, home_bytes};
ghost use Rattle.base_words.specs.Fields.{has_sum as has_sum2};

use base_words::{Block, long_at, put_bytes, put_long, put_word, set_sum, sum_of, word_at, zeros};
use thiserror::Error;

// Where the fields of a home block begin, in bytes.

/// The LBN of this home block, in 4 bytes.
const HOMELBN: usize = 0;
/// The LBN of the copy of the home block, in 4 bytes.
const ALHOMELBN: usize = 4;
/// The LBN of the copy of the index file's own header, in 4 bytes.
const ALTIDXLBN: usize = 8;
/// The structure level, in 2 bytes.
const STRUCLEV: usize = 12;
/// The cluster factor, in 2 bytes.
const CLUSTER: usize = 14;
/// The VBN of this home block in the index file, in 2 bytes.
const HOMEVBN: usize = 16;
/// The VBN of the copy of the home block, in 2 bytes.
const ALHOMEVBN: usize = 18;
/// The VBN of the copy of the index file's own header, in 2 bytes.
const ALTIDXVBN: usize = 20;
/// The VBN of the index-file bitmap, in 2 bytes.
const IBMAPVBN: usize = 22;
/// The LBN of the index-file bitmap, in 4 bytes.
const IBMAPLBN: usize = 24;
/// The highest file number, in 4 bytes.
const MAXFILES: usize = 28;
/// The blocks of the index-file bitmap, in 2 bytes.
const IBMAPSIZE: usize = 32;
/// How many file numbers are reserved, in 2 bytes.
const RESFILES: usize = 34;
/// The sum of the first 29 words, in 2 bytes.
const CHECKSUM1: usize = 58;
/// The label, in 12 bytes.
const VOLNAME: usize = 472;
/// The name of the format, in 12 bytes.
const FORMAT: usize = 496;
/// The sum of the first 255 words, in 2 bytes.
const CHECKSUM2: usize = 510;

/// The name of the format.
const FORMAT_NAME: [u8; 12] = *b"DECFILE11B  ";

/// What a home block says of its volume.
#[derive(Debug, Clone, Copy, PartialEq)]
pub struct Home {
    /// The cluster factor: how many blocks a cluster has, 1 to 16.
    pub cluster: u16,
    /// How many file numbers there are, and so the highest of them, 32 to 4,096.
    pub files: u32,
    /// The volume's label, filled with spaces.
    pub label: [u8; 12],
}

/// Why a block is no home block of this profile. Of several faults the first in this order is told.
#[derive(Debug, Clone, Copy, PartialEq, Error)]
pub enum HomeFault {
    /// FORMAT is not `DECFILE11B` and two spaces.
    #[error("the format is not DECFILE11B")]
    BadFormat,
    /// The high byte of STRUCLEV is not 2.
    #[error("the structure level is not 2")]
    BadLevel,
    /// CHECKSUM1 is not the sum of the 29 words in front of it.
    #[error("the first checksum is wrong")]
    BadSum1,
    /// CHECKSUM2 is not the sum of the 255 words in front of it.
    #[error("the second checksum is wrong")]
    BadSum2,
    /// CLUSTER is outside 1 to 16.
    #[error("the cluster factor is outside 1 to 16")]
    BadCluster,
    /// MAXFILES is outside 32 to 4,096.
    #[error("the number of files is outside 32 to 4,096")]
    BadFiles,
    /// HOMELBN is not 1, or the index-file bitmap is not the one block at VBN 4c + 1 and LBN 4c, where c is the
    /// cluster factor.
    #[error("the home block or the index-file bitmap is out of its place")]
    BadLayout,
}

/// Reads a home block, or says which is the first of its faults.
#[tactic(auto, unfolding(crate::specs::Homes::home_read))]
pub fn read_home(b: &Block) -> Result<Home, HomeFault>
    ensures value { result ≡ home_read b.now }
    ensures within { IfOk result IsWithinLimits }
{
    if !has_format(b) {
        Err(HomeFault::BadFormat)
    } else if !has_level(b) {
        Err(HomeFault::BadLevel)
    } else if !has_sum1(b) {
        Err(HomeFault::BadSum1)
    } else if !has_sum2(b) {
        Err(HomeFault::BadSum2)
    } else if !has_cluster(b) {
        Err(HomeFault::BadCluster)
    } else if !has_files(b) {
        Err(HomeFault::BadFiles)
    } else if !has_layout(b) {
        Err(HomeFault::BadLayout)
    } else {
        Ok(home_in(b))
    }
}

/// The home block of a volume, as it stands in LBN 1. It reads back, whatever the bytes of the label.
#[tactic(auto, unfolding(crate::specs::Homes::home_bytes))]
pub fn home_block(h: &Home) -> Block
    requires { IsWithinLimits h.now }
    ensures bytes { result ≡ home_bytes h.now }
    ensures reads_back { home_read result ≡ Ok h.now }
{
    let mut b = zeros();
    put_table(&mut b, h);
    put_sum1(&mut b);
    put_label(&mut b, &h.label);
    put_format(&mut b);
    set_sum(&mut b);
    b
}

/// The LBN of the header of file `n`: the headers follow the index-file bitmap.
pub fn slot_lbn(h: &Home, n: u32) -> u32
    requires limits { IsWithinLimits h.now }
    requires number { (1 ≤ n) × (n ≤ h.now.files) }
    ensures { result ≡ 4 * h.now.cluster + n }
{
    4 * u32::from(h.cluster) + n
}

#[tactic(auto, unfolding(crate::specs::Homes::has_format))]
fn has_format(b: &Block) -> bool
    ensures { result ≡ has_format b.now }
{
    b[FORMAT..FORMAT + 12] == FORMAT_NAME[..]
}

#[tactic(auto, unfolding(crate::specs::Homes::has_level))]
fn has_level(b: &Block) -> bool
    ensures { result ≡ has_level b.now }
{
    word_at(b, STRUCLEV) / 256 == 2
}

#[tactic(auto, unfolding(crate::specs::Homes::has_sum1))]
fn has_sum1(b: &Block) -> bool
    ensures { result ≡ has_sum1 b.now }
{
    word_at(b, CHECKSUM1) == sum_of(b, 29)
}

#[tactic(auto, unfolding(base_words::specs::Fields::has_sum))]
fn has_sum2(b: &Block) -> bool
    ensures { result ≡ has_sum2 b.now }
{
    word_at(b, CHECKSUM2) == sum_of(b, 255)
}

#[tactic(auto, unfolding(crate::specs::Homes::has_cluster))]
fn has_cluster(b: &Block) -> bool
    ensures { result ≡ has_cluster b.now }
{
    (1..=16).contains(&word_at(b, CLUSTER))
}

#[tactic(auto, unfolding(crate::specs::Homes::has_files))]
fn has_files(b: &Block) -> bool
    ensures { result ≡ has_files b.now }
{
    (32..=4096).contains(&long_at(b, MAXFILES))
}

#[tactic(auto, unfolding(crate::specs::Homes::has_layout))]
fn has_layout(b: &Block) -> bool
    ensures { result ≡ has_layout b.now }
{
    let bitmap = 4 * u32::from(word_at(b, CLUSTER));
    long_at(b, HOMELBN) == 1
        && u32::from(word_at(b, IBMAPVBN)) == bitmap + 1
        && long_at(b, IBMAPLBN) == bitmap
        && word_at(b, IBMAPSIZE) == 1
}

#[tactic(auto, unfolding(crate::specs::Homes::home_in))]
fn home_in(b: &Block) -> Home
    ensures { result ≡ home_in b.now }
{
    let mut label = [0; 12];
    label.copy_from_slice(&b[VOLNAME..VOLNAME + 12]);
    Home {
        cluster: word_at(b, CLUSTER),
        files: long_at(b, MAXFILES),
        label,
    }
}

#[tactic(auto, unfolding(crate::specs::Homes::home_table))]
fn put_table(b: &mut Block, h: &Home)
    requires { IsWithinLimits h.now }
    ensures { b.new ≡ laid (home_table h.now) b.old }
{
    let cluster = h.cluster;
    put_long(b, HOMELBN, 1);
    put_long(b, ALHOMELBN, u32::from(2 * cluster));
    put_long(b, ALTIDXLBN, u32::from(3 * cluster));
    put_word(b, STRUCLEV, 513);
    put_word(b, CLUSTER, cluster);
    put_word(b, HOMEVBN, 2);
    put_word(b, ALHOMEVBN, 2 * cluster + 1);
    put_word(b, ALTIDXVBN, 3 * cluster + 1);
    put_word(b, IBMAPVBN, 4 * cluster + 1);
    put_long(b, IBMAPLBN, u32::from(4 * cluster));
    put_long(b, MAXFILES, h.files);
    put_word(b, IBMAPSIZE, 1);
    put_word(b, RESFILES, 9);
}

#[tactic(auto, unfolding(crate::specs::Homes::with_sum1))]
fn put_sum1(b: &mut Block)
    ensures { b.new ≡ with_sum1 b.old }
{
    let sum = sum_of(b, 29);
    put_word(b, CHECKSUM1, sum);
}

#[tactic(auto, unfolding(crate::specs::Homes::with_label))]
fn put_label(b: &mut Block, label: &[u8; 12])
    ensures { b.new ≡ with_label label.now b.old }
{
    put_bytes(b, VOLNAME, label);
}

#[tactic(auto, unfolding(crate::specs::Homes::with_format))]
fn put_format(b: &mut Block)
    ensures { b.new ≡ with_format b.old }
{
    put_bytes(b, FORMAT, &FORMAT_NAME);
}
