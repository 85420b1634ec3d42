//! The storage control block.

ghost use Rattle.std.specs.Prelude.{◌≡◌, Ok};
ghost use Rattle.fx_home.specs.Homes.{has_scb_level, scb_read, scb_bytes};
ghost use Rattle.base_words.specs.Fields.{has_sum as has_scb_sum};

use base_words::{Block, long_at, put_long, put_word, set_sum, sum_of, word_at, zeros};
use thiserror::Error;

// Where the fields of a storage control block begin, in bytes.

/// The structure level, in 2 bytes.
const STRUCLEV: usize = 0;
/// The cluster factor, in 2 bytes.
const CLUSTER: usize = 2;
/// The blocks of the volume, in 4 bytes.
const VOLSIZE: usize = 4;
/// The sum of the first 255 words, in 2 bytes.
const CHECKSUM: usize = 510;

/// What a storage control block says of its volume.
#[derive(Debug, Clone, Copy, PartialEq)]
pub struct Scb {
    /// The cluster factor: how many blocks a cluster has.
    pub cluster: u16,
    /// How many blocks the volume has.
    pub blocks: u32,
}

/// Why a block is no storage control block of its volume. Of several faults the first in this order is told.
#[derive(Debug, Clone, Copy, PartialEq, Error)]
pub enum ScbFault {
    /// The high byte of STRUCLEV is not 2.
    #[error("the structure level is not 2")]
    BadLevel,
    /// CHECKSUM is not the sum of the 255 words in front of it.
    #[error("the checksum is wrong")]
    BadSum,
    /// The cluster factor is not that of the home block. [`read_scb`] does not see the home block, so this fault and
    /// the next are for the checks of a whole volume.
    #[error("the cluster factor is not that of the home block")]
    BadCluster,
    /// The number of blocks is not that of the image.
    #[error("the number of blocks is not that of the image")]
    BadSize,
}

/// Reads a storage control block, or says which is the first of its faults: the level or the checksum.
#[tactic(auto, unfolding(crate::specs::Homes::scb_read))]
pub fn read_scb(b: &Block) -> Result<Scb, ScbFault>
    ensures { result ≡ scb_read b.now }
{
    if !has_scb_level(b) {
        Err(ScbFault::BadLevel)
    } else if !has_scb_sum(b) {
        Err(ScbFault::BadSum)
    } else {
        Ok(Scb {
            cluster: word_at(b, CLUSTER),
            blocks: long_at(b, VOLSIZE),
        })
    }
}

/// The storage control block of a volume. It reads back.
#[tactic(auto, unfolding(crate::specs::Homes::scb_bytes, crate::specs::Homes::scb_table))]
pub fn scb_block(s: &Scb) -> Block
    ensures bytes { result ≡ scb_bytes s.now }
    ensures reads_back { scb_read result ≡ Ok s.now }
{
    let Scb { cluster, blocks } = *s;
    let mut b = zeros();
    put_word(&mut b, STRUCLEV, 513);
    put_word(&mut b, CLUSTER, cluster);
    put_long(&mut b, VOLSIZE, blocks);
    set_sum(&mut b);
    b
}

#[tactic(auto, unfolding(crate::specs::Homes::has_scb_level))]
fn has_scb_level(b: &Block) -> bool
    ensures { result ≡ has_scb_level b.now }
{
    word_at(b, STRUCLEV) / 256 == 2
}

#[tactic(auto, unfolding(base_words::specs::Fields::has_sum))]
fn has_scb_sum(b: &Block) -> bool
    ensures { result ≡ has_scb_sum b.now }
{
    word_at(b, CHECKSUM) == sum_of(b, 255)
}
