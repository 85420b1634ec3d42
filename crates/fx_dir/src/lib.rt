//! Directories of Files-11 ODS-2, in this project's profile, read and written block by block.
//!
//! A block is a list of records and a word that ends them. A record has a name and versions of it, each with the file identifier
//! that it stands for. [`read_dir`] reads the blocks of a directory, [`packed`] fills blocks with entries, and [`insert_moves`]
//! and [`remove_moves`] give the writes, block by block, by which an entry comes or goes while the directory has its other
//! entries at every moment, and [`pack_moves`] those by which entries that stand in two blocks come to stand in one.
//! [`read_sound`], [`insert_into`], [`remove_from`] and [`rename_into`] serve directories that are known to be without a fault.
//!
//! ```text
//! let moves = insert_moves(alloc, blocks, &entry)?;  // none if the entries with the new one do not pack
//! ```
//!
//! The reader gives exactly the entries, or exactly the first fault. After each write of an insertion but the last the blocks
//! read as the old entries, and after the last with the new one (`Inserts`). What is packed reads back (`packed`: `read`).
//!
//! `vol_parts`, the writes of commands (`op_steps`) and mending use it.
//!
//! Whether one more entry has room in the blocks of a directory, told without a list and without packing.
#![tactic(auto)]

ghost use Rattle.std.specs.Prelude.{◌≡◌, ◌≤◌, ◌-◌, ◌++◌, length, replicate};
ghost use Rattle.std.specs.Str.{bytes_eq};

use base_words::Block;
use byteorder::{ByteOrder, LittleEndian};
use std::alloc::{AllocError, AllocFailed};
use std::marker::Model;
use thiserror::Error;

mod both;
mod entries;
mod laws;
mod moves;
mod packing;
mod reading;
mod records;
mod renaming;
mod room;
mod searching;
mod writing;

pub use laws::{
    packed_blocks_have_no_doubles, packing_is_least, reading_gives_the_set,
    written_blocks_read_back,
};
pub use moves::{Removal, insert_into, insert_moves, pack_moves, remove_from, remove_moves};
pub use packing::packed;
pub use reading::{read_dir, read_sound};
pub use renaming::{Renaming, rename_into};
pub use room::has_room;
pub use searching::find_in;

/// No memory was to be had.
pub type NoMemory = AllocError;

/// The text of a name as a record has it, at most 79 bytes, seen as its bytes.
#[derive(Clone, Copy)]
pub struct RawName {
    len: u8,
    // Those of the text, and zeros behind them.
    bytes: [u8; 79],
}

impl Model for RawName {
    ghost use Rattle.std.specs.Prelude.{◌≡◌, ◌≤◌, ◌-◌, ◌++◌, List, ℕ, length, take, drop, replicate};
    ghost use Rattle.std.proofs.Common.{◌∙◌, ap, sym, arith, take-append-drop, length-take-le};

    ghost Value = { List ℕ };

    ghost view = { λ n. take n.len n.bytes };

    ghost invariant = { λ n. (n.len ≤ 79) × (length n.bytes ≡ 79) × (drop n.len n.bytes ≡ replicate (79 - n.len) 0) };

    ghost inverse = { λ xs. record { len = length xs; bytes = xs ++ replicate (79 - length xs) 0 } };

    ghost inverse_ok = { λ n h i. record {
      len = length-take-le n.len n.bytes (omega (arith, h.0, h.1)) i;
      bytes = (ap (λ k. take n.len n.bytes ++ replicate (79 - k) 0) (length-take-le n.len n.bytes (omega (arith, h.0, h.1)))
          ∙ (ap (λ ds. take n.len n.bytes ++ ds) (sym h.2) ∙ take-append-drop n.len n.bytes)) i;
    } };
}

impl RawName {
    /// The name of these bytes. They are not tested.
    pub fn new(bytes: &[u8]) -> RawName
        requires { length bytes.now ≤ 79 }
        ensures { result ≡ bytes.now }
    {
        RawName {
            len: bytes.len() as u8,
            bytes: with_zeros(bytes),
        }
    }

    /// The bytes, without padding.
    pub fn bytes(&self) -> &[u8]
        ensures { result.now ≡ self.now }
    {
        &self.bytes[..self.len as usize]
    }

    /// Whether the two have the same bytes.
    pub fn is_same(&self, other: &RawName) -> bool
        ensures { result ≡ bytes_eq self.now other.now }
    {
        if self.len != other.len {
            return false;
        }
        // Names that differ do so in their first eight bytes, mostly.
        if LittleEndian::read_u64(&self.bytes) != LittleEndian::read_u64(&other.bytes) {
            return false;
        }
        self.bytes == other.bytes
    }
}

/// The bytes with zeros behind them.
fn with_zeros(bytes: &[u8]) -> [u8; 79]
    requires { length bytes.now ≤ 79 }
    ensures { result ≡ bytes.now ++ replicate (79 - length bytes.now) 0 }
{
    let mut all = [0; 79];
    all[..bytes.len()].copy_from_slice(bytes);
    all
}

/// An entry of a directory, with the version limit and the flags of the record that holds it.
#[derive(Clone, Copy)]
pub struct RawEnt {
    /// `NAME.TYP`, of two parts of at most 39 characters.
    pub name: RawName,
    /// The version, 1 to 32,767.
    pub ver: u16,
    /// The file's number, at most 16,777,215.
    pub num: u32,
    /// The file's sequence.
    pub seq: u16,
    /// The version limit of the record.
    pub limit: u16,
    /// The flags of the record.
    pub flags: u8,
}

/// What an entry says besides its name.
#[derive(Clone, Copy, Debug, PartialEq)]
pub struct Version {
    /// The version, 1 to 32,767.
    pub ver: u16,
    /// The file's number, at most 16,777,215.
    pub num: u32,
    /// The file's sequence.
    pub seq: u16,
}

/// A write to a block of a directory.
#[derive(Clone, Copy, Debug, PartialEq)]
pub struct Move {
    /// The block's VBN, counted from 1.
    pub vbn: u32,
    /// What is written to it.
    pub block: Block,
}

/// Why blocks are not read as a directory.
#[derive(Clone, Copy, Debug, PartialEq, Error)]
pub enum DirFault {
    /// The block of this VBN, counted from 1, is not a list of records in order that an end word ends.
    #[error("BadRecord {0}")]
    BadRecord(u32),
    /// What a block has besides the entries of the blocks before it does not come behind them in order.
    #[error("BadOrder")]
    BadOrder,
    /// One name and version has two file identifiers.
    #[error("Clash")]
    Clash,
    /// No memory was to be had.
    #[error("no memory")]
    NoMemory,
}

impl From<AllocError> for DirFault {
    ghost use Rattle.std.specs.Prelude.{◌≡◌};
    ghost use Rattle.fx_dir.specs.declared.DirFault.TheVariants.{NoMemory};

    ghost from_gives = { λ _ e. e ≡ NoMemory };

    fn from(_e: AllocError) -> DirFault {
        DirFault::NoMemory
    }
}

impl<T: Drop> From<AllocFailed<T>> for DirFault {
    ghost use Rattle.std.specs.Prelude.{◌≡◌};
    ghost use Rattle.fx_dir.specs.declared.DirFault.TheVariants.{NoMemory};

    ghost from_gives = { λ _ e. e ≡ NoMemory };

    fn from(_e: AllocFailed<T>) -> DirFault {
        DirFault::NoMemory
    }
}
