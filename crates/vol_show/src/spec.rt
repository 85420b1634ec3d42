//! How a file is specified, and what is found there.

use plain_cat::{Fid, Name};
use std::alloc::AllocError;

/// A directory.
#[derive(Drop)]
pub enum Dir {
    /// By its identifier.
    Number(Fid),

    /// By its way from the main directory: one to eight words in capitals, with full stops between them.
    Way(Name),
}

/// An entry of a directory, by its name and its version, of which 0 is the highest that is there.
#[derive(Drop)]
pub struct Named {
    pub dir: Dir,
    pub name: Name,
    pub ver: u16,
}

/// A file.
#[derive(Drop)]
pub enum Spec {
    /// By its identifier.
    Id(Fid),

    /// By an entry.
    Entry(Named),
}

/// What a specification leads to.
#[derive(Clone, Copy, Debug, PartialEq)]
pub enum Target {
    /// The identifier of a file, which may be in use or not.
    Found(Fid),

    /// The directory is not there, or it is not in use, or it is a file that is no directory.
    NoSuchDirectory,

    /// The directory has no such entry.
    NoSuchFile,
}

/// Why a text is not read as a specification.
#[derive(Clone, Copy, Debug, PartialEq)]
pub enum SpecFault {
    /// It is none.
    Bad,

    /// Memory ran out.
    NoMemory,
}

impl From<AllocError> for SpecFault {
    ghost use Rattle.std.specs.Prelude.{◌≡◌};
    ghost use Rattle.vol_show.specs.declared.spec.SpecFault.TheVariants.{NoMemory};

    ghost from_gives = { λ _ fault. fault ≡ NoMemory };

    fn from(_error: AllocError) -> SpecFault {
        SpecFault::NoMemory
    }
}
