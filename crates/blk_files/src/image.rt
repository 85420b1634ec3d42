//! An image in a file.
ghost use Rattle.std.specs.Prelude.{◌≡◌, ◌↔◌, ◌-◌, ◌*◌, ◌/◌, ◌^◌, None, length, take, min, is_some, IfOk, IfSome, IsOk, IsTrue};
ghost use Rattle.base_words.specs.Faults.{HasCause};
ghost use Rattle.blk_files.specs.Views.{told_by, size_of};
ghost use Rattle.blk_files.specs.Sizes.{counted};

use crate::ByteFile;
use crate::opened::Opened;
use base_words::Block;
use blk_drive::{DevFault, ImageDev, NoMemory};
use std::alloc::Global;
use std::marker::Model;

/// An image in a file that is open for reading and writing, or without a file. It tells the blocks that its file tells, or else those
/// that its reads gave, with the writes put in that succeeded; none if a read failed, or there are more than 65,536.
///
/// It has as many blocks as the file has whole pieces of 512 bytes, and 4,294,967,295 at most. Blocks are read from memory, until a
/// `read_onto` of all of them into an empty list hands them over, or a write fails: after that each read fails.
#[derive(Drop)]
pub struct FileImage<F: ByteFile> {
    opened: Option<Opened<F>>,
    faults: u64,
    lost: u64,
}

impl<F: ByteFile> Model for FileImage<F> {
    ghost use Rattle.blk_files.specs.Views.{FileView};

    ghost Value = { FileView F };

    ghost view = { λ s. record { known = s.opened; faults = s.faults; lost = s.lost } };
}

impl<F: ByteFile> FileImage<F> {
    /// The image without a file, as where it could not be opened: each call of it fails.
    pub fn absent() -> FileImage<F>
        ensures { result ≡ record { known = None; faults = 0; lost = 0 } }
    {
        FileImage {
            opened: None,
            faults: 0,
            lost: 0,
        }
    }

    /// The image in this file, which is read here. A file that does not tell its length is none.
    pub fn new(alloc: Global, file: F) -> Result<FileImage<F>, NoMemory>
        ensures size { IfOk result (λ image. IfSome image.known (λ known. IfSome (F.bytes file) (λ f. known.size ≡ min (length f / 512) (2 ^ 32 - 1)))) }
        ensures bytes { IfOk result (λ image. IfSome image.known (λ known. F.bytes known.file ≡ F.bytes file)) }
        ensures held { IfOk result (λ image. IfSome image.known (λ known. IfSome (F.bytes file) (λ f. IfSome known.held (λ h. h ≡ take (512 * known.size) f)))) }
        ensures faults { IfOk result (λ image. (image.faults ≡ 0) × (image.lost ≡ 0)) }
    {
        Ok(FileImage {
            opened: Opened::new(alloc, file)?,
            faults: 0,
            lost: 0,
        })
    }
}

impl<F: ByteFile> ImageDev for FileImage<F> {
    ghost told = { λ s. told_by F.bytes s.known };

    ghost size = { λ s. size_of s.known };

    ghost faults = { λ s. s.faults };

    ghost lost = { λ s. s.lost };

    ghost counted = { λ s. counted F.bytes s.known };

    fn blocks(&mut self) -> Result<u32, DevFault>
        ensures answer { IfOk result (λ n. n ≡ size_of self.old.known) }
        ensures told { told_by F.bytes self.new.known ≡ told_by F.bytes self.old.known }
        ensures size { size_of self.new.known ≡ size_of self.old.known }
        ensures lost { self.new.lost ≡ self.old.lost }
        ensures cause { HasCause self.old.faults self.new.faults result }
        ensures opened { IsOk result ↔ IsTrue (is_some self.old.known) }
        ensures stays { self.new.known ≡ self.old.known }
    {
        match &self.opened {
            Some(opened) => Ok(opened.size()),
            None => {
                self.faults = self.faults.saturating_add(1);
                Err(DevFault)
            }
        }
    }

    fn read_block(&mut self, lbn: u32, b: &mut [u8; 512]) -> Result<(), DevFault> {
        if let Some(opened) = &self.opened {
            if opened.read(lbn, b) {
                return Ok(());
            }
        }
        self.faults = self.faults.saturating_add(1);
        Err(DevFault)
    }

    fn read_onto(&mut self, lbn: u32, count: u32, all: &mut Vec<Block>) -> Result<(), DevFault> {
        if let Some(opened) = &mut self.opened {
            if opened.read_onto(lbn, count, all) {
                return Ok(());
            }
        }
        self.faults = self.faults.saturating_add(1);
        Err(DevFault)
    }

    fn write_block(&mut self, lbn: u32, b: &[u8; 512]) -> Result<(), DevFault> {
        if let Some(opened) = &mut self.opened {
            if opened.write(lbn, b) {
                return Ok(());
            }
        }
        self.faults = self.faults.saturating_add(1);
        self.lost = self.lost.saturating_add(1);
        Err(DevFault)
    }
}
