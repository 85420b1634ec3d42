//! A file of the system. What its three calls give and change no contract says: they are trusted, and std below them.
ghost use Rattle.std.specs.Prelude.{None};

use crate::{ByteFile, FileFail};
use base_words::Block;
use std::fs::OpenFile;
use std::os::unix::fs::FileExt;

/// An open file of the system, which tells nothing of its bytes. Each call of it is one call of the system, and fails where that fails.
#[derive(Drop)]
pub struct SystemFile<F: FileExt + OpenFile + Drop> {
    file: F,
}

impl<F: FileExt + OpenFile + Drop> SystemFile<F> {
    /// The file that was opened.
    pub fn new(file: F) -> SystemFile<F> {
        SystemFile { file }
    }
}

impl<F: FileExt + OpenFile + Drop> ByteFile for SystemFile<F> {
    ghost bytes = { λ _. None };

    fn len(&mut self) -> Result<u64, FileFail> {
        let metadata = self.file.metadata().map_err(|_| FileFail)?;
        Ok(metadata.len())
    }

    fn read_at(&mut self, at: u64, buf: &mut [u8]) -> Result<(), FileFail> {
        self.file.read_exact_at(buf, at).map_err(|_| FileFail)
    }

    fn write_at(&mut self, at: u64, b: &Block) -> Result<(), FileFail> {
        self.file.write_all_at(b, at).map_err(|_| FileFail)
    }
}
