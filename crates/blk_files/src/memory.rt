//! A file in memory.
ghost use Rattle.std.specs.Prelude.{◌≡◌, ◌≤◌, ◌+◌, length, Some, IfOk, IsOk, IfSome};
ghost use Rattle.blk_files.specs.Files.{Holds};

use crate::{ByteFile, FileFail};
use base_words::Block;
use std::marker::Model;

/// A file in memory, which tells its bytes. No call of it fails but a read behind its end.
#[derive(Debug, Drop)]
pub struct MemFile {
    bytes: Vec<u8>,
}

impl Model for MemFile {
    ghost use Rattle.std.specs.Prelude.{ℕ, List};

    ghost Value = { List ℕ };

    ghost view = { λ m. m.bytes.items };
}

impl MemFile {
    /// The file of these bytes.
    pub fn new(bytes: Vec<u8>) -> MemFile
        ensures { result ≡ bytes.items }
    {
        MemFile { bytes }
    }

    /// Its bytes.
    pub fn all(&self) -> &[u8]
        ensures { result.now ≡ self.now }
    {
        self.bytes.as_slice()
    }

    // The bytes from an offset on, so many, where there are so many.
    fn part(&self, at: u64, count: usize) -> Option<&[u8]>
        ensures { IfSome result (λ part. (length part.now ≡ count) × Holds self.now at part.now) }
    {
        let start = usize::try_from(at).ok()?;
        self.bytes.as_slice().get(start..)?.get(..count)
    }
}

impl ByteFile for MemFile {
    ghost bytes = { λ m. Some m };

    fn len(&mut self) -> Result<u64, FileFail>
        ensures answer { IfOk result (λ n. n ≡ length self.old) }
        ensures bytes { Some self.new ≡ Some self.old }
        ensures ok { IsOk result }
    {
        Ok(self.bytes.len() as u64)
    }

    fn read_at(&mut self, at: u64, buf: &mut [u8]) -> Result<(), FileFail> {
        match self.part(at, buf.len()) {
            Some(part) => {
                buf.copy_from_slice(part);
                Ok(())
            }
            None => Err(FileFail),
        }
    }

    fn write_at(&mut self, at: u64, b: &Block) -> Result<(), FileFail> {
        let start = at as usize;
        self.bytes[start..start + 512].copy_from_slice(b);
        Ok(())
    }
}
