//! Images in files, read whole when they are made, and the files below them.
//!
//! `ByteFile` is the trait of a file. `MemFile` is one in memory, and tells its bytes. `SystemFile` is an open file of the
//! system, and tells nothing. `FileImage` is the image over a file.
//!
//! ```text
//! let image = FileImage::new(alloc, SystemFile::new(file))?;
//! let mirror = Mirror::load(alloc, image);
//! ```
//!
//! An image tells the blocks that its file tells, and else those that its reads gave, with the writes put in that succeeded. It
//! has these blocks in memory until `read_onto` hands all of them over.
//!
//! `edge_files` opens the images of all programs with it.
#![tactic(auto)]

ghost use Rattle.std.specs.Prelude.{◌≡◌, ◌≤◌, ◌+◌, ◌⊎◌, ℕ, List, Option, length, IfOk, IfSome, OnOk, OnErr};
ghost use Rattle.blk_files.specs.Files.{Holds, put_in};

mod image;
mod memory;
mod notes;
mod opened;
mod system;
mod whole;

use base_words::Block;
pub use image::FileImage;
pub use memory::MemFile;
pub use notes::Notes;
pub use system::SystemFile;

/// A call of a file that failed.
#[derive(Clone, Copy, Debug)]
pub struct FileFail;

/// A file of bytes that is open. Some files tell their bytes.
pub trait ByteFile: Drop {
    ghost bytes: { Self → Option (List ℕ) };

    /// How many bytes it has.
    fn len(&mut self) -> Result<u64, FileFail>
        ensures answer { IfOk result (λ n. IfSome (bytes self.old) (λ f. n ≡ length f)) }
        ensures bytes { bytes self.new ≡ bytes self.old };

    /// Fills the buffer with the bytes from an offset on. It fails where the file has fewer.
    fn read_at(&mut self, at: u64, buf: &mut [u8]) -> Result<(), FileFail>
        ensures ok { OnOk result (IfSome (bytes self.old) (λ f. Holds f at buf.new)) }
        ensures bytes { bytes self.new ≡ bytes self.old };

    /// Writes a block at an offset, where the file has bytes already, and changes no other. After a failed write the block is whole, old or new.
    fn write_at(&mut self, at: u64, b: &Block) -> Result<(), FileFail>
        requires { IfSome (bytes self.old) (λ f. at + 512 ≤ length f) }
        ensures ok { OnOk result (bytes self.new ≡ put_in (bytes self.old) at b.now) }
        ensures failed { OnErr result ((bytes self.new ≡ bytes self.old) ⊎ (bytes self.new ≡ put_in (bytes self.old) at b.now)) };
}
