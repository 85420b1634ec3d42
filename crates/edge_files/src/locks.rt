//! The lock of a whole file. Every program of ours takes it before it reads a block.

use std::fs::File;

/// A file that can be locked as a whole. The lock goes back when the last handle of that opening is closed, so at the end of the
/// process at the latest.
pub trait LockFile {
    /// Locks the file for this opening alone, without waiting. Answers whether it did.
    fn try_alone(&self) -> bool;

    /// Locks the file for this opening and others that share it, without waiting. Answers whether it did.
    fn try_shared(&self) -> bool;
}

impl LockFile for File {
    fn try_alone(&self) -> bool {
        self.try_lock().is_ok()
    }

    fn try_shared(&self) -> bool {
        self.try_lock_shared().is_ok()
    }
}
