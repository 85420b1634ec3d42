//! The image of a program: opened, locked, and never made or cut.
ghost use Rattle.std.specs.Prelude.{◌≡◌, IfOk, IsNone, true};
ghost use Rattle.std.specs.Fs.{new_options, with_read, with_write};

use crate::LockFile;
use blk_drive::NoMemory;
use blk_files::{FileImage, SystemFile};
use std::alloc::Global;
use std::fs;
use std::fs::{File, OpenFile, OpenOptions};
use std::os::unix::fs::FileExt;
use std::rt::Files;

/// What a program does with an image.
#[derive(Clone, Copy, Debug, PartialEq)]
pub enum Access {
    /// It reads the image, and may write it.
    Change,

    /// It reads the image.
    Look,
}

/// An image that was opened, and a second handle of its file, of which a sync is due before anything is told. An image that is
/// only read has none, and an image without a file.
#[derive(Drop)]
pub struct Held<F: FileExt + OpenFile + Drop> {
    pub image: FileImage<SystemFile<F>>,
    pub due: Option<F>,
}

impl<F: FileExt + OpenFile + Drop> Held<F> {
    // No image, as where it could not be opened.
    fn absent() -> Held<F>
        ensures { IsNone result.due }
    {
        Held {
            image: FileImage::absent(),
            due: None,
        }
    }
}

// How an image is opened that may be written.
fn change_options() -> OpenOptions
    ensures { result ≡ with_write (with_read new_options true) true }
{
    let mut options = File::options();
    options.read(true).write(true);
    options
}

// How an image is opened that is only read.
fn look_options() -> OpenOptions
    ensures { result ≡ with_read new_options true }
{
    let mut options = File::options();
    options.read(true);
    options
}

// Whether the path leads to a regular file. Directories, devices and pipes are no images: they have no size that is kept.
fn is_file<R: Files>(rt: &R, path: &str) -> bool {
    fs::metadata(rt, path).is_ok_and(|found| found.is_file())
}

// Holds the file of an image that may be written: locked for this opening alone, and with a second handle.
fn held_alone<F: FileExt + OpenFile + LockFile + Drop>(
    alloc: Global,
    file: F,
) -> Result<Held<F>, NoMemory> {
    if !file.try_alone() {
        return Ok(Held::absent());
    }
    let Ok(due) = file.try_clone() else {
        return Ok(Held::absent());
    };
    let image = FileImage::new(alloc, SystemFile::new(file))?;
    Ok(Held {
        image,
        due: Some(due),
    })
}

// Holds the file of an image that is only read: its lock is shared, and no sync is due.
fn held_shared<F: FileExt + OpenFile + LockFile + Drop>(
    alloc: Global,
    file: F,
) -> Result<Held<F>, NoMemory>
    ensures { IfOk result (λ held. IsNone held.due) }
{
    if !file.try_shared() {
        return Ok(Held::absent());
    }
    let image = FileImage::new(alloc, SystemFile::new(file))?;
    Ok(Held { image, due: None })
}

/// The image in a file, locked. An image that may be written and cannot be opened so is opened to be read, and each write of it fails.
/// An image that is no regular file, does not open, or is locked by another has no file, and each call of it fails.
pub fn image_at<R: Files + AllocGlobal>(
    rt: &R,
    path: &str,
    access: Access,
) -> Result<Held<R::File>, NoMemory>
where
    R::File: FileExt + LockFile,
    ensures { access ≡ Access.Look → IfOk result (λ held. IsNone held.due) }
{
    if !is_file(rt, path) {
        return Ok(Held::absent());
    }
    if access == Access::Change {
        if let Ok(file) = change_options().open(rt, path) {
            return held_alone(rt.alloc(), file);
        }
    }
    match look_options().open(rt, path) {
        Ok(file) => held_shared(rt.alloc(), file),
        Err(_) => Ok(Held::absent()),
    }
}
