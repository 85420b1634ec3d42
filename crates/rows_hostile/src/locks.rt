//! Images that another has open, and images that may not be written.

use crate::edge_calls::{call, check, make_volume, path_of};
use edge_files::{Access, image_at};
use std::alloc::{Allocator, Global};
use std::fs::{File, Metadata, OpenOptions};
use std::io::ErrorKind;
use std::process::ExitCode;
use std::rt::Files;
use std::test::Fail;
use std::{fs, io};

// Each job of `vmsclus` that may write, with a script of which every command writes.
const JOBS: [&str; 7] = [
    "run",
    "run --rebuild",
    "soak 1",
    "rebuild",
    "repair",
    "store 12 1",
    "init 1 32 OTHER",
];

// Those that only read.
const LOOKS: [&str; 2] = ["analyze", "records 3 3"];

const WRITING: &str = "NODES 1\n1 CREATE R1 MFD A.TXT;0 1 [1,4]\n";

const READING: &str = "NODES 1\n1 LIST LOST\n";

#[test]
fn an_image_that_another_may_write_is_a_fault(rt: HostRuntime) -> Result<(), Fail> {
    let path = path_of(&rt, "written")?;
    let path = path.as_str();
    make_volume(&rt, path)?;
    let before = fs::read(&rt, path)?;
    let held = image_at(&rt, path, Access::Change)?;
    for job in JOBS {
        let called = call(&rt, path, Access::Change, job, WRITING)?;
        check(&rt, &called, 4, "image fault\n", job);
    }
    for job in LOOKS {
        let called = call(&rt, path, Access::Look, job, "")?;
        check(&rt, &called, 4, "image fault\n", job);
    }
    drop(held);
    let after = fs::read(&rt, path)?;
    assert!(rt; before.as_slice() == after.as_slice(), "the file changed");
    let called = call(&rt, path, Access::Look, "analyze", "")?;
    check(&rt, &called, 0, "accepted\n", "analyze, once it is free");
    fs::remove_file(&rt, path)?;
    Ok(())
}

#[test]
fn those_that_read_share_an_image(rt: HostRuntime) -> Result<(), Fail> {
    let path = path_of(&rt, "shared")?;
    let path = path.as_str();
    make_volume(&rt, path)?;
    let before = fs::read(&rt, path)?;
    let held = image_at(&rt, path, Access::Look)?;
    let called = call(&rt, path, Access::Look, "analyze", "")?;
    check(&rt, &called, 0, "accepted\n", "analyze beside a reader");
    let called = call(&rt, path, Access::Look, "records 3 3", "")?;
    check(&rt, &called, 0, "0 records\n", "records beside a reader");
    for job in JOBS {
        let called = call(&rt, path, Access::Change, job, WRITING)?;
        check(&rt, &called, 4, "image fault\n", job);
    }
    drop(held);
    let after = fs::read(&rt, path)?;
    assert!(rt; before.as_slice() == after.as_slice(), "the file changed");
    fs::remove_file(&rt, path)?;
    Ok(())
}

// The files of the system, of which none may be written.
#[derive(Drop)]
struct ReadOnly<'a>(&'a HostRuntime);

impl Alloc for ReadOnly<'_> {
    type A = Global;

    fn alloc(&self) -> Global {
        self.0.alloc()
    }
}

impl Files for ReadOnly<'_> {
    type File = File;

    type Dir = <HostRuntime as Files>::Dir;

    fn open_file(&self, how: &OpenOptions, path: &str) -> io::Result<File> {
        if how.asks_write() {
            return Err(io::Error::from(ErrorKind::PermissionDenied));
        }
        self.0.open_file(how, path)
    }

    fn open_dir(&self, path: &str) -> io::Result<<HostRuntime as Files>::Dir> {
        self.0.open_dir(path)
    }

    fn metadata(&self, path: &str) -> io::Result<Metadata> {
        self.0.metadata(path)
    }

    fn symlink_metadata(&self, path: &str) -> io::Result<Metadata> {
        self.0.symlink_metadata(path)
    }

    fn copy(&self, _from: &str, _to: &str) -> io::Result<u64> {
        Err(io::Error::from(ErrorKind::Unsupported))
    }

    fn rename(&self, _from: &str, _to: &str) -> io::Result<()> {
        Err(io::Error::from(ErrorKind::Unsupported))
    }

    fn remove_file(&self, _path: &str) -> io::Result<()> {
        Err(io::Error::from(ErrorKind::Unsupported))
    }

    fn create_dir(&self, _path: &str) -> io::Result<()> {
        Err(io::Error::from(ErrorKind::Unsupported))
    }

    fn remove_dir(&self, _path: &str) -> io::Result<()> {
        Err(io::Error::from(ErrorKind::Unsupported))
    }

    fn remove_dir_all<B: Allocator>(&self, _alloc: B, _path: &str) -> io::Result<()> {
        Err(io::Error::from(ErrorKind::Unsupported))
    }
}

#[test]
fn an_image_that_may_not_be_written_is_read(rt: HostRuntime) -> Result<(), Fail> {
    let path = path_of(&rt, "read_only")?;
    let path = path.as_str();
    make_volume(&rt, path)?;
    let made = call(&rt, path, Access::Change, "run", WRITING)?;
    assert!(rt; made.code == ExitCode::from(0), "a file is made");
    let before = fs::read(&rt, path)?;
    let only = ReadOnly(&rt);
    let called = call(&only, path, Access::Look, "analyze", "")?;
    check(&rt, &called, 0, "accepted\n", "analyze");
    let called = call(&only, path, Access::Look, "records 3 3", "")?;
    check(&rt, &called, 0, "0 records\n", "records");
    let called = call(&only, path, Access::Change, "run", READING)?;
    let report = "1 N1 LIST (11,1,0) = 0 entries\nend: 1 answered, 0 died, 213 free\n";
    check(&rt, &called, 0, report, "a script that reads");
    let called = call(&only, path, Access::Change, "rebuild", "")?;
    let nothing = "rebuilt: 0 entered, 0 entries removed, 0 files gone, 0 clusters, 0 numbers\n";
    check(
        &rt,
        &called,
        0,
        nothing,
        "a mending that has nothing to write",
    );
    for job in ["run", "run --rebuild", "store 12 1", "init 1 32 OTHER"] {
        let called = call(&only, path, Access::Change, job, WRITING)?;
        check(&rt, &called, 4, "image fault\n", job);
    }
    let called = call(&only, path, Access::Change, "soak 1", "")?;
    let is_fault = called.text.as_slice().ends_with(b"image fault\n");
    assert!(rt; is_fault, "a soak answers first what only reads");
    let after = fs::read(&rt, path)?;
    assert!(rt; before.as_slice() == after.as_slice(), "the file changed");
    fs::remove_file(&rt, path)?;
    Ok(())
}
