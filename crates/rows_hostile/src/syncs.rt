//! Syncs that succeed, and syncs that fail.

use crate::edge_calls::{call_held, check, make_blank, path_of};
use edge_files::{Access, SafeOut, image_at};
use fx_text::{MemOut, TextOut};
use std::fs::{Metadata, OpenFile};
use std::io::ErrorKind;
use std::test::Fail;
use std::{fs, io};

// A file of which syncs succeed or fail, as it says, and nothing else does.
#[derive(Drop)]
struct Synced {
    is_kept: bool,
}

impl OpenFile for Synced {
    fn metadata(&self) -> io::Result<Metadata> {
        Err(io::Error::from(ErrorKind::Unsupported))
    }

    fn set_len(&self, _size: u64) -> io::Result<()> {
        Err(io::Error::from(ErrorKind::Unsupported))
    }

    fn sync_all(&self) -> io::Result<()> {
        if self.is_kept {
            return Ok(());
        }
        Err(io::Error::from(ErrorKind::Other))
    }

    fn sync_data(&self) -> io::Result<()> {
        Err(io::Error::from(ErrorKind::Unsupported))
    }
}

#[test]
fn nothing_is_told_of_what_is_not_safe(rt: HostRuntime) -> Result<(), Fail> {
    let alloc = rt.alloc();
    let path = path_of(&rt, "synced")?;
    let path = path.as_str();
    make_blank(&rt, path)?;
    for (is_kept, number, text) in [
        (false, 6, ""),
        (
            true,
            0,
            "volume KVOL: 256 blocks, 214 free clusters, 21 free numbers\n",
        ),
    ] {
        let image = image_at(&rt, path, Access::Change)?.image;
        let called = call_held(alloc, image, Some(Synced { is_kept }), "init 1 32 KVOL", "")?;
        check(&rt, &called, number, text, "a sync");
    }
    fs::remove_file(&rt, path)?;
    Ok(())
}

#[test]
fn a_sync_that_failed_is_not_tried_again(rt: HostRuntime) -> Result<(), Fail> {
    let alloc = rt.alloc();
    let sink = MemOut::new(alloc, 100, Vec::new(alloc))?;
    let mut out = SafeOut::new(sink, Some(Synced { is_kept: false }));
    for _ in 0..3 {
        assert!(rt; out.write(b"text").is_err(), "a write after a failed sync");
    }
    let sink = out.into_inner();
    assert!(rt; sink.bytes().is_empty(), "a byte was passed on");
    Ok(())
}
