//! What is no image, and what is no script.

use crate::edge_calls::{call, call_held, check, make_volume, path_of};
use clus_top::{Called, exit_call};
use edge_files::{Access, Held, image_at};
use fx_text::{MemOut, StdIn};
use std::fs;
use std::fs::File;
use std::process::ExitCode;
use std::test::Fail;

#[test]
fn what_is_no_file_is_a_fault(rt: HostRuntime) -> Result<(), Fail> {
    let missing = path_of(&rt, "missing")?;
    let folder = path_of(&rt, "folder")?;
    fs::create_dir(&rt, folder.as_str())?;
    for path in [
        missing.as_str(),
        folder.as_str(),
        "/dev/null",
        "/dev/zero",
        "",
    ] {
        let called = call(&rt, path, Access::Look, "analyze", "")?;
        check(&rt, &called, 4, "image fault\n", path);
        let called = call(&rt, path, Access::Change, "init 1 32 KVOL", "")?;
        check(&rt, &called, 4, "image fault\n", path);
    }
    fs::remove_dir(&rt, folder.as_str())?;
    Ok(())
}

#[test]
fn a_file_that_shrinks_was_read_when_it_was_opened(rt: HostRuntime) -> Result<(), Fail> {
    let alloc = rt.alloc();
    let path = path_of(&rt, "shrinks")?;
    let path = path.as_str();
    make_volume(&rt, path)?;
    let Held { image, due } = image_at(&rt, path, Access::Change)?;
    File::options()
        .write(true)
        .open(&rt, path)?
        .set_len(100 * 512)?;
    let called = call_held(alloc, image, due, "analyze", "")?;
    check(&rt, &called, 0, "accepted\n", "a file that has shrunk");
    let called = call(&rt, path, Access::Look, "analyze", "")?;
    let is_found = called.code == ExitCode::from(5);
    assert!(rt; is_found, "a volume without its last blocks");
    fs::remove_file(&rt, path)?;
    Ok(())
}

#[test]
fn a_file_of_another_size_is_told_by_its_blocks(rt: HostRuntime) -> Result<(), Fail> {
    let path = path_of(&rt, "small")?;
    let path = path.as_str();
    for (length, text) in [(0, "bad size 0\n"), (63 * 512 + 511, "bad size 63\n")] {
        let bytes: Vec<u8> = vec![in rt.alloc(); 0; length]?;
        fs::write(&rt, path, bytes.as_slice())?;
        let called = call(&rt, path, Access::Look, "analyze", "")?;
        check(&rt, &called, 4, text, "a small file");
    }
    fs::remove_file(&rt, path)?;
    Ok(())
}

#[test]
fn a_script_that_is_a_folder_is_a_fault(rt: HostRuntime) -> Result<(), Fail> {
    let alloc = rt.alloc();
    let path = path_of(&rt, "scripted")?;
    let path = path.as_str();
    make_volume(&rt, path)?;
    let folder = path_of(&rt, "script")?;
    fs::create_dir(&rt, folder.as_str())?;
    let mut source = StdIn::new(fs::open(&rt, folder.as_str())?);
    let mut out = MemOut::new(alloc, 100, Vec::new(alloc))?;
    let mut line = Vec::new(alloc);
    line.push("run".to_string(alloc)?)?;
    let image = image_at(&rt, path, Access::Change)?.image;
    let Called { code, image: _ } = exit_call(alloc, line.as_slice(), image, &mut source, &mut out);
    assert!(rt; code == ExitCode::from(2), "the number");
    assert!(rt; out.bytes() == b"script fault\n".as_slice(), "the text");
    fs::remove_dir(&rt, folder.as_str())?;
    fs::remove_file(&rt, path)?;
    Ok(())
}
