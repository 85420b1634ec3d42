//! Calls of the program's call over files, and the files.

use blk_drive::NoMemory;
use blk_files::{FileImage, SystemFile};
use clus_top::exit_call;
use edge_files::{Access, Held, LockFile, SafeOut, image_at};
use fx_text::{MemIn, MemOut};
use std::alloc::Global;
use std::fs::OpenFile;
use std::os::unix::fs::FileExt;
use std::path::PathBuf;
use std::process::{Abort, ExitCode};
use std::rt::Files;
use std::test::Fail;
use std::{env, fs, process};

/// The blocks of a small volume.
pub const BLOCKS: usize = 256;

/// What a call left: its number, and what was written.
#[derive(Drop)]
pub struct Called {
    pub code: ExitCode,
    pub text: Vec<u8>,
}

// The words of a line that one space parts.
fn line_of(alloc: Global, text: &str) -> Result<Vec<String>, NoMemory> {
    let mut line = Vec::new(alloc);
    for word in text.split(' ') {
        line.push(word.to_string(alloc)?)?;
    }
    Ok(line)
}

/// Makes the call with these words and this script over an image that is held.
pub fn call_held<G: FileExt + OpenFile + Drop, F: OpenFile + Drop>(
    alloc: Global,
    image: FileImage<SystemFile<G>>,
    due: Option<F>,
    words: &str,
    script: &str,
) -> Result<Called, NoMemory> {
    let line = line_of(alloc, words)?;
    let mut source = MemIn::new(Vec::from_slice(alloc, script.as_bytes())?, Vec::new(alloc));
    let sink = MemOut::new(alloc, 2000, Vec::new(alloc))?;
    let mut out = SafeOut::new(sink, due);
    let clus_top::Called { code, image: _ } = exit_call(
        alloc,
        line.as_slice(),
        image,
        &mut source,
        &mut out,
    );
    let sink = out.into_inner();
    let text = Vec::from_slice(alloc, sink.bytes())?;
    Ok(Called { code, text })
}

/// Opens the image as a program does, and makes the call.
pub fn call<R: Files + AllocGlobal>(
    rt: &R,
    path: &str,
    access: Access,
    words: &str,
    script: &str,
) -> Result<Called, NoMemory>
where
    R::File: FileExt + LockFile,
{
    let Held { image, due } = image_at(rt, path, access)?;
    call_held(rt.alloc(), image, due, words, script)
}

/// Compares the number and the text of a call.
pub fn check(rt: &impl Abort, called: &Called, number: u8, text: &str, about: &str) {
    assert!(rt;
        called.text.as_slice() == text.as_bytes(),
        "{about}: the text"
    );
    assert!(rt;
        called.code == ExitCode::from(number),
        "{about}: the number"
    );
}

/// A path in the folder for temporary files, of this name and this process.
pub fn path_of(rt: &HostRuntime, name: &str) -> Result<PathBuf, Fail> {
    let alloc = rt.alloc();
    let name = format!(in alloc; "wulnask-{name}-{}", process::id(rt.process()))?;
    Ok(env::temp_dir(rt)?.join(alloc, name.as_str())?)
}

/// Makes a file of zero blocks.
pub fn make_blank(rt: &HostRuntime, path: &str) -> Result<(), Fail> {
    let zeros: Vec<u8> = vec![in rt.alloc(); 0; BLOCKS * 512]?;
    fs::write(rt, path, zeros.as_slice())?;
    Ok(())
}

/// Makes a file with a fresh volume.
pub fn make_volume(rt: &HostRuntime, path: &str) -> Result<(), Fail> {
    make_blank(rt, path)?;
    let made = call(rt, path, Access::Change, "init 1 32 KVOL", "")?;
    if made.code == ExitCode::from(0) {
        return Ok(());
    }
    Err(Fail::from("no volume was made"))
}
