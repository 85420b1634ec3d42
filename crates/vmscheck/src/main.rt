//! The program `vmscheck BEFORE AFTER REPORT`: it judges whether a report is a legal history from the one volume to the other.
//!
//! It opens two images, to be read and never written, each under a shared lock, and the report, of which `-` is standard input, and makes
//! the call of `log_check`.
//!
//! ```text
//! vmscheck before.img after.img report.txt
//! ```
//!
//! It ends with the number of the status (`exit_code`). What it takes from the system no contract says; its stored run is one of
//! wrong words.
#![tactic(auto)]

ghost use Rattle.std.specs.Prelude.{◌≡◌};
ghost use Rattle.std.specs.Process.{exit_status};
ghost use Rattle.log_check.specs.Codes.{status_code};

use blk_drive::{ImageDev, MemImage};
use edge_files::{Access, LockFile, image_at, line_of};
use fx_text::{StdIn, StdOut, TextIn, TextOut, Word, write_all};
use log_check::{CheckStatus, check_log};
use plain_cat::NoMemory;
use std::alloc::Global;
use std::os::unix::fs::FileExt;
use std::process::ExitCode;
use std::rt::{Env, Files};
use std::{fs, io};

// The number of a status.
fn exit_code(status: &CheckStatus) -> ExitCode
    ensures { exit_status result ≡ status_code status.now }
{
    ExitCode::from(status.code())
}

// Where memory runs out before the call: writes the text of that status, and answers its number.
fn no_memory<O: TextOut>(out: &mut O) -> ExitCode
    ensures { exit_status result ≡ status_code CheckStatus.NoMemory }
{
    let _ = write_all(out, b"no memory\n");
    exit_code(&CheckStatus::NoMemory)
}

// Makes the call with standard output as its sink.
fn called<R: Print + AllocGlobal, I: ImageDev, J: ImageDev, T: TextIn>(
    rt: &R,
    words: &[Word],
    before: I,
    after: J,
    mut log: T,
) -> ExitCode {
    let mut out = StdOut::new(io::writer(rt));
    let checking = check_log(rt.alloc(), words, before, after, &mut log, &mut out);
    exit_code(&checking.status)
}

// Where the line has not three paths: the call has one word, which it refuses, and no images.
fn refused<R: Files + Print + AllocGlobal>(rt: &R) -> Result<ExitCode, NoMemory> {
    let alloc = rt.alloc();
    let mut words = Vec::new(alloc);
    words.push(Word::new(alloc, b"?")?)?;
    let before = MemImage::new(Vec::new(alloc), Vec::new(alloc));
    let after = MemImage::new(Vec::new(alloc), Vec::new(alloc));
    Ok(called(
        rt,
        words.as_slice(),
        before,
        after,
        StdIn::<R::File>::absent(),
    ))
}

// Opens both images and the report, of which `-` is standard input, and makes the call.
fn opened<R: Env + Files + Input + Print + AllocGlobal>(rt: &R) -> Result<ExitCode, NoMemory>
where
    R::File: FileExt + LockFile,
{
    let line = line_of(rt)?;
    let [before, after, log] = line.as_slice() else {
        return refused(rt);
    };
    let before = image_at(rt, before.as_str(), Access::Look)?.image;
    let after = image_at(rt, after.as_str(), Access::Look)?.image;
    if log.as_str() == "-" {
        return Ok(called(rt, &[], before, after, StdIn::new(rt.reader())));
    }
    match fs::open(rt, log.as_str()) {
        Ok(file) => Ok(called(rt, &[], before, after, StdIn::new(file))),
        Err(_) => Ok(called(rt, &[], before, after, StdIn::<R::File>::absent())),
    }
}

fn main(rt: HostRuntime) -> ExitCode {
    match opened(&rt) {
        Ok(code) => code,
        Err(_) => no_memory(&mut StdOut::new(io::writer(&rt))),
    }
}
