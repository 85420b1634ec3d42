//! The program `vmstrace IMAGE SCRIPT [--rebuild]`: it runs a script on a copy of a volume in memory, and prints each event of the run, and its
//! report. With `--rebuild` the copy is mended then, and the report is that of `vmsclus run --rebuild`.
//!
//! It opens the image, to be read and never written, under a shared lock, and the script, of which `-` is standard input, and makes the
//! call of `run_trace`.
//!
//! ```text
//! vmstrace volume.img first.script
//! vmstrace volume.img first.script --rebuild
//! ```
//!
//! It ends with the number of the status. What it takes from the system no contract says; its stored run shows a trace over real files.
#![tactic(auto)]

use blk_drive::{ImageDev, MemImage};
use edge_files::{Access, LockFile, image_at, line_of};
use fx_text::{StdIn, StdOut, TextIn};
use plain_cat::NoMemory;
use run_engine::{Called, no_memory};
use run_trace::exit_trace;
use std::alloc::Global;
use std::os::unix::fs::FileExt;
use std::process::ExitCode;
use std::rt::{Env, Files};
use std::{fs, io};

// Makes the call with standard output as its sink.
fn called<R: Print + AllocGlobal, I: ImageDev, T: TextIn>(
    rt: &R,
    words: &[String],
    image: I,
    mut script: T,
) -> ExitCode {
    let mut out = StdOut::new(io::writer(rt));
    let Called { code, image: _ } = exit_trace(rt.alloc(), words, image, &mut script, &mut out);
    code
}

// Opens image and script, and makes the call. With fewer than two words it has one word, which is refused, and no blocks.
fn opened<R: Env + Files + Input + Print + AllocGlobal>(rt: &R) -> Result<ExitCode, NoMemory>
where
    R::File: FileExt + LockFile,
{
    let line = line_of(rt)?;
    match line.as_slice() {
        [image, script, words @ ..] => {
            let image = image_at(rt, image.as_str(), Access::Look)?.image;
            if script.as_str() == "-" {
                return Ok(called(rt, words, image, StdIn::new(rt.reader())));
            }
            match fs::open(rt, script.as_str()) {
                Ok(file) => Ok(called(rt, words, image, StdIn::new(file))),
                Err(_) => Ok(called(rt, words, image, StdIn::<R::File>::absent())),
            }
        }
        _ => {
            let alloc = rt.alloc();
            let mut words = Vec::new(alloc);
            words.push(String::from_str(alloc, "?")?)?;
            let image = MemImage::new(Vec::new(alloc), Vec::new(alloc));
            let script = StdIn::<R::File>::absent();
            Ok(called(rt, words.as_slice(), image, script))
        }
    }
}

fn main(rt: HostRuntime) -> ExitCode {
    match opened(&rt) {
        Ok(code) => code,
        Err(_) => no_memory(&mut StdOut::new(io::writer(&rt))),
    }
}
