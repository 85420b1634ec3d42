//! The program `vmsclus_live IMAGE SCRIPT JOB`: one thread for each node of a cluster on one volume.
//!
//! It opens the image and the script, of which `-` is standard input, and hands the words of the job, `live` or `live --rebuild`, to the
//! live top call. What the call promises is said in `live_run`.
//!
//! ```text
//! vmsclus_live volume.img nodes.script live
//! ```
//!
//! The program itself promises nothing more: its stored run shows the report of that script, over real files. Image and script are those that
//! the first two words name, and the call has all other words: that is `opened`, and the stored run.
#![tactic(auto)]

use blk_drive::{ImageDev, MemImage};
use edge_files::{Access, Held, LockFile, SafeOut, image_at, line_of};
use fx_text::{StdIn, StdOut, TextIn};
use live_run::{Called, OpenGate, exit_call, no_memory};
use plain_cat::NoMemory;
use std::fs::OpenFile;
use std::os::unix::fs::FileExt;
use std::process::ExitCode;
use std::rt::{Env, Files};
use std::sync::Wait;
use std::thread::Threads;
use std::{fs, io};

// Calls the live top call with standard output as its sink, before which the image's file is synced where that is due. Behind the call
// nothing is done with the image but to let it go.
fn called<R, I: ImageDev + Send, F: OpenFile + Drop, T: TextIn>(
    rt: &R,
    job: &[String],
    image: I,
    due: Option<F>,
    mut script: T,
) -> ExitCode
where
    R: Threads + Wait + Sync + Print + AllocGlobal,
{
    let mut out = SafeOut::new(StdOut::new(io::writer(rt)), due);
    let Called { code, image: _ } = exit_call(
        rt,
        rt.alloc(),
        job,
        image,
        &mut script,
        &mut out,
        &OpenGate,
    );
    code
}

// Opens image and script, of which `-` is standard input, and makes the call. With fewer than two words it has no words and no blocks.
fn opened<R: Threads + Wait + Sync + Env + Files + Input + Print + AllocGlobal>(
    rt: &R,
) -> Result<ExitCode, NoMemory>
where
    R::File: FileExt + LockFile + Send,
{
    let line = line_of(rt)?;
    match line.as_slice() {
        [image, script, job @ ..] => {
            let Held { image, due } = image_at(rt, image.as_str(), Access::Change)?;
            if script.as_str() == "-" {
                return Ok(called(rt, job, image, due, StdIn::new(rt.reader())));
            }
            match fs::open(rt, script.as_str()) {
                Ok(file) => Ok(called(rt, job, image, due, StdIn::new(file))),
                Err(_) => Ok(called(rt, job, image, due, StdIn::<R::File>::absent())),
            }
        }
        _ => {
            let image = MemImage::new(Vec::new(rt.alloc()), Vec::new(rt.alloc()));
            let script = StdIn::<R::File>::absent();
            Ok(called(rt, &[], image, None::<R::File>, script))
        }
    }
}

fn main(rt: HostRuntime) -> ExitCode {
    match opened(&rt) {
        Ok(code) => code,
        Err(_) => no_memory(&mut StdOut::new(io::writer(&rt))),
    }
}
