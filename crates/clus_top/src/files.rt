//! The program over real files: it opens image and script, and makes the top call.

use crate::calling::exit_call;
use blk_drive::{ImageDev, MemImage};
use edge_files::{Access, Held, LockFile, SafeOut, image_at, line_of};
use fx_text::{StdIn, StdOut, TextIn};
use plain_cat::NoMemory;
use run_engine::{Called, no_memory};
use std::fs::OpenFile;
use std::os::unix::fs::FileExt;
use std::process::ExitCode;
use std::rt::{Env, Files};
use std::{fs, io};

// What the words of a job do with the image: `analyze` and `records` read it, and all else may write it.
fn access_of(job: &[String]) -> Access {
    match job {
        [word] if word.as_str() == "analyze" => Access::Look,
        [word, _, _] if word.as_str() == "records" => Access::Look,
        _ => Access::Change,
    }
}

// Calls the top call with standard output as its sink, before which the image's file is synced where that is due. Behind the call nothing is
// done with the image but to let it go.
fn called<R: Print + AllocGlobal, I: ImageDev, F: OpenFile + Drop, T: TextIn>(
    rt: &R,
    job: &[String],
    image: I,
    due: Option<F>,
    mut script: T,
) -> ExitCode {
    let mut out = SafeOut::new(StdOut::new(io::writer(rt)), due);
    let Called { code, image: _ } = exit_call(rt.alloc(), job, image, &mut script, &mut out);
    code
}

// Opens image and script, of which `-` is standard input, and makes the call. With fewer than two words it has no words and no blocks.
fn opened<R: Env + Files + Input + Print + AllocGlobal>(rt: &R) -> Result<ExitCode, NoMemory>
where
    R::File: FileExt + LockFile,
{
    let line = line_of(rt)?;
    match line.as_slice() {
        [image, script, job @ ..] => {
            let Held { image, due } = image_at(rt, image.as_str(), access_of(job))?;
            if script.as_str() == "-" {
                return Ok(called(rt, job, image, due, StdIn::new(rt.reader())));
            }
            match fs::open(rt, script.as_str()) {
                Ok(file) => Ok(called(rt, job, image, due, StdIn::new(file))),
                Err(_) => Ok(called(rt, job, image, due, StdIn::<R::File>::absent())),
            }
        }
        _ => {
            let image = MemImage::new(Vec::new(rt.alloc()), Vec::new(rt.alloc()));
            let script = StdIn::<R::File>::absent();
            Ok(called(rt, &[], image, None::<R::File>, script))
        }
    }
}

/// The program: its first word is the path of the image, its second that of the script, and the rest are the words of the call.
pub fn run<R: Env + Files + Input + Print + AllocGlobal>(rt: &R) -> ExitCode
where
    R::File: FileExt + LockFile,
{
    match opened(rt) {
        Ok(code) => code,
        Err(_) => no_memory(&mut StdOut::new(io::writer(rt))),
    }
}
