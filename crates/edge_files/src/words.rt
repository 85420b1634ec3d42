//! The words of the command line.

use blk_drive::NoMemory;
use std::rt::Env;
use std::{env, io};

/// The words of the command line behind the program's name. Words that are no text are none.
pub fn line_of<R: Env + AllocGlobal>(rt: &R) -> Result<Vec<String>, NoMemory> {
    let mut line = Vec::new(rt.alloc());
    match env::args(rt) {
        Ok(args) => {
            for word in args.skip(1) {
                line.push(word)?;
            }
        }
        Err(e) if e.kind() == io::ErrorKind::OutOfMemory => return Err(NoMemory {}),
        Err(_) => {}
    }
    Ok(line)
}
