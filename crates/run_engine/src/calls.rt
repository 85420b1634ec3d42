//! What a program does around its top call: the words of its command line, and the number with which it ends.

ghost use Rattle.std.specs.Prelude.{◌≡◌, IfOk, map, string_bytes};
ghost use Rattle.std.specs.Process.{exit_status};
ghost use Rattle.run_engine.specs.Statuses.{status_code};
ghost use Rattle.run_engine.specs.Texts.{status_text};
ghost use Rattle.fx_text.specs.Written.{IsWritten};

use crate::Status;
use blk_drive::ImageDev;
use fx_text::{TextOut, Word, write_all};
use plain_cat::NoMemory;
use std::alloc::Global;
use std::process::ExitCode;

/// What a call of a program has come to: the number with which the process is to end, and the image.
#[derive(Drop)]
pub struct Called<I: ImageDev> {
    pub code: ExitCode,
    pub image: I,
}

/// The words of a command line as those of a call.
pub fn words_of(alloc: Global, line: &[String]) -> Result<Vec<Word>, NoMemory>
    ensures { IfOk result (λ words. words.items ≡ map string_bytes line.now) }
{
    let mut words = Vec::new(alloc);
    for word in line {
        words.push(Word::new(alloc, word.as_bytes())?)?;
    }
    Ok(words)
}

/// The number of a status.
pub fn exit_code(status: &Status) -> ExitCode
    ensures { exit_status result ≡ status_code status.now }
{
    ExitCode::from(status.code())
}

/// Where memory runs out before the call: writes the text of that status, and answers its number.
#[tactic(auto, unfolding(crate::specs::Texts::status_text))]
pub fn no_memory<O: TextOut>(out: &mut O) -> ExitCode
    ensures number { exit_status result ≡ status_code Status.NoMemory }
    ensures text { IsWritten (O.written out.old) (O.written out.new) (O.faults out.old) (O.faults out.new) (status_text Status.NoMemory) }
{
    let _ = write_all(out, b"no memory\n");
    exit_code(&Status::NoMemory)
}
