//! A script, read whole from its source.

ghost use Rattle.std.specs.Prelude.{IfOk, IfErr};
ghost use Rattle.plain_cat.specs.InForm.{InForm};
ghost use Rattle.run_engine.specs.Inputs.{OfScript};
ghost use Rattle.run_engine.specs.Scripts.{SpellsWithin, IsScriptEnd};

use crate::Status;
use fx_text::{TextFault, TextIn, read_all};
use plain_cat::Script;
use run_script::{ScriptFault, read_script};
use std::alloc::Global;

/// The greatest number of bytes of a script.
const SCRIPT_LIMIT: usize = 1_048_576;

/// Reads the script to its end, and what it spells.
pub fn script_of<T: TextIn>(alloc: Global, script: &mut T) -> Result<Script, Status>
    ensures spelt { IfOk result (λ s. OfScript (T.left script.old) (SpellsWithin s)) }
    ensures form { IfOk result InForm }
    ensures end { IfErr result (λ s. OfScript (T.left script.old) (λ bytes. IsScriptEnd bytes (T.faults script.old) (T.faults script.new) s)) }
{
    let bytes = match read_all(alloc, script, SCRIPT_LIMIT) {
        Ok(bytes) => bytes,
        Err(TextFault::ReadFault) => return Err(Status::ScriptFault),
        Err(TextFault::TooLong) => return Err(Status::ScriptTooLong),
        Err(TextFault::NoMemory) => return Err(Status::NoMemory),
    };
    match read_script(alloc, bytes.as_slice()) {
        Ok(script) => Ok(script),
        Err(ScriptFault::BadLine(n)) => Err(Status::BadScript(n)),
        Err(ScriptFault::TooMany) => Err(Status::TooMany),
        Err(ScriptFault::NoMemory) => Err(Status::NoMemory),
    }
}
