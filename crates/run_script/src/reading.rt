//! A whole script, read line by line.

ghost use Rattle.std.specs.Prelude.{◌≡◌, ◌⊎◌, ℕ, None, Ok, Err, IfOk};
ghost use Rattle.plain_cat.specs.declared.script.Script.{Script};
ghost use Rattle.run_script.specs.Lines.{lines_of};
ghost use Rattle.run_script.specs.Spelling.{SpellsScript, IsBadLine, IsTooMany};
ghost use Rattle.run_script.specs.Steps.{Reads, read_from};
ghost use Rattle.plain_cat.specs.InForm.{InForm};

use crate::fault::{LineFault, ScriptFault};
use crate::lines::split_line;
use crate::states::take_line;
use plain_cat::Script;
use std::alloc::Global;

// Reads a script line by line.
fn read_lines(alloc: Global, bytes: &[u8]) -> Result<Script, ScriptFault>
    ensures { Reads (read_from None 1 (lines_of bytes.now)) result }
{
    let mut state = None;
    let mut number = 1u32;
    let mut rest = bytes;
    while let Some(split) = split_line(rest) {
        match take_line(alloc, state, split.line) {
            Ok(next) => state = next,
            Err(LineFault::Bad) => return Err(ScriptFault::BadLine(number)),
            Err(LineFault::TooMany) => return Err(ScriptFault::TooMany),
            Err(LineFault::NoMemory) => return Err(ScriptFault::NoMemory),
        }
        if number == u32::MAX {
            return Err(ScriptFault::NoMemory);
        }
        number += 1;
        rest = split.rest;
    }
    state.ok_or(ScriptFault::BadLine(number))
}

/// Reads a script.
///
/// The answer is the script that the lines spell, all of it, which is in form, or the first fault in the order of the
/// lines: [`ScriptFault::BadLine`] with the number of the first line that says nothing which may stand there, or
/// [`ScriptFault::TooMany`] where a line that is good makes too many commands or plays. Memory aside each comes exactly
/// there.
pub fn read_script(alloc: Global, bytes: &[u8]) -> Result<Script, ScriptFault>
    ensures spelt { IfOk result (SpellsScript (lines_of bytes.now)) }
    ensures form { IfOk result InForm }
    ensures bad { (n : ℕ) → result ≡ Err (ScriptFault.BadLine n) → IsBadLine (lines_of bytes.now) n }
    ensures over { result ≡ Err ScriptFault.TooMany → IsTooMany (lines_of bytes.now) }
    ensures each_script { (s : Script) → SpellsScript (lines_of bytes.now) s → (result ≡ Ok s) ⊎ (result ≡ Err ScriptFault.NoMemory) }
    ensures each_bad { (n : ℕ) → IsBadLine (lines_of bytes.now) n → (result ≡ Err (ScriptFault.BadLine n)) ⊎ (result ≡ Err ScriptFault.NoMemory) }
    ensures each_over { IsTooMany (lines_of bytes.now) → (result ≡ Err ScriptFault.TooMany) ⊎ (result ≡ Err ScriptFault.NoMemory) }
{
    read_lines(alloc, bytes)
}
