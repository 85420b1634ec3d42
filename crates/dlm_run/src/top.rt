//! The top call.

ghost use Rattle.std.specs.Prelude.{◌≡◌, ◌<◌, ◌⊎◌, IfOk, IfErr};
ghost use Rattle.base_words.specs.Faults.{Rose};
ghost use Rattle.dlm_run.specs.Statuses.{status_text, fault_status, text_status, KeepsTheRules, IsPlayed, IsRefused, IsScript, IsDue, IsEnd, IsTold, Writes};
ghost use Rattle.fx_text.specs.Written.{IsWritten};
ghost use Rattle.dlm_run.specs.Printing.{run_text};

use crate::playing::play;
use crate::reading::{ReadFault, read_script};
use crate::script::Fault;
use crate::status::DlmStatus;
use dlm_core::laws;
use fx_text::{TextFault, TextIn, TextOut, read_all, write_all};
use plain_cat::NoMemory;
use plain_texts::{push_bytes, push_number};
use std::alloc::Global;

/// The greatest number of bytes of a script.
const SCRIPT_LIMIT: usize = 1_048_576;

// The status of a script that is not read.
fn fault_status(fault: ReadFault) -> DlmStatus
    ensures { result ≡ fault_status fault }
{
    match fault {
        ReadFault::Bad(Fault::BadLine(n)) => DlmStatus::BadScript(n),
        ReadFault::Bad(Fault::TooMany) => DlmStatus::TooMany,
        ReadFault::NoMemory => DlmStatus::NoMemory,
    }
}

// The status of a source that is not read.
fn text_status(fault: TextFault) -> DlmStatus
    ensures { result ≡ text_status fault }
{
    match fault {
        TextFault::ReadFault => DlmStatus::ScriptFault,
        TextFault::TooLong => DlmStatus::ScriptTooLong,
        TextFault::NoMemory => DlmStatus::NoMemory,
    }
}

// Reads a script of these bytes and plays it.
#[tactic(auto, using(crate::proofs::Nodes::script_nodes, crate::proofs::Nodes::script_rules))]
fn lines_of(alloc: Global, bytes: &[u8]) -> Result<Vec<u8>, DlmStatus>
    ensures ok { IfOk result (λ v. IsPlayed bytes.now (λ p. KeepsTheRules p × (v.items ≡ run_text p))) }
    ensures err { IfErr result (IsRefused bytes.now) }
{
    laws::beliefs_go_together();
    laws::answers_are_true();
    laws::tables_go_by_calls();
    laws::grants_are_true();
    match read_script(alloc, bytes) {
        Ok(script) => match play(alloc, script.nodes, script.events.as_slice()) {
            Ok(text) => Ok(text),
            Err(_) => Err(DlmStatus::NoMemory),
        },
        Err(fault) => Err(fault_status(fault)),
    }
}

// Reads a script to its end and plays it.
fn played<T: TextIn>(alloc: Global, script: &mut T) -> Result<Vec<u8>, DlmStatus>
    ensures ok { IfOk result (λ v. IsScript (T.left script.old) (λ p. KeepsTheRules p × (v.items ≡ run_text p))) }
    ensures err { IfErr result (IsEnd (T.left script.old) (T.faults script.old) (T.faults script.new)) }
{
    match read_all(alloc, script, SCRIPT_LIMIT) {
        Ok(text) => lines_of(alloc, text.as_slice()),
        Err(fault) => Err(text_status(fault)),
    }
}

// The text of a status.
#[tactic(auto, unfolding(crate::specs::Statuses::status_text))]
fn status_text(alloc: Global, status: DlmStatus) -> Result<Vec<u8>, NoMemory>
    ensures { IfOk result (λ text. text.items ≡ status_text status) }
{
    let mut text = Vec::new(alloc);
    match status {
        DlmStatus::Ok | DlmStatus::OutFault => {}
        DlmStatus::ScriptFault => push_bytes(&mut text, b"script fault\n")?,
        DlmStatus::ScriptTooLong => push_bytes(&mut text, b"script too long\n")?,
        DlmStatus::BadScript(n) => {
            push_bytes(&mut text, b"bad line ")?;
            push_number(alloc, &mut text, n)?;
            push_bytes(&mut text, b"\n")?;
        }
        DlmStatus::TooMany => push_bytes(&mut text, b"too many\n")?,
        DlmStatus::NoMemory => push_bytes(&mut text, b"no memory\n")?,
    }
    Ok(text)
}

// Writes a text, as far as the sink takes it.
fn write_text<O: TextOut>(out: &mut O, text: &[u8])
    ensures { IsWritten (O.written out.old) (O.written out.new) (O.faults out.old) (O.faults out.new) text.now }
{
    let _ = write_all(out, text);
}

// Writes the text of a status, and answers the status: the given one, or want of memory, whose text is written then.
#[tactic(auto, unfolding(crate::specs::Statuses::status_text))]
fn tell<O: TextOut>(alloc: Global, out: &mut O, status: DlmStatus) -> DlmStatus
    ensures status { (result ≡ status) ⊎ (result ≡ DlmStatus.NoMemory) }
    ensures text { IsWritten (O.written out.old) (O.written out.new) (O.faults out.old) (O.faults out.new) (status_text result) }
{
    match status_text(alloc, status) {
        Ok(text) => {
            write_text(out, text.as_slice());
            status
        }
        Err(_) => {
            write_text(out, b"no memory\n");
            DlmStatus::NoMemory
        }
    }
}

// Writes the lines of the events.
fn tell_lines<O: TextOut>(out: &mut O, text: &[u8]) -> DlmStatus
    ensures { IsTold (O.written out.old) (O.written out.new) (O.faults out.old) (O.faults out.new) text.now result }
{
    match write_all(out, text) {
        Ok(()) => DlmStatus::Ok,
        Err(_) => DlmStatus::OutFault,
    }
}

/// Reads a script of events, plays them on a distributed lock database without any lock, and writes a line for each: its
/// number and its answer.
///
/// A script has at most 1,048,576 bytes and 4,096 events. What is tested first is told: the script's bytes, its lines, the
/// output. All lines are made before the first is written. After each event what any two owners believe of one name goes
/// together, each answer is true, at each event the tables go by calls of the lock manager, and each grant that is told of
/// was given.
pub fn dlm_run<T: TextIn, O: TextOut>(alloc: Global, script: &mut T, out: &mut O) -> DlmStatus
    // What the status says of the script.
    ensures due { IsDue (T.left script.old) result }

    // A fault comes only where the count of that very object rose in this call.
    ensures script_fault { result ≡ DlmStatus.ScriptFault → Rose (T.faults script.old) (T.faults script.new) }
    ensures out_fault { result ≡ DlmStatus.OutFault → Rose (O.faults out.old) (O.faults out.new) }

    // With status 0 the lines of the events were written, with a fault of the sink first bytes of them, and else the text
    // of the status.
    ensures written { Writes (T.left script.old) (O.written out.old) (O.written out.new) (O.faults out.old) (O.faults out.new) result }
{
    match played(alloc, script) {
        Ok(text) => tell_lines(out, text.as_slice()),
        Err(status) => tell(alloc, out, status),
    }
}
