//! The top call: the trace of a run, printed, with its status.

ghost use Rattle.std.specs.Prelude.{Some, map, string_bytes};
ghost use Rattle.std.specs.Process.{exit_status};
ghost use Rattle.run_engine.specs.Inputs.{OfScript, OfImage};
ghost use Rattle.run_trace.specs.Traced.{wanted, wanted_by, IsTraceAnswer, IsTraceCall, IsTraceEnd};

use crate::endings::{Ending, ending_of};
use crate::tracing::{Traced, trace_script};
use blk_drive::ImageDev;
use clus_top::{good_runs_are_answered, no_other_status_is_due};
use fx_text::{TextIn, TextOut, Word};
use run_engine::{
    Called, Finished, Status, exit_code, no_memory, tell, tell_halt, tell_text, words_of,
};
use std::alloc::Global;

// Traces the script on a copy of the image, and prints the trace.
fn traced<I: ImageDev, T: TextIn, O: TextOut>(
    alloc: Global,
    image: I,
    script: &mut T,
    out: &mut O,
    ending: Ending,
) -> Finished<I>
    ensures { OfScript (T.left script.old) (λ bytes. OfImage (I.size image) (I.told image) (I.told result.image) (λ old new.
        IsTraceAnswer (Some (wanted ending)) bytes (I.size image) old new (O.written out.old) (O.written out.new)
        (T.faults script.old) (T.faults script.new) (I.faults image) (I.faults result.image) (O.faults out.old) (O.faults out.new) result.status)) }
{
    let Traced { outcome, image } = trace_script(alloc, image, script, ending);
    match outcome {
        Ok(text) => {
            let status = tell_text(out, text.as_slice());
            Finished { status, image }
        }
        Err(halt) => {
            let status = tell_halt(alloc, out, halt);
            Finished { status, image }
        }
    }
}

// Does what the words ask for.
fn done<I: ImageDev, T: TextIn, O: TextOut>(
    alloc: Global,
    words: &[Word],
    image: I,
    script: &mut T,
    out: &mut O,
) -> Finished<I>
    ensures { OfScript (T.left script.old) (λ bytes. OfImage (I.size image) (I.told image) (I.told result.image) (λ old new.
        IsTraceAnswer (wanted_by words.now) bytes (I.size image) old new (O.written out.old) (O.written out.new)
        (T.faults script.old) (T.faults script.new) (I.faults image) (I.faults result.image) (O.faults out.old) (O.faults out.new) result.status)) }
{
    match ending_of(words) {
        Some(ending) => traced(alloc, image, script, out, ending),
        None => Finished {
            status: tell(alloc, out, Status::BadWords),
            image,
        },
    }
}

/// Runs a script on a copy of the image in memory, as `vmsclus` runs it on the image, and prints the events of this run, a line for each,
/// and then its report. The image is read, and never written. With the word `--rebuild` the copy is mended once the last node is over, and
/// the report is that of `run --rebuild`. Other words are `BadWords`.
///
/// A line has the number of the step, the node, the number of its turn (or `-`), and what happened. A turn in which a request goes on waiting
/// prints none. The statuses and their texts are those of `run`, or of `run --rebuild`; if the copy cannot be mended, the lines of the trace come
/// before that text.
pub fn vmstrace<I: ImageDev, T: TextIn, O: TextOut>(
    alloc: Global,
    words: &[Word],
    image: I,
    script: &mut T,
    out: &mut O,
) -> Finished<I>
    // There are bytes of a script, and blocks of an image, as many as it has, of which all of `IsTraceCall` holds together. If the source or
    // the image tells its content, they are these.
    ensures { OfScript (T.left script.old) (λ bytes. OfImage (I.size image) (I.told image) (I.told result.image) (λ old new.
        IsTraceCall (wanted_by words.now) bytes (I.size image) old new (O.written out.old) (O.written out.new)
        (T.faults script.old) (T.faults script.new) (I.faults image) (I.faults result.image) (O.faults out.old) (O.faults out.new) result.status)) }
{
    no_other_status_is_due();
    good_runs_are_answered();
    done(alloc, words, image, script, out)
}

/// Does what these words of a command line ask for, and answers the number of the status, with the image as it was: that of `NoMemory` where
/// memory runs out before the call.
pub fn exit_trace<I: ImageDev, T: TextIn, O: TextOut>(
    alloc: Global,
    line: &[String],
    image: I,
    script: &mut T,
    out: &mut O,
) -> Called<I>
    ensures { IsTraceEnd (record {
      words = map string_bytes line.now;
      left = T.left script.old;
      size = I.size image;
      told = I.told image;
      written = O.written out.old;
      script_faults = T.faults script.old;
      image_faults = I.faults image;
      image_lost = I.lost image;
      out_faults = O.faults out.old;
    })
        (O.written out.new) (I.told result.image) (T.faults script.new) (I.faults result.image) (O.faults out.new) (exit_status result.code) }
{
    match words_of(alloc, line) {
        Ok(words) => {
            let finished = vmstrace(alloc, words.as_slice(), image, script, out);
            let code = exit_code(&finished.status);
            Called {
                code,
                image: finished.image,
            }
        }
        Err(_) => {
            let code = no_memory(out);
            Called { code, image }
        }
    }
}
