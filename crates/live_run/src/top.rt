//! The live top call: a script with a thread for each node, and the volume mended then where that is asked.

ghost use Rattle.std.specs.Prelude.{Some};
ghost use Rattle.run_engine.specs.Inputs.{OfScript, OfImage};
ghost use Rattle.live_run.specs.Calls.{IsAnswer, IsCall};
ghost use Rattle.live_run.specs.Words.{job_of};

use crate::gate::Gate;
use crate::laws::{good_live_runs_are_answered, no_other_live_status_is_due};
use crate::live::live_script;
use crate::words::{Job, job_of};
use blk_drive::ImageDev;
use fx_text::{TextIn, TextOut, Word};
use run_engine::{Finished, MendedRun, Status, blocks_are_counted, tell, tell_halt, tell_text};
use std::alloc::Global;
use std::sync::Wait;
use std::thread::Threads;

// A job of the words.
fn live<R: Threads + Wait + Sync, I: ImageDev + Send, T: TextIn, O: TextOut, G: Gate + Sync>(
    rt: &R,
    alloc: Global,
    image: I,
    script: &mut T,
    out: &mut O,
    gate: &G,
    job: Job,
) -> Finished<I>
    ensures { OfScript (T.left script.old) (λ bytes. OfImage (I.size image) (I.told image) (I.told result.image) (λ old new.
        IsAnswer (Some job) bytes (I.size image) old new (O.written out.old) (O.written out.new)
        (T.faults script.old) (T.faults script.new) (I.faults image) (I.faults result.image) (I.lost image) (I.lost result.image) (O.faults out.old) (O.faults out.new) result.status)) }
{
    let MendedRun { outcome, image } = live_script(rt, alloc, image, script, gate, job);
    match outcome {
        Ok(text) => {
            let status = tell_text(out, text.as_slice());
            Finished { status, image }
        }
        Err(halt) => {
            let status = tell_halt(alloc, out, halt);
            Finished { status, image }
        }
    }
}

// Does the job of the words.
fn done<R: Threads + Wait + Sync, I: ImageDev + Send, T: TextIn, O: TextOut, G: Gate + Sync>(
    rt: &R,
    alloc: Global,
    words: &[Word],
    image: I,
    script: &mut T,
    out: &mut O,
    gate: &G,
) -> Finished<I>
    ensures { OfScript (T.left script.old) (λ bytes. OfImage (I.size image) (I.told image) (I.told result.image) (λ old new.
        IsAnswer (job_of words.now) bytes (I.size image) old new (O.written out.old) (O.written out.new)
        (T.faults script.old) (T.faults script.new) (I.faults image) (I.faults result.image) (I.lost image) (I.lost result.image) (O.faults out.old) (O.faults out.new) result.status)) }
{
    blocks_are_counted(&image);
    match job_of(words) {
        Some(job) => live(rt, alloc, image, script, out, gate, job),
        None => Finished {
            status: tell(alloc, out, Status::BadWords),
            image,
        },
    }
}

/// Runs a script with a thread for each node, if the words are `live`, and mends the volume then, if they are `live --rebuild`; other words
/// are `BadWords`.
///
/// It does what `run` and `run --rebuild` do, with threads in place of turns. The nodes' steps come in the order in which their threads come
/// to them, the schedule of the script is not used, and a kill counts the node's own turns or writes. Before each of its steps a node's
/// thread calls the gate. A node for which no thread could be started makes its steps once the others have ended.
///
/// The call starts threads and waits for them, so no clause says that it returns, and none says in which time or in which order
/// threads go on.
pub fn vmsclus_live<
    R: Threads + Wait + Sync,
    I: ImageDev + Send,
    T: TextIn,
    O: TextOut,
    G: Gate + Sync,
>(
    rt: &R,
    alloc: Global,
    words: &[Word],
    image: I,
    script: &mut T,
    out: &mut O,
    gate: &G,
) -> Finished<I>
    // There are bytes of a script, blocks of an image, as many as it has, and blocks that it has then, of which all of `IsCall` holds
    // together: what the status says of what came in, when a fault comes, what was written, which blocks are left, that no other status was
    // due if this one is no fault and no want of memory (with a mending also not `NotMendable`), and that a good script is answered but for
    // these. If the source or the image tells its content, they are these. If it does not, as a file, no
    // contract says which they are.
    ensures { OfScript (T.left script.old) (λ bytes. OfImage (I.size image) (I.told image) (I.told result.image) (λ old new.
        IsCall (job_of words.now) bytes (I.size image) old new (O.written out.old) (O.written out.new)
        (T.faults script.old) (T.faults script.new) (I.faults image) (I.faults result.image) (I.lost image) (I.lost result.image) (O.faults out.old) (O.faults out.new) result.status)) }
{
    no_other_live_status_is_due();
    good_live_runs_are_answered();
    done(rt, alloc, words, image, script, out, gate)
}
