//! The top call: each job with its output, its status and the image. Its contract is the theorem of this project.

ghost use Rattle.std.specs.Prelude.{◌≡◌, ◌≤◌, ℕ, List, Some};
ghost use Rattle.base_words.specs.Faults.{Rose};
ghost use Rattle.base_words.specs.Fields.{Block};
ghost use Rattle.vol_parts.specs.Findings.{AreFindings};
ghost use Rattle.run_engine.specs.Inputs.{OfScript, OfImage};
ghost use Rattle.run_engine.specs.Texts.{IsPlainText, Writes};
ghost use Rattle.clus_top.specs.Calls.{IsAnswer, IsCall};
ghost use Rattle.clus_top.specs.Ends.{IsFoundEnd};
ghost use Rattle.clus_top.specs.Statuses.{accepted_text};
ghost use Rattle.clus_top.specs.Words.{Run, RunRebuild, Soak, Analyze, Rebuild as Mending, Repair as Repairing, Records, Store, Init, wanted_by};

use crate::analysis::{Analysis, analyze_image};
use crate::format::{Format, init_image};
use crate::laws::{good_runs_are_answered, no_other_status_is_due};
use crate::rebuild::{Rebuild, mend_image};
use crate::records::{Reading, read_records};
use crate::repair::{Repair, repair_image};
use crate::run_job::{Ran, run_script, run_soak};
use crate::run_rebuild::run_and_mend;
use crate::store::{Stored, store_text};
use crate::words::{Job, job_of};
use blk_drive::ImageDev;
use fx_text::{TextIn, TextOut, Word};
use run_engine::{Finished, MendedRun, Status, halt_of, tell, tell_findings, tell_halt, tell_text};
use std::alloc::Global;
use vol_analyze::Finding;

// The job `run`.
fn run<I: ImageDev, T: TextIn, O: TextOut>(
    alloc: Global,
    image: I,
    script: &mut T,
    out: &mut O,
) -> Finished<I>
    ensures { OfScript (T.left script.old) (λ bytes. OfImage (I.size image) (I.told image) (I.told result.image) (λ old new.
        IsAnswer (Some Run) bytes (I.size image) old new (O.written out.old) (O.written out.new)
        (T.faults script.old) (T.faults script.new) (I.faults image) (I.faults result.image) (I.lost image) (I.lost result.image) (O.faults out.old) (O.faults out.new) result.status)) }
{
    let Ran { outcome, image } = run_script(alloc, image, script);
    match outcome {
        Ok(text) => {
            let status = tell_text(out, text.as_slice());
            Finished { status, image }
        }
        Err(stop) => {
            let status = tell_halt(alloc, out, halt_of(stop));
            Finished { status, image }
        }
    }
}

// The job `run --rebuild`.
fn run_rebuild<I: ImageDev, T: TextIn, O: TextOut>(
    alloc: Global,
    image: I,
    script: &mut T,
    out: &mut O,
) -> Finished<I>
    ensures { OfScript (T.left script.old) (λ bytes. OfImage (I.size image) (I.told image) (I.told result.image) (λ old new.
        IsAnswer (Some RunRebuild) bytes (I.size image) old new (O.written out.old) (O.written out.new)
        (T.faults script.old) (T.faults script.new) (I.faults image) (I.faults result.image) (I.lost image) (I.lost result.image) (O.faults out.old) (O.faults out.new) result.status)) }
{
    let MendedRun { outcome, image } = run_and_mend(alloc, image, script);
    match outcome {
        Ok(text) => {
            let status = tell_text(out, text.as_slice());
            Finished { status, image }
        }
        Err(halt) => {
            let status = tell_halt(alloc, out, halt);
            Finished { status, image }
        }
    }
}

// The job `soak`. It reads no script.
fn soak<I: ImageDev, O: TextOut>(alloc: Global, image: I, n: u32, out: &mut O) -> Finished<I>
    requires { n ≤ 256 }
    ensures { (bytes : List ℕ) (faults : ℕ) → OfImage (I.size image) (I.told image) (I.told result.image) (λ old new.
        IsAnswer (Some (Soak n)) bytes (I.size image) old new (O.written out.old) (O.written out.new)
        faults faults (I.faults image) (I.faults result.image) (I.lost image) (I.lost result.image) (O.faults out.old) (O.faults out.new) result.status) }
{
    let Ran { outcome, image } = run_soak(alloc, image, n);
    match outcome {
        Ok(text) => {
            let status = tell_text(out, text.as_slice());
            Finished { status, image }
        }
        Err(stop) => {
            let status = tell_halt(alloc, out, halt_of(stop));
            Finished { status, image }
        }
    }
}

// Prints what is found.
fn tell_found<O: TextOut>(alloc: Global, out: &mut O, findings: &[Finding]) -> Status
    ensures end { IsFoundEnd findings.now result }
    ensures out_fault { result ≡ Status.OutFault → Rose (O.faults out.old) (O.faults out.new) }
    ensures written { (bs : List Block) → AreFindings bs findings.now
        → Writes (λ text. text ≡ accepted_text) IsPlainText bs (O.written out.old) (O.written out.new) (O.faults out.old) (O.faults out.new) result }
{
    match findings {
        [] => tell_text(out, b"accepted\n"),
        found => tell_findings(alloc, out, found),
    }
}

// The job `analyze`.
fn analyze<I: ImageDev, O: TextOut>(alloc: Global, image: I, out: &mut O) -> Finished<I>
    ensures { (bytes : List ℕ) (faults : ℕ) → OfImage (I.size image) (I.told image) (I.told result.image) (λ old new.
        IsAnswer (Some Analyze) bytes (I.size image) old new (O.written out.old) (O.written out.new)
        faults faults (I.faults image) (I.faults result.image) (I.lost image) (I.lost result.image) (O.faults out.old) (O.faults out.new) result.status) }
{
    let Analysis { outcome, image } = analyze_image(alloc, image);
    match outcome {
        Ok(findings) => {
            let status = tell_found(alloc, out, findings.as_slice());
            Finished { status, image }
        }
        Err(fault) => {
            let status = tell(alloc, out, fault);
            Finished { status, image }
        }
    }
}

// The job `rebuild`.
fn rebuild<I: ImageDev, O: TextOut>(alloc: Global, image: I, out: &mut O) -> Finished<I>
    ensures { (bytes : List ℕ) (faults : ℕ) → OfImage (I.size image) (I.told image) (I.told result.image) (λ old new.
        IsAnswer (Some Mending) bytes (I.size image) old new (O.written out.old) (O.written out.new)
        faults faults (I.faults image) (I.faults result.image) (I.lost image) (I.lost result.image) (O.faults out.old) (O.faults out.new) result.status) }
{
    let Rebuild { outcome, image } = mend_image(alloc, image);
    match outcome {
        Ok(text) => {
            let status = tell_text(out, text.as_slice());
            Finished { status, image }
        }
        Err(fault) => {
            let status = tell(alloc, out, fault);
            Finished { status, image }
        }
    }
}

// The job `repair`.
fn repair<I: ImageDev, O: TextOut>(alloc: Global, image: I, out: &mut O) -> Finished<I>
    ensures { (bytes : List ℕ) (faults : ℕ) → OfImage (I.size image) (I.told image) (I.told result.image) (λ old new.
        IsAnswer (Some Repairing) bytes (I.size image) old new (O.written out.old) (O.written out.new)
        faults faults (I.faults image) (I.faults result.image) (I.lost image) (I.lost result.image) (O.faults out.old) (O.faults out.new) result.status) }
{
    let Repair { outcome, image } = repair_image(alloc, image);
    match outcome {
        Ok(text) => {
            let status = tell_text(out, text.as_slice());
            Finished { status, image }
        }
        Err(fault) => {
            let status = tell(alloc, out, fault);
            Finished { status, image }
        }
    }
}

// The job `records`. It reads no script.
fn records<I: ImageDev, O: TextOut>(
    alloc: Global,
    image: I,
    file: u32,
    seq: u16,
    out: &mut O,
) -> Finished<I>
    ensures { (bytes : List ℕ) (faults : ℕ) → OfImage (I.size image) (I.told image) (I.told result.image) (λ old new.
        IsAnswer (Some (Records file seq)) bytes (I.size image) old new (O.written out.old) (O.written out.new)
        faults faults (I.faults image) (I.faults result.image) (I.lost image) (I.lost result.image) (O.faults out.old) (O.faults out.new) result.status) }
{
    let Reading { outcome, image } = read_records(alloc, image, file, seq);
    match outcome {
        Ok(text) => {
            let status = tell_text(out, text.as_slice());
            Finished { status, image }
        }
        Err(fault) => {
            let status = tell(alloc, out, fault);
            Finished { status, image }
        }
    }
}

// The job `store`.
fn store<I: ImageDev, T: TextIn, O: TextOut>(
    alloc: Global,
    image: I,
    file: u32,
    seq: u16,
    script: &mut T,
    out: &mut O,
) -> Finished<I>
    ensures { OfScript (T.left script.old) (λ bytes. OfImage (I.size image) (I.told image) (I.told result.image) (λ old new.
        IsAnswer (Some (Store file seq)) bytes (I.size image) old new (O.written out.old) (O.written out.new)
        (T.faults script.old) (T.faults script.new) (I.faults image) (I.faults result.image) (I.lost image) (I.lost result.image) (O.faults out.old) (O.faults out.new) result.status)) }
{
    let Stored { outcome, image } = store_text(alloc, image, file, seq, script);
    match outcome {
        Ok(text) => {
            let status = tell_text(out, text.as_slice());
            Finished { status, image }
        }
        Err(fault) => {
            let status = tell(alloc, out, fault);
            Finished { status, image }
        }
    }
}

// The job `init`.
fn init<I: ImageDev, O: TextOut>(
    alloc: Global,
    image: I,
    cluster: u32,
    files: u32,
    label: &[u8],
    out: &mut O,
) -> Finished<I>
    ensures { (bytes : List ℕ) (faults : ℕ) → OfImage (I.size image) (I.told image) (I.told result.image) (λ old new.
        IsAnswer (Some (Init cluster files label.now)) bytes (I.size image) old new (O.written out.old) (O.written out.new)
        faults faults (I.faults image) (I.faults result.image) (I.lost image) (I.lost result.image) (O.faults out.old) (O.faults out.new) result.status) }
{
    let Format { outcome, image } = init_image(alloc, image, cluster, files, label);
    match outcome {
        Ok(text) => {
            let status = tell_text(out, text.as_slice());
            Finished { status, image }
        }
        Err(fault) => {
            let status = tell(alloc, out, fault);
            Finished { status, image }
        }
    }
}

// Does the job of the words.
fn done<I: ImageDev, T: TextIn, O: TextOut>(
    alloc: Global,
    words: &[Word],
    image: I,
    script: &mut T,
    out: &mut O,
) -> Finished<I>
    ensures { OfScript (T.left script.old) (λ bytes. OfImage (I.size image) (I.told image) (I.told result.image) (λ old new.
        IsAnswer (wanted_by words.now) bytes (I.size image) old new (O.written out.old) (O.written out.new)
        (T.faults script.old) (T.faults script.new) (I.faults image) (I.faults result.image) (I.lost image) (I.lost result.image) (O.faults out.old) (O.faults out.new) result.status)) }
{
    match job_of(words) {
        Some(Job::Run) => run(alloc, image, script, out),
        Some(Job::RunRebuild) => run_rebuild(alloc, image, script, out),
        Some(Job::Soak(n)) => soak(alloc, image, n, out),
        Some(Job::Analyze) => analyze(alloc, image, out),
        Some(Job::Rebuild) => rebuild(alloc, image, out),
        Some(Job::Repair) => repair(alloc, image, out),
        Some(Job::Records { file, seq }) => records(alloc, image, file, seq, out),
        Some(Job::Store { file, seq }) => store(alloc, image, file, seq, script, out),
        Some(
            Job::Init {
                cluster,
                files,
                label,
            },
        ) => init(alloc, image, cluster, files, label, out),
        None => Finished {
            status: tell(alloc, out, Status::BadWords),
            image,
        },
    }
}

/// Does the job that the words ask for, prints its text, and gives the image back.
///
/// `run` reads a script of at most 1,048,576 bytes and runs it on a volume in which nothing is found. Its commands are all fifteen,
/// of any file and directory, by an identifier or a register. Its nodes, 1 to 8, first have a turn for each play of the schedule, and
/// then turns in rotation from node 1 until each has given its commands, and has closed what it left open; a node that is done makes
/// no turn. Where the script kills a node, it dies in place of that turn, and makes no other. `run --rebuild` does the same, and mends the
/// volume once the last node is over, as `rebuild` does.
/// `soak N`, for N from 1 to 256, does the same with the script that is drawn from N, for 4 nodes and with 16 N commands, and prints one
/// line: how many of them were carried out and how many refused, how many blocks the nodes read and how many they found in their caches,
/// and the free clusters. `analyze` prints what is found in a volume. `rebuild` mends a volume that has no fatal finding, and prints what it
/// did; what it leaves where it is stopped mends to the same. `repair` makes an accepted volume of one that cannot be mended, if nothing is beyond
/// repair: it keeps every sound file, except one that is marked for delete and an empty lost one without room, frees what is broken or shared, and prints how many header slots it freed and what mending did
/// then; a repair that is stopped can be made again. `records N S` prints the variable-length records of the file of number N and
/// sequence S on a volume in which nothing is found, a line for each, and how many there are; it changes nothing. `store N S` reads a text of at
/// most 1,048,576 bytes and stores its lines, each of at most 32,767 bytes, as variable-length records in the file of number N and sequence
/// S, in which nothing was written so far, on a volume in which nothing is found. `init CLUSTER FILES LABEL` makes a volume with 1 to 16
/// blocks in a cluster, 32 to 4,096 file numbers, and a label of 1 to 12 characters of A to Z, 0 to 9, `$`, `_`
/// and `-`. Other words are `BadWords`.
///
/// What is tested first is told: the words; of a run and a store the script's bytes and then its lines; the image's bytes, and their number;
/// what the job asks of the volume; and the output last. The call waits for nobody, and always returns.
pub fn vmsclus<I: ImageDev, T: TextIn, O: TextOut>(
    alloc: Global,
    words: &[Word],
    image: I,
    script: &mut T,
    out: &mut O,
) -> Finished<I>
    // There are bytes of a script, blocks of an image, as many as it has, and blocks that it has then, of which all of `IsCall` holds
    // together: what the status says of what came in, when a fault comes, what was written, which blocks are left, that no other status was
    // due if this one is no fault and no want of memory, and that a good script is answered but for these. If the script or the image reports its content, they are these: the image of a
    // program does (`FileImage` of `blk_files`). If it does not, no contract says which they are.
    ensures { OfScript (T.left script.old) (λ bytes. OfImage (I.size image) (I.told image) (I.told result.image) (λ old new.
        IsCall (wanted_by words.now) bytes (I.size image) old new (O.written out.old) (O.written out.new)
        (T.faults script.old) (T.faults script.new) (I.faults image) (I.faults result.image) (I.lost image) (I.lost result.image) (O.faults out.old) (O.faults out.new) result.status)) }
{
    no_other_status_is_due();
    good_runs_are_answered();
    done(alloc, words, image, script, out)
}
