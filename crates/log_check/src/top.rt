//! The call of the judge: two images and a report, read whole and judged.

ghost use Rattle.std.specs.Prelude.{◌≡◌, ◌≤◌, ◌⊎◌, [], IfOk, IfErr, IfSome, vec_len};
ghost use Rattle.base_words.specs.Faults.{Rose};
ghost use Rattle.plain_rules.specs.Accounts.{Accounted};
ghost use Rattle.log_check.specs.Tidying.{IsSettled};
ghost use Rattle.log_check.specs.Checks.{IsLegalBetween, LeadsTo, IsEndFrom, IsLegalOn, IsEndOn};
ghost use Rattle.log_check.specs.Statuses.{given, IsTextEnd, IsCheckDue, IsEnd, Writes};

use crate::status::{CheckStatus, Checking};
use crate::tell::{tell, tell_legal};
use crate::volumes::{cat_after, cat_before, judge_between, load_status};
use blk_drive::{ImageDev, LoadRefused, Mirror};
use fx_text::{TextFault, TextIn, TextOut, Word, read_all};
use plain_cat::Cat;
use std::alloc::Global;

/// The greatest number of bytes of a report.
const LOG_LIMIT: usize = 16_777_216;

/// What came of a report, and the images.
#[derive(Drop)]
struct Judged<I: ImageDev, J: ImageDev> {
    outcome: Result<usize, CheckStatus>,
    before: I,
    after: J,
}

// Reads a report to its end.
fn text_of<T: TextIn>(alloc: Global, log: &mut T) -> Result<Vec<u8>, CheckStatus>
    ensures text { IfOk result (λ text. IfSome (T.left log.old) (λ bytes. text.items ≡ bytes)) }
    ensures within { IfOk result (λ text. vec_len text ≤ 16777216) }
    ensures end { IfErr result (IsTextEnd (T.left log.old) (T.faults log.old) (T.faults log.new)) }
{
    match read_all(alloc, log, LOG_LIMIT) {
        Ok(text) => Ok(text),
        Err(TextFault::ReadFault) => Err(CheckStatus::LogFault),
        Err(TextFault::TooLong) => Err(CheckStatus::LogTooLong),
        Err(TextFault::NoMemory) => Err(CheckStatus::NoMemory),
    }
}

// Judges a report between the catalogue of the volume before and the drive of the one after.
fn judge_opened<I: ImageDev, J: ImageDev>(
    alloc: Global,
    before: I,
    opening: Cat,
    second: Mirror<J>,
    text: &[u8],
) -> Judged<I, J>
    requires accounted { Accounted opening }
    requires settled { IsSettled opening }
    ensures legal { IfOk result.outcome (λ k. LeadsTo second.blocks (λ e. IsLegalBetween opening e text.now k)) }
    ensures end { IfErr result.outcome (IsEndFrom opening second.blocks text.now) }
    ensures before { result.before ≡ before }
    ensures after { result.after ≡ second.image }
{
    match cat_after(alloc, second.all()) {
        Err(status) => Judged {
            outcome: Err(status),
            before,
            after: second.into_image(),
        },
        Ok(closing) => {
            let after = second.into_image();
            Judged {
                outcome: judge_between(alloc, opening, &closing, text),
                before,
                after,
            }
        }
    }
}

// Judges a report between two drives.
fn judge_mirrors<I: ImageDev, J: ImageDev>(
    alloc: Global,
    first: Mirror<I>,
    second: Mirror<J>,
    text: &[u8],
) -> Judged<I, J>
    ensures legal { IfOk result.outcome (IsLegalOn first.blocks second.blocks text.now) }
    ensures end { IfErr result.outcome (IsEndOn first.blocks second.blocks text.now) }
    ensures before { result.before ≡ first.image }
    ensures after { result.after ≡ second.image }
{
    let _size = first.size();
    match cat_before(alloc, first.all()) {
        Err(status) => Judged {
            outcome: Err(status),
            before: first.into_image(),
            after: second.into_image(),
        },
        Ok(opening) => judge_opened(alloc, first.into_image(), opening, second, text),
    }
}

// Reads the report and both images, and judges it.
fn check<I: ImageDev, J: ImageDev, T: TextIn>(
    alloc: Global,
    before: I,
    after: J,
    log: &mut T,
) -> Judged<I, J>
    ensures legal { IfOk result.outcome (λ k. IsCheckDue (given [] (T.left log.old) (I.size before) (I.told before) (J.size after) (J.told after)) (CheckStatus.Legal k)) }
    ensures end { IfErr result.outcome (IsEnd (given [] (T.left log.old) (I.size before) (I.told before) (J.size after) (J.told after))
        (T.faults log.old) (T.faults log.new) (I.faults before) (I.faults result.before) (J.faults after) (J.faults result.after)) }
    ensures before { I.told result.before ≡ I.told before }
    ensures after { J.told result.after ≡ J.told after }
{
    let text = match text_of(alloc, log) {
        Ok(text) => text,
        Err(status) => {
            return Judged {
                outcome: Err(status),
                before,
                after,
            };
        }
    };
    let first = match Mirror::load(alloc, before) {
        Ok(mirror) => mirror,
        Err(LoadRefused { fault, image }) => {
            return Judged {
                outcome: Err(load_status(fault)),
                before: image,
                after,
            };
        }
    };
    match Mirror::load(alloc, after) {
        Ok(second) => judge_mirrors(alloc, first, second, text.as_slice()),
        Err(LoadRefused { fault, image }) => Judged {
            outcome: Err(load_status(fault)),
            before: first.into_image(),
            after: image,
        },
    }
}

/// Judges a report between two images of a volume: whether its lines are those of a legal history that leads from the volume
/// before to the volume after.
///
/// A report has at most 16,777,216 bytes. Each line has to be that of an entry that may come where it stands, and the last one has to
/// count the answers, the deaths and the free clusters; the volume after has to be what the history leads to, with all channels
/// closed. There may be no words. Nothing is said of the nodes' scripts: a report is legal if some nodes could have given these
/// commands in this order.
///
/// What is tested first is told: the words; the report's bytes; the images' bytes and their number, before and after; what is found in
/// the volume before, and what is fatal in the volume after; the lines; their end; and the output last. The images keep their blocks.
pub fn check_log<I: ImageDev, J: ImageDev, T: TextIn, O: TextOut>(
    alloc: Global,
    words: &[Word],
    before: I,
    after: J,
    log: &mut T,
    out: &mut O,
) -> Checking<I, J>
    // What the status says of the words, the report, and the images' sizes and blocks.
    ensures due { IsCheckDue (given words.now (T.left log.old) (I.size before) (I.told before) (J.size after) (J.told after)) result.status }

    // A fault comes only where the count of that very object rose in this call.
    ensures log_fault { result.status ≡ CheckStatus.LogFault → Rose (T.faults log.old) (T.faults log.new) }
    ensures image_fault { result.status ≡ CheckStatus.ImageFault → Rose (I.faults before) (I.faults result.before) ⊎ Rose (J.faults after) (J.faults result.after) }
    ensures out_fault { result.status ≡ CheckStatus.OutFault → Rose (O.faults out.old) (O.faults out.new) }

    // With status 0 its text was written, with a fault of the sink first bytes of it, and else the text of the status.
    ensures written { Writes (given words.now (T.left log.old) (I.size before) (I.told before) (J.size after) (J.told after))
        (O.written out.old) (O.written out.new) (O.faults out.old) (O.faults out.new) result.status }

    // Both images keep their blocks.
    ensures before { I.told result.before ≡ I.told before }
    ensures after { J.told result.after ≡ J.told after }
{
    if !words.is_empty() {
        return Checking {
            status: tell(alloc, out, CheckStatus::BadWords),
            before,
            after,
        };
    }
    let Judged {
        outcome,
        before,
        after,
    } = check(alloc, before, after, log);
    match outcome {
        Ok(k) => Checking {
            status: tell_legal(alloc, out, k),
            before,
            after,
        },
        Err(status) => Checking {
            status: tell(alloc, out, status),
            before,
            after,
        },
    }
}
