//! What is printed of a check.

ghost use Rattle.std.specs.Prelude.{◌≡◌, ◌++◌, ◌⊎◌, IfOk, codes, decimal};
ghost use Rattle.std.specs.Io.KnownBytes.{Appends};
ghost use Rattle.base_words.specs.Faults.{Rose};
ghost use Rattle.fx_text.specs.Streams.{AppendsStart};
ghost use Rattle.plain_texts.specs.Reports.{newline};
ghost use Rattle.vol_analyze.specs.Texts.{finding_text};
ghost use Rattle.log_check.specs.Statuses.{status_text, numbered};
ghost use Rattle.fx_text.specs.Written.{IsWritten};

use crate::status::CheckStatus;
use fx_text::{TextOut, write_all};
use plain_cat::NoMemory;
use plain_texts::{push_bytes, push_count, push_number};
use std::alloc::Global;
use vol_analyze::{Finding, push_finding};

// A text with the number of a line.
fn numbered(alloc: Global, front: &[u8], k: usize) -> Result<Vec<u8>, NoMemory>
    ensures { IfOk result (λ text. text.items ≡ numbered front.now k) }
{
    let mut text = Vec::new(alloc);
    push_bytes(&mut text, front)?;
    push_count(alloc, &mut text, k)?;
    push_bytes(&mut text, b"\n")?;
    Ok(text)
}

// The text of a number of blocks.
fn size_text(alloc: Global, n: u32) -> Result<Vec<u8>, NoMemory>
    ensures { IfOk result (λ text. text.items ≡ numbered (codes "bad size ") n) }
{
    let mut text = Vec::new(alloc);
    push_bytes(&mut text, b"bad size ")?;
    push_number(alloc, &mut text, n)?;
    push_bytes(&mut text, b"\n")?;
    Ok(text)
}

// The text of a legal report.
fn legal_text(alloc: Global, k: usize) -> Result<Vec<u8>, NoMemory>
    ensures { IfOk result (λ text. text.items ≡ codes "legal, " ++ (decimal k ++ (codes " entries" ++ newline))) }
{
    let mut text = Vec::new(alloc);
    push_bytes(&mut text, b"legal, ")?;
    push_count(alloc, &mut text, k)?;
    push_bytes(&mut text, b" entries\n")?;
    Ok(text)
}

// A text with a finding.
fn with_finding(alloc: Global, front: &[u8], found: &Finding) -> Result<Vec<u8>, NoMemory>
    ensures { IfOk result (λ text. text.items ≡ front.now ++ (finding_text found.now ++ newline)) }
{
    let mut text = Vec::new(alloc);
    push_bytes(&mut text, front)?;
    push_finding(alloc, &mut text, found)?;
    push_bytes(&mut text, b"\n")?;
    Ok(text)
}

// The text of a status.
#[tactic(auto, unfolding(crate::specs::Statuses::status_text))]
fn status_text(alloc: Global, status: &CheckStatus) -> Result<Vec<u8>, NoMemory>
    ensures { IfOk result (λ text. text.items ≡ status_text status.now) }
{
    let plain: &[u8] = match status {
        CheckStatus::Legal(k) => return legal_text(alloc, *k),
        CheckStatus::BadSize(n) => return size_text(alloc, *n),
        CheckStatus::NotAccepted(found) => return with_finding(alloc, b"not accepted: ", found),
        CheckStatus::NotMendable(found) => return with_finding(alloc, b"not mendable: ", found),
        CheckStatus::Unchecked(k) => return numbered(alloc, b"unchecked at line ", *k),
        CheckStatus::Illegal(k) => return numbered(alloc, b"illegal at line ", *k),
        CheckStatus::OutFault => b"",
        CheckStatus::BadWords => b"bad words\n",
        CheckStatus::LogFault => b"script fault\n",
        CheckStatus::LogTooLong => b"script too long\n",
        CheckStatus::ImageFault => b"image fault\n",
        CheckStatus::EndDiffers => b"end differs\n",
        CheckStatus::NoMemory => b"no memory\n",
    };
    Vec::from_slice(alloc, plain)
}

// Writes a text, as far as the sink takes it.
fn write_text<O: TextOut>(out: &mut O, text: &[u8])
    ensures { IsWritten (O.written out.old) (O.written out.new) (O.faults out.old) (O.faults out.new) text.now }
{
    let _ = write_all(out, text);
}

/// Writes the text of a status, and answers the status: the given one, or want of memory, whose text is written then. A fault of
/// the sink changes neither, and a fault of an image is told without memory.
#[tactic(auto, unfolding(crate::specs::Statuses::status_text))]
pub fn tell<O: TextOut>(alloc: Global, out: &mut O, status: CheckStatus) -> CheckStatus
    ensures status { (result ≡ status) ⊎ (result ≡ CheckStatus.NoMemory) }
    ensures text { IsWritten (O.written out.old) (O.written out.new) (O.faults out.old) (O.faults out.new) (status_text result) }
{
    if let CheckStatus::ImageFault = status {
        write_text(out, b"image fault\n");
        return CheckStatus::ImageFault;
    }
    match status_text(alloc, &status) {
        Ok(text) => {
            write_text(out, text.as_slice());
            status
        }
        Err(_) => {
            write_text(out, b"no memory\n");
            CheckStatus::NoMemory
        }
    }
}

/// Writes the text of a legal report of so many entries, and answers the status: 0, a fault of the sink, or want of memory, whose
/// text is written then.
#[tactic(auto, unfolding(crate::specs::Statuses::status_text))]
pub fn tell_legal<O: TextOut>(alloc: Global, out: &mut O, k: usize) -> CheckStatus
    ensures either { (result ≡ CheckStatus.Legal k) ⊎ ((result ≡ CheckStatus.OutFault) ⊎ (result ≡ CheckStatus.NoMemory)) }
    ensures all { result ≡ CheckStatus.Legal k → Appends (O.written out.old) (O.written out.new) (status_text (CheckStatus.Legal k)) }
    ensures cut { result ≡ CheckStatus.OutFault → AppendsStart (O.written out.old) (O.written out.new) (status_text (CheckStatus.Legal k)) }
    ensures fault { result ≡ CheckStatus.OutFault → Rose (O.faults out.old) (O.faults out.new) }
    ensures memory { result ≡ CheckStatus.NoMemory → IsWritten (O.written out.old) (O.written out.new) (O.faults out.old) (O.faults out.new) (status_text CheckStatus.NoMemory) }
{
    match status_text(alloc, &CheckStatus::Legal(k)) {
        Ok(text) => match write_all(out, text.as_slice()) {
            Ok(()) => CheckStatus::Legal(k),
            Err(_) => CheckStatus::OutFault,
        },
        Err(_) => {
            write_text(out, b"no memory\n");
            CheckStatus::NoMemory
        }
    }
}
