//! What is printed at the end of a call, and how it reaches the output.

ghost use Rattle.std.specs.Prelude.{◌≡◌, ◌++◌, ◌⊎◌, IfOk, OnOk, decimal};
ghost use Rattle.std.specs.Io.KnownBytes.{Appends};
ghost use Rattle.base_words.specs.Faults.{Rose};
ghost use Rattle.fx_text.specs.Streams.{AppendsStart};
ghost use Rattle.plain_texts.specs.Reports.{newline};
ghost use Rattle.run_engine.specs.Texts.{status_text, finding_line, findings_text};
ghost use Rattle.fx_text.specs.Written.{IsWritten};

use crate::Status;
use fx_text::{TextOut, write_all};
use plain_cat::NoMemory;
use plain_texts::{push_bytes, push_count, push_number};
use std::alloc::Global;
use vol_analyze::{Finding, push_finding};
use vol_init::InitFault;

// A text with a number.
fn numbered(alloc: Global, front: &[u8], n: u32) -> Result<Vec<u8>, NoMemory>
    ensures { IfOk result (λ text. text.items ≡ front.now ++ (decimal n ++ newline)) }
{
    let mut text = Vec::new(alloc);
    push_bytes(&mut text, front)?;
    push_number(alloc, &mut text, n)?;
    push_bytes(&mut text, b"\n")?;
    Ok(text)
}

// The text of a bad record.
#[tactic(auto, unfolding(crate::specs::Texts::status_text))]
fn bad_record(alloc: Global, at: usize) -> Result<Vec<u8>, NoMemory>
    ensures { IfOk result (λ text. text.items ≡ status_text (Status.BadRecord at)) }
{
    let mut text = Vec::new(alloc);
    push_bytes(&mut text, b"bad record at ")?;
    push_count(alloc, &mut text, at)?;
    push_bytes(&mut text, b"\n")?;
    Ok(text)
}

// The text of a line that is too long.
#[tactic(auto, unfolding(crate::specs::Texts::status_text))]
fn line_long(alloc: Global, k: usize) -> Result<Vec<u8>, NoMemory>
    ensures { IfOk result (λ text. text.items ≡ status_text (Status.LineLong k)) }
{
    let mut text = Vec::new(alloc);
    push_bytes(&mut text, b"line ")?;
    push_count(alloc, &mut text, k)?;
    push_bytes(&mut text, b" too long\n")?;
    Ok(text)
}

// Appends the line of a finding.
fn push_line(alloc: Global, out: &mut Vec<u8>, found: &Finding) -> Result<(), NoMemory>
    ensures { OnOk result (out.new.items ≡ out.old.items ++ finding_line found.now) }
{
    push_finding(alloc, out, found)?;
    push_bytes(out, b"\n")
}

// A text with a finding.
#[tactic(auto, unfolding(crate::specs::Texts::status_text))]
fn not_accepted(alloc: Global, found: &Finding) -> Result<Vec<u8>, NoMemory>
    ensures { IfOk result (λ text. text.items ≡ status_text (Status.NotAccepted found.now)) }
{
    let mut text = Vec::new(alloc);
    push_bytes(&mut text, b"not accepted: ")?;
    push_line(alloc, &mut text, found)?;
    Ok(text)
}

/// The text of a volume that cannot be mended.
#[tactic(auto, unfolding(crate::specs::Texts::status_text))]
pub fn not_mendable(alloc: Global, found: &Finding) -> Result<Vec<u8>, NoMemory>
    ensures { IfOk result (λ text. text.items ≡ status_text (Status.NotMendable found.now)) }
{
    let mut text = Vec::new(alloc);
    push_bytes(&mut text, b"not mendable: ")?;
    push_line(alloc, &mut text, found)?;
    Ok(text)
}

// The text of a volume of which something is beyond repair.
#[tactic(auto, unfolding(crate::specs::Texts::status_text))]
fn not_repairable(alloc: Global, found: &Finding) -> Result<Vec<u8>, NoMemory>
    ensures { IfOk result (λ text. text.items ≡ status_text (Status.NotRepairable found.now)) }
{
    let mut text = Vec::new(alloc);
    push_bytes(&mut text, b"not repairable: ")?;
    push_line(alloc, &mut text, found)?;
    Ok(text)
}

// The text of a repaired volume that lacks room for a lost file.
#[tactic(auto, unfolding(crate::specs::Texts::status_text))]
fn repair_no_room(alloc: Global, found: &Finding) -> Result<Vec<u8>, NoMemory>
    ensures { IfOk result (λ text. text.items ≡ status_text (Status.RepairNoRoom found.now)) }
{
    let mut text = Vec::new(alloc);
    push_bytes(&mut text, b"no room: ")?;
    push_line(alloc, &mut text, found)?;
    Ok(text)
}

// Why an image was not formatted.
#[tactic(auto, unfolding(crate::specs::Texts::init_fault_text, crate::specs::Texts::status_text))]
fn init_text(fault: InitFault) -> &'static [u8]
    ensures { result.now ≡ status_text (Status.BadInit fault) }
{
    match fault {
        InitFault::BadCluster => b"bad cluster\n",
        InitFault::BadFiles => b"bad files\n",
        InitFault::BadLabel => b"bad label\n",
        InitFault::TooSmall => b"too small\n",
        InitFault::NoMemory => b"no memory\n",
        InitFault::ImageFault => b"image fault\n",
    }
}

// The text of a status.
#[tactic(auto, unfolding(crate::specs::Texts::status_text))]
fn status_text(alloc: Global, status: &Status) -> Result<Vec<u8>, NoMemory>
    ensures { IfOk result (λ text. text.items ≡ status_text status.now) }
{
    let plain: &[u8] = match status {
        Status::BadScript(n) => return numbered(alloc, b"bad line ", *n),
        Status::BadSize(n) => return numbered(alloc, b"bad size ", *n),
        Status::NotAccepted(found) => return not_accepted(alloc, found),
        Status::NotMendable(found) => return not_mendable(alloc, found),
        Status::BadRecord(at) => return bad_record(alloc, *at),
        Status::LineLong(k) => return line_long(alloc, *k),
        Status::NotRepairable(found) => return not_repairable(alloc, found),
        Status::RepairNoRoom(found) => return repair_no_room(alloc, found),
        Status::Ok | Status::Findings | Status::OutFault => b"",
        Status::BadWords => b"bad words\n",
        Status::ScriptFault => b"script fault\n",
        Status::ScriptTooLong => b"script too long\n",
        Status::TooMany => b"too many\n",
        Status::ImageFault => b"image fault\n",
        Status::NoMemory => b"no memory\n",
        Status::BadInit(fault) => init_text(*fault),
        Status::NoFile => b"no such file\n",
        Status::NoPriv => b"no privilege\n",
        Status::NotEmpty => b"not empty\n",
        Status::NoRoom => b"no room\n",
    };
    Vec::from_slice(alloc, plain)
}

// Writes a text, as far as the sink takes it.
fn write_text<O: TextOut>(out: &mut O, text: &[u8])
    ensures { IsWritten (O.written out.old) (O.written out.new) (O.faults out.old) (O.faults out.new) text.now }
{
    let _ = write_all(out, text);
}

/// Writes the text of a status, and answers the status: the given one, or want of memory, whose text is written then. A
/// fault of the sink changes neither, and a fault of the image is told without memory.
#[tactic(auto, unfolding(crate::specs::Texts::status_text))]
pub fn tell<O: TextOut>(alloc: Global, out: &mut O, status: Status) -> Status
    ensures status { (result ≡ status) ⊎ (result ≡ Status.NoMemory) }
    ensures fault { status ≡ Status.ImageFault → result ≡ Status.ImageFault }
    ensures text { IsWritten (O.written out.old) (O.written out.new) (O.faults out.old) (O.faults out.new) (status_text result) }
{
    if let Status::ImageFault = status {
        write_text(out, b"image fault\n");
        return Status::ImageFault;
    }
    match status_text(alloc, &status) {
        Ok(text) => {
            write_text(out, text.as_slice());
            status
        }
        Err(_) => {
            write_text(out, b"no memory\n");
            Status::NoMemory
        }
    }
}

// One line for each finding.
fn findings_text(alloc: Global, findings: &[Finding]) -> Result<Vec<u8>, NoMemory>
    ensures { IfOk result (λ text. text.items ≡ findings_text findings.now) }
{
    let mut text = Vec::new(alloc);
    for found in findings {
        push_line(alloc, &mut text, found)?;
    }
    Ok(text)
}

/// Writes findings, and answers the status: that of findings, or want of memory, whose text is written then. A fault of the
/// sink changes neither.
#[tactic(auto, unfolding(crate::specs::Texts::status_text))]
pub fn tell_findings<O: TextOut>(alloc: Global, out: &mut O, findings: &[Finding]) -> Status
    ensures either { (result ≡ Status.Findings) ⊎ (result ≡ Status.NoMemory) }
    ensures text { result ≡ Status.Findings → IsWritten (O.written out.old) (O.written out.new) (O.faults out.old) (O.faults out.new) (findings_text findings.now) }
    ensures memory { result ≡ Status.NoMemory → IsWritten (O.written out.old) (O.written out.new) (O.faults out.old) (O.faults out.new) (status_text result) }
{
    match findings_text(alloc, findings) {
        Ok(text) => {
            write_text(out, text.as_slice());
            Status::Findings
        }
        Err(_) => {
            write_text(out, b"no memory\n");
            Status::NoMemory
        }
    }
}

/// Writes the text of a run that a write of the image has cut short, and answers the status: that of the fault. A fault of the
/// sink does not change it.
pub fn tell_cut<O: TextOut>(out: &mut O, text: &[u8]) -> Status
    ensures status { result ≡ Status.ImageFault }
    ensures text { IsWritten (O.written out.old) (O.written out.new) (O.faults out.old) (O.faults out.new) text.now }
{
    write_text(out, text);
    Status::ImageFault
}

/// Writes the text of a run whose drive cannot be mended, and answers the status: that of this finding. A fault of the sink does not
/// change it.
pub fn tell_unmended<O: TextOut>(out: &mut O, text: &[u8], found: Finding) -> Status
    ensures status { result ≡ Status.NotMendable found }
    ensures text { IsWritten (O.written out.old) (O.written out.new) (O.faults out.old) (O.faults out.new) text.now }
{
    write_text(out, text);
    Status::NotMendable(found)
}

/// Writes the text of status 0, and answers the status: 0, or a fault of the sink.
pub fn tell_text<O: TextOut>(out: &mut O, text: &[u8]) -> Status
    ensures either { (result ≡ Status.Ok) ⊎ (result ≡ Status.OutFault) }
    ensures all { result ≡ Status.Ok → Appends (O.written out.old) (O.written out.new) text.now }
    ensures cut { result ≡ Status.OutFault → AppendsStart (O.written out.old) (O.written out.new) text.now }
    ensures fault { result ≡ Status.OutFault → Rose (O.faults out.old) (O.faults out.new) }
{
    match write_all(out, text) {
        Ok(()) => Status::Ok,
        Err(_) => Status::OutFault,
    }
}
