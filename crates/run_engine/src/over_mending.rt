//! The mending of a drive whose run has come to its end.

ghost use Rattle.std.specs.Prelude.{◌≡◌, ◌++◌, IfErr, IfOk, map};
ghost use Rattle.plain_cat.specs.declared.cat.Cat.{Cat};
ghost use Rattle.plain_rules.specs.Lookups.{free_clusters};
ghost use Rattle.vol_parts.specs.Findings.{Weak, CatOf};
ghost use Rattle.blk_drive.specs.Telling.{IsTold};
ghost use Rattle.core_state.specs.Worlds.{shown};
ghost use Rattle.run_engine.specs.Ended.{HasEnded};
ghost use Rattle.run_engine.specs.Reports.{lines_bytes, report_bytes};
ghost use Rattle.core_state.specs.Ends.{AllOver};
ghost use Rattle.run_engine.specs.Inputs.{Leaves};
ghost use Rattle.run_engine.specs.Halts.{halt_of, IsHaltOf, IsMendedBy, IsHaltBy, IsToldHalt};
ghost use Rattle.run_engine.specs.Texts.{unmended_text};

use crate::stop::Stop;
use crate::telling::{not_mendable, tell, tell_cut, tell_unmended};
use crate::{MendEnd, Status, free_on_drive, mend, report, report_lines};
use blk_drive::{ImageDev, Mirror};
use core_state::World;
use fx_text::TextOut;
use op_law::Operation;
use plain_cat::{History, NoMemory};
use plain_texts::push_bytes;
use std::alloc::Global;
use vol_analyze::Finding;
use vol_rebuild::RebuildFault;

/// Why a run has no report, that of its mending included.
#[derive(Drop)]
pub enum Halt {
    /// A write of the image failed, in the run or in the mending: the lines of the history, and the text of that fault.
    Cut(Vec<u8>),

    /// A write of the image failed, and the lines of the history found no memory.
    NoLines,

    /// The drive of the run cannot be mended: the lines of the history, and the text of this finding.
    Unmended(Vec<u8>, Finding),

    /// Another status, whose text says all.
    By(Status),
}

/// How a run is told, mended or not: the text of status 0, or why there is none, and the image.
#[derive(Drop)]
pub struct MendedRun<I: ImageDev> {
    pub outcome: Result<Vec<u8>, Halt>,
    pub image: I,
}

/// Why a run came to no end is why it is not mended.
pub fn halt_of(stop: Stop) -> Halt
    ensures { result ≡ halt_of stop }
{
    match stop {
        Stop::Cut(text) => Halt::Cut(text),
        Stop::NoLines => Halt::NoLines,
        Stop::By(status) => Halt::By(status),
    }
}

// The lines of a history, and a text behind them.
fn lines_and(alloc: Global, h: &History, text: &[u8]) -> Result<Vec<u8>, NoMemory>
    ensures { IfOk result (λ t. t.items ≡ lines_bytes (map shown h.now.items) ++ text.now) }
{
    let mut lines = report_lines(alloc, h)?;
    push_bytes(&mut lines, text)?;
    Ok(lines)
}

// How a write of a mending that failed is told: with the lines of the history before it, if they find memory.
#[tactic(auto, unfolding(crate::specs::Texts::status_text))]
fn cut_behind(alloc: Global, h: &History) -> Halt
    ensures { IsHaltOf (map shown h.now.items) RebuildFault.ImageFault result }
{
    match lines_and(alloc, h, b"image fault\n") {
        Ok(text) => Halt::Cut(text),
        Err(_) => Halt::NoLines,
    }
}

// The text of a drive that cannot be mended, behind the lines of the history.
fn unmended_text(alloc: Global, h: &History, found: &Finding) -> Result<Vec<u8>, NoMemory>
    ensures { IfOk result (λ text. text.items ≡ unmended_text (map shown h.now.items) found.now) }
{
    let told = not_mendable(alloc, found)?;
    lines_and(alloc, h, told.as_slice())
}

// How it is told that a drive cannot be mended.
fn unmended_behind(alloc: Global, h: &History, found: Finding) -> Halt
    ensures { IsHaltOf (map shown h.now.items) (RebuildFault.NotMendable found) result }
{
    match unmended_text(alloc, h, &found) {
        Ok(text) => Halt::Unmended(text, found),
        Err(_) => Halt::By(Status::NoMemory),
    }
}

// How it is told that a drive is not mended.
fn halt_behind(alloc: Global, h: &History, fault: RebuildFault) -> Halt
    ensures { IsHaltOf (map shown h.now.items) fault result }
{
    match fault {
        RebuildFault::ImageFault => cut_behind(alloc, h),
        RebuildFault::NotMendable(found) => unmended_behind(alloc, h, found),
        RebuildFault::NoMemory => Halt::By(Status::NoMemory),
    }
}

// The report of a history, with the free clusters of the catalogue that a drive tells.
fn report_on<I: ImageDev>(alloc: Global, h: &History, m: &Mirror<I>) -> Result<Vec<u8>, Halt>
    requires { Weak m.now.blocks }
    ensures report { IfOk result (λ text. (c : Cat) → CatOf m.now.blocks c → text.items ≡ report_bytes (map shown h.now.items) (free_clusters c)) }
    ensures end { IfErr result (λ h. h ≡ Halt.By Status.NoMemory) }
{
    let free = free_on_drive(m);
    match report(alloc, h, free) {
        Ok(text) => Ok(text),
        Err(_) => Err(Halt::By(Status::NoMemory)),
    }
}

/// Mends the drive of a world in which every node is over, for its report.
pub fn mend_over<I: ImageDev, O: Operation>(alloc: Global, w: World<I, O>) -> MendedRun<I>
    requires over { AllOver w.world }
    requires told { IsTold (I.told w.image) w.world.blocks }
    ensures report { IfOk result.outcome (λ text. (c : Cat) → HasEnded w.world c
        → Leaves (I.told w.image) (I.told result.image) (λ new. IsMendedBy w.world c new text.items)) }
    ensures halt { IfErr result.outcome (λ h. (c : Cat) → HasEnded w.world c
        → Leaves (I.told w.image) (I.told result.image) (λ new. IsHaltBy w.world c new (I.faults w.image) (I.faults result.image) h)) }
{
    w.keeps_the_rules();
    let MendEnd {
        history,
        mirror,
        fault,
    } = mend(alloc, w);
    match fault {
        None => {
            let outcome = report_on(alloc, &history, &mirror);
            MendedRun {
                outcome,
                image: mirror.into_image(),
            }
        }
        Some(fault) => {
            let halt = halt_behind(alloc, &history, fault);
            MendedRun {
                outcome: Err(halt),
                image: mirror.into_image(),
            }
        }
    }
}

/// Writes why a run is not mended, and answers the status: want of memory where the text of another one, or the lines in front of it, find
/// none.
pub fn tell_halt<O: TextOut>(alloc: Global, out: &mut O, halt: Halt) -> Status
    ensures { IsToldHalt (O.written out.old) (O.written out.new) (O.faults out.old) (O.faults out.new) halt result }
{
    match halt {
        Halt::Cut(text) => tell_cut(out, text.as_slice()),
        Halt::NoLines => tell(alloc, out, Status::NoMemory),
        Halt::Unmended(text, found) => tell_unmended(out, text.as_slice(), found),
        Halt::By(status) => tell(alloc, out, status),
    }
}
