//! What comes behind the lines of a walk: the report of its run, or, if the drive is mended then, that of both.

ghost use Rattle.std.specs.Prelude.{◌≡◌, ◌++◌, Some, IfOk, IfErr, option_map};
ghost use Rattle.blk_drive.specs.Telling.{IsTold};
ghost use Rattle.core_state.specs.Ends.{AllOver};
ghost use Rattle.run_trace.specs.Traced.{wanted, wanted_by};
ghost use Rattle.run_trace.specs.Inside.{IsEndText, IsBehind, IsRefusedBehind, IsHaltBehind};

use crate::copied::Copied;
use core_state::World;
use fx_text::Word;
use plain_cat::NoMemory;
use plain_texts::push_bytes;
use run_engine::{Halt, MendedRun, Status, mend_over, report_of};
use std::alloc::Global;
use vol_analyze::Finding;
use xqp_set::XqpOp;

/// What comes behind the lines of a trace.
#[derive(Clone, Copy)]
pub enum Ending {
    /// The report of the run.
    Report,

    /// That of the run and of the mending of its drive.
    Mended,
}

/// Which trace the words ask for, or none where they have no reading.
#[tactic(auto, unfolding(crate::specs::Traced::wanted_by))]
pub fn ending_of(words: &[Word]) -> Option<Ending>
    ensures { option_map wanted result ≡ wanted_by words.now }
{
    match words {
        [] => Some(Ending::Report),
        [word] => {
            if word.bytes() == b"--rebuild".as_slice() {
                Some(Ending::Mended)
            } else {
                None
            }
        }
        _ => None,
    }
}

// Lines, and a text behind them.
fn lines_and(mut lines: Vec<u8>, text: &[u8]) -> Result<Vec<u8>, NoMemory>
    ensures { IfOk result (λ all. all.items ≡ lines.items ++ text.now) }
{
    push_bytes(&mut lines, text)?;
    Ok(lines)
}

// Lines, and behind them the report of a world in which every node is over.
fn with_report(alloc: Global, lines: Vec<u8>, w: &World<Copied, XqpOp>) -> Result<Vec<u8>, Halt>
    requires over { AllOver w.now.world }
    ensures text { IfOk result (λ all. IsBehind (IsEndText Ending.Report) w.now.world lines.items all.items) }
    ensures halt { IfErr result (λ h. h ≡ Halt.By Status.NoMemory) }
{
    let Ok(report) = report_of(alloc, w) else {
        return Err(Halt::By(Status::NoMemory));
    };
    match lines_and(lines, report.as_slice()) {
        Ok(all) => Ok(all),
        Err(_) => Err(Halt::By(Status::NoMemory)),
    }
}

// Lines, and behind them the text that tells that the drive of a run cannot be mended.
fn with_refusal(lines: Vec<u8>, text: &[u8], found: Finding) -> Halt
    ensures { IsRefusedBehind lines.items text.now found result }
{
    match lines_and(lines, text) {
        Ok(all) => Halt::Unmended(all, found),
        Err(_) => Halt::By(Status::NoMemory),
    }
}

// Lines, and behind them the report of a world in which every node is over, whose drive is mended.
fn with_mending(alloc: Global, lines: Vec<u8>, w: World<Copied, XqpOp>) -> Result<Vec<u8>, Halt>
    requires over { AllOver w.world }
    requires told { IsTold (Some w.image) w.world.blocks }
    ensures text { IfOk result (λ all. IsBehind (IsEndText Ending.Mended) w.world lines.items all.items) }
    ensures halt { IfErr result (IsHaltBehind Ending.Mended w.world lines.items) }
{
    w.keeps_the_rules();
    let MendedRun { outcome, image: _ } = mend_over(alloc, w);
    match outcome {
        Ok(report) => match lines_and(lines, report.as_slice()) {
            Ok(all) => Ok(all),
            Err(_) => Err(Halt::By(Status::NoMemory)),
        },
        Err(Halt::Unmended(text, found)) => Err(with_refusal(lines, text.as_slice(), found)),
        // No call of a copy fails, so memory ran out.
        Err(_) => Err(Halt::By(Status::NoMemory)),
    }
}

/// The lines of the walk that has led to a world in which every node is over, and behind them what is told of it. Its drive is mended
/// before, if that is asked for.
pub fn with_end(
    alloc: Global,
    lines: Vec<u8>,
    w: World<Copied, XqpOp>,
    ending: Ending,
) -> Result<Vec<u8>, Halt>
    requires over { AllOver w.world }
    requires told { IsTold (Some w.image) w.world.blocks }
    ensures text { IfOk result (λ all. IsBehind (IsEndText ending) w.world lines.items all.items) }
    ensures halt { IfErr result (IsHaltBehind ending w.world lines.items) }
{
    match ending {
        Ending::Report => with_report(alloc, lines, &w),
        Ending::Mended => with_mending(alloc, lines, w),
    }
}
