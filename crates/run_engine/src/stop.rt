//! Why a run came to no end, and its report where it came to one.

ghost use Rattle.std.specs.Prelude.{◌≡◌, IfOk, IfErr, OnErr};
ghost use Rattle.plain_cat.specs.declared.cat.Cat.{Cat};
ghost use Rattle.core_state.specs.Ends.{AllOver};
ghost use Rattle.run_engine.specs.Ended.{HasEnded};
ghost use Rattle.run_engine.specs.Texts.{cut_text};
ghost use Rattle.run_engine.specs.Stops.{IsStopOf, load_status, mount_status, report_text};

use crate::{RunFault, Status, free_at_end, report, report_lines};
use blk_drive::{ImageDev, LoadFault};
use core_state::{MountFault, World};
use op_law::Operation;
use plain_cat::NoMemory;
use plain_texts::push_bytes;
use std::alloc::Global;

/// Why a run came to no end.
#[derive(Drop)]
pub enum Stop {
    /// A write of the image failed: the lines of the answers before it, and the text of that fault.
    Cut(Vec<u8>),

    /// A write of the image failed, and the lines of the answers before it found no memory.
    NoLines,

    /// Another status, whose text says all.
    By(Status),
}

/// The report of a world in which every node is over.
pub fn report_of<I: ImageDev, O: Operation>(alloc: Global, w: &World<I, O>) -> Result<Vec<u8>, Stop>
    requires over { AllOver w.now.world }
    ensures report { IfOk result (λ text. (c : Cat) × HasEnded w.now.world c × (text.items ≡ report_text w.now.world.history c)) }
    ensures end { IfErr result (λ s. s ≡ Stop.By Status.NoMemory) }
{
    let free = free_at_end(w);
    match report(alloc, w.history(), free) {
        Ok(text) => Ok(text),
        Err(_) => Err(Stop::By(Status::NoMemory)),
    }
}

// The text of a run that a write of the image has cut short.
#[tactic(auto, unfolding(crate::specs::Texts::status_text))]
fn cut_text<I: ImageDev, O: Operation>(alloc: Global, w: &World<I, O>) -> Result<Vec<u8>, NoMemory>
    ensures { IfOk result (λ text. text.items ≡ cut_text w.now.world.history) }
{
    let mut text = report_lines(alloc, w.history())?;
    push_bytes(&mut text, b"image fault\n")?;
    Ok(text)
}

// How a write that failed is told: with the lines of the answers before it, if they find memory.
fn cut_by(lines: Result<Vec<u8>, NoMemory>) -> Stop
    ensures with { IfOk lines (λ text. result ≡ Stop.Cut text) }
    ensures without { OnErr lines (result ≡ Stop.NoLines) }
{
    match lines {
        Ok(text) => Stop::Cut(text),
        Err(_) => Stop::NoLines,
    }
}

/// Why a run stopped before its end.
pub fn stop_of<I: ImageDev, O: Operation>(alloc: Global, w: &World<I, O>, fault: RunFault) -> Stop
    ensures { IsStopOf w.now.world fault result }
{
    match fault {
        RunFault::ImageFault => cut_by(cut_text(alloc, w)),
        RunFault::NoMemory => Stop::By(Status::NoMemory),
    }
}

/// Why a drive was not mounted.
pub fn mount_status(fault: MountFault) -> Status
    ensures { result ≡ mount_status fault }
{
    match fault {
        MountFault::NotAccepted(found) => Status::NotAccepted(found),
        MountFault::NoMemory => Status::NoMemory,
    }
}

/// Why an image was not loaded.
pub fn load_status(fault: LoadFault) -> Status
    ensures { result ≡ load_status fault }
{
    match fault {
        LoadFault::ImageFault => Status::ImageFault,
        LoadFault::BadSize(n) => Status::BadSize(n),
        LoadFault::NoMemory => Status::NoMemory,
    }
}
