//! The jobs `run` and `soak`: a script is run on an image, for its report or its summary.

ghost use Rattle.std.specs.Prelude.{◌≡◌, ◌≤◌, IfOk, IfErr};
ghost use Rattle.plain_cat.specs.declared.cat.Cat.{Cat};
ghost use Rattle.plain_cat.specs.InForm.{InForm};
ghost use Rattle.plain_rules.specs.Lookups.{free_clusters};
ghost use Rattle.blk_drive.specs.Telling.{IsTold};
ghost use Rattle.core_state.specs.Mounting.{IsMounted};
ghost use Rattle.core_state.specs.Ends.{AllOver};
ghost use Rattle.run_engine.specs.Summaries.{summary_bytes};
ghost use Rattle.run_engine.specs.Ended.{HasEnded};
ghost use Rattle.run_engine.specs.Inputs.{OfScript, Leaves, OfImage};
ghost use Rattle.blk_drive.specs.Images.{IsInside};
ghost use Rattle.clus_top.specs.Ends.{printed_text, IsStopBy, IsEndIn, IsImageStop, IsReported, IsSummarized, IsRunStop, IsSoakStop};

use blk_drive::{ImageDev, LoadRefused, Mirror};
use core_state::{MountRefused, World};
use fx_text::TextIn;
use plain_cat::{Plays, Script};
use run_engine::{
    Status, Stop, free_at_end, load_status, mount_status, report_of, run, script_of, stop_of,
    summary,
};
use run_script::soak;
use std::alloc::Global;
use xqp_set::XqpOp;

/// What is printed of a run that has come to its end.
#[derive(Clone, Copy)]
pub enum Printed {
    /// The report: a line for each entry of its history, and a last line.
    Report,

    /// The summary of the soak of this number.
    Summary(u32),
}

// The summary of a soak that has ended.
fn summary_of<I: ImageDev>(alloc: Global, n: u32, w: &World<I, XqpOp>) -> Result<Vec<u8>, Stop>
    requires over { AllOver w.now.world }
    ensures summary { IfOk result (λ text. (c : Cat) × HasEnded w.now.world c × (text.items ≡ summary_bytes n w.now.world (free_clusters c))) }
    ensures end { IfErr result (λ s. s ≡ Stop.By Status.NoMemory) }
{
    let left = free_at_end(w);
    match summary(alloc, n, w, left) {
        Ok(text) => Ok(text),
        Err(_) => Err(Stop::By(Status::NoMemory)),
    }
}

// What is printed of a run that has ended.
fn text_of<I: ImageDev>(alloc: Global, w: &World<I, XqpOp>, what: Printed) -> Result<Vec<u8>, Stop>
    requires over { AllOver w.now.world }
    ensures text { IfOk result (λ text. (c : Cat) × HasEnded w.now.world c × (text.items ≡ printed_text what w.now.world c)) }
    ensures end { IfErr result (λ s. s ≡ Stop.By Status.NoMemory) }
{
    match what {
        Printed::Report => report_of(alloc, w),
        Printed::Summary(n) => summary_of(alloc, n, w),
    }
}

// Runs the script of a volume that is just mounted.
fn run_on<I: ImageDev>(
    alloc: Global,
    w: &mut World<I, XqpOp>,
    plays: &Plays,
    what: Printed,
) -> Result<Vec<u8>, Stop>
    requires mounted { IsMounted w.old.world.blocks w.old.world.script w.old.world }
    requires form { InForm w.old.world.script }
    requires plays { plays.now ≡ w.old.world.script.plays }
    requires told { IsTold (I.told w.old.image) w.old.world.blocks }
    ensures report { IfOk result (λ text. Leaves (I.told w.old.image) (I.told w.new.image) (λ new. IsEndIn what w.old.world.script w.old.world.blocks new text.items)) }
    ensures end { IfErr result (λ s. Leaves (I.told w.old.image) (I.told w.new.image)
        (λ new. IsStopBy w.old.world.script w.old.world.blocks new (I.faults w.old.image) (I.faults w.new.image) s)) }
{
    w.keeps_the_rules();
    let ran = run(alloc, w, plays);
    w.keeps_the_rules();
    match ran {
        Ok(()) => text_of(alloc, w, what),
        Err(fault) => Err(stop_of(alloc, w, fault)),
    }
}

// Mounts a drive, and runs the script on it.
fn run_mounted<I: ImageDev>(alloc: Global, m: Mirror<I>, script: &Script, what: Printed) -> Ran<I>
    requires form { InForm script.now }
    requires told { IsTold (I.told m.image) m.blocks }
    ensures report { IfOk result.outcome (λ text. Leaves (I.told m.image) (I.told result.image) (λ new. IsEndIn what script.now m.blocks new text.items)) }
    ensures end { IfErr result.outcome (λ s. Leaves (I.told m.image) (I.told result.image)
        (λ new. IsStopBy script.now m.blocks new (I.faults m.image) (I.faults result.image) s)) }
{
    match World::<I, XqpOp>::mount(alloc, m, script) {
        Ok(mut world) => {
            let outcome = run_on(alloc, &mut world, &script.plays, what);
            let (_history, mirror) = world.into_parts();
            Ran {
                outcome,
                image: mirror.into_image(),
            }
        }
        Err(MountRefused { fault, mirror }) => Ran {
            outcome: Err(Stop::By(mount_status(fault))),
            image: mirror.into_image(),
        },
    }
}

/// The end of a run: the text of status 0, or why there is none, and the image.
#[derive(Drop)]
pub struct Ran<I: ImageDev> {
    pub outcome: Result<Vec<u8>, Stop>,
    pub image: I,
}

// Runs a script on an image.
fn run_image<I: ImageDev>(alloc: Global, image: I, script: &Script, what: Printed) -> Ran<I>
    requires form { InForm script.now }
    ensures inside { IfOk result.outcome (λ text. IsInside (I.size image)) }
    ensures report { IfOk result.outcome (λ text. OfImage (I.size image) (I.told image) (I.told result.image) (λ old new. IsEndIn what script.now old new text.items)) }
    ensures end { IfErr result.outcome (λ s. OfImage (I.size image) (I.told image) (I.told result.image)
        (λ old new. IsImageStop script.now (I.size image) old new (I.faults image) (I.faults result.image) (I.lost image) (I.lost result.image) s)) }
{
    match Mirror::load(alloc, image) {
        Ok(mirror) => run_mounted(alloc, mirror, script, what),
        Err(LoadRefused { fault, image }) => Ran {
            outcome: Err(Stop::By(load_status(fault))),
            image,
        },
    }
}

/// Runs the script that is read on the image, for its report.
pub fn run_script<I: ImageDev, T: TextIn>(alloc: Global, image: I, script: &mut T) -> Ran<I>
    ensures report { IfOk result.outcome (λ text. OfScript (T.left script.old) (λ bytes. OfImage (I.size image) (I.told image) (I.told result.image)
        (λ old new. IsReported bytes (I.size image) old new text.items))) }
    ensures end { IfErr result.outcome (λ s. OfScript (T.left script.old) (λ bytes. OfImage (I.size image) (I.told image) (I.told result.image)
        (λ old new. IsRunStop bytes (I.size image) old new (T.faults script.old) (T.faults script.new) (I.faults image) (I.faults result.image) (I.lost image) (I.lost result.image) s))) }
{
    match script_of(alloc, script) {
        Ok(spelt) => run_image(alloc, image, &spelt, Printed::Report),
        Err(status) => Ran {
            outcome: Err(Stop::By(status)),
            image,
        },
    }
}

/// Runs the soak of a number up to 256 on the image, for its summary.
pub fn run_soak<I: ImageDev>(alloc: Global, image: I, n: u32) -> Ran<I>
    requires { n ≤ 256 }
    ensures summary { IfOk result.outcome (λ text. OfImage (I.size image) (I.told image) (I.told result.image) (λ old new. IsSummarized n (I.size image) old new text.items)) }
    ensures end { IfErr result.outcome (λ s. OfImage (I.size image) (I.told image) (I.told result.image)
        (λ old new. IsSoakStop n (I.size image) old new (I.faults image) (I.faults result.image) (I.lost image) (I.lost result.image) s)) }
{
    match soak(alloc, n) {
        Ok(drawn) => run_image(alloc, image, &drawn, Printed::Summary(n)),
        Err(_) => Ran {
            outcome: Err(Stop::By(Status::NoMemory)),
            image,
        },
    }
}
