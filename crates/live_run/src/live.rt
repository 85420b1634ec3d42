//! A script whose nodes are threads, on an image.

ghost use Rattle.std.specs.Prelude.{◌≡◌, IfOk, IfErr, OnOk};
ghost use Rattle.plain_cat.specs.declared.cat.Cat.{Cat};
ghost use Rattle.plain_cat.specs.InForm.{InForm};
ghost use Rattle.blk_drive.specs.Telling.{IsTold};
ghost use Rattle.core_state.specs.Mounting.{IsMounted, IsMountEnd};
ghost use Rattle.core_state.specs.Ends.{AllOver};
ghost use Rattle.run_engine.specs.Ended.{HasEnded};
ghost use Rattle.blk_drive.specs.Images.{IsInside};
ghost use Rattle.run_engine.specs.Inputs.{OfScript, Leaves, OfImage};
ghost use Rattle.run_engine.specs.Stops.{report_text};
ghost use Rattle.live_run.specs.Lives.{IsEnd};
ghost use Rattle.live_run.specs.Ends.{IsHalt, IsHaltAfter, IsHaltOver, IsToldEnd, IsToldOver};
ghost use Rattle.live_run.specs.Statuses.{IsImageHalt, IsReported, IsRunHalt};

use crate::gate::Gate;
use crate::rest::finish;
use crate::threads::lived;
use crate::words::Job;
use blk_drive::{ImageDev, LoadRefused, Mirror};
use core_state::{MountRefused, World};
use fx_text::TextIn;
use op_law::Operation;
use plain_cat::Script;
use run_engine::{
    Halt, MendedRun, RunFault, Status, blocks_are_counted, halt_of, load_status, mend_over,
    mount_status, report_of, script_of, stop_of,
};
use std::alloc::Global;
use std::sync::Wait;
use std::thread::Threads;
use xqp_set::XqpOp;

// The image below a world.
fn image_of<I: ImageDev, O: Operation>(w: World<I, O>) -> I
    ensures { result ≡ w.image }
{
    let (_history, mirror) = w.into_parts();
    mirror.into_image()
}

// The report of a world in which every node is over, or why it has none.
fn reported<I: ImageDev, O: Operation>(alloc: Global, w: &World<I, O>) -> Result<Vec<u8>, Halt>
    requires over { AllOver w.now.world }
    ensures report { IfOk result (λ text. (c : Cat) × HasEnded w.now.world c × (text.items ≡ report_text w.now.world.history c)) }
    ensures end { IfErr result (λ h. h ≡ Halt.By Status.NoMemory) }
{
    match report_of(alloc, w) {
        Ok(text) => Ok(text),
        Err(_) => Err(Halt::By(Status::NoMemory)),
    }
}

// The same, with its image.
fn report_over<I: ImageDev, O: Operation>(alloc: Global, w: World<I, O>) -> MendedRun<I>
    requires over { AllOver w.world }
    ensures told { IfOk result.outcome (λ text. IsToldOver Job.Live w.world (I.told w.image) (I.told result.image) text.items) }
    ensures halt { IfErr result.outcome (IsHaltOver Job.Live w.world (I.told w.image) (I.told result.image) (I.faults w.image) (I.faults result.image)) }
{
    let outcome = reported(alloc, &w);
    MendedRun {
        outcome,
        image: image_of(w),
    }
}

// How a world is told in which every node is over: with its report, or with that of its mended drive.
fn told_over<I: ImageDev, O: Operation>(alloc: Global, w: World<I, O>, job: Job) -> MendedRun<I>
    requires over { AllOver w.world }
    requires told { IsTold (I.told w.image) w.world.blocks }
    ensures told { IfOk result.outcome (λ text. IsToldOver job w.world (I.told w.image) (I.told result.image) text.items) }
    ensures halt { IfErr result.outcome (IsHaltOver job w.world (I.told w.image) (I.told result.image) (I.faults w.image) (I.faults result.image)) }
{
    match job {
        Job::Live => report_over(alloc, w),
        Job::LiveRebuild => mend_over(alloc, w),
    }
}

// How the run after the threads is told.
fn told_end<I: ImageDev, O: Operation>(
    alloc: Global,
    w: World<I, O>,
    ran: Result<(), RunFault>,
    job: Job,
) -> MendedRun<I>
    requires over { OnOk ran (AllOver w.world) }
    requires told { OnOk ran (IsTold (I.told w.image) w.world.blocks) }
    ensures told { IfOk result.outcome (λ text. IsToldEnd job w.world ran (I.told w.image) (I.told result.image) text.items) }
    ensures halt { IfErr result.outcome (IsHaltAfter job w.world ran (I.told w.image) (I.told result.image) (I.faults w.image) (I.faults result.image)) }
{
    match ran {
        Ok(()) => told_over(alloc, w, job),
        Err(fault) => {
            let stop = stop_of(alloc, &w, fault);
            MendedRun {
                outcome: Err(halt_of(stop)),
                image: image_of(w),
            }
        }
    }
}

// Runs the script of a volume that is just mounted, with a thread for each node.
fn live_on<R: Threads + Wait + Sync, I: ImageDev + Send, G: Gate + Sync>(
    rt: &R,
    alloc: Global,
    world: World<I, XqpOp>,
    gate: &G,
    job: Job,
) -> MendedRun<I>
    requires mounted { IsMounted world.world.blocks world.world.script world.world }
    requires told { IsTold (I.told world.image) world.world.blocks }
    ensures ended { IfOk result.outcome (λ text. Leaves (I.told world.image) (I.told result.image) (λ new. IsEnd job world.world.script world.world.blocks new text.items)) }
    ensures halt { IfErr result.outcome (λ h. Leaves (I.told world.image) (I.told result.image)
        (λ new. IsHalt job world.world.script world.world.blocks new (I.faults world.image) (I.faults result.image) h)) }
{
    world.keeps_the_rules();
    match lived(rt, alloc, world, gate) {
        Ok(mut closed) => {
            closed.world.keeps_the_rules();
            let ran = finish(alloc, &mut closed);
            closed.world.keeps_the_rules();
            told_end(alloc, closed.world, ran, job)
        }
        Err(refused) => MendedRun {
            outcome: Err(Halt::By(Status::NoMemory)),
            image: image_of(refused.world),
        },
    }
}

/// Mounts a drive for a script.
pub fn mounted<I: ImageDev>(
    alloc: Global,
    m: Mirror<I>,
    script: &Script,
) -> Result<World<I, XqpOp>, MountRefused<I>>
    requires form { InForm script.now }
    ensures world { IfOk result (λ w. IsMounted m.blocks script.now w.world) }
    ensures image { IfOk result (λ w. w.image ≡ m.image) }
    ensures end { IfErr result (λ r. IsMountEnd m.blocks r.fault) }
    ensures mirror { IfErr result (λ r. r.mirror ≡ m) }
{
    World::mount(alloc, m, script)
}

// Mounts a drive, and runs the script on it.
fn live_mounted<R: Threads + Wait + Sync, I: ImageDev + Send, G: Gate + Sync>(
    rt: &R,
    alloc: Global,
    m: Mirror<I>,
    script: &Script,
    gate: &G,
    job: Job,
) -> MendedRun<I>
    requires form { InForm script.now }
    requires told { IsTold (I.told m.image) m.blocks }
    ensures ended { IfOk result.outcome (λ text. Leaves (I.told m.image) (I.told result.image) (λ new. IsEnd job script.now m.blocks new text.items)) }
    ensures halt { IfErr result.outcome (λ h. Leaves (I.told m.image) (I.told result.image)
        (λ new. IsHalt job script.now m.blocks new (I.faults m.image) (I.faults result.image) h)) }
{
    match mounted(alloc, m, script) {
        Ok(world) => live_on(rt, alloc, world, gate, job),
        Err(MountRefused { fault, mirror }) => MendedRun {
            outcome: Err(Halt::By(mount_status(fault))),
            image: mirror.into_image(),
        },
    }
}

// Runs a script on an image.
fn live_image<R: Threads + Wait + Sync, I: ImageDev + Send, G: Gate + Sync>(
    rt: &R,
    alloc: Global,
    image: I,
    script: &Script,
    gate: &G,
    job: Job,
) -> MendedRun<I>
    requires form { InForm script.now }
    ensures inside { IfOk result.outcome (λ text. IsInside (I.size image)) }
    ensures ended { IfOk result.outcome (λ text. OfImage (I.size image) (I.told image) (I.told result.image) (λ old new. IsEnd job script.now old new text.items)) }
    ensures halt { IfErr result.outcome (λ h. OfImage (I.size image) (I.told image) (I.told result.image)
        (λ old new. IsImageHalt job script.now (I.size image) old new (I.faults image) (I.faults result.image) (I.lost image) (I.lost result.image) h)) }
{
    blocks_are_counted(&image);
    match Mirror::load(alloc, image) {
        Ok(mirror) => live_mounted(rt, alloc, mirror, script, gate, job),
        Err(LoadRefused { fault, image }) => MendedRun {
            outcome: Err(Halt::By(load_status(fault))),
            image,
        },
    }
}

/// Runs the script that is read on the image, with a thread for each node.
pub fn live_script<R: Threads + Wait + Sync, I: ImageDev + Send, T: TextIn, G: Gate + Sync>(
    rt: &R,
    alloc: Global,
    image: I,
    script: &mut T,
    gate: &G,
    job: Job,
) -> MendedRun<I>
    ensures report { IfOk result.outcome (λ text. OfScript (T.left script.old) (λ bytes. OfImage (I.size image) (I.told image) (I.told result.image)
        (λ old new. IsReported job bytes (I.size image) old new text.items))) }
    ensures halt { IfErr result.outcome (λ h. OfScript (T.left script.old) (λ bytes. OfImage (I.size image) (I.told image) (I.told result.image)
        (λ old new. IsRunHalt job bytes (I.size image) old new (T.faults script.old) (T.faults script.new) (I.faults image) (I.faults result.image) (I.lost image) (I.lost result.image) h))) }
{
    blocks_are_counted(&image);
    match script_of(alloc, script) {
        Ok(spelt) => live_image(rt, alloc, image, &spelt, gate, job),
        Err(status) => MendedRun {
            outcome: Err(Halt::By(status)),
            image,
        },
    }
}
