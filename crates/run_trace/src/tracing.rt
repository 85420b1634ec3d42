//! A script is traced on a copy of an image.

ghost use Rattle.std.specs.Prelude.{◌≡◌, Some, IfOk, IfErr};
ghost use Rattle.plain_cat.specs.InForm.{InForm};
ghost use Rattle.blk_drive.specs.Images.{IsInside};
ghost use Rattle.blk_drive.specs.Telling.{IsTold};
ghost use Rattle.core_state.specs.Mounting.{IsMounted};
ghost use Rattle.run_engine.specs.Inputs.{OfScript, OfImage};
ghost use Rattle.run_trace.specs.Inside.{IsEndText, IsTracedIn, IsHaltOf, IsImageHaltOf, IsTracedOf, IsTraceHalt};

use crate::copied::{Copied, copy_of};
use crate::endings::{Ending, with_end};
use crate::walking::walk;
use blk_drive::{ImageDev, LoadRefused, Mirror};
use core_state::{MountRefused, World};
use fx_text::TextIn;
use plain_cat::{Plays, Script};
use run_engine::{Halt, Status, load_status, mount_status, script_of};
use std::alloc::Global;
use xqp_set::XqpOp;

/// The end of a trace: its text, or why there is none, and the image.
#[derive(Drop)]
pub struct Traced<I: ImageDev> {
    pub outcome: Result<Vec<u8>, Halt>,
    pub image: I,
}

// Traces the script of a volume that is just mounted.
fn trace_on(
    alloc: Global,
    w: World<Copied, XqpOp>,
    plays: &Plays,
    ending: Ending,
) -> Result<Vec<u8>, Halt>
    requires mounted { IsMounted w.world.blocks w.world.script w.world }
    requires form { InForm w.world.script }
    requires plays { plays.now ≡ w.world.script.plays }
    requires told { IsTold (Some w.image) w.world.blocks }
    ensures text { IfOk result (λ text. IsTracedIn (IsEndText ending) w.world.script w.world.blocks text.items) }
    ensures halt { IfErr result (IsHaltOf ending w.world.script w.world.blocks) }
{
    let mut w = w;
    w.keeps_the_rules();
    let mut lines = Vec::new(alloc);
    let walked = walk(alloc, &mut lines, &mut w, plays);
    w.keeps_the_rules();
    match walked {
        Ok(()) => with_end(alloc, lines, w, ending),
        Err(_) => Err(Halt::By(Status::NoMemory)),
    }
}

// Mounts a copy of a volume, and traces the script on it.
fn trace_mounted(
    alloc: Global,
    m: Mirror<Copied>,
    script: &Script,
    ending: Ending,
) -> Result<Vec<u8>, Halt>
    requires form { InForm script.now }
    requires told { IsTold (Some m.image) m.blocks }
    ensures text { IfOk result (λ text. IsTracedIn (IsEndText ending) script.now m.blocks text.items) }
    ensures halt { IfErr result (IsHaltOf ending script.now m.blocks) }
{
    match World::<Copied, XqpOp>::mount(alloc, m, script) {
        Ok(world) => trace_on(alloc, world, &script.plays, ending),
        Err(MountRefused { fault, .. }) => Err(Halt::By(mount_status(fault))),
    }
}

// Traces the script on a copy of a drive.
fn trace_copy<I: ImageDev>(
    alloc: Global,
    m: &Mirror<I>,
    script: &Script,
    ending: Ending,
) -> Result<Vec<u8>, Halt>
    requires form { InForm script.now }
    ensures text { IfOk result (λ text. IsTracedIn (IsEndText ending) script.now m.now.blocks text.items) }
    ensures halt { IfErr result (IsHaltOf ending script.now m.now.blocks) }
{
    let _size = m.size();
    let Ok(copy) = copy_of(alloc, m.all()) else {
        return Err(Halt::By(Status::NoMemory));
    };
    match Mirror::load(alloc, copy) {
        Ok(mirror) => trace_mounted(alloc, mirror, script, ending),
        Err(_) => Err(Halt::By(Status::NoMemory)),
    }
}

// Traces the script on a copy of an image.
fn trace_image<I: ImageDev>(alloc: Global, image: I, script: &Script, ending: Ending) -> Traced<I>
    requires form { InForm script.now }
    ensures text { IfOk result.outcome (λ text. OfImage (I.size image) (I.told image) (I.told result.image)
        (λ old new. IsInside (I.size image) × (IsTracedIn (IsEndText ending) script.now old text.items × (new ≡ old)))) }
    ensures halt { IfErr result.outcome (λ h. OfImage (I.size image) (I.told image) (I.told result.image)
        (λ old new. IsImageHaltOf ending script.now (I.size image) old (I.faults image) (I.faults result.image) h × (new ≡ old))) }
{
    match Mirror::load(alloc, image) {
        Ok(mirror) => {
            let outcome = trace_copy(alloc, &mirror, script, ending);
            Traced {
                outcome,
                image: mirror.into_image(),
            }
        }
        Err(LoadRefused { fault, image }) => Traced {
            outcome: Err(Halt::By(load_status(fault))),
            image,
        },
    }
}

/// Traces the script that is read on a copy of the image.
pub fn trace_script<I: ImageDev, T: TextIn>(
    alloc: Global,
    image: I,
    script: &mut T,
    ending: Ending,
) -> Traced<I>
    ensures text { IfOk result.outcome (λ text. OfScript (T.left script.old) (λ bytes. OfImage (I.size image) (I.told image) (I.told result.image)
        (λ old new. IsTracedOf ending bytes (I.size image) old new text.items))) }
    ensures halt { IfErr result.outcome (λ h. OfScript (T.left script.old) (λ bytes. OfImage (I.size image) (I.told image) (I.told result.image)
        (λ old new. IsTraceHalt ending bytes (I.size image) old new (T.faults script.old) (T.faults script.new) (I.faults image) (I.faults result.image) h))) }
{
    match script_of(alloc, script) {
        Ok(spelt) => trace_image(alloc, image, &spelt, ending),
        Err(status) => Traced {
            outcome: Err(Halt::By(status)),
            image,
        },
    }
}
