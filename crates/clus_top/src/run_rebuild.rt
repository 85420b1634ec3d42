//! The job `run --rebuild`: a script is run on an image, which is mended then.

ghost use Rattle.std.specs.Prelude.{◌≡◌, IfErr, IfOk};
ghost use Rattle.plain_cat.specs.InForm.{InForm};
ghost use Rattle.blk_drive.specs.Telling.{IsTold};
ghost use Rattle.core_state.specs.Mounting.{IsMounted};
ghost use Rattle.run_engine.specs.Inputs.{OfScript, Leaves, OfImage};
ghost use Rattle.blk_drive.specs.Images.{IsInside};
ghost use Rattle.clus_top.specs.Halts.{IsMendedIn, IsHaltIn, IsImageHalt, IsMendedWith, IsRunHalt};

use blk_drive::{ImageDev, LoadRefused, Mirror};
use core_state::{MountRefused, World};
use fx_text::TextIn;
use plain_cat::{Plays, Script};
use run_engine::{
    Halt, MendedRun, halt_of, load_status, mend_over, mount_status, run, script_of, stop_of,
};
use std::alloc::Global;
use xqp_set::XqpOp;

// Runs the script of a volume that is just mounted, and mends its drive then.
fn mend_on<I: ImageDev>(alloc: Global, w: World<I, XqpOp>, plays: &Plays) -> MendedRun<I>
    requires mounted { IsMounted w.world.blocks w.world.script w.world }
    requires form { InForm w.world.script }
    requires plays { plays.now ≡ w.world.script.plays }
    requires told { IsTold (I.told w.image) w.world.blocks }
    ensures report { IfOk result.outcome (λ text. Leaves (I.told w.image) (I.told result.image) (λ new. IsMendedIn w.world.script w.world.blocks new text.items)) }
    ensures halt { IfErr result.outcome (λ h. Leaves (I.told w.image) (I.told result.image)
        (λ new. IsHaltIn w.world.script w.world.blocks new (I.faults w.image) (I.faults result.image) h)) }
{
    let mut w = w;
    w.keeps_the_rules();
    let ran = run(alloc, &mut w, plays);
    w.keeps_the_rules();
    match ran {
        Ok(()) => mend_over(alloc, w),
        Err(fault) => {
            let stop = stop_of(alloc, &w, fault);
            let (_history, mirror) = w.into_parts();
            MendedRun {
                outcome: Err(halt_of(stop)),
                image: mirror.into_image(),
            }
        }
    }
}

// Mounts a drive, runs the script on it, and mends it then.
fn mend_mounted<I: ImageDev>(alloc: Global, m: Mirror<I>, script: &Script) -> MendedRun<I>
    requires form { InForm script.now }
    requires told { IsTold (I.told m.image) m.blocks }
    ensures report { IfOk result.outcome (λ text. Leaves (I.told m.image) (I.told result.image) (λ new. IsMendedIn script.now m.blocks new text.items)) }
    ensures halt { IfErr result.outcome (λ h. Leaves (I.told m.image) (I.told result.image)
        (λ new. IsHaltIn script.now m.blocks new (I.faults m.image) (I.faults result.image) h)) }
{
    match World::<I, XqpOp>::mount(alloc, m, script) {
        Ok(world) => mend_on(alloc, world, &script.plays),
        Err(MountRefused { fault, mirror }) => MendedRun {
            outcome: Err(Halt::By(mount_status(fault))),
            image: mirror.into_image(),
        },
    }
}

// Runs a script on an image, and mends it then.
fn mend_image<I: ImageDev>(alloc: Global, image: I, script: &Script) -> MendedRun<I>
    requires form { InForm script.now }
    ensures inside { IfOk result.outcome (λ text. IsInside (I.size image)) }
    ensures report { IfOk result.outcome (λ text. OfImage (I.size image) (I.told image) (I.told result.image) (λ old new. IsMendedIn script.now old new text.items)) }
    ensures halt { IfErr result.outcome (λ h. OfImage (I.size image) (I.told image) (I.told result.image)
        (λ old new. IsImageHalt script.now (I.size image) old new (I.faults image) (I.faults result.image) (I.lost image) (I.lost result.image) h)) }
{
    match Mirror::load(alloc, image) {
        Ok(mirror) => mend_mounted(alloc, mirror, script),
        Err(LoadRefused { fault, image }) => MendedRun {
            outcome: Err(Halt::By(load_status(fault))),
            image,
        },
    }
}

/// Runs the script that is read on the image, and mends its volume once the last node is over, for its report.
pub fn run_and_mend<I: ImageDev, T: TextIn>(alloc: Global, image: I, script: &mut T) -> MendedRun<I>
    ensures report { IfOk result.outcome (λ text. OfScript (T.left script.old) (λ bytes. OfImage (I.size image) (I.told image) (I.told result.image)
        (λ old new. IsMendedWith bytes (I.size image) old new text.items))) }
    ensures halt { IfErr result.outcome (λ h. OfScript (T.left script.old) (λ bytes. OfImage (I.size image) (I.told image) (I.told result.image)
        (λ old new. IsRunHalt bytes (I.size image) old new (T.faults script.old) (T.faults script.new) (I.faults image) (I.faults result.image) (I.lost image) (I.lost result.image) h))) }
{
    match script_of(alloc, script) {
        Ok(spelt) => mend_image(alloc, image, &spelt),
        Err(status) => MendedRun {
            outcome: Err(Halt::By(status)),
            image,
        },
    }
}
