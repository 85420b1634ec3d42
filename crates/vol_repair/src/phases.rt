//! The parts of a repair that are made before the blocks spell a catalogue.

ghost use Rattle.std.specs.Prelude.{◌≡◌, Err, map, IfOk, OnOk};
ghost use Rattle.base_words.specs.Fields.{AreWholeBlocks};
ghost use Rattle.vol_parts.specs.Volumes.{volume, numbers};
ghost use Rattle.vol_sound.specs.Sound.{is_sound, is_kept, freed_slots};
ghost use Rattle.vol_repair.specs.Laws.{IsMendable};
ghost use Rattle.vol_repair.specs.Patching.{IsReady};
ghost use Rattle.vol_repair.specs.Steps.{IsStep};
ghost use Rattle.vol_repair.specs.Touched.{IsTouched};

use crate::bits::make_bits;
use crate::directories::make_directories;
use crate::fault::StepFault;
use crate::freeing::free_slots;
use crate::laws::phases_lead;
use crate::rows::make_rows;
use blk_drive::{ImageDev, Mirror};
use fx_home::Home;
use std::alloc::Global;
use vol_sound::{freed_slots, kept_slots, sound_files};

// The parts, in their order. The flags say which files are sound, and which header slots are kept.
fn make_ready<I: ImageDev>(
    alloc: Global,
    m: &mut Mirror<I>,
    home: &Home,
    sound: &[bool],
    kept: &[bool],
) -> Result<(), StepFault>
    requires mendable { IsMendable home.now m.old.blocks }
    requires whole { AreWholeBlocks m.old.blocks }
    requires sound { let v = volume home.now m.old.blocks in sound.now ≡ map (is_sound v) (numbers v) }
    requires kept { let v = volume home.now m.old.blocks in kept.now ≡ map (is_kept v) (numbers v) }
    ensures step { IsStep (IsTouched home.now m.old.blocks) m.old.blocks m.new.blocks (I.told m.old.image) (I.told m.new.image) (I.faults m.old.image) (I.faults m.new.image) (result ≡ Err StepFault.ImageFault) }
    ensures ok { OnOk result (IsReady home.now m.old.blocks m.new.blocks) }
{
    phases_lead();
    free_slots(m, home, kept)?;
    make_directories(alloc, m, home, sound)?;
    make_rows(alloc, m, home)?;
    make_bits(alloc, m, home, kept)
}

// Makes a volume in which nothing is beyond repair tell the catalogue that the repair begins with: how many header slots became free.
pub(crate) fn begin<I: ImageDev>(
    alloc: Global,
    m: &mut Mirror<I>,
    home: &Home,
) -> Result<u32, StepFault>
    requires mendable { IsMendable home.now m.old.blocks }
    requires whole { AreWholeBlocks m.old.blocks }
    ensures step { IsStep (IsTouched home.now m.old.blocks) m.old.blocks m.new.blocks (I.told m.old.image) (I.told m.new.image) (I.faults m.old.image) (I.faults m.new.image) (result ≡ Err StepFault.ImageFault) }
    ensures ok { OnOk result (IsReady home.now m.old.blocks m.new.blocks) }
    ensures slots { IfOk result (λ k. k ≡ freed_slots (volume home.now m.old.blocks)) }
{
    let sound = sound_files(alloc, home, m.all())?;
    let kept = kept_slots(alloc, home, m.all(), sound.as_slice())?;
    let slots = freed_slots(home, m.all(), kept.as_slice());
    make_ready(alloc, m, home, sound.as_slice(), kept.as_slice())?;
    Ok(slots)
}
