//! Step 4: files whose owner has no row become those of [1,1].

ghost use Rattle.std.specs.Prelude.{◌≡◌, ◌<◌, ◌-◌, Err, IfOk, OnOk, length, slice_index_or, slice_set};
ghost use Rattle.fx_header.specs.Headers.{with_owner};
ghost use Rattle.plain_rules.specs.Changes.{with_slot};
ghost use Rattle.vol_faults.specs.Conditions.{IsSize};
ghost use Rattle.vol_init.specs.Layouts.{system_owner};
ghost use Rattle.vol_spell.specs.Kinds.{owned_by};
ghost use Rattle.vol_spell.specs.Reading.{IsFileNumber, header_place, header_block};
ghost use Rattle.vol_sound.specs.Begun.{has_row, owned, with_owners};
ghost use Rattle.vol_repair.specs.Aims.{Aim, Holds};
ghost use Rattle.vol_repair.specs.Alike.{IsSpeltAs, TellsAlike};
ghost use Rattle.vol_repair.specs.Steps.{IsStep};

use crate::fault::StepFault;
use crate::making::make;
use blk_drive::{ImageDev, Mirror};
use fx_header::set_owner;
use plain_cat::{Cat, File, NoMemory, Slot, Uic};
use plain_rules::{file_at, row_of};
use std::alloc::Global;
use vol_init::SYSTEM_OWNER;
use vol_parts::Geometry;

// Whether an owner has a row.
fn has_row(cat: &Cat, owner: Uic) -> bool
    ensures { result ≡ has_row cat.now owner.0 }
{
    row_of(cat.quota.items(), owner).is_some()
}

// The same file as one of [1,1].
fn as_system_file(alloc: Global, file: &File) -> Result<File, NoMemory>
    ensures { IfOk result (λ f. f ≡ owned_by file.now system_owner) }
{
    let mut file = file.copy(alloc)?;
    file.owner = Uic(SYSTEM_OWNER);
    Ok(file)
}

// Writes [1,1] as the owner into the header of a number.
fn write_owner<I: ImageDev>(m: &mut Mirror<I>, g: &Geometry, n: u32) -> Result<(), StepFault>
    requires size { IsSize (length m.old.blocks) }
    requires inside { header_place g.now n < length m.old.blocks }
    ensures step { (a : Aim) → Holds a m.old.blocks → Holds a (slice_set m.old.blocks (header_place g.now n) (with_owner (header_block g.now m.old.blocks n) system_owner))
        → IsStep (Holds a) m.old.blocks m.new.blocks (I.told m.old.image) (I.told m.new.image) (I.faults m.old.image) (I.faults m.new.image) (result ≡ Err StepFault.ImageFault) }
    ensures ok { OnOk result (m.new.blocks ≡ slice_set m.old.blocks (header_place g.now n) (with_owner (header_block g.now m.old.blocks n) system_owner)) }
{
    let lbn = 4 * g.cluster + n;
    let mut b = m.all()[lbn as usize];
    set_owner(&mut b, SYSTEM_OWNER);
    make(m, lbn, &b)
}

// The file of a number becomes [1,1]'s, if its owner has no row.
fn set_owner_of<I: ImageDev>(
    alloc: Global,
    m: &mut Mirror<I>,
    g: &Geometry,
    cat: &mut Cat,
    n: u32,
) -> Result<(), StepFault>
    requires size { IsSize (length m.old.blocks) }
    requires number { IsFileNumber g.now n }
    requires told { IsSpeltAs g.now m.old.blocks cat.old }
    ensures step { IsStep (TellsAlike g.now cat.old) m.old.blocks m.new.blocks (I.told m.old.image) (I.told m.new.image) (I.faults m.old.image) (I.faults m.new.image) (result ≡ Err StepFault.ImageFault) }
    ensures told { OnOk result (IsSpeltAs g.now m.new.blocks cat.new) }
    ensures cat { OnOk result (cat.new ≡ with_slot cat.old n (owned cat.old (slice_index_or cat.old.files (n - 1) (Slot.Free 0)))) }
{
    let Some(file) = file_at(cat, n) else {
        return Ok(());
    };
    if has_row(cat, file.owner) {
        return Ok(());
    }
    let file = as_system_file(alloc, file)?;
    write_owner(m, g, n)?;
    cat.files.set(n as usize - 1, Slot::Used(file));
    Ok(())
}

// Each file whose owner has no row becomes one of [1,1].
pub(crate) fn set_owners<I: ImageDev>(
    alloc: Global,
    m: &mut Mirror<I>,
    g: &Geometry,
    cat: &mut Cat,
) -> Result<(), StepFault>
    requires size { IsSize (length m.old.blocks) }
    requires told { IsSpeltAs g.now m.old.blocks cat.old }
    ensures step { IsStep (TellsAlike g.now cat.old) m.old.blocks m.new.blocks (I.told m.old.image) (I.told m.new.image) (I.faults m.old.image) (I.faults m.new.image) (result ≡ Err StepFault.ImageFault) }
    ensures told { OnOk result (IsSpeltAs g.now m.new.blocks cat.new) }
    ensures cat { OnOk result (cat.new ≡ with_owners cat.old) }
{
    for n in 1..g.files + 1 {
        set_owner_of(alloc, m, g, cat, n)?;
    }
    Ok(())
}
