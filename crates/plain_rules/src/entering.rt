//! The entries of system files, which mending keeps, and of lost files, which it makes.

ghost use Rattle.std.specs.Prelude.{◌≡◌, ◌≤◌, ◌-◌, slice_get, IfOk};
ghost use Rattle.plain_rules.specs.Mending.{entries_in, is_name_of, system_names, is_own, digit, lost_name, with_lost_entry};

use crate::directories;
use crate::packing::dir_fits;
use plain_cat::{DirEnt, DirEnts, Fid, Name, NoMemory, Slot};
use std::alloc::Global;

/// The entries of a slot's directory, of which a slot without a directory has none.
pub fn entries_in(slot: &Slot) -> &[DirEnt]
    ensures { result.now ≡ entries_in slot.now }
{
    match slot {
        Slot::Used(file) if file.dir => file.entries.items(),
        _ => &[],
    }
}

// Whether a name is the one of a system file.
#[tactic(auto, unfolding(crate::specs::Mending::system_names))]
fn is_system_name(name: &Name, n: u32) -> bool
    ensures { result ≡ is_name_of name.now (slice_get system_names (n - 1)) }
{
    let name = name.items();
    match n.saturating_sub(1) {
        0 => name == b"INDEXF.SYS".as_slice(),
        1 => name == b"BITMAP.SYS".as_slice(),
        2 => name == b"BADBLK.SYS".as_slice(),
        3 => name == b"000000.DIR".as_slice(),
        4 => name == b"CORIMG.SYS".as_slice(),
        5 => name == b"VOLSET.SYS".as_slice(),
        6 => name == b"CONTIN.SYS".as_slice(),
        7 => name == b"BACKUP.SYS".as_slice(),
        8 => name == b"BADLOG.SYS".as_slice(),
        9 => name == b"QUOTA.SYS".as_slice(),
        10 => name == b"SYSLOST.DIR".as_slice(),
        _ => false,
    }
}

/// Whether an entry of the directory `dir` is the one that a system file keeps: its own name, version 1, in the master file
/// directory, which is file 4.
#[tactic(auto, unfolding(crate::specs::Mending::is_own))]
pub fn is_own(dir: u32, e: &DirEnt) -> bool
    ensures { result ≡ is_own (record { dir = dir; entry = e.now }) }
{
    dir == 4 && e.ver == 1 && is_system_name(&e.name, e.fid.num)
}

fn digit(n: u32, unit: u32) -> u8
    requires { 1 ≤ unit }
    ensures { result ≡ digit n unit }
{
    48 + (n / unit % 10) as u8
}

/// The name of a lost file's entry, `Fnnnnn.LST` by its number. An error says that memory ran out.
#[tactic(auto, unfolding(crate::specs::Mending::lost_name))]
pub fn lost_name(alloc: Global, n: u32) -> Result<Name, NoMemory>
    ensures { IfOk result (λ name. name ≡ lost_name n) }
{
    let mut name = Name::new(alloc);
    name.push(b'F')?;
    name.push(digit(n, 10000))?;
    name.push(digit(n, 1000))?;
    name.push(digit(n, 100))?;
    name.push(digit(n, 10))?;
    name.push(digit(n, 1))?;
    name.push(b'.')?;
    name.push(b'L')?;
    name.push(b'S')?;
    name.push(b'T')?;
    Ok(name)
}

/// The entries of [SYSLOST] with that of a lost file of this number and sequence, under `Fnnnnn.LST` with one more than the
/// highest version of the name; or none where that version were above 32,767, or the entries would not pack into `factor`
/// blocks, which is one cluster.
#[tactic(auto, unfolding(crate::specs::Mending::with_lost_entry))]
pub fn with_lost_entry(
    alloc: Global,
    entries: &DirEnts,
    n: u32,
    seq: u16,
    factor: u32,
) -> Result<Option<DirEnts>, NoMemory>
    ensures { IfOk result (λ o. o ≡ with_lost_entry factor entries.now n seq) }
{
    let name = lost_name(alloc, n)?;
    let highest = directories::highest(entries.items(), &name);
    if highest >= 32767 {
        return Ok(None);
    }
    let e = DirEnt {
        name,
        ver: highest + 1,
        fid: Fid { num: n, seq },
    };
    let more = directories::inserted(alloc, e, entries)?;
    if !dir_fits(more.items(), factor) {
        return Ok(None);
    }
    Ok(Some(more))
}
