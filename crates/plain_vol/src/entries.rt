//! Directories with one entry more or fewer.

ghost use Rattle.std.specs.Prelude.{◌≡◌, OnOk, OnErr};
ghost use Rattle.plain_rules.specs.Directories.{is_entry, inserted, without};
ghost use Rattle.plain_vol.specs.Makings.{changed};

use crate::changes::{set_slot, take_file};
use plain_cat::{Cat, DirEnt, DirEnts, File, Name, NoMemory, Slot};
use plain_rules::insert_in;

#[tactic(auto, unfolding(plain_rules::specs::Directories::is_entry))]
fn is_entry(e: &DirEnt, name: &Name, ver: u16) -> bool
    ensures { result ≡ is_entry name.now ver e.now }
{
    e.name.is_same(name) && e.ver == ver
}

// Takes the entry of this name and version out, and any further one of the same.
fn remove_all(entries: &mut DirEnts, name: &Name, ver: u16)
    ensures { entries.new ≡ without name.now ver entries.old }
{
    let all = entries.items().len();
    for i in 0..all {
        let at = all - 1 - i;
        if is_entry(&entries.items()[at], name, ver) {
            entries.remove(at);
        }
    }
}

// Takes the entry of this name and version out of a directory.
fn leave_in(dir: &mut File, name: &Name, ver: u16)
    ensures { dir.new ≡ record dir.old { entries = without name.now ver dir.old.entries } }
{
    remove_all(&mut dir.entries, name, ver);
}

// Puts an entry into a directory, in its place in order. After want of memory the directory is as before.
pub(crate) fn enter_in(dir: &mut File, e: DirEnt) -> Result<(), NoMemory>
    ensures ok { OnOk result (dir.new ≡ record dir.old { entries = inserted e dir.old.entries }) }
    ensures err { OnErr result (dir.new ≡ dir.old) }
{
    insert_in(&mut dir.entries, e)
}

// Takes the entry of this name and version out of the directory of a number.
pub(crate) fn leave(cat: &mut Cat, n: u32, name: &Name, ver: u16)
    ensures { cat.new ≡ changed cat.old n (λ d. record d { entries = without name.now ver d.entries }) }
{
    let Some(mut dir) = take_file(cat, n) else {
        return;
    };
    leave_in(&mut dir, name, ver);
    set_slot(cat, n, Slot::Used(dir));
}

// The same, and puts another entry in. After want of memory the directory is gone.
pub(crate) fn replace(
    cat: &mut Cat,
    n: u32,
    name: &Name,
    ver: u16,
    e: DirEnt,
) -> Result<(), NoMemory>
    ensures { OnOk result (cat.new ≡ changed cat.old n (λ d. record d { entries = inserted e (without name.now ver d.entries) })) }
{
    let Some(mut dir) = take_file(cat, n) else {
        return Ok(());
    };
    leave_in(&mut dir, name, ver);
    enter_in(&mut dir, e)?;
    set_slot(cat, n, Slot::Used(dir));
    Ok(())
}
