//! DELETE and RENAME.

ghost use Rattle.std.specs.Prelude.{◌≡◌, ◌<◌, ◌^◌, option_copied, IfOk, IfSome, OnOk};
ghost use Rattle.plain_cat.specs.declared.cat.Cat.{Cat};
ghost use Rattle.plain_rules.specs.Accounts.{Accounted};
ghost use Rattle.plain_rules.specs.Changes.{cost};
ghost use Rattle.plain_rules.specs.Directories.{entry};
ghost use Rattle.plain_rules.specs.Answers.{has_entries, unnamed, delete_outcome, rename_outcome};
ghost use Rattle.plain_vol.specs.Makings.{changed, marked, Stands, goner_of, less_goner, lost, unnamed_in, renamed_in};

use crate::changes::{cost, discharge, set_slot, take_file};
use crate::entries::{leave, replace};
use crate::lookups::{is_open, live_file};
use crate::outcomes::{refused, told};
use plain_cat::{Cat, DirEnt, Fid, File, Name, NoMemory, Refusal, Reply, Slot, Uic};
use plain_rules::{Outcome, entry_of, fits_with, highest, in_use, with_version};
use std::alloc::Global;

/// A file that is gone: whose it was, how many blocks that owner is charged no more, and its sequence.
#[derive(Clone, Copy, Debug, PartialEq)]
pub struct Goner {
    pub(crate) owner: Uic,
    pub(crate) charge: u32,
    pub(crate) seq: u16,
}

/// What a file comes to whose entry is gone.
#[derive(Clone, Copy, Debug, PartialEq)]
pub enum Loss {
    /// There is no such file.
    Nothing,

    /// It is open, and marked for delete.
    Mark,

    /// It is gone.
    Gone(Goner),
}

/// An entry that is gone, and what the file comes to that it named.
#[derive(Drop)]
pub struct Deletion {
    entry: DirEnt,
    loss: Loss,
}

/// An entry that is gone, and the one in its place.
#[derive(Drop)]
pub struct Renaming {
    from: DirEnt,
    to: DirEnt,
}

// The file under a number is gone, and its owner is charged no more.
pub(crate) fn remove(alloc: Global, cat: &mut Cat, n: u32, goner: Goner) -> Result<(), NoMemory>
    ensures { OnOk result (cat.new ≡ less_goner cat.old n goner) }
{
    discharge(alloc, cat, goner.owner, goner.charge)?;
    set_slot(cat, n, Slot::Free(goner.seq));
    Ok(())
}

// A file that is to be gone.
pub(crate) fn goner_of(cat: &Cat, file: &File) -> Goner
    requires { cost cat.now file.now.clusters < 2 ^ 32 }
    ensures { result ≡ goner_of cat.now file.now }
{
    Goner {
        owner: file.owner,
        charge: cost(cat, file.clusters),
        seq: file.seq,
    }
}

fn has_entries(file: Option<&File>) -> bool
    ensures { result ≡ has_entries (option_copied file.entry) }
{
    match file {
        Some(file) => file.dir && !file.entries.items().is_empty(),
        None => false,
    }
}

// What the file under a number comes to, in any catalogue with this cluster factor, these channels and this file.
fn loss_of(cat: &Cat, n: u32, file: Option<&File>) -> Loss
    requires { IfSome (option_copied file) (λ f. cost cat.now f.clusters < 2 ^ 32) }
    ensures { (c : Cat) → c.factor ≡ cat.now.factor → c.opens ≡ cat.now.opens → Stands c n (option_copied file.entry) → lost c n result ≡ unnamed c n (option_copied file.entry) }
{
    let Some(file) = file else {
        return Loss::Nothing;
    };
    if is_open(cat, n) {
        return Loss::Mark;
    }
    Loss::Gone(goner_of(cat, file))
}

// What DELETE leaves, or why it deletes nothing.
#[tactic(auto, unfolding(plain_rules::specs::Answers::delete_outcome))]
fn unnamed(
    alloc: Global,
    cat: &Cat,
    dir: Fid,
    name: &Name,
    ver: u16,
) -> Result<Result<Deletion, Refusal>, NoMemory>
    requires { Accounted cat.now }
    ensures { IfOk result (λ u. unnamed_in cat.now dir.num u ≡ delete_outcome cat.now dir name.now ver) }
{
    let Some(d) = live_file(cat, dir) else {
        return Ok(Err(Refusal::NoSuchFile));
    };
    if !d.dir {
        return Ok(Err(Refusal::NotDir));
    }
    let Some(e) = entry_of(d.entries.items(), name, ver) else {
        return Ok(Err(Refusal::NoSuchFile));
    };
    if e.fid.num <= 11 {
        return Ok(Err(Refusal::NoPriv));
    }
    let file = in_use(cat, e.fid);
    if has_entries(file) {
        return Ok(Err(Refusal::DirNotEmpty));
    }
    Ok(Ok(Deletion {
        entry: e.copy(alloc)?,
        loss: loss_of(cat, e.fid.num, file),
    }))
}

// Marks the file of a number for delete.
fn mark(cat: &mut Cat, n: u32)
    ensures { cat.new ≡ changed cat.old n marked }
{
    let Some(mut file) = take_file(cat, n) else {
        return;
    };
    file.marked = true;
    set_slot(cat, n, Slot::Used(file));
}

// What the file under a number comes to whose entry is gone.
fn lose(alloc: Global, mut cat: Cat, n: u32, loss: Loss) -> Result<Outcome, NoMemory>
    ensures { IfOk result (λ o. o ≡ lost cat n loss) }
{
    match loss {
        Loss::Nothing => Ok(told(cat, Reply::EntryRemoved)),
        Loss::Mark => {
            mark(&mut cat, n);
            Ok(told(cat, Reply::Marked))
        }
        Loss::Gone(goner) => {
            remove(alloc, &mut cat, n, goner)?;
            Ok(told(cat, Reply::Deleted))
        }
    }
}

// DELETE
pub(crate) fn delete(
    alloc: Global,
    mut cat: Cat,
    dir: Fid,
    name: &Name,
    ver: u16,
) -> Result<Outcome, NoMemory>
    requires { Accounted cat }
    ensures { IfOk result (λ o. o ≡ delete_outcome cat dir name.now ver) }
{
    let unnamed = unnamed(alloc, &cat, dir, name, ver)?;
    match unnamed {
        Err(refusal) => Ok(refused(cat, refusal)),
        Ok(unnamed) => {
            leave(&mut cat, dir.num, &unnamed.entry.name, unnamed.entry.ver);
            lose(alloc, cat, unnamed.entry.fid.num, unnamed.loss)
        }
    }
}

// An entry with this name and version.
fn entry_named(alloc: Global, name: &Name, ver: u16, fid: Fid) -> Result<DirEnt, NoMemory>
    ensures { IfOk result (λ e. e ≡ entry name.now ver fid) }
{
    Ok(DirEnt {
        name: name.copy(alloc)?,
        ver,
        fid,
    })
}

// What RENAME leaves, or why it renames nothing.
#[tactic(auto, using(plain_rules::proofs::Rooms::room_alike), unfolding(plain_rules::specs::Answers::rename_outcome, plain_rules::specs::Answers::rename_refusal))]
fn renamed(
    alloc: Global,
    cat: &Cat,
    dir: Fid,
    name: &Name,
    ver: u16,
    to: &Name,
    to_ver: u16,
) -> Result<Result<Renaming, Refusal>, NoMemory>
    ensures { IfOk result (λ m. renamed_in cat.now dir.num m ≡ rename_outcome cat.now dir name.now ver to.now to_ver) }
{
    let Some(d) = live_file(cat, dir) else {
        return Ok(Err(Refusal::NoSuchFile));
    };
    if !d.dir {
        return Ok(Err(Refusal::NotDir));
    }
    let Some(e) = entry_of(d.entries.items(), name, ver) else {
        return Ok(Err(Refusal::NoSuchFile));
    };
    if e.fid.num <= 11 {
        return Ok(Err(Refusal::NoPriv));
    }
    let highest = highest(d.entries.items(), to);
    if to_ver == 0 && highest >= 32767 {
        return Ok(Err(Refusal::BadVersion));
    }
    let to_ver = if to_ver == 0 { highest + 1 } else { to_ver };
    if with_version(d.entries.items(), to, to_ver).is_some() {
        return Ok(Err(Refusal::DupFile));
    }
    let new = entry_named(alloc, to, to_ver, e.fid)?;
    if !fits_with(d.entries.items(), &new, cat.factor) {
        return Ok(Err(Refusal::DirFull));
    }
    Ok(Ok(Renaming {
        from: e.copy(alloc)?,
        to: new,
    }))
}

// RENAME
pub(crate) fn rename(
    alloc: Global,
    mut cat: Cat,
    dir: Fid,
    name: &Name,
    ver: u16,
    to: &Name,
    to_ver: u16,
) -> Result<Outcome, NoMemory>
    ensures { IfOk result (λ o. o ≡ rename_outcome cat dir name.now ver to.now to_ver) }
{
    let renaming = renamed(alloc, &cat, dir, name, ver, to, to_ver)?;
    match renaming {
        Err(refusal) => Ok(refused(cat, refusal)),
        Ok(renaming) => {
            let name = renaming.to.name.copy(alloc)?;
            let ver = renaming.to.ver;
            let from = renaming.from;
            replace(&mut cat, dir.num, &from.name, from.ver, renaming.to)?;
            Ok(told(cat, Reply::Renamed { name, ver }))
        }
    }
}
