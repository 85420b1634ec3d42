//! CREATE and MKDIR.

ghost use Rattle.std.specs.Prelude.{◌≡◌, ◌≤◌, ◌<◌, ◌^◌, ◌+◌, ℕ, Some, IfOk, OnOk};
ghost use Rattle.plain_rules.specs.Accounts.{Accounted};
ghost use Rattle.plain_rules.specs.Changes.{cost, new_fid, new_file, new_dir};
ghost use Rattle.plain_rules.specs.Answers.{first_refusal, create_outcome, mkdir_outcome};
ghost use Rattle.plain_rules.specs.Lookups.{versions, header_most, file_at};
ghost use Rattle.plain_vol.specs.Makings.{room_checks, version_for, placed, made_in};

use crate::changes::{charge, cost, in_clusters, set_slot, take_file};
use crate::entries::enter_in;
use crate::headers::HEADER_MOST;
use crate::lookups::{last_seq, live_file};
use crate::outcomes::{refused, told};
use plain_cat::{
    Blocks, Cat, DirEnt, DirEnts, Fid, File, Name, NoMemory, Refusal, Reply, Slot, Uic,
};
use plain_rules::{
    Outcome, dir_name, fits_with, free_clusters, has_name, highest, over_quota, row_of,
    with_version,
};
use std::alloc::Global;

/// A new file and its entry.
#[derive(Drop)]
pub struct Made {
    entry: DirEnt,
    file: File,
}

// Why a new file has no room, if it has none, where its directory has room for its entry.
fn room_refusal(cat: &Cat, owner: Uic, clusters: u32, new: Option<u32>) -> Option<Refusal>
    requires { cost cat.now clusters < 2 ^ 32 }
    ensures { result ≡ first_refusal (room_checks cat.now owner clusters new) }
{
    let row = row_of(cat.quota.items(), owner);
    if row.is_none() {
        return Some(Refusal::NoQuota);
    }
    if over_quota(row, cost(cat, clusters)) {
        return Some(Refusal::ExQuota);
    }
    if new.is_none() {
        return Some(Refusal::IndexFull);
    }
    if free_clusters(cat) < clusters {
        return Some(Refusal::DeviceFull);
    }
    None
}

// The identifier of a new file under a number.
fn new_fid(cat: &Cat, n: u32) -> Fid
    ensures { result ≡ new_fid cat.now n }
{
    let seq = last_seq(cat, n);
    Fid {
        num: n,
        seq: if seq == 65535 { 1 } else { seq + 1 },
    }
}

// The same where there is a number, else one of no file.
fn fid_of(cat: &Cat, new: Option<u32>) -> Fid
    ensures { (n : ℕ) → new ≡ Some n → result ≡ new_fid cat.now n }
{
    match new {
        Some(n) => new_fid(cat, n),
        None => Fid { num: 0, seq: 0 },
    }
}

fn new_file(alloc: Global, seq: u16, owner: Uic, clusters: u32) -> File
    ensures { result ≡ new_file seq owner clusters }
{
    File {
        seq,
        owner,
        dir: false,
        clusters,
        mark: 1,
        end: 1,
        byte: 0,
        marked: false,
        written: Blocks::new(alloc),
        entries: DirEnts::new(alloc),
    }
}

fn new_dir(alloc: Global, seq: u16, owner: Uic, factor: u32) -> File
    requires { factor + 1 < 2 ^ 32 }
    ensures { result ≡ new_dir seq owner factor }
{
    File {
        seq,
        owner,
        dir: true,
        clusters: 1,
        mark: 0,
        end: factor + 1,
        byte: 0,
        marked: false,
        written: Blocks::new(alloc),
        entries: DirEnts::new(alloc),
    }
}

// The version of a new entry of a name, or why it can have none.
fn version_for(entries: &[DirEnt], name: &Name, ver: u16) -> Result<u16, Refusal>
    ensures { result ≡ version_for ver (versions name.now entries.now) }
{
    let highest = highest(entries, name);
    if ver == 0 && highest >= 32767 {
        return Err(Refusal::BadVersion);
    }
    let ver = if ver == 0 { highest + 1 } else { ver };
    if with_version(entries, name, ver).is_some() {
        return Err(Refusal::DupFile);
    }
    Ok(ver)
}

// The new file of CREATE, or why there is none.
#[tactic(auto, unfolding(plain_rules::specs::Answers::create_outcome, plain_rules::specs::Answers::create_refusal))]
fn created(
    alloc: Global,
    cat: &Cat,
    dir: Fid,
    name: &Name,
    ver: u16,
    blocks: u32,
    owner: Uic,
    new: Option<u32>,
) -> Result<Result<Made, Refusal>, NoMemory>
    requires cat { Accounted cat.now }
    requires blocks { blocks ≤ 65536 }
    ensures made { IfOk result (λ m. made_in cat.now dir.num m ≡ create_outcome cat.now dir name.now ver blocks owner new) }
    ensures small { IfOk result (λ m. IfOk m (λ m. m.file.clusters ≤ header_most)) }
{
    let Some(d) = live_file(cat, dir) else {
        return Ok(Err(Refusal::NoSuchFile));
    };
    if !d.dir {
        return Ok(Err(Refusal::NotDir));
    }
    let ver = match version_for(d.entries.items(), name, ver) {
        Ok(ver) => ver,
        Err(refusal) => return Ok(Err(refusal)),
    };
    let clusters = in_clusters(cat, blocks);
    if HEADER_MOST < clusters {
        return Ok(Err(Refusal::FileLimit));
    }
    let fid = fid_of(cat, new);
    let e = DirEnt {
        name: name.copy(alloc)?,
        ver,
        fid,
    };
    if !fits_with(d.entries.items(), &e, cat.factor) {
        return Ok(Err(Refusal::DirFull));
    }
    if let Some(refusal) = room_refusal(cat, owner, clusters, new) {
        return Ok(Err(refusal));
    }
    Ok(Ok(Made {
        entry: e,
        file: new_file(alloc, fid.seq, owner, clusters),
    }))
}

// The new file of MKDIR, or why there is none.
#[tactic(auto, using(plain_rules::proofs::Rooms::room_alike), unfolding(plain_rules::specs::Answers::mkdir_outcome, plain_rules::specs::Answers::mkdir_refusal))]
fn made_dir(
    alloc: Global,
    cat: &Cat,
    dir: Fid,
    name: &Name,
    owner: Uic,
    new: Option<u32>,
) -> Result<Result<Made, Refusal>, NoMemory>
    requires { Accounted cat.now }
    ensures made { IfOk result (λ m. made_in cat.now dir.num m ≡ mkdir_outcome cat.now dir name.now owner new) }
    ensures small { IfOk result (λ m. IfOk m (λ m. m.file.clusters ≤ header_most)) }
{
    let Some(d) = live_file(cat, dir) else {
        return Ok(Err(Refusal::NoSuchFile));
    };
    if !d.dir {
        return Ok(Err(Refusal::NotDir));
    }
    let name = dir_name(alloc, name)?;
    if has_name(d.entries.items(), &name) {
        return Ok(Err(Refusal::DupFile));
    }
    let fid = fid_of(cat, new);
    let e = DirEnt { name, ver: 1, fid };
    if !fits_with(d.entries.items(), &e, cat.factor) {
        return Ok(Err(Refusal::DirFull));
    }
    if let Some(refusal) = room_refusal(cat, owner, 1, new) {
        return Ok(Err(refusal));
    }
    Ok(Ok(Made {
        entry: e,
        file: new_dir(alloc, fid.seq, owner, cat.factor),
    }))
}

// Puts a new file under its number, and its entry into the directory of a number. After want of memory the directory is gone.
fn place(cat: &mut Cat, dir: u32, e: DirEnt, file: File) -> Result<(), NoMemory>
    ensures { OnOk result (cat.new ≡ placed cat.old dir e file (file_at cat.old dir)) }
{
    let Some(mut directory) = take_file(cat, dir) else {
        return Ok(());
    };
    let n = e.fid.num;
    enter_in(&mut directory, e)?;
    set_slot(cat, n, Slot::Used(file));
    set_slot(cat, dir, Slot::Used(directory));
    Ok(())
}

// Puts a new file and its entry into a catalogue, and charges its owner.
fn enter(
    alloc: Global,
    mut cat: Cat,
    dir: u32,
    making: Result<Made, Refusal>,
) -> Result<Outcome, NoMemory>
    requires cat { Accounted cat }
    requires small { IfOk making (λ m. m.file.clusters ≤ header_most) }
    ensures { IfOk result (λ o. o ≡ made_in cat dir making) }
{
    let made = match making {
        Ok(made) => made,
        Err(refusal) => return Ok(refused(cat, refusal)),
    };
    let reply = Reply::Found {
        fid: made.entry.fid,
        name: made.entry.name.copy(alloc)?,
        ver: made.entry.ver,
    };
    let all = cost(&cat, made.file.clusters);
    charge(alloc, &mut cat, made.file.owner, all)?;
    place(&mut cat, dir, made.entry, made.file)?;
    Ok(told(cat, reply))
}

// CREATE
pub(crate) fn create(
    alloc: Global,
    cat: Cat,
    dir: Fid,
    name: &Name,
    ver: u16,
    blocks: u32,
    owner: Uic,
    new: Option<u32>,
) -> Result<Outcome, NoMemory>
    requires cat { Accounted cat }
    requires blocks { blocks ≤ 65536 }
    ensures { IfOk result (λ o. o ≡ create_outcome cat dir name.now ver blocks owner new) }
{
    let making = created(alloc, &cat, dir, name, ver, blocks, owner, new)?;
    enter(alloc, cat, dir.num, making)
}

// MKDIR
pub(crate) fn make_dir(
    alloc: Global,
    cat: Cat,
    dir: Fid,
    name: &Name,
    owner: Uic,
    new: Option<u32>,
) -> Result<Outcome, NoMemory>
    requires { Accounted cat }
    ensures { IfOk result (λ o. o ≡ mkdir_outcome cat dir name.now owner new) }
{
    let making = made_dir(alloc, &cat, dir, name, owner, new)?;
    enter(alloc, cat, dir.num, making)
}
