//! What CREATE and MKDIR need next.

ghost use Rattle.std.specs.Prelude.{◌≡◌, ◌≤◌, true, None, length, IfOk, IsTrue};
ghost use Rattle.plain_cat.specs.InForm.{is_dir_name};
ghost use Rattle.plain_rules.specs.Answers.{first_refusal};
ghost use Rattle.base_words.specs.Names.{is_name};
ghost use Rattle.vol_parts.specs.Parts.{IsGeometry};
ghost use Rattle.vol_spell.specs.Reading.{IsFileNumber};
ghost use Rattle.op_law.specs.Events.{next_of, space_of};
ghost use Rattle.op_law.specs.Moving.{entries_of};
ghost use Rattle.op_law.specs.Entering.{made_of, create_refusals, create_in, create_events, mkdir_refusals, mkdir_in, mkdir_events};
ghost use Rattle.op_law.specs.Behind.{goes_on_by, blocks_alone, FollowsBy, HasFirst};
ghost use Rattle.op_law.specs.Readable.{HeadIsInside, HeadIsReadable, IsRead};
ghost use Rattle.op_steps.specs.Names.{dir_seen, IsReadable};
ghost use Rattle.op_steps.specs.Given.{IsOfVolume};
ghost use Rattle.op_create.specs.Files.{entry_made, IsSound, IsNewIn};

use crate::files::{NewFile, new_dir, new_file, numbered};
use crate::judging::{create_refusal, mkdir_refusal};
use crate::places::{Place, place_seen};
use crate::writing::{entry_for, making_writes};
use base_words::Block;
use lock_db::LockName;
use op_law::{Need, NoMemory, Plan, Rest, Seen, refused};
use op_steps::{DirSeen, Names, clusters_for, names_seen, new_version};
use plain_cat::{Fid, Mode, Name, Reply, Uic};
use plain_rules::dir_name;
use std::alloc::Global;

// The plan, with the sequence that the slot gives.
fn made(
    alloc: Global,
    seen: &Seen,
    d: &DirSeen<'_>,
    quota: &[(u32, Block)],
    f: &NewFile<'_>,
    n: u32,
    rest: Rest<'_>,
) -> Result<Need, NoMemory>
    requires geometry { IsGeometry seen.now.geometry }
    requires readable { IsReadable d.now }
    requires read { IsRead d.now.blocks.now }
    requires few { length quota.now ≤ 16 }
    requires sound { IsSound seen.now.geometry f.now }
    requires new { IsNewIn (dir_seen d.now) f.now }
    requires number { IsFileNumber seen.now.geometry n }
    requires count { length seen.now.clusters ≡ f.now.clusters }
    requires within { IsOfVolume seen.now.geometry seen.now.clusters seen.now.number }
    ensures { IfOk result (λ need. need ≡ goes_on_by (made_of seen.now.geometry (dir_seen d.now) (blocks_alone quota.now) (entry_made f.now) n seen.now.clusters) rest.entry (space_of seen.now)) }
{
    let e = entry_for(alloc, n, f)?;
    Ok(Need::Ready(Plan {
        writes: making_writes(alloc, &seen.geometry, d, quota, f, n, &seen.clusters)?,
        ask: None,
        reply: Reply::Found {
            fid: e.fid,
            name: e.name,
            ver: e.ver,
        },
    }))
}

// CREATE, behind a directory that refuses nothing.
fn create_judged(
    alloc: Global,
    seen: &Seen,
    d: &DirSeen<'_>,
    name: &Name,
    ver: u16,
    clusters: u32,
    owner: Uic,
    rest: Rest<'_>,
) -> Result<Need, NoMemory>
    requires geometry { IsGeometry seen.now.geometry }
    requires readable { IsReadable d.now }
    requires read { IsRead d.now.blocks.now }
    requires parent { d.now.fid.num ≤ 16777215 }
    requires name { is_name name.now ≡ true }
    requires version { ver ≤ 32767 }
    requires within { IsOfVolume seen.now.geometry seen.now.clusters seen.now.number }
    requires judged { first_refusal (create_refusals seen.now.geometry (entries_of (dir_seen d.now)) name.now ver clusters) ≡ None }
    ensures { IfOk result (λ need. need ≡ goes_on_by (create_in seen.now.geometry (dir_seen d.now) name.now ver clusters owner) rest.entry (space_of seen.now)) }
{
    match place_seen(alloc, seen, owner, clusters, rest)? {
        Place::Next(need) => Ok(need),
        Place::Slot(quota, n, slot, last) => {
            let ver = new_version(d.blocks, name, ver);
            let f = new_file(name, ver, owner, clusters);
            made(alloc, seen, d, quota, &numbered(slot, &f), n, last)
        }
    }
}

// CREATE, behind the directory. It asks for Q once the directory refuses nothing, so behind Q that is known.
fn create_in(
    alloc: Global,
    seen: &Seen,
    d: &DirSeen<'_>,
    name: &Name,
    ver: u16,
    clusters: u32,
    owner: Uic,
    rest: Rest<'_>,
) -> Result<Need, NoMemory>
    requires geometry { IsGeometry seen.now.geometry }
    requires readable { IsReadable d.now }
    requires read { IsRead d.now.blocks.now }
    requires parent { d.now.fid.num ≤ 16777215 }
    requires name { is_name name.now ≡ true }
    requires version { ver ≤ 32767 }
    requires within { IsOfVolume seen.now.geometry seen.now.clusters seen.now.number }
    requires follows { FollowsBy (create_in seen.now.geometry (dir_seen d.now) name.now ver clusters owner) rest (space_of seen.now) }
    ensures { IfOk result (λ need. need ≡ goes_on_by (create_in seen.now.geometry (dir_seen d.now) name.now ver clusters owner) rest.entry (space_of seen.now)) }
{
    match rest.locks {
        [_, ..] => create_judged(alloc, seen, d, name, ver, clusters, owner, rest),
        [] => {
            match create_refusal(&seen.geometry, d.blocks, name, ver, clusters) {
                Some(why) => Ok(refused(alloc, why)),
                None => Ok(Need::Lock(LockName::Q, Mode::PW)),
            }
        }
    }
}

/// What a CREATE needs next. An error says that memory ran out.
#[tactic(auto, unfolding(op_law::specs::Entering::create_events))]
pub(crate) fn create_next(
    alloc: Global,
    dir: Fid,
    name: &Name,
    ver: u16,
    blocks: u32,
    owner: Uic,
    seen: &Seen,
) -> Result<Need, NoMemory>
    requires geometry { IsGeometry seen.now.geometry }
    requires inside { HeadIsInside seen.now.blocks }
    requires readable { HeadIsReadable dir seen.now.blocks }
    requires within { IsOfVolume seen.now.geometry seen.now.clusters seen.now.number }
    requires name { is_name name.now ≡ true }
    requires version { ver ≤ 32767 }
    requires blocks { blocks ≤ 65536 }
    requires follows { HasFirst (create_events seen.now.geometry dir name.now ver blocks owner) seen.now }
    ensures { IfOk result (λ need. need ≡ next_of (create_events seen.now.geometry dir name.now ver blocks owner) seen.now) }
{
    match names_seen(alloc, &seen.geometry, dir, seen.all()) {
        Names::Next(need) => Ok(need),
        Names::All(d, rest) => {
            let clusters = clusters_for(&seen.geometry, blocks);
            create_in(alloc, seen, &d, name, ver, clusters, owner, rest)
        }
    }
}

// MKDIR, behind a directory that refuses nothing.
fn mkdir_judged(
    alloc: Global,
    seen: &Seen,
    d: &DirSeen<'_>,
    name: &Name,
    owner: Uic,
    rest: Rest<'_>,
) -> Result<Need, NoMemory>
    requires geometry { IsGeometry seen.now.geometry }
    requires readable { IsReadable d.now }
    requires read { IsRead d.now.blocks.now }
    requires parent { d.now.fid.num ≤ 16777215 }
    requires name { is_name name.now ≡ true }
    requires within { IsOfVolume seen.now.geometry seen.now.clusters seen.now.number }
    requires judged { first_refusal (mkdir_refusals seen.now.geometry (entries_of (dir_seen d.now)) name.now) ≡ None }
    ensures { IfOk result (λ need. need ≡ goes_on_by (mkdir_in seen.now.geometry (dir_seen d.now) name.now owner) rest.entry (space_of seen.now)) }
{
    match place_seen(alloc, seen, owner, 1, rest)? {
        Place::Next(need) => Ok(need),
        Place::Slot(quota, n, slot, last) => {
            let f = new_dir(&seen.geometry, name, owner);
            made(alloc, seen, d, quota, &numbered(slot, &f), n, last)
        }
    }
}

// MKDIR, behind the directory. It asks for Q once the directory refuses nothing, so behind Q that is known.
fn mkdir_in(
    alloc: Global,
    seen: &Seen,
    d: &DirSeen<'_>,
    name: &Name,
    owner: Uic,
    rest: Rest<'_>,
) -> Result<Need, NoMemory>
    requires geometry { IsGeometry seen.now.geometry }
    requires readable { IsReadable d.now }
    requires read { IsRead d.now.blocks.now }
    requires parent { d.now.fid.num ≤ 16777215 }
    requires name { is_name name.now ≡ true }
    requires within { IsOfVolume seen.now.geometry seen.now.clusters seen.now.number }
    requires follows { FollowsBy (mkdir_in seen.now.geometry (dir_seen d.now) name.now owner) rest (space_of seen.now) }
    ensures { IfOk result (λ need. need ≡ goes_on_by (mkdir_in seen.now.geometry (dir_seen d.now) name.now owner) rest.entry (space_of seen.now)) }
{
    match rest.locks {
        [_, ..] => mkdir_judged(alloc, seen, d, name, owner, rest),
        [] => {
            match mkdir_refusal(&seen.geometry, d.blocks, name) {
                Some(why) => Ok(refused(alloc, why)),
                None => Ok(Need::Lock(LockName::Q, Mode::PW)),
            }
        }
    }
}

/// What a MKDIR needs next. An error says that memory ran out.
#[tactic(auto, unfolding(op_law::specs::Entering::mkdir_events))]
pub(crate) fn mkdir_next(
    alloc: Global,
    dir: Fid,
    name: &Name,
    owner: Uic,
    seen: &Seen,
) -> Result<Need, NoMemory>
    requires geometry { IsGeometry seen.now.geometry }
    requires inside { HeadIsInside seen.now.blocks }
    requires readable { HeadIsReadable dir seen.now.blocks }
    requires within { IsOfVolume seen.now.geometry seen.now.clusters seen.now.number }
    requires name { IsTrue (is_dir_name name.now) }
    requires follows { HasFirst (mkdir_events seen.now.geometry dir name.now owner) seen.now }
    ensures { IfOk result (λ need. need ≡ next_of (mkdir_events seen.now.geometry dir name.now owner) seen.now) }
{
    match names_seen(alloc, &seen.geometry, dir, seen.all()) {
        Names::Next(need) => Ok(need),
        Names::All(d, rest) => {
            let name = dir_name(alloc, name)?;
            mkdir_in(alloc, seen, &d, &name, owner, rest)
        }
    }
}
