//! What a DELETE needs next.

ghost use Rattle.std.specs.Prelude.{◌≡◌, ◌≤◌, Some, length, IfOk};
ghost use Rattle.plain_cat.specs.declared.command.Cmd.TheVariants as cmd;
ghost use Rattle.op_law.specs.declared.need.Need.TheVariants as need;
ghost use Rattle.plain_cat.specs.declared.history.Stage.TheVariants as stage;
ghost use Rattle.plain_cat.specs.declared.reply.Reply.TheVariants as reply;
ghost use Rattle.plain_rules.specs.Lookups.{versions, entry_of};
ghost use Rattle.vol_parts.specs.Parts.{IsGeometry};
ghost use Rattle.op_law.specs.Events.{Make, Space as Given, next_of};
ghost use Rattle.op_law.specs.Fits.{FitsSeen};
ghost use Rattle.op_law.specs.Refusing.{if_entry};
ghost use Rattle.op_law.specs.Writing.{plan_of};
ghost use Rattle.op_law.specs.Moving.{entries_of, removal_writes};
ghost use Rattle.op_law.specs.Behind.{goes_on_by, FollowsBy};
ghost use Rattle.op_law.specs.Readable.{HeadIsInside, IsRead};
ghost use Rattle.op_law.specs.Freeing.{all_clusters, through_space};
ghost use Rattle.op_law.specs.Removing.{delete_plan, delete_in, delete_events};
ghost use Rattle.op_steps.specs.Names.{dir_seen, IsReadable as IsDirReadable};
ghost use Rattle.op_steps.specs.Seeing.{file_seen, IsReadable};
ghost use Rattle.op_steps.specs.Looking.{space_seen, IsWhole};
ghost use Rattle.op_steps.specs.FreeingSeeing.{HasNumbers};
ghost use Rattle.op_delete.specs.Deleting.{plan_by, whole_goes, file_goes, CanGo};
ghost use Rattle.op_delete.specs.Looking.{IsWholeDir};
ghost use Rattle.op_delete.specs.Naming.{LockIsOf, IsLone};
ghost use Rattle.op_delete.specs.Seeing.{IsBegun, HeadIsFollowed};

use crate::looking::{Empty, empty_seen};
use crate::naming::{Told, file_told};
use crate::seeing::{Named, named_seen};
use crate::writing::push_unnaming;
use op_law::{Ask, Need, NoMemory, Plan, Rest, Seen, Writes, entry_seen, refused};
use op_steps::{
    Chained, DirSeen, FileSeen, Names, Space, SpaceSeen, all_clusters, chain_seen, names_seen,
    push_gone, push_removal, space_seen,
};
use plain_cat::{Clusters, DirEnt, Fid, Mode, Name, Refusal, Reply, Stage};
use std::alloc::Global;
use vol_parts::Geometry;

// The plan that removes an entry alone.
fn entry_removed(alloc: Global, d: &DirSeen<'_>, e: &DirEnt) -> Result<Plan, NoMemory>
    requires { CanGo d.now e.now }
    ensures { IfOk result (λ p. p ≡ plan_of (removal_writes (dir_seen d.now) e.now stage.Nothing stage.Done) reply.EntryRemoved) }
{
    let mut writes = Writes::new(alloc);
    push_removal(alloc, &mut writes, d, e, Stage::Nothing, Stage::Done)?;
    Ok(Plan {
        writes,
        ask: None,
        reply: Reply::EntryRemoved,
    })
}

// The plan that removes an entry and its file, with the ask between them.
fn deleted(
    alloc: Global,
    g: &Geometry,
    d: &DirSeen<'_>,
    e: &DirEnt,
    f: &FileSeen<'_>,
    clusters: &Clusters,
    space: &SpaceSeen<'_>,
) -> Result<Plan, NoMemory>
    requires geometry { IsGeometry g.now }
    requires entry { CanGo d.now e.now }
    requires numbers { HasNumbers g.now f.now }
    requires readable { IsReadable f.now }
    requires clusters { clusters.now ≡ all_clusters g.now (file_seen g.now f.now) }
    requires whole { IsWhole g.now clusters.now space.now }
    ensures { IfOk result (λ p. p ≡ delete_plan g.now (dir_seen d.now) e.now (file_seen g.now f.now) (space_seen space.now)) }
{
    let mut writes = Writes::new(alloc);
    push_unnaming(alloc, &mut writes, g, d, e, f)?;
    let at = writes.items().len() as u32;
    push_gone(alloc, &mut writes, g, f, clusters, space)?;
    Ok(Plan {
        writes,
        ask: Some(Ask {
            at,
            file: f.num,
            chan: 0,
            mode: Mode::EX,
            refused: Reply::Marked,
        }),
        reply: Reply::Deleted,
    })
}

// The same, by the entry of this name and version, where it is there.
fn deleted_by(
    alloc: Global,
    g: &Geometry,
    d: &DirSeen<'_>,
    name: &Name,
    ver: u16,
    f: &FileSeen<'_>,
    clusters: &Clusters,
    space: &SpaceSeen<'_>,
) -> Result<Need, NoMemory>
    requires geometry { IsGeometry g.now }
    requires dir { IsDirReadable d.now }
    requires read { IsRead d.now.blocks.now }
    requires few { length d.now.blocks.now ≤ 16 }
    requires numbers { HasNumbers g.now f.now }
    requires readable { IsReadable f.now }
    requires clusters { clusters.now ≡ all_clusters g.now (file_seen g.now f.now) }
    requires whole { IsWhole g.now clusters.now space.now }
    ensures { IfOk result (λ n. n ≡ need.Ready (plan_by (λ e. delete_plan g.now (dir_seen d.now) e (file_seen g.now f.now) (space_seen space.now)) (entry_of (versions name.now (entries_of (dir_seen d.now))) ver))) }
{
    let Some(e) = entry_seen(alloc, d.blocks, name, ver)? else {
        return Ok(refused(alloc, Refusal::NoSuchFile));
    };
    let plan = deleted(alloc, g, d, &e, f, clusters, space)?;
    Ok(Need::Ready(plan))
}

// Behind a file that is no directory with entries.
fn space_looked(
    alloc: Global,
    g: &Geometry,
    d: &DirSeen<'_>,
    name: &Name,
    ver: u16,
    f: &FileSeen<'_>,
    rest: Rest<'_>,
) -> Result<Need, NoMemory>
    requires geometry { IsGeometry g.now }
    requires dir { IsDirReadable d.now }
    requires read { IsRead d.now.blocks.now }
    requires few { length d.now.blocks.now ≤ 16 }
    requires numbers { HasNumbers g.now f.now }
    requires readable { IsReadable f.now }
    ensures { IfOk result (λ need. (given : Given) → goes_on_by (through_space g.now (file_seen g.now f.now)
        (λ s. Make (plan_by (λ e. delete_plan g.now (dir_seen d.now) e (file_seen g.now f.now) s) (entry_of (versions name.now (entries_of (dir_seen d.now))) ver)))) rest.entry given ≡ need) }
{
    let clusters = all_clusters(alloc, g, f)?;
    match space_seen(alloc, g, &clusters, rest)? {
        Space::Next(need) => Ok(need),
        Space::All(space) => deleted_by(alloc, g, d, name, ver, f, &clusters, &space),
    }
}

// Behind all headers of the file.
fn whole_looked(
    alloc: Global,
    g: &Geometry,
    d: &DirSeen<'_>,
    name: &Name,
    ver: u16,
    f: &FileSeen<'_>,
    rest: Rest<'_>,
) -> Result<Need, NoMemory>
    requires geometry { IsGeometry g.now }
    requires dir { IsDirReadable d.now }
    requires read { IsRead d.now.blocks.now }
    requires few { length d.now.blocks.now ≤ 16 }
    requires numbers { HasNumbers g.now f.now }
    requires readable { IsReadable f.now }
    requires whole { IsWholeDir f.now }
    ensures { IfOk result (λ need. (given : Given) → FollowsBy (whole_goes g.now (dir_seen d.now) (entry_of (versions name.now (entries_of (dir_seen d.now))) ver) (file_seen g.now f.now)) rest.entry given
        → goes_on_by (whole_goes g.now (dir_seen d.now) (entry_of (versions name.now (entries_of (dir_seen d.now))) ver) (file_seen g.now f.now)) rest.entry given ≡ need) }
{
    match empty_seen(alloc, g, f, rest)? {
        Empty::Next(need) => Ok(need),
        Empty::Shown(behind) => space_looked(alloc, g, d, name, ver, f, behind),
    }
}

// Behind the first header of the file.
fn file_looked(
    alloc: Global,
    g: &Geometry,
    d: &DirSeen<'_>,
    name: &Name,
    ver: u16,
    f: &FileSeen<'_>,
    rest: Rest<'_>,
) -> Result<Need, NoMemory>
    requires geometry { IsGeometry g.now }
    requires dir { IsDirReadable d.now }
    requires read { IsRead d.now.blocks.now }
    requires few { length d.now.blocks.now ≤ 16 }
    requires begun { IsBegun g.now f.now rest.blocks.now }
    ensures { IfOk result (λ need. (given : Given) → FollowsBy (file_goes g.now (dir_seen d.now) (entry_of (versions name.now (entries_of (dir_seen d.now))) ver) (file_seen g.now f.now)) rest.entry given
        → goes_on_by (file_goes g.now (dir_seen d.now) (entry_of (versions name.now (entries_of (dir_seen d.now))) ver) (file_seen g.now f.now)) rest.entry given ≡ need) }
{
    match chain_seen(g, Mode::PW, f, rest) {
        Chained::Next(need) => Ok(need),
        Chained::File(whole, behind) => whole_looked(alloc, g, d, name, ver, &whole, behind),
    }
}

// Behind the entry, which the directory has under this name and version.
fn delete_in(
    alloc: Global,
    g: &Geometry,
    d: &DirSeen<'_>,
    name: &Name,
    ver: u16,
    e: &DirEnt,
    rest: Rest<'_>,
) -> Result<Need, NoMemory>
    requires geometry { IsGeometry g.now }
    requires entry { CanGo d.now e.now }
    requires read { IsRead d.now.blocks.now }
    requires found { entry_of (versions name.now (entries_of (dir_seen d.now))) ver ≡ Some e.now }
    requires inside { HeadIsInside rest.blocks.now }
    requires followed { HeadIsFollowed g.now rest.blocks.now }
    ensures { IfOk result (λ need. (given : Given) → FollowsBy (delete_in g.now (dir_seen d.now) e.now) rest.entry given → goes_on_by (delete_in g.now (dir_seen d.now) e.now) rest.entry given ≡ need) }
{
    match named_seen(g, d.fid.num, e.fid, rest) {
        Named::Next(need) => Ok(need),
        Named::Nothing => {
            let plan = entry_removed(alloc, d, e)?;
            Ok(Need::Ready(plan))
        }
        Named::File(f, behind) => file_looked(alloc, g, d, name, ver, &f, behind),
    }
}

// Behind the directory, by its entries.
fn entry_looked(
    alloc: Global,
    g: &Geometry,
    d: &DirSeen<'_>,
    name: &Name,
    ver: u16,
    rest: Rest<'_>,
) -> Result<Need, NoMemory>
    requires geometry { IsGeometry g.now }
    requires readable { IsDirReadable d.now }
    requires read { IsRead d.now.blocks.now }
    requires few { length d.now.blocks.now ≤ 16 }
    requires inside { HeadIsInside rest.blocks.now }
    requires followed { HeadIsFollowed g.now rest.blocks.now }
    ensures { IfOk result (λ need. (given : Given) → FollowsBy (if_entry (entry_of (versions name.now (entries_of (dir_seen d.now))) ver) (delete_in g.now (dir_seen d.now))) rest.entry given
        → goes_on_by (if_entry (entry_of (versions name.now (entries_of (dir_seen d.now))) ver) (delete_in g.now (dir_seen d.now))) rest.entry given ≡ need) }
{
    let Some(e) = entry_seen(alloc, d.blocks, name, ver)? else {
        return Ok(refused(alloc, Refusal::NoSuchFile));
    };
    if e.fid.num <= 11 {
        return Ok(refused(alloc, Refusal::NoPriv));
    }
    delete_in(alloc, g, d, name, ver, &e, rest)
}

// Behind the directory. Its entries are read where no more than the header of the file was seen behind it, and for the plan.
fn dir_looked(
    alloc: Global,
    g: &Geometry,
    d: &DirSeen<'_>,
    name: &Name,
    ver: u16,
    rest: Rest<'_>,
) -> Result<Need, NoMemory>
    requires geometry { IsGeometry g.now }
    requires readable { IsDirReadable d.now }
    requires read { IsRead d.now.blocks.now }
    requires few { length d.now.blocks.now ≤ 16 }
    requires number { d.now.fid.num ≤ g.now.files }
    requires locked { LockIsOf g.now rest.locks.now }
    requires inside { HeadIsInside rest.blocks.now }
    requires followed { HeadIsFollowed g.now rest.blocks.now }
    requires lone { IsLone g.now d.now.fid.num rest.blocks.now }
    ensures { IfOk result (λ need. (given : Given) → FollowsBy (if_entry (entry_of (versions name.now (entries_of (dir_seen d.now))) ver) (delete_in g.now (dir_seen d.now))) rest.entry given
        → goes_on_by (if_entry (entry_of (versions name.now (entries_of (dir_seen d.now))) ver) (delete_in g.now (dir_seen d.now))) rest.entry given ≡ need) }
{
    match file_told(g, d, rest) {
        Told::Next(need) => Ok(need),
        Told::File(f, behind) => file_looked(alloc, g, d, name, ver, &f, behind),
        Told::Nothing => entry_looked(alloc, g, d, name, ver, rest),
    }
}

/// What a DELETE needs next. An error says that memory ran out.
#[tactic(auto, unfolding(op_law::specs::Removing::delete_events))]
pub(crate) fn delete_next(
    alloc: Global,
    dir: Fid,
    name: &Name,
    ver: u16,
    seen: &Seen,
) -> Result<Need, NoMemory>
    requires geometry { IsGeometry seen.now.geometry }
    requires fits { FitsSeen (cmd.Delete dir name.now ver) seen.now }
    ensures { IfOk result (λ need. need ≡ next_of (delete_events seen.now.geometry dir name.now ver) seen.now) }
{
    match names_seen(alloc, &seen.geometry, dir, seen.all()) {
        Names::Next(need) => Ok(need),
        Names::All(d, rest) => dir_looked(alloc, &seen.geometry, &d, name, ver, rest),
    }
}
