//! What a RENAME needs next.

ghost use Rattle.std.specs.Prelude.{◌≡◌, ◌≤◌, ◌<◌, ◌^◌, true, false, IfOk, OnOk};
ghost use Rattle.base_words.specs.Fields.{AreWholeBlocks};
ghost use Rattle.base_words.specs.Names.{is_name};
ghost use Rattle.plain_cat.specs.declared.reply.Reply.TheVariants as reply;
ghost use Rattle.plain_rules.specs.Lookups.{versions};
ghost use Rattle.plain_rules.specs.Directories.{entry, is_taken};
ghost use Rattle.plain_rules.specs.Answers.{first_refusal};
ghost use Rattle.vol_parts.specs.Parts.{IsGeometry};
ghost use Rattle.op_law.specs.declared.seeing.Rest.{Rest};
ghost use Rattle.op_law.specs.Events.{Space, next_of};
ghost use Rattle.op_law.specs.Writing.{plan_of};
ghost use Rattle.op_law.specs.Moving.{entries_of, rename_refusals, rename_writes, rename_events};
ghost use Rattle.op_law.specs.Behind.{goes_on_by, blocks_alone};
ghost use Rattle.op_law.specs.Rows.{entries_seen};
ghost use Rattle.op_law.specs.Readable.{HeadIsInside, HeadIsReadable, IsRead};
ghost use Rattle.op_steps.specs.Names.{dir_seen, IsReadable};
ghost use Rattle.op_rename.specs.Kinds.{rename_in};

use crate::moving::rename_writes;
use base_words::Block;
use op_law::{Need, NoMemory, Plan, Seen, blocks_of, entry_seen, refused};
use op_steps::{DirSeen, Names, highest_seen, is_full, is_taken, names_seen, new_version};
use plain_cat::{DirEnt, Fid, Name, Refusal, Reply};
use std::alloc::Global;
use vol_parts::{Geometry, blocks_are_whole};

// Why an entry of a directory whose blocks were seen does not get this name and version, if it does not.
fn rename_refusal(g: &Geometry, seen: &[(u32, Block)], to: &Name, to_ver: u16) -> Option<Refusal>
    requires { IsRead seen.now }
    ensures { result ≡ first_refusal (rename_refusals g.now (entries_seen (blocks_alone seen.now)) to.now to_ver) }
{
    if to_ver == 0 && 32767 <= highest_seen(seen, to) {
        return Some(Refusal::BadVersion);
    }
    let ver = new_version(seen, to, to_ver);
    if is_taken(seen, to, ver) {
        return Some(Refusal::DupFile);
    }
    if is_full(g, seen, to, ver) {
        return Some(Refusal::DirFull);
    }
    None
}

// The blocks of a directory are whole, by their type.
fn is_whole(alloc: Global, d: &DirSeen<'_>) -> Result<(), NoMemory>
    ensures { OnOk result (AreWholeBlocks (blocks_alone d.now.blocks.now)) }
{
    let blocks = blocks_of(alloc, d.blocks)?;
    blocks_are_whole(blocks.items());
    Ok(())
}

// The plan that gives an entry this name and version.
fn renamed(
    alloc: Global,
    d: &DirSeen<'_>,
    e: &DirEnt,
    to: &Name,
    ver: u16,
) -> Result<Plan, NoMemory>
    requires readable { IsReadable d.now }
    requires read { IsRead d.now.blocks.now }
    requires name { is_name to.now ≡ true }
    requires from { 1 ≤ ver }
    requires last { ver ≤ 32767 }
    requires number { e.now.fid.num ≤ 16777215 }
    requires new { is_taken ver (versions to.now (entries_of (dir_seen d.now))) ≡ false }
    requires there { is_taken e.now.ver (versions e.now.name (entries_of (dir_seen d.now))) ≡ true }
    ensures { IfOk result (λ p. p ≡ plan_of (rename_writes (dir_seen d.now) e.now (entry to.now ver e.now.fid)) (reply.Renamed to.now ver)) }
{
    let new = DirEnt {
        name: to.copy(alloc)?,
        ver,
        fid: e.fid,
    };
    let writes = rename_writes(alloc, d, e, &new)?;
    Ok(Plan {
        writes,
        ask: None,
        reply: Reply::Renamed {
            name: new.name,
            ver,
        },
    })
}

// RENAME, behind the directory.
fn rename_in(
    alloc: Global,
    g: &Geometry,
    d: &DirSeen<'_>,
    name: &Name,
    ver: u16,
    to: &Name,
    to_ver: u16,
) -> Result<Need, NoMemory>
    requires readable { IsReadable d.now }
    requires read { IsRead d.now.blocks.now }
    requires name { is_name to.now ≡ true }
    requires version { to_ver ≤ 32767 }
    ensures { IfOk result (λ need. (rest : Rest) (space : Space) → goes_on_by (rename_in g.now name.now ver to.now to_ver (dir_seen d.now)) rest space ≡ need) }
{
    is_whole(alloc, d)?;
    let Some(e) = entry_seen(alloc, d.blocks, name, ver)? else {
        return Ok(refused(alloc, Refusal::NoSuchFile));
    };
    if e.fid.num <= 11 {
        return Ok(refused(alloc, Refusal::NoPriv));
    }
    if let Some(why) = rename_refusal(g, d.blocks, to, to_ver) {
        return Ok(refused(alloc, why));
    }
    let plan = renamed(alloc, d, &e, to, new_version(d.blocks, to, to_ver))?;
    Ok(Need::Ready(plan))
}

/// What a RENAME needs next. An error says that memory ran out.
#[tactic(auto, unfolding(op_law::specs::Moving::rename_events))]
pub(crate) fn rename_next(
    alloc: Global,
    dir: Fid,
    name: &Name,
    ver: u16,
    to: &Name,
    to_ver: u16,
    seen: &Seen,
) -> Result<Need, NoMemory>
    requires geometry { IsGeometry seen.now.geometry }
    requires inside { HeadIsInside seen.now.blocks }
    requires readable { HeadIsReadable dir seen.now.blocks }
    requires name { is_name to.now ≡ true }
    requires version { to_ver ≤ 32767 }
    ensures { IfOk result (λ need. need ≡ next_of (rename_events seen.now.geometry dir name.now ver to.now to_ver) seen.now) }
{
    match names_seen(alloc, &seen.geometry, dir, seen.all()) {
        Names::Next(need) => Ok(need),
        Names::All(d, _) => rename_in(alloc, &seen.geometry, &d, name, ver, to, to_ver),
    }
}
