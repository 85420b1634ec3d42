//! What EXTEND needs next.

ghost use Rattle.std.specs.Prelude.{◌≡◌, ◌≤◌, ◌<◌, ◌+◌, ◌/◌, [], option_map, length, IfOk, IfSome};
ghost use Rattle.plain_rules.specs.Lookups.{header_most, file_most, needs_header};
ghost use Rattle.plain_rules.specs.Answers.{first_refusal, over_draft};
ghost use Rattle.vol_parts.specs.Parts.{IsGeometry};
ghost use Rattle.op_law.specs.Events.{next_of, space_of};
ghost use Rattle.op_law.specs.Rows.{live_in, refuses};
ghost use Rattle.op_law.specs.Refusing.{seen_file, if_file};
ghost use Rattle.op_law.specs.Sizes.{size_shown, growing_writes, growing_refusals, draft_refusals, into_headers, growing_events, extend_in, extend_events};
ghost use Rattle.op_law.specs.Writing.{plan_of};
ghost use Rattle.op_law.specs.Behind.{goes_on_by, blocks_alone};
ghost use Rattle.op_law.specs.Readable.{AreInside, HeadIsInside};
ghost use Rattle.op_law.specs.declared.need.Need.TheVariants as need;
ghost use Rattle.plain_cat.specs.declared.reply.Refusal.TheVariants as refusal;
ghost use Rattle.op_steps.specs.Given.{IsOfVolume};
ghost use Rattle.op_steps.specs.Seeing.{file_seen, IsReadable};
ghost use Rattle.op_extend.specs.Given.{AreGiven};
ghost use Rattle.op_extend.specs.Seeing.{IsBegun, FirstIsBegun, FileIsBegun, IsSeenWhole, IsGrowth, IsNewSlot};

use crate::given::{Given, space_given};
use crate::runs::extra;
use crate::writing::growing_writes;
use base_words::Block;
use op_law::{
    FILE_MOST, HEADER_MOST, Listed, Looked, Need, NoMemory, Plan, Rest, Seen, header_seen,
    is_number, live_in, refused,
};
use op_steps::{
    Chained, FileSeen, chain_seen, clusters_for, quota_seen, rows_seen, slot_seen, slot_seq,
};
use plain_cat::{Fid, Mode, QuotaRow, Refusal, Reply, Uic};
use plain_rules::row_of;
use std::alloc::Global;
use vol_parts::Geometry;

// Whether the usage of a row and these blocks exceed the quota and the overdraft.
fn over_draft(row: Option<QuotaRow>, k: u32) -> bool
    ensures { result ≡ over_draft row k }
{
    match row {
        Some(row) => row.quota as u64 + (row.over as u64) < row.usage as u64 + k as u64,
        None => false,
    }
}

// Why a file does not get so many clusters, by its header, if it does not.
fn growing_refusal(g: &Geometry, f: &FileSeen<'_>, k: u32) -> Option<Refusal>
    requires geometry { IsGeometry g.now }
    requires few { k ≤ 65536 }
    ensures { result ≡ first_refusal (growing_refusals (file_seen g.now f.now) k) }
{
    if f.num <= 11 || f.fields.dir {
        return Some(Refusal::NoPriv);
    }
    if HEADER_MOST < k || FILE_MOST < (f.fields.blocks / g.cluster) as u64 + k as u64 {
        return Some(Refusal::FileLimit);
    }
    None
}

// Why its owner does not get so many clusters, no more than one header has, by the quota blocks, if not.
fn draft_refusal(
    alloc: Global,
    g: &Geometry,
    f: &FileSeen<'_>,
    quota: &[(u32, Block)],
    k: u32,
) -> Result<Option<Refusal>, NoMemory>
    requires geometry { IsGeometry g.now }
    requires few { k ≤ header_most }
    ensures { IfOk result (λ r. r ≡ first_refusal (draft_refusals g.now (file_seen g.now f.now) (blocks_alone quota.now) k)) }
{
    let rows = rows_seen(alloc, quota)?;
    let row = row_of(rows.items(), Uic(f.fields.owner));
    if over_draft(row, g.cluster * k) {
        return Ok(Some(Refusal::ExQuota));
    }
    Ok(None)
}

// Whether a file of k clusters needs a new header for so many more.
fn needs_header(k: u32, more: u32) -> bool
    requires { k + more ≤ file_most }
    ensures { result ≡ needs_header k more }
{
    extra(k) < extra(k + more)
}

// The plan.
fn grown(
    alloc: Global,
    seen: &Seen,
    f: &FileSeen<'_>,
    quota: &[(u32, Block)],
    k: u32,
    new: Option<(u32, u16)>,
) -> Result<Need, NoMemory>
    requires geometry { IsGeometry seen.now.geometry }
    requires whole { IsSeenWhole seen.now.geometry f.now }
    requires quota { length quota.now ≤ 16 }
    requires growth { IsGrowth seen.now.geometry f.now seen.now.clusters }
    requires count { length seen.now.clusters ≡ k }
    requires slot { IfSome new (IsNewSlot seen.now.geometry f.now k) }
    ensures { IfOk result (λ r. r ≡ need.Ready (plan_of (growing_writes seen.now.geometry (file_seen seen.now.geometry f.now) (blocks_alone quota.now) seen.now.clusters k new) (size_shown seen.now.geometry (f.now.fields.blocks / seen.now.geometry.cluster + k)))) }
{
    let g = &seen.geometry;
    Ok(Need::Ready(Plan {
        writes: growing_writes(alloc, g, f, quota, &seen.clusters, k, new)?,
        ask: None,
        reply: Reply::Size(g.cluster * (f.fields.blocks / g.cluster + k)),
    }))
}

// Behind the search for space: the slot of the number, if one was given, and the plan.
fn into_headers(
    alloc: Global,
    seen: &Seen,
    f: &FileSeen<'_>,
    quota: &[(u32, Block)],
    k: u32,
    rest: Rest<'_>,
) -> Result<Need, NoMemory>
    requires geometry { IsGeometry seen.now.geometry }
    requires whole { IsSeenWhole seen.now.geometry f.now }
    requires quota { length quota.now ≤ 16 }
    requires growth { IsGrowth seen.now.geometry f.now seen.now.clusters }
    requires given { AreGiven k (needs_header (f.now.fields.blocks / seen.now.geometry.cluster) k) (space_of seen.now) }
    requires within { IsOfVolume seen.now.geometry seen.now.clusters seen.now.number }
    ensures { IfOk result (λ need. need ≡ goes_on_by (into_headers seen.now.geometry (file_seen seen.now.geometry f.now) (blocks_alone quota.now) k seen.now.clusters seen.now.number) rest.entry (space_of seen.now)) }
{
    let Some(n) = seen.number else {
        return grown(alloc, seen, f, quota, k, None);
    };
    match slot_seen(&seen.geometry, n, Mode::PW, rest) {
        Looked::Next(need) => Ok(need),
        Looked::Seen(slot, _) => grown(alloc, seen, f, quota, k, Some((n, slot_seq(slot)))),
    }
}

// Behind all headers of the file.
fn growing(
    alloc: Global,
    seen: &Seen,
    f: &FileSeen<'_>,
    k: u32,
    rest: Rest<'_>,
) -> Result<Need, NoMemory>
    requires geometry { IsGeometry seen.now.geometry }
    requires whole { IsSeenWhole seen.now.geometry f.now }
    requires few { k ≤ header_most }
    requires all { f.now.fields.blocks / seen.now.geometry.cluster + k ≤ file_most }
    requires within { IsOfVolume seen.now.geometry seen.now.clusters seen.now.number }
    ensures { IfOk result (λ need. need ≡ goes_on_by (growing_events seen.now.geometry k (file_seen seen.now.geometry f.now)) rest.entry (space_of seen.now)) }
{
    let g = &seen.geometry;
    match quota_seen(g, Mode::PW, rest) {
        Listed::Next(need) => Ok(need),
        Listed::All(quota, behind) => {
            if let Some(why) = draft_refusal(alloc, g, f, quota, k)? {
                return Ok(refused(alloc, why));
            }
            let number = needs_header(f.fields.blocks / g.cluster, k);
            match space_given(alloc, seen, k, number, behind) {
                Given::Next(need) => Ok(need),
                Given::Space => into_headers(alloc, seen, f, quota, k, behind),
            }
        }
    }
}

// Behind the file's first header.
fn extend_in(
    alloc: Global,
    seen: &Seen,
    f: &FileSeen<'_>,
    k: u32,
    rest: Rest<'_>,
) -> Result<Need, NoMemory>
    requires geometry { IsGeometry seen.now.geometry }
    requires number { f.now.num ≤ seen.now.geometry.files }
    requires alone { f.now.rest.now ≡ [] }
    requires readable { IsReadable f.now }
    requires begun { 11 < f.now.num → IsBegun seen.now.geometry f.now.num f.now.head.now f.now.fields rest.blocks.now }
    requires few { k ≤ 65536 }
    requires within { IsOfVolume seen.now.geometry seen.now.clusters seen.now.number }
    ensures { IfOk result (λ need. need ≡ goes_on_by (extend_in seen.now.geometry k (file_seen seen.now.geometry f.now)) rest.entry (space_of seen.now)) }
{
    let g = &seen.geometry;
    if let Some(why) = growing_refusal(g, f, k) {
        return Ok(refused(alloc, why));
    }
    match chain_seen(g, Mode::PW, f, rest) {
        Chained::Next(need) => Ok(need),
        Chained::File(whole, behind) => growing(alloc, seen, &whole, k, behind),
    }
}

// Behind the header of a number of the volume.
fn in_header(
    alloc: Global,
    seen: &Seen,
    file: Fid,
    head: &Block,
    k: u32,
    rest: Rest<'_>,
) -> Result<Need, NoMemory>
    requires geometry { IsGeometry seen.now.geometry }
    requires number { file.num ≤ seen.now.geometry.files }
    requires inside { AreInside head.now }
    requires begun { FirstIsBegun seen.now.geometry file.num head.now rest.blocks.now }
    requires few { k ≤ 65536 }
    requires within { IsOfVolume seen.now.geometry seen.now.clusters seen.now.number }
    ensures { IfOk result (λ need. need ≡ goes_on_by (if_file (refuses refusal.NoSuchFile) (extend_in seen.now.geometry k) (option_map (seen_file seen.now.geometry file.num head.now) (live_in file.seq head.now))) rest.entry (space_of seen.now)) }
{
    match live_in(head, file.seq) {
        Some(fields) => extend_in(
            alloc,
            seen,
            &FileSeen {
                num: file.num,
                head,
                rest: &[],
                fields,
            },
            k,
            rest,
        ),
        None => Ok(refused(alloc, Refusal::NoSuchFile)),
    }
}

/// What an EXTEND needs next. An error says that memory ran out.
#[tactic(auto, unfolding(op_law::specs::Sizes::extend_events))]
pub(crate) fn extend_next(
    alloc: Global,
    file: Fid,
    blocks: u32,
    seen: &Seen,
) -> Result<Need, NoMemory>
    requires geometry { IsGeometry seen.now.geometry }
    requires inside { HeadIsInside seen.now.blocks }
    requires begun { FileIsBegun seen.now.geometry file.num seen.now.blocks }
    requires within { IsOfVolume seen.now.geometry seen.now.clusters seen.now.number }
    requires blocks { blocks ≤ 65536 }
    ensures { IfOk result (λ need. need ≡ next_of (extend_events seen.now.geometry file blocks) seen.now) }
{
    let g = &seen.geometry;
    if !is_number(g, file) {
        return Ok(refused(alloc, Refusal::NoSuchFile));
    }
    match header_seen(alloc, g, file, Mode::PW, seen.all()) {
        Looked::Next(need) => Ok(need),
        Looked::Seen(head, rest) => in_header(
            alloc,
            seen,
            file,
            head,
            clusters_for(g, blocks),
            rest,
        ),
    }
}
