//! What TRUNC needs next.

ghost use Rattle.std.specs.Prelude.{◌≡◌, ◌≤◌, ◌<◌, ◌*◌, ◌/◌, [], option_map, length, IfOk};
ghost use Rattle.vol_parts.specs.Parts.{IsGeometry};
ghost use Rattle.op_law.specs.Events.{Make, next_of, space_of};
ghost use Rattle.op_law.specs.Rows.{live_in, refuses};
ghost use Rattle.op_law.specs.Refusing.{seen_file, if_file};
ghost use Rattle.op_law.specs.Freeing.{blocks_for, look_index, look_storage};
ghost use Rattle.op_law.specs.Sizes.{size_shown, cutting_writes, cut_to, keep_clusters, trunc_in, trunc_events};
ghost use Rattle.op_law.specs.Writing.{plan_of};
ghost use Rattle.op_law.specs.Behind.{goes_on_by, blocks_alone};
ghost use Rattle.op_law.specs.Readable.{AreInside, HeadIsInside};
ghost use Rattle.op_law.specs.declared.need.Need.TheVariants as need;
ghost use Rattle.plain_cat.specs.declared.reply.Refusal.TheVariants as refusal;
ghost use Rattle.op_steps.specs.Seeing.{file_seen, IsReadable};
ghost use Rattle.op_extend.specs.Seeing.{IsBegun, FirstIsBegun, FileIsBegun, IsSeenWhole, CanBeCut};
ghost use Rattle.op_extend.specs.Cutting.{IsGone, IsLooked, IsIndexFor, space_seen, index_seen};

use crate::cutting::{Gone, Index, Space, cutting_writes, gone_seen};
use base_words::Block;
use lock_db::LockName;
use op_law::{
    Granted, Listed, Looked, Need, NoMemory, Plan, Rest, Seen, answered, block_seen, header_seen,
    is_number, live_in, lock_seen, refused,
};
use op_steps::{Chained, FileSeen, chain_seen, clusters_for, quota_seen, storage_seen};
use plain_cat::{Fid, Mode, Refusal, Reply};
use std::alloc::Global;
use vol_parts::Geometry;

// The reply that shows all blocks of so many clusters.
fn size_shown(g: &Geometry, clusters: u32) -> Reply
    requires geometry { IsGeometry g.now }
    requires few { clusters ≤ 65536 }
    ensures { result ≡ size_shown g.now clusters }
{
    Reply::Size(g.cluster * clusters)
}

// The plan.
fn cut(
    alloc: Global,
    g: &Geometry,
    f: &FileSeen<'_>,
    k: u32,
    gone: &Gone,
    space: &Space<'_>,
) -> Result<Need, NoMemory>
    requires geometry { IsGeometry g.now }
    requires can { CanBeCut g.now f.now k }
    requires gone { IsGone g.now (file_seen g.now f.now) k gone.now }
    requires looked { IsLooked g.now gone.now space.now }
    ensures { IfOk result (λ r. r ≡ need.Ready (plan_of (cutting_writes g.now (file_seen g.now f.now) k (space_seen space.now)) (size_shown g.now k))) }
{
    Ok(Need::Ready(Plan {
        writes: cutting_writes(alloc, g, f, k, gone, space)?,
        ask: None,
        reply: size_shown(g, k),
    }))
}

// Behind the block of the index-file bitmap: the storage blocks, and the plan.
fn in_storage(
    alloc: Global,
    seen: &Seen,
    f: &FileSeen<'_>,
    k: u32,
    gone: &Gone,
    quota: &[(u32, Block)],
    index: Index<'_>,
    rest: Rest<'_>,
) -> Result<Need, NoMemory>
    requires geometry { IsGeometry seen.now.geometry }
    requires can { CanBeCut seen.now.geometry f.now k }
    requires gone { IsGone seen.now.geometry (file_seen seen.now.geometry f.now) k gone.now }
    requires quota { length quota.now ≤ 16 }
    requires index { IsIndexFor gone.now.numbers index }
    ensures { IfOk result (λ need. need ≡ goes_on_by (look_storage seen.now.geometry (blocks_for seen.now.geometry gone.now.clusters)
        (λ storage. Make (plan_of (cutting_writes seen.now.geometry (file_seen seen.now.geometry f.now) k (record { quota = blocks_alone quota.now; index = index_seen index.entry; storage = storage })) (size_shown seen.now.geometry k)))) rest.entry (space_of seen.now)) }
{
    let g = &seen.geometry;
    match storage_seen(alloc, g, &gone.clusters, rest)? {
        Listed::Next(need) => Ok(need),
        Listed::All(storage, _) => {
            let space = Space {
                quota,
                index,
                storage,
            };
            cut(alloc, g, f, k, gone, &space)
        }
    }
}

// Behind the lock of the bitmaps: the block of the index-file bitmap where numbers become free, and what comes next.
fn in_bitmaps(
    alloc: Global,
    seen: &Seen,
    f: &FileSeen<'_>,
    k: u32,
    gone: &Gone,
    quota: &[(u32, Block)],
    rest: Rest<'_>,
) -> Result<Need, NoMemory>
    requires geometry { IsGeometry seen.now.geometry }
    requires can { CanBeCut seen.now.geometry f.now k }
    requires gone { IsGone seen.now.geometry (file_seen seen.now.geometry f.now) k gone.now }
    requires quota { length quota.now ≤ 16 }
    ensures { IfOk result (λ need. need ≡ goes_on_by (look_index seen.now.geometry gone.now.numbers (λ index. look_storage seen.now.geometry (blocks_for seen.now.geometry gone.now.clusters)
        (λ storage. Make (plan_of (cutting_writes seen.now.geometry (file_seen seen.now.geometry f.now) k (record { quota = blocks_alone quota.now; index = index; storage = storage })) (size_shown seen.now.geometry k))))) rest.entry (space_of seen.now)) }
{
    if gone.numbers.items().is_empty() {
        return in_storage(alloc, seen, f, k, gone, quota, Index::Unseen, rest);
    }
    match block_seen(LockName::V, 4 * seen.geometry.cluster, rest) {
        Looked::Next(need) => Ok(need),
        Looked::Seen(index, others) => in_storage(
            alloc,
            seen,
            f,
            k,
            gone,
            quota,
            Index::Seen(index),
            others,
        ),
    }
}

// Behind all headers of a file that loses clusters.
fn cut_to(
    alloc: Global,
    seen: &Seen,
    f: &FileSeen<'_>,
    k: u32,
    rest: Rest<'_>,
) -> Result<Need, NoMemory>
    requires geometry { IsGeometry seen.now.geometry }
    requires can { CanBeCut seen.now.geometry f.now k }
    ensures { IfOk result (λ need. need ≡ goes_on_by (cut_to seen.now.geometry (file_seen seen.now.geometry f.now) k) rest.entry (space_of seen.now)) }
{
    let g = &seen.geometry;
    let gone = gone_seen(alloc, g, f, k)?;
    match quota_seen(g, Mode::PW, rest) {
        Listed::Next(need) => Ok(need),
        Listed::All(quota, behind) => match lock_seen(LockName::V, Mode::PW, behind) {
            Granted::Next(need) => Ok(need),
            Granted::Held(others) => in_bitmaps(alloc, seen, f, k, &gone, quota, others),
        },
    }
}

// Behind all headers of a file that keeps k clusters, or all where it has no more.
fn keep_clusters(
    alloc: Global,
    seen: &Seen,
    f: &FileSeen<'_>,
    k: u32,
    rest: Rest<'_>,
) -> Result<Need, NoMemory>
    requires geometry { IsGeometry seen.now.geometry }
    requires whole { IsSeenWhole seen.now.geometry f.now }
    ensures { IfOk result (λ need. need ≡ goes_on_by (keep_clusters seen.now.geometry k (file_seen seen.now.geometry f.now)) rest.entry (space_of seen.now)) }
{
    let g = &seen.geometry;
    let clusters = f.fields.blocks / g.cluster;
    if k < clusters {
        cut_to(alloc, seen, f, k, rest)
    } else {
        Ok(answered(alloc, size_shown(g, clusters)))
    }
}

// Behind the file's first header.
fn trunc_in(
    alloc: Global,
    seen: &Seen,
    f: &FileSeen<'_>,
    k: u32,
    rest: Rest<'_>,
) -> Result<Need, NoMemory>
    requires geometry { IsGeometry seen.now.geometry }
    requires number { f.now.num ≤ seen.now.geometry.files }
    requires alone { f.now.rest.now ≡ [] }
    requires readable { IsReadable f.now }
    requires begun { 11 < f.now.num → IsBegun seen.now.geometry f.now.num f.now.head.now f.now.fields rest.blocks.now }
    ensures { IfOk result (λ need. need ≡ goes_on_by (trunc_in seen.now.geometry k (file_seen seen.now.geometry f.now)) rest.entry (space_of seen.now)) }
{
    if f.num <= 11 || f.fields.dir {
        return Ok(refused(alloc, Refusal::NoPriv));
    }
    match chain_seen(&seen.geometry, Mode::PW, f, rest) {
        Chained::Next(need) => Ok(need),
        Chained::File(whole, behind) => keep_clusters(alloc, seen, &whole, k, behind),
    }
}

// Behind the header of a number of the volume.
fn cut_header_of(
    alloc: Global,
    seen: &Seen,
    file: Fid,
    head: &Block,
    k: u32,
    rest: Rest<'_>,
) -> Result<Need, NoMemory>
    requires geometry { IsGeometry seen.now.geometry }
    requires number { file.num ≤ seen.now.geometry.files }
    requires inside { AreInside head.now }
    requires begun { FirstIsBegun seen.now.geometry file.num head.now rest.blocks.now }
    ensures { IfOk result (λ need. need ≡ goes_on_by (if_file (refuses refusal.NoSuchFile) (trunc_in seen.now.geometry k) (option_map (seen_file seen.now.geometry file.num head.now) (live_in file.seq head.now))) rest.entry (space_of seen.now)) }
{
    match live_in(head, file.seq) {
        Some(fields) => trunc_in(
            alloc,
            seen,
            &FileSeen {
                num: file.num,
                head,
                rest: &[],
                fields,
            },
            k,
            rest,
        ),
        None => Ok(refused(alloc, Refusal::NoSuchFile)),
    }
}

/// What a TRUNC needs next. An error says that memory ran out.
#[tactic(auto, unfolding(op_law::specs::Sizes::trunc_events))]
pub(crate) fn trunc_next(
    alloc: Global,
    file: Fid,
    blocks: u32,
    seen: &Seen,
) -> Result<Need, NoMemory>
    requires geometry { IsGeometry seen.now.geometry }
    requires inside { HeadIsInside seen.now.blocks }
    requires begun { FileIsBegun seen.now.geometry file.num seen.now.blocks }
    requires blocks { blocks ≤ 65536 }
    ensures { IfOk result (λ need. need ≡ next_of (trunc_events seen.now.geometry file blocks) seen.now) }
{
    let g = &seen.geometry;
    if !is_number(g, file) {
        return Ok(refused(alloc, Refusal::NoSuchFile));
    }
    match header_seen(alloc, g, file, Mode::PW, seen.all()) {
        Looked::Next(need) => Ok(need),
        Looked::Seen(head, rest) => cut_header_of(
            alloc,
            seen,
            file,
            head,
            clusters_for(g, blocks),
            rest,
        ),
    }
}
