//! EXTEND and TRUNC.

ghost use Rattle.std.specs.Prelude.{◌≡◌, ◌≤◌, ◌<◌, ◌+◌, ◌*◌, ◌^◌, ◌-◌, IfOk};
ghost use Rattle.plain_rules.specs.Lookups.{header_most, file_at};
ghost use Rattle.plain_rules.specs.Accounts.{Accounted};
ghost use Rattle.plain_rules.specs.Changes.{blocks_of, grown, cut};
ghost use Rattle.plain_rules.specs.Answers.{over_draft, is_kept, extend_outcome, trunc_outcome};
ghost use Rattle.plain_vol.specs.Makings.{changed, MayGrow, grown_in, cut_in};

use crate::changes::{charge, discharge, in_clusters, set_slot, take_file};
use crate::headers::{FILE_MOST, HEADER_MOST, needs_header};
use crate::lookups::live_file;
use crate::outcomes::{refused, told};
use plain_cat::{Cat, Fid, File, NoMemory, QuotaRow, Refusal, Reply, Slot, Uic};
use plain_rules::{Outcome, free_clusters, row_of};
use std::alloc::Global;

/// Another size of a file: the clusters that it has more, or all that it keeps, how many blocks its owner has more or fewer, and
/// how many blocks the file has.
#[derive(Clone, Copy, Debug, PartialEq)]
pub struct Sizing {
    clusters: u32,
    owner: Uic,
    change: u32,
    size: u32,
}

fn over_draft(row: Option<QuotaRow>, k: u32) -> bool
    ensures { result ≡ over_draft row k }
{
    match row {
        Some(row) => row.quota as u64 + (row.over as u64) < row.usage as u64 + k as u64,
        None => false,
    }
}

// System files and directories keep their size.
pub(crate) fn is_kept(n: u32, file: &File) -> bool
    ensures { result ≡ is_kept n file.now }
{
    n <= 11 || file.dir
}

// The allocated blocks of a file.
fn blocks_of(cat: &Cat, file: &File) -> u32
    requires { blocks_of cat.now file.now < 2 ^ 32 }
    ensures { result ≡ blocks_of cat.now file.now }
{
    cat.factor * file.clusters
}

// Gives a file k clusters more.
fn grow_in(cat: &Cat, file: &mut File, k: u32)
    requires clusters { file.old.clusters + k < 2 ^ 32 }
    requires blocks { blocks_of cat.now file.old + 1 < 2 ^ 32 }
    ensures { file.new ≡ grown cat.now file.old k }
{
    if file.mark == 0 {
        file.mark = blocks_of(cat, file) + 1;
    }
    file.clusters += k;
}

// Gives the file of a number k clusters more.
fn grow(cat: &mut Cat, n: u32, k: u32)
    requires { MayGrow cat.old k (file_at cat.old n) }
    ensures { cat.new ≡ changed cat.old n (λ f. grown cat.old f k) }
{
    let Some(mut file) = take_file(cat, n) else {
        return;
    };
    grow_in(cat, &mut file, k);
    set_slot(cat, n, Slot::Used(file));
}

// How EXTEND makes a file larger, or why it does not.
#[tactic(auto, unfolding(plain_rules::specs::Answers::extend_outcome, plain_rules::specs::Answers::extend_refusal))]
fn larger(cat: &Cat, fid: Fid, blocks: u32, new: Option<u32>) -> Result<Sizing, Refusal>
    requires cat { Accounted cat.now }
    requires blocks { blocks ≤ 65536 }
    ensures grown { grown_in cat.now fid.num result ≡ extend_outcome cat.now fid blocks new }
    ensures small { IfOk result (λ s. s.change ≤ 16 * header_most) }
    ensures fits { IfOk result (λ s. MayGrow cat.now s.clusters (file_at cat.now fid.num)) }
{
    let Some(file) = live_file(cat, fid) else {
        return Err(Refusal::NoSuchFile);
    };
    if is_kept(fid.num, file) {
        return Err(Refusal::NoPriv);
    }
    let k = in_clusters(cat, blocks);
    if HEADER_MOST < k || (FILE_MOST as u64) < file.clusters as u64 + k as u64 {
        return Err(Refusal::FileLimit);
    }
    if over_draft(row_of(cat.quota.items(), file.owner), cat.factor * k) {
        return Err(Refusal::ExQuota);
    }
    if needs_header(file.clusters, k) && new.is_none() {
        return Err(Refusal::IndexFull);
    }
    if free_clusters(cat) < k {
        return Err(Refusal::DeviceFull);
    }
    Ok(Sizing {
        clusters: k,
        owner: file.owner,
        change: cat.factor * k,
        size: cat.factor * (file.clusters + k),
    })
}

// EXTEND, where a new header may take the number
pub(crate) fn extend(
    alloc: Global,
    mut cat: Cat,
    fid: Fid,
    blocks: u32,
    new: Option<u32>,
) -> Result<Outcome, NoMemory>
    requires cat { Accounted cat }
    requires blocks { blocks ≤ 65536 }
    ensures { IfOk result (λ o. o ≡ extend_outcome cat fid blocks new) }
{
    match larger(&cat, fid, blocks, new) {
        Err(refusal) => Ok(refused(cat, refusal)),
        Ok(sizing) => {
            charge(alloc, &mut cat, sizing.owner, sizing.change)?;
            grow(&mut cat, fid.num, sizing.clusters);
            Ok(told(cat, Reply::Size(sizing.size)))
        }
    }
}

// Cuts a file to k clusters.
fn cut_in(cat: &Cat, file: &mut File, k: u32)
    requires { cat.now.factor * k + 1 < 2 ^ 32 }
    ensures { file.new ≡ cut cat.now file.old k }
{
    let blocks = cat.factor * k;
    if blocks + 1 < file.end {
        file.byte = 0;
    }
    file.end = file.end.min(blocks + 1);
    file.mark = file.mark.min(blocks + 1);
    file.clusters = k;
    file.written.truncate(blocks as usize);
}

// Cuts the file of a number to k clusters.
fn cut(cat: &mut Cat, n: u32, k: u32)
    requires { cat.old.factor * k + 1 < 2 ^ 32 }
    ensures { cat.new ≡ changed cat.old n (λ f. cut cat.old f k) }
{
    let Some(mut file) = take_file(cat, n) else {
        return;
    };
    cut_in(cat, &mut file, k);
    set_slot(cat, n, Slot::Used(file));
}

// How many blocks a file has fewer with k clusters.
fn blocks_less(cat: &Cat, file: &File, k: u32) -> u32
    requires kept { k ≤ file.now.clusters }
    requires gone { cat.now.factor * (file.now.clusters - k) < 2 ^ 32 }
    ensures { result ≡ cat.now.factor * (file.now.clusters - k) }
{
    cat.factor * (file.clusters - k)
}

// How TRUNC cuts a file, or why it does not.
#[tactic(auto, unfolding(plain_rules::specs::Answers::trunc_outcome))]
fn smaller(cat: &Cat, fid: Fid, blocks: u32) -> Result<Sizing, Refusal>
    requires cat { Accounted cat.now }
    requires blocks { blocks ≤ 65536 }
    ensures cut { cut_in cat.now fid.num result ≡ trunc_outcome cat.now fid blocks }
    ensures small { IfOk result (λ s. cat.now.factor * s.clusters + 1 < 2 ^ 32) }
{
    let Some(file) = live_file(cat, fid) else {
        return Err(Refusal::NoSuchFile);
    };
    if is_kept(fid.num, file) {
        return Err(Refusal::NoPriv);
    }
    let k = file.clusters.min(in_clusters(cat, blocks));
    let change = blocks_less(cat, file, k);
    Ok(Sizing {
        clusters: k,
        owner: file.owner,
        change,
        size: cat.factor * k,
    })
}

// TRUNC
pub(crate) fn trunc(alloc: Global, mut cat: Cat, fid: Fid, blocks: u32) -> Result<Outcome, NoMemory>
    requires cat { Accounted cat }
    requires blocks { blocks ≤ 65536 }
    ensures { IfOk result (λ o. o ≡ trunc_outcome cat fid blocks) }
{
    match smaller(&cat, fid, blocks) {
        Err(refusal) => Ok(refused(cat, refusal)),
        Ok(sizing) => {
            discharge(alloc, &mut cat, sizing.owner, sizing.change)?;
            cut(&mut cat, fid.num, sizing.clusters);
            Ok(told(cat, Reply::Size(sizing.size)))
        }
    }
}
