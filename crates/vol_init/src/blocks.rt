//! The blocks of a fresh volume, part by part.
ghost use Rattle.std.specs.Prelude.{◌≡◌, ◌≤◌, ◌<◌, ◌+◌, ◌*◌, ◌==◌, nat_lt, ℕ, [], Ok, IsTrue, if◌then◌else◌};
ghost use Rattle.fx_home.specs.Homes.{IsWithinLimits};
ghost use Rattle.fx_header.specs.declared.slot.Slot.TheVariants.{Used};
ghost use Rattle.fx_header.specs.Headers.{header_read, runs_in, has_offsets, map_area, header_bytes, with_runs, ReadsBack};
ghost use Rattle.fx_bitmap.specs.Bits.{bit_at};
ghost use Rattle.vol_parts.specs.Volumes.{rows_in};
ghost use Rattle.vol_init.specs.Layouts.{IsLayout, reserved_clusters, total, header_of, text_of, runs_of, quota_rows};
ghost use Rattle.vol_init.specs.Parts.{home_copy_bytes, header_block, quota_block, is_free, IsInside, Says};
ghost use Rattle.vol_init.specs.Plans.{IsPlan};

use crate::part::Part;
use crate::plan::Plan;
use crate::{Layout, SYSTEM_OWNER, USER_OWNER, text_of};
use base_words::{Block, put_long, put_word, set_sum, sum_of, zeros};
use fx_bitmap::set_bits;
use fx_header::{Run, free_slot, new_header, set_runs};
use fx_home::{Home, Scb, home_block, scb_block};
use fx_quota::{Row, set_row};

/// Where the LBN of a home block stands in it, in bytes.
const HOMELBN: usize = 0;
/// Where its VBN stands.
const HOMEVBN: usize = 16;
/// Where the sum of its first 29 words stands.
const CHECKSUM1: usize = 58;

/// The copy of the home block, with its own place and sums.
#[tactic(auto, unfolding(crate::specs::Parts::home_copy_bytes, fx_home::specs::Homes::with_sum1))]
fn home_copy(home: &Home) -> Block
    requires { IsWithinLimits home.now }
    ensures { result ≡ home_copy_bytes home.now }
{
    let mut b = home_block(home);
    let vbn = 2 * home.cluster + 1;
    put_long(&mut b, HOMELBN, u32::from(2 * home.cluster));
    put_word(&mut b, HOMEVBN, vbn);
    let sum = sum_of(&b, 29);
    put_word(&mut b, CHECKSUM1, sum);
    set_sum(&mut b);
    b
}

/// The header of a system file, without its runs.
fn bare_header(layout: &Layout, n: u32) -> Block
    requires layout { IsLayout layout.now }
    requires room { reserved_clusters layout.now ≤ total layout.now }
    requires from { 1 ≤ n }
    requires to { n ≤ 11 }
    ensures written { result ≡ header_bytes (header_of layout.now n) (text_of n) (4, 4) }
    ensures offsets { IsTrue (has_offsets result) }
    ensures area { map_area result ≡ 155 }
    ensures reads { ReadsBack result (header_of layout.now n) }
{
    new_header(&layout.header_of(n), text_of(n), (4, 4))
}

/// Writes the runs of a system file into its header.
#[tactic(auto, unfolding(crate::specs::Layouts::runs_of))]
fn put_runs(b: &mut Block, layout: &Layout, n: u32)
    requires layout { IsLayout layout.now }
    requires room { reserved_clusters layout.now ≤ total layout.now }
    requires offsets { IsTrue (has_offsets b.old) }
    requires area { map_area b.old ≡ 155 }
    ensures { b.new ≡ with_runs b.old (runs_of layout.now n) }
{
    let clusters = layout.clusters_of(n);
    if clusters == 0 {
        set_runs(b, &[]);
        return;
    }
    let run = Run {
        lbn: layout.cluster * layout.first_cluster(n),
        count: layout.cluster * clusters,
    };
    set_runs(b, &[run]);
}

/// The header of a system file.
#[tactic(auto, unfolding(crate::specs::Parts::header_block))]
fn header_block(layout: &Layout, n: u32) -> Block
    requires layout { IsLayout layout.now }
    requires room { reserved_clusters layout.now ≤ total layout.now }
    requires from { 1 ≤ n }
    requires to { n ≤ 11 }
    ensures written { result ≡ header_block layout.now n }
    ensures reads { header_read result ≡ Ok (Used (header_of layout.now n)) }
    ensures runs { runs_in result ≡ runs_of layout.now n }
{
    let mut b = bare_header(layout, n);
    put_runs(&mut b, layout, n);
    b
}

/// The index-file bitmap: the system files' numbers are in use.
fn numbers_block() -> Block
    ensures { (i : ℕ) → i < 4096 → bit_at result i ≡ nat_lt i 11 }
{
    let mut b = zeros();
    set_bits(&mut b, 0, 11);
    b
}

/// A block of the storage bitmap: the clusters behind those of the system files are free.
fn storage_block(layout: &Layout, k: u32) -> Block
    requires layout { IsLayout layout.now }
    requires block { k < 16 }
    ensures { (i : ℕ) → i < 4096 → bit_at result i ≡ is_free layout.now (4096 * k + i) }
{
    let total = layout.blocks / layout.cluster;
    let from = layout
        .reserved_clusters()
        .saturating_sub(4096 * k)
        .min(4096);
    let to = total.saturating_sub(4096 * k).min(4096);
    let mut b = zeros();
    if from < to {
        set_bits(&mut b, from, to - from);
    }
    b
}

/// A block of QUOTA.SYS, the first of which has the rows.
#[tactic(auto, unfolding(crate::specs::Layouts::quota_rows, crate::specs::Parts::quota_block))]
fn quota_block(layout: &Layout, k: u32) -> Block
    requires { IsLayout layout.now }
    ensures written { result ≡ quota_block layout.now k }
    ensures rows { rows_in result ≡ (if k == 0 then quota_rows layout.now else []) }
{
    let mut b = zeros();
    if k > 0 {
        return b;
    }
    let quota = layout.blocks + layout.files;
    let system = Row {
        uic: SYSTEM_OWNER,
        usage: layout.cluster * layout.reserved_clusters() + 11,
        quota,
        over: 0,
    };
    let user = Row {
        uic: USER_OWNER,
        usage: 0,
        quota,
        over: 0,
    };
    set_row(&mut b, 0, &system);
    set_row(&mut b, 1, &user);
    b
}

/// The block of a part.
pub(crate) fn block_of(plan: &Plan, part: Part) -> Block
    requires plan { IsPlan plan.now }
    requires part { IsInside plan.now.layout part }
    ensures { Says plan.now.layout plan.now.home plan.now.main.items plan.now.lost.items part result }
{
    let layout = &plan.layout;
    match part {
        Part::HomeCopy => home_copy(&plan.home),
        Part::HeaderCopy => header_block(layout, 1),
        Part::Numbers => numbers_block(),
        Part::Header(n) => {
            if n <= 11 {
                header_block(layout, n)
            } else {
                free_slot(0)
            }
        }
        Part::Control => scb_block(&Scb {
            cluster: plan.home.cluster,
            blocks: layout.blocks,
        }),
        Part::Storage(k) => storage_block(layout, k),
        Part::Main(k) => plan.main[k as usize],
        Part::Lost(k) => plan.lost[k as usize],
        Part::Quota(k) => quota_block(layout, k),
    }
}
