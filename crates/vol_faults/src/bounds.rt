//! Runs that are no whole clusters of the volume, and files with more clusters than sixteen headers have room for.

ghost use Rattle.std.specs.Prelude.{◌≡◌, ◌-◌, IfNone};
ghost use Rattle.std.specs.List.{list_any};
ghost use Rattle.fx_home.specs.Homes.{IsWithinLimits};
ghost use Rattle.vol_parts.specs.Conditions.{HasAllRunsInside};
ghost use Rattle.vol_parts.specs.Fatal.{is_off_bounds, is_too_large};
ghost use Rattle.vol_parts.specs.Firsts.{IsFirstOf};
ghost use Rattle.vol_parts.specs.Iter.{file_runs_left};
ghost use Rattle.vol_parts.specs.Lowest.{IsLowest};
ghost use Rattle.vol_parts.specs.Volumes.{volume, IsNumber, fields};
ghost use Rattle.vol_faults.specs.Conditions.{has_run_off};

use crate::sizes::whole;
use base_words::Block;
use fx_header::Run;
use fx_home::Home;
use vol_parts::{FileRuns, Finding, fields, file_runs};

/// Whether a run is no whole clusters of the volume. It may lie anywhere in 32 bits.
#[tactic(auto, unfolding(vol_parts::specs::Fatal::is_off_bounds))]
fn is_off_bounds(home: &Home, blocks: &[Block], run: &Run) -> bool
    requires { IsWithinLimits home.now }
    ensures { result ≡ is_off_bounds (volume home.now blocks.now) run.now }
{
    let cluster = u32::from(home.cluster);
    let end = run.lbn as usize + run.count as usize;
    run.lbn % cluster != 0 || run.count % cluster != 0 || end > whole(home, blocks)
}

fn is_any_off(home: &Home, blocks: &[Block], left: FileRuns<'_>) -> bool
    requires { IsWithinLimits home.now }
    ensures { result ≡ list_any (is_off_bounds (volume home.now blocks.now)) (file_runs_left left.entry) }
{
    for run in left {
        if is_off_bounds(home, blocks, &run) {
            return true;
        }
    }
    false
}

#[tactic(auto, unfolding(crate::specs::Conditions::has_run_off))]
fn has_run_off(home: &Home, blocks: &[Block], n: u32) -> bool
    requires limits { IsWithinLimits home.now }
    requires number { IsNumber (volume home.now blocks.now) n }
    ensures { result ≡ has_run_off (volume home.now blocks.now) n }
{
    is_any_off(home, blocks, file_runs(home, blocks, n))
}

fn lowest_with_run_off(home: &Home, blocks: &[Block]) -> Option<u32>
    requires { IsWithinLimits home.now }
    ensures { IsLowest (has_run_off (volume home.now blocks.now)) 1 home.now.files result }
{
    for n in 1..home.files + 1 {
        if has_run_off(home, blocks, n) {
            return Some(n);
        }
    }
    None
}

/// The first file with a run that is no whole clusters of the volume.
#[tactic(auto, unfolding(crate::specs::Conditions::has_run_off))]
pub fn first_run_off(home: &Home, blocks: &[Block]) -> Option<Finding>
    requires { IsWithinLimits home.now }
    ensures first { IsFirstOf (volume home.now blocks.now) 5 result }
    ensures none { IfNone result (HasAllRunsInside (volume home.now blocks.now)) }
{
    Some(Finding::Runs(lowest_with_run_off(home, blocks)?))
}

/// Whether a file has more than 1,232 clusters.
fn is_too_large(home: &Home, blocks: &[Block], n: u32) -> bool
    requires limits { IsWithinLimits home.now }
    requires number { IsNumber (volume home.now blocks.now) n }
    ensures { let v = volume home.now blocks.now in result ≡ is_too_large v (fields v n) }
{
    match fields(home, blocks, n) {
        Some(f) => f.blocks / u32::from(home.cluster) > 1232,
        None => false,
    }
}

fn lowest_large_file(home: &Home, blocks: &[Block]) -> Option<u32>
    requires { IsWithinLimits home.now }
    ensures { let v = volume home.now blocks.now in IsLowest (λ n. is_too_large v (fields v n)) 12 (home.now.files - 11) result }
{
    for n in 12..home.files + 1 {
        if is_too_large(home, blocks, n) {
            return Some(n);
        }
    }
    None
}

/// The first file behind the system files that has more than 1,232 clusters. There is none where no chain of headers has a fault.
pub fn first_large_file(home: &Home, blocks: &[Block]) -> Option<Finding>
    requires { IsWithinLimits home.now }
    ensures { IsFirstOf (volume home.now blocks.now) 6 result }
{
    Some(Finding::Clusters(lowest_large_file(home, blocks)?))
}
