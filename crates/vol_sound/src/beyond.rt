//! What repair cannot mend.

ghost use Rattle.std.specs.Prelude.{◌≡◌, ◌⊎◌, IfNone, IfOk, true, false, Some, length};
ghost use Rattle.fx_home.specs.Homes.{IsWithinLimits};
ghost use Rattle.vol_parts.specs.declared.finding.Finding.TheVariants.{DirSize};
ghost use Rattle.vol_parts.specs.Conditions.{HasSystemFiles};
ghost use Rattle.vol_parts.specs.Fatal.{dir_fault};
ghost use Rattle.vol_parts.specs.Volumes.{volume};
ghost use Rattle.vol_faults.specs.Conditions.{IsSize};
ghost use Rattle.vol_sound.specs.Beyond.{IsFoundBeyond};
ghost use Rattle.vol_sound.specs.BeyondLaws.{BeyondIsFatal, FirstIsOne};
ghost use Rattle.vol_sound.specs.Ranks.{ends_after_cluster, is_of_system, only_of_system, IsBeyondOf, NoneBeyond, IsFoundBelow};

use crate::shared::first_shared_by_system;
use base_words::Block;
use fx_header::Hdr;
use fx_home::{Home, read_home};
use plain_cat::NoMemory;
use std::alloc::Global;
use vol_faults::{first_bad_control_block, first_bad_header, first_bad_system_file, first_run_off};
use vol_parts::{Finding, fields};

/// Whether a finding of a header or of runs is one of a system file.
fn is_of_system(found: &Finding) -> bool
    ensures { result ≡ is_of_system found.now }
{
    match found {
        Finding::Header(n, _) => *n <= 11,
        Finding::WrongNumber(n) => *n <= 11,
        Finding::Runs(n) => *n <= 11,
        _ => false,
    }
}

fn only_of_system(found: Option<Finding>) -> Option<Finding>
    ensures { result ≡ only_of_system found }
{
    let found = found?;
    if is_of_system(&found) {
        Some(found)
    } else {
        None
    }
}

/// The first of headers, system files, the control block and runs.
fn first_of_files(home: &Home, blocks: &[Block]) -> Option<Finding>
    requires limits { IsWithinLimits home.now }
    requires size { IsSize (length blocks.now) }
    ensures first { IsFoundBelow (volume home.now blocks.now) 7 result }
    ensures systems { IfNone result (HasSystemFiles (volume home.now blocks.now)) }
{
    if let Some(found) = only_of_system(first_bad_header(home, blocks)) {
        return Some(found);
    }
    if let Some(found) = first_bad_system_file(home, blocks) {
        return Some(found);
    }
    if let Some(found) = first_bad_control_block(home, blocks) {
        return Some(found);
    }
    only_of_system(first_run_off(home, blocks))
}

/// Whether the end of a file is after the last block of one cluster, without a mark.
fn ends_after_cluster(home: &Home, f: &Hdr) -> bool
    requires { IsWithinLimits home.now }
    ensures { result ≡ ends_after_cluster home.now.cluster f.now }
{
    f.mark == 0 && f.end == u32::from(home.cluster) + 1 && f.byte == 0
}

/// Whether a system directory has not the size of a directory. The system files are what the structure of a volume asks, and so
/// it has one cluster.
fn is_bad_size(home: &Home, blocks: &[Block], n: u32) -> bool
    requires limits { IsWithinLimits home.now }
    requires systems { HasSystemFiles (volume home.now blocks.now) }
    requires number { (n ≡ 4) ⊎ (n ≡ 11) }
    ensures bad { result ≡ true → dir_fault (volume home.now blocks.now) n ≡ Some (DirSize n) }
    ensures good { result ≡ false → dir_fault (volume home.now blocks.now) n ≡ Some (DirSize n) → ⊥ }
{
    let Some(f) = fields(home, blocks, n) else {
        return false;
    };
    !ends_after_cluster(home, &f)
}

/// The first of the two system directories that does not have the size of one.
fn first_bad_size(home: &Home, blocks: &[Block]) -> Option<Finding>
    requires limits { IsWithinLimits home.now }
    requires systems { HasSystemFiles (volume home.now blocks.now) }
    ensures { IsBeyondOf (volume home.now blocks.now) 8 result }
{
    if is_bad_size(home, blocks, 4) {
        return Some(Finding::DirSize(4));
    }
    if is_bad_size(home, blocks, 11) {
        return Some(Finding::DirSize(11));
    }
    None
}

/// The first finding beyond repair of a volume whose home block is read.
fn first_of_volume(
    alloc: Global,
    home: &Home,
    blocks: &[Block],
) -> Result<Option<Finding>, NoMemory>
    requires limits { IsWithinLimits home.now }
    requires size { IsSize (length blocks.now) }
    ensures { IfOk result (IsFoundBelow (volume home.now blocks.now) 9) }
{
    if let Some(found) = first_of_files(home, blocks) {
        return Ok(Some(found));
    }
    if let Some(found) = first_shared_by_system(alloc, home, blocks)? {
        return Ok(Some(found));
    }
    Ok(first_bad_size(home, blocks))
}

/// The first finding that repair cannot mend, of the blocks of a volume, of which there are 64 to 65,536, or none where it can mend
/// all: a fault of the home block or of the storage control block, one of a system file's header, structure or runs, a cluster in two
/// runs of system files, or a system directory of another size than one has. It is the first one in the order in which fatal findings
/// are told, and may stand behind others that repair mends. An error says that memory ran out.
pub fn first_beyond(alloc: Global, blocks: &[Block]) -> Result<Option<Finding>, NoMemory>
    requires { IsSize (length blocks.now) }
    ensures { IfOk result (IsFoundBeyond blocks.now) }
{
    match read_home(&blocks[1]) {
        Ok(home) => first_of_volume(alloc, &home, blocks),
        Err(fault) => Ok(Some(Finding::Home(fault))),
    }
}

/// The findings beyond repair are fatal findings, and of the blocks of a volume one alone is the first of them.
#[tactic(auto, using(crate::proofs::OneLemmas::first_is_one, crate::proofs::OneLemmas::beyond_is_fatal))]
pub fn first_beyond_is_one()
    ensures fatal { BeyondIsFatal }
    ensures one { FirstIsOne }
{}
