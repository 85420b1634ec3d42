//! The first fatal finding of all kinds, in their order, or the catalogue where there is none.

ghost use Rattle.std.specs.Prelude.{◌≡◌, ◌≤◌, IfNone, IfOk, length};
ghost use Rattle.fx_home.specs.Homes.{IsWithinLimits};
ghost use Rattle.vol_parts.specs.Catalogues.{catalogue};
ghost use Rattle.vol_parts.specs.Conditions.{HasSystemFiles, HasAllRunsInside};
ghost use Rattle.vol_parts.specs.Volumes.{Volume, volume};
ghost use Rattle.vol_faults.specs.Conditions.{IsSize, HasHeads};
ghost use Rattle.vol_faults.specs.Counts.{AreCounts};
ghost use Rattle.vol_faults.specs.Whole.{NoneBelow, IsFirstBelow, IsReadOf, IsRead};

use crate::bounds::{first_large_file, first_run_off};
use crate::chains::first_bad_chain;
use crate::clusters::{count_outside, first_free_cluster, first_shared_cluster};
use crate::control::first_bad_control_block;
use crate::counts::count_clusters;
use crate::entries::{first_marked_dir, first_missing_entry};
use crate::headers::first_bad_header;
use crate::loops::first_loop;
use crate::numbers::first_free_number;
use crate::systems::first_bad_system_file;
use base_words::Block;
use fx_home::{Home, read_home};
use plain_cat::{Cat, NoMemory};
use std::alloc::Global;
use vol_parts::{
    Finding, active_rows, first_bad_directory, first_double_row, first_rowless_file, read_catalogue,
};

/// The first of headers, system files, the control block, chains of headers, runs, and sizes of files.
fn first_of_files(home: &Home, blocks: &[Block]) -> Option<Finding>
    requires limits { IsWithinLimits home.now }
    requires size { IsSize (length blocks.now) }
    ensures first { IsFirstBelow (volume home.now blocks.now) 7 result }
    ensures heads { IfNone result (HasHeads (volume home.now blocks.now)) }
    ensures systems { IfNone result (HasSystemFiles (volume home.now blocks.now)) }
    ensures runs { IfNone result (HasAllRunsInside (volume home.now blocks.now)) }
{
    if let Some(found) = first_bad_header(home, blocks) {
        return Some(found);
    }
    if let Some(found) = first_bad_system_file(home, blocks) {
        return Some(found);
    }
    if let Some(found) = first_bad_control_block(home, blocks) {
        return Some(found);
    }
    if let Some(found) = first_bad_chain(home, blocks) {
        return Some(found);
    }
    if let Some(found) = first_run_off(home, blocks) {
        return Some(found);
    }
    first_large_file(home, blocks)
}

/// The first of quota rows, where nothing comes before them.
fn first_of_rows(alloc: Global, home: &Home, blocks: &[Block]) -> Result<Option<Finding>, NoMemory>
    requires limits { IsWithinLimits home.now }
    requires runs { HasAllRunsInside (volume home.now blocks.now) }
    requires none { NoneBelow (volume home.now blocks.now) 9 }
    ensures { IfOk result (IsFirstBelow (volume home.now blocks.now) 11) }
{
    let rows = active_rows(alloc, home, blocks)?;
    if let Some(found) = first_double_row(home, blocks, rows.as_slice()) {
        return Ok(Some(found));
    }
    Ok(first_rowless_file(home, blocks, rows.as_slice()))
}

/// The first of shared clusters, directories, quota rows and bitmaps, where nothing comes before them.
fn first_of_parts(
    alloc: Global,
    home: &Home,
    blocks: &[Block],
    counts: &[u8],
) -> Result<Option<Finding>, NoMemory>
    requires limits { IsWithinLimits home.now }
    requires size { IsSize (length blocks.now) }
    requires heads { HasHeads (volume home.now blocks.now) }
    requires systems { HasSystemFiles (volume home.now blocks.now) }
    requires runs { HasAllRunsInside (volume home.now blocks.now) }
    requires counts { AreCounts (volume home.now blocks.now) counts.now }
    requires none { NoneBelow (volume home.now blocks.now) 7 }
    ensures { IfOk result (IsFirstBelow (volume home.now blocks.now) 13) }
{
    if let Some(found) = first_shared_cluster(home, blocks, counts) {
        return Ok(Some(found));
    }
    if let Some(found) = first_bad_directory(alloc, home, blocks)? {
        return Ok(Some(found));
    }
    if let Some(found) = first_of_rows(alloc, home, blocks)? {
        return Ok(Some(found));
    }
    if let Some(found) = first_free_cluster(home, blocks, counts) {
        return Ok(Some(found));
    }
    Ok(first_free_number(home, blocks))
}

/// The first of system files' entries, marked directories and loops, where nothing comes before them.
fn first_of_catalogue(alloc: Global, cat: &Cat) -> Result<Option<Finding>, NoMemory>
    requires { length cat.now.files ≤ 4096 }
    ensures { IfOk result (λ first. (v : Volume) → catalogue v ≡ cat.now → NoneBelow v 13 → IsFirstBelow v 16 first) }
{
    if let Some(found) = first_missing_entry(cat) {
        return Ok(Some(found));
    }
    if let Some(found) = first_marked_dir(cat) {
        return Ok(Some(found));
    }
    first_loop(alloc, cat)
}

/// What the blocks of a volume tell whose home block is read.
fn read_of(alloc: Global, home: &Home, blocks: &[Block]) -> Result<Result<Cat, Finding>, NoMemory>
    requires limits { IsWithinLimits home.now }
    requires size { IsSize (length blocks.now) }
    ensures { IfOk result (IsReadOf (volume home.now blocks.now)) }
{
    if let Some(found) = first_of_files(home, blocks) {
        return Ok(Err(found));
    }
    let counts = count_clusters(alloc, home, blocks)?;
    if let Some(found) = first_of_parts(alloc, home, blocks, &counts)? {
        return Ok(Err(found));
    }
    let outside = count_outside(home, blocks, &counts);
    let cat = read_catalogue(alloc, home, blocks, outside)?;
    match first_of_catalogue(alloc, &cat)? {
        Some(found) => Ok(Err(found)),
        None => Ok(Ok(cat)),
    }
}

/// What the blocks of a volume tell, of which there are 64 to 65,536: their catalogue, or the first fatal finding, where that
/// is another one than that [SYSLOST] has no room for a lost file. An error says that memory ran out.
pub fn read_whole(alloc: Global, blocks: &[Block]) -> Result<Result<Cat, Finding>, NoMemory>
    requires { IsSize (length blocks.now) }
    ensures { IfOk result (IsRead blocks.now) }
{
    match read_home(&blocks[1]) {
        Ok(home) => read_of(alloc, &home, blocks),
        Err(fault) => Ok(Err(Finding::Home(fault))),
    }
}
