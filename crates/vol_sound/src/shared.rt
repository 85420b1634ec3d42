//! Clusters that are in two runs of system files, numbers 1 to 11.

ghost use Rattle.std.specs.Prelude.{◌≡◌, ◌<◌, ◌≤◌, ℕ, IfOk, length, nat_le, slice_index};
ghost use Rattle.fx_home.specs.Homes.{IsWithinLimits};
ghost use Rattle.vol_parts.specs.Lowest.{IsLowest};
ghost use Rattle.vol_parts.specs.Volumes.{volume, total};
ghost use Rattle.vol_faults.specs.Conditions.{IsSize};
ghost use Rattle.vol_sound.specs.Clusters.{system_times, AreTimes};
ghost use Rattle.vol_sound.specs.Ranks.{NoneBeyond, IsBeyondOf};

use crate::clusters::{count_file, total};
use base_words::Block;
use fx_home::Home;
use plain_cat::NoMemory;
use std::alloc::Global;
use vol_parts::Finding;

/// Counts from nothing in how many runs each cluster is, over the system files.
fn count_system_files(counts: &mut [u8], home: &Home, blocks: &[Block])
    requires limits { IsWithinLimits home.now }
    requires all { length counts.old ≡ total (volume home.now blocks.now) }
    requires none { (q : ℕ) → slice_index counts.old q ≡ 0 }
    ensures { AreTimes (volume home.now blocks.now) (system_times (volume home.now blocks.now)) counts.new }
{
    for n in 1..12 {
        count_file(counts, home, blocks, n);
    }
}

/// For each cluster in how many runs of system files it is, where 2 stands for all from there on. An error says that memory ran
/// out.
fn system_counts(alloc: Global, home: &Home, blocks: &[Block]) -> Result<Vec<u8>, NoMemory>
    requires { IsWithinLimits home.now }
    ensures { let v = volume home.now blocks.now in IfOk result (λ counts. AreTimes v (system_times v) counts.items) }
{
    let mut counts = vec![in alloc; 0; total(home, blocks)]?;
    count_system_files(&mut counts, home, blocks);
    Ok(counts)
}

/// The lowest cluster that these counts have twice.
fn lowest_twice(home: &Home, blocks: &[Block], counts: &[u8]) -> Option<u32>
    requires limits { IsWithinLimits home.now }
    requires size { IsSize (length blocks.now) }
    requires counts { AreTimes (volume home.now blocks.now) (system_times (volume home.now blocks.now)) counts.now }
    ensures { let v = volume home.now blocks.now in IsLowest (λ q. nat_le 2 (system_times v q)) 0 (total v) result }
{
    for q in 0..total(home, blocks) as u32 {
        if counts[q as usize] == 2 {
            return Some(q);
        }
    }
    None
}

/// The first cluster that is in two runs of system files, whose runs are whole clusters of the volume. An error says that memory
/// ran out.
pub(crate) fn first_shared_by_system(
    alloc: Global,
    home: &Home,
    blocks: &[Block],
) -> Result<Option<Finding>, NoMemory>
    requires limits { IsWithinLimits home.now }
    requires size { IsSize (length blocks.now) }
    requires none { NoneBeyond (volume home.now blocks.now) 7 }
    ensures { IfOk result (IsBeyondOf (volume home.now blocks.now) 7) }
{
    let counts = system_counts(alloc, home, blocks)?;
    match lowest_twice(home, blocks, &counts) {
        Some(q) => Ok(Some(Finding::SharedCluster(q))),
        None => Ok(None),
    }
}
