//! The clusters of a file.

ghost use Rattle.std.specs.Prelude.{◌≡◌, ◌≤◌, ◌+◌, ◌/◌, ◌++◌, IfOk, OnOk};
ghost use Rattle.std.specs.List.{range_with_len};
ghost use Rattle.vol_parts.specs.Parts.{IsGeometry};
ghost use Rattle.op_law.specs.Freeing.{all_clusters};
ghost use Rattle.op_law.specs.SeenFiles.{file_clusters};
ghost use Rattle.op_steps.specs.Seeing.{file_seen, IsReadable};

use crate::{FileSeen, file_runs, rising};
use fx_header::Run;
use op_law::NoMemory;
use plain_cat::Clusters;
use std::alloc::Global;
use vol_parts::Geometry;

// Adds the clusters of a run. A refusal of memory says nothing of the clusters.
fn push_clusters(all: &mut Vec<u32>, g: &Geometry, run: Run) -> Result<(), NoMemory>
    requires geometry { IsGeometry g.now }
    requires ends { run.lbn + run.count ≤ 65536 }
    ensures { OnOk result (all.new.items ≡ all.old.items ++ range_with_len (run.lbn / g.now.cluster) (run.count / g.now.cluster)) }
{
    let first = run.lbn / g.cluster;
    for i in 0..run.count / g.cluster {
        all.push(first + i)?;
    }
    Ok(())
}

// The clusters of a file, in its order. An error says that memory ran out.
fn file_clusters(alloc: Global, g: &Geometry, f: &FileSeen<'_>) -> Result<Vec<u32>, NoMemory>
    requires geometry { IsGeometry g.now }
    requires readable { IsReadable f.now }
    ensures { IfOk result (λ qs. qs.items ≡ file_clusters g.now (file_seen g.now f.now)) }
{
    let mut all = Vec::new(alloc);
    for run in file_runs(f) {
        push_clusters(&mut all, g, run)?;
    }
    Ok(all)
}

/// The clusters of a file, rising. An error says that memory ran out.
pub fn all_clusters(alloc: Global, g: &Geometry, f: &FileSeen<'_>) -> Result<Clusters, NoMemory>
    requires geometry { IsGeometry g.now }
    requires readable { IsReadable f.now }
    ensures { IfOk result (λ qs. qs ≡ all_clusters g.now (file_seen g.now f.now)) }
{
    let all = file_clusters(alloc, g, f)?;
    rising(alloc, g, all.as_slice())
}
