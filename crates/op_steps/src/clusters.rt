//! Clusters: how many blocks need, what they cost, and the runs that they are.

ghost use Rattle.std.specs.Prelude.{◌≡◌, ◌≤◌, ◌+◌, ◌*◌, None, IfOk};
ghost use Rattle.plain_rules.specs.Lookups.{file_most};
ghost use Rattle.vol_parts.specs.Parts.{IsGeometry};
ghost use Rattle.op_law.specs.Writing.{clusters_for, runs_for};
ghost use Rattle.op_steps.specs.Given.{IsOfVolume};

use fx_header::Run;
use op_law::NoMemory;
use plain_cat::Clusters;
use std::alloc::Global;
use vol_parts::Geometry;

/// Blocks rounded up to clusters.
pub fn clusters_for(g: &Geometry, blocks: u32) -> u32
    requires geometry { IsGeometry g.now }
    requires blocks { blocks ≤ 65536 }
    ensures { result ≡ clusters_for g.now blocks }
{
    (blocks + (g.cluster - 1)) / g.cluster
}

/// What a file of so many clusters costs its owner: its blocks, and one more.
pub fn cost_of(g: &Geometry, clusters: u32) -> u32
    requires geometry { IsGeometry g.now }
    requires few { clusters ≤ file_most }
    ensures { result ≡ g.now.cluster * clusters + 1 }
{
    g.cluster * clusters + 1
}

/// The runs of clusters, one for each. An error says that memory ran out.
pub fn runs_for(alloc: Global, g: &Geometry, clusters: &Clusters) -> Result<Vec<Run>, NoMemory>
    requires geometry { IsGeometry g.now }
    requires within { IsOfVolume g.now clusters.now None }
    ensures { IfOk result (λ runs. runs.items ≡ runs_for g.now clusters.now) }
{
    let mut runs = Vec::new(alloc);
    for q in clusters.items() {
        runs.push(Run {
            lbn: *q * g.cluster,
            count: g.cluster,
        })?;
    }
    Ok(runs)
}
