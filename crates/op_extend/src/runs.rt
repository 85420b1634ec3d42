//! The runs of clusters, one for each.

ghost use Rattle.std.specs.Prelude.{◌≡◌, ◌≤◌, ◌<◌, ◌+◌, ◌/◌, ◌++◌, ℕ, length, take, drop, OnOk, IfOk};
ghost use Rattle.std.specs.List.{range_with_len};
ghost use Rattle.base_words.specs.Lists.{Has};
ghost use Rattle.plain_rules.specs.Lookups.{extra};
ghost use Rattle.vol_parts.specs.Parts.{IsGeometry};
ghost use Rattle.vol_spell.specs.Reading.{total_of};
ghost use Rattle.op_law.specs.Headers.{tail_of};
ghost use Rattle.op_law.specs.SeenFiles.{file_clusters};
ghost use Rattle.op_law.specs.Writing.{runs_for};
ghost use Rattle.op_steps.specs.Seeing.{file_seen};
ghost use Rattle.op_extend.specs.Seeing.{IsSeenWhole};

use fx_header::Run;
use op_law::{HEADER_MOST, NoMemory};
use op_steps::{FileSeen, file_runs};
use std::alloc::Global;
use vol_parts::Geometry;

/// How many headers a file of k clusters has behind the first one.
pub(crate) fn extra(k: u32) -> u32
    ensures { result ≡ extra k }
{
    k.saturating_sub(1) / HEADER_MOST
}

// Adds a run for each cluster of a run. A refusal of memory says nothing of the runs.
fn push_clusters(all: &mut Vec<Run>, g: &Geometry, run: Run) -> Result<(), NoMemory>
    requires geometry { IsGeometry g.now }
    requires ends { run.lbn + run.count ≤ 65536 }
    ensures { OnOk result (all.new.items ≡ all.old.items ++ runs_for g.now (range_with_len (run.lbn / g.now.cluster) (run.count / g.now.cluster))) }
{
    let first = run.lbn / g.cluster;
    for i in 0..run.count / g.cluster {
        all.push(Run {
            lbn: (first + i) * g.cluster,
            count: g.cluster,
        })?;
    }
    Ok(())
}

/// The runs of a file's clusters in the file's order, one for each. An error says that memory ran out.
pub(crate) fn cluster_runs(
    alloc: Global,
    g: &Geometry,
    f: &FileSeen<'_>,
) -> Result<Vec<Run>, NoMemory>
    requires geometry { IsGeometry g.now }
    requires whole { IsSeenWhole g.now f.now }
    ensures { IfOk result (λ rs. rs.items ≡ runs_for g.now (file_clusters g.now (file_seen g.now f.now))) }
{
    let mut all = Vec::new(alloc);
    for run in file_runs(f) {
        push_clusters(&mut all, g, run)?;
    }
    Ok(all)
}

/// These runs without the first k.
pub(crate) fn runs_behind(runs: &[Run], k: u32) -> &[Run]
    requires { k ≤ length runs.now }
    ensures { result.now ≡ drop k runs.now }
{
    &runs[k as usize..]
}

// The first k of these runs.
fn first_runs(runs: &[Run], k: u32) -> &[Run]
    requires { k ≤ length runs.now }
    ensures { result.now ≡ take k runs.now }
{
    &runs[..k as usize]
}

/// The runs of those of a file's first k clusters that its last header lists if it has no more. An error says that memory ran out.
pub(crate) fn tail_runs(
    alloc: Global,
    g: &Geometry,
    f: &FileSeen<'_>,
    k: u32,
) -> Result<Vec<Run>, NoMemory>
    requires geometry { IsGeometry g.now }
    requires whole { IsSeenWhole g.now f.now }
    requires within { k ≤ f.now.fields.blocks / g.now.cluster }
    ensures { IfOk result (λ rs. rs.items ≡ runs_for g.now (tail_of k (file_clusters g.now (file_seen g.now f.now)))) }
{
    let all = cluster_runs(alloc, g, f)?;
    let kept = first_runs(all.as_slice(), k);
    Vec::from_slice(alloc, runs_behind(kept, HEADER_MOST * extra(k)))
}

/// Adds a run for each of these clusters. A refusal of memory says nothing of the runs.
pub(crate) fn push_runs(all: &mut Vec<Run>, g: &Geometry, clusters: &[u32]) -> Result<(), NoMemory>
    requires geometry { IsGeometry g.now }
    requires there { (q : ℕ) → Has clusters.now q → q < total_of g.now }
    ensures { OnOk result (all.new.items ≡ all.old.items ++ runs_for g.now clusters.now) }
{
    for q in clusters {
        all.push(Run {
            lbn: *q * g.cluster,
            count: g.cluster,
        })?;
    }
    Ok(())
}
