//! What a node's command needs next.

ghost use Rattle.std.specs.Prelude.{◌≡◌, ◌+◌, ◌-◌, ◌/◌, false, IfOk, OnErr, IfSome, None, true, ◌≤◌, ◌<◌, ℕ, Bool, IsSome, IsTrue};
ghost use Rattle.plain_rules.specs.Lookups.{header_most, extra};
ghost use Rattle.vol_parts.specs.Parts.{IsGeometry};
ghost use Rattle.vol_spell.specs.Reading.{fields_told};
ghost use Rattle.vol_spell.specs.Spelling.{size_in};
ghost use Rattle.op_law.specs.Events.{HasNoSpace, space_of};
ghost use Rattle.op_law.specs.Knows.{wants_header};
ghost use Rattle.op_law.specs.Needs.{need_of};
ghost use Rattle.op_law.specs.Fits.{FitsSeen};
ghost use Rattle.core_state.specs.Worlds.{state_of};
ghost use Rattle.core_step.specs.Ready.{WantsSpace, IsSearching, IsNotSearching, SearchesAsNeeded};

use base_words::Block;
use core_space::Phase;
use core_state::Node;
use fx_header::{Slot, read_header};
use op_law::{HEADER_MOST, Need, NoMemory, Operation, Seen};
use plain_cat::Cmd;
use std::alloc::Global;
use vol_parts::Geometry;

// Blocks rounded up to clusters, where they are at most as many as a volume has.
fn clusters_for(g: &Geometry, blocks: u32) -> Option<u32>
    requires { IsGeometry g.now }
    ensures some { IfSome result (λ k. k ≡ (blocks + (g.now.cluster - 1)) / g.now.cluster) }
    ensures none { result ≡ None → 65536 < blocks }
{
    if 65536 < blocks {
        return None;
    }
    Some((blocks + (g.cluster - 1)) / g.cluster)
}

// So many clusters, and a number or none, where that is something.
fn something(clusters: u32, number: bool) -> Option<(u32, bool)>
    ensures same { IfSome result (λ wanted. wanted ≡ (clusters, number)) }
    ensures none { result ≡ None → (clusters ≡ 0) × (number ≡ false) }
    ensures some { IfSome result (λ wanted. (clusters ≡ 0) × (number ≡ false) → ⊥) }
{
    if clusters == 0 && !number {
        return None;
    }
    Some((clusters, number))
}

// The blocks of the file whose first header this is, or none where there is no file.
fn size_told(b: &Block) -> u32
    ensures { result ≡ size_in (fields_told b.now) }
{
    match read_header(b) {
        Ok(Slot::Used(h)) => if h.seg == 0 { h.blocks } else { 0 },
        Ok(Slot::Free(_)) => 0,
        Err(_) => 0,
    }
}

// How many headers a file of so many clusters has behind its first one.
fn extra(clusters: u64) -> u64
    ensures { result ≡ extra clusters }
{
    clusters.saturating_sub(1) / HEADER_MOST as u64
}

// Whether the file whose first header was seen first gets a header more with so many clusters.
fn wants_header(g: &Geometry, more: u32, blocks: &[(u32, Block)]) -> bool
    requires { IsGeometry g.now }
    ensures { result ≡ wants_header g.now more blocks.now }
{
    match blocks {
        [] => false,
        [(_, first), ..] => {
            let had = (size_told(first) / g.cluster) as u64;
            extra(had) < extra(had + more as u64)
        }
    }
}

// What a command that has seen this searches for, where it searches for space and that is within the volume.
fn space_wanted(seen: &Seen, cmd: &Cmd) -> Option<(u32, bool)>
    requires { IsGeometry seen.now.geometry }
    ensures some { IfSome result (λ wanted. WantsSpace seen.now cmd.now wanted.0 wanted.1) }
    ensures none { result ≡ None → (k : ℕ) (b : Bool) → WantsSpace seen.now cmd.now k b → k ≤ header_most → ⊥ }
{
    let g = &seen.geometry;
    match cmd {
        Cmd::Create { blocks, .. } => something(clusters_for(g, *blocks)?, true),
        Cmd::MkDir { .. } => something(1, true),
        Cmd::Extend { blocks, .. } => {
            let more = clusters_for(g, *blocks)?;
            something(more, wants_header(g, more, seen.blocks.items()))
        }
        _ => None,
    }
}

// Whether a command was given no space, and none was refused.
fn has_no_space(seen: &Seen) -> bool
    ensures some { IsTrue result → HasNoSpace (space_of seen.now) }
    ensures none { result ≡ false → HasNoSpace (space_of seen.now) → ⊥ }
{
    seen.clusters.items().is_empty() && seen.number.is_none() && seen.short.is_none()
}

// What a node searches for for its command, where the search is begun and has come to nothing yet.
fn searched_for<O: Operation>(node: &Node<O>, cmd: &Cmd) -> Option<(u32, bool)>
    requires { IsGeometry node.now.seen.geometry }
    ensures some { IfSome result (λ wanted. IsSearching (state_of O.cmd_is node.now) cmd.now wanted.0 wanted.1) }
    ensures none { result ≡ None → (k : ℕ) (b : Bool) → IsSearching (state_of O.cmd_is node.now) cmd.now k b → k ≤ header_most → ⊥ }
{
    let searches = matches!(node.run.phase, Phase::Fill | Phase::Drain | Phase::Last);
    if !searches || !has_no_space(&node.seen) {
        return None;
    }
    space_wanted(&node.seen, cmd)
}

/// What a node's command needs next. While a search for space looks on, that is known without the operation, which is not
/// asked. An error says that memory ran out.
pub(crate) fn next_need<O: Operation>(alloc: Global, node: &Node<O>) -> Result<Need, NoMemory>
    requires op { IsSome node.now.op }
    requires fits { IfSome node.now.op (λ op. FitsSeen (O.cmd_is op) node.now.seen) }
    requires geometry { IsGeometry node.now.seen.geometry }
    requires searches { SearchesAsNeeded (state_of O.cmd_is node.now) }
    ensures need { IfOk result (λ need. IfSome node.now.op (λ op. need_of (O.cmd_is op) node.now.seen ≡ need)) }
    ensures memory { OnErr result (IsNotSearching (state_of O.cmd_is node.now)) }
{
    let Some(op) = &node.op else { unreachable!() };
    if let Some((clusters, number)) = searched_for(node, op.cmd()) {
        return Ok(Need::Space { clusters, number });
    }
    op.next(alloc, &node.seen)
}
