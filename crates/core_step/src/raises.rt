//! By how much the sequences of a lock are raised as it is given back.

ghost use Rattle.std.specs.Prelude.{◌≡◌, ◌++◌};
ghost use Rattle.std.specs.List.{list_any};
ghost use Rattle.lock_db.specs.Names.{is_same};
ghost use Rattle.fx_header.specs.Headers.{header_read};
ghost use Rattle.vol_parts.specs.Parts.{IsGeometry};
ghost use Rattle.core_state.specs.Raises.{is_first_part, is_free_head, writes_first, writes_second, frees, raise_by, raise_of};

use base_words::Block;
use fx_header::{Slot, read_header};
use lock_db::LockName;
use node_locks::Raise;
use op_law::PlanWrite;
use vol_parts::Geometry;

/// Whether two names are the same.
pub(crate) fn is_same(a: LockName, b: LockName) -> bool
    ensures { result ≡ is_same a b }
{
    match (a, b) {
        (LockName::S(n), LockName::S(m)) => n == m,
        (LockName::A(n), LockName::A(m)) => n == m,
        (LockName::Q, LockName::Q) | (LockName::X, LockName::X) | (LockName::V, LockName::V) => {
            true
        }
        _ => false,
    }
}

/// Whether a block is of the first part of what a lock guards.
pub(crate) fn is_first_part(g: &Geometry, name: LockName, lbn: u32) -> bool
    requires { IsGeometry g.now }
    ensures { result ≡ is_first_part g.now name lbn }
{
    match name {
        LockName::S(n) => lbn as u64 == 4 * g.cluster as u64 + n as u64,
        LockName::Q => true,
        LockName::V => lbn == 4 * g.cluster,
        LockName::A(_) | LockName::X => false,
    }
}

// Whether a header tells a free slot.
fn is_free_head(b: &Block) -> bool
    ensures { result ≡ is_free_head (header_read b.now) }
{
    matches!(read_header(b), Ok(Slot::Free(_)))
}

// Whether a write is to the first part under this lock, and to the second.
fn writes_first(g: &Geometry, name: LockName, w: &PlanWrite) -> bool
    requires { IsGeometry g.now }
    ensures { result ≡ writes_first g.now name w.now }
{
    is_same(w.lock, name) && is_first_part(g, name, w.lbn)
}

fn writes_second(g: &Geometry, name: LockName, w: &PlanWrite) -> bool
    requires { IsGeometry g.now }
    ensures { result ≡ writes_second g.now name w.now }
{
    is_same(w.lock, name) && !is_first_part(g, name, w.lbn)
}

// Whether a write frees a header slot under this lock.
fn frees(g: &Geometry, name: LockName, w: &PlanWrite) -> bool
    requires { IsGeometry g.now }
    ensures { result ≡ frees g.now name w.now }
{
    match name {
        LockName::S(_) => writes_first(g, name, w) && is_free_head(&w.block),
        _ => false,
    }
}

// Two where a slot was freed, else one where the part was written.
fn raise_by(freed: bool, wrote: bool) -> u64
    ensures { result ≡ raise_by freed wrote }
{
    if freed {
        2
    } else if wrote {
        1
    } else {
        0
    }
}

fn any_frees(g: &Geometry, name: LockName, ws: &[PlanWrite]) -> bool
    requires { IsGeometry g.now }
    ensures { result ≡ list_any (frees g.now name) ws.now }
{
    for w in ws {
        if frees(g, name, w) {
            return true;
        }
    }
    false
}

fn any_first(g: &Geometry, name: LockName, ws: &[PlanWrite]) -> bool
    requires { IsGeometry g.now }
    ensures { result ≡ list_any (writes_first g.now name) ws.now }
{
    for w in ws {
        if writes_first(g, name, w) {
            return true;
        }
    }
    false
}

fn any_second(g: &Geometry, name: LockName, ws: &[PlanWrite]) -> bool
    requires { IsGeometry g.now }
    ensures { result ≡ list_any (writes_second g.now name) ws.now }
{
    for w in ws {
        if writes_second(g, name, w) {
            return true;
        }
    }
    false
}

/// By how much these writes raise the two sequences of a lock.
pub(crate) fn raise_by_writes(g: &Geometry, name: LockName, ws: &[PlanWrite]) -> Raise
    requires { IsGeometry g.now }
    ensures { result ≡ raise_of g.now name ws.now }
{
    let freed = any_frees(g, name, ws);
    Raise {
        first: raise_by(freed, any_first(g, name, ws)),
        second: raise_by(freed, any_second(g, name, ws)),
    }
}

/// By how much these writes, those of a search and those of a plan, raise the two sequences of a lock.
pub(crate) fn raise_of(g: &Geometry, name: LockName, takes: &[PlanWrite], ws: &[PlanWrite]) -> Raise
    requires { IsGeometry g.now }
    ensures { result ≡ raise_of g.now name (takes.now ++ ws.now) }
{
    let freed = any_frees(g, name, takes) || any_frees(g, name, ws);
    let first = any_first(g, name, takes) || any_first(g, name, ws);
    let second = any_second(g, name, takes) || any_second(g, name, ws);
    Raise {
        first: raise_by(freed, first),
        second: raise_by(freed, second),
    }
}
