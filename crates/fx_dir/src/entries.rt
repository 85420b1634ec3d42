//! The order of entries in a directory, by name and falling version.

ghost use Rattle.std.specs.Prelude.{◌≡◌, true, drop};
ghost use Rattle.std.specs.Str.{bytes_eq};
ghost use Rattle.std.specs.List.{list_all, zip};
ghost use Rattle.std.specs.Ordering.{is_lt, is_eq};
ghost use Rattle.fx_dir.specs.declared.RawEnt.{RawEnt};
ghost use Rattle.fx_dir.specs.Writing.{IsRanged};
ghost use Rattle.fx_dir.specs.Entries.{same, clash, lower, before, rises, has};

use crate::RawEnt;
use std::cmp::Ordering;

impl RawEnt {
    /// Nothing is done: the numbers of an entry are those of their types.
    pub(crate) fn know_ranges(&self)
        ensures { IsRanged self.now }
    {
        let (_seq, _limit, _flags) = (self.seq, self.limit, self.flags);
    }

    #[tactic(auto, unfolding(crate::specs::Entries::same))]
    pub(crate) fn is_same(&self, other: &RawEnt) -> bool
        ensures { result ≡ same self.now other.now }
    {
        self.ver == other.ver && self.name.is_same(&other.name)
    }

    /// Whether an entry of the same name and version has another file identifier.
    #[tactic(auto, unfolding(crate::specs::Entries::clash))]
    pub(crate) fn is_clash(&self, other: &RawEnt) -> bool
        requires { same self.now other.now ≡ true }
        ensures { result ≡ clash self.now other.now }
    {
        !(self.num == other.num && self.seq == other.seq)
    }

    /// The order of two entries: by name, then by falling version.
    pub(crate) fn order(&self, other: &RawEnt) -> Ordering
        ensures before { is_lt result ≡ before self.now other.now }
        ensures same { is_eq result ≡ same self.now other.now }
    {
        name_order(self.name.bytes(), other.name.bytes()).then(other.ver.cmp(&self.ver))
    }

    pub(crate) fn is_before(&self, other: &RawEnt) -> bool
        ensures { result ≡ before self.now other.now }
    {
        self.order(other).is_lt()
    }
}

/// By bytes, where a text comes before those that go on after it.
fn name_order(a: &[u8], b: &[u8]) -> Ordering
    ensures lower { is_lt result ≡ lower a.now b.now }
    ensures equal { is_eq result ≡ bytes_eq a.now b.now }
{
    a.cmp(b)
}

/// Whether one of this name and version is there.
pub(crate) fn has(es: &[RawEnt], e: &RawEnt) -> bool
    ensures { result ≡ has es.now e.now }
{
    es.iter().any(|x| e.is_same(x))
}

/// Whether each is before the next one.
fn each_before_next(es: &[RawEnt]) -> bool
    ensures { result ≡ list_all (λ p. before p.0 p.1) (zip es.now (drop 1 es.now)) }
{
    es.iter()
        .zip(es.iter().skip(1))
        .all(|(a, b)| a.is_before(b))
}

/// Whether each is before all that follow.
pub(crate) fn rises(es: &[RawEnt]) -> bool
    ensures { result ≡ rises es.now }
{
    each_before_next(es)
}
