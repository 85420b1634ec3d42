//! What the definitions of a cache mean, as laws: no body does anything.

ghost use Rattle.node_cache.specs.Laws.{KeptIsFound, CachesStay, LocksAreThoseUsed};

/// A block that was just kept is found again.
pub fn kept_is_found()
    ensures { KeptIsFound }
{}

/// Whatever is done to a cache, it has at most 64 entries, and no block twice.
pub fn caches_stay()
    ensures { CachesStay }
{}

/// The locks that are listed are just those with an entry under them.
pub fn locks_are_those_used()
    ensures { LocksAreThoseUsed }
{}
