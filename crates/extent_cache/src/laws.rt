//! What the definitions of a stock mean, as laws: no body does anything.

ghost use Rattle.extent_cache.specs.Laws.{PutsAreExact};

/// What is put in is held afterwards, what was held still is, and nothing else.
pub fn puts_are_exact()
    ensures { PutsAreExact }
{}
