//! A law of the end of mending: where nothing is left to mend, the volume is accepted.

ghost use Rattle.vol_mends.specs.Done.{DoneIsAccepted};

/// Where nothing is left to mend, the blocks are clean and no entry stands in two blocks, the volume is accepted, and mends to the
/// catalogue that it tells.
pub fn done_is_accepted()
    ensures { DoneIsAccepted }
{}
