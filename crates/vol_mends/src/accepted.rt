//! Laws of accepted volumes: their catalogue is sound, their blocks are clean.

ghost use Rattle.vol_mends.specs.Clean.{AcceptedIsClean};
ghost use Rattle.vol_mends.specs.Accepted.{WeakCanMend, AcceptedIsSound};

/// The catalogue of blocks with no fatal finding can be mended, and each of its directories has a name and version once.
pub fn weak_can_mend()
    ensures { WeakCanMend }
{}

/// The catalogue of an accepted volume is in order.
pub fn accepted_is_sound()
    ensures { AcceptedIsSound }
{}

/// The blocks of an accepted volume are clean: no header lists or links more than its file has, and a header slot that is no file's
/// is free.
pub fn accepted_is_clean()
    ensures { AcceptedIsClean }
{}
