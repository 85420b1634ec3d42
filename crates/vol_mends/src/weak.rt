//! Laws of blocks with no fatal finding: they can be read and mended.

ghost use Rattle.vol_mends.specs.Weak.{SpeltIsWeak};
ghost use Rattle.vol_mends.specs.Mends.{SpeltMends, SoundCanMend, SoundIsReadable};

/// Where nobody holds anything outside, blocks that spell a catalogue that can be mended have no fatal finding, and the catalogue that
/// is read of them is this one, with nothing open.
pub fn spelt_is_weak()
    ensures { SpeltIsWeak }
{}

/// So such blocks mend to what their catalogue mends to.
pub fn spelt_mends()
    ensures { SpeltMends }
{}

/// A catalogue in order can be mended, unless `[SYSLOST]` lacks room for a lost file that is not empty.
pub fn sound_can_mend()
    ensures { SoundCanMend }
{}

/// Blocks that spell a catalogue in order can be read: the one fatal finding that they may have is that `[SYSLOST]` lacks room for a
/// lost file that is not empty, and they have it exactly where mending gives up.
pub fn sound_is_readable()
    ensures { SoundIsReadable }
{}
