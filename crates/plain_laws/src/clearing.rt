//! Laws of mending: what it clears, and that a second one does nothing.

ghost use Rattle.std.specs.Prelude.{◌≡◌, Some};
ghost use Rattle.plain_cat.specs.declared.history.Mended.{Mended};
ghost use Rattle.plain_cat.specs.declared.cat.Cat.{Cat};
ghost use Rattle.plain_rules.specs.Mending.{mended};
ghost use Rattle.plain_laws.specs.Clearing.{Cleared, AreNamed, KeepsNames, AreOwned, nothing_done};

/// After mending nobody uses the volume, nothing is leaked, no file is marked for delete, and each owner's usage is what its
/// files cost. Each file is named by an entry of a directory too, where before no directory with entries was marked for
/// delete or counted as never written, and [SYSLOST] was a directory with its own entry.
pub fn mending_clears()
    ensures cleared { (c d : Cat) (m : Mended) → mended c ≡ Some (d, m) → Cleared d }
    ensures named { (c d : Cat) (m : Mended) → KeepsNames c → mended c ≡ Some (d, m) → AreNamed d }
{}

/// Mending a second time does nothing, where besides each system file had its own entry before the first time, unless the
/// file was marked for delete.
pub fn mending_is_idempotent()
    ensures { (c d : Cat) (m : Mended) → KeepsNames c → AreOwned c → mended c ≡ Some (d, m) → mended d ≡ Some (d, nothing_done) }
{}
