//! Laws of the findings that a catalogue alone tells.

ghost use Rattle.std.specs.Prelude.{◌≡◌, ◌≤◌, ◌↔◌, ℕ, Option, None};
ghost use Rattle.plain_cat.specs.declared.cat.Cat.{Cat};
ghost use Rattle.plain_rules.specs.Mending.{mended};
ghost use Rattle.vol_parts.specs.declared.finding.Finding.{Finding};
ghost use Rattle.vol_parts.specs.Catalogues.{catalogue};
ghost use Rattle.vol_parts.specs.Fatal.{HasNoRoom};
ghost use Rattle.vol_parts.specs.Firsts.{IsFirstOf};
ghost use Rattle.vol_parts.specs.Volumes.{Volume};
ghost use Rattle.vol_faults.specs.CatFindings.{IsFirstIn};

/// The first finding of these kinds that holds of the catalogue of a volume is the first that holds of the volume.
pub fn catalogues_tell_volumes()
    ensures { (v : Volume) (k : ℕ) (r : Option Finding) → 13 ≤ k → k ≤ 16 → IsFirstIn (catalogue v) k r → IsFirstOf v k r }
{}

/// At most one lost file has no room in [SYSLOST] behind those before it, and there is one exactly where mending gives up.
pub fn room_is_lacking_where_mending_gives_up()
    ensures one { (c : Cat) (n m : ℕ) → HasNoRoom c n → HasNoRoom c m → n ≡ m }
    ensures exact { (c : Cat) → ((n : ℕ) × HasNoRoom c n) ↔ (mended c ≡ None) }
{}
