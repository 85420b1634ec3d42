//! A law of mending while entries are removed.

ghost use Rattle.std.specs.Prelude.{◌≡◌, ◌+◌, length, filter};
ghost use Rattle.plain_cat.specs.declared.cat.Cat.{Cat};
ghost use Rattle.plain_cat.specs.declared.cat.File.{File};
ghost use Rattle.plain_rules.specs.declared.places.Place.{Place};
ghost use Rattle.plain_rules.specs.Mending.{places, stays, stripped};
ghost use Rattle.plain_mends.specs.Resuming.{MendsTo, AreKeyed, Goes, less_one, is_other};

/// Mending ends the same once an entry that does not stay is gone. Which of all entries stay is as before, and so is the catalogue
/// after the first step. The entries that are left are all others, so one fewer.
pub fn entry_goes()
    ensures ends { (c : Cat) (p : Place) (d : File) (z : Cat) → AreKeyed c → Goes c p d → MendsTo c z → MendsTo (less_one c p d) z }
    ensures stay { (c : Cat) (p : Place) (d : File) (q : Place) → AreKeyed c → Goes c p d → stays (less_one c p d) q ≡ stays c q }
    ensures first { (c : Cat) (p : Place) (d : File) → AreKeyed c → Goes c p d → stripped (less_one c p d) ≡ stripped c }
    ensures others { (c : Cat) (p : Place) (d : File) → AreKeyed c → Goes c p d → places (less_one c p d) ≡ filter (is_other p) (places c) }
    ensures fewer { (c : Cat) (p : Place) (d : File) → AreKeyed c → Goes c p d → length (places (less_one c p d)) + 1 ≡ length (places c) }
{}
