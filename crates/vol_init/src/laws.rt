//! Laws of fresh volumes.

ghost use Rattle.std.specs.Prelude.{◌≡◌, ◌-◌, ℕ, List, true, false, Ok};
ghost use Rattle.std.specs.List.{range_with_len, count_by};
ghost use Rattle.base_words.specs.Fields.{Block};
ghost use Rattle.fx_dir.specs.Directory.{all_entries};
ghost use Rattle.fx_dir.specs.Entries.{rises};
ghost use Rattle.fx_home.specs.declared.home.Home.{Home};
ghost use Rattle.fx_home.specs.Homes.{home_read};
ghost use Rattle.plain_rules.specs.Lookups.{free_clusters, is_free_number};
ghost use Rattle.vol_parts.specs.Findings.{home_at, Accepts, CatOf};
ghost use Rattle.vol_parts.specs.Volumes.{Volume, volume, body};
ghost use Rattle.vol_parts.specs.Warnings.{has_doubles};
ghost use Rattle.vol_init.specs.Fresh.{layout_of, IsFresh};
ghost use Rattle.vol_init.specs.declared.layout.Layout.{Layout};
ghost use Rattle.vol_init.specs.Layouts.{IsLayout, total, reserved_clusters, fresh};

/// A fresh volume is accepted: nothing is found in it, and its blocks tell the catalogue of a fresh volume.
pub fn fresh_volumes_are_accepted()
    ensures accepted { (bs : List Block) (h : Home) → home_read (home_at bs) ≡ Ok h → IsFresh (volume h bs) → Accepts bs }
    ensures catalogue { (bs : List Block) (h : Home) → home_read (home_at bs) ≡ Ok h → IsFresh (volume h bs) → CatOf bs (fresh (layout_of (volume h bs))) }
{}

/// On a fresh volume all clusters behind those of the system files are free, and so are all numbers behind theirs.
pub fn fresh_volumes_have_room()
    ensures clusters { (l : Layout) → free_clusters (fresh l) ≡ total l - reserved_clusters l }
    ensures numbers { (l : Layout) → IsLayout l → count_by (is_free_number (fresh l)) (range_with_len 1 l.files) ≡ l.files - 11 }
{}

/// A directory whose blocks, one behind the other, list entries in order has no entry in two of them.
pub fn ordered_blocks_have_no_doubles()
    ensures { (v : Volume) (n : ℕ) → rises (all_entries (body v n)) ≡ true → has_doubles v n ≡ false }
{}
