//! Laws of mending while slots, leaks and usages are put in order.

ghost use Rattle.std.specs.Prelude.{◌≡◌, ℕ, Bool, true, false, List, [], Some, map, length};
ghost use Rattle.plain_cat.specs.declared.cat.Cat.{Cat};
ghost use Rattle.plain_cat.specs.declared.cat.File.{File};
ghost use Rattle.plain_cat.specs.declared.cat.QuotaRow.{QuotaRow};
ghost use Rattle.plain_rules.specs.Lookups.{file_at};
ghost use Rattle.plain_rules.specs.Mending.{without_opens, lost, is_gone, mended};
ghost use Rattle.plain_laws.specs.Clearing.{nothing_done};
ghost use Rattle.plain_mends.specs.Resuming.{MendsTo, AllStay, leaving, IsOfUsage};
ghost use Rattle.plain_mends.specs.Waiting.{Settled, AreFull, IsDone};

/// Mending ends the same once the slot of a file is free that is marked for delete or named by no entry, where each lost file that
/// is not empty is entered and there is room for none that is empty. Each entry stays then too, and no other file becomes lost.
pub fn slot_goes()
    ensures ends { (c : Cat) (n : ℕ) (f : File) (z : Cat) → Settled c → lost c false ≡ [] → AreFull c (lost c true) → file_at c n ≡ Some f → is_gone c n f ≡ true → MendsTo c z → MendsTo (leaving c n f) z }
    ensures stay { (c : Cat) (n : ℕ) (f : File) → Settled c → lost c false ≡ [] → file_at c n ≡ Some f → is_gone c n f ≡ true → AllStay (leaving c n f) }
    ensures settled { (c : Cat) (n : ℕ) (f : File) → Settled c → lost c false ≡ [] → file_at c n ≡ Some f → is_gone c n f ≡ true → Settled (leaving c n f) }
    ensures none { (c : Cat) (n : ℕ) (f : File) → Settled c → lost c false ≡ [] → file_at c n ≡ Some f → is_gone c n f ≡ true → lost (leaving c n f) false ≡ [] }
    ensures full { (c : Cat) (n : ℕ) (f : File) → Settled c → lost c false ≡ [] → AreFull c (lost c true) → file_at c n ≡ Some f → is_gone c n f ≡ true → AreFull (leaving c n f) (lost (leaving c n f) true) }
{}

/// Mending ends the same whatever is leaked.
pub fn leaks_go()
    ensures { (c : Cat) (k : ℕ) (flags : List Bool) (z : Cat) → length flags ≡ length c.leaked_numbers → MendsTo c z → MendsTo (record c { leaked = k; leaked_numbers = flags }) z }
{}

/// Mending ends the same whatever the usages are.
pub fn usage_goes()
    ensures { (c : Cat) (change : QuotaRow → QuotaRow) (z : Cat) → IsOfUsage change → MendsTo c z → MendsTo (record c { quota = map change c.quota }) z }
{}

/// Where nothing is left to mend, mending closes what channels have open, and does nothing else.
pub fn nothing_left()
    ensures { (c : Cat) → IsDone c → mended c ≡ Some (without_opens c, nothing_done) }
{}
