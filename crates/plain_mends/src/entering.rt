//! Laws of mending while lost files are entered in `[SYSLOST]`.

ghost use Rattle.std.specs.Prelude.{◌≡◌, ◌<◌, ◌++◌, ℕ, true, false, List, [], ◌∷◌, Some, None, length};
ghost use Rattle.std.specs.Str.{bytes_eq};
ghost use Rattle.plain_cat.specs.declared.entries.DirEnt.{DirEnt};
ghost use Rattle.plain_cat.specs.declared.cat.Cat.{Cat};
ghost use Rattle.plain_rules.specs.Directories.{inserted, fits};
ghost use Rattle.plain_rules.specs.Mending.{lost, lost_name, with_lost_entry, enter};
ghost use Rattle.plain_mends.specs.Resuming.{MendsTo, AllStay};
ghost use Rattle.plain_mends.specs.Waiting.{Settled, LostIsWritten, AreFull};

/// Fewer entries fit where more do.
pub fn fewer_fit()
    ensures { (k : ℕ) (e : DirEnt) (es : List DirEnt) → fits k (inserted e es) ≡ true → fits k es ≡ true }
{}

/// Where there is no room in `[SYSLOST]` for a file, there is none once an entry of another name is there. The names of lost files,
/// which have five digits, tell their numbers.
pub fn still_full()
    ensures full { (factor : ℕ) (es : List DirEnt) (e : DirEnt) (n seq : ℕ) → bytes_eq e.name (lost_name n) ≡ false → with_lost_entry factor es n seq ≡ None → with_lost_entry factor (inserted e es) n seq ≡ None }
    ensures names { (n k : ℕ) → n < 100000 → k < 100000 → lost_name n ≡ lost_name k → n ≡ k }
{}

/// Mending ends the same once the next lost file that is not empty is entered in `[SYSLOST]`, where each entry stays. Each entry
/// stays then too, with names and own entries as before, and the files that are still to be entered are the others.
pub fn full_enters()
    ensures ends { (x y : Cat) (n : ℕ) (ns : List ℕ) (z : Cat) → Settled x → lost x false ≡ n ∷ ns → enter x n ≡ Some y → MendsTo x z → MendsTo y z }
    ensures stay { (x y : Cat) (n : ℕ) (ns : List ℕ) → Settled x → lost x false ≡ n ∷ ns → enter x n ≡ Some y → AllStay y }
    ensures settled { (x y : Cat) (n : ℕ) (ns : List ℕ) → Settled x → LostIsWritten x → lost x false ≡ n ∷ ns → enter x n ≡ Some y → Settled y × LostIsWritten y }
    ensures full { (x y : Cat) (n : ℕ) (ns : List ℕ) → Settled x → lost x false ≡ n ∷ ns → enter x n ≡ Some y → lost y false ≡ ns }
    ensures empty { (x y : Cat) (n : ℕ) (ns : List ℕ) → Settled x → lost x false ≡ n ∷ ns → enter x n ≡ Some y → lost y true ≡ lost x true }
{}

/// Mending ends the same once a lost file that is empty is entered, where those that are not empty are all entered and there is no
/// room for the empty ones before it. There is none for these afterwards either.
pub fn empty_enters()
    ensures ends { (x y : Cat) (ms : List ℕ) (n : ℕ) (ns : List ℕ) (z : Cat) → Settled x → length x.files < 100000 → lost x false ≡ [] → lost x true ≡ ms ++ n ∷ ns → AreFull x ms → enter x n ≡ Some y → MendsTo x z → MendsTo y z }
    ensures stay { (x y : Cat) (ms : List ℕ) (n : ℕ) (ns : List ℕ) → Settled x → lost x true ≡ ms ++ n ∷ ns → enter x n ≡ Some y → AllStay y }
    ensures settled { (x y : Cat) (ms : List ℕ) (n : ℕ) (ns : List ℕ) → Settled x → LostIsWritten x → lost x true ≡ ms ++ n ∷ ns → enter x n ≡ Some y → Settled y × LostIsWritten y }
    ensures none { (x y : Cat) (ms : List ℕ) (n : ℕ) (ns : List ℕ) → Settled x → lost x false ≡ [] → lost x true ≡ ms ++ n ∷ ns → enter x n ≡ Some y → lost y false ≡ [] }
    ensures empty { (x y : Cat) (ms : List ℕ) (n : ℕ) (ns : List ℕ) → Settled x → lost x true ≡ ms ++ n ∷ ns → enter x n ≡ Some y → lost y true ≡ ms ++ ns }
    ensures full { (x y : Cat) (ms : List ℕ) (n : ℕ) (ns : List ℕ) → Settled x → length x.files < 100000 → lost x true ≡ ms ++ n ∷ ns → AreFull x ms → enter x n ≡ Some y → AreFull y ms }
{}
