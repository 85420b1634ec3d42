//! Laws of the statuses that no code runs: the contract of each function is a theorem.

ghost use Rattle.std.specs.Prelude.{◌≡◌, ℕ, List, Option, length};
ghost use Rattle.base_words.specs.Fields.{Block, AreWholeBlocks};
ghost use Rattle.clus_top.specs.Words.{Wanted};
ghost use Rattle.clus_top.specs.Verdicts.{HasOneVerdict, NoOtherIsDue, GoodRunsAreAnswered};

/// Of all jobs, scripts and images one status is due, and only one, but for faults and want of memory. So of a run that is mended then
/// `NotMendable` is due exactly if its run, which comes to one end, leads to a volume that cannot be mended.
pub fn one_status_is_due()
    ensures { (wanted : Option Wanted) (bytes : List ℕ) (size : ℕ) (bs : List Block) → length bs ≡ size → AreWholeBlocks bs → HasOneVerdict wanted bytes size bs }
{
    run_script::a_text_says_one_thing();
    vol_analyze::findings_are_one_list();
    vol_analyze::there_are_findings();
    vol_records::faults_are_first();
    vol_repair::first_beyond_is_there();
    vol_sound::first_beyond_is_one();
    vol_faults::room_is_lacking_where_mending_gives_up();
}

/// If a status is due that is no fault and no want of memory, no other such one is.
pub fn no_other_status_is_due()
    ensures { NoOtherIsDue }
{
    run_script::a_text_says_one_thing();
    vol_analyze::findings_are_one_list();
    vol_sound::first_beyond_is_one();
    vol_faults::room_is_lacking_where_mending_gives_up();
}

/// A good script that is run on an accepted volume, and a soak on one, ends with status 0, unless a call of an object fails or memory
/// runs out; or the volume of a run that is mended then cannot be mended.
pub fn good_runs_are_answered()
    ensures { GoodRunsAreAnswered }
{
    run_script::a_text_says_one_thing();
    vol_analyze::findings_are_one_list();
}
