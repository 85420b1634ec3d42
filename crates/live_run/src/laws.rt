//! Laws of the statuses that no code runs: the contract of each function is a theorem.

ghost use Rattle.live_run.specs.Laws.{OneLiveStatusIsDue, NoOtherLiveIsDue, GoodLiveRunsAreAnswered};

/// Of both jobs and of words without a reading, of all scripts, sizes and blocks one status is due, and only one, but for faults and want
/// of memory, and of a call that mends then but for whether its volume can be mended: that hangs on the order of the threads' turns.
pub fn one_live_status_is_due()
    ensures { OneLiveStatusIsDue }
{
    run_script::a_text_says_one_thing();
    vol_analyze::findings_are_one_list();
    vol_analyze::there_are_findings();
}

/// If a status is due that is no fault and no want of memory, and of a call that mends then not `NotMendable`, no other such one is.
pub fn no_other_live_status_is_due()
    ensures { NoOtherLiveIsDue }
{
    run_script::a_text_says_one_thing();
    vol_analyze::findings_are_one_list();
}

/// A good script that threads run on an accepted volume ends with status 0, unless a call of an object fails or memory runs out; or the
/// volume, if it is mended then, cannot be mended. This is said of a call that returns.
pub fn good_live_runs_are_answered()
    ensures { GoodLiveRunsAreAnswered }
{
    run_script::a_text_says_one_thing();
    vol_analyze::findings_are_one_list();
}
