//! A law of the statuses that no code runs: the contract of the function is a theorem.

ghost use Rattle.log_check.specs.Verdicts.{SomeStatus, OneStatus};

/// Of words, a report and the blocks of two images one status is due, and only one, but for faults and want of memory. So each status
/// comes exactly where its condition holds, unless the status tells a fault or want of memory.
pub fn one_status_is_due()
    ensures some { SomeStatus }
    ensures one { OneStatus }
{
    crate::a_report_has_one_verdict();
    vol_analyze::findings_are_one_list();
    vol_analyze::there_are_findings();
}
