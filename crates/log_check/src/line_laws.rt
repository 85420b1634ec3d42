//! Laws of reports that no code runs: the contract of each function is a theorem.

ghost use Rattle.log_check.specs.Sayings.{OneVerdict, SomeVerdict};

/// Of a report on a catalogue one thing is said, and only one: some verdict is right, and no two are.
pub fn a_report_has_one_verdict()
    ensures some { SomeVerdict }
    ensures one { OneVerdict }
{}
