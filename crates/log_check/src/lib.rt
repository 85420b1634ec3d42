//! The judge of reports, the top call of `vmscheck`: whether a report is a legal history between two images of a volume.
//!
//! `CheckStatus` is how a check ended, `Checking` that with both images. A `Draft` is the entry that a line is about, a `Verdict` what
//! is said of a report, a `Step` of one line.
//!
//! ```text
//! let checking = check_log(alloc, words, before, after, &mut log, &mut out);
//! let verdict = judge(alloc, cat, text)?;  // Legal, Unchecked or Illegal
//! ```
//!
//! `Legal` comes only if the report is a legal history from the catalogue of the volume before, and leads to that of the volume
//! after (`due`). Of words, a report and the blocks of two images, all told, one status is due, and only one, but for faults and want
//! of memory (`one_status_is_due`). What was written is said too (`written`), and both images keep their blocks (`before`, `after`). A
//! fault comes only if its object's count of faults rose.
//!
//! `draft_of` reads which entry a line is about, off its front: what was written as a line is read as its entry (`IsDrafted`); of other
//! texts it says nothing. No reply is read but the number that the reply of a new file shows: the answer is worked out on the
//! catalogue, the line is written anew, and compared byte by byte. The verdict is exactly that of the definition (`IsVerdict`), and of
//! each report one verdict is right, and only one (`a_report_has_one_verdict`).
//!
//! `vmscheck` calls it.
#![tactic(auto)]

mod answers;
mod commands;
mod deaths;
mod drafts;
mod judging;
mod laws;
mod line_laws;
mod lines;
mod numbers;
mod parts;
mod sameness;
mod shutting;
mod status;
mod steps;
mod tell;
mod tidying;
mod top;
mod volumes;

pub use commands::{Given, read_command};
pub use drafts::{Death, read_death, read_mending};
pub use judging::{Verdict, judge, judge_settled};
pub use laws::one_status_is_due;
pub use line_laws::a_report_has_one_verdict;
pub use lines::{Draft, body_of, draft_of, reply_of, shown_number};
pub use parts::rest_from;
pub use plain_cat::NoMemory;
pub use status::{CheckStatus, Checking};
pub use top::check_log;
