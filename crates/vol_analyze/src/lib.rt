//! What is wrong with a volume: all its findings, and how they are written.
//!
//! `analyze` gives them all, `accepted` the catalogue of a volume in which nothing is found. The type is `Finding`.
//!
//! ```text
//! let found = analyze(alloc, blocks)?;
//! for f in found.as_slice() { push_finding(alloc, &mut out, f)?; }
//! ```
//!
//! `analyze` gives exactly the findings (`AreFindings`): the first fatal one alone, if there is one, else all others, in order.
//! So the list is empty if and only if the volume is accepted. Any blocks have such a list (`there_are_findings`), and one alone
//! (`findings_are_one_list`). `push_finding` appends exactly the text of a finding. `have_more` tells whether blocks of a directory
//! have more than so many entries.
//!
//! That any blocks have a list is said apart from `analyze`, which may run out of memory. So of all statuses of the calls of `clus_top`,
//! `live_run` and `log_check`, but for faults and want of memory, one is due, whatever is in the blocks.
//!
//! The core (`core_state`), the top calls, `vol_rebuild` and `log_check` use it.
#![tactic(auto)]

mod analysis;
mod doubles;
mod firsts;
mod kinds;
mod laws;
mod texts;
mod warnings;

pub use analysis::{accepted, analyze};
pub use doubles::have_more;
pub use laws::{findings_are_one_list, there_are_findings};
pub use plain_texts::NoMemory;
pub use texts::push_finding;
pub use vol_parts::Finding;
pub use warnings::all_warnings;
