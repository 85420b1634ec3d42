//! QUOTASET and QUOTASHOW: the commands on quotas.
//!
//! `OpQuota` is either of them under way.
//!
//! ```text
//! let op = OpQuota::of(cmd);
//! let need = op.next(alloc, &seen)?;
//! ```
//!
//! `next` gives exactly the next need: Q in PW or PR, all quota blocks, and the plan, which writes one row for QUOTASET and none
//! for QUOTASHOW. Each of them in form obeys the law of a command (`quota_obeys_the_law`).
//!
//! `xqp_set` joins it to the other commands.
#![tactic(auto)]

pub mod laws;
mod operation;
mod rows;
mod setting;
mod showing;

pub use operation::OpQuota;
