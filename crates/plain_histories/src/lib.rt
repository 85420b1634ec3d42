//! Laws of what stays true along a history, proved of the definitions of the plain volume alone. Each is the contract of a function
//! that does nothing.
//!
//! `open_laws`: what the channels have open. `opens_name_files`: each open is of a user file in use, and the opens of one file are
//! compatible; this stays so along every history of a script in form. `outcome_keeps_open`: what a channel has open stays under the
//! commands of other channels, and after the death of another node. `answers_change_opens`: only OPEN answered `Opened` and CLOSE
//! answered `Closed` change it. `past_channels`: the answers of a living node show which of its channels are open.
//!
//! `usage_laws`: how far a quota row's usage may be above what its owner's files cost. `usages_stay_near`: an answer adds nothing to
//! the difference; a stage at which a node dies adds the cost of one file at most, if files are small and opens are of files in use;
//! eight deaths leave at most a million blocks. `files_stay_small`: if each user file has at most `file_most` clusters, this stays so.
//!
//! `death_laws`: what a node's death leaves of the catalogue, at any stage of its command. `deaths_keep_accounts`: the limits and the
//! quotas stay in order, if there were fewer than eight deaths before. `system_numbers_stay_taken`: no number of a system file
//! becomes free. `deaths_close_channels`: the node's own channels have nothing open, and all others what they had.
//!
//! The core (`core_state`) uses them.
#![tactic(auto)]

mod death_laws;
mod open_laws;
mod usage_laws;

pub use death_laws::{deaths_close_channels, deaths_keep_accounts, system_numbers_stay_taken};
pub use open_laws::{answers_change_opens, opens_name_files, outcome_keeps_open, past_channels};
pub use usage_laws::{files_stay_small, usages_stay_near};
