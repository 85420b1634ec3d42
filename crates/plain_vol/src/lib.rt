//! The plain volume: what each command answers on a catalogue, and the catalogue after it, as a program. It follows the definitions
//! of `plain_rules`, which it passes on with the types.
//!
//! `check_reply` is the judge of an entry of a history, and gives `Checked`. `outcome_on` takes a `Cat` by value, changes it in place
//! and gives an `Outcome`; `died_on` does the same for a death. A command takes the file that it changes out of the catalogue, changes
//! it and puts it back, so that no contents and no directory are copied.
//!
//! ```text
//! let Checked::Legal(after) = check_reply(alloc, &cat, &entry)? else { .. };
//! let outcome = outcome_on(alloc, cat, node, &cmd, number)?;  // number: what a new file or header takes, or none
//! ```
//!
//! `Legal`, with the catalogue after it, comes if and only if the rules have the case (`exact`); a death at a later stage than
//! `nothing` is always `Illegal`, since the entry does not contain the command. `outcome_on` is exactly `outcome` of `plain_rules`.
//! `died_on` gives exactly the catalogue after the death, without file numbers, and none if and only if fewer clusters are free than
//! it leaks. `free_count` is how many numbers there are to take: the free ones less those of extension headers. `pick` gives a number
//! that a new header may have, or none if there is none. After want of memory `outcome_on`'s catalogue is gone. `log_check` uses these
//! calls.
#![tactic(auto)]

mod changes;
mod channels;
mod checking;
mod dying;
mod entering;
mod entries;
mod headers;
mod judge;
mod lookups;
mod making;
mod mending;
mod naming;
mod outcomes;
mod picks;
mod quotas;
mod readers;
mod sameness;
mod sizing;

pub use checking::Checked;
pub use dying::died_on;
pub use judge::check_reply;
pub use outcomes::outcome_on;
pub use picks::{free_count, is_free_number, pick};
pub use plain_cat::{
    Blocks, Cat, Channels, Clusters, Cmd, DirEnt, DirEnts, Entry, Fid, File, FileRef, Files, Flags,
    History, Kill, KillAt, Kills, Line, LineCmd, Lines, Mended, Mode, Name, NoMemory, NumberList,
    Open, Plays, QuotaRow, QuotaRows, Refusal, Reply, Script, Slot, Stage, Uic, compatible,
};
pub use plain_rules::{
    Outcome, dir_fits, file_at, free_clusters, in_use, is_accounted, is_in_form, live, look_up,
};
