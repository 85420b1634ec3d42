//! The rules of the plain volume: what each command answers on a catalogue, and the catalogue after it. There is no block, lock or
//! cache here, and one command at a time.
//!
//! The definitions are in `specs/`: `Answer`, the stages of a command that stops, `mended`, `Replays`, each node's commands in
//! their order. The functions beside them are those that the layers above share: look-ups, the form of a command, packing, accounts.
//! The program that answers whole commands is `plain_vol`.
//!
//! ```text
//! let Some(file) = live(&cat, fid) else { .. };   // the file in use, unless it is marked for delete
//! ```
//!
//! Each function gives exactly what its definition says. Laws: each command has an answer (`commands_are_answered`), and only one,
//! but for the number of a new file (`answers_are_determined`); legal entries keep the one form of a catalogue
//! (`legal_entries_keep_the_form`); what deaths leave is within bounds (`deaths_are_within`); a file needs at most one new header
//! for the growth that one command may ask for (`growth_needs_few_headers`).
//!
//! Volumes, commands and the core take the rules from it.
#![tactic(auto)]

mod accounts;
mod directories;
mod entering;
mod forms;
mod laws;
mod lookups;
mod outcome;
mod packing;
mod places;

pub use accounts::{charge, is_accounted, over_quota};
pub use directories::{
    dir_name, entry_of, has_name, highest, insert_in, inserted, look_up, with_version,
};
pub use entering::{entries_in, is_own, lost_name, with_lost_entry};
pub use forms::is_in_form;
pub use laws::{
    answers_are_determined, commands_are_answered, deaths_are_within, growth_needs_few_headers,
    legal_entries_keep_the_form, picks_are_alike,
};
pub use lookups::{file_at, free_clusters, in_use, live, row_of, slot_at};
pub use outcome::Outcome;
pub use packing::{dir_fits, fits_with};
pub use places::Place;
pub use plain_cat::{
    Blocks, Cat, Channels, Clusters, Cmd, DirEnt, DirEnts, Entry, Fid, File, FileRef, Files, Flags,
    History, Kill, KillAt, Kills, Line, LineCmd, Lines, Mended, Mode, Name, NoMemory, NumberList,
    Open, Plays, QuotaRow, QuotaRows, Refusal, Reply, Script, Slot, Stage, Uic, compatible,
};
