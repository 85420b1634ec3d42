//! Laws of mending step by step, proved of the definitions of the plain volume alone. Each is the contract of a function that
//! does nothing.
//!
//! After each small change that mending makes, mending from there ends with the same catalogue. So a mending that was stopped and
//! begun again ends the same. `entry_goes` says it of an entry that does not stay, `full_enters` and `empty_enters` of a lost
//! file that is entered in `[SYSLOST]`, `slot_goes` of a file that goes, `leaks_go` and `usage_goes` of leaks and usages.
//! `nothing_left` says when nothing is left to mend, and `sound_stays` that a catalogue in order stays so along every history.
//!
//! `vol_mends` and `vol_rebuild` use them.
#![tactic(auto)]

mod entering;
mod freeing;
mod removing;
mod sounding;

pub use entering::{empty_enters, fewer_fit, full_enters, still_full};
pub use freeing::{leaks_go, nothing_left, slot_goes, usage_goes};
pub use removing::entry_goes;
pub use sounding::sound_stays;
